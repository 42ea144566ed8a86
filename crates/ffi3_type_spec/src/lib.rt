//! Definitions of types, layouts, signatures, values and their texts; and rounding up.
#![tactic(auto)]

ghost use Rattle.std.specs.Prelude.{◌≡◌, ◌+◌, ◌<◌, ◌^◌};
ghost use Rattle.ffi3_type_spec.specs.Layout.{IsLeastMultiple, least_multiple};
ghost use Rattle.ffi3_type_spec.specs.TargetIsa.{isa_of};
ghost use Rattle.ffi3_type_spec.specs.Fault.{takes_void, takes_array, takes_complex};

pub mod limits;

/// The least multiple of `align` that is not below `n`.
pub fn round_up(n: u64, align: u64) -> u64
    requires nonzero { 0 < align }
    requires fits { n + align < 2 ^ 64 }
    ensures value { result ≡ least_multiple align n }
    ensures least { IsLeastMultiple align n result }
    ensures close { result < n + align }
{
    n.next_multiple_of(align)
}

/// What a type is used as: a result, an argument, or an element of a struct or an array; or any of these, where its
/// layout, its values or its text alone are asked for. A result or an argument is one of a call on the machine, or of one
/// that is placed alone.
#[derive(Clone, Copy, Debug, PartialEq, Eq)]
pub enum Role {
    AsResult,
    AsArgument,
    AsElement,
    Anywhere,
    PlacedResult,
    PlacedArgument,
}

impl Role {
    /// Whether Void may stand there.
    pub fn takes_void(self) -> bool
        ensures { result ≡ takes_void self }
    {
        match self {
            Role::AsResult | Role::Anywhere | Role::PlacedResult => true,
            Role::AsArgument | Role::AsElement | Role::PlacedArgument => false,
        }
    }

    /// Whether an array may stand there.
    pub fn takes_array(self) -> bool
        ensures { result ≡ takes_array self }
    {
        match self {
            Role::AsElement | Role::Anywhere => true,
            Role::AsResult | Role::AsArgument => false,
            Role::PlacedResult | Role::PlacedArgument => false,
        }
    }

    /// Whether a complex long double of 32 bytes may stand there by itself.
    pub fn takes_complex(self) -> bool
        ensures { result ≡ takes_complex self }
    {
        match self {
            Role::AsResult | Role::AsArgument => false,
            Role::AsElement | Role::Anywhere => true,
            Role::PlacedResult | Role::PlacedArgument => true,
        }
    }
}

/// The standard that a call follows: System V AMD64, Arm AAPCS64, RISC-V with LP64D, Microsoft x64, or Apple's of
/// AArch64.
#[derive(Clone, Copy, Debug, PartialEq, Eq)]
pub enum Target {
    Amd64,
    Aapcs64,
    Riscv,
    Win64,
    Apple,
}

/// The instruction set of a target: of its decoder, its trampolines and its registers' numbers.
#[derive(Clone, Copy, Debug, PartialEq, Eq)]
pub enum Isa {
    Amd64,
    Aarch64,
    Riscv,
}

impl Target {
    /// The instruction set that the target's machine has.
    pub fn isa(self) -> Isa
        ensures { result ≡ isa_of self }
    {
        match self {
            Target::Amd64 => Isa::Amd64,
            Target::Aapcs64 => Isa::Aarch64,
            Target::Riscv => Isa::Riscv,
            Target::Win64 => Isa::Amd64,
            Target::Apple => Isa::Aarch64,
        }
    }
}
