//! An address in the stack, above which a frame or a block stands.
ghost use Rattle.std.specs.Prelude.{◌≡◌, ◌≤◌};
ghost use Rattle.ffi3_type_spec.specs.declared.limits.TheConstants.{STACK, STACK_TOP};

use std::marker::Model;

/// An address in the stack, or its end: where a frame or a block of arguments begins. Contracts see the address.
#[derive(Clone, Copy, Debug)]
pub struct StackBase {
    address: u64,
}

impl Model for StackBase {
    ghost use Rattle.std.specs.Prelude.{ℕ, ◌≤◌};
    ghost use Rattle.ffi3_type_spec.specs.declared.limits.TheConstants.{STACK, STACK_TOP};

    ghost Value = { ℕ };

    ghost view = { λ b. b.address };

    ghost inverse = { λ n. record { address = n } };

    ghost invariant = { λ b. (STACK ≤ b.address) × (b.address ≤ STACK_TOP) };
}

impl StackBase {
    /// The address, which lies in the stack or is its end.
    pub fn at(address: u64) -> StackBase
        requires low { STACK ≤ address }
        requires high { address ≤ STACK_TOP }
        ensures { result ≡ address }
    {
        StackBase { address }
    }

    /// The address itself.
    pub fn address(self) -> u64
        ensures value { result ≡ self }
        ensures low { STACK ≤ self }
        ensures high { self ≤ STACK_TOP }
    {
        self.address
    }
}
