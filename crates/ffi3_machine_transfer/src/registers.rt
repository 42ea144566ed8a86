//! The registers through which a call passes its values: the machine's own, or the words of the exchange region.
ghost use Rattle.std.specs.Prelude.{◌≡◌, ◌<◌, slice_index, false};
ghost use Rattle.ffi3_type_spec.specs.TargetIsa.{isa_of};
ghost use Rattle.ffi3_place_spec.specs.MachineRegisters.{is_zero_register};
ghost use Rattle.ffi3_machine_spec.specs.State.{with_floating, with_general};
ghost use Rattle.ffi3_machine_transfer.specs.Passing.{by_exchange, passing};

use ffi3_machine::{Machine, Target};

/// Whether calls of the target go by its stubs, and pass their registers by the exchange region: where it has stubs.
#[tactic(auto, unfolding(crate::specs::Passing::by_exchange))]
pub fn by_exchange(target: Target) -> bool
    ensures { result ≡ by_exchange target }
{
    match target {
        Target::Amd64 => true,
        Target::Aapcs64 => true,
        Target::Riscv => true,
        Target::Win64 => false,
        Target::Apple => true,
    }
}

/// What a call passes in general register `k`.
pub fn passed_general(machine: &Machine, k: u8) -> u64
    requires { k < 32 }
    ensures { result ≡ slice_index (passing machine.now).general k }
{
    let exchanged = by_exchange(machine.target());
    if exchanged {
        machine.x(8 * k as u64)
    } else {
        machine.g(k)
    }
}

/// What a call passes in floating register `k`.
pub fn passed_floating(machine: &Machine, k: u8) -> u64
    requires { k < 32 }
    ensures { result ≡ slice_index (passing machine.now).floating k }
{
    let exchanged = by_exchange(machine.target());
    if exchanged {
        machine.x(256 + 8 * k as u64)
    } else {
        machine.f(k)
    }
}

/// Passes a value in general register `k`.
pub fn pass_general(machine: &mut Machine, k: u8, value: u64)
    requires below { k < 32 }
    requires writable { is_zero_register (isa_of machine.old.target) k ≡ false }
    ensures { passing machine.new ≡ with_general k value (passing machine.old) }
{
    machine.facts();
    let exchanged = by_exchange(machine.target());
    if exchanged {
        machine.set_x(8 * k as u64, value);
    } else {
        machine.set_g(k, value);
    }
}

/// Passes a value in floating register `k`.
pub fn pass_floating(machine: &mut Machine, k: u8, value: u64)
    requires { k < 32 }
    ensures { passing machine.new ≡ with_floating k value (passing machine.old) }
{
    machine.facts();
    let exchanged = by_exchange(machine.target());
    if exchanged {
        machine.set_x(256 + 8 * k as u64, value);
    } else {
        machine.set_f(k, value);
    }
}
