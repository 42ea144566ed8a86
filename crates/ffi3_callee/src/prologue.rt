//! The entry of a callee: what it is to give back is saved.
ghost use Rattle.std.specs.Prelude.{◌≡◌, ◌+◌, ◌-◌, ◌≤◌, ◌%◌, ◌^◌, true, [], ◌∷◌};
ghost use Rattle.std.specs.List.{AllByRecursion};
ghost use Rattle.ffi3_type_spec.specs.declared.limits.TheConstants.{ENTRY, STACK, STACK_TOP};
ghost use Rattle.ffi3_type_spec.specs.TargetIsa.{isa_of};
ghost use Rattle.ffi3_place_spec.specs.declared.Loc.{Loc};
ghost use Rattle.ffi3_place_spec.specs.declared.Loc.TheVariants.{G};
ghost use Rattle.ffi3_place_spec.specs.MachineRegisters.{to_list};
ghost use Rattle.ffi3_place_spec.specs.StubRegisters.{area_bytes, hidden_register};
ghost use Rattle.ffi3_place_spec.specs.Sound.{IsOneOf};
ghost use Rattle.ffi3_machine_spec.specs.declared.stub.TheConstants.{ENTRY_SP_AT};
ghost use Rattle.ffi3_machine_spec.specs.State.{with_x};
ghost use Rattle.ffi3_machine_spec.specs.Stubs.{Entry};
ghost use Rattle.ffi3_stubs.specs.Calls.{HasEntered, after_entry, steps_of};
ghost use Rattle.ffi3_machine_transfer.specs.Passing.{by_exchange};
ghost use Rattle.ffi3_callee.specs.Entered.{IsEntered, entered_if};
ghost use Rattle.ffi3_callee.specs.Saved.{HiddenLies};

use crate::save_area::save_words;
use ffi3_machine::{ENTRY_SP_AT, Machine, StackBase};
use ffi3_machine_transfer::by_exchange;
use ffi3_place::{Abi, Loc};
use ffi3_stubs::run_entry;

/// Enters by the stub Entry, with the block's address as stack pointer.
fn enter_by_stub(machine: &mut Machine, block: u64)
    requires entry { machine.old.pc ≡ ENTRY }
    requires low { STACK + area_bytes (isa_of machine.old.target) ≤ machine.old.sp }
    requires high { machine.old.sp ≤ STACK_TOP }
    ensures whole { machine.new ≡ after_entry (isa_of machine.old.target) (with_x ENTRY_SP_AT block machine.old) }
    ensures says { HasEntered (isa_of machine.old.target) (with_x ENTRY_SP_AT block machine.old) machine.new }
    ensures counted { machine.new.steps ≡ (machine.old.steps + steps_of (isa_of machine.old.target) Entry) % 2 ^ 64 }
{
    machine.set_x(ENTRY_SP_AT, block);
    run_entry(machine);
}

/// Enters the callee, whose block begins at an address: what is to be given back is saved below the stack pointer.
/// Stack places count from the address `base`, the end of the return address.
pub fn enter<A: Abi>(machine: &mut Machine, base: StackBase, block: u64, hidden: Option<Loc>)
    requires target { machine.old.target ≡ A.TARGET }
    requires entry { machine.old.pc ≡ ENTRY }
    requires room { STACK + A.standard.save ≤ machine.old.sp }
    requires base { base ≡ machine.old.sp + A.standard.link }
    requires below { block ≤ machine.old.sp }
    requires hidden { HiddenLies (STACK_TOP - base) hidden }
    requires hidden_saved { by_exchange machine.old.target ≡ true → AllByRecursion (IsOneOf (G (hidden_register (isa_of A.standard.target)) ∷ [])) (to_list hidden) }
    ensures whole { machine.new ≡ entered_if (by_exchange machine.old.target) A.standard hidden block machine.old }
    ensures entered { IsEntered A.standard hidden block machine.old machine.new }
{
    // its contract tells where it lies
    let _at = base.address();
    let sp = machine.sp();
    let exchanged = by_exchange(machine.target());
    if exchanged {
        enter_by_stub(machine, block);
    } else {
        save_words::<A>(machine, sp - A::SAVE, base, hidden);
        machine.set_sp(block);
    }
}
