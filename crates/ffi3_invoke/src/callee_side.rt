//! The callee's side of a call, from the closure's entry on.
ghost use Rattle.std.specs.Prelude.{◌≡◌, ◌+◌, ◌≤◌, ◌++◌, List, [], ◌∷◌, length};
ghost use Rattle.ffi3_type_spec.specs.TargetIsa.{isa_of};
ghost use Rattle.ffi3_type_spec.specs.Value.{ValueTree};
ghost use Rattle.ffi3_type_spec.specs.declared.limits.TheConstants.{ENTRY, STACK, STACK_TOP};
ghost use Rattle.ffi3_place_spec.specs.Standard.{block_bytes, frame_of};
ghost use Rattle.ffi3_machine_spec.specs.State.{HasReturnAddress, after_enter, scribbled_floating, scribbled_general};
ghost use Rattle.ffi3_machine_spec.specs.Stubs.{Entry};
ghost use Rattle.ffi3_stubs.specs.Calls.{steps_of};
ghost use Rattle.ffi3_machine_transfer.specs.Passing.{by_exchange, steps_if};
ghost use Rattle.ffi3_machine_transfer.specs.Stored.{WroteWithin, with_journal_of};
ghost use Rattle.ffi3_callee.specs.Received.{IsIncoming, IsReceived, OwnsAtEntry};
ghost use Rattle.ffi3_invoke.specs.Calls.{IsInCallee, KeepsReserved, entered_closure, entry_at};

use ffi3_callee::{Incoming, receive};
use ffi3_cif::Cif;
use ffi3_machine::{Machine, closure_register};
use ffi3_place::Abi;

/// The address of the closure that is entered, where its trampoline has run: what the closure register holds.
pub fn entered_closure(machine: &Machine) -> u64
    ensures { result ≡ entered_closure machine.now }
{
    machine.g(closure_register(machine.target().isa()))
}

/// At an entry of any caller whose image owns some values: records it, and takes the arguments into the callee's block.
/// Where RETURN is the return address and the journal has room for the return too, the callee of an open call then
/// runs.
pub fn accept<A: Abi>(machine: &mut Machine, cif: &Cif<A>) -> Incoming
    requires target { machine.old.target ≡ A.TARGET }
    requires entry { machine.old.pc ≡ ENTRY }
    requires room { STACK + A.standard.save + block_bytes cif.now ≤ machine.old.sp }
    requires frame { machine.old.sp + A.standard.link + frame_of A.standard cif.now ≤ STACK_TOP }
    requires some { (vs : List ValueTree) × OwnsAtEntry A.standard cif.now machine.old vs }
    requires events { 1 ≤ machine.old.spare_events }
    requires bytes { A.standard.link + frame_of A.standard cif.now ≤ machine.old.spare_bytes }
    ensures events { machine.new.events ≡ machine.old.events ++ entry_at A.standard cif.now machine.old ∷ [] }
    ensures received { IsReceived A.standard cif.now (after_enter (A.standard.link + frame_of A.standard cif.now) machine.old) machine.new }
    ensures incoming { IsIncoming A.standard cif.now result }
    ensures block { result.block ≡ machine.new.sp }
    ensures general { machine.new.general ≡ scribbled_general (isa_of machine.old.target) (length machine.old.events + 1) machine.old.general }
    ensures floating { machine.new.floating ≡ scribbled_floating (length machine.old.events + 1) }
    ensures reserved { KeepsReserved A.standard machine.old machine.new }
    ensures sp { machine.new.sp + block_bytes cif.now + A.standard.save ≡ machine.old.sp }
    ensures within { WroteWithin machine.new.sp machine.old.sp machine.old (with_journal_of machine.old machine.new) }
    ensures spare_events { machine.new.spare_events + 1 ≡ machine.old.spare_events }
    ensures spare_bytes { machine.new.spare_bytes + (A.standard.link + frame_of A.standard cif.now) ≡ machine.old.spare_bytes }
    ensures steps { machine.new.steps ≡ steps_if (by_exchange machine.old.target) (steps_of (isa_of machine.old.target) Entry) machine.old.steps }
    ensures in_callee { HasReturnAddress machine.old → 2 ≤ machine.old.spare_events → A.standard.link + frame_of A.standard cif.now + frame_of A.standard cif.now ≤ machine.old.spare_bytes →
        IsInCallee A.standard (record { signature = cif.now; event = entry_at A.standard cif.now machine.old }) machine.new }
{
    // its contract tells what is true of every interface
    let _sig = cif.sig();
    machine.facts();
    let bytes = A::LINK + cif.frame();
    machine.enter(bytes);
    receive(machine, cif)
}
