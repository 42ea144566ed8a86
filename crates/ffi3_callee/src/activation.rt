//! A whole activation of a callee that takes its arguments and gives a value.
ghost use Rattle.std.specs.Prelude.{◌≡◌, ℕ, ◌+◌, ◌<◌, ◌≤◌, List, true};
ghost use Rattle.ffi3_type_spec.specs.declared.limits.TheConstants.{ENTRY, STACK, STACK_TOP};
ghost use Rattle.ffi3_type_spec.specs.Value.{ValueTree, fits};
ghost use Rattle.ffi3_values.specs.ValueOf.{value_of};
ghost use Rattle.ffi3_place_spec.specs.Standard.{block_bytes, frame_of};
ghost use Rattle.ffi3_place_spec.specs.Holds.{HoldsResult, Kept};
ghost use Rattle.ffi3_machine_spec.specs.State.{image_of};
ghost use Rattle.ffi3_callee.specs.Answered.{HasAnswered};
ghost use Rattle.ffi3_callee.specs.GoneBack.{returned_by};
ghost use Rattle.ffi3_callee.specs.Loaded.{image_from};
ghost use Rattle.ffi3_callee.specs.Received.{OwnsAtEntry};

use crate::{give_result, go_back, receive};
use ffi3_cif::Cif;
use ffi3_machine::Machine;
use ffi3_place::Abi;
use ffi3_values::Value;

/// From an entry up to its return, which the stub Exit makes where calls go by stubs: takes the arguments, gives the
/// value, and gives all else back. At the return the registers and the stack pointer are the entry's, as far as a
/// callee keeps them, and the result stands where the caller looks for it. Of the caller's part of the stack a hidden
/// result's buffer alone is written.
pub fn answer<A: Abi>(machine: &mut Machine, cif: &Cif<A>, value: &Value)
    requires target { machine.old.target ≡ A.TARGET }
    requires entry { machine.old.pc ≡ ENTRY }
    requires room { STACK + A.standard.save + block_bytes cif.now ≤ machine.old.sp }
    requires frame { machine.old.sp + A.standard.link + frame_of A.standard cif.now ≤ STACK_TOP }
    requires some { (vs : List ValueTree) × OwnsAtEntry A.standard cif.now machine.old vs }
    requires fits { fits cif.now.result_type (value_of value.now) ≡ true }
    ensures kept { (len room : ℕ) → Kept A.standard (image_of len machine.old) (image_of room (returned_by machine.new)) }
    ensures holds { HoldsResult A.standard cif.now (value_of value.now) (image_from (machine.old.sp + A.standard.link) (frame_of A.standard cif.now) machine.new) }
    ensures sp { (returned_by machine.new).sp ≡ machine.old.sp + A.standard.link }
    ensures answered { HasAnswered A.standard cif.now machine.old machine.new }
{
    machine.facts();
    let incoming = receive(machine, cif);
    give_result(machine, cif, &incoming, value);
    go_back(machine, cif, incoming);
}
