//! One call of a closure by its trampoline, of any signature by any calling standard: the caller's side and the
//! callee's put together.
#![tactic(auto)]

ghost use Rattle.std.specs.Prelude.{◌≡◌, ◌+◌, ◌≤◌, IsSome, length, true};
ghost use Rattle.ffi3_type_spec.specs.declared.limits.TheConstants.{STACK, STACK_TOP};
ghost use Rattle.ffi3_type_spec.specs.Layout.{size_of};
ghost use Rattle.ffi3_type_spec.specs.Tree.{trees_of};
ghost use Rattle.ffi3_type_spec.specs.Value.{all_fit, fits, value_in, values_of};
ghost use Rattle.ffi3_values.specs.ValueOf.{value_of};
ghost use Rattle.ffi3_place_spec.specs.Standard.{frame_of, need_of};
ghost use Rattle.ffi3_semantics_spec.specs.Closures.{closure_at};
ghost use Rattle.ffi3_machine_spec.specs.State.{IsSlot};
ghost use Rattle.ffi3_machine_spec.specs.Slots.{HoldsMap};
ghost use Rattle.ffi3_callee.specs.Received.{IsIncoming};
ghost use Rattle.ffi3_invoke.specs.Calls.{HasBegun, HasEnded, IsCalled};

mod callee_return;
mod callee_side;
mod caller_side;

pub use callee_return::give_back;
pub use callee_side::{accept, entered_closure};
pub use caller_side::pass_arguments;
use ffi3_callee::Incoming;
use ffi3_caller::{come_back, drop_frame, load_result};
use ffi3_cif::Cif;
use ffi3_closures::Table;
use ffi3_machine::Machine;
use ffi3_place::Abi;
use ffi3_values::{Value, Values};

/// Calls the live closure at `ptr` by its trampoline, up to its callee, which has the arguments in its block. The
/// journal has room for the entry and the return, as `Machine::journal_room` makes it for the bytes of the return
/// address and the frame.
pub fn begin_call<A: Abi>(
    machine: &mut Machine,
    table: &Table,
    cif: &Cif<A>,
    values: &Values,
    ptr: u64,
) -> Incoming
    requires target { machine.old.target ≡ A.TARGET }
    requires fit { all_fit (trees_of cif.now.arguments) (values_of values.now) ≡ true }
    requires room { STACK + need_of A.standard cif.now ≤ machine.old.sp }
    requires top { machine.old.sp ≤ STACK_TOP }
    requires holds { HoldsMap machine.old.target table.now machine.old.code }
    requires slot { IsSlot ptr }
    requires live { IsSome (closure_at table.now ptr) }
    requires events { 2 ≤ machine.old.spare_events }
    requires bytes { A.standard.link + frame_of A.standard cif.now + frame_of A.standard cif.now ≤ machine.old.spare_bytes }
    ensures begun { HasBegun A.standard cif.now values.now ptr machine.old machine.new }
    ensures incoming { IsIncoming A.standard cif.now result }
    ensures block { result.block ≡ machine.new.sp }
{
    machine.facts();
    pass_arguments(machine, table, cif, values, ptr);
    accept(machine, cif)
}

/// Returns from the callee of an open call with its result, whose bytes the caller then has, and ends the call's frame.
/// Bytes of padding may be any.
pub fn end_call<A: Abi>(
    machine: &mut Machine,
    cif: &Cif<A>,
    incoming: Incoming,
    value: &Value,
    out: &mut [u8],
)
    requires called { IsCalled A.standard cif.now machine.old }
    requires incoming { IsIncoming A.standard cif.now incoming }
    requires block { incoming.block ≡ machine.old.sp }
    requires fits { fits cif.now.result_type (value_of value.now) ≡ true }
    requires sized { length out.old ≡ size_of cif.now.result_type }
    ensures ended { HasEnded A.standard cif.now (value_of value.now) machine.old machine.new }
    ensures sized { length out.new ≡ length out.old }
    ensures value { value_in cif.now.result_type out.new ≡ value_of value.now }
{
    machine.facts();
    give_back(machine, cif, incoming, value);
    come_back(machine, cif);
    load_result(machine, cif, out);
    drop_frame(machine, cif);
}
