//! The end of a callee's activation, with its return.
ghost use Rattle.std.specs.Prelude.{◌≡◌, ◌+◌, ◌≤◌, true};
ghost use Rattle.ffi3_type_spec.specs.declared.limits.TheConstants.{STACK, STACK_TOP};
ghost use Rattle.ffi3_type_spec.specs.Value.{fits};
ghost use Rattle.ffi3_values.specs.ValueOf.{value_of};
ghost use Rattle.ffi3_machine_spec.specs.State.{after_arrive};
ghost use Rattle.ffi3_machine_transfer.specs.Passing.{by_exchange};
ghost use Rattle.ffi3_callee.specs.GoneBack.{IsAtReturn, returned_by};
ghost use Rattle.ffi3_callee.specs.Received.{IsIncoming};
ghost use Rattle.ffi3_invoke.specs.Calls.{HasReturned, IsCalled};

use ffi3_callee::{Incoming, give_result, go_back};
use ffi3_cif::Cif;
use ffi3_machine::Machine;
use ffi3_machine_transfer::by_exchange;
use ffi3_place::Abi;
use ffi3_values::Value;

/// Records the return of a callee that has gone back, and makes the return where no stub has made it.
fn record_return(machine: &mut Machine, frame: u64)
    requires at_return { IsAtReturn (by_exchange machine.old.target) machine.old }
    requires low { STACK ≤ machine.old.sp }
    requires high { (returned_by machine.old).sp + frame ≤ STACK_TOP }
    requires events { 1 ≤ machine.old.spare_events }
    requires bytes { frame ≤ machine.old.spare_bytes }
    ensures { machine.new ≡ after_arrive frame (returned_by machine.old) }
{
    let exchanged = by_exchange(machine.target());
    if exchanged {
        machine.arrive(frame);
    } else {
        machine.leave(frame);
    }
}

/// Gives the result of any open call whose callee runs, gives back all else, returns, by the stub Exit where calls go
/// by stubs, and records it: the result stands where the caller looks for it, and the registers and the stack pointer
/// are those that a callee keeps.
pub fn give_back<A: Abi>(machine: &mut Machine, cif: &Cif<A>, incoming: Incoming, value: &Value)
    requires called { IsCalled A.standard cif.now machine.old }
    requires incoming { IsIncoming A.standard cif.now incoming }
    requires block { incoming.block ≡ machine.old.sp }
    requires fits { fits cif.now.result_type (value_of value.now) ≡ true }
    ensures { HasReturned A.standard cif.now (value_of value.now) machine.old machine.new }
{
    // its contract tells what is true of every interface
    let _sig = cif.sig();
    machine.facts();
    give_result(machine, cif, &incoming, value);
    go_back(machine, cif, incoming);
    record_return(machine, cif.frame());
}
