//! The call of a slot, through the stub Call or by the machine's own call.
ghost use Rattle.std.specs.Prelude.{◌≡◌, List, ◌+◌, ◌≤◌};
ghost use Rattle.std.specs.List.{AllByRecursion};
ghost use Rattle.ffi3_type_spec.specs.declared.limits.TheConstants.{STACK, STACK_TOP};
ghost use Rattle.ffi3_type_spec.specs.TargetIsa.{isa_of};
ghost use Rattle.ffi3_type_spec.specs.Value.{ValueTree};
ghost use Rattle.ffi3_place_spec.specs.MachineRegisters.{pushed_bytes};
ghost use Rattle.ffi3_place_spec.specs.Holds.{FillArguments, Holds, OwnsArguments, OwnsHidden, RegisterHolds};
ghost use Rattle.ffi3_place_spec.specs.Standard.{frame_of, plan_of};
ghost use Rattle.ffi3_machine_spec.specs.State.{image_of, IsSlot};
ghost use Rattle.ffi3_machine_transfer.specs.Passing.{by_exchange, passing};
ghost use Rattle.ffi3_machine_transfer.specs.Stored.{SameAt};
ghost use Rattle.ffi3_caller.specs.Called.{SlotIsCalled, called_if, told};

use ffi3_cif::Cif;
use ffi3_machine::{CALL_SP_AT, CALLEE_AT, Machine};
use ffi3_machine_transfer::by_exchange;
use ffi3_place::Abi;
use ffi3_stubs::run_call;

/// Tells the stub Call which slot it is to call, and with which stack pointer.
fn tell(machine: &mut Machine, addr: u64)
    ensures { machine.new ≡ told addr machine.old }
{
    let sp = machine.sp();
    machine.set_x(CALLEE_AT, addr);
    machine.set_x(CALL_SP_AT, sp);
}

/// Calls a slot with what stands in the registers that a call passes.
fn call_slot(machine: &mut Machine, addr: u64)
    requires slot { IsSlot addr }
    requires room { STACK + pushed_bytes (isa_of machine.old.target) ≤ machine.old.sp }
    requires top { machine.old.sp ≤ STACK_TOP }
    ensures whole { machine.new ≡ called_if (by_exchange machine.old.target) addr machine.old }
    ensures called { SlotIsCalled addr machine.old machine.new }
{
    machine.facts();
    let exchanged = by_exchange(machine.target());
    if exchanged {
        tell(machine, addr);
        run_call(machine);
    } else {
        machine.call(addr);
    }
}

/// Calls the code at the slot `addr`, through the stub Call where the target's calls go by stubs. Arguments that
/// `store_args` stored stand for the callee in registers and behind the return address.
pub fn call<A: Abi>(machine: &mut Machine, cif: &Cif<A>, addr: u64)
    requires target { machine.old.target ≡ A.TARGET }
    requires slot { IsSlot addr }
    requires room { STACK + A.standard.link ≤ machine.old.sp }
    requires frame { machine.old.sp + frame_of A.standard cif.now ≤ STACK_TOP }
    ensures whole { machine.new ≡ called_if (by_exchange machine.old.target) addr machine.old }
    ensures called { SlotIsCalled addr machine.old machine.new }
    // it leaves the callee-saved registers, and the reserved ones
    ensures preserved { AllByRecursion (λ l. SameAt 0 l machine.old machine.new) A.standard.callee_saved }
    ensures reserved { AllByRecursion (λ l. SameAt 0 l machine.old machine.new) A.standard.reserved }
    ensures holds { (values : List ValueTree) →
        OwnsArguments (image_of (frame_of A.standard cif.now) (passing machine.old)) 0 cif.now.arguments (plan_of A.standard cif.now).places values →
        FillArguments (image_of (frame_of A.standard cif.now) (passing machine.old)) 0 cif.now.arguments (plan_of A.standard cif.now).places values →
        OwnsHidden (image_of (frame_of A.standard cif.now) (passing machine.old)) 0 (plan_of A.standard cif.now).res →
        RegisterHolds (image_of (frame_of A.standard cif.now) (passing machine.old)) A.standard.vector_count (plan_of A.standard cif.now).vectors →
        Holds A.standard cif.now values (image_of (A.standard.link + frame_of A.standard cif.now) machine.new) }
{
    // its contract tells what is true of every interface
    let _sig = cif.sig();
    machine.facts();
    call_slot(machine, addr);
}
