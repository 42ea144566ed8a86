//! The way back to the caller, through the stub Return where calls go by stubs.
ghost use Rattle.std.specs.Prelude.{◌≡◌, ◌+◌, ◌≤◌};
ghost use Rattle.std.specs.List.{AllByRecursion};
ghost use Rattle.ffi3_type_spec.specs.declared.limits.TheConstants.{RETURN, STACK_TOP};
ghost use Rattle.ffi3_type_spec.specs.Value.{ValueTree};
ghost use Rattle.ffi3_place_spec.specs.Holds.{OwnResult};
ghost use Rattle.ffi3_place_spec.specs.Standard.{frame_of};
ghost use Rattle.ffi3_machine_spec.specs.State.{image_of};
ghost use Rattle.ffi3_machine_transfer.specs.Passing.{by_exchange};
ghost use Rattle.ffi3_machine_transfer.specs.Stored.{SameAt};
ghost use Rattle.ffi3_caller.specs.Called.{HasComeBack, at_frame, come_back_if};

use ffi3_cif::Cif;
use ffi3_machine::{Machine, RETURN_SP_AT};
use ffi3_machine_transfer::by_exchange;
use ffi3_place::Abi;
use ffi3_stubs::run_return;

/// Comes back to the caller, whose frame has so many bytes.
fn come_over(machine: &mut Machine, frame: u64)
    requires at_return { machine.old.pc ≡ RETURN }
    requires frame { machine.old.sp + frame ≤ STACK_TOP }
    ensures whole { machine.new ≡ come_back_if (by_exchange machine.old.target) frame machine.old }
    ensures back { HasComeBack frame machine.old machine.new }
{
    let sp = machine.sp();
    let exchanged = by_exchange(machine.target());
    if exchanged {
        machine.set_x(RETURN_SP_AT, sp + frame);
        run_return(machine);
    }
}

/// Comes back to the caller, at RETURN: where the target's calls go by stubs, the stub Return stores the registers of
/// results, and raises the stack pointer over the frame. What the image at the return owns can then be loaded.
pub fn come_back<A: Abi>(machine: &mut Machine, cif: &Cif<A>)
    requires target { machine.old.target ≡ A.TARGET }
    requires at_return { machine.old.pc ≡ RETURN }
    requires frame { machine.old.sp + frame_of A.standard cif.now ≤ STACK_TOP }
    ensures whole { machine.new ≡ come_back_if (by_exchange machine.old.target) (frame_of A.standard cif.now) machine.old }
    ensures back { HasComeBack (frame_of A.standard cif.now) machine.old machine.new }
    // it leaves the callee-saved registers, and the reserved ones
    ensures preserved { AllByRecursion (λ l. SameAt 0 l machine.old machine.new) A.standard.callee_saved }
    ensures reserved { AllByRecursion (λ l. SameAt 0 l machine.old machine.new) A.standard.reserved }
    ensures owns { (v : ValueTree) → OwnResult A.standard cif.now v (image_of (frame_of A.standard cif.now) machine.old) →
        OwnResult A.standard cif.now v (image_of (frame_of A.standard cif.now) (at_frame (frame_of A.standard cif.now) machine.new)) }
{
    // its contract tells what is true of every interface
    let _sig = cif.sig();
    come_over(machine, cif.frame());
}
