//! The way back from a callee, up to its return.
ghost use Rattle.std.specs.Prelude.{◌≡◌, ℕ, ◌+◌, ◌-◌, ◌≤◌, ◌%◌, ◌^◌};
ghost use Rattle.ffi3_type_spec.specs.declared.limits.TheConstants.{STACK, STACK_TOP};
ghost use Rattle.ffi3_type_spec.specs.TargetIsa.{isa_of};
ghost use Rattle.ffi3_type_spec.specs.Value.{ValueTree};
ghost use Rattle.ffi3_place_spec.specs.MachineRegisters.{pushed_bytes};
ghost use Rattle.ffi3_place_spec.specs.StubRegisters.{area_bytes};
ghost use Rattle.ffi3_place_spec.specs.Image.{Image, register};
ghost use Rattle.ffi3_place_spec.specs.Standard.{frame_of};
ghost use Rattle.ffi3_place_spec.specs.Holds.{HoldsResult, Kept, SameIn};
ghost use Rattle.ffi3_machine_spec.specs.declared.stub.TheConstants.{AREA_AT};
ghost use Rattle.ffi3_machine_spec.specs.State.{image_of, with_pc, with_x};
ghost use Rattle.ffi3_machine_spec.specs.Stubs.{Exit, stub_at};
ghost use Rattle.ffi3_stubs.specs.Calls.{HasLeft, after_exit, steps_of};
ghost use Rattle.ffi3_machine_transfer.specs.Passing.{by_exchange, passing};
ghost use Rattle.ffi3_callee.specs.Loaded.{image_from};
ghost use Rattle.ffi3_callee.specs.Given.{ReservedStay};
ghost use Rattle.ffi3_callee.specs.GoneBack.{HasGoneBack, gone_back_if, returned_by};
ghost use Rattle.ffi3_callee.specs.Received.{IsIncoming};
ghost use Rattle.ffi3_callee.specs.Saved.{HoldRegisters};

use crate::{Incoming, restore};
use ffi3_cif::Cif;
use ffi3_machine::{AREA_AT, Machine};
use ffi3_machine_transfer::by_exchange;
use ffi3_place::Abi;
use ffi3_stubs::run_exit;

/// Goes back by the stub Exit, from the save area at an address.
fn leave_by_stub(machine: &mut Machine, area: u64)
    requires low { STACK ≤ area }
    requires high { area + area_bytes (isa_of machine.old.target) + pushed_bytes (isa_of machine.old.target) ≤ STACK_TOP }
    ensures whole { machine.new ≡ after_exit (isa_of machine.old.target) (with_pc (stub_at (isa_of machine.old.target) Exit) (with_x AREA_AT area machine.old)) }
    ensures says { HasLeft (isa_of machine.old.target) (with_x AREA_AT area machine.old) machine.new }
    ensures counted { machine.new.steps ≡ (machine.old.steps + steps_of (isa_of machine.old.target) Exit) % 2 ^ 64 }
{
    machine.facts();
    machine.set_x(AREA_AT, area);
    run_exit(machine);
}

/// Goes back: through the stub Exit, or by giving back what was saved.
fn go<A: Abi>(machine: &mut Machine, cif: &Cif<A>, incoming: Incoming)
    requires target { machine.old.target ≡ A.TARGET }
    requires incoming { IsIncoming A.standard cif.now incoming }
    ensures whole { machine.new ≡ gone_back_if (by_exchange machine.old.target) A.standard incoming.entry machine.old }
    ensures back { HasGoneBack A.standard incoming.entry machine.old machine.new }
{
    machine.facts();
    let exchanged = by_exchange(machine.target());
    if exchanged {
        let area = incoming.entry() - A::SAVE;
        leave_by_stub(machine, area);
    } else {
        restore(machine, cif, incoming);
    }
}

/// Goes back from a callee that has given its result, up to the return, which the stub Exit makes where calls go by
/// stubs. A result that was given stands in its registers, and the registers are those that a callee keeps.
pub fn go_back<A: Abi>(machine: &mut Machine, cif: &Cif<A>, incoming: Incoming)
    requires target { machine.old.target ≡ A.TARGET }
    requires incoming { IsIncoming A.standard cif.now incoming }
    ensures whole { machine.new ≡ gone_back_if (by_exchange machine.old.target) A.standard incoming.entry machine.old }
    ensures back { HasGoneBack A.standard incoming.entry machine.old machine.new }
    ensures reserved { ReservedStay A.standard machine.old machine.new }
    ensures kept { (e : Image) (room : ℕ) → e.sp ≡ incoming.entry → HoldRegisters (incoming.entry - A.standard.save) A.standard.save_area (register e) machine.old → SameIn A.standard.reserved e (image_of 0 machine.old) → Kept A.standard e (image_of room (returned_by machine.new)) }
    ensures keeps { (base : ℕ) (v : ValueTree) → HoldsResult A.standard cif.now v (image_from base (frame_of A.standard cif.now) (passing machine.old)) → HoldsResult A.standard cif.now v (image_from base (frame_of A.standard cif.now) machine.new) }
{
    // its contract tells what is true of every interface
    let _sig = cif.sig();
    go(machine, cif, incoming);
}
