//! The end of a callee's activation, before its return.
ghost use Rattle.std.specs.Prelude.{◌≡◌, ℕ, ◌-◌, ◌<◌, Option};
ghost use Rattle.ffi3_type_spec.specs.declared.limits.TheConstants.{STACK_TOP};
ghost use Rattle.ffi3_type_spec.specs.Value.{ValueTree};
ghost use Rattle.ffi3_place_spec.specs.declared.Loc.{Loc};
ghost use Rattle.ffi3_place_spec.specs.Agrees.{saved_registers};
ghost use Rattle.ffi3_place_spec.specs.Standard.{frame_of};
ghost use Rattle.ffi3_place_spec.specs.Holds.{HoldsResult, Kept};
ghost use Rattle.ffi3_machine_spec.specs.State.{State, image_of, returned, with_sp};
ghost use Rattle.ffi3_machine_transfer.specs.Stored.{WroteWithin};
ghost use Rattle.ffi3_callee.specs.Loaded.{image_from};
ghost use Rattle.ffi3_callee.specs.Given.{RegistersStay, ReservedStay};
ghost use Rattle.ffi3_callee.specs.Received.{IsIncoming};
ghost use Rattle.ffi3_callee.specs.Saved.{AreGivenBack, AreSaved, HaveRegisters, with_given_back};

use crate::Incoming;
use crate::save_area::restore_words;
use ffi3_cif::Cif;
use ffi3_machine::{Machine, StackBase};
use ffi3_place::Abi;

/// Gives back the saved registers and the stack: sp is the entry's. A result that was given stays, and after the return
/// the registers are those that a callee keeps.
pub fn restore<A: Abi>(machine: &mut Machine, cif: &Cif<A>, incoming: Incoming)
    requires target { machine.old.target ≡ A.TARGET }
    requires incoming { IsIncoming A.standard cif.now incoming }
    ensures whole { machine.new ≡ with_sp incoming.entry (with_given_back (incoming.entry - A.standard.save) 0 A.standard.save_area machine.old) }
    ensures given_back { (value : Loc → ℕ) → AreGivenBack (incoming.entry - A.standard.save) A.standard.save_area value machine.old machine.new }
    ensures entry { (base : ℕ) (hidden : Option Loc) (entry : State) → AreSaved (incoming.entry - A.standard.save) base hidden A.standard.save_area entry machine.old → HaveRegisters A.standard.save_area base entry machine.new }
    ensures others { RegistersStay (saved_registers A.standard.save_area) machine.old machine.new }
    ensures kept { (base len room : ℕ) (hidden : Option Loc) (entry : State) → entry.sp ≡ incoming.entry → AreSaved (incoming.entry - A.standard.save) base hidden A.standard.save_area entry machine.old → ReservedStay A.standard entry machine.old → Kept A.standard (image_of len entry) (image_of room (returned machine.new)) }
    ensures keeps { (base : ℕ) (v : ValueTree) → HoldsResult A.standard cif.now v (image_from base (frame_of A.standard cif.now) machine.old) → HoldsResult A.standard cif.now v (image_from base (frame_of A.standard cif.now) machine.new) }
    ensures within { WroteWithin STACK_TOP STACK_TOP machine.old machine.new }
    ensures sp { machine.new.sp ≡ incoming.entry }
{
    // its contract tells what is true of every interface
    let _sig = cif.sig();
    let entry = incoming.entry();
    let area = StackBase::at(entry - A::SAVE);
    restore_words::<A>(machine, area);
    machine.set_sp(entry);
}
