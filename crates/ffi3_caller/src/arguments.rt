//! What a caller stores before a call: arguments, a hidden result's address, the number of vector registers.
ghost use Rattle.std.specs.Prelude.{◌≡◌, ℕ, ◌+◌, ◌<◌, ◌≤◌, ◌++◌, length, true};
ghost use Rattle.std.specs.List.{AllByRecursion};
ghost use Rattle.ffi3_type_spec.specs.declared.limits.TheConstants.{STACK, STACK_TOP};
ghost use Rattle.ffi3_type_spec.specs.Tree.{trees_of};
ghost use Rattle.ffi3_type_spec.specs.Value.{all_fit, values_of};
ghost use Rattle.ffi3_place_spec.specs.declared.Loc.{Loc};
ghost use Rattle.ffi3_place_spec.specs.declared.Loc.TheVariants.{S};
ghost use Rattle.ffi3_place_spec.specs.Standard.{frame_of, plan_of};
ghost use Rattle.ffi3_place_spec.specs.Holds.{FillArguments, OwnsArguments, OwnsHidden, RegisterHolds};
ghost use Rattle.ffi3_place_spec.specs.Sound.{argument_locs, copy_locs, IsNoneOf};
ghost use Rattle.ffi3_place_spec.specs.MachineRegisters.{to_list};
ghost use Rattle.ffi3_machine_spec.specs.State.{image_of, scribbled};
ghost use Rattle.ffi3_machine_transfer.specs.Passing.{passing};
ghost use Rattle.ffi3_machine_transfer.specs.Stored.{stack_byte, IsPlace, IsWritable, SameAt, Stays, WroteWithin};
ghost use Rattle.ffi3_machine_transfer.specs.Standing.{AllKeepUnused};
ghost use Rattle.ffi3_caller.specs.Called.{CountStands, with_frame};

use ffi3_cif::Cif;
use ffi3_machine::{Machine, StackBase};
use ffi3_machine_transfer::{put_word, store_hidden, store_places};
use ffi3_place::{Abi, Loc};
use ffi3_values::Values;

/// Puts a number into the register, if there is one.
fn put_count(machine: &mut Machine, base: StackBase, at: Option<Loc>, count: u64)
    requires registers { AllByRecursion (IsPlace 0) (to_list at) }
    requires writable { AllByRecursion (IsWritable machine.old.target) (to_list at) }
    ensures told { CountStands base (passing machine.new) at count }
    ensures stays { Stays base (to_list at) (passing machine.old) (passing machine.new) }
    ensures within { (room : ℕ) → WroteWithin base (base + room) (passing machine.old) (passing machine.new) }
{
    if let Some(at) = at {
        put_word(machine, base, at, count);
    }
}

/// Scribbles on the registers, by the number of events, and opens a frame of A5 bytes.
fn begin_frame(machine: &mut Machine, frame: u64)
    requires bottom { STACK + frame ≤ machine.old.sp }
    requires top { machine.old.sp ≤ STACK_TOP }
    ensures opened { machine.new ≡ with_frame frame machine.old }
    ensures sp { machine.new.sp + frame ≡ machine.old.sp }
    ensures registers { (l : Loc) → IsPlace 0 l → SameAt 0 l (passing (scribbled (length machine.old.events) machine.old)) (passing machine.new) }
    ensures filled { (i : ℕ) → i < frame → stack_byte machine.new (machine.new.sp + i) ≡ 0xA5 }
    ensures within { WroteWithin machine.new.sp (machine.new.sp + frame) (passing (scribbled (length machine.old.events) machine.old)) (passing machine.new) }
{
    let sp = machine.sp() - frame;
    let number = machine.events().len() as u64;
    machine.scribble(number);
    machine.set_sp(sp);
    machine.fill_stack(sp, frame, 0xA5);
}

/// Stores what a call's callee is to find: scribbles on the registers, by the number of events, lowers the stack
/// pointer by the frame, fills the frame with A5 bytes, and puts the arguments, a hidden result's address and the
/// number of vector registers in their places. The stack pointer is an address of the stack, or its top, and the frame
/// has room.
pub fn store_args<A: Abi>(machine: &mut Machine, cif: &Cif<A>, values: &Values)
    requires target { machine.old.target ≡ A.TARGET }
    requires fit { all_fit (trees_of cif.now.arguments) (values_of values.now) ≡ true }
    requires room { STACK + frame_of A.standard cif.now ≤ machine.old.sp }
    requires top { machine.old.sp ≤ STACK_TOP }
    // the arguments stand at their places, and what fills the rest of these is right
    ensures own { OwnsArguments (image_of (frame_of A.standard cif.now) (passing machine.new)) 0 cif.now.arguments (plan_of A.standard cif.now).places values.now }
    ensures filled { FillArguments (image_of (frame_of A.standard cif.now) (passing machine.new)) 0 cif.now.arguments (plan_of A.standard cif.now).places values.now }
    ensures hidden { OwnsHidden (image_of (frame_of A.standard cif.now) (passing machine.new)) 0 (plan_of A.standard cif.now).res }
    ensures vectors { RegisterHolds (image_of (frame_of A.standard cif.now) (passing machine.new)) A.standard.vector_count (plan_of A.standard cif.now).vectors }
    ensures sp { machine.new.sp + frame_of A.standard cif.now ≡ machine.old.sp }
    // a register that carries nothing is as the scribble left it, and so are the callee-saved ones; it leaves the reserved
    // ones
    ensures others { (l : Loc) → IsPlace 0 l → IsNoneOf (argument_locs (plan_of A.standard cif.now) ++ to_list A.standard.vector_count) l → SameAt 0 l (scribbled (length machine.old.events) machine.old) machine.new }
    ensures preserved { AllByRecursion (λ l. SameAt 0 l (scribbled (length machine.old.events) machine.old) machine.new) A.standard.callee_saved }
    ensures reserved { AllByRecursion (λ l. SameAt 0 l machine.old machine.new) A.standard.reserved }
    // what a call passes by the exchange region for such a register stays
    ensures passed { (l : Loc) → IsPlace 0 l → IsNoneOf (argument_locs (plan_of A.standard cif.now) ++ to_list A.standard.vector_count) l → SameAt 0 l (passing (scribbled (length machine.old.events) machine.old)) (passing machine.new) }
    // bytes of the frame that carry nothing are A5
    ensures free { (at w k : ℕ) → at + w ≤ frame_of A.standard cif.now → IsNoneOf (argument_locs (plan_of A.standard cif.now) ++ copy_locs cif.now.arguments (plan_of A.standard cif.now).places) (S at w) → k < w → stack_byte machine.new (machine.new.sp + at + k) ≡ 0xA5 }
    // what no leaf of an argument has is as the scribble and the A5 bytes left it
    ensures unused { AllKeepUnused machine.new.sp (passing (with_frame (frame_of A.standard cif.now) machine.old)) (passing machine.new) cif.now.arguments (plan_of A.standard cif.now).places }
    // below the new and at or above the old stack pointer nothing is written, nor behind what a call passes but for the
    // scribble
    ensures within { WroteWithin machine.new.sp machine.old.sp (passing (scribbled (length machine.old.events) machine.old)) (passing machine.new) }
{
    // its contract tells what is true of every interface
    let _sig = cif.sig();
    begin_frame(machine, cif.frame());
    let base = StackBase::at(machine.sp());
    store_places(machine, cif, values);
    store_hidden(machine, base, cif.result_place());
    let count = A::vector_count();
    put_count(machine, base, count, cif.vectors() as u64);
    machine.facts();
}
