//! Values at their places: what a caller stores for its callee.
ghost use Rattle.std.specs.Prelude.{◌≡◌, ◌+◌, ◌-◌, ◌^◌, ◌<◌, ◌≤◌, length, IfErr, OnErr, OnOk};
ghost use Rattle.std.specs.List.{AllByRecursion};
ghost use Rattle.ffi3_type_spec.specs.Layout.{size_of};
ghost use Rattle.ffi3_place_spec.specs.MachineRegisters.{to_list};
ghost use Rattle.ffi3_place_spec.specs.Standard.{plan_of};
ghost use Rattle.ffi3_place_spec.specs.Holds.{OwnsHidden, RegisterHolds};
ghost use Rattle.ffi3_place_spec.specs.Sound.{AreApart, hidden_locs, IsPieceOf, IsWhole, PlaceHasAll, piece_locs};
ghost use Rattle.ffi3_marshal.specs.Stored.{KeepsAbove, Stays};
ghost use Rattle.ffi3_marshal.specs.Standing.{PiecesStand, PlaceKeeps, PlaceLiesIn, PlaceStands, PlacesKeep, all_uses, place_uses};
ghost use Rattle.ffi3_transfer.specs.Places.{HiddenIsThere, IsPlace};
ghost use Rattle.ffi3_transfer.specs.Stored.{floating_words, image_in};
ghost use Rattle.ffi3_transfer.specs.Packed.{packed_size};
ghost use Rattle.ffi3_transfer.specs.Standing.{AllStand};
ghost use Rattle.ffi3_transfer.specs.Calls.{IsCallStored, IsNotStored, entry_bytes};

use crate::call::Call;
use crate::putting::put_word;
use crate::{Registers, Unstored};
use ffi3_cif::Placed;
use ffi3_place::{Abi, Loc, Pieces, Place, Res};
use ffi3_type_spec::round_up;
use ffi3_types::CheckedType;

/// Stores all pieces of a value.
pub(crate) fn store_pieces(
    registers: &mut Registers,
    stack: &mut [u8],
    base: u64,
    pieces: &Pieces,
    ty: &CheckedType<'_>,
    bytes: &[u8],
)
    requires lie { AllByRecursion (IsPlace (length stack.old - base)) (piece_locs pieces.now) }
    requires apart { AreApart (piece_locs pieces.now) }
    requires parts { AllByRecursion (IsPieceOf ty.now) pieces.now }
    requires sized { length bytes.now ≡ size_of ty.now }
    ensures stand { PiecesStand base (image_in registers.new stack.new) ty.now bytes.now pieces.now }
    ensures kept { AllByRecursion (KeepsAbove base (image_in registers.old stack.old) (image_in registers.new stack.new)) pieces.now }
    ensures stays { Stays base (piece_locs pieces.now) (image_in registers.old stack.old) (image_in registers.new stack.new) }
{
    let mut call = Call { registers, stack };
    ffi3_marshal::store_pieces(&mut call, base, pieces, ty, bytes);
}

/// Stores an argument at its place.
fn store_place(
    registers: &mut Registers,
    stack: &mut [u8],
    base: u64,
    place: &Place,
    ty: &CheckedType<'_>,
    bytes: &[u8],
)
    requires base { base ≤ length stack.old }
    requires lies { PlaceLiesIn floating_words (length stack.old - base) ty.now place.now }
    requires high { registers.old.sp + length stack.old < 2 ^ 64 }
    requires apart { AreApart (place_uses ty.now place.now) }
    requires has_all { PlaceHasAll ty.now place.now }
    requires sized { length bytes.now ≡ size_of ty.now }
    ensures stands { PlaceStands base (image_in registers.new stack.new) ty.now bytes.now place.now }
    ensures kept { PlaceKeeps base (image_in registers.old stack.old) (image_in registers.new stack.new) ty.now place.now }
    ensures stays { Stays base (place_uses ty.now place.now) (image_in registers.old stack.old) (image_in registers.new stack.new) }
{
    let mut call = Call { registers, stack };
    ffi3_marshal::store_place(&mut call, base, place, ty, bytes);
}

/// Stores all arguments.
fn store_arguments<A: Abi>(
    placed: &Placed<A>,
    values: &[u8],
    registers: &mut Registers,
    stack: &mut [u8],
)
    requires sized { length values.now ≡ packed_size placed.now.arguments }
    requires frame { entry_bytes A.standard placed.now ≤ length stack.old }
    requires high { registers.old.sp + length stack.old < 2 ^ 64 }
    ensures stand { AllStand A.standard.link (image_in registers.new stack.new) placed.now.arguments (plan_of A.standard placed.now).places values.now }
    ensures kept { PlacesKeep A.standard.link (image_in registers.old stack.old) (image_in registers.new stack.new) placed.now.arguments (plan_of A.standard placed.now).places }
    ensures stays { Stays A.standard.link (all_uses placed.now.arguments (plan_of A.standard placed.now).places) (image_in registers.old stack.old) (image_in registers.new stack.new) }
{
    // its contract tells what is true of every interface
    let _sig = placed.sig();
    let sig = placed.placed_sig();
    let base = A::LINK;
    let mut at = values.len();
    for i in (0..sig.count()).rev() {
        let ty = sig.arg(i);
        let size = ty.size();
        at -= round_up(size, 8) as usize;
        store_place(
            registers,
            stack,
            base,
            placed.place(i),
            &ty,
            &values[at..at + size as usize],
        );
    }
}

/// Stores the address of a hidden result's buffer.
fn store_hidden(registers: &mut Registers, stack: &mut [u8], base: u64, res: &Res)
    requires base { base ≤ length stack.old }
    requires there { HiddenIsThere (image_in registers.old stack.old) base res.now }
    requires whole { AllByRecursion IsWhole (hidden_locs res.now) }
    ensures stands { OwnsHidden (image_in registers.new stack.new) base res.now }
    ensures stays { Stays base (hidden_locs res.now) (image_in registers.old stack.old) (image_in registers.new stack.new) }
{
    let mut call = Call { registers, stack };
    ffi3_marshal::store_hidden(&mut call, base, res);
}

/// Tells how many vector registers the arguments use, where a register tells it.
fn store_count(
    registers: &mut Registers,
    stack: &mut [u8],
    base: u64,
    count: Option<Loc>,
    vectors: u8,
)
    requires { AllByRecursion (IsPlace 0) (to_list count) }
    ensures told { RegisterHolds (image_in registers.new stack.new) count vectors }
    ensures stays { Stays base (to_list count) (image_in registers.old stack.old) (image_in registers.new stack.new) }
{
    match count {
        Some(at) => put_word(registers, stack, base, at, vectors as u64),
        None => {}
    }
}

/// How many bytes the values of a signature's arguments take, one after another, each from a multiple of 8 on.
pub fn packed_size<A: Abi>(placed: &Placed<A>) -> usize
    ensures { result ≡ packed_size placed.now.arguments }
{
    let sig = placed.placed_sig();
    let mut size = 0;
    for i in (0..sig.count()).rev() {
        size += round_up(sig.arg(i).size(), 8) as usize;
    }
    size
}

/// Stores the values of a call for its callee, in registers and memory as they will be at the callee's first
/// instruction: `stack` is the memory from `registers.sp` on, where the return address will stand, if the standard has
/// it on the stack. The alignment of `registers.sp` is the caller's: it is not looked at.
pub fn store<A: Abi>(
    placed: &Placed<A>,
    values: &[u8],
    registers: &mut Registers,
    stack: &mut [u8],
) -> Result<(), Unstored>
    ensures ok { OnOk result (IsCallStored A.standard placed.now values.now (image_in registers.old stack.old) (image_in registers.new stack.new)) }
    ensures err { IfErr result (λ f. IsNotStored A.standard placed.now values.now (image_in registers.old stack.old) f) }
    ensures registers { OnErr result (registers.new ≡ registers.old) }
    ensures stack { OnErr result (stack.new ≡ stack.old) }
{
    // its contract tells what is true of every interface
    let _sig = placed.sig();
    let wanted = packed_size(placed);
    if values.len() != wanted {
        return Err(Unstored::WrongSize(wanted));
    }
    let base = A::LINK;
    let wanted = base as usize + placed.frame() as usize;
    if stack.len() < wanted {
        return Err(Unstored::ShortStack(wanted));
    }
    if u64::MAX - registers.sp < stack.len() as u64 {
        return Err(Unstored::HighStack);
    }
    store_arguments(placed, values, registers, stack);
    store_hidden(registers, stack, base, placed.result_place());
    store_count(registers, stack, base, A::vector_count(), placed.vectors());
    Ok(())
}
