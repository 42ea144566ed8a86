//! Puts the values of a call into the registers and stack places of the modelled machine, and reads them back.
#![tactic(auto)]

ghost use Rattle.std.specs.Prelude.{◌≡◌, ℕ, ◌+◌, ◌-◌, ◌≤◌, length, true};
ghost use Rattle.std.specs.List.{AllByRecursion};
ghost use Rattle.ffi3_type_spec.specs.Tree.{trees_of};
ghost use Rattle.ffi3_type_spec.specs.Layout.{size_of};
ghost use Rattle.ffi3_type_spec.specs.Value.{all_fit, fits, value_in, values_of};
ghost use Rattle.ffi3_values.specs.ValueOf.{value_of};
ghost use Rattle.ffi3_place_spec.specs.Standard.{frame_of, plan_of};
ghost use Rattle.ffi3_place_spec.specs.Holds.{FillArguments, OwnsArguments};
ghost use Rattle.ffi3_place_spec.specs.Sound.{Apart, AreApart, hidden_locs, IsPieceOf, IsWhole, PlaceHasAll, piece_locs, place_locs, place_size, stack_words_for, IsWithin};
ghost use Rattle.ffi3_type_spec.specs.declared.limits.TheConstants.{STACK, STACK_TOP};
ghost use Rattle.ffi3_machine_spec.specs.State.{image_of};
ghost use Rattle.ffi3_machine_transfer.specs.Passing.{passing};
ghost use Rattle.ffi3_machine_transfer.specs.Stored.{IsPlace, IsPut, IsSet, IsSetAndFilled, IsStored, IsWordPut, IsWritable, KeepsUnused, PieceStands, Stays, WroteWithin};
ghost use Rattle.ffi3_cif.specs.Runs.{AreRunsOf, pieces_of};
ghost use Rattle.ffi3_machine_transfer.specs.Runs.{goes_by_run};
ghost use Rattle.ffi3_machine_transfer.specs.Standing.{AllKeepUnused, AllStand, HiddenStands, IsCopied, PiecesStand, PlaceKeepsUnused, PlaceLies, PlaceStands, all_uses, place_uses};

mod lent;
mod load;
mod registers;
mod stack_runs;

use ffi3_cif::{Cif, Runs};
use ffi3_machine::{Machine, StackBase};
use ffi3_place::{Abi, Ext, Loc, Piece, Pieces, Place, Res};
use ffi3_type_spec::limits::{LARGEST_TYPE, STACK};
use ffi3_types::CheckedType;
use ffi3_values::{Value, Values, write_bytes};
use lent::{Lent, offset_of};
pub use load::{load_piece, own_word, place_bytes, place_word};
pub use registers::{by_exchange, pass_floating, pass_general, passed_floating, passed_general};
use stack_runs::store_runs;

/// A value of at most so many bytes is stored by way of a buffer of this size, since it would take longer to zero a
/// buffer of the largest type's size than to store the value.
pub const SMALL: usize = 64;

/// Puts bytes into a place, whose other bytes stay. Stack places count from the address `base`.
pub fn put(machine: &mut Machine, base: StackBase, at: Loc, bytes: &[u8])
    requires lies { IsPlace (STACK_TOP - base) at }
    requires writable { IsWritable machine.old.target at }
    requires few { length bytes.now ≤ place_size at }
    ensures { IsPut base at bytes.now (passing machine.old) (passing machine.new) }
{
    let start = offset_of(machine, base);
    let mut lent = Lent { machine };
    ffi3_marshal::put(&mut lent, start, at, bytes);
}

/// Puts a number into a place of eight bytes. Stack places count from the address `base`.
pub fn put_word(machine: &mut Machine, base: StackBase, at: Loc, word: u64)
    requires lies { IsPlace (STACK_TOP - base) at }
    requires writable { IsWritable machine.old.target at }
    requires whole { IsWhole at }
    ensures { IsWordPut base at word (passing machine.old) (passing machine.new) }
{
    let start = offset_of(machine, base);
    let mut lent = Lent { machine };
    ffi3_marshal::put_word(&mut lent, start, at, word);
}

/// Puts the bytes that a piece carries into its place, whose other bytes stay. Stack places count from the address
/// `base`.
pub fn set_piece(machine: &mut Machine, base: StackBase, piece: Piece, bytes: &[u8])
    requires lies { IsPlace (STACK_TOP - base) piece.loc }
    requires writable { IsWritable machine.old.target piece.loc }
    requires fits { IsWithin (length bytes.now) piece }
    ensures { IsSet base piece bytes.now (passing machine.old) (passing machine.new) }
{
    let start = offset_of(machine, base);
    let mut lent = Lent { machine };
    ffi3_marshal::set_piece(&mut lent, start, piece, bytes);
}

/// Puts the bytes that a piece of a value carries into its place, and fills the rest of the place. `bytes` are the
/// value's bytes in memory.
fn fill_piece(
    machine: &mut Machine,
    base: StackBase,
    piece: Piece,
    ty: &CheckedType<'_>,
    bytes: &[u8],
)
    requires lies { IsPlace (STACK_TOP - base) piece.loc }
    requires writable { IsWritable machine.old.target piece.loc }
    requires part { IsPieceOf ty.now piece }
    requires sized { length bytes.now ≡ size_of ty.now }
    ensures { IsSetAndFilled base ty.now (value_in ty.now bytes.now) bytes.now piece (passing machine.old) (passing machine.new) }
{
    let start = offset_of(machine, base);
    let mut lent = Lent { machine };
    ffi3_marshal::fill_piece(&mut lent, start, piece, ty, bytes);
}

/// Stores a piece of a value, and fills the rest of the piece's place. Padding keeps what stood there, and so does the
/// rest of the place where nothing fills it. `bytes` are as many as the value has, whatever they hold. Stack places
/// count from the address `base`.
pub fn store_piece(
    machine: &mut Machine,
    base: StackBase,
    piece: Piece,
    ty: &CheckedType<'_>,
    value: &Value,
    bytes: &mut [u8],
)
    requires lies { IsPlace (STACK_TOP - base) piece.loc }
    requires writable { IsWritable machine.old.target piece.loc }
    requires part { IsPieceOf ty.now piece }
    requires fits { fits ty.now (value_of value.now) ≡ true }
    requires sized { length bytes.old ≡ size_of ty.now }
    ensures stored { IsStored base ty.now (value_of value.now) piece (passing machine.old) (passing machine.new) }
    ensures sized { length bytes.new ≡ length bytes.old }
{
    load_piece(machine, base, &piece, bytes);
    write_bytes(ty.as_type(), value, bytes);
    fill_piece(machine, base, piece, ty, bytes);
}

/// Whether a piece is whole once the runs are stored.
fn goes_by_run(piece: &Piece) -> bool
    ensures { result ≡ goes_by_run piece.now.loc piece.now.ext }
{
    match piece.loc {
        Loc::S(_, _) => match piece.ext {
            Ext::Free => true,
            Ext::Widen => false,
            Ext::Riscv => false,
            Ext::Boxed => false,
        },
        Loc::G(_) => false,
        Loc::F(_) => false,
    }
}

/// Stores a piece of a value that does not go by a run.
fn store_other(
    machine: &mut Machine,
    base: StackBase,
    piece: Piece,
    ty: &CheckedType<'_>,
    value: &Value,
    bytes: &mut [u8],
)
    requires lies { IsPlace (STACK_TOP - base) piece.loc }
    requires writable { IsWritable machine.old.target piece.loc }
    requires part { IsPieceOf ty.now piece }
    requires fits { fits ty.now (value_of value.now) ≡ true }
    requires sized { length bytes.old ≡ size_of ty.now }
    requires given { goes_by_run piece.loc piece.ext ≡ true → PieceStands base (passing machine.old) ty.now (value_of value.now) piece }
    ensures stored { IsStored base ty.now (value_of value.now) piece (passing machine.old) (passing machine.new) }
    ensures sized { length bytes.new ≡ length bytes.old }
{
    if !goes_by_run(&piece) {
        store_piece(machine, base, piece, ty, value, bytes);
    }
}

/// Stores all pieces of a value that do not go by runs, by way of `bytes`, which are as many as it has.
fn store_each(
    machine: &mut Machine,
    base: StackBase,
    pieces: &Pieces,
    ty: &CheckedType<'_>,
    value: &Value,
    bytes: &mut [u8],
)
    requires lie { AllByRecursion (IsPlace (STACK_TOP - base)) (piece_locs pieces.now) }
    requires writable { AllByRecursion (IsWritable machine.old.target) (piece_locs pieces.now) }
    requires apart { AreApart (piece_locs pieces.now) }
    requires parts { AllByRecursion (IsPieceOf ty.now) pieces.now }
    requires fits { fits ty.now (value_of value.now) ≡ true }
    requires sized { length bytes.old ≡ size_of ty.now }
    requires given { AllByRecursion (λ p. goes_by_run p.loc p.ext ≡ true → PieceStands base (passing machine.old) ty.now (value_of value.now) p) pieces.now }
    ensures stand { PiecesStand base (passing machine.new) ty.now (value_of value.now) pieces.now }
    ensures unused { AllByRecursion (KeepsUnused base ty.now (passing machine.old) (passing machine.new)) pieces.now }
    ensures stays { Stays base (piece_locs pieces.now) (passing machine.old) (passing machine.new) }
    ensures within { (room : ℕ) → AllByRecursion (IsPlace room) (piece_locs pieces.now) → WroteWithin base (base + room) (passing machine.old) (passing machine.new) }
{
    for j in (0..pieces.len()).rev() {
        store_other(machine, base, *pieces.get(j), ty, value, bytes);
    }
}

/// Stores all pieces of a value that stands in registers, by way of `bytes`, which are as many as it has.
fn store_pieces_by(
    machine: &mut Machine,
    base: StackBase,
    pieces: &Pieces,
    ty: &CheckedType<'_>,
    value: &Value,
    bytes: &mut [u8],
)
    requires registers { AllByRecursion (IsPlace 0) (piece_locs pieces.now) }
    requires writable { AllByRecursion (IsWritable machine.old.target) (piece_locs pieces.now) }
    requires apart { AreApart (piece_locs pieces.now) }
    requires parts { AllByRecursion (IsPieceOf ty.now) pieces.now }
    requires fits { fits ty.now (value_of value.now) ≡ true }
    requires sized { length bytes.old ≡ size_of ty.now }
    ensures stand { PiecesStand base (passing machine.new) ty.now (value_of value.now) pieces.now }
    ensures unused { AllByRecursion (KeepsUnused base ty.now (passing machine.old) (passing machine.new)) pieces.now }
    ensures stays { Stays base (piece_locs pieces.now) (passing machine.old) (passing machine.new) }
    ensures within { (room : ℕ) → AllByRecursion (IsPlace room) (piece_locs pieces.now) → WroteWithin base (base + room) (passing machine.old) (passing machine.new) }
{
    store_each(machine, base, pieces, ty, value, bytes);
}

/// Stores all pieces of a value that stands in registers, and fills the rest of them. Padding keeps what stood there,
/// and so does the rest of a register where nothing fills it.
pub fn store_pieces(
    machine: &mut Machine,
    base: StackBase,
    pieces: &Pieces,
    ty: &CheckedType<'_>,
    value: &Value,
)
    requires registers { AllByRecursion (IsPlace 0) (piece_locs pieces.now) }
    requires writable { AllByRecursion (IsWritable machine.old.target) (piece_locs pieces.now) }
    requires apart { AreApart (piece_locs pieces.now) }
    requires parts { AllByRecursion (IsPieceOf ty.now) pieces.now }
    requires fits { fits ty.now (value_of value.now) ≡ true }
    ensures stand { PiecesStand base (passing machine.new) ty.now (value_of value.now) pieces.now }
    ensures unused { AllByRecursion (KeepsUnused base ty.now (passing machine.old) (passing machine.new)) pieces.now }
    ensures stays { Stays base (piece_locs pieces.now) (passing machine.old) (passing machine.new) }
    ensures within { (room : ℕ) → AllByRecursion (IsPlace room) (piece_locs pieces.now) → WroteWithin base (base + room) (passing machine.old) (passing machine.new) }
{
    let size = ty.size() as usize;
    if size <= SMALL {
        let mut room = [0; SMALL];
        store_pieces_by(machine, base, pieces, ty, value, &mut room[..size]);
    } else {
        let mut room = [0; LARGEST_TYPE as usize];
        store_pieces_by(machine, base, pieces, ty, value, &mut room[..size]);
    }
}

/// Stores a value in pieces, by way of `bytes`, which are as many as it has. What stands on the stack goes by runs, but
/// where something fills the rest of a place.
fn store_direct(
    machine: &mut Machine,
    base: StackBase,
    pieces: &Pieces,
    runs: &Runs,
    ty: &CheckedType<'_>,
    value: &Value,
    bytes: &mut [u8],
)
    requires lie { AllByRecursion (IsPlace (STACK_TOP - base)) (piece_locs pieces.now) }
    requires writable { AllByRecursion (IsWritable machine.old.target) (piece_locs pieces.now) }
    requires apart { AreApart (piece_locs pieces.now) }
    requires runs { AreRunsOf pieces.now runs.now }
    requires parts { AllByRecursion (IsPieceOf ty.now) pieces.now }
    requires fits { fits ty.now (value_of value.now) ≡ true }
    requires sized { length bytes.old ≡ size_of ty.now }
    ensures stand { PiecesStand base (passing machine.new) ty.now (value_of value.now) pieces.now }
    ensures unused { AllByRecursion (KeepsUnused base ty.now (passing machine.old) (passing machine.new)) pieces.now }
    ensures stays { Stays base (piece_locs pieces.now) (passing machine.old) (passing machine.new) }
    ensures within { (room : ℕ) → AllByRecursion (IsPlace room) (piece_locs pieces.now) → WroteWithin base (base + room) (passing machine.old) (passing machine.new) }
{
    // its contract tells where it lies
    let _at = base.address();
    store_runs(machine, base, runs, ty, value, bytes);
    store_each(machine, base, pieces, ty, value, bytes);
}

/// Stores an argument by reference, by way of `bytes`, which are as many as it has: a copy of the value `copy` bytes
/// from `base` on, and the copy's address in a place. The copy's padding keeps what stood there.
fn store_copy(
    machine: &mut Machine,
    base: StackBase,
    at: Loc,
    copy: u32,
    ty: &CheckedType<'_>,
    value: &Value,
    bytes: &mut [u8],
)
    requires high { base + copy + size_of ty.now ≤ STACK_TOP }
    requires lies { IsPlace (STACK_TOP - base) at }
    requires writable { IsWritable machine.old.target at }
    requires whole { IsWhole at }
    requires apart { AllByRecursion (Apart at) (stack_words_for copy ty.now) }
    requires fits { fits ty.now (value_of value.now) ≡ true }
    requires sized { length bytes.old ≡ size_of ty.now }
    ensures { IsCopied base ty.now (value_of value.now) at copy (passing machine.old) (passing machine.new) }
{
    machine.facts();
    let first = base.address();
    let size = ty.size();
    bytes.copy_from_slice(machine.lend_stack(first + copy as u64, size));
    write_bytes(ty.as_type(), value, bytes);
    let mut lent = Lent { machine };
    ffi3_marshal::store_copy(&mut lent, first - STACK, at, copy, ty, bytes);
}

/// Stores an argument at its place, by way of `bytes`, which are as many as it has.
fn store_place_by(
    machine: &mut Machine,
    base: StackBase,
    place: &Place,
    runs: &Runs,
    ty: &CheckedType<'_>,
    value: &Value,
    bytes: &mut [u8],
)
    requires lies { PlaceLies (STACK_TOP - base) ty.now place.now }
    requires writable { AllByRecursion (IsWritable machine.old.target) (place_locs place.now) }
    requires apart { AreApart (place_uses ty.now place.now) }
    requires has_all { PlaceHasAll ty.now place.now }
    requires runs { AreRunsOf (pieces_of place.now) runs.now }
    requires fits { fits ty.now (value_of value.now) ≡ true }
    requires sized { length bytes.old ≡ size_of ty.now }
    ensures stands { PlaceStands base (passing machine.new) ty.now (value_of value.now) place.now }
    ensures unused { PlaceKeepsUnused base ty.now (passing machine.old) (passing machine.new) place.now }
    ensures stays { Stays base (place_uses ty.now place.now) (passing machine.old) (passing machine.new) }
    ensures within { (room : ℕ) → PlaceLies room ty.now place.now → WroteWithin base (base + room) (passing machine.old) (passing machine.new) }
{
    match place {
        Place::Direct(pieces) => store_direct(machine, base, pieces, runs, ty, value, bytes),
        Place::ByRef { at, copy } => store_copy(machine, base, *at, *copy, ty, value, bytes),
    }
}

/// Stores an argument at its place. What no leaf of it has keeps what stood there. Stack places count from the address
/// `base`.
pub fn store_place(
    machine: &mut Machine,
    base: StackBase,
    place: &Place,
    runs: &Runs,
    ty: &CheckedType<'_>,
    value: &Value,
)
    requires lies { PlaceLies (STACK_TOP - base) ty.now place.now }
    requires writable { AllByRecursion (IsWritable machine.old.target) (place_locs place.now) }
    requires apart { AreApart (place_uses ty.now place.now) }
    requires has_all { PlaceHasAll ty.now place.now }
    requires runs { AreRunsOf (pieces_of place.now) runs.now }
    requires fits { fits ty.now (value_of value.now) ≡ true }
    ensures stands { PlaceStands base (passing machine.new) ty.now (value_of value.now) place.now }
    ensures unused { PlaceKeepsUnused base ty.now (passing machine.old) (passing machine.new) place.now }
    ensures stays { Stays base (place_uses ty.now place.now) (passing machine.old) (passing machine.new) }
    ensures within { (room : ℕ) → PlaceLies room ty.now place.now → WroteWithin base (base + room) (passing machine.old) (passing machine.new) }
{
    let size = ty.size() as usize;
    if size <= SMALL {
        let mut room = [0; SMALL];
        store_place_by(machine, base, place, runs, ty, value, &mut room[..size]);
    } else {
        let mut room = [0; LARGEST_TYPE as usize];
        store_place_by(machine, base, place, runs, ty, value, &mut room[..size]);
    }
}

/// Stores all arguments in the frame that starts at the stack pointer. What no leaf of an argument has keeps what stood
/// there.
pub fn store_places<A: Abi>(machine: &mut Machine, cif: &Cif<A>, values: &Values)
    requires fit { all_fit (trees_of cif.now.arguments) (values_of values.now) ≡ true }
    requires target { machine.old.target ≡ A.TARGET }
    requires bottom { STACK ≤ machine.old.sp }
    requires frame { machine.old.sp + frame_of A.standard cif.now ≤ STACK_TOP }
    ensures stand { AllStand machine.old.sp (passing machine.new) cif.now.arguments (plan_of A.standard cif.now).places values.now }
    ensures unused { AllKeepUnused machine.old.sp (passing machine.old) (passing machine.new) cif.now.arguments (plan_of A.standard cif.now).places }
    ensures own { OwnsArguments (image_of (frame_of A.standard cif.now) (passing machine.new)) 0 cif.now.arguments (plan_of A.standard cif.now).places values.now }
    ensures filled { FillArguments (image_of (frame_of A.standard cif.now) (passing machine.new)) 0 cif.now.arguments (plan_of A.standard cif.now).places values.now }
    ensures stays { Stays machine.old.sp (all_uses cif.now.arguments (plan_of A.standard cif.now).places) (passing machine.old) (passing machine.new) }
    ensures within { WroteWithin machine.old.sp (machine.old.sp + frame_of A.standard cif.now) (passing machine.old) (passing machine.new) }
{
    let sig = cif.checked_sig();
    let base = StackBase::at(machine.sp());
    for i in (0..sig.count()).rev() {
        let ty = sig.arg(i);
        store_place(
            machine,
            base,
            cif.place(i),
            cif.runs(i),
            &ty,
            values.get(i as usize),
        );
    }
}

/// Stores the address of a hidden result's buffer. Stack places count from the address `base`.
pub fn store_hidden(machine: &mut Machine, base: StackBase, res: &Res)
    requires lie { AllByRecursion (IsPlace (STACK_TOP - base)) (hidden_locs res.now) }
    requires writable { AllByRecursion (IsWritable machine.old.target) (hidden_locs res.now) }
    requires whole { AllByRecursion IsWhole (hidden_locs res.now) }
    ensures stands { HiddenStands base (passing machine.new) res.now }
    ensures stays { Stays base (hidden_locs res.now) (passing machine.old) (passing machine.new) }
    ensures within { (room : ℕ) → AllByRecursion (IsPlace room) (hidden_locs res.now) → WroteWithin base (base + room) (passing machine.old) (passing machine.new) }
{
    match res {
        Res::Hidden { at, buffer } => {
            let address = base.address() + *buffer as u64;
            put_word(machine, base, *at, address);
        }
        Res::Nothing => {}
        Res::Direct(_) => {}
    }
}
