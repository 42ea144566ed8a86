//! Values at their places: what a caller stores for its callee.
ghost use Rattle.std.specs.Prelude.{◌≡◌, ℕ, ◌+◌, ◌-◌, ◌^◌, ◌<◌, ◌≤◌, length};
ghost use Rattle.std.specs.List.{AllByRecursion};
ghost use Rattle.ffi3_type_spec.specs.Layout.{size_of};
ghost use Rattle.ffi3_place_spec.specs.Holds.{OwnsHidden};
ghost use Rattle.ffi3_place_spec.specs.Sound.{Apart, AreApart, hidden_locs, IsPieceOf, IsWhole, PlaceHasAll, piece_locs, place_locs, stack_words_for};
ghost use Rattle.ffi3_marshal.specs.Stored.{IsPlaceIn, KeepsAbove, Stays, TakesAt};
ghost use Rattle.ffi3_marshal.specs.Read.{HiddenLiesIn};
ghost use Rattle.ffi3_marshal.specs.Standing.{IsCopied, PiecesStand, PlaceKeeps, PlaceLiesIn, PlaceStands, place_uses};

use crate::WriteImage;
use crate::putting::{fill_piece, put_word};
use ffi3_place::{Loc, Pieces, Place, Res};
use ffi3_types::CheckedType;

/// Stores all pieces of a value, and fills the rest of their places as the standard says.
pub fn store_pieces<W: WriteImage>(
    state: &mut W,
    base: u64,
    pieces: &Pieces,
    ty: &CheckedType<'_>,
    bytes: &[u8],
)
    requires lie { AllByRecursion (IsPlaceIn W.floatings (length (W.image state.old).stack - base)) (piece_locs pieces.now) }
    requires take { AllByRecursion (TakesAt (W.takes state.old)) (piece_locs pieces.now) }
    requires apart { AreApart (piece_locs pieces.now) }
    requires parts { AllByRecursion (IsPieceOf ty.now) pieces.now }
    requires sized { length bytes.now ≡ size_of ty.now }
    ensures stand { PiecesStand base (W.image state.new) ty.now bytes.now pieces.now }
    ensures kept { AllByRecursion (KeepsAbove base (W.image state.old) (W.image state.new)) pieces.now }
    ensures stays { Stays base (piece_locs pieces.now) (W.image state.old) (W.image state.new) }
    ensures within { (room : ℕ) → AllByRecursion (IsPlaceIn W.floatings room) (piece_locs pieces.now) → W.wrote base (base + room) state.old state.new }
{
    for j in (0..pieces.len()).rev() {
        fill_piece(state, base, *pieces.get(j), ty, bytes);
    }
}

/// The address that stands so many bytes above the first stack place.
fn address_of(sp: u64, base: u64, offset: u32) -> u64
    requires { sp + base + offset < 2 ^ 64 }
    ensures { result ≡ sp + base + offset }
{
    sp + base + offset as u64
}

/// Stores an argument by reference: a copy `copy` bytes above the first stack place, and its address in a place.
pub fn store_copy<W: WriteImage>(
    state: &mut W,
    base: u64,
    at: Loc,
    copy: u32,
    ty: &CheckedType<'_>,
    bytes: &[u8],
)
    requires fits { base + copy + size_of ty.now ≤ length (W.image state.old).stack }
    requires high { (W.image state.old).sp + length (W.image state.old).stack < 2 ^ 64 }
    requires lies { IsPlaceIn W.floatings (length (W.image state.old).stack - base) at }
    requires takes { TakesAt (W.takes state.old) at }
    requires whole { IsWhole at }
    requires apart { AllByRecursion (Apart at) (stack_words_for copy ty.now) }
    requires sized { length bytes.now ≡ size_of ty.now }
    ensures copied { IsCopied base ty.now bytes.now at copy (W.image state.old) (W.image state.new) }
    ensures within { (room : ℕ) → IsPlaceIn W.floatings room at → copy + size_of ty.now ≤ room → W.wrote base (base + room) state.old state.new }
{
    let address = address_of(state.sp(), base, copy);
    state.write_stack(base + copy as u64, bytes);
    put_word(state, base, at, address);
}

/// Stores an argument at its place. The bytes between its last one and the end of a place that nothing fills stay.
pub fn store_place<W: WriteImage>(
    state: &mut W,
    base: u64,
    place: &Place,
    ty: &CheckedType<'_>,
    bytes: &[u8],
)
    requires base { base ≤ length (W.image state.old).stack }
    requires lies { PlaceLiesIn W.floatings (length (W.image state.old).stack - base) ty.now place.now }
    requires take { AllByRecursion (TakesAt (W.takes state.old)) (place_locs place.now) }
    requires high { (W.image state.old).sp + length (W.image state.old).stack < 2 ^ 64 }
    requires apart { AreApart (place_uses ty.now place.now) }
    requires has_all { PlaceHasAll ty.now place.now }
    requires sized { length bytes.now ≡ size_of ty.now }
    ensures stands { PlaceStands base (W.image state.new) ty.now bytes.now place.now }
    ensures kept { PlaceKeeps base (W.image state.old) (W.image state.new) ty.now place.now }
    ensures stays { Stays base (place_uses ty.now place.now) (W.image state.old) (W.image state.new) }
    ensures within { (room : ℕ) → PlaceLiesIn W.floatings room ty.now place.now → W.wrote base (base + room) state.old state.new }
{
    match place {
        Place::Direct(pieces) => store_pieces(state, base, pieces, ty, bytes),
        Place::ByRef { at, copy } => store_copy(state, base, *at, *copy, ty, bytes),
    }
}

/// Stores the address of a hidden result's buffer.
pub fn store_hidden<W: WriteImage>(state: &mut W, base: u64, res: &Res)
    requires lies { HiddenLiesIn W.floatings base (W.image state.old) res.now }
    requires take { AllByRecursion (TakesAt (W.takes state.old)) (hidden_locs res.now) }
    ensures stands { OwnsHidden (W.image state.new) base res.now }
    ensures stays { Stays base (hidden_locs res.now) (W.image state.old) (W.image state.new) }
    ensures within { (room : ℕ) → AllByRecursion (IsPlaceIn W.floatings room) (hidden_locs res.now) → W.wrote base (base + room) state.old state.new }
{
    match res {
        Res::Hidden { at, buffer } => {
            let address = address_of(state.sp(), base, *buffer);
            put_word(state, base, *at, address);
        }
        Res::Nothing => {}
        Res::Direct(_) => {}
    }
}
