//! Bytes and words at places of registers and stack.
ghost use Rattle.std.specs.Prelude.{◌≡◌, ℕ, ◌+◌, ◌-◌, ◌/◌, ◌^◌, ◌<◌, ◌≤◌, length, get_or};
ghost use Rattle.std.specs.Int.{w64, to_le_bytes};
ghost use Rattle.ffi3_type_spec.specs.Layout.{size_of};
ghost use Rattle.ffi3_place_spec.specs.Sound.{IsPieceOf, IsWhole, IsWithin, place_size};
ghost use Rattle.ffi3_marshal.specs.Stored.{HasLow, IsPlaceIn, IsPut, IsSet, IsStored, IsWordPut, TakesAt};

use crate::WriteImage;
use crate::widen::{widened, widened_from_32};
use ffi3_place::{Ext, Loc, Piece};
use ffi3_types::CheckedType;

/// The number of eight bytes, the lowest first.
fn word_of(bytes: [u8; 8]) -> u64
    ensures { to_le_bytes w64 result ≡ bytes }
{
    u64::from_le_bytes(bytes)
}

/// The word with its low bytes replaced.
fn with_low(word: u64, bytes: &[u8]) -> u64
    requires { length bytes.now ≤ 8 }
    ensures { HasLow bytes.now word result }
{
    let mut all = word.to_le_bytes();
    all[..bytes.len()].copy_from_slice(bytes);
    word_of(all)
}

/// Puts bytes into a place, whose other bytes stay. Stack places count from `base` bytes above the stack pointer.
pub fn put<W: WriteImage>(state: &mut W, base: u64, at: Loc, bytes: &[u8])
    requires lies { IsPlaceIn W.floatings (length (W.image state.old).stack - base) at }
    requires takes { TakesAt (W.takes state.old) at }
    requires few { length bytes.now ≤ place_size at }
    ensures put { IsPut base at bytes.now (W.image state.old) (W.image state.new) }
    ensures within { (room : ℕ) → IsPlaceIn W.floatings room at → W.wrote base (base + room) state.old state.new }
{
    // its length tells that the sum below is small
    let _len = state.stack_len();
    match at {
        Loc::G(r) => {
            let word = with_low(state.general(r), bytes);
            state.set_general(r, word);
        }
        Loc::F(r) => {
            let word = with_low(state.floating(r), bytes);
            state.set_floating(r, word);
        }
        Loc::S(n, _) => state.write_stack(base + n as u64, bytes),
    }
}

/// Puts a number into a place of eight bytes. Stack places count from `base` bytes above the stack pointer.
pub fn put_word<W: WriteImage>(state: &mut W, base: u64, at: Loc, word: u64)
    requires lies { IsPlaceIn W.floatings (length (W.image state.old).stack - base) at }
    requires takes { TakesAt (W.takes state.old) at }
    requires whole { IsWhole at }
    ensures put { IsWordPut base at word (W.image state.old) (W.image state.new) }
    ensures within { (room : ℕ) → IsPlaceIn W.floatings room at → W.wrote base (base + room) state.old state.new }
{
    put(state, base, at, &word.to_le_bytes());
}

/// Puts the bytes that a piece carries into its place, whose other bytes stay.
pub fn set_piece<W: WriteImage>(state: &mut W, base: u64, piece: Piece, bytes: &[u8])
    requires lies { IsPlaceIn W.floatings (length (W.image state.old).stack - base) piece.loc }
    requires takes { TakesAt (W.takes state.old) piece.loc }
    requires fits { IsWithin (length bytes.now) piece }
    ensures set { IsSet base piece bytes.now (W.image state.old) (W.image state.new) }
    ensures within { (room : ℕ) → IsPlaceIn W.floatings room piece.loc → W.wrote base (base + room) state.old state.new }
{
    let from = piece.off as usize;
    put(
        state,
        base,
        piece.loc,
        &bytes[from..from + piece.len as usize],
    );
}

/// The number of four bytes from an offset on, with ones above it.
fn boxed(bytes: &[u8], from: usize) -> u64
    requires { from + 4 ≤ length bytes.now }
    ensures low { (k : ℕ) → k < 4 → get_or (to_le_bytes w64 result) k 0 ≡ get_or bytes.now (from + k) 0 }
    ensures high { result / 2 ^ 32 ≡ 2 ^ 32 - 1 }
{
    word_of([
        bytes[from],
        bytes[from + 1],
        bytes[from + 2],
        bytes[from + 3],
        0xFF,
        0xFF,
        0xFF,
        0xFF,
    ])
}

/// Puts the bytes that a piece of a value carries into its place, and fills the rest of the place as the standard says.
pub fn fill_piece<W: WriteImage>(
    state: &mut W,
    base: u64,
    piece: Piece,
    ty: &CheckedType<'_>,
    bytes: &[u8],
)
    requires lies { IsPlaceIn W.floatings (length (W.image state.old).stack - base) piece.loc }
    requires takes { TakesAt (W.takes state.old) piece.loc }
    requires part { IsPieceOf ty.now piece }
    requires sized { length bytes.now ≡ size_of ty.now }
    ensures stored { IsStored base ty.now bytes.now piece (W.image state.old) (W.image state.new) }
    ensures within { (room : ℕ) → IsPlaceIn W.floatings room piece.loc → W.wrote base (base + room) state.old state.new }
{
    let plain = ty.as_type();
    match piece.ext {
        Ext::Free => set_piece(state, base, piece, bytes),
        Ext::Widen => put_word(state, base, piece.loc, widened(plain, bytes)),
        Ext::Riscv => put_word(state, base, piece.loc, widened_from_32(plain, bytes)),
        Ext::Boxed => put_word(state, base, piece.loc, boxed(bytes, piece.off as usize)),
    }
}
