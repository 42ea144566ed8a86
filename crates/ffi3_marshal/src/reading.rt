//! Bytes that stand at places, read from registers and stack.
ghost use Rattle.std.specs.Prelude.{◌≡◌, length};
ghost use Rattle.ffi3_place_spec.specs.Image.{word_at};
ghost use Rattle.ffi3_place_spec.specs.Sound.{IsWithin};
ghost use Rattle.ffi3_marshal.specs.Read.{AreBytesOf, IsPieceRead, IsThereIn};

use crate::ReadImage;
use ffi3_place::{Loc, Piece};

/// The bytes of a place, and zeros behind them. Stack places count from `base` bytes above the stack pointer.
pub fn place_bytes<R: ReadImage>(state: &R, base: u64, at: Loc) -> [u8; 8]
    requires { IsThereIn R.floatings (R.image state.now) base at }
    ensures { AreBytesOf base (R.image state.now) at result }
{
    // its length tells that the sum below is small
    let _len = state.stack_len();
    match at {
        Loc::G(r) => state.general(r).to_le_bytes(),
        Loc::F(r) => state.floating(r).to_le_bytes(),
        Loc::S(n, len) => {
            let mut bytes = [0; 8];
            state.read_stack(base + n as u64, &mut bytes[..len as usize]);
            bytes
        }
    }
}

/// The number in a place.
pub fn place_word<R: ReadImage>(state: &R, base: u64, at: Loc) -> u64
    requires { IsThereIn R.floatings (R.image state.now) base at }
    ensures { result ≡ word_at (R.image state.now) base at }
{
    match at {
        Loc::G(r) => state.general(r),
        Loc::F(r) => state.floating(r),
        Loc::S(_, _) => u64::from_le_bytes(place_bytes(state, base, at)),
    }
}

/// Reads a piece of a value from its place, among the value's bytes.
pub fn read_piece<R: ReadImage>(state: &R, base: u64, piece: &Piece, out: &mut [u8])
    requires there { IsThereIn R.floatings (R.image state.now) base piece.now.loc }
    requires within { IsWithin (length out.old) piece.now }
    ensures { IsPieceRead base (R.image state.now) piece.now out.old out.new }
{
    let bytes = place_bytes(state, base, piece.loc);
    let start = piece.off as usize;
    let len = piece.len as usize;
    out[start..start + len].copy_from_slice(&bytes[..len]);
}
