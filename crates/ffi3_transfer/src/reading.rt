//! Bytes that stand at places, read from registers and stack.
ghost use Rattle.std.specs.Prelude.{◌≡◌, length};
ghost use Rattle.std.specs.List.{AllByRecursion};
ghost use Rattle.ffi3_place_spec.specs.Image.{word_at};
ghost use Rattle.ffi3_place_spec.specs.Sound.{IsWithin};
ghost use Rattle.ffi3_explain_spec.specs.Explain.{first_bytes};
ghost use Rattle.ffi3_transfer.specs.Places.{CanBeRead, HasPlace};
ghost use Rattle.ffi3_transfer.specs.Stored.{image_in};

use crate::Registers;
use crate::call::Seen;
use ffi3_marshal::read_piece;
use ffi3_place::{Loc, Pieces};

/// The number in a place.
pub fn place_word(registers: &Registers, stack: &[u8], base: u64, at: Loc) -> u64
    requires { HasPlace (image_in registers.now stack.now) base at }
    ensures { result ≡ word_at (image_in registers.now stack.now) base at }
{
    let call = Seen { registers, stack };
    ffi3_marshal::place_word(&call, base, at)
}

/// The bytes of a value in pieces. Of two pieces that have a byte the first tells it, and a byte of none is 0.
pub fn read_pieces(registers: &Registers, stack: &[u8], base: u64, pieces: &Pieces, out: &mut [u8])
    requires there { AllByRecursion (CanBeRead (image_in registers.now stack.now) base) pieces.now }
    requires within { AllByRecursion (IsWithin (length out.old)) pieces.now }
    ensures { out.new ≡ first_bytes (image_in registers.now stack.now) base pieces.now 0 (length out.old) }
{
    let call = Seen { registers, stack };
    out.fill(0);
    for j in (0..pieces.len()).rev() {
        read_piece(&call, base, pieces.get(j), out);
    }
}
