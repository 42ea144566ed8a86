//! Bytes and words of places.
ghost use Rattle.std.specs.Prelude.{◌≡◌};
ghost use Rattle.ffi3_place_spec.specs.Image.{word_at};
ghost use Rattle.ffi3_explain_spec.specs.Explain.{eight, place_byte};
ghost use Rattle.ffi3_explain.specs.ImageOf.{image_of};
ghost use Rattle.ffi3_explain.specs.Places.{HasPlace};

use crate::Image;
use ffi3_place::Loc;

/// The bytes of a place, and zeros behind them. Stack places count from `base` bytes above the stack pointer.
pub fn place_bytes(image: &Image, base: u64, at: Loc) -> [u8; 8]
    requires { HasPlace (image_of image.now) base at }
    ensures { result ≡ eight (place_byte (image_of image.now) base at) }
{
    // its length tells that the sum below is small
    let _len = image.stack.len();
    match at {
        Loc::G(r) => image.general[r as usize].to_le_bytes(),
        Loc::F(r) => image.floating[r as usize].to_le_bytes(),
        Loc::S(n, len) => {
            let start = base as usize + n as usize;
            let len = len as usize;
            let mut bytes = [0; 8];
            bytes[..len].copy_from_slice(&image.stack.as_slice()[start..start + len]);
            bytes
        }
    }
}

/// The number in a place. Stack places count from `base` bytes above the stack pointer.
pub fn place_word(image: &Image, base: u64, at: Loc) -> u64
    requires { HasPlace (image_of image.now) base at }
    ensures { result ≡ word_at (image_of image.now) base at }
{
    match at {
        Loc::G(r) => image.general[r as usize],
        Loc::F(r) => image.floating[r as usize],
        Loc::S(_, _) => u64::from_le_bytes(place_bytes(image, base, at)),
    }
}
