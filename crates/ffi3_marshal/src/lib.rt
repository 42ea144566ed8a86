//! Puts the values of a call into the registers and stack bytes where a plan wants them, and reads them from there. What
//! has these registers and this stack is up to the caller.
#![tactic(auto)]

ghost use Rattle.std.specs.Prelude.{◌≡◌, ℕ, ◌+◌, ◌<◌, ◌≤◌, length, get_or};
ghost use Rattle.ffi3_type_spec.specs.Value.{part};
ghost use Rattle.ffi3_place_spec.specs.Image.{Image};
ghost use Rattle.ffi3_marshal.specs.Stored.{stored, with_floating, with_general};

mod putting;
mod reading;
mod storing;
mod widen;

pub use putting::{fill_piece, put, put_word, set_piece};
pub use reading::{place_bytes, place_word, read_piece};
pub use storing::{store_copy, store_hidden, store_pieces, store_place};

/// Has the registers and the stack of a call.
pub trait ReadImage {
    /// The registers, and the bytes of the stack from the stack pointer on.
    ghost image: { Self → Image };

    /// How many words the floating file has that are read and written.
    ghost floatings: { ℕ };

    /// What general register `k` holds.
    fn general(&self, k: u8) -> u64
        requires { k < 32 }
        ensures { result ≡ get_or (image self.now).general k 0 };

    /// What word `k` of the floating file holds: the low 64 bits of floating register `k`, or a further word.
    fn floating(&self, k: u8) -> u64
        requires { k < floatings }
        ensures { result ≡ get_or (image self.now).floating k 0 };

    /// The stack pointer.
    fn sp(&self) -> u64
        ensures { result ≡ (image self.now).sp };

    /// How many bytes of the stack there are.
    fn stack_len(&self) -> u64
        ensures { result ≡ length (image self.now).stack };

    /// Reads as many bytes of the stack as there is room for, from an offset on.
    fn read_stack(&self, from: u64, out: &mut [u8])
        requires { from + length out.old ≤ length (image self.now).stack }
        ensures { out.new ≡ part (image self.now).stack from (length out.old) };
}

/// Has registers and stack that are written to.
pub trait WriteImage: ReadImage {
    /// A write to general register `k` is not dropped.
    ghost takes: { Self → ℕ → Type 0 };

    /// Of what stands beside the image nothing has changed that a write to the stack from one offset up to another, or to
    /// registers, leaves.
    ghost wrote: { ℕ → ℕ → Self → Self → Type 0 };

    /// Sets general register `k`.
    fn set_general(&mut self, k: u8, value: u64)
        requires below { k < 32 }
        requires takes { takes self.old k }
        ensures set { Self.image self.new ≡ with_general k value (Self.image self.old) }
        ensures there { k < length (Self.image self.old).general }
        ensures wrote { (low high : ℕ) → wrote low high self.old self.new };

    /// Sets word `k` of the floating file.
    fn set_floating(&mut self, k: u8, value: u64)
        requires below { k < Self.floatings }
        ensures set { Self.image self.new ≡ with_floating k value (Self.image self.old) }
        ensures there { k < length (Self.image self.old).floating }
        ensures wrote { (low high : ℕ) → wrote low high self.old self.new };

    /// Writes bytes to the stack, from an offset on.
    fn write_stack(&mut self, from: u64, bytes: &[u8])
        requires { from + length bytes.now ≤ length (Self.image self.old).stack }
        ensures stored { Self.image self.new ≡ stored from bytes.now (Self.image self.old) }
        ensures wrote { (low high : ℕ) → low ≤ from → from + length bytes.now ≤ high → wrote low high self.old self.new };

    ghost wrote_nothing: { (low high : ℕ) (a : Self) → wrote low high a a };

    ghost wrote_then: { (low high : ℕ) (a b c : Self) → wrote low high a b → wrote low high b c → wrote low high a c };

    ghost still_takes: { (low high k : ℕ) (a b : Self) → wrote low high a b → takes a k → takes b k };
}
