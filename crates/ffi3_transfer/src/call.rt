//! Registers and stack of a call, as values are stored to them and read from them.
ghost use Rattle.std.specs.Prelude.{◌≡◌, ℕ, ◌<◌, ◌++◌, ⊤, List, get_or, length, refl};
ghost use Rattle.std.proofs.Common.{◌∙◌};
ghost use Rattle.ffi3_marshal.specs.Stored.{with_floating, with_general};
ghost use Rattle.ffi3_transfer.specs.Stored.{floating_words, image_in};

use crate::Registers;
use ffi3_marshal::{ReadImage, WriteImage};

/// Registers and stack that are read.
#[derive(Clone, Copy)]
pub(crate) struct Seen<'a> {
    pub(crate) registers: &'a Registers,
    pub(crate) stack: &'a [u8],
}

/// Registers and stack that are written to.
#[derive(Drop)]
pub(crate) struct Call<'a> {
    pub(crate) registers: &'a mut Registers,
    pub(crate) stack: &'a mut [u8],
}

/// What general register `k` holds.
fn general_of(registers: &Registers, k: u8) -> u64
    requires { k < 32 }
    ensures { result ≡ get_or registers.now.general k 0 }
{
    registers.general[k as usize]
}

/// What word `k` of the floating file holds: those of all registers, and behind them the upper halves.
fn floating_of(registers: &Registers, k: u8) -> u64
    requires { k < floating_words }
    ensures { result ≡ get_or (registers.now.floating ++ registers.now.upper) k 0 }
{
    if k < 32 {
        registers.floating[k as usize]
    } else {
        registers.upper[k as usize - 32]
    }
}

/// Sets general register `k`.
fn put_general(registers: &mut Registers, k: u8, value: u64)
    requires { k < 32 }
    ensures set { (stack : List ℕ) → image_in registers.new stack ≡ with_general k value (image_in registers.old stack) }
    ensures there { k < length registers.old.general }
{
    registers.general[k as usize] = value;
}

/// Sets word `k` of the floating file.
fn put_floating(registers: &mut Registers, k: u8, value: u64)
    requires { k < floating_words }
    ensures set { (stack : List ℕ) → image_in registers.new stack ≡ with_floating k value (image_in registers.old stack) }
    ensures there { k < length (registers.old.floating ++ registers.old.upper) }
{
    if k < 32 {
        registers.floating[k as usize] = value;
    } else {
        registers.upper[k as usize - 32] = value;
    }
}

impl<'a> ReadImage for Seen<'a> {
    ghost image = { λ s. image_in s.registers.now s.stack.now };

    ghost floatings = { floating_words };

    fn general(&self, k: u8) -> u64 {
        general_of(self.registers, k)
    }

    fn floating(&self, k: u8) -> u64 {
        floating_of(self.registers, k)
    }

    fn sp(&self) -> u64 {
        self.registers.sp
    }

    fn stack_len(&self) -> u64 {
        self.stack.len() as u64
    }

    fn read_stack(&self, from: u64, out: &mut [u8]) {
        let from = from as usize;
        out.copy_from_slice(&self.stack[from..from + out.len()]);
    }
}

impl<'a> ReadImage for Call<'a> {
    ghost image = { λ s. image_in s.registers.now s.stack.now };

    ghost floatings = { floating_words };

    fn general(&self, k: u8) -> u64 {
        general_of(&*self.registers, k)
    }

    fn floating(&self, k: u8) -> u64 {
        floating_of(&*self.registers, k)
    }

    fn sp(&self) -> u64 {
        self.registers.sp
    }

    fn stack_len(&self) -> u64 {
        self.stack.len() as u64
    }

    fn read_stack(&self, from: u64, out: &mut [u8]) {
        let from = from as usize;
        out.copy_from_slice(&self.stack[from..from + out.len()]);
    }
}

impl<'a> WriteImage for Call<'a> {
    ghost takes = { λ _ _. ⊤ };

    // they are still the caller's
    ghost wrote = { λ _ _ a b. (b.registers.ghost_name ≡ a.registers.ghost_name) × (b.stack.ghost_name ≡ a.stack.ghost_name) };

    fn set_general(&mut self, k: u8, value: u64) {
        put_general(self.registers, k, value);
    }

    fn set_floating(&mut self, k: u8, value: u64) {
        put_floating(self.registers, k, value);
    }

    fn write_stack(&mut self, from: u64, bytes: &[u8]) {
        let from = from as usize;
        self.stack[from..from + bytes.len()].copy_from_slice(bytes);
    }

    ghost wrote_nothing = { λ low high a. (refl, refl) };

    ghost wrote_then = { λ low high a b c first then. (then.0 ∙ first.0, then.1 ∙ first.1) };

    ghost still_takes = { λ low high k a b wrote takes. tt };
}
