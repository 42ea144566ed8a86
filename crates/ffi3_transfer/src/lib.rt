//! Values between a caller's memory and the registers and stack of a call, by any calling standard.
#![tactic(auto)]

mod call;
mod collecting;
mod giving;
mod loading;
mod padding;
mod putting;
mod reading;
mod storing;

pub use collecting::{collect, first_outside, outside_of, read_argument};
pub use giving::{give, offset_in};
pub use loading::load;
pub use putting::{fill_piece, put, put_word, set_piece};
pub use reading::{place_word, read_pieces};
pub use storing::{packed_size, store};

/// What a machine's registers hold: C's `struct ffi3_registers`.
#[repr(C)]
#[derive(Clone, Copy)]
pub struct Registers {
    /// General registers, by their numbers.
    pub general: [u64; 32],
    /// The low 64 bits of floating registers. On AMD64, which has 16 of them, 16 and 17 are st(0): the 64 bits of its
    /// significand, and the 16 of its sign and exponent; and 18 and 19 are st(1).
    pub floating: [u64; 32],
    /// The stack pointer.
    pub sp: u64,
    /// On AArch64 the high 64 bits of v0 to v7.
    pub upper: [u64; 8],
}

/// Why values are not stored.
#[derive(Clone, Copy, Debug, PartialEq, Eq)]
pub enum Unstored {
    /// The values take so many bytes, and these are more or fewer.
    WrongSize(usize),
    /// Return address and frame take so many bytes of the stack, and there are fewer.
    ShortStack(usize),
    /// The stack reaches past the last address.
    HighStack,
}

/// Why a result is not given.
#[derive(Clone, Copy, Debug, PartialEq, Eq)]
pub enum Ungiven {
    /// The result takes so many bytes, and these are more or fewer.
    WrongSize(usize),
    /// The stack has fewer bytes than the return address and the place of the buffer's address take.
    ShortStack(usize),
    /// The stack reaches past the last address.
    HighStack,
    /// The buffer's address, which points past the stack's bytes.
    NotInStack(u64),
}

/// Why arguments are not collected.
#[derive(Clone, Copy, Debug, PartialEq, Eq)]
pub enum Uncollected {
    /// The values take so many bytes, and there is room for more or fewer.
    WrongSize(usize),
    /// The arguments reach so far into the stack, and it has fewer bytes.
    ShortStack(usize),
    /// An argument, by its number, whose address points past the stack's bytes.
    NotInStack(u32, u64),
}
