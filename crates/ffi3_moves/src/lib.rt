//! Moves: how the values of a call go to registers and stack bytes and back, as plain data, by any calling standard.
//!
//! A player needs no type. It has the values, one after another, each from a multiple of 8 on; and an exchange: bytes
//! with a place for each register, where stubs have it, and from `FRAME_AT` on the frame. In C:
//!
//! ```c
//! struct ffi3_move {
//!     uint32_t kind;   /* by the order of `Kind`, from 0 on */
//!     uint32_t part;   /* the argument's number; 0 for a result */
//!     uint64_t from;   /* the first byte that is read; a number itself; of an address the byte of the frame */
//!     uint64_t to;     /* the first byte that is written */
//!     uint64_t length; /* how many bytes are read; 8 of a number or an address */
//! };
//! ```
//!
//! The sizes that a player is told: `packed_size` for the values, `size` of the result, `frame` of the interface, and
//! `FRAME_AT + frame` for the exchange.
#![tactic(auto)]

mod arguments;
mod kinds;
mod laws;
mod pieces;
mod results;
mod told;

pub use arguments::{moves_to_collect, moves_to_store};
use ffi3_place_spec::Listed;
pub use laws::{collect_law, give_law, load_law, store_law};
pub use results::{hidden_move, moves_to_give, moves_to_load, returned_at};
pub use told::{
    ToldMove, tell_hidden_move, tell_moves_to_collect, tell_moves_to_give, tell_moves_to_load,
    tell_moves_to_store,
};

/// How a move makes the bytes that it writes.
#[derive(Clone, Copy, Debug, PartialEq, Eq)]
pub enum Kind {
    /// The bytes as they are.
    Bytes,
    /// Zeros above them, eight bytes in all.
    Zero,
    /// What their highest bit is above them, eight bytes in all.
    Sign,
    /// Ones above them, eight bytes in all.
    Ones,
    /// A number of eight bytes, which `from` is.
    Number,
    /// The address of the byte `from` of the frame.
    Address,
    /// The bytes from the address on that stands at `from`, wherever in memory that points.
    Behind,
}

/// Bytes that go from one memory to another.
#[derive(Clone, Copy, Debug, PartialEq, Eq)]
pub struct Move {
    pub kind: Kind,
    /// The number of the argument whose value it moves; 0 for a result.
    pub part: u32,
    pub from: u64,
    pub to: u64,
    pub length: u64,
}

/// Moves that are played one after another.
pub type Moves = Listed<Move>;

/// Where in an exchange the frame's bytes begin: behind those of the registers, of which general ones stand at 8 times
/// their number and floating ones 256 bytes on, and behind the words of the stubs, where the upper halves of AArch64's
/// v0 to v7 stand by their numbers 32 to 39.
pub const FRAME_AT: u64 = 576;
