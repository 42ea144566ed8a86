//! What C does with a call interface that it keeps: it prepares one, shares it, asks for its sizes and moves, and moves the
//! values of a call by it.
#![tactic(auto)]

mod keeping;
mod listing;
mod numbers;
mod transfers;

pub use ffi3_moves::ToldMove;
pub use keeping::{prepare, share};
pub use listing::{MoveList, tell_moves};
pub use numbers::{InterfaceSizes, NOWHERE, find_sizes};
pub use transfers::{Reason, collect, give, load, store};
