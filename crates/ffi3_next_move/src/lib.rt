//! Finds out what a function of a running script does next. Numbers are those of the run: the script's functions come
//! first and then the natives, the script's signatures first and then those of each native.
#![tactic(auto)]

mod asking;
mod natives;
mod numbers;
mod standing;

pub use asking::ask;
pub use ffi3_body::{Move, Native, Seen};
/// A want of memory: the one answer that no clause ties to a cause.
pub use ffi3_types::NoMemory;
pub use numbers::{sig_of, signature, signatures};
pub use standing::Standing;
