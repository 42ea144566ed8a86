//! The line of a fault, and the exit status when a write fails.
#![tactic(auto)]

mod ending;
mod known;
mod telling;

pub use ending::finish;
pub use known::{Fault, tell_fault};
pub use telling::{tell, tell_bytes};
