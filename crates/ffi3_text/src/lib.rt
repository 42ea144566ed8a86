//! Lines that tell layouts, places and what a trace records.
#![tactic(auto)]

mod layout;
mod names;
mod numbers;
mod place;
mod trace;

pub use layout::layout_line;
pub use names::write_loc;
pub use place::{place_line, sig_line};
pub use trace::{enter_line, keep_line, leave_line};
