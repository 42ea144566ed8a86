//! Explains why a text is not a C declaration: it shows the line, marks the place, and says what was expected there.
//! Of a signature with a fault it says which of its values has it.
#![tactic(auto)]

mod expected;
mod positions;
mod told;
mod told_text;
mod track;

pub use expected::Expected;
pub use positions::{argument_name, placed_words, words_at};
pub use told::{Reason, Told, tell};
pub use told_text::{lines_at, told_words};
pub use track::Base;
