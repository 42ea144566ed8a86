//! Reads the command line, and writes its help.
#![tactic(auto)]

mod command;
mod help;
mod words;

pub use ffi3_cli_spec::words::{InputCommand, Request};
pub use words::{WordsFault, read_words, target_word};
