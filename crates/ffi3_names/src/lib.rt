//! Finds what a prototype calls its parameters.
#![tactic(auto)]

mod names;
mod spot;

pub use names::{Name, name_at, names_in};
