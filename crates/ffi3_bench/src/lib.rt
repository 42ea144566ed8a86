//! The bench: the made script by three standards, and a line of what each run took.
#![tactic(auto)]

mod line;
mod lines;
mod measure;

pub use lines::bench;
