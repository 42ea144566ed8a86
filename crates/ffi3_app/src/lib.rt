//! The whole program over any input and output: reads the command line and does what it asks.
#![tactic(auto)]

mod cdecl;
mod cplace;
mod declaration;
mod layout;
mod marking;
mod names;
mod place;
mod prototype;
mod script;
mod top;
mod unfinished;
mod work;
mod write;

pub use ffi3_machine::Machine;
pub use top::ffi3;
