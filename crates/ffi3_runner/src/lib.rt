//! The run of a script beside natives, by any calling standard: main's moves, and those of the
//! functions that are called, to any nesting; and calls that are served from outside. Each may be
//! traced.
#![tactic(auto)]

mod asked;
mod beginning;
mod calling;
mod entered;
mod prepare;
mod run;
mod runner;
mod turn;

pub use ffi3_run_state::{Cifs, Stop, Table, Turn};
pub use run::RunEnd;
pub use runner::Runner;
