//! A run that is under way: its open calls, live closures and moves left, and one function for each kind of move, which
//! prints, makes or frees a closure, calls, returns or stops. Calls may nest to any depth, by any calling standard; which
//! move is next is decided elsewhere.
#![tactic(auto)]

mod activation;
mod callee;
mod calls;
mod cifs;
mod configuration;
mod line;
mod making;
mod printing;
mod serving;
mod stopping;
mod tracing;

pub use activation::{Activation, OpenCall, Waiting, Who};
pub use cifs::Cifs;
pub use configuration::{Configuration, Turn};
pub use ffi3_closures::{Closure, Table};
pub use ffi3_semantics_spec::Stop;
