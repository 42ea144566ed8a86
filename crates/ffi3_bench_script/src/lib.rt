//! The parts of the made script, which the bench runs.
#![tactic(auto)]

mod bodies;
mod draws;
mod filling;
mod kinds;
mod shapes;
mod summing;

pub use draws::Draws;
/// A want of memory: the one answer that no clause ties to a cause.
pub use ffi3_types::NoMemory;
pub use shapes::Shapes;
