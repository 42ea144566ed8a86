//! The bodies of scripts: their values and moves, and what a body does next.
#![tactic(auto)]

mod body;
mod cursor;
mod doing;
mod eval;
mod expr;
mod known;
mod moves;

pub use body::{MoveKind, ScriptBody};
pub use cursor::Cursor;
pub use expr::{Expr, element_types};
/// A want of memory: the one answer that no clause ties to a cause.
pub use ffi3_types::NoMemory;
pub use moves::{Act, ScriptMove, TypedExpr};
