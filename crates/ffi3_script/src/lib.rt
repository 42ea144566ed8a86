//! The script language: from bytes to a script.
#![tactic(auto)]

mod acts;
mod arrays;
mod bodies;
mod fields;
mod forms;
mod functions;
mod made;
mod names;
mod new_name;
mod own_type;
mod plain;
mod read;
mod references;
mod root;
mod scope;
mod script;
mod values;

/// Why a script was refused, and where in it.
pub use ffi3_json::{Reason, ScriptFault, Where};
pub use ffi3_script_body::{Act, Expr, MoveKind, ScriptBody, ScriptMove, TypedExpr};
/// A want of memory: the one answer that no clause ties to a cause.
pub use ffi3_types::NoMemory;
pub use made::made_script;
pub use names::Names;
pub use read::read_script;
pub use script::{Script, ScriptFunction};
