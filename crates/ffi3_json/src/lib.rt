//! JSON objects, types and signatures of a script, with the place and reason of the first fault.
#![tactic(auto)]

mod borrowed;
mod document;
mod fault;
mod json_path;
mod json_ref;
mod keys;
mod members;
mod node;
mod number;
mod object;
mod place;
mod reason;
mod signature;
mod types;
mod version;

pub use document::{Document, parse};
pub use fault::{ScriptFault, bad};
pub use ffi3_types::Bytes;
/// A want of memory: the one answer that no clause ties to a cause.
pub use ffi3_types::NoMemory;
/// What reading a `Document` needs memory for, beside its arrays and objects.
pub use json::Scratch;
pub use keys::{Key, Keys, optional, required};
pub use node::{Node, Nodes};
pub use object::{check_object, check_object_at};
pub use place::{Step, Where};
pub use reason::{Reason, reason_text};
/// A JSON value.
pub use json_path::JsonPath;
pub use serde_json::Value as Json;
pub use signature::{bad_type, read_signature, read_signature_at, reason_of_signature};
pub use types::{read_type, read_type_at};
pub use version::read_version;

/// The greatest length of a script in bytes.
pub const MAX_LENGTH: usize = ffi3_type_spec::limits::LONGEST_SCRIPT as usize;
