//! Types and signatures as data: a flat array of nodes, in preorder.
#![tactic(auto)]

mod build;
mod flat;
mod open;
mod scalars;
mod scan;
mod signature;
mod single;

use ffi3_type_spec::limits::DEEPEST_NESTING;
pub use scan::NodeFault;
pub use signature::{Refused, read_signature, read_signature_for, read_unchecked};
pub use single::{RefusedType, read_type};

/// A node: C's `struct ffi3_node`.
#[repr(C)]
#[derive(Clone, Copy, Debug)]
pub struct Node {
    /// A scalar's kind, from `FFI3_UINT8`, 0, to `FFI3_POINTER`, 12, or one of those below.
    pub kind: u32,
    /// Of a struct how many elements follow; of an array how many it has of the one type that follows; of another 0.
    pub count: u32,
}

/// `FFI3_VOID`: no value, as a result alone.
pub const VOID: u32 = 13;
/// `FFI3_COMPLEX_FLOAT`: `float _Complex`, as the struct of two that the standards say.
pub const COMPLEX_FLOAT: u32 = 14;
/// `FFI3_COMPLEX_DOUBLE`: `double _Complex`, so too.
pub const COMPLEX_DOUBLE: u32 = 15;
/// `FFI3_LONG_DOUBLE`: `long double`, which is left out.
pub const LONG_DOUBLE: u32 = 16;
/// `FFI3_COMPLEX_LONG_DOUBLE`: `long double _Complex`, which is left out.
pub const COMPLEX_LONG_DOUBLE: u32 = 17;
/// `FFI3_VECTOR`: a vector of a machine's instructions, which is left out.
pub const VECTOR: u32 = 18;
/// `FFI3_STRUCT`: a struct.
pub const STRUCT: u32 = 19;
/// `FFI3_ARRAY`: an array, as an element.
pub const ARRAY: u32 = 20;

/// Structs and arrays stand at most so many deep in one another.
pub const DEEPEST: u32 = 16;

/// as any type's
const _: () = prove!(DEEPEST as u64 == DEEPEST_NESTING);
