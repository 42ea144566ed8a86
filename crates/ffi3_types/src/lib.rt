//! Types, signatures, their layout, their faults and their texts.
#![tactic(auto)]

ghost use Rattle.std.specs.Prelude.{◌≡◌, ◌+◌, ◌<◌, ◌^◌, ◌++◌, ◌∷◌, [], length, OnErr, OnOk};
ghost use Rattle.std.specs.Prelude.{◌≤◌, IfOk, IsOk};
ghost use Rattle.ffi3_type_spec.specs.Tree.{tree_at, trees_of, nodes, all_nodes};
ghost use Rattle.ffi3_types.specs.TreeOf.{tree_of};

mod bytes;
mod check;
mod checked;
mod copy;
mod fault;
mod kinds;
mod laws;
mod layout;
mod leaves;
mod long_doubles;
mod members;
mod names;
mod path;
mod same;
mod sig;
mod sigs;
mod text;

pub use bytes::Bytes;
pub use check::check_type;
pub use checked::{CheckedSig, CheckedType, PlacedSig};
pub use fault::TypeFault;
pub use ffi3_type_spec::Target;
pub use laws::layout_laws;
pub use layout::Extent;
pub use leaves::{Leaf, Leaves};
pub use members::Members;
pub use path::Path;
pub use same::{same_fields, same_type};
pub use sig::{At, Sig, SigFault, check_placed, check_sig, same_sig};
pub use sigs::Sigs;
/// A want of memory: the one answer that no clause ties to a cause.
pub use std::alloc::AllocError as NoMemory;
use std::alloc::Global;
use std::marker::Model;
pub use text::{sig_text, type_text};

/// The type of an argument or a result (libffi's `ffi_type`).
#[cycle(types)]
#[derive(Debug, Drop)]
pub enum FfiType {
    /// No value: only as a result.
    Void,
    /// An unsigned integer of 8 bits. `S8` and so on are signed.
    U8,
    S8,
    U16,
    S16,
    U32,
    S32,
    U64,
    S64,
    U128,
    S128,
    /// A floating-point number of 32 bits.
    Float,
    /// A floating-point number of 64 bits.
    Double,
    /// An address of 64 bits.
    Pointer,
    /// A struct of these elements.
    Struct(Fields),
    /// An array: the list of its one element type, and how many elements it has.
    Array(Fields, u32),
    /// Left out, as are the next two: a type with one of them has a fault.
    LongDouble,
    Complex,
    Vector,
    /// A long double of x87's extended format, in 16 bytes. It can be placed; no call on the modelled machine has one.
    X87,
    /// A long double of 128 bits (IEEE 754's binary128): the same.
    Binary128,
}

/// The elements of a struct, an array's element type, or the arguments of a signature.
#[cycle(types)]
#[derive(Debug, Drop)]
pub struct Fields {
    types: Vec<FfiType>,
}

impl Model for Fields {
    ghost use Rattle.std.specs.Prelude.{List, map, length, ◌<◌, ◌^◌};
    ghost use Rattle.ffi3_type_spec.specs.Tree.{Tree, tree_list_code, trees_of, all_nodes};

    ghost Value = { List Tree };

    ghost coded = { tree_list_code };

    ghost use Rattle.std.specs.Prelude.{◌≤◌, IfOk};
    ghost use Rattle.ffi3_type_spec.specs.Tree.{tree_at, trees_of, nodes, all_nodes};
    ghost use Rattle.ffi3_types.specs.TreeOf.{tree_of};

    ghost view = { λ a. map tree_of a.types.items };

    ghost invariant = { λ a. length a.types.items < 2 ^ 32 };

    ghost size = { λ ts. all_nodes (trees_of ts) };

    ghost use Rattle.ffi3_types.specs.Measure.{most_le-nodes};

    ghost size_decreases = { λ a h. most_le-nodes a.types.items };
}

impl Fields {
    /// No types.
    pub fn new(alloc: Global) -> Fields
        ensures { result ≡ [] }
    {
        Fields {
            types: Vec::new(alloc),
        }
    }

    /// No types yet, and room for so many.
    pub fn with_capacity(alloc: Global, capacity: usize) -> Result<Fields, NoMemory>
        ensures value { IfOk result (λ fields. fields ≡ []) }
        ensures succeeds { capacity ≡ 0 → IsOk result }
    {
        Ok(Fields {
            types: Vec::with_capacity(alloc, capacity)?,
        })
    }

    /// How many types there are.
    pub fn len(&self) -> usize
        ensures count { result ≡ length self.now }
        ensures bound { length self.now < 2 ^ 32 }
    {
        self.types.len()
    }

    /// One more type. Refused, it drops the type and leaves the list as it was.
    pub fn push(&mut self, item: FfiType) -> Result<(), NoMemory>
        requires { length self.old + 1 < 2 ^ 32 }
        ensures ok { OnOk result (self.new ≡ self.old ++ tree_of item ∷ []) }
        ensures err { OnErr result (self.new ≡ self.old) }
    {
        self.types.push(item)?;
        Ok(())
    }

    /// Type `i`.
    pub fn get(&self, i: usize) -> &FfiType
        requires { i < length self.now }
        ensures element { tree_of result.now ≡ tree_at self.now i }
        // by which a recursion down a type ends
        ensures fewer_nodes { nodes (tree_of result.now) ≤ all_nodes (trees_of self.now) }
    {
        &self.types[i]
    }
}
