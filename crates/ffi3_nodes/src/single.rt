//! The one type that nodes are.
ghost use Rattle.std.specs.Prelude.{◌≡◌, ◌<◌, ◌^◌, IfOk, IfErr, length, None};
ghost use Rattle.ffi3_type_spec.specs.Tree.{Tree};
ghost use Rattle.ffi3_type_spec.specs.Fault.{IsResultType};
ghost use Rattle.ffi3_types.specs.TreeOf.{tree_of};
ghost use Rattle.ffi3_nodes.specs.Faults.{first_node_fault};
ghost use Rattle.ffi3_nodes.specs.Nodes.{IsWritten};
ghost use Rattle.ffi3_nodes.specs.Read.{IsOfNoResult, IsRefusedType};

use crate::Node;
use crate::build::build;
use crate::scan::{NodeFault, scan};
use ffi3_types::{FfiType, TypeFault, check_type};
use std::alloc::Global;

/// Why nodes are no type that has a layout.
#[derive(Debug, Drop)]
pub enum RefusedType {
    /// There are 2^32 nodes or more.
    TooLong,
    /// They are not the nodes of a type, nor of several.
    Nodes(NodeFault),
    /// They are those of so many types.
    NotOne(usize),
    /// The type has this first fault as a result's.
    Fault(TypeFault),
    /// Memory was refused.
    NoMemory,
}

/// The type of nodes that are one, or else how many they are.
fn single(alloc: Global, nodes: &[Node]) -> Result<FfiType, RefusedType>
    requires faultless { first_node_fault nodes.now ≡ None }
    requires few { length nodes.now < 2 ^ 32 }
    ensures ok { IfOk result (λ t. IsWritten (tree_of t) nodes.now) }
    ensures err { IfErr result (λ r. IsRefusedType nodes.now r) }
    ensures none { IfErr result (λ r. IsOfNoResult nodes.now r) }
{
    let Ok(mut types) = build(alloc, nodes) else {
        return Err(RefusedType::NoMemory);
    };
    let count = types.len();
    if count != 1 {
        return Err(RefusedType::NotOne(count));
    }
    let Some(ty) = types.take_first() else {
        return Err(RefusedType::NoMemory);
    };
    Ok(ty)
}

/// Reads one type that has a layout and can be a result: void, a scalar or a struct.
pub fn read_type(alloc: Global, nodes: &[Node]) -> Result<FfiType, RefusedType>
    ensures ok { IfOk result (λ t. IsWritten (tree_of t) nodes.now) }
    ensures faultless { IfOk result (λ t. IsResultType (tree_of t)) }
    ensures only { IfOk result (λ t. (other : Tree) → IsWritten other nodes.now → other ≡ tree_of t) }
    ensures err { IfErr result (λ r. IsRefusedType nodes.now r) }
    ensures none { IfErr result (λ r. IsOfNoResult nodes.now r) }
{
    if nodes.len() > 0xFFFF_FFFF {
        return Err(RefusedType::TooLong);
    }
    if let Err(fault) = scan(nodes) {
        return Err(RefusedType::Nodes(fault));
    }
    let ty = match single(alloc, nodes) {
        Ok(ty) => ty,
        Err(refused) => return Err(refused),
    };
    match check_type(&ty, true) {
        Ok(()) => Ok(ty),
        Err(fault) => Err(RefusedType::Fault(fault)),
    }
}
