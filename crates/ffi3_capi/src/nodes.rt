//! What nodes declare, and which type they are.
ghost use Rattle.std.specs.Prelude.{◌≡◌, IfOk, IfErr, Some};
ghost use Rattle.ffi3_type_spec.specs.Signature.{SignatureHasNoFault, SignatureIsPlaced};
ghost use Rattle.ffi3_type_spec.specs.Fault.{IsResultType};
ghost use Rattle.ffi3_types.specs.TreeOf.{tree_of};
ghost use Rattle.ffi3_nodes.specs.Read.{node_fault_of};
ghost use Rattle.ffi3_capi.specs.declared.fault.TextFault.{TextFault};
ghost use Rattle.ffi3_capi.specs.ByNodes.{AreNodesIn, AreNodesOf, AreNodesOfType, IsFaultOfNodes, IsFaultOfNodesIn, IsFaultOfType, fixed_of, node_fault};
ghost use Rattle.ffi3_capi.specs.Told.{nodes_told, type_told};

use crate::codes::{NOT_VARIADIC, RESULT_PART};
use crate::fault::{FaultKind, TextFault, fault_at, fault_of_value, signature_fault, type_fault};
use ffi3_format::Format;
use ffi3_nodes::{
    Node, NodeFault, Refused, RefusedType, read_signature, read_signature_for, read_type,
};
use ffi3_types::{FfiType, Sig};
use std::alloc::Global;

/// Of a variadic function how many arguments are fixed.
fn fixed_of(fixed: u32) -> Option<u32>
    ensures { result ≡ fixed_of fixed }
{
    if fixed == NOT_VARIADIC {
        None
    } else {
        Some(fixed)
    }
}

/// What a fault of so many nodes tells.
fn node_fault(count: usize, fault: NodeFault) -> TextFault
    ensures { result ≡ node_fault count (node_fault_of fault) }
{
    match fault {
        NodeFault::Ended => fault_at(FaultKind::NodesEnded, count as u64),
        NodeFault::UnknownKind(at) => fault_at(FaultKind::UnknownKind, at as u64),
        NodeFault::BadCount(at) => fault_at(FaultKind::BadCount, at as u64),
        NodeFault::TooDeep(at) => fault_at(FaultKind::NodesTooDeep, at as u64),
    }
}

/// What a refusal of so many nodes tells; of a want of memory nothing.
fn nodes_told(count: usize, refused: &Refused) -> Option<TextFault>
    ensures { result ≡ nodes_told count refused.now }
{
    match refused {
        Refused::TooLong => Some(fault_of_value(0, FaultKind::TooManyNodes, count)),
        Refused::Nodes(fault) => Some(node_fault(count, *fault)),
        Refused::Sig(fault) => Some(signature_fault(fault)),
        Refused::NoMemory => None,
    }
}

/// The same where one type is wanted.
fn type_told(count: usize, refused: &RefusedType) -> Option<TextFault>
    ensures { result ≡ type_told count refused.now }
{
    match refused {
        RefusedType::TooLong => Some(fault_of_value(0, FaultKind::TooManyNodes, count)),
        RefusedType::Nodes(fault) => Some(node_fault(count, *fault)),
        RefusedType::NotOne(types) => Some(fault_of_value(0, FaultKind::NotOneType, *types)),
        RefusedType::Fault(fault) => Some(type_fault(RESULT_PART, fault)),
        RefusedType::NoMemory => None,
    }
}

/// The signature of the function that the nodes declare; otherwise the fault, or None for a want of memory.
pub(crate) fn declared_by_nodes(
    alloc: Global,
    nodes: &[Node],
    fixed: u32,
) -> Result<Sig, Option<TextFault>>
    ensures ok { IfOk result (λ s. AreNodesOf nodes.now fixed s) }
    ensures faultless { IfOk result (λ s. SignatureHasNoFault s) }
    ensures err { IfErr result (λ e. (f : TextFault) → e ≡ Some f → IsFaultOfNodes nodes.now fixed f) }
{
    match read_signature(alloc, nodes, fixed_of(fixed)) {
        Ok(sig) => Ok(sig),
        Err(refused) => Err(nodes_told(nodes.len(), &refused)),
    }
}

/// The same, in which long doubles have this format.
pub(crate) fn declared_by_nodes_in(
    alloc: Global,
    format: Format,
    nodes: &[Node],
    fixed: u32,
) -> Result<Sig, Option<TextFault>>
    ensures ok { IfOk result (λ s. AreNodesIn format nodes.now fixed s) }
    ensures faultless { IfOk result (λ s. SignatureIsPlaced s) }
    ensures err { IfErr result (λ e. (f : TextFault) → e ≡ Some f → IsFaultOfNodesIn format nodes.now fixed f) }
{
    match read_signature_for(alloc, format, nodes, fixed_of(fixed)) {
        Ok(sig) => Ok(sig),
        Err(refused) => Err(nodes_told(nodes.len(), &refused)),
    }
}

/// The type that the nodes are; otherwise the fault, or None for a want of memory.
pub(crate) fn type_of_nodes(alloc: Global, nodes: &[Node]) -> Result<FfiType, Option<TextFault>>
    ensures ok { IfOk result (λ t. AreNodesOfType nodes.now (tree_of t)) }
    ensures faultless { IfOk result (λ t. IsResultType (tree_of t)) }
    ensures err { IfErr result (λ e. (f : TextFault) → e ≡ Some f → IsFaultOfType nodes.now f) }
{
    match read_type(alloc, nodes) {
        Ok(ty) => Ok(ty),
        Err(refused) => Err(type_told(nodes.len(), &refused)),
    }
}
