//! The signature that nodes are.
ghost use Rattle.std.specs.Prelude.{◌≡◌, ◌<◌, ◌^◌, IfOk, IfErr, length, None};
ghost use Rattle.ffi3_type_spec.specs.Signature.{Signature, SignatureHasNoFault, SignatureIsPlaced, HasNoLongDouble};
ghost use Rattle.ffi3_format_spec.specs.declared.Format.{Format};
ghost use Rattle.ffi3_nodes.specs.Faults.{first_node_fault};
ghost use Rattle.ffi3_nodes.specs.Nodes.{IsSignatureOf};
ghost use Rattle.ffi3_nodes.specs.Read.{AreNodesOfTypes, IsOfNone, IsRefused, IsUncallable};
ghost use Rattle.ffi3_nodes.specs.Read.{IsSignatureFor, IsUnread, IsRefusedFor, IsUnplaceable, IsCallableWithout, IsRefusedWithout, IsFaultOf};

use crate::Node;
use crate::build::build;
use crate::flat::flat_signature;
use crate::scan::{NodeFault, scan};
use ffi3_format::{Format, resolve};
use ffi3_types::{NoMemory, Sig, SigFault, check_placed, check_sig};
use std::alloc::Global;

/// Why nodes are no signature that can be called.
#[derive(Debug, Drop)]
pub enum Refused {
    /// There are 2^32 nodes or more.
    TooLong,
    /// They are not the nodes of a signature.
    Nodes(NodeFault),
    /// The signature has this first fault.
    Sig(SigFault),
    /// Memory was refused.
    NoMemory,
}

/// The signature of nodes that are one.
fn signature(alloc: Global, nodes: &[Node], fixed: Option<u32>) -> Result<Sig, NoMemory>
    requires faultless { first_node_fault nodes.now ≡ None }
    requires few { length nodes.now < 2 ^ 32 }
    ensures { IfOk result (λ s. IsSignatureOf nodes.now fixed s) }
{
    let mut types = build(alloc, nodes)?;
    let Some(ret) = types.take_first() else {
        return Err(NoMemory);
    };
    let args = types.take_all(alloc)?;
    Ok(Sig::new(ret, args, fixed))
}

/// The signature of nodes that are one, whether it has a fault or not.
fn told(alloc: Global, nodes: &[Node], fixed: Option<u32>) -> Result<Sig, Refused>
    ensures ok { IfOk result (λ s. IsSignatureOf nodes.now fixed s) }
    ensures types { IfOk result (λ s. AreNodesOfTypes nodes.now) }
    ensures err { IfErr result (λ r. IsUnread nodes.now r) }
{
    if nodes.len() > 0xFFFF_FFFF {
        return Err(Refused::TooLong);
    }
    if let Err(fault) = scan(nodes) {
        return Err(Refused::Nodes(fault));
    }
    match signature(alloc, nodes, fixed) {
        Ok(sig) => Ok(sig),
        Err(_) => Err(Refused::NoMemory),
    }
}

/// Reads a signature whose types may have faults: the nodes of the result, and then those of the arguments; of a variadic
/// function how many arguments are fixed. No long double in it has a format.
pub fn read_unchecked(alloc: Global, nodes: &[Node], fixed: Option<u32>) -> Result<Sig, Refused>
    ensures ok { IfOk result (λ s. IsSignatureOf nodes.now fixed s) }
    ensures plain { IfOk result (λ s. HasNoLongDouble s) }
    ensures only { IfOk result (λ s. (other : Signature) → IsSignatureOf nodes.now fixed other → other ≡ s) }
    ensures types { IfOk result (λ s. AreNodesOfTypes nodes.now) }
    ensures err { IfErr result (λ r. IsUnread nodes.now r) }
    ensures none { IfErr result (λ r. IsOfNone nodes.now r) }
    ensures unplaceable { (format : Format) → IfErr result (λ r. IsUnplaceable format nodes.now fixed r) }
{
    match flat_signature(alloc, nodes, fixed) {
        Ok(Some(sig)) => return Ok(sig),
        Ok(None) => {}
        Err(_) => return Err(Refused::NoMemory),
    }
    told(alloc, nodes, fixed)
}

/// Reads a signature that can be called: the nodes of the result, and then those of the arguments; of a variadic
/// function how many arguments are fixed.
pub fn read_signature(alloc: Global, nodes: &[Node], fixed: Option<u32>) -> Result<Sig, Refused>
    ensures ok { IfOk result (λ s. IsSignatureOf nodes.now fixed s) }
    ensures faultless { IfOk result (λ s. SignatureHasNoFault s) }
    ensures only { IfOk result (λ s. (other : Signature) → IsSignatureOf nodes.now fixed other → other ≡ s) }
    ensures err { IfErr result (λ r. IsRefused nodes.now fixed r) }
    ensures none { IfErr result (λ r. IsOfNone nodes.now r) }
    ensures uncallable { IfErr result (λ r. IsUncallable nodes.now fixed r) }
{
    match flat_signature(alloc, nodes, fixed) {
        Ok(Some(sig)) => return Ok(sig),
        Ok(None) => {}
        Err(_) => return Err(Refused::NoMemory),
    }
    let sig = match told(alloc, nodes, fixed) {
        Ok(sig) => sig,
        Err(refused) => return Err(refused),
    };
    match check_sig(&sig) {
        Ok(()) => Ok(sig),
        Err(fault) => Err(Refused::Sig(fault)),
    }
}

/// A signature whose long doubles have a format, if it can be placed.
fn placed(sig: Sig) -> Result<Sig, Refused>
    ensures ok { IfOk result (λ s. (s ≡ sig) × SignatureIsPlaced s) }
    ensures err { IfErr result (λ r. IsFaultOf sig r) }
{
    match check_placed(&sig) {
        Ok(()) => Ok(sig),
        Err(fault) => Err(Refused::Sig(fault)),
    }
}

/// Reads one whose types are others than scalars and structs of them, or that may have a fault.
fn read_any_for(
    alloc: Global,
    format: Format,
    nodes: &[Node],
    fixed: Option<u32>,
) -> Result<Sig, Refused>
    ensures ok { IfOk result (λ s. IsSignatureFor format nodes.now fixed s) }
    ensures placed { IfOk result (λ s. SignatureIsPlaced s) }
    ensures only { IfOk result (λ s. (other : Signature) → IsSignatureFor format nodes.now fixed other → other ≡ s) }
    ensures callable { IfOk result (λ s. IsCallableWithout nodes.now fixed s) }
    ensures err { IfErr result (λ r. IsRefusedFor format nodes.now fixed r) }
    ensures none { IfErr result (λ r. IsOfNone nodes.now r) }
    ensures unplaceable { IfErr result (λ r. IsUnplaceable format nodes.now fixed r) }
    ensures without { IfErr result (λ r. IsRefusedWithout nodes.now fixed r) }
{
    let sig = match told(alloc, nodes, fixed) {
        Ok(sig) => sig,
        Err(refused) => return Err(refused),
    };
    match resolve(alloc, format, sig) {
        Ok(sig) => placed(sig),
        Err(_) => Err(Refused::NoMemory),
    }
}

/// Reads a signature that can be placed, where long doubles have this format: the nodes of the result, and then those of
/// the arguments; of a variadic function how many arguments are fixed. One of scalars and of structs of them is not looked
/// at again.
pub fn read_signature_for(
    alloc: Global,
    format: Format,
    nodes: &[Node],
    fixed: Option<u32>,
) -> Result<Sig, Refused>
    ensures ok { IfOk result (λ s. IsSignatureFor format nodes.now fixed s) }
    ensures placed { IfOk result (λ s. SignatureIsPlaced s) }
    ensures only { IfOk result (λ s. (other : Signature) → IsSignatureFor format nodes.now fixed other → other ≡ s) }
    ensures callable { IfOk result (λ s. IsCallableWithout nodes.now fixed s) }
    ensures err { IfErr result (λ r. IsRefusedFor format nodes.now fixed r) }
    ensures none { IfErr result (λ r. IsOfNone nodes.now r) }
    ensures unplaceable { IfErr result (λ r. IsUnplaceable format nodes.now fixed r) }
    ensures without { IfErr result (λ r. IsRefusedWithout nodes.now fixed r) }
{
    match flat_signature(alloc, nodes, fixed) {
        Ok(Some(sig)) => return Ok(sig),
        Ok(None) => {}
        Err(_) => return Err(Refused::NoMemory),
    }
    read_any_for(alloc, format, nodes, fixed)
}
