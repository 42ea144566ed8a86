//! The signature of nodes that are scalars and structs of scalars, which most are: it is read in one pass, and has no
//! fault.
ghost use Rattle.std.specs.Prelude.{◌≡◌, ◌<◌, ◌≤◌, ◌∷◌, [], IfOk, IfSome, take, length};
ghost use Rattle.ffi3_type_spec.specs.declared.Role.{Role};
ghost use Rattle.ffi3_type_spec.specs.Tree.{Tree};
ghost use Rattle.ffi3_type_spec.specs.Signature.{SignatureHasNoFault};
ghost use Rattle.ffi3_types.specs.TreeOf.{tree_of};
ghost use Rattle.ffi3_nodes.specs.declared.TheConstants.{STRUCT};
ghost use Rattle.ffi3_nodes.specs.Nodes.{IsSignatureOf, node};
ghost use Rattle.ffi3_nodes.specs.Read.{AreReadSoFar, IsReadAs};

use crate::scalars::{argument, returned};
use crate::{Node, STRUCT, VOID};
use ffi3_type_spec::limits::MOST_ARGUMENTS;
use ffi3_types::{FfiType, Fields, NoMemory, Sig};
use std::alloc::Global;

/// A struct of so many scalars is not too large, whichever they are.
const MOST_MEMBERS: usize = 64;

/// Where so many nodes end from there on, if each is of a scalar's kind.
fn end_of_scalars(nodes: &[Node], at: usize, count: u32) -> Option<usize>
    ensures { IfSome result (λ end. at ≤ end) }
{
    let end = at.saturating_add(count as usize);
    if end > nodes.len() {
        return None;
    }
    for i in at..end {
        if nodes[i].kind >= VOID {
            return None;
        }
    }
    Some(end)
}

/// How many types there are, where none is but a scalar, void or a struct of scalars, as far as kinds and counts tell.
fn count_types(nodes: &[Node]) -> Option<usize> {
    let mut count = 0usize;
    let mut at = 0usize;
    while at < nodes.len() {
        let node = nodes[at];
        at += 1;
        count += 1;
        if node.kind > VOID {
            if node.kind != STRUCT {
                return None;
            }
            at = end_of_scalars(nodes, at, node.count)?;
        }
    }
    Some(count)
}

/// The struct of so many scalars, if they stand first among these nodes.
fn struct_of_scalars(alloc: Global, nodes: &[Node], count: u32) -> Result<Option<FfiType>, NoMemory>
    ensures read { (role : Role) → IfOk result (λ o. IfSome o (λ t. IsReadAs role (tree_of t) (node STRUCT count ∷ take count nodes.now))) }
    ensures within { IfOk result (λ o. IfSome o (λ t. count ≤ length nodes.now)) }
{
    let members = count as usize;
    if members == 0 || members > MOST_MEMBERS || members > nodes.len() {
        return Ok(None);
    }
    let mut types = Fields::with_capacity(alloc, members)?;
    for i in 0..members {
        let Some(ty) = argument(nodes[i]) else {
            return Ok(None);
        };
        types.push(ty)?;
    }
    Ok(Some(FfiType::Struct(types)))
}

/// The result's type, and where the arguments begin.
#[derive(Drop)]
struct Begun {
    ty: FfiType,
    end: usize,
}

/// That of the result which these nodes begin with, if it is void, a scalar or a struct of scalars.
fn first(alloc: Global, nodes: &[Node]) -> Result<Option<Begun>, NoMemory>
    ensures { IfOk result (λ o. IfSome o (λ f. AreReadSoFar (tree_of f.ty) [] nodes.now f.end)) }
{
    if nodes.is_empty() {
        return Ok(None);
    }
    let head = nodes[0];
    if head.kind == STRUCT {
        let Some(ty) = struct_of_scalars(alloc, &nodes[1..], head.count)? else {
            return Ok(None);
        };
        return Ok(Some(Begun {
            ty,
            end: 1 + head.count as usize,
        }));
    }
    let Some(ty) = returned(head) else {
        return Ok(None);
    };
    Ok(Some(Begun { ty, end: 1 }))
}

/// Takes the struct of scalars that begins there, if one does and there may be one more, to the arguments, and says
/// where it ends.
fn push_struct(
    alloc: Global,
    nodes: &[Node],
    at: usize,
    args: &mut Fields,
) -> Result<Option<usize>, NoMemory>
    requires { at < length nodes.now }
    ensures read { (ret : Tree) → AreReadSoFar ret args.old nodes.now at → IfOk result (λ o. IfSome o (λ end. AreReadSoFar ret args.new nodes.now end)) }
    ensures on { IfOk result (λ o. IfSome o (λ end. at < end)) }
{
    let head = nodes[at];
    if head.kind != STRUCT || args.len() as u64 >= MOST_ARGUMENTS {
        return Ok(None);
    }
    let Some(ty) = struct_of_scalars(alloc, &nodes[at + 1..], head.count)? else {
        return Ok(None);
    };
    args.push(ty)?;
    Ok(Some(at + 1 + head.count as usize))
}

/// Takes the scalars that stand there, and those behind them, to the arguments, as far as there may be so many, and
/// says where they end.
fn push_scalars(nodes: &[Node], at: usize, args: &mut Fields) -> Result<usize, NoMemory>
    ensures read { (ret : Tree) → AreReadSoFar ret args.old nodes.now at → IfOk result (λ end. AreReadSoFar ret args.new nodes.now end) }
    ensures on { IfOk result (λ end. at ≤ end) }
{
    let mut end = at;
    while end < nodes.len() && (args.len() as u64) < MOST_ARGUMENTS {
        let Some(ty) = argument(nodes[end]) else {
            return Ok(end);
        };
        args.push(ty)?;
        end += 1;
    }
    Ok(end)
}

/// The signature of nodes that are scalars and structs of scalars, but that the result may be void, where no argument is
/// variadic; of others None.
pub fn flat_signature(
    alloc: Global,
    nodes: &[Node],
    fixed: Option<u32>,
) -> Result<Option<Sig>, NoMemory>
    ensures written { IfOk result (λ o. IfSome o (λ s. IsSignatureOf nodes.now fixed s)) }
    ensures faultless { IfOk result (λ o. IfSome o (λ s. SignatureHasNoFault s)) }
{
    if fixed.is_some() {
        return Ok(None);
    }
    let Some(count) = count_types(nodes) else {
        return Ok(None);
    };
    if count as u64 > MOST_ARGUMENTS + 1 {
        return Ok(None);
    }
    let Some(begun) = first(alloc, nodes)? else {
        return Ok(None);
    };
    let mut args = Fields::with_capacity(alloc, count.saturating_sub(1))?;
    let mut at = push_scalars(nodes, begun.end, &mut args)?;
    while at < nodes.len() {
        let Some(end) = push_struct(alloc, nodes, at, &mut args)? else {
            return Ok(None);
        };
        at = push_scalars(nodes, end, &mut args)?;
    }
    Ok(Some(Sig::new(begun.ty, args, None)))
}
