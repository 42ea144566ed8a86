//! The layout of the one type that nodes are.
ghost use Rattle.std.specs.Prelude.{◌≡◌, IfOk, IfErr, List, Option, None, Some, length};
ghost use Rattle.ffi3_nodes.specs.declared.Node.{Node};
ghost use Rattle.ffi3_type_spec.specs.Tree.{struct_of};
ghost use Rattle.ffi3_type_spec.specs.Fault.{IsLaidOut, IsResultType};
ghost use Rattle.ffi3_type_spec.specs.Signature.{SignatureIsPlaced};
ghost use Rattle.ffi3_types.specs.TreeOf.{tree_of};
ghost use Rattle.ffi3_capi.specs.ByNodes.{AreNodesOfType, AreNodesOfTypeIn};
ghost use Rattle.ffi3_format_spec.specs.declared.Format.{Format};
ghost use Rattle.ffi3_capi.specs.WholeType.{members_of, offsets_of, whole_type, no_whole_type, AreNodesOfTypeBy, IsTypeRefusal, TellsType, LaysOutNodes, LaysOutNodesFor, TellsOffsets, TellsOffsetsFor};
ghost use Rattle.ffi3_capi.specs.Laid.{laid_leaves};
ghost use Rattle.ffi3_capi.specs.Formats.{long_double_on};

use crate::codes::NOT_VARIADIC;
use crate::declaration::long_double_on;
use crate::fault::{FaultKind, TextFault, fault_of_value, fault_with};
use crate::fill::{fill, room_status};
use crate::layouts::{LaidLeaf, laid_leaves};
use crate::nodes::{declared_by_nodes_in, type_of_nodes};
use crate::placing::target_numbered;
use crate::status::Refusal;
use ffi3_nodes::Node;
use ffi3_place_spec::Listed;
use ffi3_type_spec::round_up;
use ffi3_types::{CheckedType, FfiType, Fields, NoMemory, PlacedSig, Sig};
use std::alloc::Global;

/// A type as a whole: C's `struct ffi3_type`.
#[repr(C)]
#[derive(Clone, Copy)]
pub struct WholeType {
    pub size: usize,
    pub align: usize,
    /// How many members a struct has.
    pub members: usize,
    /// How many scalars it has.
    pub leaves: usize,
    /// Nothing yet.
    pub reserved: [u64; 2],
    pub fault: TextFault,
}

/// No type, and why.
fn no_whole_type(fault: TextFault) -> WholeType
    ensures { result ≡ no_whole_type fault }
{
    WholeType {
        size: 0,
        align: 0,
        members: 0,
        leaves: 0,
        reserved: [0; 2],
        fault,
    }
}

fn member_count(ty: &FfiType) -> usize
    ensures { result ≡ length (members_of (tree_of ty.now)) }
{
    match ty {
        FfiType::Struct(fields) => fields.len(),
        FfiType::Void | FfiType::Array(_, _) => 0,
        FfiType::U8 | FfiType::S8 | FfiType::U16 | FfiType::S16 => 0,
        FfiType::U32 | FfiType::S32 | FfiType::U64 | FfiType::S64 => 0,
        FfiType::U128 | FfiType::S128 | FfiType::Float => 0,
        FfiType::Double | FfiType::Pointer => 0,
        FfiType::X87 | FfiType::Binary128 => 0,
        FfiType::LongDouble | FfiType::Complex | FfiType::Vector => 0,
    }
}

/// What is told of a type as a whole.
fn whole_type(ty: &CheckedType<'_>) -> WholeType
    ensures { result ≡ whole_type ty.now }
{
    WholeType {
        size: ty.size() as usize,
        align: ty.align() as usize,
        members: member_count(ty.as_type()),
        leaves: ty.leaf_count() as usize,
        reserved: [0; 2],
        fault: fault_with(FaultKind::NoFault),
    }
}

/// Where the members of a struct start.
fn struct_offsets(alloc: Global, members: &Fields) -> Result<Listed<usize>, NoMemory>
    requires { IsLaidOut (struct_of members.now) }
    ensures { IfOk result (λ offsets. offsets ≡ offsets_of (struct_of members.now)) }
{
    let mut offsets = Listed::new(alloc);
    let mut end = 0;
    for i in 0..members.len() {
        let member = members.get(i).extent();
        let start = round_up(end, member.align);
        offsets.push(start as usize)?;
        end = start + member.size;
    }
    Ok(offsets)
}

/// Where the members of a type start.
pub(crate) fn offsets(alloc: Global, ty: &FfiType) -> Result<Listed<usize>, NoMemory>
    requires { IsLaidOut (tree_of ty.now) }
    ensures { IfOk result (λ offsets. offsets ≡ offsets_of (tree_of ty.now)) }
{
    match ty {
        FfiType::Struct(members) => struct_offsets(alloc, members),
        FfiType::Void | FfiType::Array(_, _) => Ok(Listed::new(alloc)),
        FfiType::U8 | FfiType::S8 | FfiType::U16 | FfiType::S16 => Ok(Listed::new(alloc)),
        FfiType::U32 | FfiType::S32 | FfiType::U64 | FfiType::S64 => Ok(Listed::new(alloc)),
        FfiType::U128 | FfiType::S128 | FfiType::Float => Ok(Listed::new(alloc)),
        FfiType::Double | FfiType::Pointer => Ok(Listed::new(alloc)),
        FfiType::X87 | FfiType::Binary128 => Ok(Listed::new(alloc)),
        FfiType::LongDouble | FfiType::Complex | FfiType::Vector => Ok(Listed::new(alloc)),
    }
}

/// The type that the nodes are.
pub(crate) fn find_type(alloc: Global, nodes: &[Node]) -> Result<FfiType, Refusal>
    ensures ok { IfOk result (λ t. AreNodesOfType nodes.now (tree_of t)) }
    ensures faultless { IfOk result (λ t. IsResultType (tree_of t)) }
    ensures err { IfErr result (λ r. IsTypeRefusal None nodes.now r) }
{
    match type_of_nodes(alloc, nodes) {
        Ok(ty) => Ok(ty),
        Err(Some(fault)) => Err(Refusal::Fault(fault)),
        Err(None) => Err(Refusal::NoMemory),
    }
}

/// The function of no arguments whose result has the type that the nodes are on the target with this number.
pub(crate) fn find_type_on(alloc: Global, target: u32, nodes: &[Node]) -> Result<Sig, Refusal>
    ensures ok { IfOk result (λ s. AreNodesOfTypeIn (long_double_on target) nodes.now s.result_type) }
    ensures faultless { IfOk result (λ s. SignatureIsPlaced s) }
    ensures err { IfErr result (λ r. IsTypeRefusal (Some (long_double_on target)) nodes.now r) }
{
    match declared_by_nodes_in(alloc, long_double_on(target), nodes, NOT_VARIADIC) {
        Ok(sig) => {
            let count = sig.count();
            if count > 0 {
                let types = count as usize + 1;
                return Err(Refusal::Fault(fault_of_value(0, FaultKind::NotOneType, types)));
            }
            Ok(sig)
        }
        Err(Some(fault)) => Err(Refusal::Fault(fault)),
        Err(None) => Err(Refusal::NoMemory),
    }
}

/// What is told of a type and its leaves.
fn tell_leaves(
    alloc: Global,
    ty: &CheckedType<'_>,
    told: &mut WholeType,
    leaves: &mut [LaidLeaf],
) -> u32
    ensures { (o : Option Format) (ns : List Node) → AreNodesOfTypeBy o ns ty.now → TellsType o ns laid_leaves leaves.old result told.new leaves.new }
{
    match laid_leaves(alloc, ty) {
        Ok(laid) => {
            *told = whole_type(ty);
            room_status(fill(&laid, leaves))
        }
        Err(_) => {
            *told = no_whole_type(Refusal::NoMemory.fault());
            Refusal::NoMemory.status()
        }
    }
}

/// What is told of a type and where its members start.
fn tell_offsets(
    alloc: Global,
    ty: &CheckedType<'_>,
    told: &mut WholeType,
    array: &mut [usize],
) -> u32
    ensures { (o : Option Format) (ns : List Node) → AreNodesOfTypeBy o ns ty.now → TellsType o ns offsets_of array.old result told.new array.new }
{
    match offsets(alloc, ty.as_type()) {
        Ok(starts) => {
            *told = whole_type(ty);
            room_status(fill(&starts, array))
        }
        Err(_) => {
            *told = no_whole_type(Refusal::NoMemory.fault());
            Refusal::NoMemory.status()
        }
    }
}

/// The layout of the type that the nodes are, and its leaves, for a caller's struct and array. The number tells whether
/// the leaves had room, or why there are none.
pub fn layout_nodes(
    alloc: Global,
    nodes: &[Node],
    told: &mut WholeType,
    leaves: &mut [LaidLeaf],
) -> u32
    ensures { LaysOutNodes nodes.now leaves.old result told.new leaves.new }
{
    match find_type(alloc, nodes) {
        Ok(ty) => tell_leaves(alloc, &CheckedType::of(&ty), told, leaves),
        Err(refusal) => {
            *told = no_whole_type(refusal.fault());
            refusal.status()
        }
    }
}

/// The same of where the members of a struct start.
pub fn offsets_nodes(
    alloc: Global,
    nodes: &[Node],
    told: &mut WholeType,
    offsets: &mut [usize],
) -> u32
    ensures { TellsOffsets nodes.now offsets.old result told.new offsets.new }
{
    match find_type(alloc, nodes) {
        Ok(ty) => tell_offsets(alloc, &CheckedType::of(&ty), told, offsets),
        Err(refusal) => {
            *told = no_whole_type(refusal.fault());
            refusal.status()
        }
    }
}

/// The layout of the type that the nodes are on the target with this number, and its leaves, for a caller's struct and array.
pub fn layout_nodes_for(
    alloc: Global,
    target: u32,
    nodes: &[Node],
    told: &mut WholeType,
    leaves: &mut [LaidLeaf],
) -> u32
    ensures { LaysOutNodesFor target nodes.now leaves.old result told.new leaves.new }
{
    let Some(_) = target_numbered(target) else {
        *told = no_whole_type(Refusal::NoSuchTarget.fault());
        return Refusal::NoSuchTarget.status();
    };
    match find_type_on(alloc, target, nodes) {
        Ok(sig) => tell_leaves(alloc, &PlacedSig::of(&sig).ret(), told, leaves),
        Err(refusal) => {
            *told = no_whole_type(refusal.fault());
            refusal.status()
        }
    }
}

/// The same of where the members of a struct start, for a caller's struct and array.
pub fn offsets_for(
    alloc: Global,
    target: u32,
    nodes: &[Node],
    told: &mut WholeType,
    offsets: &mut [usize],
) -> u32
    ensures { TellsOffsetsFor target nodes.now offsets.old result told.new offsets.new }
{
    let Some(_) = target_numbered(target) else {
        *told = no_whole_type(Refusal::NoSuchTarget.fault());
        return Refusal::NoSuchTarget.status();
    };
    match find_type_on(alloc, target, nodes) {
        Ok(sig) => tell_offsets(alloc, &PlacedSig::of(&sig).ret(), told, offsets),
        Err(refusal) => {
            *told = no_whole_type(refusal.fault());
            refusal.status()
        }
    }
}
