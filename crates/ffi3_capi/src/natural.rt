//! Whether a type is laid out as its client has it.
ghost use Rattle.std.specs.Prelude.{◌≡◌, ℕ, List, IfOk, IfSome, Option, None, Some};
ghost use Rattle.ffi3_nodes.specs.declared.Node.{Node};
ghost use Rattle.ffi3_format_spec.specs.declared.Format.{Format};
ghost use Rattle.ffi3_capi.specs.WholeType.{AreNodesOfTypeBy};
ghost use Rattle.ffi3_capi.specs.NaturalLayout.{DifferFirst, IsNatural, IsAnother, ChecksLayout, ChecksLayoutFor, ChecksType};

use crate::codes::{DONE, NOT_DECLARED};
use crate::fault::{FaultKind, TextFault, fault_of_value, fault_with};
use crate::placing::target_numbered;
use crate::status::Refusal;
use crate::whole::{find_type, find_type_on, offsets as natural_offsets};
use ffi3_nodes::Node;
use ffi3_place_spec::Listed;
use ffi3_types::{CheckedType, NoMemory, PlacedSig};
use std::alloc::Global;

/// The number of the first item at which two lists differ.
#[tactic(auto, using(crate::proofs::Differing::first_goes_on, crate::proofs::Differing::first_ended, crate::proofs::Differing::other_items, crate::proofs::Differing::one_more_alike, crate::proofs::Differing::all_alike))]
fn first_difference(told: &[usize], natural: &Listed<usize>) -> Option<usize>
    ensures none { result ≡ None → told.now ≡ natural.now }
    ensures some { IfSome result (λ i. DifferFirst told.now natural.now i) }
{
    let count = natural.len();
    for i in 0..told.len() {
        if i >= count {
            return Some(i);
        }
        let here = told[i];
        let there = *natural.get(i);
        if here != there {
            return Some(i);
        }
    }
    if told.len() < count {
        return Some(told.len());
    }
    None
}

/// Where a type is first laid out otherwise.
fn first_otherwise(
    alloc: Global,
    ty: &CheckedType<'_>,
    size: usize,
    align: usize,
    offsets: &[usize],
) -> Result<Option<usize>, NoMemory>
    ensures natural { IfOk result (λ o. o ≡ None → IsNatural ty.now size align offsets.now) }
    ensures another { IfOk result (λ o. (i : ℕ) → o ≡ Some i → IsAnother ty.now size align offsets.now i) }
{
    let natural = natural_offsets(alloc, ty.as_type())?;
    if let Some(i) = first_difference(offsets, &natural) {
        return Ok(Some(i));
    }
    if size != ty.size() as usize {
        return Ok(Some(offsets.len()));
    }
    if align != ty.align() as usize {
        return Ok(Some(offsets.len()));
    }
    Ok(None)
}

/// What is told of a type that its client has laid out so.
fn tell_otherwise(
    alloc: Global,
    ty: &CheckedType<'_>,
    size: usize,
    align: usize,
    offsets: &[usize],
    fault: &mut TextFault,
) -> u32
    ensures { (o : Option Format) (ns : List Node) → AreNodesOfTypeBy o ns ty.now → ChecksType o ns size align offsets.now result fault.new }
{
    match first_otherwise(alloc, ty, size, align, offsets) {
        Ok(None) => {
            *fault = fault_with(FaultKind::NoFault);
            DONE
        }
        Ok(Some(i)) => {
            *fault = fault_of_value(0, FaultKind::LaidOutOtherwise, i);
            NOT_DECLARED
        }
        Err(_) => {
            *fault = Refusal::NoMemory.fault();
            Refusal::NoMemory.status()
        }
    }
}

/// Whether the type that the nodes are has this size, this alignment and members that start there. The fault tells the
/// number of the first member that starts elsewhere, or how many they are, where size or alignment alone is another.
pub fn check_layout(
    alloc: Global,
    nodes: &[Node],
    size: usize,
    align: usize,
    offsets: &[usize],
    fault: &mut TextFault,
) -> u32
    ensures { ChecksLayout nodes.now size align offsets.now result fault.new }
{
    match find_type(alloc, nodes) {
        Ok(ty) => tell_otherwise(alloc, &CheckedType::of(&ty), size, align, offsets, fault),
        Err(refusal) => {
            *fault = refusal.fault();
            refusal.status()
        }
    }
}

/// The same on the target with this number.
pub fn check_layout_for(
    alloc: Global,
    target: u32,
    nodes: &[Node],
    size: usize,
    align: usize,
    offsets: &[usize],
    fault: &mut TextFault,
) -> u32
    ensures { ChecksLayoutFor target nodes.now size align offsets.now result fault.new }
{
    let Some(_) = target_numbered(target) else {
        *fault = Refusal::NoSuchTarget.fault();
        return Refusal::NoSuchTarget.status();
    };
    match find_type_on(alloc, target, nodes) {
        Ok(sig) => tell_otherwise(
            alloc,
            &PlacedSig::of(&sig).ret(),
            size,
            align,
            offsets,
            fault,
        ),
        Err(refusal) => {
            *fault = refusal.fault();
            refusal.status()
        }
    }
}
