//! The layout of the types of the function that is declared.
ghost use Rattle.std.specs.Prelude.{◌≡◌, IfOk, IfErr};
ghost use Rattle.ffi3_type_spec.specs.Tree.{Scalar, scalar};
ghost use Rattle.ffi3_type_spec.specs.Layout.{scalar_size};
ghost use Rattle.ffi3_types.specs.TreeOf.{tree_of};
ghost use Rattle.ffi3_capi.specs.Chars.{layout_sign};
ghost use Rattle.ffi3_capi.specs.DeclaredBy.{IsDeclaredBy, IsDeclaredOn, IsFaultBy, IsFaultOn};
ghost use Rattle.ffi3_capi.specs.Laid.{leaf_kind, laid_leaf, laid_leaves, laid_of, no_type, IsLaid, IsLayoutRefusal, LaysOut, LaysOutFor};

use crate::codes::{LEAF_BINARY128, LEAF_X87, RESULT_PART};
use crate::declaration::{Declaration, declared, declared_on};
use crate::fault::{FaultKind, TextFault, fault_with};
use crate::fill::{fill, room_status};
use crate::placing::target_numbered;
use crate::status::Refusal;
use ffi3_cdecl::Sign;
use ffi3_place_spec::Listed;
use ffi3_types::{CheckedSig, CheckedType, FfiType, Leaf, NoMemory, PlacedSig};
use std::alloc::Global;

/// A scalar of a type: C's `struct ffi3_leaf`.
#[repr(C)]
#[derive(Clone, Copy)]
pub struct LaidLeaf {
    /// Which scalar it is.
    pub kind: u32,
    /// Its bytes.
    pub size: u32,
    /// Where it stands, from the start of the type.
    pub offset: usize,
}

/// Size and alignment of a type: C's `struct ffi3_layout`.
#[repr(C)]
#[derive(Clone, Copy)]
pub struct LaidType {
    pub size: usize,
    pub align: usize,
    /// How many scalars it has.
    pub leaves: usize,
    /// How many arguments the function has.
    pub arguments: usize,
    pub fault: TextFault,
}

/// The layout of a type.
#[derive(Drop)]
pub struct Laid {
    pub layout: LaidType,
    pub leaves: Listed<LaidLeaf>,
}

/// No layout, and why.
fn no_type(count: usize, fault: TextFault) -> LaidType
    ensures { result ≡ no_type count fault }
{
    LaidType {
        size: 0,
        align: 0,
        leaves: 0,
        arguments: count,
        fault,
    }
}

/// The number of a scalar.
fn leaf_kind(kind: &FfiType) -> u32
    ensures { (s : Scalar) → tree_of kind.now ≡ scalar s → result ≡ leaf_kind s }
{
    match kind {
        FfiType::U8 => 0,
        FfiType::S8 => 1,
        FfiType::U16 => 2,
        FfiType::S16 => 3,
        FfiType::U32 => 4,
        FfiType::S32 => 5,
        FfiType::U64 => 6,
        FfiType::S64 => 7,
        FfiType::U128 => 8,
        FfiType::S128 => 9,
        FfiType::Float => 10,
        FfiType::Double => 11,
        FfiType::Pointer => 12,
        FfiType::X87 => LEAF_X87,
        FfiType::Binary128 => LEAF_BINARY128,
        FfiType::Void => 13,
        FfiType::Struct(_) | FfiType::Array(_, _) => 13,
        FfiType::LongDouble | FfiType::Complex | FfiType::Vector => 13,
    }
}

/// The bytes of a scalar.
fn scalar_size(kind: &FfiType) -> u32
    ensures { (s : Scalar) → tree_of kind.now ≡ scalar s → result ≡ scalar_size s }
{
    match kind {
        FfiType::U8 | FfiType::S8 => 1,
        FfiType::U16 | FfiType::S16 => 2,
        FfiType::U32 | FfiType::S32 | FfiType::Float => 4,
        FfiType::U64 | FfiType::S64 | FfiType::Double | FfiType::Pointer => 8,
        FfiType::X87 => 10,
        FfiType::U128 | FfiType::S128 | FfiType::Binary128 => 16,
        FfiType::Void | FfiType::Struct(_) | FfiType::Array(_, _) => 0,
        FfiType::LongDouble | FfiType::Complex | FfiType::Vector => 0,
    }
}

fn laid_leaf(leaf: &Leaf) -> LaidLeaf
    ensures { (s : Scalar) → tree_of leaf.now.kind ≡ scalar s → result ≡ laid_leaf (record { at = leaf.now.at; kind = s }) }
{
    LaidLeaf {
        kind: leaf_kind(&leaf.kind),
        size: scalar_size(&leaf.kind),
        offset: leaf.at as usize,
    }
}

/// The leaves of a type.
pub(crate) fn laid_leaves(alloc: Global, ty: &CheckedType<'_>) -> Result<Listed<LaidLeaf>, NoMemory>
    ensures { IfOk result (λ ls. ls ≡ laid_leaves ty.now) }
{
    let mut laid = Listed::new(alloc);
    let leaves = ty.as_type().leaves(alloc)?;
    for i in 0..leaves.len() {
        laid.push(laid_leaf(leaves.get(i)))?;
    }
    Ok(laid)
}

/// The layout of a type of a function with so many arguments.
fn laid_type(alloc: Global, count: usize, ty: &CheckedType<'_>) -> Result<Laid, Refusal>
    ensures ok { IfOk result (λ l. l ≡ laid_of count ty.now) }
    ensures err { IfErr result (λ r. r ≡ Refusal.NoMemory) }
{
    let Ok(leaves) = laid_leaves(alloc, ty) else {
        return Err(Refusal::NoMemory);
    };
    let layout = LaidType {
        size: ty.size() as usize,
        align: ty.align() as usize,
        leaves: leaves.len(),
        arguments: count,
        fault: fault_with(FaultKind::NoFault),
    };
    Ok(Laid { layout, leaves })
}

/// The layout of an argument of a function, or of its result.
fn layout_of(alloc: Global, sig: &PlacedSig<'_>, value: u32) -> Result<Laid, Refusal>
    ensures ok { IfOk result (λ l. IsLaid (λ s. s ≡ sig.now) value l) }
    ensures err { IfErr result (λ r. IsLayoutRefusal (λ s. s ≡ sig.now) (λ f. ⊥) value r) }
{
    let count = sig.count();
    if value == RESULT_PART {
        return laid_type(alloc, count as usize, &sig.ret());
    }
    if value >= count {
        return Err(Refusal::NoSuchValue(count as usize));
    }
    laid_type(alloc, count as usize, &sig.arg(value))
}

/// The layout of an argument, or of the result, of the function that is declared, no long double among them.
pub fn find_layout(alloc: Global, declaration: Declaration<'_>, value: u32) -> Result<Laid, Refusal>
    ensures ok { IfOk result (λ l. IsLaid (IsDeclaredBy layout_sign declaration.entry) value l) }
    ensures err { IfErr result (λ r. IsLayoutRefusal (IsDeclaredBy layout_sign declaration.entry) (IsFaultBy layout_sign declaration.entry) value r) }
{
    let sig = match declared(alloc, Sign::Signed, declaration) {
        Ok(sig) => sig,
        Err(Some(fault)) => return Err(Refusal::Fault(fault)),
        Err(None) => return Err(Refusal::NoMemory),
    };
    layout_of(alloc, &CheckedSig::of(&sig).placed(), value)
}

/// The same of the function that is declared for a call on the target with this number.
fn find_layout_on(
    alloc: Global,
    target: u32,
    declaration: Declaration<'_>,
    value: u32,
) -> Result<Laid, Refusal>
    ensures ok { IfOk result (λ l. IsLaid (IsDeclaredOn target declaration.entry) value l) }
    ensures err { IfErr result (λ r. IsLayoutRefusal (IsDeclaredOn target declaration.entry) (IsFaultOn target declaration.entry) value r) }
{
    let sig = match declared_on(alloc, target, declaration) {
        Ok(sig) => sig,
        Err(Some(fault)) => return Err(Refusal::Fault(fault)),
        Err(None) => return Err(Refusal::NoMemory),
    };
    layout_of(alloc, &PlacedSig::of(&sig), value)
}

/// The same for a caller's struct and array. The number tells whether the leaves had room, or why there are none.
pub fn layout(
    alloc: Global,
    declaration: Declaration<'_>,
    value: u32,
    layout: &mut LaidType,
    leaves: &mut [LaidLeaf],
) -> u32
    ensures { LaysOut (IsDeclaredBy layout_sign declaration.entry) (IsFaultBy layout_sign declaration.entry) value leaves.old result layout.new leaves.new }
{
    match find_layout(alloc, declaration, value) {
        Ok(found) => {
            *layout = found.layout;
            room_status(fill(&found.leaves, leaves))
        }
        Err(refusal) => {
            *layout = no_type(refusal.count(), refusal.fault());
            refusal.status()
        }
    }
}

/// The same for a target by its number.
pub fn layout_for(
    alloc: Global,
    target: u32,
    declaration: Declaration<'_>,
    value: u32,
    layout: &mut LaidType,
    leaves: &mut [LaidLeaf],
) -> u32
    ensures { LaysOutFor (IsDeclaredOn target declaration.entry) (IsFaultOn target declaration.entry) target value leaves.old result layout.new leaves.new }
{
    let Some(_) = target_numbered(target) else {
        *layout = no_type(0, Refusal::NoSuchTarget.fault());
        return Refusal::NoSuchTarget.status();
    };
    match find_layout_on(alloc, target, declaration, value) {
        Ok(found) => {
            *layout = found.layout;
            room_status(fill(&found.leaves, leaves))
        }
        Err(refusal) => {
            *layout = no_type(refusal.count(), refusal.fault());
            refusal.status()
        }
    }
}
