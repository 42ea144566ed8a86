//! Sums of the integers that a function is handed.
ghost use Rattle.std.specs.Prelude.{◌≡◌, ◌≤◌, IfOk, length};
ghost use Rattle.ffi3_types.specs.TreeOf.{tree_of};
ghost use Rattle.ffi3_type_spec.specs.Tree.{u64};
ghost use Rattle.ffi3_type_spec.specs.Integer.{scalar_of};
ghost use Rattle.ffi3_script_spec.specs.Script as script;
ghost use Rattle.ffi3_script_spec.specs.Made.{with_leaves, with_arguments};
ghost use Rattle.ffi3_script_body.specs.ExprOf.{expression_of};
ghost use Rattle.ffi3_bench_script.specs.KindOf.{type_of, types_of};

use crate::NoMemory;
use crate::kinds::Kind;
use ffi3_script_body::Expr;
use ffi3_types::FfiType;
use std::alloc::Global;

/// A value on the heap.
pub(crate) fn boxed(alloc: Global, value: Expr) -> Result<Box<Expr>, NoMemory>
    ensures { IfOk result (λ b. b.value ≡ value) }
{
    Ok(Box::new(alloc, value)?)
}

/// The sum of two 64-bit integers.
pub(crate) fn sum(alloc: Global, a: Box<Expr>, b: Box<Expr>) -> Result<Box<Expr>, NoMemory>
    ensures { IfOk result
        (λ e. expression_of e.value ≡ script.sum u64 (expression_of a.value) (expression_of b.value)) }
{
    boxed(alloc, Expr::Sum(FfiType::U64, a, b))
}

/// A sum, and an integer of a type added.
fn with_leaf(
    alloc: Global,
    so_far: Box<Expr>,
    ty: FfiType,
    leaf: Expr,
) -> Result<Box<Expr>, NoMemory>
    ensures { IfOk result
        (λ e. expression_of e.value ≡ script.sum u64 (expression_of so_far.value)
        (script.cast (scalar_of (tree_of ty)) u64 (expression_of leaf))) }
{
    let leaf = boxed(alloc, leaf)?;
    let leaf = boxed(alloc, Expr::Cast(ty, FfiType::U64, leaf))?;
    sum(alloc, so_far, leaf)
}

/// An element of an argument.
fn element(alloc: Global, i: u32, number: u32) -> Result<Expr, NoMemory>
    ensures { IfOk result (λ e. expression_of e ≡ script.element (script.argument i) number) }
{
    Ok(Expr::Element(boxed(alloc, Expr::Argument(i))?, number))
}

/// A sum, and an element of an argument added.
fn with_element(
    alloc: Global,
    so_far: Box<Expr>,
    ty: FfiType,
    i: u32,
    number: u32,
) -> Result<Box<Expr>, NoMemory>
    ensures { IfOk result
        (λ e. expression_of e.value ≡ script.sum u64 (expression_of so_far.value)
        (script.cast (scalar_of (tree_of ty)) u64 (script.element (script.argument i) number))) }
{
    let leaf = element(alloc, i, number)?;
    with_leaf(alloc, so_far, ty, leaf)
}

/// A sum, and all integer leaves of argument `i`, which is of a kind.
fn with_leaves(alloc: Global, so_far: Box<Expr>, kind: Kind, i: u32) -> Result<Box<Expr>, NoMemory>
    ensures { IfOk result
        (λ e. expression_of e.value ≡ with_leaves (expression_of so_far.value) (type_of kind) (script.argument i)) }
{
    match kind {
        Kind::Uint8 => with_leaf(alloc, so_far, FfiType::U8, Expr::Argument(i)),
        Kind::Sint32 => with_leaf(alloc, so_far, FfiType::S32, Expr::Argument(i)),
        Kind::Float => Ok(so_far),
        Kind::Double => Ok(so_far),
        Kind::TwoWords => {
            let first = with_element(alloc, so_far, FfiType::U64, i, 0)?;
            with_element(alloc, first, FfiType::U64, i, 1)
        }
        Kind::DoubleAndByte => with_element(alloc, so_far, FfiType::U8, i, 1),
        Kind::TwoFloats => Ok(so_far),
        Kind::ThreeWords => {
            let first = with_element(alloc, so_far, FfiType::U64, i, 0)?;
            let second = with_element(alloc, first, FfiType::U64, i, 1)?;
            with_element(alloc, second, FfiType::U64, i, 2)
        }
    }
}

/// A sum, and all integer leaves of arguments of these kinds.
pub(crate) fn with_arguments(
    alloc: Global,
    start: Box<Expr>,
    kinds: &[Kind],
) -> Result<Box<Expr>, NoMemory>
    requires { length kinds.now ≤ 4 }
    ensures { IfOk result
        (λ e. expression_of e.value ≡ with_arguments (expression_of start.value) 0 (types_of kinds.now)) }
{
    let mut so_far = start;
    for (i, kind) in kinds.iter().enumerate() {
        so_far = with_leaves(alloc, so_far, *kind, i as u32)?;
    }
    Ok(so_far)
}
