//! Values that are filled with numbers.
ghost use Rattle.std.specs.Prelude.{◌≡◌, ◌<◌, ◌≤◌, ◌+◌, ◌++◌, ◌∷◌, [], IfOk, OnOk, true, length, map};
ghost use Rattle.ffi3_types.specs.TreeOf.{tree_of};
ghost use Rattle.ffi3_type_spec.specs.Tree.{u8, u64, float, double};
ghost use Rattle.ffi3_type_spec.specs.Integer.{is_number_type, scalar_of};
ghost use Rattle.ffi3_script_spec.specs.Made.{number, filled_leaf, filled, filled_arguments};
ghost use Rattle.ffi3_script_body.specs.ExprOf.{expression_of};
ghost use Rattle.ffi3_bench_script.specs.KindOf.{type_of, types_of};

use crate::NoMemory;
use crate::kinds::Kind;
use ffi3_script_body::Expr;
use ffi3_types::{Bytes, FfiType};
use ffi3_values::{Value, integer};
use std::alloc::Global;

/// A number of a type, as a constant.
pub(crate) fn number(alloc: Global, ty: &FfiType, n: u32) -> Result<Expr, NoMemory>
    requires { is_number_type (tree_of ty.now) ≡ true }
    ensures { IfOk result (λ e. expression_of e ≡ number (scalar_of (tree_of ty.now)) n) }
{
    match integer(alloc, ty, i128::from(n))? {
        Value::Leaf(bytes) => Ok(Expr::Constant(bytes)),
        _ => unreachable!(),
    }
}

/// A float whose bytes all are this one.
fn float(alloc: Global, byte: u8) -> Result<Expr, NoMemory>
    ensures { IfOk result (λ e. expression_of e ≡ filled_leaf float byte) }
{
    Ok(Expr::Constant(Bytes::from_slice(alloc, &[byte; 4])?))
}

/// A double whose bytes all are this one.
fn double(alloc: Global, byte: u8) -> Result<Expr, NoMemory>
    ensures { IfOk result (λ e. expression_of e ≡ filled_leaf double byte) }
{
    Ok(Expr::Constant(Bytes::from_slice(alloc, &[byte; 8])?))
}

/// One more value.
pub(crate) fn push(values: &mut Vec<Expr>, value: Expr) -> Result<(), NoMemory>
    ensures { OnOk result (values.new.items ≡ values.old.items ++ value ∷ []) }
{
    Ok(values.push(value)?)
}

/// Two 64-bit integers.
fn two_words(alloc: Global, first: u32) -> Result<Vec<Expr>, NoMemory>
    requires { first < 256 }
    ensures { IfOk result (λ es. map expression_of es.items ≡ number u64 first ∷ number u64 (first + 1) ∷ []) }
{
    let mut values = Vec::new(alloc);
    push(&mut values, number(alloc, &FfiType::U64, first)?)?;
    push(&mut values, number(alloc, &FfiType::U64, first + 1)?)?;
    Ok(values)
}

/// Three of them.
fn three_words(alloc: Global, first: u32) -> Result<Vec<Expr>, NoMemory>
    requires { first < 256 }
    ensures { IfOk result
        (λ es. map expression_of es.items ≡ number u64 first ∷ number u64 (first + 1) ∷ number u64 (first + 2) ∷ []) }
{
    let mut values = two_words(alloc, first)?;
    push(&mut values, number(alloc, &FfiType::U64, first + 2)?)?;
    Ok(values)
}

/// A double and a byte.
fn double_and_byte(alloc: Global, first: u32) -> Result<Vec<Expr>, NoMemory>
    requires { first < 256 }
    ensures { IfOk result
        (λ es. map expression_of es.items ≡ filled_leaf double first ∷ number u8 (first + 1) ∷ []) }
{
    let mut values = Vec::new(alloc);
    push(&mut values, double(alloc, first as u8)?)?;
    push(&mut values, number(alloc, &FfiType::U8, first + 1)?)?;
    Ok(values)
}

/// Two floats.
fn two_floats(alloc: Global, first: u32) -> Result<Vec<Expr>, NoMemory>
    requires { first + 1 < 256 }
    ensures { IfOk result
        (λ es. map expression_of es.items ≡ filled_leaf float first ∷ filled_leaf float (first + 1) ∷ []) }
{
    let mut values = Vec::new(alloc);
    push(&mut values, float(alloc, first as u8)?)?;
    push(&mut values, float(alloc, first as u8 + 1)?)?;
    Ok(values)
}

/// A value of a kind, filled from this number on.
fn filled(alloc: Global, kind: Kind, first: u32) -> Result<Expr, NoMemory>
    requires { first + 2 < 256 }
    ensures { IfOk result (λ e. expression_of e ≡ filled first (type_of kind)) }
{
    match kind {
        Kind::Uint8 => number(alloc, &FfiType::U8, first),
        Kind::Sint32 => number(alloc, &FfiType::S32, first),
        Kind::Float => float(alloc, first as u8),
        Kind::Double => double(alloc, first as u8),
        Kind::TwoWords => Ok(Expr::of_elements(two_words(alloc, first)?)),
        Kind::DoubleAndByte => Ok(Expr::of_elements(double_and_byte(alloc, first)?)),
        Kind::TwoFloats => Ok(Expr::of_elements(two_floats(alloc, first)?)),
        Kind::ThreeWords => Ok(Expr::of_elements(three_words(alloc, first)?)),
    }
}

/// A value of each of these kinds.
fn filled_each(alloc: Global, kinds: &[Kind], v: u32) -> Result<Vec<Expr>, NoMemory>
    requires few { length kinds.now ≤ 4 }
    requires small { v < 100 }
    ensures { IfOk result (λ es. map expression_of es.items ≡ filled_arguments v (types_of kinds.now)) }
{
    let mut values = Vec::new(alloc);
    let mut next = v;
    for kind in kinds {
        push(&mut values, filled(alloc, *kind, next)?)?;
        next += kind.leaves();
    }
    Ok(values)
}

/// The arguments of a call: a value of each of these kinds, filled with `v`, and the total.
pub(crate) fn arguments(
    alloc: Global,
    kinds: &[Kind],
    v: u32,
    total: Expr,
) -> Result<Vec<Expr>, NoMemory>
    requires few { length kinds.now ≤ 4 }
    requires small { v < 100 }
    ensures { IfOk result
        (λ es. map expression_of es.items ≡ filled_arguments v (types_of kinds.now) ++ expression_of total ∷ []) }
{
    let mut values = filled_each(alloc, kinds, v)?;
    push(&mut values, total)?;
    Ok(values)
}
