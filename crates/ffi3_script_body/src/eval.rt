//! The values that a body computes.
ghost use Rattle.std.specs.Prelude.{◌≡◌, true, IfOk};
ghost use Rattle.ffi3_type_spec.specs.Tree.{scalar, trees_of};
ghost use Rattle.ffi3_type_spec.specs.Integer.{scalar_of};
ghost use Rattle.ffi3_type_spec.specs.Value.{list_of_values, fits};
ghost use Rattle.ffi3_types.specs.TreeOf.{tree_of};
ghost use Rattle.ffi3_values.specs.ValueOf.{value_of};
ghost use Rattle.ffi3_script_spec.specs.Meaning as meaning;
ghost use Rattle.ffi3_script_spec.specs.Typed.{has_type, have_types, own_type};
ghost use Rattle.ffi3_script_body.specs.ExprOf.{expression_of, expressions_in};
ghost use Rattle.ffi3_script_body.specs.KnownAt.{kinds_of, known_of};
ghost use Rattle.ffi3_script_body.specs.PartOf.{IsPart, part_of, whole_of};

use crate::expr::element_types;
use crate::known::Known;
use crate::{Expr, NoMemory};
use ffi3_types::{FfiType, Members};
use ffi3_values::{Bytes, Value, Values, add, cast, sub};
use std::alloc::Global;

/// The scalar type that a type is.
fn scalar_type(ty: &FfiType) -> FfiType
    ensures { tree_of result ≡ scalar (scalar_of (tree_of ty.now)) }
{
    match ty {
        FfiType::S8 => FfiType::S8,
        FfiType::U16 => FfiType::U16,
        FfiType::S16 => FfiType::S16,
        FfiType::U32 => FfiType::U32,
        FfiType::S32 => FfiType::S32,
        FfiType::U64 => FfiType::U64,
        FfiType::S64 => FfiType::S64,
        FfiType::U128 => FfiType::U128,
        FfiType::S128 => FfiType::S128,
        FfiType::Float => FfiType::Float,
        FfiType::Double => FfiType::Double,
        FfiType::Pointer => FfiType::Pointer,
        FfiType::X87 => FfiType::X87,
        FfiType::Binary128 => FfiType::Binary128,
        _ => FfiType::U8,
    }
}

/// The expression of whose value this is a part, be it an element of an element: itself where it is no element.
fn whole_of(e: &Expr) -> &Expr
    ensures { expression_of result.now ≡ whole_of (expression_of e.now) }
{
    match e {
        Expr::Element(inner, _) => whole_of(inner),
        _ => e,
    }
}

/// The part of a whole that an expression is. Only the way down to it is gone, and nothing is copied.
fn part_of<'a>(whole: &'a Value, e: &Expr) -> &'a Value
    requires { IsPart (expression_of e.now) (value_of whole.now) }
    ensures { value_of result.now ≡ part_of (expression_of e.now) (value_of whole.now) }
{
    match e {
        Expr::Element(inner, i) => {
            let Value::List(values) = part_of(whole, inner) else {
                unreachable!()
            };
            values.get(*i as usize)
        }
        _ => whole,
    }
}

/// The value of an expression of this type.
#[cycle(eval)]
pub(crate) fn eval(alloc: Global, known: &Known, ty: &FfiType, e: &Expr) -> Result<Value, NoMemory>
    requires { has_type (kinds_of known.now) (tree_of ty.now) (expression_of e.now) ≡ true }
    ensures is { IfOk result (λ v. value_of v ≡ meaning.value_of (known_of known.now) (expression_of e.now)) }
    ensures fits { IfOk result (λ v. fits (tree_of ty.now) (value_of v) ≡ true) }
{
    match e {
        Expr::Constant(bytes) => Ok(Value::Leaf(Bytes::from_slice(alloc, bytes.as_slice())?)),
        Expr::Composed(es) => {
            let Some(types) = element_types(ty) else {
                unreachable!()
            };
            Ok(Value::List(eval_all(alloc, known, &types, es)?))
        }
        Expr::Sum(_, a, b) => {
            let a = eval(alloc, known, ty, a)?;
            let b = eval(alloc, known, ty, b)?;
            add(alloc, ty, &a, &b)
        }
        Expr::Difference(_, a, b) => {
            let a = eval(alloc, known, ty, a)?;
            let b = eval(alloc, known, ty, b)?;
            sub(alloc, ty, &a, &b)
        }
        Expr::Cast(from, _, inner) => {
            let from = scalar_type(from);
            let value = eval(alloc, known, &from, inner)?;
            cast(alloc, &from, ty, &value)
        }
        _ => eval_own(alloc, known, e),
    }
}

/// The value of an expression with a type of its own.
#[cycle(eval)]
fn eval_own(alloc: Global, known: &Known, e: &Expr) -> Result<Value, NoMemory>
    requires { has_type (kinds_of known.now) (own_type (kinds_of known.now) (expression_of e.now))
        (expression_of e.now) ≡ true }
    ensures is { IfOk result (λ v. value_of v ≡ meaning.value_of (known_of known.now) (expression_of e.now)) }
    ensures fits { IfOk result (λ v. fits (own_type (kinds_of known.now) (expression_of e.now)) (value_of v) ≡ true) }
{
    match e {
        Expr::Argument(i) => known.argument(alloc, *i),
        Expr::Outcome(i) => known.outcome(alloc, *i),
        Expr::User => {
            let user = known.user();
            Ok(Value::Leaf(Bytes::from_slice(alloc, &user.to_le_bytes())?))
        }
        Expr::Element(inner, _) => {
            let whole = eval_own(alloc, known, whole_of(inner))?;
            part_of(&whole, e).copy(alloc)
        }
        Expr::TypedAs(ty, inner) => eval(alloc, known, ty, inner),
        _ => unreachable!(),
    }
}

/// The values of expressions of these types, one for each.
#[cycle(eval)]
pub(crate) fn eval_all(
    alloc: Global,
    known: &Known,
    types: &Members,
    es: &Vec<Expr>,
) -> Result<Values, NoMemory>
    requires { have_types (kinds_of known.now) (trees_of types.now) (expressions_in es.now.items) ≡ true }
    ensures is { IfOk result
        (λ vs. vs ≡ list_of_values (meaning.values_of (known_of known.now) (expressions_in es.now.items))) }
{
    let mut values = Values::new(alloc);
    for i in 0..types.len() {
        values.push(eval(alloc, known, types.get(i), &es[i])?)?;
    }
    Ok(values)
}
