//! What reading a value does besides reading the values inside it.
ghost use Rattle.std.specs.Prelude.{◌≡◌, ◌++◌, ◌∷◌, [], IfOk, IfErr, OnOk, option_and_then, length};
ghost use Rattle.serde_json.specs.Find.{as_number, as_u64, as_str};
ghost use Rattle.ffi3_type_spec.specs.Integer.{scalar_of};
ghost use Rattle.ffi3_types.specs.TreeOf.{tree_of};
ghost use Rattle.ffi3_script_spec.specs.Language.{read, fault};
ghost use Rattle.ffi3_script_spec.specs.Script as script;
ghost use Rattle.ffi3_script_spec.specs.Values.{typed};
ghost use Rattle.ffi3_script_spec.specs.Values.{argument_of, result_of, user_of, field_of, against, cast_of};
ghost use Rattle.ffi3_script_spec.specs.Values.{read_right_type};
ghost use Rattle.ffi3_json.specs.Reports.{Reports};
ghost use Rattle.ffi3_script_body.specs.ExprOf.{expression_of};
ghost use Rattle.ffi3_script.specs.ScopeOf.{scope_of};
ghost use Rattle.ffi3_script.specs.OwnTypeOf.{typed_value_of};

use crate::own_type::{OwnType, TypedValue};
use crate::scope::Scope;
use crate::{Expr, NoMemory};
use ffi3_json::{JsonPath, Node, Reason, ScriptFault, bad, bad_type, read_type_at};
use ffi3_script_body::element_types;
use ffi3_types::{FfiType, check_type, same_type};
use std::alloc::Global;

/// A value on the heap.
fn boxed(alloc: Global, value: Expr) -> Result<Box<Expr>, NoMemory>
    ensures { IfOk result (λ b. b.value ≡ value) }
{
    Ok(Box::new(alloc, value)?)
}

/// One more value at the end of a list.
pub(crate) fn push(values: &mut Vec<Expr>, value: Expr) -> Result<(), NoMemory>
    ensures { OnOk result (values.new.items ≡ values.old.items ++ value ∷ []) }
{
    Ok(values.push(value)?)
}

/// The sum of two integers of a type.
pub(crate) fn sum(alloc: Global, ty: &FfiType, a: Expr, b: Expr) -> Result<Expr, NoMemory>
    ensures { IfOk result
        (λ e. expression_of e ≡ script.sum (scalar_of (tree_of ty.now)) (expression_of a) (expression_of b)) }
{
    let a = boxed(alloc, a)?;
    let b = boxed(alloc, b)?;
    Ok(Expr::Sum(ty.copy(alloc)?, a, b))
}

/// The difference of two integers of a type.
pub(crate) fn difference(alloc: Global, ty: &FfiType, a: Expr, b: Expr) -> Result<Expr, NoMemory>
    ensures { IfOk result
        (λ e. expression_of e ≡ script.difference (scalar_of (tree_of ty.now)) (expression_of a) (expression_of b)) }
{
    let a = boxed(alloc, a)?;
    let b = boxed(alloc, b)?;
    Ok(Expr::Difference(ty.copy(alloc)?, a, b))
}

/// A value that is said to be of a type.
pub(crate) fn typed_as<'t>(
    alloc: Global,
    ty: FfiType,
    value: Expr,
) -> Result<TypedValue<'t>, NoMemory>
    ensures { IfOk result
        (λ v. typed_value_of v ≡ typed (tree_of ty) (script.typed_as (tree_of ty) (expression_of value))) }
{
    let value = boxed(alloc, value)?;
    Ok(TypedValue {
        ty: OwnType::Given(ty.copy(alloc)?),
        value: Expr::TypedAs(ty, value),
    })
}

/// An argument of the body, by its number.
pub(crate) fn argument_of<'t>(
    alloc: Global,
    scope: &Scope<'t>,
    value: &Node,
    at: &JsonPath,
) -> Result<TypedValue<'t>, ScriptFault>
    ensures ok { IfOk result
        (λ v. argument_of (scope_of scope.now).arguments (option_and_then as_u64 (as_number value.now)) at.now
        ≡ read (typed_value_of v)) }
    ensures err { IfErr result
        (Reports (λ p r. argument_of (scope_of scope.now).arguments (option_and_then as_u64 (as_number value.now))
        at.now ≡ fault p r)) }
{
    let Some(i) = value.as_u64() else {
        return Err(bad(alloc, at, Reason::NoSuchArgument));
    };
    if i >= scope.own.count() as u64 {
        return Err(bad(alloc, at, Reason::NoSuchArgument));
    }
    let i = i as u32;
    Ok(TypedValue {
        ty: OwnType::Lent(scope.own.arg(i)),
        value: Expr::Argument(i),
    })
}

/// The result of an earlier move of the body, by its name.
pub(crate) fn result_of<'t>(
    alloc: Global,
    scope: &Scope<'t>,
    value: &Node,
    at: &JsonPath,
) -> Result<TypedValue<'t>, ScriptFault>
    requires { length scope.now.names.now ≡ length scope.now.types.now }
    ensures ok { IfOk result
        (λ v. result_of (scope_of scope.now).given (as_str value.now) at.now ≡ read (typed_value_of v)) }
    ensures err { IfErr result
        (Reports (λ p r. result_of (scope_of scope.now).given (as_str value.now) at.now ≡ fault p r)) }
{
    let Some(name) = value.as_str() else {
        return Err(bad(alloc, at, Reason::NoSuchResult));
    };
    let Some(i) = scope.names.find(name) else {
        return Err(bad(alloc, at, Reason::NoSuchResult));
    };
    // fewer than 2^32 results, so that the number is in range
    let _count = scope.types.len();
    Ok(TypedValue {
        ty: OwnType::Lent(scope.types.get(i)),
        value: Expr::Outcome(i as u32),
    })
}

/// The user data of the closure.
pub(crate) fn user_of<'t>(
    alloc: Global,
    value: &Node,
    at: &JsonPath,
) -> Result<TypedValue<'t>, ScriptFault>
    ensures ok { IfOk result (λ v. user_of value.now at.now ≡ read (typed_value_of v)) }
    ensures err { IfErr result (Reports (λ p r. user_of value.now at.now ≡ fault p r)) }
{
    match value.as_bool() {
        Some(true) => Ok(TypedValue {
            ty: OwnType::Given(FfiType::Pointer),
            value: Expr::User,
        }),
        _ => Err(bad(alloc, at, Reason::NotAValue)),
    }
}

/// An element, by its number, of a value, which stands at a place of its own and must be a struct or an array.
pub(crate) fn field_of<'t>(
    alloc: Global,
    value: TypedValue<'t>,
    number: &Node,
    place: &JsonPath,
    at: &JsonPath,
) -> Result<TypedValue<'t>, ScriptFault>
    ensures ok { IfOk result
        (λ v. field_of at.now place.now (option_and_then as_u64 (as_number number.now)) (typed_value_of value.entry)
        ≡ read (typed_value_of v)) }
    ensures err { IfErr result
        (Reports (λ p r. field_of at.now place.now (option_and_then as_u64 (as_number number.now))
        (typed_value_of value.entry) ≡ fault p r)) }
{
    let TypedValue { ty, value } = value;
    let value = boxed(alloc, value)?;
    let Some(_) = element_types(ty.as_type()) else {
        return Err(bad(alloc, place, Reason::WrongType));
    };
    let Some(i) = number.as_u64() else {
        return Err(bad(alloc, at, Reason::NoSuchField));
    };
    let Some(ty) = ty.element(alloc, i)? else {
        return Err(bad(alloc, at, Reason::NoSuchField));
    };
    Ok(TypedValue {
        ty,
        value: Expr::Element(value, i as u32),
    })
}

/// A typed value where a type is asked for, which must be its own.
pub(crate) fn against(
    alloc: Global,
    ty: &FfiType,
    value: TypedValue,
    at: &JsonPath,
) -> Result<Expr, ScriptFault>
    ensures ok { IfOk result
        (λ e. against (tree_of ty.now) at.now (typed_value_of value.entry) ≡ read (expression_of e)) }
    ensures err { IfErr result
        (Reports (λ p r. against (tree_of ty.now) at.now (typed_value_of value.entry) ≡ fault p r)) }
{
    let TypedValue { ty: own, value } = value;
    if same_type(own.as_type(), ty) {
        Ok(value)
    } else {
        Err(bad(alloc, at, Reason::WrongType))
    }
}

/// A typed value of an integer or pointer type, as one of another such type.
pub(crate) fn cast_of(
    alloc: Global,
    to: &FfiType,
    value: TypedValue,
    at: &JsonPath,
) -> Result<Expr, ScriptFault>
    ensures ok { IfOk result
        (λ e. cast_of (scalar_of (tree_of to.now)) at.now (typed_value_of value.entry) ≡ read (expression_of e)) }
    ensures err { IfErr result
        (Reports (λ p r. cast_of (scalar_of (tree_of to.now)) at.now (typed_value_of value.entry) ≡ fault p r)) }
{
    let TypedValue { ty, value } = value;
    if !ty.as_type().is_number() {
        return Err(bad(alloc, at, Reason::WrongType));
    }
    let value = boxed(alloc, value)?;
    Ok(Expr::Cast(ty.into_type(alloc)?, to.copy(alloc)?, value))
}

/// A type that may be an argument's.
pub(crate) fn read_right_type(
    alloc: Global,
    value: &Node,
    at: &JsonPath,
    version: u8,
) -> Result<FfiType, ScriptFault>
    ensures ok { IfOk result (λ t. read_right_type version value.now at.now ≡ read (tree_of t)) }
    ensures err { IfErr result (Reports (λ p r. read_right_type version value.now at.now ≡ fault p r)) }
{
    let ty = read_type_at(alloc, value, at, version)?;
    match check_type(&ty, false) {
        Ok(()) => Ok(ty),
        Err(fault) => Err(bad_type(alloc, at, &ty, &fault)),
    }
}
