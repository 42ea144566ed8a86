//! Values of a script, as they are read.
ghost use Rattle.std.specs.Prelude.{◌≡◌, IfOk, IfErr, length};
ghost use Rattle.serde_json.specs.Events.{items_len};
ghost use Rattle.ffi3_types.specs.TreeOf.{tree_of};
ghost use Rattle.ffi3_script_spec.specs.Language.{read, fault, under};
ghost use Rattle.ffi3_script_spec.specs.Values.{read_value, read_values, read_typed, read_field, read_of, form_named};
ghost use Rattle.ffi3_json.specs.Reports.{Reports};
ghost use Rattle.ffi3_script_body.specs.ExprOf.{expression_of, expressions_in};
ghost use Rattle.ffi3_script.specs.ScopeOf.{scope_of};
ghost use Rattle.ffi3_script.specs.OwnTypeOf.{typed_value_of};
ghost use Rattle.ffi3_script.specs.Shapes.{typed_form_of, typed_under, value_under_form, read_terms};

use crate::Expr;
use crate::arrays::two_items;
use crate::forms::{Form, TypedForm, form_named, is_untyped};
use crate::own_type::TypedValue;
use crate::plain::{
    against, argument_of, cast_of, difference, field_of, push, read_right_type, result_of, sum,
    typed_as, user_of,
};
use crate::scope::Scope;
use ffi3_json::{JsonPath, Node, Nodes, Reason, ScriptFault, bad};
use ffi3_literals::{read_number, read_text};
use ffi3_script_body::element_types;
use ffi3_types::{FfiType, Members};
use std::alloc::Global;

/// The value of a type that a JSON value at a place is.
#[cycle(values)]
pub(crate) fn read_value(
    alloc: Global,
    scope: &Scope,
    ty: &FfiType,
    value: &Node,
    at: &JsonPath,
) -> Result<Expr, ScriptFault>
    requires even { length scope.now.names.now ≡ length scope.now.types.now }
    ensures ok { IfOk result
        (λ e. read_value (scope_of scope.now) (tree_of ty.now) value.now at.now ≡ read (expression_of e)) }
    ensures err { IfErr result
        (Reports (λ p r. read_value (scope_of scope.now) (tree_of ty.now) value.now at.now ≡ fault p r)) }
{
    if let Some(n) = value.as_number() {
        return read_number(alloc, ty, &n, at);
    }
    if let Some(text) = value.as_str() {
        return read_text(alloc, ty, text, at);
    }
    if let Some(items) = value.items() {
        let Some(types) = element_types(ty) else {
            return Err(bad(alloc, at, Reason::WrongType));
        };
        if items.len() != types.len() {
            return Err(bad(alloc, at, Reason::WrongCount));
        }
        let values = read_values(alloc, scope, &types, &items, at)?;
        return Ok(Expr::of_elements(values));
    }
    let Some((name, inside)) = value.only_member() else {
        return Err(bad(alloc, at, Reason::NotAValue));
    };
    read_form(alloc, scope, ty, name, &inside, at)
}

/// The values of these types that an array's items are, one for each.
#[cycle(values)]
pub(crate) fn read_values(
    alloc: Global,
    scope: &Scope,
    types: &Members,
    items: &Nodes,
    at: &JsonPath,
) -> Result<Vec<Expr>, ScriptFault>
    requires even { length scope.now.names.now ≡ length scope.now.types.now }
    requires count { items_len items.now ≡ length types.now }
    ensures ok { IfOk result
        (λ es. read_values (scope_of scope.now) types.now items.now at.now 0 ≡ read (expressions_in es.items)) }
    ensures err { IfErr result
        (Reports (λ p r. read_values (scope_of scope.now) types.now items.now at.now 0 ≡ fault p r)) }
{
    let mut values = Vec::new(alloc);
    for i in 0..types.len() {
        let value = read_value(
            alloc,
            scope,
            types.get(i),
            &items.get(i),
            &at.item(i as u32),
        )?;
        push(&mut values, value)?;
    }
    Ok(values)
}

/// An object against a type, by the form that its one key names.
#[cycle(values)]
fn read_form(
    alloc: Global,
    scope: &Scope,
    ty: &FfiType,
    name: &str,
    inside: &Node,
    at: &JsonPath,
) -> Result<Expr, ScriptFault>
    requires even { length scope.now.names.now ≡ length scope.now.types.now }
    ensures ok { IfOk result
        (λ e. value_under_form (scope_of scope.now) (tree_of ty.now) name.now inside.now at.now
        (form_named name.now) ≡ read (expression_of e)) }
    ensures err { IfErr result
        (Reports (λ p r. value_under_form (scope_of scope.now) (tree_of ty.now) name.now inside.now at.now
        (form_named name.now) ≡ fault p r)) }
{
    match form_named(name) {
        Form::Unknown => Err(bad(alloc, at, Reason::NotAValue)),
        Form::Typed(form) => {
            let value = read_own(alloc, scope, form, name, inside, at)?;
            against(alloc, ty, value, at)
        }
        Form::Add => {
            let (a, b) = read_terms(alloc, scope, ty, name, inside, at)?;
            Ok(sum(alloc, ty, a, b)?)
        }
        Form::Sub => {
            let (a, b) = read_terms(alloc, scope, ty, name, inside, at)?;
            Ok(difference(alloc, ty, a, b)?)
        }
        Form::Cast => {
            if !ty.is_number() {
                return Err(bad(alloc, at, Reason::WrongType));
            }
            let place = (&*at).key(name);
            let value = read_typed(alloc, scope, inside, &place)?;
            cast_of(alloc, ty, value, &place)
        }
    }
}

/// The two values of a sum or difference of a type, which is looked at before them.
#[cycle(values)]
fn read_terms(
    alloc: Global,
    scope: &Scope,
    ty: &FfiType,
    name: &str,
    inside: &Node,
    at: &JsonPath,
) -> Result<(Expr, Expr), ScriptFault>
    requires even { length scope.now.names.now ≡ length scope.now.types.now }
    ensures ok { IfOk result
        (λ p. read_terms (scope_of scope.now) (tree_of ty.now) name.now inside.now at.now
        ≡ read (expression_of p.0, expression_of p.1)) }
    ensures err { IfErr result
        (Reports (λ p r. read_terms (scope_of scope.now) (tree_of ty.now) name.now inside.now at.now ≡ fault p r)) }
{
    if !ty.is_integer() {
        return Err(bad(alloc, at, Reason::WrongType));
    }
    let place = (&*at).key(name);
    let Some((first, second)) = two_items(inside) else {
        return Err(bad(alloc, &place, Reason::WrongCount));
    };
    let a = read_value(alloc, scope, ty, &first, &place.item(0))?;
    let b = read_value(alloc, scope, ty, &second, &place.item(1))?;
    Ok((a, b))
}

/// The value with a type of its own that a JSON value at a place is.
#[cycle(values)]
pub(crate) fn read_typed<'t>(
    alloc: Global,
    scope: &Scope<'t>,
    value: &Node,
    at: &JsonPath,
) -> Result<TypedValue<'t>, ScriptFault>
    requires even { length scope.now.names.now ≡ length scope.now.types.now }
    ensures ok { IfOk result (λ v. read_typed (scope_of scope.now) value.now at.now ≡ read (typed_value_of v)) }
    ensures err { IfErr result (Reports (λ p r. read_typed (scope_of scope.now) value.now at.now ≡ fault p r)) }
{
    if is_untyped(value) {
        return Err(bad(alloc, at, Reason::NoTypeOfItsOwn));
    }
    let Some((name, inside)) = value.only_member() else {
        return Err(bad(alloc, at, Reason::NotAValue));
    };
    match form_named(name) {
        Form::Unknown => Err(bad(alloc, at, Reason::NotAValue)),
        Form::Typed(form) => read_own(alloc, scope, form, name, &inside, at),
        _ => Err(bad(alloc, at, Reason::NoTypeOfItsOwn)),
    }
}

/// The value of a form that has a type of its own.
#[cycle(values)]
fn read_own<'t>(
    alloc: Global,
    scope: &Scope<'t>,
    form: TypedForm,
    name: &str,
    inside: &Node,
    at: &JsonPath,
) -> Result<TypedValue<'t>, ScriptFault>
    requires even { length scope.now.names.now ≡ length scope.now.types.now }
    ensures ok { IfOk result
        (λ v. typed_under (scope_of scope.now) name.now inside.now at.now (typed_form_of form)
        ≡ read (typed_value_of v)) }
    ensures err { IfErr result
        (Reports (λ p r. typed_under (scope_of scope.now) name.now inside.now at.now (typed_form_of form)
        ≡ fault p r)) }
{
    match form {
        TypedForm::Arg => argument_of(alloc, scope, inside, at),
        TypedForm::Res => result_of(alloc, scope, inside, at),
        TypedForm::User => user_of(alloc, inside, at),
        TypedForm::Field => read_field(alloc, scope, name, inside, at),
        TypedForm::Of => read_of(alloc, scope, name, inside, at),
    }
}

/// An array of two: the value of a struct or an array, with a type of its own, and the number of an element.
#[cycle(values)]
fn read_field<'t>(
    alloc: Global,
    scope: &Scope<'t>,
    name: &str,
    inside: &Node,
    at: &JsonPath,
) -> Result<TypedValue<'t>, ScriptFault>
    requires even { length scope.now.names.now ≡ length scope.now.types.now }
    ensures ok { IfOk result
        (λ v. read_field (scope_of scope.now) inside.now (under at.now name.now) at.now ≡ read (typed_value_of v)) }
    ensures err { IfErr result
        (Reports (λ p r. read_field (scope_of scope.now) inside.now (under at.now name.now) at.now ≡ fault p r)) }
{
    let place = (&*at).key(name);
    let Some((inner, number)) = two_items(inside) else {
        return Err(bad(alloc, &place, Reason::WrongCount));
    };
    let first = place.item(0);
    let value = read_typed(alloc, scope, &inner, &first)?;
    field_of(alloc, value, &number, &first, at)
}

/// An array of a type, and a value against it.
#[cycle(values)]
fn read_of<'t>(
    alloc: Global,
    scope: &Scope<'t>,
    name: &str,
    inside: &Node,
    at: &JsonPath,
) -> Result<TypedValue<'t>, ScriptFault>
    requires even { length scope.now.names.now ≡ length scope.now.types.now }
    ensures ok { IfOk result
        (λ v. read_of (scope_of scope.now) inside.now (under at.now name.now) ≡ read (typed_value_of v)) }
    ensures err { IfErr result
        (Reports (λ p r. read_of (scope_of scope.now) inside.now (under at.now name.now) ≡ fault p r)) }
{
    let place = (&*at).key(name);
    let Some((first, second)) = two_items(inside) else {
        return Err(bad(alloc, &place, Reason::WrongCount));
    };
    let ty = read_right_type(alloc, &first, &place.item(0), scope.version)?;
    let value = read_value(alloc, scope, &ty, &second, &place.item(1))?;
    Ok(typed_as(alloc, ty, value)?)
}
