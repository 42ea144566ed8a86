//! The fields of moves.
ghost use Rattle.std.specs.Prelude.{◌≡◌, ℕ, IfOk, IfErr, codes, string_bytes, option_map};
ghost use Rattle.serde_json.specs.Find.{get};
ghost use Rattle.ffi3_types.specs.TreeOf.{tree_of};
ghost use Rattle.ffi3_type_spec.specs.Tree.{scalar, pointer};
ghost use Rattle.ffi3_script_spec.specs.Language as language;
ghost use Rattle.ffi3_script_spec.specs.Language.{read, under, value_under};
ghost use Rattle.ffi3_script_spec.specs.Values as values;
ghost use Rattle.ffi3_script_spec.specs.Bodies.{read_name, read_condition, read_arguments, read_user, read_result};
ghost use Rattle.ffi3_json.specs.Reports.{Reports};
ghost use Rattle.ffi3_script_body.specs.ExprOf.{expression_of, expressions_in, typed_of, act_of};
ghost use Rattle.ffi3_script.specs.Numbers.{CallsWithin};
ghost use Rattle.ffi3_script.specs.ScopeOf.{scope_of, given_in, IsEven};

use crate::arrays::items_under;
use crate::new_name::new_name;
use crate::scope::Scope;
use crate::values::{read_typed, read_value, read_values};
use crate::{Act, Expr, TypedExpr};
use ffi3_json::{Bytes, JsonPath, Node, Reason, ScriptFault, bad};
use ffi3_types::{FfiType, Members};
use std::alloc::Global;

/// The name of a move's result, which is of this type, where the move gives it one.
pub(crate) fn read_name(
    alloc: Global,
    scope: &Scope,
    ty: &FfiType,
    value: &Node,
    at: &JsonPath,
) -> Result<Option<String>, ScriptFault>
    requires even { IsEven scope.now }
    ensures ok { IfOk result
        (λ name. read_name (given_in scope.now) (tree_of ty.now) (get (codes "as") value.now)
        (under at.now (codes "as")) ≡ read (option_map string_bytes name)) }
    ensures err { IfErr result
        (Reports (λ p r. read_name (given_in scope.now) (tree_of ty.now) (get (codes "as") value.now)
        (under at.now (codes "as")) ≡ language.fault p r)) }
{
    let Some(named) = value.get("as") else {
        return Ok(None);
    };
    let place = at.key("as");
    let name = new_name(alloc, scope.names, &named, &place)?;
    if let FfiType::Void = ty {
        return Err(bad(alloc, &place, Reason::VoidResult));
    }
    Ok(Some(name))
}

/// The condition of a move, where it has one.
pub(crate) fn read_condition(
    alloc: Global,
    scope: &Scope,
    value: &Node,
    at: &JsonPath,
) -> Result<Option<TypedExpr>, ScriptFault>
    requires even { IsEven scope.now }
    ensures ok { IfOk result
        (λ c. read_condition (scope_of scope.now) (get (codes "when") value.now) (under at.now (codes "when"))
        ≡ read (option_map typed_of c)) }
    ensures err { IfErr result
        (Reports (λ p r. read_condition (scope_of scope.now) (get (codes "when") value.now)
        (under at.now (codes "when")) ≡ language.fault p r)) }
{
    let Some(when) = value.get("when") else {
        return Ok(None);
    };
    let place = at.key("when");
    let condition = read_typed(alloc, scope, &when, &place)?;
    if !condition.ty.as_type().is_number() {
        return Err(bad(alloc, &place, Reason::WrongType));
    }
    Ok(Some(condition.kept(alloc)?))
}

/// The values of a call's arguments, one for each of these types.
pub(crate) fn read_arguments(
    alloc: Global,
    scope: &Scope,
    types: &Members,
    value: &Node,
    at: &JsonPath,
) -> Result<Vec<Expr>, ScriptFault>
    requires even { IsEven scope.now }
    ensures ok { IfOk result
        (λ es. read_arguments (scope_of scope.now) types.now (value_under (codes "args") value.now)
        (under at.now (codes "args")) ≡ read (expressions_in es.items)) }
    ensures err { IfErr result
        (Reports (λ p r. read_arguments (scope_of scope.now) types.now (value_under (codes "args") value.now)
        (under at.now (codes "args")) ≡ language.fault p r)) }
{
    let place = at.key("args");
    let items = items_under(alloc, "args", value, &place)?;
    if items.len() != types.len() {
        return Err(bad(alloc, &place, Reason::WrongCount));
    }
    read_values(alloc, scope, types, &items, &place)
}

/// The pointer that a move has under a key.
pub(crate) fn read_pointer(
    alloc: Global,
    scope: &Scope,
    name: &str,
    value: &Node,
    at: &JsonPath,
) -> Result<Expr, ScriptFault>
    requires even { IsEven scope.now }
    ensures ok { IfOk result
        (λ e. values.read_value (scope_of scope.now) (scalar pointer) (value_under name.now value.now)
        (under at.now name.now) ≡ read (expression_of e)) }
    ensures err { IfErr result
        (Reports (λ p r. values.read_value (scope_of scope.now) (scalar pointer) (value_under name.now value.now)
        (under at.now name.now) ≡ language.fault p r)) }
{
    let place = at.key(name);
    let Some(inside) = value.get(name) else {
        return Err(bad(alloc, &place, Reason::NotAValue));
    };
    read_value(alloc, scope, &FfiType::Pointer, &inside, &place)
}

/// The user data of a closure that a move makes: 0 where it gives none.
pub(crate) fn read_user(
    alloc: Global,
    scope: &Scope,
    value: &Node,
    at: &JsonPath,
) -> Result<Expr, ScriptFault>
    requires even { IsEven scope.now }
    ensures ok { IfOk result
        (λ e. read_user (scope_of scope.now) (get (codes "user") value.now) (under at.now (codes "user"))
        ≡ read (expression_of e)) }
    ensures err { IfErr result
        (Reports (λ p r. read_user (scope_of scope.now) (get (codes "user") value.now)
        (under at.now (codes "user")) ≡ language.fault p r)) }
{
    let Some(_) = value.get("user") else {
        let zero = [0; 8];
        return Ok(Expr::Constant(Bytes::from_slice(alloc, &zero)?));
    };
    read_pointer(alloc, scope, "user", value, at)
}

/// The value that a move prints.
pub(crate) fn read_printed(
    alloc: Global,
    scope: &Scope,
    value: &Node,
    at: &JsonPath,
) -> Result<TypedExpr, ScriptFault>
    requires even { IsEven scope.now }
    ensures ok { IfOk result
        (λ v. values.read_typed (scope_of scope.now) (value_under (codes "print") value.now)
        (under at.now (codes "print")) ≡ read (typed_of v)) }
    ensures err { IfErr result
        (Reports (λ p r. values.read_typed (scope_of scope.now) (value_under (codes "print") value.now)
        (under at.now (codes "print")) ≡ language.fault p r)) }
{
    let place = at.key("print");
    let Some(inside) = value.get("print") else {
        return Err(bad(alloc, &place, Reason::NotAValue));
    };
    let value = read_typed(alloc, scope, &inside, &place)?;
    Ok(value.kept(alloc)?)
}

/// The return that a move is, from a body whose result is of this type. What is not there is read as null.
pub(crate) fn read_result(
    alloc: Global,
    scope: &Scope,
    ty: &FfiType,
    value: &Node,
    at: &JsonPath,
) -> Result<Act, ScriptFault>
    requires even { IsEven scope.now }
    ensures within { IfOk result (λ a. (count : ℕ) → CallsWithin count a) }
    ensures ok { IfOk result
        (λ a. read_result (scope_of scope.now) (tree_of ty.now) (value_under (codes "return") value.now)
        (under at.now (codes "return")) ≡ read (act_of a)) }
    ensures err { IfErr result
        (Reports (λ p r. read_result (scope_of scope.now) (tree_of ty.now) (value_under (codes "return") value.now)
        (under at.now (codes "return")) ≡ language.fault p r)) }
{
    let place = at.key("return");
    if let FfiType::Void = ty {
        let Some(inside) = value.get("return") else {
            return Ok(Act::ReturnVoid);
        };
        if inside.is_null() {
            return Ok(Act::ReturnVoid);
        }
        return Err(bad(alloc, &place, Reason::NotNull));
    }
    let Some(inside) = value.get("return") else {
        return Err(bad(alloc, &place, Reason::NotAValue));
    };
    let value = read_value(alloc, scope, ty, &inside, &place)?;
    Ok(Act::Return(value))
}
