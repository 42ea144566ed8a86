//! Moves, by their kind.
ghost use Rattle.std.specs.Prelude.{◌≡◌, ◌<◌, ◌^◌, ◌∷◌, [], IfOk, IfErr, OnOk, None};
ghost use Rattle.std.specs.Prelude.{true, false, length, map, codes, option_map};
ghost use Rattle.serde_json.specs.Find.{get};
ghost use Rattle.ffi3_script_spec.specs.Language as language;
ghost use Rattle.ffi3_script_spec.specs.Language.{read};
ghost use Rattle.ffi3_script_spec.specs.Bodies.{kind_of, keys_of, read_call, read_make, read_act, read_move};
ghost use Rattle.ffi3_json.specs.KeyOf.{key_of};
ghost use Rattle.ffi3_json.specs.Reports.{Reports};
ghost use Rattle.ffi3_script_body.specs.ExprOf.{script_move_of};
ghost use Rattle.ffi3_script.specs.ScopeOf.{scope_of, given_in, surroundings_of, IsEven};
ghost use Rattle.ffi3_script.specs.Kinds.{kind_from};
ghost use Rattle.ffi3_script.specs.Numbers.{CallsWithin};
ghost use Rattle.ffi3_script.specs.NamedActs.{move_by};

use crate::fields::{
    read_arguments, read_condition, read_name, read_pointer, read_printed, read_result, read_user,
};
use crate::references::{read_function, read_signature_number};
use crate::scope::{Globals, Scope};
use crate::{Act, ScriptMove};
use ffi3_json::{
    JsonPath, Key, Node, Reason, ScriptFault, bad, check_object_at, optional, required,
};
use ffi3_types::{FfiType, Members};
use std::alloc::Global;

/// The kinds of moves, each named by its key.
#[derive(Clone, Copy)]
pub(crate) enum Kind {
    Call,
    Make,
    Free,
    Print,
    Return,
}

/// The kind of the move that a value is: where it has the keys of several, the first of them.
fn kind_of(value: &Node) -> Option<Kind>
    ensures { option_map kind_from result ≡ kind_of value.now }
{
    if value.get("call").is_some() {
        return Some(Kind::Call);
    }
    if value.get("make").is_some() {
        return Some(Kind::Make);
    }
    if value.get("free").is_some() {
        return Some(Kind::Free);
    }
    if value.get("print").is_some() {
        return Some(Kind::Print);
    }
    if value.get("return").is_some() {
        return Some(Kind::Return);
    }
    None
}

/// The keys of a call.
fn call_keys() -> [Key<'static>; 5]
    ensures { map key_of result ≡ keys_of (kind_from Kind.Call) }
{
    [
        optional("when"),
        required("call"),
        required("sig"),
        required("args"),
        optional("as"),
    ]
}

/// The keys of a move that makes a closure.
fn make_keys() -> [Key<'static>; 4]
    ensures { map key_of result ≡ keys_of (kind_from Kind.Make) }
{
    [
        optional("when"),
        required("make"),
        optional("user"),
        optional("as"),
    ]
}

/// The keys of a move that has but one beside `when`.
fn lone_keys<'a>(name: &'a str) -> [Key<'a>; 2]
    ensures { map key_of result
        ≡ record { name = codes "when"; optional = true } ∷ record { name = name.now; optional = false } ∷ [] }
{
    [optional("when"), required(name)]
}

/// Whether the value is an object with the keys of moves of a kind.
fn check_keys(alloc: Global, kind: Kind, value: &Node, at: &JsonPath) -> Result<(), ScriptFault>
    ensures ok { OnOk result (language.check_object value.now (keys_of (kind_from kind)) at.now ≡ read tt) }
    ensures err { IfErr result
        (Reports (λ p r. language.check_object value.now (keys_of (kind_from kind)) at.now ≡ language.fault p r)) }
{
    match kind {
        Kind::Call => check_object_at(alloc, value, &call_keys(), at),
        Kind::Make => check_object_at(alloc, value, &make_keys(), at),
        Kind::Free => check_object_at(alloc, value, &lone_keys("free"), at),
        Kind::Print => check_object_at(alloc, value, &lone_keys("print"), at),
        Kind::Return => check_object_at(alloc, value, &lone_keys("return"), at),
    }
}

/// What a move does, and the name of its result.
#[derive(Drop)]
struct NamedAct {
    act: Act,
    name: Option<String>,
}

/// A call: the pointer, the number of the signature, the arguments, the name.
fn read_call(
    alloc: Global,
    globals: &Globals,
    scope: &Scope,
    value: &Node,
    at: &JsonPath,
) -> Result<NamedAct, ScriptFault>
    requires even { IsEven scope.now }
    ensures within { IfOk result (λ d. CallsWithin (length globals.now.sigs.now) d.act) }
    ensures ok { IfOk result
        (λ d. read_call (surroundings_of globals.now scope.now) (given_in scope.now)
        (scope_of scope.now) None value.now at.now ≡ read (move_by None d)) }
    ensures err { IfErr result
        (Reports (λ p r. read_call (surroundings_of globals.now scope.now) (given_in scope.now)
        (scope_of scope.now) None value.now at.now ≡ language.fault p r)) }
{
    let ptr = read_pointer(alloc, scope, "call", value, at)?;
    let i = read_signature_number(alloc, globals.sigs, value, at)?;
    let sig = globals.sigs.get(i as usize);
    let args = read_arguments(alloc, scope, &Members::of_struct(sig.args()), value, at)?;
    let name = read_name(alloc, scope, sig.ret(), value, at)?;
    Ok(NamedAct {
        act: Act::Call { ptr, sig: i, args },
        name,
    })
}

/// A move that makes a closure: the function, the user data, the name.
fn read_make(
    alloc: Global,
    globals: &Globals,
    scope: &Scope,
    value: &Node,
    at: &JsonPath,
) -> Result<NamedAct, ScriptFault>
    requires even { IsEven scope.now }
    requires few { length globals.now.functions.now < 2 ^ 32 }
    ensures within { IfOk result (λ d. CallsWithin (length globals.now.sigs.now) d.act) }
    ensures ok { IfOk result
        (λ d. read_make (surroundings_of globals.now scope.now) (given_in scope.now)
        (scope_of scope.now) None value.now at.now ≡ read (move_by None d)) }
    ensures err { IfErr result
        (Reports (λ p r. read_make (surroundings_of globals.now scope.now) (given_in scope.now)
        (scope_of scope.now) None value.now at.now ≡ language.fault p r)) }
{
    let func = read_function(alloc, globals.functions, value, at)?;
    let user = read_user(alloc, scope, value, at)?;
    let name = read_name(alloc, scope, &FfiType::Pointer, value, at)?;
    Ok(NamedAct {
        act: Act::Make { func, user },
        name,
    })
}

/// What a move of a kind without a name does.
fn unnamed(act: Act) -> NamedAct
    ensures { result ≡ record { act = act; name = None } }
{
    NamedAct { act, name: None }
}

/// The fields of a move of a kind, but its condition.
fn read_act(
    alloc: Global,
    globals: &Globals,
    scope: &Scope,
    kind: Kind,
    value: &Node,
    at: &JsonPath,
) -> Result<NamedAct, ScriptFault>
    requires even { IsEven scope.now }
    requires few { length globals.now.functions.now < 2 ^ 32 }
    ensures within { IfOk result (λ d. CallsWithin (length globals.now.sigs.now) d.act) }
    ensures ok { IfOk result
        (λ d. read_act (surroundings_of globals.now scope.now) (given_in scope.now) (scope_of scope.now)
        (kind_from kind) value.now at.now None ≡ read (move_by None d)) }
    ensures err { IfErr result
        (Reports (λ p r. read_act (surroundings_of globals.now scope.now) (given_in scope.now) (scope_of scope.now)
        (kind_from kind) value.now at.now None ≡ language.fault p r)) }
{
    match kind {
        Kind::Call => read_call(alloc, globals, scope, value, at),
        Kind::Make => read_make(alloc, globals, scope, value, at),
        Kind::Free => {
            let ptr = read_pointer(alloc, scope, "free", value, at)?;
            Ok(unnamed(Act::Free { ptr }))
        }
        Kind::Print => {
            let printed = read_printed(alloc, scope, value, at)?;
            Ok(unnamed(Act::Print(printed)))
        }
        Kind::Return => {
            let act = read_result(alloc, scope, scope.own.ret(), value, at)?;
            Ok(unnamed(act))
        }
    }
}

/// The move that the value at a place is: its kind, its keys, its condition, its fields.
pub(crate) fn read_move(
    alloc: Global,
    globals: &Globals,
    scope: &Scope,
    value: &Node,
    at: &JsonPath,
) -> Result<ScriptMove, ScriptFault>
    requires even { IsEven scope.now }
    requires few { length globals.now.functions.now < 2 ^ 32 }
    ensures within { IfOk result (λ m. CallsWithin (length globals.now.sigs.now) m.act) }
    ensures ok { IfOk result
        (λ m. read_move (surroundings_of globals.now scope.now) (given_in scope.now) value.now at.now
        ≡ read (script_move_of m)) }
    ensures err { IfErr result
        (Reports (λ p r. read_move (surroundings_of globals.now scope.now) (given_in scope.now) value.now at.now
        ≡ language.fault p r)) }
{
    let Some(kind) = kind_of(value) else {
        return Err(bad(alloc, at, Reason::NotAMove));
    };
    check_keys(alloc, kind, value, at)?;
    let condition = read_condition(alloc, scope, value, at)?;
    let NamedAct { act, name } = read_act(alloc, globals, scope, kind, value, at)?;
    Ok(ScriptMove {
        condition,
        act,
        name,
    })
}
