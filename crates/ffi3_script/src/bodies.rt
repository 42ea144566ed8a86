//! Bodies: arrays of moves.
ghost use Rattle.std.specs.Prelude.{◌≡◌, ◌+◌, ◌<◌, ◌^◌, ◌++◌, ◌∷◌, [], IfOk};
ghost use Rattle.std.specs.Prelude.{IfErr, OnOk, length, option_map, string_bytes};
ghost use Rattle.ffi3_types.specs.TreeOf.{tree_of};
ghost use Rattle.ffi3_script_spec.specs.Language as language;
ghost use Rattle.ffi3_script_spec.specs.Language.{read, under, value_under};
ghost use Rattle.ffi3_script_spec.specs.Bodies.{type_of_act, is_return, always_returns, ends};
ghost use Rattle.ffi3_script_spec.specs.Bodies.{read_move, read_moves, read_body};
ghost use Rattle.ffi3_json.specs.Reports.{Reports};
ghost use Rattle.ffi3_script_body.specs.ExprOf.{act_of, script_move_of, script_moves_of};
ghost use Rattle.ffi3_script.specs.ScopeOf.{given_of, surroundings_in};
ghost use Rattle.ffi3_script.specs.Numbers.{CallsWithin};

use crate::acts::read_move;
use crate::arrays::items_under;
use crate::names::NameIndex;
use crate::scope::{Globals, Scope};
use crate::{Act, NoMemory, ScriptMove};
use ffi3_json::{JsonPath, Node, Nodes, Reason, ScriptFault, bad};
use ffi3_types::{FfiType, Fields, Sig, Sigs};
use std::alloc::Global;

/// The type of the result of what a move does; a return has none.
fn result_type(alloc: Global, sigs: &Sigs, act: &Act) -> Result<FfiType, NoMemory>
    requires { CallsWithin (length sigs.now) act.now }
    ensures { IfOk result (λ t. tree_of t ≡ type_of_act sigs.now (act_of act.now)) }
{
    match act {
        Act::Call { sig, .. } => sigs.get(*sig as usize).ret().copy(alloc),
        Act::Make { .. } => Ok(FfiType::Pointer),
        Act::Free { .. } => Ok(FfiType::Void),
        Act::Print(_) => Ok(FfiType::Void),
        Act::Return(_) => Ok(FfiType::Void),
        Act::ReturnVoid => Ok(FfiType::Void),
    }
}

/// One more name, or a thing without one.
fn push_name(alloc: Global, names: &mut NameIndex, name: &Option<String>) -> Result<(), NoMemory>
    ensures { OnOk result (names.new ≡ names.old ++ option_map string_bytes name.now ∷ []) }
{
    match name {
        Some(text) => names.push_named(alloc, text.as_str()),
        None => names.push_unnamed(),
    }
}

/// One more move, with the name and type of its result.
fn push_move(
    alloc: Global,
    sigs: &Sigs,
    one: ScriptMove,
    names: &mut NameIndex,
    types: &mut Fields,
    moves: &mut Vec<ScriptMove>,
) -> Result<(), NoMemory>
    requires within { CallsWithin (length sigs.now) one.act }
    requires room { length types.old + 1 < 2 ^ 32 }
    ensures named { OnOk result (names.new ≡ names.old ++ option_map string_bytes one.name ∷ []) }
    ensures typed { OnOk result (types.new ≡ types.old ++ type_of_act sigs.now (act_of one.act) ∷ []) }
    ensures pushed { OnOk result (moves.new.items ≡ moves.old.items ++ one ∷ []) }
{
    let number = moves.len();
    moves.push(one)?;
    let one = &moves[number];
    push_name(alloc, names, &one.name)?;
    types.push(result_type(alloc, sigs, &one.act)?)?;
    Ok(())
}

/// The move that the value at a place is, in a body of this signature, after moves whose results have these names and
/// types.
fn read_next(
    alloc: Global,
    globals: &Globals,
    own: &Sig,
    names: &NameIndex,
    types: &Fields,
    value: &Node,
    at: &JsonPath,
) -> Result<ScriptMove, ScriptFault>
    requires even { length names.now ≡ length types.now }
    requires few { length globals.now.functions.now < 2 ^ 32 }
    ensures within { IfOk result (λ m. CallsWithin (length globals.now.sigs.now) m.act) }
    ensures ok { IfOk result
        (λ m. read_move (surroundings_in globals.now own.now) (given_of names.now types.now) value.now at.now
        ≡ read (script_move_of m)) }
    ensures err { IfErr result
        (Reports (λ p r. read_move (surroundings_in globals.now own.now) (given_of names.now types.now)
        value.now at.now ≡ language.fault p r)) }
{
    let scope = Scope {
        version: globals.version,
        own,
        names,
        types,
    };
    read_move(alloc, globals, &scope, value, at)
}

/// The moves that the items of an array are, in a body of this signature.
fn read_moves(
    alloc: Global,
    globals: &Globals,
    own: &Sig,
    items: &Nodes,
    at: &JsonPath,
) -> Result<Vec<ScriptMove>, ScriptFault>
    requires few { length globals.now.functions.now < 2 ^ 32 }
    ensures ok { IfOk result
        (λ ms. read_moves (surroundings_in globals.now own.now) [] items.now at.now 0
        ≡ read (script_moves_of ms.items)) }
    ensures err { IfErr result
        (Reports (λ p r. read_moves (surroundings_in globals.now own.now) [] items.now at.now 0 ≡ language.fault p r)) }
{
    let mut names = NameIndex::new(alloc);
    let mut types = Fields::new(alloc);
    let mut moves = Vec::new(alloc);
    for i in 0..items.len() {
        let one = read_next(
            alloc,
            globals,
            own,
            &names,
            &types,
            &items.get(i),
            &at.item(i as u32),
        )?;
        push_move(alloc, globals.sigs, one, &mut names, &mut types, &mut moves)?;
    }
    Ok(moves)
}

/// Whether what a move does is to return.
fn is_return(act: &Act) -> bool
    ensures { result ≡ is_return (act_of act.now) }
{
    match act {
        Act::Call { .. } => false,
        Act::Make { .. } => false,
        Act::Free { .. } => false,
        Act::Print(_) => false,
        Act::Return(_) => true,
        Act::ReturnVoid => true,
    }
}

/// Whether a move is a return without condition.
fn always_returns(one: &ScriptMove) -> bool
    ensures { result ≡ always_returns (script_move_of one.now) }
{
    one.condition.is_none() && is_return(&one.act)
}

/// Whether the last of the moves is one.
fn ends(moves: &[ScriptMove]) -> bool
    ensures { result ≡ ends (script_moves_of moves.now) }
{
    if moves.is_empty() {
        return false;
    }
    always_returns(&moves[moves.len() - 1])
}

/// The moves of the body that a value has under a key, in a function of this signature.
pub(crate) fn read_body(
    alloc: Global,
    globals: &Globals,
    own: &Sig,
    name: &str,
    value: &Node,
    at: &JsonPath,
) -> Result<Vec<ScriptMove>, ScriptFault>
    requires few { length globals.now.functions.now < 2 ^ 32 }
    ensures ok { IfOk result
        (λ ms. read_body (surroundings_in globals.now own.now) (value_under name.now value.now)
        (under at.now name.now) ≡ read (script_moves_of ms.items)) }
    ensures err { IfErr result
        (Reports (λ p r. read_body (surroundings_in globals.now own.now) (value_under name.now value.now)
        (under at.now name.now) ≡ language.fault p r)) }
{
    let place = at.key(name);
    let items = items_under(alloc, name, value, &place)?;
    let moves = read_moves(alloc, globals, own, &items, &place)?;
    if !ends(&moves) {
        return Err(bad(alloc, &place, Reason::NoReturnAtTheEnd));
    }
    Ok(moves)
}
