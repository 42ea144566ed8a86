//! Arrays: the items of one under a key, and those of an array of two.
ghost use Rattle.std.specs.Prelude.{◌≡◌, ℕ, ◌≤◌, IfOk, IfErr};
ghost use Rattle.serde_json.specs.Events.{items_len};
ghost use Rattle.ffi3_script_spec.specs.Language as language;
ghost use Rattle.ffi3_script_spec.specs.Language.{read, value_under};
ghost use Rattle.ffi3_script_spec.specs.Bodies.{items_at};
ghost use Rattle.ffi3_json.specs.Reports.{Reports};
ghost use Rattle.ffi3_json.specs.Within.{HasArraysWithin};
ghost use Rattle.ffi3_script.specs.Shapes.{two_items};

use ffi3_json::{JsonPath, Node, Nodes, Reason, ScriptFault, bad};
use std::alloc::Global;

/// The items of the array at a place, which a value has under this key. What is not there is read as null.
pub(crate) fn items_under<'t, 'a>(
    alloc: Global,
    name: &str,
    value: &Node<'t, 'a>,
    at: &JsonPath,
) -> Result<Nodes<'t, 'a>, ScriptFault>
    ensures within { (n : ℕ) → HasArraysWithin n value.now → IfOk result (λ items. items_len items ≤ n) }
    ensures ok { IfOk result (λ items. items_at (value_under name.now value.now) at.now ≡ read items) }
    ensures err { IfErr result
        (Reports (λ p r. items_at (value_under name.now value.now) at.now ≡ language.fault p r)) }
{
    let Some(inside) = value.get(name) else {
        return Err(bad(alloc, at, Reason::NotAnArray));
    };
    let Some(items) = inside.items() else {
        return Err(bad(alloc, at, Reason::NotAnArray));
    };
    Ok(items)
}

/// The items of an array of two. None where the value is no array, or has another number of items.
pub(crate) fn two_items<'t, 'a>(value: &Node<'t, 'a>) -> Option<(Node<'t, 'a>, Node<'t, 'a>)>
    ensures { result ≡ two_items value.now }
{
    let Some(items) = value.items() else {
        return None;
    };
    if items.len() != 2 {
        return None;
    }
    Some((items.get(0), items.get(1)))
}
