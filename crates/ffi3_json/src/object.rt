//! Whether a value is an object of these keys.
ghost use Rattle.std.specs.Prelude.{◌≡◌, map, IfErr, OnOk};
ghost use Rattle.serde_json.specs.View.{view};
ghost use Rattle.ffi3_script_spec.specs.Language as language;
ghost use Rattle.ffi3_script_spec.specs.Language.{read};
ghost use Rattle.ffi3_json.specs.KeyOf.{key_of};
ghost use Rattle.ffi3_json.specs.RefOf.{data_of, IsInRange};
ghost use Rattle.ffi3_json.specs.Reports.{Reports};

use crate::fault::bad;
use crate::json_ref::JsonRef;
use crate::keys::first_missing;
use crate::{Json, JsonPath, Key, Keys, Node, Reason, ScriptFault, Where};
use std::alloc::Global;

/// Whether the value is an object, has no key but these, and each that is not optional. The first of this that is not
/// so is the fault; of keys that are missing the first in the order of `keys`.
pub fn check_object(alloc: Global, value: &Json, keys: &Keys, at: &Where) -> Result<(), ScriptFault>
    ensures ok { OnOk result (language.check_object (view value.now) keys.now at.now ≡ read tt) }
    ensures err { IfErr result (Reports (λ p r. language.check_object (view value.now) keys.now at.now ≡ language.fault p r)) }
{
    check_reference(
        alloc,
        JsonRef::Owned(value),
        keys.as_slice(),
        &JsonPath::from(at),
    )
}

/// The same of a value of a script, at a place on the way to it.
pub fn check_object_at(
    alloc: Global,
    value: &Node,
    keys: &[Key],
    at: &JsonPath,
) -> Result<(), ScriptFault>
    ensures ok { OnOk result (language.check_object value.now (map key_of keys.now) at.now ≡ read tt) }
    ensures err { IfErr result
        (Reports (λ p r. language.check_object value.now (map key_of keys.now) at.now ≡ language.fault p r)) }
{
    check_reference(alloc, value.json(), keys, at)
}

/// The same of a value by reference.
fn check_reference(
    alloc: Global,
    value: JsonRef,
    keys: &[Key],
    at: &JsonPath,
) -> Result<(), ScriptFault>
    requires { IsInRange value }
    ensures ok { OnOk result (language.check_object (data_of value.entry) (map key_of keys.now) at.now ≡ read tt) }
    ensures err { IfErr result
        (Reports (λ p r. language.check_object (data_of value.entry) (map key_of keys.now) at.now
        ≡ language.fault p r)) }
{
    let Some(has_only) = value.has_only(keys) else {
        return Err(bad(alloc, at, Reason::NotAnObject));
    };
    if !has_only {
        return Err(bad(alloc, at, Reason::UnknownKey));
    }
    if let Some(missing) = first_missing(keys, value) {
        let name = String::from_str(alloc, missing)?;
        return Err(bad(alloc, at, Reason::MissingKey { name }));
    }
    Ok(())
}
