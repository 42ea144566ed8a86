//! Reading a name: whether a text may be one, and whether it is new.
ghost use Rattle.std.specs.Prelude.{◌≡◌, IfOk, IfErr, string_bytes};
ghost use Rattle.std.specs.List.{list_all};
ghost use Rattle.serde_json.specs.Find.{as_str};
ghost use Rattle.ffi3_script_spec.specs.Language as language;
ghost use Rattle.ffi3_script_spec.specs.Language.{read};
ghost use Rattle.ffi3_script_spec.specs.Bodies.{is_name_byte, is_name, new_name};
ghost use Rattle.ffi3_json.specs.Reports.{Reports};
ghost use Rattle.ffi3_script.specs.Taken.{is_taken};

use crate::names::NameIndex;
use ffi3_json::{JsonPath, Node, Reason, ScriptFault, bad};
use std::alloc::Global;

/// Whether a byte is an ASCII letter, a digit or `_`.
fn is_name_byte(byte: u8) -> bool
    ensures { result ≡ is_name_byte byte }
{
    byte.is_ascii_alphanumeric() || byte == b'_'
}

/// Whether each byte is one of those.
fn has_name_bytes(bytes: &[u8]) -> bool
    ensures { result ≡ list_all is_name_byte bytes.now }
{
    for byte in bytes {
        if !is_name_byte(*byte) {
            return false;
        }
    }
    true
}

/// Whether a text is 1 to 32 such bytes.
fn is_name(name: &str) -> bool
    ensures { result ≡ is_name name.now }
{
    let bytes = name.as_bytes();
    if bytes.len() < 1 || bytes.len() > 32 {
        return false;
    }
    has_name_bytes(bytes)
}

/// The name that the value at a place is, where it is a name that nothing has yet.
pub(crate) fn new_name(
    alloc: Global,
    names: &NameIndex,
    value: &Node,
    at: &JsonPath,
) -> Result<String, ScriptFault>
    ensures ok { IfOk result
        (λ name. new_name (is_taken names.now) (as_str value.now) at.now ≡ read (string_bytes name)) }
    ensures err { IfErr result
        (Reports (λ p r. new_name (is_taken names.now) (as_str value.now) at.now ≡ language.fault p r)) }
{
    let Some(name) = value.as_str() else {
        return Err(bad(alloc, at, Reason::BadName));
    };
    if !is_name(name) {
        return Err(bad(alloc, at, Reason::BadName));
    }
    if names.find(name).is_some() {
        return Err(bad(alloc, at, Reason::NameTwice));
    }
    Ok(String::from_str(alloc, name)?)
}
