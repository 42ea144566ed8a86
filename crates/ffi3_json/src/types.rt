//! Types.
ghost use Rattle.std.specs.Prelude.{◌≡◌, IfOk, IfErr};
ghost use Rattle.serde_json.specs.View.{view};
ghost use Rattle.ffi3_script_spec.specs.Language as language;
ghost use Rattle.ffi3_script_spec.specs.Language.{read, has_arrays, HasShortArrays};
ghost use Rattle.ffi3_types.specs.TreeOf.{tree_of};
ghost use Rattle.ffi3_json.specs.Reports.{Reports};

use crate::fault::bad;
use crate::{Json, JsonPath, Node, Reason, ScriptFault, Where};
use ffi3_types::{FfiType, Fields};
use std::alloc::Global;

/// The type that the value at a place is: the name of one in a version of the language, or an object whose one key
/// `struct` has an array of types, or in version 2 `array` a type and how many elements there are of it. Whether it has
/// a fault of its own, as a struct without elements has, is not looked at.
pub fn read_type(
    alloc: Global,
    value: &Json,
    at: &Where,
    version: u8,
) -> Result<FfiType, ScriptFault>
    requires { HasShortArrays (view value.now) }
    ensures ok { IfOk result (λ t. language.read_type version (view value.now) at.now ≡ read (tree_of t)) }
    ensures err { IfErr result (Reports (λ p r. language.read_type version (view value.now) at.now ≡ language.fault p r)) }
{
    read_type_at(alloc, &Node::of(value), &JsonPath::from(at), version)
}

/// The same, at a place on the way to a value.
#[cycle(types)]
pub fn read_type_at(
    alloc: Global,
    value: &Node,
    at: &JsonPath,
    version: u8,
) -> Result<FfiType, ScriptFault>
    ensures ok { IfOk result (λ t. language.read_type version value.now at.now ≡ read (tree_of t)) }
    ensures err { IfErr result (Reports (λ p r. language.read_type version value.now at.now ≡ language.fault p r)) }
{
    if let Some(name) = value.as_str() {
        return match FfiType::from_name(name, version) {
            Some(ty) => Ok(ty),
            None => Err(bad(alloc, at, Reason::UnknownType)),
        };
    }
    let Some((key, inside)) = value.only_member() else {
        return Err(bad(alloc, at, Reason::NotAType));
    };
    match key {
        "struct" => {
            let types = read_list(alloc, &inside, &at.key("struct"), version)?;
            Ok(FfiType::Struct(types))
        }
        "array" => {
            if !has_arrays(version) {
                return Err(bad(alloc, at, Reason::NotAType));
            }
            read_array(alloc, &inside, at, version)
        }
        _ => Err(bad(alloc, at, Reason::NotAType)),
    }
}

/// Whether a version of the language has arrays: the first has none.
fn has_arrays(version: u8) -> bool
    ensures { result ≡ has_arrays version }
{
    version != 1
}

/// An array, by what stands under its key: its element type, which is read first, and how many elements it has.
#[cycle(types)]
fn read_array(
    alloc: Global,
    value: &Node,
    at: &JsonPath,
    version: u8,
) -> Result<FfiType, ScriptFault>
    ensures ok { IfOk result (λ t. language.read_array version value.now at.now ≡ read (tree_of t)) }
    ensures err { IfErr result (Reports (λ p r. language.read_array version value.now at.now ≡ language.fault p r)) }
{
    let Some(items) = value.items() else {
        return Err(bad(alloc, at, Reason::NotAType));
    };
    if items.len() != 2 {
        return Err(bad(alloc, at, Reason::NotAType));
    }
    let place = at.key("array");
    let ty = read_type_at(alloc, &items.get(0), &place.item(0), version)?;
    let mut element = Fields::with_capacity(alloc, 1)?;
    element.push(ty)?;
    let count = read_count(alloc, &items.get(1), &place.item(1))?;
    Ok(FfiType::Array(element, count))
}

/// The integer from 0 to 4294967295 that the value at a place is.
pub(crate) fn read_count(alloc: Global, value: &Node, at: &JsonPath) -> Result<u32, ScriptFault>
    ensures ok { IfOk result (λ n. language.read_count value.now at.now ≡ read n) }
    ensures err { IfErr result (Reports (λ p r. language.read_count value.now at.now ≡ language.fault p r)) }
{
    let Some(n) = value.as_u64() else {
        return Err(bad(alloc, at, Reason::NotACount));
    };
    if n < 4_294_967_296 {
        Ok(n as u32)
    } else {
        Err(bad(alloc, at, Reason::NotACount))
    }
}

/// The types that an array of them has.
#[cycle(types)]
pub(crate) fn read_list(
    alloc: Global,
    value: &Node,
    at: &JsonPath,
    version: u8,
) -> Result<Fields, ScriptFault>
    ensures ok { IfOk result (λ ts. language.read_types version value.now at.now ≡ read ts) }
    ensures err { IfErr result (Reports (λ p r. language.read_types version value.now at.now ≡ language.fault p r)) }
{
    let Some(items) = value.items() else {
        return Err(bad(alloc, at, Reason::NotAnArray));
    };
    let mut types = Fields::with_capacity(alloc, items.len())?;
    for i in 0..items.len() {
        let ty = read_type_at(alloc, &items.get(i), &at.item(i as u32), version)?;
        types.push(ty)?;
    }
    Ok(types)
}
