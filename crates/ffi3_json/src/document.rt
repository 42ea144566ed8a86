//! From bytes to a JSON value: one that owns its texts, or a document, whose texts are borrowed.
ghost use Rattle.std.specs.Prelude.{◌≡◌, ◌+◌, IfOk, IfErr, is_some};
ghost use Rattle.json.specs.Value.{value_view, items_view, members_view};
ghost use Rattle.serde_json.specs.Data.{no_members};
ghost use Rattle.serde_json.specs.Read.{of_json, of_items, of_members};
ghost use Rattle.serde_json.specs.View.{view};
ghost use Rattle.ffi3_script_spec.specs.Language.{HasShortArrays};
ghost use Rattle.ffi3_script_spec.specs.Reading.{IsJson, max_length};
ghost use Rattle.ffi3_json.specs.Reports.{IsCauseOf};
ghost use Rattle.ffi3_json.specs.Within.{HasArraysWithin};

use crate::json_ref::JsonRef;
use crate::number::number_of;
use crate::{Json, MAX_LENGTH, Node, ScriptFault};
use json::{Error, Reader, Scratch, Value};
use std::alloc::Global;
use std::marker::Model;

/// The value that the bytes are a JSON text of. More than 1,048,576 bytes are `TooLong`; what is no JSON in UTF-8
/// (RFC 8259) is `BadJson`. An array of the value has at most 1,048,577 items.
pub fn parse(alloc: Global, bytes: &[u8]) -> Result<Json, ScriptFault>
    ensures ok { IfOk result (λ v. IsJson bytes.now (view v)) }
    ensures short { IfOk result (λ v. HasShortArrays (view v)) }
    ensures few { IfOk result (λ v. HasArraysWithin (max_length + 1) (view v)) }
    ensures err { IfErr result (IsCauseOf bytes.now) }
{
    if bytes.len() > MAX_LENGTH {
        return Err(ScriptFault::TooLong);
    }
    match Json::from_slice(alloc, bytes) {
        Ok(value) => Ok(value),
        Err(error) => if error.is_memory() {
            Err(ScriptFault::NoMemory)
        } else {
            Err(ScriptFault::BadJson)
        },
    }
}

/// How deep arrays and objects of a text nest at most.
const MAX_DEPTH: usize = 127;

/// The value of a JSON text. Its texts and numbers are borrowed: from the text, or where they have escapes from a
/// scratch.
#[derive(Drop)]
pub struct Document<'a> {
    value: Value<'a>,
}

impl<'a> Model for Document<'a> {
    ghost use Rattle.json.specs.Value.{value_view};
    ghost use Rattle.serde_json.specs.Data.{Data};
    ghost use Rattle.ffi3_script_spec.specs.Language.{HasShortArrays};
    ghost use Rattle.ffi3_json.specs.DataCode.{data_code};
    ghost use Rattle.ffi3_json.specs.InText.{data_in, HasNumbers};

    ghost Value = { Data };

    ghost coded = { data_code };

    ghost view = { λ d. data_in (value_view d.value) };

    ghost invariant = { λ d. HasNumbers (value_view d.value) × HasShortArrays (data_in (value_view d.value)) };
}

impl<'a> Document<'a> {
    /// The document that the bytes are a JSON text of, as `parse` says it of their value.
    pub fn read(
        alloc: Global,
        bytes: &'a [u8],
        scratch: &'a mut Scratch,
    ) -> Result<Document<'a>, ScriptFault>
        ensures ok { IfOk result (IsJson bytes.now) }
        ensures few { IfOk result (HasArraysWithin (max_length + 1)) }
        ensures err { IfErr result (IsCauseOf bytes.now) }
    {
        if bytes.len() > MAX_LENGTH {
            return Err(ScriptFault::TooLong);
        }
        let Ok(text) = std::str::from_utf8(bytes) else {
            return Err(ScriptFault::BadJson);
        };
        let Ok(mut reader) = Reader::new(text, scratch) else {
            return Err(ScriptFault::NoMemory);
        };
        let value = match Value::read(alloc, &mut reader, MAX_DEPTH) {
            Ok(value) => value,
            Err(Error::OutOfMemory) => return Err(ScriptFault::NoMemory),
            Err(_) => return Err(ScriptFault::BadJson),
        };
        if reader.next().is_some() {
            return Err(ScriptFault::BadJson);
        }
        if !has_numbers(&value) {
            return Err(ScriptFault::BadJson);
        }
        Ok(Document { value })
    }

    /// The value itself.
    pub fn root(&self) -> Node<'_, 'a>
        ensures { result ≡ self.now }
    {
        Node::at(JsonRef::Borrowed(&self.value))
    }
}

/// Whether no number of a value is too large for a float.
#[cycle(numbers)]
fn has_numbers(value: &Value) -> bool
    ensures { result ≡ is_some (of_json (value_view value.now)) }
{
    match value {
        Value::Null => true,
        Value::Bool(_) => true,
        Value::Number(text) => number_of(text).is_some(),
        Value::String(_) => true,
        Value::Array(items) => items_have_numbers(items),
        Value::Object(members) => members_have_numbers(members),
    }
}

/// The same of items.
#[cycle(numbers)]
fn items_have_numbers(items: &Vec<Value>) -> bool
    ensures { result ≡ is_some (of_items (items_view items.now.items)) }
{
    for item in items {
        if !has_numbers(item) {
            return false;
        }
    }
    true
}

/// The same of members.
#[cycle(numbers)]
fn members_have_numbers(members: &Vec<(&str, Value)>) -> bool
    ensures { result ≡ is_some (of_members (members_view members.now.items) no_members) }
{
    for member in members {
        if !has_numbers(&member.1) {
            return false;
        }
    }
    true
}
