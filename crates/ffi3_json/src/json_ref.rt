//! JSON values by reference.
ghost use Rattle.std.specs.Prelude.{◌≡◌, ◌<◌, IfSome, map, option_map, is_some};
ghost use Rattle.serde_json.specs.Events.{items_len};
ghost use Rattle.serde_json.specs.Find.{get, as_null, as_bool, as_number, as_str, as_array, as_object};
ghost use Rattle.serde_json.specs.View.{number_view};
ghost use Rattle.ffi3_json.specs.KeyOf.{key_of};
ghost use Rattle.ffi3_script_spec.specs.Language.{has_only};
ghost use Rattle.ffi3_json.specs.Parts.{item_at, only_member};
ghost use Rattle.ffi3_json.specs.RefOf.{data_of, items_of, IsInRange, AreInRange};

use crate::Json;
use crate::borrowed::{items_of, members_of, only_member};
use crate::keys::Key;
use crate::members::{borrowed_have_only, owned_have_only, owned_only_member};
use crate::number::number_of;
use json::Value;
use serde_json::Number;

/// A JSON value: one that owns its texts, or one that borrows them from the text that it was read from.
#[derive(Clone, Copy)]
pub(crate) enum JsonRef<'t, 'a> {
    Owned(&'t Json),
    Borrowed(&'t Value<'a>),
}

/// The items of an array of such values.
#[derive(Clone, Copy)]
pub(crate) enum ItemsRef<'t, 'a> {
    Owned(&'t Vec<Json>),
    Borrowed(&'t Vec<Value<'a>>),
}

impl<'t, 'a> JsonRef<'t, 'a> {
    pub(crate) fn is_null(self) -> bool
        requires { IsInRange self }
        ensures { result ≡ is_some (as_null (data_of self.entry)) }
    {
        match self {
            JsonRef::Owned(json) => json.is_null(),
            JsonRef::Borrowed(value) => value.is_null(),
        }
    }

    pub(crate) fn as_bool(self) -> Option<bool>
        requires { IsInRange self }
        ensures { result ≡ as_bool (data_of self.entry) }
    {
        match self {
            JsonRef::Owned(json) => json.as_bool(),
            JsonRef::Borrowed(value) => value.as_bool(),
        }
    }

    pub(crate) fn as_number(self) -> Option<Number>
        requires { IsInRange self }
        ensures { option_map number_view result ≡ as_number (data_of self.entry) }
    {
        match self {
            JsonRef::Owned(json) => match json.as_number() {
                Some(number) => Some(*number),
                None => None,
            },
            JsonRef::Borrowed(value) => match value.as_number() {
                Some(text) => number_of(text),
                None => None,
            },
        }
    }

    pub(crate) fn as_str(self) -> Option<&'t str>
        requires { IsInRange self }
        ensures { option_map (λ s. s.now) result ≡ as_str (data_of self.entry) }
    {
        match self {
            JsonRef::Owned(json) => json.as_str(),
            JsonRef::Borrowed(value) => match value.as_str() {
                Some(text) => Some(text),
                None => None,
            },
        }
    }

    /// The value under a key, where this is an object that has it.
    pub(crate) fn get(self, name: &str) -> Option<JsonRef<'t, 'a>>
        requires { IsInRange self }
        ensures value { option_map data_of result ≡ get name.now (data_of self.entry) }
        ensures range { IfSome result IsInRange }
    {
        match self {
            JsonRef::Owned(json) => match json.get(name) {
                Some(inside) => Some(JsonRef::Owned(inside)),
                None => None,
            },
            JsonRef::Borrowed(value) => match value.get(name) {
                Some(inside) => Some(JsonRef::Borrowed(inside)),
                None => None,
            },
        }
    }

    /// Whether each member has one of these keys, where this is an object.
    pub(crate) fn has_only(self, keys: &[Key]) -> Option<bool>
        requires { IsInRange self }
        ensures { result ≡ option_map (has_only (map key_of keys.now)) (as_object (data_of self.entry)) }
    {
        match self {
            JsonRef::Owned(json) => match json.as_object() {
                Some(members) => Some(owned_have_only(members, keys)),
                None => None,
            },
            JsonRef::Borrowed(value) => match members_of(value) {
                Some(members) => Some(borrowed_have_only(members, keys)),
                None => None,
            },
        }
    }

    /// The items, where this is an array.
    pub(crate) fn items(self) -> Option<ItemsRef<'t, 'a>>
        requires { IsInRange self }
        ensures value { option_map items_of result ≡ as_array (data_of self.entry) }
        ensures range { IfSome result AreInRange }
    {
        match self {
            JsonRef::Owned(json) => match json.as_array() {
                Some(items) => Some(ItemsRef::Owned(items)),
                None => None,
            },
            JsonRef::Borrowed(value) => match items_of(value) {
                Some(items) => Some(ItemsRef::Borrowed(items)),
                None => None,
            },
        }
    }

    /// Key and value of an object's one member. None where this is no object, or has another number of members.
    pub(crate) fn only_member(self) -> Option<(&'t str, JsonRef<'t, 'a>)>
        requires { IsInRange self }
        ensures value { option_map (λ m. (m.0.now, data_of m.1)) result ≡ only_member (data_of self.entry) }
        ensures range { IfSome result (λ m. IsInRange m.1) }
    {
        match self {
            JsonRef::Owned(json) => {
                let Some(members) = json.as_object() else {
                    return None;
                };
                match owned_only_member(members) {
                    Some((name, inside)) => Some((name, JsonRef::Owned(inside))),
                    None => None,
                }
            }
            JsonRef::Borrowed(value) => match only_member(value) {
                Some((name, inside)) => Some((name, JsonRef::Borrowed(inside))),
                None => None,
            },
        }
    }
}

impl<'t, 'a> ItemsRef<'t, 'a> {
    /// How many items there are.
    pub(crate) fn len(self) -> usize
        requires { AreInRange self }
        ensures { result ≡ items_len (items_of self.entry) }
    {
        match self {
            ItemsRef::Owned(items) => items.len(),
            ItemsRef::Borrowed(items) => items.len(),
        }
    }

    /// Item `i`.
    pub(crate) fn get(self, i: usize) -> JsonRef<'t, 'a>
        requires range { AreInRange self }
        requires within { i < items_len (items_of self) }
        ensures item { data_of result ≡ item_at (items_of self.entry) i }
        ensures range { IsInRange result }
    {
        match self {
            ItemsRef::Owned(items) => JsonRef::Owned(&items[i]),
            ItemsRef::Borrowed(items) => JsonRef::Borrowed(&items[i]),
        }
    }
}
