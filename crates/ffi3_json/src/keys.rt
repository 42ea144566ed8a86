//! The keys of an object.
ghost use Rattle.std.specs.Prelude.{◌≡◌, ◌<◌, ◌++◌, ◌∷◌, [], OnOk, OnErr, length, map, slice_get, Some, option_map};
ghost use Rattle.ffi3_script_spec.specs.Language as language;
ghost use Rattle.ffi3_script_spec.specs.Language.{is_key_of, first_missing};
ghost use Rattle.ffi3_json.specs.KeyOf.{key_of};
ghost use Rattle.ffi3_json.specs.RefOf.{data_of, IsInRange};

use crate::NoMemory;
use crate::json_ref::JsonRef;
use std::alloc::Global;
use std::marker::Model;

/// A key that an object may have, or must have where it is not optional.
#[derive(Clone, Copy, Debug)]
pub struct Key<'a> {
    pub name: &'a str,
    pub optional: bool,
}

/// A key that an object must have.
pub fn required<'a>(name: &'a str) -> Key<'a>
    ensures { key_of result ≡ language.required name.now }
{
    Key {
        name,
        optional: false,
    }
}

/// A key that an object may have.
pub fn optional<'a>(name: &'a str) -> Key<'a>
    ensures { key_of result ≡ language.optional name.now }
{
    Key {
        name,
        optional: true,
    }
}

/// An object's keys, in the order in which they are read.
#[derive(Debug, Drop)]
pub struct Keys<'a> {
    keys: Vec<Key<'a>>,
}

impl<'a> Model for Keys<'a> {
    ghost use Rattle.std.specs.Prelude.{List, map};
    ghost use Rattle.ffi3_script_spec.specs.Language as language;
    ghost use Rattle.ffi3_json.specs.KeyOf.{key_of};

    ghost Value = { List language.Key };

    ghost view = { λ k. map key_of k.keys.items };
}

impl<'a> Keys<'a> {
    /// No keys.
    pub fn new(alloc: Global) -> Keys<'a>
        ensures { result ≡ [] }
    {
        Keys {
            keys: Vec::new(alloc),
        }
    }

    /// How many keys there are.
    pub fn len(&self) -> usize
        ensures { result ≡ length self.now }
    {
        self.keys.len()
    }

    /// Key `i`.
    pub fn get(&self, i: usize) -> &Key<'a>
        requires { i < length self.now }
        ensures { slice_get self.now i ≡ Some (key_of result.now) }
    {
        &self.keys[i]
    }

    /// One more key at the end. Refused, it leaves the list as it was.
    pub fn push(&mut self, key: Key<'a>) -> Result<(), NoMemory>
        ensures ok { OnOk result (self.new ≡ self.old ++ key_of key.entry ∷ []) }
        ensures err { OnErr result (self.new ≡ self.old) }
    {
        self.keys.push(key)?;
        Ok(())
    }

    /// All of them.
    pub(crate) fn as_slice(&self) -> &[Key<'a>]
        ensures { map key_of result.now ≡ self.now }
    {
        self.keys.as_slice()
    }
}

/// Whether a name is one of the keys.
pub(crate) fn is_key_of(keys: &[Key], name: &str) -> bool
    ensures { result ≡ is_key_of (map key_of keys.now) name.now }
{
    for key in keys {
        if key.name == name {
            return true;
        }
    }
    false
}

/// The first key that is not optional, and not there.
pub(crate) fn first_missing<'a>(keys: &[Key<'a>], value: JsonRef) -> Option<&'a str>
    requires { IsInRange value }
    ensures { option_map (λ s. s.now) result ≡ first_missing (map key_of keys.now) (data_of value.entry) }
{
    for key in keys {
        if !key.optional && value.get(key.name).is_none() {
            return Some(key.name);
        }
    }
    None
}
