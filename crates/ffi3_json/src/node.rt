//! Values of a script, none of whose arrays is too long.
ghost use Rattle.std.specs.Prelude.{◌≡◌, ◌<◌, ◌≤◌, ◌^◌, IfSome, option_map, option_and_then, is_some};
ghost use Rattle.serde_json.specs.Data.{depth, items_depth};
ghost use Rattle.serde_json.specs.Events.{items_len};
ghost use Rattle.serde_json.specs.Find.{get, as_null, as_bool, as_number, as_str, as_array, as_u64};
ghost use Rattle.serde_json.specs.View.{view, number_view};
ghost use Rattle.ffi3_script_spec.specs.Language.{HasShortArrays};
ghost use Rattle.ffi3_json.specs.Parts.{item_at, only_member};
ghost use Rattle.ffi3_json.specs.RefOf.{data_of, IsInRange};

use crate::Json;
use crate::json_ref::{ItemsRef, JsonRef};
use serde_json::Number;
use std::marker::Model;

/// A value of a script. Each of its arrays has fewer than 2^32 items, as those of what `parse` answers have.
#[derive(Drop)]
pub struct Node<'t, 'a> {
    json: JsonRef<'t, 'a>,
}

impl<'t, 'a> Model for Node<'t, 'a> {
    ghost use Rattle.serde_json.specs.Data.{Data};
    ghost use Rattle.ffi3_script_spec.specs.Language.{HasShortArrays};
    ghost use Rattle.ffi3_json.specs.DataCode.{data_code};
    ghost use Rattle.ffi3_json.specs.RefOf.{data_of, IsInRange};

    ghost Value = { Data };

    ghost coded = { data_code };

    ghost view = { λ n. data_of n.json };

    ghost invariant = { λ n. IsInRange n.json × HasShortArrays (data_of n.json) };
}

/// The items of an array of a script: fewer than 2^32, each a `Node`.
#[derive(Drop)]
pub struct Nodes<'t, 'a> {
    items: ItemsRef<'t, 'a>,
}

impl<'t, 'a> Model for Nodes<'t, 'a> {
    ghost use Rattle.std.specs.Prelude.{◌<◌, ◌^◌};
    ghost use Rattle.serde_json.specs.Data.{Items};
    ghost use Rattle.serde_json.specs.Events.{items_len};
    ghost use Rattle.ffi3_script_spec.specs.Language.{HaveShortArrays};
    ghost use Rattle.ffi3_json.specs.DataCode.{items_code};
    ghost use Rattle.ffi3_json.specs.RefOf.{items_of, AreInRange};

    ghost Value = { Items };

    ghost coded = { items_code };

    ghost view = { λ n. items_of n.items };

    ghost invariant = { λ n.
        AreInRange n.items × (items_len (items_of n.items) < 2 ^ 32) × HaveShortArrays (items_of n.items) };
}

impl<'t, 'a> Node<'t, 'a> {
    /// The value itself.
    pub fn of(json: &'t Json) -> Node<'t, 'a>
        requires { HasShortArrays (view json.now) }
        ensures { result ≡ view json.now }
    {
        Node {
            json: JsonRef::Owned(json),
        }
    }

    /// The value that a reference leads to.
    pub(crate) fn at(json: JsonRef<'t, 'a>) -> Node<'t, 'a>
        requires range { IsInRange json }
        requires short { HasShortArrays (data_of json) }
        ensures { result ≡ data_of json.entry }
    {
        Node { json }
    }

    /// The reference that leads to it.
    pub(crate) fn json(&self) -> JsonRef<'t, 'a>
        ensures value { data_of result ≡ self.now }
        ensures range { IsInRange result }
    {
        self.json
    }

    /// Whether this is null.
    pub fn is_null(&self) -> bool
        ensures { result ≡ is_some (as_null self.now) }
    {
        self.json.is_null()
    }

    /// What this says, where it is true or false.
    pub fn as_bool(&self) -> Option<bool>
        ensures { result ≡ as_bool self.now }
    {
        self.json.as_bool()
    }

    /// The number that this is.
    pub fn as_number(&self) -> Option<Number>
        ensures { option_map number_view result ≡ as_number self.now }
    {
        self.json.as_number()
    }

    /// The integer that this is, where it is one from 0 to 2^64 - 1.
    pub fn as_u64(&self) -> Option<u64>
        ensures { result ≡ option_and_then as_u64 (as_number self.now) }
    {
        match self.json.as_number() {
            Some(number) => number.as_u64(),
            None => None,
        }
    }

    /// The text that this is.
    pub fn as_str(&self) -> Option<&'t str>
        ensures { option_map (λ s. s.now) result ≡ as_str self.now }
    {
        self.json.as_str()
    }

    /// The value under a key, where this is an object that has it.
    pub fn get(&self, name: &str) -> Option<Node<'t, 'a>>
        ensures value { result ≡ get name.now self.now }
        // by which a recursion down a value ends
        ensures less { IfSome result (λ d. depth d < depth self.now) }
    {
        match self.json.get(name) {
            Some(json) => Some(Node { json }),
            None => None,
        }
    }

    /// The items, where this is an array.
    pub fn items(&self) -> Option<Nodes<'t, 'a>>
        ensures value { result ≡ as_array self.now }
        ensures less { IfSome result (λ ds. items_depth ds < depth self.now) }
    {
        match self.json.items() {
            Some(items) => Some(Nodes { items }),
            None => None,
        }
    }

    /// Key and value of an object's one member. None where this is no object, or has another number of members.
    pub fn only_member(&self) -> Option<(&'t str, Node<'t, 'a>)>
        ensures value { option_map (λ m. (m.0.now, m.1)) result ≡ only_member self.now }
        ensures less { IfSome result (λ m. depth m.1 < depth self.now) }
    {
        match self.json.only_member() {
            Some((name, json)) => Some((name, Node { json })),
            None => None,
        }
    }
}

impl<'t, 'a> Nodes<'t, 'a> {
    /// How many items there are.
    pub fn len(&self) -> usize
        ensures count { result ≡ items_len self.now }
        ensures bound { items_len self.now < 2 ^ 32 }
    {
        self.items.len()
    }

    /// Item `i`.
    pub fn get(&self, i: usize) -> Node<'t, 'a>
        requires { i < items_len self.now }
        ensures item { result ≡ item_at self.now i }
        ensures less { depth result ≤ items_depth self.now }
    {
        Node {
            json: self.items.get(i),
        }
    }
}
