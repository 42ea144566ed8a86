//! Values, and their bytes, numbers and texts.
#![tactic(auto)]

ghost use Rattle.std.specs.Prelude.{◌≡◌, ◌+◌, ◌<◌, ◌≤◌, ◌^◌, ◌++◌, ◌∷◌, [], length, OnErr, OnOk, slice_index_or};
ghost use Rattle.ffi3_type_spec.specs.Value.{values_of, value_nodes, all_value_nodes, void_value};
ghost use Rattle.ffi3_values.specs.ValueOf.{value_of};

mod copy;
mod from_bytes;
mod numbers;
mod shape;
mod text;
mod write;

pub use ffi3_types::{Bytes, NoMemory};
pub use from_bytes::{differ_in_padding_alone, value_from_bytes, zero};
pub use numbers::{add, bits, cast, integer, number, of_bits, sub, widen, widen_from_32};
pub use shape::fits;
use std::alloc::Global;
use std::marker::Model;
pub use text::value_text;
pub use write::write_bytes;

/// A value of some type: nothing, the bytes of a scalar in memory order, or the values of the elements of a struct
/// or an array.
#[cycle(values)]
#[derive(Debug, Drop)]
pub enum Value {
    Void,
    Leaf(Bytes),
    List(Values),
}

/// The values of the elements of a struct or an array, or of a signature's arguments: fewer than 2^32.
#[cycle(values)]
#[derive(Debug, Drop)]
pub struct Values {
    values: Vec<Value>,
}

impl Model for Values {
    ghost use Rattle.std.specs.Prelude.{List, map, length, ◌<◌, ◌^◌};
    ghost use Rattle.ffi3_type_spec.specs.Value.{ValueTree, value_list_code, values_of, all_value_nodes};

    ghost Value = { List ValueTree };

    ghost coded = { value_list_code };

    ghost use Rattle.ffi3_values.specs.ValueOf.{value_of};

    ghost view = { λ a. map value_of a.values.items };

    ghost invariant = { λ a. length a.values.items < 2 ^ 32 };

    ghost size = { λ vs. all_value_nodes (values_of vs) };

    ghost use Rattle.ffi3_values.specs.Measure.{most_le-nodes};

    ghost size_decreases = { λ a h. most_le-nodes a.values.items };
}

impl Values {
    /// No values.
    pub fn new(alloc: Global) -> Values
        ensures { result ≡ [] }
    {
        Values {
            values: Vec::new(alloc),
        }
    }

    /// How many values there are.
    pub fn len(&self) -> usize
        ensures count { result ≡ length self.now }
        ensures bound { length self.now < 2 ^ 32 }
    {
        self.values.len()
    }

    /// One more value. Refused, it leaves the list as it was.
    pub fn push(&mut self, item: Value) -> Result<(), NoMemory>
        requires { length self.old + 1 < 2 ^ 32 }
        ensures ok { OnOk result (self.new ≡ self.old ++ value_of item ∷ []) }
        ensures err { OnErr result (self.new ≡ self.old) }
    {
        self.values.push(item)?;
        Ok(())
    }

    /// Value `i`.
    pub fn get(&self, i: usize) -> &Value
        requires { i < length self.now }
        ensures element { value_of result.now ≡ slice_index_or self.now i void_value }
        // by which a recursion down a value ends
        ensures fewer_nodes { value_nodes (value_of result.now) ≤ all_value_nodes (values_of self.now) }
    {
        &self.values[i]
    }
}
