//! The elements of a struct or an array, one after another.
ghost use Rattle.std.specs.Prelude.{◌≡◌, ◌<◌, ◌≤◌, ◌^◌, length, replicate};
ghost use Rattle.ffi3_type_spec.specs.Tree.{tree_at, trees_of, nodes, all_nodes};
ghost use Rattle.ffi3_types.specs.TreeOf.{tree_of};

use crate::{FfiType, Fields};
use std::marker::Model;

/// The types of the elements of a struct or an array. An array's one type is each of them.
#[derive(Drop)]
pub struct Members<'a> {
    fields: &'a Fields,
    // of an array, how many elements it has
    count: Option<u32>,
}

impl<'a> Model for Members<'a> {
    ghost use Rattle.std.specs.Prelude.{List};
    ghost use Rattle.ffi3_type_spec.specs.Tree.{Tree, tree_list_code};
    ghost use Rattle.ffi3_types.specs.Members.{members_of, HasMembers};

    ghost Value = { List Tree };

    ghost coded = { tree_list_code };

    ghost view = { λ m. members_of m.fields.now m.count };

    ghost invariant = { λ m. HasMembers m.fields.now m.count };
}

impl<'a> Members<'a> {
    /// The elements of a struct with these types.
    pub fn of_struct(fields: &'a Fields) -> Members<'a>
        ensures { result ≡ fields.now }
    {
        Members {
            fields,
            count: None,
        }
    }

    /// The elements of an array of so many of the first type.
    pub fn of_array(fields: &'a Fields, count: u32) -> Members<'a>
        requires { 0 < length fields.now }
        ensures { result ≡ replicate count (tree_at fields.now 0) }
    {
        Members {
            fields,
            count: Some(count),
        }
    }

    /// How many elements there are.
    pub fn len(&self) -> usize
        ensures count { result ≡ length self.now }
        ensures bound { length self.now < 2 ^ 32 }
    {
        match self.count {
            None => self.fields.len(),
            Some(count) => count as usize,
        }
    }

    /// The type of element `i`.
    pub fn get(&self, i: usize) -> &FfiType
        requires { i < length self.now }
        ensures element { tree_of result.now ≡ tree_at self.now i }
        // by which a recursion down a type ends
        ensures fewer_nodes { nodes (tree_of result.now) ≤ all_nodes (trees_of self.now) }
    {
        match self.count {
            None => self.fields.get(i),
            Some(_) => self.fields.get(0),
        }
    }
}
