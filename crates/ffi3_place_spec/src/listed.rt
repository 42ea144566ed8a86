//! A list of which contracts see the items.
ghost use Rattle.std.specs.Prelude.{◌≡◌, ◌<◌, ◌++◌, [], ◌∷◌, length, slice_index_or, slice_set, IfOk, OnOk, OnErr};

use crate::NoMemory;
use std::alloc::Global;
use std::marker::Model;

/// A vector of which contracts see the items, in order: pieces of a value, places of arguments, leaves of a layout.
#[derive(Debug, Drop)]
pub struct Listed<T: Drop> {
    items: Vec<T>,
}

impl<T: Drop> Model for Listed<T> {
    ghost use Rattle.std.specs.Prelude.{List};

    ghost Value = { List T };

    ghost view = { λ f. f.items.items };
}

impl<T: Drop> Listed<T> {
    /// None.
    pub fn new(alloc: Global) -> Listed<T>
        ensures { result ≡ [] }
    {
        Listed {
            items: Vec::new(alloc),
        }
    }

    /// None, with room for so many.
    pub fn with_capacity(alloc: Global, capacity: usize) -> Result<Listed<T>, NoMemory>
        ensures { IfOk result (λ l. l ≡ []) }
    {
        Ok(Listed {
            items: Vec::with_capacity(alloc, capacity)?,
        })
    }

    /// One more. Refused, it drops the item and leaves the list as it was.
    pub fn push(&mut self, item: T) -> Result<(), NoMemory>
        ensures ok { OnOk result (self.new ≡ self.old ++ item ∷ []) }
        ensures err { OnErr result (self.new ≡ self.old) }
    {
        self.items.push(item)?;
        Ok(())
    }

    /// How many there are.
    pub fn len(&self) -> usize
        ensures { result ≡ length self.now }
    {
        self.items.len()
    }

    /// Item `i`.
    pub fn get(&self, i: usize) -> &T
        requires { i < length self.now }
        ensures { result.now ≡ slice_index_or self.now i result.now }
    {
        &self.items[i]
    }

    /// Puts another item in the place of item `i`, which is dropped.
    pub fn set(&mut self, i: usize, item: T)
        requires { i < length self.old }
        ensures { self.new ≡ slice_set self.old i item }
    {
        self.items[i] = item;
    }
}
