//! Types and counts that come one by one.
ghost use Rattle.std.specs.Prelude.{◌≡◌, ◌∷◌, [], OnOk, IfOk, reverse, length};
ghost use Rattle.ffi3_type_spec.specs.Tree.{array_of};
ghost use Rattle.ffi3_types.specs.TreeOf.{tree_of};
ghost use Rattle.ffi3_cdecl_spec.specs.Machine.{arrays, onto};
ghost use Rattle.ffi3_cdecl_spec.specs.OnePass.{with_count};

use ffi3_types::{FfiType, Fields, NoMemory};
use std::alloc::{AllocError, Global};
use std::marker::Model;

/// The most types that a list has room for.
const MOST_TYPES: usize = 0xFFFF_FFFF;
/// How many counts of an array are kept, the outermost. An array of so many levels is too deep, wherever it stands.
const MOST_COUNTS: usize = 17;

/// An array of so many.
fn array(alloc: Global, item: FfiType, count: u32) -> Result<FfiType, NoMemory>
    ensures { IfOk result (λ t. tree_of t ≡ array_of (tree_of item) count) }
{
    let mut items = Fields::new(alloc);
    items.push(item)?;
    Ok(FfiType::Array(items, count))
}

/// Types that come one by one; contracts see the last one first.
#[derive(Drop)]
pub struct Gathered {
    types: Fields,
}

impl Model for Gathered {
    ghost use Rattle.std.specs.Prelude.{List, reverse};
    ghost use Rattle.ffi3_type_spec.specs.Tree.{Tree, tree_list_code};

    ghost Value = { List Tree };

    ghost coded = { tree_list_code };

    ghost view = { λ a. reverse a.types };
}

impl Gathered {
    pub fn new(alloc: Global) -> Gathered
        ensures { result ≡ [] }
    {
        Gathered {
            types: Fields::new(alloc),
        }
    }

    /// One more type.
    #[tactic(auto, using(crate::proofs::Lists::reverse_one))]
    pub fn push(&mut self, item: FfiType) -> Result<(), NoMemory>
        ensures { OnOk result (self.new ≡ tree_of item ∷ self.old) }
    {
        if self.types.len() >= MOST_TYPES {
            return Err(AllocError);
        }
        self.types.push(item)
    }

    /// How many there are.
    #[tactic(auto, using(crate::proofs::Lists::length_reverse))]
    pub fn len(&self) -> u32
        ensures { result ≡ length self.now }
    {
        self.types.len() as u32
    }

    /// All of them, in their order.
    #[tactic(auto, using(crate::proofs::Lists::onto_reverse))]
    pub fn all(self) -> Fields
        ensures { result ≡ onto self [] }
    {
        let Gathered { types } = self;
        types
    }
}

/// The outermost counts of an array; contracts see the last one first.
#[derive(Drop)]
pub struct Counts {
    numbers: Vec<u32>,
}

impl Model for Counts {
    ghost use Rattle.std.specs.Prelude.{List, ℕ, reverse};

    ghost Value = { List ℕ };

    ghost view = { λ a. reverse a.numbers.items };
}

impl Counts {
    /// No counts.
    pub fn new(alloc: Global) -> Counts
        ensures { result ≡ [] }
    {
        Counts {
            numbers: Vec::new(alloc),
        }
    }

    /// One more count, if not so many are there that the array is too deep. One that is too great stands as the
    /// greatest: no declaration with such a number is read.
    pub fn push(&mut self, count: u64) -> Result<(), NoMemory>
        ensures { OnOk result (self.new ≡ with_count count self.old) }
    {
        if self.numbers.len() < MOST_COUNTS {
            self.numbers.push(count.min(0xFFFF_FFFF) as u32)?;
        }
        Ok(())
    }

    /// An array of these counts: the first is that of the outermost.
    #[tactic(auto, using(crate::proofs::Lists::reverse_one))]
    pub fn array_of(self, alloc: Global, item: FfiType) -> Result<FfiType, NoMemory>
        ensures { IfOk result (λ t. tree_of t ≡ arrays self (tree_of item)) }
    {
        let Counts { mut numbers } = self;
        let mut ty = item;
        while let Some(count) = numbers.pop() {
            ty = array(alloc, ty, count)?;
        }
        Ok(ty)
    }
}
