//! The scalars of a type, one of them or all.
ghost use Rattle.std.specs.Prelude.{◌≡◌, ◌<◌, ◌≤◌, ◌+◌, ◌++◌, ◌∷◌, [], IfOk, OnOk, length, map};
ghost use Rattle.ffi3_type_spec.specs.declared.limits.TheConstants.{LARGEST_TYPE};
ghost use Rattle.ffi3_type_spec.specs.Tree.{struct_of, array, trees_of, scalar};
ghost use Rattle.ffi3_type_spec.specs.Layout.{size_of, leaves_of, leaf_at, moved};
ghost use Rattle.ffi3_type_spec.specs.Fault.{IsLaidOut};
ghost use Rattle.ffi3_types.specs.TreeOf.{tree_of};
ghost use Rattle.ffi3_types.specs.LeafOf.{IsLeaf, leaf_of, leaf_in};

use crate::{FfiType, Fields, NoMemory};
use ffi3_type_spec::round_up;
use std::alloc::Global;
use std::marker::Model;

/// A scalar at its offset.
#[derive(Debug, Drop)]
pub struct Leaf {
    pub at: u64,
    pub kind: FfiType,
}

/// All scalars of a type, from the front.
#[derive(Debug, Drop)]
pub struct Leaves {
    leaves: Vec<Leaf>,
}

impl Model for Leaves {
    ghost use Rattle.std.specs.Prelude.{List, All, map};
    ghost use Rattle.ffi3_type_spec.specs.Layout.{Leaf};
    ghost use Rattle.ffi3_types.specs.LeafOf.{IsLeaf, leaf_of, leaf_list_code};

    ghost Value = { List Leaf };

    ghost coded = { leaf_list_code };

    ghost view = { λ l. map leaf_of l.leaves.items };

    ghost invariant = { λ l. All IsLeaf l.leaves.items };
}

impl Leaves {
    /// No leaves.
    fn new(alloc: Global) -> Leaves
        ensures { result ≡ [] }
    {
        Leaves {
            leaves: Vec::new(alloc),
        }
    }

    /// One more leaf.
    fn push(&mut self, leaf: Leaf) -> Result<(), NoMemory>
        requires { IsLeaf leaf }
        ensures { OnOk result (self.new ≡ self.old ++ leaf_of leaf ∷ []) }
    {
        self.leaves.push(leaf)?;
        Ok(())
    }

    /// How many leaves there are.
    pub fn len(&self) -> usize
        ensures { result ≡ length self.now }
    {
        self.leaves.len()
    }

    /// Leaf `i`.
    pub fn get(&self, i: usize) -> &Leaf
        requires { i < length self.now }
        ensures at { result.now.at ≡ (leaf_in self.now i).at }
        ensures kind { tree_of result.now.kind ≡ scalar (leaf_in self.now i).kind }
    {
        &self.leaves[i]
    }
}

impl FfiType {
    /// How many scalars the type has, those of nested structs and arrays included.
    pub fn leaf_count(&self) -> u32
        requires { IsLaidOut (tree_of self.now) }
        ensures { result ≡ length (leaves_of (tree_of self.now)) }
    {
        self.count_leaves()
    }

    /// Leaf `i`, from the front. It goes down the type: where all are wanted, `leaves` finds them
    /// in one pass.
    pub fn leaf(&self, i: u32) -> Leaf
        requires right { IsLaidOut (tree_of self.now) }
        requires in_range { i < length (leaves_of (tree_of self.now)) }
        ensures at { result.at ≡ (leaf_at (tree_of self.now) i).at }
        ensures kind { tree_of result.kind ≡ scalar (leaf_at (tree_of self.now) i).kind }
    {
        match self {
            FfiType::Struct(fields) => fields.find_leaf(i),
            _ => self.find_leaf(i, self.extent().size, self.count_leaves()),
        }
    }

    /// All leaves, from the front, in one pass: time is in proportion to the type as it is written
    /// and to the leaves.
    pub fn leaves(&self, alloc: Global) -> Result<Leaves, NoMemory>
        requires { IsLaidOut (tree_of self.now) }
        ensures { IfOk result (λ leaves. leaves ≡ leaves_of (tree_of self.now)) }
    {
        let mut leaves = Leaves::new(alloc);
        self.push_leaves(0, &mut leaves)?;
        Ok(leaves)
    }

    /// The leaves of a type that stands `from` bytes from the start, after those before it.
    #[cycle(push_leaves)]
    fn push_leaves(&self, from: u64, leaves: &mut Leaves) -> Result<(), NoMemory>
        requires right { IsLaidOut (tree_of self.now) }
        requires low { from + size_of (tree_of self.now) ≤ LARGEST_TYPE }
        ensures { OnOk result
            (leaves.new ≡ leaves.old ++ map (moved from) (leaves_of (tree_of self.now))) }
    {
        let kind = match self {
            FfiType::U8 => FfiType::U8,
            FfiType::S8 => FfiType::S8,
            FfiType::U16 => FfiType::U16,
            FfiType::S16 => FfiType::S16,
            FfiType::U32 => FfiType::U32,
            FfiType::S32 => FfiType::S32,
            FfiType::U64 => FfiType::U64,
            FfiType::S64 => FfiType::S64,
            FfiType::U128 => FfiType::U128,
            FfiType::S128 => FfiType::S128,
            FfiType::Float => FfiType::Float,
            FfiType::Double => FfiType::Double,
            FfiType::Pointer => FfiType::Pointer,
            FfiType::X87 => FfiType::X87,
            FfiType::Binary128 => FfiType::Binary128,
            FfiType::Struct(fields) => {
                return fields.push_leaves(from, leaves);
            }
            FfiType::Array(fields, count) => {
                return fields.push_leaves_of_array(*count, from, leaves);
            }
            FfiType::Void | FfiType::LongDouble | FfiType::Complex | FfiType::Vector => {
                return Ok(());
            }
        };
        leaves.push(Leaf { at: from, kind })
    }

    #[cycle(count_leaves)]
    fn count_leaves(&self) -> u32
        requires { IsLaidOut (tree_of self.now) }
        ensures { result ≡ length (leaves_of (tree_of self.now)) }
    {
        match self {
            FfiType::Void | FfiType::LongDouble | FfiType::Complex | FfiType::Vector => 0,
            FfiType::Struct(fields) => fields.count_leaves(),
            FfiType::Array(fields, count) => fields.count_leaves_of_array(*count),
            FfiType::U8
            | FfiType::S8
            | FfiType::U16
            | FfiType::S16
            | FfiType::U32
            | FfiType::S32
            | FfiType::U64
            | FfiType::S64
            | FfiType::U128
            | FfiType::S128
            | FfiType::Float
            | FfiType::Double
            | FfiType::Pointer
            | FfiType::X87
            | FfiType::Binary128 => 1,
        }
    }

    /// Leaf `i` of a type of this size and number of leaves.
    #[cycle(find_leaf)]
    fn find_leaf(&self, i: u32, size: u64, leaves: u32) -> Leaf
        requires right { IsLaidOut (tree_of self.now) }
        requires in_range { i < length (leaves_of (tree_of self.now)) }
        requires sized { size ≡ size_of (tree_of self.now) }
        requires counted { leaves ≡ length (leaves_of (tree_of self.now)) }
        ensures at { result.at ≡ (leaf_at (tree_of self.now) i).at }
        ensures kind { tree_of result.kind ≡ scalar (leaf_at (tree_of self.now) i).kind }
        ensures inside { result.at < size_of (tree_of self.now) }
    {
        let kind = match self {
            FfiType::U8 => FfiType::U8,
            FfiType::S8 => FfiType::S8,
            FfiType::U16 => FfiType::U16,
            FfiType::S16 => FfiType::S16,
            FfiType::U32 => FfiType::U32,
            FfiType::S32 => FfiType::S32,
            FfiType::U64 => FfiType::U64,
            FfiType::S64 => FfiType::S64,
            FfiType::U128 => FfiType::U128,
            FfiType::S128 => FfiType::S128,
            FfiType::Float => FfiType::Float,
            FfiType::Double => FfiType::Double,
            FfiType::Pointer => FfiType::Pointer,
            FfiType::X87 => FfiType::X87,
            FfiType::Binary128 => FfiType::Binary128,
            FfiType::Struct(fields) => {
                return fields.find_leaf(i);
            }
            FfiType::Array(fields, count) => {
                return fields.find_leaf_of_array(*count, i, size, leaves);
            }
            FfiType::Void | FfiType::LongDouble | FfiType::Complex | FfiType::Vector => {
                unreachable!()
            }
        };
        Leaf { at: 0, kind }
    }
}

impl Fields {
    #[cycle(push_leaves)]
    fn push_leaves(&self, from: u64, leaves: &mut Leaves) -> Result<(), NoMemory>
        requires right { IsLaidOut (struct_of self.now) }
        requires low { from + size_of (struct_of self.now) ≤ LARGEST_TYPE }
        ensures { OnOk result
            (leaves.new ≡ leaves.old ++ map (moved from) (leaves_of (struct_of self.now))) }
    {
        let mut end = 0;
        for k in 0..self.len() {
            let item = self.get(k);
            let extent = item.extent();
            let start = round_up(end, extent.align);
            item.push_leaves(from + start, leaves)?;
            end = start + extent.size;
        }
        Ok(())
    }

    #[cycle(push_leaves)]
    fn push_leaves_of_array(
        &self,
        count: u32,
        from: u64,
        leaves: &mut Leaves,
    ) -> Result<(), NoMemory>
        requires right { IsLaidOut (array (trees_of self.now) count) }
        requires low { from + size_of (array (trees_of self.now) count) ≤ LARGEST_TYPE }
        ensures { OnOk result
            (leaves.new ≡ leaves.old ++ map (moved from) (leaves_of (array (trees_of self.now) count))) }
    {
        let item = self.get(0);
        let size = item.extent().size;
        for i in 0..count {
            item.push_leaves(from + i as u64 * size, leaves)?;
        }
        Ok(())
    }

    #[cycle(count_leaves)]
    fn count_leaves(&self) -> u32
        requires { IsLaidOut (struct_of self.now) }
        ensures { result ≡ length (leaves_of (struct_of self.now)) }
    {
        let mut total = 0;
        for k in 0..self.len() {
            total += self.get(k).count_leaves();
        }
        total
    }

    #[cycle(count_leaves)]
    fn count_leaves_of_array(&self, count: u32) -> u32
        requires { IsLaidOut (array (trees_of self.now) count) }
        ensures { result ≡ length (leaves_of (array (trees_of self.now) count)) }
    {
        count * self.get(0).count_leaves()
    }

    /// Leaf `i` of an array of this size and number of leaves, of which each element has its part.
    #[cycle(find_leaf)]
    fn find_leaf_of_array(&self, count: u32, i: u32, whole: u64, leaves: u32) -> Leaf
        requires right { IsLaidOut (array (trees_of self.now) count) }
        requires in_range { i < length (leaves_of (array (trees_of self.now) count)) }
        requires sized { whole ≡ size_of (array (trees_of self.now) count) }
        requires counted { leaves ≡ length (leaves_of (array (trees_of self.now) count)) }
        ensures at { result.at ≡ (leaf_at (array (trees_of self.now) count) i).at }
        ensures kind { tree_of result.kind ≡ scalar (leaf_at (array (trees_of self.now) count) i).kind }
        ensures inside { result.at < size_of (array (trees_of self.now) count) }
    {
        let item = self.get(0);
        let size = whole / count as u64;
        let each = leaves / count;
        let number = i / each;
        let rest = i % each;
        let start = number as u64 * size;
        let leaf = item.find_leaf(rest, size, each);
        Leaf {
            at: start + leaf.at,
            kind: leaf.kind,
        }
    }

    #[cycle(find_leaf)]
    fn find_leaf(&self, i: u32) -> Leaf
        requires right { IsLaidOut (struct_of self.now) }
        requires in_range { i < length (leaves_of (struct_of self.now)) }
        ensures at { result.at ≡ (leaf_at (struct_of self.now) i).at }
        ensures kind { tree_of result.kind ≡ scalar (leaf_at (struct_of self.now) i).kind }
        ensures inside { result.at < size_of (struct_of self.now) }
    {
        let mut end = 0;
        let mut before = 0;
        for k in 0..self.len() {
            let item = self.get(k);
            let extent = item.extent();
            let start = round_up(end, extent.align);
            let count = item.count_leaves();
            if i < before + count {
                let leaf = item.find_leaf(i - before, extent.size, count);
                return Leaf {
                    at: start + leaf.at,
                    kind: leaf.kind,
                };
            }
            before += count;
            end = start + extent.size;
        }
        unreachable!()
    }
}
