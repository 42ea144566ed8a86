//! Size, alignment and the elements' offsets.
ghost use Rattle.std.specs.Prelude.{◌≡◌, ◌+◌, ◌<◌, ◌≤◌, All, length};
ghost use Rattle.ffi3_type_spec.specs.Tree.{struct_of, array, tree_at, trees_of, elements_of};
ghost use Rattle.ffi3_type_spec.specs.Layout.{size_of, align_of, offset_of, layouts, end_before, align_before};
ghost use Rattle.ffi3_type_spec.specs.Fault.{IsLaidOut};
ghost use Rattle.ffi3_types.specs.ScalarSize.{scalar_size_of, value_size_of};
ghost use Rattle.ffi3_types.specs.TreeOf.{tree_of};

use crate::{FfiType, Fields};
use ffi3_type_spec::round_up;

/// Size and alignment in bytes.
#[derive(Clone, Copy)]
pub struct Extent {
    pub size: u64,
    pub align: u64,
}

impl FfiType {
    /// Size in bytes, a multiple of the alignment.
    pub fn size(&self) -> u64
        requires { IsLaidOut (tree_of self.now) }
        ensures { result ≡ size_of (tree_of self.now) }
    {
        self.extent().size
    }

    /// Alignment in bytes: 1, 2, 4, 8 or 16.
    pub fn align(&self) -> u64
        requires { IsLaidOut (tree_of self.now) }
        ensures { result ≡ align_of (tree_of self.now) }
    {
        self.extent().align
    }

    /// Where element `i` of a struct or an array starts, in bytes from its start.
    pub fn offset(&self, i: u32) -> u64
        requires right { IsLaidOut (tree_of self.now) }
        requires in_range { i < length (elements_of (tree_of self.now)) }
        ensures start { result ≡ offset_of (tree_of self.now) i }
        ensures within { result + size_of (tree_at (elements_of (tree_of self.now)) i) ≤ size_of (tree_of self.now) }
    {
        match self {
            FfiType::Struct(fields) => fields.offset(i as usize),
            FfiType::Array(fields, count) => fields.offset_in_array(*count, i),
            _ => unreachable!(),
        }
    }

    /// The bytes of a scalar's value: of x87's format ten, of any other as many as it takes; 0 of any other type.
    pub fn value_size(&self) -> u64
        ensures { result ≡ value_size_of (tree_of self.now) }
    {
        match self {
            FfiType::X87 => 10,
            _ => self.scalar_size(),
        }
    }

    /// The bytes that a scalar takes, which are its alignment too; 0 of any other type.
    pub(crate) fn scalar_size(&self) -> u64
        ensures { result ≡ scalar_size_of (tree_of self.now) }
    {
        match self {
            FfiType::U8 | FfiType::S8 => 1,
            FfiType::U16 | FfiType::S16 => 2,
            FfiType::U32 | FfiType::S32 | FfiType::Float => 4,
            FfiType::U64 | FfiType::S64 | FfiType::Double | FfiType::Pointer => 8,
            FfiType::U128 | FfiType::S128 | FfiType::X87 | FfiType::Binary128 => 16,
            FfiType::Void | FfiType::Struct(_) | FfiType::Array(_, _) => 0,
            FfiType::LongDouble | FfiType::Complex | FfiType::Vector => 0,
        }
    }

    /// Size and alignment, which are found together.
    #[cycle(extent)]
    pub fn extent(&self) -> Extent
        requires { IsLaidOut (tree_of self.now) }
        ensures size { result.size ≡ size_of (tree_of self.now) }
        ensures align { result.align ≡ align_of (tree_of self.now) }
    {
        match self {
            FfiType::Void | FfiType::LongDouble | FfiType::Complex | FfiType::Vector => {
                Extent { size: 0, align: 1 }
            }
            FfiType::U8 | FfiType::S8 => Extent { size: 1, align: 1 },
            FfiType::U16 | FfiType::S16 => Extent { size: 2, align: 2 },
            FfiType::U32 | FfiType::S32 | FfiType::Float => Extent { size: 4, align: 4 },
            FfiType::U64 | FfiType::S64 | FfiType::Double | FfiType::Pointer => {
                Extent { size: 8, align: 8 }
            }
            FfiType::U128 | FfiType::S128 | FfiType::X87 | FfiType::Binary128 => Extent {
                size: 16,
                align: 16,
            },
            FfiType::Struct(fields) => fields.extent(),
            FfiType::Array(fields, count) => fields.extent_of_array(*count),
        }
    }
}

impl Fields {
    /// Where element `i` of the struct with these elements starts, in bytes from its start.
    pub fn offset(&self, i: usize) -> u64
        requires right { IsLaidOut (struct_of self.now) }
        requires in_range { i < length self.now }
        ensures start { result ≡ offset_of (struct_of self.now) i }
        ensures within { result + size_of (tree_at self.now i) ≤ size_of (struct_of self.now) }
    {
        round_up(self.front(i).size, self.get(i).extent().align)
    }

    #[cycle(extent)]
    pub(crate) fn extent(&self) -> Extent
        requires { All IsLaidOut self.now }
        ensures size { result.size ≡ size_of (struct_of self.now) }
        ensures align { result.align ≡ align_of (struct_of self.now) }
    {
        let front = self.front(self.len());
        Extent {
            size: round_up(front.size, front.align),
            align: front.align,
        }
    }

    /// Where element `i` of the array of `count` elements of the first type starts.
    fn offset_in_array(&self, count: u32, i: u32) -> u64
        requires right { IsLaidOut (array (trees_of self.now) count) }
        requires in_range { i < count }
        ensures start { result ≡ offset_of (array (trees_of self.now) count) i }
        ensures within { result + size_of (tree_at self.now 0) ≤ size_of (array (trees_of self.now) count) }
    {
        i as u64 * self.get(0).extent().size
    }

    /// Of the array of `count` elements of the first type.
    #[cycle(extent)]
    fn extent_of_array(&self, count: u32) -> Extent
        requires { IsLaidOut (array (trees_of self.now) count) }
        ensures size { result.size ≡ size_of (array (trees_of self.now) count) }
        ensures align { result.align ≡ align_of (array (trees_of self.now) count) }
    {
        let item = self.get(0).extent();
        Extent {
            size: count as u64 * item.size,
            align: item.align,
        }
    }

    /// Where the first `n` elements end, without padding after them, and their alignment.
    #[cycle(extent)]
    fn front(&self, n: usize) -> Extent
        requires right { All IsLaidOut self.now }
        requires in_range { n ≤ length self.now }
        ensures end { result.size ≡ end_before (layouts (trees_of self.now)) n }
        ensures align { result.align ≡ align_before (layouts (trees_of self.now)) n }
    {
        // fewer than 2^32 elements, so that the end is in range
        let _ = &self.types;
        let mut end = 0;
        let mut align = 1;
        for i in 0..n {
            let item = self.get(i).extent();
            end = round_up(end, item.align) + item.size;
            if item.align > align {
                align = item.align;
            }
        }
        Extent { size: end, align }
    }
}
