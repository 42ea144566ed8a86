//! What is raw in this crate: one block that the allocator gave, and the two places where it is taken and given back.
//!
//! A [`Block`] is a pointer and a size, and with them the right to free. The bytes themselves are lodged in a `Vec<u8,
//! Lodged>`: a vector over the very same memory, which never grows, never moves elsewhere and never frees. So a byte
//! has one owner, the vector; the block's end has one owner, the `Block`; and no other code sees a pointer.
//!
//! Why each `unsafe` is safe:
//!
//! - `lodge` wants memory of `size` bytes that nobody else uses, none of which counts as written. `take` hands on what
//!   `allocate` has just given, whole, and keeps no way to reach it but the vector's.
//! - `deallocate` wants a block that this allocator gave, at the size and the alignment that were asked for, that has
//! not
//!   gone back yet, and whose bytes nobody owns. `give` consumes the `Block`, which holds the one right to free its
//! memory; by its contract the vector lies in this block and the allocator is the one it came from; and `dislodge` ends
//! the vector before the memory goes.
//!
//! A `Block` has no `Drop`: to let one go is a compile error, so it ends in `give` alone. No pointer becomes a number,
//! and none is made from one. The size is never 0, since an allocator gives no block of no bytes.

ghost use Rattle.std.specs.Prelude.{◌≡◌, [], IfSome};
ghost use Rattle.ffi3_memory.specs.Block.{IsBlockSize, IsPlaced, block_owns};

use std::alloc::Allocator;
use std::marker::{Model, PhantomData};
use std_alloc::vec::{Lodged, lodge};

/// The right to give the `size` bytes at `ptr` back to the allocator `alloc`. What lies in them is lodged apart.
pub(crate) struct Block<A: Allocator> {
    ptr: *mut u8,
    size: usize,
    marker: PhantomData<A>,
    ghost alloc: { A },
    ghost fits: { IsBlockSize size },
    ghost placed: { IsPlaced ptr },
}

impl<A: Allocator> Model for Block<A> {
    ghost also_owns = { λ b. block_owns (A.dealloc_token b.alloc) b.ptr b.size };
}

impl<A: Allocator> Block<A> {
    /// A new block, in which no byte is written yet.
    pub(crate) fn take(alloc: &A, size: usize) -> Option<(Vec<u8, Lodged>, Block<A>)>
        requires { IsBlockSize size }
        ensures { IfSome result (λ m. (m.0.items ≡ []) × (m.0.len ≡ 0) × (m.0.cap ≡ size)
            × (m.0.ptr ≡ m.1.ptr) × (m.1.size ≡ size) × (m.1.alloc ≡ alloc.now)) }
    {
        match alloc.allocate(size, 1) {
            Ok(ptr) => {
                let bytes = unsafe { lodge(ptr, 0, size) };
                let marker = PhantomData;
                Some((bytes, Block { ptr, size, marker }))
            }
            Err(_) => None,
        }
    }

    /// Frees the block. `bytes` are the ones lodged in it: bytes have nothing to drop, so they end with their memory.
    pub(crate) fn give(self, bytes: Vec<u8, Lodged>, alloc: &A)
        requires { (self.alloc ≡ alloc.now) × (bytes.ptr ≡ self.ptr) × (bytes.cap ≡ self.size) }
    {
        let Block {
            ptr,
            size,
            marker: _,
        } = self;
        let _len = bytes.dislodge();
        unsafe { alloc.deallocate(ptr, size, 1) }
    }
}
