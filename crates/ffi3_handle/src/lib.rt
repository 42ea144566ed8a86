//! A handle by which C keeps a value of the library: one pointer, null where nothing is kept.
#![tactic(auto)]

ghost use Rattle.std.specs.Prelude.{◌≡◌, Option};
ghost use Rattle.std.specs.Coded.{coded_option};
ghost use Rattle.std.specs.declared.option.Option.TheVariants.{None, Some};
ghost use Rattle.ffi3_handle.specs.declared.kept.Kept.{Kept as KeptValue};
ghost use Rattle.ffi3_handle.specs.contracts.kept.Kept.{the_row as kept_row};
ghost use Rattle.ffi3_handle.specs.Kept.{is_kept, kept_in, loose_in};

use std::alloc::Global;
use std::marker::Model;
use std::mem;
use std::ptr::null_mut;

mod kept;
mod loose;

pub use kept::Kept;
use loose::Loose;

/// What a handle points to, of which C knows nothing.
#[repr(C)]
pub struct Opaque {
    byte: u8,
}

/// What C has.
#[repr(C)]
pub struct Handle {
    at: *mut Opaque,
    alloc: Global,
    pub ghost kept: { Option KeptValue } by { coded_option kept_row.coded },
}

impl Model for Handle {
    ghost use Rattle.ffi3_handle.specs.contracts.kept.Kept.{the_row as kept_row};
    ghost use Rattle.ffi3_handle.specs.Owned.{kept_owns};

    ghost also_owns = { λ h. kept_owns kept_row h.alloc h.at h.kept };
}

impl Handle {
    /// A handle that keeps nothing.
    pub fn none(alloc: Global) -> Handle
        ensures { result.kept ≡ None }
    {
        Handle {
            at: null_mut(),
            alloc,
        }
    }

    fn from_loose(loose: Loose<Kept, Global>) -> Handle
        ensures { result.kept ≡ Some loose.value }
    {
        let Loose { at, alloc } = loose;
        Handle {
            at: at as *mut Opaque,
            alloc,
        }
    }

    fn into_loose(self) -> Option<Loose<Kept, Global>>
        ensures { loose_in result ≡ self.kept }
    {
        let Handle { at, alloc } = self;
        if at.is_null() {
            None
        } else {
            Some(Loose {
                at: at as *mut Kept,
                alloc,
            })
        }
    }

    /// Whether something is kept.
    pub fn is_kept(&mut self) -> bool
        ensures answer { result ≡ is_kept self.old.kept }
        ensures same { self.new ≡ self.old }
    {
        let at = self.at;
        !at.is_null()
    }
}

// What is kept goes to another thread with its handle.
unsafe impl Send for Handle {}

/// What it is called with, which may go to another thread.
fn sendable<T: Send>(it: T) -> T
    ensures { result ≡ it }
{
    it
}

impl Handle {
    /// A handle that keeps the value in the box.
    pub fn of(kept: Box<Kept>) -> Handle
        ensures { result.kept ≡ Some kept.value }
    {
        sendable(Handle::from_loose(Loose::of(kept)))
    }

    /// What is kept, in its box.
    pub fn into_box(self) -> Option<Box<Kept>>
        ensures { kept_in result ≡ self.kept }
    {
        match self.into_loose() {
            Some(loose) => Some(loose.into_box()),
            None => None,
        }
    }

    /// Keeps the value in the box. What was kept before is dropped.
    pub fn put(&mut self, kept: Box<Kept>)
        ensures { self.new.kept ≡ Some kept.value }
    {
        let old = mem::replace(self, Handle::of(kept));
        drop(old.into_box());
    }

    /// Drops what is kept, if anything is.
    pub fn release(&mut self, alloc: Global)
        ensures { self.new.kept ≡ None }
    {
        let old = mem::replace(self, Handle::none(alloc));
        drop(old.into_box());
    }
}

impl Handle {
    ghost use Rattle.std.specs.Prelude.{◌≡◌, true};
    ghost use Rattle.std.specs.Borrow.{sem};
    ghost use Rattle.std.specs.declared.option.Option.TheVariants.{Some};
    ghost use Rattle.ffi3_handle.specs.Kept.{is_kept};
    ghost use Rattle.ffi3_handle.specs.Lending.{LendsKept};

    /// What is kept.
    pub fn value_mut(&mut self) -> &mut Kept
        requires { is_kept self.old.kept ≡ true }
        ensures* writes_back { sem 𝓛 (LendsKept self.entry result) }
        ensures value { Some result.now ≡ self.old.kept }
    {
        unsafe { &mut *(self.at as *mut Kept) }
    }
}
