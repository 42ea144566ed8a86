//! The sizes of an interface that a handle keeps.
ghost use Rattle.std.specs.Prelude.{◌≡◌};
ghost use Rattle.ffi3_moves.specs.Moves.{returned_at};
ghost use Rattle.ffi3_prepared.specs.Prepared.{signature_in, standard_in};
ghost use Rattle.ffi3_interface.specs.Numbers.{TellsSizes, no_sizes, place_or_none, sizes_in};

use ffi3_capi::codes::{DONE, NOT_PREPARED};
use ffi3_handle::{Handle, Kept};
use ffi3_moves::returned_at;
use ffi3_prepared::{Prepared, sizes};

/// `FFI3_NOWHERE`: there is no such place.
pub const NOWHERE: u64 = 0xFFFF_FFFF_FFFF_FFFF;

/// The sizes of an interface, in bytes: C's `struct ffi3_sizes`.
#[repr(C)]
#[derive(Clone, Copy)]
pub struct InterfaceSizes {
    /// The arguments' values, one after another, each from a multiple of 8 on.
    pub values: usize,
    /// The result's value.
    pub result: usize,
    /// The return address on the stack, where the standard has it there.
    pub link: usize,
    /// Stack arguments, copies and a hidden result's buffer.
    pub frame: usize,
    /// Where in the exchange at the return the address of a hidden result is given back, or `NOWHERE`.
    pub returned: u64,
    /// Nothing yet.
    pub reserved: [u64; 3],
}

fn place_or_none(at: Option<u64>) -> u64
    ensures { result ≡ place_or_none at }
{
    match at {
        Some(at) => at,
        None => NOWHERE,
    }
}

/// Where in the exchange at the return the address of a hidden result is given back, if it is.
fn returned_on(p: &Prepared) -> Option<u64>
    ensures { result ≡ returned_at (standard_in p.now) (signature_in p.now) }
{
    match p {
        Prepared::Amd64(placed) => returned_at(placed),
        Prepared::Aapcs64(placed) => returned_at(placed),
        Prepared::Riscv(placed) => returned_at(placed),
        Prepared::Win64(placed) => returned_at(placed),
        Prepared::Apple(placed) => returned_at(placed),
    }
}

/// The sizes of an interface.
fn sizes_in(p: &Prepared) -> InterfaceSizes
    ensures { result ≡ sizes_in p.now }
{
    let of_call = sizes(p);
    InterfaceSizes {
        values: of_call.values,
        result: of_call.result,
        link: of_call.link,
        frame: of_call.frame,
        returned: place_or_none(returned_on(p)),
        reserved: [0; 3],
    }
}

fn no_sizes() -> InterfaceSizes
    ensures { result ≡ no_sizes }
{
    InterfaceSizes {
        values: 0,
        result: 0,
        link: 0,
        frame: 0,
        returned: 0,
        reserved: [0; 3],
    }
}

/// The sizes of the interface that is kept, for a caller's struct.
pub fn find_sizes(it: &mut Handle, told: &mut InterfaceSizes) -> u32
    ensures same { it.new.kept ≡ it.old.kept }
    ensures told { TellsSizes it.old.kept result told.new }
{
    if !it.is_kept() {
        *told = no_sizes();
        return NOT_PREPARED;
    }
    let kept: &Kept = it.value_mut();
    *told = sizes_in(&kept.prepared);
    DONE
}
