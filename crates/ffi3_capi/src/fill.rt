//! Items into an array of the caller.
ghost use Rattle.std.specs.Prelude.{◌≡◌, ◌&&◌, length};
ghost use Rattle.ffi3_capi.specs.Filled.{has_room, filled, room_status, with_end};

use crate::codes::{DONE, TOO_SMALL};
use ffi3_place_spec::Listed;

/// Writes the items to the front of the array, if all of them have room there. Answers whether they have.
pub fn fill<T: Copy + Drop>(items: &Listed<T>, array: &mut [T]) -> bool
    ensures fits { result ≡ has_room items.now array.old }
    ensures written { array.new ≡ filled items.now array.old }
{
    if array.len() < items.len() {
        return false;
    }
    for i in 0..items.len() {
        array[i] = *items.get(i);
    }
    true
}

/// The same of bytes.
pub(crate) fn fill_bytes(bytes: &[u8], array: &mut [u8]) -> bool
    ensures fits { result ≡ has_room bytes.now array.old }
    ensures written { array.new ≡ filled bytes.now array.old }
{
    if array.len() < bytes.len() {
        return false;
    }
    for i in 0..bytes.len() {
        array[i] = bytes[i];
    }
    true
}

/// The answer where items had room, or had none.
pub fn room_status(fits: bool) -> u32
    ensures { result ≡ room_status fits }
{
    if fits { DONE } else { TOO_SMALL }
}

/// The same of two arrays.
pub(crate) fn room_status_of_both(first: bool, second: bool) -> u32
    ensures { result ≡ room_status (first && second) }
{
    if first {
        room_status(second)
    } else {
        TOO_SMALL
    }
}

/// Writes the text and a 0 to the front of the array, if both have room there. Answers how long the text is.
pub(crate) fn fill_text(text: &[u8], array: &mut [u8]) -> usize
    ensures count { result ≡ length text.now }
    ensures written { array.new ≡ filled (with_end text.now) array.old }
{
    let n = text.len();
    if array.len() <= n {
        return n;
    }
    for i in 0..n {
        array[i] = text[i];
    }
    array[n] = 0;
    n
}
