//! The moves of an interface that a handle keeps.
ghost use Rattle.std.specs.Prelude.{◌≡◌, ◌<◌, ◌^◌, IfNone, IfSome, List, None, OnSome, length, slice_get};
ghost use Rattle.ffi3_moves.specs.Told.{told_in};
ghost use Rattle.ffi3_moves.specs.declared.told.ToldMove.{ToldMove};
ghost use Rattle.ffi3_prepared.specs.Prepared.{signature_in, standard_in};
ghost use Rattle.ffi3_capi.specs.Filled.{has_room, room_status};
ghost use Rattle.ffi3_interface.specs.Listing.{TellsMoves, lists, moves_by};

use ffi3_capi::codes::{DONE, NOT_PREPARED, OUT_OF_MEMORY, TOO_SMALL, UNKNOWN_VALUE};
use ffi3_cif::Placed;
use ffi3_handle::{Handle, Kept};
use ffi3_moves::{
    ToldMove, tell_hidden_move, tell_moves_to_collect, tell_moves_to_give, tell_moves_to_load,
    tell_moves_to_store,
};
use ffi3_place::Abi;
use ffi3_prepared::Prepared;

/// A list of moves.
#[derive(Clone, Copy)]
pub enum MoveList {
    /// The caller's arguments.
    Store,
    /// The caller's result.
    Load,
    /// The callee's arguments.
    Collect,
    /// The callee's result.
    Give,
    /// The address of the buffer that the frame has for a hidden result.
    Hidden,
}

const LISTS: [MoveList; 5] = [
    MoveList::Store,
    MoveList::Load,
    MoveList::Collect,
    MoveList::Give,
    MoveList::Hidden,
];

/// The list of this number.
fn list_numbered(n: u32) -> Option<MoveList>
    ensures { result ≡ slice_get lists n }
{
    LISTS.get(n as usize).copied()
}

/// A list by one standard, for the caller's array. Answers how many moves it has; where these have no room, nothing is
/// written. None where they are 2^64 or more.
fn tell_by<A: Abi>(placed: &Placed<A>, list: MoveList, array: &mut [ToldMove]) -> Option<usize>
    ensures count { IfSome result (λ n. n ≡ length (moves_by A.standard placed.now list)) }
    ensures many { IfNone result (length (moves_by A.standard placed.now list) < 2 ^ 64 → ⊥) }
    ensures told { OnSome result (array.new ≡ told_in (moves_by A.standard placed.now list) array.old) }
    ensures untold { result ≡ None → array.new ≡ array.old }
{
    match list {
        MoveList::Store => tell_moves_to_store(array, placed),
        MoveList::Load => Some(tell_moves_to_load(array, placed)),
        MoveList::Collect => tell_moves_to_collect(array, placed),
        MoveList::Give => Some(tell_moves_to_give(array, placed)),
        MoveList::Hidden => Some(tell_hidden_move(array, placed)),
    }
}

/// A list by the interface's standard.
fn tell_on(p: &Prepared, list: MoveList, array: &mut [ToldMove]) -> Option<usize>
    ensures count { IfSome result (λ n. n ≡ length (moves_by (standard_in p.now) (signature_in p.now) list)) }
    ensures many { IfNone result (length (moves_by (standard_in p.now) (signature_in p.now) list) < 2 ^ 64 → ⊥) }
    ensures told { OnSome result (array.new ≡ told_in (moves_by (standard_in p.now) (signature_in p.now) list) array.old) }
    ensures untold { result ≡ None → array.new ≡ array.old }
{
    match p {
        Prepared::Amd64(placed) => tell_by(placed, list, array),
        Prepared::Aapcs64(placed) => tell_by(placed, list, array),
        Prepared::Riscv(placed) => tell_by(placed, list, array),
        Prepared::Win64(placed) => tell_by(placed, list, array),
        Prepared::Apple(placed) => tell_by(placed, list, array),
    }
}

/// The answer where so many moves had room in an array of so many items, or had none.
fn status_of(count: usize, room: usize) -> u32
    ensures { (moves old : List ToldMove) → count ≡ length moves → room ≡ length old → result ≡ room_status (has_room moves old) }
{
    if count <= room { DONE } else { TOO_SMALL }
}

/// A list of the interface that is kept, by its number, for a caller's array. The number that is answered tells whether
/// the moves had room, or why there are none.
pub fn tell_moves(it: &mut Handle, list: u32, count: &mut usize, array: &mut [ToldMove]) -> u32
    ensures same { it.new.kept ≡ it.old.kept }
    ensures told { TellsMoves it.old.kept list array.old result count.new array.new }
{
    *count = 0;
    let Some(which) = list_numbered(list) else {
        return UNKNOWN_VALUE;
    };
    if !it.is_kept() {
        return NOT_PREPARED;
    }
    let room = array.len();
    let kept: &Kept = it.value_mut();
    match tell_on(&kept.prepared, which, array) {
        Some(found) => {
            *count = found;
            status_of(found, room)
        }
        None => OUT_OF_MEMORY,
    }
}
