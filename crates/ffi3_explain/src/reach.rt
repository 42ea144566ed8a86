//! How much of the stack the arguments need.
ghost use Rattle.std.specs.Prelude.{◌≡◌, ◌+◌, ◌<◌, ◌^◌, [], ◌∷◌, max};
ghost use Rattle.std.specs.List.{flat_map};
ghost use Rattle.ffi3_place_spec.specs.Standard.{plan_of};
ghost use Rattle.ffi3_place_spec.specs.Sound.{piece_locs, place_locs};
ghost use Rattle.ffi3_explain_spec.specs.Arguments.{least_stack, stack_end};

use ffi3_cif::{Cif, Placed};
use ffi3_place::{Abi, Loc, Pieces, Place};

fn greater(a: u64, b: u64) -> u64
    ensures { result ≡ max a b }
{
    if a < b { b } else { a }
}

/// Where a place on the stack ends, and 0 for a register.
fn loc_end(at: Loc) -> u64
    ensures value { result ≡ stack_end (at ∷ []) }
    ensures small { result < 2 ^ 33 }
{
    match at {
        Loc::S(n, len) => n as u64 + len as u64,
        Loc::G(_) | Loc::F(_) => 0,
    }
}

/// Where the highest of some pieces' places on the stack ends.
fn pieces_end(pieces: &Pieces) -> u64
    ensures value { result ≡ stack_end (piece_locs pieces.now) }
    ensures small { result < 2 ^ 33 }
{
    let mut end = 0;
    for j in 0..pieces.len() {
        end = greater(end, loc_end(pieces.get(j).loc));
    }
    end
}

/// Where the highest of an argument's places on the stack ends.
fn place_end(place: &Place) -> u64
    ensures value { result ≡ stack_end (place_locs place.now) }
    ensures small { result < 2 ^ 33 }
{
    match place {
        Place::Direct(pieces) => pieces_end(pieces),
        Place::ByRef { at, .. } => loc_end(*at),
    }
}

/// Where the highest of all arguments' places on the stack ends.
fn arguments_end<A: Abi>(placed: &Placed<A>) -> u64
    ensures value { result ≡ stack_end (flat_map place_locs (plan_of A.standard placed.now).places) }
    ensures small { result < 2 ^ 33 }
{
    let sig = placed.placed_sig();
    let count = sig.count();
    let mut end = 0;
    for i in 0..count {
        end = greater(end, place_end(placed.place(i)));
    }
    end
}

/// How many bytes of the stack, from the stack pointer on, an image needs, for its arguments to be read by the standard
/// `A` alone: those of the return address, and as far as places of arguments reach. Copies are not counted.
pub fn least_stack<A: Abi>(cif: &Cif<A>) -> u64
    ensures { result ≡ least_stack A.standard cif.now }
{
    least_stack_of(cif.placed())
}

/// The same of what can be placed.
pub fn least_stack_of<A: Abi>(placed: &Placed<A>) -> u64
    ensures { result ≡ least_stack A.standard placed.now }
{
    A::LINK + arguments_end(placed)
}
