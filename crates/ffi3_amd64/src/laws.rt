//! What the places of every call keep, for callers to cite.
ghost use Rattle.ffi3_place_spec.specs.Alike.{GoesByLayout, PlacesArraysAsElements};
ghost use Rattle.ffi3_amd64_spec.specs.Amd64.{amd64};
ghost use Rattle.ffi3_amd64_spec.specs.Ends.{IsPlacedByEnds};

use ffi3_types::Sig;

/// Does nothing. Its contract says the plan of a call of the signature by its ends alone: sums over all
/// arguments say which of them are in registers and in which, and where those before each end says where
/// arguments on the stack, the buffer of a hidden result and the frame's end are; and that no other plan, and
/// no other choice of arguments in registers, is so. (psABI AMD64 3.2.3) And that structs of equal layout are
/// placed alike, as one with an array and one with its elements there.
pub fn placement_laws(_sig: &Sig)
    ensures ends { IsPlacedByEnds _sig.now }
    ensures by_layout { GoesByLayout amd64 }
    ensures arrays_as_elements { PlacesArraysAsElements amd64 }
{}
