//! What the places of every call keep, for callers to cite.
ghost use Rattle.ffi3_place_spec.specs.Alike.{GoesByLayout, PlacesArraysAsElements};
ghost use Rattle.ffi3_win64_spec.specs.Win64.{win64};
ghost use Rattle.ffi3_win64_spec.specs.Positions.{IsPlacedByPosition};

use ffi3_types::Sig;

/// Does nothing. Its contract says where everything stands in a call of the signature, in closed form:
/// an argument by its number and its type, copies, buffer and frame by sums over all arguments; and
/// that no other plan is of this form. ("x64 calling convention", "Parameter passing") And that structs
/// of equal layout are placed alike, as one with an array and one with its elements there.
pub fn placement_laws(_sig: &Sig)
    ensures positions { IsPlacedByPosition _sig.now }
    ensures by_layout { GoesByLayout win64 }
    ensures arrays_as_elements { PlacesArraysAsElements win64 }
{}
