//! What the places of every call keep, for callers to cite.
ghost use Rattle.ffi3_place_spec.specs.Alike.{GoesByLayout, PlacesArraysAsElements};
ghost use Rattle.ffi3_aapcs64_spec.specs.Aapcs64.{aapcs64};
ghost use Rattle.ffi3_aapcs64_spec.specs.Ends.{IsPlacedByEnds};

use ffi3_types::Sig;

/// Does nothing. Its contract says where everything stands in a call of the signature, by where the
/// arguments before each end: an argument is in registers exactly where these would end at 8 or
/// before; its first register, or its first byte on the stack, is the next behind such ends, and so
/// are the places of copies and buffer; the result stands where a first argument of its type would, or
/// in the buffer whose address is in x8; and the frame ends behind all that. No other plan is by these
/// ends. And that structs of equal layout are placed alike, as one with an array and one with its
/// elements there.
pub fn placement_laws(_sig: &Sig)
    ensures ends { IsPlacedByEnds _sig.now }
    ensures by_layout { GoesByLayout aapcs64 }
    ensures arrays_as_elements { PlacesArraysAsElements aapcs64 }
{}
