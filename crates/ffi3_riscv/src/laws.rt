//! What the places of every call keep, for callers to cite.
ghost use Rattle.ffi3_place_spec.specs.Alike.{GoesByLayout, PlacesArraysAsElements};
ghost use Rattle.ffi3_riscv_spec.specs.Riscv.{riscv};
ghost use Rattle.ffi3_riscv_spec.specs.Ends.{IsPlacedByEnds};

use ffi3_types::Sig;

/// Does nothing. Its contract says where everything stands by where the arguments before each end:
/// how an argument is passed and where, where copies and the buffer begin, whether there is a result
/// and where, what the frame, the callee's block and the whole call take; that no other plan is so,
/// and that no other way to pass the arguments meets these ends. And that structs of equal layout
/// are placed alike, as one with an array and one with its elements there.
pub fn placement_laws(_sig: &Sig)
    ensures ends { IsPlacedByEnds _sig.now }
    ensures by_layout { GoesByLayout riscv }
    ensures arrays_as_elements { PlacesArraysAsElements riscv }
{}
