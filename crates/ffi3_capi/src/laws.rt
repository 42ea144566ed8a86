//! What the pieces of every value keep, and what holds where no long double is told, for callers to cite.
ghost use Rattle.ffi3_capi.specs.Carried.{TellsTheSameBytes};
ghost use Rattle.ffi3_capi.specs.NoLongDouble.{NoLongDoubleLaws};

use ffi3_place::Pieces;

/// Does nothing. Its contract says that pieces which are told as one, those of a vector register, of one of x87 and of
/// the stack, tell the same bytes of the value at the same places.
#[tactic(auto, using(crate::proofs::Carried::tells_the_same_bytes))]
pub fn piece_laws(_pieces: &Pieces)
    ensures { TellsTheSameBytes _pieces.now }
{}

/// Does nothing. Its contract says that a signature without long doubles of 16 bytes can be placed where it can be
/// called, and has the same first fault for both; and that text or nodes which tell no long double declare the same
/// function for a target as for none, or have the same fault. So for these each contract with a target says what it
/// would say without formats.
#[tactic(auto, using(crate::proofs::NoLongDouble::no_long_double_laws))]
pub fn no_long_double_laws()
    ensures { NoLongDoubleLaws }
{}
