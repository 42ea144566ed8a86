//! Where no long double is told, formats change nothing: a theorem about signatures and about C declarations.
#![tactic(auto)]

ghost use Rattle.ffi3_format_theorem.specs.Laws.{NoLongDoubleLaws};

/// Does nothing. Its contract says that a signature without long doubles of 16 bytes can be placed where it can be
/// called, and has the same first fault for both; and that a text which tells no long double is read the same with each
/// format, with all, and with none.
#[tactic(auto, using(crate::proofs::Readings::no_long_double_laws))]
pub fn no_long_double_laws()
    ensures { NoLongDoubleLaws }
{}
