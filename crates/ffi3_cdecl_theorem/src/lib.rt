//! Theorems of C declarations: one thing is told of an unexpected place, and a text has one reading with each format.
#![tactic(auto)]

ghost use Rattle.ffi3_cdecl_theorem.specs.Laws.{ToldLaws, FormatLaws};

/// Does nothing. Its contract says that at each unexpected place of a text exactly one thing is told, by the tokens and
/// the grammar, and that `tell` computes it; so the machine by which it is computed need not be believed.
#[tactic(auto, using(crate::proofs::Exact::told_laws))]
pub fn told_laws()
    ensures { ToldLaws }
{}

/// Does nothing. Its contract says that each text has one reading with each format of long doubles, and one with all,
/// and that these are computed.
#[tactic(auto, using(crate::proofs::Formats::format_laws))]
pub fn format_laws()
    ensures { FormatLaws }
{}
