//! The small-step semantics of a run, for a runner that keeps a list of unfinished activations: one move, what is left
//! of the run at a moment, the stack that its calls take, and the calls that are open. The definitions are in `specs/`.
#![tactic(auto)]

ghost use Rattle.ffi3_semantics_spec.specs.Meaning.{Program};
ghost use Rattle.ffi3_small_step_spec.specs.Laws.{GoesByStep, PathFollows, PeaksAlike, ServesAlike, TextGoesByParts};

/// Does nothing. Its contract says that the direct meaning of every program goes step by step
/// over a call stack of activations, from main or from a call that is served, that along a run's path what
/// happened and what is left make all of it, that the stack its trace takes is that of its call tree, and that
/// the text of a trace is that of its parts.
pub fn step_laws()
    ensures by_step { (p : Program) → GoesByStep p }
    ensures paths { (p : Program) → PathFollows p }
    ensures serving { (p : Program) → ServesAlike p }
    ensures peaks { (p : Program) → PeaksAlike p }
    ensures texts { TextGoesByParts }
{}
