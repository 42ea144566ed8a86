//! What a prototype calls its parameters. The definitions are in `specs/`.
#![tactic(auto)]

ghost use Rattle.ffi3_names_spec.specs.Laws.{NameLaws};

/// Does nothing. Its contract says that a text which is a prototype gives its parameters one list of names, one of each,
/// empty where it has none; and that one pass over the bytes finds them.
pub fn name_laws()
    ensures { NameLaws }
{}
