//! What a C declaration of a function is: its tokens, its grammar, and what reading it answers. The definitions are in
//! `specs/`.
#![tactic(auto)]

ghost use Rattle.ffi3_cdecl_spec.specs.Laws.{DeclarationLaws};
ghost use Rattle.ffi3_cdecl_spec.specs.Prototype.{PrototypeLaws};
ghost use Rattle.ffi3_cdecl_spec.specs.FaultLaws.{FaultLaws};

/// Does nothing. Its contract says of each of the two readings, plain and wide, that every text has one, by the grammar,
/// and that a machine which goes over the tokens once computes it: it accepts declarations and nothing else, each of its
/// states but the dead one can still come to a declaration, and so its first dead state is at the first token that is
/// unexpected. What the plain reading reads, the wide one reads alike, but where a keyword is used as a name.
pub fn declaration_laws()
    ensures { DeclarationLaws }
{}

/// Does nothing. Its contract says of a text that it is one prototype, the same for all targets, whether `char` is signed
/// or not; and that the canonical text of what is read, with the types behind its dots, is read as the same.
pub fn prototype_laws()
    ensures { PrototypeLaws }
{}

/// Does nothing. Its contract says of a text that is no declaration of the wide reading what is told of it: how long the
/// token is that leads nowhere, the reason where a word tells it, and the kinds of token that could have stood there.
pub fn fault_laws()
    ensures { FaultLaws }
{}
