//! What an image at an entry is explained as: the values that it holds, or the first place that holds something else.
//! And which arguments it has by the standard alone. The definitions are in `specs/`; these are the words that they
//! share with the code.
#![tactic(auto)]

ghost use Rattle.std.specs.Prelude.{ℕ, List};
ghost use Rattle.ffi3_place_spec.specs.declared.Loc.{Loc};
ghost use Rattle.ffi3_place_spec.specs.Event.{Event};
ghost use Rattle.ffi3_semantics_spec.specs.Trace.{TraceItem};
ghost use Rattle.ffi3_semantics_spec.specs.Journal.{Entered};
ghost use Rattle.ffi3_explain_spec.specs.Entries.{JournalIsExplained};
ghost use Rattle.ffi3_place_spec.specs.Standard.{Standard};
ghost use Rattle.ffi3_type_spec.specs.Signature.{Signature};
ghost use Rattle.ffi3_place_spec.specs.Image.{Image};
ghost use Rattle.ffi3_explain_spec.specs.Laws.{IsExplained};
ghost use Rattle.ffi3_explain_spec.specs.ArgumentLaws.{AreRead};

use ffi3_place_spec::Loc;

/// What a place is for: argument `i`, the address of a hidden result's buffer, or the number of vector registers.
#[derive(Clone, Copy, Debug, PartialEq, Eq)]
pub enum Part {
    Arg(u32),
    Hidden,
    Count,
}

/// The number that a place holds, `found`, and the one that it holds where values are passed, `wants`.
#[derive(Clone, Copy, Debug, PartialEq, Eq)]
pub struct Check {
    pub part: Part,
    pub place: Loc,
    pub found: u64,
    pub wants: u64,
}

/// An argument by reference, of this number, whose address points outside the bytes of the stack that an image has.
#[derive(Clone, Copy, Debug, PartialEq, Eq)]
pub struct Outside {
    pub argument: u32,
    pub address: u64,
}

/// Does nothing. Its contract says of every sound standard: an image holds values exactly where each place holds what
/// the definition wants there, and these are then the explained ones; an image that is not explained by values holds
/// none, and the first place that does not hold what is wanted is told.
pub fn explain_laws()
    ensures { (std : Standard) (s : Signature) (m : Image) → IsExplained std s m }
{}

/// Does nothing. Its contract says that each event that answers to an entry of a run is explained as that entry's
/// arguments.
pub fn entry_laws()
    ensures { (std : Standard) (held : Loc → ℕ) (signatures : List Signature) (unfinished : List Entered) (trace : List TraceItem) (events : List Event) →
        JournalIsExplained std held signatures unfinished trace events }
{}

/// Does nothing. Its contract says of every sound standard: an image that owns values, or is explained by values, has
/// these by the standard alone; what is read by it fits the arguments' types; an argument by reference is the value to
/// which its place points; no other register is looked at, so the number of vector registers is not asked; and where an
/// address points outside the image, the image owns no values.
pub fn argument_laws()
    ensures { (std : Standard) (s : Signature) (m : Image) → AreRead std s m }
{}
