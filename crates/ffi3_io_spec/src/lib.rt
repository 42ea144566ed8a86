//! What reads give and what writes take: counts of faults, texts that are written in parts. The definitions are in
//! `specs/`; this is the word that they share with the code.
#![tactic(auto)]

/// A want of memory: the one answer that no clause ties to a cause.
pub use std::alloc::AllocError as NoMemory;

/// Why reading or writing ended before its end.
#[derive(Clone, Copy, Debug, PartialEq, Eq, Drop)]
pub enum IoError {
    /// Memory was refused.
    NoMemory,
    /// A read or a write failed.
    Failed,
}

impl From<NoMemory> for IoError {
    ghost use Rattle.std.specs.Prelude.{◌≡◌};
    ghost use Rattle.ffi3_io_spec.specs.declared.IoError.TheVariants.{NoMemory};

    ghost from_gives = { λ _ e. e ≡ NoMemory };

    fn from(_refused: NoMemory) -> IoError {
        IoError::NoMemory
    }
}
