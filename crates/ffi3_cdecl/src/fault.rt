//! Why a text is no declaration.
use ffi3_types::{NoMemory, SigFault};
use thiserror::Error;

/// Why a text was not read as a declaration of a function: the first of these over the whole text, with offsets in
/// bytes, or a want of memory.
#[derive(Debug, Drop, Error)]
pub enum DeclFault {
    /// At this byte no token begins.
    #[error("at {at}: bad token")]
    BadToken { at: u64 },
    /// No declaration has the token that stands there behind those before it; or the text ends there, and is none yet.
    #[error("at {at}: unexpected")]
    Unexpected { at: u64 },
    /// The number that stands there is over 4,294,967,295.
    #[error("at {at}: bad number")]
    BadNumber { at: u64 },
    /// The signature that is declared has this first fault.
    #[error("{0}")]
    Sig(SigFault),
    #[error("out of memory")]
    NoMemory,
}

impl From<NoMemory> for DeclFault {
    ghost use Rattle.std.specs.Prelude.{◌≡◌};
    ghost use Rattle.ffi3_cdecl.specs.declared.fault.DeclFault.TheVariants.{NoMemory};

    ghost from_gives = { λ _ e. e ≡ NoMemory };

    fn from(_refused: NoMemory) -> DeclFault {
        DeclFault::NoMemory
    }
}
