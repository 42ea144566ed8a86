//! Why nothing is told.
ghost use Rattle.std.specs.Prelude.{◌≡◌};
ghost use Rattle.ffi3_capi.specs.Refused.{status_of, fault_in, count_in};

use crate::codes::{NOT_DECLARED, OUT_OF_MEMORY, UNKNOWN_TARGET, UNKNOWN_VALUE};
use crate::fault::{FaultKind, TextFault, fault_with};

/// Why there is no placement or no layout.
#[derive(Clone, Copy)]
pub enum Refusal {
    /// No calling standard has this number.
    NoSuchTarget,
    /// The function has so many arguments, and none by this number.
    NoSuchValue(usize),
    /// No function that can be called is declared.
    Fault(TextFault),
    /// An allocation was refused.
    NoMemory,
}

impl Refusal {
    /// The number that C is answered.
    pub fn status(self) -> u32
        ensures { result ≡ status_of self }
    {
        match self {
            Refusal::NoSuchTarget => UNKNOWN_TARGET,
            Refusal::NoSuchValue(_) => UNKNOWN_VALUE,
            Refusal::Fault(_) => NOT_DECLARED,
            Refusal::NoMemory => OUT_OF_MEMORY,
        }
    }

    /// The fault of what declares, if that is why.
    pub fn fault(self) -> TextFault
        ensures { result ≡ fault_in self }
    {
        match self {
            Refusal::Fault(fault) => fault,
            Refusal::NoSuchTarget | Refusal::NoSuchValue(_) | Refusal::NoMemory => {
                fault_with(FaultKind::NoFault)
            }
        }
    }

    /// How many arguments there are, if that is why.
    pub fn count(self) -> usize
        ensures { result ≡ count_in self }
    {
        match self {
            Refusal::NoSuchValue(count) => count,
            Refusal::NoSuchTarget | Refusal::Fault(_) | Refusal::NoMemory => 0,
        }
    }
}
