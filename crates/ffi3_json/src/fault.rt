//! Why a script was refused.
ghost use Rattle.std.specs.Prelude.{◌≡◌};
ghost use Rattle.ffi3_json.specs.ReasonOf.{reason_of};
ghost use Rattle.ffi3_json.specs.Reports.{Reports};

use crate::{JsonPath, NoMemory, Reason, Where};
use std::alloc::Global;
use thiserror::Error;

/// Why bytes, or a JSON value, were not read as a script or a part of one.
#[derive(Debug, Drop, Error)]
pub enum ScriptFault {
    /// More than 1,048,576 bytes.
    #[error("script too long")]
    TooLong,
    /// No JSON in UTF-8.
    #[error("not JSON")]
    BadJson,
    /// The value at `path` is no part of a script.
    #[error("bad script")]
    BadScript { path: Where, why: Reason },
    #[error("no memory")]
    NoMemory,
}

impl From<NoMemory> for ScriptFault {
    ghost use Rattle.std.specs.Prelude.{◌≡◌};
    ghost use Rattle.ffi3_json.specs.declared.fault.ScriptFault.TheVariants.{NoMemory};

    ghost from_gives = { λ _ e. e ≡ NoMemory };

    fn from(_refused: NoMemory) -> ScriptFault {
        ScriptFault::NoMemory
    }
}

/// The fault of the value at a place, or a want of memory.
pub fn bad(alloc: Global, at: &JsonPath, why: Reason) -> ScriptFault
    ensures { Reports (λ p r. (p ≡ at.now) × (r ≡ reason_of why)) result }
{
    match at.owned(alloc) {
        Ok(path) => ScriptFault::BadScript { path, why },
        Err(_) => ScriptFault::NoMemory,
    }
}
