//! Why bytes describe no image.
ghost use Rattle.std.specs.Prelude.{◌≡◌};
ghost use Rattle.ffi3_image.specs.FaultOf.{fault_of, reason_of};
ghost use Rattle.ffi3_image.specs.Tells.{Tells};

use ffi3_json::{JsonPath, Reason, ScriptFault, Where};
use std::alloc::Global;
use thiserror::Error;

/// Why the value at a place is no part of an object that describes an image.
#[derive(Debug, Drop)]
pub enum ImageReason {
    /// A reason that scripts have too.
    AsInScripts(Reason),
    /// No text that is the word of a target.
    UnknownTarget,
    /// No text of 16 hexadecimal digits.
    BadNumber,
    /// The stack has fewer bytes than are looked at.
    TooShort { there: u64, wanted: u64 },
}

/// Why bytes were not read as an object that describes an image.
#[derive(Debug, Drop, Error)]
pub enum ImageFault {
    /// More than 1,048,576 bytes.
    #[error("input too long")]
    TooLong,
    /// No JSON in UTF-8.
    #[error("not JSON")]
    BadJson,
    /// The value at `path` is no part of such an object.
    #[error("no image")]
    BadImage { path: Where, why: ImageReason },
    #[error("no memory")]
    NoMemory,
}

/// The fault of the value at a place, or a want of memory.
pub(crate) fn bad(alloc: Global, at: &JsonPath, why: ImageReason) -> ImageFault
    ensures { Tells (λ p r. (p ≡ at.now) × (r ≡ reason_of why)) result }
{
    match at.owned(alloc) {
        Ok(path) => ImageFault::BadImage { path, why },
        Err(_) => ImageFault::NoMemory,
    }
}

/// The same for a reason that scripts have too.
pub(crate) fn bad_as_in_scripts(alloc: Global, at: &JsonPath, why: Reason) -> ImageFault
    ensures { Tells (λ p r. (p ≡ at.now) × (r ≡ reason_of (ImageReason.AsInScripts why))) result }
{
    bad(alloc, at, ImageReason::AsInScripts(why))
}

/// A fault that a script has too.
pub(crate) fn of_script(fault: ScriptFault) -> ImageFault
    ensures { result ≡ fault_of fault }
{
    match fault {
        ScriptFault::TooLong => ImageFault::TooLong,
        ScriptFault::BadJson => ImageFault::BadJson,
        ScriptFault::BadScript { path, why } => ImageFault::BadImage {
            path,
            why: ImageReason::AsInScripts(why),
        },
        ScriptFault::NoMemory => ImageFault::NoMemory,
    }
}
