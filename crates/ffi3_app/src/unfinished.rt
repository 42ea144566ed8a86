//! Why a command ended before its end, and how that is told.
ghost use Rattle.std.specs.Prelude.{◌≡◌, List, ℕ, IfOk};
ghost use Rattle.ffi3_app.specs.Work.{IsEndTold, RefusesWith};

use ffi3_io::{IoError, Sink};
use ffi3_status::{Fault, tell_bytes, tell_fault};
use ffi3_types::{Bytes, NoMemory};
use std::alloc::Global;

/// Why a command did not do all of its work.
#[derive(Debug, Drop)]
pub enum Unfinished {
    /// The input is refused with this line.
    Refused(Bytes),
    /// Memory was refused.
    NoMemory,
    /// A write to the output failed.
    WriteFault,
}

/// Why a command ended where writing its text did not come to the end.
impl From<IoError> for Unfinished {
    ghost use Rattle.std.specs.Prelude.{◌≡◌};
    ghost use Rattle.ffi3_app.specs.Work.{unfinished_by};

    ghost from_gives = { λ why e. e ≡ unfinished_by why };

    fn from(why: IoError) -> Unfinished {
        match why {
            IoError::NoMemory => Unfinished::NoMemory,
            IoError::Failed => Unfinished::WriteFault,
        }
    }
}

/// A refusal with a line, where there was memory to make it.
pub fn refused(line: Result<Bytes, NoMemory>) -> Unfinished
    ensures { (text : List ℕ) → IfOk line (λ l. l ≡ text) → RefusesWith text result }
{
    match line {
        Ok(line) => Unfinished::Refused(line),
        Err(_) => Unfinished::NoMemory,
    }
}

/// A line of known words.
pub fn words(alloc: Global, text: &str) -> Result<Bytes, NoMemory>
    ensures { IfOk result (λ line. line ≡ text.now) }
{
    Bytes::from_slice(alloc, text.as_bytes())
}

/// Returns the status of the work. Where it stopped early, its fault is told first, and the status is that of the fault.
pub fn tell_end<E: Sink>(faults: &mut E, end: Result<u8, Unfinished>) -> u8
    ensures { IsEndTold end (E.state faults.old) (E.state faults.new) result }
{
    match end {
        Ok(status) => status,
        Err(Unfinished::Refused(line)) => tell_bytes(faults, line.as_slice(), 1),
        Err(Unfinished::NoMemory) => tell_fault(faults, Fault::NoMemory),
        Err(Unfinished::WriteFault) => tell_fault(faults, Fault::Write),
    }
}
