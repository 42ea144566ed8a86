//! Faults that have a line and a status of their own.
ghost use Rattle.std.specs.Prelude.{◌≡◌};
ghost use Rattle.ffi3_app_spec.specs.FaultLines.{ReportsFault};
ghost use Rattle.ffi3_status.specs.KnownFaults.{line_of, status_of};

use crate::telling::tell;
use ffi3_io::Sink;

/// The status where a write failed.
pub(crate) const WRITE_FAULT: u8 = 4;

/// A fault that is told by a line of its own, whatever was asked for.
#[derive(Clone, Copy, Debug, PartialEq, Eq)]
pub enum Fault {
    /// A read failed.
    Read,
    /// A write failed.
    Write,
    /// Memory was refused.
    NoMemory,
}

impl Fault {
    /// The line that tells it.
    pub fn line(self) -> &'static str
        ensures { result.now ≡ line_of self }
    {
        match self {
            Fault::Read => "ffi3: read fault\n",
            Fault::Write => "ffi3: write fault\n",
            Fault::NoMemory => "ffi3: out of memory\n",
        }
    }

    /// The exit status that it comes to.
    pub fn status(self) -> u8
        ensures { result ≡ status_of self }
    {
        match self {
            Fault::Read => 3,
            Fault::Write => WRITE_FAULT,
            Fault::NoMemory => 5,
        }
    }
}

/// Writes a fault's line to the sink of faults and returns its exit status, or 4 where the line could not be written.
pub fn tell_fault<E: Sink>(faults: &mut E, fault: Fault) -> u8
    ensures { ReportsFault (line_of fault) (status_of fault) (E.state faults.old) (E.state faults.new) result }
{
    tell(faults, fault.line(), fault.status())
}
