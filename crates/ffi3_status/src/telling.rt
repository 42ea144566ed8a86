//! Lines to the sink of faults.
ghost use Rattle.ffi3_app_spec.specs.FaultLines.{ReportsFault};

use crate::known::WRITE_FAULT;
use ffi3_io::{Sink, write_all};

/// Writes a line to the sink of faults and returns the exit status: the one handed in, or 4 where the
/// line could not be written.
pub fn tell<E: Sink>(faults: &mut E, line: &str, status: u8) -> u8
    ensures { ReportsFault line.now status (E.state faults.old) (E.state faults.new) result }
{
    tell_bytes(faults, line.as_bytes(), status)
}

/// The same of a line in bytes.
pub fn tell_bytes<E: Sink>(faults: &mut E, line: &[u8], status: u8) -> u8
    ensures { ReportsFault line.now status (E.state faults.old) (E.state faults.new) result }
{
    match write_all(faults, line) {
        Ok(()) => status,
        Err(_) => WRITE_FAULT,
    }
}
