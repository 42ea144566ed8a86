//! The end of the output: what is held back is written out, and the status says whether it was.
ghost use Rattle.std.specs.Prelude.{◌≡◌, ◌≢◌, ◌<◌, []};
ghost use Rattle.std.specs.Io.Buffered.{writer_buffer, writer_contents};
ghost use Rattle.std.specs.Io.KnownBytes.{Keeps};
ghost use Rattle.ffi3_io_spec.specs.Sink.{Rose};
ghost use Rattle.ffi3_app_spec.specs.FaultLines.{ReportsFault, write_fault_line};

use crate::known::{Fault, WRITE_FAULT, tell_fault};
use ffi3_io::{Sink, WriteSink};
use std::io::{BufWriter, Write};

/// Writes out what the output holds back, and returns the exit status: the one handed in, or 4 where that fails.
///
/// The line of that fault goes to `faults`, but where the status handed in is 4: then a line was told, or cannot be.
pub fn finish<W: Write + Drop, E: Sink>(
    output: &mut WriteSink<BufWriter<W>>,
    faults: &mut E,
    status: u8,
) -> u8
    // The status is 4 where a write fails here, and else the one handed in.
    ensures failed { output.old.faults < output.new.faults → result ≡ 4 }
    ensures written { (Rose output.old.faults output.new.faults → ⊥) → result ≡ status }
    ensures stays { status ≡ 4 → result ≡ 4 }

    // Another status says that nothing is held back any more.
    ensures empty { result ≢ 4 → writer_buffer output.new.inner ≡ [] }
    ensures kept { Keeps (writer_contents W.contents output.old.inner) (writer_contents W.contents output.new.inner) }

    // A fault is told where it is new, and nothing else is told.
    ensures told { status ≢ 4 → result ≡ 4 → ReportsFault write_fault_line 4 (E.state faults.old) (E.state faults.new) 4 }
    ensures told_once { status ≡ 4 → E.state faults.new ≡ E.state faults.old }
    ensures silent { result ≢ 4 → E.state faults.new ≡ E.state faults.old }
{
    match output.flush() {
        Ok(()) => status,
        Err(_) if status == WRITE_FAULT => status,
        Err(_) => tell_write_fault(faults),
    }
}

/// Hands in the line of a write fault, and returns its status. Where that fails too there is nothing more to tell.
fn tell_write_fault<E: Sink>(faults: &mut E) -> u8
    ensures status { result ≡ 4 }
    ensures told { ReportsFault write_fault_line 4 (E.state faults.old) (E.state faults.new) 4 }
{
    tell_fault(faults, Fault::Write)
}
