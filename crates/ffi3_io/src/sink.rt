//! Where bytes go.
ghost use Rattle.std.specs.Prelude.{◌≡◌, ◌<◌, ◌≤◌, [], take, length, IfOk, OnOk, OnErr};
ghost use Rattle.ffi3_io_spec.specs.Sink.{Adds, AddsSome, Rose, SinkState};
ghost use Rattle.ffi3_io_spec.specs.Written.{WroteLine};

use crate::{Failed, IoError};

/// Takes bytes, and counts the writes that failed.
pub trait Sink {
    /// The bytes taken, where the sink tells them, and how many writes failed. The count never falls.
    ghost state: { Self → SinkState };

    /// Takes the first bytes of a piece, and says how many: at least one of a piece that is not
    /// empty.
    ///
    /// Fails only where the count of faults rose in this call, or stands at 2^64 - 1; no byte of the
    /// piece is then taken.
    fn write(&mut self, bytes: &[u8]) -> Result<usize, Failed>
        ensures some { IfOk result (λ n. 0 < length bytes.now → 0 < n) }
        ensures within { IfOk result (λ n. n ≤ length bytes.now) }
        ensures adds { IfOk result (λ n. Adds (state self.old).taken (take n bytes.now) (state self.new).taken) }
        ensures same { OnOk result ((state self.new).faults ≡ (state self.old).faults) }
        ensures failed { OnErr result (Rose (state self.old).faults (state self.new).faults) }
        ensures never_falls { (state self.old).faults ≤ (state self.new).faults }
        ensures nothing { OnErr result (Adds (state self.old).taken [] (state self.new).taken) };
}

/// Hands a piece in, and its rest again, until it is taken whole or the sink fails.
///
/// Where it fails, a part of the piece may have been taken, and never all of it.
pub fn write_all<O: Sink>(output: &mut O, bytes: &[u8]) -> Result<(), Failed>
    ensures adds { OnOk result (Adds (O.state output.old).taken bytes.now (O.state output.new).taken) }
    ensures same { OnOk result ((O.state output.new).faults ≡ (O.state output.old).faults) }
    ensures failed { OnErr result (Rose (O.state output.old).faults (O.state output.new).faults) }
    ensures never_falls { (O.state output.old).faults ≤ (O.state output.new).faults }
    ensures part { OnErr result (AddsSome (O.state output.old).taken bytes.now (O.state output.new).taken) }
{
    let mut done: usize = 0;
    while done < bytes.len() {
        done += output.write(&bytes[done..])?;
    }
    Ok(())
}

/// Writes a line, with its newline, in one piece. Where that fails, some of its bytes are missing.
pub fn write_line<O: Sink>(output: &mut O, line: &[u8]) -> Result<(), IoError>
    ensures { WroteLine line.now (O.state output.old) (O.state output.new) result }
{
    match write_all(output, line) {
        Ok(()) => Ok(()),
        Err(_) => Err(IoError::Failed),
    }
}
