//! A sink in memory for one line of a run.
ghost use Rattle.std.specs.Prelude.{◌≡◌, ◌<◌, [], length};

use arrayvec::ArrayVec;
use ffi3_io::{Failed, Sink};
use std::marker::Model;

/// Room for the longest line of the made script's run, and one byte more. It fails only where that
/// is full, and tells at each moment what it took.
#[derive(Drop)]
pub(crate) struct LineSink {
    bytes: ArrayVec<u8, 22>,
    faults: u64,
}

impl Model for LineSink {
    ghost use Rattle.std.specs.Prelude.{◌≡◌, ◌<◌, length};
    ghost use Rattle.ffi3_bench.specs.LineState.{LineState};

    ghost Value = { LineState };

    ghost view = { λ s. record { taken = s.bytes.items; faults = s.faults } };

    ghost invariant = { λ s. 0 < s.faults → length s.bytes.items ≡ 22 };
}

impl LineSink {
    /// A sink that has taken nothing.
    pub(crate) fn new() -> LineSink
        ensures taken { result.taken ≡ [] }
        ensures faults { result.faults ≡ 0 }
    {
        LineSink {
            bytes: ArrayVec::new(),
            faults: 0,
        }
    }

    /// The bytes taken. There was no fault while there is room.
    pub(crate) fn taken(&self) -> &[u8]
        ensures are { result.now ≡ self.now.taken }
        ensures full { 0 < self.now.faults → length self.now.taken ≡ 22 }
    {
        self.bytes.as_slice()
    }
}

impl Sink for LineSink {
    ghost use Rattle.std.specs.Prelude.{Some};

    ghost state = { λ s. record { taken = Some s.taken; faults = s.faults } };

    /// Takes one byte of a piece at a time.
    fn write(&mut self, bytes: &[u8]) -> Result<usize, Failed> {
        if bytes.is_empty() {
            return Ok(0);
        }
        if self.bytes.len() == 22 {
            self.faults = self.faults.saturating_add(1);
            return Err(Failed);
        }
        self.bytes.push(bytes[0]);
        Ok(1)
    }
}
