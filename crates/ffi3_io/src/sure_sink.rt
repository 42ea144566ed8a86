//! A sink in memory that never fails, and tells what it took while that fits its room.
ghost use Rattle.std.specs.Prelude.{◌≡◌, ◌<◌, ◌≤◌, ◌+◌, ◌++◌, [], Ok, Some, length, vec_len, vec_capacity, IsSome, IfOk};
ghost use Rattle.ffi3_io.specs.Memory.{fitting};
ghost use Rattle.ffi3_io_spec.specs.Sink.{Adds};

use crate::{Failed, NoMemory, Sink};
use std::alloc::Global;
use std::marker::Model;

/// Bytes taken in memory, and the room for them.
#[derive(Drop)]
pub struct SureSink {
    bytes: Vec<u8>,
    room: usize,
    is_over: bool,
}

impl Model for SureSink {
    ghost use Rattle.std.specs.Prelude.{◌≤◌, None, Some, if◌then◌else◌, vec_len, vec_capacity};
    ghost use Rattle.ffi3_io.specs.Memory.{SureSinkState};

    ghost Value = { SureSinkState };

    ghost view = { λ s. record { taken = (if s.is_over then None else Some s.bytes.items); room = s.room } };

    ghost invariant = { λ s. (vec_len s.bytes ≤ s.room) × (s.room ≤ vec_capacity s.bytes) };
}

impl SureSink {
    /// A sink with room for this many bytes.
    pub fn new(alloc: Global, room: usize) -> Result<SureSink, NoMemory>
        ensures taken { IfOk result (λ s. s.taken ≡ Some []) }
        ensures room { IfOk result (λ s. s.room ≡ room) }
    {
        Ok(SureSink {
            bytes: Vec::with_capacity(alloc, room)?,
            room,
            is_over: false,
        })
    }

    /// The bytes taken, while all that was handed in fits the room.
    pub fn taken(&self) -> &[u8]
        requires { IsSome self.now.taken }
        ensures { self.now.taken ≡ Some result.now }
    {
        self.bytes.as_slice()
    }
}

impl Sink for SureSink {
    ghost state = { λ s. record { taken = s.taken; faults = 0 } };

    /// Never fails, and takes every piece whole.
    fn write(&mut self, bytes: &[u8]) -> Result<usize, Failed>
        ensures whole { result ≡ Ok (length bytes.now) }
        ensures adds { Adds self.old.taken bytes.now self.new.taken }
        ensures tells { self.new.taken ≡ fitting self.old.room self.old.taken bytes.now }
        ensures room { self.new.room ≡ self.old.room }
    {
        if self.room - self.bytes.len() < bytes.len() {
            self.is_over = true;
        }
        if !self.is_over {
            add_within(&mut self.bytes, bytes);
        }
        Ok(bytes.len())
    }
}

/// Adds bytes for which there is room, so that no memory is taken.
pub fn add_within(to: &mut Vec<u8>, bytes: &[u8])
    requires { vec_len to.old + length bytes.now ≤ vec_capacity to.old }
    ensures added { to.new.items ≡ to.old.items ++ bytes.now }
    ensures len { vec_len to.new ≡ vec_len to.old + length bytes.now }
    ensures capacity { vec_capacity to.old ≤ vec_capacity to.new }
{
    // The room is there, so this cannot fail.
    let _ = to.extend_from_slice(bytes);
}
