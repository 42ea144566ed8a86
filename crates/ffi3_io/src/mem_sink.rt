//! A sink in memory with a room, that fails at chosen calls.
ghost use Rattle.std.specs.Prelude.{◌≡◌, ◌<◌, ◌≤◌, ◌-◌, ◌^◌, ◌++◌, ◌⊎◌, [], Some, take, min, length, Contains, IfOk, OnOk, OnErr};
ghost use Rattle.ffi3_io_spec.specs.Count.{next_count};
ghost use Rattle.ffi3_io_spec.specs.Sink.{Adds, Rose};

use crate::due::is_due;
use crate::sure_sink::add_within;
use crate::{Failed, NoMemory, Sink};
use std::alloc::Global;
use std::marker::Model;

/// Bytes taken in memory, the room for them, the most that one write takes, and the numbers of the
/// writes that fail. Writes are numbered from 1, and the number stays at 2^64 - 1.
#[derive(Drop)]
pub struct MemSink {
    bytes: Vec<u8>,
    room: usize,
    chunk: usize,
    fails: Vec<u64>,
    calls: u64,
    count: u64,
}

impl Model for MemSink {
    ghost use Rattle.std.specs.Prelude.{◌<◌, ◌≤◌, vec_len, vec_capacity};
    ghost use Rattle.ffi3_io.specs.Memory.{MemSinkState};

    ghost Value = { MemSinkState };

    ghost view = { λ s. record {
      taken = s.bytes.items;
      room = s.room;
      chunk = s.chunk;
      fails = s.fails.items;
      calls = s.calls;
      faults = s.count;
    } };

    ghost invariant = { λ s. (vec_len s.bytes ≤ s.room) × (s.room ≤ vec_capacity s.bytes) × (0 < s.chunk) };
}

impl MemSink {
    /// A sink with room for this many bytes, whose writes of these numbers fail, and take as much as
    /// fits.
    pub fn new(alloc: Global, room: usize, fails: Vec<u64>) -> Result<MemSink, NoMemory>
        ensures taken { IfOk result (λ s. s.taken ≡ []) }
        ensures room { IfOk result (λ s. s.room ≡ room) }
        ensures chunk { IfOk result (λ s. s.chunk ≡ 2 ^ 64 - 1) }
        ensures fails { IfOk result (λ s. s.fails ≡ fails.items) }
        ensures calls { IfOk result (λ s. s.calls ≡ 0) }
        ensures faults { IfOk result (λ s. s.faults ≡ 0) }
    {
        Ok(MemSink {
            bytes: Vec::with_capacity(alloc, room)?,
            room,
            chunk: usize::MAX,
            fails,
            calls: 0,
            count: 0,
        })
    }

    /// The same sink, each of whose writes takes at most n bytes.
    pub fn chunk(self, n: usize) -> MemSink
        requires { 0 < n }
        ensures chunk { result.chunk ≡ n }
        ensures taken { result.taken ≡ self.taken }
        ensures room { result.room ≡ self.room }
        ensures fails { result.fails ≡ self.fails }
        ensures calls { result.calls ≡ self.calls }
        ensures faults { result.faults ≡ self.faults }
    {
        MemSink { chunk: n, ..self }
    }

    /// The bytes taken.
    pub fn taken(&self) -> &[u8]
        ensures { result.now ≡ self.now.taken }
    {
        self.bytes.as_slice()
    }
}

impl Sink for MemSink {
    ghost state = { λ s. record { taken = Some s.taken; faults = s.faults } };

    /// Fails exactly where the call's number is one of those that fail, or no room is left for a piece
    /// that is not empty. Takes as much as fits, and at most the chunk.
    fn write(&mut self, bytes: &[u8]) -> Result<usize, Failed>
        ensures some { IfOk result (λ n. 0 < length bytes.now → 0 < n) }
        ensures within { IfOk result (λ n. n ≤ length bytes.now) }
        ensures adds { IfOk result (λ n. Adds (Some self.old.taken) (take n bytes.now) (Some self.new.taken)) }
        ensures same { OnOk result (self.new.faults ≡ self.old.faults) }
        ensures failed { OnErr result (Rose self.old.faults self.new.faults) }
        ensures never_falls { self.old.faults ≤ self.new.faults }
        ensures nothing { OnErr result (Adds (Some self.old.taken) [] (Some self.new.taken)) }
        ensures calls { self.new.calls ≡ next_count self.old.calls }
        ensures fails { self.new.fails ≡ self.old.fails }
        ensures room { self.new.room ≡ self.old.room }
        ensures chunk { self.new.chunk ≡ self.old.chunk }
        ensures fits { length self.new.taken ≤ self.new.room }
        ensures due { OnErr result (Contains self.old.fails self.new.calls ⊎ ((length self.old.taken ≡ self.old.room) × (0 < length bytes.now))) }
        ensures not_due { OnOk result (¬ Contains self.old.fails self.new.calls) }
        ensures counted { OnErr result (self.new.faults ≡ next_count self.old.faults) }
        ensures count { IfOk result (λ n. n ≡ min (length bytes.now) (min (self.old.room - length self.old.taken) self.old.chunk)) }
        ensures added { IfOk result (λ n. self.new.taken ≡ self.old.taken ++ take n bytes.now) }
        ensures kept { OnErr result (self.new.taken ≡ self.old.taken) }
    {
        self.calls = self.calls.saturating_add(1);
        let free = self.room - self.bytes.len();
        if is_due(&self.fails, self.calls) || (free == 0 && !bytes.is_empty()) {
            self.count = self.count.saturating_add(1);
            return Err(Failed);
        }
        let n = bytes.len().min(free).min(self.chunk);
        add_within(&mut self.bytes, &bytes[..n]);
        Ok(n)
    }
}
