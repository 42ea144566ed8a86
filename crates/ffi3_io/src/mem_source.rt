//! A source in memory that fails at chosen calls.
ghost use Rattle.std.specs.Prelude.{◌≡◌, ◌<◌, ◌≤◌, ◌++◌, ◌-◌, ◌^◌, Some, take, drop, min, length, Contains, IfOk, OnOk, OnErr};
ghost use Rattle.ffi3_io_spec.specs.Count.{next_count};
ghost use Rattle.ffi3_io.specs.Memory.{MemoryGives};
ghost use Rattle.ffi3_io_spec.specs.Source.{Gives, IsEndAtZero, Rose};

use crate::due::is_due;
use crate::sure_source::copy_start;
use crate::{Failed, Source};
use std::marker::Model;

/// Bytes in memory, the most of them that one read gives, and the numbers of the reads that fail.
/// Reads are numbered from 1, and the number stays at 2^64 - 1.
#[derive(Drop)]
pub struct MemSource {
    bytes: Vec<u8>,
    at: usize,
    chunk: usize,
    fails: Vec<u64>,
    calls: u64,
    count: u64,
}

impl Model for MemSource {
    ghost use Rattle.std.specs.Prelude.{◌<◌, ◌≤◌, drop, length};
    ghost use Rattle.ffi3_io.specs.Memory.{MemSourceState};

    ghost Value = { MemSourceState };

    ghost view = { λ s. record {
      left = drop s.at s.bytes.items;
      chunk = s.chunk;
      fails = s.fails.items;
      calls = s.calls;
      faults = s.count;
    } };

    ghost invariant = { λ s. (s.at ≤ length s.bytes.items) × (0 < s.chunk) };
}

impl MemSource {
    /// A source of these bytes, whose reads of these numbers fail, and give as much as there is room
    /// for.
    pub fn new(bytes: Vec<u8>, fails: Vec<u64>) -> MemSource
        ensures left { result.left ≡ bytes.items }
        ensures chunk { result.chunk ≡ 2 ^ 64 - 1 }
        ensures fails { result.fails ≡ fails.items }
        ensures calls { result.calls ≡ 0 }
        ensures faults { result.faults ≡ 0 }
    {
        MemSource {
            bytes,
            at: 0,
            chunk: usize::MAX,
            fails,
            calls: 0,
            count: 0,
        }
    }

    /// The same source, each of whose reads gives at most n bytes.
    pub fn chunk(self, n: usize) -> MemSource
        requires { 0 < n }
        ensures chunk { result.chunk ≡ n }
        ensures left { result.left ≡ self.left }
        ensures fails { result.fails ≡ self.fails }
        ensures calls { result.calls ≡ self.calls }
        ensures faults { result.faults ≡ self.faults }
    {
        MemSource { chunk: n, ..self }
    }
}

impl Source for MemSource {
    ghost state = { λ s. record { left = Some s.left; faults = s.faults } };

    ghost read_gives = { MemoryGives };

    /// Fails exactly where the call's number is one of those that fail. Gives as much as is left and
    /// fits, and at most the chunk.
    fn read(&mut self, buf: &mut [u8]) -> Result<usize, Failed>
        ensures within { IfOk result (λ n. n ≤ length buf.old) }
        ensures gives { IfOk result (λ n. Gives (Some self.old.left) (take n buf.new) (Some self.new.left)) }
        ensures end { IfOk result (λ n. 0 < length buf.old → IsEndAtZero (Some self.old.left) n) }
        ensures same { OnOk result (self.new.faults ≡ self.old.faults) }
        ensures failed { OnErr result (Rose self.old.faults self.new.faults) }
        ensures never_falls { self.old.faults ≤ self.new.faults }
        ensures kept { OnErr result (Some self.new.left ≡ Some self.old.left) }
        ensures calls { self.new.calls ≡ next_count self.old.calls }
        ensures fails { self.new.fails ≡ self.old.fails }
        ensures chunk { self.new.chunk ≡ self.old.chunk }
        ensures due { OnErr result (Contains self.old.fails self.new.calls) }
        ensures not_due { OnOk result (¬ Contains self.old.fails self.new.calls) }
        ensures counted { OnErr result (self.new.faults ≡ next_count self.old.faults) }
        ensures count { IfOk result (λ n. n ≡ min (length self.old.left) (min (length buf.old) self.old.chunk)) }
        ensures rest { IfOk result (λ n. self.new.left ≡ drop n self.old.left) }
        ensures copied { IfOk result (λ n. buf.new ≡ take n self.old.left ++ drop n buf.old) }
        ensures untouched { OnErr result (buf.new ≡ buf.old) }
    {
        self.calls = self.calls.saturating_add(1);
        if is_due(&self.fails, self.calls) {
            self.count = self.count.saturating_add(1);
            return Err(Failed);
        }
        let left = &self.bytes[self.at..];
        let n = copy_start(&left[..left.len().min(self.chunk)], buf);
        self.at += n;
        Ok(n)
    }
}
