//! A source in memory that never fails.
ghost use Rattle.std.specs.Prelude.{◌≡◌, ◌<◌, ◌≤◌, ◌++◌, Some, take, drop, min, length, IsOk, IfOk};
ghost use Rattle.ffi3_io.specs.Memory.{SureGives};
ghost use Rattle.ffi3_io_spec.specs.Source.{Gives, IsEndAtZero};

use crate::{Failed, Source};
use std::marker::Model;

/// Bytes in memory.
#[derive(Drop)]
pub struct SureSource {
    bytes: Vec<u8>,
    at: usize,
}

impl Model for SureSource {
    ghost use Rattle.std.specs.Prelude.{◌≤◌, drop, length};
    ghost use Rattle.ffi3_io.specs.Memory.{SureSourceState};

    ghost Value = { SureSourceState };

    ghost view = { λ s. record { left = drop s.at s.bytes.items } };

    ghost invariant = { λ s. s.at ≤ length s.bytes.items };
}

impl SureSource {
    /// A source of these bytes.
    pub fn new(bytes: Vec<u8>) -> SureSource
        ensures { result.left ≡ bytes.items }
    {
        SureSource { bytes, at: 0 }
    }
}

impl Source for SureSource {
    ghost state = { λ s. record { left = Some s.left; faults = 0 } };

    ghost read_gives = { SureGives };

    /// Never fails. Gives as much as is left and fits.
    fn read(&mut self, buf: &mut [u8]) -> Result<usize, Failed>
        ensures within { IfOk result (λ n. n ≤ length buf.old) }
        ensures gives { IfOk result (λ n. Gives (Some self.old.left) (take n buf.new) (Some self.new.left)) }
        ensures end { IfOk result (λ n. 0 < length buf.old → IsEndAtZero (Some self.old.left) n) }
        ensures sure { IsOk result }
        ensures count { IfOk result (λ n. n ≡ min (length self.old.left) (length buf.old)) }
        ensures rest { IfOk result (λ n. self.new.left ≡ drop n self.old.left) }
        ensures copied { IfOk result (λ n. buf.new ≡ take n self.old.left ++ drop n buf.old) }
    {
        let n = copy_start(&self.bytes[self.at..], buf);
        self.at += n;
        Ok(n)
    }
}

/// Copies as many bytes as both have, from the start of one to the start of the other, and says how
/// many.
pub fn copy_start(from: &[u8], to: &mut [u8]) -> usize
    ensures count { result ≡ min (length from.now) (length to.old) }
    ensures copied { to.new ≡ take result from.now ++ drop result to.old }
{
    let n = from.len().min(to.len());
    to[..n].copy_from_slice(&from[..n]);
    n
}
