//! Where bytes come from.
ghost use Rattle.std.specs.Prelude.{◌≡◌, ◌<◌, ◌≤◌, ◌+◌, ◌-◌, List, ℕ, Option, Some, None, ⊤, take, length, vec_len, IfOk, IfErr, OnOk, OnErr};
ghost use Rattle.ffi3_io_spec.specs.Source.{Gives, GivesAfter, GivesFirst, HasRead, HasReadAll, HasFailed, HasOneMore, FailsNext, IsEndAtZero, LosesSome, Rose, SourceState};

use crate::{Failed, IoError};
use std::alloc::Global;

/// Gives bytes, and counts the reads that failed.
pub trait Source {
    /// The bytes left, where the source tells them, and how many reads failed. The count never falls.
    ghost state: { Self → SourceState };

    /// What a read gives, told or not: from one state of the source, into room for so many bytes,
    /// these bytes, or none at all where it fails, and the state after that.
    ghost read_gives: { Self → ℕ → Option (List ℕ) → Self → Type 0 } = { λ _ _ _ _. ⊤ };

    /// Puts bytes at the start of a buffer, and says how many. For a buffer that is not empty 0 is
    /// the end.
    ///
    /// Fails only where the count of faults rose in this call, or stands at 2^64 - 1; the bytes left
    /// are then as they were.
    fn read(&mut self, buf: &mut [u8]) -> Result<usize, Failed>
        ensures within { IfOk result (λ n. n ≤ length buf.old) }
        ensures gives { IfOk result (λ n. Gives (state self.old).left (take n buf.new) (state self.new).left) }
        ensures end { IfOk result (λ n. 0 < length buf.old → IsEndAtZero (state self.old).left n) }
        ensures same { OnOk result ((state self.new).faults ≡ (state self.old).faults) }
        ensures failed { OnErr result (Rose (state self.old).faults (state self.new).faults) }
        ensures never_falls { (state self.old).faults ≤ (state self.new).faults }
        ensures kept { OnErr result ((state self.new).left ≡ (state self.old).left) }
        ensures gave { IfOk result (λ n. read_gives self.old (length buf.old) (Some (take n buf.new)) self.new) }
        ensures broke { OnErr result (read_gives self.old (length buf.old) None self.new) };
}

/// Reads until a read gives nothing, or until this many bytes were taken. Every read before that
/// takes at least one byte, and none has room for more than is still wanted: so reading ends, also
/// of a source that does not tell what it has left.
///
/// At `Failed` a read failed, and the count of faults rose, or stands at 2^64 - 1; at `NoMemory` it
/// is as it was. The bytes taken until then are lost.
pub fn read_all<I: Source>(alloc: Global, input: &mut I, limit: usize) -> Result<Vec<u8>, IoError>
    ensures within { IfOk result (λ v. length v.items ≤ limit) }
    ensures first { IfOk result (λ v. GivesFirst limit (I.state input.old).left v.items (I.state input.new).left) }
    ensures same { OnOk result ((I.state input.new).faults ≡ (I.state input.old).faults) }
    ensures failed { IfErr result (λ e. e ≡ IoError.Failed → Rose (I.state input.old).faults (I.state input.new).faults) }
    ensures no_memory { IfErr result (λ e. e ≡ IoError.NoMemory → (I.state input.new).faults ≡ (I.state input.old).faults) }
    ensures never_falls { (I.state input.old).faults ≤ (I.state input.new).faults }
    ensures lost { OnErr result (LosesSome limit (I.state input.old).left (I.state input.new).left) }
    ensures read { IfOk result (λ v. HasReadAll I.read_gives limit input.old v.items input.new) }
    ensures broke { IfErr result (λ e. e ≡ IoError.Failed → HasFailed I.read_gives limit input.old input.new) }
    ensures until { IfErr result (λ e. e ≡ IoError.NoMemory →
        (bytes : List ℕ) × HasRead I.read_gives limit input.old bytes input.new) }
{
    let mut bytes = Vec::new(alloc);
    let mut buf = [0u8; 4096];
    while bytes.len() < limit {
        match read_on(input, &mut buf, &mut bytes, limit) {
            Ok(0) => break,
            Ok(_) => {}
            Err(end) => return Err(end),
        }
    }
    Ok(bytes)
}

/// One read, of at most as many bytes as are still wanted, put after those read before. Says how
/// many it gave.
fn read_on<I: Source>(
    input: &mut I,
    buf: &mut [u8],
    bytes: &mut Vec<u8>,
    limit: usize,
) -> Result<usize, IoError>
    requires room { 0 < length buf.old }
    requires wanted { vec_len bytes.old < limit }
    ensures within { IfOk result (λ n. vec_len bytes.old + n ≤ limit) }
    ensures gives { IfOk result (λ n. GivesAfter n (I.state input.old).left bytes.old.items bytes.new.items (I.state input.new).left) }
    ensures end { IfOk result (λ n. IsEndAtZero (I.state input.old).left n) }
    ensures same { OnOk result ((I.state input.new).faults ≡ (I.state input.old).faults) }
    ensures failed { IfErr result (λ e. e ≡ IoError.Failed → Rose (I.state input.old).faults (I.state input.new).faults) }
    ensures no_memory { IfErr result (λ e. e ≡ IoError.NoMemory → (I.state input.new).faults ≡ (I.state input.old).faults) }
    ensures never_falls { (I.state input.old).faults ≤ (I.state input.new).faults }
    ensures lost { OnErr result (LosesSome (limit - vec_len bytes.old) (I.state input.old).left (I.state input.new).left) }
    ensures one { IfOk result (λ n. HasOneMore I.read_gives limit input.old bytes.old.items n bytes.new.items input.new) }
    ensures broke { IfErr result (λ e. e ≡ IoError.Failed → FailsNext I.read_gives limit input.old bytes.old.items input.new) }
    ensures until { IfErr result (λ e. e ≡ IoError.NoMemory →
        (n : ℕ) × (0 < n) × (after : List ℕ) × HasOneMore I.read_gives limit input.old bytes.old.items n after input.new) }
{
    let most = buf.len().min(limit - bytes.len());
    let Ok(n) = input.read(&mut buf[..most]) else {
        return Err(IoError::Failed);
    };
    if n == 0 {
        return Ok(0);
    }
    if bytes.extend_from_slice(&buf[..n]).is_err() {
        return Err(IoError::NoMemory);
    }
    Ok(n)
}
