//! Bytes of a leaf or a text.
ghost use Rattle.std.specs.Prelude.{◌≡◌, ◌++◌, ◌∷◌, [], ◌<◌, IfOk, OnOk, OnErr, length, slice_index};

use crate::NoMemory;
use std::alloc::Global;
use std::marker::Model;

/// A list of bytes: those of a scalar in memory order, or of a text.
#[derive(Debug, Drop)]
pub struct Bytes {
    bytes: Vec<u8>,
}

impl Model for Bytes {
    ghost use Rattle.std.specs.Prelude.{List, ℕ};

    ghost Value = { List ℕ };

    ghost view = { λ b. b.bytes.items };
}

impl Bytes {
    /// No bytes.
    pub fn new(alloc: Global) -> Bytes
        ensures { result ≡ [] }
    {
        Bytes {
            bytes: Vec::new(alloc),
        }
    }

    /// No bytes, with room for so many.
    pub fn with_capacity(alloc: Global, capacity: usize) -> Result<Bytes, NoMemory>
        ensures { IfOk result (λ b. b ≡ []) }
    {
        Ok(Bytes {
            bytes: Vec::with_capacity(alloc, capacity)?,
        })
    }

    /// These bytes.
    pub fn from_slice(alloc: Global, bytes: &[u8]) -> Result<Bytes, NoMemory>
        ensures { IfOk result (λ b. b ≡ bytes.now) }
    {
        Ok(Bytes {
            bytes: Vec::from_slice(alloc, bytes)?,
        })
    }

    /// All the bytes.
    pub fn as_slice(&self) -> &[u8]
        ensures { result.now ≡ self.now }
    {
        self.bytes.as_slice()
    }

    /// How many bytes there are.
    pub fn len(&self) -> usize
        ensures { result ≡ length self.now }
    {
        self.bytes.len()
    }

    /// Byte `i`.
    pub fn get(&self, i: usize) -> &u8
        requires { i < length self.now }
        ensures { result.now ≡ slice_index self.now i }
    {
        &self.bytes[i]
    }

    /// One more byte. Refused, it leaves the list as it was.
    pub fn push(&mut self, item: u8) -> Result<(), NoMemory>
        ensures ok { OnOk result (self.new ≡ self.old ++ item ∷ []) }
        ensures err { OnErr result (self.new ≡ self.old) }
    {
        self.bytes.push(item)?;
        Ok(())
    }

    /// More bytes at the end. Refused, it leaves the list as it was.
    pub fn extend(&mut self, bytes: &[u8]) -> Result<(), NoMemory>
        ensures ok { OnOk result (self.new ≡ self.old ++ bytes.now) }
        ensures err { OnErr result (self.new ≡ self.old) }
    {
        self.bytes.extend_from_slice(bytes)
    }
}
