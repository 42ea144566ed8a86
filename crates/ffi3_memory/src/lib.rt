//! A region of memory: bytes that stand at the addresses from a base on.
#![tactic(auto)]

ghost use Rattle.std.specs.Prelude.{◌≡◌, ◌<◌, ◌≤◌, ◌+◌, ◌^◌, ◌↔◌, length, take, drop, replicate, [], IfOk, IsTrue};
ghost use Rattle.std.specs.List.{replace_range};
ghost use Rattle.ffi3_machine_spec.specs.Memory.{LiesIn, range_of, with_bytes, IsWidth, number_of, low_bytes};

/// A want of memory: the one answer that no clause ties to a cause.
pub use std::alloc::AllocError as NoMemory;

mod block;

use block::Block;
use std::alloc::{AllocError, Global};
use std::marker::Model;
use std_alloc::vec::Lodged;

/// Bytes at the addresses from a base on. Numbers stand in them in little-endian order.
///
/// They lie in one block of raw memory, which the region owns, and which goes back when the region is dropped. The
/// address `base` is a number that the region is told: it says nothing of where the block lies.
pub struct Region {
    base: u64,
    bytes: Vec<u8, Lodged>,
    block: Block<Global>,
    alloc: Global,
}

impl Model for Region {
    ghost use Rattle.std.specs.Prelude.{◌≡◌, ◌<◌, ◌+◌, ◌^◌, length};
    ghost use Rattle.ffi3_machine_spec.specs.Memory.{Memory};

    ghost Value = { Memory };

    ghost view = { λ r. record { base = r.base; bytes = r.bytes.items } };

    ghost invariant = { λ r. (r.base + length r.bytes.items < 2 ^ 64)
        × (r.bytes.ptr ≡ r.block.ptr) × (r.bytes.cap ≡ r.block.size) × (r.block.alloc ≡ r.alloc) };
}

impl Drop for Region {
    fn drop(self) {
        let Region {
            base: _,
            bytes,
            block,
            alloc,
        } = self;
        block.give(bytes, &alloc);
    }
}

impl Region {
    /// `len` zero bytes from the address `base` on.
    pub fn new(alloc: Global, base: u64, len: u64) -> Result<Region, NoMemory>
        requires { base + len < 2 ^ 64 }
        ensures { IfOk result (λ r. r ≡ record { base = base; bytes = replicate len 0 }) }
    {
        if len > 0x7FFF_FFFF_FFFF_FFFF {
            return Err(AllocError);
        }
        let len = len as usize;
        let size = if len == 0 { 1 } else { len };
        match Block::take(&alloc, size) {
            Some((unwritten, block)) => {
                let bytes = zeros(unwritten, len);
                Ok(Region {
                    base,
                    bytes,
                    block,
                    alloc,
                })
            }
            None => Err(AllocError),
        }
    }

    /// Whether the `len` bytes from `addr` on lie in the region.
    pub fn has(&self, addr: u64, len: u64) -> bool
        ensures { IsTrue result ↔ LiesIn self.now addr len }
    {
        let count = self.bytes.len() as u64;
        if addr < self.base {
            return false;
        }
        let at = addr - self.base;
        at <= count && len <= count - at
    }

    /// The `len` bytes from `addr` on, which lie in the region.
    pub fn lend(&self, addr: u64, len: u64) -> &[u8]
        requires low { self.now.base ≤ addr }
        requires high { addr + len ≤ self.now.base + length self.now.bytes }
        ensures value { result.now ≡ range_of self.now addr len }
        ensures len { length result.now ≡ len }
    {
        let at = (addr - self.base) as usize;
        &self.bytes[at..at + len as usize]
    }

    /// The number that `width` bytes from `addr` on make. They lie in the region, and `width` is 1, 2, 4 or 8.
    pub fn load(&self, addr: u64, width: u8) -> u64
        requires width { IsWidth width }
        requires low { self.now.base ≤ addr }
        requires high { addr + width ≤ self.now.base + length self.now.bytes }
        ensures { result ≡ number_of width (range_of self.now addr width) }
    {
        number(self.lend(addr, u64::from(width)))
    }

    /// Replaces the bytes from `addr` on by these. Their places lie in the region.
    pub fn copy_in(&mut self, addr: u64, bytes: &[u8])
        requires low { self.old.base ≤ addr }
        requires high { addr + length bytes.now ≤ self.old.base + length self.old.bytes }
        ensures { self.new ≡ with_bytes addr bytes.now self.old }
    {
        let at = (addr - self.base) as usize;
        self.bytes[at..at + bytes.len()].copy_from_slice(bytes);
    }

    /// Replaces `width` bytes from `addr` on by the lowest bytes of `value`. They lie in the region, and `width` is 1,
    /// 2, 4 or 8.
    pub fn store(&mut self, addr: u64, width: u8, value: u64)
        requires width { IsWidth width }
        requires low { self.old.base ≤ addr }
        requires high { addr + width ≤ self.old.base + length self.old.bytes }
        ensures { self.new ≡ with_bytes addr (low_bytes width value) self.old }
    {
        let bytes = value.to_le_bytes();
        self.copy_in(addr, lowest(&bytes, width));
    }

    /// Replaces the `len` bytes from `addr` on by as many of `byte`. They lie in the region.
    pub fn fill(&mut self, addr: u64, len: u64, byte: u8)
        requires low { self.old.base ≤ addr }
        requires high { addr + len ≤ self.old.base + length self.old.bytes }
        ensures { self.new ≡ with_bytes addr (replicate len byte) self.old }
    {
        let at = (addr - self.base) as usize;
        self.bytes[at..at + len as usize].fill(byte);
    }

    /// Copies the `len` bytes from `from` on to the places from `to` on, as through a buffer. Both ranges lie in the
    /// region.
    pub fn copy_within(&mut self, from: u64, to: u64, len: u64)
        requires from_low { self.old.base ≤ from }
        requires from_high { from + len ≤ self.old.base + length self.old.bytes }
        requires to_low { self.old.base ≤ to }
        requires to_high { to + len ≤ self.old.base + length self.old.bytes }
        ensures { self.new ≡ with_bytes to (range_of self.old from len) self.old }
    {
        let from = (from - self.base) as usize;
        let to = (to - self.base) as usize;
        move_within(self.bytes.as_mut_slice(), from, to, len as usize);
    }
}

/// Copies as through a buffer: in the order in which no byte is written before it is read.
fn move_within(bytes: &mut [u8], from: usize, to: usize, len: usize)
    requires from_high { from + len ≤ length bytes.old }
    requires to_high { to + len ≤ length bytes.old }
    ensures { bytes.new ≡ replace_range bytes.old to (to + len) (take len (drop from bytes.old)) }
{
    if to <= from {
        move_down(bytes, from, to, len);
    } else {
        move_up(bytes, from, to, len);
    }
}

/// Copies to lower places, the first byte first: each is read before its place is written.
fn move_down(bytes: &mut [u8], from: usize, to: usize, len: usize)
    requires down { to ≤ from }
    requires high { from + len ≤ length bytes.old }
    ensures { bytes.new ≡ replace_range bytes.old to (to + len) (take len (drop from bytes.old)) }
{
    for i in 0..len {
        bytes[to + i] = bytes[from + i];
    }
}

/// Copies to higher places, the last byte first.
fn move_up(bytes: &mut [u8], from: usize, to: usize, len: usize)
    requires up { from ≤ to }
    requires high { to + len ≤ length bytes.old }
    ensures { bytes.new ≡ replace_range bytes.old to (to + len) (take len (drop from bytes.old)) }
{
    let mut rest = len;
    while rest > 0 {
        rest -= 1;
        bytes[to + rest] = bytes[from + rest];
    }
}

/// The first `len` bytes of an unwritten block, now zero.
fn zeros(bytes: Vec<u8, Lodged>, len: usize) -> Vec<u8, Lodged>
    requires room { len ≤ bytes.cap }
    requires unwritten { bytes.items ≡ [] }
    ensures value { result.items ≡ replicate len 0 }
    ensures place { (result.ptr ≡ bytes.ptr) × (result.cap ≡ bytes.cap) }
{
    let mut bytes = bytes;
    for i in 0..len {
        bytes.insert_reserved(i, 0);
    }
    bytes
}

/// The number that 1, 2, 4 or 8 bytes make.
fn number(bytes: &[u8]) -> u64
    requires { IsWidth (length bytes.now) }
    ensures { result ≡ number_of (length bytes.now) bytes.now }
{
    match bytes.len() {
        1 => u64::from(bytes[0]),
        2 => u64::from(u16::from_le_bytes([bytes[0], bytes[1]])),
        4 => u64::from(u32::from_le_bytes([bytes[0], bytes[1], bytes[2], bytes[3]])),
        _ => u64::from_le_bytes([
            bytes[0], bytes[1], bytes[2], bytes[3], bytes[4], bytes[5], bytes[6], bytes[7],
        ]),
    }
}

/// The first bytes of a number's eight.
fn lowest(bytes: &[u8; 8], width: u8) -> &[u8]
    requires { width ≤ 8 }
    ensures { result.now ≡ take width bytes.now }
{
    &bytes[..width as usize]
}
