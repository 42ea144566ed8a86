//! The memory of a machine: the stack, with the mark of the lowest address written, the code region and the exchange
//! region.
ghost use Rattle.std.specs.Prelude.{◌≡◌, ◌≤◌, ◌+◌, length};
ghost use Rattle.ffi3_machine_spec.specs.State.{code_at, filled, stack_at, stored, with_code, with_x, x_of};

use crate::{CODE, CODE_END, EXCHANGE, EXCHANGE_BYTES, Machine, STACK, STACK_TOP};

impl Machine {
    /// Writes bytes to the stack. The mark falls to `addr` if that is lower, and there are bytes.
    pub fn store_stack(&mut self, addr: u64, bytes: &[u8])
        requires low { STACK ≤ addr }
        requires high { addr + length bytes.now ≤ STACK_TOP }
        ensures { self.new ≡ stored addr bytes.now self.old }
    {
        self.stack.copy_in(addr, bytes);
        if bytes.len() != 0 && addr < self.mark {
            self.mark = addr;
        }
    }

    /// Writes `len` times a byte to the stack. The mark falls to `addr` if that is lower, and `len` is not 0.
    pub fn fill_stack(&mut self, addr: u64, len: u64, byte: u8)
        requires low { STACK ≤ addr }
        requires high { addr + len ≤ STACK_TOP }
        ensures { self.new ≡ filled addr len byte self.old }
    {
        self.stack.fill(addr, len, byte);
        if len != 0 && addr < self.mark {
            self.mark = addr;
        }
    }

    /// Copies `len` bytes of the stack to other places of it, as through a buffer. The mark falls to `to` if that is
    /// lower, and `len` is not 0.
    pub fn copy_stack(&mut self, from: u64, to: u64, len: u64)
        requires from_low { STACK ≤ from }
        requires from_high { from + len ≤ STACK_TOP }
        requires to_low { STACK ≤ to }
        requires to_high { to + len ≤ STACK_TOP }
        ensures { self.new ≡ stored to (stack_at from len self.old) self.old }
    {
        self.stack.copy_within(from, to, len);
        if len != 0 && to < self.mark {
            self.mark = to;
        }
    }

    /// `len` bytes of the stack.
    pub fn lend_stack(&self, addr: u64, len: u64) -> &[u8]
        requires low { STACK ≤ addr }
        requires high { addr + len ≤ STACK_TOP }
        ensures value { result.now ≡ stack_at addr len self.now }
        ensures len { length result.now ≡ len }
    {
        self.stack.lend(addr, len)
    }

    /// Writes bytes to the code region.
    pub fn write_code(&mut self, addr: u64, bytes: &[u8])
        requires low { CODE ≤ addr }
        requires high { addr + length bytes.now ≤ CODE_END }
        ensures { self.new ≡ with_code addr bytes.now self.old }
    {
        self.code.copy_in(addr, bytes);
    }

    /// `len` bytes of the code region.
    pub fn lend_code(&self, addr: u64, len: u64) -> &[u8]
        requires low { CODE ≤ addr }
        requires high { addr + len ≤ CODE_END }
        ensures value { result.now ≡ code_at addr len self.now }
        ensures len { length result.now ≡ len }
    {
        self.code.lend(addr, len)
    }

    /// The eight bytes of the exchange region from place `at` on.
    pub fn x(&self, at: u64) -> u64
        requires { at + 8 ≤ EXCHANGE_BYTES }
        ensures { result ≡ x_of at self.now }
    {
        self.exchange.load(EXCHANGE + at, 8)
    }

    /// Writes eight bytes of the exchange region from place `at` on.
    pub fn set_x(&mut self, at: u64, value: u64)
        requires { at + 8 ≤ EXCHANGE_BYTES }
        ensures { self.new ≡ with_x at value self.old }
    {
        self.exchange.store(EXCHANGE + at, 8, value);
    }
}
