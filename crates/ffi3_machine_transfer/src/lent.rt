//! A machine that is lent to the core of transfers, which reads and writes what a call passes.
ghost use Rattle.std.specs.Prelude.{◌≡◌, ℕ, ◌+◌, ◌-◌, ◌<◌, ◌≤◌, false, length, refl};
ghost use Rattle.std.proofs.Common.{◌∙◌};
ghost use Rattle.ffi3_type_spec.specs.Value.{part};
ghost use Rattle.ffi3_type_spec.specs.declared.limits.TheConstants.{STACK, STACK_TOP};
ghost use Rattle.ffi3_type_spec.specs.TargetIsa.{isa_of};
ghost use Rattle.ffi3_place_spec.specs.MachineRegisters.{is_zero_register};
ghost use Rattle.ffi3_marshal.specs.Stored.{stored, with_floating, with_general};
ghost use Rattle.ffi3_machine_transfer.specs.Passing.{passing};
ghost use Rattle.ffi3_machine_transfer.specs.Lent.{ChangesWithin, image_passed};

use crate::registers::{pass_floating, pass_general, passed_floating, passed_general};
use ffi3_machine::{Machine, StackBase};
use ffi3_marshal::{ReadImage, WriteImage};
use ffi3_type_spec::limits::{STACK, STACK_TOP};

/// A machine that is read.
#[derive(Clone, Copy)]
pub(crate) struct Shown<'a> {
    pub(crate) machine: &'a Machine,
}

/// A machine that is written to.
#[derive(Drop)]
pub(crate) struct Lent<'a> {
    pub(crate) machine: &'a mut Machine,
}

impl<'a> ReadImage for Shown<'a> {
    ghost image = { λ s. image_passed (passing s.machine.now) };

    ghost floatings = { 32 };

    fn general(&self, k: u8) -> u64 {
        passed_general(self.machine, k)
    }

    fn floating(&self, k: u8) -> u64 {
        passed_floating(self.machine, k)
    }

    fn sp(&self) -> u64 {
        STACK
    }

    fn stack_len(&self) -> u64 {
        stack_len(self.machine)
    }

    fn read_stack(&self, from: u64, out: &mut [u8]) {
        read_stack(self.machine, from, out);
    }
}

impl<'a> ReadImage for Lent<'a> {
    ghost image = { λ s. image_passed (passing s.machine.now) };

    ghost floatings = { 32 };

    fn general(&self, k: u8) -> u64 {
        passed_general(&*self.machine, k)
    }

    fn floating(&self, k: u8) -> u64 {
        passed_floating(&*self.machine, k)
    }

    fn sp(&self) -> u64 {
        STACK
    }

    fn stack_len(&self) -> u64 {
        stack_len(&*self.machine)
    }

    fn read_stack(&self, from: u64, out: &mut [u8]) {
        read_stack(&*self.machine, from, out);
    }
}

impl<'a> WriteImage for Lent<'a> {
    ghost use Rattle.ffi3_machine_transfer.specs.Lent.{changes_nothing, changes_then, still_written};

    ghost takes = { λ s k. is_zero_register (isa_of s.machine.now.target) k ≡ false };

    // it is still the caller's
    ghost wrote = { λ low high a b. (b.machine.ghost_name ≡ a.machine.ghost_name) × ChangesWithin low high a.machine.now b.machine.now };

    fn set_general(&mut self, k: u8, value: u64) {
        set_general(self.machine, k, value);
    }

    fn set_floating(&mut self, k: u8, value: u64) {
        set_floating(self.machine, k, value);
    }

    fn write_stack(&mut self, from: u64, bytes: &[u8]) {
        write_stack(self.machine, from, bytes);
    }

    ghost wrote_nothing = { λ low high a. (refl, changes_nothing low high a.machine.now) };

    ghost wrote_then = { λ low high a b c first then. (then.0 ∙ first.0, changes_then low high a.machine.now b.machine.now c.machine.now first.1 then.1) };

    ghost still_takes = { λ low high k a b wrote takes. still_written low high k a.machine.now b.machine.now wrote.1 takes };
}

/// How far the address `base` lies above the lowest of the stack.
pub(crate) fn offset_of(machine: &Machine, base: StackBase) -> u64
    ensures at { base ≡ STACK + result }
    ensures room { length (passing machine.now).stack - result ≡ STACK_TOP - base }
    ensures within { result ≤ length (passing machine.now).stack }
{
    machine.facts();
    base.address() - STACK
}

/// How many bytes the stack has.
fn stack_len(machine: &Machine) -> u64
    ensures { result ≡ length (passing machine.now).stack }
{
    machine.facts();
    STACK_TOP - STACK
}

/// Reads as many bytes of the stack as there is room for, from an offset on.
fn read_stack(machine: &Machine, from: u64, out: &mut [u8])
    requires { from + length out.old ≤ length (passing machine.now).stack }
    ensures { out.new ≡ part (passing machine.now).stack from (length out.old) }
{
    machine.facts();
    let len = out.len() as u64;
    out.copy_from_slice(machine.lend_stack(STACK + from, len));
}

/// Passes a number in general register `k`.
fn set_general(machine: &mut Machine, k: u8, value: u64)
    requires below { k < 32 }
    requires takes { is_zero_register (isa_of machine.old.target) k ≡ false }
    ensures set { image_passed (passing machine.new) ≡ with_general k value (image_passed (passing machine.old)) }
    ensures there { k < length (image_passed (passing machine.old)).general }
    ensures within { (low high : ℕ) → ChangesWithin low high machine.old machine.new }
{
    machine.facts();
    pass_general(machine, k, value);
}

/// Passes a number in floating register `k`.
fn set_floating(machine: &mut Machine, k: u8, value: u64)
    requires { k < 32 }
    ensures set { image_passed (passing machine.new) ≡ with_floating k value (image_passed (passing machine.old)) }
    ensures there { k < length (image_passed (passing machine.old)).floating }
    ensures within { (low high : ℕ) → ChangesWithin low high machine.old machine.new }
{
    machine.facts();
    pass_floating(machine, k, value);
}

/// Writes bytes to the stack, from an offset on.
fn write_stack(machine: &mut Machine, from: u64, bytes: &[u8])
    requires { from + length bytes.now ≤ length (image_passed (passing machine.old)).stack }
    ensures stored { image_passed (passing machine.new) ≡ stored from bytes.now (image_passed (passing machine.old)) }
    ensures within { (low high : ℕ) → low ≤ from → from + length bytes.now ≤ high → ChangesWithin low high machine.old machine.new }
{
    machine.facts();
    machine.store_stack(STACK + from, bytes);
}
