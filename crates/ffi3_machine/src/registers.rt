//! The registers of a machine, by their numbers in the target's instructions, with sp and pc.
ghost use Rattle.std.specs.Prelude.{◌≡◌, ◌<◌, slice_index, true};
ghost use Rattle.ffi3_type_spec.specs.TargetIsa.{isa_of};
ghost use Rattle.ffi3_place_spec.specs.MachineRegisters.{is_zero_register};
ghost use Rattle.ffi3_machine_spec.specs.State.{IsMachine, with_floating, with_general, with_sp};

use crate::Machine;
use ffi3_type_spec::Isa;

impl Machine {
    /// General register `k`.
    pub fn g(&self, k: u8) -> u64
        requires { k < 32 }
        ensures value { result ≡ slice_index self.now.general k }
        ensures zero { is_zero_register (isa_of self.now.target) k ≡ true → result ≡ 0 }
    {
        self.general[k as usize]
    }

    /// Floating register `k`, its low 64 bits.
    pub fn f(&self, k: u8) -> u64
        requires { k < 32 }
        ensures { result ≡ slice_index self.now.floating k }
    {
        self.floating[k as usize]
    }

    /// The stack pointer. Its contract tells too what is true of every machine.
    pub fn sp(&self) -> u64
        ensures value { result ≡ self.now.sp }
        ensures machine { IsMachine self.now }
    {
        self.facts();
        self.sp
    }

    /// The program counter.
    pub fn pc(&self) -> u64
        ensures { result ≡ self.now.pc }
    {
        self.pc
    }

    /// Sets general register `k`. On RISC-V a write to register 0 is dropped.
    pub fn set_g(&mut self, k: u8, value: u64)
        requires { k < 32 }
        ensures { self.new ≡ with_general k value self.old }
    {
        if !is_zero_register(self.target.isa(), k) {
            self.general[k as usize] = value;
        }
    }

    /// Sets floating register `k`.
    pub fn set_f(&mut self, k: u8, value: u64)
        requires { k < 32 }
        ensures { self.new ≡ with_floating k value self.old }
    {
        self.floating[k as usize] = value;
    }

    /// Sets the stack pointer, also to an address outside the stack.
    pub fn set_sp(&mut self, value: u64)
        ensures { self.new ≡ with_sp value self.old }
    {
        self.sp = value;
    }
}

/// Whether the register is 0 always.
pub(crate) fn is_zero_register(isa: Isa, k: u8) -> bool
    ensures { result ≡ is_zero_register isa k }
{
    match isa {
        Isa::Amd64 => false,
        Isa::Aarch64 => false,
        Isa::Riscv => k == 0,
    }
}
