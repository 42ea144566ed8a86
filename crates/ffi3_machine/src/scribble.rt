//! Scribbles: every register but sp and the reserved ones gets a number of its own.
ghost use Rattle.std.specs.Prelude.{◌≡◌, ◌+◌, ◌*◌, ◌%◌, ◌^◌};
ghost use Rattle.ffi3_place_spec.specs.MachineRegisters.{is_reserved};
ghost use Rattle.ffi3_machine_spec.specs.State.{
  scribble_floating,
  scribble_general,
  scribbled,
  scribbled_floating,
  scribbled_general,
};

use crate::Machine;
use ffi3_type_spec::Isa;

impl Machine {
    /// Clobbers the registers: sets each but sp and the reserved ones to a number of its own, which tells `n` too.
    pub fn scribble(&mut self, n: u64)
        ensures { self.new ≡ scribbled n self.old }
    {
        scribble_general(self.target.isa(), &mut self.general, n);
        scribble_floating(&mut self.floating, n);
    }
}

/// Scribbles on the general registers.
pub(crate) fn scribble_general(isa: Isa, registers: &mut [u64; 32], n: u64)
    ensures { registers.new ≡ scribbled_general isa n registers.old }
{
    for k in 0..32usize {
        if !is_reserved(isa, k) {
            registers[k] = number(0xA5A5_0000_0000_0000, n, k as u64);
        }
    }
}

/// Scribbles on the floating registers.
pub(crate) fn scribble_floating(registers: &mut [u64; 32], n: u64)
    ensures { registers.new ≡ scribbled_floating n }
{
    for k in 0..32usize {
        registers[k] = number(0x5A5A_0000_0000_0000, n, k as u64);
    }
}

/// Whether a scribble leaves the register.
fn is_reserved(isa: Isa, k: usize) -> bool
    ensures { result ≡ is_reserved isa k }
{
    match isa {
        Isa::Amd64 => false,
        Isa::Aarch64 => k == 18,
        Isa::Riscv => k == 0 || k == 3 || k == 4,
    }
}

/// The number that a scribble puts into a register.
fn number(from: u64, n: u64, k: u64) -> u64
    ensures { result ≡ (from + 64 * n + k) % 2 ^ 64 }
{
    from.wrapping_add(n.wrapping_mul(64)).wrapping_add(k)
}
