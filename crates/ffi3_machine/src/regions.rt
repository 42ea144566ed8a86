//! The regions of a machine as it begins: the stack of A5 bytes, free slots, and an exchange region of zeros.
ghost use Rattle.std.specs.Prelude.{◌≡◌, ◌<◌, ◌+◌, ◌^◌, length, IfOk, replicate};
ghost use Rattle.std.specs.Int.{w32, to_le_bytes};
ghost use Rattle.ffi3_machine_spec.specs.State.{begun_code, begun_exchange, begun_stack, free_word};

use crate::{CODE, EXCHANGE, EXCHANGE_BYTES, NoMemory, STACK};
use ffi3_memory::Region;
use ffi3_type_spec::Isa;
use ffi3_type_spec::limits::{CODE_BYTES, STACK_BYTES};
use std::alloc::Global;

/// A region that is filled later: what stands in it is not told, so that no goal has all bytes of a stack.
pub(crate) fn new_region(alloc: Global, base: u64, len: u64) -> Result<Region, NoMemory>
    requires { base + len < 2 ^ 64 }
    ensures { IfOk result (λ r. (r.base ≡ base) × (length r.bytes ≡ len)) }
{
    Region::new(alloc, base, len)
}

/// Fills the stack.
pub(crate) fn begin_stack(stack: &mut Region)
    requires base { stack.old.base ≡ STACK }
    requires length { length stack.old.bytes ≡ STACK_BYTES }
    ensures { stack.new ≡ record stack.old { bytes = begun_stack } }
{
    fill_all(stack, STACK, STACK_BYTES, 0xA5);
}

/// Clears the exchange region.
#[tactic(auto, unfolding(ffi3_machine_spec::specs::State::begun_exchange))]
pub(crate) fn begin_exchange(exchange: &mut Region)
    requires base { exchange.old.base ≡ EXCHANGE }
    requires length { length exchange.old.bytes ≡ EXCHANGE_BYTES }
    ensures { exchange.new ≡ record exchange.old { bytes = begun_exchange } }
{
    fill_all(exchange, EXCHANGE, EXCHANGE_BYTES, 0);
}

/// Frees every slot.
pub(crate) fn free_slots(isa: Isa, code: &mut Region)
    requires base { code.old.base ≡ CODE }
    requires length { length code.old.bytes ≡ CODE_BYTES }
    ensures { code.new ≡ record code.old { bytes = begun_code isa } }
{
    let word = free_word(isa);
    for k in 0..CODE_BYTES / 4 {
        code.store(CODE + 4 * k, 4, word as u64);
    }
}

/// Fills a region from its base to its end.
fn fill_all(region: &mut Region, base: u64, len: u64, byte: u8)
    requires base { region.old.base ≡ base }
    requires length { length region.old.bytes ≡ len }
    ensures { region.new ≡ record region.old { bytes = replicate len byte } }
{
    region.fill(base, len, byte);
}

/// The word that a free slot is filled with: int3 four times on AMD64, brk #0 on AArch64, ebreak on RISC-V.
pub fn free_word(isa: Isa) -> u32
    ensures { to_le_bytes w32 result ≡ free_word isa }
{
    match isa {
        Isa::Amd64 => 0xCCCC_CCCC,
        Isa::Aarch64 => 0xD420_0000,
        Isa::Riscv => 0x0010_0073,
    }
}
