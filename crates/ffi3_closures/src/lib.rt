//! The closures of a run: a map from slots of the machine's code region, whose bytes are trampolines.
#![tactic(auto)]

ghost use Rattle.std.specs.Prelude.{◌≡◌, ◌<◌, ◌≤◌, ◌+◌, length, Option, Some, None, IfSome, IfOk, OnOk, OnErr, OnSome, IsSome};
ghost use Rattle.std.specs.List.{replace_range};
ghost use Rattle.std.specs.Int.{w64, to_le_bytes};
ghost use Rattle.ffi3_semantics_spec.specs.Closures.{
  closure_at,
  first_free,
  freed,
  no_closures,
  slot_address,
  slot_number,
  slots,
  with_closure,
};
ghost use Rattle.ffi3_type_spec.specs.declared.Target.{Target};
ghost use Rattle.ffi3_type_spec.specs.TargetIsa.{isa_of};
ghost use Rattle.ffi3_machine_spec.specs.State.{IsSlot, begun_code, free_slot, with_code};
ghost use Rattle.ffi3_machine.specs.MachineStep.{TakesSteps};
ghost use Rattle.ffi3_closures.specs.Reaching.{reached};
ghost use Rattle.ffi3_machine_spec.specs.Slots.{HoldsMap, live_count, live_slot, slot_head};

use arrayvec::ArrayVec;
use ffi3_machine::{CODE, Machine, free_word};
pub use ffi3_semantics_spec::Closure;
use ffi3_type_spec::Isa;
use ffi3_type_spec::limits::SLOT_BYTES;
use std::marker::Model;

/// 256 closures are live.
#[derive(Clone, Copy, Debug, PartialEq, Eq)]
pub struct TableFull;

/// The live closures, each at its slot.
#[derive(Drop)]
pub struct Table {
    slots: ArrayVec<Option<Closure>, 256>,
}

impl Model for Table {
    ghost use Rattle.std.specs.Prelude.{◌≡◌, length};
    ghost use Rattle.ffi3_semantics_spec.specs.Closures.{Closures};

    ghost Value = { Closures };

    ghost view = { λ t. t.slots.items };

    ghost invariant = { λ t. length t.slots.items ≡ 256 };
}

impl Table {
    /// No slot is live, as in a machine that begins.
    pub fn new() -> Table
        ensures value { result ≡ no_closures }
        ensures begins { (target : Target) → HoldsMap target result (begun_code (isa_of target)) }
    {
        Table {
            slots: ArrayVec::from([None; 256]),
        }
    }

    /// The lowest slot that is free, or the number of slots.
    fn first_free(&self) -> usize
        ensures value { result ≡ first_free self.now }
        ensures high { result ≤ 256 }
    {
        for k in 0..self.slots.len() {
            if self.slots[k].is_none() {
                return k;
            }
        }
        self.slots.len()
    }

    /// Writes the entry of a slot.
    fn put(&mut self, k: usize, entry: Option<Closure>)
        requires { k < 256 }
        ensures { self.new ≡ with_closure self.old k entry }
    {
        self.slots[k] = entry;
    }

    /// Makes a closure of a function and its signature, by their numbers, and user data. It takes the lowest free
    /// slot, whose address it gives. TableFull comes exactly where 256 closures are live, and changes nothing.
    pub fn make(
        &mut self,
        machine: &mut Machine,
        func: u32,
        sig: u32,
        user: u64,
    ) -> Result<u64, TableFull>
        requires { HoldsMap machine.old.target self.old machine.old.code }
        ensures room { OnOk result (first_free self.old < slots) }
        ensures not_all_live { OnOk result (live_count self.old < slots) }
        ensures address { IfOk result (λ addr. addr ≡ slot_address (first_free self.old)) }
        ensures made { OnOk result (self.new ≡ with_closure self.old (first_free self.old) (Some (record { func = func; sig = sig; user = user }))) }
        ensures written { OnOk result (machine.new ≡ with_code (slot_address (first_free self.old)) (live_slot (isa_of machine.old.target) (record { func = func; sig = sig; user = user })) machine.old) }
        ensures full { OnErr result (first_free self.old ≡ slots) }
        ensures all_live { OnErr result (live_count self.old ≡ slots) }
        ensures same_map { OnErr result (self.new ≡ self.old) }
        ensures same_machine { OnErr result (machine.new ≡ machine.old) }
        ensures holds { HoldsMap machine.new.target self.new machine.new.code }
    {
        let _slots = &self.slots;
        let k = self.first_free();
        let full = k == self.slots.len();
        if full {
            return Err(TableFull);
        }
        let closure = Closure { func, sig, user };
        let addr = CODE + SLOT_BYTES * k as u64;
        machine.write_code(addr, &live_slot(machine.target().isa(), closure));
        self.put(k, Some(closure));
        Ok(addr)
    }

    /// Frees the closure whose slot starts at `addr`, and gives it. It gives none exactly where no live slot starts
    /// there, and then changes nothing.
    pub fn free(&mut self, machine: &mut Machine, addr: u64) -> Option<Closure>
        requires { HoldsMap machine.old.target self.old machine.old.code }
        ensures value { result ≡ closure_at self.old addr }
        ensures freed { OnSome result (self.new ≡ freed self.old addr) }
        ensures written { OnSome result (machine.new ≡ with_code addr (free_slot (isa_of machine.old.target)) machine.old) }
        ensures same_map { result ≡ None → self.new ≡ self.old }
        ensures same_machine { result ≡ None → machine.new ≡ machine.old }
        ensures holds { HoldsMap machine.new.target self.new machine.new.code }
    {
        let k = slot_number(addr)?;
        let slots = &self.slots;
        if slots.len() <= k {
            return None;
        }
        let closure = slots[k]?;
        machine.write_code(addr, &free_slot(machine.target().isa()));
        self.put(k, None);
        Some(closure)
    }

    /// The closure whose slot starts at `addr`.
    pub fn find(&self, addr: u64) -> Option<Closure>
        ensures value { result ≡ closure_at self.now addr }
        ensures slot { IfSome result (λ c. IsSlot addr) }
    {
        let k = slot_number(addr)?;
        if k < self.slots.len() {
            self.slots[k]
        } else {
            None
        }
    }

    /// Runs the trampoline of the live slot at pc: three steps, of which none traps. Then pc is ENTRY and the closure
    /// register has the slot's address. Of the rest only x16 changes on AArch64, and t2 on RISC-V.
    pub fn run_trampoline(&self, machine: &mut Machine)
        requires holds { HoldsMap machine.old.target self.now machine.old.code }
        requires live { IsSome (closure_at self.now machine.old.pc) }
        ensures reached { machine.new ≡ reached machine.old }
        ensures steps { TakesSteps 3 machine.old machine.new }
    {
        let _slots = &self.slots;
        machine.facts();
        for _k in 0..3u8 {
            let _step = machine.step();
        }
    }
}

/// The number of the slot that starts at an address, as if there were no end of them.
fn slot_number(addr: u64) -> Option<usize>
    ensures value { result ≡ slot_number addr }
    ensures address { IfSome result (λ k. addr ≡ slot_address k) }
{
    if addr < CODE {
        return None;
    }
    let at = addr - CODE;
    if at % SLOT_BYTES == 0 {
        Some((at / SLOT_BYTES) as usize)
    } else {
        None
    }
}

/// The first 32 bytes of a live slot.
#[tactic(auto, unfolding(ffi3_machine_spec::specs::Slots::slot_head, ffi3_machine_spec::specs::Slots::trampoline))]
fn slot_head(isa: Isa) -> [u8; 32]
    ensures { result ≡ slot_head isa }
{
    match isa {
        Isa::Amd64 => [
            0xF3, 0x0F, 0x1E, 0xFA, 0x4C, 0x8D, 0x15, 0xF5, 0xFF, 0xFF, 0xFF, 0xFF, 0x25, 0x07, 0,
            0, 0, 0x0F, 0x1F, 0x80, 0, 0, 0, 0, 0, 0x10, 0, 0, 0, 0, 0, 0,
        ],
        Isa::Aarch64 => [
            0x90, 0, 0, 0x58, 0xF1, 0xFF, 0xFF, 0x10, 0, 0x02, 0x1F, 0xD6, 0, 0, 0, 0, 0, 0x10, 0,
            0, 0, 0, 0, 0, 0, 0, 0, 0, 0, 0, 0, 0,
        ],
        Isa::Riscv => [
            0x17, 0x03, 0, 0, 0x83, 0x33, 0x03, 0x01, 0x67, 0x80, 0x03, 0, 0x13, 0, 0, 0, 0, 0x10,
            0, 0, 0, 0, 0, 0, 0, 0, 0, 0, 0, 0, 0, 0,
        ],
    }
}

/// The bytes of a live slot.
fn live_slot(isa: Isa, closure: Closure) -> [u8; 64]
    ensures { result ≡ live_slot isa closure }
{
    let mut bytes = [0u8; 64];
    bytes[..32].copy_from_slice(&slot_head(isa));
    put_word(&mut bytes, 32, u64::from(closure.func));
    put_word(&mut bytes, 40, u64::from(closure.sig));
    put_word(&mut bytes, 48, closure.user);
    bytes
}

/// Writes a word into a slot's bytes, from place `at` on.
fn put_word(bytes: &mut [u8; 64], at: usize, word: u64)
    requires { at + 8 ≤ 64 }
    ensures { bytes.new ≡ replace_range bytes.old at (at + 8) (to_le_bytes w64 word) }
{
    bytes[at..at + 8].copy_from_slice(&word.to_le_bytes());
}

/// The bytes of a free slot.
#[tactic(auto, unfolding(ffi3_machine_spec::specs::State::free_slot))]
fn free_slot(isa: Isa) -> [u8; 64]
    ensures { result ≡ free_slot isa }
{
    let [a, b, c, d] = free_word(isa).to_le_bytes();
    [
        a, b, c, d, a, b, c, d, a, b, c, d, a, b, c, d, a, b, c, d, a, b, c, d, a, b, c, d, a, b,
        c, d, a, b, c, d, a, b, c, d, a, b, c, d, a, b, c, d, a, b, c, d, a, b, c, d, a, b, c, d,
        a, b, c, d,
    ]
}
