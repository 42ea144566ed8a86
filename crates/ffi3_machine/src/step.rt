//! One instruction of a machine.
ghost use Rattle.std.specs.Prelude.{◌≡◌, ℕ, ◌<◌, ◌+◌, ◌-◌, ◌%◌, ◌^◌, IfSome, IfErr, OnOk, OnErr, Ok, Some, None, ◌==◌, unwrap_or};
ghost use Rattle.ffi3_isa.specs.declared.Instr.{Instr};
ghost use Rattle.ffi3_isa.specs.Registers.{HasRegistersBelow};
ghost use Rattle.ffi3_type_spec.specs.TargetIsa.{isa_of};
ghost use Rattle.ffi3_place_spec.specs.MachineRegisters.{stack_pointer};
ghost use Rattle.ffi3_machine_spec.specs.State.{IsMachine, State};
ghost use Rattle.ffi3_machine.specs.MachineStep.{
  IsInRange,
  IsInstructionAt,
  Steps,
  base,
  bytes_from,
  change_of,
  changed,
  even,
  floated,
  floats,
  goes_to,
  has_eight,
  loaded,
  next,
  pops,
  pushes,
  reads_sp,
  reads_zero,
  register,
  stores,
  sets,
  sums,
  with_store,
  written,
};

use crate::registers::is_zero_register;
use crate::{CODE, CODE_END, EXCHANGE, EXCHANGE_END, Machine, STACK, STACK_TOP, STUBS, STUBS_END};
use ffi3_isa::{Instr, decode_aarch64, decode_amd64, decode_riscv};
use ffi3_type_spec::Isa;

/// A step that cannot be done, with its pc.
#[derive(Clone, Copy, Debug, PartialEq, Eq)]
pub struct Trap {
    pub pc: u64,
}

/// What an instruction changes: a general register and a floating one, by their numbers, that get a value, sp, eight
/// bytes of memory at an address, and pc.
#[derive(Clone, Copy)]
pub struct Change {
    pub general: Option<(u8, u64)>,
    pub floating: Option<(u8, u64)>,
    pub sp: Option<u64>,
    pub store: Option<(u64, u64)>,
    pub pc: u64,
}

impl Machine {
    /// Does the instruction at pc. It traps exactly where no listed instruction stands wholly in the code region, or in
    /// that of the stubs, at pc, where its load does not lie wholly in one region, where its store does not lie wholly
    /// in the stack or in the exchange region, and on AAPCS64 and RISC-V where pc is no multiple of 4.
    /// A trap changes nothing. The contract tells too what was true of the machine, as of every machine.
    pub fn step(&mut self) -> Result<(), Trap>
        ensures steps { OnOk result (Steps self.old self.new) }
        ensures only { (after : State) → Steps self.old after → (result ≡ Ok tt) × (self.new ≡ after) }
        ensures at_pc { IfErr result (λ trap. trap.pc ≡ self.old.pc) }
        ensures trapped { OnErr result (self.new ≡ self.old) }
        ensures machine { IsMachine self.old }
    {
        self.facts();
        let pc = self.pc;
        let Some((instr, size)) = self.decoded() else {
            return Err(Trap { pc });
        };
        let Some(change) = self.change_of(instr, size) else {
            return Err(Trap { pc });
        };
        self.apply(change);
        Ok(())
    }

    /// The instruction that stands wholly in one region of code at pc, and how many bytes it has.
    fn decoded(&self) -> Option<(Instr, u8)>
        ensures stands { IfSome result (λ p. IsInstructionAt (isa_of self.now.target) self.now p.0 p.1) }
        ensures only { (i : Instr) (n : ℕ) → IsInstructionAt (isa_of self.now.target) self.now i n → result ≡ Some (i, n) }
        ensures registers { IfSome result (λ p. HasRegistersBelow 32 p.0) }
    {
        let pc = self.pc();
        let bytes = self.code_from(pc);
        match self.target().isa() {
            Isa::Amd64 => decode_amd64(bytes),
            Isa::Aarch64 => {
                if pc % 4 != 0 {
                    return None;
                }
                decode_aarch64(bytes)
            }
            Isa::Riscv => {
                if pc % 4 != 0 {
                    return None;
                }
                decode_riscv(bytes)
            }
        }
    }

    /// The bytes of code from an address on; nothing where it lies outside.
    fn code_from(&self, addr: u64) -> &[u8]
        ensures { result.now ≡ bytes_from (isa_of self.now.target) addr self.now.code }
    {
        let code = &self.code;
        let stubs = &self.stubs;
        if CODE_END <= addr {
            return &[];
        }
        if CODE <= addr {
            return code.lend(addr, CODE_END - addr);
        }
        if STUBS_END <= addr {
            return &[];
        }
        if STUBS <= addr {
            return stubs.lend(addr, STUBS_END - addr);
        }
        &[]
    }

    /// What an instruction of `size` bytes changes.
    fn change_of(&self, instr: Instr, size: u8) -> Option<Change>
        requires { HasRegistersBelow 32 instr }
        ensures value { result ≡ change_of (isa_of self.now.target) instr size self.now }
        ensures in_range { IfSome result (λ c. IsInRange c) }
    {
        let isa = self.target().isa();
        let pc = self.pc();
        let next = pc.wrapping_add(u64::from(size));
        match instr {
            Instr::Endbr => Some(goes_to(next)),
            Instr::Nop => Some(goes_to(next)),
            Instr::Lea { reg, d } => Some(sets(isa, reg, next, next.wrapping_add_signed(d))),
            Instr::JmpMem { d } => {
                let to = self.load(next.wrapping_add_signed(d))?;
                Some(goes_to(to))
            }
            Instr::LdrLit { t, d } => {
                let value = self.load(pc.wrapping_add_signed(d))?;
                Some(sets(isa, t, next, value))
            }
            Instr::Adr { rd, d } => Some(sets(isa, rd, next, pc.wrapping_add_signed(d))),
            Instr::Br { n } => Some(goes_to(self.register(n))),
            Instr::Auipc { rd, d } => Some(sets(isa, rd, next, pc.wrapping_add_signed(d))),
            Instr::Ld { rd, rs, d } => {
                let value = self.load(self.base(rs).wrapping_add_signed(d))?;
                Some(sets(isa, rd, next, value))
            }
            Instr::Jalr { rd, rs, d } => {
                let to = self.register(rs).wrapping_add_signed(d);
                Some(sets(isa, rd, even(to), next))
            }
            Instr::Addi { rd, rs, d } => {
                Some(sums(isa, rd, next, self.base(rs).wrapping_add_signed(d)))
            }
            Instr::Sd { rd, rs, d } => {
                let addr = self.base(rs).wrapping_add_signed(d);
                stores(None, next, addr, self.register(rd))
            }
            Instr::Fld { rd, rs, d } => {
                let value = self.load(self.base(rs).wrapping_add_signed(d))?;
                Some(floats(rd, next, value))
            }
            Instr::Fsd { rd, rs, d } => {
                let addr = self.base(rs).wrapping_add_signed(d);
                stores(None, next, addr, self.f(rd))
            }
            Instr::CallMem { rs, d } => {
                let to = self.load(self.base(rs).wrapping_add_signed(d));
                pushes(self.sp().wrapping_add_signed(-8), next, to)
            }
            Instr::Ret => {
                let to = self.load(self.sp())?;
                Some(pops(self.sp().wrapping_add_signed(8), to))
            }
            Instr::Blr { n } => Some(sets(isa, 30, self.register(n), next)),
        }
    }

    /// A general register, as an instruction reads it.
    fn register(&self, k: u8) -> u64
        requires { k < 32 }
        ensures { result ≡ register (isa_of self.now.target) k self.now }
    {
        let isa = self.target().isa();
        if reads_zero(isa, k) {
            0
        } else if reads_sp(isa, k) {
            self.sp()
        } else {
            self.g(k)
        }
    }

    /// A general register as the base of an address or of a sum.
    fn base(&self, k: u8) -> u64
        requires { k < 32 }
        ensures { result ≡ base (isa_of self.now.target) k self.now }
    {
        let isa = self.target().isa();
        if is_zero_register(isa, k) {
            0
        } else if is_sp(isa, k) {
            self.sp()
        } else {
            self.g(k)
        }
    }

    /// The eight bytes at an address, which lie in one region.
    fn load(&self, addr: u64) -> Option<u64>
        ensures { result ≡ loaded (isa_of self.now.target) addr self.now }
    {
        if has_eight(STACK, STACK_TOP, addr) {
            return Some(self.stack.load(addr, 8));
        }
        if has_eight(CODE, CODE_END, addr) {
            return Some(self.code.load(addr, 8));
        }
        if has_eight(EXCHANGE, EXCHANGE_END, addr) {
            return Some(self.exchange.load(addr, 8));
        }
        if has_eight(STUBS, STUBS_END, addr) {
            return Some(self.stubs.load(addr, 8));
        }
        None
    }

    /// Makes the change.
    fn apply(&mut self, change: Change)
        requires { IsInRange change }
        ensures { self.new ≡ changed (isa_of self.old.target) change self.old }
    {
        self.write_general(change.general);
        self.write_floating(change.floating);
        self.write_sp(change.sp);
        self.write_store(change.store);
        self.go_on(change.pc);
    }

    /// Writes a general register, if there is one.
    fn write_general(&mut self, write: Option<(u8, u64)>)
        requires { IfSome write (λ p. p.0 < 32) }
        ensures { self.new ≡ record self.old { general = written (isa_of self.old.target) write self.old.general } }
    {
        if let Some((k, value)) = write {
            if !reads_zero(self.target.isa(), k) {
                self.general[k as usize] = value;
            }
        }
    }

    /// Writes a floating register, if there is one.
    fn write_floating(&mut self, write: Option<(u8, u64)>)
        requires { IfSome write (λ p. p.0 < 32) }
        ensures { self.new ≡ record self.old { floating = floated write self.old.floating } }
    {
        if let Some((k, value)) = write {
            self.floating[k as usize] = value;
        }
    }

    /// Writes sp, if it is to be.
    fn write_sp(&mut self, write: Option<u64>)
        ensures { self.new ≡ record self.old { sp = unwrap_or write self.old.sp } }
    {
        if let Some(sp) = write {
            self.sp = sp;
        }
    }

    /// Writes eight bytes of memory, if there are any to be written.
    fn write_store(&mut self, write: Option<(u64, u64)>)
        ensures { self.new ≡ with_store write self.old }
    {
        if let Some((addr, value)) = write {
            self.put(addr, value);
        }
    }

    /// Goes on at pc, one instruction further.
    fn go_on(&mut self, pc: u64)
        ensures { self.new ≡ record self.old { pc = pc; steps = (self.old.steps + 1) % 2 ^ 64 } }
    {
        self.pc = pc;
        self.steps = self.steps.wrapping_add(1);
    }

    /// Stores eight bytes in the stack or in the exchange region; elsewhere nothing.
    fn put(&mut self, addr: u64, value: u64)
        ensures { self.new ≡ with_store (Some (addr, value)) self.old }
    {
        if has_eight(STACK, STACK_TOP, addr) {
            self.stack.store(addr, 8, value);
            if addr < self.mark {
                self.mark = addr;
            }
        }
        if has_eight(EXCHANGE, EXCHANGE_END, addr) {
            self.exchange.store(addr, 8, value);
        }
    }
}

/// A change of pc alone.
fn goes_to(pc: u64) -> Change
    ensures { result ≡ goes_to pc }
{
    Change {
        general: None,
        floating: None,
        sp: None,
        store: None,
        pc,
    }
}

/// A change of register `k` and pc.
fn sets(isa: Isa, k: u8, pc: u64, value: u64) -> Change
    requires { k < 32 }
    ensures value { result ≡ sets isa k pc value }
    ensures in_range { IsInRange result }
{
    let is_sp = reads_sp(isa, k);
    Change {
        general: if is_sp { None } else { Some((k, value)) },
        floating: None,
        sp: if is_sp { Some(value) } else { None },
        store: None,
        pc,
    }
}

/// A change of register `k`, as of a sum, and pc.
fn sums(isa: Isa, k: u8, pc: u64, value: u64) -> Change
    requires { k < 32 }
    ensures value { result ≡ sums isa k pc value }
    ensures in_range { IsInRange result }
{
    let is_sp = is_sp(isa, k);
    Change {
        general: if is_sp { None } else { Some((k, value)) },
        floating: None,
        sp: if is_sp { Some(value) } else { None },
        store: None,
        pc,
    }
}

/// A change of floating register `k` and pc.
fn floats(k: u8, pc: u64, value: u64) -> Change
    requires { k < 32 }
    ensures value { result ≡ floats k pc value }
    ensures in_range { IsInRange result }
{
    Change {
        general: None,
        floating: Some((k, value)),
        sp: None,
        store: None,
        pc,
    }
}

/// A change of eight bytes of the stack or of the exchange region, of pc, and of sp if it is there.
fn stores(sp: Option<u64>, pc: u64, addr: u64, value: u64) -> Option<Change>
    ensures value { result ≡ stores sp pc addr value }
    ensures in_range { IfSome result (λ c. IsInRange c) }
{
    if has_eight(STACK, STACK_TOP, addr) || has_eight(EXCHANGE, EXCHANGE_END, addr) {
        return Some(Change {
            general: None,
            floating: None,
            sp,
            store: Some((addr, value)),
            pc,
        });
    }
    None
}

/// A call that pushes the return address.
fn pushes(sp: u64, value: u64, to: Option<u64>) -> Option<Change>
    ensures value { result ≡ pushes sp value to }
    ensures in_range { IfSome result (λ c. IsInRange c) }
{
    let to = to?;
    stores(Some(sp), to, sp, value)
}

/// A change of sp and pc.
fn pops(sp: u64, pc: u64) -> Change
    ensures { result ≡ pops sp pc }
{
    Change {
        general: None,
        floating: None,
        sp: Some(sp),
        store: None,
        pc,
    }
}

/// The address with its lowest bit cleared.
fn even(addr: u64) -> u64
    ensures { result ≡ even addr }
{
    addr - addr % 2
}

/// Whether the register reads as 0, and a write to it is dropped.
fn reads_zero(isa: Isa, k: u8) -> bool
    ensures { result ≡ reads_zero isa k }
{
    match isa {
        Isa::Amd64 => false,
        Isa::Aarch64 => k == 31,
        Isa::Riscv => k == 0,
    }
}

/// Whether the register's number names the stack pointer in a base or a sum.
fn is_sp(isa: Isa, k: u8) -> bool
    ensures { result ≡ (k == stack_pointer isa) }
{
    match isa {
        Isa::Amd64 => k == 4,
        Isa::Aarch64 => k == 31,
        Isa::Riscv => k == 2,
    }
}

/// Whether the register's number names the stack pointer.
fn reads_sp(isa: Isa, k: u8) -> bool
    ensures { result ≡ reads_sp isa k }
{
    match isa {
        Isa::Amd64 => k == 4,
        Isa::Aarch64 => false,
        Isa::Riscv => k == 2,
    }
}

/// Whether the eight bytes from `addr` on lie between two addresses.
fn has_eight(low: u64, high: u64, addr: u64) -> bool
    ensures { result ≡ has_eight low high addr }
{
    low <= addr && addr <= high && 8 <= high - addr
}
