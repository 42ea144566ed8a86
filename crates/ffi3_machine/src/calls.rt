//! Calls and returns: where they lead, and what the journal keeps of an entry and of a return.
ghost use Rattle.std.specs.Prelude.{◌≡◌, ◌<◌, ◌≤◌, ◌+◌, ◌-◌, drop, length, OnOk, OnErr, take};
ghost use Rattle.ffi3_type_spec.specs.TargetIsa.{isa_of};
ghost use Rattle.ffi3_place_spec.specs.MachineRegisters.{closure_register, link_register, pushed_bytes};
ghost use Rattle.ffi3_machine_spec.specs.Stubs.{goes_for};
ghost use Rattle.ffi3_machine.specs.Entries.{kind_of};
ghost use Rattle.ffi3_machine_spec.specs.State.{
  HasReturnAddress,
  IsSlot,
  LieInStack,
  after_arrive,
  after_enter,
  after_leave,
  called,
  recorded,
  with_pc,
  with_room,
};

use crate::{ENTRY, Event, EventKind, Machine, NoMemory, RETURN, STACK, Stub};
use ffi3_memory::Region;
use ffi3_type_spec::Isa;
use ffi3_type_spec::limits::STACK_BYTES;

impl Machine {
    /// Calls the code at the slot `addr`: RETURN is the return address, and pc is `addr`. What is pushed lies in the
    /// stack.
    pub fn call(&mut self, addr: u64)
        requires slot { IsSlot addr }
        requires room { LieInStack (self.old.sp - pushed_bytes (isa_of self.old.target)) (pushed_bytes (isa_of self.old.target)) }
        ensures whole { self.new ≡ called addr self.old }
        ensures return_address { HasReturnAddress self.new }
    {
        match link_register(self.target.isa()) {
            Some(link) => self.general[link as usize] = RETURN,
            None => {
                self.sp -= 8;
                self.stack.store(self.sp, 8, RETURN);
                if self.sp < self.mark {
                    self.mark = self.sp;
                }
            }
        }
        self.pc = addr;
    }

    /// Sets pc to the first address of a stub.
    pub fn go(&mut self, stub: Stub)
        ensures { self.new ≡ with_pc (goes_for (isa_of self.old.target) stub) self.old }
    {
        self.pc = stub_address(self.target.isa(), stub);
    }

    /// Makes room in the journal for two more events, each with `bytes` bytes of stack. Refused, it changes nothing.
    pub fn journal_room(&mut self, bytes: u64) -> Result<(), NoMemory>
        ensures ok { OnOk result (self.new ≡ with_room bytes self.old) }
        ensures err { OnErr result (self.new ≡ self.old) }
    {
        self.journal.make_room(bytes)
    }

    /// Records an event of this kind and closure (0 where none is entered), with `bytes` bytes of stack from sp on,
    /// which lie in the stack.
    fn add_event(&mut self, kind: EventKind, closure: u64, bytes: u64)
        requires stack { LieInStack self.old.sp bytes }
        requires events { 1 ≤ self.old.spare_events }
        requires bytes { bytes ≤ self.old.spare_bytes }
        ensures { self.new ≡ recorded (kind_of kind) closure bytes self.old }
    {
        let event = Event {
            kind,
            closure,
            general: self.general,
            floating: self.floating,
            sp: self.sp,
        };
        self.journal
            .add(event, from_sp(&self.stack, self.sp, bytes));
    }

    /// Records that a closure is entered, with `bytes` bytes of stack from sp on, which lie in the stack.
    pub fn enter(&mut self, bytes: u64)
        requires entry { self.old.pc ≡ ENTRY }
        requires stack { LieInStack self.old.sp bytes }
        requires events { 1 ≤ self.old.spare_events }
        requires bytes { bytes ≤ self.old.spare_bytes }
        ensures { self.new ≡ after_enter bytes self.old }
    {
        let closure = self.general[closure_register(self.target.isa()) as usize];
        self.add_event(EventKind::Enter, closure, bytes);
    }

    /// Returns to RETURN, and records it with `bytes` bytes of stack from the sp after it on. These, and what is
    /// popped, lie in the stack.
    pub fn leave(&mut self, bytes: u64)
        requires address { HasReturnAddress self.old }
        requires stack { LieInStack self.old.sp (pushed_bytes (isa_of self.old.target) + bytes) }
        requires events { 1 ≤ self.old.spare_events }
        requires bytes { bytes ≤ self.old.spare_bytes }
        ensures { self.new ≡ after_leave bytes self.old }
    {
        self.sp += pushed_bytes(self.target.isa());
        self.pc = RETURN;
        self.add_event(EventKind::Leave, 0, bytes);
    }

    /// Records a return that instructions have made, with `bytes` bytes of stack from sp on, which lie in the stack.
    pub fn arrive(&mut self, bytes: u64)
        requires at_return { self.old.pc ≡ RETURN }
        requires stack { LieInStack self.old.sp bytes }
        requires events { 1 ≤ self.old.spare_events }
        requires bytes { bytes ≤ self.old.spare_bytes }
        ensures { self.new ≡ after_arrive bytes self.old }
    {
        self.add_event(EventKind::Leave, 0, bytes);
    }
}

/// The first address of a stub.
fn stub_address(isa: Isa, stub: Stub) -> u64
    ensures { result ≡ goes_for isa stub }
{
    match stub {
        Stub::Exit => 0x1800,
        Stub::Call => match isa {
            Isa::Amd64 => 0x1F72,
            Isa::Aarch64 => 0x1FA8,
            Isa::Riscv => 0x1FAC,
        },
    }
}

/// The `len` bytes of the stack from sp on. Of none it asks nothing of sp.
fn from_sp(stack: &Region, sp: u64, len: u64) -> &[u8]
    requires base { stack.now.base ≡ STACK }
    requires length { length stack.now.bytes ≡ STACK_BYTES }
    requires within { LieInStack sp len }
    ensures value { result.now ≡ take len (drop (sp - STACK) stack.now.bytes) }
    ensures len { length result.now ≡ len }
{
    if len == 0 {
        return &[];
    }
    stack.lend(sp, len)
}

/// The number of the closure register: the general register that holds a closure's address at its entry.
pub fn closure_register(isa: Isa) -> u8
    ensures is { result ≡ closure_register isa }
    ensures low { result < 32 }
{
    match isa {
        Isa::Amd64 => 10,
        Isa::Aarch64 => 17,
        Isa::Riscv => 6,
    }
}

/// Where a call leaves the return address, or none where it pushes it.
fn link_register(isa: Isa) -> Option<u8>
    ensures { result ≡ link_register isa }
{
    match isa {
        Isa::Amd64 => None,
        Isa::Aarch64 => Some(30),
        Isa::Riscv => Some(1),
    }
}

/// How many bytes a call pushes.
fn pushed_bytes(isa: Isa) -> u64
    ensures { result ≡ pushed_bytes isa }
{
    match isa {
        Isa::Amd64 => 8,
        Isa::Aarch64 => 0,
        Isa::Riscv => 0,
    }
}
