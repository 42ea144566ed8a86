//! A small machine: registers, memory (stack, slots, stubs, exchange region), and the journal of entries and returns.
#![tactic(auto)]

ghost use Rattle.std.specs.Prelude.{◌≡◌, IfOk};
ghost use Rattle.ffi3_machine_spec.specs.State.{AreBytes, AreWords, IsMachine, begun};

mod calls;
mod journal;
mod memory;
mod regions;
mod registers;
mod scribble;
mod stack_base;
mod step;
mod stub;

pub use calls::closure_register;
pub use ffi3_machine_spec::stub::{
    AREA_AT, CALL_SP_AT, CALLEE_AT, ENTRY_SP_AT, EXCHANGE, EXCHANGE_BYTES, EXCHANGE_END,
    RETURN_SP_AT, STUBS, STUBS_BYTES, STUBS_END, Stub,
};
pub use ffi3_memory::NoMemory;
use ffi3_memory::Region;
use ffi3_type_spec::Isa;
pub use ffi3_type_spec::Target;
use ffi3_type_spec::limits::{CODE_BYTES, STACK_BYTES};
pub use ffi3_type_spec::limits::{CODE, CODE_END, ENTRY, RETURN, STACK, STACK_TOP};
pub use journal::{Event, EventKind, Journal};
pub use regions::free_word;
use regions::{begin_exchange, begin_stack, free_slots, new_region};
use scribble::{scribble_floating, scribble_general};
pub use stack_base::StackBase;
use std::alloc::Global;
use std::marker::Model;
pub use step::Trap;
use stub::{begin_stubs, new_stubs};

/// Registers, four regions of memory, the count of steps and the journal. General and floating registers go by their
/// numbers in the target's instructions; sp is apart.
#[derive(Drop)]
pub struct Machine {
    target: Target,
    general: [u64; 32],
    floating: [u64; 32],
    sp: u64,
    pc: u64,
    mark: u64,
    stack: Region,
    code: Region,
    stubs: Region,
    exchange: Region,
    steps: u64,
    journal: Journal,
}

impl Model for Machine {
    ghost use Rattle.std.specs.Prelude.{◌≡◌};
    ghost use Rattle.ffi3_type_spec.specs.declared.limits.TheConstants.{STACK, CODE};
    ghost use Rattle.ffi3_type_spec.specs.TargetIsa.{isa_of};
    ghost use Rattle.ffi3_machine_spec.specs.declared.stub.TheConstants.{STUBS, EXCHANGE};
    ghost use Rattle.ffi3_machine_spec.specs.Stubs.{begun_stubs};
    ghost use Rattle.ffi3_machine_spec.specs.State.{State, HasForm};

    ghost Value = { State };

    ghost use Rattle.ffi3_machine.specs.Fields.{state_of};

    ghost view = { state_of };

    ghost invariant = { λ m. (m.stack.base ≡ STACK)
        × (m.code.base ≡ CODE)
        × HasForm (state_of m)
        × (m.exchange.base ≡ EXCHANGE)
        × (m.stubs ≡ record { base = STUBS; bytes = begun_stubs (isa_of m.target) }) };
}

impl Machine {
    /// A machine as it begins for AMD64, with no room in its journal.
    pub fn new(alloc: Global) -> Result<Machine, NoMemory>
        ensures { IfOk result (λ m. m ≡ begun Target.Amd64 0 0) }
    {
        let mut machine = Machine {
            target: Target::Amd64,
            general: [0; 32],
            floating: [0; 32],
            sp: STACK_TOP,
            pc: RETURN,
            mark: STACK_TOP,
            stack: new_region(alloc, STACK, STACK_BYTES)?,
            code: Region::new(alloc, CODE, CODE_BYTES)?,
            stubs: new_stubs(alloc, Isa::Amd64)?,
            exchange: Region::new(alloc, EXCHANGE, EXCHANGE_BYTES)?,
            steps: 0,
            journal: Journal::new(alloc),
        };
        machine.begin(Target::Amd64);
        Ok(machine)
    }

    /// Begins anew for a target: an empty stack of A5 bytes, an empty journal, free slots, its stubs, an exchange
    /// region of zeros, pc at RETURN, no steps, and scribbled registers. The journal's room stays.
    pub fn begin(&mut self, target: Target)
        ensures { self.new ≡ begun target self.old.spare_events self.old.spare_bytes }
    {
        self.target = target;
        self.general = [0; 32];
        self.floating = [0; 32];
        let isa = target.isa();
        scribble_general(isa, &mut self.general, 0);
        scribble_floating(&mut self.floating, 0);
        self.sp = STACK_TOP;
        self.pc = RETURN;
        self.mark = STACK_TOP;
        begin_stack(&mut self.stack);
        free_slots(isa, &mut self.code);
        begin_stubs(isa, &mut self.stubs);
        begin_exchange(&mut self.exchange);
        self.steps = 0;
        self.journal.clear();
    }

    /// The target of the last `begin`.
    pub fn target(&self) -> Target
        ensures { result ≡ self.now.target }
    {
        self.target
    }

    /// The low-water mark of the stack: the lowest address written since `begin`, or STACK_TOP.
    pub fn mark(&self) -> u64
        ensures { result ≡ self.now.mark }
    {
        self.mark
    }

    /// How many instructions the machine has done since `begin`, modulo 2^64.
    pub fn steps(&self) -> u64
        ensures { result ≡ self.now.steps }
    {
        self.steps
    }

    /// The journal.
    pub fn events(&self) -> &Journal
        ensures { result.now ≡ record { events = self.now.events; spare_events = self.now.spare_events; spare_bytes = self.now.spare_bytes } }
    {
        &self.journal
    }

    /// What is true of every machine: its contract tells it, and it does nothing.
    pub fn facts(&self)
        ensures { IsMachine self.now }
    {
        let _sp = self.sp;
        let _pc = self.pc;
        are_words(&self.general);
        are_words(&self.floating);
        are_bytes(self.stack.lend(STACK, STACK_BYTES));
        are_bytes(self.code.lend(CODE, CODE_BYTES));
        are_bytes(self.exchange.lend(EXCHANGE, EXCHANGE_BYTES));
    }
}

/// Registers hold 64 bits, by their type.
fn are_words(registers: &[u64])
    ensures { AreWords registers.now }
{}

/// Memory holds bytes, by its type.
fn are_bytes(bytes: &[u8])
    ensures { AreBytes bytes.now }
{}
