//! Calls and returns by stubs: the instructions of a stub, which the machine does one after another.
#![tactic(auto)]

ghost use Rattle.std.specs.Prelude.{◌≡◌, ◌≤◌, ◌+◌, ◌%◌, ◌^◌};
ghost use Rattle.ffi3_type_spec.specs.TargetIsa.{isa_of};
ghost use Rattle.ffi3_place_spec.specs.MachineRegisters.{pushed_bytes};
ghost use Rattle.ffi3_place_spec.specs.StubRegisters.{area_bytes};
ghost use Rattle.ffi3_machine_spec.specs.declared.stub.TheConstants.{AREA_AT, CALLEE_AT, CALL_SP_AT};
ghost use Rattle.ffi3_machine_spec.specs.State.{State, IsSlot, with_pc, x_of};
ghost use Rattle.ffi3_machine_spec.specs.Stubs.{Call, Entry, Exit, Return, stub_at};
ghost use Rattle.ffi3_machine.specs.MachineStep.{TakesSteps};
ghost use Rattle.ffi3_stubs.specs.Calls.{
  HasCalled,
  HasEntered,
  HasLeft,
  HasReturned,
  after_call,
  after_entry,
  after_exit,
  after_return,
  steps_of,
};

use ffi3_machine::{ENTRY, Machine, RETURN, STACK, STACK_TOP, Stub};
use ffi3_type_spec::Isa;

/// How many instructions Call does.
fn call_steps(isa: Isa) -> u8
    ensures { result ≡ steps_of isa Call }
{
    match isa {
        Isa::Amd64 => 18,
        Isa::Aarch64 => 22,
        Isa::Riscv => 21,
    }
}

/// How many instructions Entry does.
fn entry_steps(isa: Isa) -> u8
    ensures { result ≡ steps_of isa Entry }
{
    match isa {
        Isa::Amd64 => 25,
        Isa::Aarch64 => 43,
        Isa::Riscv => 47,
    }
}

/// How many instructions Exit does.
fn exit_steps(isa: Isa) -> u8
    ensures { result ≡ steps_of isa Exit }
{
    match isa {
        Isa::Amd64 => 14,
        Isa::Aarch64 => 31,
        Isa::Riscv => 34,
    }
}

/// How many instructions Return does.
fn return_steps(isa: Isa) -> u8
    ensures { result ≡ steps_of isa Return }
{
    match isa {
        Isa::Amd64 => 6,
        Isa::Aarch64 => 9,
        Isa::Riscv => 7,
    }
}

/// Does so many steps, which are known to lead somewhere.
fn run_steps(machine: &mut Machine, n: u8)
    requires way { (after : State) × TakesSteps n machine.old after }
    ensures only { (after : State) → TakesSteps n machine.old after → machine.new ≡ after }
    ensures steps { TakesSteps n machine.old machine.new }
{
    for _k in 0..n {
        let _step = machine.step();
    }
}

/// Calls the slot whose address stands at `CALLEE_AT` of the exchange region, by the stub Call: with the stack pointer
/// that stands at `CALL_SP_AT`, with arguments in their registers from the exchange region, and with RETURN as return
/// address.
pub fn run_call(machine: &mut Machine)
    requires slot { IsSlot (x_of CALLEE_AT machine.old) }
    requires low { STACK + pushed_bytes (isa_of machine.old.target) ≤ x_of CALL_SP_AT machine.old }
    requires high { x_of CALL_SP_AT machine.old ≤ STACK_TOP }
    ensures whole { machine.new ≡ after_call (isa_of machine.old.target) (with_pc (stub_at (isa_of machine.old.target) Call) machine.old) }
    ensures steps { TakesSteps (steps_of (isa_of machine.old.target) Call) (with_pc (stub_at (isa_of machine.old.target) Call) machine.old) machine.new }
    ensures counted { machine.new.steps ≡ (machine.old.steps + steps_of (isa_of machine.old.target) Call) % 2 ^ 64 }
    ensures says { HasCalled (isa_of machine.old.target) machine.old machine.new }
{
    machine.facts();
    machine.go(Stub::Call);
    let n = call_steps(machine.target().isa());
    run_steps(machine, n);
}

/// Enters a callee, by the stub Entry: what is preserved goes to the save area below sp, the registers of arguments to
/// the exchange region, and sp becomes what stands at `ENTRY_SP_AT` there.
pub fn run_entry(machine: &mut Machine)
    requires at { machine.old.pc ≡ ENTRY }
    requires low { STACK + area_bytes (isa_of machine.old.target) ≤ machine.old.sp }
    requires high { machine.old.sp ≤ STACK_TOP }
    ensures whole { machine.new ≡ after_entry (isa_of machine.old.target) machine.old }
    ensures steps { TakesSteps (steps_of (isa_of machine.old.target) Entry) machine.old machine.new }
    ensures counted { machine.new.steps ≡ (machine.old.steps + steps_of (isa_of machine.old.target) Entry) % 2 ^ 64 }
    ensures says { HasEntered (isa_of machine.old.target) machine.old machine.new }
{
    machine.facts();
    let n = entry_steps(machine.target().isa());
    run_steps(machine, n);
}

/// Leaves a callee, by the stub Exit: what is preserved comes from the save area, whose address stands at `AREA_AT` of
/// the exchange region, registers of results from that region, and the return address from its register, or from above
/// the save area.
pub fn run_exit(machine: &mut Machine)
    requires low { STACK ≤ x_of AREA_AT machine.old }
    requires high { x_of AREA_AT machine.old + area_bytes (isa_of machine.old.target) + pushed_bytes (isa_of machine.old.target) ≤ STACK_TOP }
    ensures whole { machine.new ≡ after_exit (isa_of machine.old.target) (with_pc (stub_at (isa_of machine.old.target) Exit) machine.old) }
    ensures steps { TakesSteps (steps_of (isa_of machine.old.target) Exit) (with_pc (stub_at (isa_of machine.old.target) Exit) machine.old) machine.new }
    ensures counted { machine.new.steps ≡ (machine.old.steps + steps_of (isa_of machine.old.target) Exit) % 2 ^ 64 }
    ensures says { HasLeft (isa_of machine.old.target) machine.old machine.new }
{
    machine.facts();
    machine.go(Stub::Exit);
    let n = exit_steps(machine.target().isa());
    run_steps(machine, n);
}

/// Comes back to a caller, by the stub Return: registers of results go to the exchange region, and sp becomes what
/// stands at `RETURN_SP_AT` there.
pub fn run_return(machine: &mut Machine)
    requires at { machine.old.pc ≡ RETURN }
    ensures whole { machine.new ≡ after_return (isa_of machine.old.target) machine.old }
    ensures steps { TakesSteps (steps_of (isa_of machine.old.target) Return) machine.old machine.new }
    ensures counted { machine.new.steps ≡ (machine.old.steps + steps_of (isa_of machine.old.target) Return) % 2 ^ 64 }
    ensures says { HasReturned (isa_of machine.old.target) machine.old machine.new }
{
    machine.facts();
    let n = return_steps(machine.target().isa());
    run_steps(machine, n);
}
