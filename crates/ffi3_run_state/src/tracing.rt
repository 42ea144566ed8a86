//! The lines of a trace: an entry or a return is told right after it is recorded, by its event.
ghost use Rattle.std.specs.Prelude.{◌≡◌, ℕ, ◌+◌, ◌<◌, ◌≤◌, ◌++◌, IfOk, List, length, true};
ghost use Rattle.ffi3_type_spec.specs.declared.limits.TheConstants.{STACK, STACK_TOP};
ghost use Rattle.ffi3_type_spec.specs.Tree.{trees_of};
ghost use Rattle.ffi3_type_spec.specs.Value.{all_fit, fits, values_of};
ghost use Rattle.ffi3_values.specs.ValueOf.{value_of};
ghost use Rattle.ffi3_place_spec.specs.Standard.{block_bytes};
ghost use Rattle.ffi3_machine.specs.Entries.{event_of};
ghost use Rattle.ffi3_machine_spec.specs.State.{stack_at};
ghost use Rattle.ffi3_semantics_spec.specs.SeenActivation.{arguments_in, arguments_of};
ghost use Rattle.ffi3_text.specs.TraceLines.{keep_text_of};
ghost use Rattle.ffi3_run_state.specs.TraceLines.{entry_lines, last_event, return_lines};
ghost use Rattle.ffi3_io_spec.specs.Written.{WroteLine};

use ffi3_body::Seen;
use ffi3_cif::Cif;
use ffi3_io::{IoError, Sink, write_all};
use ffi3_machine::{Event, Machine};
use ffi3_place::Abi;
use ffi3_text::{enter_line, keep_line, leave_line};
use ffi3_types::NoMemory;
use ffi3_values::{Value, Values};
use std::alloc::Global;

/// Tells the entry that was recorded last, where the run is traced. Its callee's block begins at
/// the stack pointer, and has the arguments.
pub(crate) fn tell_entry<A: Abi, O: Sink>(
    alloc: Global,
    machine: &Machine,
    output: &mut O,
    cif: &Cif<A>,
    trace: bool,
) -> Result<(), IoError>
    requires recorded { 0 < length machine.now.events }
    requires low { STACK ≤ machine.now.sp }
    requires high { machine.now.sp + block_bytes cif.now ≤ STACK_TOP }
    ensures { WroteLine
        (entry_lines trace A.standard cif.now (last_event machine.now.events) (arguments_in cif.now.arguments (stack_at machine.now.sp (block_bytes cif.now) machine.now)))
        (O.state output.old) (O.state output.new) result }
{
    if !trace {
        return Ok(());
    }
    let event = last(machine);
    let Ok(args) = arguments(alloc, machine, cif) else {
        return Err(IoError::NoMemory);
    };
    let Ok(line) = enter_line(alloc, cif, event, &args) else {
        return Err(IoError::NoMemory);
    };
    write_event::<A, O>(alloc, output, event, line.as_slice())
}

/// Tells the return that was recorded last, with this result, where the run is traced.
pub(crate) fn tell_return<A: Abi, O: Sink>(
    alloc: Global,
    machine: &Machine,
    output: &mut O,
    cif: &Cif<A>,
    value: &Value,
    trace: bool,
) -> Result<(), IoError>
    requires recorded { 0 < length machine.now.events }
    requires fits { fits cif.now.result_type (value_of value.now) ≡ true }
    ensures { WroteLine (return_lines trace A.standard cif.now (last_event machine.now.events) (value_of value.now))
        (O.state output.old) (O.state output.new) result }
{
    if !trace {
        return Ok(());
    }
    let event = last(machine);
    let Ok(line) = leave_line(alloc, cif, event, value) else {
        return Err(IoError::NoMemory);
    };
    write_event::<A, O>(alloc, output, event, line.as_slice())
}

/// The event that was recorded last.
fn last(machine: &Machine) -> &Event
    requires { 0 < length machine.now.events }
    ensures { event_of result.now (last_event machine.now.events).image.stack ≡ last_event machine.now.events }
{
    let journal = machine.events();
    journal.get(journal.len() - 1)
}

/// The arguments in the block that begins at the stack pointer.
fn arguments<A: Abi>(alloc: Global, machine: &Machine, cif: &Cif<A>) -> Result<Values, NoMemory>
    requires low { STACK ≤ machine.now.sp }
    requires high { machine.now.sp + block_bytes cif.now ≤ STACK_TOP }
    ensures are { IfOk result (λ vs. vs ≡ arguments_in cif.now.arguments (stack_at machine.now.sp (block_bytes cif.now) machine.now)) }
    ensures fit { IfOk result (λ vs. all_fit (trees_of cif.now.arguments) (values_of vs) ≡ true) }
{
    let none = Values::new(alloc);
    let block = machine.lend_stack(machine.sp(), cif.block());
    read_arguments(alloc, &Seen::new(cif.sig(), block, 0, &none))
}

/// All arguments of an activation.
fn read_arguments(alloc: Global, seen: &Seen) -> Result<Values, NoMemory>
    ensures are { IfOk result (λ vs. vs ≡ arguments_of seen.now) }
    ensures fit { IfOk result (λ vs. all_fit (trees_of seen.now.signature.arguments) (values_of vs) ≡ true) }
{
    let mut args = Values::new(alloc);
    for i in 0..seen.count() {
        args.push(seen.arg(alloc, i)?)?;
    }
    Ok(args)
}

/// Writes a line that tells an event, and then the line of its callee-saved registers, each in one
/// piece. Both are made before one is written.
fn write_event<A: Abi, O: Sink>(
    alloc: Global,
    output: &mut O,
    event: &Event,
    line: &[u8],
) -> Result<(), IoError>
    ensures { (stack : List ℕ) → WroteLine (line.now ++ keep_text_of A.standard (event_of event.now stack)) (O.state output.old) (O.state output.new) result }
{
    let Ok(kept) = keep_line::<A>(alloc, event) else {
        return Err(IoError::NoMemory);
    };
    let Ok(()) = write_all(output, line) else {
        return Err(IoError::Failed);
    };
    let Ok(()) = write_all(output, kept.as_slice()) else {
        return Err(IoError::Failed);
    };
    Ok(())
}
