//! What each command does.
ghost use Rattle.std.specs.Prelude.{◌≡◌, ◌<◌, ◌≤◌, ◌^◌, length};
ghost use Rattle.ffi3_script.specs.ScriptOf.{script_of, natives_of};
ghost use Rattle.ffi3_script_spec.specs.Natives.{names_of, program_beside};
ghost use Rattle.ffi3_script_spec.specs.Handed.{AreFew, handed};
ghost use Rattle.ffi3_machine_spec.specs.State.{State};
ghost use Rattle.ffi3_type_spec.specs.declared.limits.TheConstants.{MOST_CALLS};
ghost use Rattle.ffi3_explain_spec.specs.Standards.{standard_of};
ghost use Rattle.ffi3_app_spec.specs.Commands.{layout_text};
ghost use Rattle.ffi3_app_spec.specs.Declarations.{cdecl_text, cplace_text};
ghost use Rattle.ffi3_app_spec.specs.Outcome.{IsOfDeclaration, IsOfImage, IsOfPrototype, IsOfScript, IsOutcomeOn, benches, runs, tells};
ghost use Rattle.ffi3_app.specs.Work.{Works, script_outcome, work_of_writing};

use crate::cdecl::cdecl;
use crate::cplace::cplace;
use crate::declaration::declaration_in;
use crate::layout::layout;
use crate::place::place;
use crate::prototype::prototype_in;
use crate::script::script_in;
use crate::unfinished::Unfinished;
use crate::write::write_lines;
use ffi3_aapcs64::Aapcs64;
use ffi3_amd64::Amd64;
use ffi3_apple::Apple;
use ffi3_bench::bench;
use ffi3_body::Native;
use ffi3_cli::InputCommand;
use ffi3_image::{Answer, Question, answer_question};
use ffi3_io::{IoError, Sink};
use ffi3_machine::Machine;
use ffi3_place::Abi;
use ffi3_riscv::Riscv;
use ffi3_runner::{RunEnd, Runner};
use ffi3_script::Script;
use ffi3_types::Target;
use ffi3_win64::Win64;
use std::alloc::Global;

/// Carries out a command on the bytes of the input, beside natives, and returns the exit status: 0, or 6 where a run
/// stopped.
pub fn work<O: Sink>(
    alloc: Global,
    command: InputCommand,
    bytes: &[u8],
    natives: &Vec<Box<dyn Native>>,
    machine: &mut Machine,
    output: &mut O,
) -> Result<u8, Unfinished>
    requires { AreFew title meaning signatures natives.now.items }
    ensures { Works (IsOutcomeOn command (handed title meaning signatures natives.now.items) bytes.now) (O.state output.old) (O.state output.new) machine.old machine.new result }
{
    match command {
        InputCommand::Layout => tell_layout(alloc, bytes, natives, output),
        InputCommand::Place { target } => {
            let task = ScriptTask::Place;
            on_script(alloc, target, task, bytes, natives, machine, output)
        }
        InputCommand::Run { target, trace } => {
            let task = ScriptTask::Run { trace };
            on_script(alloc, target, task, bytes, natives, machine, output)
        }
        InputCommand::Cdecl => tell_cdecl(alloc, bytes, output),
        InputCommand::Cplace => tell_cplace(alloc, bytes, output),
        InputCommand::Explain => tell_answer(alloc, Question::Explained, bytes, output),
        InputCommand::Arguments => tell_answer(alloc, Question::ByStandard, bytes, output),
    }
}

/// What a command came to that writes a text.
fn written(text: Result<(), IoError>) -> Result<u8, Unfinished>
    ensures { result ≡ work_of_writing text }
{
    text?;
    Ok(0)
}

// ---- layout

fn tell_layout<O: Sink>(
    alloc: Global,
    bytes: &[u8],
    natives: &Vec<Box<dyn Native>>,
    output: &mut O,
) -> Result<u8, Unfinished>
    requires { length natives.now.items < 2 ^ 31 }
    ensures { (m : State) → Works (IsOfScript (names_of (handed title meaning signatures natives.now.items)) (λ s. tells (layout_text s)) bytes.now) (O.state output.old) (O.state output.new) m m result }
{
    match script_in(alloc, bytes, natives) {
        Ok(script) => written(layout(alloc, &script, output)),
        Err(end) => Err(end),
    }
}

// ---- cdecl and cplace

fn tell_cdecl<O: Sink>(alloc: Global, bytes: &[u8], output: &mut O) -> Result<u8, Unfinished>
    ensures { (m : State) → Works (IsOfDeclaration (λ d. tells (cdecl_text d)) bytes.now) (O.state output.old) (O.state output.new) m m result }
{
    match declaration_in(alloc, bytes) {
        Ok(declaration) => written(cdecl(alloc, &declaration, output)),
        Err(end) => Err(end),
    }
}

fn tell_cplace<O: Sink>(alloc: Global, bytes: &[u8], output: &mut O) -> Result<u8, Unfinished>
    ensures { (m : State) → Works (IsOfPrototype (λ names d. tells (cplace_text names d)) bytes.now) (O.state output.old) (O.state output.new) m m result }
{
    match prototype_in(alloc, bytes) {
        Ok(declaration) => written(cplace(alloc, bytes, &declaration, output)),
        Err(end) => Err(end),
    }
}

// ---- explain and arguments

fn tell_answer<O: Sink>(
    alloc: Global,
    question: Question,
    bytes: &[u8],
    output: &mut O,
) -> Result<u8, Unfinished>
    ensures { (m : State) → Works (IsOfImage question bytes.now) (O.state output.old) (O.state output.new) m m result }
{
    match answer_question(alloc, question, bytes) {
        Ok(Answer::Text(text)) => written(write_lines(output, text.as_slice())),
        Ok(Answer::Refusal(line)) => Err(Unfinished::Refused(line)),
        Err(_) => Err(Unfinished::NoMemory),
    }
}

// ---- place and run

/// What is done with a script by the calling standard of a target.
#[derive(Clone, Copy)]
pub enum ScriptTask {
    /// The places of each signature are written.
    Place,
    /// The script is run, with the lines of a trace or without.
    Run { trace: bool },
}

fn on_script<O: Sink>(
    alloc: Global,
    target: Target,
    task: ScriptTask,
    bytes: &[u8],
    natives: &Vec<Box<dyn Native>>,
    machine: &mut Machine,
    output: &mut O,
) -> Result<u8, Unfinished>
    requires { AreFew title meaning signatures natives.now.items }
    ensures { Works (IsOfScript (names_of (handed title meaning signatures natives.now.items)) (script_outcome task (handed title meaning signatures natives.now.items) (standard_of target)) bytes.now)
        (O.state output.old) (O.state output.new) machine.old machine.new result }
{
    match script_in(alloc, bytes, natives) {
        Ok(script) => on_target(alloc, target, task, &script, natives, machine, output),
        Err(end) => Err(end),
    }
}

/// By the target's standard. No other function of this crate chooses by the target.
fn on_target<O: Sink>(
    alloc: Global,
    target: Target,
    task: ScriptTask,
    script: &Script,
    natives: &Vec<Box<dyn Native>>,
    machine: &mut Machine,
    output: &mut O,
) -> Result<u8, Unfinished>
    requires beside { natives_of script.now ≤ length natives.now.items }
    requires few { AreFew title meaning signatures natives.now.items }
    ensures { Works (λ o. o ≡ script_outcome task (handed title meaning signatures natives.now.items) (standard_of target) (script_of script.now))
        (O.state output.old) (O.state output.new) machine.old machine.new result }
{
    match target {
        Target::Amd64 => by_standard::<Amd64, O>(alloc, task, script, natives, machine, output),
        Target::Aapcs64 => by_standard::<Aapcs64, O>(alloc, task, script, natives, machine, output),
        Target::Riscv => by_standard::<Riscv, O>(alloc, task, script, natives, machine, output),
        Target::Win64 => by_standard::<Win64, O>(alloc, task, script, natives, machine, output),
        Target::Apple => by_standard::<Apple, O>(alloc, task, script, natives, machine, output),
    }
}

/// By a calling standard.
fn by_standard<A: Abi, O: Sink>(
    alloc: Global,
    task: ScriptTask,
    script: &Script,
    natives: &Vec<Box<dyn Native>>,
    machine: &mut Machine,
    output: &mut O,
) -> Result<u8, Unfinished>
    requires beside { natives_of script.now ≤ length natives.now.items }
    requires few { AreFew title meaning signatures natives.now.items }
    ensures { Works (λ o. o ≡ script_outcome task (handed title meaning signatures natives.now.items) A.standard (script_of script.now))
        (O.state output.old) (O.state output.new) machine.old machine.new result }
{
    match task {
        ScriptTask::Place => written(place::<A, O>(alloc, script, output)),
        ScriptTask::Run { trace } => {
            run_by::<A, O>(alloc, trace, script, natives, machine, output)
        }
    }
}

/// On the machine of a standard's target.
fn run_by<A: Abi, O: Sink>(
    alloc: Global,
    trace: bool,
    script: &Script,
    natives: &Vec<Box<dyn Native>>,
    machine: &mut Machine,
    output: &mut O,
) -> Result<u8, Unfinished>
    requires beside { natives_of script.now ≤ length natives.now.items }
    requires few { AreFew title meaning signatures natives.now.items }
    ensures { Works (λ o. o ≡ runs trace A.standard (program_beside A.standard (handed title meaning signatures natives.now.items) (script_of script.now)))
        (O.state output.old) (O.state output.new) machine.old machine.new result }
{
    let Ok(mut runner) = Runner::<A>::new(alloc, script, natives) else {
        return Err(Unfinished::NoMemory);
    };
    machine.begin(A::TARGET);
    match runner.run_main(machine, output, trace) {
        RunEnd::Done => Ok(0),
        RunEnd::Stopped(_) => Ok(6),
        RunEnd::NoMemory => Err(Unfinished::NoMemory),
        RunEnd::Failed => Err(Unfinished::WriteFault),
    }
}

// ---- bench

/// Runs the made script of a seed and a number of calls by three standards, and writes a line of each.
pub fn run_bench<O: Sink>(
    alloc: Global,
    seed: u32,
    calls: u32,
    machine: &mut Machine,
    output: &mut O,
) -> Result<u8, Unfinished>
    requires { calls ≤ MOST_CALLS }
    ensures { Works (λ o. o ≡ benches seed calls) (O.state output.old) (O.state output.new) machine.old machine.new result }
{
    written(bench(alloc, seed, calls, machine, output))
}
