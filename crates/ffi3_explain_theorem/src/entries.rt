//! The entries of a run: the images that a machine recorded there, and what they are explained as.
ghost use Rattle.std.specs.Prelude.{◌≡◌, ◌<◌, ◌≤◌, ◌^◌, ℕ, IfOk, List, get_or, length};
ghost use Rattle.std.specs.List.{AllByRecursion};
ghost use Rattle.ffi3_type_spec.specs.Signature.{SignatureHasNoFault, signature_at};
ghost use Rattle.ffi3_place_spec.specs.declared.Loc.{Loc};
ghost use Rattle.ffi3_semantics_spec.specs.Journal.{Answers, Entered};
ghost use Rattle.ffi3_semantics_spec.specs.Trace.{TraceItem, trace_of};
ghost use Rattle.ffi3_machine.specs.Entries.{event_of};
ghost use Rattle.ffi3_machine_spec.specs.Recorded.{event_at};
ghost use Rattle.ffi3_script.specs.ScriptOf.{natives_of};
ghost use Rattle.ffi3_script_spec.specs.Handed.{handed, signatures_in};
ghost use Rattle.ffi3_runner.specs.Running.{program};
ghost use Rattle.ffi3_explain_spec.specs.Entries.{EntriesAreExplained};
ghost use Rattle.ffi3_explain_spec.specs.Laws.{HasWords};
ghost use Rattle.ffi3_explain.specs.ImageOf.{image_of};

use ffi3_body::Native;
use ffi3_explain::Image;
use ffi3_explain_spec::entry_laws;
use ffi3_io::Sink;
use ffi3_machine::{Event, Journal, Machine, NoMemory};
use ffi3_place::Abi;
use ffi3_runner::{Cifs, RunEnd, Runner};
use ffi3_script::Script;
use ffi3_types::Bytes;
use std::alloc::{AllocError, Global};

/// The image of an event, with these bytes of stack.
pub fn image_of(alloc: Global, event: &Event, stack: &[u8]) -> Result<Image, NoMemory>
    ensures { IfOk result (λ m. image_of m ≡ (event_of event.now stack.now).image) }
{
    Ok(Image {
        general: event.general,
        floating: event.floating,
        sp: event.sp,
        stack: Bytes::from_slice(alloc, stack)?,
    })
}

/// Does nothing. Registers have 64 bits, and bytes 8.
fn are_small(general: &[u64], floating: &[u64], stack: &[u8])
    ensures general { (r : ℕ) → get_or general.now r 0 < 2 ^ 64 }
    ensures floating { (r : ℕ) → get_or floating.now r 0 < 2 ^ 64 }
    ensures stack { (i : ℕ) → get_or stack.now i 0 < 256 }
{}

/// The same of what is recorded of event `i`.
fn has_words(journal: &Journal, i: usize)
    requires { i < length journal.now.events }
    ensures { HasWords (event_at journal.now.events i).image }
{
    let event = journal.get(i);
    are_small(&event.general, &event.floating, journal.stack(i));
}

/// And of every event.
fn have_words(journal: &Journal)
    ensures { AllByRecursion (λ e. HasWords e.image) journal.now.events }
{
    for i in 0..journal.len() {
        has_words(journal, i);
    }
}

/// No signature of the interfaces has a fault.
fn are_right<A: Abi>(cifs: &Cifs<A>)
    ensures { (k : ℕ) → SignatureHasNoFault (signature_at cifs.now k) }
{
    for k in 0..cifs.len() {
        let _sig = cifs.get(k).sig();
    }
}

/// Looks at events and signatures, and does nothing. Its contract says that each event that answers to an entry of a
/// run, of any trace by these signatures, is explained as that entry's arguments.
pub fn entries_are_explained<A: Abi>(machine: &Machine, cifs: &Cifs<A>)
    ensures { (top : ℕ) (held : Loc → ℕ) (n : ℕ) (unfinished : List Entered) (trace : List TraceItem) →
        Answers A.standard top held cifs.now n unfinished trace machine.now.events → EntriesAreExplained A.standard cifs.now trace machine.now.events }
{
    entry_laws();
    are_right(cifs);
    have_words(machine.events());
}

/// Runs main of a script beside natives, from a machine as it begins. However the run ends, each entry that the machine
/// recorded is explained as the arguments of that entry in the direct meaning.
pub fn run_explained<A: Abi, O: Sink>(
    alloc: Global,
    natives: &Vec<Box<dyn Native>>,
    script: &Script,
    machine: &mut Machine,
    output: &mut O,
    trace: bool,
) -> Result<RunEnd, NoMemory>
    requires beside { natives_of script.now ≤ length natives.now.items }
    requires few_natives { length natives.now.items < 2 ^ 31 }
    requires few_signatures { length (signatures_in (handed title meaning signatures natives.now.items)) < 2 ^ 31 }
    ensures { let p = program A.standard script.now (handed title meaning signatures natives.now.items) in
        IfOk result (λ end. EntriesAreExplained A.standard p.signatures (trace_of p) machine.new.events) }
{
    let Ok(mut runner) = Runner::<A>::new(alloc, script, natives) else {
        return Err(AllocError);
    };
    machine.begin(A::TARGET);
    let end = runner.run_main(machine, output, trace);
    entries_are_explained(machine, runner.cifs());
    Ok(end)
}
