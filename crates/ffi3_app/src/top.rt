//! The top call.
ghost use Rattle.std.specs.Prelude.{◌≡◌, ◌<◌, ◌⊎◌, ◌^◌, List, ℕ, Some, length, map, string_bytes, true};
ghost use Rattle.ffi3_io_spec.specs.Sink.{Rose};
ghost use Rattle.ffi3_cli_spec.specs.declared.words.Request.{Request};
ghost use Rattle.ffi3_cli_spec.specs.declared.words.Request.TheVariants.{OnInput};
ghost use Rattle.ffi3_cli_spec.specs.Words.{IsStated, Takes};
ghost use Rattle.ffi3_script_spec.specs.Handed.{AreFew, handed, signatures_in};
ghost use Rattle.ffi3_app_spec.specs.Outcome.{IsOutcome, Outcome, outcome_status, reads_input};
ghost use Rattle.ffi3_app_spec.specs.Top.{Says};

use crate::unfinished::tell_end;
use crate::work::{run_bench, work};
use ffi3_body::Native;
use ffi3_cli::{InputCommand, Request, WordsFault, read_words};
use ffi3_io::{IoError, Sink, Source, read_all};
use ffi3_json::MAX_LENGTH;
use ffi3_machine::Machine;
use ffi3_status::{Fault, tell, tell_fault};
use std::alloc::Global;

/// Runs the command line and returns the exit status.
///
/// The words hold the program's name first. For `layout`, `place --target TARGET` and `run --target TARGET` the input
/// is read to its end, or until it is longer than a script may be, and the output takes the lines that the command
/// writes of the script. Scripts are read beside the names of the natives, and run together with them. `cdecl` and
/// `cplace` read it as one C declaration in place of a script, `explain` and `arguments` as the description of an
/// image. `bench --seed N --calls M` reads nothing, and the output takes a line for each target. The line of a fault
/// goes to `faults`.
///
/// | status | when |
/// |---|---|
/// | 0 | the text is written; after a run the machine's journal is its call tree |
/// | 1 | the input is no script, no declaration, no description of an image, or the image does not hold arguments |
/// | 2 | the words are refused, or ask for help |
/// | 3 | a read failed |
/// | 4 | a write failed |
/// | 5 | memory was refused |
/// | 6 | the run stopped, and its text is written |
pub fn ffi3<I: Source, O: Sink, E: Sink>(
    alloc: Global,
    words: Vec<String>,
    input: &mut I,
    output: &mut O,
    faults: &mut E,
    natives: &Vec<Box<dyn Native>>,
    machine: &mut Machine,
) -> u8
    requires few_natives { length natives.now.items < 2 ^ 31 }
    requires few_signatures { length (signatures_in (handed title meaning signatures natives.now.items)) < 2 ^ 31 }

    // What each status says, for scripts beside these natives: its cause, what was written, and what stayed as it was.
    ensures says { Says (map string_bytes words.items) (handed title meaning signatures natives.now.items)
        (I.state input.old) (I.state input.new)
        (O.state output.old) (O.state output.new)
        (E.state faults.old) (E.state faults.new)
        machine.old machine.new result }

    // If no read or write fails, the status is that of what the words ask for; only memory may be refused at any time.
    ensures complete { (r : Request) → IsStated (map string_bytes words.items) r → (bytes : List ℕ) → (reads_input r ≡ true → (I.state input.old).left ≡ Some bytes) →
        (o : Outcome) → IsOutcome r (handed title meaning signatures natives.now.items) bytes o →
        (reads_input r ≡ true → Rose (I.state input.old).faults (I.state input.new).faults → ⊥) → (Rose (O.state output.old).faults (O.state output.new).faults → ⊥) →
        (Rose (E.state faults.old).faults (E.state faults.new).faults → ⊥) → (result ≡ outcome_status o) ⊎ (result ≡ 5) }
    ensures knows_words { (r : Request) → IsStated (map string_bytes words.items) r → result ≡ 2 → ⊥ }

    // Words that are refused ask for nothing, and no words ask for two things.
    ensures refused_ask_nothing { result ≡ 2 → (r : Request) → Takes (map string_bytes words.items) r → ⊥ }
    ensures ask_one { (q r : Request) → Takes (map string_bytes words.items) q → Takes (map string_bytes words.items) r → q ≡ r }

    // A count that is higher than before shows in the status.
    ensures read_counted { (I.state input.old).faults < (I.state input.new).faults → (result ≡ 3) ⊎ (result ≡ 4) }
    ensures write_counted { (O.state output.old).faults < (O.state output.new).faults → result ≡ 4 }
    ensures telling_counted { (E.state faults.old).faults < (E.state faults.new).faults → result ≡ 4 }
{
    answer(alloc, words, input, output, faults, natives, machine)
}

/// The same, from which the clauses above follow.
fn answer<I: Source, O: Sink, E: Sink>(
    alloc: Global,
    words: Vec<String>,
    input: &mut I,
    output: &mut O,
    faults: &mut E,
    natives: &Vec<Box<dyn Native>>,
    machine: &mut Machine,
) -> u8
    requires { AreFew title meaning signatures natives.now.items }
    ensures { Says (map string_bytes words.items) (handed title meaning signatures natives.now.items)
        (I.state input.old) (I.state input.new)
        (O.state output.old) (O.state output.new)
        (E.state faults.old) (E.state faults.new)
        machine.old machine.new result }
{
    match read_words(alloc, words) {
        Ok(Request::OnInput(command)) => {
            answer_on_input(alloc, command, input, output, faults, natives, machine)
        }
        Ok(Request::Bench { seed, calls }) => {
            tell_end(faults, run_bench(alloc, seed, calls, machine, output))
        }
        Err(WordsFault::Refused(text)) => tell(faults, text.as_str(), 2),
        Err(WordsFault::NoMemory) => tell_fault(faults, Fault::NoMemory),
    }
}

/// Carries out a command on the input, of which it reads at most one byte more than a script may have.
fn answer_on_input<I: Source, O: Sink, E: Sink>(
    alloc: Global,
    command: InputCommand,
    input: &mut I,
    output: &mut O,
    faults: &mut E,
    natives: &Vec<Box<dyn Native>>,
    machine: &mut Machine,
) -> u8
    requires { AreFew title meaning signatures natives.now.items }
    ensures { (words : List (List ℕ)) → Takes words (OnInput command) →
        Says words (handed title meaning signatures natives.now.items)
        (I.state input.old) (I.state input.new)
        (O.state output.old) (O.state output.new)
        (E.state faults.old) (E.state faults.new)
        machine.old machine.new result }
{
    let bytes = match read_all(alloc, input, MAX_LENGTH + 1) {
        Ok(bytes) => bytes,
        Err(IoError::NoMemory) => return tell_fault(faults, Fault::NoMemory),
        Err(IoError::Failed) => return tell_fault(faults, Fault::Read),
    };
    tell_end(
        faults,
        work(alloc, command, &bytes, natives, machine, output),
    )
}
