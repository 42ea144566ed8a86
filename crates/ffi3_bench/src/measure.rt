//! What the run of a script takes, by a standard.
ghost use Rattle.std.specs.Prelude.{◌≡◌, ◌<◌, ◌≤◌, IfOk, OnOk, length, map};
ghost use Rattle.ffi3_type_spec.specs.Value.{void_value};
ghost use Rattle.ffi3_place_spec.specs.Standard.{need_of};
ghost use Rattle.ffi3_semantics_spec.specs.Lines.{untraced, text_of_run};
ghost use Rattle.ffi3_semantics_spec.specs.Meaning.{meaning_of, returned};
ghost use Rattle.ffi3_script_spec.specs.Meaning.{program_of};
ghost use Rattle.ffi3_script.specs.ScriptOf.{script_of, natives_of};
ghost use Rattle.ffi3_app_spec.specs.BenchText.{greatest, calls_of, moves_of, need_of_all, HasWholeJournal};

use crate::line::LineSink;
use ffi3_machine::Machine;
use ffi3_next_move::Native;
use ffi3_place::Abi;
use ffi3_run_state::Cifs;
use ffi3_runner::{RunEnd, Runner};
use ffi3_script::Script;
use ffi3_type_spec::limits::MOST_MOVES;
use ffi3_types::NoMemory;
use std::alloc::Global;

/// What a run took, and the line that it wrote.
#[derive(Drop)]
pub(crate) struct Measured {
    pub(crate) calls: u64,
    pub(crate) moves: u32,
    pub(crate) need: u64,
    pub(crate) line: LineSink,
}

/// The greatest need of a run's signatures.
fn greatest_need<A: Abi>(cifs: &Cifs<A>) -> u64
    ensures { result ≡ greatest (map (need_of A.standard) cifs.now) }
{
    let mut greatest = 0;
    for number in 0..cifs.len() {
        let need = cifs.get(number).need();
        if greatest < need {
            greatest = need;
        }
    }
    greatest
}

/// Runs a script that returns, and writes a short line before.
pub(crate) fn measure<A: Abi>(
    alloc: Global,
    script: &Script,
    machine: &mut Machine,
) -> Result<Measured, NoMemory>
    requires alone { natives_of script.now ≡ 0 }
    requires returns { (meaning_of (program_of A.standard (script_of script.now))).end ≡ returned void_value }
    requires short { length (text_of_run untraced (program_of A.standard (script_of script.now))) ≤ 21 }
    ensures calls { IfOk result (λ m. m.calls ≡ calls_of (program_of A.standard (script_of script.now))) }
    ensures moves { IfOk result (λ m. m.moves ≡ moves_of (program_of A.standard (script_of script.now))) }
    ensures need { IfOk result (λ m. m.need ≡ need_of_all (program_of A.standard (script_of script.now))) }
    ensures line { IfOk result (λ m. m.line.taken ≡ text_of_run untraced (program_of A.standard (script_of script.now))) }
    ensures journal { OnOk result (HasWholeJournal A.standard (program_of A.standard (script_of script.now)) machine.new) }
{
    let natives: Vec<Box<dyn Native>> = Vec::new(alloc);
    machine.begin(A::TARGET);
    let mut runner = Runner::<A>::new(alloc, script, &natives)?;
    let need = greatest_need(runner.cifs());
    let mut line = LineSink::new();
    let end = runner.run_main(machine, &mut line, false);
    let taken = line.taken().len();
    match end {
        RunEnd::Done => {}
        RunEnd::NoMemory => return Err(NoMemory),
        // the script returns
        RunEnd::Stopped(_) => unreachable!(),
        // and its line is short
        RunEnd::Failed => unreachable!(),
    }
    let calls = machine.events().len() as u64 / 2;
    let moves = MOST_MOVES as u32 - runner.moves_left();
    Ok(Measured {
        calls,
        moves,
        need,
        line,
    })
}
