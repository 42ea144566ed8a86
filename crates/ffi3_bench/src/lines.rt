//! The lines of three targets.
ghost use Rattle.std.specs.Prelude.{◌≡◌, ◌≤◌, ◌++◌, IfOk, OnOk, length};
ghost use Rattle.ffi3_type_spec.specs.declared.limits.TheConstants.{MOST_CALLS};
ghost use Rattle.ffi3_type_spec.specs.Value.{void_value};
ghost use Rattle.ffi3_io_spec.specs.Written.{Wrote};
ghost use Rattle.ffi3_semantics_spec.specs.Lines.{untraced, text_of_run};
ghost use Rattle.ffi3_semantics_spec.specs.Meaning.{meaning_of, returned};
ghost use Rattle.ffi3_riscv_spec.specs.Riscv.{riscv};
ghost use Rattle.ffi3_script_spec.specs.Meaning.{program_of};
ghost use Rattle.ffi3_script_spec.specs.Made.{made};
ghost use Rattle.ffi3_script.specs.ScriptOf.{script_of, natives_of};
ghost use Rattle.ffi3_app_spec.specs.BenchText.{counts_text, line_of, bench_text, HasWholeJournal};

use crate::measure::{Measured, measure};
use ffi3_aapcs64::Aapcs64;
use ffi3_amd64::Amd64;
use ffi3_io::{IoError, Sink, write_line};
use ffi3_machine::Machine;
use ffi3_place::Abi;
use ffi3_riscv::Riscv;
use ffi3_script::{Script, made_script};
use ffi3_types::{Bytes, NoMemory};
use std::alloc::Global;

/// The line of what was measured.
fn line_of(alloc: Global, target: &str, measured: &Measured) -> Result<Bytes, NoMemory>
    ensures { IfOk result
        (λ l. l ≡ (target.now ++ counts_text measured.now.calls measured.now.moves measured.now.need) ++ measured.now.line.taken) }
{
    let calls = measured.calls;
    let moves = measured.moves;
    let need = measured.need;
    let counts = format!(in alloc; " calls {calls} moves {moves} need {need} result ")?;
    let mut line = Bytes::from_slice(alloc, target.as_bytes())?;
    line.extend(counts.as_bytes())?;
    line.extend(measured.line.taken())?;
    Ok(line)
}

/// The line of a script that returns, by a standard.
fn bench_by<A: Abi, O: Sink>(
    alloc: Global,
    target: &str,
    script: &Script,
    machine: &mut Machine,
    output: &mut O,
) -> Result<(), IoError>
    requires alone { natives_of script.now ≡ 0 }
    requires returns { (meaning_of (program_of A.standard (script_of script.now))).end ≡ returned void_value }
    requires short { length (text_of_run untraced (program_of A.standard (script_of script.now))) ≤ 21 }
    ensures wrote { Wrote (line_of target.now (program_of A.standard (script_of script.now)))
        (O.state output.old) (O.state output.new) result }
    ensures journal { OnOk result (HasWholeJournal A.standard (program_of A.standard (script_of script.now)) machine.new) }
{
    let measured = measure::<A>(alloc, script, machine)?;
    let line = line_of(alloc, target, &measured)?;
    write_line(output, line.as_slice())
}

/// Runs the script that is made from a seed and a number of calls, by each of the three standards,
/// and writes a line for each.
pub fn bench<O: Sink>(
    alloc: Global,
    seed: u32,
    calls: u32,
    machine: &mut Machine,
    output: &mut O,
) -> Result<(), IoError>
    requires { calls ≤ MOST_CALLS }
    ensures wrote { Wrote (bench_text seed calls) (O.state output.old) (O.state output.new) result }
    ensures journal { OnOk result (HasWholeJournal riscv (program_of riscv (made seed calls)) machine.new) }
{
    let script = made_script(alloc, seed, calls)?;
    bench_by::<Amd64, O>(alloc, "amd64", &script, machine, output)?;
    bench_by::<Aapcs64, O>(alloc, "aapcs64", &script, machine, output)?;
    bench_by::<Riscv, O>(alloc, "riscv", &script, machine, output)
}
