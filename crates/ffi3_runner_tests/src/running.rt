//! A script that is run from a machine as it begins.
ghost use Rattle.std.specs.Prelude.{◌<◌, ◌≤◌, ◌^◌, length};
ghost use Rattle.ffi3_script.specs.ScriptOf.{natives_of};
ghost use Rattle.ffi3_script_spec.specs.Handed.{handed, signatures_in};

use ffi3_body::Native;
use ffi3_io::MemSink;
use ffi3_machine::{Machine, NoMemory};
use ffi3_place::Abi;
use ffi3_runner::{RunEnd, Runner};
use ffi3_script::{Names, Script, read_script};
use std::alloc::Global;
use std::process::Abort;

/// How many bytes an output has room for.
const ROOM: usize = 65_536;

/// A run that has ended.
#[derive(Drop)]
pub struct Ran {
    pub end: RunEnd,
    pub output: MemSink,
    pub moves_left: u32,
    pub machine: Machine,
}

/// A box is called here, so that its callers' proofs speak of the box itself.
fn name_of(native: &Box<dyn Native>) -> &str {
    native.name()
}

/// The names of the natives, in their order.
fn names_of(alloc: Global, natives: &Vec<Box<dyn Native>>) -> Result<Names, NoMemory> {
    let mut names = Names::new(alloc);
    for i in 0..natives.len() {
        if names.len() < 256 {
            names.push(String::from_str(alloc, name_of(&natives[i]))?)?;
        }
    }
    Ok(names)
}

/// The script that the text is beside the natives.
pub fn read_beside(
    rt: &impl Abort,
    alloc: Global,
    natives: &Vec<Box<dyn Native>>,
    text: &str,
) -> Script
    requires { length natives.now.items < 2 ^ 31 }
    ensures { natives_of result ≤ length natives.now.items }
{
    let names = names_of(alloc, natives).expect(rt, "memory");
    assert!(rt; names.len() <= natives.len());
    let Ok(script) = read_script(alloc, text.as_bytes(), &names) else {
        panic!(rt; "no script");
    };
    script
}

/// Runs a script from this machine, which begins. Tells the end, and how many moves are left.
fn run<A: Abi>(
    alloc: Global,
    machine: &mut Machine,
    output: &mut MemSink,
    natives: &Vec<Box<dyn Native>>,
    script: &Script,
) -> Result<(RunEnd, u32), NoMemory>
    requires beside { natives_of script.now ≤ length natives.now.items }
    requires few_natives { length natives.now.items < 2 ^ 31 }
    requires few_signatures { length (signatures_in (handed title meaning signatures natives.now.items)) < 2 ^ 31 }
{
    machine.begin(A::TARGET);
    let mut runner = Runner::<A>::new(alloc, script, natives)?;
    let end = runner.run_main(machine, output, false);
    Ok((end, runner.moves_left()))
}

/// Runs the script that the text is beside the natives, by the standard `A`.
pub fn run_script<A: Abi>(
    rt: &impl Abort,
    alloc: Global,
    natives: &Vec<Box<dyn Native>>,
    text: &str,
) -> Ran
    requires few_natives { length natives.now.items < 2 ^ 31 }
    requires few_signatures { length (signatures_in (handed title meaning signatures natives.now.items)) < 2 ^ 31 }
{
    let script = read_beside(rt, alloc, natives, text);
    let mut machine = Machine::new(alloc).expect(rt, "memory");
    let mut output = MemSink::new(alloc, ROOM, Vec::new(alloc)).expect(rt, "memory");
    let (end, moves_left) = run::<A>(alloc, &mut machine, &mut output, natives, &script).expect(
        rt, "memory",
    );
    Ran {
        end,
        output,
        moves_left,
        machine,
    }
}
