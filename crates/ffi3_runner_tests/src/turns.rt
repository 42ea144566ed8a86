//! Runs of main, one move at a time: every other move writes to a second sink and is traced, and what else the caller
//! writes to a sink between two moves does not matter.
ghost use Rattle.std.specs.Prelude.{◌<◌, ◌≤◌, ◌^◌, length};
ghost use Rattle.ffi3_script.specs.ScriptOf.{natives_of};
ghost use Rattle.ffi3_script_spec.specs.Handed.{handed, signatures_in};

use crate::running::read_beside;
use ffi3_amd64::Amd64;
use ffi3_body::Native;
use ffi3_io::{MemSink, write_all};
use ffi3_machine::{Machine, NoMemory};
use ffi3_place::Abi;
use ffi3_runner::{Runner, Stop, Turn};
use ffi3_script::Script;
use ffi3_win64::Win64;
use std::alloc::Global;
use std::mem;
use std::process::Abort;

/// How many bytes each output has room for.
const ROOM: usize = 1_024;

/// How the caller of a run's moves goes on: what it writes itself after each move but the last, into the output of that
/// move, and whether each second move is traced.
struct Caller {
    between: &'static str,
    traces: bool,
}

/// Does the moves of main on this machine, which begins, each second one into a second output. At the end the output of
/// the last move stands first. Tells the end, and how many moves are left.
fn take_turns<A: Abi>(
    alloc: Global,
    machine: &mut Machine,
    output: &mut MemSink,
    other: &mut MemSink,
    natives: &Vec<Box<dyn Native>>,
    script: &Script,
    caller: &Caller,
) -> Result<(Turn, u32), NoMemory>
    requires beside { natives_of script.now ≤ length natives.now.items }
    requires few_natives { length natives.now.items < 2 ^ 31 }
    requires few_signatures { length (signatures_in (handed title meaning signatures natives.now.items)) < 2 ^ 31 }
{
    machine.begin(A::TARGET);
    let mut runner = Runner::<A>::new(alloc, script, natives)?;
    runner.start();
    let mut second = false;
    loop {
        let end = runner.turn(machine, output, second && caller.traces);
        if end != Turn::More {
            return Ok((end, runner.moves_left()));
        }
        let _told = write_all(output, caller.between.as_bytes());
        mem::swap(output, other);
        second = !second;
    }
}

/// What a run must come to.
#[derive(Drop)]
struct Wanted {
    end: Turn,
    last: &'static str,
    other: &'static str,
    moves_left: u32,
}

/// Runs a script by a standard, and compares the texts of both outputs and the moves that are left.
fn check_script<A: Abi>(
    rt: &impl Abort,
    alloc: Global,
    natives: &Vec<Box<dyn Native>>,
    script: &Script,
    caller: &Caller,
    wanted: &Wanted,
)
    requires beside { natives_of script.now ≤ length natives.now.items }
    requires few_natives { length natives.now.items < 2 ^ 31 }
    requires few_signatures { length (signatures_in (handed title meaning signatures natives.now.items)) < 2 ^ 31 }
{
    let mut machine = Machine::new(alloc).expect(rt, "memory");
    let mut last = MemSink::new(alloc, ROOM, Vec::new(alloc)).expect(rt, "memory");
    let mut other = MemSink::new(alloc, ROOM, Vec::new(alloc)).expect(rt, "memory");
    let (end, moves_left) = take_turns::<A>(
        alloc,
        &mut machine,
        &mut last,
        &mut other,
        natives,
        script,
        caller,
    )
    .expect(rt, "memory");
    assert!(rt; end == wanted.end);
    assert!(rt; last.taken() == wanted.last.as_bytes());
    assert!(rt; other.taken() == wanted.other.as_bytes());
    assert!(rt; moves_left == wanted.moves_left);
}

/// The same of the script that the text is, with no native beside it.
fn check_turns<A: Abi>(
    rt: &impl Abort,
    alloc: Global,
    text: &str,
    caller: &Caller,
    wanted: &Wanted,
) {
    let natives: Vec<Box<dyn Native>> = Vec::new(alloc);
    let script = read_beside(rt, alloc, &natives, text);
    check_script::<A>(rt, alloc, &natives, &script, caller, wanted);
}

const TRACES: Caller = Caller {
    between: "-\n",
    traces: true,
};

const WRITES: Caller = Caller {
    between: "-\n",
    traces: false,
};

const SILENT: Caller = Caller {
    between: "",
    traces: false,
};

/// A call whose entry is told, and whose return is not.
const CALL: &str =
    r#"{"version":1,"signatures":[{"ret":"sint32","args":["sint32"]}],"functions":[{"name":"inc","sig":0,"body":[{"return":{"add":[{"arg":0},1]}}]}],"main":[{"make":"inc","as":"f"},{"call":{"res":"f"},"sig":0,"args":[41],"as":"r"},{"print":{"res":"r"}},{"return":null}]}"#;

/// A free where there is no closure.
const NO_CLOSURE: &str =
    r#"{"version":1,"signatures":[],"functions":[],"main":[{"print":{"of":["sint8",1]}},{"free":65536},{"return":null}]}"#;

/// A call by another signature.
const WRONG_SIG: &str =
    r#"{"version":1,"signatures":[{"ret":"sint32","args":[]},{"ret":"void","args":[]}],"functions":[{"name":"f","sig":0,"body":[{"return":7}]}],"main":[{"make":"f","as":"p"},{"call":{"res":"p"},"sig":1,"args":[]},{"return":null}]}"#;

/// A function that hands its argument of 128 bytes to itself without end.
const ENDLESS: &str =
    r#"{"version":1,"signatures":[{"ret":"void","args":[{"struct":["uint64","uint64","uint64","uint64","uint64","uint64","uint64","uint64","uint64","uint64","uint64","uint64","uint64","uint64","uint64","uint64"]}]}],"functions":[{"name":"f","sig":0,"body":[{"call":65536,"sig":0,"args":[{"arg":0}]},{"return":null}]}],"main":[{"make":"f","as":"p"},{"call":{"res":"p"},"sig":0,"args":[[0,0,0,0,0,0,0,0,0,0,0,0,0,0,0,0]]},{"return":null}]}"#;

/// A function that calls itself without end, with a closure made before each call.
const MAKES: &str =
    r#"{"version":1,"signatures":[{"ret":"void","args":[]}],"functions":[{"name":"f","sig":0,"body":[{"make":"f"},{"call":65536,"sig":0,"args":[]},{"return":null}]}],"main":[{"make":"f","as":"p"},{"call":{"res":"p"},"sig":0,"args":[]},{"return":null}]}"#;

/// A function that calls itself twice with one less, until its argument is 0: from 12 that takes 16,381 moves.
const TREE: &str =
    r#"{"version":1,"signatures":[{"ret":"void","args":["sint32"]}],"functions":[{"name":"f","sig":0,"body":[{"call":65536,"sig":0,"args":[{"sub":[{"arg":0},1]}],"when":{"arg":0}},{"call":65536,"sig":0,"args":[{"sub":[{"arg":0},1]}],"when":{"arg":0}},{"return":null}]}],"main":[{"make":"f","as":"p"},{"call":{"res":"p"},"sig":0,"args":[12]},{"return":null}]}"#;

#[test]
fn one_move_a_turn(rt: HostRuntime) {
    let wanted = Wanted {
        end: Turn::Done,
        last: "-\n-\n",
        other: "enter 0x10000 sp 0x7ffefff8 (41)\nkeep a5a5000000000003 a5a5000000000005 a5a500000000000c a5a500000000000d a5a500000000000e a5a500000000000f\n-\n42\n-\n",
        moves_left: 9_995,
    };
    check_turns::<Amd64>(&rt, rt.alloc(), CALL, &TRACES, &wanted);
    let by_win64 = Wanted {
        end: Turn::Done,
        last: "-\n-\n",
        other: "enter 0x10000 sp 0x7ffeffd8 (41)\nkeep a5a5000000000003 a5a5000000000005 a5a5000000000007 a5a5000000000006 a5a500000000000c a5a500000000000d a5a500000000000e a5a500000000000f 5a5a000000000006 5a5a000000000007 5a5a000000000008 5a5a000000000009 5a5a00000000000a 5a5a00000000000b 5a5a00000000000c 5a5a00000000000d 5a5a00000000000e 5a5a00000000000f\n-\n42\n-\n",
        moves_left: 9_995,
    };
    check_turns::<Win64>(&rt, rt.alloc(), CALL, &TRACES, &by_win64);
}

#[test]
fn turns_until_no_closure(rt: HostRuntime) {
    let wanted = Wanted {
        end: Turn::Stopped(Stop::NoClosure { ptr: 0x1_0000 }),
        last: "stop: no closure at 0x10000\n",
        other: "1\n-\n",
        moves_left: 9_998,
    };
    check_turns::<Amd64>(&rt, rt.alloc(), NO_CLOSURE, &WRITES, &wanted);
}

#[test]
fn turns_until_a_wrong_signature(rt: HostRuntime) {
    let stop = Stop::WrongSig {
        ptr: 0x1_0000,
        site: 1,
        found: 0,
    };
    let wanted = Wanted {
        end: Turn::Stopped(stop),
        last: "stop: wrong signature at 0x10000: called as void(), is sint32()\n",
        other: "-\n",
        moves_left: 9_998,
    };
    check_turns::<Amd64>(&rt, rt.alloc(), WRONG_SIG, &WRITES, &wanted);
}

#[test]
fn turns_until_the_stack_is_full(rt: HostRuntime) {
    let wanted = Wanted {
        end: Turn::Stopped(Stop::StackFull {
            need: 320,
            left: 256,
        }),
        last: "stop: stack full: need 320, left 256\n",
        other: "",
        moves_left: 6_722,
    };
    check_turns::<Amd64>(&rt, rt.alloc(), ENDLESS, &SILENT, &wanted);
}

#[test]
fn turns_until_the_table_is_full(rt: HostRuntime) {
    let wanted = Wanted {
        end: Turn::Stopped(Stop::TableFull),
        last: "stop: closure table full\n",
        other: "",
        moves_left: 9_487,
    };
    check_turns::<Amd64>(&rt, rt.alloc(), MAKES, &SILENT, &wanted);
}

#[test]
fn turns_until_the_move_limit(rt: HostRuntime) {
    let wanted = Wanted {
        end: Turn::Stopped(Stop::MoveLimit),
        last: "stop: move limit\n",
        other: "",
        moves_left: 0,
    };
    check_turns::<Amd64>(&rt, rt.alloc(), TREE, &SILENT, &wanted);
}
