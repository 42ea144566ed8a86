//! Scripts of functions that call one another, with no native among them.
ghost use Rattle.std.specs.Prelude.{◌<◌, ◌^◌, length};
ghost use Rattle.ffi3_script_spec.specs.Handed.{handed, signatures_in};

use crate::running::{Ran, run_script};
use ffi3_aapcs64::Aapcs64;
use ffi3_amd64::Amd64;
use ffi3_apple::Apple;
use ffi3_body::Native;
use ffi3_machine::Target;
use ffi3_place::Abi;
use ffi3_riscv::Riscv;
use ffi3_runner::{RunEnd, Stop};
use ffi3_win64::Win64;
use std::alloc::Global;
use std::process::Abort;

/// What a run must come to.
#[derive(Clone, Copy)]
pub struct Wanted {
    pub text: &'static str,
    pub end: RunEnd,
    pub moves_left: u32,
    pub events: usize,
    pub mark: u64,
}

/// How many instructions the machine runs for one call: the trampoline's three, and those of the four stubs where calls
/// go by stubs (18, 25, 14 and 6 on amd64; 22, 43, 31 and 9 on aapcs64; 21, 47, 34 and 7 on riscv).
fn steps_of_a_call(target: Target) -> u64 {
    match target {
        Target::Amd64 => 66,
        Target::Aapcs64 => 108,
        Target::Riscv => 112,
        Target::Win64 => 3,
        Target::Apple => 108,
    }
}

/// The run came to what it must come to, in so many steps for each call if all have returned.
fn check_ran(rt: &impl Abort, ran: &Ran, wanted: &Wanted, steps: u64) {
    assert!(rt; ran.output.taken() == wanted.text.as_bytes());
    assert!(rt; ran.end == wanted.end);
    assert!(rt; ran.moves_left == wanted.moves_left);
    assert!(rt; ran.machine.events().len() == wanted.events);
    assert!(rt; ran.machine.mark() == wanted.mark);
    if ran.end == RunEnd::Done {
        let calls = wanted.events as u64 / 2;
        assert!(rt; ran.machine.steps() == calls.wrapping_mul(steps));
    }
}

/// Runs a script by a standard.
fn check_by<A: Abi>(
    rt: &impl Abort,
    alloc: Global,
    natives: &Vec<Box<dyn Native>>,
    script: &str,
    wanted: &Wanted,
)
    requires few_natives { length natives.now.items < 2 ^ 31 }
    requires few_signatures { length (signatures_in (handed title meaning signatures natives.now.items)) < 2 ^ 31 }
{
    let ran = run_script::<A>(rt, alloc, natives, script);
    check_ran(rt, &ran, wanted, steps_of_a_call(A::TARGET));
}

/// Runs a script by AMD64, AAPCS64, RISC-V and Microsoft x64, and by Apple's standard, which places as AAPCS64 does where
/// no argument is variadic or on the stack.
pub fn check(
    rt: &impl Abort,
    alloc: Global,
    natives: &Vec<Box<dyn Native>>,
    script: &str,
    wanted: &[Wanted; 4],
)
    requires few_natives { length natives.now.items < 2 ^ 31 }
    requires few_signatures { length (signatures_in (handed title meaning signatures natives.now.items)) < 2 ^ 31 }
{
    check_by::<Amd64>(rt, alloc, natives, script, &wanted[0]);
    check_by::<Aapcs64>(rt, alloc, natives, script, &wanted[1]);
    check_by::<Riscv>(rt, alloc, natives, script, &wanted[2]);
    check_by::<Win64>(rt, alloc, natives, script, &wanted[3]);
    check_by::<Apple>(rt, alloc, natives, script, &wanted[1]);
}

/// The same with no native beside the script.
fn check_alone(rt: &impl Abort, alloc: Global, script: &str, wanted: &[Wanted; 4]) {
    let natives: Vec<Box<dyn Native>> = Vec::new(alloc);
    check(rt, alloc, &natives, script, wanted);
}

/// The same run by each standard, but for the lowest address that it writes.
pub fn alike(
    text: &'static str,
    end: RunEnd,
    moves_left: u32,
    events: usize,
    marks: [u64; 4],
) -> [Wanted; 4] {
    let first = Wanted {
        text,
        end,
        moves_left,
        events,
        mark: marks[0],
    };
    let mut wanted = [first; 4];
    wanted[1].mark = marks[1];
    wanted[2].mark = marks[2];
    wanted[3].mark = marks[3];
    wanted
}

/// Four functions, each of which calls the one before it.
const FOUR_DEEP: &str =
    r#"{"version":1,"signatures":[{"ret":"sint64","args":["sint64"]}],"functions":[{"name":"h","sig":0,"body":[{"return":{"add":[{"arg":0},5]}}]},{"name":"g","sig":0,"body":[{"call":65536,"sig":0,"args":[{"add":[{"arg":0},1]}],"as":"r"},{"return":{"add":[{"res":"r"},{"arg":0}]}}]},{"name":"f","sig":0,"body":[{"call":65600,"sig":0,"args":[{"add":[{"arg":0},1]}],"as":"r"},{"return":{"add":[{"res":"r"},{"arg":0}]}}]},{"name":"e","sig":0,"body":[{"call":65664,"sig":0,"args":[{"add":[{"arg":0},1]}],"as":"r"},{"return":{"add":[{"res":"r"},{"arg":0}]}}]}],"main":[{"make":"h"},{"make":"g"},{"make":"f"},{"make":"e"},{"call":65728,"sig":0,"args":[10],"as":"r"},{"print":{"res":"r"}},{"return":null}]}"#;

/// A function that calls itself without end.
const ENDLESS: &str =
    r#"{"version":1,"signatures":[{"ret":"void","args":[]}],"functions":[{"name":"f","sig":0,"body":[{"call":65536,"sig":0,"args":[]},{"return":null}]}],"main":[{"make":"f","as":"p"},{"call":{"res":"p"},"sig":0,"args":[]},{"return":null}]}"#;

/// A closure that frees itself and gives its slot to another function.
const FREES_ITSELF: &str =
    r#"{"version":1,"signatures":[{"ret":"sint32","args":[]},{"ret":"sint64","args":[]}],"functions":[{"name":"f","sig":0,"body":[{"free":65536},{"make":"g"},{"return":7}]},{"name":"g","sig":0,"body":[{"return":9}]}],"main":[{"make":"f","as":"p"},{"call":{"res":"p"},"sig":0,"args":[],"as":"a"},{"print":{"res":"a"}},{"call":{"res":"p"},"sig":0,"args":[],"as":"b"},{"print":{"res":"b"}},{"call":{"res":"p"},"sig":1,"args":[]},{"return":null}]}"#;

/// A function with a struct on the stack or by reference, one in registers, and one through a buffer as its result,
/// which it gives after a call of another function.
const STRUCTS: &str =
    r#"{"version":1,"signatures":[{"ret":{"struct":["sint64","sint64","sint64"]},"args":[{"struct":["sint64","sint64","sint64"]},{"struct":["sint32","float"]},"double"]},{"ret":"sint64","args":["sint64"]}],"functions":[{"name":"inner","sig":1,"body":[{"return":{"add":[{"arg":0},5]}}]},{"name":"outer","sig":0,"body":[{"call":65536,"sig":1,"args":[{"field":[{"arg":0},1]}],"as":"n"},{"print":{"arg":1}},{"print":{"arg":2}},{"return":[{"field":[{"arg":0},2]},{"res":"n"},{"field":[{"arg":0},0]}]}]}],"main":[{"make":"inner"},{"make":"outer","as":"f"},{"call":{"res":"f"},"sig":0,"args":[[1,20,300],[-7,"0000803f"],"000000000000f03f"],"as":"r"},{"print":{"res":"r"}},{"return":null}]}"#;

/// A function that counts down by calls of itself.
const COUNTDOWN: &str =
    r#"{"version":1,"signatures":[{"ret":"sint32","args":["sint32"]}],"functions":[{"name":"f","sig":0,"body":[{"call":65536,"sig":0,"args":[{"sub":[{"arg":0},1]}],"as":"r","when":{"arg":0}},{"return":{"add":[{"arg":0},{"res":"r"}]}}]}],"main":[{"make":"f","as":"p"},{"call":{"res":"p"},"sig":0,"args":[4],"as":"r"},{"print":{"res":"r"}},{"return":null}]}"#;

#[test]
fn callbacks_four_deep(rt: HostRuntime) {
    let wanted = alike(
        "51\n",
        RunEnd::Done,
        9_986,
        8,
        [0x7FFE_FEC0, 0x7FFE_FD00, 0x7FFE_FC80, 0x7FFE_FCC0],
    );
    check_alone(&rt, rt.alloc(), FOUR_DEEP, &wanted);
}

#[test]
fn recursion_without_end(rt: HostRuntime) {
    let wanted = [
        Wanted {
            text: "stop: move limit\n",
            end: RunEnd::Stopped(Stop::MoveLimit),
            moves_left: 0,
            events: 9_999,
            mark: 0x7FF5_3C40,
        },
        Wanted {
            text: "stop: stack full: need 176, left 144\n",
            end: RunEnd::Stopped(Stop::StackFull {
                need: 176,
                left: 144,
            }),
            moves_left: 4_041,
            events: 5_957,
            mark: 0x7FEF_0090,
        },
        Wanted {
            text: "stop: stack full: need 208, left 48\n",
            end: RunEnd::Stopped(Stop::StackFull {
                need: 208,
                left: 48,
            }),
            moves_left: 4_957,
            events: 5_041,
            mark: 0x7FEF_0030,
        },
        Wanted {
            text: "stop: stack full: need 192, left 64\n",
            end: RunEnd::Stopped(Stop::StackFull {
                need: 192,
                left: 64,
            }),
            moves_left: 4_537,
            events: 5_461,
            mark: 0x7FEF_0040,
        },
    ];
    check_alone(&rt, rt.alloc(), ENDLESS, &wanted);
}

#[test]
fn a_closure_frees_itself(rt: HostRuntime) {
    let stop = Stop::WrongSig {
        ptr: 0x1_0000,
        site: 1,
        found: 0,
    };
    let wanted = alike(
        "7\n9\nstop: wrong signature at 0x10000: called as sint64(), is sint32()\n",
        RunEnd::Stopped(stop),
        9_990,
        4,
        [0x7FFE_FFC0, 0x7FFE_FF50, 0x7FFE_FF30, 0x7FFE_FF40],
    );
    check_alone(&rt, rt.alloc(), FREES_ITSELF, &wanted);
}

#[test]
fn structs_around_an_inner_call(rt: HostRuntime) {
    let wanted = alike(
        "{-7,0000803f}\n000000000000f03f\n{300,25,1}\n",
        RunEnd::Done,
        9_990,
        4,
        [0x7FFE_FF00, 0x7FFE_FE30, 0x7FFE_FDF0, 0x7FFE_FE00],
    );
    check_alone(&rt, rt.alloc(), STRUCTS, &wanted);
}

#[test]
fn a_countdown(rt: HostRuntime) {
    let wanted = alike(
        "10\n",
        RunEnd::Done,
        9_987,
        10,
        [0x7FFE_FE70, 0x7FFE_FC40, 0x7FFE_FBA0, 0x7FFE_FBF0],
    );
    check_alone(&rt, rt.alloc(), COUNTDOWN, &wanted);
}
