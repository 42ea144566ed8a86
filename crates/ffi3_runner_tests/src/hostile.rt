//! Scripts that call natives that nest to the end of the stack, free themselves, or make closures or print without end.
ghost use Rattle.std.specs.Prelude.{◌<◌, ◌^◌, length, map};
ghost use Rattle.ffi3_script_spec.specs.Handed.{handed_in, signatures_in};

use crate::again::Again;
use crate::drop_self::DropSelf;
use crate::endless::{Flood, Talker};
use crate::running::run_script;
use ffi3_aapcs64::Aapcs64;
use ffi3_amd64::Amd64;
use ffi3_apple::Apple;
use ffi3_body::Native;
use ffi3_place::Abi;
use ffi3_riscv::Riscv;
use ffi3_runner::{RunEnd, Stop};
use ffi3_types::NoMemory;
use ffi3_win64::Win64;
use std::alloc::Global;
use std::process::Abort;

/// The run of a script by a standard writes this text, ends so, and has so many moves left.
fn check<A: Abi>(
    rt: &impl Abort,
    alloc: Global,
    natives: &Vec<Box<dyn Native>>,
    script: &str,
    text: &[u8],
    end: RunEnd,
    moves_left: u32,
)
    requires few_natives { length natives.now.items < 2 ^ 31 }
    requires few_signatures { length (signatures_in (map (λ b. handed_in (title b) (meaning b) (signatures b)) natives.now.items)) < 2 ^ 31 }
{
    let ran = run_script::<A>(rt, alloc, natives, script);
    assert!(rt; ran.output.taken() == text);
    assert!(rt; ran.end == end);
    assert!(rt; ran.moves_left == moves_left);
}

/// A call of `again` on a number, which stands between the two, and a print of the result.
const AGAIN: [&str; 2] = [
    r#"{"version":1,"signatures":[{"ret":"sint64","args":["pointer","sint64"]}],"functions":[],"main":[{"make":"again","as":"p"},{"call":{"res":"p"},"sig":0,"args":[{"res":"p"},"#,
    r#"],"as":"r"},{"print":{"res":"r"}},{"return":null}]}"#,
];

/// Two calls of `drop_self` on itself, each with a print of its result.
const DROP_SELF: &str =
    r#"{"version":1,"signatures":[{"ret":"sint64","args":["pointer"]}],"functions":[],"main":[{"make":"drop_self","as":"p"},{"call":{"res":"p"},"sig":0,"args":[{"res":"p"}],"as":"r"},{"print":{"res":"r"}},{"call":{"res":"p"},"sig":0,"args":[{"res":"p"}],"as":"q"},{"print":{"res":"q"}},{"return":null}]}"#;

/// A call of `flood`.
const FLOOD: &str =
    r#"{"version":1,"signatures":[{"ret":"void","args":[]}],"functions":[],"main":[{"make":"flood","as":"p"},{"call":{"res":"p"},"sig":0,"args":[]},{"return":null}]}"#;

/// A call of `talker`.
const TALKER: &str =
    r#"{"version":1,"signatures":[{"ret":"void","args":[]}],"functions":[],"main":[{"make":"talker","as":"p"},{"call":{"res":"p"},"sig":0,"args":[]},{"return":null}]}"#;

/// `again` on a number, in decimal, and what its run comes to.
struct Row {
    number: &'static str,
    text: &'static str,
    end: RunEnd,
    moves_left: u32,
}

const AMD64: [Row; 4] = [
    Row {
        number: "100",
        text: "100\n",
        end: RunEnd::Done,
        moves_left: 9_795,
    },
    Row {
        number: "819",
        text: "819\n",
        end: RunEnd::Done,
        moves_left: 8_357,
    },
    Row {
        number: "4997",
        text: "4997\n",
        end: RunEnd::Done,
        moves_left: 1,
    },
    Row {
        number: "4998",
        text: "4998\nstop: move limit\n",
        end: RunEnd::Stopped(Stop::MoveLimit),
        moves_left: 0,
    },
];

const AAPCS64: [Row; 3] = [
    Row {
        number: "100",
        text: "100\n",
        end: RunEnd::Done,
        moves_left: 9_795,
    },
    Row {
        number: "341",
        text: "341\n",
        end: RunEnd::Done,
        moves_left: 9_313,
    },
    Row {
        number: "5461",
        text: "stop: stack full: need 192, left 64\n",
        end: RunEnd::Stopped(Stop::StackFull {
            need: 192,
            left: 64,
        }),
        moves_left: 4_537,
    },
];

const RISCV: [Row; 3] = [
    Row {
        number: "100",
        text: "100\n",
        end: RunEnd::Done,
        moves_left: 9_795,
    },
    Row {
        number: "292",
        text: "292\n",
        end: RunEnd::Done,
        moves_left: 9_411,
    },
    Row {
        number: "4681",
        text: "stop: stack full: need 224, left 32\n",
        end: RunEnd::Stopped(Stop::StackFull {
            need: 224,
            left: 32,
        }),
        moves_left: 5_317,
    },
];

const WIN64: [Row; 3] = [
    Row {
        number: "100",
        text: "100\n",
        end: RunEnd::Done,
        moves_left: 9_795,
    },
    Row {
        number: "315",
        text: "315\n",
        end: RunEnd::Done,
        moves_left: 9_365,
    },
    Row {
        number: "5041",
        text: "stop: stack full: need 208, left 48\n",
        end: RunEnd::Stopped(Stop::StackFull {
            need: 208,
            left: 48,
        }),
        moves_left: 4_957,
    },
];

const APPLE: [Row; 1] = [Row {
    number: "341",
    text: "341\n",
    end: RunEnd::Done,
    moves_left: 9_313,
}];

/// The script that calls `again` on a number.
fn again_on(alloc: Global, number: &str) -> Result<String, NoMemory> {
    let mut script = String::from_str(alloc, AGAIN[0])?;
    script.push_str(number)?;
    script.push_str(AGAIN[1])?;
    Ok(script)
}

/// Scripts that call `again`, by a standard.
fn check_again<A: Abi>(rt: &impl Abort, alloc: Global, rows: &[Row]) -> Result<(), NoMemory> {
    let mut natives: Vec<Box<dyn Native>> = Vec::new(alloc);
    natives.push(Box::new(alloc, Again::new(alloc)?)?)?;
    for row in rows {
        let script = again_on(alloc, row.number).expect(rt, "memory");
        check::<A>(
            rt,
            alloc,
            &natives,
            script.as_str(),
            row.text.as_bytes(),
            row.end,
            row.moves_left,
        );
    }
    Ok(())
}

#[test]
fn again_nests_until_stack_or_moves_are_used_up(rt: HostRuntime) {
    let alloc = rt.alloc();
    check_again::<Amd64>(&rt, alloc, &AMD64).expect(&rt, "memory");
    check_again::<Aapcs64>(&rt, alloc, &AAPCS64).expect(&rt, "memory");
    check_again::<Riscv>(&rt, alloc, &RISCV).expect(&rt, "memory");
    check_again::<Win64>(&rt, alloc, &WIN64).expect(&rt, "memory");
    check_again::<Apple>(&rt, alloc, &APPLE).expect(&rt, "memory");
}

/// The run of a script beside the three other natives, by each standard.
fn check_on_each(
    rt: &impl Abort,
    alloc: Global,
    script: &str,
    text: &[u8],
    end: RunEnd,
    moves_left: u32,
) -> Result<(), NoMemory> {
    let mut natives: Vec<Box<dyn Native>> = Vec::new(alloc);
    natives.push(Box::new(alloc, DropSelf::new(alloc)?)?)?;
    natives.push(Box::new(alloc, Flood::new(alloc)?)?)?;
    natives.push(Box::new(alloc, Talker::new(alloc)?)?)?;
    check::<Amd64>(rt, alloc, &natives, script, text, end, moves_left);
    check::<Aapcs64>(rt, alloc, &natives, script, text, end, moves_left);
    check::<Riscv>(rt, alloc, &natives, script, text, end, moves_left);
    check::<Win64>(rt, alloc, &natives, script, text, end, moves_left);
    check::<Apple>(rt, alloc, &natives, script, text, end, moves_left);
    Ok(())
}

#[test]
fn a_native_frees_its_closure(rt: HostRuntime) {
    check_on_each(
        &rt,
        rt.alloc(),
        DROP_SELF,
        b"5\nstop: no closure at 0x10000\n",
        RunEnd::Stopped(Stop::NoClosure { ptr: 0x1_0000 }),
        9_994,
    )
    .expect(&rt, "memory");
}

#[test]
fn closures_without_end_fill_the_table(rt: HostRuntime) {
    check_on_each(
        &rt,
        rt.alloc(),
        FLOOD,
        b"stop: closure table full\n",
        RunEnd::Stopped(Stop::TableFull),
        9_742,
    )
    .expect(&rt, "memory");
}

#[test]
fn lines_without_end_use_up_the_moves(rt: HostRuntime) {
    let alloc = rt.alloc();
    let mut text = Vec::new(alloc);
    for _ in 0..9_998usize {
        text.extend_from_slice(b"1\n").expect(&rt, "memory");
    }
    text.extend_from_slice(b"stop: move limit\n")
        .expect(&rt, "memory");
    check_on_each(
        &rt,
        alloc,
        TALKER,
        text.as_slice(),
        RunEnd::Stopped(Stop::MoveLimit),
        0,
    )
    .expect(&rt, "memory");
}
