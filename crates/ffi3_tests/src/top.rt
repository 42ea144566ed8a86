//! The top call over sources and sinks in memory: ends that fail, what a run leaves in the machine, and no words at
//! all.
ghost use Rattle.std.specs.Prelude.{◌<◌};

use ffi3_app::{Machine, ffi3};
use ffi3_body::Native;
use ffi3_io::{MemSink, MemSource, NoMemory};
use ffi3_machine::EventKind;
use std::alloc::Global;
use std::process::Abort;
use std::test::Fail;

/// Makes a closure of a function that adds 1, calls it with 41, and prints the result.
const INCREMENT: &str =
    r#"{"version":1,"signatures":[{"ret":"sint32","args":["sint32"]}],"functions":[{"name":"inc","sig":0,"body":[{"return":{"add":[{"arg":0},1]}}]}],"main":[{"make":"inc","as":"f"},{"call":{"res":"f"},"sig":0,"args":[41],"as":"r"},{"print":{"res":"r"}},{"return":null}]}"#;

/// Prints five numbers.
const FIVE: &str =
    r#"{"version":1,"signatures":[],"functions":[],"main":[{"print":{"of":["sint8",1]}},{"print":{"of":["sint8",2]}},{"print":{"of":["sint8",3]}},{"print":{"of":["sint8",4]}},{"print":{"of":["sint8",5]}},{"return":null}]}"#;

const LAYOUT: &[&str] = &["ffi3", "layout"];

const PLACE: &[&str] = &["ffi3", "place", "--target", "riscv"];

const RUN: &[&str] = &["ffi3", "run", "--target", "amd64"];

const BY_WIN64: &[&str] = &["ffi3", "run", "--target", "win64"];

const READ_FAULT: &str = "ffi3: read fault\n";

const WRITE_FAULT: &str = "ffi3: write fault\n";

/// The most bytes that one read gives or one write takes, the room of an output, and the numbers of
/// the reads and writes that fail.
#[derive(Clone, Copy)]
struct World {
    chunk: usize,
    reads_fail: &'static [u64],
    room: usize,
    writes_fail: &'static [u64],
    tells_fail: &'static [u64],
}

/// A source and two sinks in memory.
#[derive(Drop)]
pub struct Ends {
    pub input: MemSource,
    pub output: MemSink,
    pub faults: MemSink,
}

/// A source of the text, whose reads of these numbers fail, and give so many bytes at most.
pub fn source(alloc: Global, text: &str, fails: &[u64], chunk: usize) -> Result<MemSource, NoMemory>
    requires { 0 < chunk }
{
    let text = Vec::from_slice(alloc, text.as_bytes())?;
    let fails = Vec::from_slice(alloc, fails)?;
    Ok(MemSource::new(text, fails).chunk(chunk))
}

/// A sink with this room, whose writes of these numbers fail, and take so many bytes at most.
pub fn sink(alloc: Global, room: usize, fails: &[u64], chunk: usize) -> Result<MemSink, NoMemory>
    requires { 0 < chunk }
{
    let fails = Vec::from_slice(alloc, fails)?;
    Ok(MemSink::new(alloc, room, fails)?.chunk(chunk))
}

/// The ends of a world, with a script to read.
fn ends_of(alloc: Global, world: World, script: &str) -> Result<Ends, NoMemory>
    requires { 0 < world.chunk }
{
    let input = source(alloc, script, world.reads_fail, world.chunk)?;
    let output = sink(alloc, world.room, world.writes_fail, world.chunk)?;
    let faults = sink(alloc, 8_192, world.tells_fail, world.chunk)?;
    Ok(Ends {
        input,
        output,
        faults,
    })
}

pub fn owned(alloc: Global, words: &[&str]) -> Result<Vec<String>, NoMemory> {
    let mut all = Vec::new(alloc);
    for word in words {
        all.push(String::from_str(alloc, word)?)?;
    }
    Ok(all)
}

/// The top call without natives.
fn call(
    alloc: Global,
    words: &[&str],
    ends: &mut Ends,
    machine: &mut Machine,
) -> Result<u8, NoMemory> {
    let natives: Vec<Box<dyn Native>> = Vec::new(alloc);
    let words = owned(alloc, words)?;
    Ok(ffi3(
        alloc,
        words,
        &mut ends.input,
        &mut ends.output,
        &mut ends.faults,
        &natives,
        machine,
    ))
}

/// What the program is handed, and what it must answer.
#[derive(Clone, Copy)]
struct Row {
    world: World,
    words: &'static [&'static str],
    script: &'static str,
    status: u8,
    text: &'static str,
    line: &'static str,
}

/// The top call on this machine answers what it must, and writes that to these ends.
fn check_over(
    rt: &impl Abort,
    alloc: Global,
    ends: &mut Ends,
    machine: &mut Machine,
    row: &Row,
) -> Result<(), NoMemory> {
    let status = call(alloc, row.words, ends, machine)?;
    assert!(rt; status == row.status);
    assert!(rt; ends.output.taken() == row.text.as_bytes());
    assert!(rt; ends.faults.taken() == row.line.as_bytes());
    Ok(())
}

/// The same over the ends of the row's world.
fn check_on(
    rt: &impl Abort,
    alloc: Global,
    machine: &mut Machine,
    row: &Row,
) -> Result<(), NoMemory> {
    assert!(rt; 0 < row.world.chunk);
    let mut ends = ends_of(alloc, row.world, row.script)?;
    check_over(rt, alloc, &mut ends, machine, row)
}

/// The same on a new machine.
fn check(rt: &impl Abort, alloc: Global, row: &Row) -> Result<(), NoMemory> {
    let mut machine = Machine::new(alloc)?;
    check_on(rt, alloc, &mut machine, row)
}

/// Ends that do not fail.
const CALM: World = World {
    chunk: 4_096,
    reads_fail: &[],
    room: 1_024,
    writes_fail: &[],
    tells_fail: &[],
};

/// Ends that move one byte at a time.
const BYTES: World = World { chunk: 1, ..CALM };

/// A run that writes 42.
const INCREMENTS: Row = Row {
    world: CALM,
    words: RUN,
    script: INCREMENT,
    status: 0,
    text: "42\n",
    line: "",
};

/// What is asked for.
#[derive(Clone, Copy)]
enum Command {
    Run,
    Layout,
    Place,
    Nothing,
}

fn words_of(command: Command) -> &'static [&'static str] {
    match command {
        Command::Run => RUN,
        Command::Layout => LAYOUT,
        Command::Place => PLACE,
        Command::Nothing => &["ffi3"],
    }
}

/// What is read.
#[derive(Clone, Copy)]
enum Given {
    Increment,
    Five,
    Nothing,
}

fn script_of(given: Given) -> &'static str {
    match given {
        Given::Increment => INCREMENT,
        Given::Five => FIVE,
        Given::Nothing => "",
    }
}

/// A row in which the words and the script are named: the proof of a table spells each of its texts out.
#[derive(Clone, Copy)]
struct Failure {
    world: World,
    command: Command,
    given: Given,
    status: u8,
    text: &'static str,
    line: &'static str,
}

fn row_of(failure: Failure) -> Row {
    Row {
        world: failure.world,
        words: words_of(failure.command),
        script: script_of(failure.given),
        status: failure.status,
        text: failure.text,
        line: failure.line,
    }
}

/// A read that fails.
const NOT_READ: Failure = Failure {
    world: CALM,
    command: Command::Run,
    given: Given::Increment,
    status: 3,
    text: "",
    line: READ_FAULT,
};

/// A write that fails.
const NOT_WRITTEN: Failure = Failure {
    world: CALM,
    command: Command::Run,
    given: Given::Increment,
    status: 4,
    text: "",
    line: WRITE_FAULT,
};

/// What fails, and what is said of it. Byte by byte a failure comes between the bytes of a line, and of the line of the
/// fault.
const FAILURES: [Failure; 14] = [
    Failure {
        world: World {
            reads_fail: &[1],
            ..CALM
        },
        ..NOT_READ
    },
    Failure {
        world: World {
            reads_fail: &[2],
            ..CALM
        },
        given: Given::Five,
        ..NOT_READ
    },
    Failure {
        world: World {
            reads_fail: &[2],
            tells_fail: &[1],
            ..CALM
        },
        command: Command::Layout,
        line: "",
        ..NOT_WRITTEN
    },
    Failure {
        world: World {
            chunk: 64,
            reads_fail: &[3],
            ..CALM
        },
        ..NOT_READ
    },
    Failure {
        world: World {
            writes_fail: &[1],
            ..CALM
        },
        ..NOT_WRITTEN
    },
    Failure {
        world: World {
            writes_fail: &[1],
            tells_fail: &[1],
            ..CALM
        },
        line: "",
        ..NOT_WRITTEN
    },
    Failure {
        world: World {
            writes_fail: &[3],
            ..CALM
        },
        given: Given::Five,
        text: "1\n2\n",
        ..NOT_WRITTEN
    },
    Failure {
        world: World {
            writes_fail: &[2],
            ..CALM
        },
        command: Command::Layout,
        text: "sig 0 ret sint32 size 4 align 4 leaves 0:sint32\n",
        ..NOT_WRITTEN
    },
    Failure {
        world: World {
            writes_fail: &[2],
            ..CALM
        },
        command: Command::Place,
        text: "sig 0 need 224 frame 0 block 16\n",
        ..NOT_WRITTEN
    },
    Failure {
        world: World {
            writes_fail: &[4],
            ..BYTES
        },
        given: Given::Five,
        text: "1\n2",
        ..NOT_WRITTEN
    },
    Failure {
        world: World {
            writes_fail: &[4],
            tells_fail: &[7],
            ..BYTES
        },
        given: Given::Five,
        text: "1\n2",
        line: "ffi3: ",
        ..NOT_WRITTEN
    },
    Failure {
        world: World { room: 5, ..CALM },
        command: Command::Place,
        text: "sig 0",
        ..NOT_WRITTEN
    },
    Failure {
        world: World {
            tells_fail: &[1],
            ..CALM
        },
        command: Command::Layout,
        given: Given::Nothing,
        line: "",
        ..NOT_WRITTEN
    },
    Failure {
        world: World {
            tells_fail: &[1],
            ..CALM
        },
        command: Command::Nothing,
        given: Given::Nothing,
        line: "",
        ..NOT_WRITTEN
    },
];

#[test]
fn says_what_failed(rt: HostRuntime) -> Result<(), Fail> {
    let alloc = rt.alloc();
    for failure in FAILURES {
        check(&rt, alloc, &row_of(failure))?;
    }
    Ok(())
}

/// Not even a program's name: that is refused, as no words behind the name are.
fn check_no_words(
    rt: &impl Abort,
    alloc: Global,
    ends: &mut Ends,
    machine: &mut Machine,
) -> Result<(), Fail> {
    let status = call(alloc, &[], ends, machine)?;
    assert!(rt; status == 2);
    assert!(rt; ends.output.taken() == b"".as_slice());
    let text = String::from_utf8(Vec::from_slice(alloc, ends.faults.taken())?);
    let Ok(text) = text else {
        return Err(Fail::from("not UTF-8"));
    };
    assert!(rt; text.as_str().contains("Usage: ffi3 <COMMAND>"), "{text}");
    assert!(rt; text.as_str().ends_with('\n'), "{text}");
    Ok(())
}

#[test]
fn says_why_no_words_are_refused(rt: HostRuntime) -> Result<(), Fail> {
    let alloc = rt.alloc();
    let mut ends = ends_of(alloc, CALM, "")?;
    let mut machine = Machine::new(alloc)?;
    check_no_words(&rt, alloc, &mut ends, &mut machine)
}

/// After the run of the row the machine has one entry and one return, with these stack pointers, and this mark.
fn check_machine(
    rt: &impl Abort,
    alloc: Global,
    row: &Row,
    entry_sp: u64,
    leave_sp: u64,
    mark: u64,
) -> Result<(), NoMemory> {
    let mut machine = Machine::new(alloc)?;
    check_on(rt, alloc, &mut machine, row)?;
    assert!(rt; machine.mark() == mark);
    check_events(rt, &machine, entry_sp, leave_sp);
    Ok(())
}

/// One entry of the first closure, and one return.
fn check_events(rt: &impl Abort, machine: &Machine, entry_sp: u64, leave_sp: u64) {
    let events = machine.events();
    assert!(rt; events.len() == 2);
    if events.len() == 2 {
        let entry = events.get(0);
        assert!(rt; entry.kind == EventKind::Enter && entry.closure == 0x1_0000);
        assert!(rt; entry.sp == entry_sp);
        let leave = events.get(1);
        assert!(rt; leave.kind == EventKind::Leave && leave.sp == leave_sp);
    }
}

/// The mark is 80 bytes down on AMD64, and 208 by Microsoft x64, whose callee has 32 bytes of the frame.
#[test]
fn goes_byte_by_byte(rt: HostRuntime) -> Result<(), Fail> {
    let alloc = rt.alloc();
    let mut row = INCREMENTS;
    row.world = BYTES;
    check_machine(&rt, alloc, &row, 0x7FFE_FFF8, 0x7FFF_0000, 0x7FFE_FFB0)?;
    row.words = BY_WIN64;
    check_machine(&rt, alloc, &row, 0x7FFE_FFD8, 0x7FFE_FFE0, 0x7FFE_FF30)?;
    Ok(())
}
