//! A traced run of calls in calls, by natives among others, each of whose writes fails in turn.
use crate::top::{Ends, owned, sink, source};
use ffi3_app::{Machine, ffi3};
use ffi3_body::Native;
use ffi3_io::NoMemory;
use ffi3_natives::{Apply, Sum3, Twice};
use std::alloc::Global;
use std::process::Abort;
use std::test::Fail;

/// `twice` calls g on 10 and on the result; each time g calls `apply`, which calls h: 14 entries and
/// returns of two lines each, then the result.
const NESTED: &str =
    r#"{"version":1,"signatures":[{"ret":"sint64","args":["sint64"]},{"ret":"sint64","args":["pointer","sint64"]}],"functions":[{"name":"h","sig":0,"body":[{"return":{"add":[{"arg":0},5]}}]},{"name":"g","sig":0,"body":[{"call":65600,"sig":1,"args":[65536,{"arg":0}],"as":"r"},{"return":{"res":"r"}}]}],"main":[{"make":"h"},{"make":"apply"},{"make":"g"},{"make":"twice"},{"call":65728,"sig":1,"args":[65664,10],"as":"r"},{"print":{"res":"r"}},{"return":null}]}"#;

const AMD64: &[&str] = &["ffi3", "run", "--target", "amd64", "--trace"];

const WIN64: &[&str] = &["ffi3", "run", "--target", "win64", "--trace"];

/// The first lines by Microsoft x64, and the last: 18 registers are kept, and the frame of `twice` begins 32 bytes
/// down.
const BEGINS: &str =
    "enter 0x100c0 sp 0x7ffeffd8 (0x10080,10)\nkeep a5a5000000000003 a5a5000000000005 a5a5000000000007 a5a5000000000006 a5a500000000000c a5a500000000000d a5a500000000000e a5a500000000000f 5a5a000000000006 5a5a000000000007 5a5a000000000008 5a5a000000000009 5a5a00000000000a 5a5a00000000000b 5a5a00000000000c 5a5a00000000000d 5a5a00000000000e 5a5a00000000000f\nenter 0x10080 sp 0x7ffeff08 (10)\n";

const LAST: &str =
    "\nleave sp 0x7ffeffe0 20\nkeep a5a5000000000003 a5a5000000000005 a5a5000000000007 a5a5000000000006 a5a500000000000c a5a500000000000d a5a500000000000e a5a500000000000f 5a5a000000000006 5a5a000000000007 5a5a000000000008 5a5a000000000009 5a5a00000000000a 5a5a00000000000b 5a5a00000000000c 5a5a00000000000d 5a5a00000000000e 5a5a00000000000f\n20\n";

/// The writes of the whole run.
const WRITES: u64 = 29;

/// The ends of a run of the script whose write of this number fails.
fn failing(alloc: Global, fails: u64) -> Result<Ends, NoMemory> {
    let input = source(alloc, NESTED, &[], 8_192)?;
    let output = sink(alloc, 8_192, &[fails], 8_192)?;
    let faults = sink(alloc, 64, &[], 8_192)?;
    Ok(Ends {
        input,
        output,
        faults,
    })
}

/// The status of a run by the words on this machine.
fn run_on(
    alloc: Global,
    words: &[&str],
    ends: &mut Ends,
    machine: &mut Machine,
) -> Result<u8, NoMemory> {
    let mut natives: Vec<Box<dyn Native>> = Vec::new(alloc);
    natives.push(Box::new(alloc, Apply::new(alloc)?)?)?;
    natives.push(Box::new(alloc, Twice::new(alloc)?)?)?;
    natives.push(Box::new(alloc, Sum3::new(alloc)?)?)?;
    let words = owned(alloc, words)?;
    Ok(ffi3(
        alloc,
        words,
        &mut ends.input,
        &mut ends.output,
        &mut ends.faults,
        &natives,
        machine,
    ))
}

/// The same on a new machine.
fn run(alloc: Global, words: &[&str], ends: &mut Ends) -> Result<u8, NoMemory> {
    let mut machine = Machine::new(alloc)?;
    run_on(alloc, words, ends, &mut machine)
}

/// Where the line ends that begins here, with its newline.
fn line_end(text: &[u8], from: usize) -> usize {
    for end in from..text.len() {
        if text[end] == b'\n' {
            return end + 1;
        }
    }
    text.len()
}

/// The first bytes of a text, so many at most.
fn first(text: &[u8], count: usize) -> &[u8] {
    if count < text.len() {
        &text[..count]
    } else {
        text
    }
}

/// The traced run whose write of this number fails has written this.
fn check_part(
    rt: &impl Abort,
    alloc: Global,
    words: &[&str],
    fails: u64,
    text: &[u8],
) -> Result<(), NoMemory> {
    let mut ends = failing(alloc, fails)?;
    let status = run(alloc, words, &mut ends)?;
    assert!(rt; status == 4);
    assert!(rt; ends.output.taken() == text);
    Ok(())
}

/// Where each write fails of the traced run that writes the whole text, the lines before that are written. The whole
/// begins and ends so.
fn check_parts(
    rt: &impl Abort,
    alloc: Global,
    words: &[&str],
    whole: &[u8],
    begins: &str,
    ends: &str,
) -> Result<(), NoMemory> {
    let mut lines = 0;
    for fails in 1..=WRITES {
        check_part(rt, alloc, words, fails, first(whole, lines))?;
        lines = line_end(whole, lines);
    }
    assert!(rt; first(whole, lines) == whole);
    assert!(rt; whole.starts_with(begins.as_bytes()));
    assert!(rt; whole.ends_with(ends.as_bytes()));
    Ok(())
}

/// The traced run by the words, whose output begins and ends so, and the same where each of its writes fails.
fn check_traced(
    rt: &impl Abort,
    alloc: Global,
    words: &[&str],
    begins: &str,
    ends: &str,
) -> Result<(), NoMemory> {
    let mut whole = failing(alloc, 0)?;
    let status = run(alloc, words, &mut whole)?;
    assert!(rt; status == 0);
    check_parts(rt, alloc, words, whole.output.taken(), begins, ends)
}

#[test]
fn each_write_of_a_trace_fails(rt: HostRuntime) -> Result<(), Fail> {
    let alloc = rt.alloc();
    check_traced(&rt, alloc, AMD64, "enter ", "\n20\n")?;
    check_traced(&rt, alloc, WIN64, BEGINS, LAST)?;
    Ok(())
}
