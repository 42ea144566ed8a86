//! Runs a script as `ffi3` does, and then tells what the machine was at each entry and at each return.
#![tactic(auto)]

use ffi3_app::{Machine, ffi3};
use ffi3_body::Native;
use ffi3_io::{ReadSource, Sink, WriteSink, write_all};
use ffi3_machine::{Event, EventKind};
use ffi3_natives::{Apply, Sum3, Twice};
use ffi3_types::{Bytes, NoMemory};
use std::alloc::Global;
use std::env;
use std::process::ExitCode;

/// Registers as 16 hexadecimal digits each, one after another.
fn write_words(alloc: Global, words: &[u64; 32], line: &mut Bytes) -> Result<(), NoMemory> {
    for k in 0..32usize {
        let word = words[k];
        line.extend(format!(in alloc; "{word:016x}")?.as_bytes())?;
    }
    Ok(())
}

/// The line of an entry or a return: which it is, the stack pointer, general and floating registers, and the stack's
/// bytes from the stack pointer on.
fn event_line(alloc: Global, event: &Event, stack: &[u8]) -> Result<Bytes, NoMemory> {
    let word = match event.kind {
        EventKind::Enter => "entry",
        EventKind::Leave => "leave",
    };
    let sp = event.sp;
    let mut line = Bytes::from_slice(alloc, format!(in alloc; "{word} {sp:016x} ")?.as_bytes())?;
    write_words(alloc, &event.general, &mut line)?;
    line.push(b' ')?;
    write_words(alloc, &event.floating, &mut line)?;
    line.push(b' ')?;
    line.extend(hex::encode(alloc, stack)?.as_bytes())?;
    line.push(b'\n')?;
    Ok(line)
}

/// The lines of all events of a machine, in order.
fn event_lines(alloc: Global, machine: &Machine) -> Result<Bytes, NoMemory> {
    let mut lines = Bytes::new(alloc);
    let journal = machine.events();
    for i in 0..journal.len() {
        let event = journal.get(i);
        lines.extend(event_line(alloc, event, journal.stack(i))?.as_slice())?;
    }
    Ok(lines)
}

/// The top call on this machine, over the standard input and error and this output.
fn run<O: Sink>(
    rt: &HostRuntime,
    words: Vec<String>,
    output: &mut O,
    machine: &mut Machine,
) -> Result<u8, NoMemory> {
    let alloc = rt.alloc();
    let mut natives: Vec<Box<dyn Native>> = Vec::new(alloc);
    natives.push(Box::new(alloc, Apply::new(alloc)?)?)?;
    natives.push(Box::new(alloc, Twice::new(alloc)?)?)?;
    natives.push(Box::new(alloc, Sum3::new(alloc)?)?)?;
    let mut input = ReadSource::new(rt.stdin());
    let mut faults = WriteSink::new(rt.stderr());
    Ok(ffi3(
        alloc,
        words,
        &mut input,
        output,
        &mut faults,
        &natives,
        machine,
    ))
}

/// The top call on this machine, and then the lines of its events. The status is that of the top call, or 1.
fn tell(rt: &HostRuntime, words: Vec<String>, machine: &mut Machine) -> Result<u8, NoMemory> {
    let mut output = WriteSink::new(rt.stdout());
    let status = run(rt, words, &mut output, machine)?;
    let lines = event_lines(rt.alloc(), machine)?;
    match write_all(&mut output, lines.as_slice()) {
        Ok(()) => Ok(status),
        Err(_) => Ok(1),
    }
}

/// The same on a new machine.
fn call(rt: &HostRuntime, words: Vec<String>) -> Result<u8, NoMemory> {
    let mut machine = Machine::new(rt.alloc())?;
    tell(rt, words, &mut machine)
}

fn main(rt: HostRuntime) -> ExitCode {
    let alloc = rt.alloc();
    let Ok(args) = env::args(&rt) else {
        return ExitCode::FAILURE;
    };
    let mut words = Vec::new(alloc);
    for word in args {
        if words.push(word).is_err() {
            return ExitCode::FAILURE;
        }
    }
    match call(&rt, words) {
        Ok(status) => ExitCode::from(status),
        Err(_) => ExitCode::FAILURE,
    }
}
