//! The program `ffi3`: the top call over the standard streams.
#![tactic(auto)]

use ffi3_app::{Machine, ffi3};
use ffi3_body::Native;
use ffi3_io::{ReadSource, WriteSink};
use ffi3_natives::{Apply, NoMemory, Sum3, Twice};
use ffi3_status::finish;
use std::env;
use std::io::{BufWriter, Error, ErrorKind};
use std::process::ExitCode;

/// The status where a word is not UTF-8.
const NO_WORDS: u8 = 2;
/// The status where memory is refused.
const NO_MEMORY: u8 = 5;
/// The most bytes of output that are held back, and then go out together.
const BLOCK: usize = 65_536;

/// The status where the words cannot be collected.
fn status_without_words(fault: &Error) -> u8 {
    match fault.kind() {
        ErrorKind::OutOfMemory => NO_MEMORY,
        _ => NO_WORDS,
    }
}

/// The top call on a new machine, with `apply`, `twice` and `sum3` handed in. Its output goes out in blocks, and the
/// last of them before the status is known.
fn call(rt: &HostRuntime, words: Vec<String>) -> Result<u8, NoMemory> {
    let alloc = rt.alloc();
    let mut machine = Machine::new(alloc)?;
    let mut natives: Vec<Box<dyn Native>> = Vec::new(alloc);
    natives.push(Box::new(alloc, Apply::new(alloc)?)?)?;
    natives.push(Box::new(alloc, Twice::new(alloc)?)?)?;
    natives.push(Box::new(alloc, Sum3::new(alloc)?)?)?;
    let Ok(buffer) = BufWriter::with_capacity(alloc, BLOCK, rt.stdout()) else {
        return Err(NoMemory);
    };
    let mut input = ReadSource::new(rt.stdin());
    let mut output = WriteSink::new(buffer);
    let mut faults = WriteSink::new(rt.stderr());
    let status = ffi3(
        alloc,
        words,
        &mut input,
        &mut output,
        &mut faults,
        &natives,
        &mut machine,
    );
    Ok(finish(&mut output, &mut faults, status))
}

fn main(rt: HostRuntime) -> ExitCode {
    let alloc = rt.alloc();
    let args = match env::args(&rt) {
        Ok(args) => args,
        Err(fault) => return ExitCode::from(status_without_words(&fault)),
    };
    let mut words = Vec::new(alloc);
    for word in args {
        if words.push(word).is_err() {
            return ExitCode::from(NO_MEMORY);
        }
    }
    match call(&rt, words) {
        Ok(status) => ExitCode::from(status),
        Err(_) => ExitCode::from(NO_MEMORY),
    }
}
