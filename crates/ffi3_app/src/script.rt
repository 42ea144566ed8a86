//! From the bytes of an input to a script, or to the line that refuses them.
ghost use Rattle.std.specs.Prelude.{◌≡◌, ◌<◌, ◌^◌, List, ℕ, IfOk, IfErr, length};
ghost use Rattle.ffi3_script_spec.specs.Natives.{names_of};
ghost use Rattle.ffi3_script_spec.specs.Reading.{IsReading, script};
ghost use Rattle.ffi3_script.specs.ScriptOf.{script_of, natives_of};
ghost use Rattle.ffi3_script_spec.specs.Handed.{handed};
ghost use Rattle.ffi3_app_spec.specs.Outcome.{located_line};
ghost use Rattle.ffi3_app.specs.Work.{IsNoScript, IsToldAs};

use crate::names::names_of_natives;
use crate::unfinished::{Unfinished, refused, words};
use ffi3_body::Native;
use ffi3_image::path_text;
use ffi3_json::{ScriptFault, Where, reason_text};
use ffi3_script::{Script, read_script};
use ffi3_types::{Bytes, NoMemory};
use std::alloc::Global;

/// Reads the bytes as a script beside natives.
pub fn script_in(
    alloc: Global,
    bytes: &[u8],
    natives: &Vec<Box<dyn Native>>,
) -> Result<Script, Unfinished>
    requires few { length natives.now.items < 2 ^ 31 }
    ensures script { IfOk result (λ s. IsReading (names_of (handed title meaning signatures natives.now.items)) bytes.now (script (script_of s))) }
    ensures beside { IfOk result (λ s. natives_of s ≡ length natives.now.items) }
    ensures refused { IfErr result (IsNoScript (names_of (handed title meaning signatures natives.now.items)) bytes.now) }
{
    let Ok(names) = names_of_natives(alloc, natives) else {
        return Err(Unfinished::NoMemory);
    };
    match read_script(alloc, bytes, &names) {
        Ok(script) => Ok(script),
        Err(fault) => Err(refusal(alloc, &fault)),
    }
}

/// What a fault of a script is told as.
fn refusal(alloc: Global, fault: &ScriptFault) -> Unfinished
    ensures { IsToldAs fault.now result }
{
    match fault {
        ScriptFault::TooLong => refused(words(alloc, "ffi3: script too long\n")),
        ScriptFault::BadJson => refused(words(alloc, "ffi3: not JSON\n")),
        ScriptFault::BadScript { path, why } => {
            refused(fault_line(alloc, path, reason_text(alloc, why)))
        }
        ScriptFault::NoMemory => Unfinished::NoMemory,
    }
}

/// The line of a place and what is said of it, where there was memory for the words.
fn fault_line(
    alloc: Global,
    path: &Where,
    words: Result<Bytes, NoMemory>,
) -> Result<Bytes, NoMemory>
    ensures { (text : List ℕ) → IfOk words (λ w. w ≡ text) → IfOk result (λ line. line ≡ located_line path.now text) }
{
    let Ok(words) = words else {
        return Err(NoMemory);
    };
    located_line(alloc, path, words.as_slice())
}

/// The line of a place and what is said of it.
fn located_line(alloc: Global, path: &Where, words: &[u8]) -> Result<Bytes, NoMemory>
    ensures { IfOk result (λ line. line ≡ located_line path.now words.now) }
{
    let mut line = Bytes::from_slice(alloc, "ffi3: ".as_bytes())?;
    line.extend(path_text(alloc, path)?.as_slice())?;
    line.extend(": ".as_bytes())?;
    line.extend(words)?;
    line.push(b'\n')?;
    Ok(line)
}
