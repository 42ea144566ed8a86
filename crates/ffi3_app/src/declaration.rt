//! From the bytes of an input to a C declaration, or to the line that refuses them.
ghost use Rattle.std.specs.Prelude.{◌≡◌, List, ℕ, IfOk, IfErr};
ghost use Rattle.ffi3_cdecl_spec.specs.Prototype.{read_as};
ghost use Rattle.ffi3_cdecl_spec.specs.Reading.{reads};
ghost use Rattle.ffi3_app_spec.specs.Declarations.{IsReadAs, IsWritable, a_text, offset_line, reason_line};
ghost use Rattle.ffi3_app.specs.Work.{IsFaultToldAs, IsNoDeclaration};

use crate::unfinished::{Unfinished, refused, words};
use ffi3_cdecl::{DeclFault, Declaration, read_decl};
use ffi3_json::{MAX_LENGTH, reason_of_signature, reason_text};
use ffi3_types::{Bytes, NoMemory};
use std::alloc::Global;
use std::str;

/// Reads the bytes as one declaration of a function.
pub fn declaration_in(alloc: Global, bytes: &[u8]) -> Result<Declaration, Unfinished>
    ensures read { IfOk result (λ d. IsReadAs bytes.now (a_text (read_as (reads d)))) }
    ensures writable { IfOk result IsWritable }
    ensures refused { IfErr result (IsNoDeclaration bytes.now) }
{
    if bytes.len() > MAX_LENGTH {
        return Err(refused(words(alloc, "ffi3: input too long\n")));
    }
    let Ok(text) = str::from_utf8(bytes) else {
        return Err(refused(words(alloc, "ffi3: not UTF-8\n")));
    };
    match read_decl(alloc, text) {
        Ok(declaration) => Ok(declaration),
        Err(fault) => Err(refusal(alloc, &fault)),
    }
}

/// What a fault of a declaration is told as.
fn refusal(alloc: Global, fault: &DeclFault) -> Unfinished
    ensures { IsFaultToldAs fault.now result }
{
    match fault {
        DeclFault::BadToken { at } => refused(offset_line(alloc, *at, "bad token")),
        DeclFault::Unexpected { at } => refused(offset_line(alloc, *at, "unexpected")),
        DeclFault::BadNumber { at } => refused(offset_line(alloc, *at, "bad number")),
        DeclFault::Sig(fault) => {
            let reason = reason_of_signature(fault);
            refused(reason_line(alloc, reason_text(alloc, &reason)))
        }
        DeclFault::NoMemory => Unfinished::NoMemory,
    }
}

/// The line of a fault at an offset.
fn offset_line(alloc: Global, at: u64, words: &str) -> Result<Bytes, NoMemory>
    ensures { IfOk result (λ line. line ≡ offset_line at words.now) }
{
    let mut line = Bytes::from_slice(alloc, "ffi3: at ".as_bytes())?;
    line.extend(format!(in alloc; "{at}")?.as_bytes())?;
    line.extend(": ".as_bytes())?;
    line.extend(words.as_bytes())?;
    line.push(b'\n')?;
    Ok(line)
}

/// The line of a reason, where there was memory for its words.
pub fn reason_line(alloc: Global, words: Result<Bytes, NoMemory>) -> Result<Bytes, NoMemory>
    ensures { (text : List ℕ) → IfOk words (λ w. w ≡ text) → IfOk result (λ line. line ≡ reason_line text) }
{
    let Ok(words) = words else {
        return Err(NoMemory);
    };
    line_of(alloc, words.as_slice())
}

fn line_of(alloc: Global, words: &[u8]) -> Result<Bytes, NoMemory>
    ensures { IfOk result (λ line. line ≡ reason_line words.now) }
{
    let mut line = Bytes::from_slice(alloc, "ffi3: ".as_bytes())?;
    line.extend(words)?;
    line.push(b'\n')?;
    Ok(line)
}
