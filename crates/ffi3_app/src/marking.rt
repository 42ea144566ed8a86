//! The lines that refuse a prototype: the fault of its text, and the text's line with a mark at the place.
ghost use Rattle.std.specs.Prelude.{◌≡◌, IfOk};
ghost use Rattle.ffi3_types.specs.SignatureFaultOf.{signature_fault_of};
ghost use Rattle.ffi3_app_spec.specs.Declarations.{fault_line, fault_words, marked_line, unexpected_line};
ghost use Rattle.ffi3_app.specs.Work.{IsPlaceToldAs};

use crate::declaration::reason_line;
use crate::unfinished::{Unfinished, refused};
use ffi3_cdecl::{DeclFault, Sign};
use ffi3_diagnostics::{lines_at, placed_words, tell, told_words};
use ffi3_json::{reason_of_signature, reason_text};
use ffi3_types::{Bytes, NoMemory, SigFault};
use std::alloc::Global;

/// What a fault of a prototype in a text is told as.
pub fn place_refusal(alloc: Global, text: &str, fault: &DeclFault) -> Unfinished
    ensures { IsPlaceToldAs text.now fault.now result }
{
    match fault {
        DeclFault::BadToken { at } => refused(marked_line(
            alloc,
            text,
            *at,
            "bad token".as_bytes(),
        )),
        DeclFault::Unexpected { at } => refused(unexpected_line(alloc, text, *at)),
        DeclFault::BadNumber { at } => {
            refused(marked_line(alloc, text, *at, "bad number".as_bytes()))
        }
        DeclFault::Sig(fault) => refused(fault_line(alloc, fault)),
        DeclFault::NoMemory => Unfinished::NoMemory,
    }
}

/// The words of the first fault of a signature, behind the name of the value that has it.
#[tactic(auto, using(crate::proofs::Working::fault_named))]
fn fault_words(alloc: Global, fault: &SigFault) -> Result<Bytes, NoMemory>
    ensures { IfOk result (λ words. words ≡ fault_words (signature_fault_of fault.now)) }
{
    let reason = reason_of_signature(fault);
    let words = reason_text(alloc, &reason)?;
    placed_words(alloc, fault, words.as_slice())
}

/// Its line.
fn fault_line(alloc: Global, fault: &SigFault) -> Result<Bytes, NoMemory>
    ensures { IfOk result (λ line. line ≡ fault_line (signature_fault_of fault.now)) }
{
    reason_line(alloc, fault_words(alloc, fault))
}

/// The line of a fault at an offset, and the text's line with a mark.
fn marked_line(alloc: Global, text: &str, at: u64, words: &[u8]) -> Result<Bytes, NoMemory>
    ensures { IfOk result (λ lines. lines ≡ marked_line text.now at words.now) }
{
    let mut lines = Bytes::from_slice(alloc, "ffi3: at ".as_bytes())?;
    lines.extend(format!(in alloc; "{at}")?.as_bytes())?;
    lines.extend(": ".as_bytes())?;
    lines.extend(words)?;
    lines.push(b'\n')?;
    lines.extend(lines_at(alloc, text, at as usize)?.as_slice())?;
    Ok(lines)
}

/// Those of a place that is unexpected.
fn unexpected_line(alloc: Global, text: &str, at: u64) -> Result<Bytes, NoMemory>
    ensures { IfOk result (λ lines. lines ≡ unexpected_line text.now at) }
{
    let told = tell(alloc, Sign::Signed, text, at as usize)?;
    let words = told_words(alloc, text, at as usize, &told)?;
    marked_line(alloc, text, at, words.as_slice())
}
