//! The fault of a text in words, and of one that has a place in the text the line with a mark below the place.
ghost use Rattle.std.specs.Prelude.{◌≡◌, ◌++◌, ◌∷◌, [], IfOk, IsSome, IsUtf8, slice_get};
ghost use Rattle.ffi3_cdecl_spec.specs.Tokens.{wide};
ghost use Rattle.ffi3_cdecl_spec.specs.Reading.{IsReadingIn, unexpected};
ghost use Rattle.ffi3_diagnostics_spec.specs.ToldText.{lines_at};
ghost use Rattle.ffi3_types.specs.SignatureFaultOf.{signature_fault_of};
ghost use Rattle.ffi3_cdecl_spec.specs.ReadingFor.{IsReadingFor};
ghost use Rattle.ffi3_cdecl.specs.Tells.{Tells};
ghost use Rattle.ffi3_capi.specs.Chars.{char_sign};
ghost use Rattle.ffi3_capi.specs.FaultLines.{place_line, fault_line, AreFaultLines, TellsLines};
ghost use Rattle.ffi3_capi.specs.FaultText.{fault_text};
ghost use Rattle.ffi3_capi.specs.Formats.{long_double_on};
ghost use Rattle.ffi3_capi.specs.Placed.{targets};

use crate::declaration::{char_sign, long_double_on};
use crate::fault::{FaultKind, TextFault, fault_with, signature_fault};
use crate::fill::fill_text;
use crate::placing::target_numbered;
use crate::text::kind_text;
use ffi3_cdecl::{DeclFault, read_decl_for};
use ffi3_diagnostics::{lines_at, placed_words, tell, told_words};
use ffi3_types::{Bytes, NoMemory, SigFault};
use std::alloc::{AllocError, Global};
use std::{mem, str};

/// A line with the offset of a place.
#[tactic(auto, using(crate::proofs::InLines::is_place_line))]
fn place_line(alloc: Global, at: u64, words: &[u8]) -> Result<Bytes, NoMemory>
    ensures { IfOk result (λ line. line ≡ place_line at words.now) }
{
    let mut line = Bytes::from_slice(alloc, format!(in alloc; "at {at}: ")?.as_bytes())?;
    line.extend(words)?;
    line.push(10)?;
    Ok(line)
}

/// That line, and the line of the text with a mark below the place.
fn lines_with(alloc: Global, text: &str, at: u64, words: &[u8]) -> Result<Bytes, NoMemory>
    ensures { IfOk result (λ lines. lines ≡ place_line at words.now ++ lines_at text.now at) }
{
    let mut lines = place_line(alloc, at, words)?;
    lines.extend(lines_at(alloc, text, at as usize)?.as_slice())?;
    Ok(lines)
}

/// The lines of a place that is unexpected.
#[tactic(auto, using(crate::proofs::InLines::lines_unexpected))]
fn unexpected_lines(alloc: Global, target: u32, text: &str, at: u64) -> Result<Bytes, NoMemory>
    ensures { IfOk result (λ lines. IsUtf8 text.now → IsSome (slice_get targets target) → IsReadingIn wide (char_sign target) text.now (unexpected at) → AreFaultLines target text.now lines) }
{
    let told = tell(alloc, char_sign(target), text, at as usize)?;
    let words = told_words(alloc, text, at as usize, &told)?;
    lines_with(alloc, text, at, words.as_slice())
}

/// The words of a fault.
fn fault_words(alloc: Global, fault: &TextFault) -> Result<Bytes, NoMemory>
    ensures { IfOk result (λ words. words ≡ fault_text fault.now) }
{
    match FaultKind::numbered(fault.kind) {
        Some(kind) => kind_text(alloc, kind, fault),
        None => Ok(Bytes::new(alloc)),
    }
}

/// The line of a fault that has no place in the text.
fn fault_line(alloc: Global, fault: TextFault) -> Result<Bytes, NoMemory>
    ensures { IfOk result (λ line. line ≡ fault_text fault ++ 10 ∷ []) }
{
    let mut line = fault_words(alloc, &fault)?;
    line.push(10)?;
    Ok(line)
}

/// The line of a signature's fault, behind the name of the value that has it.
#[tactic(auto, using(crate::proofs::InLines::signature_line_told))]
fn signature_line(alloc: Global, fault: &SigFault) -> Result<Bytes, NoMemory>
    ensures { IfOk result (λ line. line ≡ fault_line (signature_fault_of fault.now)) }
{
    let words = fault_words(alloc, &signature_fault(fault))?;
    let mut line = placed_words(alloc, fault, words.as_slice())?;
    line.push(10)?;
    Ok(line)
}

/// The lines of a fault.
fn lines_of(alloc: Global, target: u32, text: &str, fault: &DeclFault) -> Result<Bytes, NoMemory>
    ensures { IfOk result (λ lines. IsUtf8 text.now → IsSome (slice_get targets target) → Tells (IsReadingFor (long_double_on target) (char_sign target) text.now) fault.now → AreFaultLines target text.now lines) }
{
    match fault {
        DeclFault::BadToken { at } => lines_with(alloc, text, *at, "bad token".as_bytes()),
        DeclFault::Unexpected { at } => unexpected_lines(alloc, target, text, *at),
        DeclFault::BadNumber { at } => lines_with(alloc, text, *at, "bad number".as_bytes()),
        DeclFault::Sig(sig) => signature_line(alloc, sig),
        DeclFault::NoMemory => Err(AllocError),
    }
}

/// The lines of what is wrong with a text.
fn lines_in(alloc: Global, target: u32, text: &str) -> Result<Bytes, NoMemory>
    ensures { IfOk result (λ lines. IsUtf8 text.now → IsSome (slice_get targets target) → AreFaultLines target text.now lines) }
{
    match read_decl_for(alloc, long_double_on(target), char_sign(target), text) {
        Ok(declaration) => {
            mem::drop(declaration);
            Ok(Bytes::new(alloc))
        }
        Err(fault) => lines_of(alloc, target, text, &fault),
    }
}

/// The same of bytes that may be no text, and of any number of a target.
#[tactic(auto, using(crate::proofs::InLines::no_lines_of_none, crate::proofs::InLines::line_of_no_text))]
fn find_lines(alloc: Global, target: u32, text: &[u8]) -> Result<Bytes, NoMemory>
    ensures { IfOk result (λ lines. AreFaultLines target text.now lines) }
{
    let Some(_) = target_numbered(target) else {
        return Ok(Bytes::new(alloc));
    };
    match str::from_utf8(text) {
        Ok(words) => lines_in(alloc, target, words),
        Err(_) => fault_line(alloc, fault_with(FaultKind::NotUtf8)),
    }
}

/// The lines of a text's fault, for an array of the caller: they are written with a terminating NUL, if all of that has
/// room there. Answers how long they are, or 0 where there is no fault, or where memory was refused and nothing is
/// written.
#[tactic(auto, using(crate::proofs::InLines::lines_told, crate::proofs::InLines::no_lines_told))]
pub fn fault_lines(alloc: Global, target: u32, text: &[u8], array: &mut [u8]) -> usize
    ensures { TellsLines target text.now array.old result array.new }
{
    let Ok(lines) = find_lines(alloc, target, text) else {
        return 0;
    };
    fill_text(lines.as_slice(), array)
}
