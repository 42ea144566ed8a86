//! A declaration read in one pass over its bytes.
ghost use Rattle.std.specs.Prelude.{◌≡◌, IfOk, IfErr};
ghost use Rattle.ffi3_cdecl_spec.specs.Machine.{read, read_in};
ghost use Rattle.ffi3_cdecl_spec.specs.Tokens.{wide};
ghost use Rattle.ffi3_cdecl_spec.specs.Reading.{IsReading, IsReadingIn, reads};
ghost use Rattle.ffi3_cdecl_spec.specs.OnePass.{new_pass};
ghost use Rattle.ffi3_type_spec.specs.Signature.{SignatureIsPlaced};
ghost use Rattle.ffi3_format_spec.specs.Format.{resolved_signature};
ghost use Rattle.ffi3_cdecl.specs.PassOf.{pass_of, outcome_of, pass_over};
ghost use Rattle.ffi3_cdecl_spec.specs.ReadingFor.{IsReadingEverywhere, IsReadingFor, read_everywhere, read_for};
ghost use Rattle.ffi3_cdecl.specs.Tells.{Tells};
ghost use Rattle.ffi3_cdecl.specs.TokenOf.{dialect_of, sign_of};

use crate::declaration::Declaration;
use crate::fault::DeclFault;
use crate::read::{
    Outcome, Pass, outcome_at, outcome_everywhere, outcome_for, taking, unjudged_at,
};
use crate::token::{Dialect, Found, Sign, found_in};
use ffi3_format::Format;
use ffi3_types::NoMemory;
use std::alloc::Global;

/// One pass over the bytes, and where it stopped: at the first of them at which no token begins, or nowhere.
#[tactic(auto, using(crate::proofs::Turns::turn_inside, crate::proofs::Turns::turn_blank, crate::proofs::Turns::turn_nothing, crate::proofs::Turns::turn_token, crate::proofs::Turns::pass_end))]
fn run_over(
    alloc: Global,
    r: Dialect,
    c: Sign,
    bytes: &[u8],
) -> Result<(Pass, Option<usize>), NoMemory>
    ensures { IfOk result (λ o. (pass_of o.0, o.1) ≡ pass_over (dialect_of r) (sign_of c) 0 0 new_pass bytes.now) }
{
    let mut pass = Pass::new();
    let mut inside = 0;
    for at in 0..bytes.len() {
        if inside > 0 {
            inside -= 1;
        } else {
            match found_in(r, c, bytes, at) {
                Found::Blank => {}
                Found::Skipped(more) => inside = more,
                Found::Nothing => return Ok((pass, Some(at))),
                Found::Token(token, more) => {
                    pass = taking(alloc, r, pass, at, token)?;
                    inside = more;
                }
            }
        }
    }
    Ok((pass, None))
}

/// What the text is read as.
fn outcome(alloc: Global, r: Dialect, c: Sign, text: &str) -> Result<Outcome, NoMemory>
    ensures { IfOk result (λ o. outcome_of o ≡ read_in (dialect_of r) (sign_of c) text.now) }
{
    let bytes = text.as_bytes();
    let (pass, stop) = run_over(alloc, r, c, bytes)?;
    Ok(outcome_at(pass, stop, bytes.len()))
}

/// What the text is read as where long doubles have a format.
fn text_for(alloc: Global, format: Format, c: Sign, text: &str) -> Result<Outcome, NoMemory>
    ensures { IfOk result (λ o. outcome_of o ≡ read_for format (sign_of c) text.now) }
{
    let bytes = text.as_bytes();
    let (pass, stop) = run_over(alloc, Dialect::Wide, c, bytes)?;
    outcome_for(alloc, format, unjudged_at(pass, stop, bytes.len()))
}

/// What it is read as whatever format they have.
fn text_everywhere(alloc: Global, c: Sign, text: &str) -> Result<Outcome, NoMemory>
    ensures { IfOk result (λ o. outcome_of o ≡ read_everywhere (sign_of c) text.now) }
{
    let bytes = text.as_bytes();
    let (pass, stop) = run_over(alloc, Dialect::Wide, c, bytes)?;
    outcome_everywhere(alloc, unjudged_at(pass, stop, bytes.len()))
}

/// Reads a declaration of a function, all of the text (C11 6.7, with the words and marks of 6.4): the one reading that
/// the grammar has for it. A function whose signature has a fault is none.
#[tactic(auto, using(crate::proofs::Turns::is_reading))]
pub fn read_decl(alloc: Global, text: &str) -> Result<Declaration, DeclFault>
    ensures ok { IfOk result (λ d. IsReading text.now (reads d)) }
    ensures err { IfErr result (λ e. Tells (IsReading text.now) e) }
    ensures computed { IfOk result (λ d. reads d ≡ read text.now) }
    ensures refused { IfErr result (λ e. Tells (λ o. o ≡ read text.now) e) }
{
    match outcome(alloc, Dialect::Plain, Sign::Signed, text)? {
        Outcome::Reads(d) => Ok(d),
        Outcome::BadToken(at) => Err(DeclFault::BadToken { at: at as u64 }),
        Outcome::Unexpected(at) => Err(DeclFault::Unexpected { at: at as u64 }),
        Outcome::BadNumber(at) => Err(DeclFault::BadNumber { at: at as u64 }),
        Outcome::BadSignature(fault) => Err(DeclFault::Sig(fault)),
    }
}

/// Reads a declaration of a function as people write it: the wide reading, with the words, declarators and comments of
/// C11 6.4, 6.7.6 and 6.7.2.1, and the types of header files by their names; where no word says a sign, a `char` has
/// this one.
#[tactic(auto, using(crate::proofs::Turns::is_wide_reading))]
pub fn read_wide_decl(alloc: Global, char_sign: Sign, text: &str) -> Result<Declaration, DeclFault>
    ensures ok { IfOk result (λ d. IsReadingIn wide (sign_of char_sign) text.now (reads d)) }
    ensures err { IfErr result (λ e. Tells (IsReadingIn wide (sign_of char_sign) text.now) e) }
    ensures computed { IfOk result (λ d. reads d ≡ read_in wide (sign_of char_sign) text.now) }
    ensures refused { IfErr result (λ e. Tells (λ o. o ≡ read_in wide (sign_of char_sign) text.now) e) }
{
    match outcome(alloc, Dialect::Wide, char_sign, text)? {
        Outcome::Reads(d) => Ok(d),
        Outcome::BadToken(at) => Err(DeclFault::BadToken { at: at as u64 }),
        Outcome::Unexpected(at) => Err(DeclFault::Unexpected { at: at as u64 }),
        Outcome::BadNumber(at) => Err(DeclFault::BadNumber { at: at as u64 }),
        Outcome::BadSignature(fault) => Err(DeclFault::Sig(fault)),
    }
}

/// Reads a declaration of a function as people write it, where long doubles have this format: the wide reading, whose
/// signature is one that can be placed, or has this first fault.
#[tactic(auto, using(crate::proofs::Judging::is_reading_for))]
pub fn read_decl_for(
    alloc: Global,
    format: Format,
    char_sign: Sign,
    text: &str,
) -> Result<Declaration, DeclFault>
    ensures ok { IfOk result (λ d. IsReadingFor format (sign_of char_sign) text.now (reads d)) }
    ensures placed { IfOk result (λ d. SignatureIsPlaced d.signature) }
    ensures err { IfErr result (λ e. Tells (IsReadingFor format (sign_of char_sign) text.now) e) }
    ensures computed { IfOk result (λ d. reads d ≡ read_for format (sign_of char_sign) text.now) }
    ensures refused { IfErr result (λ e. Tells (λ o. o ≡ read_for format (sign_of char_sign) text.now) e) }
{
    match text_for(alloc, format, char_sign, text)? {
        Outcome::Reads(d) => Ok(d),
        Outcome::BadToken(at) => Err(DeclFault::BadToken { at: at as u64 }),
        Outcome::Unexpected(at) => Err(DeclFault::Unexpected { at: at as u64 }),
        Outcome::BadNumber(at) => Err(DeclFault::BadNumber { at: at as u64 }),
        Outcome::BadSignature(fault) => Err(DeclFault::Sig(fault)),
    }
}

/// Reads a declaration of a function as people write it, for every target: the wide reading, whose signature is one
/// that can be placed, whatever format long doubles have, or has this first fault. It is handed back as it is written.
#[tactic(auto, using(crate::proofs::Judging::is_reading_everywhere))]
pub fn read_decl_everywhere(
    alloc: Global,
    char_sign: Sign,
    text: &str,
) -> Result<Declaration, DeclFault>
    ensures ok { IfOk result (λ d. IsReadingEverywhere (sign_of char_sign) text.now (reads d)) }
    ensures err { IfErr result (λ e. Tells (IsReadingEverywhere (sign_of char_sign) text.now) e) }
    ensures computed { IfOk result (λ d. reads d ≡ read_everywhere (sign_of char_sign) text.now) }
    ensures refused { IfErr result (λ e. Tells (λ o. o ≡ read_everywhere (sign_of char_sign) text.now) e) }
{
    match text_everywhere(alloc, char_sign, text)? {
        Outcome::Reads(d) => Ok(d),
        Outcome::BadToken(at) => Err(DeclFault::BadToken { at: at as u64 }),
        Outcome::Unexpected(at) => Err(DeclFault::Unexpected { at: at as u64 }),
        Outcome::BadNumber(at) => Err(DeclFault::BadNumber { at: at as u64 }),
        Outcome::BadSignature(fault) => Err(DeclFault::Sig(fault)),
    }
}
