//! From the bytes of an input to a prototype, or to the line that refuses them.
ghost use Rattle.std.specs.Prelude.{◌≡◌, ◌↔◌, IsTrue, IfOk, IfErr};
ghost use Rattle.ffi3_type_spec.specs.Signature.{SignatureIsPlaced};
ghost use Rattle.ffi3_format_spec.specs.declared.Format.{Format};
ghost use Rattle.ffi3_format_spec.specs.Format.{resolved_signature};
ghost use Rattle.ffi3_cdecl_spec.specs.Tokens.{signed};
ghost use Rattle.ffi3_cdecl_spec.specs.Prototype.{first_other, read_as};
ghost use Rattle.ffi3_cdecl_spec.specs.Reading.{reads};
ghost use Rattle.ffi3_cdecl_spec.specs.ReadingFor.{IsReadingEverywhere};
ghost use Rattle.ffi3_app_spec.specs.Declarations.{IsPrototypeEverywhere, IsReadWidely, a_text, sign_line, sign_words};
ghost use Rattle.ffi3_type_spec.specs.Same.{same_tree};
ghost use Rattle.ffi3_types.specs.SignatureFaultOf.{position_of};
ghost use Rattle.ffi3_types.specs.TreeOf.{tree_of};
ghost use Rattle.ffi3_app.specs.Work.{IsNoPrototype, IsNoText, IsSignUnsaid};

use crate::declaration::reason_line;
use crate::marking::place_refusal;
use crate::unfinished::{Unfinished, refused, words};
use ffi3_cdecl::{Declaration, Sign, read_decl_everywhere};
use ffi3_diagnostics::words_at;
use ffi3_json::MAX_LENGTH;
use ffi3_types::{At, Bytes, FfiType, NoMemory, Sig, same_sig, same_type};
use std::alloc::Global;
use std::str;

const SIGN_UNSAID: &str =
    "char is signed or not by the machine: write signed char or unsigned char";

/// Reads the bytes as one prototype, the same for all targets, whatever format long doubles have.
pub fn prototype_in(alloc: Global, bytes: &[u8]) -> Result<Declaration, Unfinished>
    ensures read { IfOk result (λ d. IsReadWidely bytes.now (a_text (read_as (reads d)))) }
    ensures placed { IfOk result (λ d. (format : Format) → SignatureIsPlaced (resolved_signature format d.signature)) }
    ensures refused { IfErr result (IsNoPrototype bytes.now) }
{
    if bytes.len() > MAX_LENGTH {
        return Err(refused(words(alloc, "ffi3: input too long\n")));
    }
    let Ok(text) = str::from_utf8(bytes) else {
        return Err(refused(words(alloc, "ffi3: not UTF-8\n")));
    };
    by_both_signs(alloc, text)
}

/// The text where `char` is signed, if it is the same where it is not.
fn by_both_signs(alloc: Global, text: &str) -> Result<Declaration, Unfinished>
    ensures read { IfOk result (λ d. IsPrototypeEverywhere text.now (read_as (reads d))) }
    ensures refused { IfErr result (IsNoText text.now) }
{
    match read_decl_everywhere(alloc, Sign::Signed, text) {
        Ok(declaration) => by_other_sign(alloc, text, declaration),
        Err(fault) => Err(place_refusal(alloc, text, &fault)),
    }
}

/// The declaration that the text is where `char` is signed.
fn by_other_sign(
    alloc: Global,
    text: &str,
    declaration: Declaration,
) -> Result<Declaration, Unfinished>
    requires { IsReadingEverywhere signed text.now (reads declaration) }
    ensures read { IfOk result (λ d. IsPrototypeEverywhere text.now (read_as (reads d))) }
    ensures refused { IfErr result (IsNoText text.now) }
{
    match read_decl_everywhere(alloc, Sign::Unsigned, text) {
        Ok(other) => if_alike(alloc, declaration, &other),
        Err(fault) => Err(place_refusal(alloc, text, &fault)),
    }
}

/// The declaration, if this other one is the same.
fn if_alike(
    alloc: Global,
    declaration: Declaration,
    other: &Declaration,
) -> Result<Declaration, Unfinished>
    ensures alike { IfOk result (λ d. (d ≡ declaration) × (declaration ≡ other.now)) }
    ensures refused { IfErr result (IsSignUnsaid declaration other.now) }
{
    if are_alike(&declaration, other) {
        return Ok(declaration);
    }
    let at = first_other(declaration.sig(), other.sig());
    Err(refused(sign_line(alloc, at)))
}

/// Whether two declarations are equal.
#[tactic(auto, using(crate::proofs::Alike::other_names, crate::proofs::Alike::same_names))]
fn are_alike(a: &Declaration, b: &Declaration) -> bool
    ensures { IsTrue result ↔ (a.now ≡ b.now) }
{
    if a.name() != b.name() {
        return false;
    }
    same_sig(a.sig(), b.sig())
}

/// Whether two types are equal.
fn are_same(a: &FfiType, b: &FfiType) -> bool
    ensures { result ≡ same_tree (tree_of a.now) (tree_of b.now) }
{
    same_type(a, b)
}

/// The first type that two signatures do not share.
#[tactic(auto, using(crate::proofs::Fronts::front_goes_on, crate::proofs::Fronts::front_ends, crate::proofs::Fronts::first_ends, crate::proofs::Fronts::second_ends, crate::proofs::Fronts::in_result, crate::proofs::Fronts::in_arguments))]
fn first_other(a: &Sig, b: &Sig) -> At
    ensures { position_of result ≡ first_other a.now b.now }
{
    if !are_same(a.ret(), b.ret()) {
        return At::Ret;
    }
    let mut i = 0;
    while i < a.count() && i < b.count() && are_same(a.arg(i), b.arg(i)) {
        i += 1;
    }
    At::Arg(i)
}

/// What a value is told whose type is another where `char` is signed than where it is not.
fn sign_words(alloc: Global, at: At) -> Result<Bytes, NoMemory>
    ensures { IfOk result (λ words. words ≡ sign_words (position_of at)) }
{
    words_at(alloc, at, SIGN_UNSAID.as_bytes())
}

/// The line of it.
fn sign_line(alloc: Global, at: At) -> Result<Bytes, NoMemory>
    ensures { IfOk result (λ line. line ≡ sign_line (position_of at)) }
{
    reason_line(alloc, sign_words(alloc, at))
}
