//! What a text declares, as people write it.
ghost use Rattle.std.specs.Prelude.{◌≡◌, IfOk, IfErr, Some, IsUtf8};
ghost use Rattle.ffi3_type_spec.specs.Signature.{SignatureHasNoFault, SignatureIsPlaced};
ghost use Rattle.ffi3_cdecl.specs.TokenOf.{sign_of};
ghost use Rattle.ffi3_capi.specs.declared.fault.TextFault.{TextFault};
ghost use Rattle.ffi3_capi.specs.Faults.{Declares, DeclaresIn, IsFaultOf, IsFaultIn};

use crate::fault::{FaultKind, TextFault, fault_with, told};
use ffi3_cdecl::{Sign, read_decl_for, read_wide_decl};
use ffi3_format::Format;
use ffi3_types::Sig;
use std::alloc::Global;

/// The signature of the function that the text declares, where a `char` without a sign has this one; otherwise the
/// fault, or None for a want of memory.
fn read(alloc: Global, sign: Sign, text: &str) -> Result<Sig, Option<TextFault>>
    ensures ok { IfOk result (λ s. Declares (sign_of sign) text.now s) }
    ensures faultless { IfOk result (λ s. SignatureHasNoFault s) }
    ensures err { IfErr result (λ e. (f : TextFault) → e ≡ Some f → IsUtf8 text.now → IsFaultOf (sign_of sign) text.now f) }
{
    match read_wide_decl(alloc, sign, text) {
        Ok(declaration) => Ok(declaration.into_sig()),
        Err(fault) => Err(told(&fault)),
    }
}

/// The same of bytes that may be no text.
pub(crate) fn declared_by_text(
    alloc: Global,
    sign: Sign,
    bytes: &[u8],
) -> Result<Sig, Option<TextFault>>
    ensures ok { IfOk result (λ s. Declares (sign_of sign) bytes.now s) }
    ensures faultless { IfOk result (λ s. SignatureHasNoFault s) }
    ensures err { IfErr result (λ e. (f : TextFault) → e ≡ Some f → IsFaultOf (sign_of sign) bytes.now f) }
{
    match str::from_utf8(bytes) {
        Ok(text) => read(alloc, sign, text),
        Err(_) => Err(Some(fault_with(FaultKind::NotUtf8))),
    }
}

/// The signature of the function that the text declares, where a `char` without a sign has this one, and long doubles
/// have this format; otherwise the fault, or None for a want of memory.
fn read_in(alloc: Global, format: Format, sign: Sign, text: &str) -> Result<Sig, Option<TextFault>>
    ensures ok { IfOk result (λ s. DeclaresIn format (sign_of sign) text.now s) }
    ensures faultless { IfOk result (λ s. SignatureIsPlaced s) }
    ensures err { IfErr result (λ e. (f : TextFault) → e ≡ Some f → IsUtf8 text.now → IsFaultIn format (sign_of sign) text.now f) }
{
    match read_decl_for(alloc, format, sign, text) {
        Ok(declaration) => Ok(declaration.into_sig()),
        Err(fault) => Err(told(&fault)),
    }
}

/// The same of bytes that may be no text.
pub(crate) fn declared_by_text_in(
    alloc: Global,
    format: Format,
    sign: Sign,
    bytes: &[u8],
) -> Result<Sig, Option<TextFault>>
    ensures ok { IfOk result (λ s. DeclaresIn format (sign_of sign) bytes.now s) }
    ensures faultless { IfOk result (λ s. SignatureIsPlaced s) }
    ensures err { IfErr result (λ e. (f : TextFault) → e ≡ Some f → IsFaultIn format (sign_of sign) bytes.now f) }
{
    match str::from_utf8(bytes) {
        Ok(text) => read_in(alloc, format, sign, text),
        Err(_) => Err(Some(fault_with(FaultKind::NotUtf8))),
    }
}
