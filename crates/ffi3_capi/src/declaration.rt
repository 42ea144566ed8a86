//! What declares a function: a text, or nodes.
ghost use Rattle.std.specs.Prelude.{◌≡◌, IfOk, IfErr, Some};
ghost use Rattle.ffi3_type_spec.specs.Signature.{SignatureHasNoFault, SignatureIsPlaced};
ghost use Rattle.ffi3_capi.specs.declared.fault.TextFault.{TextFault};
ghost use Rattle.ffi3_cdecl.specs.TokenOf.{sign_of};
ghost use Rattle.ffi3_capi.specs.Chars.{char_sign};
ghost use Rattle.ffi3_capi.specs.DeclaredBy.{IsDeclaredBy, IsDeclaredOn, IsFaultBy, IsFaultOn};
ghost use Rattle.ffi3_capi.specs.Formats.{long_double_on};

use crate::fault::TextFault;
use crate::nodes::{declared_by_nodes, declared_by_nodes_in};
use crate::placing::target_numbered;
use crate::reading::{declared_by_text, declared_by_text_in};
use ffi3_cdecl::Sign;
use ffi3_format::{Format, format_of};
use ffi3_nodes::Node;
use ffi3_types::{Sig, Target};
use std::alloc::Global;

/// What a caller declares a function by.
#[derive(Clone, Copy)]
pub enum Declaration<'a> {
    /// A declaration in C.
    Text(&'a [u8]),
    /// The nodes of result and arguments, and of how many arguments a variadic function has names, or `NOT_VARIADIC`.
    Nodes(&'a [Node], u32),
}

/// The signature of the function that is declared, where a `char` without a sign has this one, and no long double has a
/// format; otherwise the fault, or None for a want of memory.
pub fn declared(
    alloc: Global,
    sign: Sign,
    declaration: Declaration<'_>,
) -> Result<Sig, Option<TextFault>>
    ensures ok { IfOk result (λ s. IsDeclaredBy (sign_of sign) declaration.entry s) }
    ensures faultless { IfOk result (λ s. SignatureHasNoFault s) }
    ensures err { IfErr result (λ e. (f : TextFault) → e ≡ Some f → IsFaultBy (sign_of sign) declaration.entry f) }
{
    match declaration {
        Declaration::Text(text) => declared_by_text(alloc, sign, text),
        Declaration::Nodes(nodes, fixed) => declared_by_nodes(alloc, nodes, fixed),
    }
}

/// The sign of a `char` on the target of this number, where no word says one.
pub(crate) fn char_sign(target: u32) -> Sign
    ensures { sign_of result ≡ char_sign target }
{
    match target_numbered(target) {
        Some(Target::Amd64) => Sign::Signed,
        Some(Target::Aapcs64) => Sign::Unsigned,
        Some(Target::Riscv) => Sign::Unsigned,
        Some(Target::Win64) => Sign::Signed,
        Some(Target::Apple) => Sign::Signed,
        None => Sign::Signed,
    }
}

/// The format of a long double on the target of this number.
pub(crate) fn long_double_on(target: u32) -> Format
    ensures { result ≡ long_double_on target }
{
    match target_numbered(target) {
        Some(to) => format_of(to),
        None => Format::Double,
    }
}

/// The signature of the function that is declared for a call on this target, in which long doubles have the target's
/// format; otherwise the fault, or None for a want of memory.
pub fn declared_on(
    alloc: Global,
    target: u32,
    declaration: Declaration<'_>,
) -> Result<Sig, Option<TextFault>>
    ensures ok { IfOk result (λ s. IsDeclaredOn target declaration.entry s) }
    ensures faultless { IfOk result (λ s. SignatureIsPlaced s) }
    ensures err { IfErr result (λ e. (f : TextFault) → e ≡ Some f → IsFaultOn target declaration.entry f) }
{
    let format = long_double_on(target);
    match declaration {
        Declaration::Text(text) => declared_by_text_in(alloc, format, char_sign(target), text),
        Declaration::Nodes(nodes, fixed) => declared_by_nodes_in(alloc, format, nodes, fixed),
    }
}
