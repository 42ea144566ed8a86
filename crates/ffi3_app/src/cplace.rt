//! The lines of cplace.
ghost use Rattle.std.specs.Prelude.{◌≡◌, IfOk};
ghost use Rattle.std.specs.List.{flat_map};
ghost use Rattle.ffi3_type_spec.specs.Signature.{SignatureIsPlaced};
ghost use Rattle.ffi3_format_spec.specs.declared.Format.{Format};
ghost use Rattle.ffi3_format_spec.specs.Format.{resolved_signature};
ghost use Rattle.ffi3_format_spec.specs.SigText.{told_signature};
ghost use Rattle.ffi3_semantics_spec.specs.Lines.{a_line};
ghost use Rattle.ffi3_cdecl_spec.specs.Prototype.{prototype_text};
ghost use Rattle.ffi3_explain_spec.specs.Standards.{standard_of};
ghost use Rattle.ffi3_app_spec.specs.Declarations.{cplace_text, every_target, placed_on, prototype_lines, target_line};
ghost use Rattle.ffi3_cdecl_spec.specs.Tokens.{signed};
ghost use Rattle.ffi3_names_spec.specs.Scan.{names_in};
ghost use Rattle.ffi3_names.specs.NamesOf.{names_of};
ghost use Rattle.ffi3_io_spec.specs.Written.{Wrote};

use crate::place::place_signature;
use crate::write::{write_made_line, write_two_lines};
use ffi3_aapcs64::Aapcs64;
use ffi3_amd64::Amd64;
use ffi3_apple::Apple;
use ffi3_cdecl::{Declaration, Sign, prototype_text};
use ffi3_cli::target_word;
use ffi3_format::{format_of, resolve};
use ffi3_io::{IoError, Sink};
use ffi3_names::{Name, names_in};
use ffi3_place::Abi;
use ffi3_riscv::Riscv;
use ffi3_sig_text::signature_text;
use ffi3_types::{Bytes, NoMemory, Sig, Target};
use ffi3_win64::Win64;
use std::alloc::Global;

/// Writes the signature's text and the canonical text of a prototype, a line each, and then for each target its name and
/// the lines of place for the signature, with the names that the prototype's text gives the arguments.
pub fn cplace<O: Sink>(
    alloc: Global,
    text: &[u8],
    declaration: &Declaration,
    output: &mut O,
) -> Result<(), IoError>
    requires { (format : Format) → SignatureIsPlaced (resolved_signature format declaration.now.signature) }
    ensures { Wrote (cplace_text (names_in signed text.now) declaration.now) (O.state output.old) (O.state output.new) result }
{
    let names = names_in(alloc, Sign::Signed, text)?;
    prototype(alloc, declaration, output)?;
    place_everywhere(alloc, declaration.sig(), &names, output)
}

/// The signature and the canonical text.
fn prototype<O: Sink>(
    alloc: Global,
    declaration: &Declaration,
    output: &mut O,
) -> Result<(), IoError>
    requires { (format : Format) → SignatureIsPlaced (resolved_signature format declaration.now.signature) }
    ensures { Wrote (prototype_lines declaration.now) (O.state output.old) (O.state output.new) result }
{
    let signature = told_line(alloc, declaration);
    write_two_lines(output, signature, prototype_line(alloc, declaration))
}

/// The line of the signature.
fn told_line(alloc: Global, declaration: &Declaration) -> Result<Bytes, NoMemory>
    requires { (format : Format) → SignatureIsPlaced (resolved_signature format declaration.now.signature) }
    ensures { IfOk result (λ line. line ≡ a_line (told_signature declaration.now.signature)) }
{
    let mut line = signature_text(alloc, declaration.sig())?;
    line.push(b'\n')?;
    Ok(line)
}

/// The line of the canonical text.
fn prototype_line(alloc: Global, declaration: &Declaration) -> Result<Bytes, NoMemory>
    requires { (format : Format) → SignatureIsPlaced (resolved_signature format declaration.now.signature) }
    ensures { IfOk result (λ line. line ≡ a_line (prototype_text declaration.now.called declaration.now.signature)) }
{
    let mut line = prototype_text(alloc, declaration.sig(), declaration.name())?;
    line.push(b'\n')?;
    Ok(line)
}

/// The targets, one after another.
fn place_everywhere<O: Sink>(
    alloc: Global,
    sig: &Sig,
    names: &Vec<Name<'_>>,
    output: &mut O,
) -> Result<(), IoError>
    requires { (format : Format) → SignatureIsPlaced (resolved_signature format sig.now) }
    ensures { Wrote (flat_map (placed_on (names_of names.now.items) sig.now) every_target) (O.state output.old) (O.state output.new) result }
{
    place_on::<Amd64, O>(alloc, Target::Amd64, sig, names, output)?;
    place_on::<Aapcs64, O>(alloc, Target::Aapcs64, sig, names, output)?;
    place_on::<Riscv, O>(alloc, Target::Riscv, sig, names, output)?;
    place_on::<Win64, O>(alloc, Target::Win64, sig, names, output)?;
    place_on::<Apple, O>(alloc, Target::Apple, sig, names, output)
}

/// A target's name, and the lines of place by its standard, where long doubles are what they are on that target.
fn place_on<A: Abi, O: Sink>(
    alloc: Global,
    target: Target,
    sig: &Sig,
    names: &Vec<Name<'_>>,
    output: &mut O,
) -> Result<(), IoError>
    requires standard { standard_of target ≡ A.standard }
    requires placed { (format : Format) → SignatureIsPlaced (resolved_signature format sig.now) }
    ensures { Wrote (placed_on (names_of names.now.items) sig.now target) (O.state output.old) (O.state output.new) result }
{
    let here = resolve(alloc, format_of(target), sig.copy(alloc)?)?;
    write_made_line(output, target_line(alloc, target))?;
    place_signature::<A, O>(alloc, 0, here, names, output)
}

/// The line of a target.
fn target_line(alloc: Global, target: Target) -> Result<Bytes, NoMemory>
    ensures { IfOk result (λ line. line ≡ target_line target) }
{
    let mut line = Bytes::from_slice(alloc, "target ".as_bytes())?;
    line.extend(target_word(target).as_bytes())?;
    line.push(b'\n')?;
    Ok(line)
}
