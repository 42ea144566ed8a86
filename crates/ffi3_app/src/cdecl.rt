//! The lines of cdecl.
ghost use Rattle.std.specs.Prelude.{◌≡◌, IfOk};
ghost use Rattle.ffi3_type_spec.specs.Signature.{SignatureHasNoFault};
ghost use Rattle.ffi3_type_spec.specs.Text.{signature_text};
ghost use Rattle.ffi3_semantics_spec.specs.Lines.{a_line};
ghost use Rattle.ffi3_cdecl_spec.specs.Canonical.{declaration_text};
ghost use Rattle.ffi3_app_spec.specs.Declarations.{IsWritable, cdecl_text};
ghost use Rattle.ffi3_io_spec.specs.Written.{Wrote};

use crate::write::write_two_lines;
use ffi3_cdecl::{Declaration, decl_text};
use ffi3_io::{IoError, Sink};
use ffi3_types::{Bytes, NoMemory, sig_text};
use std::alloc::Global;

/// Writes the signature's text and the canonical text of a declaration, a line each.
pub fn cdecl<O: Sink>(
    alloc: Global,
    declaration: &Declaration,
    output: &mut O,
) -> Result<(), IoError>
    requires { IsWritable declaration.now }
    ensures { Wrote (cdecl_text declaration.now) (O.state output.old) (O.state output.new) result }
{
    let signature = signature_line(alloc, declaration);
    write_two_lines(output, signature, canonical_line(alloc, declaration))
}

/// The line of the signature.
fn signature_line(alloc: Global, declaration: &Declaration) -> Result<Bytes, NoMemory>
    requires { SignatureHasNoFault declaration.now.signature }
    ensures { IfOk result (λ line. line ≡ a_line (signature_text declaration.now.signature)) }
{
    let mut line = sig_text(alloc, declaration.sig())?;
    line.push(b'\n')?;
    Ok(line)
}

/// The line of the canonical text.
fn canonical_line(alloc: Global, declaration: &Declaration) -> Result<Bytes, NoMemory>
    requires { IsWritable declaration.now }
    ensures { IfOk result (λ line. line ≡ a_line (declaration_text declaration.now.called declaration.now.signature)) }
{
    let mut line = decl_text(alloc, declaration.sig(), declaration.name())?;
    line.push(b'\n')?;
    Ok(line)
}
