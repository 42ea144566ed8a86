//! The lines of place.
ghost use Rattle.ffi3_script.specs.ScriptOf.{script_of};
ghost use Rattle.std.specs.Prelude.{◌≡◌, ◌<◌, ◌≤◌, ◌++◌, IfOk, codes, drop, length};
ghost use Rattle.std.specs.List.{concat};
ghost use Rattle.ffi3_type_spec.specs.Signature.{SignatureIsPlaced};
ghost use Rattle.ffi3_app_spec.specs.Commands.{place_text};
ghost use Rattle.ffi3_app_spec.specs.Declarations.{argument_line, named_lines};
ghost use Rattle.ffi3_names.specs.NamesOf.{names_of};
ghost use Rattle.ffi3_io_spec.specs.Written.{Wrote};

use crate::write::write_made_line;
use ffi3_cif::Placed;
use ffi3_diagnostics::argument_name;
use ffi3_io::{IoError, Sink};
use ffi3_names::{Name, name_at};
use ffi3_place::Abi;
use ffi3_script::Script;
use ffi3_text::{place_line, sig_line};
use ffi3_types::{At, Bytes, CheckedSig, NoMemory, Sig};
use std::alloc::Global;

/// Writes the frame of each signature and the places of its arguments and result, by a calling standard.
pub fn place<A: Abi, O: Sink>(alloc: Global, script: &Script, output: &mut O) -> Result<(), IoError>
    ensures { Wrote (place_text A.standard (script_of script.now)) (O.state output.old) (O.state output.new) result }
{
    let sigs = script.sigs();
    let none = Vec::new(alloc);
    for i in 0..sigs.len() {
        let sig = CheckedSig::of(sigs.get(i));
        place_one::<A, O>(alloc, i as u32, &sig, &none, output)?;
    }
    Ok(())
}

/// The same of one signature without fault, as the one of this number.
fn place_one<A: Abi, O: Sink>(
    alloc: Global,
    number: u32,
    sig: &CheckedSig<'_>,
    names: &Vec<Name<'_>>,
    output: &mut O,
) -> Result<(), IoError>
    ensures { Wrote (concat (named_lines (names_of names.now.items) A.standard number sig.now)) (O.state output.old) (O.state output.new) result }
{
    let copy = sig.placed().as_sig().copy(alloc)?;
    place_signature::<A, O>(alloc, number, copy, names, output)
}

/// The same of one signature that can be placed, with names of its arguments.
pub fn place_signature<A: Abi, O: Sink>(
    alloc: Global,
    number: u32,
    sig: Sig,
    names: &Vec<Name<'_>>,
    output: &mut O,
) -> Result<(), IoError>
    requires { SignatureIsPlaced sig }
    ensures { Wrote (concat (named_lines (names_of names.now.items) A.standard number sig)) (O.state output.old) (O.state output.new) result }
{
    let placed: Placed<A> = Placed::prepare(alloc, sig)?;
    place_of(alloc, number, &placed, names, output)
}

/// The lines of one signature: its frame, the arguments, then the result.
fn place_of<A: Abi, O: Sink>(
    alloc: Global,
    number: u32,
    placed: &Placed<A>,
    names: &Vec<Name<'_>>,
    output: &mut O,
) -> Result<(), IoError>
    ensures { Wrote (concat (named_lines (names_of names.now.items) A.standard number placed.now)) (O.state output.old) (O.state output.new) result }
{
    write_made_line(output, sig_line(alloc, number, placed))?;
    for j in 0..placed.sig().count() {
        let name = name_at(names, j as usize);
        write_made_line(output, argument_line(alloc, placed, j, name))?;
    }
    write_made_line(output, place_line(alloc, placed, At::Ret))
}

/// The line of an argument, with its name where it has one.
fn argument_line<A: Abi>(
    alloc: Global,
    placed: &Placed<A>,
    j: u32,
    name: &[u8],
) -> Result<Bytes, NoMemory>
    requires { j < length placed.now.arguments }
    ensures { IfOk result (λ line. line ≡ argument_line name.now A.standard placed.now j) }
{
    let line = place_line(alloc, placed, At::Arg(j))?;
    if name.is_empty() {
        return Ok(line);
    }
    let head = argument_name(alloc, j)?;
    with_name(head, name, line.as_slice())
}

/// What a line begins with, a name, and the rest of the line.
fn with_name(head: Bytes, name: &[u8], line: &[u8]) -> Result<Bytes, NoMemory>
    requires { length head ≤ length line.now }
    ensures { IfOk result (λ l. l ≡ head ++ (codes " " ++ (name.now ++ (codes ":" ++ drop (length head) line.now)))) }
{
    let rest = &line[head.len()..];
    let mut named = head;
    named.extend(" ".as_bytes())?;
    named.extend(name)?;
    named.extend(":".as_bytes())?;
    named.extend(rest)?;
    Ok(named)
}
