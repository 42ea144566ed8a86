//! The lines of a run: prints, and the line of a stop.
ghost use Rattle.std.specs.Prelude.{◌≡◌, ◌<◌, ◌++◌, IfOk, codes, length, true};
ghost use Rattle.std.specs.Fmt.{decimal};
ghost use Rattle.ffi3_type_spec.specs.Value.{fits};
ghost use Rattle.ffi3_type_spec.specs.ValueText.{value_text_of};
ghost use Rattle.ffi3_type_spec.specs.Signature.{signature_at};
ghost use Rattle.ffi3_type_spec.specs.Text.{signature_text};
ghost use Rattle.ffi3_types.specs.TreeOf.{tree_of};
ghost use Rattle.ffi3_values.specs.ValueOf.{value_of};
ghost use Rattle.ffi3_semantics_spec.specs.Lines.{a_line, address_text, stop_text};
ghost use Rattle.ffi3_run_state.specs.StopSigs.{IsOfSigs};
ghost use Rattle.ffi3_io_spec.specs.Written.{WroteLine};

use crate::Cifs;
use ffi3_io::{IoError, Sink, write_line};
use ffi3_place::Abi;
use ffi3_semantics_spec::Stop;
use ffi3_types::{Bytes, FfiType, NoMemory, sig_text};
use ffi3_values::{Value, value_text};
use std::alloc::Global;

/// Writes the line of a print.
pub fn write_print<O: Sink>(
    alloc: Global,
    output: &mut O,
    ty: &FfiType,
    value: &Value,
) -> Result<(), IoError>
    requires { fits (tree_of ty.now) (value_of value.now) ≡ true }
    ensures { WroteLine (a_line (value_text_of (tree_of ty.now) (value_of value.now))) (O.state output.old) (O.state output.new) result }
{
    let Ok(line) = print_line(alloc, ty, value) else {
        return Err(IoError::NoMemory);
    };
    write_line(output, line.as_slice())
}

/// Writes the line of a stop.
pub fn write_stop<A: Abi, O: Sink>(
    alloc: Global,
    output: &mut O,
    cifs: &Cifs<A>,
    stop: Stop,
) -> Result<(), IoError>
    requires { IsOfSigs (length cifs.now) stop }
    ensures { WroteLine (a_line (stop_text cifs.now stop)) (O.state output.old) (O.state output.new) result }
{
    let Ok(line) = stop_line(alloc, cifs, stop) else {
        return Err(IoError::NoMemory);
    };
    write_line(output, line.as_slice())
}

/// The line of a print: the value's text, and a newline.
fn print_line(alloc: Global, ty: &FfiType, value: &Value) -> Result<Bytes, NoMemory>
    requires { fits (tree_of ty.now) (value_of value.now) ≡ true }
    ensures { IfOk result
        (λ line. line ≡ a_line (value_text_of (tree_of ty.now) (value_of value.now))) }
{
    let mut line = value_text(alloc, ty, value)?;
    line.push(b'\n')?;
    Ok(line)
}

/// The line of a stop.
fn stop_line<A: Abi>(alloc: Global, cifs: &Cifs<A>, stop: Stop) -> Result<Bytes, NoMemory>
    requires { IsOfSigs (length cifs.now) stop }
    ensures { IfOk result (λ line. line ≡ a_line (stop_text cifs.now stop)) }
{
    let mut line = stop_words(alloc, cifs, stop)?;
    line.push(b'\n')?;
    Ok(line)
}

fn stop_words<A: Abi>(alloc: Global, cifs: &Cifs<A>, stop: Stop) -> Result<Bytes, NoMemory>
    requires { IsOfSigs (length cifs.now) stop }
    ensures { IfOk result (λ words. words ≡ stop_text cifs.now stop) }
{
    match stop {
        Stop::NoClosure { ptr } => {
            let words = format!(in alloc; "stop: no closure at 0x{ptr:x}")?;
            Bytes::from_slice(alloc, words.as_bytes())
        }
        Stop::WrongSig { ptr, site, found } => wrong_sig_words(alloc, cifs, ptr, site, found),
        Stop::TableFull => Bytes::from_slice(alloc, b"stop: closure table full"),
        Stop::StackFull { need, left } => stack_full_words(alloc, need, left),
        Stop::MoveLimit => Bytes::from_slice(alloc, b"stop: move limit"),
    }
}

fn wrong_sig_words<A: Abi>(
    alloc: Global,
    cifs: &Cifs<A>,
    ptr: u64,
    site: u32,
    found: u32,
) -> Result<Bytes, NoMemory>
    requires site { site < length cifs.now }
    requires found { found < length cifs.now }
    ensures { IfOk result
        (λ words. words ≡ stop_text cifs.now (Stop.WrongSig ptr site found)) }
{
    let mut words = wrong_sig_start(alloc, ptr)?;
    words.extend(": called as ".as_bytes())?;
    words.extend(numbered_text(alloc, cifs, site)?.as_slice())?;
    words.extend(", is ".as_bytes())?;
    words.extend(numbered_text(alloc, cifs, found)?.as_slice())?;
    Ok(words)
}

fn wrong_sig_start(alloc: Global, ptr: u64) -> Result<Bytes, NoMemory>
    ensures { IfOk result (λ words. words ≡ codes "stop: wrong signature at " ++ address_text ptr) }
{
    let words = format!(in alloc; "stop: wrong signature at 0x{ptr:x}")?;
    Bytes::from_slice(alloc, words.as_bytes())
}

fn stack_full_words(alloc: Global, need: u64, left: u64) -> Result<Bytes, NoMemory>
    ensures { IfOk result
        (λ words. words ≡ codes "stop: stack full: need " ++ decimal need ++ codes ", left " ++ decimal left) }
{
    let mut words = Bytes::new(alloc);
    words.extend("stop: stack full: need ".as_bytes())?;
    words.extend(format!(in alloc; "{need}")?.as_bytes())?;
    words.extend(", left ".as_bytes())?;
    words.extend(format!(in alloc; "{left}")?.as_bytes())?;
    Ok(words)
}

/// The text of the signature of a number.
fn numbered_text<A: Abi>(alloc: Global, cifs: &Cifs<A>, number: u32) -> Result<Bytes, NoMemory>
    requires { number < length cifs.now }
    ensures { IfOk result (λ text. text ≡ signature_text (signature_at cifs.now number)) }
{
    sig_text(alloc, cifs.get(number).sig())
}
