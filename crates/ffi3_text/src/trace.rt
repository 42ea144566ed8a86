//! Lines of a trace.
ghost use Rattle.std.specs.Prelude.{◌≡◌, ℕ, ◌%◌, ◌++◌, List, IfOk, OnOk, codes, map, true, false};
ghost use Rattle.std.specs.Fmt.{digit_glyph};
ghost use Rattle.std.specs.List.{concat, join_with_byte};
ghost use Rattle.ffi3_type_spec.specs.Tree.{trees_of};
ghost use Rattle.ffi3_type_spec.specs.Value.{fits, all_fit, values_of};
ghost use Rattle.ffi3_type_spec.specs.ValueText.{value_text_of, value_texts_of};
ghost use Rattle.ffi3_types.specs.TreeOf.{tree_of};
ghost use Rattle.ffi3_values.specs.ValueOf.{value_of};
ghost use Rattle.ffi3_place_spec.specs.Image.{register};
ghost use Rattle.ffi3_machine.specs.Entries.{event_of};
ghost use Rattle.ffi3_semantics_spec.specs.Lines.{address_text, word_text};
ghost use Rattle.ffi3_text.specs.TraceLines.{IsRegister, enter_text_of, leave_text_of, keep_text_of, register_text};

use ffi3_cif::Cif;
use ffi3_machine::Event;
use ffi3_place::{Abi, Loc};
use ffi3_types::{Bytes, FfiType, Fields, NoMemory};
use ffi3_values::{Value, Values, value_text};
use std::alloc::Global;

/// Most lines of an entry or a return fit, so that none grows piece by piece.
const LINE_ROOM: usize = 96;

/// The line of the registers that a standard has preserved fits: it has at most 24 of them.
const KEEP_ROOM: usize = 448;

/// The line of an entry, as `enter 0x10000 sp 0x7ffefff8 (20,-7)` with a newline: the closure's
/// address, the stack pointer, and the arguments, which are those of a call by `cif`. The stack's
/// bytes that were recorded with the event have no part in it.
pub fn enter_line<A: Abi>(
    alloc: Global,
    cif: &Cif<A>,
    event: &Event,
    args: &Values,
) -> Result<Bytes, NoMemory>
    requires { all_fit (trees_of cif.now.arguments) (values_of args.now) ≡ true }
    ensures { (stack : List ℕ) → IfOk result (λ text. text ≡ enter_text_of cif.now (event_of event.now stack) args.now) }
{
    let mut text = Bytes::with_capacity(alloc, LINE_ROOM)?;
    text.extend("enter ".as_bytes())?;
    write_address(alloc, event.closure, &mut text)?;
    text.extend(" sp ".as_bytes())?;
    write_address(alloc, event.sp, &mut text)?;
    text.extend(" (".as_bytes())?;
    write_values(alloc, cif.sig().args(), args, &mut text)?;
    text.push(b')')?;
    text.push(b'\n')?;
    Ok(text)
}

/// The line of a return, as `leave sp 0x7fff0000 42` with a newline: the stack pointer, and the
/// result of a call by `cif`. The stack's bytes that were recorded with the event have no part in it.
pub fn leave_line<A: Abi>(
    alloc: Global,
    cif: &Cif<A>,
    event: &Event,
    value: &Value,
) -> Result<Bytes, NoMemory>
    requires { fits cif.now.result_type (value_of value.now) ≡ true }
    ensures { (stack : List ℕ) → IfOk result (λ text. text ≡ leave_text_of cif.now (event_of event.now stack) (value_of value.now)) }
{
    let mut text = Bytes::with_capacity(alloc, LINE_ROOM)?;
    text.extend("leave sp ".as_bytes())?;
    write_address(alloc, event.sp, &mut text)?;
    text.push(b' ')?;
    write_value(alloc, cif.sig().ret(), value, &mut text)?;
    text.push(b'\n')?;
    Ok(text)
}

/// The line of the registers that a callee preserves, at an entry or a return: `keep`, and each
/// register as 16 hexadecimal digits, with a newline. On AMD64 these are rbx, rbp and r12 to r15;
/// on Microsoft x64 rbx, rbp, rdi, rsi, r12 to r15 and the low halves of xmm6 to xmm15.
pub fn keep_line<A: Abi>(alloc: Global, event: &Event) -> Result<Bytes, NoMemory>
    ensures { (stack : List ℕ) → IfOk result (λ text. text ≡ keep_text_of A.standard (event_of event.now stack)) }
{
    let mut text = Bytes::with_capacity(alloc, KEEP_ROOM)?;
    text.extend("keep".as_bytes())?;
    write_kept::<A>(event, &mut text)?;
    text.push(b'\n')?;
    Ok(text)
}

/// An address in hexadecimal at the end of a text.
fn write_address(alloc: Global, address: u64, text: &mut Bytes) -> Result<(), NoMemory>
    ensures { OnOk result (text.new ≡ text.old ++ address_text address) }
{
    text.extend(format!(in alloc; "0x{address:x}")?.as_bytes())
}

/// The values, between commas.
fn write_values(
    alloc: Global,
    types: &Fields,
    values: &Values,
    text: &mut Bytes,
) -> Result<(), NoMemory>
    requires { all_fit (trees_of types.now) (values_of values.now) ≡ true }
    ensures { OnOk result (text.new ≡ text.old ++ join_with_byte 44 (value_texts_of (trees_of types.now) (values_of values.now))) }
{
    for i in 0..types.len() {
        if i > 0 {
            text.push(b',')?;
        }
        write_value(alloc, types.get(i), values.get(i), text)?;
    }
    Ok(())
}

fn write_value(alloc: Global, ty: &FfiType, value: &Value, text: &mut Bytes) -> Result<(), NoMemory>
    requires { fits (tree_of ty.now) (value_of value.now) ≡ true }
    ensures { OnOk result (text.new ≡ text.old ++ value_text_of (tree_of ty.now) (value_of value.now)) }
{
    text.extend(value_text(alloc, ty, value)?.as_slice())
}

/// The registers that a callee preserves, in the standard's order.
fn write_kept<A: Abi>(event: &Event, text: &mut Bytes) -> Result<(), NoMemory>
    ensures { (stack : List ℕ) → OnOk result (text.new ≡ text.old ++ concat (map (register_text (event_of event.now stack)) A.standard.callee_saved)) }
{
    for k in 0..A::KEPT {
        write_register(event, A::callee_saved(k), text)?;
    }
    Ok(())
}

fn write_register(event: &Event, at: Loc, text: &mut Bytes) -> Result<(), NoMemory>
    requires { IsRegister at }
    ensures { (stack : List ℕ) → OnOk result (text.new ≡ text.old ++ register_text (event_of event.now stack) at) }
{
    write_word(register(event, at), text)
}

/// What a register held.
fn register(event: &Event, at: Loc) -> u64
    requires { IsRegister at }
    ensures { (stack : List ℕ) → result ≡ register (event_of event.now stack).image at }
{
    match at {
        Loc::G(k) => event.general[k as usize],
        Loc::F(k) => event.floating[k as usize],
        Loc::S(_, _) => unreachable!(),
    }
}

/// A word as 16 hexadecimal digits after a space.
fn write_word(word: u64, text: &mut Bytes) -> Result<(), NoMemory>
    ensures { OnOk result (text.new ≡ text.old ++ (codes " " ++ word_text word)) }
{
    text.extend(&spelled(word))
}

/// A space, and the 16 hexadecimal digits of a word, the highest first.
fn spelled(word: u64) -> [u8; 17]
    ensures { result ≡ codes " " ++ word_text word }
{
    [
        b' ',
        last_digit(word >> 60),
        last_digit(word >> 56),
        last_digit(word >> 52),
        last_digit(word >> 48),
        last_digit(word >> 44),
        last_digit(word >> 40),
        last_digit(word >> 36),
        last_digit(word >> 32),
        last_digit(word >> 28),
        last_digit(word >> 24),
        last_digit(word >> 20),
        last_digit(word >> 16),
        last_digit(word >> 12),
        last_digit(word >> 8),
        last_digit(word >> 4),
        last_digit(word),
    ]
}

/// The last hexadecimal digit of a number.
fn last_digit(number: u64) -> u8
    ensures { result ≡ digit_glyph false (number % 16) }
{
    let digit = (number % 16) as u8;
    if digit < 10 {
        b'0' + digit
    } else {
        b'a' + (digit - 10)
    }
}
