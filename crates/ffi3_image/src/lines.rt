//! Lines that tell what an image holds, and why an input is refused.
ghost use Rattle.std.specs.Prelude.{◌≡◌, ◌++◌, true, IfOk, OnOk};
ghost use Rattle.ffi3_type_spec.specs.Tree.{trees_of};
ghost use Rattle.ffi3_type_spec.specs.Value.{all_fit, fits, values_of};
ghost use Rattle.ffi3_semantics_spec.specs.Lines.{address_text, word_text};
ghost use Rattle.ffi3_script_spec.specs.ReasonText.{text_of_path, text_of_step};
ghost use Rattle.ffi3_types.specs.TreeOf.{tree_of};
ghost use Rattle.ffi3_values.specs.ValueOf.{value_of};
ghost use Rattle.ffi3_json.specs.StepOf.{step_of};
ghost use Rattle.ffi3_image_spec.specs.Lines.{argument_line, arguments_text, hidden_line, hidden_lines, broken_line, outside_line, fault_line, too_long_line, not_json_line, part_text, text_of_reason};
ghost use Rattle.ffi3_image_spec.specs.Object as object;
ghost use Rattle.ffi3_image.specs.FaultOf.{reason_of};

use crate::ImageReason;
use ffi3_explain::{Check, Outside, Part};
use ffi3_json::{Step, Where, reason_text};
use ffi3_text::write_loc;
use ffi3_type_spec::Isa;
use ffi3_types::{Bytes, FfiType, NoMemory, Sig};
use ffi3_values::{Value, Values, value_text};
use std::alloc::Global;

/// The line of argument `i`.
pub fn argument_line(alloc: Global, i: u32, ty: &FfiType, value: &Value) -> Result<Bytes, NoMemory>
    requires { fits (tree_of ty.now) (value_of value.now) ≡ true }
    ensures { IfOk result (λ line. line ≡ argument_line i (tree_of ty.now) (value_of value.now)) }
{
    let mut line = Bytes::from_slice(alloc, format!(in alloc; "arg {i} ")?.as_bytes())?;
    line.extend(value_text(alloc, ty, value)?.as_slice())?;
    line.push(b'\n')?;
    Ok(line)
}

/// The lines of all arguments.
pub fn arguments_text(alloc: Global, sig: &Sig, values: &Values) -> Result<Bytes, NoMemory>
    requires { all_fit (trees_of sig.now.arguments) (values_of values.now) ≡ true }
    ensures { IfOk result (λ text. text ≡ arguments_text sig.now values.now) }
{
    let mut text = Bytes::new(alloc);
    for i in 0..sig.count() {
        write_argument(alloc, i, sig.arg(i), values.get(i as usize), &mut text)?;
    }
    Ok(text)
}

/// The line of argument `i` at the end of a text.
fn write_argument(
    alloc: Global,
    i: u32,
    ty: &FfiType,
    value: &Value,
    text: &mut Bytes,
) -> Result<(), NoMemory>
    requires { fits (tree_of ty.now) (value_of value.now) ≡ true }
    ensures { OnOk result (text.new ≡ text.old ++ argument_line i (tree_of ty.now) (value_of value.now)) }
{
    text.extend(argument_line(alloc, i, ty, value)?.as_slice())
}

/// The line of a hidden result's address.
pub fn hidden_line(alloc: Global, address: u64) -> Result<Bytes, NoMemory>
    ensures { IfOk result (λ line. line ≡ hidden_line address) }
{
    let mut line = Bytes::from_slice(alloc, "hidden ".as_bytes())?;
    write_address(alloc, address, &mut line)?;
    line.push(b'\n')?;
    Ok(line)
}

/// The same where there is a hidden result, and otherwise nothing.
pub fn hidden_lines(alloc: Global, address: Option<u64>) -> Result<Bytes, NoMemory>
    ensures { IfOk result (λ text. text ≡ hidden_lines address) }
{
    match address {
        Some(address) => hidden_line(alloc, address),
        None => Ok(Bytes::new(alloc)),
    }
}

/// The line of a place that does not hold what is wanted.
pub fn broken_line(alloc: Global, isa: Isa, check: &Check) -> Result<Bytes, NoMemory>
    ensures { IfOk result (λ line. line ≡ broken_line isa check.now) }
{
    let mut line = Bytes::from_slice(alloc, "ffi3: ".as_bytes())?;
    write_part(alloc, check.part, &mut line)?;
    line.extend(": ".as_bytes())?;
    write_loc(isa, check.place, &mut line)?;
    line.extend(" holds ".as_bytes())?;
    write_word(alloc, check.found, &mut line)?;
    line.extend(", wants ".as_bytes())?;
    write_word(alloc, check.wants, &mut line)?;
    line.push(b'\n')?;
    Ok(line)
}

/// The line of an argument's address that points outside the image.
pub fn outside_line(alloc: Global, outside: &Outside) -> Result<Bytes, NoMemory>
    ensures { IfOk result (λ line. line ≡ outside_line outside.now) }
{
    let argument = outside.argument;
    let start = format!(in alloc; "ffi3: arg {argument}: ")?;
    let mut line = Bytes::from_slice(alloc, start.as_bytes())?;
    write_address(alloc, outside.address, &mut line)?;
    line.extend(" is not in the image".as_bytes())?;
    line.push(b'\n')?;
    Ok(line)
}

/// The line of an input of too many bytes.
pub fn too_long_line(alloc: Global) -> Result<Bytes, NoMemory>
    ensures { IfOk result (λ line. line ≡ too_long_line) }
{
    Bytes::from_slice(alloc, "ffi3: input too long\n".as_bytes())
}

/// The line of an input that is no JSON.
pub fn not_json_line(alloc: Global) -> Result<Bytes, NoMemory>
    ensures { IfOk result (λ line. line ≡ not_json_line) }
{
    Bytes::from_slice(alloc, "ffi3: not JSON\n".as_bytes())
}

/// The line of a fault of reading.
pub fn fault_line(alloc: Global, path: &Where, why: &ImageReason) -> Result<Bytes, NoMemory>
    ensures { IfOk result (λ line. line ≡ fault_line path.now (reason_of why.now)) }
{
    let mut line = Bytes::from_slice(alloc, "ffi3: ".as_bytes())?;
    line.extend(path_text(alloc, path)?.as_slice())?;
    line.extend(": ".as_bytes())?;
    line.extend(reason_words(alloc, why)?.as_slice())?;
    line.push(b'\n')?;
    Ok(line)
}

/// What a place is for.
fn write_part(alloc: Global, part: Part, text: &mut Bytes) -> Result<(), NoMemory>
    ensures { OnOk result (text.new ≡ text.old ++ part_text part) }
{
    match part {
        Part::Arg(i) => text.extend(format!(in alloc; "arg {i}")?.as_bytes()),
        Part::Hidden => text.extend("hidden".as_bytes()),
        Part::Count => text.extend("count".as_bytes()),
    }
}

/// An address in hexadecimal.
fn write_address(alloc: Global, address: u64, text: &mut Bytes) -> Result<(), NoMemory>
    ensures { OnOk result (text.new ≡ text.old ++ address_text address) }
{
    text.extend(format!(in alloc; "0x{address:x}")?.as_bytes())
}

/// A word as 16 hexadecimal digits.
fn write_word(alloc: Global, word: u64, text: &mut Bytes) -> Result<(), NoMemory>
    ensures { OnOk result (text.new ≡ text.old ++ word_text word) }
{
    text.extend(format!(in alloc; "{word:016x}")?.as_bytes())
}

/// The words of a reason.
fn reason_words(alloc: Global, why: &ImageReason) -> Result<Bytes, NoMemory>
    ensures { IfOk result (λ text. text ≡ text_of_reason (reason_of why.now)) }
{
    match why {
        ImageReason::AsInScripts(reason) => reason_text(alloc, reason),
        ImageReason::UnknownTarget => Bytes::from_slice(alloc, "unknown target".as_bytes()),
        ImageReason::BadNumber => Bytes::from_slice(alloc, "bad number".as_bytes()),
        ImageReason::TooShort { there, wanted } => too_short(alloc, *there, *wanted),
    }
}

fn too_short(alloc: Global, there: u64, wanted: u64) -> Result<Bytes, NoMemory>
    ensures { IfOk result (λ text. text ≡ text_of_reason (object.too_short there wanted)) }
{
    let mut text = Bytes::from_slice(alloc, "too short: ".as_bytes())?;
    text.extend(format!(in alloc; "{there}")?.as_bytes())?;
    text.extend(" of ".as_bytes())?;
    text.extend(format!(in alloc; "{wanted}")?.as_bytes())?;
    Ok(text)
}

/// The text of a JSON place: each key and number after `/`; the root is `/` alone.
pub fn path_text(alloc: Global, path: &Where) -> Result<Bytes, NoMemory>
    ensures { IfOk result (λ text. text ≡ text_of_path path.now) }
{
    if path.len() == 0 {
        return Bytes::from_slice(alloc, "/".as_bytes());
    }
    let mut text = Bytes::new(alloc);
    for i in 0..path.len() {
        write_step(alloc, path.get(i), &mut text)?;
    }
    Ok(text)
}

fn write_step(alloc: Global, step: &Step, text: &mut Bytes) -> Result<(), NoMemory>
    ensures { OnOk result (text.new ≡ text.old ++ text_of_step (step_of step.now)) }
{
    text.push(b'/')?;
    match step {
        Step::Key(name) => text.extend(name.as_str().as_bytes()),
        Step::Number(i) => text.extend(format!(in alloc; "{i}")?.as_bytes()),
    }
}
