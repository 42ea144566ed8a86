//! The parts of the object: the target, numbers, registers and bytes.
ghost use Rattle.std.specs.Prelude.{◌≡◌, IfOk, IfErr, option_map};
ghost use Rattle.ffi3_image_spec.specs.Object as object;
ghost use Rattle.ffi3_image_spec.specs.Object.{read};
ghost use Rattle.ffi3_image.specs.Tells.{Tells};

use crate::fault::{bad, bad_as_in_scripts};
use crate::{ImageFault, ImageReason};
use ffi3_json::{JsonPath, Node, Nodes, Reason};
use ffi3_type_spec::Target;
use ffi3_types::Bytes;
use hex::{FromHex, FromHexError};
use std::alloc::Global;

/// The text under a key, where one stands there.
pub(crate) fn text_under<'t>(value: &Node<'t, '_>, name: &str) -> Option<&'t str>
    ensures { option_map (λ s. s.now) result ≡ object.text_under name.now value.now }
{
    match value.get(name) {
        Some(part) => part.as_str(),
        None => None,
    }
}

/// The items of the array under a key, where one stands there.
pub(crate) fn items_under<'t, 'a>(value: &Node<'t, 'a>, name: &str) -> Option<Nodes<'t, 'a>>
    ensures { result ≡ object.items_under name.now value.now }
{
    match value.get(name) {
        Some(part) => part.items(),
        None => None,
    }
}

/// The target of a word.
fn target_named(name: &str) -> Option<Target>
    ensures { result ≡ object.target_named name.now }
{
    match name {
        "amd64" => Some(Target::Amd64),
        "aapcs64" => Some(Target::Aapcs64),
        "riscv" => Some(Target::Riscv),
        "win64" => Some(Target::Win64),
        "apple" => Some(Target::Apple),
        _ => None,
    }
}

/// The target that a text is the word of.
pub(crate) fn read_target(
    alloc: Global,
    text: Option<&str>,
    at: &JsonPath,
) -> Result<Target, ImageFault>
    ensures ok { IfOk result (λ t. object.read_target (option_map (λ s. s.now) text.entry) at.now ≡ read t) }
    ensures err { IfErr result (Tells (λ p r. object.read_target (option_map (λ s. s.now) text.entry) at.now ≡ object.fault p r)) }
{
    let Some(name) = text else {
        return Err(bad(alloc, at, ImageReason::UnknownTarget));
    };
    match target_named(name) {
        Some(target) => Ok(target),
        None => Err(bad(alloc, at, ImageReason::UnknownTarget)),
    }
}

/// The number that a text of 16 hexadecimal digits is.
pub(crate) fn read_word(alloc: Global, text: Option<&str>, at: &JsonPath) -> Result<u64, ImageFault>
    ensures ok { IfOk result (λ w. object.read_word (option_map (λ s. s.now) text.entry) at.now ≡ read w) }
    ensures err { IfErr result (Tells (λ p r. object.read_word (option_map (λ s. s.now) text.entry) at.now ≡ object.fault p r)) }
{
    let Some(digits) = text else {
        return Err(bad(alloc, at, ImageReason::BadNumber));
    };
    match <[u8; 8] as FromHex>::from_hex(digits) {
        Ok(bytes) => Ok(u64::from_be_bytes(bytes)),
        Err(_) => Err(bad(alloc, at, ImageReason::BadNumber)),
    }
}

/// The numbers that the items of an array are.
fn read_words(alloc: Global, items: &Nodes, at: &JsonPath) -> Result<Vec<u64>, ImageFault>
    ensures ok { IfOk result (λ ws. object.read_words items.now at.now 0 ≡ read ws.items) }
    ensures err { IfErr result (Tells (λ p r. object.read_words items.now at.now 0 ≡ object.fault p r)) }
{
    let mut words = Vec::new(alloc);
    for i in 0..items.len() {
        match read_word(alloc, items.get(i).as_str(), &at.item(i as u32)) {
            Ok(word) => {
                let Ok(()) = words.push(word) else {
                    return Err(ImageFault::NoMemory);
                };
            }
            Err(fault) => return Err(fault),
        }
    }
    Ok(words)
}

/// The 32 registers that the array under a key has.
pub(crate) fn read_registers(
    alloc: Global,
    value: &Node,
    name: &str,
    at: &JsonPath,
) -> Result<[u64; 32], ImageFault>
    ensures ok { IfOk result (λ ws. object.read_registers (object.items_under name.now value.now) at.now ≡ read ws) }
    ensures err { IfErr result (Tells (λ p r. object.read_registers (object.items_under name.now value.now) at.now ≡ object.fault p r)) }
{
    let Some(items) = items_under(value, name) else {
        return Err(bad_as_in_scripts(alloc, at, Reason::NotAnArray));
    };
    if items.len() != 32 {
        return Err(bad_as_in_scripts(alloc, at, Reason::WrongCount));
    }
    match read_words(alloc, &items, at) {
        Ok(words) => {
            let mut registers = [0; 32];
            registers.copy_from_slice(words.as_slice());
            Ok(registers)
        }
        Err(fault) => Err(fault),
    }
}

/// The bytes that a text of two hexadecimal digits for each is.
pub(crate) fn read_bytes(
    alloc: Global,
    text: Option<&str>,
    at: &JsonPath,
) -> Result<Bytes, ImageFault>
    ensures ok { IfOk result (λ bytes. object.read_bytes (option_map (λ s. s.now) text.entry) at.now ≡ read bytes) }
    ensures err { IfErr result (Tells (λ p r. object.read_bytes (option_map (λ s. s.now) text.entry) at.now ≡ object.fault p r)) }
{
    let Some(digits) = text else {
        return Err(bad_as_in_scripts(alloc, at, Reason::BadBytes));
    };
    match hex::decode(alloc, digits.as_bytes()) {
        Ok(bytes) => {
            let Ok(copy) = Bytes::from_slice(alloc, bytes.as_slice()) else {
                return Err(ImageFault::NoMemory);
            };
            Ok(copy)
        }
        Err(FromHexError::OutOfMemory) => Err(ImageFault::NoMemory),
        Err(_) => Err(bad_as_in_scripts(alloc, at, Reason::BadBytes)),
    }
}
