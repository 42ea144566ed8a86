//! Values as text.
ghost use Rattle.std.specs.Prelude.{◌≡◌, ◌++◌, ◌<◌, OnOk, IfOk, true};
ghost use Rattle.std.specs.List.{join_with_byte};
ghost use Rattle.ffi3_type_spec.specs.Tree.{trees_of};
ghost use Rattle.ffi3_type_spec.specs.Value.{fits, all_fit, values_of};
ghost use Rattle.ffi3_type_spec.specs.ValueText.{value_text_of, value_texts_of, hexadecimal};
ghost use Rattle.ffi3_types.specs.TreeOf.{tree_of};
ghost use Rattle.ffi3_values.specs.ValueOf.{value_of};

use crate::numbers::from_sixteen;
use crate::{Bytes, NoMemory, Value, Values, number, widen};
use ffi3_types::{FfiType, Members};
use std::alloc::Global;

/// The value's text: integers in decimal, pointers as `0xbef`, the bytes of floats in hexadecimal, structs as `{1,-2}`,
/// arrays as `[1,2]`, and `void`.
pub fn value_text(alloc: Global, ty: &FfiType, value: &Value) -> Result<Bytes, NoMemory>
    requires { fits (tree_of ty.now) (value_of value.now) ≡ true }
    ensures { IfOk result (λ text. text ≡ value_text_of (tree_of ty.now) (value_of value.now)) }
{
    let mut text = Bytes::new(alloc);
    write_text(alloc, ty, value, &mut text)?;
    Ok(text)
}

#[cycle(write_text)]
fn write_text(alloc: Global, ty: &FfiType, value: &Value, text: &mut Bytes) -> Result<(), NoMemory>
    requires { fits (tree_of ty.now) (value_of value.now) ≡ true }
    ensures { OnOk result (text.new ≡ text.old ++ value_text_of (tree_of ty.now) (value_of value.now)) }
{
    match value {
        Value::Void => text.extend("void".as_bytes()),
        Value::Leaf(bytes) => match ty {
            FfiType::Float | FfiType::Double | FfiType::X87 | FfiType::Binary128 => {
                write_hexadecimal(alloc, bytes.as_slice(), text)
            }
            FfiType::Pointer => {
                text.extend("0x".as_bytes())?;
                let address = widen(ty, value);
                text.extend(format!(in alloc; "{address:x}")?.as_bytes())
            }
            FfiType::U8
            | FfiType::S8
            | FfiType::U16
            | FfiType::S16
            | FfiType::U32
            | FfiType::S32
            | FfiType::U64
            | FfiType::S64 => {
                let number = number(ty, value);
                text.extend(format!(in alloc; "{number}")?.as_bytes())
            }
            FfiType::U128 => {
                let number = from_sixteen(bytes.as_slice());
                text.extend(format!(in alloc; "{number}")?.as_bytes())
            }
            FfiType::S128 => {
                let number = from_sixteen(bytes.as_slice()).cast_signed();
                text.extend(format!(in alloc; "{number}")?.as_bytes())
            }
            FfiType::Void | FfiType::Struct(_) | FfiType::Array(_, _) => unreachable!(),
            FfiType::LongDouble | FfiType::Complex | FfiType::Vector => unreachable!(),
        },
        Value::List(values) => {
            match ty {
                FfiType::Struct(fields) => {
                    let members = Members::of_struct(fields);
                    text.push(b'{')?;
                    write_texts(alloc, &members, values, text)?;
                    text.push(b'}')
                }
                FfiType::Array(fields, count) => {
                    let members = Members::of_array(fields, *count);
                    text.push(b'[')?;
                    write_texts(alloc, &members, values, text)?;
                    text.push(b']')
                }
                _ => Ok(()),
            }
        }
    }
}

#[cycle(write_text)]
fn write_texts(
    alloc: Global,
    fields: &Members,
    values: &Values,
    text: &mut Bytes,
) -> Result<(), NoMemory>
    requires { all_fit (trees_of fields.now) (values_of values.now) ≡ true }
    ensures { OnOk result (text.new ≡ text.old ++ join_with_byte 44 (value_texts_of (trees_of fields.now) (values_of values.now))) }
{
    for i in 0..fields.len() {
        if i > 0 {
            text.push(b',')?;
        }
        write_text(alloc, fields.get(i), values.get(i), text)?;
    }
    Ok(())
}

/// Two lower-case hexadecimal digits for each byte.
fn write_hexadecimal(alloc: Global, bytes: &[u8], text: &mut Bytes) -> Result<(), NoMemory>
    ensures { OnOk result (text.new ≡ text.old ++ hexadecimal bytes.now) }
{
    let digits = hex::encode(alloc, bytes)?;
    text.extend(digits.as_bytes())
}
