//! The text of a signature whose long doubles have no format yet.
#![tactic(auto)]

ghost use Rattle.std.specs.Prelude.{◌≡◌, ◌++◌, ◌≤◌, ◌<◌, [], OnOk, IfOk, ℕ, Some, length, slice_index_or, slice_range};
ghost use Rattle.ffi3_type_spec.specs.Tree.{array, trees_of};
ghost use Rattle.ffi3_type_spec.specs.Signature.{Signature, SignatureHasNoFault};
ghost use Rattle.ffi3_type_spec.specs.Text.{signature_text};
ghost use Rattle.ffi3_types.specs.TreeOf.{tree_of};
ghost use Rattle.ffi3_format_spec.specs.SigText.{FixesSome, told_arguments, told_list, told_signature, told_text, told_texts};

use ffi3_types::{Bytes, FfiType, Fields, NoMemory, Sig};
use std::alloc::Global;

/// The signature's text, as `sint32(pointer,long double)`: as `sig_text` of ffi3_types has it, with C's words for long
/// doubles that have no format.
pub fn signature_text(alloc: Global, sig: &Sig) -> Result<Bytes, NoMemory>
    requires { FixesSome sig.now }
    ensures { IfOk result (λ text. text ≡ told_signature sig.now) }
{
    let mut text = Bytes::new(alloc);
    write_type(alloc, sig.ret(), &mut text)?;
    text.push(b'(')?;
    write_arguments(alloc, sig.args(), sig.fixed(), &mut text)?;
    text.push(b')')?;
    Ok(text)
}

/// Does nothing. Its contract says that of a signature that can be called the text is `sig_text`'s.
#[tactic(auto, using(crate::proofs::Plain::callable_text))]
pub fn text_laws()
    ensures { (s : Signature) → SignatureHasNoFault s → told_signature s ≡ signature_text s }
{}

/// The arguments' texts at the end of a text.
fn write_arguments(
    alloc: Global,
    args: &Fields,
    fixed: Option<u32>,
    text: &mut Bytes,
) -> Result<(), NoMemory>
    requires { (n : ℕ) → fixed ≡ Some n → n ≤ length args.now }
    ensures { OnOk result (text.new ≡ text.old ++ told_arguments args.now fixed) }
{
    match fixed {
        None => write_all(alloc, args, text),
        Some(fixed) => {
            write_range(alloc, args, 0, fixed as usize, text)?;
            text.push(b';')?;
            write_range(alloc, args, fixed as usize, args.len(), text)
        }
    }
}

/// The type's text at the end of a text.
#[cycle(write_type)]
fn write_type(alloc: Global, ty: &FfiType, text: &mut Bytes) -> Result<(), NoMemory>
    ensures { OnOk result (text.new ≡ text.old ++ told_text (tree_of ty.now)) }
{
    let name = match ty {
        FfiType::Void => "void",
        FfiType::U8 => "uint8",
        FfiType::S8 => "sint8",
        FfiType::U16 => "uint16",
        FfiType::S16 => "sint16",
        FfiType::U32 => "uint32",
        FfiType::S32 => "sint32",
        FfiType::U64 => "uint64",
        FfiType::S64 => "sint64",
        FfiType::U128 => "uint128",
        FfiType::S128 => "sint128",
        FfiType::Float => "float",
        FfiType::Double => "double",
        FfiType::Pointer => "pointer",
        FfiType::X87 => "x87",
        FfiType::Binary128 => "binary128",
        FfiType::LongDouble => "long double",
        FfiType::Complex => "long double _Complex",
        FfiType::Vector => "",
        FfiType::Struct(fields) => {
            text.extend("struct{".as_bytes())?;
            write_all(alloc, fields, text)?;
            "}"
        }
        FfiType::Array(fields, count) => return write_array(alloc, fields, *count, text),
    };
    text.extend(name.as_bytes())
}

/// The texts of all types at the end of a text.
#[cycle(write_type)]
fn write_all(alloc: Global, types: &Fields, text: &mut Bytes) -> Result<(), NoMemory>
    ensures { OnOk result (text.new ≡ text.old ++ told_list types.now) }
{
    write_range(alloc, types, 0, types.len(), text)
}

/// The text of an array of `count` elements of the first type at the end of a text.
#[cycle(write_type)]
fn write_array(alloc: Global, types: &Fields, count: u32, text: &mut Bytes) -> Result<(), NoMemory>
    ensures { OnOk result (text.new ≡ text.old ++ told_text (array (trees_of types.now) count)) }
{
    write_first(alloc, types, text)?;
    text.extend(format!(in alloc; "[{count}]")?.as_bytes())
}

/// The text of the first type, if there is one, at the end of a text.
#[cycle(write_type)]
fn write_first(alloc: Global, types: &Fields, text: &mut Bytes) -> Result<(), NoMemory>
    ensures { OnOk result
        (text.new ≡ text.old ++ slice_index_or (told_texts (trees_of types.now)) 0 []) }
{
    if types.len() == 0 {
        return Ok(());
    }
    write_type(alloc, types.get(0), text)
}

/// The texts of the types from number `from` up to `to` at the end of a text.
#[cycle(write_type)]
fn write_range(
    alloc: Global,
    types: &Fields,
    from: usize,
    to: usize,
    text: &mut Bytes,
) -> Result<(), NoMemory>
    requires in_order { from ≤ to }
    requires in_range { to ≤ length types.now }
    ensures { OnOk result
        (text.new ≡ text.old ++ told_list (slice_range types.now from to)) }
{
    for i in from..to {
        if i > from {
            text.push(b',')?;
        }
        write_type(alloc, types.get(i), text)?;
    }
    Ok(())
}
