//! Values of bytes, and what bytes of one value have in common.
ghost use Rattle.std.specs.Prelude.{◌≡◌, ℕ, List, IfOk, length, true};
ghost use Rattle.ffi3_type_spec.specs.Tree.{Tree, trees_of, struct_of};
ghost use Rattle.ffi3_type_spec.specs.Layout.{layouts, size_of};
ghost use Rattle.ffi3_type_spec.specs.Fault.{IsLaidOut};
ghost use Rattle.ffi3_type_spec.specs.Value.{value_in, values_in, values_of, zero_value, fits, all_fit};
ghost use Rattle.ffi3_type_spec.specs.Value.{DifferInPaddingAlone};
ghost use Rattle.ffi3_types.specs.TreeOf.{tree_of};
ghost use Rattle.ffi3_values.specs.ValueOf.{value_of};

use crate::{Bytes, NoMemory, Value, Values};
use ffi3_type_spec::round_up;
use ffi3_types::{FfiType, Members};
use std::alloc::Global;

/// The value that these bytes of a type have: padding has no part in it.
#[cycle(from_bytes)]
pub fn value_from_bytes(alloc: Global, ty: &FfiType, bytes: &[u8]) -> Result<Value, NoMemory>
    requires right { IsLaidOut (tree_of ty.now) }
    requires sized { length bytes.now ≡ size_of (tree_of ty.now) }
    ensures value { IfOk result (λ v. value_of v ≡ value_in (tree_of ty.now) bytes.now) }
    ensures fits { IfOk result (λ v. fits (tree_of ty.now) (value_of v) ≡ true) }
{
    match ty {
        FfiType::Void => Ok(Value::Void),
        FfiType::LongDouble | FfiType::Complex | FfiType::Vector => unreachable!(),
        FfiType::X87 => Ok(Value::Leaf(Bytes::from_slice(alloc, &bytes[..10])?)),
        FfiType::Struct(fields) => {
            let members = Members::of_struct(fields);
            Ok(Value::List(values_from_bytes(alloc, &members, bytes)?))
        }
        FfiType::Array(fields, count) => {
            let members = Members::of_array(fields, *count);
            Ok(Value::List(values_from_bytes(alloc, &members, bytes)?))
        }
        FfiType::U8
        | FfiType::S8
        | FfiType::U16
        | FfiType::S16
        | FfiType::U32
        | FfiType::S32
        | FfiType::U64
        | FfiType::S64
        | FfiType::U128
        | FfiType::S128
        | FfiType::Float
        | FfiType::Double
        | FfiType::Pointer
        | FfiType::Binary128 => Ok(Value::Leaf(Bytes::from_slice(alloc, bytes)?)),
    }
}

#[cycle(from_bytes)]
fn values_from_bytes(alloc: Global, fields: &Members, bytes: &[u8]) -> Result<Values, NoMemory>
    requires right { IsLaidOut (struct_of fields.now) }
    requires sized { length bytes.now ≡ size_of (struct_of fields.now) }
    ensures value { IfOk result
        (λ vs. values_of vs ≡ values_in (trees_of fields.now) (layouts (trees_of fields.now)) 0 bytes.now) }
    ensures fits { IfOk result (λ vs. all_fit (trees_of fields.now) (values_of vs) ≡ true) }
{
    let mut values = Values::new(alloc);
    let mut end: u64 = 0;
    for i in 0..fields.len() {
        let ty = fields.get(i);
        let start = round_up(end, ty.align());
        end = start + ty.size();
        let part = &bytes[start as usize..end as usize];
        values.push(value_from_bytes(alloc, ty, part)?)?;
    }
    Ok(values)
}

/// The value whose bytes are all zero.
pub fn zero(alloc: Global, ty: &FfiType) -> Result<Value, NoMemory>
    requires { IsLaidOut (tree_of ty.now) }
    ensures value { IfOk result (λ v. value_of v ≡ zero_value (tree_of ty.now)) }
    ensures fits { IfOk result (λ v. fits (tree_of ty.now) (value_of v) ≡ true) }
{
    let zeros = vec![in alloc; 0u8; ty.size() as usize]?;
    value_from_bytes(alloc, ty, zeros.as_slice())
}

/// Does nothing. Its contract is a law: bytes that have the same value differ in padding alone.
pub fn differ_in_padding_alone()
    ensures { (t : Tree) (a b : List ℕ) → length a ≡ size_of t → length b ≡ size_of t → value_in t a ≡ value_in t b → DifferInPaddingAlone t a b }
{}
