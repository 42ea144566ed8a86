//! The numbers of integers and pointers.
ghost use Rattle.std.specs.Prelude.{◌≡◌, ◌%◌, ◌^◌, ◌<◌, ◌≤◌, ◌↔◌, IfOk, length, true, pos, negsuc, ◌-◌, ◌-ℤ◌, ◌≤ℤ◌, ◌<ℤ◌};
ghost use Rattle.std.specs.Int.{w16, w32, w64, w128, to_le_bytes, from_le_bytes};
ghost use Rattle.ffi3_type_spec.specs.Integer.{is_number_type, scalar_of, number_of, bytes_of_number, sum_of, widened, widened_from_32, width_of, bit_count, modulo};
ghost use Rattle.ffi3_type_spec.specs.Layout.{size_of};
ghost use Rattle.ffi3_type_spec.specs.Value.{fits, bytes_of, leaf_value};
ghost use Rattle.ffi3_types.specs.TreeOf.{tree_of};
ghost use Rattle.ffi3_values.specs.ValueOf.{value_of};

use crate::{Bytes, NoMemory, Value};
use ffi3_types::FfiType;
use std::alloc::Global;

/// The number of two bytes, the lowest first.
fn from_two(bytes: &[u8]) -> u16
    requires { length bytes.now ≡ 2 }
    ensures { result ≡ from_le_bytes w16 bytes.now }
{
    u16::from_le_bytes([bytes[0], bytes[1]])
}

/// The number of four bytes, the lowest first.
fn from_four(bytes: &[u8]) -> u32
    requires { length bytes.now ≡ 4 }
    ensures { result ≡ from_le_bytes w32 bytes.now }
{
    u32::from_le_bytes([bytes[0], bytes[1], bytes[2], bytes[3]])
}

/// The number of eight bytes, the lowest first.
fn from_eight(bytes: &[u8]) -> u64
    requires { length bytes.now ≡ 8 }
    ensures { result ≡ from_le_bytes w64 bytes.now }
{
    u64::from_le_bytes([
        bytes[0], bytes[1], bytes[2], bytes[3], bytes[4], bytes[5], bytes[6], bytes[7],
    ])
}

/// The number of sixteen bytes, the lowest first.
pub(crate) fn from_sixteen(bytes: &[u8]) -> u128
    requires { length bytes.now ≡ 16 }
    ensures { result ≡ from_le_bytes w128 bytes.now }
{
    u128::from_le_bytes([
        bytes[0], bytes[1], bytes[2], bytes[3], bytes[4], bytes[5], bytes[6], bytes[7], bytes[8],
        bytes[9], bytes[10], bytes[11], bytes[12], bytes[13], bytes[14], bytes[15],
    ])
}

/// The number of an integer of at most 64 bits or of a pointer, by its sign.
pub fn number(ty: &FfiType, value: &Value) -> i128
    requires kind { is_number_type (tree_of ty.now) ≡ true }
    requires small { size_of (tree_of ty.now) ≤ 8 }
    requires fits { fits (tree_of ty.now) (value_of value.now) ≡ true }
    ensures value { result ≡ number_of (scalar_of (tree_of ty.now)) (bytes_of (value_of value.now)) }
    ensures low { negsuc (2 ^ 63 - 1) ≤ℤ result }
    ensures high { result <ℤ pos (2 ^ 64) }
{
    let Value::Leaf(leaf) = value else {
        unreachable!()
    };
    let bytes = leaf.as_slice();
    match ty {
        FfiType::U8 => bytes[0] as i128,
        FfiType::S8 => bytes[0].cast_signed() as i128,
        FfiType::U16 => from_two(bytes) as i128,
        FfiType::S16 => from_two(bytes).cast_signed() as i128,
        FfiType::U32 => from_four(bytes) as i128,
        FfiType::S32 => from_four(bytes).cast_signed() as i128,
        FfiType::S64 => from_eight(bytes).cast_signed() as i128,
        FfiType::U64 | FfiType::Pointer => from_eight(bytes) as i128,
        FfiType::U128 | FfiType::S128 => unreachable!(),
        FfiType::Void | FfiType::Float | FfiType::Double => unreachable!(),
        FfiType::Struct(_) | FfiType::Array(_, _) => unreachable!(),
        FfiType::LongDouble | FfiType::Complex | FfiType::Vector => unreachable!(),
        FfiType::X87 | FfiType::Binary128 => unreachable!(),
    }
}

/// The number of an integer or a pointer modulo two to the 128th: zero exactly where the number is.
pub fn bits(ty: &FfiType, value: &Value) -> u128
    requires kind { is_number_type (tree_of ty.now) ≡ true }
    requires fits { fits (tree_of ty.now) (value_of value.now) ≡ true }
    ensures value { result ≡ modulo 128 (number_of (scalar_of (tree_of ty.now)) (bytes_of (value_of value.now))) }
    ensures zero { (result ≡ 0) ↔ (number_of (scalar_of (tree_of ty.now)) (bytes_of (value_of value.now)) ≡ pos 0) }
{
    match ty {
        FfiType::U128 | FfiType::S128 => {
            let Value::Leaf(leaf) = value else {
                unreachable!()
            };
            from_sixteen(leaf.as_slice())
        }
        _ => number(ty, value).cast_unsigned(),
    }
}

/// The 8 bytes of an integer of at most 64 bits or of a pointer in a register: libffi's `ffi_arg`, extended by the
/// type's sign.
pub fn widen(ty: &FfiType, value: &Value) -> u64
    requires kind { is_number_type (tree_of ty.now) ≡ true }
    requires small { size_of (tree_of ty.now) ≤ 8 }
    requires fits { fits (tree_of ty.now) (value_of value.now) ≡ true }
    ensures { result ≡ widened (scalar_of (tree_of ty.now)) (bytes_of (value_of value.now)) }
{
    let Value::Leaf(leaf) = value else {
        unreachable!()
    };
    let bytes = leaf.as_slice();
    match ty {
        FfiType::U8 => bytes[0] as u64,
        FfiType::S8 => (bytes[0].cast_signed() as i64).cast_unsigned(),
        FfiType::U16 => from_two(bytes) as u64,
        FfiType::S16 => (from_two(bytes).cast_signed() as i64).cast_unsigned(),
        FfiType::U32 => from_four(bytes) as u64,
        FfiType::S32 => (from_four(bytes).cast_signed() as i64).cast_unsigned(),
        FfiType::U64 | FfiType::S64 | FfiType::Pointer => from_eight(bytes),
        FfiType::U128 | FfiType::S128 => unreachable!(),
        FfiType::Void | FfiType::Float | FfiType::Double => unreachable!(),
        FfiType::Struct(_) | FfiType::Array(_, _) => unreachable!(),
        FfiType::LongDouble | FfiType::Complex | FfiType::Vector => unreachable!(),
        FfiType::X87 | FfiType::Binary128 => unreachable!(),
    }
}

/// The 8 bytes of an integer in a register, extended by its sign to 32 bits where it is narrower, and from there by the
/// upper bit.
pub fn widen_from_32(ty: &FfiType, value: &Value) -> u64
    requires kind { is_number_type (tree_of ty.now) ≡ true }
    requires small { size_of (tree_of ty.now) ≤ 8 }
    requires fits { fits (tree_of ty.now) (value_of value.now) ≡ true }
    ensures { result ≡ widened_from_32 (scalar_of (tree_of ty.now)) (bytes_of (value_of value.now)) }
{
    let low = number(ty, value).cast_unsigned() % 0x1_0000_0000;
    ((low as u32).cast_signed() as i64).cast_unsigned()
}

/// The bytes of a number of 128 bits.
fn all_bytes(alloc: Global, n: u128) -> Result<Bytes, NoMemory>
    ensures { IfOk result (λ b. b ≡ to_le_bytes w128 (n % 2 ^ 128)) }
{
    Bytes::from_slice(alloc, &n.to_le_bytes())
}

/// The integer or pointer whose bits are the lowest of `n`.
pub fn of_bits(alloc: Global, ty: &FfiType, n: u128) -> Result<Value, NoMemory>
    requires { is_number_type (tree_of ty.now) ≡ true }
    ensures value { IfOk result
        (λ v. let w = width_of (scalar_of (tree_of ty.now)) in
        value_of v ≡ leaf_value (to_le_bytes w (n % 2 ^ bit_count w))) }
    ensures fits { IfOk result (λ v. fits (tree_of ty.now) (value_of v) ≡ true) }
{
    Ok(Value::Leaf(match ty {
        FfiType::U8 | FfiType::S8 => Bytes::from_slice(alloc, &((n % 0x100) as u8).to_le_bytes())?,
        FfiType::U16 | FfiType::S16 => Bytes::from_slice(
            alloc,
            &((n % 0x1_0000) as u16).to_le_bytes(),
        )?,
        FfiType::U32 | FfiType::S32 => Bytes::from_slice(
            alloc,
            &((n % 0x1_0000_0000) as u32).to_le_bytes(),
        )?,
        FfiType::U64 | FfiType::S64 | FfiType::Pointer => Bytes::from_slice(
            alloc,
            &((n % 0x1_0000_0000_0000_0000) as u64).to_le_bytes(),
        )?,
        FfiType::U128 | FfiType::S128 => all_bytes(alloc, n)?,
        FfiType::Void | FfiType::Float | FfiType::Double => unreachable!(),
        FfiType::Struct(_) | FfiType::Array(_, _) => unreachable!(),
        FfiType::LongDouble | FfiType::Complex | FfiType::Vector => unreachable!(),
        FfiType::X87 | FfiType::Binary128 => unreachable!(),
    }))
}

/// An integer or pointer of this number, modulo two to the type's number of bits.
pub fn integer(alloc: Global, ty: &FfiType, n: i128) -> Result<Value, NoMemory>
    requires { is_number_type (tree_of ty.now) ≡ true }
    ensures value { IfOk result
        (λ v. value_of v ≡ leaf_value (bytes_of_number (scalar_of (tree_of ty.now)) n)) }
    ensures fits { IfOk result (λ v. fits (tree_of ty.now) (value_of v) ≡ true) }
{
    of_bits(alloc, ty, n.cast_unsigned())
}

/// The sum of two integers or pointers, modulo two to the type's number of bits.
pub fn add(alloc: Global, ty: &FfiType, a: &Value, b: &Value) -> Result<Value, NoMemory>
    requires kind { is_number_type (tree_of ty.now) ≡ true }
    requires fits { fits (tree_of ty.now) (value_of a.now) ≡ true }
    requires fits_too { fits (tree_of ty.now) (value_of b.now) ≡ true }
    ensures value { IfOk result
        (λ v. value_of v ≡ leaf_value (sum_of (scalar_of (tree_of ty.now)) (bytes_of (value_of a.now)) (bytes_of (value_of b.now)))) }
    ensures fits { IfOk result (λ v. fits (tree_of ty.now) (value_of v) ≡ true) }
{
    of_bits(alloc, ty, bits(ty, a).wrapping_add(bits(ty, b)))
}

/// The difference of two integers or pointers, modulo two to the type's number of bits.
pub fn sub(alloc: Global, ty: &FfiType, a: &Value, b: &Value) -> Result<Value, NoMemory>
    requires kind { is_number_type (tree_of ty.now) ≡ true }
    requires fits { fits (tree_of ty.now) (value_of a.now) ≡ true }
    requires fits_too { fits (tree_of ty.now) (value_of b.now) ≡ true }
    ensures value { IfOk result
        (λ v. let s = scalar_of (tree_of ty.now) in
        value_of v ≡ leaf_value (bytes_of_number s (number_of s (bytes_of (value_of a.now)) -ℤ number_of s (bytes_of (value_of b.now))))) }
    ensures fits { IfOk result (λ v. fits (tree_of ty.now) (value_of v) ≡ true) }
{
    of_bits(alloc, ty, bits(ty, a).wrapping_sub(bits(ty, b)))
}

/// The number of an integer or a pointer as one of another type, modulo two to that type's number of bits.
pub fn cast(alloc: Global, from: &FfiType, to: &FfiType, value: &Value) -> Result<Value, NoMemory>
    requires kind { is_number_type (tree_of to.now) ≡ true }
    requires kind_before { is_number_type (tree_of from.now) ≡ true }
    requires fits { fits (tree_of from.now) (value_of value.now) ≡ true }
    ensures value { IfOk result
        (λ v. value_of v ≡ leaf_value (bytes_of_number (scalar_of (tree_of to.now)) (number_of (scalar_of (tree_of from.now)) (bytes_of (value_of value.now))))) }
    ensures fits { IfOk result (λ v. fits (tree_of to.now) (value_of v) ≡ true) }
{
    of_bits(alloc, to, bits(from, value))
}
