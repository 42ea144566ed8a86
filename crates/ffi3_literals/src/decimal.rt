//! Integers of 128 bits, as texts in decimal.
ghost use Rattle.std.specs.Prelude.{◌≡◌, ◌<◌, IfOk, IfErr, length, drop, true, Some, pos, neg_ℤ};
ghost use Rattle.std.specs.Str.{all_ascii_digits};
ghost use Rattle.ffi3_type_spec.specs.Integer.{scalar_of, is_signed};
ghost use Rattle.ffi3_types.specs.TreeOf.{tree_of};
ghost use Rattle.ffi3_script_spec.specs.Language.{read, fault};
ghost use Rattle.ffi3_script_spec.specs.Values.{is_counting, is_plain_number, is_negative_number, number_written};
ghost use Rattle.ffi3_script_spec.specs.Values.{integer_written, in_range, read_integer, read_written, is_wide_type};
ghost use Rattle.ffi3_json.specs.Reports.{Reports};
ghost use Rattle.ffi3_script_body.specs.ExprOf.{expression_of};

use ffi3_json::{JsonPath, Reason, ScriptFault, bad};
use ffi3_script_body::Expr;
use ffi3_types::FfiType;
use ffi3_values::{Value, integer, of_bits};
use std::alloc::Global;

/// Whether each byte is a decimal digit.
fn are_digits(bytes: &[u8]) -> bool
    ensures { result ≡ all_ascii_digits bytes.now }
{
    for byte in bytes {
        if !byte.is_ascii_digit() {
            return false;
        }
    }
    true
}

/// Decimal digits, the first of them not 0.
fn is_counting(bytes: &[u8]) -> bool
    ensures { result ≡ is_counting bytes.now }
{
    if bytes.is_empty() {
        return false;
    }
    b'1' <= bytes[0] && bytes[0] <= b'9' && are_digits(&bytes[1..])
}

/// 0, or digits that don't begin with 0.
fn is_plain_number(text: &str) -> bool
    ensures { result ≡ is_plain_number text.now }
{
    text == "0" || is_counting(text.as_bytes())
}

/// Digits that don't begin with 0, after `-`.
fn is_negative_number(text: &str) -> bool
    ensures { result ≡ is_negative_number text.now }
{
    let bytes = text.as_bytes();
    if bytes.is_empty() || bytes[0] != b'-' {
        return false;
    }
    is_counting(&bytes[1..])
}

/// Whether an integer of 128 bits of this type can be a number below 0.
fn is_signed(ty: &FfiType) -> bool
    requires { is_wide_type (tree_of ty.now) ≡ true }
    ensures { result ≡ is_signed (scalar_of (tree_of ty.now)) }
{
    match ty {
        FfiType::S128 => true,
        _ => false,
    }
}

/// Whether an integer of 128 bits of this type can be the number.
fn is_within(ty: &FfiType, n: u128) -> bool
    requires { is_wide_type (tree_of ty.now) ≡ true }
    ensures { result ≡ in_range (scalar_of (tree_of ty.now)) (pos n) }
{
    match ty {
        FfiType::S128 => n < 0x8000_0000_0000_0000_0000_0000_0000_0000,
        _ => true,
    }
}

/// The number of an integer of 128 bits that digits write.
fn read_plain(alloc: Global, ty: &FfiType, text: &str, at: &JsonPath) -> Result<Expr, ScriptFault>
    requires wide { is_wide_type (tree_of ty.now) ≡ true }
    requires some { 0 < length text.now }
    requires digits { all_ascii_digits text.now ≡ true }
    ensures ok { IfOk result
        (λ e. read_integer (scalar_of (tree_of ty.now)) (Some (pos (number_written text.now))) at.now
        ≡ read (expression_of e)) }
    ensures err { IfErr result
        (Reports (λ p r. read_integer (scalar_of (tree_of ty.now)) (Some (pos (number_written text.now))) at.now
        ≡ fault p r)) }
{
    match u128::from_str_radix(text, 10) {
        Ok(n) => {
            if !is_within(ty, n) {
                return Err(bad(alloc, at, Reason::OutOfRange));
            }
            match of_bits(alloc, ty, n)? {
                Value::Leaf(bytes) => Ok(Expr::Constant(bytes)),
                _ => unreachable!(),
            }
        }
        Err(_) => Err(bad(alloc, at, Reason::OutOfRange)),
    }
}

/// The number below 0 of an integer of 128 bits that a text writes.
fn read_negative(
    alloc: Global,
    ty: &FfiType,
    text: &str,
    at: &JsonPath,
) -> Result<Expr, ScriptFault>
    requires wide { is_wide_type (tree_of ty.now) ≡ true }
    requires negative { is_negative_number text.now ≡ true }
    ensures ok { IfOk result
        (λ e. read_integer (scalar_of (tree_of ty.now)) (Some (neg_ℤ (pos (number_written (drop 1 text.now))))) at.now
        ≡ read (expression_of e)) }
    ensures err { IfErr result
        (Reports (λ p r. read_integer (scalar_of (tree_of ty.now))
        (Some (neg_ℤ (pos (number_written (drop 1 text.now))))) at.now ≡ fault p r)) }
{
    if !is_signed(ty) {
        return Err(bad(alloc, at, Reason::OutOfRange));
    }
    match i128::from_str_radix(text, 10) {
        Ok(n) => match integer(alloc, ty, n)? {
            Value::Leaf(bytes) => Ok(Expr::Constant(bytes)),
            _ => unreachable!(),
        },
        Err(_) => Err(bad(alloc, at, Reason::OutOfRange)),
    }
}

/// The integer of 128 bits that a text writes: 0, or digits that don't begin with 0, after `-` where it is negative.
pub(crate) fn read_decimal(
    alloc: Global,
    ty: &FfiType,
    text: &str,
    at: &JsonPath,
) -> Result<Expr, ScriptFault>
    requires { is_wide_type (tree_of ty.now) ≡ true }
    ensures ok { IfOk result
        (λ e. read_written (scalar_of (tree_of ty.now)) (integer_written text.now) at.now ≡ read (expression_of e)) }
    ensures err { IfErr result
        (Reports (λ p r. read_written (scalar_of (tree_of ty.now)) (integer_written text.now) at.now ≡ fault p r)) }
{
    if is_plain_number(text) {
        return read_plain(alloc, ty, text, at);
    }
    if is_negative_number(text) {
        return read_negative(alloc, ty, text, at);
    }
    Err(bad(alloc, at, Reason::BadInteger))
}
