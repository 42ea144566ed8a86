//! Reads a number or text of a script as a constant of a type.
#![tactic(auto)]

ghost use Rattle.std.specs.Prelude.{◌≡◌, IfOk, IfErr, true};
ghost use Rattle.serde_json.specs.View.{number_view};
ghost use Rattle.ffi3_type_spec.specs.Integer.{is_number_type, scalar_of};
ghost use Rattle.ffi3_types.specs.TreeOf.{tree_of};
ghost use Rattle.ffi3_script_spec.specs.Language.{read, fault};
ghost use Rattle.ffi3_script_spec.specs.Values.{in_range, read_number, read_text};
ghost use Rattle.ffi3_json.specs.Reports.{Reports};
ghost use Rattle.ffi3_script_body.specs.ExprOf.{expression_of};

mod decimal;

use crate::decimal::read_decimal;
use ffi3_json::{JsonPath, Reason, ScriptFault, bad};
use ffi3_script_body::Expr;
use ffi3_types::{Bytes, FfiType};
use ffi3_values::{Value, integer};
use hex::FromHex;
use serde_json::Number;
use std::alloc::Global;

/// Whether an integer or pointer of the type can be the number.
fn in_range(ty: &FfiType, n: i128) -> bool
    requires { is_number_type (tree_of ty.now) ≡ true }
    ensures { result ≡ in_range (scalar_of (tree_of ty.now)) n }
{
    let (low, end) = match ty {
        FfiType::U8 => (0, 0x100),
        FfiType::S8 => (-0x80, 0x80),
        FfiType::U16 => (0, 0x1_0000),
        FfiType::S16 => (-0x8000, 0x8000),
        FfiType::U32 => (0, 0x1_0000_0000),
        FfiType::S32 => (-0x8000_0000, 0x8000_0000),
        FfiType::S64 => (-0x8000_0000_0000_0000, 0x8000_0000_0000_0000),
        FfiType::U128 => return 0 <= n,
        FfiType::S128 => return true,
        _ => (0, 0x1_0000_0000_0000_0000),
    };
    low <= n && n < end
}

/// A number is that of an integer or a pointer.
pub fn read_number(
    alloc: Global,
    ty: &FfiType,
    n: &Number,
    at: &JsonPath,
) -> Result<Expr, ScriptFault>
    ensures ok { IfOk result (λ e. read_number (tree_of ty.now) (number_view n.now) at.now ≡ read (expression_of e)) }
    ensures err { IfErr result (Reports (λ p r. read_number (tree_of ty.now) (number_view n.now) at.now ≡ fault p r)) }
{
    if !ty.is_number() {
        return Err(bad(alloc, at, Reason::WrongType));
    }
    let Some(n) = n.as_i128() else {
        return Err(bad(alloc, at, Reason::NotAnInteger));
    };
    if !in_range(ty, n) {
        return Err(bad(alloc, at, Reason::OutOfRange));
    }
    match integer(alloc, ty, n)? {
        Value::Leaf(bytes) => Ok(Expr::Constant(bytes)),
        _ => unreachable!(),
    }
}

/// A text is an integer of 128 bits in decimal, or the bytes of a float or double in memory order, two hexadecimal
/// digits each.
pub fn read_text(
    alloc: Global,
    ty: &FfiType,
    text: &str,
    at: &JsonPath,
) -> Result<Expr, ScriptFault>
    ensures ok { IfOk result (λ e. read_text (tree_of ty.now) text.now at.now ≡ read (expression_of e)) }
    ensures err { IfErr result (Reports (λ p r. read_text (tree_of ty.now) text.now at.now ≡ fault p r)) }
{
    match ty {
        FfiType::Float => match <[u8; 4] as FromHex>::from_hex(text) {
            Ok(bytes) => Ok(Expr::Constant(Bytes::from_slice(alloc, &bytes)?)),
            Err(_) => Err(bad(alloc, at, Reason::BadBytes)),
        },
        FfiType::Double => match <[u8; 8] as FromHex>::from_hex(text) {
            Ok(bytes) => Ok(Expr::Constant(Bytes::from_slice(alloc, &bytes)?)),
            Err(_) => Err(bad(alloc, at, Reason::BadBytes)),
        },
        FfiType::U128 | FfiType::S128 => read_decimal(alloc, ty, text, at),
        _ => Err(bad(alloc, at, Reason::WrongType)),
    }
}
