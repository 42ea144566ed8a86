//! Addresses and conditions of a body's moves.
ghost use Rattle.std.specs.Prelude.{◌≡◌, true, IfOk, option_map};
ghost use Rattle.ffi3_type_spec.specs.Tree.{scalar, pointer};
ghost use Rattle.ffi3_script_spec.specs.Meaning as meaning;
ghost use Rattle.ffi3_script_spec.specs.Typed.{has_type, is_condition};
ghost use Rattle.ffi3_script_body.specs.ExprOf.{expression_of, typed_of};
ghost use Rattle.ffi3_script_body.specs.KnownAt.{kinds_of, known_of};

use crate::eval::eval;
use crate::known::Known;
use crate::{Expr, NoMemory, TypedExpr};
use ffi3_types::FfiType;
use ffi3_values::{bits, widen};
use std::alloc::Global;

/// The address that a pointer is.
pub(crate) fn address(alloc: Global, known: &Known, to: &Expr) -> Result<u64, NoMemory>
    requires { has_type (kinds_of known.now) (scalar pointer) (expression_of to.now) ≡ true }
    ensures { IfOk result (λ n. n ≡ meaning.address_of (known_of known.now) (expression_of to.now)) }
{
    let value = eval(alloc, known, &FfiType::Pointer, to)?;
    Ok(widen(&FfiType::Pointer, &value))
}

/// Whether a move of this condition is done: it is not, where the condition is 0.
pub(crate) fn is_done(
    alloc: Global,
    known: &Known,
    condition: &Option<TypedExpr>,
) -> Result<bool, NoMemory>
    requires { is_condition (kinds_of known.now) (option_map typed_of condition.now) ≡ true }
    ensures { IfOk result (λ b. b ≡ meaning.is_done (known_of known.now) (option_map typed_of condition.now)) }
{
    let Some(condition) = condition else {
        return Ok(true);
    };
    let value = eval(alloc, known, &condition.ty, &condition.value)?;
    Ok(bits(&condition.ty, &value) != 0)
}

/// The same, where this may be known already.
pub(crate) fn is_ready(
    alloc: Global,
    ready: bool,
    known: &Known,
    condition: &Option<TypedExpr>,
) -> Result<bool, NoMemory>
    requires typed { is_condition (kinds_of known.now) (option_map typed_of condition.now) ≡ true }
    requires done { ready ≡ true → meaning.is_done (known_of known.now) (option_map typed_of condition.now) ≡ true }
    ensures { IfOk result (λ b. b ≡ meaning.is_done (known_of known.now) (option_map typed_of condition.now)) }
{
    if ready {
        return Ok(true);
    }
    is_done(alloc, known, condition)
}
