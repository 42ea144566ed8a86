//! What the natives that call a closure share: their signatures, calls of the closure, and their end.
ghost use Rattle.std.specs.Prelude.{◌≡◌, ◌<◌, IfOk, length, slice_index_or, true};
ghost use Rattle.ffi3_type_spec.specs.Tree.{scalar, s64};
ghost use Rattle.ffi3_type_spec.specs.Value.{fits, void_value};
ghost use Rattle.ffi3_values.specs.ValueOf.{value_of};
ghost use Rattle.ffi3_semantics_spec.specs.Move.{MoveFits, return};
ghost use Rattle.ffi3_body.specs.MoveOf.{move_of};
ghost use Rattle.ffi3_semantics_spec.specs.SeenActivation.{arguments_of};
ghost use Rattle.ffi3_natives.specs.Natives.{call_on, calling_signatures, closure_signature, number_signature};

use ffi3_body::{Move, Seen};
use ffi3_types::{FfiType, Fields, NoMemory, Sig, Sigs};
use ffi3_values::{Value, Values, widen};
use std::alloc::Global;

/// sint64(sint64)
fn number_sig(alloc: Global) -> Result<Sig, NoMemory>
    ensures { IfOk result (λ s. s ≡ number_signature) }
{
    let mut args = Fields::new(alloc);
    args.push(FfiType::S64)?;
    Ok(Sig::new(FfiType::S64, args, None))
}

/// sint64(pointer,sint64)
fn closure_sig(alloc: Global) -> Result<Sig, NoMemory>
    ensures { IfOk result (λ s. s ≡ closure_signature) }
{
    let mut args = Fields::new(alloc);
    args.push(FfiType::Pointer)?;
    args.push(FfiType::S64)?;
    Ok(Sig::new(FfiType::S64, args, None))
}

/// The native's own signature, and the closure's.
pub(crate) fn calling_sigs(alloc: Global) -> Result<Sigs, NoMemory>
    ensures { IfOk result (λ a. a ≡ calling_signatures) }
{
    let mut sigs = Sigs::new(alloc);
    sigs.push(closure_sig(alloc)?)?;
    sigs.push(number_sig(alloc)?)?;
    Ok(sigs)
}

/// A call of the closure at argument 0 on a value.
pub(crate) fn call_on(alloc: Global, seen: &Seen, value: Value) -> Result<Move, NoMemory>
    requires own { seen.now.signature ≡ closure_signature }
    requires number { fits (scalar s64) (value_of value) ≡ true }
    ensures is { IfOk result (λ m. move_of m ≡ call_on (arguments_of seen.now) (value_of value)) }
    ensures fits { IfOk result (λ m. MoveFits calling_signatures 1 (scalar s64) (move_of m)) }
{
    let mut args = Values::new(alloc);
    args.push(value)?;
    let closure = seen.arg(alloc, 0)?;
    Ok(Move::Call {
        ptr: widen(&FfiType::Pointer, &closure),
        sig: 1,
        args,
    })
}

/// The end with result `i`.
pub(crate) fn return_result(alloc: Global, seen: &Seen, i: u32) -> Result<Move, NoMemory>
    requires there { i < length seen.now.results }
    requires number { fits (scalar s64) (slice_index_or seen.now.results i void_value) ≡ true }
    ensures is { IfOk result (λ m. move_of m ≡ return (slice_index_or seen.now.results i void_value)) }
    ensures fits { IfOk result (λ m. MoveFits calling_signatures 1 (scalar s64) (move_of m)) }
{
    Ok(Move::Return(seen.result(i).copy(alloc)?))
}
