//! A native that calls itself by the closure that it is handed.
ghost use Rattle.std.specs.Prelude.{◌≡◌, ◌<◌, ◌∷◌, [], IfOk, true};
ghost use Rattle.ffi3_type_spec.specs.Tree.{scalar, s64};
ghost use Rattle.ffi3_type_spec.specs.Value.{fits};
ghost use Rattle.ffi3_values.specs.ValueOf.{value_of};
ghost use Rattle.ffi3_semantics_spec.specs.Move.{MoveFits};
ghost use Rattle.ffi3_body.specs.MoveOf.{move_of};
ghost use Rattle.ffi3_semantics_spec.specs.SeenActivation.{arguments_of};
ghost use Rattle.ffi3_runner_tests.specs.Hostile.{again_signature, once_less, plus};

use ffi3_body::{Body, Move, Native, Seen};
use ffi3_types::{FfiType, Fields, NoMemory, Sig, Sigs};
use ffi3_values::{Value, Values, add, integer, widen};
use std::alloc::Global;
use std::marker::Model;

/// On a number other than 0 it calls argument 0 with itself and one less, and returns one more than the result:
/// `sint64(pointer,sint64)`.
#[derive(Debug, Drop)]
pub struct Again {
    sigs: Sigs,
}

impl Model for Again {
    ghost use Rattle.std.specs.Prelude.{◌≡◌, ◌∷◌, [], List};
    ghost use Rattle.ffi3_type_spec.specs.Signature.{Signature, signature_list_code};
    ghost use Rattle.ffi3_runner_tests.specs.Hostile.{again_signature};

    ghost Value = { List Signature };

    ghost coded = { signature_list_code };

    ghost view = { λ a. a.sigs };

    ghost invariant = { λ a. a.sigs ≡ again_signature ∷ [] };
}

/// sint64(pointer,sint64)
fn again_sig(alloc: Global) -> Result<Sig, NoMemory>
    ensures { IfOk result (λ s. s ≡ again_signature) }
{
    let mut args = Fields::new(alloc);
    args.push(FfiType::Pointer)?;
    args.push(FfiType::S64)?;
    Ok(Sig::new(FfiType::S64, args, None))
}

impl Again {
    /// The native. It takes memory for its signature.
    pub fn new(alloc: Global) -> Result<Again, NoMemory>
        ensures { IfOk result (λ a. a ≡ again_signature ∷ []) }
    {
        let mut sigs = Sigs::new(alloc);
        sigs.push(again_sig(alloc)?)?;
        Ok(Again { sigs })
    }
}

/// One sint64 and a number.
fn plus(alloc: Global, value: &Value, n: i128) -> Result<Value, NoMemory>
    requires { fits (scalar s64) (value_of value.now) ≡ true }
    ensures is { IfOk result (λ v. value_of v ≡ plus (value_of value.now) n) }
    ensures fits { IfOk result (λ v. fits (scalar s64) (value_of v) ≡ true) }
{
    let other = integer(alloc, &FfiType::S64, n)?;
    add(alloc, &FfiType::S64, value, &other)
}

/// The call of argument 0 with itself and one less than argument 1.
fn once_less(alloc: Global, seen: &Seen) -> Result<Move, NoMemory>
    requires { seen.now.signature ≡ again_signature }
    ensures is { IfOk result (λ m. move_of m ≡ once_less (arguments_of seen.now)) }
    ensures fits { IfOk result (λ m. MoveFits (again_signature ∷ []) 1 (scalar s64) (move_of m)) }
{
    let closure = seen.arg(alloc, 0)?;
    let ptr = widen(&FfiType::Pointer, &closure);
    let less = plus(alloc, &seen.arg(alloc, 1)?, -1)?;
    let mut args = Values::new(alloc);
    args.push(closure)?;
    args.push(less)?;
    Ok(Move::Call { ptr, sig: 0, args })
}

impl Body for Again {
    ghost use Rattle.std.specs.Prelude.{◌∷◌, []};
    ghost use Rattle.ffi3_runner_tests.specs.Hostile.{again_behaviour, again_signature};

    ghost meaning = { λ a. again_behaviour };

    ghost signature = { λ a. again_signature };

    ghost signatures = { λ a. again_signature ∷ [] };

    ghost functions = { λ a. 1 };

    fn next(&self, alloc: Global, seen: &Seen) -> Result<Move, NoMemory> {
        if seen.results() == 0 {
            let n = seen.arg(alloc, 1)?;
            if widen(&FfiType::S64, &n) == 0 {
                return Ok(Move::Return(n));
            }
            return once_less(alloc, seen);
        }
        Ok(Move::Return(plus(alloc, seen.result(0), 1)?))
    }
}

impl Native for Again {
    ghost use Rattle.std.specs.Prelude.{codes};

    ghost title = { λ a. codes "again" };

    fn name(&self) -> &str {
        "again"
    }

    fn sigs(&self) -> &Sigs {
        &self.sigs
    }
}
