//! A native that frees the closure that it is handed.
ghost use Rattle.std.specs.Prelude.{◌≡◌, ◌∷◌, [], IfOk};
ghost use Rattle.ffi3_runner_tests.specs.Hostile.{drop_signature};

use ffi3_body::{Body, Move, Native, Seen};
use ffi3_types::{FfiType, Fields, NoMemory, Sig, Sigs};
use ffi3_values::{integer, widen};
use std::alloc::Global;
use std::marker::Model;

/// Frees argument 0 and returns 5: `sint64(pointer)`.
#[derive(Debug, Drop)]
pub struct DropSelf {
    sigs: Sigs,
}

impl Model for DropSelf {
    ghost use Rattle.std.specs.Prelude.{◌≡◌, ◌∷◌, [], List};
    ghost use Rattle.ffi3_type_spec.specs.Signature.{Signature, signature_list_code};
    ghost use Rattle.ffi3_runner_tests.specs.Hostile.{drop_signature};

    ghost Value = { List Signature };

    ghost coded = { signature_list_code };

    ghost view = { λ a. a.sigs };

    ghost invariant = { λ a. a.sigs ≡ drop_signature ∷ [] };
}

/// sint64(pointer)
fn drop_sig(alloc: Global) -> Result<Sig, NoMemory>
    ensures { IfOk result (λ s. s ≡ drop_signature) }
{
    let mut args = Fields::new(alloc);
    args.push(FfiType::Pointer)?;
    Ok(Sig::new(FfiType::S64, args, None))
}

impl DropSelf {
    /// The native. It takes memory for its signature.
    pub fn new(alloc: Global) -> Result<DropSelf, NoMemory>
        ensures { IfOk result (λ a. a ≡ drop_signature ∷ []) }
    {
        let mut sigs = Sigs::new(alloc);
        sigs.push(drop_sig(alloc)?)?;
        Ok(DropSelf { sigs })
    }
}

impl Body for DropSelf {
    ghost use Rattle.std.specs.Prelude.{◌∷◌, []};
    ghost use Rattle.ffi3_runner_tests.specs.Hostile.{drop_behaviour, drop_signature};

    ghost meaning = { λ a. drop_behaviour };

    ghost signature = { λ a. drop_signature };

    ghost signatures = { λ a. drop_signature ∷ [] };

    ghost functions = { λ a. 1 };

    fn next(&self, alloc: Global, seen: &Seen) -> Result<Move, NoMemory> {
        if seen.results() == 0 {
            let closure = seen.arg(alloc, 0)?;
            return Ok(Move::Free {
                ptr: widen(&FfiType::Pointer, &closure),
            });
        }
        Ok(Move::Return(integer(alloc, &FfiType::S64, 5)?))
    }
}

impl Native for DropSelf {
    ghost use Rattle.std.specs.Prelude.{codes};

    ghost title = { λ a. codes "drop_self" };

    fn name(&self) -> &str {
        "drop_self"
    }

    fn sigs(&self) -> &Sigs {
        &self.sigs
    }
}
