//! A native that calls nothing.
ghost use Rattle.std.specs.Prelude.{◌≡◌, IfOk};
ghost use Rattle.ffi3_natives.specs.Natives.{numbers_signature, sum3_signatures};

use ffi3_body::{Body, Move, Native, Seen};
use ffi3_types::{FfiType, Fields, NoMemory, Sig, Sigs};
use ffi3_values::add;
use std::alloc::Global;
use std::marker::Model;

/// Returns the sum of its three arguments modulo 2^64: `sint64(sint64,sint64,sint64)`.
#[derive(Debug, Drop)]
pub struct Sum3 {
    sigs: Sigs,
}

impl Model for Sum3 {
    ghost use Rattle.std.specs.Prelude.{◌≡◌, List};
    ghost use Rattle.ffi3_type_spec.specs.Signature.{Signature, signature_list_code};
    ghost use Rattle.ffi3_natives.specs.Natives.{sum3_signatures};

    ghost Value = { List Signature };

    ghost coded = { signature_list_code };

    ghost view = { λ a. a.sigs };

    ghost invariant = { λ a. a.sigs ≡ sum3_signatures };
}

/// sint64(sint64,sint64,sint64)
fn numbers_sig(alloc: Global) -> Result<Sig, NoMemory>
    ensures { IfOk result (λ s. s ≡ numbers_signature) }
{
    let mut args = Fields::new(alloc);
    args.push(FfiType::S64)?;
    args.push(FfiType::S64)?;
    args.push(FfiType::S64)?;
    Ok(Sig::new(FfiType::S64, args, None))
}

impl Sum3 {
    /// The native. It takes memory for its signature.
    pub fn new(alloc: Global) -> Result<Sum3, NoMemory>
        ensures { IfOk result (λ a. a ≡ sum3_signatures) }
    {
        let mut sigs = Sigs::new(alloc);
        sigs.push(numbers_sig(alloc)?)?;
        Ok(Sum3 { sigs })
    }
}

impl Body for Sum3 {
    ghost use Rattle.ffi3_natives.specs.Natives.{numbers_signature, sum3_behaviour, sum3_signatures};

    ghost meaning = { λ a. sum3_behaviour };

    ghost signature = { λ a. numbers_signature };

    ghost signatures = { λ a. sum3_signatures };

    ghost functions = { λ a. 1 };

    fn next(&self, alloc: Global, seen: &Seen) -> Result<Move, NoMemory> {
        let ty = FfiType::S64;
        let first = seen.arg(alloc, 0)?;
        let second = seen.arg(alloc, 1)?;
        let third = seen.arg(alloc, 2)?;
        let both = add(alloc, &ty, &first, &second)?;
        Ok(Move::Return(add(alloc, &ty, &both, &third)?))
    }
}

impl Native for Sum3 {
    ghost use Rattle.std.specs.Prelude.{codes};

    ghost title = { λ a. codes "sum3" };

    fn name(&self) -> &str {
        "sum3"
    }

    fn sigs(&self) -> &Sigs {
        &self.sigs
    }
}
