//! A native that calls a closure once.
ghost use Rattle.std.specs.Prelude.{◌≡◌, IfOk};
ghost use Rattle.ffi3_natives.specs.Natives.{calling_signatures};

use crate::calling::{call_on, calling_sigs, return_result};
use ffi3_body::{Body, Move, Native, Seen};
use ffi3_types::{NoMemory, Sigs};
use std::alloc::Global;
use std::marker::Model;

/// Calls the closure at its first argument on the second one, and returns the result:
/// `sint64(pointer,sint64)`. The closure is called as `sint64(sint64)`.
#[derive(Debug, Drop)]
pub struct Apply {
    sigs: Sigs,
}

impl Model for Apply {
    ghost use Rattle.std.specs.Prelude.{◌≡◌, List};
    ghost use Rattle.ffi3_type_spec.specs.Signature.{Signature, signature_list_code};
    ghost use Rattle.ffi3_natives.specs.Natives.{calling_signatures};

    ghost Value = { List Signature };

    ghost coded = { signature_list_code };

    ghost view = { λ a. a.sigs };

    ghost invariant = { λ a. a.sigs ≡ calling_signatures };
}

impl Apply {
    /// The native. It takes memory for its signatures.
    pub fn new(alloc: Global) -> Result<Apply, NoMemory>
        ensures { IfOk result (λ a. a ≡ calling_signatures) }
    {
        Ok(Apply {
            sigs: calling_sigs(alloc)?,
        })
    }
}

impl Body for Apply {
    ghost use Rattle.ffi3_natives.specs.Natives.{calling_signatures, closure_signature, apply_behaviour};

    ghost meaning = { λ a. apply_behaviour };

    ghost signature = { λ a. closure_signature };

    ghost signatures = { λ a. calling_signatures };

    ghost functions = { λ a. 1 };

    fn next(&self, alloc: Global, seen: &Seen) -> Result<Move, NoMemory> {
        if seen.results() == 0 {
            return call_on(alloc, seen, seen.arg(alloc, 1)?);
        }
        return_result(alloc, seen, 0)
    }
}

impl Native for Apply {
    ghost use Rattle.std.specs.Prelude.{codes};

    ghost title = { λ a. codes "apply" };

    fn name(&self) -> &str {
        "apply"
    }

    fn sigs(&self) -> &Sigs {
        &self.sigs
    }
}
