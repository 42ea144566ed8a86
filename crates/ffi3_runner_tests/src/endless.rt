//! Natives that never return.
ghost use Rattle.std.specs.Prelude.{◌≡◌, ◌∷◌, [], IfOk};
ghost use Rattle.ffi3_runner_tests.specs.Hostile.{nothing_signature};

use ffi3_body::{Body, Move, Native, Seen};
use ffi3_types::{FfiType, Fields, NoMemory, Sig, Sigs};
use ffi3_values::integer;
use std::alloc::Global;
use std::marker::Model;

/// void(), alone
fn nothing_sigs(alloc: Global) -> Result<Sigs, NoMemory>
    ensures { IfOk result (λ a. a ≡ nothing_signature ∷ []) }
{
    let mut sigs = Sigs::new(alloc);
    sigs.push(Sig::new(FfiType::Void, Fields::new(alloc), None))?;
    Ok(sigs)
}

/// Makes closures of itself: `void()`.
#[derive(Debug, Drop)]
pub struct Flood {
    sigs: Sigs,
}

impl Model for Flood {
    ghost use Rattle.std.specs.Prelude.{◌≡◌, ◌∷◌, [], List};
    ghost use Rattle.ffi3_type_spec.specs.Signature.{Signature, signature_list_code};
    ghost use Rattle.ffi3_runner_tests.specs.Hostile.{nothing_signature};

    ghost Value = { List Signature };

    ghost coded = { signature_list_code };

    ghost view = { λ a. a.sigs };

    ghost invariant = { λ a. a.sigs ≡ nothing_signature ∷ [] };
}

impl Flood {
    /// The native. It takes memory for its signature.
    pub fn new(alloc: Global) -> Result<Flood, NoMemory>
        ensures { IfOk result (λ a. a ≡ nothing_signature ∷ []) }
    {
        Ok(Flood {
            sigs: nothing_sigs(alloc)?,
        })
    }
}

impl Body for Flood {
    ghost use Rattle.std.specs.Prelude.{◌∷◌, []};
    ghost use Rattle.ffi3_runner_tests.specs.Hostile.{flood_behaviour, nothing_signature};

    ghost meaning = { λ a. flood_behaviour };

    ghost signature = { λ a. nothing_signature };

    ghost signatures = { λ a. nothing_signature ∷ [] };

    ghost functions = { λ a. 1 };

    fn next(&self, _alloc: Global, _seen: &Seen) -> Result<Move, NoMemory> {
        Ok(Move::Make { func: 0, user: 0 })
    }
}

impl Native for Flood {
    ghost use Rattle.std.specs.Prelude.{codes};

    ghost title = { λ a. codes "flood" };

    fn name(&self) -> &str {
        "flood"
    }

    fn sigs(&self) -> &Sigs {
        &self.sigs
    }
}

/// Prints 1 as a sint8: `void()`.
#[derive(Debug, Drop)]
pub struct Talker {
    sigs: Sigs,
}

impl Model for Talker {
    ghost use Rattle.std.specs.Prelude.{◌≡◌, ◌∷◌, [], List};
    ghost use Rattle.ffi3_type_spec.specs.Signature.{Signature, signature_list_code};
    ghost use Rattle.ffi3_runner_tests.specs.Hostile.{nothing_signature};

    ghost Value = { List Signature };

    ghost coded = { signature_list_code };

    ghost view = { λ a. a.sigs };

    ghost invariant = { λ a. a.sigs ≡ nothing_signature ∷ [] };
}

impl Talker {
    /// The native. It takes memory for its signature.
    pub fn new(alloc: Global) -> Result<Talker, NoMemory>
        ensures { IfOk result (λ a. a ≡ nothing_signature ∷ []) }
    {
        Ok(Talker {
            sigs: nothing_sigs(alloc)?,
        })
    }
}

impl Body for Talker {
    ghost use Rattle.std.specs.Prelude.{◌∷◌, []};
    ghost use Rattle.ffi3_runner_tests.specs.Hostile.{nothing_signature, talker_behaviour};

    ghost meaning = { λ a. talker_behaviour };

    ghost signature = { λ a. nothing_signature };

    ghost signatures = { λ a. nothing_signature ∷ [] };

    ghost functions = { λ a. 1 };

    fn next(&self, alloc: Global, _seen: &Seen) -> Result<Move, NoMemory> {
        let value = integer(alloc, &FfiType::S8, 1)?;
        Ok(Move::Print {
            ty: FfiType::S8,
            value,
        })
    }
}

impl Native for Talker {
    ghost use Rattle.std.specs.Prelude.{codes};

    ghost title = { λ a. codes "talker" };

    fn name(&self) -> &str {
        "talker"
    }

    fn sigs(&self) -> &Sigs {
        &self.sigs
    }
}
