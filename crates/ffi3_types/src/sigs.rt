//! Lists of signatures.
ghost use Rattle.std.specs.Prelude.{◌≡◌, ◌+◌, ◌<◌, ◌^◌, ◌++◌, ◌∷◌, [], length, OnErr, OnOk};
ghost use Rattle.ffi3_type_spec.specs.Signature.{signature_at};

use crate::{NoMemory, Sig};
use std::alloc::Global;
use std::marker::Model;

/// A list of signatures.
#[derive(Debug, Drop)]
pub struct Sigs {
    sigs: Vec<Sig>,
}

impl Model for Sigs {
    ghost use Rattle.std.specs.Prelude.{List, length, ◌<◌, ◌^◌};
    ghost use Rattle.ffi3_type_spec.specs.Signature.{Signature, signature_list_code};

    ghost Value = { List Signature };

    ghost coded = { signature_list_code };

    ghost view = { λ a. a.sigs.items };

    ghost invariant = { λ a. length a.sigs.items < 2 ^ 32 };
}

impl Sigs {
    /// No signatures.
    pub fn new(alloc: Global) -> Sigs
        ensures { result ≡ [] }
    {
        Sigs {
            sigs: Vec::new(alloc),
        }
    }

    /// How many signatures there are.
    pub fn len(&self) -> usize
        ensures count { result ≡ length self.now }
        ensures bound { length self.now < 2 ^ 32 }
    {
        self.sigs.len()
    }

    /// One more signature. Refused, it drops the signature and leaves the list as it was.
    pub fn push(&mut self, item: Sig) -> Result<(), NoMemory>
        requires { length self.old + 1 < 2 ^ 32 }
        ensures ok { OnOk result (self.new ≡ self.old ++ item ∷ []) }
        ensures err { OnErr result (self.new ≡ self.old) }
    {
        self.sigs.push(item)?;
        Ok(())
    }

    /// Signature `i`.
    pub fn get(&self, i: usize) -> &Sig
        requires { i < length self.now }
        ensures { result.now ≡ signature_at self.now i }
    {
        &self.sigs[i]
    }
}
