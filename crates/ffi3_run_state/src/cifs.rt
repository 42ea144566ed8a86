//! The call interfaces of a run.
ghost use Rattle.std.specs.Prelude.{◌≡◌, ◌+◌, ◌<◌, ◌^◌, ◌++◌, ◌∷◌, [], length, OnErr, OnOk};
ghost use Rattle.ffi3_type_spec.specs.Signature.{signature_at};

use ffi3_cif::Cif;
use ffi3_place::Abi;
use ffi3_types::NoMemory;
use std::alloc::Global;
use std::marker::Model;

/// A prepared call interface for each signature of a run, by its number. Contracts see the
/// signatures.
#[derive(Drop)]
pub struct Cifs<A: Abi> {
    cifs: Vec<Cif<A>>,
}

impl<A: Abi> Model for Cifs<A> {
    ghost use Rattle.std.specs.Prelude.{List, length, ◌<◌, ◌^◌};
    ghost use Rattle.ffi3_type_spec.specs.Signature.{Signature, signature_list_code};

    ghost Value = { List Signature };

    ghost coded = { signature_list_code };

    ghost view = { λ a. a.cifs.items };

    ghost invariant = { λ a. length a.cifs.items < 2 ^ 32 };
}

impl<A: Abi> Cifs<A> {
    /// No interfaces.
    pub fn new(alloc: Global) -> Cifs<A>
        ensures { result ≡ [] }
    {
        Cifs {
            cifs: Vec::new(alloc),
        }
    }

    /// How many there are.
    pub fn len(&self) -> u32
        ensures count { result ≡ length self.now }
        ensures bound { length self.now < 2 ^ 32 }
    {
        self.cifs.len() as u32
    }

    /// One more. Refused, it leaves the list as it was.
    pub fn push(&mut self, item: Cif<A>) -> Result<(), NoMemory>
        requires { length self.old + 1 < 2 ^ 32 }
        ensures ok { OnOk result (self.new ≡ self.old ++ item ∷ []) }
        ensures err { OnErr result (self.new ≡ self.old) }
    {
        self.cifs.push(item)?;
        Ok(())
    }

    /// The interface of signature `number`.
    pub fn get(&self, number: u32) -> &Cif<A>
        requires { number < length self.now }
        ensures { result.now ≡ signature_at self.now number }
    {
        &self.cifs[number as usize]
    }
}
