//! A function as it is declared.
ghost use Rattle.std.specs.Prelude.{◌≡◌, IfOk};
ghost use Rattle.ffi3_cdecl_spec.specs.ReadingFor.{resolved_declaration};

use ffi3_format::{Format, resolve};
use ffi3_types::{Bytes, NoMemory, Sig};
use std::alloc::Global;
use std::marker::Model;

/// A function as it is declared: its name and its signature.
#[derive(Debug, Drop)]
pub struct Declaration {
    name: Bytes,
    sig: Sig,
}

impl Model for Declaration {
    ghost use Rattle.ffi3_cdecl_spec.specs.Grammar as grammar;

    ghost Value = { grammar.Declaration };

    ghost coded = { grammar.declaration_code };

    ghost view = { λ d. record { called = d.name; signature = d.sig } };
}

impl Declaration {
    /// A function of this name and signature.
    pub(crate) fn new(name: Bytes, sig: Sig) -> Declaration
        ensures { result ≡ record { called = name; signature = sig } }
    {
        Declaration { name, sig }
    }

    /// The same function, whose long doubles have this format.
    pub(crate) fn resolved(self, alloc: Global, format: Format) -> Result<Declaration, NoMemory>
        ensures { IfOk result (λ d. d ≡ resolved_declaration format self) }
    {
        let Declaration { name, sig } = self;
        let sig = resolve(alloc, format, sig)?;
        Ok(Declaration { name, sig })
    }

    /// The function's name.
    pub fn name(&self) -> &[u8]
        ensures { result.now ≡ self.now.called }
    {
        self.name.as_slice()
    }

    /// The function's signature.
    pub fn sig(&self) -> &Sig
        ensures { result.now ≡ self.now.signature }
    {
        &self.sig
    }

    /// The signature alone.
    pub fn into_sig(self) -> Sig
        ensures { result ≡ self.signature }
    {
        let Declaration { name: _, sig } = self;
        sig
    }
}
