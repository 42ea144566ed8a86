//! Call interfaces: a signature and where a standard puts its values, worked out once for all calls.
#![tactic(auto)]

ghost use Rattle.std.specs.Prelude.{◌≡◌, ◌<◌, length, IfOk, IfErr, IsSomeAnd, None, Some, slice_get};
ghost use Rattle.ffi3_type_spec.specs.Signature.{SignatureHasNoFault};
ghost use Rattle.ffi3_types.specs.TreeOf.{tree_of};
ghost use Rattle.ffi3_place_spec.specs.Standard.{plan_of};
ghost use Rattle.ffi3_cif.specs.Prepared.{IsPrepRefusal};
ghost use Rattle.ffi3_cif.specs.Runs.{AreRunsOf, pieces_of};

mod placed;
mod runs;

use ffi3_place::{Abi, Place, Res};
use ffi3_types::{CheckedSig, FfiType, Fields, NoMemory, Sig, SigFault, check_sig};
pub use placed::Placed;
pub use runs::{Run, Runs};
use std::alloc::Global;
use std::marker::Model;
use thiserror::Error;

/// Why a call interface is not prepared: the signature's first fault, or, where it has none, want of memory. (libffi's FFI_BAD_TYPEDEF and FFI_BAD_ARGTYPE are in the first)
#[derive(Debug, Drop, Error)]
pub enum PrepFault {
    #[error("{0}")]
    Sig(SigFault),
    #[error("out of memory")]
    NoMemory,
}

/// A signature without fault and its plan by the standard `A` (libffi's `ffi_cif`). Contracts see the signature.
#[derive(Drop)]
pub struct Cif<A: Abi> {
    placed: Placed<A>,
}

impl<A: Abi> Model for Cif<A> {
    ghost use Rattle.ffi3_type_spec.specs.Signature.{Signature, signature_code, SignatureHasNoFault};

    ghost Value = { Signature };

    ghost coded = { signature_code };

    ghost view = { λ c. c.placed };

    ghost invariant = { λ c. SignatureHasNoFault c.placed };
}

impl<A: Abi> Cif<A> {
    /// Prepares calls by a signature that has no fault.
    pub fn prepare(alloc: Global, sig: Sig) -> Result<Cif<A>, NoMemory>
        requires { SignatureHasNoFault sig }
        ensures { IfOk result (λ c. c ≡ sig) }
    {
        Ok(Cif {
            placed: Placed::prepare(alloc, sig)?,
        })
    }

    /// Prepares calls by a copy of a signature that has no fault.
    pub fn prepare_copy(alloc: Global, sig: &CheckedSig<'_>) -> Result<Cif<A>, NoMemory>
        ensures { IfOk result (λ c. c ≡ sig.now) }
    {
        Cif::prepare(alloc, sig.as_sig().copy(alloc)?)
    }

    /// The signature.
    pub fn sig(&self) -> &Sig
        ensures value { result.now ≡ self.now }
        ensures faultless { SignatureHasNoFault self.now }
    {
        self.placed.sig()
    }

    /// The same signature and plan: what can be called can be placed.
    pub fn placed(&self) -> &Placed<A>
        ensures { result.now ≡ self.now }
    {
        &self.placed
    }

    /// The signature, as one of which it is known that it has no fault.
    pub fn checked_sig(&self) -> CheckedSig<'_>
        ensures value { result ≡ self.now }
        ensures faultless { SignatureHasNoFault self.now }
    {
        CheckedSig::of(self.placed.sig())
    }

    /// All the stack that a call takes, in bytes.
    pub fn need(&self) -> u64
        ensures { result ≡ (plan_of A.standard self.now).need }
    {
        self.placed.need()
    }

    /// The bytes of stack arguments, copies and a hidden result's buffer.
    pub fn frame(&self) -> u64
        ensures { result ≡ (plan_of A.standard self.now).frame }
    {
        self.placed.frame()
    }

    /// The bytes of the callee's copy of its arguments.
    pub fn block(&self) -> u64
        ensures { result ≡ (plan_of A.standard self.now).block }
    {
        self.placed.block()
    }

    /// Where argument `i` stands.
    pub fn place(&self, i: u32) -> &Place
        requires { i < length self.now.arguments }
        ensures { slice_get (plan_of A.standard self.now).places i ≡ Some result.now }
    {
        self.placed.place(i)
    }

    /// The bytes of argument `i` that stand on the stack, in as few runs as they make, which rise. An argument by reference has none.
    pub fn runs(&self, i: u32) -> &Runs
        requires { i < length self.now.arguments }
        ensures { IsSomeAnd (slice_get (plan_of A.standard self.now).places i) (λ p. AreRunsOf (pieces_of p) result.now) }
    {
        self.placed.runs(i)
    }

    /// Where the result stands.
    pub fn result_place(&self) -> &Res
        ensures { result.now ≡ (plan_of A.standard self.now).res }
    {
        self.placed.result_place()
    }

    /// How many vector registers the arguments use, where the standard tells it at a call; otherwise 0.
    pub fn vectors(&self) -> u8
        ensures { result ≡ (plan_of A.standard self.now).vectors }
    {
        self.placed.vectors()
    }
}

/// Memory is looked for only where the signature has no fault.
fn checked<A: Abi>(alloc: Global, sig: Sig) -> Result<Cif<A>, PrepFault>
    ensures ok { IfOk result (λ c. c ≡ sig) }
    ensures faultless { IfOk result (λ c. SignatureHasNoFault c) }
    ensures err { IfErr result (λ f. IsPrepRefusal sig f) }
{
    if let Err(fault) = check_sig(&sig) {
        return Err(PrepFault::Sig(fault));
    }
    match Cif::prepare(alloc, sig) {
        Ok(cif) => Ok(cif),
        Err(_) => Err(PrepFault::NoMemory),
    }
}

/// Prepares calls of a function of a fixed number of arguments. Refused, it drops both parts. (libffi's `ffi_prep_cif`)
pub fn prep_cif<A: Abi>(alloc: Global, ret: FfiType, args: Fields) -> Result<Cif<A>, PrepFault>
    ensures ok { IfOk result (λ c. c ≡ record { result_type = tree_of ret; arguments = args; fixed = None }) }
    ensures faultless { IfOk result (λ c. SignatureHasNoFault c) }
    ensures err { IfErr result (λ f. IsPrepRefusal (record { result_type = tree_of ret; arguments = args; fixed = None }) f) }
{
    checked::<A>(alloc, Sig::new(ret, args, None))
}

/// Prepares calls of a function whose first `fixed` arguments are fixed, and the others variadic. Refused, it drops both parts. (libffi's `ffi_prep_cif_var`)
pub fn prep_cif_var<A: Abi>(
    alloc: Global,
    ret: FfiType,
    args: Fields,
    fixed: u32,
) -> Result<Cif<A>, PrepFault>
    ensures ok { IfOk result (λ c. c ≡ record { result_type = tree_of ret; arguments = args; fixed = Some fixed }) }
    ensures faultless { IfOk result (λ c. SignatureHasNoFault c) }
    ensures err { IfErr result (λ f. IsPrepRefusal (record { result_type = tree_of ret; arguments = args; fixed = Some fixed }) f) }
{
    checked::<A>(alloc, Sig::new(ret, args, Some(fixed)))
}
