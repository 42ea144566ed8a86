//! Signatures with their plans: what can be placed, whether it can be called or not.
ghost use Rattle.std.specs.Prelude.{◌≡◌, ◌<◌, length, IfOk, IsSomeAnd, Some, slice_get};
ghost use Rattle.ffi3_type_spec.specs.Signature.{SignatureIsPlaced};
ghost use Rattle.ffi3_place_spec.specs.Standard.{plan_of};
ghost use Rattle.ffi3_cif.specs.Runs.{AreRunsOf, pieces_of};

use crate::runs::{AllRuns, Runs, runs_in_frame};
use ffi3_place::{Abi, Place, Plan, Res};
use ffi3_types::{NoMemory, PlacedSig, Sig};
use std::alloc::Global;
use std::marker::{Model, PhantomData};

/// A signature that can be placed, and its plan by the standard `A`. Contracts see the signature.
#[derive(Drop)]
pub struct Placed<A: Abi> {
    sig: Sig,
    plan: Plan,
    runs: AllRuns,
    standard: PhantomData<A>,
}

impl<A: Abi> Model for Placed<A> {
    ghost use Rattle.std.specs.Prelude.{◌≡◌};
    ghost use Rattle.ffi3_type_spec.specs.Signature.{Signature, signature_code, SignatureIsPlaced};
    ghost use Rattle.ffi3_place_spec.specs.Standard.{plan_of};
    ghost use Rattle.ffi3_cif.specs.Runs.{PlacesHaveRuns};

    ghost Value = { Signature };

    ghost coded = { signature_code };

    ghost view = { λ c. c.sig };

    ghost invariant = { λ c. record {
      can_be : SignatureIsPlaced c.sig;
      planned : c.plan ≡ plan_of A.standard c.sig;
      gathered : PlacesHaveRuns c.plan.places c.runs;
    } };
}

impl<A: Abi> Placed<A> {
    /// Plans a signature that can be placed.
    pub fn prepare(alloc: Global, sig: Sig) -> Result<Placed<A>, NoMemory>
        requires { SignatureIsPlaced sig }
        ensures { IfOk result (λ c. c ≡ sig) }
    {
        let Ok(plan) = A::plan(alloc, &sig) else {
            return Err(NoMemory);
        };
        let Ok(runs) = runs_in_frame(alloc, &plan.places, plan.frame) else {
            return Err(NoMemory);
        };
        Ok(Placed {
            sig,
            plan,
            runs,
            standard: PhantomData,
        })
    }

    /// The signature.
    pub fn sig(&self) -> &Sig
        ensures value { result.now ≡ self.now }
        ensures can_be { SignatureIsPlaced self.now }
    {
        &self.sig
    }

    /// The signature, as one of which it is known that it can be placed.
    pub fn placed_sig(&self) -> PlacedSig<'_>
        ensures { result ≡ self.now }
    {
        PlacedSig::of(&self.sig)
    }

    /// All the stack that a call takes, in bytes.
    pub fn need(&self) -> u64
        ensures { result ≡ (plan_of A.standard self.now).need }
    {
        self.plan.need
    }

    /// The bytes of stack arguments, copies and a hidden result's buffer.
    pub fn frame(&self) -> u64
        ensures { result ≡ (plan_of A.standard self.now).frame }
    {
        self.plan.frame
    }

    /// The bytes of the callee's copy of its arguments.
    pub fn block(&self) -> u64
        ensures { result ≡ (plan_of A.standard self.now).block }
    {
        self.plan.block
    }

    /// Where argument `i` stands.
    pub fn place(&self, i: u32) -> &Place
        requires { i < length self.now.arguments }
        ensures { slice_get (plan_of A.standard self.now).places i ≡ Some result.now }
    {
        self.plan.places.get(i as usize)
    }

    /// The bytes of argument `i` that stand on the stack, in as few runs as they make, which rise. An argument by reference has none.
    pub fn runs(&self, i: u32) -> &Runs
        requires { i < length self.now.arguments }
        ensures { IsSomeAnd (slice_get (plan_of A.standard self.now).places i) (λ p. AreRunsOf (pieces_of p) result.now) }
    {
        self.runs.get(i as usize)
    }

    /// Where the result stands.
    pub fn result_place(&self) -> &Res
        ensures { result.now ≡ (plan_of A.standard self.now).res }
    {
        &self.plan.res
    }

    /// How many vector registers the arguments use, where the standard tells it at a call; otherwise 0.
    pub fn vectors(&self) -> u8
        ensures { result ≡ (plan_of A.standard self.now).vectors }
    {
        self.plan.vectors
    }
}
