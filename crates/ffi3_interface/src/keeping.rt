//! Interfaces that handles keep.
ghost use Rattle.std.specs.Prelude.{◌≡◌, IfOk, IfErr};
ghost use Rattle.ffi3_type_spec.specs.Signature.{SignatureIsPlaced};
ghost use Rattle.ffi3_capi.specs.DeclaredBy.{IsDeclaredOn, IsFaultOn};
ghost use Rattle.ffi3_capi.specs.Placed.{IsPlaceRefusal};
ghost use Rattle.ffi3_interface.specs.Keeping.{IsInterface, KeepsOf, Prepares, Shares};

use ffi3_capi::codes::{DONE, NOT_PREPARED, OUT_OF_MEMORY};
use ffi3_capi::declaration::declared_on;
use ffi3_capi::{Declaration, FaultKind, Refusal, TextFault, fault_with, target_numbered};
use ffi3_handle::{Handle, Kept};
use ffi3_prepared::prepare_signature;
use ffi3_types::{NoMemory, Sig, Target};
use std::alloc::Global;

/// An interface of a target, of a function that can be placed, to be kept.
fn keep(alloc: Global, to: Target, sig: Sig) -> Result<Box<Kept>, NoMemory>
    requires { SignatureIsPlaced sig }
    ensures { IfOk result (λ b. KeepsOf to sig b.value) }
{
    let Ok(prepared) = prepare_signature(alloc, to, sig) else {
        return Err(NoMemory);
    };
    match Kept::new(alloc, prepared) {
        Ok(kept) => Ok(kept),
        Err(_) => Err(NoMemory),
    }
}

/// An interface of the target with this number, of the function that is declared, to be kept.
fn find_interface(
    alloc: Global,
    target: u32,
    declaration: Declaration<'_>,
) -> Result<Box<Kept>, Refusal>
    ensures ok { IfOk result (λ b. IsInterface (IsDeclaredOn target declaration.entry) target b.value) }
    ensures err { IfErr result (λ r. IsPlaceRefusal (IsFaultOn target declaration.entry) target r) }
{
    let Some(to) = target_numbered(target) else {
        return Err(Refusal::NoSuchTarget);
    };
    let sig = match declared_on(alloc, target, declaration) {
        Ok(sig) => sig,
        Err(Some(fault)) => return Err(Refusal::Fault(fault)),
        Err(None) => return Err(Refusal::NoMemory),
    };
    match keep(alloc, to, sig) {
        Ok(kept) => Ok(kept),
        Err(_) => Err(Refusal::NoMemory),
    }
}

/// Prepares an interface, which the handle keeps. Where it is refused, what was kept stays.
pub fn prepare(
    alloc: Global,
    target: u32,
    declaration: Declaration<'_>,
    it: &mut Handle,
    fault: &mut TextFault,
) -> u32
    ensures { Prepares (IsDeclaredOn target declaration.entry) (IsFaultOn target declaration.entry) target it.old.kept result fault.new it.new.kept }
{
    match find_interface(alloc, target, declaration) {
        Ok(kept) => {
            it.put(kept);
            *fault = fault_with(FaultKind::NoFault);
            DONE
        }
        Err(refusal) => {
            *fault = refusal.fault();
            refusal.status()
        }
    }
}

/// Lets another handle keep the same interface. Where it is refused, what that one kept stays.
pub fn share(alloc: Global, it: &mut Handle, other: &mut Handle) -> u32
    ensures same { it.new.kept ≡ it.old.kept }
    ensures shared { Shares it.old.kept other.old.kept result other.new.kept }
{
    if !it.is_kept() {
        return NOT_PREPARED;
    }
    let kept: &Kept = it.value_mut();
    match kept.share(alloc) {
        Ok(kept) => {
            other.put(kept);
            DONE
        }
        Err(_) => OUT_OF_MEMORY,
    }
}
