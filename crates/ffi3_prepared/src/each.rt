//! Interfaces of each target.
ghost use Rattle.std.specs.Prelude.{◌≡◌, IfOk};
ghost use Rattle.ffi3_type_spec.specs.declared.Target.TheVariants as to;
ghost use Rattle.ffi3_type_spec.specs.Signature.{SignatureIsPlaced};
ghost use Rattle.ffi3_prepared.specs.Prepared.{signature_in, target_in};

use crate::Prepared;
use ffi3_cif::Placed;
use ffi3_types::{NoMemory, Sig};
use std::alloc::Global;

/// Prepares calls by System V's standard for AMD64.
pub(crate) fn on_amd64(alloc: Global, sig: Sig) -> Result<Prepared, NoMemory>
    requires { SignatureIsPlaced sig }
    ensures target { IfOk result (λ p. target_in p ≡ to.Amd64) }
    ensures signature { IfOk result (λ p. signature_in p ≡ sig) }
{
    Ok(Prepared::Amd64(Placed::prepare(alloc, sig)?))
}

/// By AAPCS64.
pub(crate) fn on_aapcs64(alloc: Global, sig: Sig) -> Result<Prepared, NoMemory>
    requires { SignatureIsPlaced sig }
    ensures target { IfOk result (λ p. target_in p ≡ to.Aapcs64) }
    ensures signature { IfOk result (λ p. signature_in p ≡ sig) }
{
    Ok(Prepared::Aapcs64(Placed::prepare(alloc, sig)?))
}

/// By RISC-V's standard.
pub(crate) fn on_riscv(alloc: Global, sig: Sig) -> Result<Prepared, NoMemory>
    requires { SignatureIsPlaced sig }
    ensures target { IfOk result (λ p. target_in p ≡ to.Riscv) }
    ensures signature { IfOk result (λ p. signature_in p ≡ sig) }
{
    Ok(Prepared::Riscv(Placed::prepare(alloc, sig)?))
}

/// By Windows' for x64.
pub(crate) fn on_win64(alloc: Global, sig: Sig) -> Result<Prepared, NoMemory>
    requires { SignatureIsPlaced sig }
    ensures target { IfOk result (λ p. target_in p ≡ to.Win64) }
    ensures signature { IfOk result (λ p. signature_in p ≡ sig) }
{
    Ok(Prepared::Win64(Placed::prepare(alloc, sig)?))
}

/// By Apple's for arm64.
pub(crate) fn on_apple(alloc: Global, sig: Sig) -> Result<Prepared, NoMemory>
    requires { SignatureIsPlaced sig }
    ensures target { IfOk result (λ p. target_in p ≡ to.Apple) }
    ensures signature { IfOk result (λ p. signature_in p ≡ sig) }
{
    Ok(Prepared::Apple(Placed::prepare(alloc, sig)?))
}
