//! Resolves long doubles in signatures by the format that a target's standard gives them.
#![tactic(auto)]

ghost use Rattle.std.specs.Prelude.{◌≡◌, IfOk};
ghost use Rattle.ffi3_format_spec.specs.Format.{format_of, resolved_signature, signature_wants_format};
ghost use Rattle.ffi3_types.specs.TreeOf.{tree_of};

mod resolving;
mod wanting;

pub use ffi3_format_spec::Format;
use ffi3_types::{NoMemory, Sig, Target};
use resolving::{all_resolved, resolved};
use std::alloc::Global;
use wanting::signature_wants_format;

/// The format of long double by the target's standard.
pub fn format_of(target: Target) -> Format
    ensures { result ≡ format_of target }
{
    match target {
        Target::Amd64 => Format::X87,
        Target::Aapcs64 => Format::Binary128,
        Target::Riscv => Format::Binary128,
        Target::Win64 => Format::Double,
        Target::Apple => Format::Double,
    }
}

/// The signature with long doubles, and complex ones, of this format. Where there are none it is handed back as it is,
/// and no memory is asked for.
pub fn resolve(alloc: Global, format: Format, sig: Sig) -> Result<Sig, NoMemory>
    ensures { IfOk result (λ r. r ≡ resolved_signature format sig) }
{
    if !signature_wants_format(&sig) {
        return Ok(sig);
    }
    let ret = resolved(alloc, format, sig.ret())?;
    let args = all_resolved(alloc, format, sig.args())?;
    Ok(Sig::new(ret, args, sig.fixed()))
}
