//! What is told of a value of a signature, or of the signature's fault, behind the value's name.
ghost use Rattle.std.specs.Prelude.{◌≡◌, ◌++◌, IfOk, codes, decimal};
ghost use Rattle.ffi3_types.specs.SignatureFaultOf.{position_of, signature_fault_of};
ghost use Rattle.ffi3_diagnostics_spec.specs.Positions.{position_name, words_at, placed_words};

use ffi3_types::{At, Bytes, NoMemory, SigFault};
use std::alloc::Global;

/// The name of an argument, as the lines of place have it.
pub fn argument_name(alloc: Global, number: u32) -> Result<Bytes, NoMemory>
    ensures { IfOk result (λ name. name ≡ codes "arg " ++ decimal number) }
{
    let mut name = Bytes::from_slice(alloc, "arg ".as_bytes())?;
    name.extend(format!(in alloc; "{number}")?.as_bytes())?;
    Ok(name)
}

/// The name of a value.
fn position_name(alloc: Global, at: At) -> Result<Bytes, NoMemory>
    ensures { IfOk result (λ name. name ≡ position_name (position_of at)) }
{
    match at {
        At::Ret => Bytes::from_slice(alloc, "ret".as_bytes()),
        At::Arg(i) => argument_name(alloc, i),
    }
}

/// What is told of a value, behind its name.
#[tactic(auto, using(crate::proofs::Wording::named_value))]
pub fn words_at(alloc: Global, at: At, words: &[u8]) -> Result<Bytes, NoMemory>
    ensures { IfOk result (λ told. told ≡ words_at (position_of at) words.now) }
{
    let mut told = position_name(alloc, at)?;
    told.extend(": ".as_bytes())?;
    told.extend(words)?;
    Ok(told)
}

/// What is told of a signature's fault, behind the name of the value that has it, if one has it.
pub fn placed_words(alloc: Global, fault: &SigFault, words: &[u8]) -> Result<Bytes, NoMemory>
    ensures { IfOk result (λ told. told ≡ placed_words (signature_fault_of fault.now) words.now) }
{
    match fault {
        SigFault::TooMany { .. } | SigFault::BadFixed { .. } => Bytes::from_slice(alloc, words),
        SigFault::BadType { at, .. } => words_at(alloc, *at, words),
        SigFault::BadArgType { i } => words_at(alloc, At::Arg(*i), words),
    }
}
