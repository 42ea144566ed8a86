//! Signatures and their first fault.
ghost use Rattle.std.specs.Prelude.{◌≡◌, ◌<◌, ◌↔◌, length, IsTrue, IfOk, OnOk, IfErr, Some};
ghost use Rattle.ffi3_type_spec.specs.Tree.{tree_at};
ghost use Rattle.ffi3_type_spec.specs.Signature.{SignatureHasNoFault, IsFirstSignatureFault, is_promoted};
ghost use Rattle.ffi3_type_spec.specs.Signature.{SignatureIsPlaced, for_places, HasNoFaultFor, IsFirstFaultFor};
ghost use Rattle.ffi3_types.specs.FirstElement.{purpose_of};
ghost use Rattle.ffi3_types.specs.TreeOf.{tree_of};
ghost use Rattle.ffi3_types.specs.SignatureFaultOf.{signature_fault_of};

use crate::check::check_in;
use crate::{FfiType, Fields, NoMemory, TypeFault, same_fields, same_type};
use ffi3_type_spec::limits::MOST_ARGUMENTS;
use std::alloc::Global;
use std::marker::Model;
use thiserror::Error;

/// A function's type: its result, its arguments, and of a variadic function how many of the
/// arguments are fixed.
#[derive(Debug, Drop)]
pub struct Sig {
    ret: FfiType,
    args: Fields,
    fixed: Option<u32>,
}

impl Model for Sig {
    ghost use Rattle.ffi3_type_spec.specs.Signature.{Signature, signature_code};
    ghost use Rattle.ffi3_types.specs.TreeOf.{tree_of};

    ghost Value = { Signature };

    ghost coded = { signature_code };

    ghost view = { λ s. record { result_type = tree_of s.ret; arguments = s.args; fixed = s.fixed } };
}

impl Sig {
    /// The signature with this result, these arguments and, where it is variadic, so many fixed
    /// ones.
    pub fn new(ret: FfiType, args: Fields, fixed: Option<u32>) -> Sig
        ensures { result ≡ record { result_type = tree_of ret; arguments = args; fixed = fixed } }
    {
        Sig { ret, args, fixed }
    }

    /// The result's type.
    pub fn ret(&self) -> &FfiType
        ensures { tree_of result.now ≡ self.now.result_type }
    {
        &self.ret
    }

    /// The arguments' types.
    pub fn args(&self) -> &Fields
        ensures { result.now ≡ self.now.arguments }
    {
        &self.args
    }

    /// How many arguments there are.
    pub fn count(&self) -> u32
        ensures { result ≡ length self.now.arguments }
    {
        self.args.len() as u32
    }

    /// The type of argument `i`.
    pub fn arg(&self, i: u32) -> &FfiType
        requires { i < length self.now.arguments }
        ensures { tree_of result.now ≡ tree_at self.now.arguments i }
    {
        self.args.get(i as usize)
    }

    /// How many arguments are fixed, or None where the function is not variadic.
    pub fn fixed(&self) -> Option<u32>
        ensures { result ≡ self.now.fixed }
    {
        self.fixed
    }

    /// An equal signature.
    pub fn copy(&self, alloc: Global) -> Result<Sig, NoMemory>
        ensures { IfOk result (λ s. s ≡ self.now) }
    {
        Ok(Sig {
            ret: self.ret.copy(alloc)?,
            args: self.args.copy(alloc)?,
            fixed: self.fixed,
        })
    }
}

/// Whether result, arguments and number of fixed arguments are equal.
pub fn same_sig(a: &Sig, b: &Sig) -> bool
    ensures { IsTrue result ↔ (a.now ≡ b.now) }
{
    if !same_type(a.ret(), b.ret()) {
        return false;
    }
    if !same_fields(a.args(), b.args()) {
        return false;
    }
    a.fixed() == b.fixed()
}

/// Where in a signature a type stands.
#[derive(Clone, Copy, Debug)]
pub enum At {
    /// The result.
    Ret,
    /// The argument of this number.
    Arg(u32),
}

/// What is wrong with a signature.
#[derive(Debug, Drop, Error)]
pub enum SigFault {
    /// More than 64 arguments: `n`.
    #[error("too many arguments: {n}")]
    TooMany { n: u32 },
    /// A type has this fault.
    #[error("{fault}")]
    BadType { at: At, fault: TypeFault },
    /// The number of fixed arguments is 0, or more than the `n` arguments that there are.
    #[error("bad fixed: {fixed} of {n}")]
    BadFixed { fixed: u32, n: u32 },
    /// Argument `i` is variadic, and C would promote its type (libffi's FFI_BAD_ARGTYPE).
    #[error("bad variadic argument")]
    BadArgType { i: u32 },
}

impl FfiType {
    /// Whether C promotes this type as a variadic argument.
    fn is_promoted(&self) -> bool
        ensures { result ≡ is_promoted (tree_of self.now) }
    {
        match self {
            FfiType::U8 | FfiType::S8 | FfiType::U16 | FfiType::S16 | FfiType::Float => true,
            FfiType::U32 | FfiType::S32 | FfiType::U64 | FfiType::S64 => false,
            FfiType::U128 | FfiType::S128 => false,
            FfiType::Double | FfiType::Pointer | FfiType::Void => false,
            FfiType::Struct(_) | FfiType::Array(_, _) => false,
            FfiType::LongDouble | FfiType::Complex | FfiType::Vector => false,
            FfiType::X87 | FfiType::Binary128 => false,
        }
    }
}

/// Whether a call interface can be prepared for the signature, or its first fault: too many
/// arguments, the result's type, the arguments' types from the left, the number of fixed
/// arguments, the first variadic argument that C would promote.
pub fn check_sig(sig: &Sig) -> Result<(), SigFault>
    ensures ok { OnOk result (SignatureHasNoFault sig.now) }
    ensures err { IfErr result (λ e. IsFirstSignatureFault sig.now (signature_fault_of e)) }
{
    check_for(sig, true)
}

/// Whether the signature can be placed, or its first fault: as `check_sig`, but that long doubles of 16 bytes may be in it.
pub fn check_placed(sig: &Sig) -> Result<(), SigFault>
    ensures ok { OnOk result (SignatureIsPlaced sig.now) }
    ensures err { IfErr result (λ e. IsFirstFaultFor for_places sig.now (signature_fault_of e)) }
{
    check_for(sig, false)
}

/// The first fault, for calls on the machine or for places alone.
fn check_for(sig: &Sig, calls: bool) -> Result<(), SigFault>
    ensures ok { OnOk result (HasNoFaultFor (purpose_of calls) sig.now) }
    ensures err { IfErr result (λ e. IsFirstFaultFor (purpose_of calls) sig.now (signature_fault_of e)) }
{
    let n = sig.count();
    if n as u64 > MOST_ARGUMENTS {
        return Err(SigFault::TooMany { n });
    }
    if let Err(fault) = check_in(sig.ret(), true, calls) {
        return Err(SigFault::BadType { at: At::Ret, fault });
    }
    for i in 0..n {
        if let Err(fault) = check_in(sig.arg(i), false, calls) {
            return Err(SigFault::BadType {
                at: At::Arg(i),
                fault,
            });
        }
    }
    if let Some(fixed) = sig.fixed() {
        if fixed == 0 || n < fixed {
            return Err(SigFault::BadFixed { fixed, n });
        }
        for i in fixed..n {
            if sig.arg(i).is_promoted() {
                return Err(SigFault::BadArgType { i });
            }
        }
    }
    Ok(())
}
