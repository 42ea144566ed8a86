//! Types and signatures that are known to have no fault: what is known of them is an invariant, and no caller repeats
//! it.
ghost use Rattle.std.specs.Prelude.{◌≡◌, ◌<◌, ◌≤◌, length, IfOk, IfErr, OnOk};
ghost use Rattle.ffi3_type_spec.specs.declared.limits.TheConstants.{LARGEST_TYPE, MOST_ARGUMENTS};
ghost use Rattle.ffi3_type_spec.specs.Tree.{tree_at, scalar};
ghost use Rattle.ffi3_type_spec.specs.Layout.{size_of, align_of, leaves_of, leaf_at};
ghost use Rattle.ffi3_type_spec.specs.Fault.{HasNoFault, IsFirstFault, IsLaidOut};
ghost use Rattle.ffi3_type_spec.specs.Signature.{SignatureHasNoFault, IsFirstSignatureFault};
ghost use Rattle.ffi3_type_spec.specs.Signature.{SignatureIsPlaced, for_places, IsFirstFaultFor};
ghost use Rattle.ffi3_types.specs.TreeOf.{tree_of};
ghost use Rattle.ffi3_types.specs.FaultOf.{path_of, fault_of};
ghost use Rattle.ffi3_types.specs.FirstElement.{role_of};
ghost use Rattle.ffi3_types.specs.SignatureFaultOf.{signature_fault_of};

use crate::{FfiType, Leaf, Sig, SigFault, TypeFault, check_placed, check_sig, check_type};
use std::marker::Model;

/// A type that has a layout: one without fault as an argument's or a result's, or as an element's. Contracts see its tree.
#[derive(Drop)]
pub struct CheckedType<'a> {
    ty: &'a FfiType,
}

impl<'a> Model for CheckedType<'a> {
    ghost use Rattle.ffi3_type_spec.specs.Tree.{Tree, tree_code};
    ghost use Rattle.ffi3_type_spec.specs.Fault.{IsLaidOut};
    ghost use Rattle.ffi3_types.specs.TreeOf.{tree_of};

    ghost Value = { Tree };

    ghost coded = { tree_code };

    ghost view = { λ t. tree_of t.ty.now };

    ghost invariant = { λ t. IsLaidOut (tree_of t.ty.now) };
}

impl<'a> CheckedType<'a> {
    /// The type, if it can be an argument or, `as_result`, a result; otherwise its first fault there.
    pub fn check(ty: &'a FfiType, as_result: bool) -> Result<CheckedType<'a>, TypeFault>
        ensures ok { IfOk result (λ t. t ≡ tree_of ty.now) }
        ensures right { OnOk result (HasNoFault 0 (role_of as_result) (tree_of ty.now)) }
        ensures err { IfErr result
            (λ e. IsFirstFault 0 (role_of as_result) (tree_of ty.now) (path_of e) (fault_of e)) }
    {
        if let Err(fault) = check_type(ty, as_result) {
            return Err(fault);
        }
        Ok(CheckedType { ty })
    }

    /// A type of which that is known.
    pub fn of(ty: &'a FfiType) -> CheckedType<'a>
        requires { IsLaidOut (tree_of ty.now) }
        ensures { result ≡ tree_of ty.now }
    {
        CheckedType { ty }
    }

    /// The type itself.
    pub fn as_type(&self) -> &'a FfiType
        ensures value { tree_of result.now ≡ self.now }
        ensures right { IsLaidOut (tree_of result.now) }
    {
        self.ty
    }

    /// Size in bytes, a multiple of the alignment. Of a scalar it is known at once; that of a struct or an array is a walk over
    /// its elements.
    pub fn size(&self) -> u64
        ensures value { result ≡ size_of self.now }
        ensures small { result ≤ LARGEST_TYPE }
    {
        let size = self.ty.scalar_size();
        if size != 0 {
            return size;
        }
        self.ty.size()
    }

    /// Alignment in bytes: 1, 2, 4, 8 or 16.
    pub fn align(&self) -> u64
        ensures { result ≡ align_of self.now }
    {
        self.ty.align()
    }

    /// How many scalars the type has, those of nested structs and arrays included.
    pub fn leaf_count(&self) -> u32
        ensures { result ≡ length (leaves_of self.now) }
    {
        self.ty.leaf_count()
    }

    /// Leaf `i`, from the front. Its kind has a layout too.
    pub fn leaf(&self, i: u32) -> Leaf
        requires { i < length (leaves_of self.now) }
        ensures at { result.at ≡ (leaf_at self.now i).at }
        ensures kind { tree_of result.kind ≡ scalar (leaf_at self.now i).kind }
        ensures right { IsLaidOut (tree_of result.kind) }
    {
        self.ty.leaf(i)
    }
}

/// A signature that has no fault. Contracts see the signature.
#[derive(Drop)]
pub struct CheckedSig<'a> {
    sig: &'a Sig,
}

impl<'a> Model for CheckedSig<'a> {
    ghost use Rattle.ffi3_type_spec.specs.Signature.{Signature, signature_code, SignatureHasNoFault};

    ghost Value = { Signature };

    ghost coded = { signature_code };

    ghost view = { λ c. c.sig.now };

    ghost invariant = { λ c. SignatureHasNoFault c.sig.now };
}

impl<'a> CheckedSig<'a> {
    /// The signature, if it has no fault; otherwise its first fault.
    pub fn check(sig: &'a Sig) -> Result<CheckedSig<'a>, SigFault>
        ensures ok { IfOk result (λ c. c ≡ sig.now) }
        ensures right { OnOk result (SignatureHasNoFault sig.now) }
        ensures err { IfErr result (λ e. IsFirstSignatureFault sig.now (signature_fault_of e)) }
    {
        if let Err(fault) = check_sig(sig) {
            return Err(fault);
        }
        Ok(CheckedSig { sig })
    }

    /// A signature of which that is known.
    pub fn of(sig: &'a Sig) -> CheckedSig<'a>
        requires { SignatureHasNoFault sig.now }
        ensures { result ≡ sig.now }
    {
        CheckedSig { sig }
    }

    /// The signature itself.
    pub fn as_sig(&self) -> &'a Sig
        ensures value { result.now ≡ self.now }
        ensures right { SignatureHasNoFault result.now }
    {
        self.sig
    }

    /// The same signature: what can be called can be placed.
    pub fn placed(&self) -> PlacedSig<'a>
        ensures { result ≡ self.now }
    {
        PlacedSig::of(self.sig)
    }

    /// The result's type.
    pub fn ret(&self) -> CheckedType<'a>
        ensures { result ≡ self.now.result_type }
    {
        CheckedType::of(self.sig.ret())
    }

    /// How many arguments there are.
    pub fn count(&self) -> u32
        ensures value { result ≡ length self.now.arguments }
        ensures few { result ≤ MOST_ARGUMENTS }
    {
        self.sig.count()
    }

    /// The type of argument `i`.
    pub fn arg(&self, i: u32) -> CheckedType<'a>
        requires { i < length self.now.arguments }
        ensures { result ≡ tree_at self.now.arguments i }
    {
        CheckedType::of(self.sig.arg(i))
    }

    /// How many arguments are fixed, or None where the function is not variadic.
    pub fn fixed(&self) -> Option<u32>
        ensures { result ≡ self.now.fixed }
    {
        self.sig.fixed()
    }
}

/// A signature that can be placed: it has no fault but that long doubles of 16 bytes are in it. Contracts see the signature.
#[derive(Drop)]
pub struct PlacedSig<'a> {
    sig: &'a Sig,
}

impl<'a> Model for PlacedSig<'a> {
    ghost use Rattle.ffi3_type_spec.specs.Signature.{Signature, signature_code, SignatureIsPlaced};

    ghost Value = { Signature };

    ghost coded = { signature_code };

    ghost view = { λ p. p.sig.now };

    ghost invariant = { λ p. SignatureIsPlaced p.sig.now };
}

impl<'a> PlacedSig<'a> {
    /// The signature, if it can be placed; otherwise its first fault.
    pub fn check(sig: &'a Sig) -> Result<PlacedSig<'a>, SigFault>
        ensures ok { IfOk result (λ p. p ≡ sig.now) }
        ensures right { OnOk result (SignatureIsPlaced sig.now) }
        ensures err { IfErr result (λ e. IsFirstFaultFor for_places sig.now (signature_fault_of e)) }
    {
        if let Err(fault) = check_placed(sig) {
            return Err(fault);
        }
        Ok(PlacedSig { sig })
    }

    /// A signature of which that is known.
    pub fn of(sig: &'a Sig) -> PlacedSig<'a>
        requires { SignatureIsPlaced sig.now }
        ensures { result ≡ sig.now }
    {
        PlacedSig { sig }
    }

    /// The signature itself.
    pub fn as_sig(&self) -> &'a Sig
        ensures value { result.now ≡ self.now }
        ensures right { SignatureIsPlaced result.now }
    {
        self.sig
    }

    /// The result's type.
    pub fn ret(&self) -> CheckedType<'a>
        ensures { result ≡ self.now.result_type }
    {
        CheckedType::of(self.sig.ret())
    }

    /// How many arguments there are.
    pub fn count(&self) -> u32
        ensures value { result ≡ length self.now.arguments }
        ensures few { result ≤ MOST_ARGUMENTS }
    {
        self.sig.count()
    }

    /// The type of argument `i`.
    pub fn arg(&self, i: u32) -> CheckedType<'a>
        requires { i < length self.now.arguments }
        ensures { result ≡ tree_at self.now.arguments i }
    {
        CheckedType::of(self.sig.arg(i))
    }

    /// How many arguments are fixed, or None where the function is not variadic.
    pub fn fixed(&self) -> Option<u32>
        ensures { result ≡ self.now.fixed }
    {
        self.sig.fixed()
    }
}
