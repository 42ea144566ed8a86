//! The types of values that have a type of their own, while the values are read.
ghost use Rattle.std.specs.Prelude.{◌≡◌, ◌<◌, ◌^◌, IfOk, IfSome, option_map};
ghost use Rattle.ffi3_types.specs.TreeOf.{tree_of};
ghost use Rattle.ffi3_script_body.specs.ExprOf.{typed_of};
ghost use Rattle.ffi3_script.specs.OwnTypeOf.{own_type_of, typed_value_of, element_at};

use crate::{Expr, NoMemory, TypedExpr};
use ffi3_types::FfiType;
use std::alloc::Global;

/// The type that a value has of its own.
#[derive(Drop)]
pub(crate) enum OwnType<'t> {
    /// That of an argument or of an earlier result, or of a part of one: nothing is copied while values are read.
    Lent(&'t FfiType),
    /// One that the value itself gives, or that of a part of such a value.
    Given(FfiType),
}

/// A value with a type of its own, while it is read.
#[derive(Drop)]
pub(crate) struct TypedValue<'t> {
    pub(crate) ty: OwnType<'t>,
    pub(crate) value: Expr,
}

/// The type of an element of a struct or an array, by its number.
fn element_at(ty: &FfiType, i: u64) -> Option<&FfiType>
    ensures value { option_map (λ t. tree_of t.now) result ≡ element_at (tree_of ty.now) i }
    ensures low { IfSome result (λ t. i < 2 ^ 32) }
{
    match ty {
        FfiType::Struct(fields) => {
            if i >= fields.len() as u64 {
                return None;
            }
            Some(fields.get(i as usize))
        }
        FfiType::Array(fields, count) => {
            if fields.len() == 0 {
                return None;
            }
            if i >= *count as u64 {
                return None;
            }
            Some(fields.get(0))
        }
        _ => None,
    }
}

impl<'t> OwnType<'t> {
    /// The type.
    pub(crate) fn as_type(&self) -> &FfiType
        ensures { tree_of result.now ≡ own_type_of self.now }
    {
        match self {
            OwnType::Lent(ty) => ty,
            OwnType::Given(ty) => ty,
        }
    }

    /// The type, to be kept: one that is lent is copied.
    pub(crate) fn into_type(self, alloc: Global) -> Result<FfiType, NoMemory>
        ensures { IfOk result (λ t. tree_of t ≡ own_type_of self.entry) }
    {
        match self {
            OwnType::Lent(ty) => ty.copy(alloc),
            OwnType::Given(ty) => Ok(ty),
        }
    }

    /// The type of an element of a struct or an array, by its number: lent out of a type that is lent.
    pub(crate) fn element(self, alloc: Global, i: u64) -> Result<Option<OwnType<'t>>, NoMemory>
        ensures value { IfOk result (λ o. option_map own_type_of o ≡ element_at (own_type_of self.entry) i) }
        ensures low { IfOk result (λ o. IfSome o (λ t. i < 2 ^ 32)) }
    {
        match self {
            OwnType::Lent(ty) => match element_at(ty, i) {
                Some(element) => Ok(Some(OwnType::Lent(element))),
                None => Ok(None),
            },
            OwnType::Given(ty) => match element_at(&ty, i) {
                Some(element) => Ok(Some(OwnType::Given(element.copy(alloc)?))),
                None => Ok(None),
            },
        }
    }
}

impl<'t> TypedValue<'t> {
    /// The value with its type, to be kept.
    pub(crate) fn kept(self, alloc: Global) -> Result<TypedExpr, NoMemory>
        ensures { IfOk result (λ v. typed_of v ≡ typed_value_of self.entry) }
    {
        let TypedValue { ty, value } = self;
        Ok(TypedExpr {
            ty: ty.into_type(alloc)?,
            value,
        })
    }
}
