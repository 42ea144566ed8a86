//! What every layout keeps, for callers to cite.
ghost use Rattle.ffi3_type_spec.specs.LayoutLaws.{IsWellLaidOut, ArrayIsStruct, ArrayIsItsElements};
ghost use Rattle.ffi3_types.specs.TreeOf.{tree_of};

use crate::FfiType;

/// Does nothing. Its contract says what every layout keeps. Each element of a struct or an array stands at the
/// least multiple of its alignment that is not below the end of the one before; the struct's
/// alignment is the greatest of its elements'; its size is the least multiple of its alignment
/// that is not below the end of its last element. Leaves lie inside the type, rise from the left
/// without overlapping, are aligned as their kinds are, and stand at the sum of the offsets on
/// their paths. An array of one element or more is laid out as a struct of as many equal elements, and
/// such an array in a struct as if its elements stood there.
pub fn layout_laws(_ty: &FfiType)
    ensures well { IsWellLaidOut (tree_of _ty.now) }
    ensures array_is_struct { ArrayIsStruct }
    ensures array_is_its_elements { ArrayIsItsElements }
{}
