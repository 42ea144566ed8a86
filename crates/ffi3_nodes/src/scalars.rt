//! Nodes that are scalars: no type of them has a fault.
ghost use Rattle.std.specs.Prelude.{◌≡◌, ◌<◌, ◌≤◌, ◌∷◌, [], IfSome, Some, None, false, slice_get};
ghost use Rattle.ffi3_type_spec.specs.Fault.{IsResultType};
ghost use Rattle.ffi3_type_spec.specs.Layout.{has_long_double};
ghost use Rattle.ffi3_types.specs.ScalarSize.{scalar_size_of};
ghost use Rattle.ffi3_types.specs.TreeOf.{tree_of};
ghost use Rattle.ffi3_nodes.specs.Nodes.{AreWritten, leaves};

use crate::{Node, VOID};
use ffi3_types::FfiType;

/// The scalar of this kind.
pub fn scalar(kind: u32) -> Option<FfiType>
    ensures some { IfSome result (λ t. slice_get leaves kind ≡ Some (tree_of t)) }
    ensures scalar { IfSome result (λ t. 0 < scalar_size_of (tree_of t)) }
    ensures plain { IfSome result (λ t. has_long_double (tree_of t) ≡ false) }
    ensures none { result ≡ None → VOID ≤ kind }
{
    match kind {
        0 => Some(FfiType::U8),
        1 => Some(FfiType::S8),
        2 => Some(FfiType::U16),
        3 => Some(FfiType::S16),
        4 => Some(FfiType::U32),
        5 => Some(FfiType::S32),
        6 => Some(FfiType::U64),
        7 => Some(FfiType::S64),
        8 => Some(FfiType::U128),
        9 => Some(FfiType::S128),
        10 => Some(FfiType::Float),
        11 => Some(FfiType::Double),
        12 => Some(FfiType::Pointer),
        _ => None,
    }
}

/// The argument's or member's type that is this node, if it is a scalar.
pub fn argument(node: Node) -> Option<FfiType>
    ensures written { IfSome result (λ t. AreWritten (tree_of t ∷ []) (node ∷ [])) }
    ensures scalar { IfSome result (λ t. 0 < scalar_size_of (tree_of t)) }
    ensures plain { IfSome result (λ t. has_long_double (tree_of t) ≡ false) }
{
    if node.count != 0 {
        return None;
    }
    scalar(node.kind)
}

/// The result's type that is this node, if it is a scalar or void.
pub fn returned(node: Node) -> Option<FfiType>
    ensures written { IfSome result (λ t. AreWritten (tree_of t ∷ []) (node ∷ [])) }
    ensures right { IfSome result (λ t. IsResultType (tree_of t)) }
    ensures plain { IfSome result (λ t. has_long_double (tree_of t) ≡ false) }
{
    if node.count != 0 {
        return None;
    }
    if node.kind == VOID {
        return Some(FfiType::Void);
    }
    scalar(node.kind)
}
