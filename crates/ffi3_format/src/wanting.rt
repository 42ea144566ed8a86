//! Whether a format is wanted: long doubles and complex ones in types.
ghost use Rattle.std.specs.Prelude.{◌≡◌};
ghost use Rattle.std.specs.List.{list_any};
ghost use Rattle.ffi3_type_spec.specs.Tree.{trees_of};
ghost use Rattle.ffi3_format_spec.specs.Format.{wants_format, want_format, signature_wants_format};
ghost use Rattle.ffi3_types.specs.TreeOf.{tree_of};

use ffi3_types::{FfiType, Fields, Sig};

/// Whether the type is one, or has one in it.
#[cycle(wanting)]
fn wants_format(ty: &FfiType) -> bool
    ensures { result ≡ wants_format (tree_of ty.now) }
{
    match ty {
        FfiType::LongDouble | FfiType::Complex => true,
        FfiType::Struct(fields) => want_format(fields),
        FfiType::Array(fields, _) => want_format(fields),
        FfiType::U8 | FfiType::S8 | FfiType::U16 | FfiType::S16 => false,
        FfiType::U32 | FfiType::S32 | FfiType::U64 | FfiType::S64 => false,
        FfiType::U128 | FfiType::S128 | FfiType::Float | FfiType::Double => false,
        FfiType::Pointer | FfiType::Void | FfiType::Vector => false,
        FfiType::X87 | FfiType::Binary128 => false,
    }
}

/// Whether one of the types is one, or has one in it.
#[cycle(wanting)]
fn want_format(types: &Fields) -> bool
    ensures { result ≡ want_format (trees_of types.now) }
{
    for i in 0..types.len() {
        if wants_format(types.get(i)) {
            return true;
        }
    }
    false
}

/// Whether the result or an argument is one, or has one in it.
pub fn signature_wants_format(sig: &Sig) -> bool
    ensures { result ≡ signature_wants_format sig.now }
{
    if wants_format(sig.ret()) {
        return true;
    }
    want_format(sig.args())
}
