//! What kind of scalar a type is.
ghost use Rattle.std.specs.Prelude.{◌≡◌};
ghost use Rattle.ffi3_type_spec.specs.Integer.{is_integer_type, is_number_type, is_floating_type};
ghost use Rattle.ffi3_types.specs.TreeOf.{tree_of};

use crate::FfiType;

impl FfiType {
    /// Whether the type is one of the ten integer types.
    pub fn is_integer(&self) -> bool
        ensures { result ≡ is_integer_type (tree_of self.now) }
    {
        match self {
            FfiType::U8 | FfiType::S8 | FfiType::U16 | FfiType::S16 => true,
            FfiType::U32 | FfiType::S32 | FfiType::U64 | FfiType::S64 => true,
            FfiType::U128 | FfiType::S128 => true,
            FfiType::Float | FfiType::Double | FfiType::Pointer => false,
            FfiType::Void | FfiType::Struct(_) | FfiType::Array(_, _) => false,
            FfiType::LongDouble | FfiType::Complex | FfiType::Vector => false,
            FfiType::X87 | FfiType::Binary128 => false,
        }
    }

    /// Whether the type's bytes are a number: an integer or an address.
    pub fn is_number(&self) -> bool
        ensures { result ≡ is_number_type (tree_of self.now) }
    {
        match self {
            FfiType::U8 | FfiType::S8 | FfiType::U16 | FfiType::S16 => true,
            FfiType::U32 | FfiType::S32 | FfiType::U64 | FfiType::S64 => true,
            FfiType::U128 | FfiType::S128 | FfiType::Pointer => true,
            FfiType::Float
            | FfiType::Double
            | FfiType::Void
            | FfiType::Struct(_)
            | FfiType::Array(_, _) => false,
            FfiType::LongDouble | FfiType::Complex | FfiType::Vector => false,
            FfiType::X87 | FfiType::Binary128 => false,
        }
    }

    /// Whether the type is a float or a double.
    pub fn is_floating(&self) -> bool
        ensures { result ≡ is_floating_type (tree_of self.now) }
    {
        match self {
            FfiType::Float | FfiType::Double => true,
            FfiType::U8 | FfiType::S8 | FfiType::U16 | FfiType::S16 => false,
            FfiType::U32 | FfiType::S32 | FfiType::U64 | FfiType::S64 => false,
            FfiType::U128 | FfiType::S128 | FfiType::Pointer => false,
            FfiType::Void | FfiType::Struct(_) | FfiType::Array(_, _) => false,
            FfiType::LongDouble | FfiType::Complex | FfiType::Vector => false,
            FfiType::X87 | FfiType::Binary128 => false,
        }
    }
}
