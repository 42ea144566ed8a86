//! Long doubles of 16 bytes, which can be placed and are no part of a call on the machine.
ghost use Rattle.std.specs.Prelude.{◌≡◌};
ghost use Rattle.ffi3_type_spec.specs.Tree.{trees_of, is_complex};
ghost use Rattle.ffi3_type_spec.specs.Layout.{has_long_double, have_long_double};
ghost use Rattle.ffi3_types.specs.TreeOf.{tree_of};

use crate::{FfiType, Fields};

impl FfiType {
    /// Whether the type is a long double of 16 bytes, or has one in it.
    #[cycle(long_doubles)]
    pub fn has_long_double(&self) -> bool
        ensures { result ≡ has_long_double (tree_of self.now) }
    {
        match self {
            FfiType::X87 | FfiType::Binary128 => true,
            FfiType::Struct(fields) => fields.have_long_double(),
            FfiType::Array(fields, _) => fields.have_long_double(),
            FfiType::U8 | FfiType::S8 | FfiType::U16 | FfiType::S16 => false,
            FfiType::U32 | FfiType::S32 | FfiType::U64 | FfiType::S64 => false,
            FfiType::U128 | FfiType::S128 | FfiType::Float | FfiType::Double => false,
            FfiType::Pointer | FfiType::Void => false,
            FfiType::LongDouble | FfiType::Complex | FfiType::Vector => false,
        }
    }
}

impl Fields {
    /// Whether one of them has one.
    #[cycle(long_doubles)]
    fn have_long_double(&self) -> bool
        ensures { result ≡ have_long_double (trees_of self.now) }
    {
        for i in 0..self.len() {
            if self.get(i).has_long_double() {
                return true;
            }
        }
        false
    }

    /// Whether the array of `count` elements is a complex long double of x87's format.
    pub fn is_complex(&self, count: u32) -> bool
        ensures { result ≡ is_complex (trees_of self.now) count }
    {
        if self.len() != 1 {
            return false;
        }
        match self.get(0) {
            FfiType::X87 => count == 2,
            _ => false,
        }
    }
}
