//! Which values fit a type.
ghost use Rattle.std.specs.Prelude.{◌≡◌};
ghost use Rattle.ffi3_type_spec.specs.Tree.{trees_of};
ghost use Rattle.ffi3_type_spec.specs.Value.{values_of, fits, all_fit, is_leaf_of};
ghost use Rattle.ffi3_types.specs.TreeOf.{tree_of};
ghost use Rattle.ffi3_values.specs.ValueOf.{value_of};

use crate::{Value, Values};
use ffi3_types::{FfiType, Members};

/// Whether the value is a leaf of n bytes.
fn is_leaf_of(value: &Value, n: usize) -> bool
    ensures { result ≡ is_leaf_of n (value_of value.now) }
{
    match value {
        Value::Leaf(bytes) => bytes.len() == n,
        _ => false,
    }
}

/// Whether the value has the type's shape and lengths. Nothing fits a kind that is left out, or an array that has no
/// element type.
#[cycle(fits)]
pub fn fits(value: &Value, ty: &FfiType) -> bool
    ensures { result ≡ fits (tree_of ty.now) (value_of value.now) }
{
    match ty {
        FfiType::Void => matches!(value, Value::Void),
        FfiType::U8 | FfiType::S8 => is_leaf_of(value, 1),
        FfiType::U16 | FfiType::S16 => is_leaf_of(value, 2),
        FfiType::U32 | FfiType::S32 | FfiType::Float => is_leaf_of(value, 4),
        FfiType::U64 | FfiType::S64 | FfiType::Double | FfiType::Pointer => is_leaf_of(value, 8),
        FfiType::U128 | FfiType::S128 | FfiType::Binary128 => is_leaf_of(value, 16),
        FfiType::X87 => is_leaf_of(value, 10),
        FfiType::Struct(fields) => match value {
            Value::List(values) => all_fit(values, &Members::of_struct(fields)),
            _ => false,
        },
        FfiType::Array(fields, count) => {
            if fields.len() == 0 {
                return false;
            }
            match value {
                Value::List(values) => all_fit(values, &Members::of_array(fields, *count)),
                _ => false,
            }
        }
        FfiType::LongDouble | FfiType::Complex | FfiType::Vector => false,
    }
}

#[cycle(fits)]
fn all_fit(values: &Values, fields: &Members) -> bool
    ensures { result ≡ all_fit (trees_of fields.now) (values_of values.now) }
{
    if fields.len() != values.len() {
        return false;
    }
    for i in 0..fields.len() {
        if !fits(values.get(i), fields.get(i)) {
            return false;
        }
    }
    true
}
