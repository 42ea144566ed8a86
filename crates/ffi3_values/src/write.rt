//! The bytes of values.
ghost use Rattle.std.specs.Prelude.{◌≡◌, length, true};
ghost use Rattle.ffi3_type_spec.specs.Tree.{trees_of, struct_of};
ghost use Rattle.ffi3_type_spec.specs.Layout.{size_of};
ghost use Rattle.ffi3_type_spec.specs.Fault.{IsLaidOut};
ghost use Rattle.ffi3_type_spec.specs.Value.{IsWritten, fits, all_fit, values_of, struct_value};
ghost use Rattle.ffi3_types.specs.TreeOf.{tree_of};
ghost use Rattle.ffi3_values.specs.ValueOf.{value_of};

use crate::{Value, Values};
use ffi3_type_spec::round_up;
use ffi3_types::{FfiType, Members};

/// Writes the bytes of the value's scalars where the type has them. Padding keeps what stood there.
#[cycle(write_bytes)]
pub fn write_bytes(ty: &FfiType, value: &Value, out: &mut [u8])
    requires right { IsLaidOut (tree_of ty.now) }
    requires fits { fits (tree_of ty.now) (value_of value.now) ≡ true }
    requires sized { length out.old ≡ size_of (tree_of ty.now) }
    ensures { IsWritten (tree_of ty.now) (value_of value.now) out.old out.new }
{
    match value {
        Value::Void => {}
        Value::Leaf(bytes) => {
            let count = bytes.len();
            out[..count].copy_from_slice(bytes.as_slice());
        }
        Value::List(values) => {
            match ty {
                FfiType::Struct(fields) => {
                    let members = Members::of_struct(fields);
                    write_values(&members, values, out);
                }
                FfiType::Array(fields, count) => {
                    let members = Members::of_array(fields, *count);
                    write_values(&members, values, out);
                }
                _ => {}
            }
        }
    }
}

#[cycle(write_bytes)]
fn write_values(fields: &Members, values: &Values, out: &mut [u8])
    requires right { IsLaidOut (struct_of fields.now) }
    requires fits { all_fit (trees_of fields.now) (values_of values.now) ≡ true }
    requires sized { length out.old ≡ size_of (struct_of fields.now) }
    ensures { IsWritten (struct_of fields.now) (struct_value (values_of values.now)) out.old out.new }
{
    let mut end: u64 = 0;
    for i in 0..fields.len() {
        let ty = fields.get(i);
        let start = round_up(end, ty.align());
        end = start + ty.size();
        write_bytes(ty, values.get(i), &mut out[start as usize..end as usize]);
    }
}
