//! The bytes of values, one value after another.
ghost use Rattle.std.specs.Prelude.{◌≡◌, OnOk, length, replicate, true};
ghost use Rattle.ffi3_type_spec.specs.Layout.{size_of};
ghost use Rattle.ffi3_type_spec.specs.Value.{IsWritten, fits};
ghost use Rattle.ffi3_values.specs.ValueOf.{value_of};
ghost use Rattle.ffi3_capi.specs.Entry.{HasOneMore};

use ffi3_type_spec::limits::LARGEST_TYPE;
use ffi3_type_spec::round_up;
use ffi3_types::{Bytes, CheckedType, NoMemory};
use ffi3_values::{Value, write_bytes};

/// Writes the value's bytes, with padding of 0.
fn write_over_zeros(ty: &CheckedType<'_>, value: &Value, out: &mut [u8])
    requires fits { fits ty.now (value_of value.now) ≡ true }
    requires sized { length out.old ≡ size_of ty.now }
    ensures { IsWritten ty.now (value_of value.now) (replicate (size_of ty.now) 0) out.new }
{
    out.fill(0);
    write_bytes(ty.as_type(), value, out);
}

/// One more value: its bytes, and zeros up to a multiple of 8.
pub(crate) fn push_value(
    ty: &CheckedType<'_>,
    value: &Value,
    bytes: &mut Bytes,
) -> Result<(), NoMemory>
    requires { fits ty.now (value_of value.now) ≡ true }
    ensures { OnOk result (HasOneMore ty.now (value_of value.now) bytes.old bytes.new) }
{
    let size = ty.size();
    let mut room = [0; LARGEST_TYPE as usize];
    let here = &mut room[..size as usize];
    write_over_zeros(ty, value, here);
    bytes.extend(here)?;
    let zeros = [0; 8];
    bytes.extend(&zeros[..(round_up(size, 8) - size) as usize])?;
    Ok(())
}
