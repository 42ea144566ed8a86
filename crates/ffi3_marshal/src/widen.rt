//! The numbers of narrow integers, from their bytes.
ghost use Rattle.std.specs.Prelude.{◌≡◌, ◌-◌, ◌^◌, ◌≤◌, ◌<◌, ◌≤ℤ◌, ◌<ℤ◌, length, pos, negsuc, true};
ghost use Rattle.std.specs.Int.{w16, w32, w64, from_le_bytes};
ghost use Rattle.ffi3_type_spec.specs.Integer.{is_number_type, number_of, scalar_of, widened, widened_from_32};
ghost use Rattle.ffi3_type_spec.specs.Layout.{size_of};
ghost use Rattle.ffi3_types.specs.TreeOf.{tree_of};

use ffi3_types::FfiType;

/// The number of two bytes, the lowest first.
fn from_two(bytes: &[u8]) -> u16
    requires { length bytes.now ≡ 2 }
    ensures { result ≡ from_le_bytes w16 bytes.now }
{
    u16::from_le_bytes([bytes[0], bytes[1]])
}

/// The number of four bytes.
fn from_four(bytes: &[u8]) -> u32
    requires { length bytes.now ≡ 4 }
    ensures { result ≡ from_le_bytes w32 bytes.now }
{
    u32::from_le_bytes([bytes[0], bytes[1], bytes[2], bytes[3]])
}

/// The number of eight bytes.
fn from_eight(bytes: &[u8]) -> u64
    requires { length bytes.now ≡ 8 }
    ensures { result ≡ from_le_bytes w64 bytes.now }
{
    u64::from_le_bytes([
        bytes[0], bytes[1], bytes[2], bytes[3], bytes[4], bytes[5], bytes[6], bytes[7],
    ])
}

/// The number of an integer of at most 64 bits or of a pointer, by its sign.
fn number(ty: &FfiType, bytes: &[u8]) -> i128
    requires kind { is_number_type (tree_of ty.now) ≡ true }
    requires small { size_of (tree_of ty.now) ≤ 8 }
    requires sized { length bytes.now ≡ size_of (tree_of ty.now) }
    ensures value { result ≡ number_of (scalar_of (tree_of ty.now)) bytes.now }
    ensures low { negsuc (2 ^ 63 - 1) ≤ℤ result }
    ensures high { result <ℤ pos (2 ^ 64) }
{
    match ty {
        FfiType::U8 => bytes[0] as i128,
        FfiType::S8 => bytes[0].cast_signed() as i128,
        FfiType::U16 => from_two(bytes) as i128,
        FfiType::S16 => from_two(bytes).cast_signed() as i128,
        FfiType::U32 => from_four(bytes) as i128,
        FfiType::S32 => from_four(bytes).cast_signed() as i128,
        FfiType::S64 => from_eight(bytes).cast_signed() as i128,
        FfiType::U64 | FfiType::Pointer => from_eight(bytes) as i128,
        FfiType::U128 | FfiType::S128 => unreachable!(),
        FfiType::Void | FfiType::Float | FfiType::Double => unreachable!(),
        FfiType::Struct(_) | FfiType::Array(_, _) => unreachable!(),
        FfiType::LongDouble | FfiType::Complex | FfiType::Vector => unreachable!(),
        FfiType::X87 | FfiType::Binary128 => unreachable!(),
    }
}

/// The bytes of an integer of at most 64 bits or of a pointer in a register, extended by the type's sign.
pub(crate) fn widened(ty: &FfiType, bytes: &[u8]) -> u64
    requires kind { is_number_type (tree_of ty.now) ≡ true }
    requires small { size_of (tree_of ty.now) ≤ 8 }
    requires sized { length bytes.now ≡ size_of (tree_of ty.now) }
    ensures { result ≡ widened (scalar_of (tree_of ty.now)) bytes.now }
{
    match ty {
        FfiType::U8 => bytes[0] as u64,
        FfiType::S8 => (bytes[0].cast_signed() as i64).cast_unsigned(),
        FfiType::U16 => from_two(bytes) as u64,
        FfiType::S16 => (from_two(bytes).cast_signed() as i64).cast_unsigned(),
        FfiType::U32 => from_four(bytes) as u64,
        FfiType::S32 => (from_four(bytes).cast_signed() as i64).cast_unsigned(),
        FfiType::U64 | FfiType::S64 | FfiType::Pointer => from_eight(bytes),
        FfiType::U128 | FfiType::S128 => unreachable!(),
        FfiType::Void | FfiType::Float | FfiType::Double => unreachable!(),
        FfiType::Struct(_) | FfiType::Array(_, _) => unreachable!(),
        FfiType::LongDouble | FfiType::Complex | FfiType::Vector => unreachable!(),
        FfiType::X87 | FfiType::Binary128 => unreachable!(),
    }
}

/// The same, extended by its sign to 32 bits where it is narrower, and from there by the upper bit.
pub(crate) fn widened_from_32(ty: &FfiType, bytes: &[u8]) -> u64
    requires kind { is_number_type (tree_of ty.now) ≡ true }
    requires small { size_of (tree_of ty.now) ≤ 8 }
    requires sized { length bytes.now ≡ size_of (tree_of ty.now) }
    ensures { result ≡ widened_from_32 (scalar_of (tree_of ty.now)) bytes.now }
{
    let low = number(ty, bytes).cast_unsigned() % 0x1_0000_0000;
    ((low as u32).cast_signed() as i64).cast_unsigned()
}
