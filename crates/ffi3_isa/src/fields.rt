//! Fields of instructions.
ghost use Rattle.std.specs.Prelude.{◌≡◌, ◌+◌, ◌/◌, ◌%◌, ◌^◌, ◌<◌, ◌≤◌};
ghost use Rattle.ffi3_isa.specs.Fields.{sign_extend, first_word};

/// The field of `width` bits whose lowest is bit `low`.
pub fn field(word: u32, low: u32, width: u32) -> u32
    requires inside { low + width ≤ 32 }
    requires some { 1 ≤ width }
    requires narrow { width < 32 }
    ensures { result ≡ word / 2 ^ low % 2 ^ width }
{
    word >> low & ((1 << width) - 1)
}

/// A field of `width` bits, read as two's complement.
pub fn sign_extend(width: u32, value: u32) -> i64
    requires some { 1 ≤ width }
    requires narrow { width ≤ 32 }
    requires fits { value < 2 ^ width }
    ensures { result ≡ sign_extend width value }
{
    let half = 1u64 << (width - 1);
    if (value as u64) < half {
        value as i64
    } else {
        value as i64 - (2 * half) as i64
    }
}

/// The first four bytes, little-endian, where there are so many.
pub fn first_word(bytes: &[u8]) -> Option<u32>
    ensures { result ≡ first_word bytes.now }
{
    if bytes.len() < 4 {
        return None;
    }
    Some(u32::from_le_bytes([bytes[0], bytes[1], bytes[2], bytes[3]]))
}
