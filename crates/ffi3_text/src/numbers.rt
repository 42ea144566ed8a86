//! Numbers in a text.
ghost use Rattle.std.specs.Prelude.{◌≡◌, ◌++◌, OnOk};
ghost use Rattle.std.specs.Fmt.{decimal};

use ffi3_types::{Bytes, NoMemory};
use itoa::Buffer;

/// A number in decimal at the end of a text.
pub(crate) fn write_number(number: u64, text: &mut Bytes) -> Result<(), NoMemory>
    ensures { OnOk result (text.new ≡ text.old ++ decimal number) }
{
    if number < 10 {
        return text.push(b'0' + number as u8);
    }
    let mut buffer = Buffer::new();
    text.extend(buffer.format(number).as_bytes())
}

/// The same behind a word and spaces.
pub(crate) fn write_labelled(label: &str, number: u64, text: &mut Bytes) -> Result<(), NoMemory>
    ensures { OnOk result (text.new ≡ text.old ++ (label.now ++ decimal number)) }
{
    text.extend(label.as_bytes())?;
    write_number(number, text)
}
