//! Lines to the output.
ghost use Rattle.std.specs.Prelude.{◌≡◌, ◌++◌, ◌+◌, ◌<◌, ◌≤◌, ℕ, List, IfOk, drop, length, slice_range};
ghost use Rattle.ffi3_io_spec.specs.Written.{Wrote};
ghost use Rattle.ffi3_app.specs.LineEnds.{line_length};

use ffi3_io::{IoError, Sink, write_line};
use ffi3_types::{Bytes, NoMemory};

/// Writes a line in one piece, where there was memory to make it.
pub fn write_made_line<O: Sink>(
    output: &mut O,
    line: Result<Bytes, NoMemory>,
) -> Result<(), IoError>
    ensures { (text : List ℕ) → IfOk line (λ l. l ≡ text) → Wrote text (O.state output.old) (O.state output.new) result }
{
    let Ok(line) = line else {
        return Err(IoError::NoMemory);
    };
    write_line(output, line.as_slice())
}

/// Writes two lines, each in one piece, where there was memory to make them.
pub fn write_two_lines<O: Sink>(
    output: &mut O,
    first: Result<Bytes, NoMemory>,
    second: Result<Bytes, NoMemory>,
) -> Result<(), IoError>
    ensures { (one two : List ℕ) → IfOk first (λ l. l ≡ one) → IfOk second (λ l. l ≡ two) → Wrote (one ++ two) (O.state output.old) (O.state output.new) result }
{
    write_made_line(output, first)?;
    write_made_line(output, second)
}

/// Writes a text of lines, each in one piece.
pub fn write_lines<O: Sink>(output: &mut O, text: &[u8]) -> Result<(), IoError>
    ensures { Wrote text.now (O.state output.old) (O.state output.new) result }
{
    let mut at = 0;
    while at < text.len() {
        let end = end_of_line(text, at);
        write_piece(output, text, at, end)?;
        at = end;
    }
    Ok(())
}

/// Writes a part of a text in one piece.
fn write_piece<O: Sink>(
    output: &mut O,
    text: &[u8],
    start: usize,
    end: usize,
) -> Result<(), IoError>
    requires rises { start ≤ end }
    requires within { end ≤ length text.now }
    ensures { Wrote (slice_range text.now start end) (O.state output.old) (O.state output.new) result }
{
    write_line(output, &text[start..end])
}

/// Where the line ends that begins there, behind its newline. The last may have none.
#[tactic(auto, using(crate::proofs::LineEnds::line_more, crate::proofs::LineEnds::line_stops, crate::proofs::LineEnds::line_ends))]
fn end_of_line(text: &[u8], start: usize) -> usize
    requires { start < length text.now }
    ensures is { result ≡ start + line_length (drop start text.now) }
    ensures more { start < result }
    ensures within { result ≤ length text.now }
{
    let mut at = start;
    while at < text.len() && text[at] != b'\n' {
        at += 1;
    }
    if at < text.len() { at + 1 } else { at }
}
