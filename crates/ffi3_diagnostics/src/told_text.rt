//! What is told of an unexpected place, in words, and the line of a text with a mark below a place.
ghost use Rattle.std.specs.Prelude.{◌≡◌, ◌++◌, ◌≤◌, [], IfOk, OnOk, length, map, min, take, drop};
ghost use Rattle.ffi3_cdecl_spec.specs.Tokens.{front};
ghost use Rattle.ffi3_diagnostics_spec.specs.ToldText.{kind_words, between, one_of, expected_words, named_words, base_words, reason_words, why_words, shown, printable, stood_words, told_words, goes_on_line, last_line, without_end, marked_at, goes_on_character, blanks_below, marked_lines, lines_at};
ghost use Rattle.ffi3_diagnostics.specs.ToldOf.{expected_of, kinds_of, base_of, reason_of, reason_or_not, told_of};

use crate::expected::Expected;
use crate::told::{Reason, Told};
use crate::track::Base;
use ffi3_cdecl::is_blank;
use ffi3_cdecl::token::{from, is, upto};
use ffi3_types::{Bytes, NoMemory};
use std::alloc::Global;

/// The kind in words.
fn kind_words(kind: Expected) -> &'static str
    ensures { result.now ≡ kind_words (expected_of kind) }
{
    match kind {
        Expected::Type => "a type",
        Expected::Name => "a name",
        Expected::Number => "a number",
        Expected::CloseRound => "')'",
        Expected::Comma => "','",
        Expected::Semicolon => "';'",
        Expected::End => "the end",
        Expected::Star => "'*'",
        Expected::CloseSquare => "']'",
        Expected::CloseCurly => "'}'",
        Expected::OpenCurly => "'{'",
        Expected::OpenRound => "'('",
        Expected::OpenSquare => "'['",
        Expected::Dots => "'...'",
        Expected::Word => "a further word of the type",
    }
}

/// What stands between a kind and so many others.
fn between(left: usize) -> &'static str
    ensures { result.now ≡ between left }
{
    match left {
        0 => "",
        1 => " or ",
        _ => ", ",
    }
}

/// A kind, of which so many others stand behind.
fn put_kind(out: &mut Bytes, kind: Expected, left: usize) -> Result<(), NoMemory>
    ensures { OnOk result (out.new ≡ (out.old ++ kind_words (expected_of kind)) ++ between left) }
{
    out.extend(kind_words(kind).as_bytes())?;
    out.extend(between(left).as_bytes())
}

/// The kinds in words, "a, b or c".
#[tactic(auto, using(crate::proofs::Wording::one_kind, crate::proofs::Wording::no_kind))]
fn put_kinds(out: &mut Bytes, kinds: &[Expected]) -> Result<(), NoMemory>
    ensures { OnOk result (out.new ≡ out.old ++ one_of (kinds_of kinds.now)) }
{
    for i in 0..kinds.len() {
        put_kind(out, kinds[i], kinds.len() - i - 1)?;
    }
    Ok(())
}

/// What could have stood there.
#[tactic(auto, using(crate::proofs::Wording::none_expected, crate::proofs::Wording::some_expected))]
fn put_expected(out: &mut Bytes, kinds: &[Expected]) -> Result<(), NoMemory>
    ensures { OnOk result (out.new ≡ out.old ++ expected_words (kinds_of kinds.now)) }
{
    if kinds.len() == 0 {
        return Ok(());
    }
    out.extend(", expected ".as_bytes())?;
    put_kinds(out, kinds)
}

/// Words before and behind others.
#[tactic(auto, using(crate::proofs::Wording::three_words))]
fn put_three(out: &mut Bytes, first: &str, second: &[u8], third: &str) -> Result<(), NoMemory>
    ensures { OnOk result (out.new ≡ out.old ++ (first.now ++ (second.now ++ third.now))) }
{
    out.extend(first.as_bytes())?;
    out.extend(second)?;
    out.extend(third.as_bytes())
}

/// A type by its name alone, and what to write in its place.
fn put_named(out: &mut Bytes, called: &[u8]) -> Result<(), NoMemory>
    ensures { OnOk result (out.new ≡ out.old ++ named_words called.now) }
{
    if is(called, b"wchar_t") {
        return out.extend(
            "wchar_t is another type on each machine: write int, unsigned int or unsigned short".as_bytes(),
        );
    }
    put_three(
        out,
        "",
        called,
        " is no type that is known here: write the type that it stands for, or a pointer",
    )
}

/// A type by value whose size the text does not tell.
fn put_base(out: &mut Bytes, base: Base<'_>) -> Result<(), NoMemory>
    ensures { OnOk result (out.new ≡ out.old ++ base_words (base_of base.entry)) }
{
    match base {
        Base::Struct(tag) => put_three(
            out,
            "struct ",
            tag,
            " has no members here: write them behind the tag, in { }, or a pointer",
        ),
        Base::Union(tag) => put_three(out, "union ", tag, " by value is not read"),
        Base::Enum(tag) => put_three(
            out,
            "enum ",
            tag,
            " is the type that its compiler chose: write int or unsigned int",
        ),
        Base::Named(called) => put_named(out, called),
    }
}

/// Why a token is unexpected.
fn put_reason(out: &mut Bytes, reason: Reason<'_>) -> Result<(), NoMemory>
    ensures { OnOk result (out.new ≡ out.old ++ reason_words (reason_of reason.entry)) }
{
    match reason {
        Reason::Attribute => {
            out.extend("an attribute that may change how a value is passed".as_bytes())
        }
        Reason::Keyword => out.extend("a keyword that is not read here".as_bytes()),
        Reason::ByValue(base) => put_base(out, base),
    }
}

/// The reason, where a word tells it, or what could have stood there.
#[tactic(auto, using(crate::proofs::Wording::some_reason))]
fn put_why(out: &mut Bytes, why: Option<Reason<'_>>, kinds: &[Expected]) -> Result<(), NoMemory>
    ensures { OnOk result (out.new ≡ out.old ++ why_words (reason_or_not why.entry) (kinds_of kinds.now)) }
{
    match why {
        Some(reason) => {
            out.extend(": ".as_bytes())?;
            put_reason(out, reason)
        }
        None => put_expected(out, kinds),
    }
}

/// A byte of a token, as it is shown: what is no printable character of ASCII is a blank.
fn printable(b: u8) -> u8
    ensures { result ≡ printable b }
{
    if b >= 32 && b <= 126 { b } else { 32 }
}

/// Bytes of a token, as they are shown.
#[tactic(auto, using(crate::proofs::Wording::printable_more, crate::proofs::Wording::printable_end))]
fn put_printable(out: &mut Bytes, bytes: &[u8]) -> Result<(), NoMemory>
    ensures { OnOk result (out.new ≡ out.old ++ map printable bytes.now) }
{
    for i in 0..bytes.len() {
        out.push(printable(bytes[i]))?;
    }
    Ok(())
}

/// A byte of a line, as it is shown: a control character is a blank.
fn shown(b: u8) -> u8
    ensures { result ≡ shown b }
{
    if b >= 32 && b != 127 { b } else { 32 }
}

/// Bytes of a line, as they are shown.
#[tactic(auto, using(crate::proofs::Wording::shown_more, crate::proofs::Wording::shown_end))]
fn put_shown(out: &mut Bytes, bytes: &[u8]) -> Result<(), NoMemory>
    ensures { OnOk result (out.new ≡ out.old ++ map shown bytes.now) }
{
    for i in 0..bytes.len() {
        out.push(shown(bytes[i]))?;
    }
    Ok(())
}

/// What stands there: a token of so many bytes, or the end.
#[tactic(auto, using(crate::proofs::Wording::end_stood, crate::proofs::Wording::token_stood))]
fn put_stood(out: &mut Bytes, taken: usize, rest: &[u8]) -> Result<(), NoMemory>
    ensures { OnOk result (out.new ≡ out.old ++ stood_words taken rest.now) }
{
    if taken == 0 {
        return out.extend("end".as_bytes());
    }
    out.extend("'".as_bytes())?;
    put_printable(out, first(rest, taken.min(40)))?;
    out.extend("'".as_bytes())
}

/// So many bytes at the front, or all.
#[tactic(auto, using(crate::proofs::Wording::all_taken))]
fn first(bytes: &[u8], n: usize) -> &[u8]
    ensures { result.now ≡ take n bytes.now }
{
    if n <= bytes.len() {
        upto(bytes, n)
    } else {
        bytes
    }
}

/// The bytes behind so many, or none.
#[tactic(auto, using(crate::proofs::Wording::none_left))]
fn behind(bytes: &[u8], n: usize) -> &[u8]
    ensures { result.now ≡ drop n bytes.now }
{
    if n <= bytes.len() {
        from(bytes, n)
    } else {
        b""
    }
}

/// What is told of an unexpected place, in words: what stands there, and why it does not fit or what could have stood
/// there.
#[tactic(auto, using(crate::proofs::Wording::all_words))]
pub fn told_words(alloc: Global, text: &str, at: usize, told: &Told<'_>) -> Result<Bytes, NoMemory>
    ensures { IfOk result (λ words. words ≡ told_words text.now at (told_of told.now)) }
{
    let mut out = Bytes::from_slice(alloc, "unexpected ".as_bytes())?;
    put_stood(&mut out, told.taken, behind(text.as_bytes(), at))?;
    put_why(&mut out, told.reason, told.expected.as_slice())?;
    Ok(out)
}

/// Whether the line goes on with this byte.
fn goes_on_line(b: u8) -> bool
    ensures { result ≡ goes_on_line b }
{
    b != 10
}

/// Whether the byte begins no character.
fn goes_on_character(b: u8) -> bool
    ensures { result ≡ goes_on_character b }
{
    128 <= b && b <= 191
}

/// What stands behind the last newline.
#[tactic(auto, using(crate::proofs::Wording::line_more, crate::proofs::Wording::line_begins, crate::proofs::Wording::line_end))]
fn last_line(alloc: Global, bytes: &[u8]) -> Result<Bytes, NoMemory>
    ensures { IfOk result (λ line. line ≡ last_line [] bytes.now) }
{
    let mut line = Bytes::new(alloc);
    for i in 0..bytes.len() {
        if goes_on_line(bytes[i]) {
            line.push(bytes[i])?;
        } else {
            line = Bytes::new(alloc);
        }
    }
    Ok(line)
}

/// How many bytes stand before the end of the line.
#[tactic(auto, using(crate::proofs::Wording::on_line_more, crate::proofs::Wording::on_line_ends, crate::proofs::Wording::on_line_stops))]
fn rest_of_line(bytes: &[u8]) -> usize
    ensures count { result ≡ length (front goes_on_line bytes.now) }
    ensures within { result ≤ length bytes.now }
{
    let mut n = 0;
    while n < bytes.len() && goes_on_line(bytes[n]) {
        n += 1;
    }
    n
}

/// How many bytes stand before the blanks at the end of a text.
#[tactic(auto, using(crate::proofs::Wording::solid_more, crate::proofs::Wording::blank_more, crate::proofs::Wording::solid_end, crate::proofs::Wording::from_nothing))]
fn without_end(bytes: &[u8]) -> usize
    ensures { result ≡ without_end bytes.now }
{
    let mut end = 0;
    for i in 0..bytes.len() {
        if !is_blank(bytes[i]) {
            end = i + 1;
        }
    }
    end
}

/// The place that is marked.
fn marked_at(bytes: &[u8], at: usize) -> usize
    ensures { result ≡ marked_at bytes.now at }
{
    at.min(without_end(bytes))
}

/// A blank below each character.
#[tactic(auto, using(crate::proofs::Wording::blank_below, crate::proofs::Wording::no_blank_below, crate::proofs::Wording::below_end))]
fn put_blanks(out: &mut Bytes, line: &[u8]) -> Result<(), NoMemory>
    ensures { OnOk result (out.new ≡ out.old ++ blanks_below line.now) }
{
    for i in 0..line.len() {
        if !goes_on_character(line[i]) {
            out.push(32)?;
        }
    }
    Ok(())
}

/// The line with a mark below it.
#[tactic(auto, using(crate::proofs::Wording::all_marked))]
fn marked_lines(alloc: Global, before: &[u8], behind: &[u8]) -> Result<Bytes, NoMemory>
    ensures { IfOk result (λ lines. lines ≡ marked_lines before.now behind.now) }
{
    let mut out = Bytes::new(alloc);
    put_shown(&mut out, before)?;
    put_shown(&mut out, first(behind, rest_of_line(behind)))?;
    out.push(10)?;
    put_blanks(&mut out, before)?;
    out.extend("^\n".as_bytes())?;
    Ok(out)
}

/// The line of a text that has a place, and below it a line with a "^" at the place, each with its newline.
#[tactic(auto, using(crate::proofs::Wording::line_there))]
pub fn lines_at(alloc: Global, text: &str, at: usize) -> Result<Bytes, NoMemory>
    ensures { IfOk result (λ lines. lines ≡ lines_at text.now at) }
{
    let bytes = text.as_bytes();
    let place = marked_at(bytes, at);
    let before = last_line(alloc, first(bytes, place))?;
    marked_lines(alloc, before.as_slice(), behind(bytes, place))
}
