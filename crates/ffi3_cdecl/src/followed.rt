//! What follows a word that attributes, or a name for the assembler, follow, in the wide reading.
ghost use Rattle.std.specs.Prelude.{◌≡◌, ◌≤◌, ◌+◌, cond, length};
ghost use Rattle.ffi3_cdecl_spec.specs.Tokens.{attribute_words, assembler_words, is_among, are_silent, begins_string, begins_with, attribute_at, skipped, found, attribute_word};
ghost use Rattle.ffi3_cdecl.specs.TokenOf.{found_of};

use crate::attribute::{are_silent, begins_string, bracket_length};
use crate::bytes::blank_length;
use crate::token::{Found, Token, from, is, upto};

/// Whether a bracket of attributes follows the word.
pub fn is_attribute_word(bytes: &[u8]) -> bool
    ensures { result ≡ is_among bytes.now attribute_words }
{
    if is(bytes, b"__attribute__") {
        true
    } else if is(bytes, b"__attribute") {
        true
    } else {
        false
    }
}

/// Whether a bracket with a name for the assembler follows it.
pub fn is_assembler_word(bytes: &[u8]) -> bool
    ensures { result ≡ is_among bytes.now assembler_words }
{
    if is(bytes, b"__asm__") {
        true
    } else if is(bytes, b"__asm") {
        true
    } else if is(bytes, b"asm") {
        true
    } else {
        false
    }
}

/// Whether these bytes begin with a "(".
fn opens(bytes: &[u8]) -> bool
    ensures { result ≡ begins_with 40 bytes.now }
{
    if let [b, ..] = bytes { *b == 40 } else { false }
}

/// A bracket behind a word, of so many bytes in all.
fn bracketed(silent: bool, length: usize) -> Found<'static>
    ensures { found_of result ≡ cond silent (skipped length) (found attribute_word length) }
{
    if silent {
        Found::Skipped(length)
    } else {
        Found::Token(Token::Attribute, length)
    }
}

/// What follows a word that attributes follow: a blank where all of them are silent, else an attribute.
#[tactic(auto, using(crate::proofs::Following::no_bracket, crate::proofs::Following::bracket_open, crate::proofs::Following::bracket_closed))]
pub fn attribute(rest: &[u8], more: usize) -> Found<'static>
    requires { more + length rest.now ≤ 0x7FFF_FFFF_FFFF_FFFF }
    ensures { found_of result ≡ attribute_at are_silent more rest.now }
{
    let blanks = blank_length(rest);
    let bracket = from(rest, blanks);
    if !opens(bracket) {
        return Found::Token(Token::Attribute, more);
    }
    match bracket_length(bracket) {
        None => Found::Nothing,
        Some(n) => bracketed(are_silent(upto(bracket, n)), more + blanks + n),
    }
}

/// What follows a word that a name for the assembler follows: a blank where a string stands in the bracket.
#[tactic(auto, using(crate::proofs::Following::no_bracket, crate::proofs::Following::bracket_open, crate::proofs::Following::bracket_of_string))]
pub fn assembler(rest: &[u8], more: usize) -> Found<'static>
    requires { more + length rest.now ≤ 0x7FFF_FFFF_FFFF_FFFF }
    ensures { found_of result ≡ attribute_at begins_string more rest.now }
{
    let blanks = blank_length(rest);
    let bracket = from(rest, blanks);
    if !opens(bracket) {
        return Found::Token(Token::Attribute, more);
    }
    match bracket_length(bracket) {
        None => Found::Nothing,
        Some(n) => bracketed(begins_string(upto(bracket, n)), more + blanks + n),
    }
}
