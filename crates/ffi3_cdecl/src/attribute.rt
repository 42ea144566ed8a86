//! The bracket behind a word that adds an attribute, or that names a function for the assembler.
ghost use Rattle.std.specs.Prelude.{◌≡◌, ◌≤◌, ◌<◌, ◌+◌, ◌∷◌, IfSome, length, drop, get_or, map};
ghost use Rattle.ffi3_cdecl_spec.specs.Tokens.{front, goes_on_word, unquoted, quoted_behind, hides, begins_with, begins_string, is_blank, is_attribute_at, open_behind, bracket_length, are_silent, is_silent, is_among, silent_attributes, with_lines};
ghost use Rattle.ffi3_cdecl.specs.QuotedOf.{quoted_of};

use crate::bytes::{blank_length, is_letter, word_length};
use crate::token::is;

/// Where a byte of a bracket stands: outside of quotes, between them, or there behind a backslash.
#[derive(Clone, Copy)]
pub enum Quoted {
    Outside,
    Between,
    Escaped,
}

/// Where the next byte stands.
fn next_quoted(quoted: Quoted, b: u8) -> Quoted
    ensures { quoted_of result ≡ quoted_behind (quoted_of quoted) b }
{
    match quoted {
        Quoted::Outside => {
            if b == 34 {
                Quoted::Between
            } else {
                Quoted::Outside
            }
        }
        Quoted::Between => {
            if b == 34 {
                Quoted::Outside
            } else if b == 92 {
                Quoted::Escaped
            } else {
                Quoted::Between
            }
        }
        Quoted::Escaped => Quoted::Between,
    }
}

/// Whether the byte may hide brackets or quotes.
fn hides(quoted: Quoted, b: u8) -> bool
    ensures { result ≡ hides (quoted_of quoted) b }
{
    match quoted {
        Quoted::Outside => b == 47 || b == 39 || b == 92 || b == 82,
        Quoted::Between => b == 10,
        Quoted::Escaped => b == 10,
    }
}

/// Whether a word that begins with this byte is an attribute, or stands where one should.
fn begins_attribute(quoted: Quoted, b: u8, depth: usize) -> bool
    ensures { result ≡ is_attribute_at (quoted_of quoted) b depth }
{
    match quoted {
        Quoted::Outside => is_letter(b) && depth <= 2,
        Quoted::Between => false,
        Quoted::Escaped => false,
    }
}

/// How many brackets are open behind the byte there, where so many are before it.
fn next_open(quoted: Quoted, bytes: &[u8], n: usize, depth: usize) -> usize
    requires there { n < length bytes.now }
    requires few { depth ≤ n }
    ensures value { result ≡ open_behind (quoted_of quoted) (get_or bytes.now n 0) depth }
    ensures few { result ≤ n + 1 }
{
    match quoted {
        Quoted::Outside => {
            if bytes[n] == 40 {
                depth + 1
            } else if bytes[n] == 41 {
                if depth == 0 { 0 } else { depth - 1 }
            } else {
                depth
            }
        }
        Quoted::Between => depth,
        Quoted::Escaped => depth,
    }
}

/// How many bytes a bracket takes with its end, where it has one that is read.
#[tactic(auto, using(crate::proofs::Attributes::bracket_begins, crate::proofs::Attributes::bracket_hidden, crate::proofs::Attributes::bracket_more, crate::proofs::Attributes::bracket_here, crate::proofs::Attributes::bracket_never))]
pub fn bracket_length(bytes: &[u8]) -> Option<usize>
    ensures count { result ≡ bracket_length unquoted 0 bytes.now }
    ensures within { IfSome result (λ n. n ≤ length bytes.now) }
{
    let mut n = 0;
    let mut depth = 0;
    let mut quoted = Quoted::Outside;
    while n < bytes.len() {
        if hides(quoted, bytes[n]) {
            return None;
        }
        let now = next_open(quoted, bytes, n, depth);
        if now == 0 {
            return Some(n + 1);
        }
        quoted = next_quoted(quoted, bytes[n]);
        depth = now;
        n += 1;
    }
    None
}

/// Whether an attribute says nothing of where a value stands.
fn is_silent(word: &[u8]) -> bool
    ensures { result ≡ is_silent word.now }
{
    is_silent_name(word) || is_silent_lined(word)
}

fn is_silent_name(word: &[u8]) -> bool
    ensures { result ≡ is_among word.now silent_attributes }
{
    is(word, b"nothrow")
        || is(word, b"leaf")
        || is(word, b"pure")
        || is(word, b"const")
        || is(word, b"nonnull")
        || is(word, b"malloc")
        || is(word, b"format")
        || is_silent_from_7(word)
}

/// Of the attributes of the table from number 7 on.
fn is_silent_from_7(word: &[u8]) -> bool
    ensures { result ≡ is_among word.now (drop 7 silent_attributes) }
{
    is(word, b"format_arg")
        || is(word, b"warn_unused_result")
        || is(word, b"deprecated")
        || is(word, b"noreturn")
        || is(word, b"visibility")
        || is(word, b"alloc_size")
        || is_silent_from_13(word)
}

/// From number 13 on.
fn is_silent_from_13(word: &[u8]) -> bool
    ensures { result ≡ is_among word.now (drop 13 silent_attributes) }
{
    is(word, b"alloc_align")
        || is(word, b"access")
        || is(word, b"returns_nonnull")
        || is(word, b"returns_twice")
        || is(word, b"sentinel")
        || is(word, b"unused")
        || is_silent_from_19(word)
}

/// From number 19 on.
fn is_silent_from_19(word: &[u8]) -> bool
    ensures { result ≡ is_among word.now (drop 19 silent_attributes) }
{
    is(word, b"weak")
        || is(word, b"cold")
        || is(word, b"hot")
        || is(word, b"always_inline")
        || is(word, b"noinline")
        || is(word, b"warning")
        || is(word, b"error")
}

/// The same with two low lines at both ends.
fn is_silent_lined(word: &[u8]) -> bool
    ensures { result ≡ is_among word.now (map with_lines silent_attributes) }
{
    is(word, b"__nothrow__")
        || is(word, b"__leaf__")
        || is(word, b"__pure__")
        || is(word, b"__const__")
        || is(word, b"__nonnull__")
        || is(word, b"__malloc__")
        || is(word, b"__format__")
        || is_lined_from_7(word)
}

/// From number 7 on.
fn is_lined_from_7(word: &[u8]) -> bool
    ensures { result ≡ is_among word.now (drop 7 (map with_lines silent_attributes)) }
{
    is(word, b"__format_arg__")
        || is(word, b"__warn_unused_result__")
        || is(word, b"__deprecated__")
        || is(word, b"__noreturn__")
        || is(word, b"__visibility__")
        || is(word, b"__alloc_size__")
        || is_lined_from_13(word)
}

/// From number 13 on.
fn is_lined_from_13(word: &[u8]) -> bool
    ensures { result ≡ is_among word.now (drop 13 (map with_lines silent_attributes)) }
{
    is(word, b"__alloc_align__")
        || is(word, b"__access__")
        || is(word, b"__returns_nonnull__")
        || is(word, b"__returns_twice__")
        || is(word, b"__sentinel__")
        || is(word, b"__unused__")
        || is_lined_from_19(word)
}

/// From number 19 on.
fn is_lined_from_19(word: &[u8]) -> bool
    ensures { result ≡ is_among word.now (drop 19 (map with_lines silent_attributes)) }
{
    is(word, b"__weak__")
        || is(word, b"__cold__")
        || is(word, b"__hot__")
        || is(word, b"__always_inline__")
        || is(word, b"__noinline__")
        || is(word, b"__warning__")
        || is(word, b"__error__")
}

/// Whether these bytes begin with a quote.
fn begins_quote(bytes: &[u8]) -> bool
    ensures { result ≡ begins_with 34 bytes.now }
{
    if let [b, ..] = bytes { *b == 34 } else { false }
}

/// The bytes behind the blanks at the front.
fn behind_blanks(bytes: &[u8]) -> &[u8]
    ensures { result.now ≡ drop (length (front is_blank bytes.now)) bytes.now }
{
    &bytes[blank_length(bytes)..]
}

/// Whether a string stands behind the mark that opens a bracket.
#[tactic(auto, using(crate::proofs::Attributes::no_string))]
pub fn begins_string(bracket: &[u8]) -> bool
    ensures { result ≡ begins_string bracket.now }
{
    if bracket.len() == 0 {
        return false;
    }
    begins_quote(behind_blanks(&bracket[1..]))
}

fn behind(bracket: &[u8], n: usize) -> &[u8]
    requires { n < length bracket.now }
    ensures { result.now ≡ drop (n + 1) bracket.now }
{
    &bracket[n + 1..]
}

/// How many bytes of the word at a byte stand behind its first.
fn more_of_word(bracket: &[u8], n: usize) -> usize
    requires { n < length bracket.now }
    ensures value { result ≡ length (front goes_on_word (drop (n + 1) bracket.now)) }
    ensures within { n + result < length bracket.now }
{
    word_length(behind(bracket, n))
}

/// Whether the word at a byte is a silent attribute.
fn silent_at(bracket: &[u8], n: usize, more: usize) -> bool
    requires there { n < length bracket.now }
    requires word { more ≡ length (front goes_on_word (drop (n + 1) bracket.now)) }
    requires within { n + more < length bracket.now }
    ensures { result ≡ is_silent (get_or bracket.now n 0 ∷ front goes_on_word (drop (n + 1) bracket.now)) }
{
    is_silent(&bracket[n..n + 1 + more])
}

/// Whether all attributes inside two brackets are silent, and none stands inside one alone.
#[tactic(auto, using(crate::proofs::Attributes::byte_more, crate::proofs::Attributes::word_goes_on, crate::proofs::Attributes::word_tells, crate::proofs::Attributes::word_alone, crate::proofs::Attributes::all_gone))]
pub fn are_silent(bracket: &[u8]) -> bool
    ensures { result ≡ are_silent bracket.now }
{
    let mut n = 0;
    let mut depth = 0;
    let mut quoted = Quoted::Outside;
    while n < bracket.len() {
        if begins_attribute(quoted, bracket[n], depth) {
            if depth != 2 {
                return false;
            }
            let more = more_of_word(bracket, n);
            if !silent_at(bracket, n, more) {
                return false;
            }
            n += 1 + more;
        } else {
            depth = next_open(quoted, bracket, n, depth);
            quoted = next_quoted(quoted, bracket[n]);
            n += 1;
        }
    }
    true
}
