//! The token at the front of some bytes.
ghost use Rattle.std.specs.Prelude.{◌≡◌, ◌<◌, ◌≤◌, ◌+◌, ◌-◌, take, true, length, get_or, drop, ◌∷◌, bytes_eq};
ghost use Rattle.std.specs.Prelude.{◌++◌};
ghost use Rattle.ffi3_cdecl_spec.specs.Tokens.{word_among, words, word_of, mark_among, marks, dots_at, found, front, goes_on_word, is_digit, number_at, found_at, blank_words, more_words, wide_words, is_among, wide_word, wide_word_at, comment_at, wide_found_at, found_in};
ghost use Rattle.ffi3_cdecl.specs.TokenOf.{dialect_of, sign_of, token_of, mark_of, found_of, is_close_round, is_close_square, is_semicolon};

use crate::bytes::{
    comment_length, digits_length, is_blank, is_digit, is_letter, line_length, number, word_length,
};
use crate::followed::{assembler, attribute, is_assembler_word, is_attribute_word};

/// The two readings of a text: the plain one, and the wide one, of prototypes as people write them.
#[derive(Clone, Copy)]
pub enum Dialect {
    Plain,
    Wide,
}

/// A type that one word names.
#[derive(Clone, Copy)]
pub enum TypeWord {
    U8,
    S8,
    U16,
    S16,
    U32,
    S32,
    U64,
    S64,
    Float,
    Double,
}

/// A word of sign.
#[derive(Clone, Copy, Debug, PartialEq, Eq)]
pub enum Sign {
    Signed,
    Unsigned,
}

/// A word or a mark of a declaration.
#[derive(Clone, Copy)]
pub enum Token<'a> {
    Type(TypeWord),
    Sign(Sign),
    Const,
    Short,
    Int,
    Long,
    Int128,
    /// `char`, and whether it is signed where no word says so.
    Char(Sign),
    Void,
    Struct,
    Union,
    Enum,
    Complex,
    /// An attribute.
    Attribute,
    /// A keyword that no declaration here has.
    Keyword,
    Name(&'a [u8]),
    Number(u64),
    OpenRound,
    CloseRound,
    OpenCurly,
    CloseCurly,
    OpenSquare,
    CloseSquare,
    Comma,
    Semicolon,
    Star,
    Dots,
}

/// Whether it is a ")". A caller that asks so has two ways out, and not one for each token.
pub fn is_close_round(token: Token<'_>) -> bool
    ensures { result ≡ is_close_round (token_of token.entry) }
{
    match token {
        Token::CloseRound => true,
        _ => false,
    }
}

/// Whether it is a "]". A caller that asks so has two ways out, and not one for each token.
pub fn is_close_square(token: Token<'_>) -> bool
    ensures { result ≡ is_close_square (token_of token.entry) }
{
    match token {
        Token::CloseSquare => true,
        _ => false,
    }
}

/// Whether it is a ";". A caller that asks so has two ways out, and not one for each token.
pub fn is_semicolon(token: Token<'_>) -> bool
    ensures { result ≡ is_semicolon (token_of token.entry) }
{
    match token {
        Token::Semicolon => true,
        _ => false,
    }
}

/// What mark of one byte it is.
fn mark(b: u8) -> Option<Token<'static>>
    ensures { mark_of result ≡ mark_among b marks }
{
    match b {
        b'(' => Some(Token::OpenRound),
        b')' => Some(Token::CloseRound),
        b'{' => Some(Token::OpenCurly),
        b'}' => Some(Token::CloseCurly),
        b'[' => Some(Token::OpenSquare),
        b']' => Some(Token::CloseSquare),
        b',' => Some(Token::Comma),
        b';' => Some(Token::Semicolon),
        b'*' => Some(Token::Star),
        _ => None,
    }
}

/// What stands at a byte.
#[derive(Clone, Copy)]
pub enum Found<'a> {
    Blank,
    /// What is passed over, and how many bytes more it takes.
    Skipped(usize),
    Nothing,
    /// A token, and how many bytes more it takes.
    Token(Token<'a>, usize),
}

/// Three dots, where these bytes stand behind the first.
fn dots(rest: &[u8]) -> Found<'static>
    ensures { found_of result ≡ dots_at rest.now }
{
    if let [46, 46, ..] = rest {
        Found::Token(Token::Dots, 2)
    } else {
        Found::Nothing
    }
}

/// Whether these are the bytes of a word.
pub fn is(bytes: &[u8], word: &[u8]) -> bool
    ensures { result ≡ bytes_eq bytes.now word.now }
{
    bytes == word
}

/// What a word is.
fn word(bytes: &[u8]) -> Token<'_>
    ensures { token_of result ≡ word_of bytes.now }
{
    if is(bytes, b"float") {
        Token::Type(TypeWord::Float)
    } else if is(bytes, b"double") {
        Token::Type(TypeWord::Double)
    } else if is(bytes, b"int8_t") {
        Token::Type(TypeWord::S8)
    } else if is(bytes, b"int16_t") {
        Token::Type(TypeWord::S16)
    } else if is(bytes, b"int32_t") {
        Token::Type(TypeWord::S32)
    } else if is(bytes, b"int64_t") {
        Token::Type(TypeWord::S64)
    } else {
        word_from_6(bytes)
    }
}

/// Of the words of the table from number 6 on.
fn word_from_6(bytes: &[u8]) -> Token<'_>
    ensures { token_of result ≡ word_among bytes.now (drop 6 words) }
{
    if is(bytes, b"uint8_t") {
        Token::Type(TypeWord::U8)
    } else if is(bytes, b"uint16_t") {
        Token::Type(TypeWord::U16)
    } else if is(bytes, b"uint32_t") {
        Token::Type(TypeWord::U32)
    } else if is(bytes, b"uint64_t") {
        Token::Type(TypeWord::U64)
    } else if is(bytes, b"size_t") {
        Token::Type(TypeWord::U64)
    } else if is(bytes, b"uintptr_t") {
        Token::Type(TypeWord::U64)
    } else {
        word_from_12(bytes)
    }
}

/// And from number 12 on.
fn word_from_12(bytes: &[u8]) -> Token<'_>
    ensures { token_of result ≡ word_among bytes.now (drop 12 words) }
{
    if is(bytes, b"intptr_t") {
        Token::Type(TypeWord::S64)
    } else if is(bytes, b"signed") {
        Token::Sign(Sign::Signed)
    } else if is(bytes, b"unsigned") {
        Token::Sign(Sign::Unsigned)
    } else if is(bytes, b"const") {
        Token::Const
    } else if is(bytes, b"short") {
        Token::Short
    } else if is(bytes, b"int") {
        Token::Int
    } else {
        word_from_18(bytes)
    }
}

/// And from number 18 on.
fn word_from_18(bytes: &[u8]) -> Token<'_>
    ensures { token_of result ≡ word_among bytes.now (drop 18 words) }
{
    if is(bytes, b"long") {
        Token::Long
    } else if is(bytes, b"__int128") {
        Token::Int128
    } else if is(bytes, b"char") {
        Token::Char(Sign::Signed)
    } else if is(bytes, b"void") {
        Token::Void
    } else if is(bytes, b"struct") {
        Token::Struct
    } else {
        Token::Name(bytes)
    }
}

/// Whether it is a word without meaning for where a value stands.
fn is_blank_word(bytes: &[u8]) -> bool
    ensures { result ≡ is_among bytes.now blank_words }
{
    if is(bytes, b"const") {
        true
    } else if is(bytes, b"volatile") {
        true
    } else if is(bytes, b"restrict") {
        true
    } else if is(bytes, b"__restrict") {
        true
    } else if is(bytes, b"__restrict__") {
        true
    } else if is(bytes, b"extern") {
        true
    } else {
        is_blank_word_from_6(bytes)
    }
}

/// Of those of the table from number 6 on.
fn is_blank_word_from_6(bytes: &[u8]) -> bool
    ensures { result ≡ is_among bytes.now (drop 6 blank_words) }
{
    if is(bytes, b"static") {
        true
    } else if is(bytes, b"inline") {
        true
    } else if is(bytes, b"__inline") {
        true
    } else if is(bytes, b"register") {
        true
    } else if is(bytes, b"_Noreturn") {
        true
    } else if is(bytes, b"__extension__") {
        true
    } else {
        is_blank_word_from_12(bytes)
    }
}

/// And from number 12 on.
fn is_blank_word_from_12(bytes: &[u8]) -> bool
    ensures { result ≡ is_among bytes.now (drop 12 blank_words) }
{
    if is(bytes, b"__inline__") {
        true
    } else if is(bytes, b"__const") {
        true
    } else if is(bytes, b"__const__") {
        true
    } else if is(bytes, b"__volatile") {
        true
    } else if is(bytes, b"__volatile__") {
        true
    } else {
        false
    }
}

/// What a word is in the wide reading, if it is not passed over and not `char`.
fn more_word(bytes: &[u8]) -> Token<'_>
    ensures { token_of result ≡ word_among bytes.now (more_words ++ words) }
{
    if is(bytes, b"_Bool") {
        Token::Type(TypeWord::U8)
    } else if is(bytes, b"_Complex") {
        Token::Complex
    } else if is(bytes, b"union") {
        Token::Union
    } else if is(bytes, b"enum") {
        Token::Enum
    } else if is(bytes, b"__declspec") {
        Token::Attribute
    } else if is(bytes, b"_Alignas") {
        Token::Attribute
    } else {
        more_word_from_6(bytes)
    }
}

/// From number 6 on.
fn more_word_from_6(bytes: &[u8]) -> Token<'_>
    ensures { token_of result ≡ word_among bytes.now (drop 6 (more_words ++ words)) }
{
    if is(bytes, b"auto") {
        Token::Keyword
    } else if is(bytes, b"break") {
        Token::Keyword
    } else if is(bytes, b"case") {
        Token::Keyword
    } else if is(bytes, b"continue") {
        Token::Keyword
    } else if is(bytes, b"default") {
        Token::Keyword
    } else if is(bytes, b"do") {
        Token::Keyword
    } else {
        more_word_from_12(bytes)
    }
}

/// From number 12 on.
fn more_word_from_12(bytes: &[u8]) -> Token<'_>
    ensures { token_of result ≡ word_among bytes.now (drop 12 (more_words ++ words)) }
{
    if is(bytes, b"else") {
        Token::Keyword
    } else if is(bytes, b"for") {
        Token::Keyword
    } else if is(bytes, b"goto") {
        Token::Keyword
    } else if is(bytes, b"if") {
        Token::Keyword
    } else if is(bytes, b"return") {
        Token::Keyword
    } else if is(bytes, b"sizeof") {
        Token::Keyword
    } else {
        more_word_from_18(bytes)
    }
}

/// From number 18 on.
fn more_word_from_18(bytes: &[u8]) -> Token<'_>
    ensures { token_of result ≡ word_among bytes.now (drop 18 (more_words ++ words)) }
{
    if is(bytes, b"switch") {
        Token::Keyword
    } else if is(bytes, b"typedef") {
        Token::Keyword
    } else if is(bytes, b"while") {
        Token::Keyword
    } else if is(bytes, b"_Alignof") {
        Token::Keyword
    } else if is(bytes, b"_Atomic") {
        Token::Keyword
    } else if is(bytes, b"_Generic") {
        Token::Keyword
    } else {
        more_word_from_24(bytes)
    }
}

/// From number 24 on.
fn more_word_from_24(bytes: &[u8]) -> Token<'_>
    ensures { token_of result ≡ word_among bytes.now (drop 24 (more_words ++ words)) }
{
    if is(bytes, b"_Imaginary") {
        Token::Keyword
    } else if is(bytes, b"_Static_assert") {
        Token::Keyword
    } else if is(bytes, b"_Thread_local") {
        Token::Keyword
    } else {
        more_word_from_27(bytes)
    }
}

/// From number 27 on.
fn more_word_from_27(bytes: &[u8]) -> Token<'_>
    ensures { token_of result ≡ word_among bytes.now (drop 27 (more_words ++ words)) }
{
    if is(bytes, b"complex") {
        Token::Complex
    } else if is(bytes, b"__complex") {
        Token::Complex
    } else if is(bytes, b"__complex__") {
        Token::Complex
    } else if is(bytes, b"__signed") {
        Token::Sign(Sign::Signed)
    } else if is(bytes, b"__signed__") {
        Token::Sign(Sign::Signed)
    } else {
        more_word_from_32(bytes)
    }
}

/// From number 32 on.
fn more_word_from_32(bytes: &[u8]) -> Token<'_>
    ensures { token_of result ≡ word_among bytes.now (drop 32 (more_words ++ words)) }
{
    if is(bytes, b"typeof") {
        Token::Keyword
    } else if is(bytes, b"__typeof") {
        Token::Keyword
    } else if is(bytes, b"__typeof__") {
        Token::Keyword
    } else if is(bytes, b"typeof_unqual") {
        Token::Keyword
    } else if is(bytes, b"__alignof__") {
        Token::Keyword
    } else if is(bytes, b"__auto_type") {
        Token::Keyword
    } else {
        more_word_from_38(bytes)
    }
}

/// From number 38 on.
fn more_word_from_38(bytes: &[u8]) -> Token<'_>
    ensures { token_of result ≡ word_among bytes.now (drop 38 (more_words ++ words)) }
{
    if is(bytes, b"_BitInt") {
        Token::Keyword
    } else if is(bytes, b"__int8") {
        Token::Keyword
    } else if is(bytes, b"__int16") {
        Token::Keyword
    } else if is(bytes, b"__int32") {
        Token::Keyword
    } else if is(bytes, b"__int64") {
        Token::Keyword
    } else if is(bytes, b"__ptr32") {
        Token::Keyword
    } else {
        more_word_from_44(bytes)
    }
}

/// From number 44 on.
fn more_word_from_44(bytes: &[u8]) -> Token<'_>
    ensures { token_of result ≡ word_among bytes.now (drop 44 (more_words ++ words)) }
{
    if is(bytes, b"__int128__") {
        Token::Int128
    } else if is(bytes, b"_int8") {
        Token::Keyword
    } else if is(bytes, b"_int16") {
        Token::Keyword
    } else if is(bytes, b"_int32") {
        Token::Keyword
    } else if is(bytes, b"_int64") {
        Token::Keyword
    } else {
        more_word_from_49(bytes)
    }
}

/// From number 49 on.
fn more_word_from_49(bytes: &[u8]) -> Token<'_>
    ensures { token_of result ≡ word_among bytes.now (drop 49 (more_words ++ words)) }
{
    if is(bytes, b"_ptr32") {
        Token::Keyword
    } else if is(bytes, b"_ExtInt") {
        Token::Keyword
    } else if is(bytes, b"_Fract") {
        Token::Keyword
    } else if is(bytes, b"_Accum") {
        Token::Keyword
    } else if is(bytes, b"_Sat") {
        Token::Keyword
    } else {
        word(bytes)
    }
}

/// What a word is in the wide reading, if it is not passed over.
fn wide_token(c: Sign, bytes: &[u8]) -> Token<'_>
    ensures { token_of result ≡ word_among bytes.now (wide_words (sign_of c)) }
{
    if is(bytes, b"char") {
        Token::Char(c)
    } else {
        more_word(bytes)
    }
}

/// A word in the wide reading, with so many bytes behind its first.
fn wide_word(c: Sign, bytes: &[u8], more: usize) -> Found<'_>
    ensures { found_of result ≡ wide_word (sign_of c) bytes.now more }
{
    if is_blank_word(bytes) {
        Found::Skipped(more)
    } else {
        Found::Token(wide_token(c, bytes), more)
    }
}

/// The bytes behind a byte.
pub fn behind(text: &[u8], at: usize) -> &[u8]
    requires { at < length text.now }
    ensures { result.now ≡ drop (at + 1) text.now }
{
    &text[at + 1..]
}

/// The word at a byte.
fn word_at(text: &[u8], at: usize) -> Found<'_>
    requires { at < length text.now }
    ensures { found_of result ≡ found (word_of (get_or text.now at 0 ∷ front goes_on_word (drop (at + 1) text.now))) (length (front goes_on_word (drop (at + 1) text.now))) }
{
    let more = word_length(behind(text, at));
    Found::Token(word(&text[at..at + 1 + more]), more)
}

/// The number at a byte, or nothing where it has a 0 in front.
fn number_at(text: &[u8], at: usize) -> Found<'_>
    requires there { at < length text.now }
    requires digit { is_digit (get_or text.now at 0) ≡ true }
    ensures { found_of result ≡ number_at (get_or text.now at 0) (front is_digit (drop (at + 1) text.now)) }
{
    let more = digits_length(behind(text, at));
    if text[at] == 48 {
        if more == 0 {
            Found::Token(Token::Number(0), 0)
        } else {
            Found::Nothing
        }
    } else {
        Found::Token(Token::Number(number(&text[at..at + 1 + more])), more)
    }
}

/// A mark of one byte, or nothing.
fn mark_at(b: u8) -> Found<'static>
    ensures { found_of result ≡ mark_among b marks }
{
    match mark(b) {
        Some(token) => Found::Token(token, 0),
        None => Found::Nothing,
    }
}

/// The longest token at a byte.
fn found_at(text: &[u8], at: usize) -> Found<'_>
    requires { at < length text.now }
    ensures { found_of result ≡ found_at (get_or text.now at 0) (drop (at + 1) text.now) }
{
    let b = text[at];
    if is_blank(b) {
        Found::Blank
    } else if is_letter(b) {
        word_at(text, at)
    } else if is_digit(b) {
        number_at(text, at)
    } else if b == 46 {
        dots(behind(text, at))
    } else {
        mark_at(b)
    }
}

/// The bytes from a byte on.
pub fn from(text: &[u8], at: usize) -> &[u8]
    requires { at ≤ length text.now }
    ensures value { result.now ≡ drop at text.now }
    ensures count { length result.now ≡ length text.now - at }
{
    &text[at..]
}

/// The bytes before a byte.
pub fn upto(text: &[u8], at: usize) -> &[u8]
    requires { at ≤ length text.now }
    ensures { result.now ≡ take at text.now }
{
    &text[..at]
}

/// The word at a byte in the wide reading.
fn wide_word_at(c: Sign, text: &[u8], at: usize) -> Found<'_>
    requires { at < length text.now }
    ensures { found_of result ≡ wide_word_at (sign_of c) (get_or text.now at 0 ∷ front goes_on_word (drop (at + 1) text.now)) (length (front goes_on_word (drop (at + 1) text.now))) (drop (length (front goes_on_word (drop (at + 1) text.now))) (drop (at + 1) text.now)) }
{
    let more = word_length(behind(text, at));
    let rest = from(text, at + 1 + more);
    word_and_rest(c, &text[at..at + 1 + more], more, rest)
}

/// A word in the wide reading, how many bytes stand behind its first, and the bytes behind it.
fn word_and_rest<'t>(c: Sign, word: &'t [u8], more: usize, rest: &[u8]) -> Found<'t>
    requires { more + length rest.now ≤ 0x7FFF_FFFF_FFFF_FFFF }
    ensures { found_of result ≡ wide_word_at (sign_of c) word.now more rest.now }
{
    if is_attribute_word(word) {
        attribute(rest, more)
    } else if is_assembler_word(word) {
        assembler(rest, more)
    } else {
        wide_word(c, word, more)
    }
}

/// A comment, where these bytes stand behind its first, or nothing.
#[tactic(auto, using(crate::proofs::Comments::nothing_behind, crate::proofs::Comments::star_closed, crate::proofs::Comments::star_open, crate::proofs::Comments::a_line, crate::proofs::Comments::no_comment))]
fn comment(rest: &[u8]) -> Found<'static>
    ensures { found_of result ≡ comment_at rest.now }
{
    if rest.len() == 0 {
        return Found::Nothing;
    }
    if rest[0] == 42 {
        match comment_length(&rest[1..]) {
            Some(more) => Found::Skipped(more + 1),
            None => Found::Nothing,
        }
    } else if rest[0] == 47 {
        Found::Skipped(line_length(&rest[1..]) + 1)
    } else {
        Found::Nothing
    }
}

/// What stands at a byte in the wide reading.
fn wide_found_at(c: Sign, text: &[u8], at: usize) -> Found<'_>
    requires { at < length text.now }
    ensures { found_of result ≡ wide_found_at (sign_of c) (get_or text.now at 0) (drop (at + 1) text.now) }
{
    let b = text[at];
    if is_letter(b) {
        wide_word_at(c, text, at)
    } else if b == 47 {
        comment(behind(text, at))
    } else {
        found_at(text, at)
    }
}

/// What stands at a byte.
pub fn found_in(r: Dialect, c: Sign, text: &[u8], at: usize) -> Found<'_>
    requires { at < length text.now }
    ensures { found_of result ≡ found_in (dialect_of r) (sign_of c) (get_or text.now at 0) (drop (at + 1) text.now) }
{
    match r {
        Dialect::Plain => found_at(text, at),
        Dialect::Wide => wide_found_at(c, text, at),
    }
}
