//! One token behind words of a type, or a tag, in the wide reading.
ghost use Rattle.std.specs.Prelude.{◌≡◌, IfOk, Some};
ghost use Rattle.ffi3_cdecl_spec.specs.Machine.{words_go_on, step_words, step_named_by, step_struct_tag, step_tag, step_wide_dots, fixing, words_of};
ghost use Rattle.ffi3_cdecl_spec.specs.Grammar.{named_by};
ghost use Rattle.ffi3_cdecl_spec.specs.Tokens.{type_word};
ghost use Rattle.ffi3_cdecl.specs.TokenOf.{token_of, scalar_of};
ghost use Rattle.ffi3_cdecl.specs.SaidOf.{said_of, said_or_not, kind_or_not};
ghost use Rattle.ffi3_cdecl.specs.StateOf.{head_of, where_of, state_of};

use crate::declarator::step_declarator;
use crate::place::Gathered;
use crate::round::Round;
use crate::said::{
    Kind, Said, named, say_char, say_complex, say_double, say_float, say_int, say_int128, say_long,
    say_short, say_sign,
};
use crate::state::{Head, State, Where, Wide, declarator};
use crate::step::{list_ended, opened_struct};
use crate::token::{Dialect, Token, TypeWord};
use ffi3_types::NoMemory;
use std::alloc::Global;

/// Behind words, if they may be said.
fn go_on(w: Where, s: Option<Said>) -> State
    ensures { state_of result ≡ words_go_on (where_of w) (said_or_not s) }
{
    match s {
        Some(t) => State::Wide(Wide::AfterWords(t, w)),
        None => State::Dead,
    }
}

/// A token behind words that mean this, or nothing yet.
fn step_named_by(
    alloc: Global,
    k: Option<Kind>,
    w: Where,
    token: Token<'_>,
) -> Result<State, NoMemory>
    ensures { IfOk result (λ s. state_of s ≡ step_named_by (kind_or_not k) (where_of w) (token_of token.entry)) }
{
    match k {
        Some(kind) => step_declarator(alloc, kind, Round::Unstarred(0), w, token),
        None => Ok(State::Dead),
    }
}

/// A token behind words that is none more.
fn step_behind(alloc: Global, s: Said, w: Where, token: Token<'_>) -> Result<State, NoMemory>
    ensures { IfOk result (λ t. state_of t ≡ step_named_by (named_by (words_of (said_of s))) (where_of w) (token_of token.entry)) }
{
    let k = named(alloc, s)?;
    Ok(step_named_by(alloc, k, w, token)?)
}

/// A word of a type behind others, or a word that names a type alone.
fn step_type_word(alloc: Global, s: Said, w: Where, word: TypeWord) -> Result<State, NoMemory>
    ensures { IfOk result (λ t. state_of t ≡ step_words (said_of s) (where_of w) (type_word (scalar_of word))) }
{
    match word {
        TypeWord::Float => Ok(go_on(w, say_float(s))),
        TypeWord::Double => Ok(go_on(w, say_double(s))),
        _ => Ok(step_behind(alloc, s, w, Token::Type(word))?),
    }
}

/// A token behind words of a type.
pub fn step_words(alloc: Global, s: Said, w: Where, token: Token<'_>) -> Result<State, NoMemory>
    ensures { IfOk result (λ t. state_of t ≡ step_words (said_of s) (where_of w) (token_of token.entry)) }
{
    match token {
        Token::Sign(h) => Ok(go_on(w, say_sign(s, h))),
        Token::Short => Ok(go_on(w, say_short(s))),
        Token::Int => Ok(go_on(w, say_int(s))),
        Token::Long => Ok(go_on(w, say_long(s))),
        Token::Int128 => Ok(go_on(w, say_int128(s))),
        Token::Char(c) => Ok(go_on(w, say_char(s, c))),
        Token::Complex => Ok(go_on(w, say_complex(s))),
        Token::Type(word) => step_type_word(alloc, s, w, word),
        _ => step_behind(alloc, s, w, token),
    }
}

/// A token behind `struct` and a tag.
pub fn step_struct_tag(alloc: Global, w: Where, token: Token<'_>) -> Result<State, NoMemory>
    ensures { IfOk result (λ s. state_of s ≡ step_struct_tag (where_of w) (token_of token.entry)) }
{
    match token {
        Token::OpenCurly => opened_struct(alloc, w),
        _ => step_declarator(alloc, Kind::Bare, Round::Unstarred(0), w, token),
    }
}

/// A token that has to be a tag.
pub fn step_tag(w: Where, token: Token<'_>) -> State
    ensures { state_of result ≡ step_tag (where_of w) (token_of token.entry) }
{
    match token {
        Token::Name(_) => declarator(Kind::Bare, w),
        _ => State::Dead,
    }
}

/// So many parameters stand before the dots.
fn fixing(head: Head, n: u32) -> Head
    ensures { head_of result ≡ fixing (head_of head) n }
{
    let Head {
        called,
        result_type,
        fixed: _,
        round,
    } = head;
    Head {
        called,
        result_type,
        fixed: Some(n),
        round,
    }
}

/// A token behind the dots of the function.
pub fn step_wide_dots(head: Head, types: Gathered, token: Token<'_>) -> State
    ensures { state_of result ≡ step_wide_dots (head_of head) types (token_of token.entry) }
{
    match token {
        Token::CloseRound => {
            let fixed = Some(types.len());
            list_ended(Dialect::Wide, head, types, fixed)
        }
        Token::Comma => {
            let n = types.len();
            State::WantsType(Where::Parameter(fixing(head, n), types))
        }
        _ => State::Dead,
    }
}
