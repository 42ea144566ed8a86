//! What is told of a place where a text is no declaration, in the wide reading.
ghost use Rattle.std.specs.Prelude.{◌≡◌, IfOk, OnOk, ◌<◌, ◌≤◌, get_or, length, nat_le, cond, ◌++◌, ◌∷◌, []};
ghost use Rattle.ffi3_cdecl_spec.specs.Tokens.{wide, complex_word};
ghost use Rattle.ffi3_cdecl_spec.specs.Reading.{IsReadingIn, unexpected};
ghost use Rattle.ffi3_cdecl_spec.specs.Expected.{every_kind, a_word, the_end, MOST_TOLD};
ghost use Rattle.ffi3_cdecl_spec.specs.Reasons.{IsTold};
ghost use Rattle.ffi3_cdecl_spec.specs.Telling.{lives, wants_a_type, could, expected, one_lives, specifier_words, reason_at, reason_by, reaching, reach, nothing_reached, tell};
ghost use Rattle.ffi3_cdecl.specs.TokenOf.{token_of, sign_of};
ghost use Rattle.ffi3_cdecl.specs.StateOf.{state_of};
ghost use Rattle.ffi3_diagnostics.specs.ToldOf.{expected_of, kinds_of, reached_of, reason_or_not, told_of};

use crate::expected::Expected;
use crate::track::{Base, Track, sized, tracked, wants_a_type};
use ffi3_cdecl::read::{finished, is_dead, step};
use ffi3_cdecl::state::{State, Where};
use ffi3_cdecl::token::{Dialect, Found, Sign, Token, TypeWord, found_in};
use ffi3_types::NoMemory;
use std::alloc::{AllocError, Global};
use std::mem;

/// Why a token is unexpected, where a word tells it.
#[derive(Clone, Copy, Debug)]
pub enum Reason<'a> {
    /// Attributes that may move a value.
    Attribute,
    /// A keyword that is not read here.
    Keyword,
    /// A type of which there are pointers alone stands by value.
    ByValue(Base<'a>),
}

/// What is told of an unexpected place.
#[derive(Drop)]
pub struct Told<'a> {
    /// How many bytes the token takes that stands there; none at the end of the text.
    pub taken: usize,
    /// Why it is unexpected, where a word tells it.
    pub reason: Option<Reason<'a>>,
    /// What could have stood there: four kinds at most, the first of them all.
    pub expected: Vec<Expected>,
}

/// The state, and what is kept beside it.
#[derive(Drop)]
pub struct Reached<'a> {
    pub state: State,
    pub track: Track<'a>,
}

/// Before the first token.
fn nothing_reached() -> Reached<'static>
    ensures { reached_of result ≡ nothing_reached }
{
    Reached {
        state: State::WantsType(Where::Result),
        track: Track::Nothing,
    }
}

/// One token more.
#[tactic(auto, using(crate::proofs::Reaching::reached_with))]
fn reaching<'a>(alloc: Global, q: Reached<'a>, token: Token<'a>) -> Result<Reached<'a>, NoMemory>
    ensures { IfOk result (λ p. reached_of p ≡ reaching (reached_of q.entry) (token_of token.entry)) }
{
    let Reached { state, track } = q;
    let track = tracked(&state, track, token);
    let state = step(alloc, Dialect::Wide, state, token)?;
    Ok(Reached { state, track })
}

/// Behind the tokens that begin before an offset.
#[tactic(auto, using(crate::proofs::Reaching::reach_nothing, crate::proofs::Reaching::reach_there, crate::proofs::Reaching::reach_end))]
fn reach<'a>(alloc: Global, c: Sign, bytes: &'a [u8], stop: usize) -> Result<Reached<'a>, NoMemory>
    ensures { IfOk result (λ q. reached_of q ≡ reach (sign_of c) stop 0 nothing_reached bytes.now) }
{
    let mut q = nothing_reached();
    let mut inside = 0;
    for at in 0..bytes.len() {
        if at >= stop {
            return Ok(q);
        }
        if inside > 0 {
            inside -= 1;
        } else {
            match found_in(Dialect::Wide, c, bytes, at) {
                Found::Blank => {}
                Found::Skipped(more) => inside = more,
                Found::Nothing => return Ok(q),
                Found::Token(token, more) => {
                    q = reaching(alloc, q, token)?;
                    inside = more;
                }
            }
        }
    }
    Ok(q)
}

/// Whether the token leads somewhere.
fn lives(alloc: Global, state: State, token: Token<'_>) -> Result<bool, NoMemory>
    ensures { IfOk result (λ b. b ≡ lives (state_of state) (token_of token.entry)) }
{
    let next = step(alloc, Dialect::Wide, state, token)?;
    let dead = is_dead(&next);
    mem::drop(next);
    Ok(!dead)
}

/// Whether the token could stand at an offset.
#[tactic(auto, using(crate::proofs::Reaching::lives_reached))]
fn lives_there(
    alloc: Global,
    c: Sign,
    bytes: &[u8],
    stop: usize,
    token: Token<'_>,
) -> Result<bool, NoMemory>
    ensures { IfOk result (λ b. b ≡ lives (reach (sign_of c) stop 0 nothing_reached bytes.now).state (token_of token.entry)) }
{
    let q = reach(alloc, c, bytes, stop)?;
    let Reached { state, track: _ } = q;
    let live = lives(alloc, state, token)?;
    Ok(live)
}

/// Whether one of the words of lists that name types could, from this number on.
#[tactic(auto, using(crate::proofs::Reaching::word_lives, crate::proofs::Reaching::word_dead, crate::proofs::Reaching::words_end))]
fn words_there(alloc: Global, c: Sign, bytes: &[u8], stop: usize) -> Result<bool, NoMemory>
    ensures { IfOk result (λ b. b ≡ one_lives (reach (sign_of c) stop 0 nothing_reached bytes.now).state specifier_words) }
{
    for i in 0..11usize {
        if lives_there(alloc, c, bytes, stop, specifier_word(i))? {
            return Ok(true);
        }
    }
    Ok(false)
}

/// The words of lists that name types, by number.
fn specifier_word(i: usize) -> Token<'static>
    requires { i < 11 }
    ensures { token_of result ≡ get_or specifier_words i complex_word }
{
    match i {
        0 => Token::Sign(Sign::Signed),
        1 => Token::Sign(Sign::Unsigned),
        2 => Token::Char(Sign::Signed),
        3 => Token::Char(Sign::Unsigned),
        4 => Token::Short,
        5 => Token::Int,
        6 => Token::Long,
        7 => Token::Int128,
        8 => Token::Type(TypeWord::Float),
        9 => Token::Type(TypeWord::Double),
        _ => Token::Complex,
    }
}

/// Whether a type may stand at an offset.
#[tactic(auto, using(crate::proofs::Reaching::type_reached))]
fn type_there(alloc: Global, c: Sign, bytes: &[u8], stop: usize) -> Result<bool, NoMemory>
    ensures { IfOk result (λ b. b ≡ wants_a_type (reach (sign_of c) stop 0 nothing_reached bytes.now).state) }
{
    let q = reach(alloc, c, bytes, stop)?;
    let Reached { state, track: _ } = q;
    let wanted = wants_a_type(&state);
    mem::drop(state);
    Ok(wanted)
}

/// Whether the text may end there.
#[tactic(auto, using(crate::proofs::Reaching::end_reached))]
fn end_there(alloc: Global, c: Sign, bytes: &[u8], stop: usize) -> Result<bool, NoMemory>
    ensures { IfOk result (λ b. b ≡ could (reach (sign_of c) stop 0 nothing_reached bytes.now).state the_end) }
{
    let q = reach(alloc, c, bytes, stop)?;
    let Reached { state, track: _ } = q;
    let declared = finished(state);
    let ends = declared.is_some();
    mem::drop(declared);
    Ok(ends)
}

/// Whether a token of this kind could stand at an offset.
fn could(
    alloc: Global,
    c: Sign,
    bytes: &[u8],
    stop: usize,
    kind: Expected,
) -> Result<bool, NoMemory>
    ensures { IfOk result (λ b. b ≡ could (reach (sign_of c) stop 0 nothing_reached bytes.now).state (expected_of kind)) }
{
    match kind {
        Expected::Type => type_there(alloc, c, bytes, stop),
        Expected::Name => {
            let lives = lives_there(alloc, c, bytes, stop, Token::Name(b""))?;
            let wanted = type_there(alloc, c, bytes, stop)?;
            Ok(lives && !wanted)
        }
        Expected::Word => {
            let live = words_there(alloc, c, bytes, stop)?;
            let wanted = type_there(alloc, c, bytes, stop)?;
            Ok(live && !wanted)
        }
        Expected::End => end_there(alloc, c, bytes, stop),
        Expected::Number => lives_there(alloc, c, bytes, stop, Token::Number(0)),
        Expected::CloseRound => lives_there(alloc, c, bytes, stop, Token::CloseRound),
        Expected::Comma => lives_there(alloc, c, bytes, stop, Token::Comma),
        Expected::Semicolon => lives_there(alloc, c, bytes, stop, Token::Semicolon),
        Expected::Star => lives_there(alloc, c, bytes, stop, Token::Star),
        Expected::CloseSquare => lives_there(alloc, c, bytes, stop, Token::CloseSquare),
        Expected::CloseCurly => lives_there(alloc, c, bytes, stop, Token::CloseCurly),
        Expected::OpenCurly => lives_there(alloc, c, bytes, stop, Token::OpenCurly),
        Expected::OpenRound => lives_there(alloc, c, bytes, stop, Token::OpenRound),
        Expected::OpenSquare => lives_there(alloc, c, bytes, stop, Token::OpenSquare),
        Expected::Dots => lives_there(alloc, c, bytes, stop, Token::Dots),
    }
}

/// The kinds in the order in which they are told, by number.
fn kind_number(i: usize) -> Expected
    requires { i < 15 }
    ensures { expected_of result ≡ get_or every_kind i a_word }
{
    match i {
        0 => Expected::Type,
        1 => Expected::Name,
        2 => Expected::Number,
        3 => Expected::CloseRound,
        4 => Expected::Comma,
        5 => Expected::Semicolon,
        6 => Expected::End,
        7 => Expected::Star,
        8 => Expected::CloseSquare,
        9 => Expected::CloseCurly,
        10 => Expected::OpenCurly,
        11 => Expected::OpenRound,
        12 => Expected::OpenSquare,
        13 => Expected::Dots,
        _ => Expected::Word,
    }
}

/// Whether so many kinds are told that no further one is.
fn is_enough(n: usize) -> bool
    ensures { result ≡ nat_le MOST_TOLD n }
{
    n >= 4
}

/// One kind more, if it could stand there.
fn push_if(told: &mut Vec<Expected>, kind: Expected, can: bool) -> Result<(), NoMemory>
    ensures { OnOk result (told.new.items ≡ cond can (told.old.items ++ kind ∷ []) told.old.items) }
{
    if can {
        told.push(kind)?;
    }
    Ok(())
}

/// The kinds that could stand at an offset: four at most, the first of them.
#[tactic(auto, using(crate::proofs::Reaching::kind_turn, crate::proofs::Reaching::still_few, crate::proofs::Reaching::no_kind_told, crate::proofs::Reaching::enough_told, crate::proofs::Reaching::all_told))]
fn kinds(alloc: Global, c: Sign, bytes: &[u8], stop: usize) -> Result<Vec<Expected>, NoMemory>
    ensures value { IfOk result (λ v. kinds_of v.items ≡ expected (reach (sign_of c) stop 0 nothing_reached bytes.now).state) }
    ensures few { IfOk result (λ v. length v.items ≤ 4) }
{
    let mut told = Vec::new(alloc);
    for i in 0..15usize {
        if is_enough(told.len()) {
            return Ok(told);
        }
        let kind = kind_number(i);
        let can = could(alloc, c, bytes, stop, kind)?;
        push_if(&mut told, kind, can)?;
    }
    Ok(told)
}

/// Why the token at an offset is unexpected.
#[tactic(auto, using(crate::proofs::Reaching::reason_of_others))]
fn reason_there<'a>(
    alloc: Global,
    c: Sign,
    bytes: &'a [u8],
    stop: usize,
    token: Token<'a>,
) -> Result<Option<Reason<'a>>, NoMemory>
    ensures { IfOk result (λ why. reason_or_not why ≡ reason_at (reach (sign_of c) stop 0 nothing_reached bytes.now).state (reach (sign_of c) stop 0 nothing_reached bytes.now).track (token_of token.entry)) }
{
    match token {
        Token::Attribute => Ok(Some(Reason::Attribute)),
        Token::Keyword => Ok(Some(Reason::Keyword)),
        _ => reason_of_base(alloc, c, bytes, stop, token),
    }
}

/// The same by the base that was read last.
#[tactic(auto, using(crate::proofs::Reaching::reason_by_base, crate::proofs::Reaching::reason_without_base))]
fn reason_of_base<'a>(
    alloc: Global,
    c: Sign,
    bytes: &'a [u8],
    stop: usize,
    token: Token<'a>,
) -> Result<Option<Reason<'a>>, NoMemory>
    ensures { IfOk result (λ why. reason_or_not why ≡ reason_by (reach (sign_of c) stop 0 nothing_reached bytes.now).state (reach (sign_of c) stop 0 nothing_reached bytes.now).track (token_of token.entry)) }
{
    let q = reach(alloc, c, bytes, stop)?;
    let Reached { state, track } = q;
    match track {
        Track::BehindBase(base) => {
            if lives(alloc, sized(state), token)? {
                Ok(Some(Reason::ByValue(base)))
            } else {
                Ok(None)
            }
        }
        _ => {
            mem::drop(state);
            Ok(None)
        }
    }
}

/// What is told of a place.
#[tactic(auto, using(crate::proofs::Reaching::tell_token, crate::proofs::Reaching::tell_blank, crate::proofs::Reaching::tell_skipped, crate::proofs::Reaching::tell_nothing, crate::proofs::Reaching::tell_end))]
fn told_there<'a>(alloc: Global, c: Sign, bytes: &'a [u8], at: usize) -> Result<Told<'a>, NoMemory>
    ensures computed { IfOk result (λ t. told_of t ≡ tell (sign_of c) bytes.now at) }
    ensures few { IfOk result (λ t. length t.expected.items ≤ 4) }
{
    let expected = kinds(alloc, c, bytes, at)?;
    if at >= bytes.len() {
        return Ok(Told {
            taken: 0,
            reason: None,
            expected,
        });
    }
    match found_in(Dialect::Wide, c, bytes, at) {
        Found::Token(token, more) => {
            let Some(taken) = more.checked_add(1) else {
                return Err(AllocError);
            };
            let reason = reason_there(alloc, c, bytes, at, token)?;
            Ok(Told {
                taken,
                reason,
                expected,
            })
        }
        Found::Blank => Ok(Told {
            taken: 0,
            reason: None,
            expected,
        }),
        Found::Skipped(_) => Ok(Told {
            taken: 0,
            reason: None,
            expected,
        }),
        Found::Nothing => Ok(Told {
            taken: 0,
            reason: None,
            expected,
        }),
    }
}

/// What is told of a place of the text that is unexpected, as the fault of `read_wide_decl` has it: how many bytes the
/// token takes that stands there, the reason where a word tells it, and what could have stood there.
#[tactic(auto, using(crate::proofs::Reaching::is_told))]
pub fn tell<'a>(
    alloc: Global,
    char_sign: Sign,
    text: &'a str,
    at: usize,
) -> Result<Told<'a>, NoMemory>
    ensures computed { IfOk result (λ t. told_of t ≡ tell (sign_of char_sign) text.now at) }
    ensures told { IfOk result (λ t. IsReadingIn wide (sign_of char_sign) text.now (unexpected at) → IsTold (sign_of char_sign) text.now at (told_of t)) }
    ensures few { IfOk result (λ t. length t.expected.items ≤ 4) }
{
    let told = told_there(alloc, char_sign, text.as_bytes(), at)?;
    Ok(told)
}
