//! One token behind a type of the plain reading, a word of a base, a name or a mark.
ghost use Rattle.std.specs.Prelude.{◌≡◌, [], IfOk, Some, None, ltb, box_value};
ghost use Rattle.ffi3_cdecl_spec.specs.Machine.{onto, depth, depth_of, declared_by, list_ended, comma_of, name_behind, close_behind, comma_behind, step_typed, step_sign, step_short, step_long, step_long_long, opened_struct, step_struct, step_star, plain_void, step_sole_void, step_named, step_opened, step_closing, step_comma, step_dots, step_member, step_counted, step_after_member, step_closed};
ghost use Rattle.ffi3_cdecl_spec.specs.OnePass.{keep_count};
ghost use Rattle.ffi3_cdecl_spec.specs.Tokens.{dots};
ghost use Rattle.ffi3_types.specs.TreeOf.{tree_of};
ghost use Rattle.ffi3_cdecl.specs.TokenOf.{dialect_of, token_of, sign_of};
ghost use Rattle.ffi3_cdecl.specs.StateOf.{head_of, where_of, settled_of, state_of};

use crate::declaration::Declaration;
use crate::declarator::step_declarator;
use crate::integers::{char_of, int_of, int128_of, long_of, short_of};
use crate::place::{Counts, Gathered};
use crate::round::Round;
use crate::said::Kind;
use crate::state::{Head, Settled, State, Where, Wide, declarator, step_type};
use crate::token::{Dialect, Sign, Token};
use ffi3_types::{Bytes, FfiType, NoMemory, Sig};
use std::alloc::Global;

/// How many structs, brackets and lists may be open in one another.
pub const MOST_OPEN: u64 = 16;

/// A function whose parameters are these, and how many of them stand before the dots.
fn declared(head: Head, types: Gathered, fixed: Option<u32>) -> Declaration
    ensures { result ≡ declared_by (head_of head) (onto types []) fixed }
{
    let Head {
        called,
        result_type,
        fixed: _,
        round: _,
    } = head;
    Declaration::new(called, Sig::new(result_type, types.all(), fixed))
}

/// Behind the ")" of the parameters.
pub fn list_ended(r: Dialect, head: Head, types: Gathered, fixed: Option<u32>) -> State
    ensures { state_of result ≡ list_ended (dialect_of r) (head_of head) (onto types []) fixed }
{
    let round = head.round;
    let d = declared(head, types, fixed);
    match r {
        Dialect::Plain => State::Closed(d),
        Dialect::Wide => State::Wide(Wide::Closing(round, d)),
    }
}

/// Behind a comma of the parameters: behind the dots only types stand.
fn comma_of(head: Head, types: Gathered) -> State
    ensures { state_of result ≡ comma_of (head_of head).fixed (head_of head) types }
{
    match head.fixed {
        None => State::AfterComma(head, types),
        Some(_) => State::WantsType(Where::Parameter(head, types)),
    }
}

/// Behind a type stands a closing mark.
fn close_behind(r: Dialect, w: Where, t: FfiType) -> Result<State, NoMemory>
    ensures { IfOk result (λ s. state_of s ≡ close_behind (dialect_of r) (where_of w) (tree_of t)) }
{
    match w {
        Where::Parameter(head, types) => {
            let mut types = types;
            types.push(t)?;
            let fixed = head.fixed;
            Ok(list_ended(r, head, types, fixed))
        }
        _ => Ok(State::Dead),
    }
}

/// Behind a type stands a comma.
fn comma_behind(w: Where, t: FfiType) -> Result<State, NoMemory>
    ensures { IfOk result (λ s. state_of s ≡ comma_behind (where_of w) (tree_of t)) }
{
    match w {
        Where::Parameter(head, types) => {
            let mut types = types;
            types.push(t)?;
            Ok(comma_of(head, types))
        }
        _ => Ok(State::Dead),
    }
}

/// Behind a type stands a name.
fn name_behind(alloc: Global, w: Where, t: FfiType, name: &[u8]) -> Result<State, NoMemory>
    ensures { IfOk result (λ s. state_of s ≡ name_behind (where_of w) (tree_of t) name.now) }
{
    match w {
        Where::Result => {
            let called = Bytes::from_slice(alloc, name)?;
            Ok(State::Named(Head {
                called,
                result_type: t,
                fixed: None,
                round: Round::Unstarred(0),
            }))
        }
        Where::Parameter(head, types) => {
            let mut types = types;
            types.push(t)?;
            Ok(State::ParameterNamed(head, types))
        }
        Where::Member(types, outer) => {
            Ok(State::MemberNamed(t, Counts::new(alloc), types, outer))
        }
        Where::Inner(u) => Ok(State::Wide(Wide::Settled(Box::new(alloc, Settled::OfInner(u, 0))?))),
    }
}

/// A token behind a type.
pub fn step_typed(
    alloc: Global,
    r: Dialect,
    t: FfiType,
    w: Where,
    token: Token<'_>,
) -> Result<State, NoMemory>
    ensures { IfOk result (λ s. state_of s ≡ step_typed (dialect_of r) (tree_of t) (where_of w) (token_of token.entry)) }
{
    match token {
        Token::Star => Ok(State::Typed(FfiType::Pointer, w)),
        Token::Name(name) => name_behind(alloc, w, t, name),
        Token::CloseRound => close_behind(r, w, t),
        Token::Comma => comma_behind(w, t),
        _ => Ok(State::Dead),
    }
}

/// A token behind a word of sign.
pub fn step_sign(
    alloc: Global,
    r: Dialect,
    g: Sign,
    w: Where,
    token: Token<'_>,
) -> Result<State, NoMemory>
    ensures { IfOk result (λ s. state_of s ≡ step_sign (dialect_of r) (sign_of g) (where_of w) (token_of token.entry)) }
{
    match token {
        Token::Char(_) => Ok(State::Typed(char_of(g), w)),
        Token::Short => Ok(State::AfterShort(g, w)),
        Token::Int => Ok(State::Typed(int_of(g), w)),
        Token::Long => Ok(State::AfterLong(g, w)),
        Token::Int128 => Ok(State::Typed(int128_of(g), w)),
        _ => step_typed(alloc, r, int_of(g), w, token),
    }
}

/// A token behind `short`.
pub fn step_short(
    alloc: Global,
    r: Dialect,
    g: Sign,
    w: Where,
    token: Token<'_>,
) -> Result<State, NoMemory>
    ensures { IfOk result (λ s. state_of s ≡ step_short (dialect_of r) (sign_of g) (where_of w) (token_of token.entry)) }
{
    match token {
        Token::Int => Ok(State::Typed(short_of(g), w)),
        _ => step_typed(alloc, r, short_of(g), w, token),
    }
}

/// A token behind `long`.
pub fn step_long(
    alloc: Global,
    r: Dialect,
    g: Sign,
    w: Where,
    token: Token<'_>,
) -> Result<State, NoMemory>
    ensures { IfOk result (λ s. state_of s ≡ step_long (dialect_of r) (sign_of g) (where_of w) (token_of token.entry)) }
{
    match token {
        Token::Long => Ok(State::AfterLongLong(g, w)),
        Token::Int => Ok(State::Typed(long_of(g), w)),
        _ => step_typed(alloc, r, long_of(g), w, token),
    }
}

/// A token behind `long long`.
pub fn step_long_long(
    alloc: Global,
    r: Dialect,
    g: Sign,
    w: Where,
    token: Token<'_>,
) -> Result<State, NoMemory>
    ensures { IfOk result (λ s. state_of s ≡ step_long_long (dialect_of r) (sign_of g) (where_of w) (token_of token.entry)) }
{
    match token {
        Token::Int => Ok(State::Typed(long_of(g), w)),
        _ => step_typed(alloc, r, long_of(g), w, token),
    }
}

/// Whether fewer structs, brackets and lists than so many are open.
#[cycle(has_room)]
pub fn has_room(w: &Where, room: u64) -> bool
    ensures { result ≡ ltb (depth (where_of w.now)) room }
{
    match w {
        Where::Result => room > 0,
        Where::Parameter(_, _) => room > 0,
        Where::Member(_, outer) => room > 0 && has_room(outer, room - 1),
        Where::Inner(u) => room > 0 && has_room_inside(u, room - 1),
    }
}

/// The same of what is settled.
#[cycle(has_room)]
#[tactic(auto, using(crate::proofs::Rounds::deeper, crate::proofs::Rounds::no_deeper))]
pub fn has_room_inside(u: &Settled, room: u64) -> bool
    ensures { result ≡ ltb (depth_of (settled_of u.now)) room }
{
    match u {
        Settled::OfParameter(_, _, n) => (*n as u64) < room,
        Settled::OfInner(outer, n) => (*n as u64) < room
            && has_room_inside(outer, room - *n as u64 - 1),
        Settled::OfMember(_, _, _, w, n) => (*n as u64) < room && has_room(w, room - *n as u64 - 1),
        Settled::OfFunction(_, n) => (*n as u64) < room,
    }
}

/// A "{", where it has room.
pub fn opened_struct(alloc: Global, w: Where) -> Result<State, NoMemory>
    ensures { IfOk result (λ s. state_of s ≡ opened_struct (where_of w)) }
{
    if has_room(&w, MOST_OPEN) {
        let outer = Box::new(alloc, w)?;
        Ok(State::WantsType(Where::Member(Gathered::new(alloc), outer)))
    } else {
        Ok(State::Dead)
    }
}

/// A token behind `struct`.
pub fn step_struct(alloc: Global, r: Dialect, w: Where, token: Token<'_>) -> Result<State, NoMemory>
    ensures { IfOk result (λ s. state_of s ≡ step_struct (dialect_of r) (where_of w) (token_of token.entry)) }
{
    match token {
        Token::Name(_) => match r {
            Dialect::Plain => Ok(State::WantsStar(w)),
            Dialect::Wide => Ok(State::Wide(Wide::AfterStructTag(w))),
        },
        Token::OpenCurly => opened_struct(alloc, w),
        _ => Ok(State::Dead),
    }
}

/// A token where a star has to stand.
pub fn step_star(w: Where, token: Token<'_>) -> State
    ensures { state_of result ≡ step_star (where_of w) (token_of token.entry) }
{
    match token {
        Token::Star => State::Typed(FfiType::Pointer, w),
        _ => State::Dead,
    }
}

/// A token behind `void` as the first parameter in the plain reading: a star.
fn plain_void(alloc: Global, head: Head, token: Token<'_>) -> State
    ensures { state_of result ≡ plain_void (head_of head) (token_of token.entry) }
{
    match token {
        Token::Star => State::Typed(
            FfiType::Pointer,
            Where::Parameter(head, Gathered::new(alloc)),
        ),
        _ => State::Dead,
    }
}

/// A token behind `void` as the first parameter.
pub fn step_sole_void(
    alloc: Global,
    r: Dialect,
    head: Head,
    token: Token<'_>,
) -> Result<State, NoMemory>
    ensures { IfOk result (λ s. state_of s ≡ step_sole_void (dialect_of r) (head_of head) (token_of token.entry)) }
{
    match token {
        Token::CloseRound => Ok(list_ended(r, head, Gathered::new(alloc), None)),
        _ => match r {
            Dialect::Plain => Ok(plain_void(alloc, head, token)),
            Dialect::Wide => {
                let w = Where::Parameter(head, Gathered::new(alloc));
                Ok(step_declarator(alloc, Kind::Nothing, Round::Unstarred(0), w, token)?)
            }
        },
    }
}

/// A token behind the function's name.
pub fn step_named(head: Head, token: Token<'_>) -> State
    ensures { state_of result ≡ step_named (head_of head) (token_of token.entry) }
{
    match token {
        Token::OpenRound => State::Opened(head),
        _ => State::Dead,
    }
}

/// A token behind the mark that opens the parameters.
pub fn step_opened(alloc: Global, r: Dialect, head: Head, token: Token<'_>) -> State
    ensures { state_of result ≡ step_opened (dialect_of r) (head_of head) (token_of token.entry) }
{
    match token {
        Token::CloseRound => list_ended(r, head, Gathered::new(alloc), None),
        Token::Void => State::SoleVoid(head),
        _ => step_type(r, Where::Parameter(head, Gathered::new(alloc)), token),
    }
}

/// A token behind a parameter and its name.
pub fn step_closing(r: Dialect, head: Head, types: Gathered, token: Token<'_>) -> State
    ensures { state_of result ≡ step_closing (dialect_of r) (head_of head) types (token_of token.entry) }
{
    match token {
        Token::CloseRound => {
            let fixed = head.fixed;
            list_ended(r, head, types, fixed)
        }
        Token::Comma => comma_of(head, types),
        _ => State::Dead,
    }
}

/// The dots behind a comma of the parameters.
fn dots_behind(r: Dialect, head: Head, types: Gathered) -> State
    ensures { state_of result ≡ step_comma (dialect_of r) (head_of head) types dots }
{
    match r {
        Dialect::Plain => {
            let fixed = Some(types.len());
            State::AfterDots(declared(head, types, fixed))
        }
        Dialect::Wide => State::Wide(Wide::Dots(head, types)),
    }
}

/// A token behind a comma of the parameters.
pub fn step_comma(r: Dialect, head: Head, types: Gathered, token: Token<'_>) -> State
    ensures { state_of result ≡ step_comma (dialect_of r) (head_of head) types (token_of token.entry) }
{
    match token {
        Token::Dots => dots_behind(r, head, types),
        _ => step_type(r, Where::Parameter(head, types), token),
    }
}

/// A token behind the dots.
pub fn step_dots(d: Declaration, token: Token<'_>) -> State
    ensures { state_of result ≡ step_dots d (token_of token.entry) }
{
    match token {
        Token::CloseRound => State::Closed(d),
        _ => State::Dead,
    }
}

/// A token behind the parameters.
pub fn step_closed(d: Declaration, token: Token<'_>) -> State
    ensures { state_of result ≡ step_closed d (token_of token.entry) }
{
    match token {
        Token::Semicolon => State::Ended(d),
        _ => State::Dead,
    }
}

/// A token behind the name of a member and its counts.
pub fn step_member(
    alloc: Global,
    t: FfiType,
    counts: Counts,
    types: Gathered,
    outer: Box<Where>,
    token: Token<'_>,
) -> Result<State, NoMemory>
    ensures { IfOk result (λ s. state_of s ≡ step_member (tree_of t) counts types (where_of (box_value outer)) (token_of token.entry)) }
{
    match token {
        Token::OpenSquare => Ok(State::WantsCount(t, counts, types, outer)),
        Token::Semicolon => {
            let mut types = types;
            types.push(counts.array_of(alloc, t)?)?;
            Ok(State::AfterMember(types, outer))
        }
        _ => Ok(State::Dead),
    }
}

/// A token where a count has to stand.
pub fn step_count(
    t: FfiType,
    counts: Counts,
    types: Gathered,
    outer: Box<Where>,
    token: Token<'_>,
) -> Result<State, NoMemory>
    ensures { IfOk result (λ s. state_of s ≡ keep_count (tree_of t) counts types (where_of (box_value outer)) (token_of token.entry)) }
{
    match token {
        Token::Number(count) => {
            let mut counts = counts;
            counts.push(count)?;
            Ok(State::Counted(t, counts, types, outer))
        }
        _ => Ok(State::Dead),
    }
}

/// A token behind a count.
pub fn step_counted(
    t: FfiType,
    counts: Counts,
    types: Gathered,
    outer: Box<Where>,
    token: Token<'_>,
) -> State
    ensures { state_of result ≡ step_counted (tree_of t) counts types (where_of (box_value outer)) (token_of token.entry) }
{
    match token {
        Token::CloseSquare => State::MemberNamed(t, counts, types, outer),
        _ => State::Dead,
    }
}

/// A token behind a member.
pub fn step_after_member(r: Dialect, types: Gathered, outer: Box<Where>, token: Token<'_>) -> State
    ensures { state_of result ≡ step_after_member (dialect_of r) types (where_of (box_value outer)) (token_of token.entry) }
{
    match token {
        Token::CloseCurly => {
            let t = FfiType::Struct(types.all());
            let w = Box::into_inner(outer);
            match r {
                Dialect::Plain => State::Typed(t, w),
                Dialect::Wide => declarator(Kind::Whole(t), w),
            }
        }
        _ => step_type(r, Where::Member(types, outer), token),
    }
}
