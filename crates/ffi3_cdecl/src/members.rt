//! One token behind the name of a member, in the wide reading.
ghost use Rattle.std.specs.Prelude.{◌≡◌, suc, IfOk, box_value};
ghost use Rattle.ffi3_cdecl_spec.specs.Machine.{plain_member, starred_member, step_member_at, step_member_bounded};
ghost use Rattle.ffi3_cdecl_spec.specs.OnePass.{few_bounds, keep_bound};
ghost use Rattle.ffi3_types.specs.TreeOf.{tree_of};
ghost use Rattle.ffi3_cdecl.specs.TokenOf.{token_of};
ghost use Rattle.ffi3_cdecl.specs.SaidOf.{kind_of};
ghost use Rattle.ffi3_cdecl.specs.StateOf.{where_of, member_of, state_of};

use crate::place::{Counts, Gathered};
use crate::round::one_more;
use crate::said::Kind;
use crate::settled::member_ends;
use crate::state::{Member, Settled, State, Where, Wide, declarator};
use crate::token::Token;
use ffi3_types::{FfiType, NoMemory};
use std::alloc::Global;

/// A token behind a member of its base's type, with no bracket open.
fn plain_ends(
    alloc: Global,
    t: FfiType,
    counts: Counts,
    types: Gathered,
    outer: Box<Where>,
    token: Token<'_>,
) -> Result<State, NoMemory>
    ensures { IfOk result (λ s. state_of s ≡ step_member_at (plain_member (tree_of t) counts 0) types (where_of (box_value outer)) (token_of token.entry)) }
{
    match token {
        Token::OpenSquare => Ok(State::Wide(Wide::MemberBound(
            Member::Plain(t, counts, 0),
            types,
            outer,
        ))),
        Token::Semicolon => {
            let mut types = types;
            types.push(counts.array_of(alloc, t)?)?;
            Ok(State::AfterMember(types, outer))
        }
        Token::Comma => {
            let again = t.copy(alloc)?;
            let mut types = types;
            types.push(counts.array_of(alloc, t)?)?;
            Ok(declarator(Kind::Whole(again), Where::Member(types, outer)))
        }
        _ => Ok(State::Dead),
    }
}

/// The same in so many brackets and one.
fn plain_in_round(
    t: FfiType,
    counts: Counts,
    n: u32,
    types: Gathered,
    outer: Box<Where>,
    token: Token<'_>,
) -> Result<State, NoMemory>
    ensures { IfOk result (λ s. state_of s ≡ step_member_at (plain_member (tree_of t) counts (suc n)) types (where_of (box_value outer)) (token_of token.entry)) }
{
    match token {
        Token::OpenSquare => Ok(State::Wide(Wide::MemberBound(
            Member::Plain(t, counts, one_more(n)?),
            types,
            outer,
        ))),
        Token::CloseRound => Ok(State::Wide(Wide::MemberAt(
            Member::Plain(t, counts, n),
            types,
            outer,
        ))),
        _ => Ok(State::Dead),
    }
}

/// A token behind a member of its base's type.
#[tactic(auto, using(crate::proofs::Settling::plain_none, crate::proofs::Settling::plain_some))]
fn step_plain(
    alloc: Global,
    t: FfiType,
    counts: Counts,
    n: u32,
    types: Gathered,
    outer: Box<Where>,
    token: Token<'_>,
) -> Result<State, NoMemory>
    ensures { IfOk result (λ s. state_of s ≡ step_member_at (plain_member (tree_of t) counts n) types (where_of (box_value outer)) (token_of token.entry)) }
{
    if n == 0 {
        Ok(plain_ends(alloc, t, counts, types, outer, token)?)
    } else {
        Ok(plain_in_round(t, counts, n - 1, types, outer, token)?)
    }
}

/// A token behind a member that is a pointer, with no bracket open.
fn starred_ends(
    alloc: Global,
    k: Kind,
    counts: Counts,
    types: Gathered,
    outer: Box<Where>,
    token: Token<'_>,
) -> Result<State, NoMemory>
    ensures { IfOk result (λ s. state_of s ≡ step_member_at (starred_member (kind_of k) counts 0 0) types (where_of (box_value outer)) (token_of token.entry)) }
{
    match token {
        Token::OpenSquare => Ok(State::Wide(Wide::MemberBound(
            Member::Starred(k, counts, 0, 0),
            types,
            outer,
        ))),
        _ => {
            let t = counts.array_of(alloc, FfiType::Pointer)?;
            Ok(member_ends(k, t, types, outer, token)?)
        }
    }
}

/// The same with so many brackets and one round its star.
fn starred_in_round(
    alloc: Global,
    k: Kind,
    counts: Counts,
    m: u32,
    types: Gathered,
    outer: Box<Where>,
    token: Token<'_>,
) -> Result<State, NoMemory>
    ensures { IfOk result (λ s. state_of s ≡ step_member_at (starred_member (kind_of k) counts 0 (suc m)) types (where_of (box_value outer)) (token_of token.entry)) }
{
    match token {
        Token::OpenSquare => Ok(State::Wide(Wide::MemberBound(
            Member::Starred(k, counts, 0, one_more(m)?),
            types,
            outer,
        ))),
        Token::CloseRound => {
            let u = Box::new(alloc, Settled::OfMember(k, counts, types, outer, m))?;
            Ok(State::Wide(Wide::Settled(u)))
        }
        _ => Ok(State::Dead),
    }
}

/// The same with so many brackets and one inside of its star.
fn starred_inside(
    k: Kind,
    counts: Counts,
    n: u32,
    m: u32,
    types: Gathered,
    outer: Box<Where>,
    token: Token<'_>,
) -> Result<State, NoMemory>
    ensures { IfOk result (λ s. state_of s ≡ step_member_at (starred_member (kind_of k) counts (suc n) m) types (where_of (box_value outer)) (token_of token.entry)) }
{
    match token {
        Token::OpenSquare => Ok(State::Wide(Wide::MemberBound(
            Member::Starred(k, counts, one_more(n)?, m),
            types,
            outer,
        ))),
        Token::CloseRound => Ok(State::Wide(Wide::MemberAt(
            Member::Starred(k, counts, n, m),
            types,
            outer,
        ))),
        _ => Ok(State::Dead),
    }
}

/// A token behind a member that is a pointer.
#[tactic(auto, using(crate::proofs::Settling::starred_member_none, crate::proofs::Settling::starred_member_outside, crate::proofs::Settling::starred_member_inside))]
fn step_starred(
    alloc: Global,
    k: Kind,
    counts: Counts,
    n: u32,
    m: u32,
    types: Gathered,
    outer: Box<Where>,
    token: Token<'_>,
) -> Result<State, NoMemory>
    ensures { IfOk result (λ s. state_of s ≡ step_member_at (starred_member (kind_of k) counts n m) types (where_of (box_value outer)) (token_of token.entry)) }
{
    if n == 0 {
        if m == 0 {
            Ok(starred_ends(alloc, k, counts, types, outer, token)?)
        } else {
            Ok(starred_in_round(alloc, k, counts, m - 1, types, outer, token)?)
        }
    } else {
        Ok(starred_inside(k, counts, n - 1, m, types, outer, token)?)
    }
}

/// A token behind the name of a member and its arrays.
pub fn step_member_at(
    alloc: Global,
    b: Member,
    types: Gathered,
    outer: Box<Where>,
    token: Token<'_>,
) -> Result<State, NoMemory>
    ensures { IfOk result (λ s. state_of s ≡ step_member_at (member_of b) types (where_of (box_value outer)) (token_of token.entry)) }
{
    match b {
        Member::Plain(t, counts, n) => step_plain(alloc, t, counts, n, types, outer, token),
        Member::Starred(k, counts, n, m) => {
            step_starred(alloc, k, counts, n, m, types, outer, token)
        }
    }
}

/// A member with a count more.
fn bounded(b: Member, count: u64) -> Result<Member, NoMemory>
    ensures { IfOk result (λ c. member_of c ≡ few_bounds (member_of b) count) }
{
    match b {
        Member::Plain(t, counts, n) => {
            let mut counts = counts;
            counts.push(count)?;
            Ok(Member::Plain(t, counts, n))
        }
        Member::Starred(k, counts, n, m) => {
            let mut counts = counts;
            counts.push(count)?;
            Ok(Member::Starred(k, counts, n, m))
        }
    }
}

/// A token where a count has to stand.
pub fn step_member_bound(
    b: Member,
    types: Gathered,
    outer: Box<Where>,
    token: Token<'_>,
) -> Result<State, NoMemory>
    ensures { IfOk result (λ s. state_of s ≡ keep_bound (member_of b) types (where_of (box_value outer)) (token_of token.entry)) }
{
    match token {
        Token::Number(count) => Ok(State::Wide(Wide::MemberBounded(
            bounded(b, count)?,
            types,
            outer,
        ))),
        _ => Ok(State::Dead),
    }
}

/// A token behind a count.
pub fn step_member_bounded(b: Member, types: Gathered, outer: Box<Where>, token: Token<'_>) -> State
    ensures { state_of result ≡ step_member_bounded (member_of b) types (where_of (box_value outer)) (token_of token.entry) }
{
    match token {
        Token::CloseSquare => State::Wide(Wide::MemberAt(b, types, outer)),
        _ => State::Dead,
    }
}
