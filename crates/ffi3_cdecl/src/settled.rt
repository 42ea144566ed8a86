//! One token behind a declarator whose type is known, in the wide reading.
ghost use Rattle.std.specs.Prelude.{◌≡◌, suc, IfOk, box_value};
ghost use Rattle.ffi3_cdecl_spec.specs.Machine.{settled, fewer, brackets_of, member_ends, inner_ends, function_ends, settled_ends, bracket_or_end, list_with_room, step_settled, step_square, step_filled, step_list_opened, step_list_void, step_list_comma, step_list_dots};
ghost use Rattle.ffi3_types.specs.TreeOf.{tree_of};
ghost use Rattle.ffi3_cdecl.specs.TokenOf.{dialect_of, token_of};
ghost use Rattle.ffi3_cdecl.specs.SaidOf.{kind_of};
ghost use Rattle.ffi3_cdecl.specs.StateOf.{where_of, settled_of, state_of};

use crate::declaration::Declaration;
use crate::declarator::step_declarator;
use crate::place::Gathered;
use crate::round::Round;
use crate::said::Kind;
use crate::state::{Settled, State, Where, Wide, declarator, step_type};
use crate::step::{MOST_OPEN, has_room_inside, step_closing};
use crate::token::{Dialect, Token, is_close_round, is_close_square, is_semicolon};
use ffi3_types::{FfiType, NoMemory};
use std::alloc::Global;

/// What is settled, with so many brackets open.
fn fewer(u: Settled, m: u32) -> Settled
    ensures { settled_of result ≡ fewer (settled_of u) m }
{
    match u {
        Settled::OfParameter(head, types, _) => Settled::OfParameter(head, types, m),
        Settled::OfInner(outer, _) => Settled::OfInner(outer, m),
        Settled::OfMember(k, counts, types, w, _) => Settled::OfMember(k, counts, types, w, m),
        Settled::OfFunction(d, _) => Settled::OfFunction(d, m),
    }
}

/// How many brackets are open.
fn brackets_of(u: &Settled) -> u32
    ensures { result ≡ brackets_of (settled_of u.now) }
{
    match u {
        Settled::OfParameter(_, _, n) => *n,
        Settled::OfInner(_, n) => *n,
        Settled::OfMember(_, _, _, _, n) => *n,
        Settled::OfFunction(_, n) => *n,
    }
}

/// Behind a member, whose base this is.
pub fn member_ends(
    k: Kind,
    t: FfiType,
    types: Gathered,
    outer: Box<Where>,
    token: Token<'_>,
) -> Result<State, NoMemory>
    ensures { IfOk result (λ s. state_of s ≡ member_ends (kind_of k) (tree_of t) types (where_of (box_value outer)) (token_of token.entry)) }
{
    match token {
        Token::Semicolon => {
            let mut types = types;
            types.push(t)?;
            Ok(State::AfterMember(types, outer))
        }
        Token::Comma => {
            let mut types = types;
            types.push(t)?;
            Ok(declarator(k, Where::Member(types, outer)))
        }
        _ => Ok(State::Dead),
    }
}

/// Behind a parameter of a list that is not kept.
fn inner_ends(u: Box<Settled>, token: Token<'_>) -> State
    ensures { state_of result ≡ inner_ends (settled_of (box_value u)) (token_of token.entry) }
{
    match token {
        Token::CloseRound => State::Wide(Wide::Settled(u)),
        Token::Comma => State::Wide(Wide::ListComma(u)),
        _ => State::Dead,
    }
}

/// Behind the function's declarator.
#[tactic(auto, using(crate::proofs::Marks::function_goes, crate::proofs::Marks::function_dies))]
fn function_ends(d: Declaration, token: Token<'_>) -> State
    ensures { state_of result ≡ function_ends d (token_of token.entry) }
{
    if is_semicolon(token) {
        State::Ended(d)
    } else {
        State::Dead
    }
}

/// The end of a declarator, with no bracket open.
fn settled_ends(alloc: Global, u: Settled, token: Token<'_>) -> Result<State, NoMemory>
    ensures { IfOk result (λ s. state_of s ≡ settled_ends (settled_of u) (token_of token.entry)) }
{
    match u {
        Settled::OfParameter(head, types, _) => {
            let mut types = types;
            types.push(FfiType::Pointer)?;
            Ok(step_closing(Dialect::Wide, head, types, token))
        }
        Settled::OfInner(outer, _) => Ok(inner_ends(outer, token)),
        Settled::OfMember(k, counts, types, w, _) => {
            let t = counts.array_of(alloc, FfiType::Pointer)?;
            Ok(member_ends(k, t, types, w, token)?)
        }
        Settled::OfFunction(d, _) => Ok(function_ends(d, token)),
    }
}

/// One bracket less.
fn closed_bracket(alloc: Global, u: Settled, n: u32) -> Result<State, NoMemory>
    ensures { IfOk result (λ s. state_of s ≡ settled (fewer (settled_of u) n)) }
{
    Ok(State::Wide(Wide::Settled(Box::new(alloc, fewer(u, n))?)))
}

/// A token that ends a bracket or the declarator.
#[tactic(auto, using(crate::proofs::Settling::none_open, crate::proofs::Settling::some_open))]
pub fn bracket_or_end(alloc: Global, u: Settled, token: Token<'_>) -> Result<State, NoMemory>
    ensures { IfOk result (λ s. state_of s ≡ bracket_or_end (brackets_of (settled_of u)) (settled_of u) (token_of token.entry)) }
{
    let n = brackets_of(&u);
    if n == 0 {
        Ok(settled_ends(alloc, u, token)?)
    } else {
        Ok(closing_bracket(alloc, u, n - 1, token)?)
    }
}

/// A token where a bracket is open, and so many round it.
#[tactic(auto, using(crate::proofs::Marks::bracket_goes, crate::proofs::Marks::bracket_dies))]
fn closing_bracket(alloc: Global, u: Settled, n: u32, token: Token<'_>) -> Result<State, NoMemory>
    ensures { IfOk result (λ s. state_of s ≡ bracket_or_end (suc n) (settled_of u) (token_of token.entry)) }
{
    if is_close_round(token) {
        Ok(closed_bracket(alloc, u, n)?)
    } else {
        Ok(State::Dead)
    }
}

/// A list, where it has room.
pub fn list_with_room(u: Box<Settled>) -> State
    ensures { state_of result ≡ list_with_room (settled_of (box_value u)) }
{
    if has_room_inside(&u, MOST_OPEN) {
        State::Wide(Wide::ListOpened(u))
    } else {
        State::Dead
    }
}

/// A token behind what is settled.
pub fn step_settled(alloc: Global, u: Box<Settled>, token: Token<'_>) -> Result<State, NoMemory>
    ensures { IfOk result (λ s. state_of s ≡ step_settled (settled_of (box_value u)) (token_of token.entry)) }
{
    match token {
        Token::OpenSquare => Ok(State::Wide(Wide::SquareOpened(u))),
        Token::OpenRound => Ok(list_with_room(u)),
        _ => bracket_or_end(alloc, Box::into_inner(u), token),
    }
}

/// A token behind its "[".
pub fn step_square(u: Box<Settled>, token: Token<'_>) -> State
    ensures { state_of result ≡ step_square (settled_of (box_value u)) (token_of token.entry) }
{
    match token {
        Token::Number(_) => State::Wide(Wide::SquareFilled(u)),
        Token::Star => State::Wide(Wide::SquareFilled(u)),
        Token::Name(_) => State::Wide(Wide::SquareFilled(u)),
        Token::CloseSquare => State::Wide(Wide::Settled(u)),
        _ => State::Dead,
    }
}

/// A token behind a number in it.
#[tactic(auto, using(crate::proofs::Marks::filled_goes, crate::proofs::Marks::filled_dies))]
pub fn step_filled(u: Box<Settled>, token: Token<'_>) -> State
    ensures { state_of result ≡ step_filled (settled_of (box_value u)) (token_of token.entry) }
{
    if is_close_square(token) {
        State::Wide(Wide::Settled(u))
    } else {
        State::Dead
    }
}

/// A token behind the "(" of a list that is not kept.
pub fn step_list_opened(r: Dialect, u: Box<Settled>, token: Token<'_>) -> State
    ensures { state_of result ≡ step_list_opened (dialect_of r) (settled_of (box_value u)) (token_of token.entry) }
{
    match token {
        Token::CloseRound => State::Wide(Wide::Settled(u)),
        Token::Void => State::Wide(Wide::ListVoid(u)),
        _ => step_type(r, Where::Inner(u), token),
    }
}

/// A token behind `void` in it.
pub fn step_list_void(alloc: Global, u: Box<Settled>, token: Token<'_>) -> Result<State, NoMemory>
    ensures { IfOk result (λ s. state_of s ≡ step_list_void (settled_of (box_value u)) (token_of token.entry)) }
{
    match token {
        Token::CloseRound => Ok(State::Wide(Wide::Settled(u))),
        _ => step_declarator(
            alloc,
            Kind::Nothing,
            Round::Unstarred(0),
            Where::Inner(u),
            token,
        ),
    }
}

/// A token behind a comma in it.
pub fn step_list_comma(r: Dialect, u: Box<Settled>, token: Token<'_>) -> State
    ensures { state_of result ≡ step_list_comma (dialect_of r) (settled_of (box_value u)) (token_of token.entry) }
{
    match token {
        Token::Dots => State::Wide(Wide::ListDots(u)),
        _ => step_type(r, Where::Inner(u), token),
    }
}

/// A token behind the dots in it.
#[tactic(auto, using(crate::proofs::Marks::dots_go, crate::proofs::Marks::dots_die))]
pub fn step_list_dots(u: Box<Settled>, token: Token<'_>) -> State
    ensures { state_of result ≡ step_list_dots (settled_of (box_value u)) (token_of token.entry) }
{
    if is_close_round(token) {
        State::Wide(Wide::Settled(u))
    } else {
        State::Dead
    }
}
