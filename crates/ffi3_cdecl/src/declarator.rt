//! One token of a declarator, in the wide reading.
ghost use Rattle.std.specs.Prelude.{◌≡◌, ◌+◌, suc, IfOk, ltb, box_value, option_map};
ghost use Rattle.ffi3_cdecl_spec.specs.Tokens.{close_round};
ghost use Rattle.ffi3_types.specs.TreeOf.{tree_of};
ghost use Rattle.ffi3_cdecl_spec.specs.Machine.{depth, brackets, open_bracket, function_name, member_name, parameter_by, inner_by, declared_name, itself_or_bracket, step_itself, nothing_or_bracket, step_inner_nothing, step_unnamed, step_declarator, name_in_bracket, step_round_opened, step_function_named, step_round_closing, unstarred, starred, settled, at_parameter, at_inner};
ghost use Rattle.ffi3_cdecl.specs.TokenOf.{token_of};
ghost use Rattle.ffi3_cdecl.specs.RoundOf.{round_of, bracket_closed};
ghost use Rattle.ffi3_cdecl.specs.SaidOf.{kind_of};
ghost use Rattle.ffi3_cdecl.specs.StateOf.{head_of, where_of, settled_of, state_of};

use crate::declaration::Declaration;
use crate::place::{Counts, Gathered};
use crate::round::{Round, bracket_inside, brackets, star_inside, sum};
use crate::said::Kind;
use crate::settled::{bracket_or_end, list_with_room};
use crate::state::{Head, Member, Settled, State, Where, Wide};
use crate::step::{MOST_OPEN, has_room, step_closing};
use crate::token::{Dialect, Token, is_close_round};
use ffi3_types::{Bytes, FfiType, NoMemory};
use std::alloc::Global;
use std::mem;

/// Whether a bracket more may be open there, where so many are.
#[tactic(auto, using(crate::proofs::Rounds::too_many, crate::proofs::Rounds::room_left))]
fn fits(w: &Where, n: u32) -> bool
    ensures { result ≡ ltb (depth (where_of w.now) + n) 16 }
{
    let n = n as u64;
    n <= MOST_OPEN && has_room(w, MOST_OPEN - n)
}

/// A bracket, where it has room.
#[tactic(auto, using(crate::proofs::Settling::bracket_opens, crate::proofs::Settling::bracket_refused))]
fn open_bracket(k: Kind, o: Round, w: Where) -> Result<State, NoMemory>
    ensures { IfOk result (λ s. state_of s ≡ open_bracket (kind_of k) (round_of o) (where_of w)) }
{
    let n = brackets(o)?;
    if fits(&w, n) {
        let inside = bracket_inside(o)?;
        Ok(State::Wide(Wide::RoundOpened(k, inside, w)))
    } else {
        Ok(State::Dead)
    }
}

/// The name of the function, whose result is as the base says.
fn called_itself(alloc: Global, called: &[u8], k: Kind, n: u32) -> Result<State, NoMemory>
    ensures { IfOk result (λ s. state_of s ≡ function_name called.now (kind_of k) (unstarred n)) }
{
    match k {
        Kind::Whole(t) => {
            let called = Bytes::from_slice(alloc, called)?;
            Ok(State::Wide(Wide::FunctionNamed(called, t, Round::Unstarred(n))))
        }
        Kind::Nothing => {
            let called = Bytes::from_slice(alloc, called)?;
            Ok(State::Wide(Wide::FunctionNamed(called, FfiType::Void, Round::Unstarred(n))))
        }
        Kind::Bare => Ok(State::Dead),
    }
}

/// The name of the function.
fn function_name(alloc: Global, called: &[u8], k: Kind, o: Round) -> Result<State, NoMemory>
    ensures { IfOk result (λ s. state_of s ≡ function_name called.now (kind_of k) (round_of o)) }
{
    match o {
        Round::Unstarred(n) => called_itself(alloc, called, k, n),
        Round::Starred(n, m) => {
            mem::drop(k);
            let called = Bytes::from_slice(alloc, called)?;
            Ok(State::Wide(Wide::FunctionNamed(called, FfiType::Pointer, Round::Starred(n, m))))
        }
    }
}

/// The name of a member of the base's type.
fn member_itself(alloc: Global, k: Kind, n: u32, types: Gathered, outer: Box<Where>) -> State
    ensures { state_of result ≡ member_name (kind_of k) (unstarred n) types (where_of (box_value outer)) }
{
    match k {
        Kind::Whole(t) => State::Wide(Wide::MemberAt(
            Member::Plain(t, Counts::new(alloc), n),
            types,
            outer,
        )),
        _ => State::Dead,
    }
}

/// The name of a member.
fn member_name(alloc: Global, k: Kind, o: Round, types: Gathered, outer: Box<Where>) -> State
    ensures { state_of result ≡ member_name (kind_of k) (round_of o) types (where_of (box_value outer)) }
{
    match o {
        Round::Unstarred(n) => member_itself(alloc, k, n, types, outer),
        Round::Starred(n, m) => State::Wide(Wide::MemberAt(
            Member::Starred(k, Counts::new(alloc), n, m),
            types,
            outer,
        )),
    }
}

/// What is settled.
fn settled(alloc: Global, u: Settled) -> Result<State, NoMemory>
    ensures { IfOk result (λ s. state_of s ≡ settled (settled_of u)) }
{
    Ok(State::Wide(Wide::Settled(Box::new(alloc, u)?)))
}

/// Behind a parameter's name.
fn parameter_by(
    alloc: Global,
    k: Kind,
    o: Round,
    head: Head,
    types: Gathered,
) -> Result<State, NoMemory>
    ensures { IfOk result (λ s. state_of s ≡ parameter_by (kind_of k) (round_of o) (head_of head) types) }
{
    match o {
        Round::Unstarred(n) => Ok(State::Wide(Wide::ParameterItself(k, n, head, types))),
        Round::Starred(n, m) => {
            mem::drop(k);
            let all = sum(n, m)?;
            Ok(settled(alloc, Settled::OfParameter(head, types, all))?)
        }
    }
}

/// The name of a parameter of a list that is not kept, as the base says.
fn inner_itself(alloc: Global, k: Kind, n: u32, u: Box<Settled>) -> Result<State, NoMemory>
    ensures { IfOk result (λ s. state_of s ≡ inner_by (kind_of k) (unstarred n) (settled_of (box_value u))) }
{
    match k {
        Kind::Nothing => Ok(State::Wide(Wide::InnerNothing(n, u))),
        Kind::Bare => settled(alloc, Settled::OfInner(u, n)),
        Kind::Whole(t) => {
            mem::drop(t);
            settled(alloc, Settled::OfInner(u, n))
        }
    }
}

/// The name of a parameter of a list that is not kept.
fn inner_by(alloc: Global, k: Kind, o: Round, u: Box<Settled>) -> Result<State, NoMemory>
    ensures { IfOk result (λ s. state_of s ≡ inner_by (kind_of k) (round_of o) (settled_of (box_value u))) }
{
    match o {
        Round::Unstarred(n) => inner_itself(alloc, k, n, u),
        Round::Starred(n, m) => {
            mem::drop(k);
            let all = sum(n, m)?;
            Ok(settled(alloc, Settled::OfInner(u, all))?)
        }
    }
}

/// The name that is declared.
fn declared_name(
    alloc: Global,
    k: Kind,
    o: Round,
    w: Where,
    called: &[u8],
) -> Result<State, NoMemory>
    ensures { IfOk result (λ s. state_of s ≡ declared_name (kind_of k) (round_of o) (where_of w) called.now) }
{
    match w {
        Where::Result => function_name(alloc, called, k, o),
        Where::Parameter(head, types) => parameter_by(alloc, k, o, head, types),
        Where::Member(types, outer) => Ok(member_name(alloc, k, o, types, outer)),
        Where::Inner(u) => inner_by(alloc, k, o, u),
    }
}

/// The end of a parameter as its base says.
fn itself_ends(k: Kind, head: Head, types: Gathered, token: Token<'_>) -> Result<State, NoMemory>
    ensures { IfOk result (λ s. state_of s ≡ itself_or_bracket (kind_of k) 0 (head_of head) types (token_of token.entry)) }
{
    match k {
        Kind::Whole(t) => {
            let mut types = types;
            types.push(t)?;
            Ok(step_closing(Dialect::Wide, head, types, token))
        }
        _ => Ok(State::Dead),
    }
}

/// A bracket's end, where so many stand round it.
#[tactic(auto, using(crate::proofs::Marks::itself_goes, crate::proofs::Marks::itself_dies))]
fn itself_in_bracket(k: Kind, n: u32, head: Head, types: Gathered, token: Token<'_>) -> State
    ensures { state_of result ≡ itself_or_bracket (kind_of k) (suc n) (head_of head) types (token_of token.entry) }
{
    if is_close_round(token) {
        State::Wide(Wide::ParameterItself(k, n, head, types))
    } else {
        State::Dead
    }
}

/// The end of such a parameter, or of a bracket.
#[tactic(auto, using(crate::proofs::Settling::itself_none_open, crate::proofs::Settling::itself_some_open))]
fn itself_or_bracket(
    k: Kind,
    n: u32,
    head: Head,
    types: Gathered,
    token: Token<'_>,
) -> Result<State, NoMemory>
    ensures { IfOk result (λ s. state_of s ≡ itself_or_bracket (kind_of k) n (head_of head) types (token_of token.entry)) }
{
    if n == 0 {
        Ok(itself_ends(k, head, types, token)?)
    } else {
        Ok(itself_in_bracket(k, n - 1, head, types, token))
    }
}

/// A token behind a parameter as its base says.
pub fn step_itself(
    alloc: Global,
    k: Kind,
    n: u32,
    head: Head,
    types: Gathered,
    token: Token<'_>,
) -> Result<State, NoMemory>
    ensures { IfOk result (λ s. state_of s ≡ step_itself (kind_of k) n (head_of head) types (token_of token.entry)) }
{
    match token {
        Token::OpenSquare => {
            mem::drop(k);
            let u = Box::new(alloc, Settled::OfParameter(head, types, n))?;
            Ok(State::Wide(Wide::SquareOpened(u)))
        }
        Token::OpenRound => {
            mem::drop(k);
            Ok(list_with_room(Box::new(alloc, Settled::OfParameter(head, types, n))?))
        }
        _ => itself_or_bracket(k, n, head, types, token),
    }
}

/// `void` in so many brackets and one: the end of one.
#[tactic(auto, using(crate::proofs::Marks::nothing_goes, crate::proofs::Marks::nothing_dies))]
fn nothing_in_bracket(n: u32, u: Box<Settled>, token: Token<'_>) -> State
    ensures { state_of result ≡ nothing_or_bracket (suc n) (settled_of (box_value u)) (token_of token.entry) }
{
    if is_close_round(token) {
        State::Wide(Wide::InnerNothing(n, u))
    } else {
        State::Dead
    }
}

/// `void` with a name, or in a bracket.
#[tactic(auto, using(crate::proofs::Settling::nothing_none_open, crate::proofs::Settling::nothing_some_open))]
fn nothing_or_bracket(n: u32, u: Box<Settled>, token: Token<'_>) -> State
    ensures { state_of result ≡ nothing_or_bracket n (settled_of (box_value u)) (token_of token.entry) }
{
    if n == 0 {
        State::Dead
    } else {
        nothing_in_bracket(n - 1, u, token)
    }
}

/// A token behind `void` with a name, in a list that is not kept.
pub fn step_inner_nothing(
    alloc: Global,
    n: u32,
    u: Box<Settled>,
    token: Token<'_>,
) -> Result<State, NoMemory>
    ensures { IfOk result (λ s. state_of s ≡ step_inner_nothing n (settled_of (box_value u)) (token_of token.entry)) }
{
    match token {
        Token::OpenSquare => {
            let v = Box::new(alloc, Settled::OfInner(u, n))?;
            Ok(State::Wide(Wide::SquareOpened(v)))
        }
        Token::OpenRound => Ok(list_with_room(Box::new(alloc, Settled::OfInner(u, n))?)),
        _ => Ok(nothing_or_bracket(n, u, token)),
    }
}

/// A token where a parameter's name is left out.
fn unnamed_parameter(
    alloc: Global,
    k: Kind,
    o: Round,
    head: Head,
    types: Gathered,
    token: Token<'_>,
) -> Result<State, NoMemory>
    ensures { IfOk result (λ s. state_of s ≡ step_unnamed (kind_of k) (round_of o) (at_parameter (head_of head) types) (token_of token.entry)) }
{
    match token {
        Token::OpenSquare => {
            mem::drop(k);
            let n = brackets(o)?;
            let u = Box::new(alloc, Settled::OfParameter(head, types, n))?;
            Ok(State::Wide(Wide::SquareOpened(u)))
        }
        _ => match o {
            Round::Unstarred(n) => Ok(itself_or_bracket(k, n, head, types, token)?),
            Round::Starred(n, m) => {
                mem::drop(k);
                let all = sum(n, m)?;
                Ok(bracket_or_end(alloc, Settled::OfParameter(head, types, all), token)?)
            }
        },
    }
}

/// A token where the name of a parameter is left out, in a list that is not kept.
fn unnamed_inner(
    alloc: Global,
    k: Kind,
    o: Round,
    u: Box<Settled>,
    token: Token<'_>,
) -> Result<State, NoMemory>
    ensures { IfOk result (λ s. state_of s ≡ step_unnamed (kind_of k) (round_of o) (at_inner (settled_of (box_value u))) (token_of token.entry)) }
{
    match token {
        Token::OpenSquare => {
            mem::drop(k);
            let n = brackets(o)?;
            let v = Box::new(alloc, Settled::OfInner(u, n))?;
            Ok(State::Wide(Wide::SquareOpened(v)))
        }
        _ => match o {
            Round::Unstarred(n) => match k {
                Kind::Nothing => Ok(nothing_or_bracket(n, u, token)),
                Kind::Bare => Ok(bracket_or_end(alloc, Settled::OfInner(u, n), token)?),
                Kind::Whole(t) => {
                    mem::drop(t);
                    Ok(bracket_or_end(alloc, Settled::OfInner(u, n), token)?)
                }
            },
            Round::Starred(n, m) => {
                mem::drop(k);
                let all = sum(n, m)?;
                Ok(bracket_or_end(alloc, Settled::OfInner(u, all), token)?)
            }
        },
    }
}

/// A token where a name may be left out, or may not.
fn step_unnamed(
    alloc: Global,
    k: Kind,
    o: Round,
    w: Where,
    token: Token<'_>,
) -> Result<State, NoMemory>
    ensures { IfOk result (λ s. state_of s ≡ step_unnamed (kind_of k) (round_of o) (where_of w) (token_of token.entry)) }
{
    match w {
        Where::Result => Ok(State::Dead),
        Where::Parameter(head, types) => unnamed_parameter(alloc, k, o, head, types, token),
        Where::Member(_, _) => Ok(State::Dead),
        Where::Inner(u) => unnamed_inner(alloc, k, o, u, token),
    }
}

/// A token before a declarator's name.
pub fn step_declarator(
    alloc: Global,
    k: Kind,
    o: Round,
    w: Where,
    token: Token<'_>,
) -> Result<State, NoMemory>
    ensures { IfOk result (λ s. state_of s ≡ step_declarator (kind_of k) (round_of o) (where_of w) (token_of token.entry)) }
{
    match token {
        Token::Star => Ok(State::Wide(Wide::Declarator(k, star_inside(o)?, w))),
        Token::Name(called) => declared_name(alloc, k, o, w, called),
        Token::OpenRound => open_bracket(k, o, w),
        _ => step_unnamed(alloc, k, o, w, token),
    }
}

/// A name in a bracket: it stands there only where it may not be left out.
fn name_in_bracket(
    alloc: Global,
    k: Kind,
    o: Round,
    w: Where,
    called: &[u8],
) -> Result<State, NoMemory>
    ensures { IfOk result (λ s. state_of s ≡ name_in_bracket (kind_of k) (round_of o) (where_of w) called.now) }
{
    match w {
        Where::Result => function_name(alloc, called, k, o),
        Where::Parameter(_, _) => Ok(State::Dead),
        Where::Member(types, outer) => Ok(member_name(alloc, k, o, types, outer)),
        Where::Inner(_) => Ok(State::Dead),
    }
}

/// A token behind a declarator's "(".
pub fn step_round_opened(
    alloc: Global,
    k: Kind,
    o: Round,
    w: Where,
    token: Token<'_>,
) -> Result<State, NoMemory>
    ensures { IfOk result (λ s. state_of s ≡ step_round_opened (kind_of k) (round_of o) (where_of w) (token_of token.entry)) }
{
    match token {
        Token::Star => Ok(State::Wide(Wide::Declarator(k, star_inside(o)?, w))),
        Token::OpenRound => open_bracket(k, o, w),
        Token::Name(called) => name_in_bracket(alloc, k, o, w, called),
        _ => Ok(State::Dead),
    }
}

/// Behind a ")": the brackets that are open still, if one was open inside of the innermost star.
#[tactic(auto, using(crate::proofs::Settling::unstarred_none, crate::proofs::Settling::unstarred_less, crate::proofs::Settling::starred_none, crate::proofs::Settling::starred_less))]
fn bracket_closed(o: Round) -> Option<Round>
    ensures { option_map round_of result ≡ bracket_closed (round_of o) }
{
    match o {
        Round::Unstarred(n) => {
            if n == 0 {
                None
            } else {
                Some(Round::Unstarred(n - 1))
            }
        }
        Round::Starred(n, m) => {
            if n == 0 {
                None
            } else {
                Some(Round::Starred(n - 1, m))
            }
        }
    }
}

/// A ")" behind the function's name.
#[tactic(auto, using(crate::proofs::Settling::name_closed, crate::proofs::Settling::name_not_closed))]
fn name_closed(called: Bytes, t: FfiType, o: Round) -> State
    ensures { state_of result ≡ step_function_named called (tree_of t) (round_of o) close_round }
{
    match bracket_closed(o) {
        Some(p) => State::Wide(Wide::FunctionNamed(called, t, p)),
        None => State::Dead,
    }
}

/// A token behind the function's name.
pub fn step_function_named(called: Bytes, t: FfiType, o: Round, token: Token<'_>) -> State
    ensures { state_of result ≡ step_function_named called (tree_of t) (round_of o) (token_of token.entry) }
{
    match token {
        Token::OpenRound => State::Opened(Head {
            called,
            result_type: t,
            fixed: None,
            round: o,
        }),
        Token::CloseRound => name_closed(called, t, o),
        _ => State::Dead,
    }
}

/// A token behind the function's parameters, where no bracket is open and no star round it.
fn behind_list(d: Declaration, token: Token<'_>) -> State
    ensures { state_of result ≡ step_round_closing (unstarred 0) d (token_of token.entry) }
{
    match token {
        Token::Semicolon => State::Ended(d),
        _ => State::Dead,
    }
}

/// The same in so many brackets and one.
fn behind_list_in_round(n: u32, d: Declaration, token: Token<'_>) -> State
    ensures { state_of result ≡ step_round_closing (unstarred (suc n)) d (token_of token.entry) }
{
    match token {
        Token::CloseRound => State::Wide(Wide::Closing(Round::Unstarred(n), d)),
        _ => State::Dead,
    }
}

/// Where a star stands round it, and no bracket.
fn behind_starred_list(d: Declaration, token: Token<'_>) -> State
    ensures { state_of result ≡ step_round_closing (starred 0 0) d (token_of token.entry) }
{
    match token {
        Token::Semicolon => State::Ended(d),
        _ => State::Dead,
    }
}

/// Where so many brackets and one stand round that star.
fn behind_starred_list_in_round(
    alloc: Global,
    m: u32,
    d: Declaration,
    token: Token<'_>,
) -> Result<State, NoMemory>
    ensures { IfOk result (λ s. state_of s ≡ step_round_closing (starred 0 (suc m)) d (token_of token.entry)) }
{
    match token {
        Token::CloseRound => {
            let u = Box::new(alloc, Settled::OfFunction(d, m))?;
            Ok(State::Wide(Wide::Settled(u)))
        }
        _ => Ok(State::Dead),
    }
}

/// Where so many brackets and one are open inside of that star.
fn behind_list_inside_star(n: u32, m: u32, d: Declaration, token: Token<'_>) -> State
    ensures { state_of result ≡ step_round_closing (starred (suc n) m) d (token_of token.entry) }
{
    match token {
        Token::CloseRound => State::Wide(Wide::Closing(Round::Starred(n, m), d)),
        _ => State::Dead,
    }
}

/// A token behind the function's parameters.
#[tactic(auto, using(crate::proofs::Settling::closing_none, crate::proofs::Settling::closing_some, crate::proofs::Settling::closing_star_none, crate::proofs::Settling::closing_star_outside, crate::proofs::Settling::closing_star_inside))]
pub fn step_round_closing(
    alloc: Global,
    o: Round,
    d: Declaration,
    token: Token<'_>,
) -> Result<State, NoMemory>
    ensures { IfOk result (λ s. state_of s ≡ step_round_closing (round_of o) d (token_of token.entry)) }
{
    match o {
        Round::Unstarred(n) => {
            if n == 0 {
                Ok(behind_list(d, token))
            } else {
                Ok(behind_list_in_round(n - 1, d, token))
            }
        }
        Round::Starred(n, m) => {
            if n == 0 {
                if m == 0 {
                    Ok(behind_starred_list(d, token))
                } else {
                    Ok(behind_starred_list_in_round(alloc, m - 1, d, token)?)
                }
            } else {
                Ok(behind_list_inside_star(n - 1, m, d, token))
            }
        }
    }
}
