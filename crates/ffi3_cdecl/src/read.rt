//! The machine on its way over the tokens, and what it comes to.
ghost use Rattle.std.specs.Prelude.{◌≡◌, IfOk, option_map};
ghost use Rattle.ffi3_cdecl_spec.specs.Machine.{finish, is_dead, judged, closing, settled};
ghost use Rattle.ffi3_cdecl_spec.specs.Reading.{is_too_great};
ghost use Rattle.ffi3_cdecl_spec.specs.OnePass.{keeping, kept, taking, new_pass};
ghost use Rattle.ffi3_type_spec.specs.FirstFault.{first_fault_for};
ghost use Rattle.ffi3_type_spec.specs.Signature.{for_places};
ghost use Rattle.ffi3_types.specs.SignatureFaultOf.{signature_fault_of};
ghost use Rattle.ffi3_format_spec.specs.Format.{resolved_signature};
ghost use Rattle.ffi3_cdecl_spec.specs.ReadingFor.{judged_for, every_format, first_fault_by, judged_everywhere};
ghost use Rattle.ffi3_cdecl.specs.TokenOf.{dialect_of, token_of};
ghost use Rattle.ffi3_cdecl.specs.RoundOf.{round_of};
ghost use Rattle.ffi3_cdecl.specs.StateOf.{settled_of, state_of, wide_of};
ghost use Rattle.ffi3_cdecl.specs.PassOf.{pass_of, outcome_of, judged_by, outcome_behind, unjudged_behind};

use crate::declaration::Declaration;
use crate::declarator::{
    step_declarator, step_function_named, step_inner_nothing, step_itself, step_round_closing,
    step_round_opened,
};
use crate::members::{step_member_at, step_member_bound, step_member_bounded};
use crate::round::Round;
use crate::settled::{
    step_filled, step_list_comma, step_list_dots, step_list_opened, step_list_void, step_settled,
    step_square,
};
use crate::state::{Settled, State, Where, Wide, step_base, step_type};
use crate::step::{
    step_after_member, step_closed, step_closing, step_comma, step_count, step_counted, step_dots,
    step_long, step_long_long, step_member, step_named, step_opened, step_short, step_sign,
    step_sole_void, step_star, step_struct, step_typed,
};
use crate::token::{Dialect, Token};
use crate::words::{step_struct_tag, step_tag, step_wide_dots, step_words};
use ffi3_format::{Format, resolve};
use ffi3_types::{NoMemory, Sig, SigFault, check_placed, check_sig};
use std::alloc::Global;
use std::mem;

/// One token further in a state of the wide reading.
fn step_wide(alloc: Global, r: Dialect, state: Wide, token: Token<'_>) -> Result<State, NoMemory>
    ensures { IfOk result (λ s. state_of s ≡ keeping (dialect_of r) (wide_of state) (token_of token.entry)) }
{
    match state {
        Wide::AfterWords(said, w) => step_words(alloc, said, w, token),
        Wide::AfterStructTag(w) => step_struct_tag(alloc, w, token),
        Wide::WantsTag(w) => Ok(step_tag(w, token)),
        Wide::Declarator(k, o, w) => step_declarator(alloc, k, o, w, token),
        Wide::RoundOpened(k, o, w) => step_round_opened(alloc, k, o, w, token),
        Wide::FunctionNamed(called, t, o) => Ok(step_function_named(called, t, o, token)),
        Wide::Closing(o, d) => step_round_closing(alloc, o, d, token),
        Wide::ParameterItself(k, n, head, types) => step_itself(alloc, k, n, head, types, token),
        Wide::InnerNothing(n, u) => step_inner_nothing(alloc, n, u, token),
        Wide::MemberAt(b, types, w) => step_member_at(alloc, b, types, w, token),
        Wide::MemberBound(b, types, w) => step_member_bound(b, types, w, token),
        Wide::MemberBounded(b, types, w) => Ok(step_member_bounded(b, types, w, token)),
        Wide::Settled(u) => step_settled(alloc, u, token),
        Wide::SquareOpened(u) => Ok(step_square(u, token)),
        Wide::SquareFilled(u) => Ok(step_filled(u, token)),
        Wide::ListOpened(u) => Ok(step_list_opened(r, u, token)),
        Wide::ListVoid(u) => step_list_void(alloc, u, token),
        Wide::ListComma(u) => Ok(step_list_comma(r, u, token)),
        Wide::ListDots(u) => Ok(step_list_dots(u, token)),
        Wide::Dots(head, types) => Ok(step_wide_dots(head, types, token)),
    }
}

/// One token further.
pub fn step(alloc: Global, r: Dialect, state: State, token: Token<'_>) -> Result<State, NoMemory>
    ensures { IfOk result (λ s. state_of s ≡ keeping (dialect_of r) (state_of state) (token_of token.entry)) }
{
    match state {
        State::WantsType(w) => Ok(step_type(r, w, token)),
        State::WantsBase(w) => Ok(step_base(r, w, token)),
        State::AfterSign(g, w) => step_sign(alloc, r, g, w, token),
        State::AfterShort(g, w) => step_short(alloc, r, g, w, token),
        State::AfterLong(g, w) => step_long(alloc, r, g, w, token),
        State::AfterLongLong(g, w) => step_long_long(alloc, r, g, w, token),
        State::AfterStruct(w) => step_struct(alloc, r, w, token),
        State::WantsStar(w) => Ok(step_star(w, token)),
        State::SoleVoid(head) => step_sole_void(alloc, r, head, token),
        State::Typed(t, w) => step_typed(alloc, r, t, w, token),
        State::Named(head) => Ok(step_named(head, token)),
        State::Opened(head) => Ok(step_opened(alloc, r, head, token)),
        State::ParameterNamed(head, types) => Ok(step_closing(r, head, types, token)),
        State::AfterComma(head, types) => Ok(step_comma(r, head, types, token)),
        State::AfterDots(d) => Ok(step_dots(d, token)),
        State::MemberNamed(t, counts, types, w) => step_member(alloc, t, counts, types, w, token),
        State::WantsCount(t, counts, types, w) => step_count(t, counts, types, w, token),
        State::Counted(t, counts, types, w) => Ok(step_counted(t, counts, types, w, token)),
        State::AfterMember(types, w) => Ok(step_after_member(r, types, w, token)),
        State::Closed(d) => Ok(step_closed(d, token)),
        State::Ended(_) => Ok(State::Dead),
        State::Dead => Ok(State::Dead),
        State::Wide(wide) => step_wide(alloc, r, wide, token),
    }
}

/// What a text is read as.
#[derive(Drop)]
pub enum Outcome {
    Reads(Declaration),
    BadToken(usize),
    Unexpected(usize),
    BadNumber(usize),
    BadSignature(SigFault),
}

/// The state, where it died, and where the first number stands that is too great.
#[derive(Drop)]
pub struct Pass {
    state: State,
    died: Option<usize>,
    great: Option<usize>,
}

impl Pass {
    /// Before the first token.
    pub fn new() -> Pass
        ensures { pass_of result ≡ new_pass }
    {
        Pass {
            state: State::WantsType(Where::Result),
            died: None,
            great: None,
        }
    }
}

/// Whether no declaration can follow.
#[tactic(auto, using(crate::proofs::Lives::wide_lives))]
pub fn is_dead(state: &State) -> bool
    ensures { result ≡ is_dead (state_of state.now) }
{
    match state {
        State::Dead => true,
        State::Wide(_) => false,
        _ => false,
    }
}

/// Whether the token is a number that is too great.
fn is_too_great(token: &Token<'_>) -> bool
    ensures { result ≡ is_too_great (token_of token.now) }
{
    match token {
        Token::Number(n) => 0x1_0000_0000 <= *n,
        _ => false,
    }
}

/// The first place, where this is one of them or not.
fn kept(old: Option<usize>, now: bool, at: usize) -> Option<usize>
    ensures { result ≡ kept old now at }
{
    match old {
        Some(there) => Some(there),
        None => { if now { Some(at) } else { None } }
    }
}

/// The pass with one token more, at an offset.
pub fn taking(
    alloc: Global,
    r: Dialect,
    pass: Pass,
    at: usize,
    token: Token<'_>,
) -> Result<Pass, NoMemory>
    ensures { IfOk result (λ p. pass_of p ≡ taking (dialect_of r) (pass_of pass) at (token_of token.entry)) }
{
    let Pass { state, died, great } = pass;
    let great = kept(great, is_too_great(&token), at);
    let state = step(alloc, r, state, token)?;
    let died = kept(died, is_dead(&state), at);
    Ok(Pass { state, died, great })
}

/// A declaration whose tokens are all right, if its signature has no fault.
#[tactic(auto, using(crate::proofs::Judging::right_is_judged, crate::proofs::Judging::fault_is_judged))]
fn judged(d: Declaration) -> Outcome
    ensures { outcome_of result ≡ judged d }
{
    match check_sig(d.sig()) {
        Ok(()) => Outcome::Reads(d),
        Err(fault) => Outcome::BadSignature(fault),
    }
}

/// The same where long doubles have a format, if its signature can be placed.
#[tactic(auto, using(crate::proofs::Judging::placed_is_judged, crate::proofs::Judging::placing_fault_is_judged))]
fn judged_for(alloc: Global, format: Format, d: Declaration) -> Result<Outcome, NoMemory>
    ensures { IfOk result (λ o. outcome_of o ≡ judged_for format d) }
{
    let d = d.resolved(alloc, format)?;
    Ok(match check_placed(d.sig()) {
        Ok(()) => Outcome::Reads(d),
        Err(fault) => Outcome::BadSignature(fault),
    })
}

/// The first fault of a signature, in places.
#[tactic(auto, using(crate::proofs::Judging::none_found, crate::proofs::Judging::found_first))]
fn placing_fault(sig: &Sig) -> Option<SigFault>
    ensures { option_map signature_fault_of result ≡ first_fault_for for_places sig.now }
{
    match check_placed(sig) {
        Ok(()) => None,
        Err(fault) => Some(fault),
    }
}

/// That of a signature whose long doubles have a format.
fn fault_for(alloc: Global, format: Format, sig: &Sig) -> Result<Option<SigFault>, NoMemory>
    ensures { IfOk result (λ f. option_map signature_fault_of f ≡ first_fault_for for_places (resolved_signature format sig.now)) }
{
    let resolved = resolve(alloc, format, sig.copy(alloc)?)?;
    Ok(placing_fault(&resolved))
}

/// That by the first format by which there is any.
fn fault_by_any(alloc: Global, sig: &Sig) -> Result<Option<SigFault>, NoMemory>
    ensures { IfOk result (λ f. option_map signature_fault_of f ≡ first_fault_by every_format sig.now) }
{
    if let Some(fault) = fault_for(alloc, Format::X87, sig)? {
        return Ok(Some(fault));
    }
    if let Some(fault) = fault_for(alloc, Format::Binary128, sig)? {
        return Ok(Some(fault));
    }
    fault_for(alloc, Format::Double, sig)
}

/// A declaration as it is written, if its signature can be placed whatever format long doubles have.
fn judged_everywhere(alloc: Global, d: Declaration) -> Result<Outcome, NoMemory>
    ensures { IfOk result (λ o. outcome_of o ≡ judged_everywhere d) }
{
    match fault_by_any(alloc, d.sig())? {
        None => Ok(Outcome::Reads(d)),
        Some(fault) => Ok(Outcome::BadSignature(fault)),
    }
}

/// An outcome whose declaration is judged so.
pub fn outcome_for(alloc: Global, format: Format, o: Outcome) -> Result<Outcome, NoMemory>
    ensures { IfOk result (λ r. outcome_of r ≡ judged_by (judged_for format) (outcome_of o)) }
{
    match o {
        Outcome::Reads(d) => judged_for(alloc, format, d),
        Outcome::BadToken(at) => Ok(Outcome::BadToken(at)),
        Outcome::Unexpected(at) => Ok(Outcome::Unexpected(at)),
        Outcome::BadNumber(at) => Ok(Outcome::BadNumber(at)),
        Outcome::BadSignature(fault) => Ok(Outcome::BadSignature(fault)),
    }
}

/// One whose declaration is judged by each format.
pub fn outcome_everywhere(alloc: Global, o: Outcome) -> Result<Outcome, NoMemory>
    ensures { IfOk result (λ r. outcome_of r ≡ judged_by judged_everywhere (outcome_of o)) }
{
    match o {
        Outcome::Reads(d) => judged_everywhere(alloc, d),
        Outcome::BadToken(at) => Ok(Outcome::BadToken(at)),
        Outcome::Unexpected(at) => Ok(Outcome::Unexpected(at)),
        Outcome::BadNumber(at) => Ok(Outcome::BadNumber(at)),
        Outcome::BadSignature(fault) => Ok(Outcome::BadSignature(fault)),
    }
}

/// One whose declaration is judged for calls.
fn outcome_judged(o: Outcome) -> Outcome
    ensures { outcome_of result ≡ judged_by judged (outcome_of o) }
{
    match o {
        Outcome::Reads(d) => judged(d),
        Outcome::BadToken(at) => Outcome::BadToken(at),
        Outcome::Unexpected(at) => Outcome::Unexpected(at),
        Outcome::BadNumber(at) => Outcome::BadNumber(at),
        Outcome::BadSignature(fault) => Outcome::BadSignature(fault),
    }
}

/// What is declared behind the function's parameters, where no bracket is open.
#[tactic(auto, using(crate::proofs::Settling::finish_none, crate::proofs::Settling::finish_some, crate::proofs::Settling::finish_star_none, crate::proofs::Settling::finish_star_outside, crate::proofs::Settling::finish_star_inside))]
fn finished_closing(o: Round, d: Declaration) -> Option<Declaration>
    ensures { result ≡ finish (closing (round_of o) d) }
{
    match o {
        Round::Unstarred(n) => { if n == 0 { Some(d) } else { None } }
        Round::Starred(n, m) => {
            if n == 0 {
                if m == 0 { Some(d) } else { None }
            } else {
                None
            }
        }
    }
}

/// What is declared by what is settled, if that is the function and no bracket is open.
#[tactic(auto, using(crate::proofs::Settling::settled_none, crate::proofs::Settling::settled_some))]
fn finished_settled(u: Settled) -> Option<Declaration>
    ensures { result ≡ finish (settled (settled_of u)) }
{
    match u {
        Settled::OfFunction(d, n) => { if n == 0 { Some(d) } else { None } }
        other => {
            mem::drop(other);
            None
        }
    }
}

/// What is declared in a state of the wide reading.
fn finished_wide(state: Wide) -> Option<Declaration>
    ensures { result ≡ finish (wide_of state) }
{
    match state {
        Wide::Closing(o, d) => finished_closing(o, d),
        Wide::Settled(u) => finished_settled(Box::into_inner(u)),
        other => {
            mem::drop(other);
            None
        }
    }
}

/// What is declared, where a declaration may end.
pub fn finished(state: State) -> Option<Declaration>
    ensures { result ≡ finish (state_of state) }
{
    match state {
        State::Closed(d) => Some(d),
        State::Ended(d) => Some(d),
        State::Wide(wide) => finished_wide(wide),
        other => {
            mem::drop(other);
            None
        }
    }
}

/// Behind a pass that stopped there, or at the end of the text: what its text declares is not judged.
pub fn unjudged_at(pass: Pass, stop: Option<usize>, end: usize) -> Outcome
    ensures { outcome_of result ≡ unjudged_behind stop end (pass_of pass) }
{
    let Pass { state, died, great } = pass;
    let declared = finished(state);
    if let Some(at) = stop {
        return Outcome::BadToken(at);
    }
    match declared {
        Some(d) => match great {
            Some(at) => Outcome::BadNumber(at),
            None => Outcome::Reads(d),
        },
        None => Outcome::Unexpected(died.unwrap_or(end)),
    }
}

/// Behind a pass that stopped there, or at the end of the text.
#[tactic(auto, using(crate::proofs::Passes::behind_judged))]
pub fn outcome_at(pass: Pass, stop: Option<usize>, end: usize) -> Outcome
    ensures { outcome_of result ≡ outcome_behind stop end (pass_of pass) }
{
    outcome_judged(unjudged_at(pass, stop, end))
}
