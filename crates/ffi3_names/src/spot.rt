//! Where a pass over a prototype is, and what one token tells there.
ghost use Rattle.std.specs.Prelude.{◌≡◌, IfOk, suc};
ghost use Rattle.ffi3_cdecl_spec.specs.Tokens.{type_word};
ghost use Rattle.ffi3_names_spec.specs.Scan.{closes, neither, bracket, is_comma, is_word, behind_by, members_by, next_declarator, next_function, next_into, next_words, next_base, next_tag, next_tagged, next_called, next_sole_void, next_opened, next, told_by_declarator, told_into, told_by_words, told_tagged, told_sole_void, told};
ghost use Rattle.ffi3_cdecl.specs.TokenOf.{scalar_of, token_of};
ghost use Rattle.ffi3_names.specs.NamesOf.{bracket_of, spot_of, told_of};

use crate::names::Name;
use ffi3_cdecl::token::{Sign, Token, TypeWord};
use ffi3_types::NoMemory;

/// Where a pass is. A bool says whether it is in the function's list, a number inside how many brackets.
#[derive(Clone, Copy)]
pub enum Spot {
    /// Where a base begins.
    Base(bool),
    /// Behind a word of a base.
    Words(bool),
    /// Behind `struct` and its like.
    Tag(bool),
    /// Behind a tag.
    Tagged(bool),
    /// Among a struct's members.
    Members(bool, usize),
    /// Before the name of a parameter.
    Declarator(usize),
    /// Behind it.
    Behind(usize),
    /// Before the function's name.
    Function,
    /// Behind it.
    Called,
    /// Where its list opens.
    Opened,
    /// Behind a `void` there.
    SoleVoid,
    /// Behind the list.
    Over,
}

/// Whether a token opens or closes a bracket.
#[derive(Clone, Copy)]
pub enum Bracket {
    Opens,
    Closes,
    Neither,
}

fn side(token: Token<'_>) -> Bracket
    ensures { bracket_of result ≡ bracket (token_of token.entry) }
{
    match token {
        Token::OpenRound => Bracket::Opens,
        Token::OpenCurly => Bracket::Opens,
        Token::OpenSquare => Bracket::Opens,
        Token::CloseRound => Bracket::Closes,
        Token::CloseCurly => Bracket::Closes,
        Token::CloseSquare => Bracket::Closes,
        _ => Bracket::Neither,
    }
}

fn is_comma(token: Token<'_>) -> bool
    ensures { result ≡ is_comma (token_of token.entry) }
{
    match token {
        Token::Comma => true,
        _ => false,
    }
}

/// Whether a word that names a type alone is one of the words that others may follow.
fn is_floating(word: TypeWord) -> bool
    ensures { result ≡ is_word (type_word (scalar_of word)) }
{
    match word {
        TypeWord::Float => true,
        TypeWord::Double => true,
        _ => false,
    }
}

/// Whether it is one of the words of a type that others may follow.
fn is_word(token: Token<'_>) -> bool
    ensures { result ≡ is_word (token_of token.entry) }
{
    match token {
        Token::Sign(Sign::Signed) => true,
        Token::Sign(Sign::Unsigned) => true,
        Token::Char(Sign::Signed) => true,
        Token::Char(Sign::Unsigned) => true,
        Token::Short => true,
        Token::Int => true,
        Token::Long => true,
        Token::Int128 => true,
        Token::Complex => true,
        Token::Type(word) => is_floating(word),
        _ => false,
    }
}

/// One bracket more.
fn deeper(n: usize) -> Result<usize, NoMemory>
    ensures { IfOk result (λ m. m ≡ suc n) }
{
    match n.checked_add(1) {
        Some(m) => Ok(m),
        None => Err(NoMemory),
    }
}

// ---- where the pass goes

/// Outside of brackets a comma ends a parameter.
fn at_parameter(token: Token<'_>) -> Spot
    ensures { spot_of result ≡ behind_by neither 0 (token_of token.entry) }
{
    if is_comma(token) {
        Spot::Base(true)
    } else {
        Spot::Behind(0)
    }
}

fn closed(n: usize, token: Token<'_>) -> Spot
    ensures { spot_of result ≡ behind_by closes n (token_of token.entry) }
{
    if n == 0 {
        Spot::Over
    } else {
        Spot::Behind(n - 1)
    }
}

fn passed(n: usize, token: Token<'_>) -> Spot
    ensures { spot_of result ≡ behind_by neither n (token_of token.entry) }
{
    if n == 0 {
        at_parameter(token)
    } else {
        Spot::Behind(n)
    }
}

/// Behind a parameter's name, or where it would stand.
fn behind_by(n: usize, token: Token<'_>) -> Result<Spot, NoMemory>
    ensures { IfOk result (λ s. spot_of s ≡ behind_by (bracket (token_of token.entry)) n (token_of token.entry)) }
{
    match side(token) {
        Bracket::Opens => Ok(Spot::Behind(deeper(n)?)),
        Bracket::Closes => Ok(closed(n, token)),
        Bracket::Neither => Ok(passed(n, token)),
    }
}

fn member_closed(l: bool, n: usize) -> Spot
    ensures { spot_of result ≡ members_by l closes n }
{
    if n == 0 {
        Spot::Words(l)
    } else {
        Spot::Members(l, n - 1)
    }
}

/// Among a struct's members.
fn members_by(l: bool, n: usize, token: Token<'_>) -> Result<Spot, NoMemory>
    ensures { IfOk result (λ s. spot_of s ≡ members_by l (bracket (token_of token.entry)) n) }
{
    match side(token) {
        Bracket::Opens => Ok(Spot::Members(l, deeper(n)?)),
        Bracket::Closes => Ok(member_closed(l, n)),
        Bracket::Neither => Ok(Spot::Members(l, n)),
    }
}

fn next_declarator(n: usize, token: Token<'_>) -> Result<Spot, NoMemory>
    ensures { IfOk result (λ s. spot_of s ≡ next_declarator n (token_of token.entry)) }
{
    match token {
        Token::Star => Ok(Spot::Declarator(n)),
        Token::OpenRound => Ok(Spot::Declarator(deeper(n)?)),
        Token::Name(_) => Ok(Spot::Behind(n)),
        _ => behind_by(n, token),
    }
}

fn next_function(token: Token<'_>) -> Spot
    ensures { spot_of result ≡ next_function (token_of token.entry) }
{
    match token {
        Token::Star => Spot::Function,
        Token::OpenRound => Spot::Function,
        Token::Name(_) => Spot::Called,
        _ => Spot::Over,
    }
}

/// Behind a base.
fn next_into(l: bool, token: Token<'_>) -> Result<Spot, NoMemory>
    ensures { IfOk result (λ s. spot_of s ≡ next_into l (token_of token.entry)) }
{
    if l {
        next_declarator(0, token)
    } else {
        Ok(next_function(token))
    }
}

fn next_words(l: bool, token: Token<'_>) -> Result<Spot, NoMemory>
    ensures { IfOk result (λ s. spot_of s ≡ next_words l (token_of token.entry)) }
{
    if is_word(token) {
        Ok(Spot::Words(l))
    } else {
        next_into(l, token)
    }
}

fn next_base(l: bool, token: Token<'_>) -> Spot
    ensures { spot_of result ≡ next_base l (token_of token.entry) }
{
    match token {
        Token::Const => Spot::Base(l),
        Token::Struct => Spot::Tag(l),
        Token::Union => Spot::Tag(l),
        Token::Enum => Spot::Tag(l),
        Token::Dots => Spot::Behind(0),
        _ => Spot::Words(l),
    }
}

fn next_tag(l: bool, token: Token<'_>) -> Spot
    ensures { spot_of result ≡ next_tag l (token_of token.entry) }
{
    match token {
        Token::Name(_) => Spot::Tagged(l),
        Token::OpenCurly => Spot::Members(l, 0),
        _ => Spot::Tag(l),
    }
}

fn next_tagged(l: bool, token: Token<'_>) -> Result<Spot, NoMemory>
    ensures { IfOk result (λ s. spot_of s ≡ next_tagged l (token_of token.entry)) }
{
    match token {
        Token::OpenCurly => Ok(Spot::Members(l, 0)),
        _ => next_into(l, token),
    }
}

fn next_called(token: Token<'_>) -> Spot
    ensures { spot_of result ≡ next_called (token_of token.entry) }
{
    match token {
        Token::OpenRound => Spot::Opened,
        _ => Spot::Called,
    }
}

fn next_opened(token: Token<'_>) -> Spot
    ensures { spot_of result ≡ next_opened (token_of token.entry) }
{
    match token {
        Token::CloseRound => Spot::Over,
        Token::Void => Spot::SoleVoid,
        _ => next_base(true, token),
    }
}

fn next_sole_void(token: Token<'_>) -> Result<Spot, NoMemory>
    ensures { IfOk result (λ s. spot_of s ≡ next_sole_void (token_of token.entry)) }
{
    match token {
        Token::CloseRound => Ok(Spot::Over),
        _ => next_words(true, token),
    }
}

/// One token further.
pub fn next(spot: Spot, token: Token<'_>) -> Result<Spot, NoMemory>
    ensures { IfOk result (λ s. spot_of s ≡ next (spot_of spot) (token_of token.entry)) }
{
    match spot {
        Spot::Base(l) => Ok(next_base(l, token)),
        Spot::Words(l) => next_words(l, token),
        Spot::Tag(l) => Ok(next_tag(l, token)),
        Spot::Tagged(l) => next_tagged(l, token),
        Spot::Members(l, n) => members_by(l, n, token),
        Spot::Declarator(n) => next_declarator(n, token),
        Spot::Behind(n) => behind_by(n, token),
        Spot::Function => Ok(next_function(token)),
        Spot::Called => Ok(next_called(token)),
        Spot::Opened => Ok(next_opened(token)),
        Spot::SoleVoid => next_sole_void(token),
        Spot::Over => Ok(Spot::Over),
    }
}

// ---- which name a token tells

fn told_by_declarator(token: Token<'_>) -> Option<Name<'_>>
    ensures { told_of result ≡ told_by_declarator (token_of token.entry) }
{
    match token {
        Token::Star => None,
        Token::OpenRound => None,
        Token::Name(bytes) => Some(Name { bytes }),
        _ => Some(Name { bytes: b"" }),
    }
}

fn told_into(l: bool, token: Token<'_>) -> Option<Name<'_>>
    ensures { told_of result ≡ told_into l (token_of token.entry) }
{
    if l { told_by_declarator(token) } else { None }
}

fn told_by_words(l: bool, token: Token<'_>) -> Option<Name<'_>>
    ensures { told_of result ≡ told_by_words l (token_of token.entry) }
{
    if is_word(token) {
        None
    } else {
        told_into(l, token)
    }
}

fn told_tagged(l: bool, token: Token<'_>) -> Option<Name<'_>>
    ensures { told_of result ≡ told_tagged l (token_of token.entry) }
{
    match token {
        Token::OpenCurly => None,
        _ => told_into(l, token),
    }
}

fn told_sole_void(token: Token<'_>) -> Option<Name<'_>>
    ensures { told_of result ≡ told_sole_void (token_of token.entry) }
{
    match token {
        Token::CloseRound => None,
        _ => told_by_words(true, token),
    }
}

/// The name that a token is of a parameter, or that it has none.
pub fn told(spot: Spot, token: Token<'_>) -> Option<Name<'_>>
    ensures { told_of result ≡ told (spot_of spot) (token_of token.entry) }
{
    match spot {
        Spot::Words(l) => told_by_words(l, token),
        Spot::Tagged(l) => told_tagged(l, token),
        Spot::Declarator(_) => told_by_declarator(token),
        Spot::SoleVoid => told_sole_void(token),
        _ => None,
    }
}
