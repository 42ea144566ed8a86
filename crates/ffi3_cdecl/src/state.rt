//! Where a declaration stands, token by token.
ghost use Rattle.std.specs.Prelude.{◌≡◌, drop};
ghost use Rattle.ffi3_type_spec.specs.Tree.{scalar};
ghost use Rattle.ffi3_types.specs.TreeOf.{tree_of};
ghost use Rattle.ffi3_cdecl_spec.specs.Machine.{declarator, unstarred, step_base, step_type, based, word_said};
ghost use Rattle.ffi3_cdecl_spec.specs.Grammar.{nothing, kind_of_name, kind_of_name_among, header_types};
ghost use Rattle.ffi3_cdecl_spec.specs.Tokens.{plain, wide};
ghost use Rattle.ffi3_cdecl.specs.TokenOf.{dialect_of, token_of, scalar_of};
ghost use Rattle.ffi3_cdecl.specs.SaidOf.{kind_of};
ghost use Rattle.ffi3_cdecl.specs.StateOf.{where_of, state_of};

use crate::declaration::Declaration;
use crate::place::{Counts, Gathered};
use crate::round::Round;
use crate::said::{Kind, Said, Size};
use crate::token::{Dialect, Sign, Token, TypeWord, is};
use ffi3_types::{Bytes, FfiType};

/// The function that is declared: its name, its result, how many of its parameters stand before the dots, if these have
/// come, and the brackets round it.
#[derive(Drop)]
pub struct Head {
    pub called: Bytes,
    pub result_type: FfiType,
    pub fixed: Option<u32>,
    pub round: Round,
}

/// Where a type stands: the result, a parameter, a member, or a parameter of a list that is not kept.
#[cycle(places)]
#[derive(Drop)]
pub enum Where {
    Result,
    Parameter(Head, Gathered),
    Member(Gathered, Box<Where>),
    Inner(Box<Settled>),
}

/// A declarator whose type is known, whatever follows, and how many brackets are open still: a parameter, one of a list
/// that is not kept, a member that is arrays of pointers, or the function.
#[cycle(places)]
#[derive(Drop)]
pub enum Settled {
    OfParameter(Head, Gathered, u32),
    OfInner(Box<Settled>, u32),
    OfMember(Kind, Counts, Gathered, Box<Where>, u32),
    OfFunction(Declaration, u32),
}

/// A member whose name has been read, and its arrays: of a type, with so many brackets open; or of a pointer, with so
/// many inside and outside of its star.
#[derive(Drop)]
pub enum Member {
    Plain(FfiType, Counts, u32),
    Starred(Kind, Counts, u32, u32),
}

/// What has come and what may follow.
#[derive(Drop)]
pub enum State {
    WantsType(Where),
    WantsBase(Where),
    AfterSign(Sign, Where),
    AfterShort(Sign, Where),
    AfterLong(Sign, Where),
    AfterLongLong(Sign, Where),
    AfterStruct(Where),
    WantsStar(Where),
    SoleVoid(Head),
    Typed(FfiType, Where),
    Named(Head),
    Opened(Head),
    ParameterNamed(Head, Gathered),
    AfterComma(Head, Gathered),
    AfterDots(Declaration),
    MemberNamed(FfiType, Counts, Gathered, Box<Where>),
    WantsCount(FfiType, Counts, Gathered, Box<Where>),
    Counted(FfiType, Counts, Gathered, Box<Where>),
    AfterMember(Gathered, Box<Where>),
    Closed(Declaration),
    Ended(Declaration),
    Dead,
    /// Those of the wide reading alone.
    Wide(Wide),
}

/// What has come and what may follow in the wide reading.
#[derive(Drop)]
pub enum Wide {
    /// Words of a type; `struct` and a tag; a word that a tag alone follows.
    AfterWords(Said, Where),
    AfterStructTag(Where),
    WantsTag(Where),
    /// Before a declarator's name, and behind its "(".
    Declarator(Kind, Round, Where),
    RoundOpened(Kind, Round, Where),
    /// The name of the function, and behind its parameters.
    FunctionNamed(Bytes, FfiType, Round),
    Closing(Round, Declaration),
    /// A parameter as its base says, and `void` in a list that is not kept.
    ParameterItself(Kind, u32, Head, Gathered),
    InnerNothing(u32, Box<Settled>),
    /// A member, its "[", a number in it.
    MemberAt(Member, Gathered, Box<Where>),
    MemberBound(Member, Gathered, Box<Where>),
    MemberBounded(Member, Gathered, Box<Where>),
    /// What is settled, its "[", a number in it; its "(", `void` in it, a comma and the dots.
    Settled(Box<Settled>),
    SquareOpened(Box<Settled>),
    SquareFilled(Box<Settled>),
    ListOpened(Box<Settled>),
    ListVoid(Box<Settled>),
    ListComma(Box<Settled>),
    ListDots(Box<Settled>),
    /// The dots of the function.
    Dots(Head, Gathered),
}

/// The type that a word names.
fn named_type(word: TypeWord) -> FfiType
    ensures { tree_of result ≡ scalar (scalar_of word) }
{
    match word {
        TypeWord::U8 => FfiType::U8,
        TypeWord::S8 => FfiType::S8,
        TypeWord::U16 => FfiType::U16,
        TypeWord::S16 => FfiType::S16,
        TypeWord::U32 => FfiType::U32,
        TypeWord::S32 => FfiType::S32,
        TypeWord::U64 => FfiType::U64,
        TypeWord::S64 => FfiType::S64,
        TypeWord::Float => FfiType::Float,
        TypeWord::Double => FfiType::Double,
    }
}

/// Behind the word `void` in the plain reading: a type where a result stands, elsewhere a star has to follow.
fn void_base(w: Where) -> State
    ensures { state_of result ≡ based nothing (where_of w) }
{
    match w {
        Where::Result => State::Typed(FfiType::Void, Where::Result),
        Where::Parameter(head, types) => State::WantsStar(Where::Parameter(head, types)),
        Where::Member(types, outer) => State::WantsStar(Where::Member(types, outer)),
        Where::Inner(u) => State::WantsStar(Where::Inner(u)),
    }
}

/// A token where a base stands in the plain reading: a word that names a type, or begins to.
fn plain_base(w: Where, token: Token<'_>) -> State
    ensures { state_of result ≡ step_base plain (where_of w) (token_of token.entry) }
{
    match token {
        Token::Type(word) => State::Typed(named_type(word), w),
        Token::Sign(g) => State::AfterSign(g, w),
        Token::Short => State::AfterShort(Sign::Signed, w),
        Token::Int => State::Typed(FfiType::S32, w),
        Token::Long => State::AfterLong(Sign::Signed, w),
        Token::Int128 => State::Typed(FfiType::S128, w),
        Token::Char(_) => State::WantsStar(w),
        Token::Void => void_base(w),
        Token::Struct => State::AfterStruct(w),
        _ => State::Dead,
    }
}

/// Behind a base, in the wide reading.
pub fn declarator(k: Kind, w: Where) -> State
    ensures { state_of result ≡ declarator (kind_of k) (unstarred 0) (where_of w) }
{
    State::Wide(Wide::Declarator(k, Round::Unstarred(0), w))
}

/// Behind a word that names a type, in the wide reading: `_Complex` and `long` may follow `double`.
fn word_said(word: TypeWord, w: Where) -> State
    ensures { state_of result ≡ word_said (scalar_of word) (where_of w) }
{
    match word {
        TypeWord::Float => State::Wide(Wide::AfterWords(Said::Float(false), w)),
        TypeWord::Double => State::Wide(Wide::AfterWords(Said::Double(false, false), w)),
        TypeWord::U8 => declarator(Kind::Whole(FfiType::U8), w),
        TypeWord::S8 => declarator(Kind::Whole(FfiType::S8), w),
        TypeWord::U16 => declarator(Kind::Whole(FfiType::U16), w),
        TypeWord::S16 => declarator(Kind::Whole(FfiType::S16), w),
        TypeWord::U32 => declarator(Kind::Whole(FfiType::U32), w),
        TypeWord::S32 => declarator(Kind::Whole(FfiType::S32), w),
        TypeWord::U64 => declarator(Kind::Whole(FfiType::U64), w),
        TypeWord::S64 => declarator(Kind::Whole(FfiType::S64), w),
    }
}

/// What a name means where a type stands: a type of a header, or any type, which needs a star.
fn kind_of_name(called: &[u8]) -> Kind
    ensures { kind_of result ≡ kind_of_name called.now }
{
    if is(called, b"bool") {
        Kind::Whole(FfiType::U8)
    } else if is(called, b"ssize_t") {
        Kind::Whole(FfiType::S64)
    } else if is(called, b"ptrdiff_t") {
        Kind::Whole(FfiType::S64)
    } else if is(called, b"intmax_t") {
        Kind::Whole(FfiType::S64)
    } else if is(called, b"uintmax_t") {
        Kind::Whole(FfiType::U64)
    } else {
        kind_of_least(called)
    }
}

/// Of the names of the table from number 5 on.
fn kind_of_least(called: &[u8]) -> Kind
    ensures { kind_of result ≡ kind_of_name_among called.now (drop 5 header_types) }
{
    if is(called, b"int_least8_t") {
        Kind::Whole(FfiType::S8)
    } else if is(called, b"int_least16_t") {
        Kind::Whole(FfiType::S16)
    } else if is(called, b"int_least32_t") {
        Kind::Whole(FfiType::S32)
    } else if is(called, b"int_least64_t") {
        Kind::Whole(FfiType::S64)
    } else {
        kind_of_unsigned_least(called)
    }
}

/// And from number 9 on.
fn kind_of_unsigned_least(called: &[u8]) -> Kind
    ensures { kind_of result ≡ kind_of_name_among called.now (drop 9 header_types) }
{
    if is(called, b"uint_least8_t") {
        Kind::Whole(FfiType::U8)
    } else if is(called, b"uint_least16_t") {
        Kind::Whole(FfiType::U16)
    } else if is(called, b"uint_least32_t") {
        Kind::Whole(FfiType::U32)
    } else if is(called, b"uint_least64_t") {
        Kind::Whole(FfiType::U64)
    } else {
        Kind::Bare
    }
}

/// A token where a base stands in the wide reading.
fn wide_base(w: Where, token: Token<'_>) -> State
    ensures { state_of result ≡ step_base wide (where_of w) (token_of token.entry) }
{
    match token {
        Token::Type(word) => word_said(word, w),
        Token::Sign(g) => State::Wide(Wide::AfterWords(Said::Integer(Some(g), Size::No, false), w)),
        Token::Short => State::Wide(Wide::AfterWords(Said::Integer(None, Size::Short, false), w)),
        Token::Int => State::Wide(Wide::AfterWords(Said::Integer(None, Size::No, true), w)),
        Token::Long => State::Wide(Wide::AfterWords(Said::Integer(None, Size::Long, false), w)),
        Token::Int128 => State::Wide(Wide::AfterWords(Said::Of128Bits(None), w)),
        Token::Char(c) => State::Wide(Wide::AfterWords(Said::Character(c, None), w)),
        Token::Complex => State::Wide(Wide::AfterWords(Said::Complex(false), w)),
        Token::Void => declarator(Kind::Nothing, w),
        Token::Struct => State::AfterStruct(w),
        Token::Union => State::Wide(Wide::WantsTag(w)),
        Token::Enum => State::Wide(Wide::WantsTag(w)),
        Token::Name(called) => declarator(kind_of_name(called), w),
        _ => State::Dead,
    }
}

/// A token where a base stands.
pub fn step_base(r: Dialect, w: Where, token: Token<'_>) -> State
    ensures { state_of result ≡ step_base (dialect_of r) (where_of w) (token_of token.entry) }
{
    match r {
        Dialect::Plain => plain_base(w, token),
        Dialect::Wide => wide_base(w, token),
    }
}

/// A token where a type begins.
pub fn step_type(r: Dialect, w: Where, token: Token<'_>) -> State
    ensures { state_of result ≡ step_type (dialect_of r) (where_of w) (token_of token.entry) }
{
    match token {
        Token::Const => State::WantsBase(w),
        _ => step_base(r, w, token),
    }
}
