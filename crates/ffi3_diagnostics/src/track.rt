//! The base that was read last, kept beside the state.
ghost use Rattle.std.specs.Prelude.{◌≡◌, cond};
ghost use Rattle.ffi3_cdecl_spec.specs.Telling.{wants_a_type, named_base, base_alone, tag_behind, name_behind_base, bracket_behind_base, tracked, sized, no_track};
ghost use Rattle.ffi3_cdecl.specs.TokenOf.{token_of};
ghost use Rattle.ffi3_cdecl.specs.StateOf.{state_of, wide_of};
ghost use Rattle.ffi3_diagnostics.specs.ToldOf.{track_of};

use ffi3_cdecl::Kind;
use ffi3_cdecl::state::{State, Wide, declarator};
use ffi3_cdecl::token::Token;
use ffi3_types::FfiType;
use std::mem;

/// A type whose members or whose size the text does not tell: a struct, a union or an enum by its tag, or a name.
#[derive(Clone, Copy, Debug)]
pub enum Base<'a> {
    Struct(&'a [u8]),
    Union(&'a [u8]),
    Enum(&'a [u8]),
    Named(&'a [u8]),
}

/// What has been read last: nothing that matters, a word that a tag follows, or a base and perhaps brackets and a name.
#[derive(Clone, Copy, Debug)]
pub enum Track<'a> {
    Nothing,
    BehindStruct,
    BehindUnion,
    BehindEnum,
    BehindBase(Base<'a>),
}

/// Whether a type may stand there.
pub fn wants_a_type(state: &State) -> bool
    ensures { result ≡ wants_a_type (state_of state.now) }
{
    match state {
        State::WantsType(_) => true,
        State::WantsBase(_) => true,
        State::Opened(_) => true,
        State::AfterComma(_, _) => true,
        State::AfterMember(_, _) => true,
        State::Wide(wide) => wants_an_inner(wide),
        _ => false,
    }
}

/// The same in the wide reading's states.
fn wants_an_inner(state: &Wide) -> bool
    ensures { result ≡ wants_a_type (wide_of state.now) }
{
    match state {
        Wide::ListOpened(_) => true,
        Wide::ListComma(_) => true,
        _ => false,
    }
}

/// A name where a type may stand, or may not.
fn named_base(wanted: bool, called: &[u8]) -> Track<'_>
    ensures { track_of result ≡ named_base wanted called.now }
{
    if wanted {
        Track::BehindBase(Base::Named(called))
    } else {
        Track::Nothing
    }
}

/// A base, and nothing else.
fn base_alone(track: Track<'_>) -> Track<'_>
    ensures { track_of result ≡ base_alone (track_of track.entry) }
{
    match track {
        Track::BehindBase(base) => Track::BehindBase(base),
        _ => Track::Nothing,
    }
}

/// A tag behind its word.
fn tag_behind<'a>(track: Track<'a>, tag: &'a [u8]) -> Track<'a>
    ensures { track_of result ≡ tag_behind (track_of track.entry) tag.now }
{
    match track {
        Track::BehindStruct => Track::BehindBase(Base::Struct(tag)),
        Track::BehindUnion => Track::BehindBase(Base::Union(tag)),
        Track::BehindEnum => Track::BehindBase(Base::Enum(tag)),
        _ => Track::Nothing,
    }
}

/// A name in a state of the wide reading.
fn name_in_wide<'a>(state: &Wide, track: Track<'a>, called: &'a [u8]) -> Track<'a>
    ensures { track_of result ≡ name_behind_base (wide_of state.now) (track_of track.entry) called.now }
{
    match state {
        Wide::WantsTag(_) => tag_behind(track, called),
        Wide::AfterStructTag(_) => base_alone(track),
        Wide::Declarator(_, _, _) => base_alone(track),
        Wide::ListOpened(_) => named_base(true, called),
        Wide::ListComma(_) => named_base(true, called),
        _ => Track::Nothing,
    }
}

/// A name.
fn name_behind_base<'a>(state: &State, track: Track<'a>, called: &'a [u8]) -> Track<'a>
    ensures { track_of result ≡ name_behind_base (state_of state.now) (track_of track.entry) called.now }
{
    match state {
        State::AfterStruct(_) => tag_behind(track, called),
        State::Wide(wide) => name_in_wide(wide, track, called),
        State::WantsType(_) => named_base(true, called),
        State::WantsBase(_) => named_base(true, called),
        State::Opened(_) => named_base(true, called),
        State::AfterComma(_, _) => named_base(true, called),
        State::AfterMember(_, _) => named_base(true, called),
        _ => Track::Nothing,
    }
}

/// A "(" in a state of the wide reading.
fn bracket_in_wide<'a>(state: &Wide, track: Track<'a>) -> Track<'a>
    ensures { track_of result ≡ bracket_behind_base (wide_of state.now) (track_of track.entry) }
{
    match state {
        Wide::AfterStructTag(_) => base_alone(track),
        Wide::Declarator(_, _, _) => base_alone(track),
        Wide::RoundOpened(_, _, _) => base_alone(track),
        _ => Track::Nothing,
    }
}

/// A "(".
fn bracket_behind_base<'a>(state: &State, track: Track<'a>) -> Track<'a>
    ensures { track_of result ≡ bracket_behind_base (state_of state.now) (track_of track.entry) }
{
    match state {
        State::Wide(wide) => bracket_in_wide(wide, track),
        _ => Track::Nothing,
    }
}

/// A word that a tag follows, where a type may stand.
fn begun<'a>(state: &State, track: Track<'a>) -> Track<'a>
    ensures { track_of result ≡ cond (wants_a_type (state_of state.now)) (track_of track.entry) no_track }
{
    if wants_a_type(state) {
        track
    } else {
        Track::Nothing
    }
}

/// Behind one token more.
pub fn tracked<'a>(state: &State, track: Track<'a>, token: Token<'a>) -> Track<'a>
    ensures { track_of result ≡ tracked (state_of state.now) (track_of track.entry) (token_of token.entry) }
{
    match token {
        Token::Struct => begun(state, Track::BehindStruct),
        Token::Union => begun(state, Track::BehindUnion),
        Token::Enum => begun(state, Track::BehindEnum),
        Token::Name(called) => name_behind_base(state, track, called),
        Token::OpenRound => bracket_behind_base(state, track),
        _ => Track::Nothing,
    }
}

/// A state of the wide reading, were the base that has been read int32_t.
fn sized_wide(state: Wide) -> State
    ensures { state_of result ≡ sized (wide_of state) }
{
    match state {
        Wide::WantsTag(w) => declarator(Kind::Whole(FfiType::S32), w),
        Wide::AfterStructTag(w) => declarator(Kind::Whole(FfiType::S32), w),
        Wide::Declarator(_, o, w) => {
            State::Wide(Wide::Declarator(Kind::Whole(FfiType::S32), o, w))
        }
        Wide::RoundOpened(_, o, w) => {
            State::Wide(Wide::RoundOpened(Kind::Whole(FfiType::S32), o, w))
        }
        Wide::ParameterItself(_, n, head, types) => {
            State::Wide(Wide::ParameterItself(Kind::Whole(FfiType::S32), n, head, types))
        }
        other => {
            mem::drop(other);
            State::Dead
        }
    }
}

/// The state, were the base that has been read int32_t.
pub fn sized(state: State) -> State
    ensures { state_of result ≡ sized (state_of state) }
{
    match state {
        State::AfterStruct(w) => declarator(Kind::Whole(FfiType::S32), w),
        State::Wide(wide) => sized_wide(wide),
        other => {
            mem::drop(other);
            State::Dead
        }
    }
}
