//! What is in a move of one piece.
ghost use Rattle.std.specs.Prelude.{◌≡◌, ◌<◌, ◌^◌, ◌||◌, ◌==◌};
ghost use Rattle.ffi3_type_spec.specs.Integer.{is_signed, scalar_of};
ghost use Rattle.ffi3_type_spec.specs.Layout.{scalar_size};
ghost use Rattle.ffi3_types.specs.TreeOf.{tree_of};
ghost use Rattle.ffi3_moves.specs.Moves.{by_sign, exchange_at, filling, piece_in, piece_out};

use crate::{FRAME_AT, Kind, Move};
use ffi3_place::{Ext, Loc, Piece};
use ffi3_types::{CheckedType, FfiType};

/// The way that moves go: from values into an exchange, or out of one to values.
#[derive(Clone, Copy)]
pub enum Way {
    In,
    Out,
}

/// Where a place stands in an exchange.
#[inline(always)]
pub(crate) fn exchange_at(at: Loc) -> u64
    ensures { result ≡ exchange_at at }
{
    match at {
        Loc::G(r) => 8 * r as u64,
        Loc::F(r) => 256 + 8 * r as u64,
        Loc::S(n, _) => FRAME_AT + n as u64,
    }
}

/// How an integer is extended by its sign.
#[inline(always)]
fn widening(ty: &FfiType) -> Kind
    ensures { result ≡ by_sign (is_signed (scalar_of (tree_of ty.now))) }
{
    match ty {
        FfiType::S8 => Kind::Sign,
        FfiType::S16 => Kind::Sign,
        FfiType::S32 => Kind::Sign,
        FfiType::S64 => Kind::Sign,
        FfiType::S128 => Kind::Sign,
        FfiType::U8 => Kind::Zero,
        FfiType::U16 => Kind::Zero,
        FfiType::U32 => Kind::Zero,
        FfiType::U64 => Kind::Zero,
        FfiType::U128 => Kind::Zero,
        FfiType::Float => Kind::Zero,
        FfiType::Double => Kind::Zero,
        FfiType::Pointer => Kind::Zero,
        FfiType::Void => Kind::Zero,
        FfiType::Struct(_) => Kind::Zero,
        FfiType::Array(_, _) => Kind::Zero,
        FfiType::LongDouble => Kind::Zero,
        FfiType::Complex => Kind::Zero,
        FfiType::Vector => Kind::Zero,
        FfiType::X87 => Kind::Zero,
        FfiType::Binary128 => Kind::Zero,
    }
}

/// The same on RISC-V, where 32 bits are extended by the upper one.
fn widening_from_32(ty: &FfiType) -> Kind
    ensures { result ≡ by_sign (is_signed (scalar_of (tree_of ty.now)) || (scalar_size (scalar_of (tree_of ty.now)) == 4)) }
{
    match ty {
        FfiType::U32 => Kind::Sign,
        FfiType::Float => Kind::Sign,
        FfiType::S8 => Kind::Sign,
        FfiType::S16 => Kind::Sign,
        FfiType::S32 => Kind::Sign,
        FfiType::S64 => Kind::Sign,
        FfiType::S128 => Kind::Sign,
        FfiType::U8 => Kind::Zero,
        FfiType::U16 => Kind::Zero,
        FfiType::U64 => Kind::Zero,
        FfiType::U128 => Kind::Zero,
        FfiType::Double => Kind::Zero,
        FfiType::Pointer => Kind::Zero,
        FfiType::Void => Kind::Zero,
        FfiType::Struct(_) => Kind::Zero,
        FfiType::Array(_, _) => Kind::Zero,
        FfiType::LongDouble => Kind::Zero,
        FfiType::Complex => Kind::Zero,
        FfiType::Vector => Kind::Zero,
        FfiType::X87 => Kind::Zero,
        FfiType::Binary128 => Kind::Zero,
    }
}

/// How the rest of a piece's place is filled.
#[inline(always)]
fn filling(ext: Ext, ty: &FfiType) -> Kind
    ensures { result ≡ filling ext (scalar_of (tree_of ty.now)) }
{
    match ext {
        Ext::Free => Kind::Bytes,
        Ext::Widen => widening(ty),
        Ext::Riscv => widening_from_32(ty),
        Ext::Boxed => Kind::Ones,
    }
}

/// A piece of the value that stands at `at`, to its place.
#[inline(always)]
pub(crate) fn piece_in(part: u32, at: u64, ty: &CheckedType<'_>, piece: Piece) -> Move
    requires { at < 2 ^ 32 }
    ensures { result ≡ piece_in part at ty.now piece }
{
    Move {
        kind: filling(piece.ext, ty.as_type()),
        part,
        from: at + piece.off as u64,
        to: exchange_at(piece.loc),
        length: piece.len as u64,
    }
}

/// And back.
#[inline(always)]
pub(crate) fn piece_out(part: u32, at: u64, piece: Piece) -> Move
    requires { at < 2 ^ 32 }
    ensures { result ≡ piece_out part at piece }
{
    Move {
        kind: Kind::Bytes,
        part,
        from: exchange_at(piece.loc),
        to: at + piece.off as u64,
        length: piece.len as u64,
    }
}
