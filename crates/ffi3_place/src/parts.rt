//! The sizes of arguments, and the pieces of values, as every standard needs them.
ghost use Rattle.std.specs.Prelude.{◌≡◌, ◌<◌, ◌≤◌, ◌+◌, ◌*◌, [], ◌∷◌, length, IfOk};
ghost use Rattle.std.specs.List.{sum_by};
ghost use Rattle.ffi3_type_spec.specs.declared.limits.TheConstants.{ARGUMENT_BYTES, LARGEST_TYPE};
ghost use Rattle.ffi3_type_spec.specs.Layout.{size_of, leaves_of, leaf_at};
ghost use Rattle.ffi3_types.specs.TreeOf.{tree_of};
ghost use Rattle.ffi3_place_spec.specs.declared.Ext.TheVariants.{Free};
ghost use Rattle.ffi3_place_spec.specs.Standard.{doubleword, round8};
ghost use Rattle.ffi3_place_spec.specs.Doublewords.{doublewords, filling, widening, stack_pieces, leaf_piece};

use ffi3_place_spec::{Ext, Loc, Piece, Pieces};
use ffi3_type_spec::round_up;
use ffi3_types::{CheckedType, FfiType, NoMemory, PlacedSig};
use std::alloc::Global;

// ---- signatures

/// The sizes of all arguments in bytes, each a multiple of 8.
pub fn sizes_of(sig: &PlacedSig<'_>) -> u64
    ensures value { result ≡ sum_by (λ t. round8 (size_of t)) sig.now.arguments }
    ensures bound { result ≤ ARGUMENT_BYTES }
{
    let mut all = 0;
    for i in 0..sig.count() {
        let ty = sig.arg(i);
        all += round_up(ty.size(), 8);
    }
    all
}

// ---- types

/// How many doublewords a value takes. The last has what is left where the size is no multiple of 8.
pub fn doublewords(ty: &CheckedType<'_>) -> u64
    ensures value { result ≡ doublewords ty.now }
    ensures few { 8 * result ≤ LARGEST_TYPE }
{
    (ty.size() + 7) / 8
}

/// What fills the rest of a value's places: `narrow` above a lone integer of fewer than 8 bytes, and anything above all else.
pub fn filling(ty: &FfiType, narrow: Ext) -> Ext
    ensures { result ≡ filling narrow (tree_of ty.now) }
{
    match ty {
        FfiType::U8 | FfiType::S8 | FfiType::U16 | FfiType::S16 | FfiType::U32 | FfiType::S32 =>
            narrow,
        _ => Ext::Free,
    }
}

/// What fills the rest of a value's places where a narrow integer is extended by its sign.
pub fn widening(ty: &FfiType) -> Ext
    ensures { result ≡ widening (tree_of ty.now) }
{
    filling(ty, Ext::Widen)
}

// ---- pieces

/// Doubleword `j` of a value of so many bytes, in its place: 8 bytes, or what is left of the value. `ext` fills the rest of the place.
pub fn doubleword(size: u64, j: u64, loc: Loc, ext: Ext) -> Piece
    requires small { size ≤ LARGEST_TYPE }
    requires within { 8 * j < size }
    ensures { result ≡ doubleword loc j size ext }
{
    let left = size - 8 * j;
    Piece {
        loc,
        off: (8 * j) as u32,
        len: if left < 8 { left as u8 } else { 8 },
        ext,
    }
}

/// Leaf `i` of a value, in its place, whose rest `ext` fills.
pub fn leaf_piece(ty: &CheckedType<'_>, i: u32, loc: Loc, ext: Ext) -> Piece
    requires { i < length (leaves_of ty.now) }
    ensures { result ≡ leaf_piece loc ext (leaf_at ty.now i) }
{
    let plain = ty.as_type();
    let leaf = plain.leaf(i);
    let size = leaf.kind.value_size();
    Piece {
        loc,
        off: leaf.at as u32,
        len: size as u8,
        ext,
    }
}

/// So many bytes of leaf `i` of a value, from its byte `from` on, in a place whose rest is free.
pub fn part_of_leaf(ty: &CheckedType<'_>, i: u32, from: u32, len: u8, loc: Loc) -> Piece
    requires in_range { i < length (leaves_of ty.now) }
    requires near { from ≤ 16 }
    ensures { result ≡ record { loc = loc; off = (leaf_at ty.now i).at + from; len = len; ext = Free } }
{
    let plain = ty.as_type();
    let leaf = plain.leaf(i);
    Piece {
        loc,
        off: leaf.at as u32 + from,
        len,
        ext: Ext::Free,
    }
}

/// A list of one piece.
pub fn one_piece(alloc: Global, piece: Piece) -> Result<Pieces, NoMemory>
    ensures { IfOk result (λ p. p ≡ piece ∷ []) }
{
    let mut pieces = Pieces::with_capacity(alloc, 1)?;
    pieces.push(piece)?;
    Ok(pieces)
}

/// A list of two pieces, in this order.
pub fn two_pieces(alloc: Global, first: Piece, second: Piece) -> Result<Pieces, NoMemory>
    ensures { IfOk result (λ p. p ≡ first ∷ second ∷ []) }
{
    let mut pieces = Pieces::with_capacity(alloc, 2)?;
    pieces.push(first)?;
    pieces.push(second)?;
    Ok(pieces)
}

/// A value's doublewords on the stack, from byte `start` of the stack arguments on. A narrow integer is extended by its sign.
pub fn stack_pieces(alloc: Global, ty: &CheckedType<'_>, start: u64) -> Result<Pieces, NoMemory>
    requires { start ≤ 2 * ARGUMENT_BYTES }
    ensures { IfOk result (λ p. p ≡ stack_pieces start ty.now) }
{
    let ext = widening(ty.as_type());
    // asked for once: it is found by a walk over all elements
    let size = ty.size();
    let count = doublewords(ty);
    let mut pieces = Pieces::with_capacity(alloc, count as usize)?;
    for j in 0..count {
        pieces.push(doubleword(size, j, Loc::S((start + 8 * j) as u32, 8), ext))?;
    }
    Ok(pieces)
}
