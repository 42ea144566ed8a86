//! The value of an argument in pieces, and what is wanted of each piece's place.
ghost use Rattle.std.specs.Prelude.{◌≡◌, ◌<◌, true, length, replicate, slice_index_or, IfOk, IfErr, None};
ghost use Rattle.std.specs.Int.{w64, from_le_bytes};
ghost use Rattle.std.specs.List.{AllByRecursion};
ghost use Rattle.ffi3_type_spec.specs.declared.limits.TheConstants.{LARGEST_TYPE};
ghost use Rattle.ffi3_type_spec.specs.Layout.{size_of};
ghost use Rattle.ffi3_type_spec.specs.Value.{fits, IsWritten};
ghost use Rattle.ffi3_types.specs.TreeOf.{tree_of};
ghost use Rattle.ffi3_values.specs.ValueOf.{value_of};
ghost use Rattle.ffi3_place_spec.specs.declared.Piece.{Piece};
ghost use Rattle.ffi3_place_spec.specs.Sound.{IsPieceOf, IsWithin};
ghost use Rattle.ffi3_explain_spec.specs.Explain.{check_of_piece, checks_of_pieces, eight, extended, first_broken, first_bytes, value_in_pieces};
ghost use Rattle.ffi3_explain.specs.ImageOf.{image_of};
ghost use Rattle.ffi3_explain.specs.Places.{AreMarks, CanBeRead, IsPieceRead, marked_byte};
ghost use Rattle.ffi3_explain.specs.Told.{TellsFirst};

use crate::places::{place_bytes, place_word};
use crate::{Check, Image, Part, Unexplained};
use ffi3_place::{Ext, Piece, Pieces};
use ffi3_type_spec::limits::LARGEST_TYPE;
use ffi3_types::{CheckedType, FfiType, NoMemory};
use ffi3_values::{Value, value_from_bytes, widen, widen_from_32, write_bytes};
use std::alloc::Global;

/// Reads a piece of a value from its place.
fn read_piece(image: &Image, base: u64, piece: &Piece, out: &mut [u8])
    requires there { CanBeRead (image_of image.now) base piece.now }
    requires within { IsWithin (length out.old) piece.now }
    ensures { IsPieceRead (image_of image.now) base piece.now out.old out.new }
{
    let bytes = place_bytes(image, base, piece.loc);
    let start = piece.off as usize;
    let len = piece.len as usize;
    out[start..start + len].copy_from_slice(&bytes[..len]);
}

/// The bytes of a value in pieces. Of two pieces that have a byte the first tells it, and a byte of none is 0.
fn read_pieces(image: &Image, base: u64, pieces: &Pieces, out: &mut [u8])
    requires there { AllByRecursion (CanBeRead (image_of image.now) base) pieces.now }
    requires within { AllByRecursion (IsWithin (length out.old)) pieces.now }
    ensures { out.new ≡ first_bytes (image_of image.now) base pieces.now 0 (length out.old) }
{
    out.fill(0);
    for j in (0..pieces.len()).rev() {
        read_piece(image, base, pieces.get(j), out);
    }
}

/// The value in pieces.
pub fn value_in_pieces(
    alloc: Global,
    image: &Image,
    base: u64,
    ty: &CheckedType<'_>,
    pieces: &Pieces,
) -> Result<Value, NoMemory>
    requires there { AllByRecursion (CanBeRead (image_of image.now) base) pieces.now }
    requires suits { AllByRecursion (IsPieceOf ty.now) pieces.now }
    ensures value { IfOk result (λ v. value_of v ≡ value_in_pieces (image_of image.now) base ty.now pieces.now) }
    ensures fits { IfOk result (λ v. fits ty.now (value_of v) ≡ true) }
{
    let mut room = [0; LARGEST_TYPE as usize];
    let out = &mut room[..ty.size() as usize];
    read_pieces(image, base, pieces, out);
    value_from_bytes(alloc, ty.as_type(), out)
}

/// Byte `k` of a piece's place, as it is wanted: a byte of a leaf, the same in `low` and in `high`, is the value's, and
/// any other is as it is found.
fn wanted_byte(piece: &Piece, found: &[u8], low: &[u8], high: &[u8], k: u8) -> u8
    requires eight { length found.now ≡ 8 }
    requires low { IsWithin (length low.now) piece.now }
    requires high { IsWithin (length high.now) piece.now }
    requires within { k < 8 }
    ensures { result ≡ marked_byte piece.now found.now low.now high.now k }
{
    if k < piece.len {
        let o = piece.off as usize + k as usize;
        if low[o] == high[o] {
            return low[o];
        }
    }
    found[k as usize]
}

/// The word of a piece's place, as it is wanted where nothing fills the rest of the place.
fn wanted_word(piece: &Piece, found: &[u8], low: &[u8], high: &[u8]) -> u64
    requires eight { length found.now ≡ 8 }
    requires low { IsWithin (length low.now) piece.now }
    requires high { IsWithin (length high.now) piece.now }
    ensures { result ≡ from_le_bytes w64 (eight (marked_byte piece.now found.now low.now high.now)) }
{
    u64::from_le_bytes([
        wanted_byte(piece, found, low, high, 0),
        wanted_byte(piece, found, low, high, 1),
        wanted_byte(piece, found, low, high, 2),
        wanted_byte(piece, found, low, high, 3),
        wanted_byte(piece, found, low, high, 4),
        wanted_byte(piece, found, low, high, 5),
        wanted_byte(piece, found, low, high, 6),
        wanted_byte(piece, found, low, high, 7),
    ])
}

/// The word with the rest of the place filled.
fn extended(ty: &FfiType, value: &Value, piece: &Piece, word: u64) -> u64
    requires suits { IsPieceOf (tree_of ty.now) piece.now }
    requires fits { fits (tree_of ty.now) (value_of value.now) ≡ true }
    ensures { result ≡ extended piece.now.ext (tree_of ty.now) (value_of value.now) word }
{
    match piece.ext {
        Ext::Free => word,
        Ext::Boxed => 0xFFFF_FFFF_0000_0000 + word % 0x1_0000_0000,
        Ext::Widen => widen(ty, value),
        Ext::Riscv => widen_from_32(ty, value),
    }
}

/// What the place of piece `j` of argument `i` holds, and what it is wanted to hold.
fn check_piece(
    image: &Image,
    base: u64,
    i: u32,
    ty: &FfiType,
    value: &Value,
    pieces: &Pieces,
    j: usize,
    low: &[u8],
    high: &[u8],
) -> Check
    requires below { j < length pieces.now }
    requires there { AllByRecursion (CanBeRead (image_of image.now) base) pieces.now }
    requires suits { AllByRecursion (IsPieceOf (tree_of ty.now)) pieces.now }
    requires fits { fits (tree_of ty.now) (value_of value.now) ≡ true }
    requires value { value_of value.now ≡ value_in_pieces (image_of image.now) base (tree_of ty.now) pieces.now }
    requires marks { AreMarks (image_of image.now) base (tree_of ty.now) pieces.now low.now high.now }
    ensures { (p : Piece) → p ≡ slice_index_or pieces.now j p → result ≡ check_of_piece (image_of image.now) base i (tree_of ty.now) pieces.now p }
{
    let piece = pieces.get(j);
    let bytes = place_bytes(image, base, piece.loc);
    let word = wanted_word(piece, &bytes, low, high);
    Check {
        part: Part::Arg(i),
        place: piece.loc,
        found: place_word(image, base, piece.loc),
        wants: extended(ty, value, piece, word),
    }
}

/// The first piece of argument `i` whose place does not hold what is wanted.
fn first_broken_piece(
    image: &Image,
    base: u64,
    i: u32,
    ty: &FfiType,
    value: &Value,
    pieces: &Pieces,
    low: &[u8],
    high: &[u8],
) -> Option<Check>
    requires there { AllByRecursion (CanBeRead (image_of image.now) base) pieces.now }
    requires suits { AllByRecursion (IsPieceOf (tree_of ty.now)) pieces.now }
    requires fits { fits (tree_of ty.now) (value_of value.now) ≡ true }
    requires value { value_of value.now ≡ value_in_pieces (image_of image.now) base (tree_of ty.now) pieces.now }
    requires marks { AreMarks (image_of image.now) base (tree_of ty.now) pieces.now low.now high.now }
    ensures { result ≡ first_broken (checks_of_pieces (image_of image.now) base i (tree_of ty.now) pieces.now pieces.now) }
{
    for j in 0..pieces.len() {
        let check = check_piece(image, base, i, ty, value, pieces, j, low, high);
        let differs = check.found != check.wants;
        if differs {
            return Some(check);
        }
    }
    None
}

/// Writes the value's bytes over this filling, which stays in padding.
fn write_over(ty: &CheckedType<'_>, value: &Value, filling: u8, out: &mut [u8])
    requires fits { fits ty.now (value_of value.now) ≡ true }
    requires sized { length out.old ≡ size_of ty.now }
    ensures { IsWritten ty.now (value_of value.now) (replicate (size_of ty.now) filling) out.new }
{
    out.fill(filling);
    write_bytes(ty.as_type(), value, out);
}

/// The value of argument `i` in pieces, or the first piece whose place does not hold what is wanted.
pub fn explain_pieces(
    alloc: Global,
    image: &Image,
    base: u64,
    i: u32,
    ty: &CheckedType<'_>,
    pieces: &Pieces,
) -> Result<Value, Unexplained>
    requires there { AllByRecursion (CanBeRead (image_of image.now) base) pieces.now }
    requires suits { AllByRecursion (IsPieceOf ty.now) pieces.now }
    ensures value { IfOk result (λ v. value_of v ≡ value_in_pieces (image_of image.now) base ty.now pieces.now) }
    ensures held { IfOk result (λ v. first_broken (checks_of_pieces (image_of image.now) base i ty.now pieces.now pieces.now) ≡ None) }
    ensures broken { IfErr result (λ f. TellsFirst (first_broken (checks_of_pieces (image_of image.now) base i ty.now pieces.now pieces.now)) f) }
{
    let Ok(value) = value_in_pieces(alloc, image, base, ty, pieces) else {
        return Err(Unexplained::NoMemory);
    };
    let size = ty.size() as usize;
    // the value over zeros and over ones: padding is where they differ
    let mut zeros = [0; LARGEST_TYPE as usize];
    let mut ones = [0xFF; LARGEST_TYPE as usize];
    let low = &mut zeros[..size];
    let high = &mut ones[..size];
    write_over(ty, &value, 0, low);
    write_over(ty, &value, 0xFF, high);
    match first_broken_piece(image, base, i, ty.as_type(), &value, pieces, low, high) {
        Some(check) => Err(Unexplained::NotHeld(check)),
        None => Ok(value),
    }
}
