//! Where bytes stand, one piece after another.
ghost use Rattle.std.specs.Prelude.{◌≡◌, ◌+◌, ◌<◌, ◌≤◌, ◌^◌, ◌++◌, ◌∷◌, List, IfOk, OnOk, length, map};
ghost use Rattle.std.specs.List.{AllByRecursion};
ghost use Rattle.ffi3_type_spec.specs.declared.limits.TheConstants.{LARGEST_TYPE};
ghost use Rattle.ffi3_cif.specs.Runs.{EndsWithin, PlaceEndsWithin};
ghost use Rattle.ffi3_capi.specs.Within.{ResultEndsWithin};
ghost use Rattle.ffi3_capi.specs.Pieces.{place_of, number_of, is_packed, rest_of, value_piece, address_piece, goes_on, has_x87, is_above, is_upper_half, is_x87, whole_x87, joined_to, joined, argument_pieces, arguments_from, hidden_pieces, returned_address, returned_pieces};

use crate::codes::{
    ADDRESS_BYTES, HIDDEN_PART, HOLDS_ADDRESS, HOLDS_BYTES, IN_FLOATING, IN_GENERAL, IN_X87,
    ON_STACK, REST_EXTENDED, REST_EXTENDED_BY_32, REST_FREE, REST_NONE, REST_ONES, RESULT_PART,
};
use ffi3_place::{Ext, Loc, Piece, Pieces, Place, Places, Res};
use ffi3_place_spec::Listed;
use ffi3_type_spec::Isa;
use ffi3_types::NoMemory;

/// Where bytes of an argument or of the result stand, or their address: C's `struct ffi3_piece`.
#[repr(C)]
#[derive(Clone, Copy)]
pub struct PlacedPiece {
    /// An argument by its number, the result, or the address of the result's buffer.
    pub part: u32,
    /// Bytes of the value, or its address.
    pub holds: u32,
    /// A general register, a floating one, one of x87, or the stack.
    pub place: u32,
    /// The register's number, or the offset from the first stack argument.
    pub number: u32,
    /// The first byte of the value that stands there; of an address, where in the caller's frame it leads.
    pub offset: u32,
    /// How many bytes stand there.
    pub length: u32,
    /// What the rest of a register, or of the last doubleword on the stack, holds.
    pub rest: u32,
}

/// Pieces in the order in which C is told them.
pub type PlacedPieces = Listed<PlacedPiece>;

fn place_of(at: Loc) -> u32
    ensures { result ≡ place_of at }
{
    match at {
        Loc::G(_) => IN_GENERAL,
        Loc::F(_) => IN_FLOATING,
        Loc::S(_, _) => ON_STACK,
    }
}

fn number_of(at: Loc) -> u32
    ensures { result ≡ number_of at }
{
    match at {
        Loc::G(r) => r as u32,
        Loc::F(r) => r as u32,
        Loc::S(n, _) => n,
    }
}

/// Whether a place has fewer than eight bytes.
fn is_packed(at: Loc) -> bool
    ensures { result ≡ is_packed at }
{
    match at {
        Loc::G(_) => false,
        Loc::F(_) => false,
        Loc::S(_, len) => len < 8,
    }
}

fn rest_of(at: Loc, ext: Ext) -> u32
    ensures { result ≡ rest_of at ext }
{
    if is_packed(at) {
        return REST_NONE;
    }
    match ext {
        Ext::Free => REST_FREE,
        Ext::Widen => REST_EXTENDED,
        Ext::Riscv => REST_EXTENDED_BY_32,
        Ext::Boxed => REST_ONES,
    }
}

/// Bytes of an argument or of the result.
fn value_piece(part: u32, piece: &Piece) -> PlacedPiece
    ensures { result ≡ value_piece part piece.now }
{
    PlacedPiece {
        part,
        holds: HOLDS_BYTES,
        place: place_of(piece.loc),
        number: number_of(piece.loc),
        offset: piece.off,
        length: piece.len as u32,
        rest: rest_of(piece.loc, piece.ext),
    }
}

/// The address of what stands so many bytes from the start of the caller's frame.
fn address_piece(part: u32, at: Loc, frame: u32) -> PlacedPiece
    ensures { result ≡ address_piece part at frame }
{
    PlacedPiece {
        part,
        holds: HOLDS_ADDRESS,
        place: place_of(at),
        number: number_of(at),
        offset: frame,
        length: ADDRESS_BYTES,
        rest: REST_FREE,
    }
}

/// Whether the second stands on the stack right behind the first, with the bytes of the value that follow.
fn goes_on(piece: PlacedPiece, next: PlacedPiece) -> bool
    ensures { result ≡ goes_on piece next }
{
    piece.place == ON_STACK
        && next.place == ON_STACK
        && piece.number as u64 + piece.length as u64 == next.number as u64
        && piece.offset as u64 + piece.length as u64 == next.offset as u64
}

/// Whether both stand in the floating file, and the second has the bytes of the value that follow the first's eight.
fn is_above(piece: PlacedPiece, next: PlacedPiece) -> bool
    ensures { result ≡ is_above piece next }
{
    piece.place == IN_FLOATING
        && next.place == IN_FLOATING
        && piece.length == 8
        && piece.offset as u64 + 8 == next.offset as u64
}

/// Whether the first has the lower half of a vector register, and the second its upper half.
fn is_upper_half(piece: PlacedPiece, next: PlacedPiece) -> bool
    ensures { result ≡ is_upper_half piece next }
{
    is_above(piece, next) && next.length == 8 && next.number as u64 == 32 + piece.number as u64
}

/// Whether an instruction set has x87 registers.
fn has_x87(isa: Isa) -> bool
    ensures { result ≡ has_x87 isa }
{
    match isa {
        Isa::Amd64 => true,
        Isa::Aarch64 => false,
        Isa::Riscv => false,
    }
}

/// Whether the first has the significand of x87 register `k`, and the second its sign and exponent.
fn is_x87(isa: Isa, k: u32, piece: PlacedPiece, next: PlacedPiece) -> bool
    requires { k ≤ 1 }
    ensures { result ≡ is_x87 isa k piece next }
{
    has_x87(isa)
        && is_above(piece, next)
        && next.length == 2
        && piece.number == 16 + 2 * k
        && next.number == 17 + 2 * k
}

/// A whole x87 register.
fn whole_x87(k: u32, piece: PlacedPiece, next: PlacedPiece) -> PlacedPiece
    ensures { result ≡ whole_x87 k piece next }
{
    PlacedPiece {
        place: IN_X87,
        number: k,
        length: 10,
        rest: next.rest,
        ..piece
    }
}

/// The piece to which more may be added, with the one behind it. What that does not make longer is whole.
fn with_next(
    isa: Isa,
    pieces: &mut PlacedPieces,
    piece: PlacedPiece,
    next: PlacedPiece,
) -> Result<PlacedPiece, NoMemory>
    requires { next.offset + next.length ≤ LARGEST_TYPE }
    ensures { IfOk result (λ p. (rest : List PlacedPiece) → pieces.new ++ joined_to isa p rest ≡ pieces.old ++ joined_to isa piece (next ∷ rest)) }
{
    if goes_on(piece, next) {
        return Ok(PlacedPiece {
            length: piece.length + next.length,
            rest: next.rest,
            ..piece
        });
    }
    if is_upper_half(piece, next) {
        return Ok(PlacedPiece {
            length: 16,
            rest: next.rest,
            ..piece
        });
    }
    if is_x87(isa, 0, piece, next) {
        return Ok(whole_x87(0, piece, next));
    }
    if is_x87(isa, 1, piece, next) {
        return Ok(whole_x87(1, piece, next));
    }
    pieces.push(piece)?;
    Ok(next)
}

/// The pieces of a value, those of one register and those on the stack in as few as they make.
fn join(isa: Isa, part: u32, from: &Pieces, pieces: &mut PlacedPieces) -> Result<(), NoMemory>
    requires { AllByRecursion (EndsWithin LARGEST_TYPE) from.now }
    ensures { OnOk result (pieces.new ≡ pieces.old ++ joined isa (map (value_piece part) from.now)) }
{
    if from.len() == 0 {
        return Ok(());
    }
    let mut piece = value_piece(part, from.get(0));
    for k in 1..from.len() {
        piece = with_next(isa, pieces, piece, value_piece(part, from.get(k)))?;
    }
    pieces.push(piece)
}

/// The pieces of an argument.
fn put_argument(isa: Isa, i: u32, place: &Place, pieces: &mut PlacedPieces) -> Result<(), NoMemory>
    requires { PlaceEndsWithin LARGEST_TYPE place.now }
    ensures { OnOk result (pieces.new ≡ pieces.old ++ argument_pieces isa i place.now) }
{
    match place {
        Place::Direct(from) => join(isa, i, from, pieces),
        Place::ByRef { at, copy } => pieces.push(address_piece(i, *at, *copy)),
    }
}

/// Those of all arguments.
pub(crate) fn put_arguments(
    isa: Isa,
    places: &Places,
    pieces: &mut PlacedPieces,
) -> Result<(), NoMemory>
    requires within { AllByRecursion (PlaceEndsWithin LARGEST_TYPE) places.now }
    requires few { length places.now < 2 ^ 32 }
    ensures { OnOk result (pieces.new ≡ pieces.old ++ arguments_from isa 0 places.now) }
{
    for i in 0..places.len() {
        put_argument(isa, i as u32, places.get(i), pieces)?;
    }
    Ok(())
}

/// The address of the result's buffer, where it is passed.
pub(crate) fn put_hidden(res: &Res, pieces: &mut PlacedPieces) -> Result<(), NoMemory>
    ensures { OnOk result (pieces.new ≡ pieces.old ++ hidden_pieces res.now) }
{
    match res {
        Res::Nothing => Ok(()),
        Res::Direct(_) => Ok(()),
        Res::Hidden { at, buffer } => pieces.push(address_piece(HIDDEN_PART, *at, *buffer)),
    }
}

/// Where the result is given back; `register` is that of a buffer's address.
pub(crate) fn put_returned(
    isa: Isa,
    register: Option<Loc>,
    res: &Res,
    pieces: &mut PlacedPieces,
) -> Result<(), NoMemory>
    requires { ResultEndsWithin LARGEST_TYPE res.now }
    ensures { OnOk result (pieces.new ≡ pieces.old ++ returned_pieces isa register res.now) }
{
    match res {
        Res::Nothing => Ok(()),
        Res::Direct(from) => join(isa, RESULT_PART, from, pieces),
        Res::Hidden { buffer, .. } => put_address(register, *buffer, pieces),
    }
}

fn put_address(
    register: Option<Loc>,
    buffer: u32,
    pieces: &mut PlacedPieces,
) -> Result<(), NoMemory>
    ensures { OnOk result (pieces.new ≡ pieces.old ++ returned_address register buffer) }
{
    match register {
        None => Ok(()),
        Some(at) => pieces.push(address_piece(RESULT_PART, at, buffer)),
    }
}
