//! Lines of place.
ghost use Rattle.std.specs.Prelude.{◌≡◌, ◌+◌, ◌<◌, ◌≤◌, ◌^◌, ◌++◌, IfOk, OnOk, length};
ghost use Rattle.std.specs.Fmt.{decimal};
ghost use Rattle.ffi3_type_spec.specs.Signature.{at_result, at_argument};
ghost use Rattle.ffi3_type_spec.specs.TargetIsa.{isa_of};
ghost use Rattle.ffi3_types.specs.SignatureFaultOf.{position_of};
ghost use Rattle.ffi3_text_spec.specs.LayoutLines.{IsIn};
ghost use Rattle.ffi3_place_spec.specs.MachineRegisters.{word_below};
ghost use Rattle.ffi3_text_spec.specs.PlaceLines.{is_on_stack, is_numbered, longer, part_of, piece_text, stands_above, register_part_text, register_texts, first_on_stack, stack_length, bytes_on_stack, stack_text, pieces_text, argument_text, result_text, place_text_of, vectors_text, sig_text_of};

use crate::names::write_loc;
use crate::numbers::write_labelled;
use ffi3_cif::Placed;
use ffi3_place::{Abi, Loc, Piece, Pieces, Place, Res};
use ffi3_text_spec::Part;
use ffi3_type_spec::Isa;
use ffi3_types::{At, Bytes, NoMemory};
use itoa::Buffer;
use std::alloc::Global;

/// Most lines fit, so that no text grows.
const LINE_ROOM: usize = 64;

/// The bytes of stack that a call takes, as `sig 0 need 80 frame 0 block 16` with a newline; where the standard has a
/// register that tells the number of vector registers that arguments use, followed by it and the number, as ` rax 1`.
pub fn sig_line<A: Abi>(
    alloc: Global,
    sig_number: u32,
    placed: &Placed<A>,
) -> Result<Bytes, NoMemory>
    ensures { IfOk result (λ text. text ≡ sig_text_of sig_number A.standard placed.now) }
{
    let need = placed.need();
    let frame = placed.frame();
    let block = placed.block();
    let mut text = Bytes::with_capacity(alloc, LINE_ROOM)?;
    write_labelled("sig ", sig_number as u64, &mut text)?;
    write_labelled(" need ", need, &mut text)?;
    write_labelled(" frame ", frame, &mut text)?;
    write_labelled(" block ", block, &mut text)?;
    write_vectors::<A>(placed.vectors(), &mut text)?;
    text.push(b'\n')?;
    Ok(text)
}

fn write_vectors<A: Abi>(vectors: u8, text: &mut Bytes) -> Result<(), NoMemory>
    ensures { OnOk result (text.new ≡ text.old ++ vectors_text (isa_of A.standard.target) A.standard.vector_count vectors) }
{
    let Some(at) = A::vector_count() else {
        return Ok(());
    };
    text.push(b' ')?;
    write_loc(A::TARGET.isa(), at, text)?;
    write_labelled(" ", vectors as u64, text)
}

/// Where the result or an argument stands, as `arg 1 xmm0:0+8 rdi:8+8`, `arg 0 ref x0 copy 0` or
/// `ret hidden rdi buffer 0`, with a newline.
pub fn place_line<A: Abi>(alloc: Global, placed: &Placed<A>, at: At) -> Result<Bytes, NoMemory>
    requires { IsIn placed.now (position_of at) }
    ensures { IfOk result (λ text. text ≡ place_text_of A.standard placed.now (position_of at)) }
{
    match at {
        At::Ret => result_line(alloc, placed),
        At::Arg(i) => argument_line(alloc, placed, i),
    }
}

fn result_line<A: Abi>(alloc: Global, placed: &Placed<A>) -> Result<Bytes, NoMemory>
    ensures { IfOk result (λ text. text ≡ place_text_of A.standard placed.now at_result) }
{
    let mut text = Bytes::with_capacity(alloc, LINE_ROOM)?;
    text.extend("ret".as_bytes())?;
    write_result(A::TARGET.isa(), placed.result_place(), &mut text)?;
    text.push(b'\n')?;
    Ok(text)
}

fn argument_line<A: Abi>(alloc: Global, placed: &Placed<A>, i: u32) -> Result<Bytes, NoMemory>
    requires { i < length placed.now.arguments }
    ensures { IfOk result (λ text. text ≡ place_text_of A.standard placed.now (at_argument i)) }
{
    let mut text = Bytes::with_capacity(alloc, LINE_ROOM)?;
    write_labelled("arg ", i as u64, &mut text)?;
    write_argument(A::TARGET.isa(), placed.place(i), &mut text)?;
    text.push(b'\n')?;
    Ok(text)
}

fn write_result(isa: Isa, res: &Res, text: &mut Bytes) -> Result<(), NoMemory>
    ensures { OnOk result (text.new ≡ text.old ++ result_text isa res.now) }
{
    match res {
        Res::Nothing => text.extend(" void".as_bytes()),
        Res::Direct(pieces) => write_pieces(isa, pieces, text),
        Res::Hidden { at, buffer } => {
            text.extend(" hidden ".as_bytes())?;
            write_loc(isa, *at, text)?;
            write_labelled(" buffer ", *buffer as u64, text)
        }
    }
}

fn write_argument(isa: Isa, place: &Place, text: &mut Bytes) -> Result<(), NoMemory>
    ensures { OnOk result (text.new ≡ text.old ++ argument_text isa place.now) }
{
    match place {
        Place::Direct(pieces) => write_pieces(isa, pieces, text),
        Place::ByRef { at, copy } => {
            text.extend(" ref ".as_bytes())?;
            write_loc(isa, *at, text)?;
            write_labelled(" copy ", *copy as u64, text)
        }
    }
}

/// Pieces in registers, and then all that are on the stack as one.
fn write_pieces(isa: Isa, pieces: &Pieces, text: &mut Bytes) -> Result<(), NoMemory>
    ensures { OnOk result (text.new ≡ text.old ++ pieces_text isa pieces.now) }
{
    write_registers(isa, pieces, text)?;
    write_on_stack(isa, pieces, text)
}

fn write_on_stack(isa: Isa, pieces: &Pieces, text: &mut Bytes) -> Result<(), NoMemory>
    ensures { OnOk result (text.new ≡ text.old ++ stack_text isa (first_on_stack pieces.now) (bytes_on_stack pieces.now)) }
{
    match first_on_stack(pieces) {
        None => Ok(()),
        Some(piece) => {
            let len = bytes_on_stack(pieces);
            write_piece(isa, piece.loc, piece.off, len, text)
        }
    }
}

/// Those in registers, of which words of one register are told as one.
fn write_registers(isa: Isa, pieces: &Pieces, text: &mut Bytes) -> Result<(), NoMemory>
    ensures { OnOk result (text.new ≡ text.old ++ register_texts isa pieces.now) }
{
    if pieces.len() == 0 {
        return Ok(());
    }
    let mut part = part_of(*pieces.get(0));
    for k in 1..pieces.len() {
        let piece = *pieces.get(k);
        if stands_above(isa, part.loc, piece.loc) {
            part = longer(part, length_of(piece));
        } else {
            write_register(isa, part, text)?;
            part = part_of(piece);
        }
    }
    write_register(isa, part, text)
}

/// A piece's length.
fn length_of(piece: Piece) -> u8
    ensures { result ≡ piece.len }
{
    piece.len
}

fn part_of(piece: Piece) -> Part
    ensures value { result ≡ part_of piece }
    ensures small { result.len ≤ 255 }
{
    Part {
        loc: piece.loc,
        off: piece.off,
        len: length_of(piece) as u128,
    }
}

/// With so many bytes more.
fn longer(part: Part, len: u8) -> Part
    requires { part.len + len < 2 ^ 128 }
    ensures { result ≡ longer part len }
{
    Part {
        loc: part.loc,
        off: part.off,
        len: part.len + len as u128,
    }
}

/// The number of the word below a number's in one register of the floating file.
fn word_below(isa: Isa, u: u8) -> Option<u8>
    ensures { result ≡ word_below isa u }
{
    match isa {
        Isa::Amd64 => {
            if u == 17 {
                Some(16)
            } else if u == 19 {
                Some(18)
            } else {
                None
            }
        }
        Isa::Aarch64 => { if 32 <= u { Some(u - 32) } else { None } }
        Isa::Riscv => None,
    }
}

fn is_numbered(below: Option<u8>, r: u8) -> bool
    ensures { result ≡ is_numbered below r }
{
    match below {
        Some(n) => n == r,
        None => false,
    }
}

/// Whether a place is the word above another in one register.
fn stands_above(isa: Isa, at: Loc, next: Loc) -> bool
    ensures { result ≡ stands_above isa at next }
{
    match at {
        Loc::F(r) => match next {
            Loc::F(u) => is_numbered(word_below(isa, u), r),
            _ => false,
        },
        _ => false,
    }
}

/// A part in a register; of one on the stack nothing.
fn write_register(isa: Isa, part: Part, text: &mut Bytes) -> Result<(), NoMemory>
    ensures { OnOk result (text.new ≡ text.old ++ register_part_text isa part) }
{
    if is_on_stack(part.loc) {
        return Ok(());
    }
    write_piece(isa, part.loc, part.off, part.len, text)
}

fn write_piece(isa: Isa, at: Loc, off: u32, len: u128, text: &mut Bytes) -> Result<(), NoMemory>
    ensures { OnOk result (text.new ≡ text.old ++ piece_text isa at off len) }
{
    text.push(b' ')?;
    write_loc(isa, at, text)?;
    write_labelled(":", off as u64, text)?;
    text.push(b'+')?;
    write_length(len, text)
}

/// A length in decimal at the end of a text.
fn write_length(len: u128, text: &mut Bytes) -> Result<(), NoMemory>
    ensures { OnOk result (text.new ≡ text.old ++ decimal len) }
{
    if len < 10 {
        return text.push(b'0' + len as u8);
    }
    let mut buffer = Buffer::new();
    text.extend(buffer.format(len).as_bytes())
}

fn is_on_stack(at: Loc) -> bool
    ensures { result ≡ is_on_stack at }
{
    matches!(at, Loc::S(_, _))
}

fn first_on_stack(pieces: &Pieces) -> Option<Piece>
    ensures { result ≡ first_on_stack pieces.now }
{
    for k in 0..pieces.len() {
        let piece = *pieces.get(k);
        if is_on_stack(piece.loc) {
            return Some(piece);
        }
    }
    None
}

/// The sum of any list's lengths has fewer than 128 bits.
fn bytes_on_stack(pieces: &Pieces) -> u128
    ensures { result ≡ bytes_on_stack pieces.now }
{
    let mut total = 0;
    for k in 0..pieces.len() {
        total += stack_length(*pieces.get(k)) as u128;
    }
    total
}

/// The length of a piece on the stack, otherwise 0.
fn stack_length(piece: Piece) -> u8
    ensures { result ≡ stack_length piece }
{
    if is_on_stack(piece.loc) { piece.len } else { 0 }
}
