//! The moves of the arguments of a call: its caller's, and its callee's.
ghost use Rattle.std.specs.Prelude.{◌≡◌, ◌<◌, ◌^◌, ◌++◌, IfOk, OnOk};
ghost use Rattle.ffi3_place_spec.specs.Standard.{plan_of};
ghost use Rattle.ffi3_moves.specs.Moves.{argument_in, argument_moves, argument_out, arguments_moves, collect_moves, count_in, store_moves};

use crate::kinds::{Way, exchange_at};
use crate::pieces::{push_pieces_in, push_pieces_out};
use crate::{FRAME_AT, Kind, Move, Moves};
use ffi3_cif::Placed;
use ffi3_place::{Abi, Loc, Place};
use ffi3_type_spec::round_up;
use ffi3_types::{CheckedType, NoMemory};
use std::alloc::Global;

/// Those of an argument whose value stands at `at`.
fn push_argument_in(
    moves: &mut Moves,
    part: u32,
    at: u64,
    ty: &CheckedType<'_>,
    place: &Place,
) -> Result<(), NoMemory>
    requires { at < 2 ^ 32 }
    ensures { OnOk result (moves.new ≡ moves.old ++ argument_in part at ty.now place.now) }
{
    match place {
        Place::Direct(pieces) => push_pieces_in(moves, part, at, ty, pieces),
        Place::ByRef { at: to, copy } => {
            moves.push(Move {
                kind: Kind::Bytes,
                part,
                from: at,
                to: FRAME_AT + *copy as u64,
                length: ty.size(),
            })?;
            moves.push(Move {
                kind: Kind::Address,
                part,
                from: *copy as u64,
                to: exchange_at(*to),
                length: 8,
            })
        }
    }
}

/// And back.
fn push_argument_out(
    moves: &mut Moves,
    part: u32,
    at: u64,
    ty: &CheckedType<'_>,
    place: &Place,
) -> Result<(), NoMemory>
    requires { at < 2 ^ 32 }
    ensures { OnOk result (moves.new ≡ moves.old ++ argument_out part at ty.now place.now) }
{
    match place {
        Place::Direct(pieces) => push_pieces_out(moves, part, at, pieces),
        Place::ByRef { at: from, .. } => moves.push(Move {
            kind: Kind::Behind,
            part,
            from: exchange_at(*from),
            to: at,
            length: ty.size(),
        }),
    }
}

/// Those of an argument, the one way or the other.
#[inline(always)]
fn push_argument(
    moves: &mut Moves,
    way: Way,
    part: u32,
    at: u64,
    ty: &CheckedType<'_>,
    place: &Place,
) -> Result<(), NoMemory>
    requires { at < 2 ^ 32 }
    ensures { OnOk result (moves.new ≡ moves.old ++ argument_moves way part at ty.now place.now) }
{
    match way {
        Way::In => push_argument_in(moves, part, at, ty, place),
        Way::Out => push_argument_out(moves, part, at, ty, place),
    }
}

/// Those of all arguments.
#[inline(always)]
fn push_arguments<A: Abi>(moves: &mut Moves, way: Way, cif: &Placed<A>) -> Result<(), NoMemory>
    ensures { OnOk result (moves.new ≡ moves.old ++ arguments_moves way 0 0 cif.now.arguments (plan_of A.standard cif.now).places) }
{
    let sig = cif.placed_sig();
    let mut at = 0;
    for i in 0..sig.count() {
        let ty = sig.arg(i);
        push_argument(moves, way, i, at, &ty, cif.place(i))?;
        at += round_up(ty.size(), 8);
    }
    Ok(())
}

/// That of the number of vector registers.
fn push_count(moves: &mut Moves, at: Option<Loc>, vectors: u8) -> Result<(), NoMemory>
    ensures { OnOk result (moves.new ≡ moves.old ++ count_in at vectors) }
{
    match at {
        Some(at) => moves.push(Move {
            kind: Kind::Number,
            part: 0,
            from: vectors as u64,
            to: exchange_at(at),
            length: 8,
        }),
        None => Ok(()),
    }
}

/// How many moves there is room for at once: two of each argument, and one more. Few functions have more.
fn likely_count<A: Abi>(cif: &Placed<A>) -> usize {
    2 * cif.placed_sig().count() as usize + 1
}

/// The moves by which a caller passes its arguments: from the values to the exchange at the callee's entry. The address
/// of a hidden result is apart: `hidden_move`.
pub fn moves_to_store<A: Abi>(alloc: Global, cif: &Placed<A>) -> Result<Moves, NoMemory>
    ensures { IfOk result (λ moves. moves ≡ store_moves A.standard cif.now) }
{
    let mut moves = Moves::with_capacity(alloc, likely_count(cif))?;
    push_arguments(&mut moves, Way::In, cif)?;
    push_count(&mut moves, A::vector_count(), cif.vectors())?;
    Ok(moves)
}

/// The moves by which a callee has its arguments: from the exchange at its entry to the values.
pub fn moves_to_collect<A: Abi>(alloc: Global, cif: &Placed<A>) -> Result<Moves, NoMemory>
    ensures { IfOk result (λ moves. moves ≡ collect_moves A.standard cif.now) }
{
    let mut moves = Moves::with_capacity(alloc, likely_count(cif))?;
    push_arguments(&mut moves, Way::Out, cif)?;
    Ok(moves)
}
