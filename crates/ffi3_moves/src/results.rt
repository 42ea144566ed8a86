//! The moves of the result of a call: its caller's, and its callee's.
ghost use Rattle.std.specs.Prelude.{◌≡◌, ◌++◌, IfOk, OnOk};
ghost use Rattle.ffi3_moves.specs.Moves.{give_moves, given_back_at, hidden_in, hidden_move, load_moves, result_in, result_out, returned_at};

use crate::kinds::exchange_at;
use crate::pieces::{push_pieces_in, push_pieces_out};
use crate::{FRAME_AT, Kind, Move, Moves};
use ffi3_cif::Placed;
use ffi3_place::{Abi, Loc, Res};
use ffi3_types::{CheckedType, NoMemory};
use std::alloc::Global;

fn push_result_out(moves: &mut Moves, ty: &CheckedType<'_>, res: &Res) -> Result<(), NoMemory>
    ensures { OnOk result (moves.new ≡ moves.old ++ result_out ty.now res.now) }
{
    match res {
        Res::Nothing => Ok(()),
        Res::Direct(pieces) => push_pieces_out(moves, 0, 0, pieces),
        Res::Hidden { buffer, .. } => moves.push(Move {
            kind: Kind::Bytes,
            part: 0,
            from: FRAME_AT + *buffer as u64,
            to: 0,
            length: ty.size(),
        }),
    }
}

fn push_result_in(moves: &mut Moves, ty: &CheckedType<'_>, res: &Res) -> Result<(), NoMemory>
    ensures { OnOk result (moves.new ≡ moves.old ++ result_in ty.now res.now) }
{
    match res {
        Res::Nothing => Ok(()),
        Res::Direct(pieces) => push_pieces_in(moves, 0, 0, ty, pieces),
        Res::Hidden { .. } => Ok(()),
    }
}

/// The moves by which a caller has its result: from the exchange at the return to the result's bytes. Those of a hidden
/// result are in the frame's buffer; a caller that passed the address of another has it there, and plays none.
pub fn moves_to_load<A: Abi>(alloc: Global, cif: &Placed<A>) -> Result<Moves, NoMemory>
    ensures { IfOk result (λ moves. moves ≡ load_moves A.standard cif.now) }
{
    let mut moves = Moves::new(alloc);
    push_result_out(&mut moves, &cif.placed_sig().ret(), cif.result_place())?;
    Ok(moves)
}

/// The moves by which a callee gives its result: from the result's bytes to the exchange at the return. A hidden one has
/// none: it is written to where the address points that the entry's exchange has at the place of `hidden_move`, and that
/// address is given back at `returned_at`.
pub fn moves_to_give<A: Abi>(alloc: Global, cif: &Placed<A>) -> Result<Moves, NoMemory>
    ensures { IfOk result (λ moves. moves ≡ give_moves A.standard cif.now) }
{
    let mut moves = Moves::new(alloc);
    push_result_in(&mut moves, &cif.placed_sig().ret(), cif.result_place())?;
    Ok(moves)
}

fn hidden_in(res: &Res) -> Option<Move>
    ensures { result ≡ hidden_in res.now }
{
    match res {
        Res::Nothing => None,
        Res::Direct(_) => None,
        Res::Hidden { at, buffer } => Some(Move {
            kind: Kind::Address,
            part: 0,
            from: *buffer as u64,
            to: exchange_at(*at),
            length: 8,
        }),
    }
}

/// The move by which a caller passes the address of a hidden result's buffer in the frame. A caller with a buffer of its
/// own writes the address of that in its place, eight bytes.
pub fn hidden_move<A: Abi>(cif: &Placed<A>) -> Option<Move>
    ensures { result ≡ hidden_move A.standard cif.now }
{
    hidden_in(cif.result_place())
}

fn given_back_at(res: &Res, at: Option<Loc>) -> Option<u64>
    ensures { result ≡ given_back_at res.now at }
{
    match res {
        Res::Nothing => None,
        Res::Direct(_) => None,
        Res::Hidden { .. } => match at {
            Some(at) => Some(exchange_at(at)),
            None => None,
        },
    }
}

/// Where in the exchange at the return a callee gives the address of a hidden result back, if the standard says so.
pub fn returned_at<A: Abi>(cif: &Placed<A>) -> Option<u64>
    ensures { result ≡ returned_at A.standard cif.now }
{
    given_back_at(cif.result_place(), A::returned_address())
}
