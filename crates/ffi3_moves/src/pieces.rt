//! The moves of the pieces of one value.
ghost use Rattle.std.specs.Prelude.{◌≡◌, ◌<◌, ◌^◌, ◌++◌, OnOk};
ghost use Rattle.ffi3_moves.specs.Moves.{pieces_in, pieces_out};

use crate::Moves;
use crate::kinds::{piece_in, piece_out};
use ffi3_place::Pieces;
use ffi3_types::{CheckedType, NoMemory};

/// Those that bring the value that stands at `at` to its places.
pub(crate) fn push_pieces_in(
    moves: &mut Moves,
    part: u32,
    at: u64,
    ty: &CheckedType<'_>,
    pieces: &Pieces,
) -> Result<(), NoMemory>
    requires { at < 2 ^ 32 }
    ensures { OnOk result (moves.new ≡ moves.old ++ pieces_in part at ty.now pieces.now) }
{
    for j in 0..pieces.len() {
        moves.push(piece_in(part, at, ty, *pieces.get(j)))?;
    }
    Ok(())
}

/// Those that bring it back, from its last piece to its first.
pub(crate) fn push_pieces_out(
    moves: &mut Moves,
    part: u32,
    at: u64,
    pieces: &Pieces,
) -> Result<(), NoMemory>
    requires { at < 2 ^ 32 }
    ensures { OnOk result (moves.new ≡ moves.old ++ pieces_out part at pieces.now) }
{
    for j in (0..pieces.len()).rev() {
        moves.push(piece_out(part, at, *pieces.get(j)))?;
    }
    Ok(())
}
