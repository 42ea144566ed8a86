//! How a callee takes an argument: from its place straight into the block, without a buffer between.
ghost use Rattle.std.specs.Prelude.{◌≡◌, ◌+◌, ◌-◌, ◌≤◌};
ghost use Rattle.std.specs.List.{AllByRecursion};
ghost use Rattle.ffi3_type_spec.specs.declared.limits.TheConstants.{STACK, STACK_TOP};
ghost use Rattle.ffi3_type_spec.specs.Layout.{size_of};
ghost use Rattle.ffi3_place_spec.specs.Sound.{PlaceHasAll, IsWithin};
ghost use Rattle.ffi3_cif.specs.Runs.{AreRunsOf, Neighbours, Rises, pieces_of};
ghost use Rattle.ffi3_machine_spec.specs.State.{stack_at};
ghost use Rattle.ffi3_machine_transfer.specs.Passing.{passing};
ghost use Rattle.ffi3_machine_transfer.specs.Stored.{IsPlace, WroteOnly};
ghost use Rattle.ffi3_machine_transfer.specs.Runs.{RunLies};
ghost use Rattle.ffi3_machine_transfer.specs.Standing.{PlaceLies};
ghost use Rattle.ffi3_callee.specs.Loaded.{IsFound, IsRead};
ghost use Rattle.ffi3_callee.specs.Moved.{ArePiecesMoved, AreRunsMoved, IsPieceMoved, is_on_stack};

use ffi3_cif::Runs;
use ffi3_machine::{Machine, StackBase};
use ffi3_machine_transfer::{place_bytes, place_word};
use ffi3_place::{Loc, Piece, Pieces, Place};
use ffi3_types::CheckedType;

/// Copies an argument's bytes that stand on the stack, run by run, to the argument's copy at `to`. Stack places count
/// from the address `base`.
fn copy_runs(machine: &mut Machine, base: StackBase, runs: &Runs, to: u64)
    requires low { STACK ≤ to }
    requires below { to ≤ base }
    requires lie { AllByRecursion (RunLies (STACK_TOP - base) (base - to)) runs.now }
    requires rising { Neighbours Rises runs.now }
    ensures { AreRunsMoved base to runs.now (passing machine.old) (passing machine.new) }
{
    machine.facts();
    let from = base.address();
    for i in (0..runs.len()).rev() {
        let run = runs.get(i);
        machine.copy_stack(from + run.at as u64, to + run.off as u64, run.len as u64);
    }
}

fn is_on_stack(at: Loc) -> bool
    ensures { result ≡ is_on_stack at }
{
    match at {
        Loc::S(_, _) => true,
        Loc::G(_) => false,
        Loc::F(_) => false,
    }
}

/// Copies the bytes of a piece in a register to the argument's copy at `to`. A piece on the stack is left to the runs.
fn copy_register(machine: &mut Machine, base: StackBase, piece: &Piece, to: u64)
    requires low { STACK ≤ to }
    requires below { to ≤ base }
    requires lies { IsPlace (STACK_TOP - base) piece.now.loc }
    requires within { IsWithin (base - to) piece.now }
    ensures { IsPieceMoved base to piece.now (passing machine.old) (passing machine.new) }
{
    machine.facts();
    // its contract tells where the base lies
    let _at = base.address();
    if !is_on_stack(piece.loc) {
        let bytes = place_bytes(machine, base, piece.loc);
        machine.store_stack(to + piece.off as u64, &bytes[..piece.len as usize]);
    }
}

/// Copies the bytes of all pieces in registers to the argument's copy at `to`.
fn copy_registers(machine: &mut Machine, base: StackBase, pieces: &Pieces, to: u64)
    requires low { STACK ≤ to }
    requires below { to ≤ base }
    requires lie { AllByRecursion (λ p. IsPlace (STACK_TOP - base) p.loc) pieces.now }
    requires within { AllByRecursion (IsWithin (base - to)) pieces.now }
    ensures { ArePiecesMoved base to pieces.now (passing machine.old) (passing machine.new) }
{
    for i in 0..pieces.len() {
        copy_register(machine, base, pieces.get(i), to);
    }
}

/// Copies an argument from its place to an address: what stands on the stack by runs, a copy by reference from the
/// address that is found. Stack places count from the address `base`.
pub fn copy_argument(
    machine: &mut Machine,
    base: StackBase,
    place: &Place,
    runs: &Runs,
    ty: &CheckedType<'_>,
    to: u64,
)
    requires low { STACK ≤ to }
    requires below { to + size_of ty.now ≤ base }
    requires lies { PlaceLies (STACK_TOP - base) ty.now place.now }
    requires has_all { PlaceHasAll ty.now place.now }
    requires runs { AreRunsOf (pieces_of place.now) runs.now }
    requires found { IsFound base (passing machine.old) place.now }
    ensures read { IsRead base (passing machine.old) ty.now place.now (stack_at to (size_of ty.now) (passing machine.new)) }
    ensures only { WroteOnly to (to + size_of ty.now) (passing machine.old) (passing machine.new) }
{
    machine.facts();
    // its contract tells where the base lies
    let _at = base.address();
    match place {
        Place::Direct(pieces) => {
            copy_runs(machine, base, runs, to);
            copy_registers(machine, base, pieces, to);
        }
        Place::ByRef { at, .. } => {
            let start = place_word(machine, base, *at);
            machine.copy_stack(start, to, ty.size());
        }
    }
}
