//! What stands at places, read from a machine.
ghost use Rattle.std.specs.Prelude.{◌≡◌, ◌-◌, length};
ghost use Rattle.ffi3_type_spec.specs.declared.limits.TheConstants.{STACK_TOP};
ghost use Rattle.ffi3_machine_transfer.specs.Passing.{passing};
ghost use Rattle.ffi3_place_spec.specs.Sound.{IsWithin};
ghost use Rattle.ffi3_machine_transfer.specs.Stored.{AreBytesOf, IsPieceLoaded, IsPlace, word_in};

use crate::lent::{Shown, offset_of};
use ffi3_machine::{Machine, StackBase};
use ffi3_place::{Loc, Piece};

/// The bytes of a place, and zeros behind them where it has fewer than eight. Stack places count from the address `base`.
pub fn place_bytes(machine: &Machine, base: StackBase, at: Loc) -> [u8; 8]
    requires { IsPlace (STACK_TOP - base) at }
    ensures { AreBytesOf base (passing machine.now) at result }
{
    let start = offset_of(machine, base);
    let shown = Shown { machine };
    ffi3_marshal::place_bytes(&shown, start, at)
}

/// The number in a place. Stack places count from the address `base`.
pub fn place_word(machine: &Machine, base: StackBase, at: Loc) -> u64
    requires { IsPlace (STACK_TOP - base) at }
    ensures { result ≡ word_in base (passing machine.now) at }
{
    let start = offset_of(machine, base);
    let shown = Shown { machine };
    ffi3_marshal::place_word(&shown, start, at)
}

/// The number in a place, of the machine's own registers, whatever a call passes. Stack places count from the address
/// `base`.
pub fn own_word(machine: &Machine, base: StackBase, at: Loc) -> u64
    requires { IsPlace (STACK_TOP - base) at }
    ensures { result ≡ word_in base machine.now at }
{
    match at {
        Loc::G(r) => machine.g(r),
        Loc::F(r) => machine.f(r),
        Loc::S(_, _) => place_word(machine, base, at),
    }
}

/// Reads a piece of a value from its place. Stack places count from the address `base`.
pub fn load_piece(machine: &Machine, base: StackBase, piece: &Piece, out: &mut [u8])
    requires lies { IsPlace (STACK_TOP - base) piece.now.loc }
    requires within { IsWithin (length out.old) piece.now }
    ensures { IsPieceLoaded base (passing machine.now) piece.now out.old out.new }
{
    let start = offset_of(machine, base);
    let shown = Shown { machine };
    ffi3_marshal::read_piece(&shown, start, piece, out);
}
