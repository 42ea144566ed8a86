//! Bytes and words at places of registers and stack.
ghost use Rattle.std.specs.Prelude.{◌≡◌, ◌-◌, ◌≤◌, length};
ghost use Rattle.ffi3_type_spec.specs.Layout.{size_of};
ghost use Rattle.ffi3_place_spec.specs.Sound.{IsPieceOf, IsWhole, IsWithin, place_size};
ghost use Rattle.ffi3_marshal.specs.Stored.{IsPut, IsSet, IsStored, IsWordPut};
ghost use Rattle.ffi3_transfer.specs.Stored.{image_in};
ghost use Rattle.ffi3_transfer.specs.Places.{IsPlace};

use crate::Registers;
use crate::call::Call;
use ffi3_place::{Loc, Piece};
use ffi3_types::CheckedType;

/// Puts bytes into a place, whose other bytes stay. Stack places count from `base` bytes above the stack pointer.
pub fn put(registers: &mut Registers, stack: &mut [u8], base: u64, at: Loc, bytes: &[u8])
    requires lies { IsPlace (length stack.old - base) at }
    requires few { length bytes.now ≤ place_size at }
    ensures { IsPut base at bytes.now (image_in registers.old stack.old) (image_in registers.new stack.new) }
{
    let mut call = Call { registers, stack };
    ffi3_marshal::put(&mut call, base, at, bytes);
}

/// Puts a number into a place of eight bytes. Stack places count from `base` bytes above the stack pointer.
pub fn put_word(registers: &mut Registers, stack: &mut [u8], base: u64, at: Loc, word: u64)
    requires lies { IsPlace (length stack.old - base) at }
    requires whole { IsWhole at }
    ensures { IsWordPut base at word (image_in registers.old stack.old) (image_in registers.new stack.new) }
{
    let mut call = Call { registers, stack };
    ffi3_marshal::put_word(&mut call, base, at, word);
}

/// Puts the bytes that a piece carries into its place, whose other bytes stay.
pub fn set_piece(registers: &mut Registers, stack: &mut [u8], base: u64, piece: Piece, bytes: &[u8])
    requires lies { IsPlace (length stack.old - base) piece.loc }
    requires fits { IsWithin (length bytes.now) piece }
    ensures { IsSet base piece bytes.now (image_in registers.old stack.old) (image_in registers.new stack.new) }
{
    let mut call = Call { registers, stack };
    ffi3_marshal::set_piece(&mut call, base, piece, bytes);
}

/// Puts the bytes that a piece of a value carries into its place, and fills the rest of the place as the standard says.
pub fn fill_piece(
    registers: &mut Registers,
    stack: &mut [u8],
    base: u64,
    piece: Piece,
    ty: &CheckedType<'_>,
    bytes: &[u8],
)
    requires lies { IsPlace (length stack.old - base) piece.loc }
    requires part { IsPieceOf ty.now piece }
    requires sized { length bytes.now ≡ size_of ty.now }
    ensures { IsStored base ty.now bytes.now piece (image_in registers.old stack.old) (image_in registers.new stack.new) }
{
    let mut call = Call { registers, stack };
    ffi3_marshal::fill_piece(&mut call, base, piece, ty, bytes);
}
