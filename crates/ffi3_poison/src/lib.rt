//! Overwrites what a callee must not look at: for tests.
#![tactic(auto)]

ghost use Rattle.std.specs.Prelude.{◌≡◌, ℕ, ◌+◌, ◌<◌, ◌≤◌, List, get_or, length, if◌then◌else◌, true};
ghost use Rattle.std.specs.List.{list_any};
ghost use Rattle.std.specs.Int.{w64, to_le_bytes};
ghost use Rattle.ffi3_type_spec.specs.declared.limits.TheConstants.{ENTRY, STACK, STACK_TOP};
ghost use Rattle.ffi3_type_spec.specs.Value.{ValueTree};
ghost use Rattle.ffi3_place_spec.specs.Standard.{frame_of};
ghost use Rattle.ffi3_machine_spec.specs.State.{HasReturnAddress};
ghost use Rattle.ffi3_machine_transfer.specs.Stored.{IsPlace, IsWritable};
ghost use Rattle.ffi3_poison.specs.Poison.{IsPoisoned, address_has, byte_number, carries, copy_has, hidden_has, is_argument_register, is_leaf_byte, piece_has, place_has};
ghost use Rattle.ffi3_callee.specs.Received.{OwnsAtEntry};
ghost use Rattle.ffi3_poison.specs.Overwritten.{AreRegistersDone, IsFrameDone, IsRegisterDone};

use ffi3_callee::set_register;
use ffi3_cif::Cif;
use ffi3_machine::{Machine, StackBase};
use ffi3_machine_transfer::own_word;
use ffi3_place::{Abi, Loc, Piece, Pieces, Place, Res};
use ffi3_types::CheckedType;

/// Which byte of another place byte `k` of a place is, if it is one.
fn byte_number(at: Loc, k: u64, other: Loc) -> Option<u64>
    requires { k < 8 }
    ensures { result ≡ byte_number at k other }
{
    match at {
        Loc::G(a) => match other {
            Loc::G(b) => if a == b { Some(k) } else { None },
            Loc::F(_) => None,
            Loc::S(_, _) => None,
        },
        Loc::F(a) => match other {
            Loc::G(_) => None,
            Loc::F(b) => if a == b { Some(k) } else { None },
            Loc::S(_, _) => None,
        },
        Loc::S(a, _) => match other {
            Loc::G(_) => None,
            Loc::F(_) => None,
            Loc::S(b, _) => (a as u64 + k).checked_sub(b as u64),
        },
    }
}

/// Whether a leaf has the byte at an offset.
fn is_leaf_byte(ty: &CheckedType<'_>, offset: u64) -> bool
    ensures { result ≡ is_leaf_byte ty.now offset }
{
    // its contract tells that the type has a layout, and so a small size
    let _type = ty.as_type();
    for i in 0..ty.leaf_count() {
        let leaf = ty.leaf(i);
        if leaf.at <= offset && offset < leaf.at + leaf.kind.value_size() {
            return true;
        }
    }
    false
}

/// Whether byte `k` of a place is a leaf's, by way of the piece.
fn piece_has(at: Loc, k: u64, piece: &Piece, ty: &CheckedType<'_>) -> bool
    requires { k < 8 }
    ensures { result ≡ piece_has ty.now at k piece.now }
{
    match byte_number(at, k, piece.loc) {
        Some(j) => j < piece.len as u64 && is_leaf_byte(ty, piece.off as u64 + j),
        None => false,
    }
}

/// Whether it is of an address.
fn address_has(at: Loc, k: u64, address: Loc) -> bool
    requires { k < 8 }
    ensures { result ≡ address_has at k address }
{
    match byte_number(at, k, address) {
        Some(j) => j < 8,
        None => false,
    }
}

/// Whether it is a leaf's of a copy.
fn copy_has(at: Loc, k: u64, copy: u32, ty: &CheckedType<'_>) -> bool
    requires { k < 8 }
    ensures { result ≡ copy_has ty.now at k copy }
{
    match byte_number(at, k, Loc::S(copy, 8)) {
        Some(j) => is_leaf_byte(ty, j),
        None => false,
    }
}

/// Whether it is a leaf's, by way of one of the pieces.
fn pieces_have(at: Loc, k: u64, pieces: &Pieces, ty: &CheckedType<'_>) -> bool
    requires { k < 8 }
    ensures { result ≡ list_any (piece_has ty.now at k) pieces.now }
{
    for i in 0..pieces.len() {
        if piece_has(at, k, pieces.get(i), ty) {
            return true;
        }
    }
    false
}

/// Whether it carries something of the argument.
fn place_has(at: Loc, k: u64, place: &Place, ty: &CheckedType<'_>) -> bool
    requires { k < 8 }
    ensures { result ≡ place_has ty.now at k place.now }
{
    match place {
        Place::Direct(pieces) => pieces_have(at, k, pieces, ty),
        Place::ByRef { at: address, copy } => address_has(at, k, *address)
            || copy_has(at, k, *copy, ty),
    }
}

/// Whether it is of a hidden result's address.
fn hidden_has(at: Loc, k: u64, res: &Res) -> bool
    requires { k < 8 }
    ensures { result ≡ hidden_has at k res.now }
{
    match res {
        Res::Hidden { at: address, .. } => address_has(at, k, *address),
        Res::Nothing => false,
        Res::Direct(_) => false,
    }
}

/// Whether byte `k` of a place carries something.
fn carries<A: Abi>(cif: &Cif<A>, at: Loc, k: u64) -> bool
    requires { k < 8 }
    ensures { result ≡ carries A.standard cif.now at k }
{
    if hidden_has(at, k, cif.result_place()) {
        return true;
    }
    let sig = cif.checked_sig();
    for i in 0..sig.count() {
        let ty = sig.arg(i);
        if place_has(at, k, cif.place(i), &ty) {
            return true;
        }
    }
    false
}

/// The word of a register, each byte overwritten that carries nothing.
fn poisoned<A: Abi>(cif: &Cif<A>, at: Loc, word: u64, byte: u8) -> u64
    ensures bytes { (k : ℕ) → k < 8 → get_or (to_le_bytes w64 result) k 0 ≡ (if carries A.standard cif.now at k then get_or (to_le_bytes w64 word) k 0 else byte) }
    ensures whole { ((k : ℕ) → k < 8 → carries A.standard cif.now at k ≡ true) → result ≡ word }
{
    let mut bytes = word.to_le_bytes();
    for k in 0..8usize {
        if !carries(cif, at, k as u64) {
            bytes[k] = byte;
        }
    }
    u64::from_le_bytes(bytes)
}

/// Overwrites what carries nothing of an argument register.
fn poison_register<A: Abi>(machine: &mut Machine, cif: &Cif<A>, base: StackBase, at: Loc, byte: u8)
    requires register { IsPlace 0 at }
    requires writable { IsWritable machine.old.target at }
    requires passing { is_argument_register A.standard at ≡ true }
    ensures { IsRegisterDone A.standard cif.now base byte at machine.old machine.new }
{
    let word = poisoned(cif, at, own_word(machine, base, at), byte);
    set_register(machine, at, word);
}

/// Overwrites what carries nothing of each argument register.
fn poison_registers<A: Abi>(machine: &mut Machine, cif: &Cif<A>, base: StackBase, byte: u8)
    requires { machine.old.target ≡ A.TARGET }
    ensures { AreRegistersDone A.standard cif.now base byte (length A.standard.argument_registers) machine.old machine.new }
{
    for k in 0..A::ARGUMENT_REGISTERS {
        let at = A::argument_register(k);
        poison_register(machine, cif, base, at, byte);
    }
}

/// Overwrites what carries nothing of the frame.
fn poison_frame<A: Abi>(machine: &mut Machine, cif: &Cif<A>, base: StackBase, byte: u8)
    requires { base + frame_of A.standard cif.now ≤ STACK_TOP }
    ensures { IsFrameDone A.standard cif.now base byte (frame_of A.standard cif.now) machine.old machine.new }
{
    machine.facts();
    let start = base.address();
    for n in 0..cif.frame() {
        if !carries(cif, Loc::S(n as u32, 1), 0) {
            machine.fill_stack(start + n, 1, byte);
        }
    }
}

/// At an entry: writes a byte over all that a callee must not look at, each byte of the argument registers and of the
/// frame that is no leaf's and no address's. The image still owns the values, so a callee takes the same from it.
pub fn poison<A: Abi>(machine: &mut Machine, cif: &Cif<A>, byte: u8)
    requires entry { machine.old.pc ≡ ENTRY }
    requires target { machine.old.target ≡ A.TARGET }
    requires low { STACK ≤ machine.old.sp }
    requires frame { machine.old.sp + A.standard.link + frame_of A.standard cif.now ≤ STACK_TOP }
    requires some { (vs : List ValueTree) × OwnsAtEntry A.standard cif.now machine.old vs }
    ensures poisoned { IsPoisoned A.standard cif.now (machine.old.sp + A.standard.link) byte machine.old machine.new }
    ensures own { (vs : List ValueTree) → OwnsAtEntry A.standard cif.now machine.old vs → OwnsAtEntry A.standard cif.now machine.new vs }
    ensures return_address { HasReturnAddress machine.old → HasReturnAddress machine.new }
{
    // its contract tells what is true of every interface
    let _sig = cif.sig();
    let base = StackBase::at(machine.sp() + A::LINK);
    poison_registers(machine, cif, base, byte);
    poison_frame(machine, cif, base, byte);
}
