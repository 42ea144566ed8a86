//! The caller's side of a call, by any calling standard: whether the stack has room for it, its
//! arguments, its result, and the end of its frame.
#![tactic(auto)]

ghost use Rattle.std.specs.Prelude.{◌≡◌, ◌+◌, ◌-◌, ◌<◌, ◌≤◌, IfErr, IfOk, length};
ghost use Rattle.std.specs.List.{AllByRecursion};
ghost use Rattle.ffi3_type_spec.specs.Layout.{size_of};
ghost use Rattle.ffi3_type_spec.specs.Value.{ValueTree, value_in};
ghost use Rattle.ffi3_place_spec.specs.Holds.{OwnResult};
ghost use Rattle.ffi3_place_spec.specs.Sound.{IsWithin};
ghost use Rattle.ffi3_place_spec.specs.Standard.{need_of, frame_of};
ghost use Rattle.ffi3_type_spec.specs.declared.limits.TheConstants.{STACK, STACK_TOP};
ghost use Rattle.ffi3_machine_spec.specs.State.{image_of};
ghost use Rattle.ffi3_machine_transfer.specs.Passing.{by_exchange, passing};
ghost use Rattle.ffi3_machine_transfer.specs.Stored.{IsPlace};
ghost use Rattle.ffi3_caller.specs.Called.{at_frame, dropped_if, frame_start};
ghost use Rattle.ffi3_caller.specs.Loaded.{AreWithin, loaded, with_piece};

mod arguments;
mod return_path;
mod slot_call;

pub use arguments::store_args;
use ffi3_cif::Cif;
use ffi3_machine::{Machine, STACK};
use ffi3_machine_transfer::{by_exchange, passed_floating, passed_general};
use ffi3_place::{Abi, Loc, Piece, Pieces, Res};
pub use return_path::come_back;
pub use slot_call::call;
use thiserror::Error;

/// A call takes more bytes of stack than are left.
#[derive(Clone, Copy, Debug, PartialEq, Eq, Error)]
#[error("stack full: need {need}, left {left}")]
pub struct StackFull {
    /// The bytes that the call takes, with its callee's save area and block.
    pub need: u64,
    /// The bytes below the stack pointer.
    pub left: u64,
}

/// Whether the stack has room for a call, the callee's save area and block included. The stack pointer is an address of
/// the stack, or its top.
pub fn room_for<A: Abi>(machine: &Machine, cif: &Cif<A>) -> Result<(), StackFull>
    requires bottom { STACK ≤ machine.now.sp }
    requires top { machine.now.sp ≤ STACK_TOP }
    ensures ok { IfOk result (λ r. STACK + need_of A.standard cif.now ≤ machine.now.sp) }
    ensures full { IfErr result (λ f. machine.now.sp < STACK + need_of A.standard cif.now) }
    ensures numbers { IfErr result
        (λ f. f ≡ record { need = need_of A.standard cif.now; left = machine.now.sp - STACK }) }
{
    let need = cif.need();
    let left = machine.sp() - STACK;
    if need > left {
        return Err(StackFull { need, left });
    }
    Ok(())
}

/// The bytes of the result, once the call has come back. Bytes of padding may be any.
pub fn load_result<A: Abi>(machine: &Machine, cif: &Cif<A>, out: &mut [u8])
    requires bottom { STACK ≤ frame_start (frame_of A.standard cif.now) machine.now }
    requires frame { frame_start (frame_of A.standard cif.now) machine.now + frame_of A.standard cif.now ≤ STACK_TOP }
    requires sized { length out.old ≡ size_of cif.now.result_type }
    ensures sized { length out.new ≡ length out.old }
    ensures value { (v : ValueTree) → OwnResult A.standard cif.now v (image_of (frame_of A.standard cif.now) (at_frame (frame_of A.standard cif.now) machine.now)) →
        value_in cif.now.result_type out.new ≡ v }
{
    // its contract tells what is true of every interface
    let _sig = cif.sig();
    let base = frame_start(machine, cif);
    match cif.result_place() {
        Res::Nothing => {}
        Res::Direct(pieces) => load_pieces(machine, pieces, out),
        Res::Hidden { buffer, .. } => {
            let start = base + *buffer as u64;
            out.copy_from_slice(machine.lend_stack(start, out.len() as u64));
        }
    }
}

/// Where the frame of a call begins, once it has come back: at sp, or below it, where sp has been raised over the
/// frame.
fn frame_start<A: Abi>(machine: &Machine, cif: &Cif<A>) -> u64
    requires { STACK ≤ frame_start (frame_of A.standard cif.now) machine.now }
    ensures { result ≡ frame_start (frame_of A.standard cif.now) machine.now }
{
    let sp = machine.sp();
    let exchanged = by_exchange(machine.target());
    if exchanged { sp - cif.frame() } else { sp }
}

/// The bytes of pieces in registers.
fn load_pieces(machine: &Machine, pieces: &Pieces, out: &mut [u8])
    requires within { AreWithin (length out.old) pieces.now }
    requires registers { AllByRecursion (λ p. IsPlace 0 p.loc) pieces.now }
    ensures sized { length out.new ≡ length out.old }
    ensures loaded { out.new ≡ loaded (passing machine.now) pieces.now out.old }
{
    for i in 0..pieces.len() {
        load_piece(machine, pieces.get(i), out);
    }
}

/// The bytes of one piece in a register.
fn load_piece(machine: &Machine, piece: &Piece, out: &mut [u8])
    requires within { IsWithin (length out.old) piece.now }
    requires register { IsPlace 0 piece.now.loc }
    ensures sized { length out.new ≡ length out.old }
    ensures loaded { out.new ≡ with_piece (passing machine.now) piece.now out.old }
{
    let word = match piece.loc {
        Loc::G(k) => passed_general(machine, k),
        Loc::F(k) => passed_floating(machine, k),
        Loc::S(_, _) => unreachable!(),
    };
    let start = piece.off as usize;
    let end = start + piece.len as usize;
    out[start..end].copy_from_slice(&word.to_le_bytes()[..piece.len as usize]);
}

/// Ends the frame of a call that has come back: the stack pointer is where it stood before the call. The stub Return
/// has moved it there, where calls go by stubs.
pub fn drop_frame<A: Abi>(machine: &mut Machine, cif: &Cif<A>)
    requires frame { frame_start (frame_of A.standard cif.now) machine.old + frame_of A.standard cif.now ≤ STACK_TOP }
    ensures { machine.new ≡ dropped_if (by_exchange machine.old.target) (frame_of A.standard cif.now) machine.old }
{
    let exchanged = by_exchange(machine.target());
    if !exchanged {
        machine.set_sp(machine.sp() + cif.frame());
    }
}
