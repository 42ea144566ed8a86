//! The result of a call, as its caller finds it.
ghost use Rattle.std.specs.Prelude.{◌≡◌, IfErr, OnErr, OnOk};
ghost use Rattle.ffi3_transfer.specs.Stored.{image_in};
ghost use Rattle.ffi3_transfer.specs.Calls.{IsLoaded, IsNotLoaded};

use crate::reading::read_pieces;
use crate::{Registers, Unstored};
use ffi3_cif::Placed;
use ffi3_place::{Abi, Res};

/// Loads the result of a call that has returned, as registers and memory are then: `stack` is the memory from
/// `registers.sp` on, where the frame starts. A hidden result is read from the frame's buffer, whose address `store`
/// passes: a caller that passed another has it there.
pub fn load<A: Abi>(
    placed: &Placed<A>,
    registers: &Registers,
    stack: &[u8],
    out: &mut [u8],
) -> Result<(), Unstored>
    ensures ok { OnOk result (IsLoaded A.standard placed.now (image_in registers.now stack.now) out.new) }
    ensures err { IfErr result (λ f. IsNotLoaded A.standard placed.now (image_in registers.now stack.now) out.old f) }
    ensures out { OnErr result (out.new ≡ out.old) }
{
    // its contract tells what is true of every interface
    let _sig = placed.sig();
    let wanted = placed.placed_sig().ret().size() as usize;
    if out.len() != wanted {
        return Err(Unstored::WrongSize(wanted));
    }
    let frame = placed.frame() as usize;
    if stack.len() < frame {
        return Err(Unstored::ShortStack(frame));
    }
    match placed.result_place() {
        Res::Nothing => {}
        Res::Direct(pieces) => read_pieces(registers, stack, 0, pieces, out),
        Res::Hidden { buffer, .. } => {
            let from = *buffer as usize;
            out.copy_from_slice(&stack[from..from + wanted]);
        }
    }
    Ok(())
}
