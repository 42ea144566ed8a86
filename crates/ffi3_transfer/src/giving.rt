//! The result that a callee gives.
ghost use Rattle.std.specs.Prelude.{◌≡◌, ℕ, ◌+◌, ◌<◌, ◌≤◌, ◌⊎◌, ◌^◌, length, get_or, IfErr, OnErr, OnOk};
ghost use Rattle.std.specs.List.{AllByRecursion};
ghost use Rattle.ffi3_type_spec.specs.Value.{part};
ghost use Rattle.ffi3_place_spec.specs.MachineRegisters.{to_list};
ghost use Rattle.ffi3_place_spec.specs.Holds.{RegisterHolds};
ghost use Rattle.ffi3_place_spec.specs.Sound.{hidden_locs};
ghost use Rattle.ffi3_marshal.specs.Stored.{Stays};
ghost use Rattle.ffi3_explain_spec.specs.Arguments.{offset_in, stack_end};
ghost use Rattle.ffi3_transfer.specs.Stored.{image_in};
ghost use Rattle.ffi3_transfer.specs.Places.{IsPlace};
ghost use Rattle.ffi3_transfer.specs.Calls.{IsGiven, IsNotGiven};

use crate::putting::put_word;
use crate::reading::place_word;
use crate::storing::store_pieces;
use crate::{Registers, Ungiven};
use ffi3_cif::Placed;
use ffi3_place::{Abi, Loc, Res};

/// Where in the stack's bytes so many bytes from an address on begin, where all of them are there.
pub fn offset_in(registers: &Registers, stack: &[u8], address: u64, size: u64) -> Option<usize>
    ensures { result ≡ offset_in (image_in registers.now stack.now) address size }
{
    let len = stack.len() as u64;
    if address < registers.sp {
        return None;
    }
    let offset = address - registers.sp;
    if len < offset {
        return None;
    }
    if len - offset < size {
        return None;
    }
    Some(offset as usize)
}

/// Where the place of a hidden result's address ends on the stack, and 0 where it is a register.
fn hidden_end(res: &Res) -> u64
    ensures value { result ≡ stack_end (hidden_locs res.now) }
    ensures small { result < 2 ^ 33 }
{
    match res {
        Res::Hidden { at, .. } => match at {
            Loc::S(n, len) => *n as u64 + *len as u64,
            Loc::G(_) | Loc::F(_) => 0,
        },
        Res::Nothing | Res::Direct(_) => 0,
    }
}

/// Writes bytes into the stack.
fn write_at(stack: &mut [u8], from: usize, bytes: &[u8])
    requires { from + length bytes.now ≤ length stack.old }
    ensures there { part stack.new from (length bytes.now) ≡ bytes.now }
    ensures size { length stack.new ≡ length stack.old }
    ensures beside { (i : ℕ) → (i < from) ⊎ (from + length bytes.now ≤ i) → get_or stack.new i 0 ≡ get_or stack.old i 0 }
{
    stack[from..from + bytes.len()].copy_from_slice(bytes);
}

/// Tells the buffer's address in the standard's register for it, if it has one.
fn tell_address(
    registers: &mut Registers,
    stack: &mut [u8],
    base: u64,
    returned: Option<Loc>,
    address: u64,
)
    requires { AllByRecursion (IsPlace 0) (to_list returned) }
    ensures told { RegisterHolds (image_in registers.new stack.new) returned address }
    ensures stays { Stays base (to_list returned) (image_in registers.old stack.old) (image_in registers.new stack.new) }
    ensures stack { stack.new ≡ stack.old }
{
    match returned {
        Some(at) => put_word(registers, stack, base, at, address),
        None => {}
    }
}

/// Gives the result of a call that was entered with these registers and this stack, which is the memory from
/// `registers.sp` on: in registers, or in the buffer whose address the entry has.
pub fn give<A: Abi>(
    placed: &Placed<A>,
    value: &[u8],
    registers: &mut Registers,
    stack: &mut [u8],
) -> Result<(), Ungiven>
    ensures ok { OnOk result (IsGiven A.standard placed.now value.now (image_in registers.old stack.old) (image_in registers.new stack.new)) }
    ensures err { IfErr result (λ f. IsNotGiven A.standard placed.now value.now (image_in registers.old stack.old) f) }
    ensures registers { OnErr result (registers.new ≡ registers.old) }
    ensures stack { OnErr result (stack.new ≡ stack.old) }
{
    // its contract tells what is true of every interface
    let _sig = placed.sig();
    let sig = placed.placed_sig();
    let ty = sig.ret();
    let wanted = ty.size();
    if value.len() as u64 != wanted {
        return Err(Ungiven::WrongSize(wanted as usize));
    }
    let base = A::LINK;
    let least = base + hidden_end(placed.result_place());
    if (stack.len() as u64) < least {
        return Err(Ungiven::ShortStack(least as usize));
    }
    if u64::MAX - registers.sp < stack.len() as u64 {
        return Err(Ungiven::HighStack);
    }
    match placed.result_place() {
        Res::Nothing => {}
        Res::Direct(pieces) => store_pieces(registers, stack, base, pieces, &ty, value),
        Res::Hidden { at, .. } => {
            let address = place_word(registers, stack, base, *at);
            match offset_in(registers, stack, address, wanted) {
                Some(from) => {
                    write_at(stack, from, value);
                    tell_address(registers, stack, base, A::returned_address(), address);
                }
                None => return Err(Ungiven::NotInStack(address)),
            }
        }
    }
    Ok(())
}
