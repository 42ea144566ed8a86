//! The result that a callee gives.
ghost use Rattle.std.specs.Prelude.{◌≡◌, ℕ, ◌+◌, ◌-◌, ◌≤◌, Option, length, true};
ghost use Rattle.std.specs.List.{AllByRecursion};
ghost use Rattle.ffi3_type_spec.specs.Layout.{size_of};
ghost use Rattle.ffi3_type_spec.specs.Value.{fits, value_in};
ghost use Rattle.ffi3_values.specs.ValueOf.{value_of};
ghost use Rattle.ffi3_place_spec.specs.declared.Loc.{Loc};
ghost use Rattle.ffi3_place_spec.specs.Standard.{frame_of, plan_of};
ghost use Rattle.ffi3_place_spec.specs.Holds.{HoldsResult};
ghost use Rattle.ffi3_place_spec.specs.Sound.{result_locs};
ghost use Rattle.ffi3_place_spec.specs.MachineRegisters.{to_list};
ghost use Rattle.ffi3_type_spec.specs.declared.limits.TheConstants.{STACK, STACK_TOP};
ghost use Rattle.ffi3_machine_spec.specs.State.{State, stack_at};
ghost use Rattle.ffi3_machine_transfer.specs.Passing.{passing};
ghost use Rattle.ffi3_machine_transfer.specs.Stored.{IsWritable, KeepsPadding, WroteOnly, WroteWithin};
ghost use Rattle.ffi3_callee.specs.Loaded.{image_from};
ghost use Rattle.ffi3_callee.specs.Given.{IsSettable, RegisterHoldsWord, IsAddressOf, RegistersStay, ReservedStay, ResultKeepsUnused, ResultWrites, result_uses};
ghost use Rattle.ffi3_callee.specs.Received.{IsIncoming};
ghost use Rattle.ffi3_callee.specs.Saved.{AreSaved};

use crate::Incoming;
use ffi3_cif::Cif;
use ffi3_machine::{Machine, STACK_TOP, StackBase};
use ffi3_machine_transfer::{SMALL, put_word, store_pieces};
use ffi3_place::{Abi, Loc, Res};
use ffi3_type_spec::limits::LARGEST_TYPE;
use ffi3_types::CheckedType;
use ffi3_values::{Value, write_bytes};

/// Stores a result in the caller's buffer, by way of `bytes`, which are as many as it has. The buffer's padding keeps
/// what stood there.
fn give_buffer_by(
    machine: &mut Machine,
    address: u64,
    ty: &CheckedType<'_>,
    value: &Value,
    bytes: &mut [u8],
)
    requires low { STACK ≤ address }
    requires high { address + size_of ty.now ≤ STACK_TOP }
    requires fits { fits ty.now (value_of value.now) ≡ true }
    requires sized { length bytes.old ≡ size_of ty.now }
    ensures reads { value_in ty.now (stack_at address (size_of ty.now) (passing machine.new)) ≡ value_of value.now }
    ensures unused { KeepsPadding address ty.now (passing machine.old) (passing machine.new) }
    ensures only { WroteOnly address (address + size_of ty.now) (passing machine.old) (passing machine.new) }
{
    machine.facts();
    let size = ty.size();
    bytes.copy_from_slice(machine.lend_stack(address, size));
    write_bytes(ty.as_type(), value, bytes);
    machine.store_stack(address, bytes);
}

/// Stores a result in the caller's buffer, whose padding keeps what stood there.
fn give_buffer(machine: &mut Machine, address: u64, ty: &CheckedType<'_>, value: &Value)
    requires low { STACK ≤ address }
    requires high { address + size_of ty.now ≤ STACK_TOP }
    requires fits { fits ty.now (value_of value.now) ≡ true }
    ensures reads { value_in ty.now (stack_at address (size_of ty.now) (passing machine.new)) ≡ value_of value.now }
    ensures unused { KeepsPadding address ty.now (passing machine.old) (passing machine.new) }
    ensures only { WroteOnly address (address + size_of ty.now) (passing machine.old) (passing machine.new) }
{
    let size = ty.size() as usize;
    if size <= SMALL {
        let mut room = [0; SMALL];
        give_buffer_by(machine, address, ty, value, &mut room[..size]);
    } else {
        let mut room = [0; LARGEST_TYPE as usize];
        give_buffer_by(machine, address, ty, value, &mut room[..size]);
    }
}

/// Tells the buffer's address in the standard's register for it, if it has one.
fn tell_address(machine: &mut Machine, returned: Option<Loc>, address: u64)
    requires register { IsSettable machine.old.target returned }
    ensures told { RegisterHoldsWord (passing machine.new) returned address }
    ensures registers { RegistersStay (to_list returned) (passing machine.old) (passing machine.new) }
    ensures within { WroteWithin STACK_TOP STACK_TOP (passing machine.old) (passing machine.new) }
    ensures sp { machine.new.sp ≡ machine.old.sp }
{
    machine.facts();
    if let Some(at) = returned {
        put_word(machine, StackBase::at(STACK_TOP), at, address);
    }
}

/// Gives a result: in registers, extended as the standard says, or in the caller's buffer at
/// `address`, which the standard's register for it then tells. `base` is the address of the first
/// stack argument.
fn give<A: Abi>(
    machine: &mut Machine,
    cif: &Cif<A>,
    base: StackBase,
    address: u64,
    returned: Option<Loc>,
    value: &Value,
)
    requires high { base + frame_of A.standard cif.now ≤ STACK_TOP }
    requires address { IsAddressOf base address (plan_of A.standard cif.now).res }
    requires returned { returned ≡ A.standard.returned_address }
    requires returned_settable { IsSettable machine.old.target returned }
    requires result_writable { AllByRecursion (IsWritable machine.old.target) (result_locs (plan_of A.standard cif.now).res) }
    requires fits { fits cif.now.result_type (value_of value.now) ≡ true }
    ensures holds { HoldsResult A.standard cif.now (value_of value.now) (image_from base (frame_of A.standard cif.now) (passing machine.new)) }
    ensures unused { ResultKeepsUnused base cif.now.result_type (plan_of A.standard cif.now).res (passing machine.old) (passing machine.new) }
    ensures registers { RegistersStay (result_uses A.standard (plan_of A.standard cif.now).res) (passing machine.old) (passing machine.new) }
    ensures writes { ResultWrites base cif.now.result_type (plan_of A.standard cif.now).res (passing machine.old) (passing machine.new) }
    ensures sp { machine.new.sp ≡ machine.old.sp }
{
    machine.facts();
    // its contract tells where the base lies
    let _at = base.address();
    let sig = cif.checked_sig();
    let ty = sig.ret();
    match cif.result_place() {
        Res::Nothing => {}
        Res::Direct(pieces) => store_pieces(machine, base, pieces, &ty, value),
        Res::Hidden { .. } => {
            give_buffer(machine, address, &ty, value);
            tell_address(machine, returned, address);
        }
    }
}

/// Gives a result: in registers, extended as the standard says, or in the caller's buffer, whose
/// address the standard's register for it then tells. What no leaf of it has keeps what stood there.
pub fn give_result<A: Abi>(machine: &mut Machine, cif: &Cif<A>, incoming: &Incoming, value: &Value)
    requires target { machine.old.target ≡ A.TARGET }
    requires incoming { IsIncoming A.standard cif.now incoming.now }
    requires fits { fits cif.now.result_type (value_of value.now) ≡ true }
    ensures holds { HoldsResult A.standard cif.now (value_of value.now) (image_from (incoming.now.entry + A.standard.link) (frame_of A.standard cif.now) (passing machine.new)) }
    ensures unused { ResultKeepsUnused (incoming.now.entry + A.standard.link) cif.now.result_type (plan_of A.standard cif.now).res (passing machine.old) (passing machine.new) }
    ensures registers { RegistersStay (result_uses A.standard (plan_of A.standard cif.now).res) (passing machine.old) (passing machine.new) }
    ensures reserved { ReservedStay A.standard machine.old machine.new }
    ensures saved { (base : ℕ) (hidden : Option Loc) (entry : State) → AreSaved (incoming.now.entry - A.standard.save) base hidden A.standard.save_area entry machine.old → AreSaved (incoming.now.entry - A.standard.save) base hidden A.standard.save_area entry machine.new }
    ensures writes { ResultWrites (incoming.now.entry + A.standard.link) cif.now.result_type (plan_of A.standard cif.now).res (passing machine.old) (passing machine.new) }
    ensures sp { machine.new.sp ≡ machine.old.sp }
{
    // its contract tells what is true of every interface
    let _sig = cif.sig();
    machine.facts();
    let base = StackBase::at(incoming.entry() + A::LINK);
    let address = incoming.address();
    let returned = A::returned_address();
    give(machine, cif, base, address, returned, value);
    machine.facts();
}
