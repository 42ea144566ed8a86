//! A call from outside, up to the closure's entry.
ghost use Rattle.std.specs.Prelude.{◌≡◌, ◌+◌, ◌≤◌, ◌∷◌, [], IsSome, true};
ghost use Rattle.ffi3_type_spec.specs.declared.limits.TheConstants.{STACK, STACK_TOP};
ghost use Rattle.ffi3_type_spec.specs.Signature.{SignatureHasNoFault, signature_at};
ghost use Rattle.ffi3_type_spec.specs.Tree.{trees_of};
ghost use Rattle.ffi3_type_spec.specs.Value.{all_fit, values_of};
ghost use Rattle.ffi3_values.specs.ValueOf.{value_of};
ghost use Rattle.ffi3_place_spec.specs.Standard.{frame_of, need_of};
ghost use Rattle.ffi3_semantics_spec.specs.Closures.{closure_at};
ghost use Rattle.ffi3_machine_spec.specs.State.{IsSlot};
ghost use Rattle.ffi3_machine_spec.specs.Slots.{HoldsMap};
ghost use Rattle.ffi3_invoke.specs.Calls.{entered_closure};
ghost use Rattle.ffi3_run_state.specs.Served.{ShowsCall};
ghost use Rattle.ffi3_runner_tests.specs.Shown.{IsOverwritten, IsShown};

use ffi3_caller::room_for;
use ffi3_cif::Cif;
use ffi3_invoke::pass_arguments;
use ffi3_machine::Machine;
use ffi3_place::Abi;
use ffi3_poison::poison;
use ffi3_runner::{Cifs, Table};
use ffi3_types::Sig;
use ffi3_values::{Value, Values, fits};
use std::alloc::Global;
use std::process::Abort;

/// Stores the values, calls the closure at `ptr`, runs its trampoline, and writes the byte over all that a callee must
/// not look at.
pub fn show_call<A: Abi>(
    machine: &mut Machine,
    table: &Table,
    cif: &Cif<A>,
    values: &Values,
    ptr: u64,
    byte: u8,
)
    requires target { machine.old.target ≡ A.TARGET }
    requires fit { all_fit (trees_of cif.now.arguments) (values_of values.now) ≡ true }
    requires room { STACK + need_of A.standard cif.now ≤ machine.old.sp }
    requires top { machine.old.sp ≤ STACK_TOP }
    requires holds { HoldsMap machine.old.target table.now machine.old.code }
    requires slot { IsSlot ptr }
    requires live { IsSome (closure_at table.now ptr) }
    requires events { 2 ≤ machine.old.spare_events }
    requires bytes { A.standard.link + frame_of A.standard cif.now + frame_of A.standard cif.now ≤ machine.old.spare_bytes }
    ensures shows { ShowsCall A.standard cif.now values.now machine.new }
    ensures closure { entered_closure machine.new ≡ ptr }
    ensures overwritten { IsOverwritten A.standard cif.now byte machine.new }
    ensures target { machine.new.target ≡ machine.old.target }
    ensures code { machine.new.code ≡ machine.old.code }
{
    machine.facts();
    pass_arguments(machine, table, cif, values, ptr);
    poison(machine, cif, byte);
}

/// Whether the signature has one argument, which the value fits.
pub fn takes(sig: &Sig, value: &Value) -> bool
    requires { SignatureHasNoFault sig.now }
    ensures { result ≡ all_fit (trees_of sig.now.arguments) (values_of (value_of value.now ∷ [])) }
{
    let alone = sig.count() == 1;
    alone && fits(value, sig.arg(0))
}

/// Shows the machine a call with one value of the live closure at `ptr`, with the byte over all that its callee must
/// not look at, and says by which signature. A closure is to be live there, its signature is to take the value alone,
/// and the stack is to have room.
pub fn show_at<A: Abi>(
    rt: &impl Abort,
    alloc: Global,
    machine: &mut Machine,
    table: &Table,
    cifs: &Cifs<A>,
    value: Value,
    ptr: u64,
    byte: u8,
) -> u32
    requires target { machine.old.target ≡ A.TARGET }
    requires bottom { STACK ≤ machine.old.sp }
    requires top { machine.old.sp ≤ STACK_TOP }
    requires holds { HoldsMap machine.old.target table.now machine.old.code }
    ensures shown { IsShown A.standard cifs.now table.now (value_of value ∷ []) result machine.new }
    ensures overwritten { IsOverwritten A.standard (signature_at cifs.now result) byte machine.new }
    ensures holds { HoldsMap machine.new.target table.now machine.new.code }
{
    let Some(closure) = table.find(ptr) else {
        panic!(rt; "no closure");
    };
    assert!(rt; closure.sig < cifs.len());
    let cif = cifs.get(closure.sig);
    assert!(rt; takes(cif.sig(), &value));
    let Ok(()) = room_for(machine, cif) else {
        panic!(rt; "no room");
    };
    let mut values = Values::new(alloc);
    let Ok(()) = values.push(value) else {
        panic!(rt; "no memory");
    };
    let Ok(()) = machine.journal_room(A::LINK + cif.frame()) else {
        panic!(rt; "no memory");
    };
    show_call(machine, table, cif, &values, ptr, byte);
    closure.sig
}
