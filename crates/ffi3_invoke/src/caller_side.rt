//! The caller's side of a call, up to the closure's entry.
ghost use Rattle.std.specs.Prelude.{◌≡◌, ◌+◌, ◌≤◌, IsSome, true};
ghost use Rattle.ffi3_type_spec.specs.declared.limits.TheConstants.{STACK, STACK_TOP};
ghost use Rattle.ffi3_type_spec.specs.Tree.{trees_of};
ghost use Rattle.ffi3_type_spec.specs.Value.{all_fit, values_of};
ghost use Rattle.ffi3_place_spec.specs.Standard.{frame_of};
ghost use Rattle.ffi3_semantics_spec.specs.Closures.{closure_at};
ghost use Rattle.ffi3_machine_spec.specs.State.{IsSlot};
ghost use Rattle.ffi3_machine_spec.specs.Slots.{HoldsMap};
ghost use Rattle.ffi3_invoke.specs.Calls.{HasPassed};

use ffi3_caller::{call, store_args};
use ffi3_cif::Cif;
use ffi3_closures::Table;
use ffi3_machine::Machine;
use ffi3_place::Abi;
use ffi3_values::Values;

/// Stores the arguments, calls the live closure at `ptr`, through the stub Call where calls go by stubs, and runs its
/// trampoline: the machine is at ENTRY, and holds the values as the standard says. The stack has room for the frame and
/// the return address.
pub fn pass_arguments<A: Abi>(
    machine: &mut Machine,
    table: &Table,
    cif: &Cif<A>,
    values: &Values,
    ptr: u64,
)
    requires target { machine.old.target ≡ A.TARGET }
    requires fit { all_fit (trees_of cif.now.arguments) (values_of values.now) ≡ true }
    requires room { STACK + A.standard.link + frame_of A.standard cif.now ≤ machine.old.sp }
    requires top { machine.old.sp ≤ STACK_TOP }
    requires holds { HoldsMap machine.old.target table.now machine.old.code }
    requires slot { IsSlot ptr }
    requires live { IsSome (closure_at table.now ptr) }
    ensures { HasPassed A.standard cif.now values.now ptr machine.old machine.new }
{
    // its contract tells what is true of every interface
    let _sig = cif.sig();
    machine.facts();
    store_args(machine, cif, values);
    machine.facts();
    call(machine, cif, ptr);
    machine.facts();
    table.run_trampoline(machine);
}
