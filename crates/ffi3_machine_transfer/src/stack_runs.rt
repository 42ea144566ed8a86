//! The bytes of a value that stand on the stack, stored run by run.
ghost use Rattle.std.specs.Prelude.{◌≡◌, ◌-◌, length, true};
ghost use Rattle.std.specs.List.{AllByRecursion};
ghost use Rattle.ffi3_type_spec.specs.declared.limits.TheConstants.{STACK_TOP};
ghost use Rattle.ffi3_type_spec.specs.Layout.{size_of};
ghost use Rattle.ffi3_type_spec.specs.Value.{fits};
ghost use Rattle.ffi3_values.specs.ValueOf.{value_of};
ghost use Rattle.ffi3_cif.specs.Runs.{Neighbours, Rises};
ghost use Rattle.ffi3_machine_transfer.specs.Passing.{passing};
ghost use Rattle.ffi3_machine_transfer.specs.Runs.{AreRunsStored, IsRunStored, RunLies};

use ffi3_cif::{Run, Runs};
use ffi3_machine::{Machine, StackBase};
use ffi3_types::CheckedType;
use ffi3_values::{Value, write_bytes};

/// Stores a run of a value's bytes. Padding keeps what stood there. `bytes` are as many as the value has, whatever they
/// hold.
fn store_run(
    machine: &mut Machine,
    base: StackBase,
    run: Run,
    ty: &CheckedType<'_>,
    value: &Value,
    bytes: &mut [u8],
)
    requires lies { RunLies (STACK_TOP - base) (size_of ty.now) run }
    requires fits { fits ty.now (value_of value.now) ≡ true }
    requires sized { length bytes.old ≡ size_of ty.now }
    ensures stored { IsRunStored base ty.now (value_of value.now) run (passing machine.old) (passing machine.new) }
    ensures sized { length bytes.new ≡ length bytes.old }
{
    machine.facts();
    let start = base.address() + run.at as u64;
    let from = run.off as usize;
    let to = from + run.len as usize;
    bytes[from..to].copy_from_slice(machine.lend_stack(start, run.len as u64));
    write_bytes(ty.as_type(), value, bytes);
    machine.store_stack(start, &bytes[from..to]);
}

/// Stores the runs of a value's bytes. Padding keeps what stood there. `bytes` are as many as the value has, whatever
/// they hold.
pub fn store_runs(
    machine: &mut Machine,
    base: StackBase,
    runs: &Runs,
    ty: &CheckedType<'_>,
    value: &Value,
    bytes: &mut [u8],
)
    requires lie { AllByRecursion (RunLies (STACK_TOP - base) (size_of ty.now)) runs.now }
    requires rising { Neighbours Rises runs.now }
    requires fits { fits ty.now (value_of value.now) ≡ true }
    requires sized { length bytes.old ≡ size_of ty.now }
    ensures stored { AreRunsStored base ty.now (value_of value.now) runs.now (passing machine.old) (passing machine.new) }
    ensures sized { length bytes.new ≡ length bytes.old }
{
    // its contract tells where it lies
    let _at = base.address();
    for i in (0..runs.len()).rev() {
        store_run(machine, base, runs.get(i), ty, value, bytes);
    }
}
