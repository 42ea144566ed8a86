//! A call that is served, and its result's text.
ghost use Rattle.std.specs.Prelude.{◌≡◌, ◌+◌, ◌<◌, ◌≤◌, ◌^◌, IfOk, length};
ghost use Rattle.ffi3_type_spec.specs.declared.limits.TheConstants.{STACK, STACK_TOP};
ghost use Rattle.ffi3_type_spec.specs.Value.{ValueTree};
ghost use Rattle.ffi3_type_spec.specs.ValueText.{value_text_of};
ghost use Rattle.ffi3_place_spec.specs.Holds.{OwnResult};
ghost use Rattle.ffi3_place_spec.specs.Standard.{frame_of};
ghost use Rattle.ffi3_machine_spec.specs.State.{image_of};
ghost use Rattle.ffi3_script.specs.ScriptOf.{natives_of};
ghost use Rattle.ffi3_script_spec.specs.Handed.{handed, signatures_in};

use crate::showing::show_at;
use ffi3_body::Native;
use ffi3_caller::{come_back, drop_frame, load_result};
use ffi3_cif::Cif;
use ffi3_io::MemSink;
use ffi3_machine::{Machine, RETURN};
use ffi3_place::Abi;
use ffi3_runner::{RunEnd, Runner};
use ffi3_script::Script;
use ffi3_type_spec::limits::LARGEST_TYPE;
use ffi3_types::{Bytes, NoMemory};
use ffi3_values::{Value, value_from_bytes, value_text};
use std::alloc::Global;
use std::process::Abort;

/// Comes back from a return, where pc is to be RETURN, takes the result, ends the call's frame, and gives the result's
/// text.
pub fn take_text<A: Abi>(
    rt: &impl Abort,
    alloc: Global,
    machine: &mut Machine,
    cif: &Cif<A>,
) -> Result<Bytes, NoMemory>
    requires target { machine.old.target ≡ A.TARGET }
    requires bottom { STACK ≤ machine.old.sp }
    requires frame { machine.old.sp + frame_of A.standard cif.now ≤ STACK_TOP }
    ensures { IfOk result (λ text. (v : ValueTree) → OwnResult A.standard cif.now v (image_of (frame_of A.standard cif.now) machine.old) →
        text ≡ value_text_of cif.now.result_type v) }
{
    assert!(rt; machine.pc() == RETURN);
    let ty = cif.checked_sig().ret();
    let mut room = [0; LARGEST_TYPE as usize];
    let out = &mut room[..ty.size() as usize];
    come_back(machine, cif);
    load_result(machine, cif, out);
    drop_frame(machine, cif);
    let plain = ty.as_type();
    let value = value_from_bytes(alloc, plain, out)?;
    value_text(alloc, plain, &value)
}

/// What a call that was served came to.
#[derive(Drop)]
pub struct ServedOutcome {
    pub text: Bytes,
    pub moves_left: u32,
}

/// Runs the script beside the natives, and serves a call with the value of the closure at `ptr`, with the byte over all
/// that its callee must not look at. Both are to return to RETURN.
pub fn call_after_main<A: Abi>(
    rt: &impl Abort,
    alloc: Global,
    natives: &Vec<Box<dyn Native>>,
    script: &Script,
    value: Value,
    ptr: u64,
    byte: u8,
) -> Result<ServedOutcome, NoMemory>
    requires beside { natives_of script.now ≤ length natives.now.items }
    requires few_natives { length natives.now.items < 2 ^ 31 }
    requires few_signatures { length (signatures_in (handed title meaning signatures natives.now.items)) < 2 ^ 31 }
{
    let mut runner = Runner::<A>::new(alloc, script, natives)?;
    let mut machine = Machine::new(alloc).expect(rt, "memory");
    machine.begin(A::TARGET);
    let mut output = MemSink::new(alloc, 1_024, Vec::new(alloc)).expect(rt, "memory");
    assert!(rt; runner.run_main(&mut machine, &mut output, false) == RunEnd::Done);
    let sig = show_at(
        rt,
        alloc,
        &mut machine,
        runner.table(),
        runner.cifs(),
        value,
        ptr,
        byte,
    );
    assert!(rt; runner.serve(&mut machine, &mut output, false) == RunEnd::Done);
    assert!(rt; machine.target() == A::TARGET);
    let text = take_text(rt, alloc, &mut machine, runner.cifs().get(sig)).expect(rt, "memory");
    Ok(ServedOutcome {
        text,
        moves_left: runner.moves_left(),
    })
}
