//! What an activation's function asks for.
ghost use Rattle.std.specs.Prelude.{◌≡◌, ◌+◌, ◌<◌, ◌≤◌, ◌^◌, IfOk, length};
ghost use Rattle.ffi3_type_spec.specs.declared.limits.TheConstants.{STACK, STACK_TOP};
ghost use Rattle.ffi3_type_spec.specs.Signature.{signature_at};
ghost use Rattle.ffi3_place_spec.specs.Standard.{Standard, block_bytes};
ghost use Rattle.ffi3_script.specs.ScriptOf.{natives_of};
ghost use Rattle.ffi3_body.specs.MoveOf.{move_of};
ghost use Rattle.ffi3_next_move.specs.Asked.{IsAsked};
ghost use Rattle.ffi3_script_spec.specs.Handed.{handed, signatures_in};
ghost use Rattle.ffi3_next_move.specs.Stands.{StandingAgrees};
ghost use Rattle.ffi3_script_body.specs.Agrees.{one_more};
ghost use Rattle.ffi3_next_move.specs.Stands as ask;
ghost use Rattle.ffi3_runner.specs.Agreeing.{seen_by_callee, seen_by_main};
ghost use Rattle.ffi3_runner.specs.Running.{program};

use ffi3_machine::Machine;
use ffi3_next_move::{Move, Native, Seen, Standing, ask};
use ffi3_place::Abi;
use ffi3_run_state::{Activation, Cifs, OpenCall};
use ffi3_script::Script;
use ffi3_types::{FfiType, Fields, NoMemory, Sig};
use std::alloc::Global;

/// The move that main asks for.
pub(crate) fn asked_by_main(
    alloc: Global,
    script: &Script,
    natives: &Vec<Box<dyn Native>>,
    current: &mut Activation<Standing>,
) -> Result<Move, NoMemory>
    requires beside { natives_of script.now ≤ length natives.now.items }
    requires few_signatures { length (signatures_in (handed title meaning signatures natives.now.items)) < 2 ^ 31 }
    requires agrees { StandingAgrees script.now (handed title meaning signatures natives.now.items) (seen_by_main current.old) current.old.standing }
    ensures asked { let all = handed title meaning signatures natives.now.items in
        (std : Standard) → IfOk result
        (λ m. IsAsked (program std script.now all) (ask.who_of current.old.standing) (seen_by_main current.old)
        (λ r. StandingAgrees script.now all (one_more (seen_by_main current.old) r) current.new.standing) (move_of m)) }
    ensures who { ask.who_of current.new.standing ≡ ask.who_of current.old.standing }
    ensures same { current.new ≡ record current.old { standing = current.new.standing } }
{
    let sig = Sig::new(FfiType::Void, Fields::new(alloc), None);
    let seen = Seen::new(&sig, &[], current.user, &current.results);
    ask(alloc, script, natives, &mut current.standing, &seen)
}

/// The move that the function of a call asks for. The call's block begins at the stack pointer.
pub(crate) fn asked_by_callee<A: Abi>(
    alloc: Global,
    script: &Script,
    natives: &Vec<Box<dyn Native>>,
    machine: &Machine,
    cifs: &Cifs<A>,
    call: &OpenCall,
    current: &mut Activation<Standing>,
) -> Result<Move, NoMemory>
    requires beside { natives_of script.now ≤ length natives.now.items }
    requires few_signatures { length (signatures_in (handed title meaning signatures natives.now.items)) < 2 ^ 31 }
    requires below { call.now.sig < length cifs.now }
    requires block { call.now.incoming.block ≡ machine.now.sp }
    requires low { STACK ≤ machine.now.sp }
    requires high { machine.now.sp + block_bytes (signature_at cifs.now call.now.sig) ≤ STACK_TOP }
    requires agrees { StandingAgrees script.now (handed title meaning signatures natives.now.items)
        (seen_by_callee cifs.now machine.now call.now current.old) current.old.standing }
    ensures asked { let all = handed title meaning signatures natives.now.items in
        (std : Standard) → IfOk result
        (λ m. IsAsked (program std script.now all) (ask.who_of current.old.standing) (seen_by_callee cifs.now machine.now call.now current.old)
        (λ r. StandingAgrees script.now all (one_more (seen_by_callee cifs.now machine.now call.now current.old) r) current.new.standing) (move_of m)) }
    ensures who { ask.who_of current.new.standing ≡ ask.who_of current.old.standing }
    ensures same { current.new ≡ record current.old { standing = current.new.standing } }
{
    let cif = cifs.get(call.sig);
    let block = machine.lend_stack(machine.sp(), cif.block());
    let seen = Seen::new(cif.sig(), block, current.user, &current.results);
    ask(alloc, script, natives, &mut current.standing, &seen)
}
