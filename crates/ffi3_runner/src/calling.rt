//! What the innermost activation asks for, and a call.
ghost use Rattle.std.specs.Prelude.{◌≡◌, ℕ, ◌<◌, ◌≤◌, IfOk, List, None, Some, length, reverse, suc, true};
ghost use Rattle.ffi3_type_spec.specs.Signature.{signature_at};
ghost use Rattle.ffi3_type_spec.specs.Tree.{trees_of};
ghost use Rattle.ffi3_type_spec.specs.Value.{all_fit, values_of};
ghost use Rattle.ffi3_place_spec.specs.declared.Loc.{Loc};
ghost use Rattle.ffi3_place_spec.specs.Event.{Event};
ghost use Rattle.ffi3_semantics_spec.specs.Journal.{Entered};
ghost use Rattle.ffi3_semantics_spec.specs.Move as asks;
ghost use Rattle.ffi3_semantics_spec.specs.Trace.{TraceItem};
ghost use Rattle.ffi3_small_step_spec.specs.Remainder.{Remainder};
ghost use Rattle.ffi3_small_step_spec.specs.SoFar.{Base};
ghost use Rattle.ffi3_small_step_spec.specs.TracingOf.{IsTracingOf};
ghost use Rattle.ffi3_body.specs.MoveOf.{move_of};
ghost use Rattle.ffi3_next_move.specs.Asked.{IsAsked};
ghost use Rattle.ffi3_script_spec.specs.Handed.{handed};
ghost use Rattle.ffi3_next_move.specs.Stands.{StandingAgrees};
ghost use Rattle.ffi3_script_body.specs.Agrees.{one_more};
ghost use Rattle.ffi3_next_move.specs.Stands as ask;
ghost use Rattle.ffi3_run_state.specs.Between.{Beginning, IsAsking, run_state};
ghost use Rattle.ffi3_run_state.specs.Activations.{call_inside, calls_of};
ghost use Rattle.ffi3_run_state.specs.Stack.{HoldsCalls};
ghost use Rattle.ffi3_run_state.specs.Turned.{KeepsClosures, Turned};
ghost use Rattle.ffi3_machine_spec.specs.State.{stack_at};
ghost use Rattle.ffi3_runner.specs.Agreeing.{PositionsAgree, AllWillStand, IsStanding, WillStand, seen_by};
ghost use Rattle.ffi3_runner.specs.Running.{IsPrepared, program};

use crate::asked::{asked_by_callee, asked_by_main};
use crate::prepare::Prepared;
use ffi3_invoke::entered_closure;
use ffi3_io::Sink;
use ffi3_machine::Machine;
use ffi3_next_move::{Move, Standing};
use ffi3_place::Abi;
use ffi3_run_state::{Activation, Configuration, Turn};
use ffi3_types::NoMemory;
use ffi3_values::Values;

impl<'a, A: Abi> Prepared<'a, A> {
    /// The move that the innermost activation asks for.
    pub(crate) fn asked(
        &self,
        configuration: &Configuration<Standing>,
        machine: &Machine,
        current: &mut Activation<Standing>,
    ) -> Result<Move, NoMemory>
        requires prepared { IsPrepared A.standard self.now.script.now (handed title meaning signatures self.now.natives.now.items) self.now.cifs }
        requires holds { (held : Loc → ℕ) × (top : ℕ) × (entered : List Entered) ×
            HoldsCalls A.standard self.now.cifs held top machine.now (calls_of configuration.now.served (reverse configuration.now.suspended.items)) entered }
        requires stands { IsStanding self.now.script.now (handed title meaning signatures self.now.natives.now.items) self.now.cifs machine.now
            (call_inside configuration.now.served (reverse configuration.now.suspended.items)) current.old }
        ensures asked { let all = handed title meaning signatures self.now.natives.now.items in
            let call = call_inside configuration.now.served (reverse configuration.now.suspended.items) in
            IfOk result
            (λ m. IsAsked (program A.standard self.now.script.now all) (ask.who_of current.old.standing) (seen_by self.now.cifs machine.now call current.old)
            (λ r. StandingAgrees self.now.script.now all (one_more (seen_by self.now.cifs machine.now call current.old) r) current.new.standing) (move_of m)) }
        ensures who { ask.who_of current.new.standing ≡ ask.who_of current.old.standing }
        ensures same { current.new ≡ record current.old { standing = current.new.standing } }
    {
        match configuration.suspended.last() {
            Some(waiting) => asked_by_callee(
                self.alloc,
                self.script,
                self.natives,
                machine,
                &self.cifs,
                &waiting.call,
                current,
            ),
            None => match &configuration.served {
                Some(call) => asked_by_callee(
                    self.alloc,
                    self.script,
                    self.natives,
                    machine,
                    &self.cifs,
                    call,
                    current,
                ),
                None => asked_by_main(self.alloc, self.script, self.natives, current),
            },
        }
    }

    /// Calls a closure, or stops the run there.
    pub(crate) fn call<O: Sink>(
        &self,
        configuration: &mut Configuration<Standing>,
        machine: &mut Machine,
        output: &mut O,
        current: Activation<Standing>,
        ptr: u64,
        sig: u32,
        args: &Values,
        trace: bool,
    ) -> Turn
        requires prepared { IsPrepared A.standard self.now.script.now (handed title meaning signatures self.now.natives.now.items) self.now.cifs }
        requires site { sig < length self.now.cifs }
        requires fit { all_fit (trees_of (signature_at self.now.cifs sig).arguments) (values_of args.now) ≡ true }
        requires others { AllWillStand self.now.script.now (handed title meaning signatures self.now.natives.now.items) self.now.cifs machine.old
            configuration.old.served (reverse configuration.old.suspended.items) }
        requires will { WillStand self.now.script.now (handed title meaning signatures self.now.natives.now.items) self.now.cifs machine.old
            (call_inside configuration.old.served (reverse configuration.old.suspended.items)) current (signature_at self.now.cifs sig) }
        requires asking { let p = program A.standard self.now.script.now (handed title meaning signatures self.now.natives.now.items) in
            (base : Base) × (all : Remainder) × (first : Beginning) × (own : List TraceItem) × (events : List Event) ×
            (base.standard ≡ A.standard) ×
            IsAsking p base all first own events (run_state p.signatures current configuration.old machine.old (O.state output.old)) (asks.call ptr sig args.now) }
        ensures turned { let p = program A.standard self.now.script.now (handed title meaning signatures self.now.natives.now.items) in
            (base : Base) (all : Remainder) (first : Beginning) (own : List TraceItem) (events : List Event) →
            base.standard ≡ A.standard → IsTracingOf p base trace first.tracing →
            IsAsking p base all first own events (run_state p.signatures current configuration.old machine.old (O.state output.old)) (asks.call ptr sig args.now) →
            Turned p base all first own (suc configuration.old.moves) configuration.new machine.new (O.state output.new) result }
        ensures standing { result ≡ Turn.More →
            PositionsAgree self.now.script.now (handed title meaning signatures self.now.natives.now.items) self.now.cifs machine.new configuration.new }
        ensures above { result ≡ Turn.More →
            (address count : ℕ) → machine.old.sp ≤ address → stack_at address count machine.new ≡ stack_at address count machine.old }
        ensures kept { result ≡ Turn.Failed → KeepsClosures configuration.old configuration.new }
    {
        let _called = match configuration.callee(machine, &self.cifs, ptr, sig) {
            Ok(called) => called,
            Err(why) => {
                let alloc = self.alloc;
                return configuration.stop_for(alloc, output, &self.cifs, current, why);
            }
        };
        let Ok(()) = configuration.pass(machine, &self.cifs, ptr, sig, args) else {
            return Turn::NoMemory;
        };
        // the callee's side: it knows what the machine shows
        let Some(closure) = configuration.table.find(entered_closure(machine)) else {
            unreachable!()
        };
        let standing = Standing::in_function(self.alloc, self.script, self.natives, closure.func);
        let alloc = self.alloc;
        configuration.enter(
            alloc, machine, output, &self.cifs, current, closure, standing, sig, trace,
        )
    }
}
