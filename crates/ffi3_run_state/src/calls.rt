//! Calls that are entered, and returns.
ghost use Rattle.std.specs.Prelude.{◌≡◌, ℕ, ◌<◌, ◌≤◌, IfOk, List, None, OnErr, OnOk, length, reverse, suc, true, vec_capacity, vec_len};
ghost use Rattle.ffi3_type_spec.specs.declared.limits.TheConstants.{STACK_TOP};
ghost use Rattle.ffi3_type_spec.specs.Layout.{size_of};
ghost use Rattle.ffi3_type_spec.specs.Signature.{signature_at};
ghost use Rattle.ffi3_type_spec.specs.Tree.{trees_of};
ghost use Rattle.ffi3_type_spec.specs.Value.{ValueTree, all_fit, fits, values_of};
ghost use Rattle.ffi3_values.specs.ValueOf.{value_of};
ghost use Rattle.ffi3_place_spec.specs.declared.Loc.{Loc};
ghost use Rattle.ffi3_place_spec.specs.Event.{Event};
ghost use Rattle.ffi3_semantics_spec.specs.Journal.{Entered};
ghost use Rattle.ffi3_semantics_spec.specs.Meaning.{Program, callee_of, effect_of, enters};
ghost use Rattle.ffi3_semantics_spec.specs.Move as asks;
ghost use Rattle.ffi3_semantics_spec.specs.Trace.{TraceItem};
ghost use Rattle.ffi3_small_step_spec.specs.Remainder.{Remainder};
ghost use Rattle.ffi3_small_step_spec.specs.SoFar.{Base};
ghost use Rattle.ffi3_small_step_spec.specs.TracingOf.{IsTracingOf};
ghost use Rattle.ffi3_io_spec.specs.Sink.{SinkState};
ghost use Rattle.ffi3_machine_spec.specs.State.{State, stack_at};
ghost use Rattle.ffi3_machine_spec.specs.Slots.{HoldsMap};
ghost use Rattle.ffi3_callee.specs.Received.{IsIncoming};
ghost use Rattle.ffi3_invoke.specs.Calls.{HasEnded, IsCalled};
ghost use Rattle.ffi3_run_state.specs.Between.{Beginning, IsAsking, run_state};
ghost use Rattle.ffi3_run_state.specs.Going.{HasGoneBack, HasGoneIn};
ghost use Rattle.ffi3_run_state.specs.Known.{CanEnter};
ghost use Rattle.ffi3_run_state.specs.Passed.{IsPassed};
ghost use Rattle.ffi3_run_state.specs.Activations.{AreShort, call_inside, calls_of, result_type_at};
ghost use Rattle.ffi3_run_state.specs.Stack.{HoldsCalls};
ghost use Rattle.ffi3_run_state.specs.Turned.{KeepsClosures, Turned};

use crate::tracing::{tell_entry, tell_return};
use crate::{Activation, Cifs, Configuration, OpenCall, Turn, Waiting};
use ffi3_callee::Incoming;
use ffi3_cif::Cif;
use ffi3_invoke::{accept, end_call, pass_arguments};
use ffi3_io::Sink;
use ffi3_machine::Machine;
use ffi3_machine_transfer::SMALL;
use ffi3_place::Abi;
use ffi3_semantics_spec::Closure;
use ffi3_type_spec::limits::LARGEST_TYPE;
use ffi3_types::NoMemory;
use ffi3_values::{Value, Values, value_from_bytes};
use std::alloc::{AllocError, Global};

/// Returns from the callee of a call, and reads the result by way of `out`, which has as many bytes.
fn end_by<A: Abi>(
    alloc: Global,
    machine: &mut Machine,
    cif: &Cif<A>,
    incoming: Incoming,
    value: &Value,
    out: &mut [u8],
) -> Result<Value, NoMemory>
    requires called { IsCalled A.standard cif.now machine.old }
    requires incoming { IsIncoming A.standard cif.now incoming }
    requires block { incoming.block ≡ machine.old.sp }
    requires fits { fits cif.now.result_type (value_of value.now) ≡ true }
    requires sized { length out.old ≡ size_of cif.now.result_type }
    ensures ended { HasEnded A.standard cif.now (value_of value.now) machine.old machine.new }
    ensures value { IfOk result (λ v. value_of v ≡ value_of value.now) }
{
    end_call(machine, cif, incoming, value, out);
    let ty = cif.checked_sig().ret();
    value_from_bytes(alloc, ty.as_type(), out)
}

/// Returns from the callee of an open call. The caller reads the result from where it stands.
fn end_with<A: Abi>(
    alloc: Global,
    machine: &mut Machine,
    cifs: &Cifs<A>,
    call: OpenCall,
    value: &Value,
) -> Result<Value, NoMemory>
    requires below { call.sig < length cifs.now }
    requires called { IsCalled A.standard (signature_at cifs.now call.sig) machine.old }
    requires incoming { IsIncoming A.standard (signature_at cifs.now call.sig) call.incoming }
    requires block { call.incoming.block ≡ machine.old.sp }
    requires fits { fits (signature_at cifs.now call.sig).result_type (value_of value.now) ≡ true }
    ensures ended { HasEnded A.standard (signature_at cifs.now call.sig) (value_of value.now) machine.old machine.new }
    ensures value { IfOk result (λ v. value_of v ≡ value_of value.now) }
{
    let OpenCall { sig, incoming } = call;
    let cif = cifs.get(sig);
    let ty = cif.checked_sig().ret();
    let size = ty.size() as usize;
    if size <= SMALL {
        let mut room = [0; SMALL];
        end_by(alloc, machine, cif, incoming, value, &mut room[..size])
    } else {
        let mut room = [0; LARGEST_TYPE as usize];
        end_by(alloc, machine, cif, incoming, value, &mut room[..size])
    }
}

impl<S: Drop> Configuration<S> {
    /// Passes the arguments of a call that can be made, up to the entry of the closure at its pointer: the machine then
    /// shows the call. But for the lines of the entry all memory is taken before it begins.
    pub fn pass<A: Abi>(
        &mut self,
        machine: &mut Machine,
        cifs: &Cifs<A>,
        ptr: u64,
        sig: u32,
        args: &Values,
    ) -> Result<(), NoMemory>
        requires target { machine.old.target ≡ A.TARGET }
        requires site { sig < length cifs.now }
        requires fit { all_fit (trees_of (signature_at cifs.now sig).arguments) (values_of args.now) ≡ true }
        requires can { (closure : Closure) × CanEnter A.standard cifs.now self.old.table ptr sig machine.old.sp closure }
        requires top { machine.old.sp ≤ STACK_TOP }
        requires holds { HoldsMap machine.old.target self.old.table machine.old.code }
        ensures passed { OnOk result (IsPassed A.standard (signature_at cifs.now sig) ptr args.now machine.old machine.new) }
        ensures waits { OnOk result (vec_len self.new.suspended < vec_capacity self.new.suspended) }
        ensures same { self.new ≡ record self.old { suspended = self.new.suspended } }
        ensures items { self.new.suspended.items ≡ self.old.suspended.items }
        ensures refused { OnErr result ((p : Program) (base : Base) (all : Remainder) (first : Beginning) (own : List TraceItem) (events : List Event) (current : Activation S) (output : SinkState) →
            IsAsking p base all first own events (run_state p.signatures current self.old machine.old output) (asks.call ptr sig args.now) →
            Turned p base all first own (suc self.old.moves) self.new machine.new output Turn.NoMemory) }
    {
        machine.facts();
        let cif = cifs.get(sig);
        let Ok(()) = self.suspended.reserve(1) else {
            return Err(AllocError);
        };
        let Ok(()) = machine.journal_room(A::LINK + cif.frame()) else {
            return Err(AllocError);
        };
        pass_arguments(machine, &self.table, cif, args, ptr);
        Ok(())
    }

    /// Enters the closure that the machine shows at its entry, once the arguments are passed: its function's activation,
    /// which stands here before its first move, is then the innermost. Where the run is traced, the entry is told.
    pub fn enter<A: Abi, O: Sink>(
        &mut self,
        alloc: Global,
        machine: &mut Machine,
        output: &mut O,
        cifs: &Cifs<A>,
        current: Activation<S>,
        closure: Closure,
        standing: S,
        sig: u32,
        trace: bool,
    ) -> Turn
        requires site { sig < length cifs.now }
        requires below { closure.sig < length cifs.now }
        requires same { signature_at cifs.now sig ≡ signature_at cifs.now closure.sig }
        requires passed { (before : State) × (ptr : ℕ) × (args : List ValueTree) × IsPassed A.standard (signature_at cifs.now sig) ptr args before machine.old }
        requires waits { vec_len self.old.suspended < vec_capacity self.old.suspended }
        ensures kept { result ≡ Turn.Failed → KeepsClosures self.old self.new }
        ensures goes { result ≡ Turn.More → HasGoneIn closure standing sig current self.old self.new }
        ensures above { result ≡ Turn.More → (before : State) (ptr : ℕ) (args : List ValueTree) →
            IsPassed A.standard (signature_at cifs.now sig) ptr args before machine.old →
            (address count : ℕ) → before.sp ≤ address → stack_at address count machine.new ≡ stack_at address count before }
        ensures turned { (p : Program) (base : Base) (all : Remainder) (first : Beginning) (own : List TraceItem) (events : List Event) (before : State) (ptr : ℕ) (args : List ValueTree) →
            base.standard ≡ A.standard → p.signatures ≡ cifs.now → IsTracingOf p base trace first.tracing →
            IsPassed A.standard (signature_at cifs.now sig) ptr args before machine.old →
            IsAsking p base all first own events (run_state p.signatures current self.old before (O.state output.old)) (asks.call ptr sig args) →
            effect_of p (run_state p.signatures current self.old before (O.state output.old)).innermost self.old.table (asks.call ptr sig args) ≡
            enters ptr sig (callee_of p (run_state p.signatures current self.old before (O.state output.old)).innermost sig args closure) →
            Turned p base all first own (suc self.old.moves) self.new machine.new (O.state output.new) result }
    {
        let cif = cifs.get(closure.sig);
        let incoming = accept(machine, cif);
        let told = tell_entry(alloc, machine, output, cif, trace);
        if let Err(why) = told {
            return Turn::cut_off(why);
        }
        self.suspended.push_reserved(Waiting {
            activation: current,
            call: OpenCall { sig, incoming },
        });
        self.innermost = Some(Activation::of_closure(alloc, closure, standing));
        Turn::More
    }

    /// Returns from the innermost activation, which was taken from the configuration, to the one that waits
    /// for it. Where none waits, the run is done. Where the run is traced, the return is told.
    pub fn leave<A: Abi, O: Sink>(
        &mut self,
        alloc: Global,
        machine: &mut Machine,
        output: &mut O,
        cifs: &Cifs<A>,
        value: &Value,
        trace: bool,
    ) -> Turn
        requires taken { self.old.innermost ≡ None }
        requires stand { (held : Loc → ℕ) × (top : ℕ) × (entered : List Entered) ×
            HoldsCalls A.standard cifs.now held top machine.old (calls_of self.old.served (reverse self.old.suspended.items)) entered }
        requires fits { fits (result_type_at cifs.now (call_inside self.old.served (reverse self.old.suspended.items))) (value_of value.now) ≡ true }
        requires few { AreShort (reverse self.old.suspended.items) }
        ensures kept { result ≡ Turn.Failed → KeepsClosures self.old self.new }
        ensures goes { result ≡ Turn.More → HasGoneBack (value_of value.now) self.old self.new }
        ensures above { result ≡ Turn.More →
            (address count : ℕ) → machine.new.sp ≤ address → stack_at address count machine.new ≡ stack_at address count machine.old }
        ensures turned { (p : Program) (base : Base) (all : Remainder) (first : Beginning) (own : List TraceItem) (events : List Event) (current : Activation S) →
            base.standard ≡ A.standard → p.signatures ≡ cifs.now → IsTracingOf p base trace first.tracing →
            IsAsking p base all first own events (run_state p.signatures current self.old machine.old (O.state output.old)) (asks.return (value_of value.now)) →
            Turned p base all first own (suc self.old.moves) self.new machine.new (O.state output.new) result }
    {
        let Some(Waiting { activation, call }) = self.suspended.pop() else {
            return self.leave_run(alloc, machine, output, cifs, value, trace);
        };
        let sig = call.sig;
        let outcome = match end_with(alloc, machine, cifs, call, value) {
            Ok(outcome) => outcome,
            Err(_) => return Turn::NoMemory,
        };
        if let Err(why) = tell_return(alloc, machine, output, cifs.get(sig), value, trace) {
            return Turn::cut_off(why);
        }
        self.go_on(activation, outcome)
    }
}
