//! A call that is served: accepted from what a machine shows at an entry, and left.
ghost use Rattle.std.specs.Prelude.{◌≡◌, ℕ, ◌<◌, ◌≤◌, List, None, OnErr, OnOk, [], length, suc, true};
ghost use Rattle.ffi3_type_spec.specs.Signature.{signature_at};
ghost use Rattle.ffi3_type_spec.specs.Value.{ValueTree, fits};
ghost use Rattle.ffi3_values.specs.ValueOf.{value_of};
ghost use Rattle.ffi3_place_spec.specs.declared.Loc.{Loc};
ghost use Rattle.ffi3_place_spec.specs.Event.{Event};
ghost use Rattle.ffi3_place_spec.specs.Standard.{need_of};
ghost use Rattle.ffi3_semantics_spec.specs.Journal.{Entered};
ghost use Rattle.ffi3_semantics_spec.specs.Meaning.{Program, most_moves};
ghost use Rattle.ffi3_semantics_spec.specs.Move as asks;
ghost use Rattle.ffi3_semantics_spec.specs.Trace.{TraceItem};
ghost use Rattle.ffi3_small_step_spec.specs.Remainder.{Remainder};
ghost use Rattle.ffi3_small_step_spec.specs.SoFar.{Base};
ghost use Rattle.ffi3_machine_spec.specs.Slots.{HoldsMap};
ghost use Rattle.ffi3_run_state.specs.Accepted.{Accepted};
ghost use Rattle.ffi3_run_state.specs.Between.{Beginning, IsAsking, run_state};
ghost use Rattle.ffi3_run_state.specs.Known.{AreKnown};
ghost use Rattle.ffi3_run_state.specs.Activations.{calls_below, result_type_at};
ghost use Rattle.ffi3_run_state.specs.Served.{HasAccepted, ShowsCall};
ghost use Rattle.ffi3_run_state.specs.Stack.{HoldsCalls};
ghost use Rattle.ffi3_run_state.specs.Turned.{KeepsClosures, Turned};
ghost use Rattle.ffi3_small_step_spec.specs.TracingOf.{IsTracingOf};

use crate::tracing::{tell_entry, tell_return};
use crate::{Activation, Cifs, Configuration, OpenCall, Turn};
use ffi3_invoke::{accept, give_back};
use ffi3_io::{IoError, Sink};
use ffi3_machine::Machine;
use ffi3_place::Abi;
use ffi3_semantics_spec::Closure;
use ffi3_values::Value;
use std::alloc::Global;

impl<S: Drop> Configuration<S> {
    /// Accepts the call of a closure that the machine shows at its entry: the activation of the
    /// closure's function, which stands here before its first move, is then the only one. Where the
    /// run is traced, the entry is told; interrupted there, the configuration is as it was.
    pub fn accept_call<A: Abi, O: Sink>(
        &mut self,
        alloc: Global,
        machine: &mut Machine,
        output: &mut O,
        cifs: &Cifs<A>,
        closure: Closure,
        standing: S,
        trace: bool,
    ) -> Result<(), IoError>
        requires below { closure.sig < length cifs.now }
        requires shows { (arguments : List ValueTree) × ShowsCall A.standard (signature_at cifs.now closure.sig) arguments machine.old }
        requires alone { self.old.suspended.items ≡ [] }
        ensures goes { OnOk result (HasAccepted closure standing self.old self.new) }
        ensures kept { OnErr result (self.new ≡ self.old) }
        ensures accepted { (p : Program) (arguments : List ValueTree) →
            p.signatures ≡ cifs.now → p.need ≡ need_of A.standard →
            ShowsCall A.standard (signature_at cifs.now closure.sig) arguments machine.old →
            HoldsMap machine.old.target self.old.table machine.old.code → AreKnown p self.old.table → self.old.moves ≤ most_moves →
            Accepted A.standard p closure arguments trace self.old machine.old (O.state output.old) self.new machine.new (O.state output.new) result }
    {
        let sig = closure.sig;
        let cif = cifs.get(sig);
        let incoming = accept(machine, cif);
        if let Err(why) = tell_entry(alloc, machine, output, cif, trace) {
            return Err(why);
        }
        self.served = Some(OpenCall { sig, incoming });
        self.innermost = Some(Activation::of_closure(alloc, closure, standing));
        Ok(())
    }

    /// Returns from the outermost activation, once it was taken from the configuration: out of the call that
    /// it answers to, or, where that is none, as main. Where the run is traced, the return is told.
    pub(crate) fn leave_run<A: Abi, O: Sink>(
        &mut self,
        alloc: Global,
        machine: &mut Machine,
        output: &mut O,
        cifs: &Cifs<A>,
        value: &Value,
        trace: bool,
    ) -> Turn
        requires taken { self.old.innermost ≡ None }
        requires alone { self.old.suspended.items ≡ [] }
        requires stand { (held : Loc → ℕ) × (top : ℕ) × (entered : List Entered) ×
            HoldsCalls A.standard cifs.now held top machine.old (calls_below self.old.served) entered }
        requires fits { fits (result_type_at cifs.now self.old.served) (value_of value.now) ≡ true }
        ensures over { result ≡ Turn.More → ⊥ }
        ensures kept { result ≡ Turn.Failed → KeepsClosures self.old self.new }
        ensures turned { (p : Program) (base : Base) (all : Remainder) (first : Beginning) (own : List TraceItem) (events : List Event) (current : Activation S) →
            base.standard ≡ A.standard → p.signatures ≡ cifs.now → IsTracingOf p base trace first.tracing →
            IsAsking p base all first own events (run_state p.signatures current self.old machine.old (O.state output.old)) (asks.return (value_of value.now)) →
            Turned p base all first own (suc self.old.moves) self.new machine.new (O.state output.new) result }
    {
        let Some(OpenCall { sig, incoming }) = self.served.take() else {
            return Turn::Done;
        };
        let cif = cifs.get(sig);
        give_back(machine, cif, incoming, value);
        match tell_return(alloc, machine, output, cif, value, trace) {
            Ok(()) => Turn::Done,
            Err(why) => Turn::cut_off(why),
        }
    }
}
