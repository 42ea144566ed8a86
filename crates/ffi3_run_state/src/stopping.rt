//! Stops.
ghost use Rattle.std.specs.Prelude.{◌≡◌, List, length, suc};
ghost use Rattle.ffi3_place_spec.specs.Event.{Event};
ghost use Rattle.ffi3_semantics_spec.specs.Meaning.{Program, effect_of, stops};
ghost use Rattle.ffi3_semantics_spec.specs.Move.{Move};
ghost use Rattle.ffi3_semantics_spec.specs.Trace.{TraceItem};
ghost use Rattle.ffi3_small_step_spec.specs.Remainder.{Remainder};
ghost use Rattle.ffi3_small_step_spec.specs.SoFar.{Base};
ghost use Rattle.ffi3_machine_spec.specs.State.{State};
ghost use Rattle.ffi3_run_state.specs.Between.{Beginning, IsAsking, IsBetween, run_state};
ghost use Rattle.ffi3_run_state.specs.Going.{StoppedBy};
ghost use Rattle.ffi3_run_state.specs.StopSigs.{IsOfSigs};
ghost use Rattle.ffi3_run_state.specs.Turned.{KeepsClosures, Turned};

use crate::line::write_stop;
use crate::{Activation, Cifs, Configuration, Turn};
use ffi3_io::Sink;
use ffi3_place::Abi;
use ffi3_semantics_spec::Stop;
use std::alloc::Global;

/// Stops the run: writes the line of the stop.
pub(crate) fn stop<A: Abi, O: Sink>(
    alloc: Global,
    output: &mut O,
    cifs: &Cifs<A>,
    why: Stop,
) -> Turn
    requires { IsOfSigs (length cifs.now) why }
    ensures { StoppedBy cifs.now why (O.state output.old) (O.state output.new) result }
{
    match write_stop(alloc, output, cifs, why) {
        Ok(()) => Turn::Stopped(why),
        Err(cause) => Turn::cut_off(cause),
    }
}

impl<S: Drop> Configuration<S> {
    /// Stops the run before a move, where none is left.
    pub fn stop_at_limit<A: Abi, O: Sink>(
        &mut self,
        alloc: Global,
        output: &mut O,
        cifs: &Cifs<A>,
        current: Activation<S>,
    ) -> Turn
        requires { self.old.moves ≡ 0 }
        ensures kept { KeepsClosures self.old self.new }
        ensures turned { (p : Program) (base : Base) (all : Remainder) (first : Beginning) (own : List TraceItem) (events : List Event) (machine : State) →
            p.signatures ≡ cifs.now →
            IsBetween p base all first own events (run_state p.signatures current self.old machine (O.state output.old)) →
            Turned p base all first own 0 self.new machine (O.state output.new) result }
    {
        let _ended = current;
        stop(alloc, output, cifs, Stop::MoveLimit)
    }

    /// Stops the run at a move, which was counted.
    pub fn stop_for<A: Abi, O: Sink>(
        &mut self,
        alloc: Global,
        output: &mut O,
        cifs: &Cifs<A>,
        current: Activation<S>,
        why: Stop,
    ) -> Turn
        requires { IsOfSigs (length cifs.now) why }
        ensures over { result ≡ Turn.More → ⊥ }
        ensures kept { KeepsClosures self.old self.new }
        ensures turned { (p : Program) (base : Base) (all : Remainder) (first : Beginning) (own : List TraceItem) (events : List Event) (machine : State) (asked : Move) →
            p.signatures ≡ cifs.now →
            IsAsking p base all first own events (run_state p.signatures current self.old machine (O.state output.old)) asked →
            effect_of p (run_state p.signatures current self.old machine (O.state output.old)).innermost self.old.table asked ≡ stops why →
            Turned p base all first own (suc self.old.moves) self.new machine (O.state output.new) result }
    {
        let _ended = current;
        stop(alloc, output, cifs, why)
    }
}
