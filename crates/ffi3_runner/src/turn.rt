//! One move of a run.
ghost use Rattle.std.specs.Prelude.{◌≡◌, List, suc};
ghost use Rattle.ffi3_place_spec.specs.Event.{Event};
ghost use Rattle.ffi3_semantics_spec.specs.Trace.{TraceItem};
ghost use Rattle.ffi3_small_step_spec.specs.Remainder.{Remainder};
ghost use Rattle.ffi3_small_step_spec.specs.SoFar.{Base};
ghost use Rattle.ffi3_small_step_spec.specs.TracingOf.{IsTracingOf};
ghost use Rattle.ffi3_script_spec.specs.Handed.{handed};
ghost use Rattle.ffi3_run_state.specs.Between.{Beginning};
ghost use Rattle.ffi3_run_state.specs.Stack.{WritesInLast};
ghost use Rattle.ffi3_run_state.specs.Turned.{HasFailed, StandsAt};
ghost use Rattle.ffi3_runner.specs.Agreeing.{PositionsAgree};
ghost use Rattle.ffi3_runner.specs.Ran.{TurnSays};
ghost use Rattle.ffi3_runner.specs.Ready.{CanGoOnWith, StillCanGoOn};
ghost use Rattle.ffi3_runner.specs.Running.{IsPrepared, program};

use crate::prepare::Prepared;
use ffi3_io::Sink;
use ffi3_machine::Machine;
use ffi3_next_move::{Move, Standing, sig_of};
use ffi3_place::Abi;
use ffi3_run_state::{Configuration, Turn};

impl<'a, A: Abi> Prepared<'a, A> {
    /// Does one move of the innermost activation, after which the next can be done.
    pub(crate) fn turn<O: Sink>(
        &self,
        configuration: &mut Configuration<Standing>,
        machine: &mut Machine,
        output: &mut O,
        trace: bool,
    ) -> Turn
        requires prepared { IsPrepared A.standard self.now.script.now (handed title meaning signatures self.now.natives.now.items) self.now.cifs }
        requires standing { PositionsAgree self.now.script.now (handed title meaning signatures self.now.natives.now.items) self.now.cifs machine.old configuration.old }
        requires between { CanGoOnWith A.standard (program A.standard self.now.script.now (handed title meaning signatures self.now.natives.now.items)) trace configuration.old machine.old }
        ensures turned { TurnSays A.standard trace (program A.standard self.now.script.now (handed title meaning signatures self.now.natives.now.items))
            configuration.old machine.old (O.state output.old) configuration.new machine.new (O.state output.new) result }
        ensures standing { result ≡ Turn.More →
            PositionsAgree self.now.script.now (handed title meaning signatures self.now.natives.now.items) self.now.cifs machine.new configuration.new }
        ensures between { StillCanGoOn A.standard (program A.standard self.now.script.now (handed title meaning signatures self.now.natives.now.items)) trace
            configuration.old machine.old configuration.new machine.new result }
        ensures counted { result ≡ Turn.More → configuration.old.moves ≡ suc configuration.new.moves }
        ensures stack { result ≡ Turn.More → WritesInLast machine.old machine.new }
        ensures failed { result ≡ Turn.Failed → HasFailed configuration.old configuration.new }
    {
        self.one_move(configuration, machine, output, trace)
    }

    /// The move, where the run stands for this output. It is counted, and none is asked for where
    /// none is left. Where the run is traced, an entry or a return is told.
    fn one_move<O: Sink>(
        &self,
        configuration: &mut Configuration<Standing>,
        machine: &mut Machine,
        output: &mut O,
        trace: bool,
    ) -> Turn
        requires prepared { IsPrepared A.standard self.now.script.now (handed title meaning signatures self.now.natives.now.items) self.now.cifs }
        requires standing { PositionsAgree self.now.script.now (handed title meaning signatures self.now.natives.now.items) self.now.cifs machine.old configuration.old }
        requires between { (base : Base) × (all : Remainder) × (first : Beginning) × (own : List TraceItem) × (events : List Event) ×
            (base.standard ≡ A.standard) ×
            IsTracingOf (program A.standard self.now.script.now (handed title meaning signatures self.now.natives.now.items)) base trace first.tracing ×
            StandsAt (program A.standard self.now.script.now (handed title meaning signatures self.now.natives.now.items)) base all first own events configuration.old machine.old (O.state output.old) }
        ensures turned { TurnSays A.standard trace (program A.standard self.now.script.now (handed title meaning signatures self.now.natives.now.items))
            configuration.old machine.old (O.state output.old) configuration.new machine.new (O.state output.new) result }
        ensures standing { result ≡ Turn.More →
            PositionsAgree self.now.script.now (handed title meaning signatures self.now.natives.now.items) self.now.cifs machine.new configuration.new }
        ensures stack { result ≡ Turn.More → WritesInLast machine.old machine.new }
        ensures failed { result ≡ Turn.Failed → HasFailed configuration.old configuration.new }
    {
        let Some(mut current) = configuration.innermost.take() else {
            unreachable!()
        };
        let alloc = self.alloc;
        if configuration.moves == 0 {
            return configuration.stop_at_limit(alloc, output, &self.cifs, current);
        }
        let Ok(asked) = self.asked(configuration, machine, &mut current) else {
            return Turn::NoMemory;
        };
        configuration.moves -= 1;
        match asked {
            Move::Print { ty, value } => configuration.print(alloc, output, current, &ty, &value),
            Move::Make { func, user } => {
                let sig = sig_of(self.script, self.natives, func);
                configuration.make(alloc, machine, output, &self.cifs, current, func, sig, user)
            }
            Move::Free { ptr } => configuration.free(
                alloc, machine, output, &self.cifs, current, ptr,
            ),
            Move::Call { ptr, sig, args } => {
                self.call(
                    configuration,
                    machine,
                    output,
                    current,
                    ptr,
                    sig,
                    &args,
                    trace,
                )
            }
            Move::Return(value) => configuration.leave(
                alloc, machine, output, &self.cifs, &value, trace,
            ),
        }
    }
}
