//! Moves until a run ends.
ghost use Rattle.std.specs.Prelude.{◌≡◌, List};
ghost use Rattle.ffi3_place_spec.specs.Event.{Event};
ghost use Rattle.ffi3_semantics_spec.specs.Trace.{TraceItem};
ghost use Rattle.ffi3_small_step_spec.specs.Remainder.{Remainder};
ghost use Rattle.ffi3_small_step_spec.specs.SoFar.{Base};
ghost use Rattle.ffi3_small_step_spec.specs.TracingOf.{IsTracingOf};
ghost use Rattle.ffi3_script_spec.specs.Handed.{handed};
ghost use Rattle.ffi3_run_state.specs.Between.{Beginning};
ghost use Rattle.ffi3_run_state.specs.Turned.{StandsAt};
ghost use Rattle.ffi3_runner.specs.Agreeing.{PositionsAgree};
ghost use Rattle.ffi3_runner.specs.Ran.{Ran};
ghost use Rattle.ffi3_runner.specs.Ready.{CanGoOnWith};
ghost use Rattle.ffi3_runner.specs.Serving.{end_of};
ghost use Rattle.ffi3_runner.specs.Running.{IsPrepared, program};

use crate::prepare::Prepared;
use ffi3_io::{IoError, Sink};
use ffi3_machine::Machine;
use ffi3_next_move::Standing;
use ffi3_place::Abi;
use ffi3_run_state::{Configuration, Stop, Turn};

/// How a run ended.
#[derive(Clone, Copy, Debug, PartialEq, Eq, Drop)]
pub enum RunEnd {
    /// The outermost activation returned, and the whole text was written.
    Done,
    /// The run stopped, and the whole text was written, the stop's line last.
    Stopped(Stop),
    /// Memory was refused.
    NoMemory,
    /// A write failed.
    Failed,
}

impl RunEnd {
    /// What a run came to that was interrupted.
    pub(crate) fn cut_off(why: IoError) -> RunEnd
        ensures { result ≡ end_of why }
    {
        match why {
            IoError::NoMemory => RunEnd::NoMemory,
            IoError::Failed => RunEnd::Failed,
        }
    }
}

impl<'a, A: Abi> Prepared<'a, A> {
    /// Does moves until the run ends.
    pub(crate) fn run_on<O: Sink>(
        &self,
        configuration: &mut Configuration<Standing>,
        machine: &mut Machine,
        output: &mut O,
        trace: bool,
    ) -> RunEnd
        requires prepared { IsPrepared A.standard self.now.script.now (handed title meaning signatures self.now.natives.now.items) self.now.cifs }
        requires standing { PositionsAgree self.now.script.now (handed title meaning signatures self.now.natives.now.items) self.now.cifs machine.old configuration.old }
        requires between { CanGoOnWith A.standard (program A.standard self.now.script.now (handed title meaning signatures self.now.natives.now.items)) trace configuration.old machine.old }
        ensures { let p = program A.standard self.now.script.now (handed title meaning signatures self.now.natives.now.items) in
            (base : Base) (all : Remainder) (first : Beginning) (own : List TraceItem) (events : List Event) →
            base.standard ≡ A.standard → IsTracingOf p base trace first.tracing →
            StandsAt p base all first own events configuration.old machine.old (O.state output.old) →
            Ran p base all first configuration.new machine.new (O.state output.new) result }
    {
        loop {
            match self.turn(configuration, machine, output, trace) {
                Turn::More => {}
                Turn::Done => return RunEnd::Done,
                Turn::Stopped(stop) => return RunEnd::Stopped(stop),
                Turn::NoMemory => return RunEnd::NoMemory,
                Turn::Failed => return RunEnd::Failed,
            }
        }
    }
}
