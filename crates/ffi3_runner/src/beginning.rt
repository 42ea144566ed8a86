//! The beginning of a run of main.
ghost use Rattle.std.specs.Prelude.{◌≡◌, Bool, []};
ghost use Rattle.ffi3_semantics_spec.specs.Meaning.{meaning_of};
ghost use Rattle.ffi3_small_step_spec.specs.Remainder.{remainder_of};
ghost use Rattle.ffi3_small_step_spec.specs.SoFar.{main_base};
ghost use Rattle.ffi3_machine_spec.specs.State.{State, begun};
ghost use Rattle.ffi3_io_spec.specs.Sink.{SinkState};
ghost use Rattle.ffi3_script_spec.specs.Handed.{handed};
ghost use Rattle.ffi3_run_state.specs.Turned.{StandsAt};
ghost use Rattle.ffi3_runner.specs.Agreeing.{PositionsAgree};
ghost use Rattle.ffi3_runner.specs.Ran.{MainRan};
ghost use Rattle.ffi3_runner.specs.Ready.{CanGoOn, traced_or_not};
ghost use Rattle.ffi3_runner.specs.Running.{IsNew, IsPrepared, program};
ghost use Rattle.ffi3_runner.specs.Started.{main_beginning};

use crate::prepare::Prepared;
use crate::run::RunEnd;
use ffi3_io::Sink;
use ffi3_machine::Machine;
use ffi3_next_move::Standing;
use ffi3_place::Abi;
use ffi3_run_state::{Activation, Configuration, Who};
use ffi3_values::Values;

impl<'a, A: Abi> Prepared<'a, A> {
    /// Puts main's activation on the configuration, before its first move.
    pub(crate) fn start(&self, configuration: &mut Configuration<Standing>)
        requires prepared { IsPrepared A.standard self.now.script.now (handed title meaning signatures self.now.natives.now.items) self.now.cifs }
        requires new { IsNew configuration.old }
        ensures standing { (m : State) → PositionsAgree self.now.script.now (handed title meaning signatures self.now.natives.now.items) self.now.cifs m configuration.new }
        ensures between { let p = program A.standard self.now.script.now (handed title meaning signatures self.now.natives.now.items) in
            (trace : Bool) (m : State) (output : SinkState) → m ≡ begun A.TARGET m.spare_events m.spare_bytes →
            StandsAt p (main_base A.standard) (remainder_of (meaning_of p)) (main_beginning trace A.standard output) [] [] configuration.new m output }
        ensures goes_on { (m : State) → m ≡ begun A.TARGET m.spare_events m.spare_bytes →
            CanGoOn A.standard (program A.standard self.now.script.now (handed title meaning signatures self.now.natives.now.items)) traced_or_not configuration.new m }
    {
        let alloc = self.alloc;
        configuration.innermost = Some(Activation {
            who: Who::Main,
            standing: Standing::in_main(alloc, self.script),
            user: 0,
            results: Values::new(alloc),
        });
    }

    /// Runs main to its end, on a machine as it begins.
    pub(crate) fn run_main<O: Sink>(
        &self,
        configuration: &mut Configuration<Standing>,
        machine: &mut Machine,
        output: &mut O,
        trace: bool,
    ) -> RunEnd
        requires prepared { IsPrepared A.standard self.now.script.now (handed title meaning signatures self.now.natives.now.items) self.now.cifs }
        requires new { IsNew configuration.old }
        requires begun { machine.old ≡ begun A.TARGET machine.old.spare_events machine.old.spare_bytes }
        ensures { MainRan A.standard trace (program A.standard self.now.script.now (handed title meaning signatures self.now.natives.now.items))
            (O.state output.old) configuration.new machine.new (O.state output.new) result }
    {
        self.start(configuration);
        self.run_on(configuration, machine, output, trace)
    }
}
