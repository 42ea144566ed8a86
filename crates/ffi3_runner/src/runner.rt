//! The runner: what a run is prepared with, and its configuration.
ghost use Rattle.std.specs.Prelude.{◌≡◌, ◌*◌, ◌%◌, ◌<◌, ◌≤◌, ◌^◌, Bool, IfOk, List, [], false, length, suc, true};
ghost use Rattle.ffi3_type_spec.specs.Value.{ValueTree, void_value};
ghost use Rattle.ffi3_semantics_spec.specs.Meaning.{meaning_of, returned, stopped};
ghost use Rattle.ffi3_semantics_spec.specs.declared.Closure.{Closure};
ghost use Rattle.ffi3_semantics_spec.specs.declared.Stop.{Stop};
ghost use Rattle.ffi3_semantics_spec.specs.Trace.{trace_of};
ghost use Rattle.ffi3_small_step_spec.specs.Remainder.{remainder_of};
ghost use Rattle.ffi3_small_step_spec.specs.MainTracing.{main_tracing};
ghost use Rattle.ffi3_small_step_spec.specs.SoFar.{main_base};
ghost use Rattle.ffi3_script.specs.ScriptOf.{natives_of};
ghost use Rattle.ffi3_machine_spec.specs.State.{State, begun};
ghost use Rattle.ffi3_machine_spec.specs.Slots.{HoldsMap};
ghost use Rattle.ffi3_io_spec.specs.Sink.{Rose, SinkState};
ghost use Rattle.ffi3_script_spec.specs.Handed.{handed, signatures_in};
ghost use Rattle.ffi3_run_spec.specs.CallSteps.{call_steps, returns_in};
ghost use Rattle.ffi3_run_state.specs.Served.{IsIdle};
ghost use Rattle.ffi3_run_state.specs.Stack.{WritesInLast};
ghost use Rattle.ffi3_run_state.specs.Turned.{HasFailed, StandsAt};
ghost use Rattle.ffi3_runner.specs.Agreeing.{PositionsAgree};
ghost use Rattle.ffi3_runner.specs.Ran.{TurnSays};
ghost use Rattle.ffi3_runner.specs.Ready.{CanGoOn, CanGoOnWith, StillCanGoOn, traced_or_not};
ghost use Rattle.ffi3_run_spec.specs.RunInterrupted.{RunWasInterrupted};
ghost use Rattle.ffi3_run_spec.specs.RunMatches.{RunMatches, WrotePart};
ghost use Rattle.ffi3_runner.specs.Serving.{IsAtEntry, Served};
ghost use Rattle.ffi3_runner.specs.Started.{MainHasReturned, MainHasStopped, main_beginning};
ghost use Rattle.ffi3_runner.specs.Running.{IsNew, IsPrepared, program};

use crate::prepare::{Prepared, prepare_all};
use crate::run::RunEnd;
use ffi3_io::Sink;
use ffi3_machine::Machine;
use ffi3_next_move::{Native, Standing};
use ffi3_place::Abi;
use ffi3_run_state::{Cifs, Configuration, Table, Turn};
use ffi3_script::Script;
use ffi3_type_spec::limits::MOST_MOVES;
use ffi3_types::NoMemory;
use std::alloc::Global;

/// A run of a script beside natives, by the calling standard `A`, one move at a time.
#[derive(Drop)]
pub struct Runner<'a, A: Abi> {
    pub(crate) prepared: Prepared<'a, A>,
    pub(crate) configuration: Configuration<Standing>,
    pub(crate) over: bool,
}

impl<'a, A: Abi> Runner<'a, A> {
    /// Prepares a call interface for each signature of the run. No activation has begun.
    pub fn new(
        alloc: Global,
        script: &'a Script,
        natives: &'a Vec<Box<dyn Native>>,
    ) -> Result<Self, NoMemory>
        requires beside { natives_of script.now ≤ length natives.now.items }
        requires few_natives { length natives.now.items < 2 ^ 31 }
        requires few_signatures { length (signatures_in (handed title meaning signatures natives.now.items)) < 2 ^ 31 }
        ensures prepared { IfOk result (λ r. IsPrepared A.standard r.prepared.script.now
            (handed title meaning signatures r.prepared.natives.now.items) r.prepared.cifs) }
        ensures new { IfOk result (λ r. IsNew r.configuration) }
        ensures going { IfOk result (λ r. r.over ≡ false) }
        ensures script { IfOk result (λ r. r.prepared.script.now ≡ script.now) }
        ensures natives { IfOk result (λ r. r.prepared.natives.now ≡ natives.now) }
    {
        Ok(Runner {
            prepared: Prepared {
                alloc,
                script,
                natives,
                cifs: prepare_all::<A>(alloc, script, natives)?,
            },
            configuration: Configuration {
                innermost: None,
                suspended: Vec::new(alloc),
                served: None,
                table: Table::new(),
                moves: MOST_MOVES as u32,
            },
            over: false,
        })
    }

    /// Whether the run is over: once a `turn`, also one inside `run_main`, returned other than
    /// `More`, or `serve` other than `Done`.
    pub fn ended(&self) -> bool
        ensures { result ≡ self.now.over }
    {
        self.over
    }

    /// The live closures.
    pub fn table(&self) -> &Table
        ensures { result.now ≡ self.now.configuration.table }
    {
        &self.configuration.table
    }

    /// The call interfaces of the run's signatures.
    pub fn cifs(&self) -> &Cifs<A>
        ensures { result.now ≡ self.now.prepared.cifs }
    {
        &self.prepared.cifs
    }

    /// How many moves are left.
    pub fn moves_left(&self) -> u32
        ensures { result ≡ self.now.configuration.moves }
    {
        self.configuration.moves
    }

    /// Puts main's activation on the configuration, before its first move. It takes no memory.
    pub fn start(&mut self)
        requires prepared { IsPrepared A.standard self.old.prepared.script.now (handed title meaning signatures self.old.prepared.natives.now.items) self.old.prepared.cifs }
        requires new { IsNew self.old.configuration }
        ensures standing { (m : State) →
            PositionsAgree self.old.prepared.script.now (handed title meaning signatures self.old.prepared.natives.now.items) self.old.prepared.cifs m self.new.configuration }
        ensures between { let p = program A.standard self.old.prepared.script.now (handed title meaning signatures self.old.prepared.natives.now.items) in
            (trace : Bool) (m : State) (output : SinkState) → m ≡ begun A.TARGET m.spare_events m.spare_bytes →
            StandsAt p (main_base A.standard) (remainder_of (meaning_of p)) (main_beginning trace A.standard output) [] [] self.new.configuration m output }
        ensures goes_on { (m : State) → m ≡ begun A.TARGET m.spare_events m.spare_bytes →
            CanGoOn A.standard (program A.standard self.old.prepared.script.now (handed title meaning signatures self.old.prepared.natives.now.items)) traced_or_not self.new.configuration m }
        ensures prepared { self.new.prepared ≡ self.old.prepared }
        ensures going { self.new.over ≡ self.old.over }
    {
        self.prepared.start(&mut self.configuration);
    }

    /// Does one move of the innermost activation. It is counted, and none is asked for where none
    /// is left. With `trace` an entry or a return is told as soon as it is recorded, in two lines.
    ///
    /// `More` and `Done` count one move, and so do `Stopped` and `Failed`, but at the move limit,
    /// where none is left. What happened is this move's alone, since closures and moves are then the
    /// direct meaning's: one item of the trace at most; at `Done` the return of the call that is
    /// served, or nothing where main returns; at `Stopped` the stop. At `Failed` closures are as they
    /// were. At `NoMemory` they are those before the move or after it, which is counted or not; at
    /// both one item at most happened. `More` writes no byte of the stack but those of the call that
    /// is entered or left, and below.
    ///
    /// Nothing is asked of the output: between two turns a caller may write to it, hand in another,
    /// and change `trace`.
    pub fn turn<O: Sink>(&mut self, machine: &mut Machine, output: &mut O, trace: bool) -> Turn
        requires prepared { IsPrepared A.standard self.old.prepared.script.now (handed title meaning signatures self.old.prepared.natives.now.items) self.old.prepared.cifs }
        requires standing { PositionsAgree self.old.prepared.script.now (handed title meaning signatures self.old.prepared.natives.now.items) self.old.prepared.cifs machine.old self.old.configuration }
        requires between { CanGoOnWith A.standard (program A.standard self.old.prepared.script.now (handed title meaning signatures self.old.prepared.natives.now.items)) trace self.old.configuration machine.old }
        ensures turned { TurnSays A.standard trace (program A.standard self.old.prepared.script.now (handed title meaning signatures self.old.prepared.natives.now.items))
            self.old.configuration machine.old (O.state output.old) self.new.configuration machine.new (O.state output.new) result }
        ensures standing { result ≡ Turn.More →
            PositionsAgree self.old.prepared.script.now (handed title meaning signatures self.old.prepared.natives.now.items) self.old.prepared.cifs machine.new self.new.configuration }
        ensures between { StillCanGoOn A.standard (program A.standard self.old.prepared.script.now (handed title meaning signatures self.old.prepared.natives.now.items)) trace
            self.old.configuration machine.old self.new.configuration machine.new result }
        ensures counted { result ≡ Turn.More → self.old.configuration.moves ≡ suc self.new.configuration.moves }
        ensures stack { result ≡ Turn.More → WritesInLast machine.old machine.new }
        ensures failed { result ≡ Turn.Failed → HasFailed self.old.configuration self.new.configuration }
        ensures prepared { self.new.prepared ≡ self.old.prepared }
        ensures going { result ≡ Turn.More → self.new.over ≡ self.old.over }
        ensures over { (result ≡ Turn.More → ⊥) → self.new.over ≡ true }
    {
        let turn = self
            .prepared
            .turn(&mut self.configuration, machine, output, trace);
        if turn != Turn::More {
            self.over = true;
        }
        turn
    }

    /// Runs main to its end, on a machine as it begins for the standard's target. Each line is
    /// handed to the output before the next move. With `trace` each entry and each return is told
    /// as soon as it is recorded, in two lines.
    ///
    /// Calls alone move the machine's count of steps on: after `Done` it is 66 on amd64, 108 on aapcs64
    /// and apple, 112 on riscv and 3 on win64 for each call, modulo 2^64.
    pub fn run_main<O: Sink>(
        &mut self,
        machine: &mut Machine,
        output: &mut O,
        trace: bool,
    ) -> RunEnd
        requires prepared { IsPrepared A.standard self.old.prepared.script.now (handed title meaning signatures self.old.prepared.natives.now.items) self.old.prepared.cifs }
        requires new { IsNew self.old.configuration }
        requires begun { machine.old ≡ begun A.TARGET machine.old.spare_events machine.old.spare_bytes }
        ensures done { result ≡ RunEnd.Done →
            RunMatches (main_tracing trace A.standard) A.standard (program A.standard self.old.prepared.script.now (handed title meaning signatures self.old.prepared.natives.now.items))
            (O.state output.old) (O.state output.new) machine.new }
        ensures returns { result ≡ RunEnd.Done →
            (meaning_of (program A.standard self.old.prepared.script.now (handed title meaning signatures self.old.prepared.natives.now.items))).end ≡ returned void_value }
        ensures steps { result ≡ RunEnd.Done →
            machine.new.steps ≡ (call_steps A.TARGET * returns_in (trace_of (program A.standard self.old.prepared.script.now (handed title meaning signatures self.old.prepared.natives.now.items)))) % 2 ^ 64 }
        ensures stopped { (stop : Stop) → result ≡ RunEnd.Stopped stop →
            RunMatches (main_tracing trace A.standard) A.standard (program A.standard self.old.prepared.script.now (handed title meaning signatures self.old.prepared.natives.now.items))
            (O.state output.old) (O.state output.new) machine.new }
        ensures stops { (stop : Stop) → result ≡ RunEnd.Stopped stop →
            (meaning_of (program A.standard self.old.prepared.script.now (handed title meaning signatures self.old.prepared.natives.now.items))).end ≡ stopped stop }
        ensures no_memory { result ≡ RunEnd.NoMemory → (O.state output.new).faults ≡ (O.state output.old).faults }
        ensures failed { result ≡ RunEnd.Failed → Rose (O.state output.old).faults (O.state output.new).faults }
        ensures cut_by_memory { result ≡ RunEnd.NoMemory →
            RunWasInterrupted (main_tracing trace A.standard) A.standard (program A.standard self.old.prepared.script.now (handed title meaning signatures self.old.prepared.natives.now.items)) false
            (O.state output.old) (O.state output.new) machine.new self.new.configuration.table self.new.configuration.moves }
        ensures cut_by_write { result ≡ RunEnd.Failed →
            RunWasInterrupted (main_tracing trace A.standard) A.standard (program A.standard self.old.prepared.script.now (handed title meaning signatures self.old.prepared.natives.now.items)) true
            (O.state output.old) (O.state output.new) machine.new self.new.configuration.table self.new.configuration.moves }
        ensures never_falls { (O.state output.old).faults ≤ (O.state output.new).faults }
        ensures part { WrotePart (main_tracing trace A.standard) (program A.standard self.old.prepared.script.now (handed title meaning signatures self.old.prepared.natives.now.items))
            (O.state output.old) (O.state output.new) }
        ensures left { result ≡ RunEnd.Done →
            MainHasReturned (program A.standard self.old.prepared.script.now (handed title meaning signatures self.old.prepared.natives.now.items)) self.new.configuration machine.new }
        ensures left_at_stop { (stop : Stop) → result ≡ RunEnd.Stopped stop →
            MainHasStopped (program A.standard self.old.prepared.script.now (handed title meaning signatures self.old.prepared.natives.now.items)) self.new.configuration }
        ensures prepared { self.new.prepared ≡ self.old.prepared }
        ensures over { self.new.over ≡ true }
    {
        self.over = true;
        self.prepared
            .run_main(&mut self.configuration, machine, output, trace)
    }

    /// Serves the call of a live closure that the machine shows at its entry, by any caller: does
    /// moves until the entered activation has left. Closure and arguments are learned from the machine
    /// alone, whose target stays. With `trace` entries and returns are told, the entered one's first.
    pub fn serve<O: Sink>(&mut self, machine: &mut Machine, output: &mut O, trace: bool) -> RunEnd
        requires prepared { IsPrepared A.standard self.old.prepared.script.now (handed title meaning signatures self.old.prepared.natives.now.items) self.old.prepared.cifs }
        requires idle { IsIdle (program A.standard self.old.prepared.script.now (handed title meaning signatures self.old.prepared.natives.now.items)) self.old.configuration }
        requires holds { HoldsMap machine.old.target self.old.configuration.table machine.old.code }
        requires entry { (closure : Closure) × (arguments : List ValueTree) ×
            IsAtEntry A.standard (program A.standard self.old.prepared.script.now (handed title meaning signatures self.old.prepared.natives.now.items)) self.old.configuration.table machine.old closure arguments }
        ensures served { Served A.standard trace (program A.standard self.old.prepared.script.now (handed title meaning signatures self.old.prepared.natives.now.items))
            self.old.configuration machine.old (O.state output.old) self.new.configuration machine.new (O.state output.new) result }
        ensures target { machine.new.target ≡ machine.old.target }
        ensures prepared { self.new.prepared ≡ self.old.prepared }
        ensures going { result ≡ RunEnd.Done → self.new.over ≡ self.old.over }
        ensures over { (result ≡ RunEnd.Done → ⊥) → self.new.over ≡ true }
    {
        let end = self
            .prepared
            .serve(&mut self.configuration, machine, output, trace);
        if end != RunEnd::Done {
            self.over = true;
        }
        end
    }
}
