//! A call that is served.
ghost use Rattle.std.specs.Prelude.{List};
ghost use Rattle.ffi3_type_spec.specs.Value.{ValueTree};
ghost use Rattle.ffi3_semantics_spec.specs.declared.Closure.{Closure};
ghost use Rattle.ffi3_machine_spec.specs.Slots.{HoldsMap};
ghost use Rattle.ffi3_script_spec.specs.Handed.{handed};
ghost use Rattle.ffi3_run_state.specs.Served.{IsIdle};
ghost use Rattle.ffi3_runner.specs.Running.{IsPrepared, program};
ghost use Rattle.ffi3_runner.specs.Serving.{IsAtEntry, Served};

use crate::prepare::Prepared;
use crate::run::RunEnd;
use ffi3_invoke::entered_closure;
use ffi3_io::Sink;
use ffi3_machine::Machine;
use ffi3_next_move::Standing;
use ffi3_place::Abi;
use ffi3_run_state::Configuration;

impl<'a, A: Abi> Prepared<'a, A> {
    /// Accepts the call that the machine shows, and does moves until its activation has left. With
    /// `trace` its entry is told first.
    pub(crate) fn serve<O: Sink>(
        &self,
        configuration: &mut Configuration<Standing>,
        machine: &mut Machine,
        output: &mut O,
        trace: bool,
    ) -> RunEnd
        requires prepared { IsPrepared A.standard self.now.script.now (handed title meaning signatures self.now.natives.now.items) self.now.cifs }
        requires idle { IsIdle (program A.standard self.now.script.now (handed title meaning signatures self.now.natives.now.items)) configuration.old }
        requires holds { HoldsMap machine.old.target configuration.old.table machine.old.code }
        requires entry { (closure : Closure) × (arguments : List ValueTree) ×
            IsAtEntry A.standard (program A.standard self.now.script.now (handed title meaning signatures self.now.natives.now.items)) configuration.old.table machine.old closure arguments }
        ensures { Served A.standard trace (program A.standard self.now.script.now (handed title meaning signatures self.now.natives.now.items))
            configuration.old machine.old (O.state output.old) configuration.new machine.new (O.state output.new) result }
    {
        let Some(closure) = configuration.table.find(entered_closure(machine)) else {
            unreachable!()
        };
        let alloc = self.alloc;
        let standing = Standing::in_function(alloc, self.script, self.natives, closure.func);
        if let Err(why) = configuration.accept_call(
            alloc, machine, output, &self.cifs, closure, standing, trace,
        ) {
            return RunEnd::cut_off(why);
        }
        self.run_on(configuration, machine, output, trace)
    }
}
