//! A print.
ghost use Rattle.std.specs.Prelude.{◌≡◌, ◌+◌, ◌<◌, ◌^◌, List, Some, length, suc, true};
ghost use Rattle.ffi3_type_spec.specs.Value.{fits, void_value};
ghost use Rattle.ffi3_types.specs.TreeOf.{tree_of};
ghost use Rattle.ffi3_values.specs.ValueOf.{value_of};
ghost use Rattle.ffi3_place_spec.specs.Event.{Event};
ghost use Rattle.ffi3_semantics_spec.specs.Meaning.{Program};
ghost use Rattle.ffi3_semantics_spec.specs.Move as asks;
ghost use Rattle.ffi3_semantics_spec.specs.Trace.{TraceItem};
ghost use Rattle.ffi3_small_step_spec.specs.Remainder.{Remainder};
ghost use Rattle.ffi3_small_step_spec.specs.SoFar.{Base};
ghost use Rattle.ffi3_machine_spec.specs.State.{State};
ghost use Rattle.ffi3_run_state.specs.Between.{Beginning, IsAsking, run_state};
ghost use Rattle.ffi3_run_state.specs.Going.{and_result};
ghost use Rattle.ffi3_run_state.specs.Turned.{KeepsClosures, Turned};

use crate::line::write_print;
use crate::{Activation, Configuration, Turn};
use ffi3_io::Sink;
use ffi3_types::FfiType;
use ffi3_values::Value;
use std::alloc::Global;

impl<S: Drop> Configuration<S> {
    /// Prints a line.
    pub fn print<O: Sink>(
        &mut self,
        alloc: Global,
        output: &mut O,
        current: Activation<S>,
        ty: &FfiType,
        value: &Value,
    ) -> Turn
        requires fits { fits (tree_of ty.now) (value_of value.now) ≡ true }
        requires few { length current.results + 1 < 2 ^ 32 }
        ensures goes { result ≡ Turn.More → self.new ≡ record self.old { innermost = Some (and_result current void_value) } }
        ensures kept { result ≡ Turn.Failed → KeepsClosures self.old self.new }
        ensures turned { (p : Program) (base : Base) (all : Remainder) (first : Beginning) (own : List TraceItem) (events : List Event) (machine : State) →
            IsAsking p base all first own events (run_state p.signatures current self.old machine (O.state output.old)) (asks.print (tree_of ty.now) (value_of value.now)) →
            Turned p base all first own (suc self.old.moves) self.new machine (O.state output.new) result }
    {
        match write_print(alloc, output, ty, value) {
            Ok(()) => self.go_on(current, Value::Void),
            Err(why) => Turn::cut_off(why),
        }
    }
}
