//! Closures that are made and freed.
ghost use Rattle.std.specs.Prelude.{◌≡◌, ℕ, ◌+◌, ◌<◌, ◌^◌, IfOk, List, Some, length, suc};
ghost use Rattle.ffi3_type_spec.specs.Value.{void_value};
ghost use Rattle.ffi3_values.specs.ValueOf.{value_of};
ghost use Rattle.ffi3_place_spec.specs.Event.{Event};
ghost use Rattle.ffi3_semantics_spec.specs.Meaning.{Program, function_at, pointer_value};
ghost use Rattle.ffi3_semantics_spec.specs.Move as asks;
ghost use Rattle.ffi3_semantics_spec.specs.Trace.{TraceItem};
ghost use Rattle.ffi3_small_step_spec.specs.Remainder.{Remainder};
ghost use Rattle.ffi3_small_step_spec.specs.SoFar.{Base};
ghost use Rattle.ffi3_machine_spec.specs.Slots.{HoldsMap};
ghost use Rattle.ffi3_run_state.specs.Between.{Beginning, IsAsking, run_state};
ghost use Rattle.ffi3_run_state.specs.Going.{and_result};
ghost use Rattle.ffi3_run_state.specs.Turned.{KeepsClosures, Turned};

use crate::stopping::stop;
use crate::{Activation, Cifs, Configuration, Turn};
use ffi3_io::Sink;
use ffi3_machine::Machine;
use ffi3_place::Abi;
use ffi3_semantics_spec::Stop;
use ffi3_types::{Bytes, NoMemory};
use ffi3_values::Value;
use std::alloc::Global;

/// An address as a value.
fn pointer(alloc: Global, address: u64) -> Result<Value, NoMemory>
    ensures { IfOk result (λ v. value_of v ≡ pointer_value address) }
{
    Ok(Value::Leaf(Bytes::from_slice(alloc, &address.to_le_bytes())?))
}

impl<S: Drop> Configuration<S> {
    /// Makes a closure of a function, by its number and that of its signature.
    pub fn make<A: Abi, O: Sink>(
        &mut self,
        alloc: Global,
        machine: &mut Machine,
        output: &mut O,
        cifs: &Cifs<A>,
        current: Activation<S>,
        func: u32,
        sig: u32,
        user: u64,
    ) -> Turn
        requires few { length current.results + 1 < 2 ^ 32 }
        requires holds { HoldsMap machine.old.target self.old.table machine.old.code }
        ensures goes { result ≡ Turn.More →
            (address : ℕ) × (self.new ≡ record self.old { innermost = Some (and_result current (pointer_value address)); table = self.new.table }) }
        ensures stack { machine.new.stack ≡ machine.old.stack }
        ensures kept { result ≡ Turn.Failed → KeepsClosures self.old self.new }
        ensures turned { (p : Program) (base : Base) (all : Remainder) (first : Beginning) (own : List TraceItem) (events : List Event) →
            p.signatures ≡ cifs.now → func < length p.functions → sig < length p.signatures → sig ≡ (function_at p func).signature →
            IsAsking p base all first own events (run_state p.signatures current self.old machine.old (O.state output.old)) (asks.make func user) →
            Turned p base all first own (suc self.old.moves) self.new machine.new (O.state output.new) result }
    {
        let Ok(address) = self.table.make(machine, func, sig, user) else {
            return stop(alloc, output, cifs, Stop::TableFull);
        };
        match pointer(alloc, address) {
            Ok(value) => self.go_on(current, value),
            Err(_) => Turn::NoMemory,
        }
    }

    /// Frees the closure at a pointer.
    pub fn free<A: Abi, O: Sink>(
        &mut self,
        alloc: Global,
        machine: &mut Machine,
        output: &mut O,
        cifs: &Cifs<A>,
        current: Activation<S>,
        ptr: u64,
    ) -> Turn
        requires few { length current.results + 1 < 2 ^ 32 }
        requires holds { HoldsMap machine.old.target self.old.table machine.old.code }
        ensures goes { result ≡ Turn.More →
            self.new ≡ record self.old { innermost = Some (and_result current void_value); table = self.new.table } }
        ensures stack { machine.new.stack ≡ machine.old.stack }
        ensures kept { result ≡ Turn.Failed → KeepsClosures self.old self.new }
        ensures turned { (p : Program) (base : Base) (all : Remainder) (first : Beginning) (own : List TraceItem) (events : List Event) →
            p.signatures ≡ cifs.now →
            IsAsking p base all first own events (run_state p.signatures current self.old machine.old (O.state output.old)) (asks.free ptr) →
            Turned p base all first own (suc self.old.moves) self.new machine.new (O.state output.new) result }
    {
        match self.table.free(machine, ptr) {
            Some(_) => self.go_on(current, Value::Void),
            None => stop(alloc, output, cifs, Stop::NoClosure { ptr }),
        }
    }
}
