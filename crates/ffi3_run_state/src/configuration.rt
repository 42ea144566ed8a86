//! The configuration of a run.
ghost use Rattle.std.specs.Prelude.{◌≡◌, ◌+◌, ◌<◌, ◌^◌, length};
ghost use Rattle.ffi3_values.specs.ValueOf.{value_of};
ghost use Rattle.ffi3_run_state.specs.Going.{GoneOn};
ghost use Rattle.ffi3_run_state.specs.Turned.{turn_of};

use crate::{Activation, OpenCall, Waiting};
use ffi3_closures::Table;
use ffi3_io::IoError;
use ffi3_semantics_spec::Stop;
use ffi3_values::Value;

/// What a run keeps between two moves, beside the machine: the activations that are not finished,
/// the live closures, and how many moves are left.
#[derive(Drop)]
pub struct Configuration<S> {
    /// The activation whose move is next; none where the run has ended.
    pub innermost: Option<Activation<S>>,
    /// Those around it, each of which waits for the return of a call; the last one is the
    /// innermost of them.
    pub suspended: Vec<Waiting<S>>,
    /// The call that the outermost activation answers to; none where that is main.
    pub served: Option<OpenCall>,
    pub table: Table,
    pub moves: u32,
}

/// What a move came to.
#[derive(Clone, Copy, Debug, PartialEq, Eq, Drop)]
pub enum Turn {
    /// The run goes on.
    More,
    /// The outermost activation returned.
    Done,
    /// The run stopped, and the stop's line is written.
    Stopped(Stop),
    /// Memory was refused.
    NoMemory,
    /// A write failed.
    Failed,
}

impl Turn {
    /// What a move came to that was interrupted.
    pub(crate) fn cut_off(why: IoError) -> Turn
        ensures is { result ≡ turn_of why }
        ensures over { result ≡ Turn.More → ⊥ }
    {
        match why {
            IoError::NoMemory => Turn::NoMemory,
            IoError::Failed => Turn::Failed,
        }
    }
}

impl<S: Drop> Configuration<S> {
    /// The activation goes on, its move's result one of its results.
    pub(crate) fn go_on(&mut self, mut current: Activation<S>, value: Value) -> Turn
        requires { length current.results + 1 < 2 ^ 32 }
        ensures { GoneOn (value_of value) current self.old self.new result }
    {
        match current.results.push(value) {
            Ok(()) => {
                self.innermost = Some(current);
                Turn::More
            }
            Err(_) => Turn::NoMemory,
        }
    }
}
