//! The activations of a run that are not finished.
ghost use Rattle.std.specs.Prelude.{◌≡◌};
ghost use Rattle.ffi3_run_state.specs.Going.{activation_of};

use ffi3_callee::Incoming;
use ffi3_semantics_spec::Closure;
use ffi3_values::Values;
use std::alloc::Global;

/// Whose body an activation runs. Functions go by their numbers in the run.
#[derive(Clone, Copy, Debug, PartialEq, Eq, Drop)]
pub enum Who {
    Main,
    Function(u32),
}

/// A call that is open: the number of its signature in the run, and what its callee remembers of
/// its entry.
#[derive(Drop)]
pub struct OpenCall {
    pub sig: u32,
    pub incoming: Incoming,
}

/// An activation. Its arguments stand in the block of the call that it answers to, and nowhere
/// else. `S` says where it stands in its body.
#[derive(Drop)]
pub struct Activation<S> {
    pub who: Who,
    pub standing: S,
    /// The user data of the closure that was called.
    pub user: u64,
    /// The results of its moves so far.
    pub results: Values,
}

impl<S: Drop> Activation<S> {
    /// The activation of a closure's function before its first move.
    pub(crate) fn of_closure(alloc: Global, closure: Closure, standing: S) -> Activation<S>
        ensures { result ≡ activation_of closure standing }
    {
        Activation {
            who: Who::Function(closure.func),
            standing,
            user: closure.user,
            results: Values::new(alloc),
        }
    }
}

/// An activation that waits for the return of a call.
#[derive(Drop)]
pub struct Waiting<S> {
    pub activation: Activation<S>,
    pub call: OpenCall,
}
