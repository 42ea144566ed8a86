//! What a run of functions is: their moves, the direct meaning (big-step semantics), its text and its journal. The
//! definitions are in `specs/`; these are the words that they share with the code.
#![tactic(auto)]

ghost use Rattle.ffi3_semantics_spec.specs.Meaning.{Program};
ghost use Rattle.ffi3_semantics_spec.specs.Recursion.{IsPlainRecursion};
ghost use Rattle.ffi3_semantics_spec.specs.MoreStack.{MoreStackIsTheSame};

/// What a closure stands for: a function and its signature, by their numbers in the run, and 64 bits of user data.
#[derive(Clone, Copy, Debug, PartialEq, Eq)]
pub struct Closure {
    pub func: u32,
    pub sig: u32,
    pub user: u64,
}

/// Why a run stops.
#[derive(Clone, Copy, Debug, PartialEq, Eq)]
pub enum Stop {
    /// No live slot starts at the pointer.
    NoClosure { ptr: u64 },
    /// The call's signature, `site`, is not that of the closure, `found`; both are numbers of the run.
    WrongSig { ptr: u64, site: u32, found: u32 },
    /// 256 closures are live.
    TableFull,
    /// The call needs more bytes of stack than are left.
    StackFull { need: u64, left: u64 },
    /// All moves of the run are used up.
    MoveLimit,
}

/// Does nothing. Its contract says that the direct meaning of every program is the plain recursion: an activation with
/// no move left stops, and one with a move left does it, and what follows goes on with one move less. And an activation
/// that does not stop for want of stack acts the same with more of it.
pub fn meaning_laws()
    ensures recursion { (p : Program) → IsPlainRecursion p }
    ensures more_stack { (p : Program) → MoreStackIsTheSame p }
{}
