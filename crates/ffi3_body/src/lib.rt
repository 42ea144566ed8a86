//! What a function does: one move at a time, each a function of what its activation has seen.
#![tactic(auto)]

ghost use Rattle.std.specs.Prelude.{◌≡◌, ◌<◌, IfOk, length, All, ℕ, List};
ghost use Rattle.ffi3_type_spec.specs.Signature.{Signature, signature_at, SignatureHasNoFault};
ghost use Rattle.ffi3_semantics_spec.specs.Move.{Behaviour, MoveFits};
ghost use Rattle.ffi3_body.specs.MoveOf.{move_of};
ghost use Rattle.ffi3_semantics_spec.specs.SeenActivation.{arguments_of};
ghost use Rattle.ffi3_semantics_spec.specs.Follow.{ResultsFollow};

mod seen;

pub use ffi3_types::{FfiType, NoMemory, Sigs};
pub use ffi3_values::{Value, Values};
pub use seen::Seen;
use std::alloc::Global;

/// One thing that a function asks for. Signatures and functions go by their numbers in the lists
/// that the body counts in.
#[derive(Debug, Drop)]
pub enum Move {
    /// Call the closure at `ptr` by signature `sig`. Its result is the call's.
    Call { ptr: u64, sig: u32, args: Values },
    /// Make a closure of function `func` with this user data. Its result is a pointer.
    Make { func: u32, user: u64 },
    /// Free the closure at `ptr`. Its result is Void.
    Free { ptr: u64 },
    /// Print a line of the value. Its result is Void.
    Print { ty: FfiType, value: Value },
    /// End with this result.
    Return(Value),
}

/// What a function does: its moves are a function of its arguments, its user data and the results
/// of its moves so far.
pub trait Body: Drop {
    /// The move that arguments, user data and results give.
    ghost meaning: { Self → Behaviour };

    /// The body's own signature.
    ghost signature: { Self → Signature };

    /// The signatures that its calls count in.
    ghost signatures: { Self → List Signature };

    /// How many functions there are that it can make closures of.
    ghost functions: { Self → ℕ };

    /// The next move of an activation of this body. It fits: its numbers lie in their lists, and
    /// its values have their types.
    fn next(&self, alloc: Global, seen: &Seen) -> Result<Move, NoMemory>
        requires own { seen.now.signature ≡ signature self.now }
        requires follow { ResultsFollow (signatures self.now) (meaning self.now) (arguments_of seen.now) seen.now.user seen.now.results }
        ensures is { IfOk result
            (λ m. move_of m ≡ meaning self.now (arguments_of seen.now) seen.now.user seen.now.results) }
        ensures fits { IfOk result
            (λ m. MoveFits (signatures self.now) (functions self.now) (signature self.now).result_type (move_of m)) };
}

/// A function that stands beside those of a script. Its own signature is number 0 of its
/// signatures, its calls count in them, and the one function that it can make closures of is
/// itself, number 0.
pub trait Native: Body {
    /// The bytes of the name.
    ghost title: { Self → List ℕ };

    /// The name by which scripts make closures of it.
    fn name(&self) -> &str
        ensures { result.now ≡ title self.now };

    /// Its signatures. None of them has a fault.
    fn sigs(&self) -> &Sigs
        ensures is { result.now ≡ Self.signatures self.now }
        ensures some { 0 < length (Self.signatures self.now) }
        ensures own { Self.signature self.now ≡ signature_at (Self.signatures self.now) 0 }
        ensures right { All SignatureHasNoFault (Self.signatures self.now) }
        ensures itself { Self.functions self.now ≡ 1 };
}
