//! Natives behind boxes. A box is called in a function of its own, so that the proofs of others
//! speak of the box itself.
ghost use Rattle.std.specs.Prelude.{◌≡◌, ◌<◌, IfOk, Some, length, slice_get, All};
ghost use Rattle.ffi3_type_spec.specs.Signature.{SignatureHasNoFault, signature_at};
ghost use Rattle.ffi3_semantics_spec.specs.Move.{MoveFits};
ghost use Rattle.ffi3_semantics_spec.specs.Meaning.{renumbered};
ghost use Rattle.ffi3_body.specs.MoveOf.{move_of};
ghost use Rattle.ffi3_semantics_spec.specs.SeenActivation.{arguments_of};
ghost use Rattle.ffi3_semantics_spec.specs.Follow.{ResultsFollow};
ghost use Rattle.ffi3_script_spec.specs.Handed.{handed, handed_in, HasRoom};

use ffi3_body::{Move, Native, Seen};
use ffi3_types::{NoMemory, Sigs};
use std::alloc::Global;

/// Native `j`.
pub(crate) fn native_at(natives: &Vec<Box<dyn Native>>, j: u32) -> &Box<dyn Native>
    requires { j < length natives.now.items }
    ensures { slice_get (handed title meaning signatures natives.now.items) j
        ≡ Some (handed_in (title result.now) (meaning result.now) (signatures result.now)) }
{
    &natives[j as usize]
}

/// A native's signatures, of which the first is its own.
pub(crate) fn sigs_of(native: &Box<dyn Native>) -> &Sigs
    ensures are { result.now ≡ signatures native.now }
    ensures some { 0 < length (signatures native.now) }
    ensures own { signature native.now ≡ signature_at (signatures native.now) 0 }
    ensures itself { functions native.now ≡ 1 }
    ensures right { All SignatureHasNoFault (signatures native.now) }
{
    native.sigs()
}

/// The next move of a native, by its own numbers.
pub(crate) fn next_of(
    alloc: Global,
    native: &Box<dyn Native>,
    seen: &Seen,
) -> Result<Move, NoMemory>
    requires own { seen.now.signature ≡ signature_at (signatures native.now) 0 }
    requires follow { ResultsFollow (signatures native.now) (meaning native.now) (arguments_of seen.now) seen.now.user seen.now.results }
    ensures is { IfOk result
        (λ m. move_of m ≡ meaning native.now (arguments_of seen.now) seen.now.user seen.now.results) }
    ensures fits { IfOk result
        (λ m. MoveFits (signatures native.now) 1 seen.now.signature.result_type (move_of m)) }
{
    // by which it is called by the first of its signatures, and makes only itself
    sigs_of(native);
    next_in(alloc, native, seen)
}

/// The same in the words of the trait.
fn next_in(alloc: Global, native: &Box<dyn Native>, seen: &Seen) -> Result<Move, NoMemory>
    requires own { seen.now.signature ≡ signature native.now }
    requires follow { ResultsFollow (signatures native.now) (meaning native.now) (arguments_of seen.now) seen.now.user seen.now.results }
    ensures is { IfOk result
        (λ m. move_of m ≡ meaning native.now (arguments_of seen.now) seen.now.user seen.now.results) }
    ensures fits { IfOk result
        (λ m. MoveFits (signatures native.now) (functions native.now) (signature native.now).result_type (move_of m)) }
{
    native.next(alloc, seen)
}

/// A native's move by the numbers of the run, where its signatures begin at `first` and it is
/// function `own`.
pub(crate) fn renumbered(asked: Move, first: u32, own: u32) -> Move
    requires { HasRoom first own (move_of asked) }
    ensures { move_of result ≡ renumbered first own (move_of asked) }
{
    match asked {
        Move::Call { ptr, sig, args } => Move::Call {
            ptr,
            sig: first + sig,
            args,
        },
        Move::Make { func, user } => Move::Make {
            func: own + func,
            user,
        },
        Move::Free { ptr } => Move::Free { ptr },
        Move::Print { ty, value } => Move::Print { ty, value },
        Move::Return(value) => Move::Return(value),
    }
}
