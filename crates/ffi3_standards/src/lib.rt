//! Asks a question of the calling standard that a target's calls follow.
#![tactic(auto)]

ghost use Rattle.ffi3_place_spec.specs.Standard.{Standard};
ghost use Rattle.ffi3_explain_spec.specs.Standards.{standard_of};

use ffi3_aapcs64::Aapcs64;
use ffi3_amd64::Amd64;
use ffi3_apple::Apple;
use ffi3_place::Abi;
use ffi3_riscv::Riscv;
use ffi3_type_spec::Target;
use ffi3_win64::Win64;

/// A question to a calling standard, asked in the same words of each.
pub trait ByStandard {
    type Answer;

    // What a standard answers.
    ghost answers: { Self → Standard → Self.Answer → Type 0 };

    /// Asks this standard.
    fn by<A: Abi>(self) -> Self::Answer
        ensures { answers self A.standard result };
}

/// Asks the standard that the target's calls follow.
pub fn on_target<T: ByStandard>(target: Target, task: T) -> T::Answer
    ensures { T.answers task (standard_of target) result }
{
    match target {
        Target::Amd64 => task.by::<Amd64>(),
        Target::Aapcs64 => task.by::<Aapcs64>(),
        Target::Riscv => task.by::<Riscv>(),
        Target::Win64 => task.by::<Win64>(),
        Target::Apple => task.by::<Apple>(),
    }
}
