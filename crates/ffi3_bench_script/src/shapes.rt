//! The argument types of the four functions.
ghost use Rattle.std.specs.Prelude.{◌≡◌, ◌<◌, ◌≤◌, ◌++◌, ◌∷◌, [], IfOk, OnOk, length, map};
ghost use Rattle.ffi3_script_spec.specs.Made.{drawn_arguments, after_arguments, made_signature};
ghost use Rattle.ffi3_bench_script.specs.KindOf.{types_of, state_of};

use crate::kinds::Kind;
use crate::{Draws, NoMemory};
use ffi3_types::{FfiType, Fields, Sig, Sigs};
use std::alloc::Global;

/// The kinds of the arguments of each function, but the last.
#[derive(Debug, Drop)]
pub struct Shapes {
    first: Vec<Kind>,
    second: Vec<Kind>,
    third: Vec<Kind>,
    fourth: Vec<Kind>,
    ghost few_first: { length first.items ≤ 4 },
    ghost few_second: { length second.items ≤ 4 },
    ghost few_third: { length third.items ≤ 4 },
    ghost few_fourth: { length fourth.items ≤ 4 },
}

/// One more kind.
fn push_kind(kinds: &mut Vec<Kind>, kind: Kind) -> Result<(), NoMemory>
    ensures { OnOk result (kinds.new.items ≡ kinds.old.items ++ kind ∷ []) }
{
    Ok(kinds.push(kind)?)
}

/// The kinds of one function's arguments: how many there are, and then each.
fn draw_kinds(alloc: Global, draws: &mut Draws) -> Result<Vec<Kind>, NoMemory>
    ensures are { IfOk result (λ ks. types_of ks.items ≡ drawn_arguments (state_of draws.old)) }
    ensures few { IfOk result (λ ks. length ks.items ≤ 4) }
    ensures moved { OnOk result (state_of draws.new ≡ after_arguments (state_of draws.old)) }
{
    let count = 1 + draws.draw(4);
    let mut kinds = Vec::new(alloc);
    for _ in 0..count {
        push_kind(&mut kinds, Kind::numbered(draws.draw(8)))?;
    }
    Ok(kinds)
}

/// The signature of a function of arguments of these kinds.
fn signature(alloc: Global, kinds: &[Kind]) -> Result<Sig, NoMemory>
    requires { length kinds.now ≤ 4 }
    ensures { IfOk result (λ s. s ≡ made_signature (types_of kinds.now)) }
{
    let mut args = Fields::new(alloc);
    for kind in kinds {
        args.push(kind.ty(alloc)?)?;
    }
    args.push(FfiType::U64)?;
    Ok(Sig::new(FfiType::U64, args, None))
}

impl Shapes {
    ghost use Rattle.std.specs.Prelude.{◌≡◌, ◌<◌, ◌≤◌, IfOk, OnOk, length, map};
    ghost use Rattle.ffi3_script_spec.specs.Made.{made_types, made_signature, types_at, state_before, first_state};
    ghost use Rattle.ffi3_bench_script.specs.KindOf.{types_of, state_of};
    ghost use Rattle.ffi3_bench_script.specs.ShapesOf.{types_in};
    ghost use Rattle.std.specs.Prelude.{ℕ};

    /// The kinds that are drawn from a seed on.
    pub fn drawn(alloc: Global, draws: &mut Draws) -> Result<Shapes, NoMemory>
        ensures are { (seed : ℕ) → state_of draws.old ≡ first_state seed → IfOk result (λ s. types_in s ≡ made_types seed) }
        ensures moved { (seed : ℕ) → state_of draws.old ≡ first_state seed → OnOk result (state_of draws.new ≡ state_before seed 4) }
    {
        Ok(Shapes {
            first: draw_kinds(alloc, draws)?,
            second: draw_kinds(alloc, draws)?,
            third: draw_kinds(alloc, draws)?,
            fourth: draw_kinds(alloc, draws)?,
        })
    }

    /// Those of function `s`.
    pub(crate) fn kinds(&self, s: u32) -> &[Kind]
        requires { s < 4 }
        ensures are { types_of result.now ≡ types_at (types_in self.now) s }
        ensures few { length result.now ≤ 4 }
    {
        match s {
            0 => &self.first,
            1 => &self.second,
            2 => &self.third,
            _ => &self.fourth,
        }
    }

    /// The four signatures.
    pub fn sigs(&self, alloc: Global) -> Result<Sigs, NoMemory>
        ensures { IfOk result (λ ss. ss ≡ map made_signature (types_in self.now)) }
    {
        let mut sigs = Sigs::new(alloc);
        sigs.push(signature(alloc, &self.first)?)?;
        sigs.push(signature(alloc, &self.second)?)?;
        sigs.push(signature(alloc, &self.third)?)?;
        sigs.push(signature(alloc, &self.fourth)?)?;
        Ok(sigs)
    }
}
