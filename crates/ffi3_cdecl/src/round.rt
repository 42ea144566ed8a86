//! Brackets that are open round a declarator.
ghost use Rattle.std.specs.Prelude.{◌≡◌, suc, IfOk};
ghost use Rattle.ffi3_cdecl_spec.specs.Machine.{and_more, brackets, star_inside, bracket_inside};
ghost use Rattle.ffi3_cdecl.specs.RoundOf.{round_of};

use ffi3_types::NoMemory;
use std::alloc::AllocError;

/// The most brackets that are counted: far more than any text has open.
const MOST_COUNTED: u64 = 0xFFFF_FFFF;

/// So many brackets that are open, and no star; or so many inside the innermost star, and so many outside of it.
#[derive(Clone, Copy)]
pub enum Round {
    Unstarred(u32),
    Starred(u32, u32),
}

/// The sum, if it is counted.
#[tactic(auto, using(crate::proofs::Rounds::and_more_is))]
pub fn sum(n: u32, m: u32) -> Result<u32, NoMemory>
    ensures { IfOk result (λ k. k ≡ and_more n m) }
{
    let k = n as u64 + m as u64;
    if k > MOST_COUNTED {
        return Err(AllocError);
    }
    Ok(k as u32)
}

/// How many are open.
pub fn brackets(o: Round) -> Result<u32, NoMemory>
    ensures { IfOk result (λ k. k ≡ brackets (round_of o)) }
{
    match o {
        Round::Unstarred(n) => Ok(n),
        Round::Starred(n, m) => sum(n, m),
    }
}

/// A star further inside.
pub fn star_inside(o: Round) -> Result<Round, NoMemory>
    ensures { IfOk result (λ p. round_of p ≡ star_inside (round_of o)) }
{
    let k = brackets(o)?;
    Ok(Round::Starred(0, k))
}

/// One more than so many.
pub fn one_more(n: u32) -> Result<u32, NoMemory>
    ensures { IfOk result (λ k. k ≡ suc n) }
{
    if n >= 0xFFFF_FFFF {
        return Err(AllocError);
    }
    Ok(n + 1)
}

/// A bracket further inside.
pub fn bracket_inside(o: Round) -> Result<Round, NoMemory>
    ensures { IfOk result (λ p. round_of p ≡ bracket_inside (round_of o)) }
{
    match o {
        Round::Unstarred(n) => Ok(Round::Unstarred(one_more(n)?)),
        Round::Starred(n, m) => Ok(Round::Starred(one_more(n)?, m)),
    }
}
