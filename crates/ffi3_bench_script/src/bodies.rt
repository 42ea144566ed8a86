//! The bodies of the functions, and main.
ghost use Rattle.std.specs.Prelude.{◌≡◌, ◌<◌, ◌≤◌, ◌+◌, ◌++◌, ◌∷◌, [], IfOk, OnOk, length};
ghost use Rattle.ffi3_type_spec.specs.declared.limits.TheConstants.{MOST_CALLS};
ghost use Rattle.ffi3_script_spec.specs.Script as script;
ghost use Rattle.ffi3_script_spec.specs.Made.{does, makes, total_of};
ghost use Rattle.ffi3_script_body.specs.ExprOf.{expression_of, act_of, script_move_of, script_moves_of};

use crate::filling::{arguments, number};
use crate::summing::{boxed, sum, with_arguments};
use crate::{Draws, NoMemory, Shapes};
use ffi3_script_body::{Act, Expr, ScriptMove, TypedExpr};
use ffi3_types::FfiType;
use std::alloc::Global;

/// A move without a condition and without a name.
fn does(act: Act) -> ScriptMove
    ensures { script_move_of result ≡ does (act_of act) }
{
    ScriptMove {
        condition: None,
        act,
        name: None,
    }
}

/// One more move.
fn push(moves: &mut Vec<ScriptMove>, one: ScriptMove) -> Result<(), NoMemory>
    ensures { OnOk result (moves.new.items ≡ moves.old.items ++ one ∷ []) }
{
    Ok(moves.push(one)?)
}

/// A move that returns a value.
fn returns(value: Box<Expr>) -> ScriptMove
    ensures { script_move_of result ≡ does (script.return (expression_of value.value)) }
{
    does(Act::Return(Box::into_inner(value)))
}

/// A closure of function `s`.
fn makes(alloc: Global, s: u32) -> Result<ScriptMove, NoMemory>
    ensures { IfOk result (λ m. script_move_of m ≡ makes s) }
{
    let user = number(alloc, &FfiType::Pointer, 0)?;
    Ok(does(Act::Make { func: s, user }))
}

/// The total of call `j` of main.
fn total_of(alloc: Global, j: u32) -> Result<Expr, NoMemory>
    requires { j ≤ MOST_CALLS }
    ensures { IfOk result (λ e. expression_of e ≡ total_of j) }
{
    if j == 0 {
        return number(alloc, &FfiType::U64, 0);
    }
    Ok(Expr::Outcome(3 + j))
}

impl Shapes {
    ghost use Rattle.std.specs.Prelude.{◌≡◌, ◌<◌, ◌≤◌, ◌+◌, ◌*◌, IfOk, OnOk, length};
    ghost use Rattle.ffi3_script_spec.specs.Made.{types_at, made_call, made_body, made_main, own_total, state_after};
    ghost use Rattle.ffi3_script_body.specs.ExprOf.{expression_of, script_move_of, script_moves_of};
    ghost use Rattle.ffi3_bench_script.specs.KindOf.{state_of};
    ghost use Rattle.ffi3_bench_script.specs.ShapesOf.{types_in};

    /// A call of function `s`, filled with `v`.
    fn call(&self, alloc: Global, s: u32, v: u32, total: Expr) -> Result<ScriptMove, NoMemory>
        requires there { s < 4 }
        requires small { v < 100 }
        ensures { IfOk result (λ m. script_move_of m ≡ made_call (types_in self.now) s v (expression_of total)) }
    {
        let args = arguments(alloc, self.kinds(s), v, total)?;
        let ptr = number(alloc, &FfiType::Pointer, 65_536 + 64 * s)?;
        Ok(does(Act::Call { ptr, sig: s, args }))
    }

    /// Function `s`'s own total.
    fn own_total(&self, s: u32) -> Expr
        requires { s < 4 }
        ensures { expression_of result ≡ own_total (types_at (types_in self.now) s) }
    {
        Expr::Argument(self.kinds(s).len() as u32)
    }

    /// The body of function `s`.
    pub fn body(&self, alloc: Global, s: u32) -> Result<Vec<ScriptMove>, NoMemory>
        requires { s < 4 }
        ensures are { IfOk result (λ ms. script_moves_of ms.items ≡ made_body (types_in self.now) s) }
        ensures few { IfOk result (λ ms. length ms.items ≤ 2) }
    {
        let mut moves = Vec::new(alloc);
        let mut start = boxed(alloc, self.own_total(s))?;
        if 0 < s {
            push(&mut moves, self.call(alloc, s - 1, 0, self.own_total(s))?)?;
            let inner = boxed(alloc, Expr::Outcome(0))?;
            start = sum(alloc, start, inner)?;
        }
        push(
            &mut moves,
            returns(with_arguments(alloc, start, self.kinds(s))?),
        )?;
        Ok(moves)
    }

    /// The moves of main: so many calls, drawn one after another, two draws each.
    pub fn main(
        &self,
        alloc: Global,
        draws: &mut Draws,
        calls: u32,
    ) -> Result<Vec<ScriptMove>, NoMemory>
        requires { calls ≤ MOST_CALLS }
        ensures are { IfOk result
            (λ ms. script_moves_of ms.items ≡ made_main (types_in self.now) calls (state_of draws.old)) }
        ensures few { IfOk result (λ ms. length ms.items ≤ MOST_CALLS + 6) }
        ensures moved { OnOk result (state_of draws.new ≡ state_after (2 * calls) (state_of draws.old)) }
    {
        let mut moves = Vec::new(alloc);
        push(&mut moves, makes(alloc, 0)?)?;
        push(&mut moves, makes(alloc, 1)?)?;
        push(&mut moves, makes(alloc, 2)?)?;
        push(&mut moves, makes(alloc, 3)?)?;
        for j in 0..calls {
            let s = draws.draw(4);
            let v = draws.draw(100);
            push(&mut moves, self.call(alloc, s, v, total_of(alloc, j)?)?)?;
        }
        let ty = FfiType::U64;
        let value = total_of(alloc, calls)?;
        push(&mut moves, does(Act::Print(TypedExpr { ty, value })))?;
        push(&mut moves, does(Act::ReturnVoid))?;
        Ok(moves)
    }
}
