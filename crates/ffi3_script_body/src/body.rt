//! A body of a script: the moves of a function, or of main.
ghost use Rattle.std.specs.Prelude.{◌≡◌, ◌<◌, ◌≤◌, ◌^◌, length, take, true};
ghost use Rattle.std.specs.List.{list_all};
ghost use Rattle.ffi3_script_spec.specs.Typed.{body_is_typed, signature_is_right};
ghost use Rattle.ffi3_script_body.specs.ExprOf.{script_moves_of};
ghost use Rattle.ffi3_script_body.specs.Own.{own_of, is_below};
ghost use Rattle.ffi3_script_body.specs.Always.{is_unconditional};

use crate::cursor::Cursor;
use crate::doing::{address, is_ready};
use crate::eval::{eval, eval_all};
use crate::known::Known;
use crate::{Act, NoMemory, ScriptMove};
use ffi3_body::{Body, Move, Seen};
use ffi3_types::{FfiType, Members, Sigs};
use ffi3_values::Value;
use std::alloc::Global;
use std::rc::Rc;

/// What a move does.
#[derive(Clone, Copy, Debug, PartialEq, Eq)]
pub enum MoveKind {
    /// It calls a closure.
    Call,
    /// It makes a closure.
    Make,
    /// It frees a closure.
    Free,
    /// It prints a value.
    Print,
    /// It ends the body.
    Return,
}

/// The moves of a function of a script, or of main. They are well typed, and end with a return.
#[derive(Drop)]
pub struct ScriptBody {
    sigs: Rc<Sigs>,
    // those of the script and the natives
    functions: u32,
    // the number of its own signature; main has none
    own: Option<u32>,
    moves: Vec<ScriptMove>,
    // how many moves at the start have no condition, and so are always done
    always: u32,
    ghost typed: { body_is_typed sigs.value functions (own_of sigs.value own) (script_moves_of moves.items) ≡ true },
    ghost right: { list_all signature_is_right sigs.value ≡ true },
    ghost few: { length moves.items < 2 ^ 31 },
    ghost own_there: { is_below (length sigs.value) own ≡ true },
    ghost always_within: { always ≤ length moves.items },
    ghost always_done: { list_all is_unconditional (take always moves.items) ≡ true },
}

/// How many moves at the start have no condition.
fn unconditional(moves: &[ScriptMove]) -> u32
    requires { length moves.now < 2 ^ 31 }
    ensures within { result ≤ length moves.now }
    ensures are { list_all is_unconditional (take result moves.now) ≡ true }
{
    let mut count: usize = 0;
    while count < moves.len() && moves[count].condition.is_none() {
        count += 1;
    }
    count as u32
}

impl ScriptBody {
    ghost use Rattle.std.specs.Prelude.{◌≡◌, ◌<◌, ◌^◌, get_or, length, true};
    ghost use Rattle.std.specs.List.{list_all};
    ghost use Rattle.ffi3_script_spec.specs.Typed.{body_is_typed, signature_is_right};
    ghost use Rattle.ffi3_script_body.specs.ExprOf.{script_moves_of};
    ghost use Rattle.ffi3_script_body.specs.Own.{own_of, is_below};
    ghost use Rattle.ffi3_script_body.specs.KindOf.{kind_of_act, act_at};
    ghost use Rattle.ffi3_script_body.specs.BodyOf.{moves_of, signatures_of, functions_of, signature_of, setting_of, meaning_of};
    ghost use Rattle.ffi3_script_body.specs.Agrees.{Agrees, kinds_at, known_at, passed, taken_by, one_more};
    ghost use Rattle.std.specs.Prelude.{◌+◌, IfOk, IfSome, None};
    ghost use Rattle.ffi3_type_spec.specs.Value.{ValueTree};
    ghost use Rattle.ffi3_semantics_spec.specs.Move.{MoveFits};
    ghost use Rattle.ffi3_semantics_spec.specs.SeenActivation.{SeenActivation, arguments_of};
    ghost use Rattle.ffi3_semantics_spec.specs.Follow.{ResultsFollow};
    ghost use Rattle.ffi3_body.specs.MoveOf as code;
    ghost use Rattle.ffi3_script_spec.specs.Meaning as meaning;
    ghost use Rattle.ffi3_script_spec.specs.Typed.{act_is_typed};
    ghost use Rattle.ffi3_script_body.specs.ExprOf.{act_of};
    ghost use Rattle.ffi3_script_body.specs.KnownAt.{kinds_of, known_of};

    /// The body of these moves, among a script's signatures and so many functions, natives too.
    /// Its own signature is the one of number `own`, or main's.
    pub fn new(
        sigs: Rc<Sigs>,
        functions: u32,
        own: Option<u32>,
        moves: Vec<ScriptMove>,
    ) -> ScriptBody
        requires typed { body_is_typed sigs.value functions (own_of sigs.value own)
            (script_moves_of moves.items) ≡ true }
        requires right { list_all signature_is_right sigs.value ≡ true }
        requires few { length moves.items < 2 ^ 31 }
        requires own_there { is_below (length sigs.value) own ≡ true }
        ensures moves_are { moves_of result ≡ script_moves_of moves.items }
        ensures signatures_are { signatures_of result ≡ sigs.value }
        ensures functions_are { functions_of result ≡ functions }
        ensures own_is { signature_of result ≡ own_of sigs.value own }
    {
        let always = unconditional(moves.as_slice());
        ScriptBody {
            sigs,
            functions,
            own,
            moves,
            always,
        }
    }

    /// The move that an act of this body is, where this is known.
    fn move_of(&self, alloc: Global, known: &Known, act: &Act) -> Result<Move, NoMemory>
        requires { act_is_typed (setting_of self.now) (kinds_of known.now) (act_of act.now) ≡ true }
        ensures { IfOk result (λ m. code.move_of m ≡ meaning.move_of (known_of known.now) (act_of act.now)) }
    {
        Ok(match act {
            Act::Call { ptr, sig, args } => Move::Call {
                ptr: address(alloc, known, ptr)?,
                sig: *sig,
                args: eval_all(
                    alloc,
                    known,
                    &Members::of_struct(self.sigs.get(*sig as usize).args()),
                    args,
                )?,
            },
            Act::Make { func, user } => Move::Make {
                func: *func,
                user: address(alloc, known, user)?,
            },
            Act::Free { ptr } => Move::Free {
                ptr: address(alloc, known, ptr)?,
            },
            Act::Print(v) => Move::Print {
                ty: v.ty.copy(alloc)?,
                value: eval(alloc, known, &v.ty, &v.value)?,
            },
            Act::Return(e) => Move::Return(match self.own {
                Some(i) => eval(alloc, known, self.sigs.get(i as usize).ret(), e)?,
                None => eval(alloc, known, &FfiType::Void, e)?,
            }),
            Act::ReturnVoid => Move::Return(Value::Void),
        })
    }

    /// A cursor before the first move of any activation of this body.
    pub fn cursor(&self, alloc: Global) -> Cursor
        ensures { (a : SeenActivation) → a.signature ≡ signature_of self.now → Agrees self.now a result }
    {
        Cursor {
            first: 0,
            marks: Vec::new(alloc),
            taken: 0,
            ready: false,
        }
    }

    /// Passes the moves that are always done and whose results are there, if none after those is
    /// passed.
    fn skip(&self, cursor: &mut Cursor, seen: &Seen)
        requires own { seen.now.signature ≡ signature_of self.now }
        requires follow { ResultsFollow (signatures_of self.now) (meaning_of self.now) (arguments_of seen.now) seen.now.user seen.now.results }
        requires agrees { Agrees self.now seen.now cursor.old }
        ensures agrees { Agrees self.now seen.now cursor.new }
    {
        if cursor.marks.is_empty() {
            if cursor.first < self.always {
                let first = self.always.min(seen.results());
                cursor.first = first;
                cursor.taken = first;
                cursor.ready = false;
            }
        }
    }

    /// The move at which the cursor stands.
    fn move_at(&self, cursor: &Cursor) -> &ScriptMove
        requires { passed cursor.now < length self.now.moves.items }
        ensures { result.now ≡ get_or self.now.moves.items (passed cursor.now) result.now }
    {
        &self.moves[cursor.first as usize + cursor.marks.len()]
    }

    /// What is known where the cursor stands.
    fn known_at<'a, 'b, 'c>(&'a self, cursor: &'b Cursor, seen: &'b Seen<'c>) -> Known<'a, 'b, 'c>
        requires { Agrees self.now seen.now cursor.now }
        ensures kinds { kinds_of result ≡ kinds_at self.now seen.now cursor.now }
        ensures is { known_of result ≡ known_at self.now seen.now cursor.now }
    {
        let first = cursor.first as usize;
        let done = &self.moves[..first];
        let later = &self.moves[first..];
        Known::new(&self.sigs, done, later, cursor.marks.as_slice(), seen)
    }

    /// One move: it is the next one, where it is done and has no result yet; or else it is passed.
    fn step(
        &self,
        alloc: Global,
        cursor: &mut Cursor,
        seen: &Seen,
    ) -> Result<Option<Move>, NoMemory>
        requires own { seen.now.signature ≡ signature_of self.now }
        requires follow { ResultsFollow (signatures_of self.now) (meaning_of self.now) (arguments_of seen.now) seen.now.user seen.now.results }
        requires agrees { Agrees self.now seen.now cursor.old }
        ensures is { IfOk result (λ o. IfSome o
            (λ m. code.move_of m ≡ meaning_of self.now (arguments_of seen.now) seen.now.user seen.now.results)) }
        ensures fits { IfOk result (λ o. IfSome o
            (λ m. MoveFits (signatures_of self.now) (functions_of self.now) (signature_of self.now).result_type (code.move_of m))) }
        ensures taken { IfOk result (λ o. IfSome o (λ m. taken_by cursor.new ≡ length seen.now.results)) }
        ensures agrees { Agrees self.now seen.now cursor.new }
        ensures on { IfOk result (λ o. o ≡ None → passed cursor.new ≡ passed cursor.old + 1) }
    {
        let m = self.move_at(cursor);
        let known = self.known_at(cursor, seen);
        if is_ready(alloc, cursor.ready, &known, &m.condition)? {
            if cursor.taken == seen.results() {
                let next = self.move_of(alloc, &known, &m.act)?;
                cursor.ready = true;
                return Ok(Some(next));
            }
            cursor.marks.push(Some(cursor.taken))?;
            cursor.taken += 1;
            cursor.ready = false;
        } else {
            cursor.marks.push(None)?;
        }
        Ok(None)
    }

    /// The next move of an activation of this body, as `next` gives it, from where the cursor
    /// stands: it then has passed the moves of all results that are seen. It agrees with what is
    /// seen as before, and after any result of this move too; also where memory was refused. So
    /// all calls in an activation pass each move once, and evaluate each condition once.
    pub fn next_at(&self, alloc: Global, cursor: &mut Cursor, seen: &Seen) -> Result<Move, NoMemory>
        requires own { seen.now.signature ≡ signature_of self.now }
        requires follow { ResultsFollow (signatures_of self.now) (meaning_of self.now) (arguments_of seen.now) seen.now.user seen.now.results }
        requires agrees { Agrees self.now seen.now cursor.old }
        ensures is { IfOk result
            (λ m. code.move_of m ≡ meaning_of self.now (arguments_of seen.now) seen.now.user seen.now.results) }
        ensures fits { IfOk result
            (λ m. MoveFits (signatures_of self.now) (functions_of self.now) (signature_of self.now).result_type (code.move_of m)) }
        ensures taken { IfOk result (λ m. taken_by cursor.new ≡ length seen.now.results) }
        ensures agrees { Agrees self.now seen.now cursor.new }
        ensures after { (r : ValueTree) → Agrees self.now (one_more seen.now r) cursor.new }
    {
        self.skip(cursor, seen);
        for _ in cursor.first as usize + cursor.marks.len()..self.moves.len() {
            if let Some(m) = self.step(alloc, cursor, seen)? {
                return Ok(m);
            }
        }
        // the last move is a return, which takes no result
        unreachable!()
    }

    /// How many moves there are.
    pub fn moves(&self) -> u32
        ensures are { result ≡ length (moves_of self.now) }
        ensures bound { result < 2 ^ 31 }
    {
        self.moves.len() as u32
    }

    /// Of which kind move `j` is.
    pub fn kind(&self, j: u32) -> MoveKind
        requires { j < length (moves_of self.now) }
        ensures { result ≡ kind_of_act (act_at (moves_of self.now) j) }
    {
        match &self.moves[j as usize].act {
            Act::Call { .. } => MoveKind::Call,
            Act::Make { .. } => MoveKind::Make,
            Act::Free { .. } => MoveKind::Free,
            Act::Print(_) => MoveKind::Print,
            Act::Return(_) => MoveKind::Return,
            Act::ReturnVoid => MoveKind::Return,
        }
    }
}

impl Body for ScriptBody {
    ghost use Rattle.ffi3_script_body.specs.BodyOf.{meaning_of, signature_of, signatures_of, functions_of};

    ghost meaning = { meaning_of };

    ghost signature = { signature_of };

    ghost signatures = { signatures_of };

    ghost functions = { functions_of };

    fn next(&self, alloc: Global, seen: &Seen) -> Result<Move, NoMemory> {
        let mut cursor = self.cursor(alloc);
        self.next_at(alloc, &mut cursor, seen)
    }
}
