//! What a body knows at one of its moves.
ghost use Rattle.std.specs.Prelude.{◌≡◌, length, true, map};
ghost use Rattle.std.specs.List.{list_all};
ghost use Rattle.ffi3_type_spec.specs.Tree.{trees_of};
ghost use Rattle.ffi3_type_spec.specs.Value.{all_fit, values_of};
ghost use Rattle.ffi3_semantics_spec.specs.SeenActivation.{arguments_of};
ghost use Rattle.ffi3_script_spec.specs.Typed.{signature_is_right};
ghost use Rattle.ffi3_script_body.specs.KnownOf.{is_there, past_type, past_value, pasts_of};

use crate::{Act, NoMemory, ScriptMove};
use ffi3_body::Seen;
use ffi3_types::{FfiType, Sigs};
use ffi3_values::{Value, zero};
use std::alloc::Global;

/// A move before the next one: what it does, and the number of its result, or None where it was
/// not done.
#[derive(Clone, Copy)]
struct Outcome<'a> {
    act: &'a Act,
    result: Option<u32>,
}

/// What an activation has seen, and the moves before the next one.
#[derive(Clone, Copy)]
pub(crate) struct Known<'a, 'b, 'c> {
    sigs: &'a Sigs,
    // the first moves, which were all done: move `i` of them has result `i`
    done: &'a [ScriptMove],
    // the moves after those
    later: &'a [ScriptMove],
    // the numbers of the results of the first of these, or None where one was not done
    marks: &'b [Option<u32>],
    seen: &'b Seen<'c>,
    ghost right: { list_all signature_is_right sigs.now ≡ true },
    ghost arguments_fit: { all_fit (trees_of seen.now.signature.arguments) (values_of (arguments_of seen.now)) ≡ true },
    ghost there: { list_all (is_there (length sigs.now) (length seen.now.results))
        (pasts_of done.now later.now marks.now) ≡ true },
    ghost outcomes_fit: { all_fit (trees_of (map (past_type sigs.now) (pasts_of done.now later.now marks.now)))
        (values_of (map (past_value sigs.now seen.now.results) (pasts_of done.now later.now marks.now))) ≡ true },
}

impl<'a, 'b, 'c> Known<'a, 'b, 'c> {
    ghost use Rattle.std.specs.Prelude.{◌≡◌, ◌<◌, length, true, map, IfOk, slice_index_or};
    ghost use Rattle.std.specs.List.{list_all};
    ghost use Rattle.ffi3_type_spec.specs.Tree.{trees_of};
    ghost use Rattle.ffi3_type_spec.specs.Value.{all_fit, values_of, void_value};
    ghost use Rattle.ffi3_values.specs.ValueOf.{value_of};
    ghost use Rattle.ffi3_script_spec.specs.Typed.{signature_is_right};
    ghost use Rattle.ffi3_script_body.specs.KnownOf.{is_there, past_of, past_type, past_value, pasts_of, kinds_from, known_from};
    ghost use Rattle.ffi3_script_body.specs.KnownAt.{kinds_of, known_of};

    /// What is known after these moves: those that were all done, and then as many of the later
    /// ones as are marked.
    pub(crate) fn new(
        sigs: &'a Sigs,
        done: &'a [ScriptMove],
        later: &'a [ScriptMove],
        marks: &'b [Option<u32>],
        seen: &'b Seen<'c>,
    ) -> Known<'a, 'b, 'c>
        requires right { list_all signature_is_right sigs.now ≡ true }
        requires there { list_all (is_there (length sigs.now) (length seen.now.results)) (pasts_of done.now later.now marks.now) ≡ true }
        requires fit { all_fit (trees_of (map (past_type sigs.now) (pasts_of done.now later.now marks.now)))
            (values_of (map (past_value sigs.now seen.now.results) (pasts_of done.now later.now marks.now))) ≡ true }
        ensures kinds { kinds_of result ≡ kinds_from sigs.now seen.now (pasts_of done.now later.now marks.now) }
        ensures is { known_of result ≡ known_from sigs.now seen.now (pasts_of done.now later.now marks.now) }
    {
        // by which the arguments are known to fit
        seen.count();
        Known {
            sigs,
            done,
            later,
            marks,
            seen,
        }
    }

    /// Argument `i`.
    pub(crate) fn argument(&self, alloc: Global, i: u32) -> Result<Value, NoMemory>
        requires { i < length (kinds_of self.now).arguments }
        ensures { IfOk result (λ v. value_of v ≡ slice_index_or (known_of self.now).arguments i void_value) }
    {
        self.seen.arg(alloc, i)
    }

    /// The user data of the closure.
    pub(crate) fn user(&self) -> u64
        ensures { result ≡ (known_of self.now).user }
    {
        self.seen.user()
    }

    /// What became of move `i`.
    fn past(&self, i: u32) -> Outcome<'a>
        requires { i < length (kinds_of self.now).outcomes }
        ensures there { is_there (length self.now.sigs.now) (length self.now.seen.now.results) (past_of result) ≡ true }
        ensures value { past_value self.now.sigs.now self.now.seen.now.results (past_of result) ≡
            slice_index_or (known_of self.now).outcomes i void_value }
    {
        let i = i as usize;
        if i < self.done.len() {
            Outcome {
                act: &self.done[i].act,
                result: Some(i as u32),
            }
        } else {
            let j = i - self.done.len();
            Outcome {
                act: &self.later[j].act,
                result: self.marks[j],
            }
        }
    }

    /// The value of move `i`: its result, or the zero value of its type where it was not done.
    pub(crate) fn outcome(&self, alloc: Global, i: u32) -> Result<Value, NoMemory>
        requires { i < length (kinds_of self.now).outcomes }
        ensures { IfOk result (λ v. value_of v ≡ slice_index_or (known_of self.now).outcomes i void_value) }
    {
        let outcome = self.past(i);
        match outcome.result {
            Some(r) => self.seen.result(r).copy(alloc),
            None => match outcome.act {
                Act::Call { sig, .. } => zero(alloc, self.sigs.get(*sig as usize).ret()),
                Act::Make { .. } => zero(alloc, &FfiType::Pointer),
                _ => Ok(Value::Void),
            },
        }
    }
}
