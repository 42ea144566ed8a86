//! Whose body an activation runs, and where it stands in it.
ghost use Rattle.std.specs.Prelude.{◌≡◌, ◌<◌, ◌≤◌, ◌+◌, ◌^◌, [], List, length};
ghost use Rattle.ffi3_semantics_spec.specs.Move.{no_signature};
ghost use Rattle.ffi3_semantics_spec.specs.Meaning.{main};
ghost use Rattle.ffi3_semantics_spec.specs.SeenActivation.{SeenActivation};
ghost use Rattle.ffi3_script_spec.specs.Natives.{NamedNative};
ghost use Rattle.ffi3_script_body.specs.BodyOf.{signature_of};
ghost use Rattle.ffi3_script.specs.ScriptOf.{script_of};
ghost use Rattle.ffi3_script_spec.specs.Handed.{handed, signatures_in};
ghost use Rattle.ffi3_next_move.specs.Stands.{who_of, StandingAgrees, IsBeforeMoves, IsInBody};

use crate::natives::{native_at, sigs_of};
use crate::numbers::first_of;
use ffi3_body::Native;
use ffi3_script::Script;
use ffi3_script_body::{Cursor, ScriptBody};
use std::alloc::Global;

/// Where an activation stands: whose body it runs, and in a script's body at which move.
#[derive(Drop)]
pub enum Standing {
    /// In main.
    InMain(Cursor),
    /// In the function of this number of the script.
    InFunction(u32, Cursor),
    /// In a native: the number of its function in the run, and that of the first of its signatures.
    InNative(u32, u32),
}

/// A cursor before the first move of a body.
fn before_moves(alloc: Global, body: &ScriptBody) -> Cursor
    ensures { (a : SeenActivation) → a.signature ≡ signature_of body.now → a.results ≡ [] → IsInBody body.now a result }
{
    body.cursor(alloc)
}

impl Standing {
    /// Main before its first move.
    pub fn in_main(alloc: Global, script: &Script) -> Standing
        ensures who { who_of result ≡ main }
        ensures agrees { (natives : List NamedNative) (a : SeenActivation) →
            a.signature ≡ no_signature → a.results ≡ [] → StandingAgrees script.now natives a result }
    {
        Standing::InMain(before_moves(alloc, script.main()))
    }

    /// Function `number` of the run before its first move.
    pub fn in_function(
        alloc: Global,
        script: &Script,
        natives: &Vec<Box<dyn Native>>,
        number: u32,
    ) -> Standing
        requires below { number < length (script_of script.now).functions + length natives.now.items }
        requires few_signatures { length (signatures_in (handed title meaning signatures natives.now.items)) < 2 ^ 31 }
        ensures { IsBeforeMoves script.now (handed title meaning signatures natives.now.items) number result }
    {
        let count = script.functions();
        if number < count {
            in_script(alloc, script, number)
        } else {
            in_native(script, natives, number)
        }
    }
}

/// A function of the script before its first move.
fn in_script(alloc: Global, script: &Script, number: u32) -> Standing
    requires { number < length (script_of script.now).functions }
    ensures { (natives : List NamedNative) → IsBeforeMoves script.now natives number result }
{
    // by which its signature is one of the script's
    script.sig_of(number);
    Standing::InFunction(number, before_moves(alloc, script.body(number)))
}

/// A native before its first move.
fn in_native(script: &Script, natives: &Vec<Box<dyn Native>>, number: u32) -> Standing
    requires above { length (script_of script.now).functions ≤ number }
    requires below { number < length (script_of script.now).functions + length natives.now.items }
    requires few_signatures { length (signatures_in (handed title meaning signatures natives.now.items)) < 2 ^ 31 }
    ensures { IsBeforeMoves script.now (handed title meaning signatures natives.now.items) number result }
{
    let j = number - script.functions();
    // by which it has a signature of its own
    sigs_of(native_at(natives, j));
    Standing::InNative(number, first_of(script, natives, j))
}
