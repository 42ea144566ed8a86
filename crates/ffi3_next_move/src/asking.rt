//! What a function of a run asks for next.
ghost use Rattle.std.specs.Prelude.{◌≡◌, ◌<◌, ◌≤◌, ◌^◌, IfOk, List, length};
ghost use Rattle.ffi3_place_spec.specs.Standard.{Standard};
ghost use Rattle.ffi3_semantics_spec.specs.Meaning.{main, function};
ghost use Rattle.ffi3_body.specs.MoveOf.{move_of};
ghost use Rattle.ffi3_script_spec.specs.Natives.{NamedNative, program_beside};
ghost use Rattle.ffi3_script_body.specs.Agrees.{one_more};
ghost use Rattle.ffi3_script_body.specs.BodyOf.{signatures_of, functions_of, meaning_of};
ghost use Rattle.ffi3_script.specs.ScriptOf.{script_of, natives_of, main_body};
ghost use Rattle.ffi3_script_spec.specs.Handed.{handed, signatures_in};
ghost use Rattle.ffi3_next_move.specs.Asked.{IsAsked, IsNext};
ghost use Rattle.ffi3_next_move.specs.Stands.{who_of, StandingAgrees, IsInBody, IsInFunction, IsInHanded};

use crate::Standing;
use crate::natives::{native_at, next_of, renumbered};
use ffi3_body::{Move, Native, Seen};
use ffi3_script::Script;
use ffi3_script_body::{Cursor, ScriptBody};
use ffi3_types::NoMemory;
use std::alloc::Global;

/// What an activation's function asks for next, by the numbers of the run. `standing` moves on with it, and agrees with
/// what is seen then, whatever the move's result is: so all calls in an activation pass each move of a script's body
/// once. Where memory was refused `standing` may be further on, and still agrees with what was seen.
pub fn ask(
    alloc: Global,
    script: &Script,
    natives: &Vec<Box<dyn Native>>,
    standing: &mut Standing,
    seen: &Seen,
) -> Result<Move, NoMemory>
    requires beside { natives_of script.now ≤ length natives.now.items }
    requires few_signatures { length (signatures_in (handed title meaning signatures natives.now.items)) < 2 ^ 31 }
    requires agrees { StandingAgrees script.now (handed title meaning signatures natives.now.items) seen.now standing.old }
    ensures asked { let all = handed title meaning signatures natives.now.items in
        (std : Standard) → IfOk result
        (λ m. IsAsked (program_beside std all (script_of script.now)) (who_of standing.old) seen.now
        (λ r. StandingAgrees script.now all (one_more seen.now r) standing.new) (move_of m)) }
    ensures who { who_of standing.new ≡ who_of standing.old }
    ensures agrees { StandingAgrees script.now (handed title meaning signatures natives.now.items) seen.now standing.new }
{
    match standing {
        Standing::InMain(cursor) => ask_main(alloc, script, cursor, seen),
        Standing::InFunction(number, cursor) => ask_function(alloc, script, *number, cursor, seen),
        Standing::InNative(number, first) => {
            ask_native(alloc, script, natives, *number, *first, seen)
        }
    }
}

/// The same of main.
fn ask_main(
    alloc: Global,
    script: &Script,
    cursor: &mut Cursor,
    seen: &Seen,
) -> Result<Move, NoMemory>
    requires { IsInBody (main_body script.now) seen.now cursor.old }
    ensures asked { (std : Standard) (natives : List NamedNative) → natives_of script.now ≤ length natives → IfOk result
        (λ m. IsAsked (program_beside std natives (script_of script.now)) main seen.now
        (λ r. IsInBody (main_body script.now) (one_more seen.now r) cursor.new) (move_of m)) }
    ensures stands { IsInBody (main_body script.now) seen.now cursor.new }
{
    ask_body(alloc, script.main(), cursor, seen)
}

/// The same of a function of the script.
fn ask_function(
    alloc: Global,
    script: &Script,
    number: u32,
    cursor: &mut Cursor,
    seen: &Seen,
) -> Result<Move, NoMemory>
    requires { IsInFunction script.now number seen.now cursor.old }
    ensures asked { (std : Standard) (natives : List NamedNative) → natives_of script.now ≤ length natives → IfOk result
        (λ m. IsAsked (program_beside std natives (script_of script.now)) (function number) seen.now
        (λ r. IsInFunction script.now number (one_more seen.now r) cursor.new) (move_of m)) }
    ensures stands { IsInFunction script.now number seen.now cursor.new }
{
    ask_body(alloc, script.body(number), cursor, seen)
}

/// The next move of a body of the script, by its own numbers.
fn ask_body(
    alloc: Global,
    body: &ScriptBody,
    cursor: &mut Cursor,
    seen: &Seen,
) -> Result<Move, NoMemory>
    requires { IsInBody body.now seen.now cursor.old }
    ensures next { IfOk result
        (λ m. IsNext (signatures_of body.now) (functions_of body.now) (meaning_of body.now) seen.now
        (λ r. IsInBody body.now (one_more seen.now r) cursor.new) (move_of m)) }
    ensures stands { IsInBody body.now seen.now cursor.new }
{
    body.next_at(alloc, cursor, seen)
}

/// The same of a native.
fn ask_native(
    alloc: Global,
    script: &Script,
    natives: &Vec<Box<dyn Native>>,
    number: u32,
    first: u32,
    seen: &Seen,
) -> Result<Move, NoMemory>
    requires few_signatures { length (signatures_in (handed title meaning signatures natives.now.items)) < 2 ^ 31 }
    requires stands { IsInHanded script.now (handed title meaning signatures natives.now.items) number first seen.now }
    ensures { let all = handed title meaning signatures natives.now.items in
        (std : Standard) → IfOk result
        (λ m. IsAsked (program_beside std all (script_of script.now)) (function number) seen.now
        (λ r. IsInHanded script.now all number first (one_more seen.now r)) (move_of m)) }
{
    // by which there is room for its numbers
    script.sigs();
    let native = native_at(natives, number - script.functions());
    let asked = next_of(alloc, native, seen)?;
    Ok(renumbered(asked, first, number))
}
