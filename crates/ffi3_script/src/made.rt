//! The script that the bench runs.
ghost use Rattle.std.specs.Prelude.{◌≡◌, ◌<◌, ◌≤◌, ◌+◌, ◌++◌, ◌∷◌, [], All, IfOk, length, map, codes};
ghost use Rattle.ffi3_type_spec.specs.declared.limits.TheConstants.{MOST_CALLS};
ghost use Rattle.ffi3_script_spec.specs.Made.{made, made_function};
ghost use Rattle.ffi3_bench_script.specs.ShapesOf.{types_in};
ghost use Rattle.ffi3_script.specs.PartsOf.{part_of};
ghost use Rattle.ffi3_script.specs.ScriptOf.{script_of, natives_of};

use crate::functions::{FunctionPart, push_part};
use crate::read::script_of;
use crate::root::Parts;
use crate::{NoMemory, Script};
use ffi3_bench_script::{Draws, Shapes};
use std::alloc::Global;

/// Function `s`, which has this name.
fn made_function(
    alloc: Global,
    shapes: &Shapes,
    s: u32,
    name: &str,
) -> Result<FunctionPart, NoMemory>
    requires there { s < 4 }
    requires named { name.now ≡ codes "f" ++ (48 + s) ∷ [] }
    ensures is { IfOk result (λ f. part_of f ≡ made_function (types_in shapes.now) s) }
    ensures few { IfOk result (λ f. length f.moves.items ≤ 2) }
{
    let moves = shapes.body(alloc, s)?;
    Ok(FunctionPart {
        name: String::from_str(alloc, name)?,
        sig: s,
        moves,
    })
}

/// The four functions.
fn made_functions(alloc: Global, shapes: &Shapes) -> Result<Vec<FunctionPart>, NoMemory>
    ensures are { IfOk result (λ fs. map part_of fs.items ≡ made_function (types_in shapes.now) 0
        ∷ made_function (types_in shapes.now) 1 ∷ made_function (types_in shapes.now) 2
        ∷ made_function (types_in shapes.now) 3 ∷ []) }
    ensures few { IfOk result (λ fs. All (λ f. length f.moves.items ≤ 2) fs.items) }
{
    let mut functions = Vec::new(alloc);
    push_part(&mut functions, made_function(alloc, shapes, 0, "f0")?)?;
    push_part(&mut functions, made_function(alloc, shapes, 1, "f1")?)?;
    push_part(&mut functions, made_function(alloc, shapes, 2, "f2")?)?;
    push_part(&mut functions, made_function(alloc, shapes, 3, "f3")?)?;
    Ok(functions)
}

/// The script that `bench` runs, of version 1 of the language, made from a seed and a number of calls: 1 to 1,000 in its words. It has no natives.
pub fn made_script(alloc: Global, seed: u32, calls: u32) -> Result<Script, NoMemory>
    requires { calls ≤ MOST_CALLS }
    ensures is { IfOk result (λ s. script_of s ≡ made seed calls) }
    ensures natives { IfOk result (λ s. natives_of s ≡ 0) }
{
    let mut draws = Draws::of_seed(seed);
    let shapes = Shapes::drawn(alloc, &mut draws)?;
    let functions = made_functions(alloc, &shapes)?;
    let main = shapes.main(alloc, &mut draws, calls)?;
    let sigs = shapes.sigs(alloc)?;
    let parts = Parts {
        version: 1,
        sigs,
        functions,
        main,
    };
    script_of(alloc, parts, 0)
}
