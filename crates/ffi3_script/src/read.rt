//! Reading a script: from bytes to its parts, and from these to the script.
ghost use Rattle.std.specs.Prelude.{◌≡◌, ◌+◌, ◌<◌, ◌^◌, ◌++◌, ◌∷◌, [], All, IfOk};
ghost use Rattle.std.specs.Prelude.{IfErr, OnOk, true, length, map};
ghost use Rattle.std.specs.List.{list_all};
ghost use Rattle.ffi3_type_spec.specs.Signature.{signature_at};
ghost use Rattle.ffi3_script_spec.specs.Reading.{IsTheReading, script};
ghost use Rattle.ffi3_script_spec.specs.Typed.{script_is_typed, function_is_typed, signature_is_right};
ghost use Rattle.ffi3_script.specs.FunctionOf.{function_of, StandsIn};
ghost use Rattle.ffi3_script.specs.PartsOf.{part_of, script_in};
ghost use Rattle.ffi3_script.specs.Refusal.{IsScriptRefusal};
ghost use Rattle.ffi3_script.specs.ScriptOf.{script_of, natives_of};

use crate::functions::FunctionPart;
use crate::root::{Parts, read_root};
use crate::{Names, NoMemory, Script, ScriptBody, ScriptFunction};
use ffi3_json::{Document, Scratch, ScriptFault};
use ffi3_types::Sigs;
use std::alloc::Global;
use std::rc::Rc;

/// The script that the bytes are, beside natives of these names. Its bodies may make closures of its functions and of
/// the natives; of two that have one name, the first, and a function before a native. Of bytes that are no script the
/// first fault is told, in the order of reading.
pub fn read_script(alloc: Global, bytes: &[u8], natives: &Names) -> Result<Script, ScriptFault>
    requires { length natives.now < 2 ^ 31 }
    ensures ok { IfOk result (λ s. IsTheReading natives.now bytes.now (script (script_of s))) }
    ensures natives { IfOk result (λ s. natives_of s ≡ length natives.now) }
    ensures err { IfErr result (IsScriptRefusal natives.now bytes.now) }
{
    let mut scratch = Scratch::new(alloc);
    let document = Document::read(alloc, bytes, &mut scratch)?;
    let parts = read_root(alloc, &document.root(), natives)?;
    Ok(script_of(alloc, parts, natives.len() as u32)?)
}

/// The script of these parts, beside so many natives.
pub(crate) fn script_of(alloc: Global, parts: Parts, natives: u32) -> Result<Script, NoMemory>
    requires few_signatures { length parts.sigs < 2 ^ 31 }
    requires few { length parts.functions.items < 2 ^ 31 }
    requires few_natives { natives < 2 ^ 31 }
    requires functions_few { All (λ f. length f.moves.items < 2 ^ 31) parts.functions.items }
    requires main_few { length parts.main.items < 2 ^ 31 }
    requires typed { script_is_typed natives (script_in parts.version parts.sigs parts.functions.items parts.main.items) ≡ true }
    ensures is { IfOk result (λ s. script_of s ≡ script_in parts.version parts.sigs parts.functions.items parts.main.items) }
    ensures natives { IfOk result (λ s. natives_of s ≡ natives) }
{
    let Parts {
        version,
        sigs,
        functions,
        main,
    } = parts;
    let count = functions.len() as u32 + natives;
    let sigs = Rc::new(alloc, sigs)?;
    let functions = functions_of(alloc, &sigs, count, functions)?;
    let main = ScriptBody::new(sigs.clone()?, count, None, main);
    Ok(Script::new(version, sigs, functions, main, natives))
}

/// The functions of these parts, in a script with these signatures and so many functions, natives too.
fn functions_of(
    alloc: Global,
    sigs: &Rc<Sigs>,
    count: u32,
    parts: Vec<FunctionPart>,
) -> Result<Vec<ScriptFunction>, NoMemory>
    requires few { All (λ f. length f.moves.items < 2 ^ 31) parts.items }
    requires typed { All (λ f. function_is_typed sigs.now.value count (part_of f) ≡ true) parts.items }
    requires right { list_all signature_is_right sigs.now.value ≡ true }
    ensures are { IfOk result (λ fs. map function_of fs.items ≡ map part_of parts.items) }
    ensures stand { IfOk result
        (λ fs. All (λ f. StandsIn sigs.now.value count (signature_at sigs.now.value f.sig) f.body) fs.items) }
{
    let mut functions = Vec::new(alloc);
    for part in parts {
        let function = function_of(sigs, count, part)?;
        push_function(&mut functions, function)?;
    }
    Ok(functions)
}

/// The function of this part.
fn function_of(sigs: &Rc<Sigs>, count: u32, part: FunctionPart) -> Result<ScriptFunction, NoMemory>
    requires few { length part.moves.items < 2 ^ 31 }
    requires typed { function_is_typed sigs.now.value count (part_of part) ≡ true }
    requires right { list_all signature_is_right sigs.now.value ≡ true }
    ensures is { IfOk result (λ f. function_of f ≡ part_of part) }
    ensures stands { IfOk result (λ f. StandsIn sigs.now.value count (signature_at sigs.now.value f.sig) f.body) }
{
    let FunctionPart { name, sig, moves } = part;
    let body = ScriptBody::new(sigs.clone()?, count, Some(sig), moves);
    Ok(ScriptFunction { name, sig, body })
}

/// One more function.
fn push_function(
    functions: &mut Vec<ScriptFunction>,
    function: ScriptFunction,
) -> Result<(), NoMemory>
    ensures { OnOk result (functions.new.items ≡ functions.old.items ++ function ∷ []) }
{
    functions.push(function)?;
    Ok(())
}
