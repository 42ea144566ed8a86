//! The numbers of a run's signatures and functions.
ghost use Rattle.std.specs.Prelude.{◌≡◌, ◌<◌, ◌≤◌, ◌+◌, ◌^◌, Some, length, slice_get};
ghost use Rattle.ffi3_type_spec.specs.Signature.{signature_at, SignatureHasNoFault};
ghost use Rattle.ffi3_place_spec.specs.Standard.{Standard};
ghost use Rattle.ffi3_semantics_spec.specs.Meaning.{function_at};
ghost use Rattle.ffi3_script_spec.specs.Natives.{NamedNative, program_beside};
ghost use Rattle.ffi3_script.specs.ScriptOf.{script_of};
ghost use Rattle.ffi3_script_spec.specs.Handed.{AreFew, handed, natives_in, signatures_in, signatures_before};

use crate::natives::{native_at, sigs_of};
use ffi3_body::Native;
use ffi3_script::Script;
use ffi3_types::Sig;

/// How many signatures native `j` has.
fn count_of(natives: &Vec<Box<dyn Native>>, j: u32) -> u32
    requires { j < length natives.now.items }
    ensures is { (n : NamedNative) → slice_get (handed title meaning signatures natives.now.items) j ≡ Some n →
        result ≡ length n.native.signatures }
    ensures more { let all = natives_in (handed title meaning signatures natives.now.items) in
        signatures_before all (j + 1) ≡ signatures_before all j + result }
    ensures within { let all = handed title meaning signatures natives.now.items in
        signatures_before (natives_in all) j + result ≤ length (signatures_in all) }
{
    sigs_of(native_at(natives, j)).len() as u32
}

/// The number of the run at which the signatures of native `j` begin; where there is no such
/// native, the number after the last.
pub(crate) fn first_of(script: &Script, natives: &Vec<Box<dyn Native>>, j: u32) -> u32
    requires within { j ≤ length natives.now.items }
    requires few { length (signatures_in (handed title meaning signatures natives.now.items)) < 2 ^ 31 }
    ensures { result ≡ length (script_of script.now).signatures + signatures_before (natives_in (handed title meaning signatures natives.now.items)) j }
{
    let mut first = script.sigs().len() as u32;
    for i in 0..j {
        first += count_of(natives, i);
    }
    first
}

/// How many signatures a run has: those of the script, and those of each native.
pub fn signatures(script: &Script, natives: &Vec<Box<dyn Native>>) -> u32
    requires { AreFew title meaning signatures natives.now.items }
    ensures { (std : Standard) → result ≡ length (program_beside std (handed title meaning signatures natives.now.items) (script_of script.now)).signatures }
{
    first_of(script, natives, natives.len() as u32)
}

/// The number of the signature of function `number` of the run.
pub fn sig_of(script: &Script, natives: &Vec<Box<dyn Native>>, number: u32) -> u32
    requires below { number < length (script_of script.now).functions + length natives.now.items }
    requires few_signatures { length (signatures_in (handed title meaning signatures natives.now.items)) < 2 ^ 31 }
    ensures is { (std : Standard) → result ≡ (function_at (program_beside std (handed title meaning signatures natives.now.items) (script_of script.now)) number).signature }
    ensures below { (std : Standard) → result < length (program_beside std (handed title meaning signatures natives.now.items) (script_of script.now)).signatures }
{
    let count = script.functions();
    if number < count {
        script.sig_of(number)
    } else {
        native_sig(script, natives, number, number - count)
    }
}

/// The same of native `j`, which is function `number` of the run.
fn native_sig(script: &Script, natives: &Vec<Box<dyn Native>>, number: u32, j: u32) -> u32
    requires here { number ≡ length (script_of script.now).functions + j }
    requires below { j < length natives.now.items }
    requires few_signatures { length (signatures_in (handed title meaning signatures natives.now.items)) < 2 ^ 31 }
    ensures is { (std : Standard) → result ≡ (function_at (program_beside std (handed title meaning signatures natives.now.items) (script_of script.now)) number).signature }
    ensures below { (std : Standard) → result < length (program_beside std (handed title meaning signatures natives.now.items) (script_of script.now)).signatures }
{
    // by which it has one
    sigs_of(native_at(natives, j));
    first_of(script, natives, j)
}

/// Signature `number` of the run. It has no fault.
pub fn signature<'a>(script: &'a Script, natives: &'a Vec<Box<dyn Native>>, number: u32) -> &'a Sig
    requires below { number < length (script_of script.now).signatures + length (signatures_in (handed title meaning signatures natives.now.items)) }
    requires few { length natives.now.items < 2 ^ 31 }
    ensures is { (std : Standard) → result.now ≡ signature_at (program_beside std (handed title meaning signatures natives.now.items) (script_of script.now)).signatures number }
    ensures right { SignatureHasNoFault result.now }
{
    let sigs = script.sigs();
    let count = sigs.len() as u32;
    if number < count {
        sigs.get(number as usize)
    } else {
        native_signature(natives, number - count)
    }
}

/// Signature `number` of those of all natives.
fn native_signature(natives: &Vec<Box<dyn Native>>, number: u32) -> &Sig
    requires below { number < length (signatures_in (handed title meaning signatures natives.now.items)) }
    requires few { length natives.now.items < 2 ^ 31 }
    ensures is { result.now ≡ signature_at (signatures_in (handed title meaning signatures natives.now.items)) number }
    ensures right { SignatureHasNoFault result.now }
{
    // the number among those of native `j` and the natives after it
    let mut left = number;
    for j in 0..natives.len() as u32 {
        let count = count_of(natives, j);
        if left < count {
            return sigs_of(native_at(natives, j)).get(left as usize);
        }
        left -= count;
    }
    // each number below that of all signatures is a native's
    unreachable!()
}
