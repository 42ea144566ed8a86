//! References: to a signature by its number, and to a function by its name.
ghost use Rattle.std.specs.Prelude.{◌≡◌, ◌<◌, ◌^◌, IfOk, IfErr, length, codes};
ghost use Rattle.serde_json.specs.Find.{as_str};
ghost use Rattle.ffi3_script_spec.specs.Language as language;
ghost use Rattle.ffi3_script_spec.specs.Language.{read, under, value_under};
ghost use Rattle.ffi3_script_spec.specs.Bodies.{read_signature_number, read_function};
ghost use Rattle.ffi3_json.specs.Reports.{Reports};

use crate::names::FunctionNames;
use ffi3_json::{JsonPath, Node, Reason, ScriptFault, bad};
use ffi3_types::Sigs;
use std::alloc::Global;

/// The number of a signature that a function or a call has under `sig`.
pub(crate) fn read_signature_number(
    alloc: Global,
    sigs: &Sigs,
    value: &Node,
    at: &JsonPath,
) -> Result<u32, ScriptFault>
    ensures below { IfOk result (λ i. i < length sigs.now) }
    ensures ok { IfOk result
        (λ i. read_signature_number (length sigs.now) (value_under (codes "sig") value.now)
        (under at.now (codes "sig")) ≡ read i) }
    ensures err { IfErr result
        (Reports (λ p r. read_signature_number (length sigs.now) (value_under (codes "sig") value.now)
        (under at.now (codes "sig")) ≡ language.fault p r)) }
{
    let place = at.key("sig");
    let Some(sig) = value.get("sig") else {
        return Err(bad(alloc, &place, Reason::NoSuchSignature));
    };
    let Some(i) = sig.as_u64() else {
        return Err(bad(alloc, &place, Reason::NoSuchSignature));
    };
    if i >= sigs.len() as u64 {
        return Err(bad(alloc, &place, Reason::NoSuchSignature));
    }
    Ok(i as u32)
}

/// The number of the function that a move names under `make`.
pub(crate) fn read_function(
    alloc: Global,
    functions: &FunctionNames,
    value: &Node,
    at: &JsonPath,
) -> Result<u32, ScriptFault>
    requires few { length functions.now < 2 ^ 32 }
    ensures ok { IfOk result
        (λ k. read_function functions.now (as_str (value_under (codes "make") value.now))
        (under at.now (codes "make")) ≡ read k) }
    ensures err { IfErr result
        (Reports (λ p r. read_function functions.now (as_str (value_under (codes "make") value.now))
        (under at.now (codes "make")) ≡ language.fault p r)) }
{
    let place = at.key("make");
    let Some(make) = value.get("make") else {
        return Err(bad(alloc, &place, Reason::NoSuchFunction));
    };
    let Some(name) = make.as_str() else {
        return Err(bad(alloc, &place, Reason::NoSuchFunction));
    };
    let Some(k) = functions.find(name) else {
        return Err(bad(alloc, &place, Reason::NoSuchFunction));
    };
    Ok(k as u32)
}
