//! The version of the language that a script is written in.
ghost use Rattle.std.specs.Prelude.{◌≡◌, IfOk, IfErr, codes, option_and_then};
ghost use Rattle.serde_json.specs.Find.{as_number, as_u64};
ghost use Rattle.ffi3_script_spec.specs.Language as language;
ghost use Rattle.ffi3_script_spec.specs.Language.{read, under, value_under};
ghost use Rattle.ffi3_script_spec.specs.Bodies.{version_of};
ghost use Rattle.ffi3_json.specs.Reports.{Reports};

use crate::{JsonPath, Node, Reason, ScriptFault, bad};
use std::alloc::Global;

/// The version that a script has under `version`, which is 1 or 2.
pub fn read_version(alloc: Global, value: &Node, at: &JsonPath) -> Result<u8, ScriptFault>
    ensures ok { IfOk result
        (λ v. version_of (option_and_then as_u64 (as_number (value_under (codes "version") value.now)))
        (under at.now (codes "version")) ≡ read v) }
    ensures err { IfErr result
        (Reports (λ p r. version_of (option_and_then as_u64 (as_number (value_under (codes "version") value.now)))
        (under at.now (codes "version")) ≡ language.fault p r)) }
{
    let place = at.key("version");
    let Some(version) = value.get("version") else {
        return Err(bad(alloc, &place, Reason::VersionNotKnown));
    };
    let Some(n) = version.as_u64() else {
        return Err(bad(alloc, &place, Reason::VersionNotKnown));
    };
    if n == 1 {
        return Ok(1);
    }
    if n == 2 {
        return Ok(2);
    }
    Err(bad(alloc, &place, Reason::VersionNotKnown))
}
