//! The functions of a script, read twice: first the names and signatures of all, and then their bodies.
ghost use Rattle.std.specs.Prelude.{◌≡◌, ◌<◌, ◌^◌, ◌++◌, ◌∷◌, [], All, IfOk, IfErr, OnOk, length, map, codes};
ghost use Rattle.std.specs.Prelude.{string_bytes};
ghost use Rattle.serde_json.specs.Events.{items_len};
ghost use Rattle.serde_json.specs.Find.{as_str};
ghost use Rattle.ffi3_type_spec.specs.Signature.{signature_at};
ghost use Rattle.ffi3_script_spec.specs.Language as language;
ghost use Rattle.ffi3_script_spec.specs.Language.{read, under, value_under};
ghost use Rattle.ffi3_script_spec.specs.Bodies.{is_one_of, new_name, function_keys, read_heading};
ghost use Rattle.ffi3_script_spec.specs.Bodies.{read_headings, names_of, read_body, read_bodies};
ghost use Rattle.ffi3_json.specs.KeyOf.{key_of};
ghost use Rattle.ffi3_json.specs.Reports.{Reports};
ghost use Rattle.ffi3_script_body.specs.ExprOf.{script_moves_of};
ghost use Rattle.ffi3_script.specs.ScopeOf.{surroundings_in};
ghost use Rattle.ffi3_script.specs.PartsOf.{heading_of, headings_of, part_of, IsHeaded};

use crate::bodies::read_body;
use crate::names::FunctionNames;
use crate::new_name::new_name;
use crate::references::read_signature_number;
use crate::scope::Globals;
use crate::{NoMemory, ScriptMove};
use ffi3_json::{JsonPath, Key, Node, Nodes, Reason, ScriptFault, bad, check_object_at, required};
use ffi3_types::Sigs;
use std::alloc::Global;

/// A function's name, and the number of its signature.
#[derive(Drop)]
pub(crate) struct Heading {
    pub(crate) name: String,
    pub(crate) sig: u32,
}

/// The headings of a script's functions, and their names once more.
#[derive(Drop)]
pub(crate) struct Headings {
    pub(crate) names: FunctionNames,
    pub(crate) list: Vec<Heading>,
}

/// The keys of a function.
fn function_keys() -> [Key<'static>; 3]
    ensures { map key_of result ≡ function_keys }
{
    [required("name"), required("sig"), required("body")]
}

/// The name of a function, which no earlier one has.
fn read_function_name(
    alloc: Global,
    earlier: &FunctionNames,
    value: &Node,
    at: &JsonPath,
) -> Result<String, ScriptFault>
    ensures ok { IfOk result
        (λ name. new_name (is_one_of earlier.now) (as_str (value_under (codes "name") value.now))
        (under at.now (codes "name")) ≡ read (string_bytes name)) }
    ensures err { IfErr result
        (Reports (λ p r. new_name (is_one_of earlier.now) (as_str (value_under (codes "name") value.now))
        (under at.now (codes "name")) ≡ language.fault p r)) }
{
    let place = at.key("name");
    let Some(named) = value.get("name") else {
        return Err(bad(alloc, &place, Reason::BadName));
    };
    new_name(alloc, earlier.index(), &named, &place)
}

/// The heading of the function that the value at a place is, after functions of these names.
fn read_heading(
    alloc: Global,
    sigs: &Sigs,
    earlier: &FunctionNames,
    value: &Node,
    at: &JsonPath,
) -> Result<Heading, ScriptFault>
    ensures within { IfOk result (λ h. h.sig < length sigs.now) }
    ensures ok { IfOk result (λ h. read_heading (length sigs.now) earlier.now value.now at.now ≡ read (heading_of h)) }
    ensures err { IfErr result
        (Reports (λ p r. read_heading (length sigs.now) earlier.now value.now at.now ≡ language.fault p r)) }
{
    check_object_at(alloc, value, &function_keys(), at)?;
    let name = read_function_name(alloc, earlier, value, at)?;
    let sig = read_signature_number(alloc, sigs, value, at)?;
    Ok(Heading { name, sig })
}

/// One more heading, with its name.
fn push_heading(
    alloc: Global,
    heading: Heading,
    names: &mut FunctionNames,
    list: &mut Vec<Heading>,
) -> Result<(), NoMemory>
    ensures named { OnOk result (names.new ≡ names.old ++ string_bytes heading.name ∷ []) }
    ensures pushed { OnOk result (list.new.items ≡ list.old.items ++ heading ∷ []) }
{
    names.push(alloc, heading.name.as_str())?;
    list.push(heading)?;
    Ok(())
}

/// The headings of the functions that the items of an array are.
pub(crate) fn read_headings(
    alloc: Global,
    sigs: &Sigs,
    items: &Nodes,
    at: &JsonPath,
) -> Result<Headings, ScriptFault>
    ensures within { IfOk result (λ h. All (λ x. x.sig < length sigs.now) h.list.items) }
    ensures count { IfOk result (λ h. length h.list.items ≡ items_len items.now) }
    ensures names { IfOk result (λ h. h.names ≡ names_of (headings_of h.list.items)) }
    ensures ok { IfOk result
        (λ h. read_headings (length sigs.now) [] items.now at.now 0 ≡ read (headings_of h.list.items)) }
    ensures err { IfErr result
        (Reports (λ p r. read_headings (length sigs.now) [] items.now at.now 0 ≡ language.fault p r)) }
{
    let mut names = FunctionNames::new(alloc);
    let mut list = Vec::new(alloc);
    for i in 0..items.len() {
        let heading = read_heading(alloc, sigs, &names, &items.get(i), &at.item(i as u32))?;
        push_heading(alloc, heading, &mut names, &mut list)?;
    }
    Ok(Headings { names, list })
}

/// A function of a script: its name, the number of its signature, its moves.
#[derive(Drop)]
pub(crate) struct FunctionPart {
    pub(crate) name: String,
    pub(crate) sig: u32,
    pub(crate) moves: Vec<ScriptMove>,
}

/// The function of this heading that the value at a place is.
fn read_part(
    alloc: Global,
    globals: &Globals,
    heading: &Heading,
    value: &Node,
    at: &JsonPath,
) -> Result<FunctionPart, ScriptFault>
    requires few { length globals.now.functions.now < 2 ^ 32 }
    requires within { heading.now.sig < length globals.now.sigs.now }
    ensures headed { IfOk result (IsHeaded heading.now) }
    ensures ok { IfOk result
        (λ f. read_body (surroundings_in globals.now (signature_at globals.now.sigs.now heading.now.sig))
        (value_under (codes "body") value.now) (under at.now (codes "body")) ≡ read (script_moves_of f.moves.items)) }
    ensures err { IfErr result
        (Reports (λ p r. read_body (surroundings_in globals.now (signature_at globals.now.sigs.now heading.now.sig))
        (value_under (codes "body") value.now) (under at.now (codes "body")) ≡ language.fault p r)) }
{
    let own = globals.sigs.get(heading.sig as usize);
    let moves = read_body(alloc, globals, own, "body", value, at)?;
    Ok(FunctionPart {
        name: String::from_str(alloc, heading.name.as_str())?,
        sig: heading.sig,
        moves,
    })
}

/// One more function.
pub(crate) fn push_part(parts: &mut Vec<FunctionPart>, part: FunctionPart) -> Result<(), NoMemory>
    ensures { OnOk result (parts.new.items ≡ parts.old.items ++ part ∷ []) }
{
    parts.push(part)?;
    Ok(())
}

/// The functions of these headings that the items of an array are.
pub(crate) fn read_parts(
    alloc: Global,
    globals: &Globals,
    headings: &Vec<Heading>,
    items: &Nodes,
    at: &JsonPath,
) -> Result<Vec<FunctionPart>, ScriptFault>
    requires few { length globals.now.functions.now < 2 ^ 32 }
    requires within { All (λ h. h.sig < length globals.now.sigs.now) headings.now.items }
    requires same { length headings.now.items ≡ items_len items.now }
    ensures ok { IfOk result
        (λ fs. read_bodies globals.now.version globals.now.sigs.now globals.now.functions.now (headings_of headings.now.items)
        items.now at.now 0 ≡ read (map part_of fs.items)) }
    ensures err { IfErr result
        (Reports (λ p r. read_bodies globals.now.version globals.now.sigs.now globals.now.functions.now (headings_of headings.now.items)
        items.now at.now 0 ≡ language.fault p r)) }
{
    let mut parts = Vec::new(alloc);
    for i in 0..items.len() {
        let part = read_part(
            alloc,
            globals,
            &headings[i],
            &items.get(i),
            &at.item(i as u32),
        )?;
        push_part(&mut parts, part)?;
    }
    Ok(parts)
}
