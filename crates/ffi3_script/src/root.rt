//! The object that a script is: its version, its signatures, its functions and main, in this order.
ghost use Rattle.std.specs.Prelude.{◌≡◌, ◌+◌, ◌<◌, ◌≤◌, ◌^◌, ◌++◌, [], All, IfOk, IfErr};
ghost use Rattle.std.specs.Prelude.{OnOk, length, map};
ghost use Rattle.serde_json.specs.Events.{items_len};
ghost use Rattle.ffi3_script_spec.specs.Language as language;
ghost use Rattle.ffi3_script_spec.specs.Language.{read};
ghost use Rattle.ffi3_script_spec.specs.Bodies.{script_keys, read_signatures};
ghost use Rattle.ffi3_script_spec.specs.Bodies.{read_rest, read_script, names_of};
ghost use Rattle.ffi3_script_spec.specs.Reading.{max_length};
ghost use Rattle.ffi3_json.specs.KeyOf.{key_of};
ghost use Rattle.ffi3_json.specs.Reports.{Reports};
ghost use Rattle.ffi3_json.specs.Within.{HasArraysWithin};
ghost use Rattle.ffi3_script.specs.PartsOf.{headings_of, script_in, bodies_and_main};

use crate::arrays::items_under;
use crate::bodies::read_body;
use crate::functions::{FunctionPart, Heading, Headings, read_headings, read_parts};
use crate::names::FunctionNames;
use crate::scope::Globals;
use crate::{Names, NoMemory, ScriptMove};
use ffi3_json::{
    JsonPath, Key, Node, Nodes, ScriptFault, Where, check_object_at, read_signature_at,
    read_version, required,
};
use ffi3_types::{FfiType, Fields, Sig, Sigs};
use std::alloc::Global;

/// What a script was read as: its version, its signatures, its functions, and the moves of main.
#[derive(Drop)]
pub(crate) struct Parts {
    pub(crate) version: u8,
    pub(crate) sigs: Sigs,
    pub(crate) functions: Vec<FunctionPart>,
    pub(crate) main: Vec<ScriptMove>,
}

/// The functions, and the moves of main.
#[derive(Drop)]
struct AllBodies {
    functions: Vec<FunctionPart>,
    main: Vec<ScriptMove>,
}

/// The keys of a script.
fn script_keys() -> [Key<'static>; 4]
    ensures { map key_of result ≡ script_keys }
{
    [
        required("version"),
        required("signatures"),
        required("functions"),
        required("main"),
    ]
}

/// Whether the value is an object with these keys.
fn check_keys(alloc: Global, value: &Node, at: &JsonPath) -> Result<(), ScriptFault>
    ensures ok { OnOk result (language.check_object value.now script_keys at.now ≡ read tt) }
    ensures err { IfErr result
        (Reports (λ p r. language.check_object value.now script_keys at.now ≡ language.fault p r)) }
{
    check_object_at(alloc, value, &script_keys(), at)
}

/// The signatures that the items of an array are.
fn read_signatures(
    alloc: Global,
    items: &Nodes,
    at: &JsonPath,
    version: u8,
) -> Result<Sigs, ScriptFault>
    ensures ok { IfOk result (λ ss. read_signatures version items.now at.now 0 ≡ read ss) }
    ensures err { IfErr result (Reports (λ p r. read_signatures version items.now at.now 0 ≡ language.fault p r)) }
{
    let mut sigs = Sigs::new(alloc);
    for i in 0..items.len() {
        let sig = read_signature_at(alloc, &items.get(i), &at.item(i as u32), version)?;
        sigs.push(sig)?;
    }
    Ok(sigs)
}

/// The names of the natives, after those of the functions.
fn push_natives(alloc: Global, names: &mut FunctionNames, natives: &Names) -> Result<(), NoMemory>
    ensures { OnOk result (names.new ≡ names.old ++ natives.now) }
{
    for i in 0..natives.len() {
        names.push(alloc, natives.get(i))?;
    }
    Ok(())
}

/// The bodies of these functions, and then main.
fn read_all_bodies(
    alloc: Global,
    globals: &Globals,
    headings: &Vec<Heading>,
    items: &Nodes,
    value: &Node,
    at: &JsonPath,
) -> Result<AllBodies, ScriptFault>
    requires few { length globals.now.functions.now < 2 ^ 32 }
    requires within { All (λ h. h.sig < length globals.now.sigs.now) headings.now.items }
    requires same { length headings.now.items ≡ items_len items.now }
    ensures ok { IfOk result
        (λ b. bodies_and_main globals.now.version globals.now.sigs.now globals.now.functions.now (headings_of headings.now.items)
        items.now value.now at.now ≡ read (script_in globals.now.version globals.now.sigs.now b.functions.items b.main.items)) }
    ensures err { IfErr result
        (Reports (λ p r. bodies_and_main globals.now.version globals.now.sigs.now globals.now.functions.now (headings_of headings.now.items)
        items.now value.now at.now ≡ language.fault p r)) }
{
    let own = Sig::new(FfiType::Void, Fields::new(alloc), None);
    let functions = read_parts(alloc, globals, headings, items, &at.key("functions"))?;
    let main = read_body(alloc, globals, &own, "main", value, at)?;
    Ok(AllBodies { functions, main })
}

/// The bodies and main, beside these natives.
fn read_rest(
    alloc: Global,
    natives: &Names,
    version: u8,
    sigs: &Sigs,
    headings: Headings,
    items: &Nodes,
    value: &Node,
    at: &JsonPath,
) -> Result<AllBodies, ScriptFault>
    requires count { items_len items.now ≤ max_length + 1 }
    requires few { length natives.now < 2 ^ 31 }
    requires within { All (λ h. h.sig < length sigs.now) headings.list.items }
    requires same { length headings.list.items ≡ items_len items.now }
    requires names { headings.names ≡ names_of (headings_of headings.list.items) }
    requires root { at.now ≡ [] }
    ensures ok { IfOk result
        (λ b. read_rest natives.now value.now version sigs.now items.now
        (headings_of headings.list.items) ≡ read (script_in version sigs.now b.functions.items b.main.items)) }
    ensures err { IfErr result
        (Reports (λ p r. read_rest natives.now value.now version sigs.now items.now
        (headings_of headings.list.items) ≡ language.fault p r)) }
{
    let Headings { mut names, list } = headings;
    push_natives(alloc, &mut names, natives)?;
    let globals = Globals {
        version,
        sigs,
        functions: &names,
    };
    read_all_bodies(alloc, &globals, &list, items, value, at)
}

/// The script that a JSON value is, beside natives of these names.
pub(crate) fn read_root(alloc: Global, value: &Node, natives: &Names) -> Result<Parts, ScriptFault>
    requires within { HasArraysWithin (max_length + 1) value.now }
    requires few { length natives.now < 2 ^ 31 }
    ensures ok { IfOk result
        (λ p. read_script natives.now value.now ≡ read (script_in p.version p.sigs p.functions.items p.main.items)) }
    ensures err { IfErr result (Reports (λ p r. read_script natives.now value.now ≡ language.fault p r)) }
{
    let root = Where::new(alloc);
    let at = JsonPath::from(&root);
    check_keys(alloc, value, &at)?;
    let version = read_version(alloc, value, &at)?;
    let place = at.key("signatures");
    let signatures = items_under(alloc, "signatures", value, &place)?;
    let sigs = read_signatures(alloc, &signatures, &place, version)?;
    let place = at.key("functions");
    let functions = items_under(alloc, "functions", value, &place)?;
    let headings = read_headings(alloc, &sigs, &functions, &place)?;
    let bodies = read_rest(
        alloc, natives, version, &sigs, headings, &functions, value, &at,
    )?;
    Ok(Parts {
        version,
        sigs,
        functions: bodies.functions,
        main: bodies.main,
    })
}
