//! Signatures.
ghost use Rattle.std.specs.Prelude.{◌≡◌, IfOk, IfErr, codes, get_or, map, option_map};
ghost use Rattle.serde_json.specs.Find.{get};
ghost use Rattle.serde_json.specs.View.{view};
ghost use Rattle.ffi3_script_spec.specs.Language as language;
ghost use Rattle.ffi3_script_spec.specs.Language.{read, read_shapes, object_signature, declared_signature, declaration_in, read_fixed, HasShortArrays, signature_keys, inside_type, place_of_fault, reason_of_type_fault, reason_of_fault, left_out_reason, key_of_parts, read_type, read_types, value_under, under};
ghost use Rattle.ffi3_script_spec.specs.SignatureReading.{IsSignature, IsNoSignature};
ghost use Rattle.ffi3_cdecl_spec.specs.Machine as declaration;
ghost use Rattle.ffi3_type_spec.specs.Tree.{parts_of};
ghost use Rattle.ffi3_type_spec.specs.Signature.{SignatureHasNoFault, IsSignatureFault};
ghost use Rattle.ffi3_types.specs.TreeOf.{tree_of};
ghost use Rattle.ffi3_types.specs.FaultOf.{fault_of, path_of};
ghost use Rattle.ffi3_types.specs.SignatureFaultOf.{signature_fault_of};
ghost use Rattle.ffi3_json.specs.KeyOf.{key_of};
ghost use Rattle.ffi3_json.specs.ReasonOf.{reason_of};
ghost use Rattle.ffi3_json.specs.Reports.{Reports};

use crate::fault::bad;
use crate::object::check_object_at;
use crate::types::{read_count, read_list, read_type_at};
use crate::{Json, JsonPath, Key, NoMemory, Node, Reason, ScriptFault, Where, optional, required};
use ffi3_cdecl::{DeclFault, read_decl};
use ffi3_types::{At, FfiType, Fields, Path, Sig, SigFault, TypeFault, check_sig};
use std::alloc::Global;

/// The signature that the value at a place is: an object with `ret`, a type, `args`, an array of types, and maybe
/// `fixed`, an integer from 0 to 4294967295. The first fault of these is told in this order, and only then the
/// signature's own first fault. In version 2 a text is a signature too, the C declaration of a function: its first
/// fault of token, grammar or number is told by its offset in bytes, and only then the signature's own by its reason,
/// both at the text.
pub fn read_signature(
    alloc: Global,
    value: &Json,
    at: &Where,
    version: u8,
) -> Result<Sig, ScriptFault>
    requires { HasShortArrays (view value.now) }
    ensures ok { IfOk result (λ s. language.read_signature version (view value.now) at.now ≡ read s) }
    ensures err { IfErr result (Reports (λ p r. language.read_signature version (view value.now) at.now ≡ language.fault p r)) }

    // The same in the order of faults itself: its shapes are read and it has no fault, or a text is read as its
    // declaration; else the one first fault is told.
    ensures signature { IfOk result (IsSignature version (view value.now) at.now) }
    ensures right { IfOk result SignatureHasNoFault }
    ensures first { IfErr result (Reports (IsNoSignature version (view value.now) at.now)) }
{
    read_signature_at(alloc, &Node::of(value), &JsonPath::from(at), version)
}

/// The same, at a place on the way to a value.
pub fn read_signature_at(
    alloc: Global,
    value: &Node,
    at: &JsonPath,
    version: u8,
) -> Result<Sig, ScriptFault>
    ensures ok { IfOk result (λ s. language.read_signature version value.now at.now ≡ read s) }
    ensures err { IfErr result (Reports (λ p r. language.read_signature version value.now at.now ≡ language.fault p r)) }
    ensures signature { IfOk result (IsSignature version value.now at.now) }
    ensures right { IfOk result SignatureHasNoFault }
    ensures first { IfErr result (Reports (IsNoSignature version value.now at.now)) }
{
    match declaration_in(value, version) {
        Some(text) => read_declared(alloc, text, at),
        None => read_object(alloc, value, at, version),
    }
}

/// The text of a C declaration, where the value is one in a version of the language: the first has none.
fn declaration_in<'t>(value: &Node<'t, '_>, version: u8) -> Option<&'t str>
    ensures { option_map (λ s. s.now) result ≡ declaration_in version value.now }
{
    if version == 1 {
        return None;
    }
    value.as_str()
}

/// The signature of the function that a text declares. Its name says nothing here.
#[tactic(auto, using(crate::proofs::Signatures::declared, crate::proofs::Signatures::tells_declaration))]
fn read_declared(alloc: Global, text: &str, place: &JsonPath) -> Result<Sig, ScriptFault>
    ensures ok { IfOk result (λ s. declared_signature place.now (declaration.read text.now) ≡ read s) }
    ensures err { IfErr result (Reports (λ p r. declared_signature place.now (declaration.read text.now) ≡ language.fault p r)) }
{
    match read_decl(alloc, text) {
        Ok(declared) => Ok(declared.into_sig()),
        Err(DeclFault::BadToken { at }) => Err(bad_declaration(alloc, place, at)),
        Err(DeclFault::Unexpected { at }) => Err(bad_declaration(alloc, place, at)),
        Err(DeclFault::BadNumber { at }) => Err(bad_declaration(alloc, place, at)),
        Err(DeclFault::Sig(fault)) => Err(bad(alloc, place, reason_of_signature(&fault))),
        Err(DeclFault::NoMemory) => Err(ScriptFault::NoMemory),
    }
}

/// The fault at an offset in the text at a place, which is no declaration.
fn bad_declaration(alloc: Global, place: &JsonPath, at: u64) -> ScriptFault
    ensures { Reports (λ p r. (p ≡ place.now) × (r ≡ language.bad_declaration at)) result }
{
    bad(alloc, place, Reason::BadDeclaration { at })
}

/// The signature that an object is: its shapes, and only then its own first fault.
fn read_object(alloc: Global, value: &Node, at: &JsonPath, version: u8) -> Result<Sig, ScriptFault>
    ensures ok { IfOk result (λ s. object_signature version value.now at.now ≡ read s) }
    ensures err { IfErr result (Reports (λ p r. object_signature version value.now at.now ≡ language.fault p r)) }
{
    let sig = read_shapes(alloc, value, at, version)?;
    match check_sig(&sig) {
        Ok(()) => Ok(sig),
        Err(fault) => Err(told(alloc, at, &sig, &fault)),
    }
}

/// The shapes of a signature.
fn read_shapes(alloc: Global, value: &Node, at: &JsonPath, version: u8) -> Result<Sig, ScriptFault>
    ensures ok { IfOk result (λ s. read_shapes version value.now at.now ≡ read s) }
    ensures err { IfErr result (Reports (λ p r. read_shapes version value.now at.now ≡ language.fault p r)) }
{
    check_object_at(alloc, value, &signature_keys(), at)?;
    let ret = read_ret(alloc, value, at, version)?;
    let args = read_args(alloc, value, at, version)?;
    let fixed = read_fixed(alloc, value, at)?;
    Ok(Sig::new(ret, args, fixed))
}

/// The keys of a signature.
fn signature_keys() -> [Key<'static>; 3]
    ensures { map key_of result ≡ signature_keys }
{
    [required("ret"), required("args"), optional("fixed")]
}

/// The shape of the result. One that is not there is read as null.
fn read_ret(alloc: Global, value: &Node, at: &JsonPath, version: u8) -> Result<FfiType, ScriptFault>
    ensures ok { IfOk result (λ t. read_type version (value_under (codes "ret") value.now) (under at.now (codes "ret")) ≡ read (tree_of t)) }
    ensures err { IfErr result (Reports (λ p r. read_type version (value_under (codes "ret") value.now) (under at.now (codes "ret")) ≡ language.fault p r)) }
{
    let place = at.key("ret");
    let Some(ret) = value.get("ret") else {
        return Err(bad(alloc, &place, Reason::NotAType));
    };
    read_type_at(alloc, &ret, &place, version)
}

/// The shapes of the arguments. An array that is not there is read as null.
fn read_args(alloc: Global, value: &Node, at: &JsonPath, version: u8) -> Result<Fields, ScriptFault>
    ensures ok { IfOk result (λ ts. read_types version (value_under (codes "args") value.now) (under at.now (codes "args")) ≡ read ts) }
    ensures err { IfErr result (Reports (λ p r. read_types version (value_under (codes "args") value.now) (under at.now (codes "args")) ≡ language.fault p r)) }
{
    let place = at.key("args");
    let Some(args) = value.get("args") else {
        return Err(bad(alloc, &place, Reason::NotAnArray));
    };
    read_list(alloc, &args, &place, version)
}

/// The number of fixed arguments, where there is one.
fn read_fixed(alloc: Global, value: &Node, at: &JsonPath) -> Result<Option<u32>, ScriptFault>
    ensures ok { IfOk result (λ n. read_fixed (get (codes "fixed") value.now) (under at.now (codes "fixed")) ≡ read n) }
    ensures err { IfErr result (Reports (λ p r. read_fixed (get (codes "fixed") value.now) (under at.now (codes "fixed")) ≡ language.fault p r)) }
{
    let place = at.key("fixed");
    let Some(count) = value.get("fixed") else {
        return Ok(None);
    };
    Ok(Some(read_count(alloc, &count, &place)?))
}

/// A fault of the signature at a place, as that of a script.
fn told(alloc: Global, at: &JsonPath, sig: &Sig, fault: &SigFault) -> ScriptFault
    requires { IsSignatureFault sig.now (signature_fault_of fault.now) }
    ensures { Reports (λ p r. (p ≡ place_of_fault at.now sig.now (signature_fault_of fault.now)) × (r ≡ reason_of_fault (signature_fault_of fault.now))) result }
{
    let args = at.key("args");
    match fault {
        SigFault::TooMany { .. } => bad(alloc, &args, reason_of_signature(fault)),
        SigFault::BadType {
            at: At::Ret,
            fault: inner,
        } => bad_type(alloc, &at.key("ret"), sig.ret(), inner),
        SigFault::BadType {
            at: At::Arg(i),
            fault: inner,
        } => bad_type(alloc, &args.item(*i), sig.arg(*i), inner),
        SigFault::BadFixed { .. } => bad(alloc, &at.key("fixed"), reason_of_signature(fault)),
        SigFault::BadArgType { i } => bad(alloc, &args.item(*i), reason_of_signature(fault)),
    }
}

/// Why a signature with this fault is no part of a script.
pub fn reason_of_signature(fault: &SigFault) -> Reason
    ensures { reason_of result ≡ reason_of_fault (signature_fault_of fault.now) }
{
    match fault {
        SigFault::TooMany { n } => Reason::TooManyArguments { n: *n },
        SigFault::BadType { fault: inner, .. } => reason_of_type(inner),
        SigFault::BadFixed { fixed, n } => Reason::BadFixed {
            fixed: *fixed,
            n: *n,
        },
        SigFault::BadArgType { .. } => Reason::BadVariadicArgument,
    }
}

/// The fault of the type at a place, as that of a script.
pub fn bad_type(alloc: Global, at: &JsonPath, ty: &FfiType, fault: &TypeFault) -> ScriptFault
    ensures { Reports (λ p r. (p ≡ inside_type at.now (tree_of ty.now) (path_of fault.now)) × (r ≡ reason_of_type_fault (fault_of fault.now))) result }
{
    match place_inside(alloc, at, ty, fault.path()) {
        Ok(path) => ScriptFault::BadScript {
            path,
            why: reason_of_type(fault),
        },
        Err(_) => ScriptFault::NoMemory,
    }
}

/// Where the node in a type stands that the way leads to.
fn place_inside(alloc: Global, at: &JsonPath, ty: &FfiType, way: &Path) -> Result<Where, NoMemory>
    ensures { IfOk result (λ w. w ≡ inside_type at.now (tree_of ty.now) way.now) }
{
    let mut place = at.owned(alloc)?;
    let none = FfiType::Void;
    let mut node = ty;
    for i in 0..way.len() {
        let number = *way.get(i);
        place.push_key(alloc, key_of_parts(node))?;
        place.push_number(number)?;
        node = part_of(node, number, &none);
    }
    Ok(place)
}

/// The key under which the types stand that a type is made of.
fn key_of_parts(ty: &FfiType) -> &str
    ensures { result.now ≡ key_of_parts (tree_of ty.now) }
{
    match ty {
        FfiType::Array(_, _) => "array",
        _ => "struct",
    }
}

/// The type of a number among those that a type is made of. A fault leads to no number beyond these, for which `none`
/// stands.
fn part_of<'a>(ty: &'a FfiType, number: u32, none: &'a FfiType) -> &'a FfiType
    ensures { tree_of result.now ≡ get_or (parts_of (tree_of ty.now)) number (tree_of none.now) }
{
    match ty {
        FfiType::Struct(fields) => type_in(fields, number, none),
        FfiType::Array(fields, _) => type_in(fields, number, none),
        _ => none,
    }
}

/// The type of a number in a list, or else `none`.
fn type_in<'a>(fields: &'a Fields, number: u32, none: &'a FfiType) -> &'a FfiType
    ensures { tree_of result.now ≡ get_or fields.now number (tree_of none.now) }
{
    if (number as usize) < fields.len() {
        fields.get(number as usize)
    } else {
        none
    }
}

/// Why a type with this fault is no part of a script.
fn reason_of_type(fault: &TypeFault) -> Reason
    ensures { reason_of result ≡ reason_of_type_fault (fault_of fault.now) }
{
    match fault {
        TypeFault::BadTypedef { .. } => Reason::BadTypedef,
        TypeFault::LeftOut { kind, .. } => left_out(kind),
        TypeFault::TooLarge { size, .. } => Reason::TooLarge { size: *size },
        TypeFault::TooDeep { .. } => Reason::TooDeep,
    }
}

/// The reason for a kind that is left out.
fn left_out(kind: &FfiType) -> Reason
    ensures { reason_of result ≡ left_out_reason (tree_of kind.now) }
{
    match kind {
        FfiType::LongDouble => Reason::LeftOutLongDouble,
        FfiType::Complex => Reason::LeftOutComplex,
        _ => Reason::LeftOutVector,
    }
}
