//! The object that describes an image.
ghost use Rattle.std.specs.Prelude.{◌≡◌, IfOk, IfErr, map, codes};
ghost use Rattle.ffi3_type_spec.specs.Signature.{SignatureHasNoFault};
ghost use Rattle.ffi3_script_spec.specs.Language as language;
ghost use Rattle.ffi3_script_spec.specs.Language.{value_under, under};
ghost use Rattle.ffi3_explain.specs.ImageOf.{image_of};
ghost use Rattle.ffi3_json.specs.KeyOf.{key_of};
ghost use Rattle.ffi3_image_spec.specs.Object as object;
ghost use Rattle.ffi3_image_spec.specs.Object.{read, root, snapshot_keys, signature_version};
ghost use Rattle.ffi3_image.specs.SnapshotOf.{snapshot_of, Describe};
ghost use Rattle.ffi3_image.specs.Tells.{Tells, IsNoSnapshot};

use crate::ImageFault;
use crate::fault::{bad_as_in_scripts, of_script};
use crate::parts::{read_bytes, read_registers, read_target, read_word, text_under};
use ffi3_explain::Image;
use ffi3_json::{
    JsonPath, Key, Node, Reason, Where, check_object_at, parse, read_signature_at, required,
};
use ffi3_type_spec::Target;
use ffi3_types::Sig;
use std::alloc::Global;

/// Registers and stack of a machine at an entry, its target, and the signature of what is called.
#[derive(Debug, Drop)]
pub struct Snapshot {
    pub target: Target,
    pub sig: Sig,
    pub image: Image,
}

/// The keys of the object.
fn snapshot_keys() -> [Key<'static>; 6]
    ensures { map key_of result ≡ snapshot_keys }
{
    [
        required("target"),
        required("sig"),
        required("sp"),
        required("general"),
        required("floating"),
        required("stack"),
    ]
}

/// Whether the value is an object with these keys and no others.
fn check_keys(alloc: Global, value: &Node, at: &JsonPath) -> Result<(), ImageFault>
    ensures ok { IfOk result (λ u. object.of_script (language.check_object value.now snapshot_keys at.now) ≡ read tt) }
    ensures err { IfErr result (Tells (λ p r. object.of_script (language.check_object value.now snapshot_keys at.now) ≡ object.fault p r)) }
{
    match check_object_at(alloc, value, &snapshot_keys(), at) {
        Ok(()) => Ok(()),
        Err(fault) => Err(of_script(fault)),
    }
}

/// The signature that stands under a key. One that is not there is read as null.
fn read_sig(alloc: Global, value: &Node, at: &JsonPath) -> Result<Sig, ImageFault>
    ensures ok { IfOk result (λ s. object.of_script (language.read_signature signature_version (value_under (codes "sig") value.now) (under at.now (codes "sig"))) ≡ read s) }
    ensures right { IfOk result SignatureHasNoFault }
    ensures err { IfErr result (Tells (λ p r. object.of_script (language.read_signature signature_version (value_under (codes "sig") value.now) (under at.now (codes "sig"))) ≡ object.fault p r)) }
{
    let place = at.key("sig");
    let Some(part) = value.get("sig") else {
        return Err(bad_as_in_scripts(alloc, &place, Reason::NotAnObject));
    };
    match read_signature_at(alloc, &part, &place, 2) {
        Ok(sig) => Ok(sig),
        Err(fault) => Err(of_script(fault)),
    }
}

/// The stack pointer, the registers and the bytes of the stack.
fn read_image(alloc: Global, value: &Node, at: &JsonPath) -> Result<Image, ImageFault>
    requires { at.now ≡ root }
    ensures ok { IfOk result (λ m. object.read_image value.now ≡ read (image_of m)) }
    ensures err { IfErr result (Tells (λ p r. object.read_image value.now ≡ object.fault p r)) }
{
    let sp = match read_word(alloc, text_under(value, "sp"), &at.key("sp")) {
        Ok(sp) => sp,
        Err(fault) => return Err(fault),
    };
    let general = match read_registers(alloc, value, "general", &at.key("general")) {
        Ok(general) => general,
        Err(fault) => return Err(fault),
    };
    let floating = match read_registers(alloc, value, "floating", &at.key("floating")) {
        Ok(floating) => floating,
        Err(fault) => return Err(fault),
    };
    match read_bytes(alloc, text_under(value, "stack"), &at.key("stack")) {
        Ok(stack) => Ok(Image {
            general,
            floating,
            sp,
            stack,
        }),
        Err(fault) => Err(fault),
    }
}

/// The whole object, at the root.
fn read_object(alloc: Global, value: &Node, at: &JsonPath) -> Result<Snapshot, ImageFault>
    requires { at.now ≡ root }
    ensures ok { IfOk result (λ s. object.read_snapshot value.now ≡ read (snapshot_of s)) }
    ensures right { IfOk result (λ s. SignatureHasNoFault s.sig) }
    ensures err { IfErr result (Tells (λ p r. object.read_snapshot value.now ≡ object.fault p r)) }
{
    if let Err(fault) = check_keys(alloc, value, at) {
        return Err(fault);
    }
    let target = match read_target(alloc, text_under(value, "target"), &at.key("target")) {
        Ok(target) => target,
        Err(fault) => return Err(fault),
    };
    let sig = match read_sig(alloc, value, at) {
        Ok(sig) => sig,
        Err(fault) => return Err(fault),
    };
    match read_image(alloc, value, at) {
        Ok(image) => Ok(Snapshot { target, sig, image }),
        Err(fault) => Err(fault),
    }
}

/// The image that the bytes describe: an object with `target`, a target's word, `sig`, a signature as scripts of
/// version 2 have them, `sp`, a number, `general` and `floating`, arrays of 32 numbers, and `stack`, the bytes from the
/// stack pointer on, two hexadecimal digits each. A number is a text of 16 hexadecimal digits. The first fault in this
/// order is told: more than 1,048,576 bytes, no JSON, the object and its keys, and each key's value. Whether the stack
/// has the bytes that a question needs is not looked at.
pub fn read_snapshot(alloc: Global, bytes: &[u8]) -> Result<Snapshot, ImageFault>
    ensures ok { IfOk result (λ s. Describe bytes.now (snapshot_of s)) }
    ensures right { IfOk result (λ s. SignatureHasNoFault s.sig) }
    ensures err { IfErr result (IsNoSnapshot bytes.now) }
{
    let value = match parse(alloc, bytes) {
        Ok(value) => value,
        Err(fault) => return Err(of_script(fault)),
    };
    let start = Where::new(alloc);
    read_object(alloc, &Node::of(&value), &JsonPath::from(&start))
}
