//! A script once it is read.
ghost use Rattle.std.specs.Prelude.{◌≡◌, ◌<◌, ◌+◌, ◌^◌, length, true, All};
ghost use Rattle.std.specs.List.{list_all};
ghost use Rattle.ffi3_type_spec.specs.Signature.{signature_at};
ghost use Rattle.ffi3_semantics_spec.specs.Move.{no_signature};
ghost use Rattle.ffi3_script_spec.specs.Typed.{script_is_typed, signature_is_right};
ghost use Rattle.ffi3_script.specs.FunctionOf.{script_from, StandsIn};

use crate::ScriptBody;
use ffi3_types::Sigs;
use std::rc::Rc;

/// A function of a script.
#[derive(Drop)]
pub struct ScriptFunction {
    pub(crate) name: String,
    // the number of its signature
    pub(crate) sig: u32,
    pub(crate) body: ScriptBody,
}

/// A script that was read beside some natives. It is well typed: every number lies in its list,
/// and every value has its type.
#[derive(Drop)]
pub struct Script {
    // of the language
    version: u8,
    sigs: Rc<Sigs>,
    functions: Vec<ScriptFunction>,
    main: ScriptBody,
    // how many natives there are
    natives: u32,
    ghost right: { list_all signature_is_right sigs.value ≡ true },
    ghost few_signatures: { length sigs.value < 2 ^ 31 },
    ghost few_functions: { length functions.items < 2 ^ 31 },
    ghost few_natives: { natives < 2 ^ 31 },
    ghost main_stands: { ∥ StandsIn sigs.value (length functions.items + natives) no_signature main ∥₁ },
    ghost bodies_stand: { ∥ All (λ f. StandsIn sigs.value (length functions.items + natives)
        (signature_at sigs.value f.sig) f.body) functions.items ∥₁ },
    ghost typed: { script_is_typed natives (script_from version sigs.value functions.items main) ≡ true },
}

impl Script {
    ghost use Rattle.std.specs.Prelude.{◌≡◌, ◌<◌, ◌+◌, ◌^◌, length, true, All};
    ghost use Rattle.std.specs.List.{list_all};
    ghost use Rattle.ffi3_type_spec.specs.Signature.{signature_at, SignatureHasNoFault};
    ghost use Rattle.ffi3_semantics_spec.specs.Move.{no_signature};
    ghost use Rattle.ffi3_script_spec.specs.Typed.{script_is_typed, signature_is_right};
    ghost use Rattle.ffi3_script_body.specs.BodyOf.{moves_of, signatures_of, functions_of, signature_of};
    ghost use Rattle.ffi3_script.specs.FunctionOf.{script_from, StandsIn};
    ghost use Rattle.std.specs.Prelude.{Some};
    ghost use Rattle.ffi3_script.specs.ScriptOf.{script_of, natives_of, function_at, main_body, body_at};

    /// The script of this version, these signatures, functions and main, beside so many natives.
    pub(crate) fn new(
        version: u8,
        sigs: Rc<Sigs>,
        functions: Vec<ScriptFunction>,
        main: ScriptBody,
        natives: u32,
    ) -> Script
        requires few_signatures { length sigs.value < 2 ^ 31 }
        requires few_functions { length functions.items < 2 ^ 31 }
        requires few_natives { natives < 2 ^ 31 }
        requires main_stands { StandsIn sigs.value (length functions.items + natives) no_signature main }
        requires bodies_stand { All (λ f. StandsIn sigs.value (length functions.items + natives)
            (signature_at sigs.value f.sig) f.body) functions.items }
        requires typed { script_is_typed natives (script_from version sigs.value functions.items main) ≡ true }
        ensures is { script_of result ≡ script_from version sigs.value functions.items main }
        ensures natives_are { natives_of result ≡ natives }
    {
        Script {
            version,
            sigs,
            functions,
            main,
            natives,
        }
    }

    /// The version of the language that it is written in.
    pub fn version(&self) -> u8
        ensures { result ≡ (script_of self.now).version }
    {
        self.version
    }

    /// The signatures. None of them has a fault.
    pub fn sigs(&self) -> &Sigs
        ensures are { result.now ≡ (script_of self.now).signatures }
        ensures right { list_all signature_is_right result.now ≡ true }
        ensures faultless { All SignatureHasNoFault result.now }
        ensures bound { length result.now < 2 ^ 31 }
    {
        &self.sigs
    }

    /// How many functions there are.
    pub fn functions(&self) -> u32
        ensures are { result ≡ length (script_of self.now).functions }
        ensures bound { result < 2 ^ 31 }
    {
        self.functions.len() as u32
    }

    /// Beside how many natives the script was read.
    pub fn natives(&self) -> u32
        ensures are { result ≡ natives_of self.now }
        ensures bound { result < 2 ^ 31 }
    {
        self.natives
    }

    /// The name of function `i`.
    pub fn name(&self, i: u32) -> &str
        requires { i < length (script_of self.now).functions }
        ensures { result.now ≡ (function_at (script_of self.now) i).name }
    {
        self.functions[i as usize].name.as_str()
    }

    /// The number of the signature of function `i`.
    pub fn sig_of(&self, i: u32) -> u32
        requires { i < length (script_of self.now).functions }
        ensures is { result ≡ (function_at (script_of self.now) i).signature }
        ensures below { result < length (script_of self.now).signatures }
    {
        self.functions[i as usize].sig
    }

    /// The body of function `i`.
    pub fn body(&self, i: u32) -> &ScriptBody
        requires { i < length (script_of self.now).functions }
        ensures is { body_at self.now i ≡ Some result.now }
        ensures moves_are { moves_of result.now ≡ (function_at (script_of self.now) i).body }
        ensures signatures_are { signatures_of result.now ≡ (script_of self.now).signatures }
        ensures own_is { signature_of result.now ≡
            signature_at (script_of self.now).signatures (function_at (script_of self.now) i).signature }
        ensures functions_are { functions_of result.now ≡ length (script_of self.now).functions + natives_of self.now }
    {
        &self.functions[i as usize].body
    }

    /// The body of main.
    pub fn main(&self) -> &ScriptBody
        ensures is { result.now ≡ main_body self.now }
        ensures moves_are { moves_of result.now ≡ (script_of self.now).main }
        ensures signatures_are { signatures_of result.now ≡ (script_of self.now).signatures }
        ensures own_is { signature_of result.now ≡ no_signature }
        ensures functions_are { functions_of result.now ≡ length (script_of self.now).functions + natives_of self.now }
    {
        &self.main
    }
}
