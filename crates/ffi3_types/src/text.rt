//! Types and signatures as text.
ghost use Rattle.std.specs.Prelude.{◌≡◌, ◌++◌, ◌≤◌, [], OnOk, IfOk, length, slice_index_or, slice_range};
ghost use Rattle.ffi3_type_spec.specs.Tree.{array, trees_of};
ghost use Rattle.ffi3_type_spec.specs.Text.{text_of, texts_of, list_text, arguments_text, signature_text};
ghost use Rattle.ffi3_type_spec.specs.Fault.{IsLaidOut};
ghost use Rattle.ffi3_type_spec.specs.Signature.{SignatureHasNoFault};
ghost use Rattle.ffi3_types.specs.TreeOf.{tree_of};

use crate::{Bytes, CheckedSig, FfiType, Fields, NoMemory, Sig};
use std::alloc::Global;

/// The type's text, as `struct{sint8,double[3]}`: the name of a scalar with its size, a struct's
/// elements between commas, an array's count after its element, without spaces.
pub fn type_text(alloc: Global, ty: &FfiType) -> Result<Bytes, NoMemory>
    requires { IsLaidOut (tree_of ty.now) }
    ensures { IfOk result (λ text. text ≡ text_of (tree_of ty.now)) }
{
    let mut text = Bytes::new(alloc);
    ty.write_text(alloc, &mut text)?;
    Ok(text)
}

/// The signature's text, as `sint32(pointer,double)`. Where more arguments may follow, a
/// semicolon stands after the last fixed one, as in `sint32(pointer;double)` and, with none
/// after it, `sint32(pointer;)`.
pub fn sig_text(alloc: Global, sig: &Sig) -> Result<Bytes, NoMemory>
    requires { SignatureHasNoFault sig.now }
    ensures { IfOk result (λ text. text ≡ signature_text sig.now) }
{
    let mut text = Bytes::new(alloc);
    sig.ret().write_text(alloc, &mut text)?;
    text.push(b'(')?;
    write_arguments(alloc, &CheckedSig::of(sig), &mut text)?;
    text.push(b')')?;
    Ok(text)
}

/// The arguments' texts at the end of a text.
fn write_arguments(alloc: Global, sig: &CheckedSig<'_>, text: &mut Bytes) -> Result<(), NoMemory>
    ensures { OnOk result
        (text.new ≡ text.old ++ arguments_text sig.now.arguments sig.now.fixed) }
{
    let plain = sig.as_sig();
    let args = plain.args();
    match plain.fixed() {
        None => args.write_all(alloc, text),
        Some(fixed) => {
            args.write_range(alloc, 0, fixed as usize, text)?;
            text.push(b';')?;
            args.write_range(alloc, fixed as usize, args.len(), text)
        }
    }
}

impl FfiType {
    /// The type's text at the end of a text.
    #[cycle(write_text)]
    fn write_text(&self, alloc: Global, text: &mut Bytes) -> Result<(), NoMemory>
        ensures { OnOk result (text.new ≡ text.old ++ text_of (tree_of self.now)) }
    {
        let name = match self {
            FfiType::Void => "void",
            FfiType::U8 => "uint8",
            FfiType::S8 => "sint8",
            FfiType::U16 => "uint16",
            FfiType::S16 => "sint16",
            FfiType::U32 => "uint32",
            FfiType::S32 => "sint32",
            FfiType::U64 => "uint64",
            FfiType::S64 => "sint64",
            FfiType::U128 => "uint128",
            FfiType::S128 => "sint128",
            FfiType::Float => "float",
            FfiType::Double => "double",
            FfiType::Pointer => "pointer",
            FfiType::X87 => "x87",
            FfiType::Binary128 => "binary128",
            FfiType::LongDouble | FfiType::Complex | FfiType::Vector => "",
            FfiType::Struct(fields) => {
                text.extend("struct{".as_bytes())?;
                fields.write_all(alloc, text)?;
                "}"
            }
            FfiType::Array(fields, count) => return fields.write_array(alloc, *count, text),
        };
        text.extend(name.as_bytes())
    }
}

impl Fields {
    /// The texts of all elements at the end of a text.
    #[cycle(write_text)]
    fn write_all(&self, alloc: Global, text: &mut Bytes) -> Result<(), NoMemory>
        ensures { OnOk result (text.new ≡ text.old ++ list_text self.now) }
    {
        self.write_range(alloc, 0, self.len(), text)
    }

    /// The text of an array of `count` elements of the first type at the end of a text.
    #[cycle(write_text)]
    fn write_array(&self, alloc: Global, count: u32, text: &mut Bytes) -> Result<(), NoMemory>
        ensures { OnOk result (text.new ≡ text.old ++ text_of (array (trees_of self.now) count)) }
    {
        self.write_first(alloc, text)?;
        text.extend(format!(in alloc; "[{count}]")?.as_bytes())
    }

    /// The text of the first type, if there is one, at the end of a text.
    #[cycle(write_text)]
    fn write_first(&self, alloc: Global, text: &mut Bytes) -> Result<(), NoMemory>
        ensures { OnOk result
            (text.new ≡ text.old ++ slice_index_or (texts_of (trees_of self.now)) 0 []) }
    {
        if self.len() == 0 {
            return Ok(());
        }
        self.get(0).write_text(alloc, text)
    }

    /// The texts of the elements from number `from` up to `to` at the end of a text.
    #[cycle(write_text)]
    fn write_range(
        &self,
        alloc: Global,
        from: usize,
        to: usize,
        text: &mut Bytes,
    ) -> Result<(), NoMemory>
        requires in_order { from ≤ to }
        requires in_range { to ≤ length self.now }
        ensures { OnOk result
            (text.new ≡ text.old ++ list_text (slice_range self.now from to)) }
    {
        for i in from..to {
            if i > from {
                text.push(b',')?;
            }
            self.get(i).write_text(alloc, text)?;
        }
        Ok(())
    }
}
