//! Lines of layout.
ghost use Rattle.std.specs.Prelude.{◌≡◌, ◌<◌, ◌++◌, IfOk, OnOk, length};
ghost use Rattle.ffi3_type_spec.specs.Fault.{IsLaidOut};
ghost use Rattle.ffi3_type_spec.specs.Signature.{SignatureHasNoFault, at_result, at_argument};
ghost use Rattle.ffi3_types.specs.TreeOf.{tree_of};
ghost use Rattle.ffi3_types.specs.SignatureFaultOf.{position_of};
ghost use Rattle.ffi3_text_spec.specs.LayoutLines.{IsIn, at_text, sized_text, type_layout_text, layout_text_of};

use ffi3_types::{At, Bytes, CheckedSig, CheckedType, FfiType, Leaf, NoMemory, Sig, type_text};
use std::alloc::Global;

/// The layout of the result or an argument of signature number `sig_number`, as
/// `sig 0 arg 0 struct{uint8,uint16[2]} size 6 align 2 leaves 0:uint8 2:uint16 4:uint16` with a newline.
pub fn layout_line(alloc: Global, sig_number: u32, sig: &Sig, at: At) -> Result<Bytes, NoMemory>
    requires faultless { SignatureHasNoFault sig.now }
    requires there { IsIn sig.now (position_of at) }
    ensures { IfOk result (λ text. text ≡ layout_text_of sig_number sig.now (position_of at)) }
{
    let checked = CheckedSig::of(sig);
    match at {
        At::Ret => result_line(alloc, sig_number, &checked),
        At::Arg(i) => argument_line(alloc, sig_number, &checked, i),
    }
}

fn result_line(alloc: Global, sig_number: u32, sig: &CheckedSig<'_>) -> Result<Bytes, NoMemory>
    ensures { IfOk result (λ text. text ≡ layout_text_of sig_number sig.now at_result) }
{
    let start = format!(in alloc; "sig {sig_number} ret ")?;
    let mut text = Bytes::from_slice(alloc, start.as_bytes())?;
    write_type(alloc, &sig.ret(), &mut text)?;
    text.push(b'\n')?;
    Ok(text)
}

fn argument_line(
    alloc: Global,
    sig_number: u32,
    sig: &CheckedSig<'_>,
    i: u32,
) -> Result<Bytes, NoMemory>
    requires { i < length sig.now.arguments }
    ensures { IfOk result (λ text. text ≡ layout_text_of sig_number sig.now (at_argument i)) }
{
    let start = format!(in alloc; "sig {sig_number} arg {i} ")?;
    let mut text = Bytes::from_slice(alloc, start.as_bytes())?;
    write_type(alloc, &sig.arg(i), &mut text)?;
    text.push(b'\n')?;
    Ok(text)
}

/// The type and its layout at the end of a text.
fn write_type(alloc: Global, ty: &CheckedType<'_>, text: &mut Bytes) -> Result<(), NoMemory>
    ensures { OnOk result (text.new ≡ text.old ++ type_layout_text ty.now) }
{
    let plain = ty.as_type();
    text.extend(type_text(alloc, plain)?.as_slice())?;
    match plain {
        FfiType::Void => Ok(()),
        _ => write_layout(alloc, ty, text),
    }
}

/// Size, alignment and leaves.
fn write_layout(alloc: Global, ty: &CheckedType<'_>, text: &mut Bytes) -> Result<(), NoMemory>
    ensures { OnOk result (text.new ≡ text.old ++ sized_text ty.now) }
{
    let size = ty.size();
    let align = ty.align();
    text.extend(format!(in alloc; " size {size} align {align} leaves")?.as_bytes())?;
    let leaves = ty.as_type().leaves(alloc)?;
    for i in 0..leaves.len() {
        write_leaf(alloc, leaves.get(i), text)?;
    }
    Ok(())
}

fn write_leaf(alloc: Global, leaf: &Leaf, text: &mut Bytes) -> Result<(), NoMemory>
    requires { IsLaidOut (tree_of leaf.now.kind) }
    ensures { OnOk result (text.new ≡ text.old ++ at_text leaf.now.at (tree_of leaf.now.kind)) }
{
    let at = leaf.at;
    text.extend(format!(in alloc; " {at}:")?.as_bytes())?;
    text.extend(type_text(alloc, &leaf.kind)?.as_slice())
}
