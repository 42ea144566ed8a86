//! The lines of layout.
ghost use Rattle.ffi3_script.specs.ScriptOf.{script_of};
ghost use Rattle.std.specs.List.{concat};
ghost use Rattle.ffi3_app_spec.specs.Commands.{layout_lines, layout_text};
ghost use Rattle.ffi3_io_spec.specs.Written.{Wrote};

use crate::write::write_made_line;
use ffi3_io::{IoError, Sink};
use ffi3_script::Script;
use ffi3_text::layout_line;
use ffi3_types::{At, CheckedSig};
use std::alloc::Global;

/// Writes the layout of the types of each signature, one line for each type.
pub fn layout<O: Sink>(alloc: Global, script: &Script, output: &mut O) -> Result<(), IoError>
    ensures { Wrote (layout_text (script_of script.now)) (O.state output.old) (O.state output.new) result }
{
    let sigs = script.sigs();
    for i in 0..sigs.len() {
        let sig = CheckedSig::of(sigs.get(i));
        layout_of(alloc, i as u32, &sig, output)?;
    }
    Ok(())
}

/// The lines of one signature: of its result, then of its arguments.
fn layout_of<O: Sink>(
    alloc: Global,
    number: u32,
    sig: &CheckedSig<'_>,
    output: &mut O,
) -> Result<(), IoError>
    ensures { Wrote (concat (layout_lines number sig.now)) (O.state output.old) (O.state output.new) result }
{
    write_made_line(output, layout_line(alloc, number, sig.as_sig(), At::Ret))?;
    for j in 0..sig.count() {
        write_made_line(output, layout_line(alloc, number, sig.as_sig(), At::Arg(j)))?;
    }
    Ok(())
}
