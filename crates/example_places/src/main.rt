//! Prepares a call interface for RISC-V, and prints where its arguments and its result stand.
#![tactic(auto)]

ghost use Rattle.std.specs.Prelude.{◌≡◌, IfOk};
ghost use Rattle.ffi3_riscv_spec.specs.Riscv.{riscv};
ghost use Rattle.example_places.specs.Lines.{all_lines};

use ffi3_cif::{Cif, prep_cif};
use ffi3_io::{WriteSink, write_all};
use ffi3_riscv::Riscv;
use ffi3_text::place_line;
use ffi3_types::{At, Bytes, FfiType, Fields, NoMemory};
use std::alloc::Global;
use std::process::ExitCode;

/// The arguments of `double f(struct { int32_t count; float weight; }, int64_t)`.
fn arguments(alloc: Global) -> Result<Fields, NoMemory> {
    let mut pair = Fields::new(alloc);
    pair.push(FfiType::S32)?;
    pair.push(FfiType::Float)?;
    let mut args = Fields::new(alloc);
    args.push(FfiType::Struct(pair))?;
    args.push(FfiType::S64)?;
    Ok(args)
}

/// A line for each argument, and one for the result.
pub fn places(alloc: Global, cif: &Cif<Riscv>) -> Result<Bytes, NoMemory>
    ensures { IfOk result (λ text. text ≡ all_lines riscv cif.now) }
{
    let placed = cif.placed();
    let mut text = Bytes::new(alloc);
    for i in 0..placed.sig().count() {
        text.extend(place_line(alloc, placed, At::Arg(i))?.as_slice())?;
    }
    text.extend(place_line(alloc, placed, At::Ret)?.as_slice())?;
    Ok(text)
}

fn main(rt: HostRuntime) -> ExitCode {
    let alloc = rt.alloc();
    let Ok(args) = arguments(alloc) else {
        return ExitCode::FAILURE;
    };
    let Ok(cif) = prep_cif::<Riscv>(alloc, FfiType::Double, args) else {
        return ExitCode::FAILURE;
    };
    let Ok(text) = places(alloc, &cif) else {
        return ExitCode::FAILURE;
    };
    match write_all(&mut WriteSink::new(rt.stdout()), text.as_slice()) {
        Ok(()) => ExitCode::SUCCESS,
        Err(_) => ExitCode::FAILURE,
    }
}
