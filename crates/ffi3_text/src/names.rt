//! The text of a place: a register's name, or its offset on the stack.
ghost use Rattle.std.specs.Prelude.{◌≡◌, ◌++◌, OnOk};
ghost use Rattle.ffi3_type_spec.specs.declared.Isa.TheVariants.{Amd64};
ghost use Rattle.ffi3_text_spec.specs.Registers.{general_text, floating_text, loc_name};

use crate::numbers::write_labelled;
use ffi3_place::Loc;
use ffi3_place::names::{floating_name, general_name};
use ffi3_type_spec::Isa;
use ffi3_types::{Bytes, NoMemory};

fn write_general(isa: Isa, r: u8, text: &mut Bytes) -> Result<(), NoMemory>
    ensures { OnOk result (text.new ≡ text.old ++ general_text isa r) }
{
    match isa {
        Isa::Amd64 => text.extend(general_name(Isa::Amd64, r as u32).as_bytes()),
        Isa::Aarch64 => write_labelled("x", r as u64, text),
        Isa::Riscv => text.extend(general_name(Isa::Riscv, r as u32).as_bytes()),
    }
}

fn write_amd64_floating(r: u8, text: &mut Bytes) -> Result<(), NoMemory>
    ensures { OnOk result (text.new ≡ text.old ++ floating_text Amd64 r) }
{
    if r < 16 {
        write_labelled("xmm", r as u64, text)
    } else {
        write_labelled("st", ((r - 16) / 2) as u64, text)
    }
}

fn write_floating(isa: Isa, r: u8, text: &mut Bytes) -> Result<(), NoMemory>
    ensures { OnOk result (text.new ≡ text.old ++ floating_text isa r) }
{
    match isa {
        Isa::Amd64 => write_amd64_floating(r, text),
        Isa::Aarch64 => write_labelled("v", r as u64, text),
        Isa::Riscv => text.extend(floating_name(Isa::Riscv, r as u32).as_bytes()),
    }
}

/// Writes a register's name at the end of a text, as `xmm0`; of a place on the stack its offset, as `stack8`.
pub fn write_loc(isa: Isa, at: Loc, text: &mut Bytes) -> Result<(), NoMemory>
    ensures { OnOk result (text.new ≡ text.old ++ loc_name isa at) }
{
    match at {
        Loc::G(r) => write_general(isa, r, text),
        Loc::F(r) => write_floating(isa, r, text),
        Loc::S(n, _) => write_labelled("stack", n as u64, text),
    }
}
