//! Names of registers.
ghost use Rattle.std.specs.Prelude.{◌≡◌, [], length, slice_index_or};
ghost use Rattle.ffi3_capi.specs.Filled.{filled, with_end};
ghost use Rattle.ffi3_capi.specs.Registers.{names_by, register_name, x87_names};

use crate::codes::{IN_FLOATING, IN_GENERAL, IN_X87};
use crate::fill::fill_text;
use crate::placing::target_numbered;
use ffi3_place::names::{floating_name, general_name};
use ffi3_type_spec::Isa;

/// The name of an x87 register.
fn x87_name(isa: Isa, r: u32) -> &'static str
    ensures { result.now ≡ slice_index_or (x87_names isa) r [] }
{
    match isa {
        Isa::Amd64 if r == 0 => "st0",
        Isa::Amd64 if r == 1 => "st1",
        Isa::Amd64 | Isa::Aarch64 | Isa::Riscv => "",
    }
}

/// The name of a register of an instruction set.
fn name_by(place: u32, isa: Isa, r: u32) -> &'static str
    ensures { result.now ≡ slice_index_or (names_by place isa) r [] }
{
    if place == IN_GENERAL {
        return general_name(isa, r);
    }
    if place == IN_FLOATING {
        return floating_name(isa, r);
    }
    if place == IN_X87 {
        return x87_name(isa, r);
    }
    ""
}

/// The name of a register of a target, for an array of the caller: it is written with a terminating NUL, if all of that
/// has room there. Answers how long it is; what is no register has the empty name.
pub fn register_name(target: u32, place: u32, number: u32, array: &mut [u8]) -> usize
    ensures count { result ≡ length (register_name target place number) }
    ensures written { array.new ≡ filled (with_end (register_name target place number)) array.old }
{
    let name = match target_numbered(target) {
        Some(to) => name_by(place, to.isa(), number),
        None => "",
    };
    fill_text(name.as_bytes(), array)
}
