//! Names of registers.
ghost use Rattle.std.specs.Prelude.{◌≡◌, [], map, slice_index_or};
ghost use Rattle.ffi3_place_spec.specs.RegisterNames.{general_names, floating_names};

use ffi3_type_spec::Isa;

const AMD64_GENERAL: [&str; 16] = [
    "rax", "rcx", "rdx", "rbx", "rsp", "rbp", "rsi", "rdi", "r8", "r9", "r10", "r11", "r12", "r13",
    "r14", "r15",
];

const AMD64_FLOATING: [&str; 16] = [
    "xmm0", "xmm1", "xmm2", "xmm3", "xmm4", "xmm5", "xmm6", "xmm7", "xmm8", "xmm9", "xmm10",
    "xmm11", "xmm12", "xmm13", "xmm14", "xmm15",
];

const AARCH64_GENERAL: [&str; 31] = [
    "x0", "x1", "x2", "x3", "x4", "x5", "x6", "x7", "x8", "x9", "x10", "x11", "x12", "x13", "x14",
    "x15", "x16", "x17", "x18", "x19", "x20", "x21", "x22", "x23", "x24", "x25", "x26", "x27",
    "x28", "x29", "x30",
];

const AARCH64_FLOATING: [&str; 32] = [
    "v0", "v1", "v2", "v3", "v4", "v5", "v6", "v7", "v8", "v9", "v10", "v11", "v12", "v13", "v14",
    "v15", "v16", "v17", "v18", "v19", "v20", "v21", "v22", "v23", "v24", "v25", "v26", "v27",
    "v28", "v29", "v30", "v31",
];

const RISCV_GENERAL: [&str; 32] = [
    "zero", "ra", "sp", "gp", "tp", "t0", "t1", "t2", "s0", "s1", "a0", "a1", "a2", "a3", "a4",
    "a5", "a6", "a7", "s2", "s3", "s4", "s5", "s6", "s7", "s8", "s9", "s10", "s11", "t3", "t4",
    "t5", "t6",
];

const RISCV_FLOATING: [&str; 32] = [
    "ft0", "ft1", "ft2", "ft3", "ft4", "ft5", "ft6", "ft7", "fs0", "fs1", "fa0", "fa1", "fa2",
    "fa3", "fa4", "fa5", "fa6", "fa7", "fs2", "fs3", "fs4", "fs5", "fs6", "fs7", "fs8", "fs9",
    "fs10", "fs11", "ft8", "ft9", "ft10", "ft11",
];

/// Name `r` of a table; past the table no text.
fn name_in(names: &[&'static str], r: u32) -> &'static str
    ensures { result.now ≡ slice_index_or (map (λ t. t.now) names.now) r [] }
{
    let k = r as usize;
    if k < names.len() { names[k] } else { "" }
}

/// The name of a general register, by its number in instructions; of a number past the last one no text.
pub fn general_name(isa: Isa, r: u32) -> &'static str
    ensures { result.now ≡ slice_index_or (general_names isa) r [] }
{
    match isa {
        Isa::Amd64 => name_in(&AMD64_GENERAL, r),
        Isa::Aarch64 => name_in(&AARCH64_GENERAL, r),
        Isa::Riscv => name_in(&RISCV_GENERAL, r),
    }
}

/// The name of a floating register, by its number in instructions; of a number past the last one no text.
pub fn floating_name(isa: Isa, r: u32) -> &'static str
    ensures { result.now ≡ slice_index_or (floating_names isa) r [] }
{
    match isa {
        Isa::Amd64 => name_in(&AMD64_FLOATING, r),
        Isa::Aarch64 => name_in(&AARCH64_FLOATING, r),
        Isa::Riscv => name_in(&RISCV_FLOATING, r),
    }
}
