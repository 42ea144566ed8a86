//! Instructions of the three instruction sets, read from their bytes.
#![tactic(auto)]

mod aarch64;
mod amd64;
mod fields;
mod riscv;

pub use aarch64::decode_aarch64;
pub use amd64::decode_amd64;
pub use riscv::decode_riscv;

/// An instruction. Registers go by their number in the target's encoding, and `d` is a distance in
/// bytes, sign-extended.
/// (Intel 64 and IA-32 Architectures Software Developer's Manual, volume 2; Arm Architecture Reference
/// Manual for A-profile, C6.2; RISC-V unprivileged ISA, 2 and RV64I)
#[derive(Clone, Copy, Debug, Eq, PartialEq)]
pub enum Instr {
    /// `endbr64` of amd64.
    Endbr,
    /// `nop` of amd64.
    Nop,
    /// `lea reg, [rip + d]` of amd64: `d` is counted from the next instruction.
    Lea { reg: u8, d: i64 },
    /// `jmp [rip + d]` of amd64: `d` is counted from the next instruction.
    JmpMem { d: i64 },
    /// `ldr xt, label` of aarch64: `d` is counted from the instruction itself.
    LdrLit { t: u8, d: i64 },
    /// `adr xd, label` of aarch64: `d` is counted from the instruction itself.
    Adr { rd: u8, d: i64 },
    /// `br xn` and `ret xn` of aarch64.
    Br { n: u8 },
    /// `auipc rd, imm` of RISC-V: `d` is the immediate times 4096, counted from the instruction itself.
    Auipc { rd: u8, d: i64 },
    /// `ld rd, d(rs)` of RISC-V, `mov rd, [rs + d]` of amd64, `ldr xd, [xs, d]` of aarch64. In memory's
    /// address aarch64's number 31 is sp.
    Ld { rd: u8, rs: u8, d: i64 },
    /// `jalr rd, d(rs)` of RISC-V.
    Jalr { rd: u8, rs: u8, d: i64 },
    /// `addi rd, rs, d` of RISC-V, `add` and `sub xd, xs, imm` of aarch64, where 31 is sp, and
    /// `lea rsp, [rsp + d]` of amd64.
    Addi { rd: u8, rs: u8, d: i64 },
    /// `sd rd, d(rs)` of RISC-V, `mov [rs + d], rd` of amd64, `str xd, [xs, d]` of aarch64: `rd` is stored.
    Sd { rd: u8, rs: u8, d: i64 },
    /// `fld fd, d(rs)` of RISC-V, `movsd xmmd, [rs + d]` of amd64, `ldr dd, [xs, d]` of aarch64.
    Fld { rd: u8, rs: u8, d: i64 },
    /// `fsd fd, d(rs)` of RISC-V, `movsd [rs + d], xmmd` of amd64, `str dd, [xs, d]` of aarch64: `rd` is stored.
    Fsd { rd: u8, rs: u8, d: i64 },
    /// `call [rs + d]` of amd64.
    CallMem { rs: u8, d: i64 },
    /// `ret` of amd64.
    Ret,
    /// `blr xn` of aarch64.
    Blr { n: u8 },
}
