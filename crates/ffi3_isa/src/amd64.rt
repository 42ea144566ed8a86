//! Instructions of amd64.
ghost use Rattle.std.specs.Prelude.{◌≡◌, ℕ, ◌+◌, ◌*◌, ◌<◌, IfSome, Some, None};
ghost use Rattle.ffi3_isa.specs.declared.Instr.{Instr};
ghost use Rattle.ffi3_isa.specs.Registers.{HasRegistersBelow};
ghost use Rattle.ffi3_isa.specs.Amd64.{
  IsAmd64,
  IsAtR11,
  IsAtSp,
  IsFixed,
  IsLeaOf,
  IsMovAtR11,
  IsMovAtSp,
  IsMovsd,
  IsTrampolineCode,
  disp32,
  mov,
  movsd,
};

use crate::Instr;
use crate::fields::{field, sign_extend};

/// The register of `lea reg, [rip + d]`, by its prefix and its ModR/M byte.
fn lea_register(prefix: u8, mod_rm: u8) -> Option<u8>
    ensures listed { IfSome result (λ register. IsLeaOf prefix mod_rm register) }
    ensures only { (register : ℕ) → IsLeaOf prefix mod_rm register → result ≡ Some register }
{
    let prefix = prefix as u32;
    let mod_rm = mod_rm as u32;
    if field(prefix, 3, 5) != 0b01001 || field(prefix, 0, 2) != 0 {
        return None;
    }
    if field(mod_rm, 6, 2) != 0 || field(mod_rm, 0, 3) != 0b101 {
        return None;
    }
    let register = 8 * field(prefix, 2, 1) + field(mod_rm, 3, 3);
    if register == 4 {
        return None;
    }
    Some(register as u8)
}

/// A displacement.
fn displacement(a: u8, b: u8, c: u8, d: u8) -> i64
    ensures { result ≡ disp32 a b c d }
{
    sign_extend(32, u32::from_le_bytes([a, b, c, d]))
}

/// The instruction that these bytes begin with, of those of which trampolines are made.
fn decode_trampoline(bytes: &[u8]) -> Option<(Instr, u8)>
    ensures listed { IfSome result (λ p. IsTrampolineCode bytes.now p.0 p.1) }
    ensures only { (i : Instr) (n : ℕ) → IsTrampolineCode bytes.now i n → result ≡ Some (i, n) }
    ensures registers { IfSome result (λ p. HasRegistersBelow 16 p.0) }
{
    if let [0xF3, 0x0F, 0x1E, 0xFA, ..] = bytes {
        return Some((Instr::Endbr, 4));
    }
    if let [0xFF, 0x25, a, b, c, d, ..] = bytes {
        let d = displacement(*a, *b, *c, *d);
        return Some((Instr::JmpMem { d }, 6));
    }
    if let [0x0F, 0x1F, 0x80, _, _, _, _, ..] = bytes {
        return Some((Instr::Nop, 7));
    }
    if let [prefix, 0x8D, mod_rm, a, b, c, d, ..] = bytes {
        let reg = lea_register(*prefix, *mod_rm)?;
        let d = displacement(*a, *b, *c, *d);
        return Some((Instr::Lea { reg, d }, 7));
    }
    None
}

/// `lea rsp, [rsp + d]`, `call [r11 + d]` and `ret`.
fn decode_fixed(bytes: &[u8]) -> Option<(Instr, u8)>
    ensures listed { IfSome result (λ p. IsFixed bytes.now p.0 p.1) }
    ensures only { (i : Instr) (n : ℕ) → IsFixed bytes.now i n → result ≡ Some (i, n) }
    ensures registers { IfSome result (λ p. HasRegistersBelow 16 p.0) }
{
    if let [0x48, 0x8D, 0xA4, 0x24, a, b, c, d, ..] = bytes {
        let d = displacement(*a, *b, *c, *d);
        return Some((Instr::Addi { rd: 4, rs: 4, d }, 8));
    }
    if let [0x41, 0xFF, 0x93, a, b, c, d, ..] = bytes {
        let d = displacement(*a, *b, *c, *d);
        return Some((Instr::CallMem { rs: 11, d }, 7));
    }
    if let [0xC3, ..] = bytes {
        return Some((Instr::Ret, 1));
    }
    None
}

/// The register of an instruction with [r11 + d], by its prefix and its ModR/M byte.
fn r11_register(prefix: u8, mod_rm: u8) -> Option<u8>
    ensures listed { IfSome result (λ register. IsAtR11 prefix mod_rm register) }
    ensures only { (register : ℕ) → IsAtR11 prefix mod_rm register → result ≡ Some register }
    ensures in_range { IfSome result (λ register. register < 16) }
{
    let prefix = prefix as u32;
    let mod_rm = mod_rm as u32;
    if field(prefix, 3, 5) != 0b01001 || field(prefix, 0, 2) != 1 {
        return None;
    }
    if field(mod_rm, 6, 2) != 2 || field(mod_rm, 0, 3) != 0b011 {
        return None;
    }
    let register = 8 * field(prefix, 2, 1) + field(mod_rm, 3, 3);
    Some(register as u8)
}

/// The register of an instruction with [rsp + d], by its prefix and its ModR/M byte.
fn sp_register(prefix: u8, mod_rm: u8) -> Option<u8>
    ensures listed { IfSome result (λ register. IsAtSp prefix mod_rm register) }
    ensures only { (register : ℕ) → IsAtSp prefix mod_rm register → result ≡ Some register }
    ensures in_range { IfSome result (λ register. register < 16) }
{
    let prefix = prefix as u32;
    let mod_rm = mod_rm as u32;
    if field(prefix, 3, 5) != 0b01001 || field(prefix, 0, 2) != 0 {
        return None;
    }
    if field(mod_rm, 6, 2) != 2 || field(mod_rm, 0, 3) != 0b100 {
        return None;
    }
    let register = 8 * field(prefix, 2, 1) + field(mod_rm, 3, 3);
    if register == 4 {
        return None;
    }
    Some(register as u8)
}

/// `mov` between a register and memory, by its opcode.
fn mov(op: u8, register: u8, base: u8, d: i64) -> Option<Instr>
    requires register { register < 16 }
    requires base { base < 16 }
    ensures value { result ≡ mov op register base d }
    ensures registers { IfSome result (λ i. HasRegistersBelow 16 i) }
{
    let rd = register;
    let rs = base;
    match op {
        0x8B => Some(Instr::Ld { rd, rs, d }),
        0x89 => Some(Instr::Sd { rd, rs, d }),
        _ => None,
    }
}

/// `movsd` between a register and memory, by its opcode.
fn movsd(op: u8, register: u8, base: u8, d: i64) -> Option<Instr>
    requires register { register < 16 }
    requires base { base < 16 }
    ensures value { result ≡ movsd op register base d }
    ensures registers { IfSome result (λ i. HasRegistersBelow 16 i) }
{
    let rd = register;
    let rs = base;
    match op {
        0x10 => Some(Instr::Fld { rd, rs, d }),
        0x11 => Some(Instr::Fsd { rd, rs, d }),
        _ => None,
    }
}

/// `mov` with [r11 + d].
fn decode_mov_at_r11(bytes: &[u8]) -> Option<(Instr, u8)>
    ensures listed { IfSome result (λ p. IsMovAtR11 bytes.now p.0 p.1) }
    ensures only { (i : Instr) (n : ℕ) → IsMovAtR11 bytes.now i n → result ≡ Some (i, n) }
    ensures registers { IfSome result (λ p. HasRegistersBelow 16 p.0) }
{
    if let [prefix, op, mod_rm, a, b, c, d, ..] = bytes {
        let register = r11_register(*prefix, *mod_rm)?;
        let d = displacement(*a, *b, *c, *d);
        let instr = mov(*op, register, 11, d)?;
        return Some((instr, 7));
    }
    None
}

/// `mov` with [rsp + d].
fn decode_mov_at_sp(bytes: &[u8]) -> Option<(Instr, u8)>
    ensures listed { IfSome result (λ p. IsMovAtSp bytes.now p.0 p.1) }
    ensures only { (i : Instr) (n : ℕ) → IsMovAtSp bytes.now i n → result ≡ Some (i, n) }
    ensures registers { IfSome result (λ p. HasRegistersBelow 16 p.0) }
{
    if let [prefix, op, mod_rm, 0x24, a, b, c, d, ..] = bytes {
        let register = sp_register(*prefix, *mod_rm)?;
        let d = displacement(*a, *b, *c, *d);
        let instr = mov(*op, register, 4, d)?;
        return Some((instr, 8));
    }
    None
}

/// The register of `movsd` with [r11 + d], by its ModR/M byte.
fn xmm_register(mod_rm: u8) -> Option<u8>
    ensures listed { IfSome result (λ register. (register < 8) × (mod_rm ≡ 128 + 8 * register + 3)) }
    ensures only { (register : ℕ) → register < 8 → mod_rm ≡ 128 + 8 * register + 3 → result ≡ Some register }
{
    let mod_rm = mod_rm as u32;
    if field(mod_rm, 6, 2) != 2 || field(mod_rm, 0, 3) != 0b011 {
        return None;
    }
    Some(field(mod_rm, 3, 3) as u8)
}

/// `movsd` with [r11 + d].
fn decode_movsd(bytes: &[u8]) -> Option<(Instr, u8)>
    ensures listed { IfSome result (λ p. IsMovsd bytes.now p.0 p.1) }
    ensures only { (i : Instr) (n : ℕ) → IsMovsd bytes.now i n → result ≡ Some (i, n) }
    ensures registers { IfSome result (λ p. HasRegistersBelow 16 p.0) }
{
    if let [0xF2, 0x41, 0x0F, op, mod_rm, a, b, c, d, ..] = bytes {
        let register = xmm_register(*mod_rm)?;
        let d = displacement(*a, *b, *c, *d);
        let instr = movsd(*op, register, 11, d)?;
        return Some((instr, 9));
    }
    None
}

/// The instruction that these bytes begin with, and how many bytes it has: none exactly where they
/// begin with no `endbr64`, `lea` or `jmp` relative to the next instruction, `nop` of seven bytes,
/// `mov` or `movsd` between a register and [r11 + d], `mov` between a register and [rsp + d],
/// `lea rsp, [rsp + d]`, `call [r11 + d]` or `ret`, each d of four bytes. No other `lea` sets the
/// stack pointer, and no `mov` at [rsp + d] has it as its register.
/// (Intel 64 and IA-32 Architectures Software Developer's Manual, volume 2)
pub fn decode_amd64(bytes: &[u8]) -> Option<(Instr, u8)>
    ensures listed { IfSome result (λ p. IsAmd64 bytes.now p.0 p.1) }
    ensures unlisted { result ≡ None → (i : Instr) (n : ℕ) → ¬ IsAmd64 bytes.now i n }
    ensures only { (i : Instr) (n : ℕ) → IsAmd64 bytes.now i n → result ≡ Some (i, n) }
    ensures registers { IfSome result (λ p. HasRegistersBelow 16 p.0) }
{
    if let Some(found) = decode_trampoline(bytes) {
        return Some(found);
    }
    if let Some(found) = decode_fixed(bytes) {
        return Some(found);
    }
    if let Some(found) = decode_mov_at_r11(bytes) {
        return Some(found);
    }
    if let Some(found) = decode_mov_at_sp(bytes) {
        return Some(found);
    }
    decode_movsd(bytes)
}
