//! Instructions of aarch64.
ghost use Rattle.std.specs.Prelude.{◌≡◌, ℕ, ◌^◌, ◌<◌, IfSome, Some, None};
ghost use Rattle.ffi3_isa.specs.declared.Instr.{Instr};
ghost use Rattle.ffi3_isa.specs.Registers.{HasRegistersBelow};
ghost use Rattle.ffi3_isa.specs.Aarch64.{IsAarch64, IsAarch64Word, IsStubWord, IsTrampolineWord, immediate};

use crate::Instr;
use crate::fields::{field, first_word, sign_extend};

/// The instruction that a word is, of those of which trampolines are made.
fn decode_trampoline(word: u32) -> Option<Instr>
    ensures listed { IfSome result (λ i. IsTrampolineWord word i) }
    ensures only { (i : Instr) → IsTrampolineWord word i → result ≡ Some i }
    ensures registers { IfSome result (λ i. HasRegistersBelow 32 i) }
{
    let register = field(word, 0, 5) as u8;
    let imm19 = field(word, 5, 19);
    if field(word, 24, 8) == 0b01011000 {
        return Some(Instr::LdrLit {
            t: register,
            d: sign_extend(21, imm19 << 2),
        });
    }
    if field(word, 31, 1) == 0 && field(word, 24, 5) == 0b10000 {
        return Some(Instr::Adr {
            rd: register,
            d: sign_extend(21, (imm19 << 2) + field(word, 29, 2)),
        });
    }
    if field(word, 10, 22) == 0b1101011000011111000000 && register == 0 {
        return Some(Instr::Br {
            n: field(word, 5, 5) as u8,
        });
    }
    None
}

/// The instruction with an immediate of 12 bits, by its upper ten bits.
fn immediate(op: u32, imm12: u32, n: u8, t: u8) -> Option<Instr>
    requires imm { imm12 < 2 ^ 12 }
    requires n { n < 32 }
    requires t { t < 32 }
    ensures value { result ≡ immediate op imm12 n t }
    ensures registers { IfSome result (λ i. HasRegistersBelow 32 i) }
{
    let rd = t;
    let rs = n;
    let d = (8 * imm12) as i64;
    match op {
        0b1111100101 => Some(Instr::Ld { rd, rs, d }),
        0b1111100100 => Some(Instr::Sd { rd, rs, d }),
        0b1111110101 => Some(Instr::Fld { rd, rs, d }),
        0b1111110100 => Some(Instr::Fsd { rd, rs, d }),
        0b1001000100 => Some(Instr::Addi {
            rd,
            rs,
            d: imm12 as i64,
        }),
        0b1101000100 => Some(Instr::Addi {
            rd,
            rs,
            d: 0 - imm12 as i64,
        }),
        _ => None,
    }
}

/// The instruction that a word is, of those of which stubs are made besides.
fn decode_stub(word: u32) -> Option<Instr>
    ensures listed { IfSome result (λ i. IsStubWord word i) }
    ensures only { (i : Instr) → IsStubWord word i → result ≡ Some i }
    ensures registers { IfSome result (λ i. HasRegistersBelow 32 i) }
{
    let t = field(word, 0, 5) as u8;
    let n = field(word, 5, 5) as u8;
    let top = field(word, 10, 22);
    if top == 0b1101011000111111000000 && t == 0 {
        return Some(Instr::Blr { n });
    }
    if top == 0b1101011001011111000000 && t == 0 {
        return Some(Instr::Br { n });
    }
    let op = field(word, 22, 10);
    let imm12 = field(word, 10, 12);
    immediate(op, imm12, n, t)
}

/// The instruction that a word is.
fn decode_word(word: u32) -> Option<Instr>
    ensures listed { IfSome result (λ i. IsAarch64Word word i) }
    ensures only { (i : Instr) → IsAarch64Word word i → result ≡ Some i }
    ensures registers { IfSome result (λ i. HasRegistersBelow 32 i) }
{
    if let Some(instr) = decode_trampoline(word) {
        return Some(instr);
    }
    decode_stub(word)
}

/// The instruction that these bytes begin with, and how many bytes it has: none exactly where they
/// begin with no `ldr` of a literal of 64 bits, `adr`, `br`, `blr` or `ret`, `ldr` or `str` of 64 bits with an
/// unsigned offset, `add` or `sub` of an immediate that is not shifted.
/// (Arm Architecture Reference Manual for A-profile, C6.2)
pub fn decode_aarch64(bytes: &[u8]) -> Option<(Instr, u8)>
    ensures listed { IfSome result (λ p. IsAarch64 bytes.now p.0 p.1) }
    ensures unlisted { result ≡ None → (i : Instr) (n : ℕ) → ¬ IsAarch64 bytes.now i n }
    ensures only { (i : Instr) (n : ℕ) → IsAarch64 bytes.now i n → result ≡ Some (i, n) }
    ensures registers { IfSome result (λ p. HasRegistersBelow 32 p.0) }
{
    let word = first_word(bytes)?;
    let instr = decode_word(word)?;
    Some((instr, 4))
}
