//! Instructions of RISC-V.
ghost use Rattle.std.specs.Prelude.{◌≡◌, ℕ, IfSome, Some, None};
ghost use Rattle.ffi3_isa.specs.declared.Instr.{Instr};
ghost use Rattle.ffi3_isa.specs.Registers.{HasRegistersBelow};
ghost use Rattle.ffi3_isa.specs.Riscv.{IsRiscv, IsRiscvWord};

use crate::Instr;
use crate::fields::{field, first_word, sign_extend};

/// The instruction that a word is.
fn decode_word(word: u32) -> Option<Instr>
    ensures listed { IfSome result (λ i. IsRiscvWord word i) }
    ensures only { (i : Instr) → IsRiscvWord word i → result ≡ Some i }
    ensures registers { IfSome result (λ i. HasRegistersBelow 32 i) }
{
    let rd = field(word, 7, 5) as u8;
    let rs = field(word, 15, 5) as u8;
    let d = sign_extend(12, field(word, 20, 12));
    let rs2 = field(word, 20, 5) as u8;
    let high = field(word, 25, 7);
    let low = field(word, 7, 5);
    let apart = sign_extend(12, (high << 5) + low);
    match (field(word, 0, 7), field(word, 12, 3)) {
        (0b0010111, _) => Some(Instr::Auipc {
            rd,
            d: sign_extend(32, field(word, 12, 20) << 12),
        }),
        (0b0000011, 0b011) => Some(Instr::Ld { rd, rs, d }),
        (0b1100111, 0b000) => Some(Instr::Jalr { rd, rs, d }),
        (0b0010011, 0b000) => Some(Instr::Addi { rd, rs, d }),
        (0b0100011, 0b011) => Some(Instr::Sd {
            rd: rs2,
            rs,
            d: apart,
        }),
        (0b0000111, 0b011) => Some(Instr::Fld { rd, rs, d }),
        (0b0100111, 0b011) => Some(Instr::Fsd {
            rd: rs2,
            rs,
            d: apart,
        }),
        _ => None,
    }
}

/// The instruction that these bytes begin with, and how many bytes it has: none exactly where they
/// begin with no `auipc`, `ld`, `jalr`, `addi`, `sd`, `fld` or `fsd`.
/// (RISC-V unprivileged ISA, 2.2)
pub fn decode_riscv(bytes: &[u8]) -> Option<(Instr, u8)>
    ensures listed { IfSome result (λ p. IsRiscv bytes.now p.0 p.1) }
    ensures unlisted { result ≡ None → (i : Instr) (n : ℕ) → ¬ IsRiscv bytes.now i n }
    ensures only { (i : Instr) (n : ℕ) → IsRiscv bytes.now i n → result ≡ Some (i, n) }
    ensures registers { IfSome result (λ p. HasRegistersBelow 32 p.0) }
{
    let word = first_word(bytes)?;
    let instr = decode_word(word)?;
    Some((instr, 4))
}
