//! Encodings as an assembler writes them, and the nearest that are not listed.
use ffi3_isa::Instr::{
    Addi, Adr, Auipc, Blr, Br, CallMem, Endbr, Fld, Fsd, Jalr, JmpMem, Ld, LdrLit, Lea, Nop, Ret,
    Sd,
};
use ffi3_isa::{Instr, decode_aarch64, decode_amd64, decode_riscv};
use ffi3_type_spec::Isa;
use std::process::Abort;

const AMD64: [(&[u8], Option<(Instr, u8)>); 20] = [
    (b"\xF3\x0F\x1E\xFA\x4C", Some((Endbr, 4))),
    (
        b"\x4C\x8D\x25\xF5\xFF\xFF\xFF",
        Some((Lea { reg: 12, d: -11 }, 7)),
    ),
    (b"\xFF\x25\x07\0\0\0", Some((JmpMem { d: 7 }, 6))),
    (b"\x0F\x1F\x80\0\0\0\0", Some((Nop, 7))),
    (
        b"\x49\x8B\xA3\x08\x02\0\0",
        Some((
            Ld {
                rd: 4,
                rs: 11,
                d: 520,
            },
            7,
        )),
    ),
    (
        b"\x4D\x89\x93\x50\0\0\0",
        Some((
            Sd {
                rd: 10,
                rs: 11,
                d: 80,
            },
            7,
        )),
    ),
    (
        b"\x4C\x8B\xBC\x24\x28\0\0\0",
        Some((
            Ld {
                rd: 15,
                rs: 4,
                d: 40,
            },
            8,
        )),
    ),
    (
        b"\xF2\x41\x0F\x11\x8B\x08\x01\0\0",
        Some((
            Fsd {
                rd: 1,
                rs: 11,
                d: 264,
            },
            9,
        )),
    ),
    (
        b"\x48\x8D\xA4\x24\xC8\xFF\xFF\xFF",
        Some((
            Addi {
                rd: 4,
                rs: 4,
                d: -56,
            },
            8,
        )),
    ),
    (
        b"\x41\xFF\x93\0\x02\0\0",
        Some((CallMem { rs: 11, d: 512 }, 7)),
    ),
    (b"\xC3\xC3", Some((Ret, 1))),
    // mov rsp, [rsp + 8]; mov rax, [r11 + 8] with a displacement of one byte; movsd xmm8, [r11]; lea r12, [rsp + 8]
    (b"\x48\x8B\xA4\x24\x08\0\0\0", None),
    (b"\x49\x8B\x43\x08\0\0\0", None),
    (b"\xF2\x45\x0F\x10\x83\0\0\0\0", None),
    (b"\x4C\x8D\xA4\x24\x08\0\0\0", None),
    // endbr32; lea into rsp, and a byte short; call [rip + d]; int3
    (b"\xF3\x0F\x1E\xFB", None),
    (b"\x48\x8D\x25\0\0\0\0", None),
    (b"\x4C\x8D\x15\xF5\xFF\xFF", None),
    (b"\xFF\x15\0\0\0\0", None),
    (b"\xCC", None),
];

const AARCH64: [(&[u8], Option<(Instr, u8)>); 15] = [
    (b"\x90\0\0\x58", Some((LdrLit { t: 16, d: 16 }, 4))),
    (b"\xF1\xFF\xFF\x10", Some((Adr { rd: 17, d: -4 }, 4))),
    (b"\0\x02\x1F\xD6\0", Some((Br { n: 16 }, 4))),
    (b"\xC0\x03\x5F\xD6", Some((Br { n: 30 }, 4))),
    (b"\0\x02\x3F\xD6", Some((Blr { n: 16 }, 4))),
    (
        b"\x30\x06\x41\xF9",
        Some((
            Ld {
                rd: 16,
                rs: 17,
                d: 520,
            },
            4,
        )),
    ),
    (
        b"\xE8\x53\0\xF9",
        Some((
            Sd {
                rd: 8,
                rs: 31,
                d: 160,
            },
            4,
        )),
    ),
    (
        b"\x27\x9E\x40\xFD",
        Some((
            Fld {
                rd: 7,
                rs: 17,
                d: 312,
            },
            4,
        )),
    ),
    (
        b"\xFF\xC3\x02\xD1",
        Some((
            Addi {
                rd: 31,
                rs: 31,
                d: -176,
            },
            4,
        )),
    ),
    // ldr w0, add with a shift, blraa, adrp, brk, and a byte short
    (b"\x20\0\0\x18", None),
    (b"\xFF\xC3\x42\x91", None),
    (b"\x1F\x0A\x3F\xD7", None),
    (b"\x01\0\0\xB0", None),
    (b"\0\0\x20\xD4", None),
    (b"\xF1\xFF\xFF", None),
];

const RISCV: [(&[u8], Option<(Instr, u8)>); 14] = [
    (b"\x17\x03\0\0", Some((Auipc { rd: 6, d: 0 }, 4))),
    (
        b"\x83\x33\x03\x01",
        Some((
            Ld {
                rd: 7,
                rs: 6,
                d: 16,
            },
            4,
        )),
    ),
    (
        b"\x67\x80\x03\0\x13",
        Some((Jalr { rd: 0, rs: 7, d: 0 }, 4)),
    ),
    (
        b"\x93\x8F\xFF\x7F",
        Some((
            Addi {
                rd: 31,
                rs: 31,
                d: 2047,
            },
            4,
        )),
    ),
    (
        b"\x13\x01\x01\xF3",
        Some((
            Addi {
                rd: 2,
                rs: 2,
                d: -208,
            },
            4,
        )),
    ),
    (
        b"\x23\x34\xA1\x0C",
        Some((
            Sd {
                rd: 10,
                rs: 2,
                d: 200,
            },
            4,
        )),
    ),
    (
        b"\x23\x3C\xA1\xFE",
        Some((
            Sd {
                rd: 10,
                rs: 2,
                d: -8,
            },
            4,
        )),
    ),
    (
        b"\x07\x35\x03\x15",
        Some((
            Fld {
                rd: 10,
                rs: 6,
                d: 336,
            },
            4,
        )),
    ),
    (
        b"\x27\x3C\xB3\x14",
        Some((
            Fsd {
                rd: 11,
                rs: 6,
                d: 344,
            },
            4,
        )),
    ),
    // sw, lui, lw, ebreak, and a byte short
    (b"\x23\x20\x11\0", None),
    (b"\x37\x03\0\0", None),
    (b"\x83\x23\x03\x01", None),
    (b"\x73\0\x10\0", None),
    (b"\x13\0\0", None),
];

/// The bytes of each row are decoded as they are to be.
fn check(rt: &impl Abort, isa: Isa, rows: &[(&[u8], Option<(Instr, u8)>)]) {
    for (bytes, want) in rows {
        let given = match isa {
            Isa::Amd64 => decode_amd64(*bytes),
            Isa::Aarch64 => decode_aarch64(*bytes),
            Isa::Riscv => decode_riscv(*bytes),
        };
        assert!(rt; given == *want, "{bytes:?}");
    }
}

#[test]
fn instructions_are_decoded(rt: HostRuntime) {
    check(&rt, Isa::Amd64, &AMD64);
    check(&rt, Isa::Aarch64, &AARCH64);
    check(&rt, Isa::Riscv, &RISCV);
}
