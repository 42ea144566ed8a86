//! Arguments that are narrower than their registers, as the standards fill these.
use crate::slots::{fitting, new_machine, numbered, prepared, some_arguments};
use ffi3_aapcs64::Aapcs64;
use ffi3_amd64::Amd64;
use ffi3_apple::Apple;
use ffi3_caller::store_args;
use ffi3_cif::Cif;
use ffi3_machine::{Machine, NoMemory, STACK};
use ffi3_machine_transfer::{passed_floating, passed_general};
use ffi3_place::Abi;
use ffi3_riscv::Riscv;
use ffi3_types::Bytes;
use ffi3_values::{Value, Values};
use ffi3_win64::Win64;
use std::alloc::Global;
use std::process::Abort;

/// Stores the values of the list as arguments of a call, in a machine that begins.
fn store<A: Abi>(
    rt: &impl Abort,
    alloc: Global,
    machine: &mut Machine,
    cif: &Cif<A>,
    list: &Value,
) {
    let args = fitting(rt, alloc, cif, list);
    machine.begin(A::TARGET);
    assert!(rt; machine.sp() - STACK >= cif.frame());
    store_args(machine, cif, args);
}

/// A list of one value of these bytes.
fn alone(alloc: Global, bytes: &[u8]) -> Result<Value, NoMemory> {
    let mut values = Values::new(alloc);
    values.push(Value::Leaf(Bytes::from_slice(alloc, bytes)?))?;
    Ok(Value::List(values))
}

/// After one argument of these bytes was stored, by the signature that a script would write so, what is passed in
/// general and floating register number k.
fn registers_of<A: Abi>(
    rt: &impl Abort,
    alloc: Global,
    text: &str,
    bytes: &[u8],
    k: u8,
) -> (u64, u64) {
    let list = alone(alloc, bytes).expect(rt, "memory");
    let cif = prepared::<A>(rt, alloc, text);
    let mut machine = new_machine(rt, alloc);
    store(rt, alloc, &mut *machine, &*cif, &list);
    (
        passed_general(&*machine, k % 32),
        passed_floating(&*machine, k % 32),
    )
}

#[test]
fn stores_narrow_arguments(rt: HostRuntime) {
    let alloc = rt.alloc();
    let takes_uint32 = r#"{"ret":"void","args":["uint32"]}"#;
    let (a0, _) = registers_of::<Riscv>(&rt, alloc, takes_uint32, &[0x00, 0x00, 0x00, 0x80], 10);
    assert!(rt; a0 == 0xFFFF_FFFF_8000_0000);
    let takes_uint8 = r#"{"ret":"void","args":["uint8"]}"#;
    let (a0, _) = registers_of::<Riscv>(&rt, alloc, takes_uint8, &[0xFF], 10);
    assert!(rt; a0 == 0xFF);
    let takes_float = r#"{"ret":"void","args":["float"]}"#;
    let (_, fa0) = registers_of::<Riscv>(&rt, alloc, takes_float, &[0x00, 0x00, 0x80, 0x3F], 10);
    assert!(rt; fa0 == 0xFFFF_FFFF_3F80_0000);
    let takes_sint8 = r#"{"ret":"void","args":["sint8"]}"#;
    let (rdi, _) = registers_of::<Amd64>(&rt, alloc, takes_sint8, &[0xFF], 7);
    assert!(rt; rdi == 0xFFFF_FFFF_FFFF_FFFF);
    let (rcx, _) = registers_of::<Win64>(&rt, alloc, takes_sint8, &[0xFF], 1);
    assert!(rt; rcx == 0xFFFF_FFFF_FFFF_FFFF);
}

/// What is passed in general registers is these words, in this order.
pub fn check_general(rt: &impl Abort, machine: &Machine, registers: &[u8], words: &[u64]) {
    for i in 0..registers.len() {
        if i < words.len() {
            assert!(rt;
                passed_general(machine, registers[i] % 32) == words[i],
                "{i}"
            );
        }
    }
}

/// Stores arguments of a call by the signature that a script would write so, as `some_arguments` makes them.
pub fn store_some<A: Abi>(rt: &impl Abort, alloc: Global, machine: &mut Machine, text: &str) {
    let cif = prepared::<A>(rt, alloc, text);
    let mut told = Bytes::new(alloc);
    let list = some_arguments(alloc, &*cif, &mut told).expect(rt, "memory");
    store(rt, alloc, machine, &*cif, &list);
}

/// After arguments of the first signature were stored, these words are passed in general registers, in this order.
/// Gives what is passed in floating register number k.
fn check_first<A: Abi>(
    rt: &impl Abort,
    alloc: Global,
    registers: &[u8],
    words: &[u64],
    k: u8,
) -> u64 {
    let mut machine = new_machine(rt, alloc);
    store_some::<A>(rt, alloc, &mut *machine, numbered(0));
    check_general(rt, &*machine, registers, words);
    passed_floating(&*machine, k % 32)
}

/// The first integers of that signature, each extended by its sign.
const EXTENDED: [u64; 8] = [
    0x81,
    0xFFFF_FFFF_FFFF_FF8C,
    0x9897,
    0xFFFF_FFFF_FFFF_A3A2,
    0xB0AF_AEAD,
    0xFFFF_FFFF_BBBA_B9B8,
    0xCAC9_C8C7_C6C5_C4C3,
    0xD5D4_D3D2_D1D0_CFCE,
];

#[test]
fn narrow_arguments_fill_their_registers(rt: HostRuntime) {
    let alloc = rt.alloc();
    let amd64: [u8; 6] = [7, 6, 2, 1, 8, 9];
    let double = check_first::<Amd64>(&rt, alloc, &amd64, &EXTENDED, 1);
    assert!(rt; double == 0xEBEA_E9E8_E7E6_E5E4);
    let aapcs64: [u8; 8] = [0, 1, 2, 3, 4, 5, 6, 7];
    let double = check_first::<Aapcs64>(&rt, alloc, &aapcs64, &EXTENDED, 1);
    assert!(rt; double == 0xEBEA_E9E8_E7E6_E5E4);
    // RISC-V sign-extends what has 32 bits, and ones stand above a float.
    let riscv: [u8; 8] = [10, 11, 12, 13, 14, 15, 16, 17];
    let mut extended = EXTENDED;
    extended[4] = 0xFFFF_FFFF_B0AF_AEAD;
    let float = check_first::<Riscv>(&rt, alloc, &riscv, &extended, 10);
    assert!(rt; float == 0xFFFF_FFFF_DCDB_DAD9);
    // By Microsoft x64 the first four alone are in registers, each in that of its number.
    let win64: [u8; 4] = [1, 2, 8, 9];
    let _xmm0 = check_first::<Win64>(&rt, alloc, &win64, &EXTENDED, 0);
    let _d1 = check_first::<Apple>(&rt, alloc, &aapcs64, &EXTENDED, 1);
}
