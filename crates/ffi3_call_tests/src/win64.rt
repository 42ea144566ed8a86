//! What Microsoft x64 alone has: one register or eight bytes of stack for each position, the address of a hidden result
//! in the first of them; an argument of three bytes by reference; copies at multiples of 16; a variadic double in two
//! registers; and 32 bytes of stack for the callee.

use crate::arguments::{check_general, store_some};
use crate::slots::{come, gives_back, new_machine, numbered};
use ffi3_machine::Machine;
use ffi3_place::Abi;
use ffi3_win64::Win64;
use std::process::Abort;

/// The number of the signature with all of these. Its frame has 128 bytes.
const EACH: usize = 21;

/// The buffer of its result, behind the callee's bytes, the stack of the fifth position and two copies.
const BUFFER: u64 = 0x7FFE_FFE0;

/// The machine in which the arguments of a call were stored, with the last of them and the copies on the stack.
fn check_stored(rt: &impl Abort, machine: &Machine) {
    let double = 0x9E9D_9C9B_9A99_9897;
    let words = [BUFFER, 0x7FFE_FFB0, 0x7FFE_FFC0, double];
    check_general(rt, machine, &[1, 2, 8, 9], &words);
    assert!(rt; machine.f(3) == double);
    assert!(rt;
        machine.lend_stack(0x7FFE_FFA0, 8) == b"\xA2\xFF\xFF\xFF\xFF\xFF\xFF\xFF".as_slice()
    );
    assert!(rt; machine.lend_stack(0x7FFE_FFB0, 3) == b"\x81\x82\x83".as_slice());
    assert!(rt; machine.lend_stack(0x7FFE_FFC0, 4) == b"\x8C\x8D\x8E\x8F".as_slice());
}

#[test]
fn each_position_has_its_place(rt: HostRuntime) {
    let alloc = rt.alloc();
    let mut machine = new_machine(&rt, alloc);
    store_some::<Win64>(&rt, alloc, &mut *machine, numbered(EACH));
    check_stored(&rt, &*machine);
}

/// Whatever the callee leaves in its bytes of the frame, the result comes, its address in rax, and the registers come
/// back.
#[test]
fn the_first_bytes_are_the_callees(rt: HostRuntime) {
    let came = come::<Win64>(&rt, rt.alloc(), numbered(EACH), Some(0x5A));
    assert!(rt; came.right && came.first == [0x5A; 32]);
    assert!(rt; came.entry.general[1] == BUFFER && came.leave.general[0] == BUFFER);
    assert!(rt; Win64::KEPT == 18 && gives_back::<Win64>(&came));
}
