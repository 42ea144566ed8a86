//! The stubs of each target, each run to its end; how many steps they take; and a return that is recorded.
use crate::slots::new_machine;
use ffi3_machine::{
    AREA_AT, CALL_SP_AT, CALLEE_AT, CODE, ENTRY, ENTRY_SP_AT, Machine, RETURN, RETURN_SP_AT, STACK,
    STACK_TOP, Target,
};
use ffi3_stubs::{run_call, run_entry, run_exit, run_return};
use std::process::Abort;

/// The count of steps after Return, Call, Exit and Entry in this order, and the size of a save area with what a call
/// pushes.
#[derive(Clone, Copy)]
struct Row {
    target: Target,
    steps: [u64; 4],
    area: u64,
}

const ROWS: [Row; 5] = [
    Row {
        target: Target::Amd64,
        steps: [6, 24, 38, 63],
        area: 64,
    },
    Row {
        target: Target::Aapcs64,
        steps: [9, 31, 62, 105],
        area: 176,
    },
    Row {
        target: Target::Riscv,
        steps: [7, 28, 62, 109],
        area: 208,
    },
    Row {
        target: Target::Win64,
        steps: [6, 24, 38, 63],
        area: 64,
    },
    Row {
        target: Target::Apple,
        steps: [9, 31, 62, 105],
        area: 176,
    },
];

/// Where a stub's stack pointer, or its save area, is to be.
const AT: u64 = STACK_TOP - 1024;

/// Comes back to a caller, where pc is RETURN.
fn comes_back(machine: &mut Machine) {
    machine.set_x(RETURN_SP_AT, AT);
    if machine.pc() == RETURN {
        run_return(machine);
    }
}

/// Calls the first slot.
fn calls(machine: &mut Machine) {
    machine.set_x(CALLEE_AT, CODE);
    machine.set_x(CALL_SP_AT, AT);
    let slot = machine.x(CALLEE_AT);
    let sp = machine.x(CALL_SP_AT);
    if slot == CODE && STACK + 1024 <= sp && sp <= STACK_TOP - 1024 {
        run_call(machine);
    }
}

/// Leaves a callee whose save area has ENTRY in each word.
fn leaves(machine: &mut Machine) {
    for k in 0..27u64 {
        machine.store_stack(AT + 8 * k, b"\0\x10\0\0\0\0\0\0");
    }
    machine.set_x(AREA_AT, AT);
    let area = machine.x(AREA_AT);
    if STACK + 1024 <= area && area <= STACK_TOP - 1024 {
        run_exit(machine);
    }
}

/// Enters a callee, where pc is ENTRY.
fn enters(machine: &mut Machine) {
    machine.set_x(ENTRY_SP_AT, AT);
    let sp = machine.sp();
    if STACK + 1024 <= sp && sp <= STACK_TOP && machine.pc() == ENTRY {
        run_entry(machine);
    }
}

/// Each stub, by where it leaves sp and pc, and by the count of steps.
fn all_four(rt: &impl Abort, machine: &mut Machine, row: Row) {
    comes_back(machine);
    assert!(rt; machine.sp() == AT && machine.steps() == row.steps[0]);
    calls(machine);
    assert!(rt; machine.pc() == CODE && machine.steps() == row.steps[1]);
    leaves(machine);
    assert!(rt; machine.sp().wrapping_sub(AT) == row.area && machine.steps() == row.steps[2]);
    enters(machine);
    assert!(rt; machine.sp() == AT && machine.steps() == row.steps[3]);
}

/// All stubs of each target.
fn check(rt: &impl Abort, machine: &mut Machine, rows: &[Row]) {
    for row in rows {
        machine.begin(row.target);
        all_four(rt, machine, *row);
    }
}

#[test]
fn stubs_run_to_their_ends(rt: HostRuntime) {
    let mut machine = new_machine(&rt, rt.alloc());
    check(&rt, &mut *machine, &ROWS);
}

#[test]
fn a_return_is_recorded(rt: HostRuntime) {
    let mut machine = Machine::new(rt.alloc()).expect(&rt, "memory");
    let Ok(()) = machine.journal_room(0) else {
        panic!(rt; "no memory");
    };
    if machine.pc() == RETURN {
        machine.arrive(0);
    }
    assert!(rt; machine.events().len() == 1 && machine.steps() == 0);
}
