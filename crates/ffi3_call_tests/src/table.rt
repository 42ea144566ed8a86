//! Slots of closures on each target: made to the last, run, and freed.
ghost use Rattle.std.specs.Prelude.{◌≤◌, ◌+◌};
ghost use Rattle.ffi3_machine_spec.specs.Slots.{HoldsMap};

use crate::slots::new_machine;
use ffi3_closures::{Closure, Table, TableFull};
use ffi3_machine::{CODE, CODE_END, ENTRY, Machine, STACK_TOP, Target};
use std::process::Abort;

/// The bytes of a closure's slot, and those of a free slot, as section 7 of docs/FORMATS.md has them (tools/tables writes
/// them there); and the closure register.
#[derive(Clone, Copy)]
struct Row {
    target: Target,
    slot: &'static [u8],
    free: &'static [u8],
    register: u8,
}

const ROWS: [Row; 5] = [
    Row {
        target: Target::Amd64,
        slot: b"\xf3\x0f\x1e\xfa\x4c\x8d\x15\xf5\xff\xff\xff\xff\x25\x07\x00\x00\x00\x0f\x1f\x80\x00\x00\x00\x00\x00\x10\x00\x00\x00\x00\x00\x00\x02\x00\x00\x00\x00\x00\x00\x00\x01\x00\x00\x00\x00\x00\x00\x00\x88\x77\x66\x55\x44\x33\x22\x11\x00\x00\x00\x00\x00\x00\x00\x00",
        free: b"\xcc\xcc\xcc\xcc",
        register: 10,
    },
    Row {
        target: Target::Aapcs64,
        slot: b"\x90\x00\x00\x58\xf1\xff\xff\x10\x00\x02\x1f\xd6\x00\x00\x00\x00\x00\x10\x00\x00\x00\x00\x00\x00\x00\x00\x00\x00\x00\x00\x00\x00\x02\x00\x00\x00\x00\x00\x00\x00\x01\x00\x00\x00\x00\x00\x00\x00\x88\x77\x66\x55\x44\x33\x22\x11\x00\x00\x00\x00\x00\x00\x00\x00",
        free: b"\x00\x00\x20\xd4",
        register: 17,
    },
    Row {
        target: Target::Riscv,
        slot: b"\x17\x03\x00\x00\x83\x33\x03\x01\x67\x80\x03\x00\x13\x00\x00\x00\x00\x10\x00\x00\x00\x00\x00\x00\x00\x00\x00\x00\x00\x00\x00\x00\x02\x00\x00\x00\x00\x00\x00\x00\x01\x00\x00\x00\x00\x00\x00\x00\x88\x77\x66\x55\x44\x33\x22\x11\x00\x00\x00\x00\x00\x00\x00\x00",
        free: b"\x73\x00\x10\x00",
        register: 6,
    },
    Row {
        target: Target::Win64,
        slot: b"\xf3\x0f\x1e\xfa\x4c\x8d\x15\xf5\xff\xff\xff\xff\x25\x07\x00\x00\x00\x0f\x1f\x80\x00\x00\x00\x00\x00\x10\x00\x00\x00\x00\x00\x00\x02\x00\x00\x00\x00\x00\x00\x00\x01\x00\x00\x00\x00\x00\x00\x00\x88\x77\x66\x55\x44\x33\x22\x11\x00\x00\x00\x00\x00\x00\x00\x00",
        free: b"\xcc\xcc\xcc\xcc",
        register: 10,
    },
    Row {
        target: Target::Apple,
        slot: b"\x90\x00\x00\x58\xf1\xff\xff\x10\x00\x02\x1f\xd6\x00\x00\x00\x00\x00\x10\x00\x00\x00\x00\x00\x00\x00\x00\x00\x00\x00\x00\x00\x00\x02\x00\x00\x00\x00\x00\x00\x00\x01\x00\x00\x00\x00\x00\x00\x00\x88\x77\x66\x55\x44\x33\x22\x11\x00\x00\x00\x00\x00\x00\x00\x00",
        free: b"\x00\x00\x20\xd4",
        register: 17,
    },
];

/// Makes closures until the table is full, each at the next slot.
fn fills(rt: &impl Abort, table: &mut Table, machine: &mut Machine)
    requires { HoldsMap machine.old.target table.old machine.old.code }
    ensures { HoldsMap machine.new.target table.new machine.new.code }
{
    for k in 0..256u64 {
        assert!(rt; table.make(machine, 2, 1, 0x1122_3344_5566_7788) == Ok(0x1_0000 + 64 * k));
    }
    assert!(rt; table.make(machine, 0, 0, 0) == Err(TableFull));
}

/// Calls a live slot, and runs to the entry.
fn runs(table: &Table, machine: &mut Machine, addr: u64)
    requires { HoldsMap machine.old.target table.now machine.old.code }
    ensures { HoldsMap machine.new.target table.now machine.new.code }
{
    if let Some(_closure) = table.find(addr) {
        machine.set_sp(STACK_TOP);
        machine.call(addr);
        table.run_trampoline(machine);
    }
}

/// A live slot: its bytes, its run, and its bytes when it is freed.
fn one_slot(rt: &impl Abort, table: &mut Table, machine: &mut Machine, row: Row, addr: u64)
    requires holds { HoldsMap machine.old.target table.old machine.old.code }
    requires low { CODE ≤ addr }
    requires high { addr + 64 ≤ CODE_END }
    ensures { HoldsMap machine.new.target table.new machine.new.code }
{
    let closure = Closure {
        func: 2,
        sig: 1,
        user: 0x1122_3344_5566_7788,
    };
    assert!(rt; machine.lend_code(addr, 64) == row.slot);
    assert!(rt; table.find(addr) == Some(closure) && table.find(addr + 4) == None);
    runs(table, machine, addr);
    assert!(rt; machine.pc() == ENTRY && machine.g(row.register % 32) == addr);
    assert!(rt; table.free(machine, addr + 4) == None);
    assert!(rt; table.free(machine, addr) == Some(closure));
    assert!(rt; table.find(addr) == None);
    assert!(rt; machine.lend_code(addr, 4) == row.free);
    assert!(rt; machine.lend_code(addr + 60, 4) == row.free);
}

/// The first and the last slot of a full table, on each target.
fn check(rt: &impl Abort, machine: &mut Machine, rows: &[Row]) {
    for row in rows {
        machine.begin(row.target);
        let mut table = Table::new();
        fills(rt, &mut table, machine);
        one_slot(rt, &mut table, machine, *row, 0x1_0000);
        one_slot(rt, &mut table, machine, *row, 0x1_3FC0);
    }
}

#[test]
fn first_and_last_slot(rt: HostRuntime) {
    let mut machine = new_machine(&rt, rt.alloc());
    check(&rt, &mut *machine, &ROWS);
}
