//! The bytes of arguments that stand on the stack, in runs.

use crate::slots::{numbered, prepared};
use ffi3_amd64::Amd64;
use ffi3_cif::Cif;
use ffi3_place::Abi;
use ffi3_riscv::Riscv;
use ffi3_win64::Win64;
use std::alloc::Global;
use std::process::Abort;

/// How many runs argument `i` has, and of the first its place on the stack, its offset and its length.
fn runs_of<A: Abi>(cif: &Cif<A>, i: u32) -> (usize, [u32; 3]) {
    if i >= cif.sig().count() {
        return (0, [0; 3]);
    }
    let runs = cif.runs(i);
    if runs.len() == 0 {
        return (0, [0; 3]);
    }
    let run = runs.get(0);
    (runs.len(), [run.at, run.off, run.len])
}

/// The same of this argument of a signature, and of the next one.
fn runs_from<A: Abi>(rt: &impl Abort, alloc: Global, text: &str, i: u32) -> [(usize, [u32; 3]); 2] {
    let cif = prepared::<A>(rt, alloc, text);
    [runs_of(&*cif, i), runs_of(&*cif, i.saturating_add(1))]
}

#[test]
fn gathers_runs(rt: HostRuntime) {
    let alloc = rt.alloc();
    let in_memory = runs_from::<Amd64>(&rt, alloc, numbered(12), 0);
    assert!(rt; in_memory == [(1, [0, 0, 24]), (0, [0; 3])]);
    let split = runs_from::<Riscv>(&rt, alloc, numbered(5), 7);
    assert!(rt; split == [(1, [0, 8, 8]), (1, [8, 0, 8])]);
    // of a struct by reference the address alone is there
    let by_reference = runs_from::<Win64>(&rt, alloc, numbered(5), 7);
    assert!(rt; by_reference == [(0, [0; 3]), (1, [64, 0, 8])]);
}
