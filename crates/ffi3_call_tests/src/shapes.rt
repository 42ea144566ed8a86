//! How a fixed argument is passed on RISC-V where enough registers are free, by the paragraphs of the standard. (RISC-V
//! ELF psABI, "Hardware Floating-point Calling Convention" and "Integer Calling Convention")
use crate::slots::prepared;
use ffi3_riscv::Shape::{ByRef, FI, IF, OneF, TwoF, Words};
use ffi3_riscv::{Riscv, Shape, shape_of};
use std::alloc::Global;
use std::process::Abort;

/// A real by itself, a struct of two, and of one and an integer in either order; structs that go by the integer
/// convention, since a pointer is no integer there, or no leaf is a real; and by reference, with more than 16 bytes.
const SIGNATURE: &str =
    r#"{"ret":"void","args":["float",{"struct":["float","double"]},{"struct":["float","sint32"]},{"struct":["sint8","double"]},{"struct":["float","pointer"]},{"struct":["sint64","sint64"]},{"struct":["sint64","sint64","sint64"]},{"struct":["uint8","uint128"]}]}"#;

/// The shapes of the arguments of a signature that a script would write so.
fn shapes_of(rt: &impl Abort, alloc: Global, text: &str) -> Vec<Shape> {
    let cif = prepared::<Riscv>(rt, alloc, text);
    let sig = cif.checked_sig();
    let mut shapes = Vec::new(alloc);
    for i in 0..sig.count() {
        let ty = sig.arg(i);
        shapes.push(shape_of(ty.as_type())).expect(rt, "memory");
    }
    shapes
}

#[test]
fn types_have_their_shapes(rt: HostRuntime) {
    let shapes = shapes_of(&rt, rt.alloc(), SIGNATURE);
    let wanted = [OneF, TwoF, FI, IF, Words(2), Words(2), ByRef, ByRef];
    assert!(rt; shapes.as_slice() == wanted.as_slice());
}
