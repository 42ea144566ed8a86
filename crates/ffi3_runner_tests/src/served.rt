//! Calls of closures that scripts made, with values that stand in no script, so that these come by the machine alone.
use crate::running::read_beside;
use crate::serving::call_after_main;
use ffi3_aapcs64::Aapcs64;
use ffi3_amd64::Amd64;
use ffi3_apple::Apple;
use ffi3_body::Native;
use ffi3_natives::{Apply, Sum3, Twice};
use ffi3_place::Abi;
use ffi3_riscv::Riscv;
use ffi3_types::{FfiType, NoMemory};
use ffi3_values::{Value, integer};
use ffi3_win64::Win64;
use std::alloc::Global;
use std::process::Abort;

/// Makes a closure of a function that adds 1, calls it with 41, and prints the result.
const INCREMENT: &str =
    r#"{"version":1,"signatures":[{"ret":"sint32","args":["sint32"]}],"functions":[{"name":"inc","sig":0,"body":[{"return":{"add":[{"arg":0},1]}}]}],"main":[{"make":"inc","as":"f"},{"call":{"res":"f"},"sig":0,"args":[41],"as":"r"},{"print":{"res":"r"}},{"return":null}]}"#;

/// `twice` of a function that calls `apply` on another function.
const TWICE: &str =
    r#"{"version":1,"signatures":[{"ret":"sint64","args":["sint64"]},{"ret":"sint64","args":["pointer","sint64"]}],"functions":[{"name":"h","sig":0,"body":[{"return":{"add":[{"arg":0},5]}}]},{"name":"g","sig":0,"body":[{"call":65600,"sig":1,"args":[65536,{"arg":0}],"as":"r"},{"return":{"res":"r"}}]}],"main":[{"make":"h"},{"make":"apply"},{"make":"g"},{"make":"twice"},{"call":65728,"sig":1,"args":[65664,10],"as":"r"},{"print":{"res":"r"}},{"return":null}]}"#;

/// After main, a call of the closure at `ptr` with a value gives this text, with so many moves left.
fn check<A: Abi>(
    rt: &impl Abort,
    alloc: Global,
    script: &str,
    value: Box<Value>,
    ptr: u64,
    text: &str,
    moves_left: u32,
) -> Result<(), NoMemory> {
    let mut natives: Vec<Box<dyn Native>> = Vec::new(alloc);
    natives.push(Box::new(alloc, Apply::new(alloc)?)?)?;
    natives.push(Box::new(alloc, Twice::new(alloc)?)?)?;
    natives.push(Box::new(alloc, Sum3::new(alloc)?)?)?;
    let script = read_beside(rt, alloc, &natives, script);
    let value = Box::into_inner(value);
    let came = call_after_main::<A>(rt, alloc, &natives, &script, value, ptr, 0x5A).expect(
        rt, "memory",
    );
    assert!(rt; came.text.as_slice() == text.as_bytes());
    assert!(rt; came.moves_left == moves_left);
    Ok(())
}

/// 6 for the function that adds 1.
fn check_increment<A: Abi>(rt: &impl Abort, alloc: Global) {
    let value = integer(alloc, &FfiType::S32, 6).expect(rt, "memory");
    let value = Box::new(alloc, value).expect(rt, "memory");
    check::<A>(rt, alloc, INCREMENT, value, 65_536, "7", 9_994).expect(rt, "memory");
}

/// 7 for the function that calls `apply`, through two nested calls.
fn check_apply<A: Abi>(rt: &impl Abort, alloc: Global) {
    let value = integer(alloc, &FfiType::S64, 7).expect(rt, "memory");
    let value = Box::new(alloc, value).expect(rt, "memory");
    check::<A>(rt, alloc, TWICE, value, 65_664, "12", 9_975).expect(rt, "memory");
}

#[test]
fn serves_a_call_with_all_else_overwritten(rt: HostRuntime) {
    let alloc = rt.alloc();
    check_increment::<Amd64>(&rt, alloc);
    check_increment::<Aapcs64>(&rt, alloc);
    check_increment::<Riscv>(&rt, alloc);
    check_increment::<Win64>(&rt, alloc);
    check_increment::<Apple>(&rt, alloc);
}

#[test]
fn serves_a_call_with_calls_inside(rt: HostRuntime) {
    let alloc = rt.alloc();
    check_apply::<Amd64>(&rt, alloc);
    check_apply::<Aapcs64>(&rt, alloc);
    check_apply::<Riscv>(&rt, alloc);
    check_apply::<Win64>(&rt, alloc);
    check_apply::<Apple>(&rt, alloc);
}
