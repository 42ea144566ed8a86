//! The natives of this library in a run.
use crate::scripts::{Wanted, alike, check};
use ffi3_body::Native;
use ffi3_machine::NoMemory;
use ffi3_natives::{Apply, Sum3, Twice};
use ffi3_runner::RunEnd;
use std::alloc::Global;
use std::process::Abort;

/// `twice` of a function that calls `apply` on another function.
const TWICE: &str =
    r#"{"version":1,"signatures":[{"ret":"sint64","args":["sint64"]},{"ret":"sint64","args":["pointer","sint64"]}],"functions":[{"name":"h","sig":0,"body":[{"return":{"add":[{"arg":0},5]}}]},{"name":"g","sig":0,"body":[{"call":65600,"sig":1,"args":[65536,{"arg":0}],"as":"r"},{"return":{"res":"r"}}]}],"main":[{"make":"h"},{"make":"apply"},{"make":"g"},{"make":"twice"},{"call":65728,"sig":1,"args":[65664,10],"as":"r"},{"print":{"res":"r"}},{"return":null}]}"#;

/// `sum3` of numbers whose sum passes the greatest.
const SUM: &str =
    r#"{"version":1,"signatures":[{"ret":"sint64","args":["sint64","sint64","sint64"]}],"functions":[],"main":[{"make":"sum3","as":"p"},{"call":{"res":"p"},"sig":0,"args":[9223372036854775807,1,5],"as":"r"},{"print":{"res":"r"}},{"return":null}]}"#;

/// A script beside the three natives, by each standard.
fn check_beside(
    rt: &impl Abort,
    alloc: Global,
    script: &str,
    wanted: &[Wanted; 4],
) -> Result<(), NoMemory> {
    let mut natives: Vec<Box<dyn Native>> = Vec::new(alloc);
    natives.push(Box::new(alloc, Apply::new(alloc)?)?)?;
    natives.push(Box::new(alloc, Twice::new(alloc)?)?)?;
    natives.push(Box::new(alloc, Sum3::new(alloc)?)?)?;
    check(rt, alloc, &natives, script, wanted);
    Ok(())
}

#[test]
fn natives_call_closures(rt: HostRuntime) {
    let twice = alike(
        "20\n",
        RunEnd::Done,
        9_980,
        14,
        [0x7FFE_FEC0, 0x7FFE_FD00, 0x7FFE_FC80, 0x7FFE_FCC0],
    );
    check_beside(&rt, rt.alloc(), TWICE, &twice).expect(&rt, "memory");
    let sum = alike(
        "-9223372036854775803\n",
        RunEnd::Done,
        9_995,
        2,
        [0x7FFE_FFA0, 0x7FFE_FF30, 0x7FFE_FF10, 0x7FFE_FF20],
    );
    check_beside(&rt, rt.alloc(), SUM, &sum).expect(&rt, "memory");
}
