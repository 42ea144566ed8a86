//! Homogeneous aggregates of AAPCS64, and the registers that arguments need. (Arm AAPCS64, IHI 0055, "Homogeneous
//! Aggregates" and "Parameter passing rules", B.3, B.4, C.1, C.2, C.9, C.11, C.12)

use crate::slots::signature;
use ffi3_aapcs64::{Kind, homogeneous, need_of};
use ffi3_types::CheckedSig;
use std::process::Abort;

/// Arguments, of which the rows below speak in this order.
const ARGUMENTS: &str = r#"{"ret":"void","args":[
    {"struct":["float","float","float"]},
    {"struct":["double",{"struct":["double"]}]},
    {"struct":["float","double"]},
    {"struct":["float","float","float","float","float"]},
    {"struct":[{"array":["float",4]}]},
    "sint32", "double", "uint128",
    {"struct":["sint64","sint64","sint64"]},
    {"struct":["sint32","sint32","sint32"]}]}"#;

/// Each argument is a homogeneous aggregate of so many members of a kind, or none, and needs so many registers, SIMD and
/// floating-point ones or general ones.
const ROWS: [(Option<(Kind, u8)>, (bool, u8)); 10] = [
    (Some((Kind::Float, 3)), (true, 3)),
    (Some((Kind::Double, 2)), (true, 2)),
    (None, (false, 2)),
    // of five floats, which are larger than 16 bytes, the address of a copy is passed
    (None, (false, 1)),
    (Some((Kind::Float, 4)), (true, 4)),
    (None, (false, 1)),
    (None, (true, 1)),
    (None, (false, 2)),
    // so it is of three sint64
    (None, (false, 1)),
    (None, (false, 2)),
];

fn check(rt: &impl Abort, sig: &CheckedSig<'_>, rows: &[(Option<(Kind, u8)>, (bool, u8))]) {
    let mut i = 0u32;
    for (members, need) in rows {
        assert!(rt; i < sig.count());
        let ty = sig.arg(i);
        assert!(rt; homogeneous(ty.as_type()) == *members, "{i}");
        assert!(rt; need_of(ty.as_type()) == *need, "{i}");
        i += 1;
    }
}

#[test]
fn members_and_registers(rt: HostRuntime) {
    let sig = signature(&rt, rt.alloc(), ARGUMENTS);
    let Ok(sig) = CheckedSig::check(&sig) else {
        panic!(rt; "a fault");
    };
    check(&rt, &sig, &ROWS);
}
