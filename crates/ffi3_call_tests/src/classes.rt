//! What values are classified as on AMD64: the class of each eightbyte, and what is in memory. (System V psABI AMD64
//! 3.2.3, "Classification")

use crate::slots::signature;
use ffi3_amd64::{Class, class_of, in_memory};
use ffi3_types::{CheckedType, Sig};
use std::process::Abort;

/// Types, of which the rows below speak in this order.
const TYPES: &str = r#"{"ret":"void","args":[
    {"struct":["float","float"]},
    {"struct":["float","sint32"]},
    "pointer", "double",
    {"struct":["double","sint64"]},
    {"struct":["sint8","double"]},
    {"struct":["double","float"]},
    "uint128",
    {"struct":[{"array":["uint8",16]}]},
    {"struct":[{"array":["uint8",17]}]},
    {"struct":[{"struct":["double","double"]},"double"]},
    {"struct":["uint128","uint8"]}]}"#;

/// The classes of the first two eightbytes of each type, and whether it is in memory. An eightbyte is INTEGER where an
/// integer lies in it, otherwise SSE. Two eightbytes are classified each for itself, and a wide integer is as two
/// integers. A struct of more than 16 bytes is in memory.
const ROWS: [(Class, Class, bool); 12] = [
    (Class::Sse, Class::Sse, false),
    (Class::Integer, Class::Sse, false),
    (Class::Integer, Class::Sse, false),
    (Class::Sse, Class::Sse, false),
    (Class::Sse, Class::Integer, false),
    (Class::Integer, Class::Sse, false),
    (Class::Sse, Class::Sse, false),
    (Class::Integer, Class::Integer, false),
    (Class::Integer, Class::Integer, false),
    (Class::Integer, Class::Integer, true),
    (Class::Sse, Class::Sse, true),
    (Class::Integer, Class::Integer, true),
];

/// Each type has no fault, and is classified as its row says.
fn check(rt: &impl Abort, sig: &Sig, rows: &[(Class, Class, bool)]) {
    let mut i = 0u32;
    for (first, second, memory) in rows {
        assert!(rt; i < sig.count());
        let Ok(ty) = CheckedType::check(sig.arg(i), false) else {
            panic!(rt; "a fault");
        };
        assert!(rt; class_of(ty.as_type(), 0) == *first, "{i}");
        assert!(rt; class_of(ty.as_type(), 1) == *second, "{i}");
        assert!(rt; in_memory(ty.as_type()) == *memory, "{i}");
        i += 1;
    }
}

#[test]
fn eightbytes_have_their_classes(rt: HostRuntime) {
    let sig = signature(&rt, rt.alloc(), TYPES);
    check(&rt, &sig, &ROWS);
}
