//! Whole calls of a closure by `begin_call` and `end_call`, on each target, of values that are written out by hand.
ghost use Rattle.std.specs.Prelude.{◌≡◌, length, true};
ghost use Rattle.ffi3_type_spec.specs.Layout.{size_of};
ghost use Rattle.ffi3_type_spec.specs.Tree.{trees_of};
ghost use Rattle.ffi3_type_spec.specs.Value.{all_fit, fits, values_of};
ghost use Rattle.ffi3_values.specs.ValueOf.{value_of};
ghost use Rattle.ffi3_callee.specs.Received.{IsIncoming};

use crate::slots::{Came, first_bytes, fitting, gives_back, new_machine, prepared};
use ffi3_aapcs64::Aapcs64;
use ffi3_amd64::Amd64;
use ffi3_apple::Apple;
use ffi3_callee::{Incoming, arg};
use ffi3_caller::room_for;
use ffi3_cif::Cif;
use ffi3_closures::Table;
use ffi3_invoke::{begin_call, end_call};
use ffi3_machine::{Machine, NoMemory};
use ffi3_place::Abi;
use ffi3_riscv::Riscv;
use ffi3_type_spec::limits::LARGEST_TYPE;
use ffi3_types::Bytes;
use ffi3_values::{Value, Values, fits};
use ffi3_win64::Win64;
use std::alloc::Global;
use std::process::Abort;

/// A byte, a double, and a struct that no standard passes in registers. The result is a struct in the caller's buffer.
const HIDDEN: &str =
    r#"{"ret":{"struct":["sint64","sint64","sint64"]},"args":["uint8","double",{"struct":["sint64","sint64","sint64"]}]}"#;

/// The same, with a result in a register.
const DIRECT: &str =
    r#"{"ret":"sint16","args":["uint8","double",{"struct":["sint64","sint64","sint64"]}]}"#;

/// A scalar of these bytes.
fn scalar(alloc: Global, bytes: &[u8]) -> Result<Value, NoMemory> {
    Ok(Value::Leaf(Bytes::from_slice(alloc, bytes)?))
}

/// The list of these three scalars.
fn three(alloc: Global, first: &[u8], second: &[u8], third: &[u8]) -> Result<Value, NoMemory> {
    let mut values = Values::new(alloc);
    values.push(scalar(alloc, first)?)?;
    values.push(scalar(alloc, second)?)?;
    values.push(scalar(alloc, third)?)?;
    Ok(Value::List(values))
}

/// The values of the arguments: 200; -1.5; 1, -2 and 2^63 - 1.
fn arguments(alloc: Global) -> Result<Value, NoMemory> {
    let mut values = Values::new(alloc);
    values.push(scalar(alloc, b"\xC8")?)?;
    values.push(scalar(alloc, b"\0\0\0\0\0\0\xF8\xBF")?)?;
    values.push(three(
        alloc,
        b"\x01\0\0\0\0\0\0\0",
        b"\xFE\xFF\xFF\xFF\xFF\xFF\xFF\xFF",
        b"\xFF\xFF\xFF\xFF\xFF\xFF\xFF\x7F",
    )?)?;
    Ok(Value::List(values))
}

/// Whether the callee has these bytes as argument `i`.
fn has_argument<A: Abi>(
    machine: &Machine,
    cif: &Cif<A>,
    incoming: &Incoming,
    i: u32,
    want: &[u8],
) -> bool
    requires { IsIncoming A.standard cif.now incoming.now }
{
    if i >= cif.sig().count() {
        return false;
    }
    arg(machine, cif, incoming, i) == want
}

/// Whether it has all arguments as they were sent.
fn has_arguments<A: Abi>(machine: &Machine, cif: &Cif<A>, incoming: &Incoming) -> bool
    requires { IsIncoming A.standard cif.now incoming.now }
{
    let three =
        b"\x01\0\0\0\0\0\0\0\xFE\xFF\xFF\xFF\xFF\xFF\xFF\xFF\xFF\xFF\xFF\xFF\xFF\xFF\xFF\x7F";
    has_argument(machine, cif, incoming, 0, b"\xC8")
        && has_argument(machine, cif, incoming, 1, b"\0\0\0\0\0\0\xF8\xBF")
        && has_argument(machine, cif, incoming, 2, three)
}

/// A call of a closure from a machine that begins. The caller then has the result.
fn whole<A: Abi>(
    rt: &impl Abort,
    machine: &mut Machine,
    cif: &Cif<A>,
    args: &Values,
    outcome: &Value,
    out: &mut [u8],
) -> bool
    requires fit { all_fit (trees_of cif.now.arguments) (values_of args.now) ≡ true }
    requires fits { fits cif.now.result_type (value_of outcome.now) ≡ true }
    requires sized { length out.old ≡ size_of cif.now.result_type }
{
    machine.begin(A::TARGET);
    let mut table = Table::new();
    let Ok(ptr) = table.make(machine, 0, 0, 7) else {
        panic!(rt; "no slot");
    };
    let Some(_) = table.find(ptr) else {
        panic!(rt; "no closure");
    };
    let Ok(()) = room_for(machine, cif) else {
        panic!(rt; "no room");
    };
    let Ok(()) = machine.journal_room(A::LINK + cif.frame()) else {
        panic!(rt; "no memory");
    };
    let sp = machine.sp();
    let incoming = begin_call(machine, &table, cif, args, ptr);
    let right = has_arguments(machine, cif, &incoming);
    end_call(machine, cif, incoming, outcome, out);
    right && machine.sp() == sp
}

/// What the call came to, whose result is to have these bytes.
fn came_to<A: Abi>(
    rt: &impl Abort,
    machine: &mut Machine,
    cif: &Cif<A>,
    args: &Values,
    outcome: &Value,
    want: &[u8],
) -> Came
    requires { all_fit (trees_of cif.now.arguments) (values_of args.now) ≡ true }
{
    let ret = cif.checked_sig().ret();
    assert!(rt; fits(outcome, ret.as_type()));
    let mut room = [0; LARGEST_TYPE as usize];
    let out = &mut room[..ret.size() as usize];
    let right = whole(rt, machine, cif, args, outcome, out);
    let events = machine.events();
    assert!(rt; events.len() == 2);
    Came {
        right: right && &*out == want,
        entry: *events.get(0),
        leave: *events.get(1),
        first: first_bytes(events.stack(1)),
    }
}

/// A call by the signature has all as it was sent, and the caller has its registers again.
fn check_call<A: Abi>(rt: &impl Abort, alloc: Global, text: &str, outcome: &Value, want: &[u8]) {
    let cif = prepared::<A>(rt, alloc, text);
    let list = arguments(alloc).expect(rt, "memory");
    let args = fitting(rt, alloc, &*cif, &list);
    let mut machine = new_machine(rt, alloc);
    let came = came_to(rt, &mut *machine, &*cif, args, outcome, want);
    assert!(rt; came.right && gives_back::<A>(&came));
}

/// Both calls. The results are -3, 5 and 2^63, and -32768.
fn check<A: Abi>(rt: &impl Abort, alloc: Global) {
    let hidden = three(
        alloc,
        b"\xFD\xFF\xFF\xFF\xFF\xFF\xFF\xFF",
        b"\x05\0\0\0\0\0\0\0",
        b"\0\0\0\0\0\0\0\x80",
    )
    .expect(rt, "memory");
    let bytes = b"\xFD\xFF\xFF\xFF\xFF\xFF\xFF\xFF\x05\0\0\0\0\0\0\0\0\0\0\0\0\0\0\x80";
    check_call::<A>(rt, alloc, HIDDEN, &hidden, bytes);
    let direct = scalar(alloc, b"\x00\x80").expect(rt, "memory");
    check_call::<A>(rt, alloc, DIRECT, &direct, b"\x00\x80");
}

#[test]
fn a_whole_call_has_its_values(rt: HostRuntime) {
    let alloc = rt.alloc();
    check::<Amd64>(&rt, alloc);
    check::<Aapcs64>(&rt, alloc);
    check::<Riscv>(&rt, alloc);
    check::<Win64>(&rt, alloc);
    check::<Apple>(&rt, alloc);
}
