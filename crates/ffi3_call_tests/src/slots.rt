//! Calls of closures through their slots, on each target: what the callee has and what the caller loads is what was
//! sent, and the caller's registers come back.
ghost use Rattle.std.specs.Prelude.{◌≡◌, ◌+◌, ◌<◌, ◌≤◌, IfOk, IsSome, List, length, true};
ghost use Rattle.ffi3_type_spec.specs.declared.limits.TheConstants.{ENTRY, STACK, STACK_TOP};
ghost use Rattle.ffi3_type_spec.specs.Layout.{size_of};
ghost use Rattle.ffi3_type_spec.specs.Tree.{trees_of};
ghost use Rattle.ffi3_type_spec.specs.Value.{ValueTree, all_fit, fits, values_of};
ghost use Rattle.ffi3_place_spec.specs.Standard.{frame_of, need_of};
ghost use Rattle.ffi3_semantics_spec.specs.Closures.{closure_at};
ghost use Rattle.ffi3_machine_spec.specs.State.{HasReturnAddress, IsSlot};
ghost use Rattle.ffi3_machine_spec.specs.Slots.{HoldsMap};
ghost use Rattle.ffi3_machine_transfer.specs.Stored.{WroteWithin};
ghost use Rattle.ffi3_values.specs.ValueOf.{value_of};
ghost use Rattle.ffi3_callee.specs.Received.{IsIncoming, OwnsAtEntry};
ghost use Rattle.ffi3_invoke.specs.Calls.{IsCalled};

use ffi3_aapcs64::Aapcs64;
use ffi3_amd64::Amd64;
use ffi3_apple::Apple;
use ffi3_callee::{Incoming, arg};
use ffi3_caller::room_for;
use ffi3_cif::{Cif, prep_cif, prep_cif_var};
use ffi3_closures::Table;
use ffi3_invoke::{accept, end_call, pass_arguments};
use ffi3_json::{Where, parse, read_signature};
use ffi3_machine::{Event, Machine, NoMemory};
use ffi3_place::{Abi, Loc};
use ffi3_poison::poison;
use ffi3_riscv::Riscv;
use ffi3_type_spec::limits::LARGEST_TYPE;
use ffi3_types::{Bytes, CheckedType, FfiType, Sig};
use ffi3_values::{Value, Values, fits, value_from_bytes, value_text};
use ffi3_win64::Win64;
use std::alloc::Global;
use std::mem;
use std::process::Abort;

/// Bytes for a value of the type: a number and those after it.
fn some_bytes(alloc: Global, ty: &CheckedType<'_>, first: u8) -> Result<Vec<u8>, NoMemory>
    ensures { IfOk result (λ bytes. length bytes.items ≡ size_of ty.now) }
{
    let mut bytes = vec![in alloc; first; ty.size() as usize]?;
    for k in 0..bytes.len() {
        bytes[k] = first.wrapping_add((k % 251) as u8);
    }
    Ok(bytes)
}

/// The text of the value that these bytes have.
fn text_of(alloc: Global, ty: &CheckedType<'_>, bytes: &[u8]) -> Result<Bytes, NoMemory>
    requires { length bytes.now ≡ size_of ty.now }
{
    let plain = ty.as_type();
    let value = value_from_bytes(alloc, plain, bytes)?;
    value_text(alloc, plain, &value)
}

/// Writes the value that these bytes have, with a space behind it.
fn write_value(
    alloc: Global,
    ty: &CheckedType<'_>,
    bytes: &[u8],
    text: &mut Bytes,
) -> Result<(), NoMemory>
    requires { length bytes.now ≡ size_of ty.now }
{
    let shown = text_of(alloc, ty, bytes)?;
    text.extend(shown.as_slice())?;
    text.push(b' ')
}

/// A value of the type, of a number and those after it as bytes, which is written to the text.
fn some_value(
    alloc: Global,
    ty: &CheckedType<'_>,
    first: u8,
    text: &mut Bytes,
) -> Result<Value, NoMemory>
    ensures { IfOk result (λ v. fits ty.now (value_of v) ≡ true) }
{
    let bytes = some_bytes(alloc, ty, first)?;
    write_value(alloc, ty, bytes.as_slice(), text)?;
    value_from_bytes(alloc, ty.as_type(), bytes.as_slice())
}

/// The values of the list, which fit the arguments.
pub fn fitting<'a, A: Abi>(
    rt: &impl Abort,
    alloc: Global,
    cif: &Cif<A>,
    list: &'a Value,
) -> &'a Values
    ensures { all_fit (trees_of cif.now.arguments) (values_of result.now) ≡ true }
{
    let Ok(types) = cif.sig().args().copy(alloc) else {
        panic!(rt; "no memory");
    };
    let all = FfiType::Struct(types);
    let fit = fits(list, &all);
    mem::drop(all);
    assert!(rt; fit);
    let Value::List(values) = list else {
        panic!(rt; "no list");
    };
    values
}

/// The first bytes of arguments. No two are the same, and each has its highest bit set.
const FIRSTS: [u8; 16] = [
    0x81, 0x8C, 0x97, 0xA2, 0xAD, 0xB8, 0xC3, 0xCE, 0xD9, 0xE4, 0xEF, 0xFA, 0x84, 0x8F, 0x9A, 0xA5,
];

/// A value of an argument's type, which is written to the text.
fn some_argument<A: Abi>(
    alloc: Global,
    cif: &Cif<A>,
    i: u32,
    text: &mut Bytes,
) -> Result<Value, NoMemory>
    requires { i < length cif.now.arguments }
{
    let sig = cif.checked_sig();
    let ty = sig.arg(i);
    some_value(alloc, &ty, FIRSTS[(i % 16) as usize], text)
}

/// Values of the arguments' types, which are written to the text.
pub fn some_arguments<A: Abi>(
    alloc: Global,
    cif: &Cif<A>,
    text: &mut Bytes,
) -> Result<Value, NoMemory> {
    let count = cif.checked_sig().count();
    let mut values = Values::new(alloc);
    for i in 0..count {
        if values.len() < 64 {
            values.push(some_argument(alloc, cif, i, text)?)?;
        }
    }
    Ok(Value::List(values))
}

/// A value of the result's type, which is written to the text.
fn some_result<A: Abi>(alloc: Global, cif: &Cif<A>, text: &mut Bytes) -> Result<Value, NoMemory>
    ensures { IfOk result (λ v. fits cif.now.result_type (value_of v) ≡ true) }
{
    let ty = cif.checked_sig().ret();
    some_value(alloc, &ty, 0xF3, text)
}

/// Writes an argument that the callee has.
fn write_argument<A: Abi>(
    alloc: Global,
    machine: &Machine,
    cif: &Cif<A>,
    incoming: &Incoming,
    i: u32,
    text: &mut Bytes,
) -> Result<(), NoMemory>
    requires within { i < length cif.now.arguments }
    requires incoming { IsIncoming A.standard cif.now incoming.now }
{
    let sig = cif.checked_sig();
    let ty = sig.arg(i);
    let bytes = arg(machine, cif, incoming, i);
    write_value(alloc, &ty, bytes, text)
}

/// Writes all of them.
fn write_arguments<A: Abi>(
    alloc: Global,
    machine: &Machine,
    cif: &Cif<A>,
    incoming: &Incoming,
    text: &mut Bytes,
) -> Result<(), NoMemory>
    requires { IsIncoming A.standard cif.now incoming.now }
{
    let count = cif.checked_sig().count();
    for i in 0..count {
        write_argument(alloc, machine, cif, incoming, i, text)?;
    }
    Ok(())
}

/// Writes the result that the caller loads.
fn write_result<A: Abi>(
    alloc: Global,
    cif: &Cif<A>,
    bytes: &[u8],
    text: &mut Bytes,
) -> Result<(), NoMemory>
    requires { length bytes.now ≡ size_of cif.now.result_type }
{
    let ty = cif.checked_sig().ret();
    write_value(alloc, &ty, bytes, text)
}

/// At an entry: writes the byte over all that the callee must not look at, if there is one.
fn overwrite<A: Abi>(machine: &mut Machine, cif: &Cif<A>, over: Option<u8>)
    requires entry { machine.old.pc ≡ ENTRY }
    requires target { machine.old.target ≡ A.TARGET }
    requires low { STACK ≤ machine.old.sp }
    requires frame { machine.old.sp + A.standard.link + frame_of A.standard cif.now ≤ STACK_TOP }
    requires some { (vs : List ValueTree) × OwnsAtEntry A.standard cif.now machine.old vs }
    ensures own { (vs : List ValueTree) → OwnsAtEntry A.standard cif.now machine.old vs → OwnsAtEntry A.standard cif.now machine.new vs }
    ensures return_address { HasReturnAddress machine.old → HasReturnAddress machine.new }
    ensures sp { machine.new.sp ≡ machine.old.sp }
    ensures within { WroteWithin (machine.old.sp + A.standard.link) (machine.old.sp + A.standard.link + frame_of A.standard cif.now) machine.old machine.new }
{
    if let Some(byte) = over {
        poison(machine, cif, byte);
    }
}

/// Calls the live closure at `ptr` up to its callee, which has the arguments in its block, with the byte over all that
/// it must not look at, if there is one.
fn begin<A: Abi>(
    machine: &mut Machine,
    table: &Table,
    cif: &Cif<A>,
    args: &Values,
    ptr: u64,
    over: Option<u8>,
) -> Incoming
    requires target { machine.old.target ≡ A.TARGET }
    requires fit { all_fit (trees_of cif.now.arguments) (values_of args.now) ≡ true }
    requires room { STACK + need_of A.standard cif.now ≤ machine.old.sp }
    requires top { machine.old.sp ≤ STACK_TOP }
    requires holds { HoldsMap machine.old.target table.now machine.old.code }
    requires slot { IsSlot ptr }
    requires live { IsSome (closure_at table.now ptr) }
    requires events { 2 ≤ machine.old.spare_events }
    requires bytes { A.standard.link + frame_of A.standard cif.now + frame_of A.standard cif.now ≤ machine.old.spare_bytes }
    ensures called { IsCalled A.standard cif.now machine.new }
    ensures incoming { IsIncoming A.standard cif.now result }
    ensures block { result.block ≡ machine.new.sp }
{
    pass_arguments(machine, table, cif, args, ptr);
    overwrite(machine, cif, over);
    accept(machine, cif)
}

/// What a call of a closure came to: whether the arguments that the callee has and the result that the caller loads are
/// those that were sent, the registers at its entry and at its return, and the first bytes of the frame that it leaves.
#[derive(Drop)]
pub struct Came {
    pub right: bool,
    pub entry: Event,
    pub leave: Event,
    pub first: [u8; 32],
}

/// The first bytes, and zeros where there are fewer.
pub fn first_bytes(bytes: &[u8]) -> [u8; 32] {
    let mut first = [0; 32];
    for k in 0..first.len() {
        if k < bytes.len() {
            first[k] = bytes[k];
        }
    }
    first
}

/// What a call came to whose stack pointer was this before it, of which the callee has written its arguments to the
/// text, and whose caller has loaded these bytes.
fn returned<A: Abi>(
    rt: &impl Abort,
    alloc: Global,
    machine: &Machine,
    cif: &Cif<A>,
    sp: u64,
    text: &mut Bytes,
    out: &[u8],
    sent: &[u8],
) -> Came
    requires { length out.now ≡ size_of cif.now.result_type }
{
    write_result(alloc, cif, out, text).expect(rt, "memory");
    let events = machine.events();
    assert!(rt; machine.sp() == sp && events.len() == 2);
    Came {
        right: text.as_slice() == sent,
        entry: *events.get(0),
        leave: *events.get(1),
        first: first_bytes(events.stack(1)),
    }
}

/// A call of a closure from a machine that begins, with values of this text. What its callee has is written to the
/// other text, which is empty.
fn told<A: Abi>(
    rt: &impl Abort,
    alloc: Global,
    machine: &mut Machine,
    cif: &Cif<A>,
    args: &Values,
    outcome: &Value,
    over: Option<u8>,
    sent: &[u8],
    text: &mut Bytes,
) -> Came
    requires fit { all_fit (trees_of cif.now.arguments) (values_of args.now) ≡ true }
    requires fits { fits cif.now.result_type (value_of outcome.now) ≡ true }
{
    machine.begin(A::TARGET);
    let mut table = Table::new();
    let Ok(ptr) = table.make(machine, 0, 0, 7) else {
        panic!(rt; "no slot");
    };
    let Some(_) = table.find(ptr) else {
        panic!(rt; "no closure");
    };
    let Ok(()) = room_for(machine, cif) else {
        panic!(rt; "no room");
    };
    let Ok(()) = machine.journal_room(A::LINK + cif.frame()) else {
        panic!(rt; "no memory");
    };
    let sp = machine.sp();
    let incoming = begin(machine, &table, cif, args, ptr, over);
    write_arguments(alloc, machine, cif, &incoming, text).expect(rt, "memory");
    let size = cif.checked_sig().ret().size() as usize;
    let mut room = [0; LARGEST_TYPE as usize];
    let out = &mut room[..size];
    end_call(machine, cif, incoming, outcome, out);
    returned(rt, alloc, machine, cif, sp, text, out, sent)
}

/// A call on this machine, with values of the signature's types.
fn come_on<A: Abi>(
    rt: &impl Abort,
    alloc: Global,
    machine: &mut Machine,
    cif: &Cif<A>,
    over: Option<u8>,
) -> Came {
    let mut sent = Bytes::new(alloc);
    let list = some_arguments(alloc, cif, &mut sent).expect(rt, "memory");
    let args = fitting(rt, alloc, cif, &list);
    let Ok(outcome) = some_result(alloc, cif, &mut sent) else {
        panic!(rt; "no memory");
    };
    let mut text = Bytes::new(alloc);
    told(
        rt,
        alloc,
        machine,
        cif,
        args,
        &outcome,
        over,
        sent.as_slice(),
        &mut text,
    )
}

/// A call by the signature that a script would write so, with values of its types.
pub fn come<A: Abi>(rt: &impl Abort, alloc: Global, text: &str, over: Option<u8>) -> Came {
    let cif = prepared::<A>(rt, alloc, text);
    let mut machine = new_machine(rt, alloc);
    come_on(rt, alloc, &mut *machine, &*cif, over)
}

/// What a register held at an event.
fn word_at(event: &Event, at: Loc) -> u64 {
    match at {
        Loc::G(k) => event.general[(k % 32) as usize],
        Loc::F(k) => event.floating[(k % 32) as usize],
        Loc::S(_, _) => 0,
    }
}

/// Whether the return has each callee-saved register of the entry.
pub fn gives_back<A: Abi>(came: &Came) -> bool {
    for k in 0..A::KEPT {
        let at = A::callee_saved(k);
        if word_at(&came.entry, at) != word_at(&came.leave, at) {
            return false;
        }
    }
    true
}

/// The signature that a script would write so.
pub fn signature(rt: &impl Abort, alloc: Global, text: &str) -> Sig {
    let Ok(json) = parse(alloc, text.as_bytes()) else {
        panic!(rt; "no JSON");
    };
    let sig = read_signature(alloc, &json, &Where::new(alloc), 2);
    sig.ok().expect(rt, "a signature")
}

/// The call interface of a signature.
fn interface_of<A: Abi>(rt: &impl Abort, alloc: Global, sig: &Sig) -> Cif<A> {
    let types = sig.args().copy(alloc).expect(rt, "memory");
    let ret = sig.ret().copy(alloc).expect(rt, "memory");
    let cif = match sig.fixed() {
        None => prep_cif::<A>(alloc, ret, types),
        Some(fixed) => prep_cif_var::<A>(alloc, ret, types, fixed),
    };
    cif.ok().expect(rt, "no fault")
}

/// The call interface of the signature that a script would write so. It is boxed, so that who has it drops it by a call.
pub fn prepared<A: Abi>(rt: &impl Abort, alloc: Global, text: &str) -> Box<Cif<A>> {
    let sig = signature(rt, alloc, text);
    let cif = interface_of(rt, alloc, &sig);
    Box::new(alloc, cif).expect(rt, "memory")
}

/// A machine, boxed as well.
pub fn new_machine(rt: &impl Abort, alloc: Global) -> Box<Machine> {
    let machine = Machine::new(alloc).expect(rt, "memory");
    Box::new(alloc, machine).expect(rt, "memory")
}

/// Signatures with every scalar, and structs of each shape: nested, in mixed registers, homogeneous, by reference,
/// hidden, variadic, and spilled to the stack; with gaps, even registers and a split of integers of 128 bits.
const SIGNATURES: [&str; 22] = [
    r#"{"ret":"uint8","args":["uint8","sint8","uint16","sint16","uint32","sint32","uint64","sint64","float","double","pointer"]}"#,
    r#"{"ret":"sint8","args":["sint64","sint64","sint64","sint64","sint64","sint64","sint64","sint64","uint8","sint8","uint16","sint16","uint32","sint32","float"]}"#,
    r#"{"ret":"void","args":[{"struct":["sint32","float"]}]}"#,
    r#"{"ret":{"struct":["double","sint8"]},"args":[{"struct":["double","sint8"]}]}"#,
    r#"{"ret":"float","args":["sint64","sint64","sint64","sint64","sint64",{"struct":["sint64","sint64"]},"sint64"]}"#,
    r#"{"ret":"double","args":["sint64","sint64","sint64","sint64","sint64","sint64","sint64",{"struct":["sint64","sint64"]},"sint64"]}"#,
    r#"{"ret":{"struct":["float","float","float","float"]},"args":[{"struct":["float","float","float","float"]}]}"#,
    r#"{"ret":"pointer","args":["double","double","double","double","double","double",{"struct":["double","double","double"]},"double"]}"#,
    r#"{"ret":"uint32","args":["double","double","double","double","double","double","double","double",{"struct":["float","sint32"]}]}"#,
    r#"{"ret":"sint32","args":["pointer","double"],"fixed":1}"#,
    r#"{"ret":{"struct":["sint64","sint64","sint64"]},"args":[]}"#,
    r#"{"ret":{"struct":["double","double","double","double"]},"args":["sint16"]}"#,
    r#"{"ret":"void","args":[{"struct":["sint64","sint64","sint64"]},"sint8"]}"#,
    r#"{"ret":"sint64","args":[{"struct":["sint8",{"struct":["sint16","double"]},"float"]}]}"#,
    r#"{"ret":{"struct":["sint8",{"struct":["sint16","double"]},"float"]},"args":["uint16"]}"#,
    r#"{"ret":{"struct":[{"struct":["float"]},"uint8"]},"args":[{"struct":[{"struct":["uint8"]},"float"]},{"struct":["uint8","uint8","uint8"]}]}"#,
    r#"{"ret":"uint64","args":["sint32","double",{"struct":["double","double"]},"uint64","double"],"fixed":1}"#,
    r#"{"ret":{"struct":["uint16","uint16","uint16","uint16","uint16"]},"args":[{"struct":["uint8","uint32","uint16"]},{"struct":["uint64","uint8","uint64"]},{"struct":["uint16"]}]}"#,
    r#"{"ret":"uint128","args":["sint64","sint64","sint64","sint64","sint64","sint64","sint64","uint128","sint64"]}"#,
    r#"{"ret":"sint128","args":["sint64","sint128",{"struct":["sint64","sint64","sint64"]},{"struct":["uint8","uint128"]}]}"#,
    r#"{"ret":{"struct":["uint128","float"]},"args":["sint64","uint128",{"struct":["sint128"]}],"fixed":1}"#,
    r#"{"ret":{"struct":["sint64","sint64","sint64"]},"args":[{"struct":["uint8","uint8","uint8"]},{"struct":["sint64","sint64","sint64"]},"double","sint8"],"fixed":4}"#,
];

/// Signature `k` of these: a use of the table itself takes longer to prove.
pub fn numbered(k: usize) -> &'static str {
    SIGNATURES[k % 22]
}

/// All values come as they were sent by each of the signatures, and the callee-saved registers with them.
fn check_each<A: Abi>(rt: &impl Abort, alloc: Global, texts: &[&str], over: Option<u8>) {
    for text in texts {
        let came = come::<A>(rt, alloc, *text, over);
        assert!(rt; came.right && gives_back::<A>(&came), "{text}");
    }
}

/// All signatures, with each of these bytes over all that the callee must not look at, and with none.
fn check_all<A: Abi>(rt: &impl Abort, alloc: Global) {
    for over in [None, Some(0x00), Some(0x5A), Some(0xFF)] {
        check_each::<A>(rt, alloc, &SIGNATURES, over);
    }
}

/// A callee looks at the bytes of leaves and addresses alone, whatever else stands there.
#[test]
fn values_come_through_a_slot(rt: HostRuntime) {
    let alloc = rt.alloc();
    check_all::<Amd64>(&rt, alloc);
    check_all::<Aapcs64>(&rt, alloc);
    check_all::<Riscv>(&rt, alloc);
    check_all::<Win64>(&rt, alloc);
    check_all::<Apple>(&rt, alloc);
}
