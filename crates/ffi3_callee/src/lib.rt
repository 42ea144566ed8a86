//! The callee's side of a call, by any calling standard.
#![tactic(auto)]

ghost use Rattle.std.specs.Prelude.{◌≡◌, ◌+◌, ◌-◌, ◌<◌, ◌≤◌, List, length, slice_index_or};
ghost use Rattle.ffi3_type_spec.specs.declared.limits.TheConstants.{ENTRY, STACK, STACK_TOP};
ghost use Rattle.ffi3_type_spec.specs.TargetIsa.{isa_of};
ghost use Rattle.ffi3_type_spec.specs.Tree.{tree_at};
ghost use Rattle.ffi3_type_spec.specs.Layout.{size_of};
ghost use Rattle.ffi3_type_spec.specs.Value.{ValueTree, value_in, void_value};
ghost use Rattle.ffi3_place_spec.specs.Holds.{OwnsArguments};
ghost use Rattle.ffi3_place_spec.specs.Standard.{block_bytes, frame_of, plan_of};
ghost use Rattle.ffi3_machine_spec.specs.State.{scribbled_floating, scribbled_general, stack_at};
ghost use Rattle.ffi3_semantics_spec.specs.SeenActivation.{arguments_in, block_offset};
ghost use Rattle.ffi3_machine_transfer.specs.Passing.{by_exchange, passing};
ghost use Rattle.ffi3_machine_transfer.specs.Stored.{WroteOnly};
ghost use Rattle.ffi3_callee.specs.Loaded.{AreFound, image_from};
ghost use Rattle.ffi3_callee.specs.Given.{ReservedStay};
ghost use Rattle.ffi3_callee.specs.Received.{IsIncoming, IsReceived, OwnsAtEntry, hidden_of, received_if};
ghost use Rattle.ffi3_callee.specs.Saved.{HiddenLies, hidden_word};

mod activation;
mod arguments;
mod epilogue;
mod prologue;
mod registers;
mod return_path;
mod returned_value;
mod save_area;

pub use activation::answer;
use arguments::copy_argument;
pub use epilogue::restore;
use ffi3_cif::Cif;
use ffi3_machine::{Machine, StackBase};
use ffi3_machine_transfer::place_word;
use ffi3_place::{Abi, Loc, Res};
use ffi3_type_spec::round_up;
use ffi3_types::CheckedSig;
use prologue::enter;
pub use registers::set_register;
pub use return_path::go_back;
pub use returned_value::give_result;
use std::marker::Model;

/// What a callee remembers of its entry until it returns: the addresses of its copy of the arguments and of a hidden
/// result's buffer, and the stack pointer.
#[derive(Debug, Drop)]
pub struct Incoming {
    block: u64,
    address: u64,
    entry: u64,
}

impl Model for Incoming {
    ghost use Rattle.ffi3_callee.specs.Remembered.{Remembered};

    ghost Value = { Remembered };

    ghost view = { λ i. record { block = i.block; address = i.address; entry = i.entry } };
}

impl Incoming {
    /// The address of the copy of the arguments.
    fn block(&self) -> u64
        ensures { result ≡ self.now.block }
    {
        self.block
    }

    /// The address of a hidden result's buffer, 0 where there is none.
    fn address(&self) -> u64
        ensures { result ≡ self.now.address }
    {
        self.address
    }

    /// The stack pointer at the entry.
    fn entry(&self) -> u64
        ensures { result ≡ self.now.entry }
    {
        self.entry
    }
}

/// Copies the arguments into the block at an address, one behind the other, each in whole
/// doublewords. It does not know the values. Stack places count from the address `base`, the end
/// of the return address.
fn copy_arguments<A: Abi>(machine: &mut Machine, cif: &Cif<A>, base: StackBase, block: u64)
    requires low { STACK ≤ block }
    requires below { block + block_bytes cif.now ≤ base }
    requires high { base + frame_of A.standard cif.now ≤ STACK_TOP }
    requires found { AreFound base (passing machine.old) (plan_of A.standard cif.now).places }
    ensures values { (vs : List ValueTree) → OwnsArguments (image_from base (frame_of A.standard cif.now) (passing machine.old)) 0 cif.now.arguments (plan_of A.standard cif.now).places vs →
        arguments_in cif.now.arguments (stack_at block (block_bytes cif.now) (passing machine.new)) ≡ vs }
    ensures only { WroteOnly block (block + block_bytes cif.now) (passing machine.old) (passing machine.new) }
{
    machine.facts();
    let sig = cif.checked_sig();
    let mut to = block;
    for i in 0..sig.count() {
        let ty = sig.arg(i);
        copy_argument(machine, base, cif.place(i), cif.runs(i), &ty, to);
        to += round_up(ty.size(), 8);
    }
}

/// Where a hidden result's address stands.
fn hidden_place(place: &Res) -> Option<Loc>
    ensures { result ≡ hidden_of place.now }
{
    match place {
        Res::Nothing => None,
        Res::Direct(_) => None,
        Res::Hidden { at, .. } => Some(*at),
    }
}

/// A hidden result's address, or 0. It stands where arguments are passed: where calls go by stubs, Entry has stored it
/// in the exchange region.
fn passed_address(machine: &Machine, base: StackBase, hidden: Option<Loc>) -> u64
    requires { HiddenLies (STACK_TOP - base) hidden }
    ensures { result ≡ hidden_word base (passing machine.now) hidden }
{
    match hidden {
        Some(at) => place_word(machine, base, at),
        None => 0,
    }
}

/// At an entry: saves the registers that are to be given back, by the stub Entry where calls go by stubs, copies the
/// arguments into the block below them, where sp then is, and scribbles on every register but sp and the reserved ones.
/// It does not know the values.
pub fn receive<A: Abi>(machine: &mut Machine, cif: &Cif<A>) -> Incoming
    requires target { machine.old.target ≡ A.TARGET }
    requires entry { machine.old.pc ≡ ENTRY }
    requires room { STACK + A.standard.save + block_bytes cif.now ≤ machine.old.sp }
    requires frame { machine.old.sp + A.standard.link + frame_of A.standard cif.now ≤ STACK_TOP }
    requires some { (vs : List ValueTree) × OwnsAtEntry A.standard cif.now machine.old vs }
    ensures whole { machine.new ≡ received_if (by_exchange machine.old.target) A.standard cif.now machine.old machine.new }
    ensures received { IsReceived A.standard cif.now machine.old machine.new }
    ensures incoming { IsIncoming A.standard cif.now result }
    ensures general { machine.new.general ≡ scribbled_general (isa_of machine.old.target) (length machine.old.events) machine.old.general }
    ensures floating { machine.new.floating ≡ scribbled_floating (length machine.old.events) }
    ensures reserved { ReservedStay A.standard machine.old machine.new }
    ensures entry { result.entry ≡ machine.old.sp }
    ensures block { result.block ≡ machine.new.sp }
{
    // its contract tells what is true of every interface
    let _sig = cif.sig();
    let entry = machine.sp();
    let base = StackBase::at(entry + A::LINK);
    let block = entry - A::SAVE - cif.block();
    let hidden = hidden_place(cif.result_place());
    enter::<A>(machine, base, block, hidden);
    machine.facts();
    let address = passed_address(machine, base, hidden);
    copy_arguments(machine, cif, base, block);
    machine.facts();
    let number = machine.events().len() as u64;
    machine.scribble(number);
    Incoming {
        block,
        address,
        entry,
    }
}

/// Where argument `i` begins in a block.
fn offset_of(sig: &CheckedSig<'_>, i: u32) -> u64
    requires { i < length sig.now.arguments }
    ensures { result ≡ block_offset sig.now.arguments i }
{
    // it tells that the signature has no fault, and so that a block is small
    let _sig = sig.as_sig();
    let mut offset = 0;
    for k in 0..i {
        let ty = sig.arg(k);
        offset += round_up(ty.size(), 8);
    }
    offset
}

/// The bytes of argument `i` in a callee's block, padding included.
pub fn arg<'a, A: Abi>(machine: &'a Machine, cif: &Cif<A>, incoming: &Incoming, i: u32) -> &'a [u8]
    requires in_range { i < length cif.now.arguments }
    requires incoming { IsIncoming A.standard cif.now incoming.now }
    ensures are { result.now ≡ stack_at (incoming.now.block + block_offset cif.now.arguments i) (size_of (tree_at cif.now.arguments i)) machine.now }
    ensures count { length result.now ≡ size_of (tree_at cif.now.arguments i) }
    ensures value { (vs : List ValueTree) → arguments_in cif.now.arguments (stack_at incoming.now.block (block_bytes cif.now) machine.now) ≡ vs → value_in (tree_at cif.now.arguments i) result.now ≡ slice_index_or vs i void_value }
{
    let sig = cif.checked_sig();
    let ty = sig.arg(i);
    let offset = offset_of(&sig, i);
    let size = ty.size();
    let from = incoming.block() + offset;
    machine.lend_stack(from, size)
}
