//! Call interfaces of any of the five targets, prepared from nodes, and the transfers by them.
#![tactic(auto)]

ghost use Rattle.std.specs.Prelude.{◌≡◌, IfErr, IfOk, OnErr, OnOk};
ghost use Rattle.ffi3_type_spec.specs.Signature.{SignatureIsPlaced};
ghost use Rattle.ffi3_transfer.specs.Stored.{image_in};
ghost use Rattle.ffi3_transfer.specs.Calls.{IsCallStored, IsNotStored, IsLoaded, IsNotLoaded, IsGiven, IsNotGiven};
ghost use Rattle.ffi3_transfer.specs.Collected.{IsCollected, IsNotCollected};
ghost use Rattle.ffi3_prepared.specs.Prepared.{IsPrepared, IsUnprepared, IsUnpreparedOfNone, IsUnpreparedUnplaceable, IsUnpreparedWithout, signature_in, sizes_of, standard_in, target_in};

mod each;

use each::{on_aapcs64, on_amd64, on_apple, on_riscv, on_win64};
use ffi3_aapcs64::Aapcs64;
use ffi3_amd64::Amd64;
use ffi3_apple::Apple;
use ffi3_cif::Placed;
use ffi3_format::format_of;
use ffi3_nodes::{Node, Refused, read_signature_for};
use ffi3_place::Abi;
use ffi3_riscv::Riscv;
use ffi3_transfer::{Registers, Uncollected, Ungiven, Unstored};
use ffi3_types::{NoMemory, Sig, Target};
use ffi3_win64::Win64;
use std::alloc::Global;

/// A prepared call interface of a target. (libffi's `ffi_cif`)
#[derive(Drop)]
pub enum Prepared {
    Amd64(Placed<Amd64>),
    Aapcs64(Placed<Aapcs64>),
    Riscv(Placed<Riscv>),
    Win64(Placed<Win64>),
    Apple(Placed<Apple>),
}

/// Why an interface is not prepared.
#[derive(Debug, Drop)]
pub enum Unprepared {
    /// The nodes are no signature that can be placed.
    Nodes(Refused),
    /// Memory was refused.
    NoMemory,
}

/// Prepares calls by the target's standard, of a function whose signature can be placed. (Each target's part is a function
/// of its own, so that a preparation makes room for its own interface alone.)
pub fn prepare_signature(alloc: Global, target: Target, sig: Sig) -> Result<Prepared, NoMemory>
    requires { SignatureIsPlaced sig }
    ensures target { IfOk result (λ p. target_in p ≡ target) }
    ensures signature { IfOk result (λ p. signature_in p ≡ sig) }
{
    match target {
        Target::Amd64 => on_amd64(alloc, sig),
        Target::Aapcs64 => on_aapcs64(alloc, sig),
        Target::Riscv => on_riscv(alloc, sig),
        Target::Win64 => on_win64(alloc, sig),
        Target::Apple => on_apple(alloc, sig),
    }
}

/// Prepares calls by the target's standard, of the function whose signature nodes tell: a long double has the format that
/// the standard gives it.
pub fn prepare(
    alloc: Global,
    target: Target,
    nodes: &[Node],
    fixed: Option<u32>,
) -> Result<Prepared, Unprepared>
    ensures ok { IfOk result (λ p. IsPrepared target nodes.now fixed p) }
    ensures err { IfErr result (λ f. IsUnprepared target nodes.now fixed f) }
    ensures none { IfErr result (λ f. IsUnpreparedOfNone nodes.now f) }
    ensures unplaceable { IfErr result (λ f. IsUnpreparedUnplaceable target nodes.now fixed f) }
    ensures without { IfErr result (λ f. IsUnpreparedWithout nodes.now fixed f) }
{
    let sig = match read_signature_for(alloc, format_of(target), nodes, fixed) {
        Ok(sig) => sig,
        Err(refused) => return Err(Unprepared::Nodes(refused)),
    };
    match prepare_signature(alloc, target, sig) {
        Ok(prepared) => Ok(prepared),
        Err(_) => Err(Unprepared::NoMemory),
    }
}

/// How many bytes a call's parts take.
#[derive(Clone, Copy, Debug, PartialEq, Eq)]
pub struct CallSizes {
    /// The arguments' values, one after another, each from a multiple of 8 on.
    pub values: usize,
    /// The result's value.
    pub result: usize,
    /// The return address on the stack, where the standard has it there.
    pub link: usize,
    /// Stack arguments, copies and a hidden result's buffer.
    pub frame: usize,
}

/// Those of one standard's.
fn sizes_by<A: Abi>(placed: &Placed<A>) -> CallSizes
    ensures { result ≡ sizes_of A.standard placed.now }
{
    let values = ffi3_transfer::packed_size(placed);
    let given = placed.placed_sig().ret().size() as usize;
    let link = A::LINK;
    let frame = placed.frame() as usize;
    CallSizes {
        values,
        result: given,
        link: link as usize,
        frame,
    }
}

/// How many bytes a call's parts take, by the interface's standard.
pub fn sizes(p: &Prepared) -> CallSizes
    ensures { result ≡ sizes_of (standard_in p.now) (signature_in p.now) }
{
    match p {
        Prepared::Amd64(placed) => sizes_by(placed),
        Prepared::Aapcs64(placed) => sizes_by(placed),
        Prepared::Riscv(placed) => sizes_by(placed),
        Prepared::Win64(placed) => sizes_by(placed),
        Prepared::Apple(placed) => sizes_by(placed),
    }
}

/// The target.
pub fn target(p: &Prepared) -> Target
    ensures { result ≡ target_in p.now }
{
    match p {
        Prepared::Amd64(_) => Target::Amd64,
        Prepared::Aapcs64(_) => Target::Aapcs64,
        Prepared::Riscv(_) => Target::Riscv,
        Prepared::Win64(_) => Target::Win64,
        Prepared::Apple(_) => Target::Apple,
    }
}

/// The caller's, before the call: its values to registers and stack, as `ffi3_transfer::store`.
pub fn store(
    p: &Prepared,
    values: &[u8],
    registers: &mut Registers,
    stack: &mut [u8],
) -> Result<(), Unstored>
    ensures ok { OnOk result (IsCallStored (standard_in p.now) (signature_in p.now) values.now (image_in registers.old stack.old) (image_in registers.new stack.new)) }
    ensures err { IfErr result (λ f. IsNotStored (standard_in p.now) (signature_in p.now) values.now (image_in registers.old stack.old) f) }
    ensures registers { OnErr result (registers.new ≡ registers.old) }
    ensures stack { OnErr result (stack.new ≡ stack.old) }
{
    match p {
        Prepared::Amd64(placed) => ffi3_transfer::store(placed, values, registers, stack),
        Prepared::Aapcs64(placed) => ffi3_transfer::store(placed, values, registers, stack),
        Prepared::Riscv(placed) => ffi3_transfer::store(placed, values, registers, stack),
        Prepared::Win64(placed) => ffi3_transfer::store(placed, values, registers, stack),
        Prepared::Apple(placed) => ffi3_transfer::store(placed, values, registers, stack),
    }
}

/// The caller's, after the call: the result out of registers or frame, as `ffi3_transfer::load`.
pub fn load(
    p: &Prepared,
    registers: &Registers,
    stack: &[u8],
    out: &mut [u8],
) -> Result<(), Unstored>
    ensures ok { OnOk result (IsLoaded (standard_in p.now) (signature_in p.now) (image_in registers.now stack.now) out.new) }
    ensures err { IfErr result (λ f. IsNotLoaded (standard_in p.now) (signature_in p.now) (image_in registers.now stack.now) out.old f) }
    ensures out { OnErr result (out.new ≡ out.old) }
{
    match p {
        Prepared::Amd64(placed) => ffi3_transfer::load(placed, registers, stack, out),
        Prepared::Aapcs64(placed) => ffi3_transfer::load(placed, registers, stack, out),
        Prepared::Riscv(placed) => ffi3_transfer::load(placed, registers, stack, out),
        Prepared::Win64(placed) => ffi3_transfer::load(placed, registers, stack, out),
        Prepared::Apple(placed) => ffi3_transfer::load(placed, registers, stack, out),
    }
}

/// The callee's, at the entry: its arguments out of registers and stack, as `ffi3_transfer::collect`.
pub fn collect(
    p: &Prepared,
    registers: &Registers,
    stack: &[u8],
    values: &mut [u8],
) -> Result<(), Uncollected>
    ensures ok { OnOk result (IsCollected (standard_in p.now) (signature_in p.now) (image_in registers.now stack.now) values.new) }
    ensures err { IfErr result (λ f. IsNotCollected (standard_in p.now) (signature_in p.now) (image_in registers.now stack.now) values.old f) }
    ensures values { OnErr result (values.new ≡ values.old) }
{
    match p {
        Prepared::Amd64(placed) => ffi3_transfer::collect(placed, registers, stack, values),
        Prepared::Aapcs64(placed) => ffi3_transfer::collect(placed, registers, stack, values),
        Prepared::Riscv(placed) => ffi3_transfer::collect(placed, registers, stack, values),
        Prepared::Win64(placed) => ffi3_transfer::collect(placed, registers, stack, values),
        Prepared::Apple(placed) => ffi3_transfer::collect(placed, registers, stack, values),
    }
}

/// The callee's, before its return: its result to registers or buffer, as `ffi3_transfer::give`.
pub fn give(
    p: &Prepared,
    value: &[u8],
    registers: &mut Registers,
    stack: &mut [u8],
) -> Result<(), Ungiven>
    ensures ok { OnOk result (IsGiven (standard_in p.now) (signature_in p.now) value.now (image_in registers.old stack.old) (image_in registers.new stack.new)) }
    ensures err { IfErr result (λ f. IsNotGiven (standard_in p.now) (signature_in p.now) value.now (image_in registers.old stack.old) f) }
    ensures registers { OnErr result (registers.new ≡ registers.old) }
    ensures stack { OnErr result (stack.new ≡ stack.old) }
{
    match p {
        Prepared::Amd64(placed) => ffi3_transfer::give(placed, value, registers, stack),
        Prepared::Aapcs64(placed) => ffi3_transfer::give(placed, value, registers, stack),
        Prepared::Riscv(placed) => ffi3_transfer::give(placed, value, registers, stack),
        Prepared::Win64(placed) => ffi3_transfer::give(placed, value, registers, stack),
        Prepared::Apple(placed) => ffi3_transfer::give(placed, value, registers, stack),
    }
}
