//! The arguments of a function, each by itself, from registers and stack where it begins.
ghost use Rattle.std.specs.Prelude.{◌≡◌, ◌+◌, ◌≤◌, IfErr, IfOk, None, OnOk, [], ◌++◌, length, replicate};
ghost use Rattle.ffi3_type_spec.specs.declared.limits.TheConstants.{LARGEST_TYPE};
ghost use Rattle.ffi3_type_spec.specs.Signature.{SignatureIsPlaced};
ghost use Rattle.ffi3_place_spec.specs.Standard.{plan_of};
ghost use Rattle.ffi3_place_spec.specs.Sound.{PlaceHasAll};
ghost use Rattle.ffi3_transfer.specs.Places.{ArgumentIsThere};
ghost use Rattle.ffi3_explain_spec.specs.Arguments.{least_stack, outside_of, value_by_standard};
ghost use Rattle.ffi3_transfer.specs.Stored.{image_in};
ghost use Rattle.ffi3_capi.specs.DeclaredBy.{IsDeclaredOn, IsFaultOn};
ghost use Rattle.ffi3_capi.specs.Entry.{HasOneMore};
ghost use Rattle.ffi3_capi.specs.Each.{AreSeen, AreSeenBy, AreUnseen, AreUnseenBy, AreSeenOf, IsSeen, ReadsEach, each_argument};

use crate::bytes::push_value;
use crate::codes::{DONE, NOT_IN_STACK};
use crate::declaration::{Declaration, declared_on};
use crate::entry::{EntryArguments, Unread, told};
use crate::fault::{FaultKind, fault_with};
use crate::fill::{fill, fill_bytes, room_status_of_both};
use crate::placing::target_numbered;
use crate::status::Refusal;
use ffi3_cif::Placed;
use ffi3_explain::{Outside, least_stack_of};
use ffi3_place::{Abi, Place};
use ffi3_place_spec::Listed;
use ffi3_standards::{ByStandard, on_target};
use ffi3_transfer::{Registers, outside_of, read_argument};
use ffi3_type_spec::limits::LARGEST_TYPE;
use ffi3_type_spec::round_up;
use ffi3_types::{Bytes, CheckedType, NoMemory, PlacedSig, Sig};
use ffi3_values::value_from_bytes;
use std::alloc::Global;

/// What is told of one argument: C's `struct ffi3_argument`.
#[repr(C)]
#[derive(Clone, Copy)]
pub struct EachArgument {
    /// `DONE`, or `NOT_IN_STACK`.
    pub status: u32,
    /// Nothing yet.
    pub reserved: u32,
    /// Where its bytes begin among those of all.
    pub offset: usize,
    /// How many it has.
    pub size: usize,
    /// The address that has them, if that points past the stack's bytes.
    pub address: u64,
}

pub type EachArguments = Listed<EachArgument>;

/// Arguments that were looked at, and the bytes of all.
#[derive(Drop)]
pub struct Seen {
    pub told: EntryArguments,
    pub each: EachArguments,
    pub bytes: Bytes,
}

/// So many zeros more.
fn push_zeros(n: usize, bytes: &mut Bytes) -> Result<(), NoMemory>
    requires { n ≤ LARGEST_TYPE + 8 }
    ensures { OnOk result (bytes.new ≡ bytes.old ++ replicate n 0) }
{
    let zeros = [0; LARGEST_TYPE as usize + 8];
    bytes.extend(&zeros[..n])?;
    Ok(())
}

/// What is told of an argument of so many bytes, which begin there.
fn each_argument(size: usize, offset: usize, outside: Option<Outside>) -> EachArgument
    ensures { result ≡ each_argument size offset outside }
{
    match outside {
        Some(outside) => EachArgument {
            status: NOT_IN_STACK,
            reserved: 0,
            offset,
            size,
            address: outside.address,
        },
        None => EachArgument {
            status: DONE,
            reserved: 0,
            offset,
            size,
            address: 0,
        },
    }
}

/// The bytes of an argument whose address, if it has one, points inside, with padding of 0 in and behind it.
fn push_argument(
    alloc: Global,
    registers: &Registers,
    stack: &[u8],
    base: u64,
    ty: &CheckedType<'_>,
    place: &Place,
    bytes: &mut Bytes,
) -> Result<(), NoMemory>
    requires there { ArgumentIsThere (image_in registers.now stack.now) base place.now }
    requires has_all { PlaceHasAll ty.now place.now }
    requires inside { outside_of (image_in registers.now stack.now) base 0 ty.now place.now ≡ None }
    ensures { OnOk result (HasOneMore ty.now (value_by_standard (image_in registers.now stack.now) base ty.now place.now) bytes.old bytes.new) }
{
    let mut room = [0; LARGEST_TYPE as usize];
    let here = &mut room[..ty.size() as usize];
    read_argument(registers, stack, base, ty, place, here);
    let value = value_from_bytes(alloc, ty.as_type(), here)?;
    push_value(ty, &value, bytes)
}

/// Argument `i`: its bytes behind the others, or zeros where its address points outside.
fn see_argument(
    alloc: Global,
    registers: &Registers,
    stack: &[u8],
    base: u64,
    i: u32,
    ty: &CheckedType<'_>,
    place: &Place,
    bytes: &mut Bytes,
) -> Result<EachArgument, NoMemory>
    requires there { ArgumentIsThere (image_in registers.now stack.now) base place.now }
    requires has_all { PlaceHasAll ty.now place.now }
    ensures { IfOk result (λ one. IsSeen (image_in registers.now stack.now) base i ty.now place.now bytes.old bytes.new one) }
{
    let at = bytes.len();
    let size = ty.size();
    match outside_of(registers, stack, base, i, ty, place) {
        Some(outside) => {
            push_zeros(round_up(size, 8) as usize, bytes)?;
            Ok(each_argument(size as usize, at, Some(outside)))
        }
        None => {
            push_argument(alloc, registers, stack, base, ty, place, bytes)?;
            Ok(each_argument(size as usize, at, None))
        }
    }
}

/// What is told of all arguments, and their bytes.
pub(crate) fn see_arguments<A: Abi>(
    alloc: Global,
    placed: &Placed<A>,
    registers: &Registers,
    stack: &[u8],
) -> Result<(EachArguments, Bytes), NoMemory>
    requires { least_stack A.standard placed.now ≤ length stack.now }
    ensures { IfOk result (λ r. AreSeen (image_in registers.now stack.now) A.standard.link 0 placed.now.arguments (plan_of A.standard placed.now).places [] r.1 r.0) }
{
    let sig = placed.placed_sig();
    let base = A::LINK;
    let count = sig.count();
    let mut each = Listed::new(alloc);
    let mut bytes = Bytes::new(alloc);
    for i in 0..count {
        let one = see_argument(
            alloc,
            registers,
            stack,
            base,
            i,
            &sig.arg(i),
            placed.place(i),
            &mut bytes,
        )?;
        each.push(one)?;
    }
    Ok((each, bytes))
}

/// The arguments by a calling standard.
fn see_by<A: Abi>(
    alloc: Global,
    sig: Sig,
    registers: &Registers,
    stack: &[u8],
) -> Result<Seen, Unread>
    requires { SignatureIsPlaced sig }
    ensures seen { IfOk result (λ f. AreSeenBy A.standard sig (image_in registers.now stack.now) f) }
    ensures unseen { IfErr result (λ u. AreUnseenBy A.standard sig (image_in registers.now stack.now) u) }
{
    let arguments = PlacedSig::of(&sig).count() as usize;
    let Ok(placed) = Placed::<A>::prepare(alloc, sig) else {
        return Err(Unread::Call(Refusal::NoMemory));
    };
    let wanted = least_stack_of(&placed) as usize;
    if stack.len() < wanted {
        return Err(Unread::ShortStack {
            arguments,
            stack: wanted,
        });
    }
    let Ok((each, bytes)) = see_arguments(alloc, &placed, registers, stack) else {
        return Err(Unread::Call(Refusal::NoMemory));
    };
    Ok(Seen {
        told: told(
            arguments,
            bytes.len(),
            wanted,
            fault_with(FaultKind::NoFault),
        ),
        each,
        bytes,
    })
}

/// The arguments of a signature that can be placed, each by itself, from registers and stack.
#[derive(Drop)]
struct SeeEach<'a> {
    alloc: Global,
    sig: Sig,
    registers: &'a Registers,
    stack: &'a [u8],
    ghost placed: { SignatureIsPlaced sig },
}

impl<'a> ByStandard for SeeEach<'a> {
    ghost use Rattle.std.specs.Prelude.{IfOk, IfErr};
    ghost use Rattle.ffi3_transfer.specs.Stored.{image_in};
    ghost use Rattle.ffi3_capi.specs.Each.{AreSeenBy, AreUnseenBy};

    type Answer = Result<Seen, Unread>;

    ghost answers = { λ task std r.
        IfOk r (λ f. AreSeenBy std task.sig (image_in task.registers.now task.stack.now) f)
        × IfErr r (λ u. AreUnseenBy std task.sig (image_in task.registers.now task.stack.now) u) };

    fn by<A: Abi>(self) -> Result<Seen, Unread> {
        see_by::<A>(self.alloc, self.sig, self.registers, self.stack)
    }
}

/// The arguments of the function that is declared, each by itself, as registers and stack have them where it begins, by
/// the calling standard with this number alone: its bytes, or the address of those that are outside the stack's.
pub fn see(
    alloc: Global,
    target: u32,
    declaration: Declaration<'_>,
    registers: &Registers,
    stack: &[u8],
) -> Result<Seen, Unread>
    ensures seen { IfOk result (λ f. AreSeenOf (IsDeclaredOn target declaration.entry) target (image_in registers.now stack.now) f) }
    ensures unseen { IfErr result (λ u. AreUnseen (IsDeclaredOn target declaration.entry) (IsFaultOn target declaration.entry) target (image_in registers.now stack.now) u) }
{
    let Some(to) = target_numbered(target) else {
        return Err(Unread::Call(Refusal::NoSuchTarget));
    };
    let sig = match declared_on(alloc, target, declaration) {
        Ok(sig) => sig,
        Err(Some(fault)) => return Err(Unread::Call(Refusal::Fault(fault))),
        Err(None) => return Err(Unread::Call(Refusal::NoMemory)),
    };
    let task = SeeEach {
        alloc,
        sig,
        registers,
        stack,
    };
    match on_target(to, task) {
        Ok(seen) => Ok(seen),
        Err(unseen) => Err(unseen),
    }
}

/// The same for a caller's struct and arrays. The number tells whether both had room, or why there are none.
pub fn tell_each(
    alloc: Global,
    target: u32,
    declaration: Declaration<'_>,
    registers: &Registers,
    stack: &[u8],
    told: &mut EntryArguments,
    each: &mut [EachArgument],
    values: &mut [u8],
) -> u32
    ensures { ReadsEach (IsDeclaredOn target declaration.entry) (IsFaultOn target declaration.entry) target (image_in registers.now stack.now) each.old values.old result told.new each.new values.new }
{
    match see(alloc, target, declaration, registers, stack) {
        Ok(seen) => {
            *told = seen.told;
            let has_each = fill(&seen.each, each);
            let has_values = fill_bytes(seen.bytes.as_slice(), values);
            room_status_of_both(has_each, has_values)
        }
        Err(unseen) => {
            *told = unseen.told();
            unseen.status()
        }
    }
}
