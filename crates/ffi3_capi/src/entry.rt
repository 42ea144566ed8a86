//! The arguments of a function, from registers and stack where it begins.
ghost use Rattle.std.specs.Prelude.{◌≡◌, IfOk, IfErr};
ghost use Rattle.ffi3_type_spec.specs.Signature.{SignatureIsPlaced};
ghost use Rattle.ffi3_transfer.specs.Stored.{image_in};
ghost use Rattle.ffi3_capi.specs.DeclaredBy.{IsDeclaredOn, IsFaultOn};
ghost use Rattle.ffi3_capi.specs.Entry.{AreFoundBy, AreNotReadBy, AreFound, AreNotRead, Reads, arguments_of, no_arguments, unread_status};

use crate::codes::{NOT_IN_STACK, SHORT_STACK};
use crate::declaration::{Declaration, declared_on};
use crate::each::see_arguments;
use crate::fault::{FaultKind, TextFault, fault_with};
use crate::fill::{fill_bytes, room_status};
use crate::placing::target_numbered;
use crate::status::Refusal;
use ffi3_cif::Placed;
use ffi3_explain::least_stack_of;
use ffi3_place::Abi;
use ffi3_standards::{ByStandard, on_target};
use ffi3_transfer::{Registers, first_outside};
use ffi3_types::{Bytes, PlacedSig, Sig};
use std::alloc::Global;

/// What is told of arguments beside their bytes: C's `struct ffi3_arguments`.
#[repr(C)]
#[derive(Clone, Copy)]
pub struct EntryArguments {
    /// How many arguments the function names.
    pub arguments: usize,
    /// How many bytes the values have, each begun at a multiple of 8.
    pub size: usize,
    /// How far the arguments' places reach in the stack, from the stack pointer on.
    pub stack: usize,
    /// The address that points past the stack's bytes, if that is why there are no values.
    pub address: u64,
    /// Of which argument it is.
    pub argument: u32,
    /// Nothing yet.
    pub reserved: u32,
    pub fault: TextFault,
}

/// Arguments that were read.
#[derive(Drop)]
pub struct Found {
    pub told: EntryArguments,
    pub bytes: Bytes,
}

/// Why arguments are not read.
#[derive(Clone, Copy)]
pub enum Unread {
    /// There is no such call.
    Call(Refusal),
    /// Of so many arguments, whose places reach so far in the stack.
    ShortStack {
        arguments: usize,
        stack: usize,
    },
    /// The same, and one argument's address.
    NotInStack {
        arguments: usize,
        stack: usize,
        argument: u32,
        address: u64,
    },
}

impl Unread {
    /// The number that C is answered.
    pub(crate) fn status(self) -> u32
        ensures { result ≡ unread_status self }
    {
        match self {
            Unread::Call(refusal) => refusal.status(),
            Unread::ShortStack { .. } => SHORT_STACK,
            Unread::NotInStack { .. } => NOT_IN_STACK,
        }
    }

    /// What C is told beside it.
    pub(crate) fn told(self) -> EntryArguments
        ensures { result ≡ no_arguments self }
    {
        match self {
            Unread::Call(refusal) => told(0, 0, 0, refusal.fault()),
            Unread::ShortStack { arguments, stack } => {
                told(arguments, 0, stack, fault_with(FaultKind::NoFault))
            }
            Unread::NotInStack {
                arguments,
                stack,
                argument,
                address,
            } => EntryArguments {
                argument,
                address,
                ..told(arguments, 0, stack, fault_with(FaultKind::NoFault))
            },
        }
    }
}

/// No address is told.
pub(crate) fn told(arguments: usize, size: usize, stack: usize, fault: TextFault) -> EntryArguments
    ensures { result ≡ arguments_of arguments size stack fault }
{
    EntryArguments {
        arguments,
        size,
        stack,
        address: 0,
        argument: 0,
        reserved: 0,
        fault,
    }
}

/// The arguments by a calling standard.
fn read_by<A: Abi>(
    alloc: Global,
    sig: Sig,
    registers: &Registers,
    stack: &[u8],
) -> Result<Found, Unread>
    requires { SignatureIsPlaced sig }
    ensures found { IfOk result (λ f. AreFoundBy A.standard sig (image_in registers.now stack.now) f) }
    ensures unread { IfErr result (λ u. AreNotReadBy A.standard sig (image_in registers.now stack.now) u) }
{
    let arguments = PlacedSig::of(&sig).count() as usize;
    let Ok(placed) = Placed::<A>::prepare(alloc, sig) else {
        return Err(Unread::Call(Refusal::NoMemory));
    };
    let wanted = least_stack_of(&placed) as usize;
    if stack.len() < wanted {
        return Err(Unread::ShortStack {
            arguments,
            stack: wanted,
        });
    }
    match first_outside(&placed, registers, stack) {
        Some(outside) => {
            return Err(Unread::NotInStack {
                arguments,
                stack: wanted,
                argument: outside.argument,
                address: outside.address,
            });
        }
        None => {}
    }
    let Ok((_each, bytes)) = see_arguments(alloc, &placed, registers, stack) else {
        return Err(Unread::Call(Refusal::NoMemory));
    };
    Ok(Found {
        told: told(
            arguments,
            bytes.len(),
            wanted,
            fault_with(FaultKind::NoFault),
        ),
        bytes,
    })
}

/// The arguments of a signature that can be placed, all of them, from registers and stack.
#[derive(Drop)]
struct ReadAll<'a> {
    alloc: Global,
    sig: Sig,
    registers: &'a Registers,
    stack: &'a [u8],
    ghost placed: { SignatureIsPlaced sig },
}

impl<'a> ByStandard for ReadAll<'a> {
    ghost use Rattle.std.specs.Prelude.{IfOk, IfErr};
    ghost use Rattle.ffi3_transfer.specs.Stored.{image_in};
    ghost use Rattle.ffi3_capi.specs.Entry.{AreFoundBy, AreNotReadBy};

    type Answer = Result<Found, Unread>;

    ghost answers = { λ task std r.
        IfOk r (λ f. AreFoundBy std task.sig (image_in task.registers.now task.stack.now) f)
        × IfErr r (λ u. AreNotReadBy std task.sig (image_in task.registers.now task.stack.now) u) };

    fn by<A: Abi>(self) -> Result<Found, Unread> {
        read_by::<A>(self.alloc, self.sig, self.registers, self.stack)
    }
}

/// The arguments of the function that is declared, as registers and stack have them where it begins, by the
/// calling standard with this number alone: what that leaves free is not judged, and an address is followed to wherever
/// it points in the stack's bytes, which begin at the stack pointer.
pub fn find_arguments(
    alloc: Global,
    target: u32,
    declaration: Declaration<'_>,
    registers: &Registers,
    stack: &[u8],
) -> Result<Found, Unread>
    ensures found { IfOk result (λ f. AreFound (IsDeclaredOn target declaration.entry) target (image_in registers.now stack.now) f) }
    ensures unread { IfErr result (λ u. AreNotRead (IsDeclaredOn target declaration.entry) (IsFaultOn target declaration.entry) target (image_in registers.now stack.now) u) }
{
    let Some(to) = target_numbered(target) else {
        return Err(Unread::Call(Refusal::NoSuchTarget));
    };
    let sig = match declared_on(alloc, target, declaration) {
        Ok(sig) => sig,
        Err(Some(fault)) => return Err(Unread::Call(Refusal::Fault(fault))),
        Err(None) => return Err(Unread::Call(Refusal::NoMemory)),
    };
    let task = ReadAll {
        alloc,
        sig,
        registers,
        stack,
    };
    match on_target(to, task) {
        Ok(found) => Ok(found),
        Err(unread) => Err(unread),
    }
}

/// The same for a caller's struct and array of bytes. The number tells whether the values had room, or why there are
/// none.
pub fn arguments(
    alloc: Global,
    target: u32,
    declaration: Declaration<'_>,
    registers: &Registers,
    stack: &[u8],
    told: &mut EntryArguments,
    values: &mut [u8],
) -> u32
    ensures { Reads (IsDeclaredOn target declaration.entry) (IsFaultOn target declaration.entry) target (image_in registers.now stack.now) values.old result told.new values.new }
{
    match find_arguments(alloc, target, declaration, registers, stack) {
        Ok(found) => {
            *told = found.told;
            room_status(fill_bytes(found.bytes.as_slice(), values))
        }
        Err(unread) => {
            *told = unread.told();
            unread.status()
        }
    }
}
