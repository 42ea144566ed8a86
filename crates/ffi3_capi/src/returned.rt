//! The result of a function, from registers and memory where it has returned.
ghost use Rattle.std.specs.Prelude.{◌≡◌, ◌≤◌, IfOk, IfErr, length};
ghost use Rattle.std.specs.List.{AllByRecursion};
ghost use Rattle.ffi3_type_spec.specs.declared.limits.TheConstants.{LARGEST_TYPE};
ghost use Rattle.ffi3_type_spec.specs.Layout.{size_of};
ghost use Rattle.ffi3_type_spec.specs.Signature.{SignatureIsPlaced};
ghost use Rattle.ffi3_place_spec.specs.MachineRegisters.{to_list};
ghost use Rattle.ffi3_place_spec.specs.Sound.{IsWithin};
ghost use Rattle.ffi3_explain_spec.specs.Explain.{first_bytes};
ghost use Rattle.ffi3_transfer.specs.Places.{CanBeRead, HasPlace};
ghost use Rattle.ffi3_transfer.specs.Stored.{image_in};
ghost use Rattle.ffi3_capi.specs.DeclaredBy.{IsDeclaredOn, IsFaultOn};
ghost use Rattle.ffi3_capi.specs.Returned.{IsFound, IsFoundBy, IsNotFound, IsNotFoundBy, IsUnfound, ReadsResult, are_bytes, no_result, result_behind, result_of, returned_by_standard, unfound_status};

use crate::codes::{NO_ADDRESS, NOT_IN_STACK};
use crate::declaration::{Declaration, declared_on};
use crate::fault::{FaultKind, TextFault, fault_with};
use crate::fill::{fill_bytes, room_status};
use crate::placing::target_numbered;
use crate::status::Refusal;
use ffi3_cif::Placed;
use ffi3_place::{Abi, Loc, Pieces, Res};
use ffi3_standards::{ByStandard, on_target};
use ffi3_transfer::{Registers, offset_in, place_word, read_pieces};
use ffi3_type_spec::limits::LARGEST_TYPE;
use ffi3_types::{Bytes, CheckedType, NoMemory, Sig};
use std::alloc::Global;

/// What is told of a result beside its bytes: C's `struct ffi3_result`.
#[repr(C)]
#[derive(Clone, Copy)]
pub struct ReturnedResult {
    /// How many bytes it has.
    pub size: usize,
    /// The address of the buffer that has them, if that points past the bytes of memory.
    pub address: u64,
    /// Nothing yet.
    pub reserved: [u64; 2],
    pub fault: TextFault,
}

/// A result that was read.
#[derive(Drop)]
pub struct FoundResult {
    pub told: ReturnedResult,
    pub bytes: Bytes,
}

/// Why a result is not read.
#[derive(Clone, Copy)]
pub enum Unfound {
    /// There is no such call.
    Call(Refusal),
    /// So many bytes from this address on have it.
    NotInStack { size: usize, address: u64 },
    /// So many bytes of a buffer have it, whose address the standard does not give back.
    NoAddress { size: usize },
}

impl Unfound {
    /// The number that C is answered.
    fn status(self) -> u32
        ensures { result ≡ unfound_status self }
    {
        match self {
            Unfound::Call(refusal) => refusal.status(),
            Unfound::NotInStack { .. } => NOT_IN_STACK,
            Unfound::NoAddress { .. } => NO_ADDRESS,
        }
    }

    /// What C is told beside it.
    fn told(self) -> ReturnedResult
        ensures { result ≡ no_result self }
    {
        match self {
            Unfound::Call(refusal) => told(0, 0, refusal.fault()),
            Unfound::NotInStack { size, address } => {
                told(size, address, fault_with(FaultKind::NoFault))
            }
            Unfound::NoAddress { size } => told(size, 0, fault_with(FaultKind::NoFault)),
        }
    }
}

fn told(size: usize, address: u64, fault: TextFault) -> ReturnedResult
    ensures { result ≡ result_of size address fault }
{
    ReturnedResult {
        size,
        address,
        reserved: [0; 2],
        fault,
    }
}

/// The bytes of a result in pieces.
fn direct_bytes(
    alloc: Global,
    registers: &Registers,
    stack: &[u8],
    pieces: &Pieces,
    size: usize,
) -> Result<Bytes, NoMemory>
    requires there { AllByRecursion (CanBeRead (image_in registers.now stack.now) 0) pieces.now }
    requires within { AllByRecursion (IsWithin size) pieces.now }
    requires small { size ≤ LARGEST_TYPE }
    ensures { IfOk result (λ b. b ≡ first_bytes (image_in registers.now stack.now) 0 pieces.now 0 size) }
{
    let mut room = [0; LARGEST_TYPE as usize];
    let out = &mut room[..size];
    read_pieces(registers, stack, 0, pieces, out);
    Bytes::from_slice(alloc, out)
}

/// The bytes of a result in a buffer, whose address is in this register, if in any.
fn buffer_bytes(
    alloc: Global,
    registers: &Registers,
    stack: &[u8],
    returned: Option<Loc>,
    ty: &CheckedType<'_>,
) -> Result<Bytes, Unfound>
    requires { AllByRecursion (HasPlace (image_in registers.now stack.now) 0) (to_list returned) }
    ensures bytes { IfOk result (λ b. result_behind (image_in registers.now stack.now) ty.now returned ≡ are_bytes b) }
    ensures sized { IfOk result (λ b. length b ≡ size_of ty.now) }
    ensures unfound { IfErr result (λ u. IsUnfound ty.now (result_behind (image_in registers.now stack.now) ty.now returned) u) }
{
    let wanted = ty.size();
    let size = wanted as usize;
    let at = match returned {
        Some(at) => at,
        None => return Err(Unfound::NoAddress { size }),
    };
    let address = place_word(registers, stack, 0, at);
    match offset_in(registers, stack, address, wanted) {
        Some(from) => match Bytes::from_slice(alloc, &stack[from..from + size]) {
            Ok(bytes) => Ok(bytes),
            Err(_) => Err(Unfound::Call(Refusal::NoMemory)),
        },
        None => Err(Unfound::NotInStack { size, address }),
    }
}

/// The bytes of the result of a call by this interface.
fn read_result<A: Abi>(
    alloc: Global,
    placed: &Placed<A>,
    registers: &Registers,
    stack: &[u8],
) -> Result<Bytes, Unfound>
    ensures bytes { IfOk result (λ b. returned_by_standard A.standard placed.now (image_in registers.now stack.now) ≡ are_bytes b) }
    ensures sized { IfOk result (λ b. length b ≡ size_of placed.now.result_type) }
    ensures unfound { IfErr result (λ u. IsUnfound placed.now.result_type (returned_by_standard A.standard placed.now (image_in registers.now stack.now)) u) }
{
    let sig = placed.placed_sig();
    let ty = sig.ret();
    match placed.result_place() {
        Res::Nothing => Ok(Bytes::new(alloc)),
        Res::Direct(pieces) => {
            match direct_bytes(alloc, registers, stack, pieces, ty.size() as usize) {
                Ok(bytes) => Ok(bytes),
                Err(_) => Err(Unfound::Call(Refusal::NoMemory)),
            }
        }
        Res::Hidden { .. } => buffer_bytes(alloc, registers, stack, A::returned_address(), &ty),
    }
}

/// The result by a calling standard.
fn find_by<A: Abi>(
    alloc: Global,
    sig: Sig,
    registers: &Registers,
    stack: &[u8],
) -> Result<FoundResult, Unfound>
    requires { SignatureIsPlaced sig }
    ensures found { IfOk result (λ f. IsFoundBy A.standard sig (image_in registers.now stack.now) f) }
    ensures unfound { IfErr result (λ u. IsNotFoundBy A.standard sig (image_in registers.now stack.now) u) }
{
    let Ok(placed) = Placed::<A>::prepare(alloc, sig) else {
        return Err(Unfound::Call(Refusal::NoMemory));
    };
    match read_result(alloc, &placed, registers, stack) {
        Ok(bytes) => Ok(FoundResult {
            told: told(bytes.len(), 0, fault_with(FaultKind::NoFault)),
            bytes,
        }),
        Err(unfound) => Err(unfound),
    }
}

/// The result of a signature that can be placed, from registers and stack.
#[derive(Drop)]
struct FindResult<'a> {
    alloc: Global,
    sig: Sig,
    registers: &'a Registers,
    stack: &'a [u8],
    ghost placed: { SignatureIsPlaced sig },
}

impl<'a> ByStandard for FindResult<'a> {
    ghost use Rattle.std.specs.Prelude.{IfOk, IfErr};
    ghost use Rattle.ffi3_transfer.specs.Stored.{image_in};
    ghost use Rattle.ffi3_capi.specs.Returned.{IsFoundBy, IsNotFoundBy};

    type Answer = Result<FoundResult, Unfound>;

    ghost answers = { λ task std r.
        IfOk r (λ f. IsFoundBy std task.sig (image_in task.registers.now task.stack.now) f)
        × IfErr r (λ u. IsNotFoundBy std task.sig (image_in task.registers.now task.stack.now) u) };

    fn by<A: Abi>(self) -> Result<FoundResult, Unfound> {
        find_by::<A>(self.alloc, self.sig, self.registers, self.stack)
    }
}

/// The result of the function that is declared, as registers and stack have it where it has returned, by the calling
/// standard with this number alone: in its registers, or where the address points that is given back, if that is in the
/// stack's bytes, which begin at the stack pointer.
pub fn find_result(
    alloc: Global,
    target: u32,
    declaration: Declaration<'_>,
    registers: &Registers,
    stack: &[u8],
) -> Result<FoundResult, Unfound>
    ensures found { IfOk result (λ f. IsFound (IsDeclaredOn target declaration.entry) target (image_in registers.now stack.now) f) }
    ensures unfound { IfErr result (λ u. IsNotFound (IsDeclaredOn target declaration.entry) (IsFaultOn target declaration.entry) target (image_in registers.now stack.now) u) }
{
    let Some(to) = target_numbered(target) else {
        return Err(Unfound::Call(Refusal::NoSuchTarget));
    };
    let sig = match declared_on(alloc, target, declaration) {
        Ok(sig) => sig,
        Err(Some(fault)) => return Err(Unfound::Call(Refusal::Fault(fault))),
        Err(None) => return Err(Unfound::Call(Refusal::NoMemory)),
    };
    let task = FindResult {
        alloc,
        sig,
        registers,
        stack,
    };
    match on_target(to, task) {
        Ok(found) => Ok(found),
        Err(unfound) => Err(unfound),
    }
}

/// The same for a caller's struct and array of bytes. The number tells whether the result had room, or why there is
/// none.
pub fn tell_result(
    alloc: Global,
    target: u32,
    declaration: Declaration<'_>,
    registers: &Registers,
    stack: &[u8],
    told: &mut ReturnedResult,
    value: &mut [u8],
) -> u32
    ensures { ReadsResult (IsDeclaredOn target declaration.entry) (IsFaultOn target declaration.entry) target (image_in registers.now stack.now) value.old result told.new value.new }
{
    match find_result(alloc, target, declaration, registers, stack) {
        Ok(found) => {
            *told = found.told;
            room_status(fill_bytes(found.bytes.as_slice(), value))
        }
        Err(unfound) => {
            *told = unfound.told();
            unfound.status()
        }
    }
}
