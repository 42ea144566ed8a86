//! A call of the function that is declared.
ghost use Rattle.std.specs.Prelude.{◌≡◌, IfOk, IfErr, slice_get};
ghost use Rattle.ffi3_type_spec.specs.TargetIsa.{isa_of};
ghost use Rattle.ffi3_capi.specs.DeclaredBy.{IsDeclaredOn, IsFaultOn};
ghost use Rattle.ffi3_capi.specs.Placed.{targets, no_call, placement_of, IsPlacement, IsPlaceRefusal, Places};

use crate::declaration::{Declaration, declared_on};
use crate::fault::{FaultKind, TextFault, fault_with};
use crate::fill::{fill, room_status};
use crate::pieces::{PlacedPiece, PlacedPieces, put_arguments, put_hidden, put_returned};
use crate::status::Refusal;
use ffi3_place::Abi;
use ffi3_standards::{ByStandard, on_target};
use ffi3_type_spec::Isa;
use ffi3_types::{NoMemory, PlacedSig, Target};
use std::alloc::Global;

/// The bytes of stack that a call takes, and how many pieces tell where everything stands: C's `struct ffi3_call`.
#[repr(C)]
#[derive(Clone, Copy)]
pub struct PlacedCall {
    /// All the stack that a call takes.
    pub need: usize,
    /// Stack arguments, copies and a hidden result's buffer.
    pub frame: usize,
    /// The callee's copy of its arguments.
    pub block: usize,
    /// How many vector registers the arguments use, where the standard tells it at a call.
    pub vectors: usize,
    pub arguments: usize,
    /// How many pieces there are.
    pub pieces: usize,
    /// How many of them, the first, are what the caller passes.
    pub passed: usize,
    pub fault: TextFault,
}

/// Where everything stands in a call.
#[derive(Drop)]
pub struct Placement {
    pub call: PlacedCall,
    pub pieces: PlacedPieces,
}

const TARGETS: [Target; 5] = [
    Target::Amd64,
    Target::Aapcs64,
    Target::Riscv,
    Target::Win64,
    Target::Apple,
];

/// The target of this number.
pub fn target_numbered(n: u32) -> Option<Target>
    ensures { result ≡ slice_get targets n }
{
    TARGETS.get(n as usize).copied()
}

/// No call, and why.
fn no_call(fault: TextFault) -> PlacedCall
    ensures { result ≡ no_call fault }
{
    PlacedCall {
        need: 0,
        frame: 0,
        block: 0,
        vectors: 0,
        arguments: 0,
        pieces: 0,
        passed: 0,
        fault,
    }
}

/// The instruction set of the machine that a calling standard is for.
fn isa_by<A: Abi>() -> Isa
    ensures { result ≡ isa_of A.standard.target }
{
    A::TARGET.isa()
}

/// Where everything stands by a calling standard.
fn placed<A: Abi>(alloc: Global, sig: &PlacedSig<'_>) -> Result<Placement, NoMemory>
    ensures { IfOk result (λ p. p ≡ placement_of A.standard sig.now) }
{
    let count = sig.count();
    let isa = isa_by::<A>();
    let plan = A::plan(alloc, sig.as_sig())?;
    let mut pieces = PlacedPieces::new(alloc);
    put_arguments(isa, &plan.places, &mut pieces)?;
    put_hidden(&plan.res, &mut pieces)?;
    let passed = pieces.len();
    put_returned(isa, A::returned_address(), &plan.res, &mut pieces)?;
    let call = PlacedCall {
        need: plan.need as usize,
        frame: plan.frame as usize,
        block: plan.block as usize,
        vectors: plan.vectors as usize,
        arguments: count as usize,
        pieces: pieces.len(),
        passed,
        fault: fault_with(FaultKind::NoFault),
    };
    Ok(Placement { call, pieces })
}

/// Where everything stands in a call of this signature.
#[derive(Drop)]
struct PlaceAll<'a> {
    alloc: Global,
    sig: PlacedSig<'a>,
}

impl<'a> ByStandard for PlaceAll<'a> {
    type Answer = Result<Placement, NoMemory>;

    ghost answers = { λ task std r. IfOk r (λ p. p ≡ placement_of std task.sig) };

    fn by<A: Abi>(self) -> Result<Placement, NoMemory> {
        placed::<A>(self.alloc, &self.sig)
    }
}

/// Where everything stands in a call of the function that is declared, by the calling standard with this number.
pub fn find_placement(
    alloc: Global,
    target: u32,
    declaration: Declaration<'_>,
) -> Result<Placement, Refusal>
    ensures ok { IfOk result (λ p. IsPlacement (IsDeclaredOn target declaration.entry) target p) }
    ensures err { IfErr result (λ r. IsPlaceRefusal (IsFaultOn target declaration.entry) target r) }
{
    let Some(to) = target_numbered(target) else {
        return Err(Refusal::NoSuchTarget);
    };
    let sig = match declared_on(alloc, target, declaration) {
        Ok(sig) => sig,
        Err(Some(fault)) => return Err(Refusal::Fault(fault)),
        Err(None) => return Err(Refusal::NoMemory),
    };
    let task = PlaceAll {
        alloc,
        sig: PlacedSig::of(&sig),
    };
    match on_target(to, task) {
        Ok(found) => Ok(found),
        Err(_) => Err(Refusal::NoMemory),
    }
}

/// The same for a caller's struct and array. The number tells whether the pieces had room, or why there are none.
pub fn place(
    alloc: Global,
    target: u32,
    declaration: Declaration<'_>,
    call: &mut PlacedCall,
    pieces: &mut [PlacedPiece],
) -> u32
    ensures { Places (IsDeclaredOn target declaration.entry) (IsFaultOn target declaration.entry) target pieces.old result call.new pieces.new }
{
    match find_placement(alloc, target, declaration) {
        Ok(found) => {
            *call = found.call;
            room_status(fill(&found.pieces, pieces))
        }
        Err(refusal) => {
            *call = no_call(refusal.fault());
            refusal.status()
        }
    }
}
