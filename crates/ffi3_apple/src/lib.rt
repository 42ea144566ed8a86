//! Apple's calling standard of AArch64: AAPCS64 but for the stack, variadic arguments and types of alignment 16.
#![tactic(auto)]

ghost use Rattle.std.specs.Prelude.{◌≡◌, ◌<◌, ◌≤◌, ◌+◌, ◌-◌, ◌*◌, ◌&&◌, ◌||◌, length, map, min, not, Bool, IfOk};
ghost use Rattle.ffi3_type_spec.specs.declared.limits.TheConstants.{ARGUMENT_BYTES, ARGUMENT_SPAN, LARGEST_GAP, LARGEST_TYPE, MOST_ARGUMENTS};
ghost use Rattle.ffi3_place_spec.specs.declared.Loc.TheVariants.{S};
ghost use Rattle.ffi3_place_spec.specs.Standard.{plan_of};
ghost use Rattle.ffi3_aapcs64_spec.specs.Aapcs64.{is_composite, untouched};
ghost use Rattle.ffi3_apple_spec.specs.Apple.{apple, is_named, is_packed, stack_start, stack_size, packed_pieces, stack_spot, register_start, register_end, in_registers, stack_end, taken_with, taken_after, spot_after, spots_after};
ghost use Rattle.ffi3_place.specs.WithoutCopy.{without_copy};

pub mod laws;

use ffi3_aapcs64::{
    Aapcs64, Classed, place_result, register_place, stack_place as rounded_place,
    stack_size as rounded_size,
};
use ffi3_place::ends::{buffer_end, lay_copies, planned};
use ffi3_place::parts::doubleword;
use ffi3_place::{Abi, Ext, Loc, Pieces, Place, Places, Plan, SaveWord};
use ffi3_place_spec::Taken;
use ffi3_type_spec::round_up;
use ffi3_types::{CheckedType, FfiType, NoMemory, PlacedSig, Sig, Target};
pub use laws::placement_laws;
use std::alloc::Global;

// ---- the stack

/// Whether the type is a struct or an array.
fn is_composite(ty: &CheckedType<'_>) -> bool
    ensures { result ≡ is_composite ty.now }
{
    matches!(ty.as_type(), FfiType::Struct(_) | FfiType::Array(_, _))
}

/// Whether an argument of such a kind takes no more of the stack than its own bytes.
fn is_packed_of(named: bool, in_vectors: bool, composite: bool) -> bool
    ensures { result ≡ (named && (in_vectors || not composite)) }
{
    named && (in_vectors || !composite)
}

/// Whether an argument takes no more of the stack than its own bytes.
fn is_packed(named: bool, classed: &Classed<'_>) -> bool
    ensures { result ≡ is_packed named classed.now }
{
    is_packed_of(named, classed.in_vectors(), is_composite(classed.ty()))
}

/// Where an argument begins on the stack, where what stands before it ends.
fn stack_start(named: bool, end: u64, classed: &Classed<'_>) -> u64
    requires { end ≤ ARGUMENT_BYTES }
    ensures value { result ≡ stack_start named end classed.now }
    ensures near { result ≤ end + LARGEST_GAP }
{
    if is_packed(named, classed) {
        round_up(end, classed.align())
    } else {
        round_up(end, 8_u64.max(classed.passed_align()))
    }
}

/// The stack that an argument takes where it is not in registers.
fn stack_size(named: bool, classed: &Classed<'_>) -> u64
    ensures value { result ≡ stack_size named classed.now }
    ensures small { result ≤ LARGEST_TYPE + 7 }
{
    if is_packed(named, classed) {
        classed.size()
    } else {
        rounded_size(classed)
    }
}

// ---- what an argument takes

/// The first register of an argument, by its kind.
fn register_start(before: Taken, classed: &Classed<'_>) -> u64
    ensures value { result ≡ register_start before classed.now }
{
    if classed.in_vectors() {
        before.vector
    } else {
        before.general
    }
}

/// Where the registers of an argument end.
fn register_end(before: Taken, classed: &Classed<'_>) -> u64
    requires few_general { before.general ≤ 5 * MOST_ARGUMENTS }
    requires few_vector { before.vector ≤ 5 * MOST_ARGUMENTS }
    ensures value { result ≡ register_end before classed.now }
{
    register_start(before, classed) + classed.registers()
}

/// Whether an argument is named and the registers that are left suffice for all of it.
fn in_registers(named: bool, before: Taken, classed: &Classed<'_>) -> bool
    requires few_general { before.general ≤ 5 * MOST_ARGUMENTS }
    requires few_vector { before.vector ≤ 5 * MOST_ARGUMENTS }
    ensures value { result ≡ in_registers named before classed.now }
{
    named && register_end(before, classed) <= 8
}

/// Where an argument that is not in registers ends on the stack.
fn stack_end(named: bool, before: Taken, classed: &Classed<'_>) -> u64
    requires { before.stack ≤ ARGUMENT_BYTES }
    ensures value { result ≡ stack_end named before classed.now }
    ensures low { result ≤ before.stack + ARGUMENT_SPAN }
{
    stack_start(named, before.stack, classed) + stack_size(named, classed)
}

/// The general registers that are taken after an argument.
fn general_taken(before: Taken, classed: &Classed<'_>) -> u64
    requires few_general { before.general ≤ 5 * MOST_ARGUMENTS }
    requires few_vector { before.vector ≤ 5 * MOST_ARGUMENTS }
    ensures value { (named : Bool) → result ≡ (taken_with named before classed.now).general }
    ensures few { result ≤ before.general + 5 }
{
    if classed.in_vectors() {
        before.general
    } else {
        before.general + classed.registers()
    }
}

/// The SIMD and floating-point registers that are taken after an argument.
fn vector_taken(before: Taken, classed: &Classed<'_>) -> u64
    requires few_general { before.general ≤ 5 * MOST_ARGUMENTS }
    requires few_vector { before.vector ≤ 5 * MOST_ARGUMENTS }
    ensures value { (named : Bool) → result ≡ (taken_with named before classed.now).vector }
    ensures few { result ≤ before.vector + 5 }
{
    if classed.in_vectors() {
        before.vector + classed.registers()
    } else {
        before.vector
    }
}

/// The bytes of stack that are taken after an argument.
fn stack_taken(named: bool, before: Taken, classed: &Classed<'_>) -> u64
    requires few_general { before.general ≤ 5 * MOST_ARGUMENTS }
    requires few_vector { before.vector ≤ 5 * MOST_ARGUMENTS }
    requires low { before.stack ≤ ARGUMENT_BYTES }
    ensures value { result ≡ (taken_with named before classed.now).stack }
    ensures low { result ≤ before.stack + ARGUMENT_SPAN }
{
    if in_registers(named, before, classed) {
        before.stack
    } else {
        stack_end(named, before, classed)
    }
}

/// What is taken after an argument.
fn taken_with(named: bool, before: Taken, classed: &Classed<'_>) -> Taken
    requires few_general { before.general ≤ 5 * MOST_ARGUMENTS }
    requires few_vector { before.vector ≤ 5 * MOST_ARGUMENTS }
    requires low { before.stack ≤ ARGUMENT_BYTES }
    ensures value { result ≡ taken_with named before classed.now }
    ensures few_general { result.general ≤ before.general + 5 }
    ensures few_vector { result.vector ≤ before.vector + 5 }
    ensures low { result.stack ≤ before.stack + ARGUMENT_SPAN }
{
    Taken {
        general: general_taken(before, classed),
        vector: vector_taken(before, classed),
        stack: stack_taken(named, before, classed),
    }
}

const UNTOUCHED: Taken = Taken {
    general: 0,
    vector: 0,
    stack: 0,
};

// ---- arguments

/// The place of doubleword `j` of a value of so many bytes that is packed on the stack: what is left of the value, and
/// eight bytes at most.
fn packed_place(size: u64, j: u64, first: u64) -> Loc
    requires small { size ≤ LARGEST_TYPE }
    requires within { 8 * j < size }
    requires low { first ≤ 2 * ARGUMENT_BYTES }
    ensures { result ≡ S (first + 8 * j) (min 8 (size - 8 * j)) }
{
    let left = size - 8 * j;
    Loc::S(
        (first + 8 * j) as u32,
        if left < 8 { left as u8 } else { 8 },
    )
}

/// A value packed on the stack, from byte `first` on.
fn packed_pieces(alloc: Global, classed: &Classed<'_>, first: u64) -> Result<Pieces, NoMemory>
    requires { first ≤ 2 * ARGUMENT_BYTES }
    ensures { IfOk result (λ p. p ≡ packed_pieces first classed.now) }
{
    let size = classed.size();
    let mut pieces = Pieces::new(alloc);
    for j in 0..classed.doublewords() {
        let place = packed_place(size, j, first);
        pieces.push(doubleword(size, j, place, Ext::Free))?;
    }
    Ok(pieces)
}

/// An argument, or the pointer to its copy, on the stack from byte `first` on.
fn stack_place(
    alloc: Global,
    named: bool,
    classed: &Classed<'_>,
    first: u64,
) -> Result<Place, NoMemory>
    requires { first ≤ 2 * ARGUMENT_BYTES }
    ensures { IfOk result (λ p. p ≡ without_copy (stack_spot named first classed.now)) }
{
    if is_packed(named, classed) {
        return Ok(Place::Direct(packed_pieces(alloc, classed, first)?));
    }
    rounded_place(alloc, classed, first)
}

/// Where an argument stands, behind what those before it take. If it is copied, its copy has no place yet.
fn place_of(
    alloc: Global,
    named: bool,
    before: Taken,
    classed: &Classed<'_>,
) -> Result<Place, NoMemory>
    requires few_general { before.general ≤ 5 * MOST_ARGUMENTS }
    requires few_vector { before.vector ≤ 5 * MOST_ARGUMENTS }
    requires low { before.stack ≤ ARGUMENT_BYTES }
    ensures { IfOk result (λ p. p ≡ without_copy (spot_after named before classed.now)) }
{
    if in_registers(named, before, classed) {
        register_place(alloc, classed, register_start(before, classed))
    } else {
        stack_place(
            alloc,
            named,
            classed,
            stack_start(named, before.stack, classed),
        )
    }
}

/// Where the next argument stands. What it takes is added to what is taken.
fn place_next(
    alloc: Global,
    named: bool,
    taken: &mut Taken,
    ty: CheckedType<'_>,
) -> Result<Place, NoMemory>
    requires few_general { taken.old.general ≤ 5 * MOST_ARGUMENTS }
    requires few_vector { taken.old.vector ≤ 5 * MOST_ARGUMENTS }
    requires low { taken.old.stack ≤ ARGUMENT_BYTES }
    ensures place { IfOk result (λ p. p ≡ without_copy (spot_after named taken.old ty.entry)) }
    ensures value { taken.new ≡ taken_with named taken.old ty.entry }
    ensures few_general { taken.new.general ≤ taken.old.general + 5 }
    ensures few_vector { taken.new.vector ≤ taken.old.vector + 5 }
    ensures low { taken.new.stack ≤ taken.old.stack + ARGUMENT_SPAN }
{
    let classed = Classed::of(ty);
    let place = place_of(alloc, named, *taken, &classed);
    *taken = taken_with(named, *taken, &classed);
    place
}

/// Whether argument `i` is a named one, and no variadic one.
fn is_named(sig: &PlacedSig<'_>, i: u32) -> bool
    ensures { result ≡ is_named sig.now.fixed i }
{
    match sig.fixed() {
        None => true,
        Some(fixed) => i < fixed,
    }
}

/// The places of all arguments, in which copies have no place yet, and what they take.
#[derive(Drop)]
struct Placed {
    places: Places,
    taken: Taken,
}

/// The places of all arguments; copies have no place yet.
fn place_all(alloc: Global, sig: &PlacedSig<'_>) -> Result<Placed, NoMemory>
    ensures places { IfOk result (λ p. p.places ≡ map without_copy (spots_after sig.now.fixed untouched 0 sig.now.arguments)) }
    ensures taken { IfOk result (λ p. p.taken ≡ taken_after sig.now.fixed untouched 0 sig.now.arguments) }
    ensures low { IfOk result (λ p. p.taken.stack ≤ MOST_ARGUMENTS * ARGUMENT_SPAN) }
{
    let mut taken = UNTOUCHED;
    let mut places = Places::with_capacity(alloc, sig.count() as usize)?;
    for i in 0..sig.count() {
        let named = is_named(sig, i);
        places.push(place_next(alloc, named, &mut taken, sig.arg(i))?)?;
    }
    Ok(Placed { places, taken })
}

// ---- the standard

/// Apple's calling standard of AArch64. ("Writing ARM64 code for Apple platforms")
pub struct Apple;

/// Where everything stands in a call.
fn plan_of(alloc: Global, sig: &PlacedSig<'_>) -> Result<Plan, NoMemory>
    ensures { IfOk result (λ p. p ≡ plan_of apple sig.now) }
{
    let Placed { mut places, taken } = place_all(alloc, sig)?;
    let copies_start = round_up(taken.stack, 16);
    let copies_end = lay_copies(&mut places, sig, copies_start);
    let res = place_result(alloc, sig, copies_end)?;
    let end = buffer_end(&res, &sig.ret(), copies_end);
    let area = Apple::LINK + Apple::SAVE;
    Ok(planned(sig, places, res, end, area, 0))
}

// Registers have their roles of AAPCS64.
impl Abi for Apple {
    ghost use Rattle.ffi3_apple_spec.specs.Apple.{apple};

    ghost standard = { apple };

    ghost SAVE = { apple.save };

    ghost LINK = { apple.link };

    ghost TARGET = { apple.target };

    ghost KEPT = { length apple.callee_saved };

    ghost ARGUMENT_REGISTERS = { length apple.argument_registers };

    const SAVE: u64 = Aapcs64::SAVE;

    const LINK: u64 = Aapcs64::LINK;

    const TARGET: Target = Target::Apple;

    const KEPT: u8 = Aapcs64::KEPT;

    const ARGUMENT_REGISTERS: u8 = Aapcs64::ARGUMENT_REGISTERS;

    fn callee_saved(k: u8) -> Loc {
        Aapcs64::callee_saved(k)
    }

    fn argument_register(k: u8) -> Loc {
        Aapcs64::argument_register(k)
    }

    fn saved_word(k: u8) -> SaveWord {
        Aapcs64::saved_word(k)
    }

    fn vector_count() -> Option<Loc> {
        None
    }

    fn returned_address() -> Option<Loc> {
        None
    }

    fn plan(alloc: Global, sig: &Sig) -> Result<Plan, NoMemory> {
        plan_of(alloc, &PlacedSig::of(sig))
    }

    ghost use Rattle.std.specs.Prelude.{refl};
    ghost use Rattle.std.proofs.lemmas.Bool.{ltb-true};
    ghost use Rattle.ffi3_apple_spec.proofs.Agrees.{agrees as agrees_with_machine};
    ghost use Rattle.ffi3_apple_spec.proofs.Alike.{goes_by_layout};
    ghost use Rattle.ffi3_apple_spec.proofs.ByStubs.{by_stubs as with_stubs, result_by_stubs as result_with_stubs};
    ghost use Rattle.ffi3_apple_spec.proofs.Sound.{sound as every_law, determines};

    ghost save_is = { refl };

    ghost link_is = { refl };

    ghost target_is = { refl };

    ghost kept_all = { refl };

    ghost argument_registers_all = { refl };

    ghost words_few = { ltb-true (length apple.save_area) 256 refl };

    ghost agrees = { agrees_with_machine };

    ghost by_stubs = { λ _. with_stubs };

    ghost result_by_stubs = { λ s plain _. result_with_stubs s plain };

    ghost sound = { every_law };

    ghost determined = { determines };

    ghost by_layout = { goes_by_layout };
}
