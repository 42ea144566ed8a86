//! The Arm AAPCS64 calling standard.
#![tactic(auto)]

ghost use Rattle.std.specs.Prelude.{◌≡◌, ◌<◌, ◌≤◌, ◌+◌, ◌*◌, ◌++◌, length, map, IfOk, OnOk, true, false};
ghost use Rattle.std.specs.List.{list_all};
ghost use Rattle.ffi3_type_spec.specs.declared.limits.TheConstants.{ARGUMENT_BYTES, ARGUMENT_SPAN, LARGEST_GAP, LARGEST_TYPE, MOST_ARGUMENTS};
ghost use Rattle.ffi3_type_spec.specs.Tree.{struct_of};
ghost use Rattle.ffi3_type_spec.specs.Layout.{size_of, align_of, leaves_of, leaf_at};
ghost use Rattle.ffi3_type_spec.specs.Fault.{IsLaidOut};
ghost use Rattle.ffi3_types.specs.TreeOf.{tree_of};
ghost use Rattle.ffi3_place_spec.specs.Standard.{Spot, plan_of, result_at};
ghost use Rattle.ffi3_place_spec.specs.Doublewords.{doublewords};
ghost use Rattle.ffi3_aapcs64_spec.specs.Aapcs64.{aapcs64, is_of, member_in, is_member, homogeneous, in_vectors, is_copied, passed, registers_needed, stack_size, first_general, stack_start, member_pieces, general_pieces, register_pieces, register_spot, stack_spot, register_start, register_end, in_registers, stack_end, taken_with, taken_after, untouched, spot_after, spots_after, result_from, result_spot_of};
ghost use Rattle.ffi3_aapcs64_spec.specs.declared.Kind.TheVariants.{Quad};
ghost use Rattle.ffi3_place.specs.WithoutCopy.{without_copy};

pub mod laws;

pub use ffi3_aapcs64_spec::Kind;
use ffi3_place::ends::{buffer_end, lay_copies, planned, start};
use ffi3_place::parts::{doubleword, leaf_piece, part_of_leaf, stack_pieces, widening};
use ffi3_place::{Abi, Ext, Loc, Pieces, Place, Places, Plan, Res, SaveWord};
use ffi3_place_spec::Taken;
use ffi3_type_spec::round_up;
use ffi3_types::{CheckedType, FfiType, Fields, NoMemory, PlacedSig, Sig, Target};
pub use laws::placement_laws;
use std::alloc::Global;
use std::marker::Model;

// ---- homogeneous aggregates

/// Whether every leaf is of the kind. Of an array's elements, which are alike, one is looked at.
#[cycle(has_only)]
fn has_only(ty: &FfiType, kind: Kind) -> bool
    requires { IsLaidOut (tree_of ty.now) }
    ensures { result ≡ list_all (is_member kind) (leaves_of (tree_of ty.now)) }
{
    match ty {
        FfiType::Float => matches!(kind, Kind::Float),
        FfiType::Double => matches!(kind, Kind::Double),
        FfiType::Binary128 => matches!(kind, Kind::Quad),
        FfiType::Struct(fields) => have_only(fields, kind),
        FfiType::Array(fields, _count) => has_only(fields.get(0), kind),
        FfiType::Void | FfiType::LongDouble | FfiType::Complex | FfiType::Vector => true,
        FfiType::U8
        | FfiType::S8
        | FfiType::U16
        | FfiType::S16
        | FfiType::U32
        | FfiType::S32
        | FfiType::U64
        | FfiType::S64
        | FfiType::U128
        | FfiType::S128
        | FfiType::Pointer
        | FfiType::X87 => false,
    }
}

/// Whether every leaf of a struct with these elements is of the kind.
#[cycle(has_only)]
fn have_only(fields: &Fields, kind: Kind) -> bool
    requires { IsLaidOut (struct_of fields.now) }
    ensures { result ≡ list_all (is_member kind) (leaves_of (struct_of fields.now)) }
{
    for i in 0..fields.len() {
        if !has_only(fields.get(i), kind) {
            return false;
        }
    }
    true
}

/// `homogeneous`, of a type that is known to have a layout.
fn homogeneous_of(ty: &CheckedType<'_>) -> Option<(Kind, u8)>
    ensures { result ≡ homogeneous ty.now }
{
    let plain = ty.as_type();
    let FfiType::Struct(_) = plain else {
        return None;
    };
    let kind = if has_only(plain, Kind::Float) {
        Kind::Float
    } else if has_only(plain, Kind::Double) {
        Kind::Double
    } else if has_only(plain, Kind::Quad) {
        Kind::Quad
    } else {
        return None;
    };
    let count = ty.leaf_count();
    if count == 0 || count > 4 {
        return None;
    }
    Some((kind, count as u8))
}

/// The type and the number of the members of a homogeneous floating-point aggregate: a struct of one to four leaves, all of single, of double or of quad precision, with nested structs and arrays flattened. None where the type is no such. (AAPCS64, "Homogeneous Aggregates")
pub fn homogeneous(ty: &FfiType) -> Option<(Kind, u8)>
    requires { IsLaidOut (tree_of ty.now) }
    ensures { result ≡ homogeneous (tree_of ty.now) }
{
    homogeneous_of(&CheckedType::of(ty))
}

// ---- what is passed, and what it needs

/// Whether a value takes SIMD and floating-point registers.
fn in_vectors(ty: &CheckedType<'_>) -> bool
    ensures { result ≡ in_vectors ty.now }
{
    match ty.as_type() {
        FfiType::Float | FfiType::Double | FfiType::Binary128 => true,
        FfiType::Struct(_) => homogeneous_of(ty).is_some(),
        FfiType::Void
        | FfiType::U8
        | FfiType::S8
        | FfiType::U16
        | FfiType::S16
        | FfiType::U32
        | FfiType::S32
        | FfiType::U64
        | FfiType::S64
        | FfiType::U128
        | FfiType::S128
        | FfiType::Pointer
        | FfiType::Array(_, _)
        | FfiType::LongDouble
        | FfiType::Complex
        | FfiType::Vector
        | FfiType::X87 => false,
    }
}

/// Whether the caller copies a value of this size and passes a pointer to the copy.
fn is_copied(ty: &CheckedType<'_>, vectors: bool, size: u64) -> bool
    requires vectors { vectors ≡ in_vectors ty.now }
    requires sized { size ≡ size_of ty.now }
    ensures { result ≡ is_copied ty.now }
{
    matches!(ty.as_type(), FfiType::Struct(_) | FfiType::Array(_, _)) && !vectors && size > 16
}

/// How many registers of its kind a value of this size needs. (AAPCS64 C.1, C.2, C.9, C.12)
fn registers_needed(ty: &CheckedType<'_>, vectors: bool, copied: bool, size: u64) -> u64
    requires vectors { vectors ≡ in_vectors ty.now }
    requires copied { copied ≡ is_copied ty.now }
    requires sized { size ≡ size_of ty.now }
    requires small { size ≤ LARGEST_TYPE }
    ensures { result ≡ registers_needed ty.now }
{
    if vectors {
        return ty.leaf_count() as u64;
    }
    if copied {
        return 1;
    }
    (size + 7) / 8
}

/// The type of an argument or a result, with what placing asks of it again and again.
#[derive(Drop)]
pub struct Classed<'a> {
    ty: CheckedType<'a>,
    size: u64,
    align: u64,
    vectors: bool,
    copied: bool,
    registers: u64,
}

impl<'a> Model for Classed<'a> {
    ghost use Rattle.std.specs.Prelude.{◌≡◌, ◌≤◌};
    ghost use Rattle.ffi3_type_spec.specs.declared.limits.TheConstants.{LARGEST_TYPE};
    ghost use Rattle.ffi3_type_spec.specs.Tree.{Tree, tree_code};
    ghost use Rattle.ffi3_type_spec.specs.Layout.{size_of, align_of};
    ghost use Rattle.ffi3_aapcs64_spec.specs.Aapcs64.{in_vectors, is_copied, registers_needed};

    ghost Value = { Tree };

    ghost coded = { tree_code };

    ghost view = { λ v. v.ty };

    ghost invariant = { λ v. record {
      sized : v.size ≡ size_of v.ty;
      small : v.size ≤ LARGEST_TYPE;
      aligned : v.align ≡ align_of v.ty;
      by_vectors : v.vectors ≡ in_vectors v.ty;
      by_copy : v.copied ≡ is_copied v.ty;
      needed : v.registers ≡ registers_needed v.ty;
    } };
}

impl<'a> Classed<'a> {
    /// A value of this type.
    pub fn of(ty: CheckedType<'a>) -> Classed<'a>
        ensures { result ≡ ty.entry }
    {
        let extent = ty.as_type().extent();
        let vectors = in_vectors(&ty);
        let copied = is_copied(&ty, vectors, extent.size);
        let registers = registers_needed(&ty, vectors, copied, extent.size);
        Classed {
            ty,
            size: extent.size,
            align: extent.align,
            vectors,
            copied,
            registers,
        }
    }

    /// Its type.
    pub fn ty(&self) -> &CheckedType<'a>
        ensures { result.now ≡ self.now }
    {
        &self.ty
    }

    /// Its size in bytes.
    pub fn size(&self) -> u64
        ensures value { result ≡ size_of self.now }
        ensures small { result ≤ LARGEST_TYPE }
    {
        self.size
    }

    /// Its alignment in bytes.
    pub fn align(&self) -> u64
        ensures value { result ≡ align_of self.now }
        ensures positive { 0 < result }
        ensures small { result ≤ 16 }
    {
        self.align
    }

    /// How many doublewords it takes. The last has what is left where the size is no multiple of 8.
    pub fn doublewords(&self) -> u64
        ensures value { result ≡ doublewords self.now }
        ensures few { 8 * result ≤ LARGEST_TYPE + 7 }
    {
        (self.size + 7) / 8
    }

    /// Whether it takes SIMD and floating-point registers.
    pub fn in_vectors(&self) -> bool
        ensures { result ≡ in_vectors self.now }
    {
        self.vectors
    }

    /// Whether the caller copies it and passes a pointer to the copy.
    pub fn is_copied(&self) -> bool
        ensures { result ≡ is_copied self.now }
    {
        self.copied
    }

    /// How many registers of its kind it needs.
    pub fn registers(&self) -> u64
        ensures value { result ≡ registers_needed self.now }
        ensures few { result ≤ 4 }
    {
        self.registers
    }

    /// The size of what is passed: the value, or the pointer to its copy.
    fn passed_size(&self) -> u64
        ensures value { result ≡ size_of (passed self.now) }
        ensures small { result ≤ LARGEST_TYPE }
    {
        if self.copied { 8 } else { self.size }
    }

    /// The alignment of what is passed: the value, or the pointer to its copy.
    pub fn passed_align(&self) -> u64
        ensures value { result ≡ align_of (passed self.now) }
        ensures small { result ≤ 16 }
    {
        if self.copied { 8 } else { self.align }
    }
}

/// The registers that an argument needs: whether they are SIMD and floating-point registers, and how many. (AAPCS64 C.1, C.2, C.9, C.12)
pub fn need_of(ty: &FfiType) -> (bool, u8)
    requires { IsLaidOut (tree_of ty.now) }
    ensures { result ≡ (in_vectors (tree_of ty.now), registers_needed (tree_of ty.now)) }
{
    let classed = Classed::of(CheckedType::of(ty));
    (classed.in_vectors(), classed.registers() as u8)
}

/// The stack that an argument takes where it is not in registers.
pub fn stack_size(classed: &Classed<'_>) -> u64
    ensures value { result ≡ stack_size classed.now }
    ensures small { result ≤ LARGEST_TYPE + 7 }
{
    round_up(classed.passed_size(), 8)
}

// ---- where one thing begins after another

/// The first general register of an argument, where those before it end. (AAPCS64 C.10)
fn first_general(end: u64, classed: &Classed<'_>) -> u64
    requires { end ≤ 5 * MOST_ARGUMENTS }
    ensures value { result ≡ first_general end (passed classed.now) }
    ensures near { result ≤ end + 1 }
{
    if 16 <= classed.passed_align() {
        round_up(end, 2)
    } else {
        end
    }
}

/// The first byte of an argument on the stack, where what stands before it ends. (AAPCS64 C.4, C.14)
fn stack_start(end: u64, classed: &Classed<'_>) -> u64
    requires { end ≤ ARGUMENT_BYTES }
    ensures value { result ≡ stack_start end (passed classed.now) }
    ensures near { result ≤ end + LARGEST_GAP }
{
    round_up(end, 8_u64.max(classed.passed_align()))
}

// ---- what an argument takes

/// The first register of an argument, by its kind.
fn register_start(before: Taken, classed: &Classed<'_>) -> u64
    requires { before.general ≤ 5 * MOST_ARGUMENTS }
    ensures value { result ≡ register_start before classed.now }
    ensures vector { in_vectors classed.now ≡ true → result ≡ before.vector }
    ensures general { in_vectors classed.now ≡ false → result ≤ before.general + 1 }
{
    if classed.in_vectors() {
        before.vector
    } else {
        first_general(before.general, classed)
    }
}

/// Where the registers of an argument end. Each argument takes at most five with the gap before it.
fn register_end(before: Taken, classed: &Classed<'_>) -> u64
    requires few_general { before.general ≤ 5 * MOST_ARGUMENTS }
    requires few_vector { before.vector ≤ 5 * MOST_ARGUMENTS }
    ensures value { result ≡ register_end before classed.now }
    ensures vector { in_vectors classed.now ≡ true → result ≤ before.vector + 5 }
    ensures general { in_vectors classed.now ≡ false → result ≤ before.general + 5 }
{
    register_start(before, classed) + classed.registers()
}

/// Whether the registers that are left suffice for the whole argument.
fn in_registers(before: Taken, classed: &Classed<'_>) -> bool
    requires few_general { before.general ≤ 5 * MOST_ARGUMENTS }
    requires few_vector { before.vector ≤ 5 * MOST_ARGUMENTS }
    ensures value { result ≡ in_registers before classed.now }
{
    register_end(before, classed) <= 8
}

/// Where an argument that is not in registers ends on the stack.
fn stack_end(before: Taken, classed: &Classed<'_>) -> u64
    requires { before.stack ≤ ARGUMENT_BYTES }
    ensures value { result ≡ stack_end before classed.now }
    ensures low { result ≤ before.stack + ARGUMENT_SPAN }
{
    stack_start(before.stack, classed) + stack_size(classed)
}

/// The general registers that are taken after an argument.
fn general_taken(before: Taken, classed: &Classed<'_>) -> u64
    requires few_general { before.general ≤ 5 * MOST_ARGUMENTS }
    requires few_vector { before.vector ≤ 5 * MOST_ARGUMENTS }
    ensures value { result ≡ (taken_with before classed.now).general }
    ensures few { result ≤ before.general + 5 }
{
    if classed.in_vectors() {
        before.general
    } else {
        register_end(before, classed)
    }
}

/// The SIMD and floating-point registers that are taken after an argument.
fn vector_taken(before: Taken, classed: &Classed<'_>) -> u64
    requires few_general { before.general ≤ 5 * MOST_ARGUMENTS }
    requires few_vector { before.vector ≤ 5 * MOST_ARGUMENTS }
    ensures value { result ≡ (taken_with before classed.now).vector }
    ensures few { result ≤ before.vector + 5 }
{
    if classed.in_vectors() {
        register_end(before, classed)
    } else {
        before.vector
    }
}

/// The bytes of stack that are taken after an argument.
fn stack_taken(before: Taken, classed: &Classed<'_>) -> u64
    requires few_general { before.general ≤ 5 * MOST_ARGUMENTS }
    requires few_vector { before.vector ≤ 5 * MOST_ARGUMENTS }
    requires low { before.stack ≤ ARGUMENT_BYTES }
    ensures value { result ≡ (taken_with before classed.now).stack }
    ensures low { result ≤ before.stack + ARGUMENT_SPAN }
{
    if in_registers(before, classed) {
        before.stack
    } else {
        stack_end(before, classed)
    }
}

/// What is taken after an argument.
fn taken_with(before: Taken, classed: &Classed<'_>) -> Taken
    requires few_general { before.general ≤ 5 * MOST_ARGUMENTS }
    requires few_vector { before.vector ≤ 5 * MOST_ARGUMENTS }
    requires low { before.stack ≤ ARGUMENT_BYTES }
    ensures value { result ≡ taken_with before classed.now }
    ensures few_general { result.general ≤ before.general + 5 }
    ensures few_vector { result.vector ≤ before.vector + 5 }
    ensures low { result.stack ≤ before.stack + ARGUMENT_SPAN }
{
    Taken {
        general: general_taken(before, classed),
        vector: vector_taken(before, classed),
        stack: stack_taken(before, classed),
    }
}

const UNTOUCHED: Taken = Taken {
    general: 0,
    vector: 0,
    stack: 0,
};

// ---- pieces

/// A value's doublewords in general registers, from number `general` on.
fn general_pieces(alloc: Global, classed: &Classed<'_>, general: u64) -> Result<Pieces, NoMemory>
    requires { general + doublewords classed.now ≤ 8 }
    ensures { IfOk result (λ p. p ≡ general_pieces general classed.now) }
{
    let ext = widening(classed.ty().as_type());
    let size = classed.size();
    let mut pieces = Pieces::new(alloc);
    for j in 0..classed.doublewords() {
        pieces.push(doubleword(size, j, Loc::G((general + j) as u8), ext))?;
    }
    Ok(pieces)
}

/// Whether leaf `i` is of quad precision.
fn is_quad(ty: &CheckedType<'_>, i: u32) -> bool
    requires { i < length (leaves_of ty.now) }
    ensures { result ≡ is_of Quad (leaf_at ty.now i).kind }
{
    let leaf = ty.leaf(i);
    matches!(leaf.kind, FfiType::Binary128)
}

/// Leaf `i` in vector register `v`, behind other pieces: one of quad precision fills both halves.
fn push_member(pieces: &mut Pieces, ty: &CheckedType<'_>, i: u32, v: u8) -> Result<(), NoMemory>
    requires in_range { i < length (leaves_of ty.now) }
    requires exists { v < 8 }
    ensures { OnOk result (pieces.new ≡ pieces.old ++ member_in v (leaf_at ty.now i)) }
{
    if is_quad(ty, i) {
        pieces.push(part_of_leaf(ty, i, 0, 8, Loc::F(v)))?;
        return pieces.push(part_of_leaf(ty, i, 8, 8, Loc::F(32 + v)));
    }
    pieces.push(leaf_piece(ty, i, Loc::F(v), Ext::Free))
}

/// A value's leaves in vector registers, from number `vector` on.
fn member_pieces(alloc: Global, classed: &Classed<'_>, vector: u64) -> Result<Pieces, NoMemory>
    requires { vector + length (leaves_of classed.now) ≤ 8 }
    ensures { IfOk result (λ p. p ≡ member_pieces vector (leaves_of classed.now)) }
{
    let ty = classed.ty();
    let mut pieces = Pieces::new(alloc);
    for i in 0..ty.leaf_count() {
        push_member(&mut pieces, ty, i, (vector + i as u64) as u8)?;
    }
    Ok(pieces)
}

/// A value in registers of its kind, from number `first` on.
fn register_pieces(alloc: Global, classed: &Classed<'_>, first: u64) -> Result<Pieces, NoMemory>
    requires enough_vector { in_vectors classed.now ≡ true → first + length (leaves_of classed.now) ≤ 8 }
    requires enough_general { in_vectors classed.now ≡ false → first + doublewords classed.now ≤ 8 }
    ensures { IfOk result (λ p. p ≡ register_pieces first classed.now) }
{
    if classed.in_vectors() {
        member_pieces(alloc, classed, first)
    } else {
        general_pieces(alloc, classed, first)
    }
}

// ---- arguments

/// An argument, or the pointer to its copy, in registers of its kind from number `first` on.
pub fn register_place(alloc: Global, classed: &Classed<'_>, first: u64) -> Result<Place, NoMemory>
    requires { first + registers_needed classed.now ≤ 8 }
    ensures { IfOk result (λ p. p ≡ without_copy (register_spot first classed.now)) }
{
    if classed.is_copied() {
        return Ok(Place::ByRef {
            at: Loc::G(first as u8),
            copy: 0,
        });
    }
    Ok(Place::Direct(register_pieces(alloc, classed, first)?))
}

/// An argument, or the pointer to its copy, on the stack from byte `first` on.
pub fn stack_place(alloc: Global, classed: &Classed<'_>, first: u64) -> Result<Place, NoMemory>
    requires { first ≤ 2 * ARGUMENT_BYTES }
    ensures { IfOk result (λ p. p ≡ without_copy (stack_spot first classed.now)) }
{
    if classed.is_copied() {
        return Ok(Place::ByRef {
            at: Loc::S(first as u32, 8),
            copy: 0,
        });
    }
    Ok(Place::Direct(stack_pieces(alloc, classed.ty(), first)?))
}

/// Where an argument stands, behind what those before it take. If it is copied, its copy has no place yet.
fn place_of(alloc: Global, before: Taken, classed: &Classed<'_>) -> Result<Place, NoMemory>
    requires few_general { before.general ≤ 5 * MOST_ARGUMENTS }
    requires few_vector { before.vector ≤ 5 * MOST_ARGUMENTS }
    requires low { before.stack ≤ ARGUMENT_BYTES }
    ensures { IfOk result (λ p. p ≡ without_copy (spot_after before classed.now)) }
{
    if in_registers(before, classed) {
        register_place(alloc, classed, register_start(before, classed))
    } else {
        stack_place(alloc, classed, stack_start(before.stack, classed))
    }
}

/// Where the next argument stands. What it takes is added to what is taken.
fn place_next(alloc: Global, taken: &mut Taken, ty: CheckedType<'_>) -> Result<Place, NoMemory>
    requires few_general { taken.old.general ≤ 5 * MOST_ARGUMENTS }
    requires few_vector { taken.old.vector ≤ 5 * MOST_ARGUMENTS }
    requires low { taken.old.stack ≤ ARGUMENT_BYTES }
    ensures place { IfOk result (λ p. p ≡ without_copy (spot_after taken.old ty.entry)) }
    ensures value { taken.new ≡ taken_with taken.old ty.entry }
    ensures few_general { taken.new.general ≤ taken.old.general + 5 }
    ensures few_vector { taken.new.vector ≤ taken.old.vector + 5 }
    ensures low { taken.new.stack ≤ taken.old.stack + ARGUMENT_SPAN }
{
    let classed = Classed::of(ty);
    let place = place_of(alloc, *taken, &classed);
    *taken = taken_with(*taken, &classed);
    place
}

/// The places of all arguments, in which copies have no place yet, and what they take.
#[derive(Drop)]
struct Placed {
    places: Places,
    taken: Taken,
}

/// The places of all arguments; copies have no place yet.
fn place_all(alloc: Global, sig: &PlacedSig<'_>) -> Result<Placed, NoMemory>
    ensures places { IfOk result (λ p. p.places ≡ map without_copy (spots_after untouched sig.now.arguments)) }
    ensures taken { IfOk result (λ p. p.taken ≡ taken_after untouched sig.now.arguments) }
    ensures low { IfOk result (λ p. p.taken.stack ≤ MOST_ARGUMENTS * ARGUMENT_SPAN) }
{
    let mut taken = UNTOUCHED;
    let mut places = Places::with_capacity(alloc, sig.count() as usize)?;
    for i in 0..sig.count() {
        places.push(place_next(alloc, &mut taken, sig.arg(i))?)?;
    }
    Ok(Placed { places, taken })
}

// ---- results

/// The result, in the registers of a first argument; where that would be copied, in a buffer of the caller that begins behind `end`.
fn result_from(place: Place, ty: &CheckedType<'_>, end: u64) -> Res
    requires { end ≤ 4 * ARGUMENT_BYTES }
    ensures { (spot : Spot) → place ≡ without_copy spot → result ≡ result_at aapcs64.copy_start end ty.now (result_from spot) }
{
    match place {
        Place::Direct(pieces) => Res::Direct(pieces),
        // x8 holds the buffer's address
        Place::ByRef { .. } => Res::Hidden {
            at: Loc::G(8),
            buffer: start(ty, end) as u32,
        },
    }
}

/// Where the result stands, if what is before its buffer ends at `end`.
pub fn place_result(alloc: Global, sig: &PlacedSig<'_>, end: u64) -> Result<Res, NoMemory>
    requires { end ≤ 4 * ARGUMENT_BYTES }
    ensures { IfOk result (λ r. r ≡ result_at aapcs64.copy_start end sig.now.result_type (result_spot_of sig.now.result_type)) }
{
    if let FfiType::Void = sig.ret().as_type() {
        return Ok(Res::Nothing);
    }
    // no type is held across the `?`, where each way out would drop it
    let place = place_of(alloc, UNTOUCHED, &Classed::of(sig.ret()));
    Ok(result_from(place?, &sig.ret(), end))
}

// ---- the standard

/// The callee-saved general registers: x19 to x29.
const SAVED_GENERAL: [Loc; 11] = [
    Loc::G(19),
    Loc::G(20),
    Loc::G(21),
    Loc::G(22),
    Loc::G(23),
    Loc::G(24),
    Loc::G(25),
    Loc::G(26),
    Loc::G(27),
    Loc::G(28),
    Loc::G(29),
];

/// The callee-saved vector registers: the low halves of v8 to v15.
const SAVED_VECTOR: [Loc; 8] = [
    Loc::F(8),
    Loc::F(9),
    Loc::F(10),
    Loc::F(11),
    Loc::F(12),
    Loc::F(13),
    Loc::F(14),
    Loc::F(15),
];

/// The link register: x30.
const LINK_REGISTER: Loc = Loc::G(30);

/// The word of the save area that holds the link register, behind those of the general registers.
const LINK_WORD: u8 = SAVED_GENERAL.len() as u8;

/// The word that holds the address of a hidden result, behind those of the vector registers.
const HIDDEN_WORD: u8 = LINK_WORD + 1 + SAVED_VECTOR.len() as u8;

/// How many words there are: behind that one stands a spare one.
const SAVE_WORDS: u8 = HIDDEN_WORD + 2;

/// The Arm AAPCS64 calling standard. (IHI 0055)
pub struct Aapcs64;

/// The argument registers: x0 to x7, x8 for the result's address, and v0 to v7.
const ARGUMENT_REGISTERS: [Loc; 17] = [
    Loc::G(0),
    Loc::G(1),
    Loc::G(2),
    Loc::G(3),
    Loc::G(4),
    Loc::G(5),
    Loc::G(6),
    Loc::G(7),
    Loc::G(8),
    Loc::F(0),
    Loc::F(1),
    Loc::F(2),
    Loc::F(3),
    Loc::F(4),
    Loc::F(5),
    Loc::F(6),
    Loc::F(7),
];

/// Where everything stands in a call.
fn plan_of(alloc: Global, sig: &PlacedSig<'_>) -> Result<Plan, NoMemory>
    ensures { IfOk result (λ p. p ≡ plan_of aapcs64 sig.now) }
{
    let Placed { mut places, taken } = place_all(alloc, sig)?;
    let copies_start = round_up(taken.stack, 16);
    let copies_end = lay_copies(&mut places, sig, copies_start);
    let res = place_result(alloc, sig, copies_end)?;
    let end = buffer_end(&res, &sig.ret(), copies_end);
    let area = Aapcs64::LINK + Aapcs64::SAVE;
    Ok(planned(sig, places, res, end, area, 0))
}

impl Abi for Aapcs64 {
    ghost use Rattle.ffi3_aapcs64_spec.specs.Aapcs64.{aapcs64};

    ghost standard = { aapcs64 };

    ghost SAVE = { aapcs64.save };

    ghost LINK = { aapcs64.link };

    ghost TARGET = { aapcs64.target };

    ghost KEPT = { length aapcs64.callee_saved };

    ghost ARGUMENT_REGISTERS = { length aapcs64.argument_registers };

    const SAVE: u64 = 8 * SAVE_WORDS as u64;

    const LINK: u64 = 0;

    const TARGET: Target = Target::Aapcs64;

    const KEPT: u8 = (SAVED_GENERAL.len() + SAVED_VECTOR.len()) as u8;

    const ARGUMENT_REGISTERS: u8 = ARGUMENT_REGISTERS.len() as u8;

    fn callee_saved(k: u8) -> Loc {
        let k = k as usize;
        if k < SAVED_GENERAL.len() {
            SAVED_GENERAL[k]
        } else {
            SAVED_VECTOR[k - SAVED_GENERAL.len()]
        }
    }

    fn argument_register(k: u8) -> Loc {
        ARGUMENT_REGISTERS[k as usize]
    }

    fn saved_word(k: u8) -> SaveWord {
        if k < LINK_WORD {
            SaveWord::Register(SAVED_GENERAL[k as usize])
        } else if k == LINK_WORD {
            SaveWord::Register(LINK_REGISTER)
        } else if k < HIDDEN_WORD {
            SaveWord::Register(SAVED_VECTOR[(k - LINK_WORD - 1) as usize])
        } else if k == HIDDEN_WORD {
            SaveWord::Hidden
        } else {
            SaveWord::Spare
        }
    }

    fn vector_count() -> Option<Loc> {
        None
    }

    fn returned_address() -> Option<Loc> {
        None
    }

    fn plan(alloc: Global, sig: &Sig) -> Result<Plan, NoMemory> {
        plan_of(alloc, &PlacedSig::of(sig))
    }

    ghost use Rattle.std.specs.Prelude.{refl};
    ghost use Rattle.std.proofs.lemmas.Bool.{ltb-true};
    ghost use Rattle.ffi3_aapcs64_spec.proofs.Agrees.{agrees as agrees_with_machine};
    ghost use Rattle.ffi3_aapcs64_spec.proofs.Alike.{goes_by_layout};
    ghost use Rattle.ffi3_aapcs64_spec.proofs.ByStubs.{by_stubs as with_stubs, result_by_stubs as result_with_stubs};
    ghost use Rattle.ffi3_aapcs64_spec.proofs.Sound.{sound as every_law, determines};

    ghost save_is = { refl };

    ghost link_is = { refl };

    ghost target_is = { refl };

    ghost kept_all = { refl };

    ghost argument_registers_all = { refl };

    ghost words_few = { ltb-true (length aapcs64.save_area) 256 refl };

    ghost agrees = { agrees_with_machine };

    ghost by_stubs = { λ _. with_stubs };

    ghost result_by_stubs = { λ s plain _. result_with_stubs s plain };

    ghost sound = { every_law };

    ghost determined = { determines };

    ghost by_layout = { goes_by_layout };
}
