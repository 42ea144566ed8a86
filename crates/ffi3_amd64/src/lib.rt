//! The System V AMD64 calling standard.
#![tactic(auto)]

ghost use Rattle.std.specs.Prelude.{◌*◌, ◌^◌, ◌≡◌, ◌<◌, ◌≤◌, ◌+◌, ◌||◌, cond, ◌++◌, ◌∷◌, length, slice_index, IfOk, OnOk, [], true, false};
ghost use Rattle.std.specs.List.{list_any, count_by, sum_by};
ghost use Rattle.ffi3_type_spec.specs.declared.limits.TheConstants.{ARGUMENT_BYTES, ARGUMENT_SPAN, LARGEST_GAP, LARGEST_TYPE, STACK_BYTES};
ghost use Rattle.ffi3_type_spec.specs.Tree.{Tree};
ghost use Rattle.ffi3_type_spec.specs.Layout.{size_of, leaves_of, leaf_at};
ghost use Rattle.ffi3_type_spec.specs.Fault.{IsLaidOut};
ghost use Rattle.ffi3_types.specs.TreeOf.{tree_of};
ghost use Rattle.ffi3_type_spec.specs.Signature.{Signature};
ghost use Rattle.ffi3_place_spec.specs.Standard.{places_from, plan_of, result_at, round8};
ghost use Rattle.ffi3_place_spec.specs.Planned.{planned};
ghost use Rattle.ffi3_amd64_spec.specs.declared.Class.{Class};
ghost use Rattle.ffi3_amd64_spec.specs.declared.Class.TheVariants.{Integer, Sse};
ghost use Rattle.ffi3_amd64_spec.specs.Amd64.{amd64, is_integer_leaf_in, is_integer_class, is_sse_class, is_aggregate, class_of, is_one_x87, is_class_x87, is_class_memory, in_memory, x87_pieces, integers, sses, register_pieces, classes, in_registers, stack_start, argument_pieces, taken_with, taken_after, taken_at_first, spots_after, result_spot_of};
ghost use Rattle.ffi3_amd64.specs.declared.Classes.TheVariants.{One, Two};
ghost use Rattle.ffi3_amd64.specs.Flat.{IsFlat};
ghost use Rattle.ffi3_amd64.specs.Classes.{class_list, is_memory, is_x87, is_in_memory, one_if, register_at};

mod flat;
pub mod laws;

pub use ffi3_amd64_spec::Class;
use ffi3_place::ends::{buffer_end, start};
use ffi3_place::parts::{doubleword, one_piece, part_of_leaf, stack_pieces, two_pieces, widening};
use ffi3_place::{Abi, Loc, Pieces, Place, Places, Plan, Res, SaveWord};
use ffi3_place_spec::Taken;
use ffi3_type_spec::round_up;
use ffi3_types::{CheckedType, FfiType, NoMemory, PlacedSig, Sig, Target};
use flat::{Walk, walk_over};
pub use laws::placement_laws;
use std::alloc::Global;

/// Whether leaf `i` is an integer or a pointer with a byte in the eightbyte.
fn is_integer_leaf_in(ty: &CheckedType<'_>, i: u32, eightbyte: u32) -> bool
    requires { i < length (leaves_of ty.now) }
    ensures { result ≡ is_integer_leaf_in eightbyte (leaf_at ty.now i) }
{
    let leaf = ty.leaf(i);
    let size = leaf.kind.value_size();
    let start = 8 * eightbyte as u64;
    leaf.at < start + 8 && start < leaf.at + size && !leaf.kind.is_floating()
}

/// The class of an eightbyte of a value that is passed in registers: INTEGER where an integer or a pointer lies in it, otherwise SSE. (psABI AMD64 3.2.3)
pub fn class_of(ty: &FfiType, eightbyte: u32) -> Class
    requires { IsLaidOut (tree_of ty.now) }
    ensures { result ≡ class_of (tree_of ty.now) eightbyte }
{
    let ty = CheckedType::of(ty);
    for i in 0..ty.leaf_count() {
        if is_integer_leaf_in(&ty, i, eightbyte) {
            return Class::Integer;
        }
    }
    Class::Sse
}

/// Whether a value is passed in memory: a struct over two eightbytes, or a long double. (psABI AMD64 3.2.3)
pub fn in_memory(ty: &FfiType) -> bool
    requires { IsLaidOut (tree_of ty.now) }
    ensures { result ≡ in_memory (tree_of ty.now) }
{
    found_of(&CheckedType::of(ty)).classes.is_in_memory()
}

/// Whether a value of so many leaves is one long double of x87's format and nothing else.
fn is_one_x87(ty: &CheckedType<'_>, count: u32) -> bool
    requires { count ≡ length (leaves_of ty.now) }
    ensures { result ≡ is_one_x87 (leaves_of ty.now) }
{
    if count != 1 {
        return false;
    }
    let leaf = ty.leaf(0);
    matches!(leaf.kind, FfiType::X87)
}

/// Whether a struct or an array of so many leaves has the classes X87 and X87UP, or COMPLEX_X87.
fn has_class_x87(ty: &CheckedType<'_>, count: u32) -> bool
    requires aggregate { is_aggregate ty.now ≡ true }
    requires counted { count ≡ length (leaves_of ty.now) }
    ensures { result ≡ is_class_x87 ty.now }
{
    if let FfiType::Array(fields, count) = ty.as_type() {
        return fields.is_complex(*count);
    }
    is_one_x87(ty, count)
}

/// Whether a struct or an array of this size has the class MEMORY.
fn has_class_memory(ty: &CheckedType<'_>, size: u64) -> bool
    requires aggregate { is_aggregate ty.now ≡ true }
    requires sized { size ≡ size_of ty.now }
    ensures { result ≡ is_class_memory ty.now }
{
    if size <= 16 {
        return false;
    }
    if let FfiType::Array(fields, count) = ty.as_type() {
        return !fields.is_complex(*count);
    }
    true
}

/// Which of a value's first two eightbytes have a byte of an integer or a pointer.
#[derive(Clone, Copy)]
struct Integers {
    first: bool,
    second: bool,
}

/// Those found before, and where leaf `i` lies if it is an integer or a pointer.
fn with_leaf(before: Integers, ty: &CheckedType<'_>, i: u32) -> Integers
    requires { i < length (leaves_of ty.now) }
    ensures first { result.first ≡ (before.first || is_integer_leaf_in 0 (leaf_at ty.now i)) }
    ensures second { result.second ≡ (before.second || is_integer_leaf_in 1 (leaf_at ty.now i)) }
{
    let leaf = ty.leaf(i);
    let size = leaf.kind.value_size();
    let is_integer = !leaf.kind.is_floating();
    Integers {
        first: before.first || (leaf.at < 8 && 0 < leaf.at + size && is_integer),
        second: before.second || (leaf.at < 16 && 8 < leaf.at + size && is_integer),
    }
}

/// Where integers and pointers lie in a value of so many leaves, all of them taken together.
fn integers_in(ty: &CheckedType<'_>, count: u32) -> Integers
    requires { count ≡ length (leaves_of ty.now) }
    ensures first { result.first ≡ list_any (is_integer_leaf_in 0) (leaves_of ty.now) }
    ensures second { result.second ≡ list_any (is_integer_leaf_in 1) (leaves_of ty.now) }
{
    let mut found = Integers {
        first: false,
        second: false,
    };
    for i in 0..count {
        found = with_leaf(found, ty, i);
        if found.first && found.second {
            return found;
        }
    }
    found
}

/// The classes of a value's eightbytes, found once for all that needs them.
#[derive(Clone, Copy)]
enum Classes {
    /// The value has the class MEMORY.
    Memory,
    /// It has the classes X87 and X87UP, or COMPLEX_X87.
    X87,
    /// It has no bytes.
    Nothing,
    One(Class),
    Two(Class, Class),
}

impl Classes {
    /// Whether the value has the class MEMORY.
    fn is_memory(self) -> bool
        ensures { result ≡ is_memory self }
    {
        matches!(self, Classes::Memory)
    }

    /// Whether it is returned in x87 registers.
    fn is_x87(self) -> bool
        ensures { result ≡ is_x87 self }
    {
        matches!(self, Classes::X87)
    }

    /// Whether it is passed in memory.
    fn is_in_memory(self) -> bool
        ensures { result ≡ is_in_memory self }
    {
        matches!(self, Classes::Memory | Classes::X87)
    }

    /// How many eightbytes have the class INTEGER.
    fn integers(self) -> u64
        ensures value { result ≡ count_by is_integer_class (class_list self) }
        ensures few { result ≤ 2 }
    {
        match self {
            Classes::Memory | Classes::X87 => 0,
            Classes::Nothing => 0,
            Classes::One(Class::Integer) => 1,
            Classes::One(Class::Sse) => 0,
            Classes::Two(Class::Integer, Class::Integer) => 2,
            Classes::Two(Class::Integer, Class::Sse) => 1,
            Classes::Two(Class::Sse, Class::Integer) => 1,
            Classes::Two(Class::Sse, Class::Sse) => 0,
        }
    }

    /// How many have the class SSE.
    fn sses(self) -> u64
        ensures value { result ≡ count_by is_sse_class (class_list self) }
        ensures few { result ≤ 2 }
    {
        match self {
            Classes::Memory | Classes::X87 => 0,
            Classes::Nothing => 0,
            Classes::One(Class::Integer) => 0,
            Classes::One(Class::Sse) => 1,
            Classes::Two(Class::Integer, Class::Integer) => 0,
            Classes::Two(Class::Integer, Class::Sse) => 1,
            Classes::Two(Class::Sse, Class::Integer) => 1,
            Classes::Two(Class::Sse, Class::Sse) => 2,
        }
    }
}

fn class_from(has_integer: bool) -> Class
    ensures { result ≡ cond {A = Class} has_integer Integer Sse }
{
    if has_integer {
        Class::Integer
    } else {
        Class::Sse
    }
}

/// The classes of a value in registers, of so many bytes, by where its integers and pointers lie.
#[inline(always)]
fn classes_by(ty: &CheckedType<'_>, size: u64, found: Integers) -> Classes
    requires direct { in_memory ty.now ≡ false }
    requires sized { size ≡ size_of ty.now }
    requires few { size ≤ 16 }
    requires first { found.first ≡ list_any (is_integer_leaf_in 0) (leaves_of ty.now) }
    requires second { found.second ≡ list_any (is_integer_leaf_in 1) (leaves_of ty.now) }
    ensures memory { is_memory result ≡ false }
    ensures x87 { is_x87 result ≡ false }
    ensures passed { is_in_memory result ≡ false }
    ensures all { class_list result ≡ classes ty.now }
{
    if size > 8 {
        Classes::Two(class_from(found.first), class_from(found.second))
    } else if size > 0 {
        Classes::One(class_from(found.first))
    } else {
        Classes::Nothing
    }
}

/// The classes of a struct's or an array's eightbytes, by a walk to each leaf.
fn classes_by_leaves(ty: &CheckedType<'_>, size: u64) -> Classes
    requires aggregate { is_aggregate ty.now ≡ true }
    requires sized { size ≡ size_of ty.now }
    ensures memory { is_memory result ≡ is_class_memory ty.now }
    ensures x87 { is_memory result ≡ false → is_x87 result ≡ is_class_x87 ty.now }
    ensures passed { is_in_memory result ≡ in_memory ty.now }
    ensures all { class_list result ≡ classes ty.now }
{
    if has_class_memory(ty, size) {
        return Classes::Memory;
    }
    // asked for once: it is found by a walk over all elements
    let count = ty.leaf_count();
    if has_class_x87(ty, count) {
        return Classes::X87;
    }
    classes_by(ty, size, integers_in(ty, count))
}

/// The classes of a struct's eightbytes, by a walk over its elements.
#[inline(always)]
fn classes_by_walk(ty: &CheckedType<'_>, size: u64, walk: Walk) -> Classes
    requires flat { IsFlat walk ty.now }
    requires sized { size ≡ size_of ty.now }
    ensures memory { is_memory result ≡ is_class_memory ty.now }
    ensures x87 { is_memory result ≡ false → is_x87 result ≡ is_class_x87 ty.now }
    ensures passed { is_in_memory result ≡ in_memory ty.now }
    ensures all { class_list result ≡ classes ty.now }
{
    if size > 16 {
        return Classes::Memory;
    }
    let found = Integers {
        first: walk.first,
        second: walk.second,
    };
    classes_by(ty, size, found)
}

/// What is found of a type once, for all that needs it.
#[derive(Clone, Copy)]
struct Found {
    /// The classes of its eightbytes.
    classes: Classes,
    /// Its size in bytes.
    size: u64,
}

/// Of a struct or an array.
#[inline(never)]
fn found_of_struct(ty: &CheckedType<'_>) -> Found
    requires { is_aggregate ty.now ≡ true }
    ensures memory { is_memory result.classes ≡ is_class_memory ty.now }
    ensures x87 { is_memory result.classes ≡ false → is_x87 result.classes ≡ is_class_x87 ty.now }
    ensures passed { is_in_memory result.classes ≡ in_memory ty.now }
    ensures all { class_list result.classes ≡ classes ty.now }
    ensures sized { result.size ≡ size_of ty.now }
    ensures small { result.size ≤ LARGEST_TYPE }
{
    if let FfiType::Struct(fields) = ty.as_type() {
        if let Some(walk) = walk_over(fields) {
            let size = round_up(walk.end, walk.align);
            let classes = classes_by_walk(ty, size, walk);
            return Found { classes, size };
        }
    }
    let size = ty.size();
    let classes = classes_by_leaves(ty, size);
    Found { classes, size }
}

fn one(class: Class, size: u64) -> Found
    ensures { result ≡ record { classes = One class; size = size } }
{
    Found {
        classes: Classes::One(class),
        size,
    }
}

fn two_integers() -> Found
    ensures { result ≡ record { classes = Two Integer Integer; size = 16 } }
{
    Found {
        classes: Classes::Two(Class::Integer, Class::Integer),
        size: 16,
    }
}

/// What is found of a type. A scalar is its own only leaf.
#[inline(always)]
fn found_of(ty: &CheckedType<'_>) -> Found
    ensures memory { is_memory result.classes ≡ is_class_memory ty.now }
    ensures x87 { is_memory result.classes ≡ false → is_x87 result.classes ≡ is_class_x87 ty.now }
    ensures passed { is_in_memory result.classes ≡ in_memory ty.now }
    ensures all { class_list result.classes ≡ classes ty.now }
    ensures sized { result.size ≡ size_of ty.now }
    ensures small { result.size ≤ LARGEST_TYPE }
{
    match ty.as_type() {
        FfiType::U8 | FfiType::S8 => one(Class::Integer, 1),
        FfiType::U16 | FfiType::S16 => one(Class::Integer, 2),
        FfiType::U32 | FfiType::S32 => one(Class::Integer, 4),
        FfiType::U64 | FfiType::S64 | FfiType::Pointer => one(Class::Integer, 8),
        FfiType::U128 | FfiType::S128 | FfiType::Binary128 => two_integers(),
        FfiType::X87 => Found {
            classes: Classes::X87,
            size: 16,
        },
        FfiType::Float => one(Class::Sse, 4),
        FfiType::Double => one(Class::Sse, 8),
        FfiType::Struct(_) | FfiType::Array(_, _) => found_of_struct(ty),
        FfiType::Void | FfiType::LongDouble | FfiType::Complex | FfiType::Vector => Found {
            classes: Classes::Nothing,
            size: 0,
        },
    }
}

/// rdi, rsi, rdx, rcx, r8, r9
const GENERAL_ARGUMENTS: [u8; 6] = [7, 6, 2, 1, 8, 9];

/// rax, rdx
const RESULT_REGISTERS: [u8; 2] = [0, 2];

/// rbx, rbp, r12 to r15
const CALLEE_SAVED: [u8; 6] = [3, 5, 12, 13, 14, 15];

/// The register of an eightbyte of a class, where `general` and `vector` are the numbers of the next ones.
fn register(class: Class, general: u64, vector: u64, registers: &[u8]) -> Loc
    requires enough_general { general + one_if is_integer_class class ≤ length registers.now }
    requires enough_vector { vector + one_if is_sse_class class ≤ 8 }
    ensures { result ≡ register_at (slice_index registers.now) general vector class }
{
    match class {
        Class::Integer => Loc::G(registers[general as usize]),
        Class::Sse => Loc::F(vector as u8),
    }
}

/// A value's eightbytes in registers, from numbers `general` and `vector` on.
#[inline(always)]
fn register_pieces(
    alloc: Global,
    ty: &CheckedType<'_>,
    size: u64,
    found: Classes,
    general: u64,
    vector: u64,
    registers: &[u8],
) -> Result<Pieces, NoMemory>
    requires sized { size ≡ size_of ty.now }
    requires small { size ≤ LARGEST_TYPE }
    requires direct { in_memory ty.now ≡ false }
    requires all { class_list found ≡ classes ty.now }
    requires enough_general { general + integers ty.now ≤ length registers.now }
    requires enough_vector { vector + sses ty.now ≤ 8 }
    requires few { length registers.now ≤ 8 }
    ensures { IfOk result (λ p. p ≡ register_pieces (slice_index registers.now) general vector ty.now [] (classes ty.now)) }
{
    match found {
        Classes::Memory | Classes::X87 => Ok(Pieces::new(alloc)),
        Classes::Nothing => Ok(Pieces::new(alloc)),
        Classes::One(class) => {
            let at = register(class, general, vector, registers);
            one_piece(alloc, doubleword(size, 0, at, widening(ty.as_type())))
        }
        Classes::Two(first, second) => {
            let before = Classes::One(first);
            let low = register(first, general, vector, registers);
            let next_general = general + before.integers();
            let next_vector = vector + before.sses();
            let high = register(second, next_general, next_vector, registers);
            let ext = widening(ty.as_type());
            let first_piece = doubleword(size, 0, low, ext);
            let second_piece = doubleword(size, 1, high, ext);
            two_pieces(alloc, first_piece, second_piece)
        }
    }
}

/// The pieces of an argument, and what it takes with those before it.
#[derive(Drop)]
struct Argument {
    pieces: Pieces,
    taken: Taken,
}

/// In registers, if those that are left suffice for the whole argument, otherwise on the stack.
#[inline(always)]
fn place_argument(
    alloc: Global,
    before: Taken,
    ty: &CheckedType<'_>,
    found: Found,
) -> Result<Argument, NoMemory>
    requires passed { is_in_memory found.classes ≡ in_memory ty.now }
    requires all { class_list found.classes ≡ classes ty.now }
    requires sized { found.size ≡ size_of ty.now }
    requires small { found.size ≤ LARGEST_TYPE }
    requires few_general { before.general ≤ 6 }
    requires few_vector { before.vector ≤ 8 }
    requires low { before.stack ≤ ARGUMENT_BYTES }
    ensures pieces { IfOk result (λ a. a.pieces ≡ argument_pieces before ty.now) }
    ensures taken { IfOk result (λ a. a.taken ≡ taken_with before ty.now) }
    ensures few_general { IfOk result (λ a. a.taken.general ≤ 6) }
    ensures few_vector { IfOk result (λ a. a.taken.vector ≤ 8) }
    ensures low { IfOk result (λ a. a.taken.stack ≤ before.stack + ARGUMENT_SPAN) }
{
    let general = before.general + found.classes.integers();
    let vector = before.vector + found.classes.sses();
    if !found.classes.is_in_memory() && general <= 6 && vector <= 8 {
        return argument_in_registers(alloc, before, ty, found);
    }
    argument_on_stack(alloc, before, ty, found.size)
}

#[inline(always)]
fn argument_in_registers(
    alloc: Global,
    before: Taken,
    ty: &CheckedType<'_>,
    found: Found,
) -> Result<Argument, NoMemory>
    requires all { class_list found.classes ≡ classes ty.now }
    requires sized { found.size ≡ size_of ty.now }
    requires small { found.size ≤ LARGEST_TYPE }
    requires fits { in_registers before ty.now ≡ true }
    ensures pieces { IfOk result (λ a. a.pieces ≡ argument_pieces before ty.now) }
    ensures taken { IfOk result (λ a. a.taken ≡ taken_with before ty.now) }
    ensures few_general { IfOk result (λ a. a.taken.general ≤ 6) }
    ensures few_vector { IfOk result (λ a. a.taken.vector ≤ 8) }
    ensures low { IfOk result (λ a. a.taken.stack ≡ before.stack) }
{
    let pieces = register_pieces(
        alloc,
        ty,
        found.size,
        found.classes,
        before.general,
        before.vector,
        &GENERAL_ARGUMENTS,
    )?;
    let taken = Taken {
        general: before.general + found.classes.integers(),
        vector: before.vector + found.classes.sses(),
        stack: before.stack,
    };
    Ok(Argument { pieces, taken })
}

/// Where an argument on the stack begins, after the end of the one before it.
fn stack_start(end: u64, ty: &CheckedType<'_>) -> u64
    requires { end ≤ ARGUMENT_BYTES }
    ensures value { result ≡ stack_start end ty.now }
    ensures near { result ≤ end + LARGEST_GAP }
{
    start(ty, end)
}

#[inline(always)]
fn argument_on_stack(
    alloc: Global,
    before: Taken,
    ty: &CheckedType<'_>,
    size: u64,
) -> Result<Argument, NoMemory>
    requires sized { size ≡ size_of ty.now }
    requires small { size ≤ LARGEST_TYPE }
    requires low { before.stack ≤ ARGUMENT_BYTES }
    requires spills { in_registers before ty.now ≡ false }
    ensures pieces { IfOk result (λ a. a.pieces ≡ argument_pieces before ty.now) }
    ensures taken { IfOk result (λ a. a.taken ≡ taken_with before ty.now) }
    ensures low { IfOk result (λ a. a.taken.stack ≤ before.stack + ARGUMENT_SPAN) }
{
    let begin = stack_start(before.stack, ty);
    let taken = Taken {
        general: before.general,
        vector: before.vector,
        stack: begin + round_up(size, 8),
    };
    let pieces = stack_pieces(alloc, ty, begin)?;
    Ok(Argument { pieces, taken })
}

/// The places of all arguments, what they take, and the sum of their sizes, each a multiple of 8.
#[derive(Drop)]
struct Placed {
    places: Places,
    taken: Taken,
    sizes: u64,
}

/// The address of a result in memory takes the first general register.
fn taken_at_first(returned: Classes) -> Taken
    ensures value { (t : Tree) → is_memory returned ≡ is_class_memory t → result ≡ taken_at_first t }
    ensures few { result.general ≤ 1 }
{
    Taken {
        general: if returned.is_memory() { 1 } else { 0 },
        vector: 0,
        stack: 0,
    }
}

/// The places of all arguments, if the result has the classes `returned`.
fn place_all(alloc: Global, sig: &PlacedSig<'_>, returned: Classes) -> Result<Placed, NoMemory>
    requires { is_memory returned ≡ is_class_memory sig.now.result_type }
    ensures places { IfOk result (λ p. p.places ≡ places_from amd64.copy_start 0 sig.now.arguments (spots_after (taken_at_first sig.now.result_type) sig.now.arguments)) }
    ensures taken { IfOk result (λ p. p.taken ≡ taken_after (taken_at_first sig.now.result_type) sig.now.arguments) }
    ensures low { IfOk result (λ p. p.taken.stack ≤ ARGUMENT_BYTES) }
    ensures few_vector { IfOk result (λ p. p.taken.vector ≤ 8) }
    ensures sizes { IfOk result (λ p. p.sizes ≡ sum_by (λ t. round8 (size_of t)) sig.now.arguments) }
    ensures few_bytes { IfOk result (λ p. p.sizes ≤ ARGUMENT_BYTES) }
{
    let mut before = taken_at_first(returned);
    let mut sizes = 0;
    let mut places = Places::with_capacity(alloc, sig.count() as usize)?;
    for i in 0..sig.count() {
        let ty = sig.arg(i);
        let found = found_of(&ty);
        let next = place_argument(alloc, before, &ty, found)?;
        before = next.taken;
        sizes += round_up(found.size, 8);
        places.push(Place::Direct(next.pieces))?;
    }
    Ok(Placed {
        places,
        taken: before,
        sizes,
    })
}

/// Leaf `k` of a value in st(k), behind others: its significand, and its sign and exponent.
fn push_x87(pieces: &mut Pieces, ty: &CheckedType<'_>, k: u32) -> Result<(), NoMemory>
    requires in_range { k < length (leaves_of ty.now) }
    requires few { k < 2 }
    ensures { OnOk result (pieces.new ≡ pieces.old ++ x87_pieces k (leaf_at ty.now k ∷ [])) }
{
    pieces.push(part_of_leaf(ty, k, 0, 8, Loc::F(16 + 2 * k as u8)))?;
    pieces.push(part_of_leaf(ty, k, 8, 2, Loc::F(17 + 2 * k as u8)))
}

/// A result in x87 registers: a long double in st(0), a complex one in st(0) and st(1).
fn x87_pieces(alloc: Global, ty: &CheckedType<'_>) -> Result<Pieces, NoMemory>
    requires { is_class_x87 ty.now ≡ true }
    ensures { IfOk result (λ p. p ≡ x87_pieces 0 (leaves_of ty.now)) }
{
    let mut pieces = Pieces::with_capacity(alloc, 2 * ty.leaf_count() as usize)?;
    for k in 0..ty.leaf_count() {
        push_x87(&mut pieces, ty, k)?;
    }
    Ok(pieces)
}

/// Where a result stands of whose type that is found, if what is before its buffer ends at `end`.
fn place_result(
    alloc: Global,
    ty: &CheckedType<'_>,
    found: Found,
    end: u64,
) -> Result<Res, NoMemory>
    requires memory { is_memory found.classes ≡ is_class_memory ty.now }
    requires x87 { is_memory found.classes ≡ false → is_x87 found.classes ≡ is_class_x87 ty.now }
    requires all { class_list found.classes ≡ classes ty.now }
    requires sized { found.size ≡ size_of ty.now }
    requires small { found.size ≤ LARGEST_TYPE }
    requires low { end ≤ 2 * ARGUMENT_BYTES }
    ensures { IfOk result (λ r. r ≡ result_at amd64.copy_start end ty.now (result_spot_of ty.now)) }
{
    if let FfiType::Void = ty.as_type() {
        return Ok(Res::Nothing);
    }
    if found.classes.is_memory() {
        return Ok(Res::Hidden {
            at: Loc::G(GENERAL_ARGUMENTS[0]),
            buffer: start(ty, end) as u32,
        });
    }
    if found.classes.is_x87() {
        return Ok(Res::Direct(x87_pieces(alloc, ty)?));
    }
    let pieces = register_pieces(
        alloc,
        ty,
        found.size,
        found.classes,
        0,
        0,
        &RESULT_REGISTERS,
    )?;
    Ok(Res::Direct(pieces))
}

/// The System V AMD64 calling standard. (psABI AMD64 3.2)
pub struct Amd64;

/// rdi, rsi, rdx, rcx, r8 and r9, and xmm0 to xmm7
const ARGUMENT_REGISTERS: [Loc; 14] = [
    Loc::G(GENERAL_ARGUMENTS[0]),
    Loc::G(GENERAL_ARGUMENTS[1]),
    Loc::G(GENERAL_ARGUMENTS[2]),
    Loc::G(GENERAL_ARGUMENTS[3]),
    Loc::G(GENERAL_ARGUMENTS[4]),
    Loc::G(GENERAL_ARGUMENTS[5]),
    Loc::F(0),
    Loc::F(1),
    Loc::F(2),
    Loc::F(3),
    Loc::F(4),
    Loc::F(5),
    Loc::F(6),
    Loc::F(7),
];

/// The plan of a call from its places, as `ffi3_place` makes it, where the arguments' sizes are known.
fn planned(sizes: u64, places: Places, res: Res, end: u64, area: u64, vectors: u8) -> Plan
    requires few { sizes ≤ ARGUMENT_BYTES }
    requires low { end < 2 ^ 32 + (LARGEST_TYPE + 7) }
    requires small { area ≤ STACK_BYTES }
    ensures { (s : Signature) → sizes ≡ sum_by (λ t. round8 (size_of t)) s.arguments → result ≡ planned s places res end area vectors }
{
    let frame = round_up(end, 16);
    let block = round_up(sizes, 16);
    Plan {
        places,
        res,
        need: frame + area + block,
        frame,
        block,
        vectors,
    }
}

/// Where everything stands in a call.
fn plan_of(alloc: Global, sig: &PlacedSig<'_>) -> Result<Plan, NoMemory>
    ensures { IfOk result (λ p. p ≡ plan_of amd64 sig.now) }
{
    let returned = found_of(&sig.ret());
    let all = place_all(alloc, sig, returned.classes)?;
    // no argument has a copy
    let copies_end = round_up(all.taken.stack, 16);
    let res = place_result(alloc, &sig.ret(), returned, copies_end)?;
    let end = buffer_end(&res, &sig.ret(), copies_end);
    let vectors = all.taken.vector as u8;
    let area = Amd64::LINK + Amd64::SAVE;
    Ok(planned(all.sizes, all.places, res, end, area, vectors))
}

impl Abi for Amd64 {
    ghost use Rattle.ffi3_type_spec.specs.declared.Target.TheVariants as target;
    ghost use Rattle.ffi3_amd64_spec.specs.Amd64.{amd64};

    ghost standard = { amd64 };

    ghost SAVE = { amd64.save };

    ghost LINK = { amd64.link };

    ghost TARGET = { target.Amd64 };

    ghost KEPT = { length amd64.callee_saved };

    ghost ARGUMENT_REGISTERS = { length amd64.argument_registers };

    const SAVE: u64 = 8 * (CALLEE_SAVED.len() as u64 + 1);

    const LINK: u64 = 8;

    const TARGET: Target = Target::Amd64;

    const KEPT: u8 = CALLEE_SAVED.len() as u8;

    const ARGUMENT_REGISTERS: u8 = ARGUMENT_REGISTERS.len() as u8;

    fn callee_saved(k: u8) -> Loc {
        Loc::G(CALLEE_SAVED[k as usize])
    }

    fn argument_register(k: u8) -> Loc {
        ARGUMENT_REGISTERS[k as usize]
    }

    fn saved_word(k: u8) -> SaveWord {
        if k < Self::KEPT {
            SaveWord::Register(Self::callee_saved(k))
        } else {
            SaveWord::Hidden
        }
    }

    fn vector_count() -> Option<Loc> {
        Some(Loc::G(RESULT_REGISTERS[0]))
    }

    fn returned_address() -> Option<Loc> {
        Some(Loc::G(RESULT_REGISTERS[0]))
    }

    fn plan(alloc: Global, sig: &Sig) -> Result<Plan, NoMemory> {
        plan_of(alloc, &PlacedSig::of(sig))
    }

    ghost use Rattle.std.specs.Prelude.{refl};
    ghost use Rattle.std.proofs.lemmas.Bool.{ltb-true};
    ghost use Rattle.ffi3_amd64_spec.proofs.Agrees.{agrees as with_machine};
    ghost use Rattle.ffi3_amd64_spec.proofs.Alike.{goes_by_layout};
    ghost use Rattle.ffi3_amd64_spec.proofs.ByStubs.{by_stubs as with_stubs, result_by_stubs as result_with_stubs};
    ghost use Rattle.ffi3_amd64_spec.proofs.Sound.{sound as every_law, determines};

    ghost save_is = { refl };

    ghost link_is = { refl };

    ghost target_is = { refl };

    ghost kept_all = { refl };

    ghost argument_registers_all = { refl };

    ghost words_few = { ltb-true (length amd64.save_area) 256 refl };

    ghost agrees = { with_machine };

    ghost by_stubs = { λ _. with_stubs };

    ghost result_by_stubs = { λ s plain _. result_with_stubs s plain };

    ghost sound = { every_law };

    ghost determined = { determines };

    ghost by_layout = { goes_by_layout };
}
