//! The RISC-V calling standard with LP64D.
#![tactic(auto)]

ghost use Rattle.std.specs.Prelude.{◌≡◌, ◌<◌, ◌≤◌, ◌+◌, ◌*◌, ◌/◌, length, map, IfOk, true, false, cond, nat_le};
ghost use Rattle.ffi3_type_spec.specs.declared.limits.TheConstants.{ARGUMENT_BYTES, MOST_ARGUMENTS};
ghost use Rattle.ffi3_type_spec.specs.Tree.{Scalar, scalar, Tree, tree_at};
ghost use Rattle.ffi3_type_spec.specs.Layout.{size_of, leaves_of, leaf_at};
ghost use Rattle.ffi3_type_spec.specs.Integer.{is_floating};
ghost use Rattle.ffi3_type_spec.specs.Fault.{IsLaidOut};
ghost use Rattle.ffi3_types.specs.TreeOf.{tree_of};
ghost use Rattle.ffi3_place_spec.specs.Standard.{result_at, plan_of};
ghost use Rattle.ffi3_place_spec.specs.Doublewords.{doublewords};
ghost use Rattle.ffi3_riscv_spec.specs.Riscv.{riscv, is_word_integer, shape_of_two, shape_of_leaves, shape_of, words_of, floats_of, registers_suffice, passed_as, word, extension, boxing, integer_register, floating_register, floating_piece, integer_piece, word_pieces, spot_of, is_fixed, is_at_even_word, first_word, taken_at_start, taken_by_shape, taken_at_first, shape_after, taken_by_all, placing_of, result_shape, result_spot_of, stack_of};
ghost use Rattle.ffi3_riscv_spec.specs.declared.Shape.{Shape};
ghost use Rattle.ffi3_riscv_spec.specs.declared.Shape.TheVariants.{OneF, Words, ByRef};
ghost use Rattle.ffi3_riscv_spec.proofs.Shapes.{Suits, HasRoom};
ghost use Rattle.ffi3_place.specs.WithoutCopy.{without_copy};
ghost use Rattle.ffi3_riscv.specs.Found.{IsFound};

pub mod laws;

use ffi3_place::ends::{buffer_end, lay_copies, planned, start};
use ffi3_place::parts::{doubleword, filling, leaf_piece, one_piece, two_pieces};
use ffi3_place::{Abi, Ext, Loc, Piece, Pieces, Place, Places, Plan, Res, SaveWord};
pub use ffi3_riscv_spec::Shape;
use ffi3_riscv_spec::TakenWords;
use ffi3_type_spec::round_up;
use ffi3_types::{CheckedType, FfiType, NoMemory, PlacedSig, Sig, Target};
pub use laws::placement_laws;
use std::alloc::Global;

/// Whether a scalar is an integer no more than 64 bits wide. A pointer is none.
fn is_word_integer(kind: &FfiType) -> bool
    ensures { (s : Scalar) → tree_of kind.now ≡ scalar s → result ≡ is_word_integer s }
{
    match kind {
        FfiType::U8 | FfiType::S8 | FfiType::U16 | FfiType::S16 => true,
        FfiType::U32 | FfiType::S32 | FfiType::U64 | FfiType::S64 => true,
        FfiType::U128 | FfiType::S128 => false,
        FfiType::Pointer => false,
        FfiType::Float | FfiType::Double => false,
        FfiType::Void | FfiType::Struct(_) | FfiType::Array(_, _) => false,
        FfiType::LongDouble | FfiType::Complex | FfiType::Vector => false,
        FfiType::X87 | FfiType::Binary128 => false,
    }
}

/// How a value of so many bytes is passed by the integer convention: in at most two words, or by reference.
fn integer_shape(size: u64) -> Shape
    ensures value { result ≡ cond {A = Shape} (nat_le size 16) (Words ((size + 7) / 8)) ByRef }
    ensures small { words_of result ≤ 2 }
    ensures no_float { floats_of result ≡ 0 }
{
    if size <= 16 {
        Shape::Words((size + 7) / 8)
    } else {
        Shape::ByRef
    }
}

/// How a value with one leaf is passed, if `otherwise` is how it is by the integer convention.
fn shape_of_one(leaf: &FfiType, otherwise: Shape) -> Shape
    requires { words_of otherwise ≤ 2 }
    ensures value { (s : Scalar) → tree_of leaf.now ≡ scalar s → result ≡ cond {A = Shape} (is_floating s) OneF otherwise }
    ensures small { words_of result ≤ 2 }
{
    if leaf.is_floating() {
        Shape::OneF
    } else {
        otherwise
    }
}

/// How a value with two leaves is passed, if `otherwise` is how it is by the integer convention.
fn shape_of_two(first: &FfiType, second: &FfiType, otherwise: Shape) -> Shape
    requires { words_of otherwise ≤ 2 }
    ensures value { (s u : Scalar) → tree_of first.now ≡ scalar s → tree_of second.now ≡ scalar u → result ≡ shape_of_two otherwise s u }
    ensures small { words_of result ≤ 2 }
{
    let first_floats = first.is_floating();
    let second_floats = second.is_floating();
    if first_floats && second_floats {
        Shape::TwoF
    } else if first_floats && is_word_integer(second) {
        Shape::FI
    } else if is_word_integer(first) && second_floats {
        Shape::IF
    } else {
        otherwise
    }
}

/// How a struct or an array is passed by its leaves, if `otherwise` is how it is by the integer convention.
fn shape_of_leaves(ty: &CheckedType<'_>, otherwise: Shape) -> Shape
    requires { words_of otherwise ≤ 2 }
    ensures value { result ≡ shape_of_leaves otherwise (leaves_of ty.now) }
    ensures small { words_of result ≤ 2 }
{
    let count = ty.leaf_count();
    if count == 1 {
        let leaf = ty.leaf(0);
        shape_of_one(&leaf.kind, otherwise)
    } else if count == 2 {
        let first = ty.leaf(0);
        let second = ty.leaf(1);
        shape_of_two(&first.kind, &second.kind, otherwise)
    } else {
        otherwise
    }
}

/// What the standard asks of a type, found once for all that needs it.
#[derive(Clone, Copy)]
struct Found {
    /// How a fixed argument or a result is passed where enough registers are free.
    shape: Shape,
    /// How a value is passed by the integer convention.
    otherwise: Shape,
    size: u64,
    align: u64,
}

/// Finds of a type how it is passed, its size and its alignment. A scalar is its own only leaf.
fn found_of(ty: &CheckedType<'_>) -> Found
    ensures is { IsFound ty.now result }
    ensures small { words_of result.shape ≤ 2 }
    ensures otherwise_small { words_of result.otherwise ≤ 2 }
    ensures otherwise_no_float { floats_of result.otherwise ≡ 0 }
{
    let plain = ty.as_type();
    let size = ty.size();
    let otherwise = integer_shape(size);
    let shape = match plain {
        FfiType::Float | FfiType::Double => Shape::OneF,
        FfiType::Struct(_) | FfiType::Array(_, _) => shape_of_leaves(ty, otherwise),
        FfiType::U8 | FfiType::S8 | FfiType::U16 | FfiType::S16 => otherwise,
        FfiType::U32 | FfiType::S32 | FfiType::U64 | FfiType::S64 => otherwise,
        FfiType::U128 | FfiType::S128 | FfiType::Pointer => otherwise,
        FfiType::X87 | FfiType::Binary128 => otherwise,
        FfiType::Void | FfiType::LongDouble | FfiType::Complex | FfiType::Vector => otherwise,
    };
    Found {
        shape,
        otherwise,
        size,
        align: ty.align(),
    }
}

/// How a fixed argument or a result is passed where enough registers are free. (RISC-V ELF psABI, "Hardware Floating-point Calling Convention")
pub fn shape_of(ty: &FfiType) -> Shape
    requires { IsLaidOut (tree_of ty.now) }
    ensures { result ≡ shape_of (tree_of ty.now) }
{
    found_of(&CheckedType::of(ty)).shape
}

/// How many integer words a value takes.
fn words_of(shape: Shape) -> u64
    ensures { result ≡ words_of shape }
{
    match shape {
        Shape::OneF => 0,
        Shape::TwoF => 0,
        Shape::FI => 1,
        Shape::IF => 1,
        Shape::Words(n) => n,
        Shape::ByRef => 1,
    }
}

/// How many floating registers a value takes.
fn floats_of(shape: Shape) -> u64
    ensures value { result ≡ floats_of shape }
    ensures few { result ≤ 2 }
{
    match shape {
        Shape::OneF => 1,
        Shape::TwoF => 2,
        Shape::FI => 1,
        Shape::IF => 1,
        Shape::Words(_) => 0,
        Shape::ByRef => 0,
    }
}

/// Whether enough registers are free for a value of this shape.
fn registers_suffice(before: TakenWords, shape: Shape) -> bool
    requires few { before.floats ≤ 8 }
    requires low { before.words ≤ 16 * MOST_ARGUMENTS }
    ensures { result ≡ registers_suffice before shape }
{
    match shape {
        Shape::OneF => before.floats + 1 <= 8,
        Shape::TwoF => before.floats + 2 <= 8,
        Shape::FI => before.floats + 1 <= 8 && before.words + 1 <= 8,
        Shape::IF => before.floats + 1 <= 8 && before.words + 1 <= 8,
        Shape::Words(_) => true,
        Shape::ByRef => true,
    }
}

/// How an argument is passed, by what is taken where it begins.
fn passed_as(before: TakenWords, fixed: bool, found: Found) -> Shape
    requires few { before.floats ≤ 8 }
    requires low { before.words ≤ 16 * MOST_ARGUMENTS }
    requires small { words_of found.shape ≤ 2 }
    requires otherwise_small { words_of found.otherwise ≤ 2 }
    requires otherwise_no_float { floats_of found.otherwise ≡ 0 }
    ensures value { (t : Tree) → IsFound t found → result ≡ passed_as before fixed t }
    ensures small { words_of result ≤ 2 }
    ensures room { before.floats + floats_of result ≤ 8 }
{
    if fixed && registers_suffice(before, found.shape) {
        found.shape
    } else {
        found.otherwise
    }
}

/// Whether an argument begins at an even word, behind words that end at `end`.
fn is_at_even_word(fixed: bool, found: Found, end: u64) -> bool
    ensures { (t : Tree) → IsFound t found → result ≡ is_at_even_word fixed t end }
{
    16 <= found.align && found.size <= 16 && (!fixed || 8 <= end)
}

/// Where an argument's words begin, behind words that end at `end`.
fn first_word(fixed: bool, found: Found, end: u64) -> u64
    requires { end ≤ 16 * MOST_ARGUMENTS }
    ensures value { (t : Tree) → IsFound t found → result ≡ first_word fixed t end }
    ensures near { result ≤ end + 1 }
{
    if is_at_even_word(fixed, found, end) {
        round_up(end, 2)
    } else {
        end
    }
}

/// What is taken where an argument begins, behind others.
fn taken_at_start(taken: TakenWords, fixed: bool, found: Found) -> TakenWords
    requires { taken.words ≤ 16 * MOST_ARGUMENTS }
    ensures value { (t : Tree) → IsFound t found → result ≡ taken_at_start taken fixed t }
    ensures near { result.words ≤ taken.words + 1 }
    ensures same { result.floats ≡ taken.floats }
{
    TakenWords {
        words: first_word(fixed, found, taken.words),
        floats: taken.floats,
    }
}

/// What is taken once a value of a shape is placed behind others.
fn taken_by_shape(before: TakenWords, shape: Shape) -> TakenWords
    requires few { before.floats ≤ 8 }
    requires low { before.words ≤ 16 * MOST_ARGUMENTS }
    requires small { words_of shape ≤ 2 }
    ensures { result ≡ taken_by_shape before shape }
{
    TakenWords {
        words: before.words + words_of(shape),
        floats: before.floats + floats_of(shape),
    }
}

/// The number of integer register a`k`: a0 to a7 are 10 to 17.
fn integer_register(k: u64) -> u8
    requires { k ≤ 7 }
    ensures { result ≡ integer_register k }
{
    10 + k as u8
}

/// Word `k` of the stream of integer words: a0 to a7, and then the stack.
fn word(k: u64) -> Loc
    requires { k ≤ 32 * MOST_ARGUMENTS }
    ensures { result ≡ word k }
{
    if k < 8 {
        Loc::G(integer_register(k))
    } else {
        Loc::S((8 * (k - 8)) as u32, 8)
    }
}

/// What fills the rest of a value's words.
fn extension(ty: &FfiType) -> Ext
    ensures { result ≡ extension (tree_of ty.now) }
{
    filling(ty, Ext::Riscv)
}

/// A float in a floating-point register is NaN-boxed.
fn boxing(kind: &FfiType) -> Ext
    ensures { (s : Scalar) → tree_of kind.now ≡ scalar s → result ≡ boxing s }
{
    match kind {
        FfiType::Float => Ext::Boxed,
        FfiType::Double | FfiType::Pointer => Ext::Free,
        FfiType::U8 | FfiType::S8 | FfiType::U16 | FfiType::S16 => Ext::Free,
        FfiType::U32 | FfiType::S32 | FfiType::U64 | FfiType::S64 => Ext::Free,
        FfiType::U128 | FfiType::S128 => Ext::Free,
        FfiType::Void | FfiType::Struct(_) | FfiType::Array(_, _) => Ext::Free,
        FfiType::LongDouble | FfiType::Complex | FfiType::Vector => Ext::Free,
        FfiType::X87 | FfiType::Binary128 => Ext::Free,
    }
}

/// A value's doublewords, in the stream of words from number `first` on.
fn word_pieces(
    alloc: Global,
    ty: &CheckedType<'_>,
    first: u64,
    count: u64,
) -> Result<Pieces, NoMemory>
    requires low { first ≤ 16 * MOST_ARGUMENTS }
    requires all { count ≡ doublewords ty.now }
    requires few { count ≤ 2 }
    ensures { IfOk result (λ p. p ≡ word_pieces first ty.now count) }
{
    let ext = extension(ty.as_type());
    let size = ty.size();
    let mut pieces = Pieces::new(alloc);
    for j in 0..count {
        pieces.push(doubleword(size, j, word(first + j), ext))?;
    }
    Ok(pieces)
}

/// The number of floating register fa`k`: fa0 to fa7 are 10 to 17.
fn floating_register(k: u64) -> u8
    requires { k ≤ 7 }
    ensures { result ≡ floating_register k }
{
    10 + k as u8
}

/// Leaf `i` in floating register fa`number`.
fn floating_piece(ty: &CheckedType<'_>, i: u32, number: u64) -> Piece
    requires in_range { i < length (leaves_of ty.now) }
    requires few { number ≤ 7 }
    ensures { result ≡ floating_piece number (leaf_at ty.now i) }
{
    let leaf = ty.leaf(i);
    leaf_piece(ty, i, Loc::F(floating_register(number)), boxing(&leaf.kind))
}

/// Leaf `i` in integer register a`number`.
fn integer_piece(ty: &CheckedType<'_>, i: u32, number: u64) -> Piece
    requires in_range { i < length (leaves_of ty.now) }
    requires few { number ≤ 7 }
    ensures { result ≡ integer_piece number (leaf_at ty.now i) }
{
    leaf_piece(ty, i, Loc::G(integer_register(number)), Ext::Free)
}

/// Where a value of a shape stands, behind others. A copy has no place in the frame yet.
fn place_of(
    alloc: Global,
    before: TakenWords,
    ty: &CheckedType<'_>,
    shape: Shape,
) -> Result<Place, NoMemory>
    requires suits { Suits (size_of ty.now) (leaves_of ty.now) shape }
    requires room { HasRoom before shape }
    requires low { before.words ≤ 16 * MOST_ARGUMENTS }
    ensures { IfOk result (λ p. p ≡ without_copy (spot_of before ty.now shape)) }
{
    match shape {
        Shape::OneF => {
            let piece = floating_piece(ty, 0, before.floats);
            Ok(Place::Direct(one_piece(alloc, piece)?))
        }
        Shape::TwoF => {
            let first = floating_piece(ty, 0, before.floats);
            let second = floating_piece(ty, 1, before.floats + 1);
            Ok(Place::Direct(two_pieces(alloc, first, second)?))
        }
        Shape::FI => {
            let first = floating_piece(ty, 0, before.floats);
            let second = integer_piece(ty, 1, before.words);
            Ok(Place::Direct(two_pieces(alloc, first, second)?))
        }
        Shape::IF => {
            let first = integer_piece(ty, 0, before.words);
            let second = floating_piece(ty, 1, before.floats);
            Ok(Place::Direct(two_pieces(alloc, first, second)?))
        }
        Shape::Words(count) => { Ok(Place::Direct(word_pieces(alloc, ty, before.words, count)?)) }
        Shape::ByRef => Ok(Place::ByRef {
            at: word(before.words),
            copy: 0,
        }),
    }
}

/// Whether argument `i` is a named one, and no variadic one.
fn is_fixed(sig: &PlacedSig<'_>, i: u32) -> bool
    ensures { result ≡ is_fixed sig.now.fixed i }
{
    match sig.fixed() {
        None => true,
        Some(fixed) => i < fixed,
    }
}

const UNTOUCHED: TakenWords = TakenWords {
    words: 0,
    floats: 0,
};

/// A result is returned as a first named argument would be passed.
fn result_shape(ty: &CheckedType<'_>) -> Shape
    ensures { result ≡ result_shape ty.now }
{
    passed_as(UNTOUCHED, true, found_of(ty))
}

/// The hidden pointer to a result's buffer takes the first word.
fn taken_at_first(returned: Shape) -> TakenWords
    ensures value { (t : Tree) → returned ≡ result_shape t → result ≡ taken_at_first t }
    ensures one { result.words ≤ 1 }
    ensures none { result.floats ≡ 0 }
{
    TakenWords {
        words: if let Shape::ByRef = returned { 1 } else { 0 },
        floats: 0,
    }
}

/// How an argument is passed, and what is taken where it begins.
#[derive(Clone, Copy)]
struct Passed {
    before: TakenWords,
    shape: Shape,
}

/// How argument `i` is passed, behind others that take `taken`.
fn passed_after(sig: &PlacedSig<'_>, i: u32, taken: TakenWords) -> Passed
    requires in_range { i < length sig.now.arguments }
    requires few { taken.floats ≤ 8 }
    requires low { taken.words ≤ 3 * MOST_ARGUMENTS + 1 }
    ensures before { result.before ≡ taken_at_start taken (is_fixed sig.now.fixed i) (tree_at sig.now.arguments i) }
    ensures shape { result.shape ≡ shape_after taken (is_fixed sig.now.fixed i) (tree_at sig.now.arguments i) }
    ensures near { result.before.words ≤ taken.words + 1 }
    ensures few { result.before.floats ≤ 8 }
    ensures small { words_of result.shape ≤ 2 }
    ensures free { result.before.floats + floats_of result.shape ≤ 8 }
    ensures suits { Suits (size_of (tree_at sig.now.arguments i)) (leaves_of (tree_at sig.now.arguments i)) result.shape }
    ensures room { HasRoom result.before result.shape }
{
    let fixed = is_fixed(sig, i);
    let found = found_of(&sig.arg(i));
    let before = taken_at_start(taken, fixed, found);
    Passed {
        before,
        shape: passed_as(before, fixed, found),
    }
}

/// The bytes of the words that stand on the stack.
fn stack_of(taken: TakenWords) -> u64
    requires { taken.words ≤ 16 * MOST_ARGUMENTS }
    ensures value { result ≡ stack_of taken }
    ensures small { result ≤ 8 * taken.words }
{
    if taken.words < 8 {
        0
    } else {
        8 * (taken.words - 8)
    }
}

/// The places of all arguments, whose copies have no place in the frame yet, and what the arguments take.
#[derive(Drop)]
struct Placed {
    places: Places,
    taken: TakenWords,
}

/// The places of all arguments, if the result is passed as `returned`; copies have no place yet.
fn place_all(alloc: Global, sig: &PlacedSig<'_>, returned: Shape) -> Result<Placed, NoMemory>
    requires { returned ≡ result_shape sig.now.result_type }
    ensures places { IfOk result (λ p. p.places ≡ map without_copy (placing_of sig.now).arguments) }
    ensures taken { IfOk result (λ p. p.taken ≡ taken_by_all sig.now) }
    ensures low { IfOk result (λ p. p.taken.words ≤ 3 * MOST_ARGUMENTS + 1) }
{
    let mut taken = taken_at_first(returned);
    let mut places = Places::with_capacity(alloc, sig.count() as usize)?;
    for i in 0..sig.count() {
        let passed = passed_after(sig, i, taken);
        // no type is held across a `?`, where each way out would drop it
        let place = place_of(alloc, passed.before, &sig.arg(i), passed.shape);
        places.push(place?)?;
        taken = taken_by_shape(passed.before, passed.shape);
    }
    Ok(Placed { places, taken })
}

/// A result's place is that of an argument. What stands before its buffer ends `end` bytes from the frame's start.
fn place_result(alloc: Global, sig: &PlacedSig<'_>, shape: Shape, end: u64) -> Result<Res, NoMemory>
    requires shape { shape ≡ result_shape sig.now.result_type }
    requires near { end ≤ 2 * ARGUMENT_BYTES }
    ensures { IfOk result (λ r. r ≡ result_at riscv.copy_start end sig.now.result_type (result_spot_of sig.now.result_type)) }
{
    if let FfiType::Void = sig.ret().as_type() {
        return Ok(Res::Nothing);
    }
    // no type is held across the `?`
    let place = place_of(alloc, UNTOUCHED, &sig.ret(), shape);
    match place? {
        Place::Direct(pieces) => Ok(Res::Direct(pieces)),
        Place::ByRef { at, .. } => Ok(Res::Hidden {
            at,
            buffer: start(&sig.ret(), end) as u32,
        }),
    }
}

/// s0 to s11 and fs0 to fs11, which a callee saves.
const CALLEE_SAVED: [Loc; 24] = [
    Loc::G(8),
    Loc::G(9),
    Loc::G(18),
    Loc::G(19),
    Loc::G(20),
    Loc::G(21),
    Loc::G(22),
    Loc::G(23),
    Loc::G(24),
    Loc::G(25),
    Loc::G(26),
    Loc::G(27),
    Loc::F(8),
    Loc::F(9),
    Loc::F(18),
    Loc::F(19),
    Loc::F(20),
    Loc::F(21),
    Loc::F(22),
    Loc::F(23),
    Loc::F(24),
    Loc::F(25),
    Loc::F(26),
    Loc::F(27),
];

/// The RISC-V calling standard with LP64D. (RISC-V ELF psABI)
pub struct Riscv;

/// a0 to a7 and fa0 to fa7
const ARGUMENT_REGISTERS: [Loc; 16] = [
    Loc::G(10),
    Loc::G(11),
    Loc::G(12),
    Loc::G(13),
    Loc::G(14),
    Loc::G(15),
    Loc::G(16),
    Loc::G(17),
    Loc::F(10),
    Loc::F(11),
    Loc::F(12),
    Loc::F(13),
    Loc::F(14),
    Loc::F(15),
    Loc::F(16),
    Loc::F(17),
];

/// Where everything stands in a call.
fn plan_of(alloc: Global, sig: &PlacedSig<'_>) -> Result<Plan, NoMemory>
    ensures { IfOk result (λ p. p ≡ plan_of riscv sig.now) }
{
    let shape = result_shape(&sig.ret());
    let Placed { mut places, taken } = place_all(alloc, sig, shape)?;
    let copies_end = lay_copies(&mut places, sig, round_up(stack_of(taken), 16));
    let res = place_result(alloc, sig, shape, copies_end)?;
    let end = buffer_end(&res, &sig.ret(), copies_end);
    Ok(planned(sig, places, res, end, Riscv::LINK + Riscv::SAVE, 0))
}

impl Abi for Riscv {
    ghost use Rattle.ffi3_type_spec.specs.declared.Target.TheVariants as target;
    ghost use Rattle.ffi3_riscv_spec.specs.Riscv.{riscv};

    ghost standard = { riscv };

    ghost SAVE = { riscv.save };

    ghost LINK = { riscv.link };

    ghost TARGET = { target.Riscv };

    ghost KEPT = { length riscv.callee_saved };

    ghost ARGUMENT_REGISTERS = { length riscv.argument_registers };

    const SAVE: u64 = 8 * (CALLEE_SAVED.len() as u64 + 2);

    const LINK: u64 = 0;

    const TARGET: Target = Target::Riscv;

    const KEPT: u8 = CALLEE_SAVED.len() as u8;

    const ARGUMENT_REGISTERS: u8 = ARGUMENT_REGISTERS.len() as u8;

    fn callee_saved(k: u8) -> Loc {
        CALLEE_SAVED[k as usize]
    }

    fn argument_register(k: u8) -> Loc {
        ARGUMENT_REGISTERS[k as usize]
    }

    fn saved_word(k: u8) -> SaveWord {
        // ra, s0 to s11, fs0 to fs11, and the hidden pointer
        if k == 0 {
            SaveWord::Register(Loc::G(1))
        } else if k <= Self::KEPT {
            SaveWord::Register(CALLEE_SAVED[k as usize - 1])
        } else {
            SaveWord::Hidden
        }
    }

    fn vector_count() -> Option<Loc> {
        None
    }

    fn returned_address() -> Option<Loc> {
        None
    }

    fn plan(alloc: Global, sig: &Sig) -> Result<Plan, NoMemory> {
        plan_of(alloc, &PlacedSig::of(sig))
    }

    ghost use Rattle.std.specs.Prelude.{refl};
    ghost use Rattle.std.proofs.lemmas.Bool.{ltb-true};
    ghost use Rattle.ffi3_riscv_spec.proofs.Agrees.{agrees as with_machine};
    ghost use Rattle.ffi3_riscv_spec.proofs.Alike.{goes_by_layout};
    ghost use Rattle.ffi3_riscv_spec.proofs.ByStubs.{by_stubs as with_stubs, result_by_stubs as result_with_stubs};
    ghost use Rattle.ffi3_riscv_spec.proofs.Sound.{sound as every_law, determines};

    ghost save_is = { refl };

    ghost link_is = { refl };

    ghost target_is = { refl };

    ghost kept_all = { refl };

    ghost argument_registers_all = { refl };

    ghost words_few = { ltb-true (length riscv.save_area) 256 refl };

    ghost agrees = { with_machine };

    ghost by_stubs = { λ _. with_stubs };

    ghost result_by_stubs = { λ s _ _. result_with_stubs s };

    ghost sound = { every_law };

    ghost determined = { determines };

    ghost by_layout = { goes_by_layout };
}
