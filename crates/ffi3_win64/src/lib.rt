//! The Microsoft x64 calling standard.
#![tactic(auto)]

ghost use Rattle.std.specs.Prelude.{◌≡◌, ◌<◌, ◌≤◌, ◌+◌, ◌*◌, length, IfOk, is_some, false};
ghost use Rattle.ffi3_type_spec.specs.declared.limits.TheConstants.{ARGUMENT_BYTES, MOST_ARGUMENTS};
ghost use Rattle.ffi3_type_spec.specs.Tree.{Tree};
ghost use Rattle.ffi3_types.specs.TreeOf.{tree_of};
ghost use Rattle.ffi3_place_spec.specs.Standard.{places_from, place_at, copies_end, result_at, plan_of};
ghost use Rattle.ffi3_win64_spec.specs.Win64.{win64, is_whole_size, is_copied, position_place, floating_places, whole, whole_in, argument_pieces, spot_at, spots_from, first_position, result_place, result_spot_of, stack_of, copy_start};

pub mod laws;

use ffi3_place::ends::{buffer_end, copy_end, planned};
use ffi3_place::parts::{one_piece, two_pieces, widening};
use ffi3_place::{Abi, Loc, Piece, Pieces, Place, Places, Plan, Res, SaveWord};
use ffi3_type_spec::round_up;
use ffi3_types::{CheckedType, FfiType, NoMemory, PlacedSig, Sig, Target};
pub use laws::placement_laws;
use std::alloc::Global;

// ---- what is passed

/// Whether a value of so many bytes is passed as it is: 1, 2, 4 or 8, or none.
fn is_whole_size(size: u64) -> bool
    ensures { result ≡ is_whole_size size }
{
    size == 0 || size == 1 || size == 2 || size == 4 || size == 8
}

/// Whether the caller copies a value and passes the address of the copy. ("Parameter passing")
fn is_copied(ty: &CheckedType<'_>) -> bool
    ensures { result ≡ is_copied ty.now }
{
    !is_whole_size(ty.size())
}

// ---- positions

/// rcx, rdx, r8 and r9
const GENERAL_ARGUMENTS: [u8; 4] = [1, 2, 8, 9];

/// The general register of a position, or its stack.
fn position_place(p: u64) -> Loc
    requires { p ≤ MOST_ARGUMENTS }
    ensures { result ≡ position_place p }
{
    if p < 4 {
        Loc::G(GENERAL_ARGUMENTS[p as usize])
    } else {
        Loc::S((8 * p) as u32, 8)
    }
}

/// A value in one place.
fn whole(ty: &CheckedType<'_>, loc: Loc) -> Piece
    requires { is_copied ty.now ≡ false }
    ensures { result ≡ whole loc ty.now }
{
    Piece {
        loc,
        off: 0,
        len: ty.size() as u8,
        ext: widening(ty.as_type()),
    }
}

/// A floating-point value in registers: the vector register of its position, and before it the general one where arguments are variable. ("Varargs")
fn floating_pieces(
    alloc: Global,
    variadic: bool,
    p: u64,
    ty: &CheckedType<'_>,
) -> Result<Pieces, NoMemory>
    requires direct { is_copied ty.now ≡ false }
    requires few { p < 4 }
    ensures { IfOk result (λ ps. ps ≡ whole_in ty.now (floating_places variadic p)) }
{
    let vector = whole(ty, Loc::F(p as u8));
    if variadic {
        let general = whole(ty, Loc::G(GENERAL_ARGUMENTS[p as usize]));
        two_pieces(alloc, general, vector)
    } else {
        one_piece(alloc, vector)
    }
}

/// The pieces of an argument that is not copied.
fn argument_pieces(
    alloc: Global,
    variadic: bool,
    p: u64,
    ty: &CheckedType<'_>,
) -> Result<Pieces, NoMemory>
    requires direct { is_copied ty.now ≡ false }
    requires few { p ≤ MOST_ARGUMENTS }
    ensures { IfOk result (λ ps. ps ≡ argument_pieces variadic p ty.now) }
{
    if ty.as_type().is_floating() && p < 4 {
        floating_pieces(alloc, variadic, p, ty)
    } else {
        one_piece(alloc, whole(ty, position_place(p)))
    }
}

// ---- arguments

/// Where a copy or a buffer begins, after the end of what stands before it in the frame.
fn copy_start(end: u64) -> u64
    requires { end ≤ 2 * ARGUMENT_BYTES }
    ensures value { (t : Tree) → result ≡ copy_start end t }
    ensures low { result < end + 16 }
{
    round_up(end, 16)
}

/// Where the argument in position `p` stands, if what is before its copy ends at `end`.
fn place_of(
    alloc: Global,
    variadic: bool,
    p: u64,
    ty: &CheckedType<'_>,
    end: u64,
) -> Result<Place, NoMemory>
    requires few { p ≤ MOST_ARGUMENTS }
    requires low { end ≤ 2 * ARGUMENT_BYTES }
    ensures { IfOk result (λ r. r ≡ place_at win64.copy_start end ty.now (spot_at variadic p ty.now)) }
{
    if is_copied(ty) {
        return Ok(Place::ByRef {
            at: position_place(p),
            copy: copy_start(end) as u32,
        });
    }
    Ok(Place::Direct(argument_pieces(alloc, variadic, p, ty)?))
}

/// The places of all arguments, and where their copies end.
#[derive(Drop)]
struct Placed {
    places: Places,
    end: u64,
}

/// Whether a signature has variable arguments.
fn is_variadic(sig: &PlacedSig<'_>) -> bool
    ensures { result ≡ is_some sig.now.fixed }
{
    sig.fixed().is_some()
}

/// The places of all arguments, in the positions from `first` on, if the copies stand from `start` on.
fn place_all(alloc: Global, sig: &PlacedSig<'_>, first: u64, start: u64) -> Result<Placed, NoMemory>
    requires few { first ≤ 1 }
    requires low { start ≤ 16 * MOST_ARGUMENTS }
    ensures places { IfOk result (λ p. p.places ≡ places_from win64.copy_start start sig.now.arguments (spots_from (is_some sig.now.fixed) first sig.now.arguments)) }
    ensures end { IfOk result (λ p. p.end ≡ copies_end win64.copy_start start sig.now.arguments (spots_from (is_some sig.now.fixed) first sig.now.arguments)) }
    ensures near { IfOk result (λ p. p.end ≤ start + ARGUMENT_BYTES) }
{
    let variadic = is_variadic(sig);
    let mut end = start;
    let mut places = Places::with_capacity(alloc, sig.count() as usize)?;
    for i in 0..sig.count() {
        let p = first + i as u64;
        let place = place_of(alloc, variadic, p, &sig.arg(i), end)?;
        end = copy_end(&place, &sig.arg(i), end);
        places.push(place)?;
    }
    Ok(Placed { places, end })
}

/// The position of the first argument: the address of a hidden result stands before it.
fn first_position(is_hidden: bool) -> u64
    ensures value { (t : Tree) → is_hidden ≡ is_copied t → result ≡ first_position t }
    ensures few { result ≤ 1 }
{
    if is_hidden { 1 } else { 0 }
}

/// The stack of so many positions, of which the callee has that of four at least.
fn stack_of(positions: u64) -> u64
    requires { positions ≤ MOST_ARGUMENTS + 1 }
    ensures value { result ≡ stack_of positions }
    ensures low { result ≤ 8 * (MOST_ARGUMENTS + 1) }
{
    if positions < 4 { 32 } else { 8 * positions }
}

// ---- results

/// rax, or xmm0
fn result_place(ty: &FfiType) -> Loc
    ensures { result ≡ result_place (tree_of ty.now) }
{
    if ty.is_floating() {
        Loc::F(0)
    } else {
        Loc::G(0)
    }
}

/// Where a result stands, hidden or not, if what is before its buffer ends at `end`.
fn place_result(
    alloc: Global,
    ty: &CheckedType<'_>,
    is_hidden: bool,
    end: u64,
) -> Result<Res, NoMemory>
    requires hidden { is_hidden ≡ is_copied ty.now }
    requires low { end ≤ 2 * ARGUMENT_BYTES }
    ensures { IfOk result (λ r. r ≡ result_at win64.copy_start end ty.now (result_spot_of ty.now)) }
{
    let plain = ty.as_type();
    if let FfiType::Void = plain {
        return Ok(Res::Nothing);
    }
    if is_hidden {
        return Ok(Res::Hidden {
            at: position_place(0),
            buffer: copy_start(end) as u32,
        });
    }
    let piece = whole(ty, result_place(plain));
    Ok(Res::Direct(one_piece(alloc, piece)?))
}

// ---- the standard

/// The nonvolatile registers: rbx, rbp, rdi, rsi, r12 to r15, and the low halves of xmm6 to xmm15.
const CALLEE_SAVED: [Loc; 18] = [
    Loc::G(3),
    Loc::G(5),
    Loc::G(7),
    Loc::G(6),
    Loc::G(12),
    Loc::G(13),
    Loc::G(14),
    Loc::G(15),
    Loc::F(6),
    Loc::F(7),
    Loc::F(8),
    Loc::F(9),
    Loc::F(10),
    Loc::F(11),
    Loc::F(12),
    Loc::F(13),
    Loc::F(14),
    Loc::F(15),
];

/// rcx, rdx, r8 and r9, and xmm0 to xmm3
const ARGUMENT_REGISTERS: [Loc; 8] = [
    Loc::G(GENERAL_ARGUMENTS[0]),
    Loc::G(GENERAL_ARGUMENTS[1]),
    Loc::G(GENERAL_ARGUMENTS[2]),
    Loc::G(GENERAL_ARGUMENTS[3]),
    Loc::F(0),
    Loc::F(1),
    Loc::F(2),
    Loc::F(3),
];

/// The Microsoft x64 calling standard. ("x64 calling convention")
pub struct Win64;

/// Where everything stands in a call.
fn plan_of(alloc: Global, sig: &PlacedSig<'_>) -> Result<Plan, NoMemory>
    ensures { IfOk result (λ p. p ≡ plan_of win64 sig.now) }
{
    let is_hidden = is_copied(&sig.ret());
    let first = first_position(is_hidden);
    let stack = stack_of(first + sig.count() as u64);
    let all = place_all(alloc, sig, first, round_up(stack, 16))?;
    let res = place_result(alloc, &sig.ret(), is_hidden, all.end)?;
    let end = buffer_end(&res, &sig.ret(), all.end);
    Ok(planned(sig, all.places, res, end, Win64::LINK + Win64::SAVE, 0))
}

impl Abi for Win64 {
    ghost use Rattle.ffi3_win64_spec.specs.Win64.{win64};

    ghost standard = { win64 };

    ghost SAVE = { win64.save };

    ghost LINK = { win64.link };

    ghost TARGET = { win64.target };

    ghost KEPT = { length win64.callee_saved };

    ghost ARGUMENT_REGISTERS = { length win64.argument_registers };

    const SAVE: u64 = 8 * (CALLEE_SAVED.len() as u64 + 1);

    const LINK: u64 = 8;

    const TARGET: Target = Target::Win64;

    const KEPT: u8 = CALLEE_SAVED.len() as u8;

    const ARGUMENT_REGISTERS: u8 = ARGUMENT_REGISTERS.len() as u8;

    fn callee_saved(k: u8) -> Loc {
        CALLEE_SAVED[k as usize]
    }

    fn argument_register(k: u8) -> Loc {
        ARGUMENT_REGISTERS[k as usize]
    }

    fn saved_word(k: u8) -> SaveWord {
        if k < Self::KEPT {
            SaveWord::Register(Self::callee_saved(k))
        } else {
            SaveWord::Hidden
        }
    }

    fn vector_count() -> Option<Loc> {
        None
    }

    fn returned_address() -> Option<Loc> {
        Some(Loc::G(0))
    }

    fn plan(alloc: Global, sig: &Sig) -> Result<Plan, NoMemory> {
        plan_of(alloc, &PlacedSig::of(sig))
    }

    ghost use Rattle.std.specs.Prelude.{refl};
    ghost use Rattle.std.proofs.lemmas.Bool.{ltb-true};
    ghost use Rattle.ffi3_win64_spec.proofs.Agrees.{agrees as agrees_with_machine};
    ghost use Rattle.ffi3_win64_spec.proofs.Alike.{goes_by_layout};
    ghost use Rattle.ffi3_win64_spec.proofs.ByStubs.{by_stubs as without_stubs, result_by_stubs as result_without_stubs};
    ghost use Rattle.ffi3_win64_spec.proofs.Sound.{sound as every_law, determines};

    ghost save_is = { refl };

    ghost link_is = { refl };

    ghost target_is = { refl };

    ghost kept_all = { refl };

    ghost argument_registers_all = { refl };

    ghost words_few = { ltb-true (length win64.save_area) 256 refl };

    ghost agrees = { agrees_with_machine };

    ghost by_stubs = { without_stubs };

    ghost result_by_stubs = { λ s _ is. result_without_stubs s is };

    ghost sound = { every_law };

    ghost determined = { determines };

    ghost by_layout = { goes_by_layout };
}
