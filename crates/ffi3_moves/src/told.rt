//! The moves of a call, as C has them, straight into an array of whoever asks for them: no memory is taken.
ghost use Rattle.std.specs.Prelude.{◌≡◌, ◌+◌, ◌<◌, ◌≤◌, ◌^◌, ℕ, SomeIff, OnSome, None, [], ◌∷◌, length, map};
ghost use Rattle.std.proofs.lemmas.List.Edits.{sets};
ghost use Rattle.ffi3_type_spec.specs.Tree.{Tree};
ghost use Rattle.ffi3_place_spec.specs.declared.Loc.{Loc};
ghost use Rattle.ffi3_place_spec.specs.declared.Place.TheVariants.{ByRef};
ghost use Rattle.ffi3_place_spec.specs.Standard.{plan_of};
ghost use Rattle.ffi3_moves.specs.Moves.{argument_in, argument_moves, argument_out, arguments_moves, collect_moves, count_in, give_moves, hidden_move, load_moves, moves_of, pieces_in, pieces_out, result_in, result_out, store_moves};
ghost use Rattle.ffi3_moves.specs.Told.{kind_number, told_in, told_move};

use crate::kinds::{Way, exchange_at, piece_in, piece_out};
use crate::{FRAME_AT, Kind, Move, hidden_move};
use ffi3_cif::Placed;
use ffi3_place::{Abi, Loc, Pieces, Place, Res};
use ffi3_type_spec::round_up;
use ffi3_types::CheckedType;

/// A move: C's `struct ffi3_move`.
#[repr(C)]
#[derive(Clone, Copy)]
pub struct ToldMove {
    /// How it makes the bytes that it writes.
    pub kind: u32,
    /// The number of the argument whose value it moves; 0 for a result, and for the number of vector registers.
    pub part: u32,
    pub from: u64,
    pub to: u64,
    pub length: u64,
}

/// The number of a kind.
#[inline(always)]
fn kind_number(kind: Kind) -> u32
    ensures { result ≡ kind_number kind }
{
    match kind {
        Kind::Bytes => 0,
        Kind::Zero => 1,
        Kind::Sign => 2,
        Kind::Ones => 3,
        Kind::Number => 4,
        Kind::Address => 5,
        Kind::Behind => 6,
    }
}

#[inline(always)]
fn told_move(one: Move) -> ToldMove
    ensures { result ≡ told_move one }
{
    ToldMove {
        kind: kind_number(one.kind),
        part: one.part,
        from: one.from,
        to: one.to,
        length: one.length,
    }
}

// ---- those of one value, from item `at` of the array on; answered is the item behind them

#[inline(always)]
fn put_pieces_in(
    told: &mut [ToldMove],
    at: usize,
    part: u32,
    from: u64,
    ty: &CheckedType<'_>,
    pieces: &Pieces,
) -> usize
    requires low { from < 2 ^ 32 }
    requires room { at + length pieces.now ≤ length told.old }
    ensures end { result ≡ at + length pieces.now }
    ensures put { told.new ≡ sets told.old at (map told_move (pieces_in part from ty.now pieces.now)) }
{
    for j in 0..pieces.len() {
        told[at + j] = told_move(piece_in(part, from, ty, *pieces.get(j)));
    }
    at + pieces.len()
}

/// From the last to the first.
#[inline(always)]
fn put_pieces_out(told: &mut [ToldMove], at: usize, part: u32, to: u64, pieces: &Pieces) -> usize
    requires low { to < 2 ^ 32 }
    requires room { at + length pieces.now ≤ length told.old }
    ensures end { result ≡ at + length pieces.now }
    ensures put { told.new ≡ sets told.old at (map told_move (pieces_out part to pieces.now)) }
{
    let count = pieces.len();
    for j in 0..count {
        told[at + j] = told_move(piece_out(part, to, *pieces.get(count - 1 - j)));
    }
    at + count
}

#[inline(always)]
fn put_argument_in(
    told: &mut [ToldMove],
    at: usize,
    part: u32,
    from: u64,
    ty: &CheckedType<'_>,
    place: &Place,
) -> usize
    requires low { from < 2 ^ 32 }
    requires room { at + length (argument_in part from ty.now place.now) ≤ length told.old }
    ensures end { result ≡ at + length (argument_in part from ty.now place.now) }
    ensures put { told.new ≡ sets told.old at (map told_move (argument_in part from ty.now place.now)) }
{
    match place {
        Place::Direct(pieces) => put_pieces_in(told, at, part, from, ty, pieces),
        Place::ByRef { at: to, copy } => {
            told[at] = told_move(Move {
                kind: Kind::Bytes,
                part,
                from,
                to: FRAME_AT + *copy as u64,
                length: ty.size(),
            });
            told[at + 1] = told_move(Move {
                kind: Kind::Address,
                part,
                from: *copy as u64,
                to: exchange_at(*to),
                length: 8,
            });
            at + 2
        }
    }
}

#[inline(always)]
fn put_argument_out(
    told: &mut [ToldMove],
    at: usize,
    part: u32,
    to: u64,
    ty: &CheckedType<'_>,
    place: &Place,
) -> usize
    requires low { to < 2 ^ 32 }
    requires room { at + length (argument_out part to ty.now place.now) ≤ length told.old }
    ensures end { result ≡ at + length (argument_out part to ty.now place.now) }
    ensures put { told.new ≡ sets told.old at (map told_move (argument_out part to ty.now place.now)) }
{
    match place {
        Place::Direct(pieces) => put_pieces_out(told, at, part, to, pieces),
        Place::ByRef { at: from, .. } => {
            told[at] = told_move(Move {
                kind: Kind::Behind,
                part,
                from: exchange_at(*from),
                to,
                length: ty.size(),
            });
            at + 1
        }
    }
}

/// The one way or the other.
#[inline(always)]
fn put_argument(
    told: &mut [ToldMove],
    way: Way,
    at: usize,
    part: u32,
    offset: u64,
    ty: &CheckedType<'_>,
    place: &Place,
) -> usize
    requires low { offset < 2 ^ 32 }
    requires room { at + length (argument_moves way part offset ty.now place.now) ≤ length told.old }
    ensures end { result ≡ at + length (argument_moves way part offset ty.now place.now) }
    ensures put { told.new ≡ sets told.old at (map told_move (argument_moves way part offset ty.now place.now)) }
{
    match way {
        Way::In => put_argument_in(told, at, part, offset, ty, place),
        Way::Out => put_argument_out(told, at, part, offset, ty, place),
    }
}

// ---- how many they are

/// Of an argument by reference the value is moved and, on the way in, the address of its copy.
fn count_of_reference(way: Way) -> usize
    ensures { (i at : ℕ) (t : Tree) (l : Loc) (copy : ℕ) → result ≡ length (argument_moves way i at t (ByRef l copy)) }
{
    match way {
        Way::In => 2,
        Way::Out => 1,
    }
}

fn count_of_argument(way: Way, place: &Place) -> usize
    ensures { (i at : ℕ) (t : Tree) → result ≡ length (argument_moves way i at t place.now) }
{
    match place {
        Place::Direct(pieces) => pieces.len(),
        Place::ByRef { .. } => count_of_reference(way),
    }
}

/// Those of all arguments, unless they are 2^64 or more.
fn count_of_arguments<A: Abi>(way: Way, cif: &Placed<A>) -> Option<usize>
    ensures { SomeIff result (length (arguments_moves way 0 0 cif.now.arguments (plan_of A.standard cif.now).places) < 2 ^ 64) (length (arguments_moves way 0 0 cif.now.arguments (plan_of A.standard cif.now).places)) }
{
    let sig = cif.placed_sig();
    let mut count: usize = 0;
    for i in 0..sig.count() {
        let here = count_of_argument(way, cif.place(i));
        let Some(more) = count.checked_add(here) else {
            return None;
        };
        count = more;
    }
    Some(count)
}

// ---- those of all arguments, from the first item on

fn put_arguments<A: Abi>(told: &mut [ToldMove], way: Way, cif: &Placed<A>) -> usize
    requires { length (arguments_moves way 0 0 cif.now.arguments (plan_of A.standard cif.now).places) ≤ length told.old }
    ensures end { result ≡ length (arguments_moves way 0 0 cif.now.arguments (plan_of A.standard cif.now).places) }
    ensures put { told.new ≡ sets told.old 0 (map told_move (arguments_moves way 0 0 cif.now.arguments (plan_of A.standard cif.now).places)) }
{
    let sig = cif.placed_sig();
    let mut at = 0;
    let mut offset = 0;
    for i in 0..sig.count() {
        let ty = sig.arg(i);
        at = put_argument(told, way, at, i, offset, &ty, cif.place(i));
        offset += round_up(ty.size(), 8);
    }
    at
}

/// That of the number of vector registers, if there is one.
fn count_of_count(at: Option<Loc>) -> usize
    ensures { (n : ℕ) → result ≡ length (count_in at n) }
{
    match at {
        Some(_) => 1,
        None => 0,
    }
}

fn put_count(told: &mut [ToldMove], end: usize, at: Option<Loc>, vectors: u8)
    requires { end + length (count_in at vectors) ≤ length told.old }
    ensures { told.new ≡ sets told.old end (map told_move (count_in at vectors)) }
{
    match at {
        Some(at) => {
            told[end] = told_move(Move {
                kind: Kind::Number,
                part: 0,
                from: vectors as u64,
                to: exchange_at(at),
                length: 8,
            });
        }
        None => {}
    }
}

// ---- the lists: answered is how many moves one has, and nothing is written where these have no room

/// How many the caller's arguments have, unless they are 2^64 or more.
fn count_of_store<A: Abi>(cif: &Placed<A>) -> Option<usize>
    ensures { SomeIff result (length (store_moves A.standard cif.now) < 2 ^ 64) (length (store_moves A.standard cif.now)) }
{
    let Some(arguments) = count_of_arguments(Way::In, cif) else {
        return None;
    };
    arguments.checked_add(count_of_count(A::vector_count()))
}

fn put_store<A: Abi>(told: &mut [ToldMove], cif: &Placed<A>)
    requires { length (store_moves A.standard cif.now) ≤ length told.old }
    ensures { told.new ≡ told_in (store_moves A.standard cif.now) told.old }
{
    let end = put_arguments(told, Way::In, cif);
    put_count(told, end, A::vector_count(), cif.vectors());
}

/// The caller's arguments: what `moves_to_store` lists.
pub fn tell_moves_to_store<A: Abi>(told: &mut [ToldMove], cif: &Placed<A>) -> Option<usize>
    ensures count { SomeIff result (length (store_moves A.standard cif.now) < 2 ^ 64) (length (store_moves A.standard cif.now)) }
    ensures told { OnSome result (told.new ≡ told_in (store_moves A.standard cif.now) told.old) }
    ensures untold { result ≡ None → told.new ≡ told.old }
{
    let Some(count) = count_of_store(cif) else {
        return None;
    };
    if told.len() < count {
        return Some(count);
    }
    put_store(told, cif);
    Some(count)
}

fn put_collect<A: Abi>(told: &mut [ToldMove], cif: &Placed<A>)
    requires { length (collect_moves A.standard cif.now) ≤ length told.old }
    ensures { told.new ≡ told_in (collect_moves A.standard cif.now) told.old }
{
    put_arguments(told, Way::Out, cif);
}

/// The callee's arguments: what `moves_to_collect` lists.
pub fn tell_moves_to_collect<A: Abi>(told: &mut [ToldMove], cif: &Placed<A>) -> Option<usize>
    ensures count { SomeIff result (length (collect_moves A.standard cif.now) < 2 ^ 64) (length (collect_moves A.standard cif.now)) }
    ensures told { OnSome result (told.new ≡ told_in (collect_moves A.standard cif.now) told.old) }
    ensures untold { result ≡ None → told.new ≡ told.old }
{
    let Some(count) = count_of_arguments(Way::Out, cif) else {
        return None;
    };
    if told.len() < count {
        return Some(count);
    }
    put_collect(told, cif);
    Some(count)
}

fn tell_pieces_out(told: &mut [ToldMove], pieces: &Pieces) -> usize
    ensures count { result ≡ length (pieces_out 0 0 pieces.now) }
    ensures told { told.new ≡ told_in (pieces_out 0 0 pieces.now) told.old }
{
    let count = pieces.len();
    if told.len() < count {
        return count;
    }
    put_pieces_out(told, 0, 0, 0, pieces)
}

fn tell_one(told: &mut [ToldMove], one: Move) -> usize
    ensures count { result ≡ 1 }
    ensures told { told.new ≡ told_in (one ∷ []) told.old }
{
    if told.len() == 0 {
        return 1;
    }
    told[0] = told_move(one);
    1
}

fn tell_result_out(told: &mut [ToldMove], ty: &CheckedType<'_>, res: &Res) -> usize
    ensures count { result ≡ length (result_out ty.now res.now) }
    ensures told { told.new ≡ told_in (result_out ty.now res.now) told.old }
{
    match res {
        Res::Nothing => 0,
        Res::Direct(pieces) => tell_pieces_out(told, pieces),
        Res::Hidden { buffer, .. } => tell_one(
            told,
            Move {
                kind: Kind::Bytes,
                part: 0,
                from: FRAME_AT + *buffer as u64,
                to: 0,
                length: ty.size(),
            },
        ),
    }
}

/// The caller's result: what `moves_to_load` lists.
pub fn tell_moves_to_load<A: Abi>(told: &mut [ToldMove], cif: &Placed<A>) -> usize
    ensures count { result ≡ length (load_moves A.standard cif.now) }
    ensures told { told.new ≡ told_in (load_moves A.standard cif.now) told.old }
{
    tell_result_out(told, &cif.placed_sig().ret(), cif.result_place())
}

fn tell_pieces_in(told: &mut [ToldMove], ty: &CheckedType<'_>, pieces: &Pieces) -> usize
    ensures count { result ≡ length (pieces_in 0 0 ty.now pieces.now) }
    ensures told { told.new ≡ told_in (pieces_in 0 0 ty.now pieces.now) told.old }
{
    let count = pieces.len();
    if told.len() < count {
        return count;
    }
    put_pieces_in(told, 0, 0, 0, ty, pieces)
}

fn tell_result_in(told: &mut [ToldMove], ty: &CheckedType<'_>, res: &Res) -> usize
    ensures count { result ≡ length (result_in ty.now res.now) }
    ensures told { told.new ≡ told_in (result_in ty.now res.now) told.old }
{
    match res {
        Res::Nothing => 0,
        Res::Direct(pieces) => tell_pieces_in(told, ty, pieces),
        Res::Hidden { .. } => 0,
    }
}

/// The callee's result: what `moves_to_give` lists.
pub fn tell_moves_to_give<A: Abi>(told: &mut [ToldMove], cif: &Placed<A>) -> usize
    ensures count { result ≡ length (give_moves A.standard cif.now) }
    ensures told { told.new ≡ told_in (give_moves A.standard cif.now) told.old }
{
    tell_result_in(told, &cif.placed_sig().ret(), cif.result_place())
}

/// The address of a hidden result's buffer: `hidden_move`, or nothing.
pub fn tell_hidden_move<A: Abi>(told: &mut [ToldMove], cif: &Placed<A>) -> usize
    ensures count { result ≡ length (moves_of (hidden_move A.standard cif.now)) }
    ensures told { told.new ≡ told_in (moves_of (hidden_move A.standard cif.now)) told.old }
{
    match hidden_move(cif) {
        Some(one) => tell_one(told, one),
        None => 0,
    }
}
