//! Where things begin and end in the frame of a call, and the plan that ends with them. Where copies and buffers begin
//! is `start` by four standards; Microsoft x64 has a rule of its own. The rest is alike by all.
ghost use Rattle.std.specs.Prelude.{◌<◌, ◌^◌, ◌≡◌, ◌≤◌, ◌+◌, ℕ, List, length, map};
ghost use Rattle.ffi3_type_spec.specs.declared.limits.TheConstants.{ARGUMENT_BYTES, ARGUMENT_SPAN, LARGEST_GAP, LARGEST_TYPE, STACK_BYTES};
ghost use Rattle.ffi3_type_spec.specs.Tree.{Tree};
ghost use Rattle.ffi3_place_spec.specs.Standard.{Spot, ResultSpot, start, place_at, copy_end, places_from, copies_end, result_at, buffer_end};
ghost use Rattle.ffi3_place_spec.specs.Planned.{planned};
ghost use Rattle.ffi3_place.specs.WithoutCopy.{without_copy};

use crate::parts::sizes_of;
use ffi3_place_spec::{Place, Places, Plan, Res};
use ffi3_type_spec::round_up;
use ffi3_types::{CheckedType, PlacedSig};

/// Where something of a type begins, after the end of what stands before it: at the next multiple of the type's alignment, and of eight bytes at least.
pub fn start(ty: &CheckedType<'_>, end: u64) -> u64
    requires { end < 2 ^ 32 }
    ensures value { result ≡ start end ty.now }
    ensures near { result ≤ end + LARGEST_GAP }
{
    round_up(end, 8_u64.max(ty.align()))
}

/// Where an argument's copy ends. Without one, that is `end`, where what stands before it ends.
pub fn copy_end(place: &Place, ty: &CheckedType<'_>, end: u64) -> u64
    ensures value { (begin : ℕ → Tree → ℕ) (spot : Spot) → place.now ≡ place_at begin end ty.now spot → result ≡ copy_end begin end ty.now spot }
    ensures low { (begin : ℕ → Tree → ℕ) (spot : Spot) → place.now ≡ place_at begin end ty.now spot → begin end ty.now ≤ end + LARGEST_GAP → result ≤ end + ARGUMENT_SPAN }
{
    match place {
        Place::Direct(_) => end,
        Place::ByRef { copy, .. } => *copy as u64 + round_up(ty.size(), 8),
    }
}

/// Places the copies of the arguments in the frame, in their order, one behind another from `from` on. Returns where the last one ends, or `from` where there is none.
pub fn lay_copies(places: &mut Places, sig: &PlacedSig<'_>, from: u64) -> u64
    requires unlaid { (spots : List Spot) × (places.old ≡ map without_copy spots) }
    requires one_each { length places.old ≡ length sig.now.arguments }
    requires low { from ≤ ARGUMENT_BYTES }
    ensures laid { (spots : List Spot) → places.old ≡ map without_copy spots → places.new ≡ places_from start from sig.now.arguments spots }
    ensures end { (spots : List Spot) → places.old ≡ map without_copy spots → result ≡ copies_end start from sig.now.arguments spots }
    ensures near { result ≤ from + ARGUMENT_BYTES }
{
    let mut end = from;
    for i in 0..sig.count() {
        if let Place::ByRef { at, .. } = places.get(i as usize) {
            let ty = sig.arg(i);
            let laid = Place::ByRef {
                at: *at,
                copy: start(&ty, end) as u32,
            };
            end = copy_end(&laid, &ty, end);
            places.set(i as usize, laid);
        }
    }
    end
}

/// Where the buffer of a hidden result ends. Without one, that is `end`, where what stands before it ends.
pub fn buffer_end(res: &Res, ty: &CheckedType<'_>, end: u64) -> u64
    requires { end < 2 ^ 32 }
    ensures value { (begin : ℕ → Tree → ℕ) (spot : ResultSpot) → res.now ≡ result_at begin end ty.now spot → result ≡ buffer_end begin end ty.now spot }
    ensures low { result < 2 ^ 32 + (LARGEST_TYPE + 7) }
{
    match res {
        Res::Nothing => end,
        Res::Direct(_) => end,
        Res::Hidden { buffer, .. } => *buffer as u64 + round_up(ty.size(), 8),
    }
}

/// The plan of a call from its places: the last copy or buffer ends at `end`, and the return address and the callee's save area take `area` bytes.
pub fn planned(
    sig: &PlacedSig<'_>,
    places: Places,
    res: Res,
    end: u64,
    area: u64,
    vectors: u8,
) -> Plan
    requires low { end < 2 ^ 32 + (LARGEST_TYPE + 7) }
    requires small { area ≤ STACK_BYTES }
    ensures { result ≡ planned sig.now places res end area vectors }
{
    let frame = round_up(end, 16);
    let block = round_up(sizes_of(sig), 16);
    Plan {
        places,
        res,
        need: frame + area + block,
        frame,
        block,
        vectors,
    }
}
