//! The arguments, the hidden result's address and the number of vector registers.
ghost use Rattle.std.specs.Prelude.{◌≡◌, ◌+◌, ◌^◌, ◌<◌, ◌≤◌, length, IfErr, IfOk, None, Some};
ghost use Rattle.std.specs.List.{AllByRecursion};
ghost use Rattle.ffi3_values.specs.ValueOf.{value_of};
ghost use Rattle.ffi3_place_spec.specs.Standard.{frame_of, plan_of};
ghost use Rattle.ffi3_place_spec.specs.MachineRegisters.{to_list};
ghost use Rattle.ffi3_place_spec.specs.Sound.{PlaceHasAll};
ghost use Rattle.ffi3_explain_spec.specs.Explain.{checks_of_arguments, checks_of_count, checks_of_hidden, checks_of_place, first_broken, value_at_place, values_at_places};
ghost use Rattle.ffi3_explain.specs.ImageOf.{image_of};
ghost use Rattle.ffi3_explain.specs.Places.{HasPlace, HiddenIsThere, PlaceIsThere, listed_check};
ghost use Rattle.ffi3_explain.specs.Told.{TellsFirst};

use crate::pieces::explain_pieces;
use crate::places::place_word;
use crate::{Check, Image, Part, Unexplained};
use ffi3_cif::Cif;
use ffi3_place::{Abi, Loc, Place, Res};
use ffi3_types::CheckedType;
use ffi3_values::{Value, Values, value_from_bytes};
use std::alloc::Global;

/// The value of argument `i` from its copy, where its place holds the copy's address.
fn explain_copy(
    alloc: Global,
    image: &Image,
    base: u64,
    i: u32,
    ty: &CheckedType<'_>,
    at: Loc,
    copy: u32,
) -> Result<Value, Unexplained>
    requires there { PlaceIsThere (image_of image.now) base ty.now (Place.ByRef at copy) }
    ensures value { IfOk result (λ v. value_of v ≡ value_at_place (image_of image.now) base ty.now (Place.ByRef at copy)) }
    ensures held { IfOk result (λ v. first_broken (checks_of_place (image_of image.now) base i ty.now (Place.ByRef at copy)) ≡ None) }
    ensures broken { IfErr result (λ f. TellsFirst (first_broken (checks_of_place (image_of image.now) base i ty.now (Place.ByRef at copy))) f) }
{
    // its length tells that the sums below are small
    let _len = image.stack.len();
    let check = Check {
        part: Part::Arg(i),
        place: at,
        found: place_word(image, base, at),
        wants: image.sp + base + copy as u64,
    };
    if check.found != check.wants {
        return Err(Unexplained::NotHeld(check));
    }
    let start = (base + copy as u64) as usize;
    let bytes = &image.stack.as_slice()[start..start + ty.size() as usize];
    let Ok(value) = value_from_bytes(alloc, ty.as_type(), bytes) else {
        return Err(Unexplained::NoMemory);
    };
    Ok(value)
}

/// The value of argument `i`, or its first place that does not hold what is wanted.
fn explain_argument(
    alloc: Global,
    image: &Image,
    base: u64,
    i: u32,
    ty: &CheckedType<'_>,
    place: &Place,
) -> Result<Value, Unexplained>
    requires there { PlaceIsThere (image_of image.now) base ty.now place.now }
    requires has_all { PlaceHasAll ty.now place.now }
    ensures value { IfOk result (λ v. value_of v ≡ value_at_place (image_of image.now) base ty.now place.now) }
    ensures held { IfOk result (λ v. first_broken (checks_of_place (image_of image.now) base i ty.now place.now) ≡ None) }
    ensures broken { IfErr result (λ f. TellsFirst (first_broken (checks_of_place (image_of image.now) base i ty.now place.now)) f) }
{
    match place {
        Place::Direct(pieces) => explain_pieces(alloc, image, base, i, ty, pieces),
        Place::ByRef { at, copy } => explain_copy(alloc, image, base, i, ty, *at, *copy),
    }
}

/// The arguments' values, or the first place of an argument that does not hold what is wanted.
pub fn explain_arguments<A: Abi>(
    alloc: Global,
    image: &Image,
    base: u64,
    cif: &Cif<A>,
) -> Result<Values, Unexplained>
    requires link { base ≡ A.standard.link }
    requires stack { base + frame_of A.standard cif.now ≤ length image.now.stack }
    requires high { image.now.sp + base + frame_of A.standard cif.now < 2 ^ 64 }
    ensures values { IfOk result (λ vs. vs ≡ values_at_places (image_of image.now) base cif.now.arguments (plan_of A.standard cif.now).places) }
    ensures held { IfOk result (λ vs. first_broken (checks_of_arguments (image_of image.now) base 0 cif.now.arguments (plan_of A.standard cif.now).places) ≡ None) }
    ensures broken { IfErr result (λ f. TellsFirst (first_broken (checks_of_arguments (image_of image.now) base 0 cif.now.arguments (plan_of A.standard cif.now).places)) f) }
{
    let sig = cif.checked_sig();
    let count = sig.count();
    let mut values = Values::new(alloc);
    for i in 0..count {
        let ty = sig.arg(i);
        match explain_argument(alloc, image, base, i, &ty, cif.place(i)) {
            Ok(value) => {
                let Ok(()) = values.push(value) else {
                    return Err(Unexplained::NoMemory);
                };
            }
            Err(fault) => return Err(fault),
        }
    }
    Ok(values)
}

/// What the place of a hidden result's address holds, and what it is wanted to hold.
pub fn hidden_check(image: &Image, base: u64, res: &Res) -> Option<Check>
    requires { HiddenIsThere (image_of image.now) base res.now }
    ensures { listed_check result ≡ checks_of_hidden (image_of image.now) base res.now }
{
    match res {
        Res::Hidden { at, buffer } => Some(Check {
            part: Part::Hidden,
            place: *at,
            found: place_word(image, base, *at),
            wants: image.sp + base + *buffer as u64,
        }),
        Res::Nothing | Res::Direct(_) => None,
    }
}

/// What the register of the number of vector registers holds, and what it is wanted to hold.
pub fn count_check(image: &Image, count: Option<Loc>, vectors: u8) -> Option<Check>
    requires { AllByRecursion (HasPlace (image_of image.now) 0) (to_list count) }
    ensures { listed_check result ≡ checks_of_count (image_of image.now) count vectors }
{
    match count {
        Some(at) => Some(Check {
            part: Part::Count,
            place: at,
            found: place_word(image, 0, at),
            wants: vectors as u64,
        }),
        None => None,
    }
}

/// The check, where it fails.
pub fn broken(check: Option<Check>) -> Option<Check>
    ensures { result ≡ first_broken (listed_check check) }
{
    match check {
        Some(check) => {
            if check.found != check.wants {
                return Some(check);
            }
            None
        }
        None => None,
    }
}
