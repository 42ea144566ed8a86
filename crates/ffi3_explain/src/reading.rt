//! The arguments by the standard alone.
ghost use Rattle.std.specs.Prelude.{◌≡◌, ◌<◌, ◌≤◌, List, length, true, IfErr, IfOk, None};
ghost use Rattle.ffi3_type_spec.specs.Tree.{trees_of};
ghost use Rattle.ffi3_type_spec.specs.Value.{ValueTree, all_fit, values_of};
ghost use Rattle.ffi3_values.specs.ValueOf.{value_of};
ghost use Rattle.ffi3_place_spec.specs.Standard.{plan_of};
ghost use Rattle.ffi3_place_spec.specs.Sound.{PlaceHasAll};
ghost use Rattle.ffi3_place_spec.specs.Holds.{Own};
ghost use Rattle.ffi3_explain_spec.specs.Arguments.{are_values, first_outside, held_by_standard, least_stack, offset_in, outside_of, value_by_standard, values_by_standard};
ghost use Rattle.ffi3_explain.specs.ImageOf.{image_of};
ghost use Rattle.ffi3_explain.specs.Places.{ArgumentIsThere, HasPlace};
ghost use Rattle.ffi3_explain.specs.Told.{TellsFirstOutside, TellsOutside};

use crate::pieces::value_in_pieces;
use crate::places::place_word;
use crate::{Image, Outside};
use ffi3_cif::Cif;
use ffi3_place::{Abi, Loc, Place};
use ffi3_types::CheckedType;
use ffi3_values::{Value, Values, value_from_bytes};
use std::alloc::Global;
use thiserror::Error;

/// Why arguments are not read: the address of one points outside the image, or memory is wanting.
#[derive(Debug, Drop, Error)]
pub enum Unread {
    #[error("an address points outside the image")]
    PointsOutside(Outside),
    #[error("out of memory")]
    NoMemory,
}

/// Where in the stack's bytes so many bytes from an address on begin, where all of them are there.
fn offset_in(image: &Image, address: u64, size: u64) -> Option<usize>
    ensures { result ≡ offset_in (image_of image.now) address size }
{
    let len = image.stack.len() as u64;
    if address < image.sp {
        return None;
    }
    let offset = address - image.sp;
    if len < offset {
        return None;
    }
    if len - offset < size {
        return None;
    }
    Some(offset as usize)
}

/// The value of argument `i` from wherever the address in its place points.
fn read_copy(
    alloc: Global,
    image: &Image,
    base: u64,
    i: u32,
    ty: &CheckedType<'_>,
    at: Loc,
) -> Result<Value, Unread>
    requires there { HasPlace (image_of image.now) base at }
    ensures value { IfOk result (λ v. value_of v ≡ value_by_standard (image_of image.now) base ty.now (Place.ByRef at 0)) }
    ensures inside { IfOk result (λ v. outside_of (image_of image.now) base i ty.now (Place.ByRef at 0) ≡ None) }
    ensures outside { IfErr result (λ f. TellsFirstOutside (outside_of (image_of image.now) base i ty.now (Place.ByRef at 0)) f) }
{
    let address = place_word(image, base, at);
    let size = ty.size();
    match offset_in(image, address, size) {
        Some(start) => {
            let bytes = &image.stack.as_slice()[start..start + size as usize];
            let Ok(value) = value_from_bytes(alloc, ty.as_type(), bytes) else {
                return Err(Unread::NoMemory);
            };
            Ok(value)
        }
        None => Err(Unread::PointsOutside(Outside {
            argument: i,
            address,
        })),
    }
}

/// The value of argument `i`, or its address, where that points outside the image.
fn read_argument(
    alloc: Global,
    image: &Image,
    base: u64,
    i: u32,
    ty: &CheckedType<'_>,
    place: &Place,
) -> Result<Value, Unread>
    requires there { ArgumentIsThere (image_of image.now) base place.now }
    requires has_all { PlaceHasAll ty.now place.now }
    ensures value { IfOk result (λ v. value_of v ≡ value_by_standard (image_of image.now) base ty.now place.now) }
    ensures inside { IfOk result (λ v. outside_of (image_of image.now) base i ty.now place.now ≡ None) }
    ensures outside { IfErr result (λ f. TellsFirstOutside (outside_of (image_of image.now) base i ty.now place.now) f) }
{
    match place {
        Place::Direct(pieces) => {
            let Ok(value) = value_in_pieces(alloc, image, base, ty, pieces) else {
                return Err(Unread::NoMemory);
            };
            Ok(value)
        }
        Place::ByRef { at, .. } => read_copy(alloc, image, base, i, ty, *at),
    }
}

/// The same of all arguments.
fn read_arguments<A: Abi>(
    alloc: Global,
    image: &Image,
    base: u64,
    cif: &Cif<A>,
) -> Result<Values, Unread>
    requires link { base ≡ A.standard.link }
    requires stack { least_stack A.standard cif.now ≤ length image.now.stack }
    ensures values { IfOk result (λ vs. vs ≡ values_by_standard (image_of image.now) base cif.now.arguments (plan_of A.standard cif.now).places) }
    ensures inside { IfOk result (λ vs. first_outside (image_of image.now) base 0 cif.now.arguments (plan_of A.standard cif.now).places ≡ None) }
    ensures outside { IfErr result (λ f. TellsFirstOutside (first_outside (image_of image.now) base 0 cif.now.arguments (plan_of A.standard cif.now).places) f) }
{
    let sig = cif.checked_sig();
    let count = sig.count();
    let mut values = Values::new(alloc);
    for i in 0..count {
        let ty = sig.arg(i);
        match read_argument(alloc, image, base, i, &ty, cif.place(i)) {
            Ok(value) => {
                let Ok(()) = values.push(value) else {
                    return Err(Unread::NoMemory);
                };
            }
            Err(fault) => return Err(fault),
        }
    }
    Ok(values)
}

/// The arguments that an image at an entry has by the standard `A` alone, whoever called: what it leaves free is not
/// judged, and a reference is followed to wherever its address points inside the image. The first whose address points
/// elsewhere is told.
pub fn arguments<A: Abi>(alloc: Global, image: &Image, cif: &Cif<A>) -> Result<Values, Unread>
    requires { least_stack A.standard cif.now ≤ length image.now.stack }
    ensures values { IfOk result (λ vs. held_by_standard A.standard cif.now (image_of image.now) ≡ are_values vs) }
    ensures outside { IfErr result (λ f. TellsOutside (held_by_standard A.standard cif.now (image_of image.now)) f) }
    ensures fits { IfOk result (λ vs. all_fit (trees_of cif.now.arguments) (values_of vs) ≡ true) }
    ensures owned { (vs : List ValueTree) → Own A.standard cif.now vs (image_of image.now) → IfOk result (λ v. v ≡ vs) × IfErr result (λ f. f ≡ Unread.NoMemory) }
{
    // its contract tells what is true of every interface
    let _sig = cif.sig();
    let base = A::LINK;
    match read_arguments(alloc, image, base, cif) {
        Ok(values) => Ok(values),
        Err(fault) => Err(fault),
    }
}
