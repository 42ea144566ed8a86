//! How much of the stack an image has to have, and where a hidden result stands.
ghost use Rattle.std.specs.Prelude.{◌≡◌, ◌+◌, ◌^◌, ◌<◌, ◌≤◌, length, IfOk, IfErr};
ghost use Rattle.ffi3_place_spec.specs.Standard.{frame_of, plan_of};
ghost use Rattle.ffi3_explain_spec.specs.Arguments.{least_stack};
ghost use Rattle.ffi3_explain.specs.ImageOf.{image_of};
ghost use Rattle.ffi3_image_spec.specs.declared.Question.TheVariants.{Explained, ByStandard};
ghost use Rattle.ffi3_image_spec.specs.Object as object;
ghost use Rattle.ffi3_image_spec.specs.Object.{read};
ghost use Rattle.ffi3_image_spec.specs.Room.{check_room, check_room_for, whole_call};
ghost use Rattle.ffi3_image_spec.specs.Lines.{buffer_of};
ghost use Rattle.ffi3_image.specs.Tells.{Tells};

use crate::fault::{bad, bad_as_in_scripts};
use crate::{ImageFault, ImageReason};
use ffi3_cif::Cif;
use ffi3_explain::{Image, least_stack};
use ffi3_json::{JsonPath, Reason, Where};
use ffi3_place::{Abi, Res};
use std::alloc::Global;

/// Whether so many bytes from the stack pointer on end below 2^64, and at least so many are there.
fn check_room(alloc: Global, image: &Image, least: u64) -> Result<(), ImageFault>
    ensures ok { IfOk result (λ u. check_room least (image_of image.now) ≡ read tt) }
    ensures err { IfErr result (Tells (λ p r. check_room least (image_of image.now) ≡ object.fault p r)) }
    ensures below { IfOk result (λ u. image.now.sp + least < 2 ^ 64) }
    ensures enough { IfOk result (λ u. least ≤ length image.now.stack) }
{
    let start = Where::new(alloc);
    let root = JsonPath::from(&start);
    if image.sp > u64::MAX - least {
        return Err(bad_as_in_scripts(alloc, &root.key("sp"), Reason::OutOfRange));
    }
    let there = image.stack.len() as u64;
    if there < least {
        let why = ImageReason::TooShort {
            there,
            wanted: least,
        };
        return Err(bad(alloc, &root.key("stack"), why));
    }
    Ok(())
}

/// The bytes of the return address and the whole frame.
fn whole_call<A: Abi>(cif: &Cif<A>) -> u64
    ensures { result ≡ whole_call A.standard cif.now }
{
    // its contract bounds the sum
    let _need = cif.need();
    A::LINK + cif.frame()
}

/// Whether an image has the return address and the whole frame, as `explain` looks at them, below 2^64.
pub fn room_for_explain<A: Abi>(
    alloc: Global,
    image: &Image,
    cif: &Cif<A>,
) -> Result<(), ImageFault>
    ensures ok { IfOk result (λ u. check_room_for Explained A.standard cif.now (image_of image.now) ≡ read tt) }
    ensures err { IfErr result (Tells (λ p r. check_room_for Explained A.standard cif.now (image_of image.now) ≡ object.fault p r)) }
    ensures below { IfOk result (λ u. image.now.sp + A.standard.link + frame_of A.standard cif.now < 2 ^ 64) }
    ensures enough { IfOk result (λ u. A.standard.link + frame_of A.standard cif.now ≤ length image.now.stack) }
{
    check_room(alloc, image, whole_call(cif))
}

/// Whether an image has the return address and the places of all arguments, as `arguments` looks at them, below 2^64.
pub fn room_for_arguments<A: Abi>(
    alloc: Global,
    image: &Image,
    cif: &Cif<A>,
) -> Result<(), ImageFault>
    ensures ok { IfOk result (λ u. check_room_for ByStandard A.standard cif.now (image_of image.now) ≡ read tt) }
    ensures err { IfErr result (Tells (λ p r. check_room_for ByStandard A.standard cif.now (image_of image.now) ≡ object.fault p r)) }
    ensures enough { IfOk result (λ u. least_stack A.standard cif.now ≤ length image.now.stack) }
{
    check_room(alloc, image, least_stack(cif))
}

/// The address of a hidden result's buffer, where there is one, of an image that has room for `explain`.
pub fn buffer_address<A: Abi>(image: &Image, cif: &Cif<A>) -> Option<u64>
    requires stack { A.standard.link + frame_of A.standard cif.now ≤ length image.now.stack }
    requires high { image.now.sp + A.standard.link + frame_of A.standard cif.now < 2 ^ 64 }
    ensures { result ≡ buffer_of A.standard (image_of image.now) (plan_of A.standard cif.now).res }
{
    // its contract tells what is true of every interface
    let _sig = cif.sig();
    match cif.result_place() {
        Res::Hidden { buffer, .. } => Some(image.sp + A::LINK + *buffer as u64),
        _ => None,
    }
}
