//! What an image of a machine at an entry holds: the values of the arguments, or the first place that holds something
//! else. And which arguments it has by the standard alone, whoever called.
#![tactic(auto)]

ghost use Rattle.std.specs.Prelude.{◌≡◌, ◌+◌, ◌^◌, ◌<◌, ◌≤◌, ℕ, List, length, get_or, true, IfErr, IfOk};
ghost use Rattle.ffi3_type_spec.specs.Tree.{trees_of};
ghost use Rattle.ffi3_type_spec.specs.Value.{ValueTree, all_fit, values_of};
ghost use Rattle.ffi3_place_spec.specs.Standard.{frame_of};
ghost use Rattle.ffi3_place_spec.specs.Holds.{Holds};
ghost use Rattle.ffi3_explain_spec.specs.Explain.{explained, holds_values};
ghost use Rattle.ffi3_explain.specs.ImageOf.{image_of};
ghost use Rattle.ffi3_explain.specs.Told.{Tells};

mod checks;
mod pieces;
mod places;
mod reach;
mod reading;

use checks::{broken, count_check, explain_arguments, hidden_check};
use ffi3_cif::Cif;
pub use ffi3_explain_spec::{Check, Outside, Part};
use ffi3_place::Abi;
use ffi3_types::Bytes;
use ffi3_values::Values;
pub use reach::{least_stack, least_stack_of};
pub use reading::{Unread, arguments};
use std::alloc::Global;
use thiserror::Error;

/// A machine's registers, its stack pointer, and the bytes of its stack from there on.
#[derive(Debug, Drop)]
pub struct Image {
    pub general: [u64; 32],
    pub floating: [u64; 32],
    pub sp: u64,
    pub stack: Bytes,
}

/// Why an image is not explained by values: a place does not hold what it would where values are passed, or memory is
/// wanting.
#[derive(Debug, Drop, Error)]
pub enum Unexplained {
    #[error("a place does not hold what it would hold")]
    NotHeld(Check),
    #[error("out of memory")]
    NoMemory,
}

/// The same, told by the explanation alone.
fn explained<A: Abi>(alloc: Global, image: &Image, cif: &Cif<A>) -> Result<Values, Unexplained>
    requires stack { A.standard.link + frame_of A.standard cif.now ≤ length image.now.stack }
    requires high { image.now.sp + A.standard.link + frame_of A.standard cif.now < 2 ^ 64 }
    ensures values { IfOk result (λ vs. explained A.standard cif.now (image_of image.now) ≡ holds_values vs) }
    ensures broken { IfErr result (λ f. Tells (explained A.standard cif.now (image_of image.now)) f) }
{
    // its contract tells what is true of every interface
    let _sig = cif.sig();
    let base = A::LINK;
    let values = match explain_arguments(alloc, image, base, cif) {
        Ok(values) => values,
        Err(fault) => return Err(fault),
    };
    let hidden = broken(hidden_check(image, base, cif.result_place()));
    let count = broken(count_check(image, A::vector_count(), cif.vectors()));
    match hidden {
        Some(check) => return Err(Unexplained::NotHeld(check)),
        None => {}
    }
    match count {
        Some(check) => Err(Unexplained::NotHeld(check)),
        None => Ok(values),
    }
}

/// Does nothing. Registers have 64 bits, and bytes 8.
fn are_small(general: &[u64], floating: &[u64], stack: &[u8])
    ensures general { (r : ℕ) → get_or general.now r 0 < 2 ^ 64 }
    ensures floating { (r : ℕ) → get_or floating.now r 0 < 2 ^ 64 }
    ensures stack { (i : ℕ) → get_or stack.now i 0 < 256 }
{}

/// The values that an image at an entry holds by the standard `A`, or the first place that holds something else:
/// arguments from the left, each by its pieces in the order of its place, then the address of a hidden result, then the
/// number of vector registers. The values are those of a caller of this library: narrow integers are extended as it
/// extends them, and copies stand where it has them.
pub fn explain<A: Abi>(alloc: Global, image: &Image, cif: &Cif<A>) -> Result<Values, Unexplained>
    requires stack { A.standard.link + frame_of A.standard cif.now ≤ length image.now.stack }
    requires high { image.now.sp + A.standard.link + frame_of A.standard cif.now < 2 ^ 64 }
    ensures values { IfOk result (λ vs. explained A.standard cif.now (image_of image.now) ≡ holds_values vs) }
    ensures broken { IfErr result (λ f. Tells (explained A.standard cif.now (image_of image.now)) f) }
    ensures holds { IfOk result (λ vs. Holds A.standard cif.now vs (image_of image.now)) }
    ensures fits { IfOk result (λ vs. all_fit (trees_of cif.now.arguments) (values_of vs) ≡ true) }
    ensures complete { (vs : List ValueTree) → Holds A.standard cif.now vs (image_of image.now) → IfOk result (λ v. v ≡ vs) × IfErr result (λ f. f ≡ Unexplained.NoMemory) }
{
    // its contract tells what is true of every interface
    let _sig = cif.sig();
    are_small(&image.general, &image.floating, image.stack.as_slice());
    match explained(alloc, image, cif) {
        Ok(values) => Ok(values),
        Err(fault) => Err(fault),
    }
}
