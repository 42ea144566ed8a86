//! The words of a fault.
ghost use Rattle.std.specs.Prelude.{◌≡◌, ◌⊎◌, IfOk, length};
ghost use Rattle.ffi3_capi.specs.Filled.{filled, with_end};
ghost use Rattle.ffi3_capi.specs.FaultText.{kind_text, fault_text};

use crate::fault::{FaultKind, TextFault};
use crate::fill::fill_text;
use ffi3_types::{Bytes, NoMemory};
use std::alloc::Global;

/// The words for a kind of fault.
pub(crate) fn kind_text(
    alloc: Global,
    kind: FaultKind,
    fault: &TextFault,
) -> Result<Bytes, NoMemory>
    ensures { IfOk result (λ text. text ≡ kind_text kind fault.now) }
{
    let offset = fault.offset;
    let number = fault.number;
    let argument = fault.argument;
    let words = match kind {
        FaultKind::NoFault => "",
        FaultKind::NotUtf8 => "not UTF-8",
        FaultKind::BadToken => {
            return Bytes::from_slice(
                alloc,
                format!(in alloc; "at {offset}: bad token")?.as_bytes(),
            );
        }
        FaultKind::Unexpected => {
            return Bytes::from_slice(
                alloc,
                format!(in alloc; "at {offset}: unexpected")?.as_bytes(),
            );
        }
        FaultKind::BadNumber => {
            return Bytes::from_slice(
                alloc,
                format!(in alloc; "at {offset}: bad number")?.as_bytes(),
            );
        }
        FaultKind::BadTypedef => "bad typedef",
        FaultKind::LeftOutLongDouble => "left out: long double",
        FaultKind::LeftOutComplex => "left out: complex",
        FaultKind::LeftOutVector => "left out: vector",
        FaultKind::TooLarge => {
            return Bytes::from_slice(alloc, format!(in alloc; "too large: {number}")?.as_bytes());
        }
        FaultKind::TooDeep => "too deep",
        FaultKind::TooMany => {
            return Bytes::from_slice(
                alloc,
                format!(in alloc; "too many arguments: {number}")?.as_bytes(),
            );
        }
        FaultKind::BadFixed => {
            return Bytes::from_slice(
                alloc,
                format!(in alloc; "bad fixed: {argument} of {number}")?.as_bytes(),
            );
        }
        FaultKind::BadVariadic => "bad variadic argument",
        FaultKind::NodesEnded => {
            return Bytes::from_slice(
                alloc,
                format!(in alloc; "at node {offset}: end")?.as_bytes(),
            );
        }
        FaultKind::UnknownKind => {
            return Bytes::from_slice(
                alloc,
                format!(in alloc; "at node {offset}: unknown kind")?.as_bytes(),
            );
        }
        FaultKind::BadCount => {
            return Bytes::from_slice(
                alloc,
                format!(in alloc; "at node {offset}: bad count")?.as_bytes(),
            );
        }
        FaultKind::NodesTooDeep => {
            return Bytes::from_slice(
                alloc,
                format!(in alloc; "at node {offset}: too deep")?.as_bytes(),
            );
        }
        FaultKind::TooManyNodes => {
            return Bytes::from_slice(
                alloc,
                format!(in alloc; "too many nodes: {number}")?.as_bytes(),
            );
        }
        FaultKind::NotOneType => {
            return Bytes::from_slice(
                alloc,
                format!(in alloc; "not one type: {number}")?.as_bytes(),
            );
        }
        FaultKind::LaidOutOtherwise => {
            return Bytes::from_slice(
                alloc,
                format!(in alloc; "laid out otherwise: member {number}")?.as_bytes(),
            );
        }
    };
    Bytes::from_slice(alloc, words.as_bytes())
}

/// The words of a fault, for an array of the caller: they are written with a terminating NUL, if all of that has room
/// there. Answers how long they are, or 0 where memory was refused and nothing is written.
pub fn fault_text(alloc: Global, fault: &TextFault, array: &mut [u8]) -> usize
    ensures { ((result ≡ length (fault_text fault.now)) × (array.new ≡ filled (with_end (fault_text fault.now)) array.old)) ⊎ ((result ≡ 0) × (array.new ≡ array.old)) }
{
    let Some(kind) = FaultKind::numbered(fault.kind) else {
        return fill_text(b"", array);
    };
    let Ok(words) = kind_text(alloc, kind, fault) else {
        return 0;
    };
    fill_text(words.as_slice(), array)
}
