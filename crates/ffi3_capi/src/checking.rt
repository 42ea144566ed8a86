//! Whether a text declares a function, and what is told of the place where it does not.
ghost use Rattle.std.specs.Prelude.{◌≡◌, ◌≤◌, IfOk, IsSome, IsUtf8, length, map, slice_get, slice_index_or};
ghost use Rattle.ffi3_cdecl_spec.specs.Tokens.{wide};
ghost use Rattle.ffi3_cdecl_spec.specs.Reading.{IsReadingIn, unexpected};
ghost use Rattle.ffi3_cdecl.specs.TokenOf.{sign_of};
ghost use Rattle.ffi3_cdecl_spec.specs.ReadingFor.{IsReadingFor};
ghost use Rattle.ffi3_cdecl.specs.Tells.{Tells};
ghost use Rattle.ffi3_diagnostics.specs.ToldOf.{expected_of, kinds_of, base_of, reason_or_not, told_of};
ghost use Rattle.ffi3_capi.specs.Chars.{char_sign};
ghost use Rattle.ffi3_capi.specs.Formats.{long_double_on};
ghost use Rattle.ffi3_capi.specs.Placed.{targets};
ghost use Rattle.ffi3_capi.specs.Refused.{status_of, fault_in};
ghost use Rattle.ffi3_capi.specs.CheckedText.{expected_number, reason_number, base_number, four_numbers, told_at, nothing_beside, IsUnexpectedIn, ChecksText};

use crate::codes::{DONE, NOT_DECLARED};
use crate::declaration::{char_sign, long_double_on};
use crate::fault::{FaultKind, TextFault, fault_at, fault_with, signature_fault};
use crate::placing::target_numbered;
use crate::status::Refusal;
use ffi3_cdecl::{DeclFault, Sign, read_decl_for};
use ffi3_diagnostics::{Base, Expected, Reason, Told, tell};
use ffi3_types::NoMemory;
use std::alloc::Global;
use std::{mem, str};

/// Whether a text declares a function, and what is told of a place that is unexpected: C's `struct ffi3_checked`.
#[repr(C)]
#[derive(Clone, Copy)]
pub struct CheckedText {
    /// How many bytes of the text the token takes that stands there.
    pub length: usize,
    /// Why it does not fit, by number.
    pub reason: u32,
    /// How many kinds of token are told.
    pub count: u32,
    /// What could have stood there, by the numbers of their kinds.
    pub expected: [u32; 4],
    /// Nothing yet.
    pub reserved: [u64; 4],
    pub fault: TextFault,
}

/// A kind of token by number.
fn expected_number(kind: Expected) -> u32
    ensures { result ≡ expected_number (expected_of kind) }
{
    match kind {
        Expected::Type => 1,
        Expected::Name => 2,
        Expected::Number => 3,
        Expected::CloseRound => 4,
        Expected::Comma => 5,
        Expected::Semicolon => 6,
        Expected::End => 7,
        Expected::Star => 8,
        Expected::CloseSquare => 9,
        Expected::CloseCurly => 10,
        Expected::OpenCurly => 11,
        Expected::OpenRound => 12,
        Expected::OpenSquare => 13,
        Expected::Dots => 14,
        Expected::Word => 15,
    }
}

/// A type by value whose size the text does not tell, by number.
fn base_number(base: Base<'_>) -> u32
    ensures { result ≡ base_number (base_of base.entry) }
{
    match base {
        Base::Struct(_) => 3,
        Base::Union(_) => 4,
        Base::Enum(_) => 5,
        Base::Named(_) => 6,
    }
}

/// A reason by number.
fn reason_number(why: Option<Reason<'_>>) -> u32
    ensures { result ≡ reason_number (reason_or_not why.entry) }
{
    match why {
        None => 0,
        Some(Reason::Attribute) => 1,
        Some(Reason::Keyword) => 2,
        Some(Reason::ByValue(base)) => base_number(base),
    }
}

/// Kind `i` of those that are told.
fn kind_at(kinds: &[Expected], i: usize) -> Option<Expected>
    ensures { result ≡ slice_get kinds.now i }
{
    kinds.get(i).copied()
}

/// The same by number.
fn number_at(kinds: &[Expected], i: usize) -> u32
    ensures { result ≡ slice_index_or (map expected_number (kinds_of kinds.now)) i 0 }
{
    match kind_at(kinds, i) {
        Some(kind) => expected_number(kind),
        None => 0,
    }
}

/// The numbers of four kinds, where so many are told.
fn four_numbers(kinds: &[Expected]) -> [u32; 4]
    ensures { result ≡ four_numbers (kinds_of kinds.now) }
{
    [
        number_at(kinds, 0),
        number_at(kinds, 1),
        number_at(kinds, 2),
        number_at(kinds, 3),
    ]
}

/// What is told of a place that is unexpected.
#[tactic(auto, using(crate::proofs::Checks::kinds_count))]
fn told_at(at: u64, told: &Told<'_>) -> CheckedText
    requires { length told.now.expected.items ≤ 4 }
    ensures { result ≡ told_at at (told_of told.now) }
{
    let kinds = told.expected.as_slice();
    CheckedText {
        length: told.taken,
        reason: reason_number(told.reason),
        count: kinds.len() as u32,
        expected: four_numbers(kinds),
        reserved: [0; 4],
        fault: fault_at(FaultKind::Unexpected, at),
    }
}

/// Nothing beside the fault.
fn nothing_beside(fault: TextFault) -> CheckedText
    ensures { result ≡ nothing_beside fault }
{
    CheckedText {
        length: 0,
        reason: 0,
        count: 0,
        expected: [0; 4],
        reserved: [0; 4],
        fault,
    }
}

/// Nothing is told of a place, and why.
fn refuse(told: &mut CheckedText, refusal: Refusal) -> u32
    ensures status { result ≡ status_of refusal }
    ensures told { told.new ≡ nothing_beside (fault_in refusal) }
{
    *told = nothing_beside(refusal.fault());
    refusal.status()
}

/// What is told of the place where the text is unexpected.
#[tactic(auto, using(crate::proofs::Checks::unexpected_there))]
fn find_unexpected(alloc: Global, sign: Sign, text: &str, at: u64) -> Result<CheckedText, NoMemory>
    ensures { IfOk result (λ u. IsUtf8 text.now → IsReadingIn wide (sign_of sign) text.now (unexpected at) → IsUnexpectedIn (sign_of sign) text.now u) }
{
    let told = tell(alloc, sign, text, at as usize)?;
    Ok(told_at(at, &told))
}

/// The same for a caller's struct.
#[tactic(auto, using(crate::proofs::Checks::place_told, crate::proofs::Checks::no_memory))]
fn tell_place(alloc: Global, target: u32, text: &str, at: u64, told: &mut CheckedText) -> u32
    ensures { IsUtf8 text.now → IsSome (slice_get targets target) → IsReadingIn wide (char_sign target) text.now (unexpected at) → ChecksText target text.now result told.new }
{
    match find_unexpected(alloc, char_sign(target), text, at) {
        Ok(found) => {
            *told = found;
            NOT_DECLARED
        }
        Err(_) => refuse(told, Refusal::NoMemory),
    }
}

/// What is told of a fault of the text.
#[tactic(auto, using(crate::proofs::Checks::no_memory))]
fn tell_fault(
    alloc: Global,
    target: u32,
    text: &str,
    fault: DeclFault,
    told: &mut CheckedText,
) -> u32
    ensures { IsUtf8 text.now → IsSome (slice_get targets target) → Tells (IsReadingFor (long_double_on target) (char_sign target) text.now) fault → ChecksText target text.now result told.new }
{
    match fault {
        DeclFault::BadToken { at } => {
            refuse(told, Refusal::Fault(fault_at(FaultKind::BadToken, at)))
        }
        DeclFault::Unexpected { at } => tell_place(alloc, target, text, at, told),
        DeclFault::BadNumber { at } => {
            refuse(told, Refusal::Fault(fault_at(FaultKind::BadNumber, at)))
        }
        DeclFault::Sig(sig) => refuse(told, Refusal::Fault(signature_fault(&sig))),
        DeclFault::NoMemory => refuse(told, Refusal::NoMemory),
    }
}

/// What is told of a text.
fn check(alloc: Global, target: u32, text: &str, told: &mut CheckedText) -> u32
    ensures { IsUtf8 text.now → IsSome (slice_get targets target) → ChecksText target text.now result told.new }
{
    match read_decl_for(alloc, long_double_on(target), char_sign(target), text) {
        Ok(declaration) => {
            mem::drop(declaration);
            *told = nothing_beside(fault_with(FaultKind::NoFault));
            DONE
        }
        Err(fault) => tell_fault(alloc, target, text, fault, told),
    }
}

/// Whether the text declares a function for a call on the target of this number; otherwise the fault, and of a place
/// that is unexpected what stands there, why it does not fit, and what could have stood there: for a caller's struct.
#[tactic(auto, using(crate::proofs::Checks::no_target, crate::proofs::Checks::no_text))]
pub fn check_text(alloc: Global, target: u32, text: &[u8], told: &mut CheckedText) -> u32
    ensures { ChecksText target text.now result told.new }
{
    let Some(_) = target_numbered(target) else {
        return refuse(told, Refusal::NoSuchTarget);
    };
    match str::from_utf8(text) {
        Ok(words) => check(alloc, target, words, told),
        Err(_) => refuse(told, Refusal::Fault(fault_with(FaultKind::NotUtf8))),
    }
}
