//! Why a text, or nodes, declare no function that can be called.
ghost use Rattle.std.specs.Prelude.{◌≡◌, slice_get};
ghost use Rattle.ffi3_types.specs.TreeOf.{tree_of};
ghost use Rattle.ffi3_types.specs.FaultOf.{fault_of};
ghost use Rattle.ffi3_types.specs.SignatureFaultOf.{position_of, signature_fault_of};
ghost use Rattle.ffi3_capi.specs.Faults.{kinds, kind_number, fault_with, fault_at, value_of, left_out_kind, fault_of_value, type_fault, signature_fault};
ghost use Rattle.ffi3_capi.specs.Told.{told};

use crate::codes::RESULT_PART;
use ffi3_cdecl::DeclFault;
use ffi3_types::{At, FfiType, SigFault, TypeFault};

/// What is wrong with a text or with nodes, or with the signature that they declare.
#[derive(Clone, Copy)]
pub enum FaultKind {
    NoFault,
    /// The bytes are no UTF-8.
    NotUtf8,
    /// At `offset` no token begins.
    BadToken,
    /// At `offset` stands what no declaration has there.
    Unexpected,
    /// At `offset` stands a number over 4,294,967,295.
    BadNumber,
    /// An array has no elements.
    BadTypedef,
    LeftOutLongDouble,
    LeftOutComplex,
    LeftOutVector,
    /// A struct or an array has `number` bytes.
    TooLarge,
    /// Structs and arrays stand in one another more than 16 deep.
    TooDeep,
    /// There are `number` arguments.
    TooMany,
    /// Of `number` arguments so many are fixed as `argument` says.
    BadFixed,
    BadVariadic,
    /// Behind `offset` nodes another is wanted.
    NodesEnded,
    /// Behind `offset` nodes stands one whose kind has no such number.
    UnknownKind,
    /// Behind `offset` nodes stands one of a kind that has no count, and its count is not 0.
    BadCount,
    /// Behind `offset` nodes a struct or an array begins inside 16 of them.
    NodesTooDeep,
    /// There are `number` nodes.
    TooManyNodes,
    /// The nodes are those of `number` types in place of one.
    NotOneType,
    /// Member `number` starts elsewhere; or, where so many members there are, the size or the alignment is another.
    LaidOutOtherwise,
}

const KINDS: [FaultKind; 21] = [
    FaultKind::NoFault,
    FaultKind::NotUtf8,
    FaultKind::BadToken,
    FaultKind::Unexpected,
    FaultKind::BadNumber,
    FaultKind::BadTypedef,
    FaultKind::LeftOutLongDouble,
    FaultKind::LeftOutComplex,
    FaultKind::LeftOutVector,
    FaultKind::TooLarge,
    FaultKind::TooDeep,
    FaultKind::TooMany,
    FaultKind::BadFixed,
    FaultKind::BadVariadic,
    FaultKind::NodesEnded,
    FaultKind::UnknownKind,
    FaultKind::BadCount,
    FaultKind::NodesTooDeep,
    FaultKind::TooManyNodes,
    FaultKind::NotOneType,
    FaultKind::LaidOutOtherwise,
];

/// Kind `n` of a table.
fn kind_in(kinds: &[FaultKind], n: u32) -> Option<FaultKind>
    ensures { result ≡ slice_get kinds.now n }
{
    kinds.get(n as usize).copied()
}

impl FaultKind {
    /// The kind's number.
    pub fn number(self) -> u32
        ensures { result ≡ kind_number self }
    {
        match self {
            FaultKind::NoFault => 0,
            FaultKind::NotUtf8 => 1,
            FaultKind::BadToken => 2,
            FaultKind::Unexpected => 3,
            FaultKind::BadNumber => 4,
            FaultKind::BadTypedef => 5,
            FaultKind::LeftOutLongDouble => 6,
            FaultKind::LeftOutComplex => 7,
            FaultKind::LeftOutVector => 8,
            FaultKind::TooLarge => 9,
            FaultKind::TooDeep => 10,
            FaultKind::TooMany => 11,
            FaultKind::BadFixed => 12,
            FaultKind::BadVariadic => 13,
            FaultKind::NodesEnded => 14,
            FaultKind::UnknownKind => 15,
            FaultKind::BadCount => 16,
            FaultKind::NodesTooDeep => 17,
            FaultKind::TooManyNodes => 18,
            FaultKind::NotOneType => 19,
            FaultKind::LaidOutOtherwise => 20,
        }
    }

    /// The kind of this number.
    pub fn numbered(n: u32) -> Option<FaultKind>
        ensures { result ≡ slice_get kinds n }
    {
        kind_in(&KINDS, n)
    }
}

/// Why a text, or nodes, declare no function that can be called: C's `struct ffi3_fault`.
#[repr(C)]
#[derive(Clone, Copy)]
pub struct TextFault {
    /// What is wrong, by the number of its kind.
    pub kind: u32,
    /// Whose type has the fault: an argument, or the result.
    pub argument: u32,
    /// Where in the text, in bytes; or behind how many nodes.
    pub offset: usize,
    /// How large, or how many.
    pub number: usize,
}

/// A fault that nothing more is told of.
pub fn fault_with(kind: FaultKind) -> TextFault
    ensures { result ≡ fault_with kind }
{
    TextFault {
        kind: kind.number(),
        argument: 0,
        offset: 0,
        number: 0,
    }
}

/// A fault at an offset.
pub(crate) fn fault_at(kind: FaultKind, at: u64) -> TextFault
    ensures { result ≡ fault_at kind at }
{
    TextFault {
        kind: kind.number(),
        argument: 0,
        offset: at as usize,
        number: 0,
    }
}

fn value_of(at: At) -> u32
    ensures { result ≡ value_of (position_of at) }
{
    match at {
        At::Ret => RESULT_PART,
        At::Arg(i) => i,
    }
}

fn left_out_kind(kind: &FfiType) -> FaultKind
    ensures { result ≡ left_out_kind (tree_of kind.now) }
{
    match kind {
        FfiType::LongDouble => FaultKind::LeftOutLongDouble,
        FfiType::Complex => FaultKind::LeftOutComplex,
        FfiType::Vector | FfiType::Void => FaultKind::LeftOutVector,
        FfiType::U8 | FfiType::S8 | FfiType::U16 | FfiType::S16 => FaultKind::LeftOutVector,
        FfiType::U32 | FfiType::S32 | FfiType::U64 | FfiType::S64 => FaultKind::LeftOutVector,
        FfiType::U128 | FfiType::S128 | FfiType::Float => FaultKind::LeftOutVector,
        FfiType::Double | FfiType::Pointer => FaultKind::LeftOutVector,
        FfiType::X87 | FfiType::Binary128 => FaultKind::LeftOutVector,
        FfiType::Struct(_) | FfiType::Array(_, _) => FaultKind::LeftOutVector,
    }
}

/// A fault that speaks of a value, and of a number.
pub(crate) fn fault_of_value(value: u32, kind: FaultKind, number: usize) -> TextFault
    ensures { result ≡ fault_of_value value kind number }
{
    TextFault {
        kind: kind.number(),
        argument: value,
        offset: 0,
        number,
    }
}

/// The fault of the type of a value.
pub(crate) fn type_fault(value: u32, fault: &TypeFault) -> TextFault
    ensures { result ≡ type_fault value (fault_of fault.now) }
{
    match fault {
        TypeFault::BadTypedef { .. } => fault_of_value(value, FaultKind::BadTypedef, 0),
        TypeFault::LeftOut { kind, .. } => fault_of_value(value, left_out_kind(kind), 0),
        TypeFault::TooLarge { size, .. } => {
            fault_of_value(value, FaultKind::TooLarge, *size as usize)
        }
        TypeFault::TooDeep { .. } => fault_of_value(value, FaultKind::TooDeep, 0),
    }
}

/// The fault of a signature.
pub(crate) fn signature_fault(fault: &SigFault) -> TextFault
    ensures { result ≡ signature_fault (signature_fault_of fault.now) }
{
    match fault {
        SigFault::TooMany { n } => fault_of_value(0, FaultKind::TooMany, *n as usize),
        SigFault::BadType { at, fault: inner } => type_fault(value_of(*at), inner),
        SigFault::BadFixed { fixed, n } => {
            fault_of_value(*fixed, FaultKind::BadFixed, *n as usize)
        }
        SigFault::BadArgType { i } => fault_of_value(*i, FaultKind::BadVariadic, 0),
    }
}

/// What a refusal tells; of a want of memory nothing.
pub(crate) fn told(fault: &DeclFault) -> Option<TextFault>
    ensures { result ≡ told fault.now }
{
    match fault {
        DeclFault::BadToken { at } => Some(fault_at(FaultKind::BadToken, *at)),
        DeclFault::Unexpected { at } => Some(fault_at(FaultKind::Unexpected, *at)),
        DeclFault::BadNumber { at } => Some(fault_at(FaultKind::BadNumber, *at)),
        DeclFault::Sig(sig) => Some(signature_fault(sig)),
        DeclFault::NoMemory => None,
    }
}
