//! Data types for argument locations: registers, stack offsets, the plan of a call. The only code is that of lists.
#![tactic(auto)]

mod listed;

pub use listed::Listed;
pub use std::alloc::AllocError as NoMemory;

/// A place: a general register, a floating register, or bytes of the stack from an offset on, which counts from the first
/// stack argument.
#[derive(Clone, Copy, Debug, PartialEq, Eq)]
pub enum Loc {
    /// A general register, by its number in instructions.
    G(u8),
    /// A floating or vector register, by its number in instructions.
    F(u8),
    /// The stack, so many bytes above where the first stack argument begins; and how many bytes the place has there: eight,
    /// or fewer where a standard packs its arguments.
    S(u32, u8),
}

/// What the bits of a place hold that its piece does not fill.
#[derive(Clone, Copy, Debug, PartialEq, Eq)]
pub enum Ext {
    /// Anything.
    Free,
    /// A lone integer is sign- or zero-extended to 64 bits, by its type.
    Widen,
    /// A lone integer is sign- or zero-extended to 32 bits, by its type, and from there sign-extended to 64.
    Riscv,
    /// The upper 32 bits are all ones: the float is NaN-boxed.
    Boxed,
}

/// Bytes `off` to `off + len` of a value stand in the low bytes of `loc`. A piece has at most eight bytes: a doubleword
/// of the value (an eightbyte, on AMD64), or one of its leaves.
#[derive(Clone, Copy, Debug, PartialEq, Eq)]
pub struct Piece {
    pub loc: Loc,
    pub off: u32,
    pub len: u8,
    pub ext: Ext,
}

/// The pieces of one value.
pub type Pieces = Listed<Piece>;

/// Where an argument stands: in pieces, or by reference, where `at` has the address of a copy, `copy` bytes from the
/// frame's start.
#[derive(Debug, Drop)]
pub enum Place {
    Direct(Pieces),
    ByRef { at: Loc, copy: u32 },
}

/// One place for each argument.
pub type Places = Listed<Place>;

/// Where a result stands: nowhere, in pieces, or hidden (sret), in a buffer of the caller, `buffer` bytes from the
/// frame's start, whose address is passed at `at`.
#[derive(Debug, Drop)]
pub enum Res {
    Nothing,
    Direct(Pieces),
    Hidden { at: Loc, buffer: u32 },
}

/// Where the arguments and the result of a signature stand, and the bytes of stack that a call takes.
#[derive(Debug, Drop)]
pub struct Plan {
    pub places: Places,
    pub res: Res,
    /// All the stack that the call takes, in bytes: frame, return address, save area and block.
    pub need: u64,
    /// The caller's part in bytes: stack arguments, copies, and a hidden result's buffer.
    pub frame: u64,
    /// The callee's copy of its arguments, in bytes.
    pub block: u64,
    /// How many vector registers the arguments use, where a register tells it (AMD64's al); otherwise 0.
    pub vectors: u8,
}

/// A word of eight bytes of the area in which a callee saves what it gives back.
#[derive(Clone, Copy, Debug, PartialEq, Eq)]
pub enum SaveWord {
    /// A register that a callee preserves, or the one that holds the return address.
    Register(Loc),
    /// The address of a hidden result's buffer.
    Hidden,
    /// Nothing.
    Spare,
}

/// The general registers, the floating registers and the bytes of stack that earlier arguments take. On AAPCS64 (NGRN,
/// NSRN, NSAA) the numbers of registers go past the last one, so that none is free any more.
#[derive(Clone, Copy, Debug)]
pub struct Taken {
    pub general: u64,
    pub vector: u64,
    pub stack: u64,
}
