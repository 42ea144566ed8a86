//! Where the arguments and the result of a call stand on RISC-V with LP64D. The definitions are in `specs/`; of the
//! code they need the shape and the counts alone.
#![tactic(auto)]

/// How a value is passed, by its size and its leaves. (RISC-V ELF psABI, "Integer Calling Convention" and "Hardware
/// Floating-point Calling Convention")
#[derive(Clone, Copy, Debug, PartialEq, Eq)]
pub enum Shape {
    /// One floating leaf, in a floating register.
    OneF,
    /// Two floating leaves, in a floating register each.
    TwoF,
    /// A floating leaf and then an integer, in a register of each kind.
    FI,
    /// An integer and then a floating leaf, in a register of each kind.
    IF,
    /// So many words of eight bytes, in integer registers and then on the stack.
    Words(u64),
    /// By reference: the address of a copy is one such word.
    ByRef,
}

/// The integer words and the floating registers that earlier arguments take.
#[derive(Clone, Copy, Debug, PartialEq, Eq)]
pub struct TakenWords {
    pub words: u64,
    pub floats: u64,
}
