//! Where the arguments and the result of a call stand on System V AMD64. The definitions are in `specs/`; of the code
//! they need the class alone.
#![tactic(auto)]

/// The class of an eightbyte that is passed in a register.
#[derive(Clone, Copy, Debug, PartialEq, Eq)]
pub enum Class {
    Integer,
    Sse,
}
