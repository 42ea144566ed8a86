//! Lines that tell layouts and places. The definitions are in `specs/`; this is the word that they share with the code.
#![tactic(auto)]

use ffi3_place_spec::Loc;

/// A piece, or more than one in words of one register.
#[derive(Clone, Copy)]
pub struct Part {
    pub loc: Loc,
    pub off: u32,
    pub len: u128,
}
