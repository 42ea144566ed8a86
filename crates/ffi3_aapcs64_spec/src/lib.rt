//! Where the arguments and the result of a call stand on Arm AAPCS64. The definitions are in `specs/`; of the code they
//! need the kind alone.
#![tactic(auto)]

/// The type of each member of a homogeneous floating-point aggregate: of single, double or quad precision.
#[derive(Clone, Copy, Debug, PartialEq, Eq)]
pub enum Kind {
    Float,
    Double,
    Quad,
}
