//! The machine that contracts see: its state, what each of its calls makes of it, the stubs, and the slots of closures. The
//! definitions are in `specs/`; these are the words that they share with the code.
#![tactic(auto)]

pub mod stub;
