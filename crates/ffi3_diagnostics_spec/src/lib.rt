//! The error messages for a text that is no C declaration. The definitions are in `specs/`.
#![tactic(auto)]
