//! The command line: which words ask for what. The definitions are in `specs/`; these are the words that they share
//! with the code.
#![tactic(auto)]

pub mod words;
