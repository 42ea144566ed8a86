//! Where the arguments and the result of a call stand on Apple's AArch64 platforms. The definitions are in `specs/`.
#![tactic(auto)]
