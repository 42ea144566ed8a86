//! What each command of the program writes, and which status it ends with. The definitions are in `specs/`.
#![tactic(auto)]
