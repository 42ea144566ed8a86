//! What a run leaves: its text, the machine's journal, and how many instructions its calls take. The definitions are in
//! `specs/`.
#![tactic(auto)]
