//! What a machine recorded at entries, explained: that each entry of every run is explained as its arguments.
#![tactic(auto)]

mod entries;

pub use entries::{entries_are_explained, image_of, run_explained};
