//! Where a body stands.

/// Where a body stands in an activation: which of its moves it has passed, and which results these
/// took. It holds no value.
#[derive(Drop)]
pub struct Cursor {
    // how many moves at the start were all done: move `i` of them has result `i`
    pub(crate) first: u32,
    // of each move passed after those, the number of its result, or None where it was not done
    pub(crate) marks: Vec<Option<u32>>,
    // how many results the moves passed took
    pub(crate) taken: u32,
    // whether the move at which it stands is known to be done
    pub(crate) ready: bool,
}
