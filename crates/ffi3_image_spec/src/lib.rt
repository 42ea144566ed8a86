//! What an input that describes an image is read as, and the lines that tell what the image holds. The definitions are
//! in `specs/`; this is the word that they share with the code.
#![tactic(auto)]

/// What is asked of an image: that it be explained, which looks at the whole frame; or its arguments by the standard
/// alone, which needs their places and no copies.
#[derive(Clone, Copy, Debug, PartialEq, Eq)]
pub enum Question {
    Explained,
    ByStandard,
}
