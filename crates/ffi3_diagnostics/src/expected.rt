//! Kinds of token that could have stood at a place.

/// A kind of token, or the end of the text.
#[derive(Clone, Copy, Debug, PartialEq, Eq)]
pub enum Expected {
    /// A type.
    Type,
    /// A name.
    Name,
    /// The number of an array.
    Number,
    /// A ")".
    CloseRound,
    /// A ",".
    Comma,
    /// A ";".
    Semicolon,
    /// The end of the text.
    End,
    /// A "*".
    Star,
    /// A "]".
    CloseSquare,
    /// A "}".
    CloseCurly,
    /// A "{".
    OpenCurly,
    /// A "(".
    OpenRound,
    /// A "[".
    OpenSquare,
    /// "...".
    Dots,
    /// One more of the words that name a type, as behind `unsigned`.
    Word,
}
