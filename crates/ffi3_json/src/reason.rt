//! Why a value is no part of a script.
ghost use Rattle.std.specs.Prelude.{◌≡◌, ◌++◌, IfOk};
ghost use Rattle.std.specs.Fmt.{decimal};
ghost use Rattle.ffi3_script_spec.specs.ReasonText.{text_of_reason};
ghost use Rattle.ffi3_json.specs.ReasonOf.{reason_of};

use crate::{Bytes, NoMemory};
use std::alloc::Global;

/// Why the value at a place is no part of a script.
#[derive(Debug, Drop)]
pub enum Reason {
    /// A value that must be an object, and is none.
    NotAnObject,
    /// A value that must be an array, and is none.
    NotAnArray,
    /// An object has a key that objects of its kind do not have.
    UnknownKey,
    /// An object lacks this key.
    MissingKey { name: String },
    /// The version is not the integer 1 or 2.
    VersionNotKnown,
    /// Neither a text nor an object with the one key `struct`, or in version 2 `array`; or what stands under `array` is
    /// no array of two.
    NotAType,
    /// A text that is the name of no type.
    UnknownType,
    /// No integer from 0 to 4294967295.
    NotACount,
    /// Void in the place of a value, an array in the place of an argument or a result, or a struct or an array that has
    /// no elements.
    BadTypedef,
    /// A kind that is left out, as are the next two.
    LeftOutLongDouble,
    LeftOutComplex,
    LeftOutVector,
    /// A struct or an array of so many bytes, more than 4,096.
    TooLarge { size: u64 },
    /// A struct or an array inside 16 others.
    TooDeep,
    /// So many arguments, more than 64.
    TooManyArguments { n: u32 },
    /// So many fixed arguments: 0, or more than the `n` that there are.
    BadFixed { fixed: u32, n: u32 },
    /// A variadic argument of a type that C would promote.
    BadVariadicArgument,
    /// No C declaration of a function: at this byte of the text is the first fault of token, grammar or number.
    BadDeclaration { at: u64 },
    /// Not 1 to 32 ASCII letters, digits or `_`.
    BadName,
    /// A name that an earlier one is equal to.
    NameTwice,
    /// No number of a signature.
    NoSuchSignature,
    /// The name of no function.
    NoSuchFunction,
    /// No object, or one without a move's key.
    NotAMove,
    /// A name for a result that is void.
    VoidResult,
    /// An array of another number of items.
    WrongCount,
    /// A value to return where the result is void.
    NotNull,
    /// A body whose last move is no return without `when`.
    NoReturnAtTheEnd,
    /// A number that is no integer.
    NotAnInteger,
    /// A text that is no integer in decimal, where it must be one.
    BadInteger,
    /// An integer outside the range of its type.
    OutOfRange,
    /// Not the right number of hexadecimal digits.
    BadBytes,
    /// A value of another type.
    WrongType,
    /// No form of a value.
    NotAValue,
    /// A value without a type, where it must have one.
    NoTypeOfItsOwn,
    /// No number of an argument.
    NoSuchArgument,
    /// The name of no earlier result.
    NoSuchResult,
    /// No number of an element.
    NoSuchField,
}

/// The reason's words, with its numbers in decimal.
pub fn reason_text(alloc: Global, reason: &Reason) -> Result<Bytes, NoMemory>
    ensures { IfOk result (λ text. text ≡ text_of_reason (reason_of reason.now)) }
{
    match reason {
        Reason::NotAnObject => words(alloc, "not an object"),
        Reason::NotAnArray => words(alloc, "not an array"),
        Reason::UnknownKey => words(alloc, "unknown key"),
        Reason::MissingKey { name } => {
            let mut text = Bytes::from_slice(alloc, "missing key ".as_bytes())?;
            text.extend(name.as_str().as_bytes())?;
            Ok(text)
        }
        Reason::VersionNotKnown => words(alloc, "version not known"),
        Reason::NotAType => words(alloc, "not a type"),
        Reason::UnknownType => words(alloc, "unknown type"),
        Reason::NotACount => words(alloc, "not a count"),
        Reason::BadTypedef => words(alloc, "bad typedef"),
        Reason::LeftOutLongDouble => words(alloc, "left out: long double"),
        Reason::LeftOutComplex => words(alloc, "left out: complex"),
        Reason::LeftOutVector => words(alloc, "left out: vector"),
        Reason::TooLarge { size } => numbered(alloc, "too large: ", *size),
        Reason::TooDeep => words(alloc, "too deep"),
        Reason::TooManyArguments { n } => numbered(alloc, "too many arguments: ", *n as u64),
        Reason::BadFixed { fixed, n } => {
            let mut text = numbered(alloc, "bad fixed: ", *fixed as u64)?;
            text.extend(" of ".as_bytes())?;
            text.extend(format!(in alloc; "{n}")?.as_bytes())?;
            Ok(text)
        }
        Reason::BadVariadicArgument => words(alloc, "bad variadic argument"),
        Reason::BadDeclaration { at } => numbered(alloc, "bad declaration at ", *at),
        Reason::BadName => words(alloc, "bad name"),
        Reason::NameTwice => words(alloc, "name twice"),
        Reason::NoSuchSignature => words(alloc, "no such signature"),
        Reason::NoSuchFunction => words(alloc, "no such function"),
        Reason::NotAMove => words(alloc, "not a move"),
        Reason::VoidResult => words(alloc, "void result"),
        Reason::WrongCount => words(alloc, "wrong count"),
        Reason::NotNull => words(alloc, "not null"),
        Reason::NoReturnAtTheEnd => words(alloc, "no return at the end"),
        Reason::NotAnInteger => words(alloc, "not an integer"),
        Reason::BadInteger => words(alloc, "bad integer"),
        Reason::OutOfRange => words(alloc, "out of range"),
        Reason::BadBytes => words(alloc, "bad bytes"),
        Reason::WrongType => words(alloc, "wrong type"),
        Reason::NotAValue => words(alloc, "not a value"),
        Reason::NoTypeOfItsOwn => words(alloc, "no type of its own"),
        Reason::NoSuchArgument => words(alloc, "no such argument"),
        Reason::NoSuchResult => words(alloc, "no such result"),
        Reason::NoSuchField => words(alloc, "no such field"),
    }
}

/// The words alone.
fn words(alloc: Global, text: &str) -> Result<Bytes, NoMemory>
    ensures { IfOk result (λ b. b ≡ text.now) }
{
    Bytes::from_slice(alloc, text.as_bytes())
}

/// Words and a number behind them.
fn numbered(alloc: Global, text: &str, n: u64) -> Result<Bytes, NoMemory>
    ensures { IfOk result (λ b. b ≡ text.now ++ decimal n) }
{
    let mut bytes = words(alloc, text)?;
    bytes.extend(format!(in alloc; "{n}")?.as_bytes())?;
    Ok(bytes)
}
