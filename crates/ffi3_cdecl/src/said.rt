//! Words of a type in the wide reading, in any order.
ghost use Rattle.std.specs.Prelude.{◌≡◌, IfOk, Some};
ghost use Rattle.ffi3_type_spec.specs.Tree.{float, double};
ghost use Rattle.ffi3_types.specs.TreeOf.{tree_of};
ghost use Rattle.ffi3_cdecl_spec.specs.Tokens.{sign_word, short_word, int_word, long_word, int128_word, char_word, complex_word, type_word};
ghost use Rattle.ffi3_cdecl_spec.specs.Grammar.{named_by, complex_of};
ghost use Rattle.ffi3_cdecl_spec.specs.Machine.{an_integer, a_character, of_128_bits, a_float, a_double, integer_and, of_no_size, say, words_of};
ghost use Rattle.ffi3_cdecl.specs.TokenOf.{sign_of};
ghost use Rattle.ffi3_cdecl.specs.SaidOf.{said_of, said_or_not, kind_or_not, sign_by, sign_or_not, sign_said, size_of};

use crate::integers::{char_of, int_of, int128_of, long_of, short_of};
use crate::token::Sign;
use ffi3_types::{FfiType, Fields, NoMemory};
use std::alloc::Global;

/// The words of a size.
#[derive(Clone, Copy)]
pub enum Size {
    No,
    Short,
    Long,
    LongLong,
}

/// Which words have been said.
#[derive(Clone, Copy)]
pub enum Said {
    /// A sign, a size, and whether `int` is among them.
    Integer(Option<Sign>, Size, bool),
    /// Whether `char` is signed, and a sign.
    Character(Sign, Option<Sign>),
    Of128Bits(Option<Sign>),
    /// Whether `_Complex` is among them; of a double first whether `long` is.
    Float(bool),
    Double(bool, bool),
    /// Of `_Complex` alone, whether `long` is among them.
    Complex(bool),
}

/// What words of a type mean: a type, one that needs a star, or `void`.
#[derive(Drop)]
pub enum Kind {
    Whole(FfiType),
    Bare,
    Nothing,
}

/// Behind words of an integer.
#[tactic(auto, using(crate::proofs::Saying::sign_no_sign, crate::proofs::Saying::sign_sign))]
fn integer_and_sign(g: Option<Sign>, z: Size, i: bool, h: Sign) -> Option<Said>
    ensures { said_or_not result ≡ integer_and (sign_or_not g) (size_of z) i (sign_word (sign_of h)) }
{
    match g {
        None => Some(Said::Integer(Some(h), z, i)),
        Some(_) => None,
    }
}

/// With this word more.
#[tactic(auto, using(crate::proofs::Saying::a_float_and_sign, crate::proofs::Saying::a_double_and_sign, crate::proofs::Saying::a_complex_and_sign))]
pub fn say_sign(s: Said, h: Sign) -> Option<Said>
    ensures { said_or_not result ≡ say (said_of s) (sign_word (sign_of h)) }
{
    match s {
        Said::Integer(g, z, i) => integer_and_sign(g, z, i, h),
        Said::Character(c, g) => match g {
            None => Some(Said::Character(c, Some(h))),
            Some(_) => None
        },
        Said::Of128Bits(g) => match g {
            None => Some(Said::Of128Bits(Some(h))),
            Some(_) => None
        },
        Said::Float(_) => None,
        Said::Double(_, _) => None,
        Said::Complex(_) => None,
    }
}

/// Behind words of an integer.
#[tactic(auto, using(crate::proofs::Saying::short_no_size, crate::proofs::Saying::short_short, crate::proofs::Saying::short_long, crate::proofs::Saying::short_long_long))]
fn integer_and_short(g: Option<Sign>, z: Size, i: bool) -> Option<Said>
    ensures { said_or_not result ≡ integer_and (sign_or_not g) (size_of z) i (short_word) }
{
    match z {
        Size::No => Some(Said::Integer(g, Size::Short, i)),
        Size::Short => None,
        Size::Long => None,
        Size::LongLong => None,
    }
}

/// With this word more.
#[tactic(auto, using(crate::proofs::Saying::a_character_and_short, crate::proofs::Saying::of_128_bits_and_short, crate::proofs::Saying::a_float_and_short, crate::proofs::Saying::a_double_and_short, crate::proofs::Saying::a_complex_and_short))]
pub fn say_short(s: Said) -> Option<Said>
    ensures { said_or_not result ≡ say (said_of s) (short_word) }
{
    match s {
        Said::Integer(g, z, i) => integer_and_short(g, z, i),
        Said::Character(_, _) => None,
        Said::Of128Bits(_) => None,
        Said::Float(_) => None,
        Said::Double(_, _) => None,
        Said::Complex(_) => None,
    }
}

/// Behind words of an integer.
#[tactic(auto, using(crate::proofs::Saying::int_with_int, crate::proofs::Saying::int_no_int))]
fn integer_and_int(g: Option<Sign>, z: Size, i: bool) -> Option<Said>
    ensures { said_or_not result ≡ integer_and (sign_or_not g) (size_of z) i (int_word) }
{
    if i {
        None
    } else {
        Some(Said::Integer(g, z, true))
    }
}

/// With this word more.
#[tactic(auto, using(crate::proofs::Saying::a_character_and_int, crate::proofs::Saying::of_128_bits_and_int, crate::proofs::Saying::a_float_and_int, crate::proofs::Saying::a_double_and_int, crate::proofs::Saying::a_complex_and_int))]
pub fn say_int(s: Said) -> Option<Said>
    ensures { said_or_not result ≡ say (said_of s) (int_word) }
{
    match s {
        Said::Integer(g, z, i) => integer_and_int(g, z, i),
        Said::Character(_, _) => None,
        Said::Of128Bits(_) => None,
        Said::Float(_) => None,
        Said::Double(_, _) => None,
        Said::Complex(_) => None,
    }
}

/// Behind words of an integer.
#[tactic(auto, using(crate::proofs::Saying::long_no_size, crate::proofs::Saying::long_short, crate::proofs::Saying::long_long, crate::proofs::Saying::long_long_long))]
fn integer_and_long(g: Option<Sign>, z: Size, i: bool) -> Option<Said>
    ensures { said_or_not result ≡ integer_and (sign_or_not g) (size_of z) i (long_word) }
{
    match z {
        Size::No => Some(Said::Integer(g, Size::Long, i)),
        Size::Short => None,
        Size::Long => Some(Said::Integer(g, Size::LongLong, i)),
        Size::LongLong => None,
    }
}

/// With this word more.
#[tactic(auto, using(crate::proofs::Saying::a_character_and_long, crate::proofs::Saying::of_128_bits_and_long, crate::proofs::Saying::a_float_and_long, crate::proofs::Saying::a_double_and_long_l_yes, crate::proofs::Saying::a_double_and_long_l_no, crate::proofs::Saying::a_complex_and_long_l_yes, crate::proofs::Saying::a_complex_and_long_l_no))]
pub fn say_long(s: Said) -> Option<Said>
    ensures { said_or_not result ≡ say (said_of s) (long_word) }
{
    match s {
        Said::Integer(g, z, i) => integer_and_long(g, z, i),
        Said::Character(_, _) => None,
        Said::Of128Bits(_) => None,
        Said::Float(_) => None,
        Said::Double(l, c) => if l { None } else { Some(Said::Double(true, c)) },
        Said::Complex(l) => if l { None } else { Some(Said::Complex(true)) },
    }
}

/// Behind words of an integer.
#[tactic(auto, using(crate::proofs::Saying::int128_no_size_with_int, crate::proofs::Saying::int128_no_size_no_int, crate::proofs::Saying::int128_short, crate::proofs::Saying::int128_long, crate::proofs::Saying::int128_long_long))]
fn integer_and_int128(g: Option<Sign>, z: Size, i: bool) -> Option<Said>
    ensures { said_or_not result ≡ integer_and (sign_or_not g) (size_of z) i (int128_word) }
{
    match z {
        Size::No => if i { None } else { Some(Said::Of128Bits(g)) },
        Size::Short => None,
        Size::Long => None,
        Size::LongLong => None,
    }
}

/// With this word more.
#[tactic(auto, using(crate::proofs::Saying::a_character_and_int128, crate::proofs::Saying::of_128_bits_and_int128, crate::proofs::Saying::a_float_and_int128, crate::proofs::Saying::a_double_and_int128, crate::proofs::Saying::a_complex_and_int128))]
pub fn say_int128(s: Said) -> Option<Said>
    ensures { said_or_not result ≡ say (said_of s) (int128_word) }
{
    match s {
        Said::Integer(g, z, i) => integer_and_int128(g, z, i),
        Said::Character(_, _) => None,
        Said::Of128Bits(_) => None,
        Said::Float(_) => None,
        Said::Double(_, _) => None,
        Said::Complex(_) => None,
    }
}

/// Behind words of an integer.
#[tactic(auto, using(crate::proofs::Saying::char_no_size_with_int, crate::proofs::Saying::char_no_size_no_int, crate::proofs::Saying::char_short, crate::proofs::Saying::char_long, crate::proofs::Saying::char_long_long))]
fn integer_and_char(g: Option<Sign>, z: Size, i: bool, h: Sign) -> Option<Said>
    ensures { said_or_not result ≡ integer_and (sign_or_not g) (size_of z) i (char_word (sign_of h)) }
{
    match z {
        Size::No => if i { None } else { Some(Said::Character(h, g)) },
        Size::Short => None,
        Size::Long => None,
        Size::LongLong => None,
    }
}

/// With this word more.
#[tactic(auto, using(crate::proofs::Saying::a_character_and_char, crate::proofs::Saying::of_128_bits_and_char, crate::proofs::Saying::a_float_and_char, crate::proofs::Saying::a_double_and_char, crate::proofs::Saying::a_complex_and_char))]
pub fn say_char(s: Said, h: Sign) -> Option<Said>
    ensures { said_or_not result ≡ say (said_of s) (char_word (sign_of h)) }
{
    match s {
        Said::Integer(g, z, i) => integer_and_char(g, z, i, h),
        Said::Character(_, _) => None,
        Said::Of128Bits(_) => None,
        Said::Float(_) => None,
        Said::Double(_, _) => None,
        Said::Complex(_) => None,
    }
}

/// Behind words of an integer.
#[tactic(auto, using(crate::proofs::Saying::float_no_sign_no_size_with_int, crate::proofs::Saying::float_no_sign_no_size_no_int, crate::proofs::Saying::float_no_sign_short, crate::proofs::Saying::float_no_sign_long, crate::proofs::Saying::float_no_sign_long_long, crate::proofs::Saying::float_sign))]
fn integer_and_float(g: Option<Sign>, z: Size, i: bool) -> Option<Said>
    ensures { said_or_not result ≡ integer_and (sign_or_not g) (size_of z) i (type_word float) }
{
    match g {
        None => match z {
            Size::No => if i { None } else { Some(Said::Float(false)) },
            Size::Short => None,
            Size::Long => None,
            Size::LongLong => None,
        },
        Some(_) => None,
    }
}

/// With this word more.
#[tactic(auto, using(crate::proofs::Saying::a_character_and_float, crate::proofs::Saying::of_128_bits_and_float, crate::proofs::Saying::a_float_and_float, crate::proofs::Saying::a_double_and_float, crate::proofs::Saying::a_complex_and_float_l_yes, crate::proofs::Saying::a_complex_and_float_l_no))]
pub fn say_float(s: Said) -> Option<Said>
    ensures { said_or_not result ≡ say (said_of s) (type_word float) }
{
    match s {
        Said::Integer(g, z, i) => integer_and_float(g, z, i),
        Said::Character(_, _) => None,
        Said::Of128Bits(_) => None,
        Said::Float(_) => None,
        Said::Double(_, _) => None,
        Said::Complex(l) => if l { None } else { Some(Said::Float(true)) },
    }
}

/// Behind words of an integer.
#[tactic(auto, using(crate::proofs::Saying::double_no_sign_no_size_with_int, crate::proofs::Saying::double_no_sign_no_size_no_int, crate::proofs::Saying::double_no_sign_short, crate::proofs::Saying::double_no_sign_long_with_int, crate::proofs::Saying::double_no_sign_long_no_int, crate::proofs::Saying::double_no_sign_long_long, crate::proofs::Saying::double_sign))]
fn integer_and_double(g: Option<Sign>, z: Size, i: bool) -> Option<Said>
    ensures { said_or_not result ≡ integer_and (sign_or_not g) (size_of z) i (type_word double) }
{
    match g {
        None => match z {
            Size::No => if i {
                None
            } else {
                Some(Said::Double(false, false))
            },
            Size::Short => None,
            Size::Long => if i {
                None
            } else {
                Some(Said::Double(true, false))
            },
            Size::LongLong => None,
        },
        Some(_) => None,
    }
}

/// With this word more.
#[tactic(auto, using(crate::proofs::Saying::a_character_and_double, crate::proofs::Saying::of_128_bits_and_double, crate::proofs::Saying::a_float_and_double, crate::proofs::Saying::a_double_and_double, crate::proofs::Saying::a_complex_and_double))]
pub fn say_double(s: Said) -> Option<Said>
    ensures { said_or_not result ≡ say (said_of s) (type_word double) }
{
    match s {
        Said::Integer(g, z, i) => integer_and_double(g, z, i),
        Said::Character(_, _) => None,
        Said::Of128Bits(_) => None,
        Said::Float(_) => None,
        Said::Double(_, _) => None,
        Said::Complex(l) => Some(Said::Double(l, true)),
    }
}

/// Behind words of an integer.
#[tactic(auto, using(crate::proofs::Saying::complex_no_sign_no_size_with_int, crate::proofs::Saying::complex_no_sign_no_size_no_int, crate::proofs::Saying::complex_no_sign_short, crate::proofs::Saying::complex_no_sign_long_with_int, crate::proofs::Saying::complex_no_sign_long_no_int, crate::proofs::Saying::complex_no_sign_long_long, crate::proofs::Saying::complex_sign))]
fn integer_and_complex(g: Option<Sign>, z: Size, i: bool) -> Option<Said>
    ensures { said_or_not result ≡ integer_and (sign_or_not g) (size_of z) i (complex_word) }
{
    match g {
        None => match z {
            Size::No => if i { None } else { Some(Said::Complex(false)) },
            Size::Short => None,
            Size::Long => if i { None } else { Some(Said::Complex(true)) },
            Size::LongLong => None,
        },
        Some(_) => None,
    }
}

/// With this word more.
#[tactic(auto, using(crate::proofs::Saying::a_character_and_complex, crate::proofs::Saying::of_128_bits_and_complex, crate::proofs::Saying::a_float_and_complex_c_yes, crate::proofs::Saying::a_float_and_complex_c_no, crate::proofs::Saying::a_double_and_complex_c_yes, crate::proofs::Saying::a_double_and_complex_c_no, crate::proofs::Saying::a_complex_and_complex))]
pub fn say_complex(s: Said) -> Option<Said>
    ensures { said_or_not result ≡ say (said_of s) (complex_word) }
{
    match s {
        Said::Integer(g, z, i) => integer_and_complex(g, z, i),
        Said::Character(_, _) => None,
        Said::Of128Bits(_) => None,
        Said::Float(c) => if c { None } else { Some(Said::Float(true)) },
        Said::Double(l, c) => if c { None } else { Some(Said::Double(l, true)) },
        Said::Complex(_) => None,
    }
}

/// The sign that is meant: without one, an integer is signed.
fn sign_said(g: Option<Sign>) -> Sign
    ensures { sign_of result ≡ sign_said (sign_or_not g) }
{
    match g {
        None => Sign::Signed,
        Some(h) => h,
    }
}

/// What words of an integer mean without a size: nothing where there are none.
#[tactic(auto, using(crate::proofs::Named::nothing_said, crate::proofs::Named::int_said, crate::proofs::Named::sign_alone))]
fn no_size_named(g: Option<Sign>, i: bool) -> Option<Kind>
    ensures { kind_or_not result ≡ named_by (words_of (an_integer (sign_or_not g) of_no_size i)) }
{
    match g {
        None => {
            if i {
                Some(Kind::Whole(FfiType::S32))
            } else {
                None
            }
        }
        Some(h) => Some(Kind::Whole(int_of(h))),
    }
}

/// What words of an integer mean.
#[tactic(auto, using(crate::proofs::Named::no_size, crate::proofs::Named::a_short, crate::proofs::Named::a_long, crate::proofs::Named::a_long_long))]
fn integer_named(g: Option<Sign>, z: Size, i: bool) -> Option<Kind>
    ensures { kind_or_not result ≡ named_by (words_of (an_integer (sign_or_not g) (size_of z) i)) }
{
    match z {
        Size::No => no_size_named(g, i),
        Size::Short => Some(Kind::Whole(short_of(sign_said(g)))),
        Size::Long => Some(Kind::Whole(long_of(sign_said(g)))),
        Size::LongLong => Some(Kind::Whole(long_of(sign_said(g)))),
    }
}

/// The sign of a `char`: that of the machine, where no word says one.
fn sign_by(c: Sign, g: Option<Sign>) -> Sign
    ensures { sign_of result ≡ sign_by (sign_of c) (sign_or_not g) }
{
    match g {
        None => c,
        Some(h) => h,
    }
}

/// What `char` means.
#[tactic(auto, using(crate::proofs::Named::a_char))]
fn character_named(c: Sign, g: Option<Sign>) -> Option<Kind>
    ensures { kind_or_not result ≡ named_by (words_of (a_character (sign_of c) (sign_or_not g))) }
{
    Some(Kind::Whole(char_of(sign_by(c, g))))
}

/// What `__int128` means.
#[tactic(auto, using(crate::proofs::Named::an_int128))]
fn int128_named(g: Option<Sign>) -> Option<Kind>
    ensures { kind_or_not result ≡ named_by (words_of (of_128_bits (sign_or_not g))) }
{
    Some(Kind::Whole(int128_of(sign_said(g))))
}

/// A complex number of two floats.
fn complex_float(alloc: Global) -> Result<FfiType, NoMemory>
    ensures { IfOk result (λ t. tree_of t ≡ complex_of float) }
{
    let mut parts = Fields::new(alloc);
    parts.push(FfiType::Float)?;
    parts.push(FfiType::Float)?;
    Ok(FfiType::Struct(parts))
}

/// A complex number of two doubles.
fn complex_double(alloc: Global) -> Result<FfiType, NoMemory>
    ensures { IfOk result (λ t. tree_of t ≡ complex_of double) }
{
    let mut parts = Fields::new(alloc);
    parts.push(FfiType::Double)?;
    parts.push(FfiType::Double)?;
    Ok(FfiType::Struct(parts))
}

/// What `float` means, with `_Complex` or without.
#[tactic(auto, using(crate::proofs::Named::float_alone, crate::proofs::Named::float_complex))]
fn float_named(alloc: Global, c: bool) -> Result<Option<Kind>, NoMemory>
    ensures { IfOk result (λ k. kind_or_not k ≡ named_by (words_of (a_float c))) }
{
    if c {
        Ok(Some(Kind::Whole(complex_float(alloc)?)))
    } else {
        Ok(Some(Kind::Whole(FfiType::Float)))
    }
}

/// What `double` means, with `long` and `_Complex` or without.
#[tactic(auto, using(crate::proofs::Named::double_alone, crate::proofs::Named::double_complex, crate::proofs::Named::long_double_alone, crate::proofs::Named::long_double_complex))]
fn double_named(alloc: Global, l: bool, c: bool) -> Result<Option<Kind>, NoMemory>
    ensures { IfOk result (λ k. kind_or_not k ≡ named_by (words_of (a_double l c))) }
{
    if l {
        if c {
            Ok(Some(Kind::Whole(FfiType::Complex)))
        } else {
            Ok(Some(Kind::Whole(FfiType::LongDouble)))
        }
    } else {
        if c {
            Ok(Some(Kind::Whole(complex_double(alloc)?)))
        } else {
            Ok(Some(Kind::Whole(FfiType::Double)))
        }
    }
}

/// What the words mean that have been said, if they name a type already.
#[tactic(auto, using(crate::proofs::Named::complex_alone))]
pub fn named(alloc: Global, s: Said) -> Result<Option<Kind>, NoMemory>
    ensures { IfOk result (λ k. kind_or_not k ≡ named_by (words_of (said_of s))) }
{
    match s {
        Said::Integer(g, z, i) => Ok(integer_named(g, z, i)),
        Said::Character(c, g) => Ok(character_named(c, g)),
        Said::Of128Bits(g) => Ok(int128_named(g)),
        Said::Float(c) => float_named(alloc, c),
        Said::Double(l, c) => double_named(alloc, l, c),
        Said::Complex(_) => Ok(None),
    }
}
