//! The integers of C by their sign.
ghost use Rattle.std.specs.Prelude.{◌≡◌};
ghost use Rattle.ffi3_type_spec.specs.Tree.{scalar};
ghost use Rattle.ffi3_types.specs.TreeOf.{tree_of};
ghost use Rattle.ffi3_cdecl_spec.specs.Grammar.{char_of, short_of, int_of, long_of, int128_of};
ghost use Rattle.ffi3_cdecl.specs.TokenOf.{sign_of};

use crate::token::Sign;
use ffi3_types::FfiType;

/// The `char` of a sign.
pub fn char_of(g: Sign) -> FfiType
    ensures { tree_of result ≡ scalar (char_of (sign_of g)) }
{
    match g {
        Sign::Signed => FfiType::S8,
        Sign::Unsigned => FfiType::U8,
    }
}

/// The `short`.
pub fn short_of(g: Sign) -> FfiType
    ensures { tree_of result ≡ scalar (short_of (sign_of g)) }
{
    match g {
        Sign::Signed => FfiType::S16,
        Sign::Unsigned => FfiType::U16,
    }
}

/// The `int`.
pub fn int_of(g: Sign) -> FfiType
    ensures { tree_of result ≡ scalar (int_of (sign_of g)) }
{
    match g {
        Sign::Signed => FfiType::S32,
        Sign::Unsigned => FfiType::U32,
    }
}

/// The `long`, and the `long long`.
pub fn long_of(g: Sign) -> FfiType
    ensures { tree_of result ≡ scalar (long_of (sign_of g)) }
{
    match g {
        Sign::Signed => FfiType::S64,
        Sign::Unsigned => FfiType::U64,
    }
}

/// The `__int128`.
pub fn int128_of(g: Sign) -> FfiType
    ensures { tree_of result ≡ scalar (int128_of (sign_of g)) }
{
    match g {
        Sign::Signed => FfiType::S128,
        Sign::Unsigned => FfiType::U128,
    }
}
