//! The eight types of arguments.
ghost use Rattle.std.specs.Prelude.{◌≡◌, ◌<◌, ◌≤◌, IfOk, [], ◌∷◌};
ghost use Rattle.ffi3_type_spec.specs.Tree.{scalar, u64};
ghost use Rattle.ffi3_types.specs.TreeOf.{tree_of};
ghost use Rattle.ffi3_script_spec.specs.Made.{made_type, leaves_in};
ghost use Rattle.ffi3_bench_script.specs.KindOf.{type_of};

use crate::NoMemory;
use ffi3_types::{FfiType, Fields};
use std::alloc::Global;

/// A type of an argument that can be drawn.
#[derive(Clone, Copy, Debug)]
pub enum Kind {
    Uint8,
    Sint32,
    Float,
    Double,
    /// A struct of two 64-bit integers.
    TwoWords,
    DoubleAndByte,
    TwoFloats,
    ThreeWords,
}

/// A struct of two elements.
fn pair(alloc: Global, first: FfiType, second: FfiType) -> Result<Fields, NoMemory>
    ensures { IfOk result (λ fs. fs ≡ tree_of first ∷ tree_of second ∷ []) }
{
    let mut fields = Fields::new(alloc);
    fields.push(first)?;
    fields.push(second)?;
    Ok(fields)
}

/// A struct of three words.
fn three_words(alloc: Global) -> Result<Fields, NoMemory>
    ensures { IfOk result (λ fs. fs ≡ scalar u64 ∷ scalar u64 ∷ scalar u64 ∷ []) }
{
    let mut fields = pair(alloc, FfiType::U64, FfiType::U64)?;
    fields.push(FfiType::U64)?;
    Ok(fields)
}

impl Kind {
    ghost use Rattle.std.specs.Prelude.{◌≡◌, ◌<◌, ◌≤◌, IfOk};
    ghost use Rattle.ffi3_types.specs.TreeOf.{tree_of};
    ghost use Rattle.ffi3_script_spec.specs.Made.{made_type, leaves_in};
    ghost use Rattle.ffi3_bench_script.specs.KindOf.{type_of};

    /// The kind of this number.
    pub(crate) fn numbered(number: u32) -> Kind
        requires { number < 8 }
        ensures { type_of result ≡ made_type number }
    {
        match number {
            0 => Kind::Uint8,
            1 => Kind::Sint32,
            2 => Kind::Float,
            3 => Kind::Double,
            4 => Kind::TwoWords,
            5 => Kind::DoubleAndByte,
            6 => Kind::TwoFloats,
            _ => Kind::ThreeWords,
        }
    }

    /// The type.
    pub(crate) fn ty(self, alloc: Global) -> Result<FfiType, NoMemory>
        ensures { IfOk result (λ t. tree_of t ≡ type_of self) }
    {
        Ok(match self {
            Kind::Uint8 => FfiType::U8,
            Kind::Sint32 => FfiType::S32,
            Kind::Float => FfiType::Float,
            Kind::Double => FfiType::Double,
            Kind::TwoWords => FfiType::Struct(pair(alloc, FfiType::U64, FfiType::U64)?),
            Kind::DoubleAndByte => FfiType::Struct(pair(alloc, FfiType::Double, FfiType::U8)?),
            Kind::TwoFloats => FfiType::Struct(pair(alloc, FfiType::Float, FfiType::Float)?),
            Kind::ThreeWords => FfiType::Struct(three_words(alloc)?),
        })
    }

    /// How many leaves it has.
    pub(crate) fn leaves(self) -> u32
        ensures are { result ≡ leaves_in (type_of self) }
        ensures few { result ≤ 3 }
    {
        match self {
            Kind::Uint8 => 1,
            Kind::Sint32 => 1,
            Kind::Float => 1,
            Kind::Double => 1,
            Kind::TwoWords => 2,
            Kind::DoubleAndByte => 2,
            Kind::TwoFloats => 2,
            Kind::ThreeWords => 3,
        }
    }
}
