//! The words for types.
ghost use Rattle.std.specs.Prelude.{◌≡◌, Some, option_map};
ghost use Rattle.ffi3_type_spec.specs.Names.{type_named, type_beside, type_names};
ghost use Rattle.ffi3_types.specs.TreeOf.{tree_of};

use crate::FfiType;

impl FfiType {
    /// The type that a word names in a version of the script language, as `uint32` or `pointer`
    /// (libffi's names without `ffi_type_`). None where no type has this name. Version 1 has no
    /// words for the integers of 128 bits; any other number reads as version 2.
    pub fn from_name(name: &str, version: u8) -> Option<FfiType>
        ensures { option_map tree_of result ≡ type_named version name.now }
    {
        if version == 1 {
            FfiType::narrow(name)
        } else {
            match name {
                "uint128" => Some(FfiType::U128),
                "sint128" => Some(FfiType::S128),
                _ => FfiType::narrow(name),
            }
        }
    }

    /// The type that a word names in every version.
    fn narrow(name: &str) -> Option<FfiType>
        ensures { option_map tree_of result ≡ type_beside name.now type_names }
    {
        let (word, ty) = likely(name.as_bytes());
        if name == word {
            return Some(ty);
        }
        FfiType::among_all(name)
    }

    /// The same, each word being compared.
    fn among_all(name: &str) -> Option<FfiType>
        ensures { option_map tree_of result ≡ type_beside name.now type_names }
    {
        match name {
            "void" => Some(FfiType::Void),
            "uint8" | "uchar" => Some(FfiType::U8),
            "sint8" | "schar" => Some(FfiType::S8),
            "uint16" | "ushort" => Some(FfiType::U16),
            "sint16" | "sshort" => Some(FfiType::S16),
            "uint32" | "uint" => Some(FfiType::U32),
            "sint32" | "sint" => Some(FfiType::S32),
            "uint64" | "ulong" => Some(FfiType::U64),
            "sint64" | "slong" => Some(FfiType::S64),
            "float" => Some(FfiType::Float),
            "double" => Some(FfiType::Double),
            "pointer" => Some(FfiType::Pointer),
            "longdouble" => Some(FfiType::LongDouble),
            "complex_float" | "complex_double" | "complex_longdouble" => Some(FfiType::Complex),
            "vector" => Some(FfiType::Vector),
            _ => None,
        }
    }
}

/// A word with its type: where letters begin and end as an often used word does, this one. So one comparison tells
/// such a word.
fn likely(letters: &[u8]) -> (&'static str, FfiType)
    ensures { type_beside result.0.now type_names ≡ Some (tree_of result.1) }
{
    let count = letters.len();
    if count == 0 {
        return ("void", FfiType::Void);
    }
    match (letters[0], letters[count - 1]) {
        (b'u', b'8') => ("uint8", FfiType::U8),
        (b's', b'8') => ("sint8", FfiType::S8),
        (b'u', b'6') => ("uint16", FfiType::U16),
        (b's', b'6') => ("sint16", FfiType::S16),
        (b'u', b'2') => ("uint32", FfiType::U32),
        (b's', b'2') => ("sint32", FfiType::S32),
        (b'u', b'4') => ("uint64", FfiType::U64),
        (b's', b'4') => ("sint64", FfiType::S64),
        (b'f', _) => ("float", FfiType::Float),
        (b'd', _) => ("double", FfiType::Double),
        (b'p', _) => ("pointer", FfiType::Pointer),
        _ => ("void", FfiType::Void),
    }
}
