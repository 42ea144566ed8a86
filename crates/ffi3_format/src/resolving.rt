//! Types in which long doubles have a format.
ghost use Rattle.std.specs.Prelude.{◌≡◌, IfOk, map};
ghost use Rattle.ffi3_format_spec.specs.Format.{long_double_by, complex_by, resolved};
ghost use Rattle.ffi3_types.specs.TreeOf.{tree_of};

use crate::Format;
use ffi3_types::{FfiType, Fields, NoMemory};
use std::alloc::Global;

/// The type that `long double` is.
fn long_double_by(format: Format) -> FfiType
    ensures { tree_of result ≡ long_double_by format }
{
    match format {
        Format::Double => FfiType::Double,
        Format::X87 => FfiType::X87,
        Format::Binary128 => FfiType::Binary128,
    }
}

/// The type that `long double _Complex` is.
fn complex_by(alloc: Global, format: Format) -> Result<FfiType, NoMemory>
    ensures { IfOk result (λ t. tree_of t ≡ complex_by format) }
{
    let mut parts = Fields::with_capacity(alloc, 2)?;
    parts.push(long_double_by(format))?;
    if let Format::X87 = format {
        return Ok(FfiType::Array(parts, 2));
    }
    parts.push(long_double_by(format))?;
    Ok(FfiType::Struct(parts))
}

/// The type in which they have a format.
#[cycle(resolving)]
pub fn resolved(alloc: Global, format: Format, ty: &FfiType) -> Result<FfiType, NoMemory>
    ensures { IfOk result (λ t. tree_of t ≡ resolved format (tree_of ty.now)) }
{
    match ty {
        FfiType::LongDouble => Ok(long_double_by(format)),
        FfiType::Complex => complex_by(alloc, format),
        FfiType::Struct(fields) => Ok(FfiType::Struct(all_resolved(alloc, format, fields)?)),
        FfiType::Array(fields, count) => {
            Ok(FfiType::Array(all_resolved(alloc, format, fields)?, *count))
        }
        _ => ty.copy(alloc),
    }
}

/// The types, in the same order.
#[cycle(resolving)]
pub fn all_resolved(alloc: Global, format: Format, types: &Fields) -> Result<Fields, NoMemory>
    ensures { IfOk result (λ ts. ts ≡ map (resolved format) types.now) }
{
    let mut fields = Fields::with_capacity(alloc, types.len())?;
    for i in 0..types.len() {
        fields.push(resolved(alloc, format, types.get(i))?)?;
    }
    Ok(fields)
}
