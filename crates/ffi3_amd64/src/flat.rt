//! Structs whose elements are scalars of at most eight bytes, and arrays of such: one walk over the elements finds
//! their size and where their integers and pointers lie. Most structs are so.
ghost use Rattle.std.specs.Prelude.{◌≡◌, ◌<◌, ◌≤◌, ◌+◌, ◌*◌, ◌^◌, IfSome, length};
ghost use Rattle.ffi3_type_spec.specs.Tree.{struct_of};
ghost use Rattle.ffi3_type_spec.specs.Layout.{least_multiple};
ghost use Rattle.ffi3_type_spec.specs.Fault.{IsLaidOut};
ghost use Rattle.ffi3_types.specs.TreeOf.{tree_of};
ghost use Rattle.ffi3_amd64.specs.Flat.{IsFlat, IsRun, scalar_run, with_run};

use ffi3_type_spec::round_up;
use ffi3_types::{FfiType, Fields};

/// Scalars of one kind, one after another: the bytes of each, which are their alignment, and of all of them.
#[derive(Clone, Copy)]
pub struct Run {
    pub each: u64,
    pub size: u64,
    pub is_integer: bool,
}

/// A scalar of at most eight bytes.
#[inline(always)]
fn scalar_run(ty: &FfiType) -> Option<Run>
    ensures { result ≡ scalar_run (tree_of ty.now) }
{
    match ty {
        FfiType::U8 | FfiType::S8 => Some(Run {
            each: 1,
            size: 1,
            is_integer: true,
        }),
        FfiType::U16 | FfiType::S16 => Some(Run {
            each: 2,
            size: 2,
            is_integer: true,
        }),
        FfiType::U32 | FfiType::S32 => Some(Run {
            each: 4,
            size: 4,
            is_integer: true,
        }),
        FfiType::U64 | FfiType::S64 | FfiType::Pointer => Some(Run {
            each: 8,
            size: 8,
            is_integer: true,
        }),
        FfiType::Float => Some(Run {
            each: 4,
            size: 4,
            is_integer: false,
        }),
        FfiType::Double => Some(Run {
            each: 8,
            size: 8,
            is_integer: false,
        }),
        _ => None,
    }
}

/// Such a scalar, or an array of such.
#[inline(always)]
fn run_of(ty: &FfiType) -> Option<Run>
    requires { IsLaidOut (tree_of ty.now) }
    ensures { IfSome result (λ r. IsRun r (tree_of ty.now)) }
{
    if let FfiType::Array(fields, count) = ty {
        let Some(one) = scalar_run(fields.get(0)) else {
            return None;
        };
        return Some(Run {
            each: one.each,
            size: *count as u64 * one.size,
            is_integer: one.is_integer,
        });
    }
    scalar_run(ty)
}

/// What a walk over elements has found: where they end, their alignment, and which of the first two eightbytes have a
/// byte of an integer or a pointer.
#[derive(Clone, Copy)]
pub struct Walk {
    pub end: u64,
    pub align: u64,
    pub first: bool,
    pub second: bool,
}

/// One element more.
#[inline(always)]
fn with_run(before: Walk, run: Run) -> Walk
    requires some { 0 < run.each }
    requires aligned { before.end + run.each < 2 ^ 64 }
    requires fits { least_multiple run.each before.end + run.size < 2 ^ 64 }
    ensures { result ≡ with_run before run }
{
    let start = round_up(before.end, run.each);
    let end = start + run.size;
    Walk {
        end,
        align: before.align.max(run.each),
        first: before.first || (start < 8 && 0 < end && run.is_integer),
        second: before.second || (start < 16 && 8 < end && run.is_integer),
    }
}

/// A walk over all elements of a struct, if each is such a scalar, or an array of such.
#[inline(always)]
pub fn walk_over(fields: &Fields) -> Option<Walk>
    requires { IsLaidOut (struct_of fields.now) }
    ensures { IfSome result (λ w. IsFlat w (struct_of fields.now)) }
{
    let mut walk = Walk {
        end: 0,
        align: 1,
        first: false,
        second: false,
    };
    for i in 0..fields.len() {
        let Some(here) = run_of(fields.get(i)) else {
            return None;
        };
        walk = with_run(walk, here);
    }
    Some(walk)
}
