//! Which format `long double` has by each target's standard, and signatures with that type in its places. The definitions
//! are in `specs/`.
#![tactic(auto)]

ghost use Rattle.ffi3_format_spec.specs.Laws.{FormatLaws};

/// The format of `long double`.
#[derive(Clone, Copy, Debug, PartialEq, Eq)]
pub enum Format {
    /// That of `double`: 64 bits.
    Double,
    /// x87's extended: 80 bits, in 16 bytes.
    X87,
    /// IEEE 754's binary128.
    Binary128,
}

/// Does nothing. Its contract says that a signature without long doubles to be resolved is its own resolution; that
/// resolving twice changes nothing; that every signature which can be called is its own resolution; and that where a long
/// double is a double, what can be placed can be called.
pub fn format_laws()
    ensures { FormatLaws }
{}
