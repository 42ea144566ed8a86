//! What a value of a body may speak of.

use crate::names::{FunctionNames, NameIndex};
use ffi3_types::{Fields, Sig, Sigs};

/// Where a value stands: in a script of this version, in a body of this signature, after moves whose results have these names and types.
#[derive(Drop)]
pub(crate) struct Scope<'a> {
    pub(crate) version: u8,
    pub(crate) own: &'a Sig,
    pub(crate) names: &'a NameIndex,
    pub(crate) types: &'a Fields,
}

/// What all bodies of a script speak of: its version, its signatures, and its functions and then the natives.
#[derive(Drop)]
pub(crate) struct Globals<'a> {
    pub(crate) version: u8,
    pub(crate) sigs: &'a Sigs,
    pub(crate) functions: &'a FunctionNames,
}
