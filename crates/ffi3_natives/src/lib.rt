//! The natives of this library, which stand beside the functions of a script: `apply`, `twice` and
//! `sum3`. Who hands them to a run boxes each as a `dyn Native`, in this order.
#![tactic(auto)]

mod apply;
mod calling;
mod sum3;
mod twice;

pub use apply::Apply;
pub use ffi3_body::NoMemory;
pub use sum3::Sum3;
pub use twice::Twice;
