//! The moves of a script's bodies.

use crate::Expr;
use ffi3_types::FfiType;

/// A value with a type of its own.
#[derive(Debug, Drop)]
pub struct TypedExpr {
    pub ty: FfiType,
    pub value: Expr,
}

/// What a move does.
#[derive(Debug, Drop)]
pub enum Act {
    /// Call the closure at a pointer, by the signature of a number.
    Call {
        ptr: Expr,
        sig: u32,
        args: Vec<Expr>,
    },
    /// Make a closure of the function of a number, with user data.
    Make {
        func: u32,
        user: Expr,
    },
    /// Free the closure at a pointer.
    Free {
        ptr: Expr,
    },
    /// Print a value.
    Print(TypedExpr),
    /// End with a result.
    Return(Expr),
    /// End a function whose result is void.
    ReturnVoid,
}

/// A move of a body. Where its condition is 0 it is not done, and its result is the zero value of its type.
#[derive(Debug, Drop)]
pub struct ScriptMove {
    pub condition: Option<TypedExpr>,
    pub act: Act,
    pub name: Option<String>,
}
