//! Values of a script, as bodies compute them, and the types of the elements of one.
ghost use Rattle.std.specs.Prelude.{◌≡◌};
ghost use Rattle.ffi3_types.specs.TreeOf.{tree_of};
ghost use Rattle.ffi3_script_body.specs.ListTypes.{element_types};

use ffi3_types::{Bytes, FfiType, Members};

/// A value of a script: of what an activation knows it is computed anew at each move.
#[derive(Debug, Drop)]
pub enum Expr {
    /// The bytes of a scalar, in memory order.
    Constant(Bytes),
    /// A struct or an array, by the values of its elements.
    Composed(Vec<Expr>),
    /// The argument of this number.
    Argument(u32),
    /// The result of the body's move of this number.
    Outcome(u32),
    /// The user data of the closure, as a pointer.
    User,
    /// The element of this number of a struct or an array.
    Element(Box<Expr>, u32),
    /// A value that the script says is of this type.
    TypedAs(FfiType, Box<Expr>),
    /// The sum of two integers of this type, modulo two to its number of bits.
    Sum(FfiType, Box<Expr>, Box<Expr>),
    /// The difference of two integers of this type, modulo two to its number of bits.
    Difference(FfiType, Box<Expr>, Box<Expr>),
    /// An integer or pointer of the first type as one of the second, modulo two to its number of bits.
    Cast(FfiType, FfiType, Box<Expr>),
}

impl Expr {
    ghost use Rattle.std.specs.Prelude.{◌≡◌};
    ghost use Rattle.ffi3_script_spec.specs.Script as script;
    ghost use Rattle.ffi3_script_body.specs.ExprOf.{expression_of, expressions_in};

    /// A struct or an array of these elements.
    pub fn of_elements(values: Vec<Expr>) -> Expr
        ensures { expression_of result ≡ script.composed (expressions_in values.items) }
    {
        Expr::Composed(values)
    }
}

/// The types of the elements of a struct, or of an array of some type. A value of any other type is no list.
pub fn element_types(ty: &FfiType) -> Option<Members<'_>>
    ensures { result ≡ element_types (tree_of ty.now) }
{
    match ty {
        FfiType::Struct(fields) => Some(Members::of_struct(fields)),
        FfiType::Array(fields, count) => {
            if fields.len() == 0 {
                return None;
            }
            Some(Members::of_array(fields, *count))
        }
        _ => None,
    }
}
