//! Forms of values, each named by its key.
ghost use Rattle.std.specs.Prelude.{◌≡◌};
ghost use Rattle.ffi3_script_spec.specs.Values.{form_named};
ghost use Rattle.ffi3_script.specs.Shapes.{is_untyped, form_of};

use ffi3_json::Node;

/// The forms of values that have a type of their own.
#[derive(Clone, Copy)]
pub(crate) enum TypedForm {
    /// The argument of a number.
    Arg,
    /// The result of an earlier move, by its name.
    Res,
    /// The user data of the closure.
    User,
    /// An element of a struct or an array.
    Field,
    /// A value against a type.
    Of,
}

/// The forms of values that are objects, each named by its key.
#[derive(Clone, Copy)]
pub(crate) enum Form {
    Typed(TypedForm),
    /// The sum of two integers.
    Add,
    /// The difference of two integers.
    Sub,
    /// An integer or pointer as one of another type.
    Cast,
    /// No form.
    Unknown,
}

/// The form that a key names.
pub(crate) fn form_named(name: &str) -> Form
    ensures { form_of result ≡ form_named name.now }
{
    match name {
        "arg" => Form::Typed(TypedForm::Arg),
        "res" => Form::Typed(TypedForm::Res),
        "user" => Form::Typed(TypedForm::User),
        "field" => Form::Typed(TypedForm::Field),
        "of" => Form::Typed(TypedForm::Of),
        "add" => Form::Add,
        "sub" => Form::Sub,
        "cast" => Form::Cast,
        _ => Form::Unknown,
    }
}

/// Whether the value is a number, a text or an array.
pub(crate) fn is_untyped(value: &Node) -> bool
    ensures { result ≡ is_untyped value.now }
{
    value.as_number().is_some() || value.as_str().is_some() || value.items().is_some()
}
