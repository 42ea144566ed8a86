//! A place in a script, on the way to a value.
ghost use Rattle.std.specs.Prelude.{◌≡◌, IfOk};
ghost use Rattle.ffi3_script_spec.specs.Language.{under, at_item};

use crate::{NoMemory, Where};
use std::alloc::Global;
use std::marker::Model;

/// A step that borrows its key.
#[derive(Clone, Copy)]
pub(crate) enum BorrowedStep<'a> {
    Key(&'a str),
    Number(u32),
}

/// The keys and numbers from the root to a value, as one step beyond the place of the value around it. So nothing is
/// copied while values are read: a fault alone takes a `Where` of its own.
#[derive(Drop)]
pub struct JsonPath<'a> {
    start: &'a Where,
    // the place of the value around, and the step from there; at the start none
    last: Option<(&'a JsonPath<'a>, BorrowedStep<'a>)>,
}

impl<'a> Model for JsonPath<'a> {
    ghost use Rattle.std.specs.Prelude.{List, ◌∷◌, [], ◌++◌, length, option_map, unwrap_or};
    ghost use Rattle.ffi3_script_spec.specs.JsonPath.{PathStep};
    ghost use Rattle.ffi3_json.specs.StepOf.{borrowed_step_of};

    ghost Value = { List PathStep };

    ghost view = { λ w. unwrap_or (option_map (λ l. l.0.now ++ borrowed_step_of l.1 ∷ []) w.last) w.start.now };

    ghost size = { length };

    ghost use Rattle.std.proofs.Common.{arith, length-append};

    ghost size_decreases = { λ w h. Prim.grind (arith, length-append) };
}

impl<'a> JsonPath<'a> {
    /// The place itself.
    pub fn from(start: &'a Where) -> JsonPath<'a>
        ensures { result ≡ start.now }
    {
        JsonPath { start, last: None }
    }

    /// On to the member under a key.
    pub fn key<'b>(&'b self, name: &'b str) -> JsonPath<'b>
        ensures { result ≡ under self.now name.now }
    {
        JsonPath {
            start: self.start,
            last: Some((self, BorrowedStep::Key(name))),
        }
    }

    /// On to the item of a number.
    pub fn item(&self, i: u32) -> JsonPath<'_>
        ensures { result ≡ at_item self.now i }
    {
        JsonPath {
            start: self.start,
            last: Some((self, BorrowedStep::Number(i))),
        }
    }

    /// The same place, on its own.
    pub fn owned(&self, alloc: Global) -> Result<Where, NoMemory>
        ensures { IfOk result (λ w. w ≡ self.now) }
    {
        let Some((around, step)) = &self.last else {
            return self.start.copy(alloc);
        };
        let mut place = around.owned(alloc)?;
        match step {
            BorrowedStep::Key(name) => place.push_key(alloc, name)?,
            BorrowedStep::Number(i) => place.push_number(*i)?,
        }
        Ok(place)
    }
}
