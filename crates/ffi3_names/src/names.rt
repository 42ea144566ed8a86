//! The names of a prototype's parameters, found in one pass over its bytes.
ghost use Rattle.std.specs.Prelude.{◌≡◌, ◌++◌, IfOk, OnOk, [], get_or};
ghost use Rattle.ffi3_cdecl_spec.specs.Tokens.{wide};
ghost use Rattle.ffi3_cdecl_spec.specs.Grammar.{Declaration};
ghost use Rattle.ffi3_cdecl_spec.specs.Reading.{IsReadingIn, reads};
ghost use Rattle.ffi3_names_spec.specs.Names.{AreNames};
ghost use Rattle.ffi3_names_spec.specs.Scan.{names_in, next, told};
ghost use Rattle.ffi3_cdecl.specs.TokenOf.{sign_of, token_of};
ghost use Rattle.ffi3_names.specs.NamesOf.{names_of, spot_of, told_of};

use crate::spot::{Spot, next, told};
use ffi3_cdecl::token::{Dialect, Found, Sign, Token, found_in};
use ffi3_types::NoMemory;
use std::alloc::Global;

/// What a prototype calls a parameter: bytes of its text, none where it has no name.
#[derive(Clone, Copy, Debug)]
pub struct Name<'t> {
    pub bytes: &'t [u8],
}

/// The names, with one more where one is told.
fn push_if<'t>(names: &mut Vec<Name<'t>>, name: Option<Name<'t>>) -> Result<(), NoMemory>
    ensures { OnOk result (names_of names.new.items ≡ names_of names.old.items ++ told_of name.entry) }
{
    if let Some(one) = name {
        names.push(one)?;
    }
    Ok(())
}

/// One token further.
fn step<'t>(names: &mut Vec<Name<'t>>, spot: Spot, token: Token<'t>) -> Result<Spot, NoMemory>
    ensures put { OnOk result (names_of names.new.items ≡ names_of names.old.items ++ told (spot_of spot) (token_of token.entry)) }
    ensures there { IfOk result (λ s. spot_of s ≡ next (spot_of spot) (token_of token.entry)) }
{
    push_if(names, told(spot, token))?;
    next(spot, token)
}

/// One pass over the bytes.
#[tactic(auto, using(crate::proofs::Turns::nothing_more, crate::proofs::Turns::none_left))]
fn pass<'t>(alloc: Global, c: Sign, text: &'t [u8]) -> Result<Vec<Name<'t>>, NoMemory>
    ensures { IfOk result (λ v. names_of v.items ≡ names_in (sign_of c) text.now) }
{
    let mut names = Vec::new(alloc);
    let mut spot = Spot::Base(false);
    let mut inside = 0;
    for at in 0..text.len() {
        if inside > 0 {
            inside -= 1;
        } else {
            match found_in(Dialect::Wide, c, text, at) {
                Found::Blank => {}
                Found::Skipped(more) => inside = more,
                Found::Nothing => return Ok(names),
                Found::Token(token, more) => {
                    spot = step(&mut names, spot, token)?;
                    inside = more;
                }
            }
        }
    }
    Ok(names)
}

/// Finds the names that a text gives its parameters, where it is a prototype (C11 6.7.6): one of each, in their order,
/// of the types behind the dots too.
pub fn names_in<'t>(
    alloc: Global,
    char_sign: Sign,
    text: &'t [u8],
) -> Result<Vec<Name<'t>>, NoMemory>
    ensures computed { IfOk result (λ v. names_of v.items ≡ names_in (sign_of char_sign) text.now) }
    ensures named { IfOk result (λ v. (d : Declaration) → IsReadingIn wide (sign_of char_sign) text.now (reads d) → AreNames (sign_of char_sign) text.now d (names_of v.items)) }
{
    let names = pass(alloc, char_sign, text)?;
    Ok(names)
}

/// The name of parameter `j`: no bytes where it has none, or there is no such parameter.
pub fn name_at<'t>(names: &Vec<Name<'t>>, j: usize) -> &'t [u8]
    ensures { result.now ≡ get_or (names_of names.now.items) j [] }
{
    if j < names.len() { names[j].bytes } else { b"" }
}
