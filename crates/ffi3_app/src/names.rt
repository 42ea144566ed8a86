//! The names of natives.
ghost use Rattle.std.specs.Prelude.{◌≡◌, ◌<◌, ◌^◌, IfOk, Some, length, slice_get};
ghost use Rattle.ffi3_script_spec.specs.Natives.{names_of};
ghost use Rattle.ffi3_script_spec.specs.Handed.{handed, handed_in};

use ffi3_body::Native;
use ffi3_script::Names;
use ffi3_types::NoMemory;
use std::alloc::Global;

/// The names that a script is read beside, in the order of the natives.
pub fn names_of_natives(alloc: Global, natives: &Vec<Box<dyn Native>>) -> Result<Names, NoMemory>
    requires { length natives.now.items < 2 ^ 31 }
    ensures { IfOk result (λ names. names ≡ names_of (handed title meaning signatures natives.now.items)) }
{
    let mut names = Names::new(alloc);
    for i in 0..natives.len() {
        names.push(String::from_str(alloc, name_at(natives, i))?)?;
    }
    Ok(names)
}

/// The name of native `i`.
fn name_at(natives: &Vec<Box<dyn Native>>, i: usize) -> &str
    requires { i < length natives.now.items }
    ensures { slice_get (names_of (handed title meaning signatures natives.now.items)) i ≡ Some result.now }
{
    name_of(native_at(natives, i))
}

/// Native `i`.
fn native_at(natives: &Vec<Box<dyn Native>>, i: usize) -> &Box<dyn Native>
    requires { i < length natives.now.items }
    ensures { slice_get (handed title meaning signatures natives.now.items) i
        ≡ Some (handed_in (title result.now) (meaning result.now) (signatures result.now)) }
{
    &natives[i]
}

/// A box is called here, so that its callers' proofs speak of the box itself.
fn name_of(native: &Box<dyn Native>) -> &str
    ensures { result.now ≡ title native.now }
{
    native.name()
}
