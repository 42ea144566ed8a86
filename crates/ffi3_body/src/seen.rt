//! What an activation has seen.
ghost use Rattle.std.specs.Prelude.{◌≡◌, ◌+◌, ◌<◌, ◌≤◌, ◌^◌, IfOk, length, true, slice_index_or};
ghost use Rattle.ffi3_type_spec.specs.declared.limits.TheConstants.{LARGEST_TYPE};
ghost use Rattle.ffi3_type_spec.specs.Tree.{tree_at, trees_of};
ghost use Rattle.ffi3_type_spec.specs.Value.{void_value, values_of, fits, all_fit};
ghost use Rattle.ffi3_type_spec.specs.Layout.{size_of};
ghost use Rattle.ffi3_type_spec.specs.Fault.{IsLaidOut, IsResultType};
ghost use Rattle.ffi3_type_spec.specs.Signature.{SignatureHasNoFault};
ghost use Rattle.ffi3_place_spec.specs.Standard.{block_bytes, round8};
ghost use Rattle.ffi3_types.specs.TreeOf.{tree_of};
ghost use Rattle.ffi3_values.specs.ValueOf.{value_of};
ghost use Rattle.ffi3_semantics_spec.specs.SeenActivation.{argument_bytes, arguments_of, block_offset};

use ffi3_type_spec::round_up;
use ffi3_types::{FfiType, NoMemory, Sig};
use ffi3_values::{Value, Values, value_from_bytes};
use std::alloc::Global;
use std::marker::Model;

/// What an activation has seen: its arguments, its user data and the results of its moves so far.
#[derive(Debug, Drop)]
pub struct Seen<'a> {
    sig: &'a Sig,
    block: &'a [u8],
    user: u64,
    results: &'a Values,
}

impl<'a> Model for Seen<'a> {
    ghost use Rattle.std.specs.Prelude.{◌≡◌, length};
    ghost use Rattle.ffi3_type_spec.specs.Signature.{SignatureHasNoFault};
    ghost use Rattle.ffi3_place_spec.specs.Standard.{block_bytes};
    ghost use Rattle.ffi3_semantics_spec.specs.SeenActivation.{SeenActivation, activation_code};

    ghost Value = { SeenActivation };

    ghost coded = { activation_code };

    ghost view = { λ s. record { signature = s.sig.now; block = s.block.now; user = s.user; results = s.results.now } };

    ghost invariant = { λ s. SignatureHasNoFault s.sig.now × (length s.block.now ≡ block_bytes s.sig.now) };
}

impl<'a> Seen<'a> {
    /// An activation by this signature, with the arguments in `block`: each behind the one before
    /// it, in whole doublewords, and the whole in an even number of them. `results` has one value
    /// for each move done. It takes no memory.
    pub fn new(sig: &'a Sig, block: &'a [u8], user: u64, results: &'a Values) -> Seen<'a>
        requires right { SignatureHasNoFault sig.now }
        requires sized { length block.now ≡ block_bytes sig.now }
        ensures { result ≡ record { signature = sig.now; block = block.now; user = user; results = results.now } }
    {
        Seen {
            sig,
            block,
            user,
            results,
        }
    }

    /// How many arguments there are. They fit their types.
    pub fn count(&self) -> u32
        ensures is { result ≡ length self.now.signature.arguments }
        ensures fit { all_fit (trees_of self.now.signature.arguments) (values_of (arguments_of self.now)) ≡ true }
    {
        self.sig.count()
    }

    /// The type of argument `i`, which has no fault, and would have none as a result's.
    fn arg_type(&self, i: u32) -> &'a FfiType
        requires { i < length self.now.signature.arguments }
        ensures is { tree_of result.now ≡ tree_at self.now.signature.arguments i }
        ensures right { IsLaidOut (tree_of result.now) }
        ensures as_result { IsResultType (tree_of result.now) }
        ensures small { size_of (tree_of result.now) ≤ LARGEST_TYPE }
        ensures within { block_offset self.now.signature.arguments i + round8 (size_of (tree_of result.now)) ≤ length self.now.block }
        ensures bound { length self.now.block < 2 ^ 32 }
    {
        self.sig.arg(i)
    }

    /// The bytes of argument `i`, padding included.
    pub fn arg_bytes(&self, i: u32) -> &'a [u8]
        requires { i < length self.now.signature.arguments }
        ensures are { result.now ≡ argument_bytes self.now i }
        ensures count { length result.now ≡ size_of (tree_at self.now.signature.arguments i) }
    {
        let mut offset: u64 = 0;
        for k in 0..i {
            offset += round_up(self.arg_type(k).size(), 8);
        }
        let size = self.arg_type(i).size();
        &self.block[offset as usize..(offset + size) as usize]
    }

    /// Argument `i`.
    pub fn arg(&self, alloc: Global, i: u32) -> Result<Value, NoMemory>
        requires { i < length self.now.signature.arguments }
        ensures is { IfOk result (λ v. value_of v ≡ slice_index_or (arguments_of self.now) i void_value) }
        ensures fits { IfOk result (λ v. fits (tree_at self.now.signature.arguments i) (value_of v) ≡ true) }
    {
        value_from_bytes(alloc, self.arg_type(i), self.arg_bytes(i))
    }

    /// The user data of the closure.
    pub fn user(&self) -> u64
        ensures { result ≡ self.now.user }
    {
        self.user
    }

    /// How many moves are done.
    pub fn results(&self) -> u32
        ensures { result ≡ length self.now.results }
    {
        self.results.len() as u32
    }

    /// The result of move `i`.
    pub fn result(&self, i: u32) -> &'a Value
        requires { i < length self.now.results }
        ensures { value_of result.now ≡ slice_index_or self.now.results i void_value }
    {
        self.results.get(i as usize)
    }
}
