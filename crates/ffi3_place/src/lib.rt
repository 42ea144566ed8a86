//! Places of arguments and results, the trait of a calling standard, and what the standards share.
#![tactic(auto)]

ghost use Rattle.std.specs.Prelude.{◌≡◌, ℕ, ◌*◌, ◌<◌, true, IfOk, length, slice_index_or};
ghost use Rattle.ffi3_type_spec.specs.declared.Target.{Target};
ghost use Rattle.ffi3_type_spec.specs.Signature.{Signature, SignatureIsPlaced, HasNoLongDouble};
ghost use Rattle.ffi3_place_spec.specs.Standard.{Standard, plan_of};
ghost use Rattle.ffi3_place_spec.specs.Sound.{IsSound, IsDetermined};
ghost use Rattle.ffi3_place_spec.specs.Agrees.{AgreesWithMachine};
ghost use Rattle.ffi3_place_spec.specs.Alike.{GoesByLayout};
ghost use Rattle.ffi3_place_spec.specs.ByStubs.{AgreesWithStubs, ResultGoesByStubs};
ghost use Rattle.ffi3_place_spec.specs.StubRegisters.{has_stubs};

pub mod ends;
pub mod names;
pub mod parts;

pub use ffi3_place_spec::{Ext, Loc, Piece, Pieces, Place, Places, Plan, Res, SaveWord};
use ffi3_types::{NoMemory, Sig, Target};
use std::alloc::Global;

/// A calling standard: where the arguments and the result of a signature stand.
pub trait Abi {
    // The standard's own definition, which each member meets.
    ghost standard: { Standard };

    ghost SAVE: { ℕ };

    ghost LINK: { ℕ };

    ghost TARGET: { Target };

    ghost KEPT: { ℕ };

    ghost ARGUMENT_REGISTERS: { ℕ };

    /// Bytes of the area in which a callee saves the registers that it preserves, the link register and the address of a
    /// hidden result, where the standard has them.
    const SAVE: u64;

    /// Bytes of the return address on the stack.
    const LINK: u64;

    /// The target whose calls follow the standard.
    const TARGET: Target;

    /// How many registers a callee preserves, the stack pointer aside.
    const KEPT: u8;

    /// How many registers arguments and the address of a hidden result are passed in.
    const ARGUMENT_REGISTERS: u8;

    /// Preserved register `k`.
    fn callee_saved(k: u8) -> Loc
        requires { k < KEPT }
        ensures { result ≡ slice_index_or standard.callee_saved k result };

    /// Argument register `k`.
    fn argument_register(k: u8) -> Loc
        requires { k < ARGUMENT_REGISTERS }
        ensures { result ≡ slice_index_or standard.argument_registers k result };

    /// Word `k` of the area in which a callee saves registers, from its lowest address. A word has eight bytes.
    fn saved_word(k: u8) -> SaveWord
        requires { 8 * k < SAVE }
        ensures { result ≡ slice_index_or standard.save_area k result };

    /// The register that tells at a call how many vector registers its arguments use, where the standard has one.
    fn vector_count() -> Option<Loc>
        ensures { result ≡ standard.vector_count };

    /// The register in which the address of a hidden result is returned, where the standard has one.
    fn returned_address() -> Option<Loc>
        ensures { result ≡ standard.returned_address };

    /// Where everything stands in a call of a signature that can be placed.
    fn plan(alloc: Global, sig: &Sig) -> Result<Plan, NoMemory>
        requires { SignatureIsPlaced sig.now }
        ensures { IfOk result (λ p. p ≡ plan_of standard sig.now) };

    ghost save_is: { standard.save ≡ SAVE };

    ghost link_is: { standard.link ≡ LINK };

    ghost target_is: { standard.target ≡ TARGET };

    ghost kept_all: { length standard.callee_saved ≡ KEPT };

    ghost argument_registers_all: { length standard.argument_registers ≡ ARGUMENT_REGISTERS };

    // A number of eight bits names each word of the save area.
    ghost words_few: { length standard.save_area < 256 };

    // What the standard names of its target's machine is what the machine has.
    ghost agrees: { AgreesWithMachine standard };

    // Where its target has stubs, these load, store and save what the standard names.
    ghost by_stubs: { has_stubs standard.target ≡ true → AgreesWithStubs standard };

    // And of a signature that can be called they load the registers of the result, and save the address of a hidden one.
    ghost result_by_stubs: { (s : Signature) → HasNoLongDouble s → has_stubs standard.target ≡ true → ResultGoesByStubs standard s };

    // No two places share anything, none is a forbidden register, and they have all of the values.
    ghost sound: { (s : Signature) → IsSound standard s };

    // An image that owns values of a signature determines them, and so with a result.
    ghost determined: { (s : Signature) → IsDetermined standard s };

    // Signatures whose types are pairwise equal, or both structs of equal layout, have equal plans.
    ghost by_layout: { GoesByLayout standard };
}
