//! The area in which a callee saves what it is to give back.
ghost use Rattle.std.specs.Prelude.{◌≡◌, ℕ, ◌+◌, ◌-◌, ◌*◌, ◌<◌, ◌≤◌, length, [], ◌∷◌, slice_index_or};
ghost use Rattle.std.specs.List.{AllByRecursion};
ghost use Rattle.ffi3_type_spec.specs.declared.limits.TheConstants.{STACK, STACK_TOP};
ghost use Rattle.ffi3_place_spec.specs.declared.Loc.{Loc};
ghost use Rattle.ffi3_place_spec.specs.Agrees.{saved_registers};
ghost use Rattle.ffi3_machine_transfer.specs.Stored.{Stays, WroteOnly, WroteWithin, word_in};
ghost use Rattle.ffi3_callee.specs.Saved.{AreGivenBack, AreSaved, HiddenLies, IsRestorable, IsSaveable, hidden_word, saved_word, with_given_back, with_register, with_saved, with_word, word_to_save};

use crate::registers;
use ffi3_machine::{Machine, StackBase};
use ffi3_machine_transfer::own_word;
use ffi3_place::{Abi, Loc, SaveWord};

/// How many words the save area has.
fn count_of_words<A: Abi>() -> u8
    ensures { result ≡ length A.standard.save_area }
{
    (A::SAVE / 8) as u8
}

/// Word `i` of the save area.
fn word_at<A: Abi>(i: u8) -> SaveWord
    requires { i < length A.standard.save_area }
    ensures { result ≡ slice_index_or A.standard.save_area i result }
{
    A::saved_word(i)
}

/// A hidden result's address, or 0.
fn hidden_word(machine: &Machine, base: StackBase, hidden: Option<Loc>) -> u64
    requires { HiddenLies (STACK_TOP - base) hidden }
    ensures { result ≡ hidden_word base machine.now hidden }
{
    match hidden {
        Some(at) => own_word(machine, base, at),
        None => 0,
    }
}

/// What is saved in a word: 0 where there is nothing.
fn word_to_save(machine: &Machine, base: StackBase, hidden: Option<Loc>, word: SaveWord) -> u64
    requires lies { IsSaveable (STACK_TOP - base) word }
    requires hidden { HiddenLies (STACK_TOP - base) hidden }
    ensures { result ≡ word_to_save base machine.now hidden word }
{
    match word {
        SaveWord::Register(at) => own_word(machine, base, at),
        SaveWord::Hidden => hidden_word(machine, base, hidden),
        SaveWord::Spare => 0,
    }
}

/// Saves registers and a hidden result's address, one word behind the other from an address on.
/// Stack places count from the address `base`.
pub fn save_words<A: Abi>(machine: &mut Machine, from: u64, base: StackBase, hidden: Option<Loc>)
    requires low { STACK ≤ from }
    requires below { from + 8 * length A.standard.save_area ≤ base }
    requires lie { AllByRecursion (IsSaveable (STACK_TOP - base)) A.standard.save_area }
    requires hidden { HiddenLies (STACK_TOP - base) hidden }
    ensures whole { machine.new ≡ with_saved from base hidden 0 A.standard.save_area machine.old }
    ensures saved { AreSaved from base hidden A.standard.save_area machine.old machine.new }
    ensures only { WroteOnly from (from + 8 * length A.standard.save_area) machine.old machine.new }
{
    machine.facts();
    // its contract tells where the base lies
    let _at = base.address();
    for i in 0..count_of_words::<A>() {
        let word = word_to_save(machine, base, hidden, word_at::<A>(i));
        machine.store_stack(from + 8 * i as u64, &word.to_le_bytes());
    }
}

/// Sets a register.
pub fn set_register(machine: &mut Machine, at: Loc, word: u64)
    requires register { IsRestorable machine.old.target (SaveWord.Register at) }
    ensures whole { machine.new ≡ with_register at word machine.old }
    ensures is { word_in STACK_TOP machine.new at ≡ word }
    ensures stays { Stays STACK_TOP (saved_registers (SaveWord.Register at ∷ [])) machine.old machine.new }
    ensures within { WroteWithin STACK_TOP STACK_TOP machine.old machine.new }
{
    registers::set_register(machine, at, word);
}

/// Sets the register of a word that has one.
fn restore_word(machine: &mut Machine, from: StackBase, i: u32, word: SaveWord)
    requires high { from + 8 * i + 8 ≤ STACK_TOP }
    requires register { IsRestorable machine.old.target word }
    ensures whole { machine.new ≡ with_word word (saved_word from i machine.old) machine.old }
    ensures is { (at : Loc) → word ≡ SaveWord.Register at → word_in STACK_TOP machine.new at ≡ saved_word from i machine.old }
    ensures stays { Stays STACK_TOP (saved_registers (word ∷ [])) machine.old machine.new }
    ensures within { WroteWithin STACK_TOP STACK_TOP machine.old machine.new }
{
    machine.facts();
    // its contract tells where the words lie
    let _at = from.address();
    if let SaveWord::Register(at) = word {
        let saved = own_word(machine, from, Loc::S(8 * i, 8));
        set_register(machine, at, saved);
    }
}

/// Gives the saved registers back.
pub fn restore_words<A: Abi>(machine: &mut Machine, from: StackBase)
    requires high { from + 8 * length A.standard.save_area ≤ STACK_TOP }
    requires registers { AllByRecursion (IsRestorable machine.old.target) A.standard.save_area }
    ensures whole { machine.new ≡ with_given_back from 0 A.standard.save_area machine.old }
    ensures given_back { (value : Loc → ℕ) → AreGivenBack from A.standard.save_area value machine.old machine.new }
    ensures stays { Stays STACK_TOP (saved_registers A.standard.save_area) machine.old machine.new }
    ensures within { WroteWithin STACK_TOP STACK_TOP machine.old machine.new }
{
    machine.facts();
    // its contract tells where the words lie
    let _at = from.address();
    for i in 0..count_of_words::<A>() {
        restore_word(machine, from, i as u32, word_at::<A>(i));
    }
}
