//! The machine's own registers, by their places.
ghost use Rattle.std.specs.Prelude.{◌≡◌, ℕ};
ghost use Rattle.ffi3_machine_transfer.specs.Stored.{IsPlace, IsWordPut, IsWritable};
ghost use Rattle.ffi3_callee.specs.Saved.{with_register};

use ffi3_machine::Machine;
use ffi3_place::Loc;

/// Sets one of the machine's own registers.
pub fn set_register(machine: &mut Machine, at: Loc, word: u64)
    requires register { IsPlace 0 at }
    requires writable { IsWritable machine.old.target at }
    ensures whole { machine.new ≡ with_register at word machine.old }
    ensures put { (base : ℕ) → IsWordPut base at word machine.old machine.new }
    ensures mark { machine.new.mark ≡ machine.old.mark }
{
    machine.facts();
    match at {
        Loc::G(r) => machine.set_g(r, word),
        Loc::F(r) => machine.set_f(r, word),
        Loc::S(_, _) => {}
    }
}
