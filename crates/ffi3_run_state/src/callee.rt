//! Which closure a call enters.
ghost use Rattle.std.specs.Prelude.{◌≡◌, ◌+◌, ◌<◌, ◌≤◌, IfErr, IfOk, List, length};
ghost use Rattle.ffi3_type_spec.specs.declared.limits.TheConstants.{STACK, STACK_TOP};
ghost use Rattle.ffi3_type_spec.specs.Value.{ValueTree};
ghost use Rattle.ffi3_place_spec.specs.Standard.{need_of};
ghost use Rattle.ffi3_semantics_spec.specs.Meaning as meaning;
ghost use Rattle.ffi3_semantics_spec.specs.Meaning.{Program};
ghost use Rattle.ffi3_run_state.specs.Known.{AreBelow, CanEnter, LeadsTo};
ghost use Rattle.ffi3_run_state.specs.StopSigs.{IsOfSigs};

use crate::{Cifs, Configuration};
use ffi3_caller::room_for;
use ffi3_machine::Machine;
use ffi3_place::Abi;
use ffi3_semantics_spec::{Closure, Stop};
use ffi3_types::same_sig;

impl<S: Drop> Configuration<S> {
    /// The closure that a call enters, or why the run stops there.
    pub fn callee<A: Abi>(
        &self,
        machine: &Machine,
        cifs: &Cifs<A>,
        ptr: u64,
        sig: u32,
    ) -> Result<Closure, Stop>
        requires site { sig < length cifs.now }
        requires below { AreBelow (length cifs.now) self.now.table }
        requires bottom { STACK ≤ machine.now.sp }
        requires top { machine.now.sp ≤ STACK_TOP }
        ensures does { (p : Program) (a : meaning.Activation) (args : List ValueTree) →
            p.signatures ≡ cifs.now → p.need ≡ need_of A.standard → a.left + STACK ≡ machine.now.sp →
            LeadsTo p a self.now.table ptr sig args result }
        ensures entered { IfOk result (λ closure. CanEnter A.standard cifs.now self.now.table ptr sig machine.now.sp closure) }
        ensures numbers { IfErr result (λ stop. IsOfSigs (length cifs.now) stop) }
    {
        let Some(closure) = self.table.find(ptr) else {
            return Err(Stop::NoClosure { ptr });
        };
        let cif = cifs.get(sig);
        let found = closure.sig;
        if !same_sig(cif.sig(), cifs.get(found).sig()) {
            return Err(Stop::WrongSig {
                ptr,
                site: sig,
                found,
            });
        }
        if let Err(full) = room_for(machine, cif) {
            return Err(Stop::StackFull {
                need: full.need,
                left: full.left,
            });
        }
        Ok(closure)
    }
}
