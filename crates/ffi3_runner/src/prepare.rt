//! What a run is prepared with.
ghost use Rattle.std.specs.Prelude.{◌≡◌, IfOk};
ghost use Rattle.ffi3_place_spec.specs.Standard.{Standard};
ghost use Rattle.ffi3_script_spec.specs.Natives.{program_beside};
ghost use Rattle.ffi3_script.specs.ScriptOf.{script_of};
ghost use Rattle.ffi3_script_spec.specs.Handed.{AreFew, handed};

use ffi3_cif::Cif;
use ffi3_next_move::{Native, signature, signatures};
use ffi3_place::Abi;
use ffi3_run_state::Cifs;
use ffi3_script::Script;
use ffi3_types::{CheckedSig, NoMemory};
use std::alloc::Global;

/// What a run is prepared with: a script, natives, and an interface for each of their signatures.
#[derive(Drop)]
pub(crate) struct Prepared<'a, A: Abi> {
    pub(crate) alloc: Global,
    pub(crate) script: &'a Script,
    pub(crate) natives: &'a Vec<Box<dyn Native>>,
    pub(crate) cifs: Cifs<A>,
}

/// An interface for each signature of the run: the script's, and then those of each native.
pub fn prepare_all<A: Abi>(
    alloc: Global,
    script: &Script,
    natives: &Vec<Box<dyn Native>>,
) -> Result<Cifs<A>, NoMemory>
    requires { AreFew title meaning signatures natives.now.items }
    ensures { (std : Standard) → IfOk result (λ cifs. cifs ≡
        (program_beside std (handed title meaning signatures natives.now.items) (script_of script.now)).signatures) }
{
    let mut cifs = Cifs::new(alloc);
    for number in 0..signatures(script, natives) {
        let sig = CheckedSig::of(signature(script, natives, number));
        cifs.push(Cif::prepare_copy(alloc, &sig)?)?;
    }
    Ok(cifs)
}
