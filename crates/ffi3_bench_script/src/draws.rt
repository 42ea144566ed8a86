//! Numbers drawn from a seed.
ghost use Rattle.std.specs.Prelude.{◌≡◌, ◌<◌};
ghost use Rattle.ffi3_script_spec.specs.Made.{first_state, next_state, drawn};
ghost use Rattle.ffi3_bench_script.specs.KindOf.{state_of};

/// A state that each draw moves on.
#[derive(Clone, Copy, Debug)]
pub struct Draws {
    state: u32,
}

impl Draws {
    ghost use Rattle.std.specs.Prelude.{◌≡◌, ◌<◌};
    ghost use Rattle.ffi3_script_spec.specs.Made.{first_state, next_state, drawn};
    ghost use Rattle.ffi3_bench_script.specs.KindOf.{state_of};

    /// No draw yet from this seed.
    pub fn of_seed(seed: u32) -> Draws
        ensures { state_of result ≡ first_state seed }
    {
        Draws {
            state: seed % 0x8000_0000,
        }
    }

    /// A number below `n`.
    pub fn draw(&mut self, n: u32) -> u32
        requires { 0 < n }
        ensures moved { state_of self.new ≡ next_state (state_of self.old) }
        ensures is { result ≡ drawn n (state_of self.new) }
        ensures below { result < n }
    {
        let state = (u64::from(self.state) * 1_103_515_245 + 12_345) % 0x8000_0000;
        self.state = state as u32;
        self.state / 65_536 % n
    }
}
