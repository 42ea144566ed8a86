//! The structs and arrays that are open where a node stands.
ghost use Rattle.std.specs.Prelude.{◌≡◌, ◌<◌, ◌≤◌, ◌∷◌, [], length};
ghost use Rattle.ffi3_nodes.specs.Faults.{begun, closed};

use arrayvec::ArrayVec;
use std::marker::Model;

/// How many types each still wants, the innermost first.
#[derive(Debug, Drop)]
pub struct Open {
    wanted: ArrayVec<u32, 16>,
}

impl Model for Open {
    ghost use Rattle.std.specs.Prelude.{◌≤◌, List, ℕ, length, reverse};

    ghost Value = { List ℕ };

    ghost view = { λ o. reverse o.wanted.items };

    ghost invariant = { λ o. length o.wanted.items ≤ 16 };
}

impl Open {
    /// None is open.
    pub fn new() -> Open
        ensures { result ≡ [] }
    {
        Open {
            wanted: ArrayVec::new(),
        }
    }

    /// How many are open.
    pub fn depth(&self) -> usize
        ensures count { result ≡ length self.now }
        ensures bound { length self.now ≤ 16 }
    {
        self.wanted.len()
    }

    /// A type begins.
    pub fn begin(&mut self)
        ensures { self.new ≡ begun self.old }
    {
        if let Some(wanted) = self.wanted.pop() {
            self.wanted.push(wanted.saturating_sub(1));
        }
    }

    /// One opens, which wants so many types.
    pub fn open(&mut self, wanted: u32)
        requires { length self.old < 16 }
        ensures { self.new ≡ wanted ∷ self.old }
    {
        self.wanted.push(wanted);
    }

    /// Those that want no more are closed, from the innermost on.
    pub fn close(&mut self)
        ensures { self.new ≡ closed self.old }
    {
        while let Some(wanted) = self.wanted.pop() {
            if wanted > 0 {
                self.wanted.push(wanted);
                return;
            }
        }
    }
}
