//! The set of vertices that may be taken next.
ghost use Rattle.std.specs.Prelude.{◌≡◌, ◌≤◌, ℕ, ◌&&◌, ◌||◌, ◌==◌, not, true, false, OnOk, MatchOption};
ghost use Rattle.tv_naming.specs.graphs.Free.{has};

use crate::graphs::memory::NoMemory;
use std::alloc::Global;
use std::collections::BTreeSet;

/// A set of vertices.
#[derive(Drop)]
pub(crate) struct Free {
    vertices: BTreeSet<u32>,
}

impl Free {
    /// None.
    pub(crate) fn new(alloc: Global) -> Free
        ensures { (u : ℕ) → has result u ≡ false }
    {
        Free {
            vertices: BTreeSet::new(alloc),
        }
    }

    /// Adds a vertex, in time logarithmic in how many there are.
    pub(crate) fn add(&mut self, vertex: u32) -> Result<(), NoMemory>
        ensures { OnOk result ((u : ℕ) → has self.new u ≡ (has self.old u || (u == vertex))) }
    {
        self.vertices.insert(vertex)?;
        Ok(())
    }

    /// Takes the least out, in time logarithmic in how many there are.
    pub(crate) fn take_least(&mut self) -> Option<u32>
        ensures found { MatchOption result ((u : ℕ) → has self.old u ≡ false) (λ v. has self.old v
            ≡ true) }
        ensures least { MatchOption result (Unit {0}) (λ v. (u : ℕ) → has self.old u ≡ true → v
            ≤ u) }
        ensures after { MatchOption result ((u : ℕ) → has self.new u ≡ has self.old u) (λ v. (u : ℕ)
            → has self.new u ≡ (has self.old u && not (u == v))) }
    {
        self.vertices.pop_first()
    }
}
