//! For each vertex a list of vertices: those that wait for it, or those directly after it.
ghost use Rattle.std.specs.Prelude.{◌≡◌, ◌<◌, ℕ, ◌&&◌, ◌||◌, ◌==◌, OnOk, IfOk, [], cond};
ghost use Rattle.tv_naming.specs.graphs.Graphs.{is_one_of};
ghost use Rattle.tv_naming.specs.graphs.Waiting.{waiting_at, waiting_length};

use crate::graphs::memory::NoMemory;
use std::alloc::Global;
use std::mem;

/// For each vertex the vertices that wait for it.
#[derive(Drop)]
pub(crate) struct Waiting {
    lists: Vec<Vec<u32>>,
}

impl Waiting {
    /// Nothing waits.
    pub(crate) fn new(alloc: Global, count: usize) -> Result<Waiting, NoMemory>
        ensures count { IfOk result (λ w. waiting_length w ≡ count) }
        ensures empty { IfOk result (λ w. (u : ℕ) → waiting_at w u ≡ []) }
    {
        let mut lists = Vec::with_capacity(alloc, count)?;
        for _ in 0..count {
            lists.push(Vec::new(alloc))?;
        }
        Ok(Waiting { lists })
    }

    /// Lets `vertex` wait for `at`.
    pub(crate) fn push(&mut self, at: u32, vertex: u32) -> Result<(), NoMemory>
        requires { at < waiting_length self.old }
        ensures count { waiting_length self.new ≡ waiting_length self.old }
        ensures added { OnOk result ((u v : ℕ) → is_one_of (waiting_at self.new u) v
            ≡ (is_one_of (waiting_at self.old u) v || ((u == at) && (v == vertex)))) }
    {
        self.lists[at as usize].push(vertex)?;
        Ok(())
    }

    /// The vertices that wait for `at`, which nothing waits for from then on.
    pub(crate) fn take(&mut self, alloc: Global, at: u32) -> Vec<u32>
        requires { at < waiting_length self.old }
        ensures count { waiting_length self.new ≡ waiting_length self.old }
        ensures value { result.items ≡ waiting_at self.old at }
        ensures after { (u : ℕ) → waiting_at self.new u
            ≡ cond (u == at) [] (waiting_at self.old u) }
    {
        mem::replace(&mut self.lists[at as usize], Vec::new(alloc))
    }
    /// The vertices that wait for `at`.
    pub(crate) fn at(&self, at: u32) -> &[u32]
        requires { at < waiting_length self.now }
        ensures { result.now ≡ waiting_at self.now at }
    {
        &self.lists[at as usize]
    }
}
