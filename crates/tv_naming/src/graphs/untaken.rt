//! The vertices that aren't taken yet, and what each waits for.
ghost use Rattle.std.specs.Prelude.{◌≡◌, ◌<◌, ℕ, ◌&&◌, ◌||◌, ◌==◌, Bool, not, true, false, length, take, find, nat_lt, slice_get, slice_index_or, OnOk, IfOk, MatchOption};
ghost use Rattle.std.specs.List.{list_all};
ghost use Rattle.tv_naming.specs.graphs.Graphs.{is_one_of, vertices};
ghost use Rattle.tv_naming.specs.graphs.Untaken.{IsTable, HasPlaces, is_taken, is_ready, none, but, is_given};

use crate::graphs::free::Free;
use crate::graphs::graph::Graph;
use crate::graphs::memory::NoMemory;
use crate::graphs::waiting::Waiting;
use std::alloc::Global;

/// Which vertices are taken, and what each other vertex waits for: the first of those directly before it that isn't
/// taken. One that waits for nothing is free.
#[derive(Drop)]
pub(crate) struct Untaken {
    taken: Vec<bool>,
    /// How many of those directly before each vertex were passed, since they are taken.
    places: Vec<usize>,
    waiting: Waiting,
    free: Free,
}

/// The first place, from `place` on, of a vertex that isn't taken, or the list's length.
pub(crate) fn next_untaken(before: &[u32], taken: &[bool], place: usize) -> usize
    requires within { list_all (λ u. nat_lt u (length taken.now)) before.now ≡ true }
    requires passed { list_all (λ u. slice_index_or taken.now u false) (take place before.now)
        ≡ true }
    ensures passed { list_all (λ u. slice_index_or taken.now u false) (take result before.now)
        ≡ true }
    ensures found { slice_get before.now result ≡ find (λ u. not (slice_index_or taken.now u false))
        before.now }
{
    let mut next = place;
    while next < before.len() && taken[before[next] as usize] {
        next += 1;
    }
    next
}

impl Untaken {
    /// Nothing is taken.
    pub(crate) fn new(alloc: Global, graph: &Graph) -> Result<Untaken, NoMemory>
        ensures places { IfOk result (λ t. HasPlaces graph.now t) }
        ensures table { IfOk result (λ t. IsTable graph.now none t) }
        ensures nothing_taken { IfOk result (λ t. (v : ℕ) → is_taken t v ≡ false) }
    {
        let count = graph.len();
        let mut table = Untaken {
            taken: vec![in alloc; false; count]?,
            places: vec![in alloc; 0; count]?,
            waiting: Waiting::new(alloc, count)?,
            free: Free::new(alloc),
        };
        for vertex in 0..count as u32 {
            table.settle(graph, vertex)?;
        }
        Ok(table)
    }

    /// Lets a vertex wait for the first of those before it that isn't taken, or makes it free.
    fn settle(&mut self, graph: &Graph, vertex: u32) -> Result<(), NoMemory>
        requires vertex { vertex < length graph.now }
        requires places { HasPlaces graph.now self.old }
        ensures places { HasPlaces graph.now self.new }
        ensures taken { self.new.taken.items ≡ self.old.taken.items }
        ensures table { OnOk result ((pending : ℕ → Bool) → IsTable graph.now pending self.old
            → is_taken self.old vertex ≡ false → IsTable graph.now (but pending vertex) self.new) }
    {
        let before = graph.before(vertex);
        let place = next_untaken(before, &self.taken, self.places[vertex as usize]);
        self.places[vertex as usize] = place;
        if place < before.len() {
            self.waiting.push(before[place], vertex)
        } else {
            self.free.add(vertex)
        }
    }

    /// Takes the least vertex that may be taken next.
    pub(crate) fn take_least(
        &mut self,
        alloc: Global,
        graph: &Graph,
    ) -> Result<Option<u32>, NoMemory>
        requires places { HasPlaces graph.now self.old }
        requires table { IsTable graph.now none self.old }
        ensures places { OnOk result (HasPlaces graph.now self.new) }
        ensures table { OnOk result (IsTable graph.now none self.new) }
        ensures value { IfOk result (λ o. o ≡ find (is_ready graph.now (is_taken self.old))
            (vertices graph.now)) }
        ensures taken { IfOk result (λ o. (u : ℕ) → is_taken self.new u
            ≡ (is_taken self.old u || is_given o u)) }
    {
        let Some(vertex) = self.free.take_least() else {
            return Ok(None);
        };
        self.taken[vertex as usize] = true;
        let waited = self.waiting.take(alloc, vertex);
        for other in &waited {
            self.settle(graph, *other)?;
        }
        Ok(Some(vertex))
    }
}
