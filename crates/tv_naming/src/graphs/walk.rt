//! The order in which a search leaves vertices.
ghost use Rattle.std.specs.Prelude.{◌≡◌, ◌<◌, ◌+◌, ◌++◌, ◌∷◌, [], ℕ, List, ◌||◌, ◌==◌, not, true, false, length, count_by, vec_len, find, slice_get, OnOk, IfOk};
ghost use Rattle.tv_naming.specs.graphs.Graphs.{before};
ghost use Rattle.tv_naming.specs.graphs.Leaving.{IsWalked, IsLeft};
ghost use Rattle.tv_naming.specs.graphs.Walk.{HasMarks, is_entered};

use crate::graphs::graph::Graph;
use crate::graphs::memory::NoMemory;
use crate::graphs::untaken::next_untaken;
use std::alloc::Global;

/// A search that enters each vertex once, goes on to those directly before it, and leaves it then.
#[derive(Drop)]
pub(crate) struct Walk {
    entered: Vec<bool>,
    /// How many of those directly before each vertex are known to be entered.
    places: Vec<usize>,
    /// The vertices that are entered and not left, the last one at the end.
    path: Vec<u32>,
    left: Vec<u32>,
}

impl Walk {
    /// Nothing is entered.
    fn new(alloc: Global, graph: &Graph) -> Result<Walk, NoMemory>
        ensures marks { IfOk result (λ s. HasMarks graph.now s) }
        ensures walked { IfOk result (λ s. IsWalked graph.now (is_entered s) [] s.left.items) }
        ensures path { IfOk result (λ s. s.path.items ≡ []) }
    {
        let count = graph.len();
        Ok(Walk {
            entered: vec![in alloc; false; count]?,
            places: vec![in alloc; 0; count]?,
            path: Vec::new(alloc),
            left: Vec::new(alloc),
        })
    }

    /// Enters a vertex.
    fn enter(&mut self, vertex: u32) -> Result<(), NoMemory>
        requires within { vertex < length self.old.entered.items }
        requires new { is_entered self.old vertex ≡ false }
        ensures count { length self.new.entered.items ≡ length self.old.entered.items }
        ensures entered { (u : ℕ) → is_entered self.new u
            ≡ (is_entered self.old u || (u == vertex)) }
        ensures places { self.new.places.items ≡ self.old.places.items }
        ensures path { OnOk result (self.new.path.items ≡ self.old.path.items ++ vertex ∷ []) }
        ensures left { self.new.left.items ≡ self.old.left.items }
        ensures fewer { count_by not self.new.entered.items + 1
            ≡ count_by not self.old.entered.items }
        ensures marks { (g : List (List ℕ)) → HasMarks g self.old → HasMarks g self.new }
    {
        self.entered[vertex as usize] = true;
        self.path.push(vertex)?;
        Ok(())
    }

    /// The place of the first of those directly before a vertex that isn't entered, or their number.
    fn pass(&mut self, graph: &Graph, vertex: u32) -> usize
        requires vertex { vertex < length graph.now }
        requires marks { HasMarks graph.now self.old }
        ensures marks { HasMarks graph.now self.new }
        ensures found { slice_get (before graph.now vertex) result
            ≡ find (λ u. not (is_entered self.old u)) (before graph.now vertex) }
        ensures entered { self.new.entered.items ≡ self.old.entered.items }
        ensures path { self.new.path ≡ self.old.path }
        ensures left { self.new.left ≡ self.old.left }
    {
        let before = graph.before(vertex);
        let place = next_untaken(before, &self.entered, self.places[vertex as usize]);
        self.places[vertex as usize] = place;
        place
    }

    /// Goes on from the vertex at the end of the path, which was taken off: to the first of those directly before it that
    /// isn't entered, or leaves it.
    fn go_on(&mut self, graph: &Graph, vertex: u32) -> Result<(), NoMemory>
        requires vertex { vertex < length graph.now }
        requires marks { HasMarks graph.now self.old }
        requires walked { IsWalked graph.now (is_entered self.old) (self.old.path.items ++ vertex
            ∷ []) self.old.left.items }
        ensures marks { OnOk result (HasMarks graph.now self.new) }
        ensures walked { OnOk result (IsWalked graph.now (is_entered self.new) self.new.path.items
            self.new.left.items) }
        ensures entered { OnOk result ((u : ℕ) → is_entered self.old u ≡ true
            → is_entered self.new u ≡ true) }
        ensures as_many { OnOk result (count_by not self.new.entered.items
            + count_by not self.new.entered.items + vec_len self.new.path
            ≡ count_by not self.old.entered.items + count_by not self.old.entered.items
            + vec_len self.old.path) }
    {
        let place = self.pass(graph, vertex);
        let before = graph.before(vertex);
        if place < before.len() {
            self.path.push(vertex)?;
            self.enter(before[place])
        } else {
            self.left.push(vertex)?;
            Ok(())
        }
    }

    /// Enters a vertex and all that comes before it, and leaves them. Linear in what is entered.
    fn walk_from(&mut self, graph: &Graph, vertex: u32) -> Result<(), NoMemory>
        requires within { vertex < length graph.now }
        requires marks { HasMarks graph.now self.old }
        requires path { self.old.path.items ≡ [] }
        requires walked { IsWalked graph.now (is_entered self.old) [] self.old.left.items }
        ensures marks { OnOk result (HasMarks graph.now self.new) }
        ensures path { OnOk result (self.new.path.items ≡ []) }
        ensures walked { OnOk result (IsWalked graph.now (is_entered self.new) []
            self.new.left.items) }
        ensures entered { OnOk result ((u : ℕ) → is_entered self.old u ≡ true
            → is_entered self.new u ≡ true) }
        ensures itself { OnOk result (is_entered self.new vertex ≡ true) }
    {
        if self.entered[vertex as usize] {
            return Ok(());
        }
        self.enter(vertex)?;
        while let Some(next) = self.path.pop() {
            self.go_on(graph, next)?;
        }
        Ok(())
    }
}

/// The vertices in the order in which a search through all of them leaves them. Linear in vertices and edges.
pub(crate) fn leaving(alloc: Global, graph: &Graph) -> Result<Vec<u32>, NoMemory>
    ensures { IfOk result (λ vs. IsLeft graph.now vs.items) }
{
    let mut walk = Walk::new(alloc, graph)?;
    for vertex in 0..graph.len() as u32 {
        walk.walk_from(graph, vertex)?;
    }
    Ok(walk.left)
}
