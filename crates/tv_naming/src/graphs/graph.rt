//! Graphs as lists of the vertices directly before each.
ghost use Rattle.std.specs.Prelude.{◌≡◌, ◌<◌, ◌^◌, length, map, nat_lt, true};
ghost use Rattle.std.specs.List.{list_all};
ghost use Rattle.tv_naming.specs.graphs.Graphs.{is_graph, before};

use std::marker::Model;

/// A graph of fewer than 2^32 vertices, numbered from 0. A contract sees, for each vertex, the list of those directly
/// before it.
#[derive(Drop)]
pub struct Graph {
    lists: Vec<Vec<u32>>,
}

impl Model for Graph {
    ghost use Rattle.std.specs.Prelude.{◌≡◌, map, true};
    ghost use Rattle.tv_naming.specs.graphs.Graphs.{Graph as Spec, is_graph};

    ghost Value = { Spec };

    ghost view = { λ g. map (λ vs. vs.items) g.lists.items };

    ghost invariant = { λ g. is_graph (map (λ vs. vs.items) g.lists.items) ≡ true };
}

/// Whether each of these is below `count`.
fn all_below(vertices: &[u32], count: usize) -> bool
    ensures { result ≡ list_all (λ u. nat_lt u count) vertices.now }
{
    vertices.iter().all(|vertex| (*vertex as usize) < count)
}

/// Whether these lists are a graph: fewer than 2^32, and each number in them below their count.
pub fn is_graph(before: &[Vec<u32>]) -> bool
    ensures { result ≡ is_graph (map (λ vs. vs.items) before.now) }
{
    let count = before.len();
    for list in before {
        if !all_below(list, count) {
            return false;
        }
    }
    count < 1 << 32
}

impl Graph {
    /// The graph of these lists. Takes no memory.
    pub fn of(before: Vec<Vec<u32>>) -> Graph
        requires { is_graph (map (λ vs. vs.items) before.items) ≡ true }
        ensures { result ≡ map (λ vs. vs.items) before.items }
    {
        Graph { lists: before }
    }

    /// How many vertices it has.
    pub(crate) fn len(&self) -> usize
        ensures count { result ≡ length self.now }
        ensures small { result < 2 ^ 32 }
        ensures graph { is_graph self.now ≡ true }
    {
        self.lists.len()
    }

    /// The vertices directly before this one, as they were given, with repeats.
    pub(crate) fn before(&self, vertex: u32) -> &[u32]
        requires { vertex < length self.now }
        ensures value { result.now ≡ before self.now vertex }
        ensures within { list_all (λ u. nat_lt u (length self.now)) result.now ≡ true }
        ensures graph { is_graph self.now ≡ true }
    {
        &self.lists[vertex as usize]
    }
}
