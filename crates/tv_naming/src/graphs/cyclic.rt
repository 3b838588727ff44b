//! The vertices that come before themselves.
ghost use Rattle.std.specs.Prelude.{◌≡◌, ◌<◌, ℕ, ◌&&◌, ◌||◌, ◌==◌, true, false, length, nat_lt, slice_index_or, OnOk, IfOk};
ghost use Rattle.std.specs.List.{list_all};
ghost use Rattle.tv_naming.specs.graphs.Graphs.{is_graph, is_one_of, is_on_cycle};
ghost use Rattle.tv_naming.specs.graphs.Waiting.{waiting_at, waiting_length};
ghost use Rattle.tv_naming.specs.graphs.Gathered.{AreTurned, IsGathered, IsVisited, IsLatest};

use crate::graphs::graph::Graph;
use crate::graphs::memory::NoMemory;
use crate::graphs::search::mark_all;
use crate::graphs::waiting::Waiting;
use crate::graphs::walk::leaving;
use std::alloc::Global;

/// Adds a vertex to the lists of those before it.
fn push_to_all(after: &mut Waiting, before: &[u32], vertex: u32) -> Result<(), NoMemory>
    requires { list_all (λ u. nat_lt u (waiting_length after.old)) before.now ≡ true }
    ensures count { waiting_length after.new ≡ waiting_length after.old }
    ensures added { OnOk result ((u v : ℕ) → is_one_of (waiting_at after.new u) v
        ≡ (is_one_of (waiting_at after.old u) v || ((v == vertex) && is_one_of before.now u))) }
{
    for earlier in before {
        after.push(*earlier, vertex)?;
    }
    Ok(())
}

/// For each vertex those directly after it.
fn turned(alloc: Global, graph: &Graph) -> Result<Waiting, NoMemory>
    ensures count { IfOk result (λ w. waiting_length w ≡ length graph.now) }
    ensures edges { IfOk result (λ w. AreTurned graph.now (waiting_at w)) }
{
    let mut after = Waiting::new(alloc, graph.len())?;
    for vertex in 0..graph.len() as u32 {
        push_to_all(&mut after, graph.before(vertex), vertex)?;
    }
    Ok(after)
}

/// Visits what comes after a vertex and isn't visited, by any number of edges and at least one, and lists it.
fn gather(
    alloc: Global,
    graph: &Graph,
    after: &Waiting,
    vertex: u32,
    visited: &mut Vec<bool>,
    found: &mut Vec<u32>,
) -> Result<(), NoMemory>
    requires vertex { vertex < length graph.now }
    requires after { waiting_length after.now ≡ length graph.now }
    requires turned { AreTurned graph.now (waiting_at after.now) }
    requires count { length visited.old.items ≡ length graph.now }
    ensures count { OnOk result (length visited.new.items ≡ length graph.now) }
    ensures gathered { OnOk result (IsGathered (waiting_at after.now) vertex
        (λ u. slice_index_or visited.old.items u false) (λ u. slice_index_or visited.new.items u
        false) found.old.items found.new.items) }
{
    let mut left = Vec::new(alloc);
    mark_all(after.at(vertex), visited, &mut left)?;
    while let Some(next) = left.pop() {
        found.push(next)?;
        mark_all(after.at(next), visited, &mut left)?;
    }
    Ok(())
}

/// Visits a vertex and those alike to it, and lists them if they are on cycles.
fn visit(
    alloc: Global,
    graph: &Graph,
    after: &Waiting,
    vertex: u32,
    visited: &mut Vec<bool>,
    found: &mut Vec<u32>,
) -> Result<(), NoMemory>
    requires graph { is_graph graph.now ≡ true }
    requires vertex { vertex < length graph.now }
    requires after { waiting_length after.now ≡ length graph.now }
    requires turned { AreTurned graph.now (waiting_at after.now) }
    requires count { length visited.old.items ≡ length graph.now }
    requires visited { IsVisited graph.now (λ u. slice_index_or visited.old.items u false)
        found.old.items }
    requires latest { IsLatest graph.now (λ u. slice_index_or visited.old.items u false) vertex }
    ensures count { OnOk result (length visited.new.items ≡ length graph.now) }
    ensures visited { OnOk result (IsVisited graph.now (λ u. slice_index_or visited.new.items u
        false) found.new.items) }
    ensures kept { OnOk result ((u : ℕ) → slice_index_or visited.old.items u false ≡ true
        → slice_index_or visited.new.items u false ≡ true) }
    ensures itself { OnOk result (slice_index_or visited.new.items vertex false ≡ true) }
{
    if visited[vertex as usize] {
        return Ok(());
    }
    gather(alloc, graph, after, vertex, visited, found)?;
    visited[vertex as usize] = true;
    Ok(())
}

/// The vertices that come before themselves. Linear in vertices and edges: one search leaves each vertex after what comes
/// before it, and another goes the other way, from the vertices in the order in which they were left, the last first. What
/// the second visits from a vertex comes both before and after it.
pub(crate) fn cyclic(alloc: Global, graph: &Graph) -> Result<Vec<u32>, NoMemory>
    ensures within { IfOk result (λ vs. list_all (λ u. nat_lt u (length graph.now)) vs.items
        ≡ true) }
    ensures are { IfOk result (λ vs. (u : ℕ) → u < length graph.now → is_one_of vs.items u
        ≡ is_on_cycle graph.now u) }
{
    let mut left = leaving(alloc, graph)?;
    let after = turned(alloc, graph)?;
    let mut visited = vec![in alloc; false; graph.len()]?;
    let mut found = Vec::new(alloc);
    while let Some(vertex) = left.pop() {
        visit(alloc, graph, &after, vertex, &mut visited, &mut found)?;
    }
    Ok(found)
}
