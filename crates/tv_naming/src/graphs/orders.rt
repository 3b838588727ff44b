//! Orders of vertices, cycles and heights.
ghost use Rattle.std.specs.Prelude.{◌≡◌, ◌<◌, ℕ, true, false, length, map, nat_lt, slice_index, slice_index_or, IfOk, None};
ghost use Rattle.std.specs.List.{list_all};
ghost use Rattle.tv_naming.specs.graphs.Graphs.{by_least, first_on_cycle, greatest, heights, is_one_of};

use crate::graphs::cyclic::cyclic;
use crate::graphs::graph::Graph;
use crate::graphs::memory::NoMemory;
use crate::graphs::untaken::Untaken;
use std::alloc::Global;

/// The vertices, each after those before it, the least first where there is a choice. Vertices that wait for a cycle
/// don't come. Takes time n log n in vertices, and linear in edges.
pub fn by_least(alloc: Global, graph: &Graph) -> Result<Vec<u32>, NoMemory>
    ensures { IfOk result (λ vs. vs.items ≡ by_least graph.now) }
{
    let mut order = Vec::with_capacity(alloc, graph.len())?;
    let mut untaken = Untaken::new(alloc, graph)?;
    for _ in 0..graph.len() {
        let Some(vertex) = untaken.take_least(alloc, graph)? else {
            return Ok(order);
        };
        order.push(vertex)?;
    }
    Ok(order)
}

/// Marks of these vertices among `count`.
fn marks_of(alloc: Global, vertices: &[u32], count: usize) -> Result<Vec<bool>, NoMemory>
    requires { list_all (λ u. nat_lt u count) vertices.now ≡ true }
    ensures count { IfOk result (λ marks. length marks.items ≡ count) }
    ensures marks { IfOk result (λ marks. (u : ℕ) → slice_index_or marks.items u false
        ≡ is_one_of vertices.now u) }
{
    let mut marks = vec![in alloc; false; count]?;
    for vertex in vertices {
        marks[*vertex as usize] = true;
    }
    Ok(marks)
}

/// The least vertex that comes before itself. Where there is none it takes the time of `by_least`; else time linear in
/// vertices and edges besides.
pub fn first_on_cycle(alloc: Global, graph: &Graph) -> Result<Option<u32>, NoMemory>
    ensures { IfOk result (λ v. v ≡ first_on_cycle graph.now) }
{
    let order = by_least(alloc, graph)?;
    let count = graph.len();
    if order.len() == count {
        return Ok(None);
    }
    let cyclic = cyclic(alloc, graph)?;
    let marks = marks_of(alloc, &cyclic, count)?;
    for vertex in 0..count as u32 {
        if marks[vertex as usize] {
            return Ok(Some(vertex));
        }
    }
    Ok(None)
}

/// The greatest of the heights of these vertices, or 0 where there are none.
fn greatest_height(vertices: &[u32], heights: &[u32]) -> u32
    requires { list_all (λ u. nat_lt u (length heights.now)) vertices.now ≡ true }
    ensures { result ≡ greatest (map (slice_index heights.now) vertices.now) }
{
    let mut greatest = 0;
    for vertex in vertices {
        greatest = greatest.max(heights[*vertex as usize]);
    }
    greatest
}

/// The height of each vertex: 1, or one more than the greatest of those before it. Takes the time of `by_least`.
pub fn heights(alloc: Global, graph: &Graph) -> Result<Vec<u32>, NoMemory>
    requires { first_on_cycle graph.now ≡ None }
    ensures { IfOk result (λ hs. hs.items ≡ heights graph.now) }
{
    let order = by_least(alloc, graph)?;
    let mut heights = vec![in alloc; 0; graph.len()]?;
    for vertex in &order {
        heights[*vertex as usize] = greatest_height(graph.before(*vertex), &heights) + 1;
    }
    Ok(heights)
}
