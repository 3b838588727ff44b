//! A step of a search: vertices that are marked and listed.
ghost use Rattle.std.specs.Prelude.{◌≡◌, ◌+◌, ℕ, ◌&&◌, ◌||◌, not, true, false, length, nat_lt, count_by, slice_index_or, vec_len, OnOk};
ghost use Rattle.std.specs.List.{list_all};
ghost use Rattle.tv_naming.specs.graphs.Graphs.{is_one_of};

use crate::graphs::memory::NoMemory;

/// Marks each of these vertices that isn't marked, and lists it.
pub(crate) fn mark_all(
    vertices: &[u32],
    marks: &mut Vec<bool>,
    marked: &mut Vec<u32>,
) -> Result<(), NoMemory>
    requires { list_all (λ u. nat_lt u (length marks.old.items)) vertices.now ≡ true }
    ensures count { length marks.new.items ≡ length marks.old.items }
    ensures marks { OnOk result ((u : ℕ) → slice_index_or marks.new.items u false
        ≡ (slice_index_or marks.old.items u false || is_one_of vertices.now u)) }
    ensures marked { OnOk result ((u : ℕ) → is_one_of marked.new.items u
        ≡ (is_one_of marked.old.items u || (is_one_of vertices.now u
        && not (slice_index_or marks.old.items u false)))) }
    ensures as_many { OnOk result (count_by not marks.new.items + vec_len marked.new
        ≡ count_by not marks.old.items + vec_len marked.old) }
{
    for vertex in vertices {
        if !marks[*vertex as usize] {
            marks[*vertex as usize] = true;
            marked.push(*vertex)?;
        }
    }
    Ok(())
}
