//! The jobs that came late: a heap, in which no job stands before the one above it. Jobs are told by their positions in a table.
ghost use Rattle.std.specs.Prelude.{◌≡◌, ℕ, ◌<◌, ◌≤◌, ◌+◌, ◌*◌, length, true, IsPermutation};
ghost use Rattle.tv_idle.specs.Orders.{are_within};
ghost use Rattle.tv_idle.specs.Heaps.{IsHeap, IsHeapButFirst, IsHeapButLast, IsNotBefore};

use crate::table::Table;

/// Moves the job at the end up, past those that it stands before. Logarithmic.
pub(crate) fn rise(jobs: &mut [usize], table: &Table)
    requires some { 0 < length jobs.old }
    requires within { are_within table.now.jobs jobs.old ≡ true }
    requires but_last { IsHeapButLast table.now.jobs jobs.old }
    ensures heap { IsHeap table.now.jobs jobs.new }
    ensures same { IsPermutation jobs.old jobs.new }
{
    let mut at = jobs.len() - 1;
    while at > 0 {
        let above = (at - 1) / 2;
        if !table.is_before(jobs[at], jobs[above]) {
            return;
        }
        jobs.swap(above, at);
        at = above;
    }
}

/// Moves the job at the front down, past the lesser of those below it, as long as that stands before it. Logarithmic.
pub(crate) fn sink(jobs: &mut [usize], table: &Table)
    requires within { are_within table.now.jobs jobs.old ≡ true }
    requires but_first { IsHeapButFirst table.now.jobs jobs.old }
    ensures heap { IsHeap table.now.jobs jobs.new }
    ensures same { IsPermutation jobs.old jobs.new }
{
    let mut at = 0;
    while at < jobs.len() / 2 {
        let below = lesser_below(jobs, table, at);
        if !table.is_before(jobs[below], jobs[at]) {
            return;
        }
        jobs.swap(at, below);
        at = below;
    }
}

/// The position of the first of those below a position.
fn lesser_below(jobs: &[usize], table: &Table, at: usize) -> usize
    requires within { are_within table.now.jobs jobs.now ≡ true }
    requires some { at * 2 + 1 < length jobs.now }
    ensures below { (at * 2 + 1 ≤ result) × (result ≤ at * 2 + 2) × (result < length jobs.now) }
    ensures lesser { (k : ℕ) → at * 2 + 1 ≤ k → k ≤ at * 2 + 2 → k < length jobs.now
        → IsNotBefore table.now.jobs jobs.now k result }
{
    let left = at * 2 + 1;
    if left + 1 < jobs.len() && table.is_before(jobs[left + 1], jobs[left]) {
        left + 1
    } else {
        left
    }
}
