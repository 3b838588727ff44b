//! The first job after a place, of those that haven't gone. Jobs are told by their positions in a table.
ghost use Rattle.std.specs.Prelude.{◌≡◌, ◌<◌, ◌≤◌, ℕ, length, true, false, slice_index, if◌then◌else◌};
ghost use Rattle.std.specs.Option.{ForSome};
ghost use Rattle.tv_idle.specs.Laid.{rises};
ghost use Rattle.tv_idle.specs.Orders.{are_within, is_before, place_at};
ghost use Rattle.tv_idle.specs.Sought.{IsFirst, is_marked, is_sought_at, lesser, stands_after};

use crate::table::Table;
use std::collections::VecDeque;

/// The first of a queue that is in order. Logarithmic, and linear in those that have gone and stand before it, after the place.
pub(crate) fn first_queued(
    table: &Table,
    queue: &VecDeque<usize>,
    place: &[u32],
    gone: &[bool],
) -> Option<usize>
    requires within { are_within table.now.jobs queue.now.items ≡ true }
    requires rises { rises (is_before table.now.jobs) queue.now.items ≡ true }
    ensures { IsFirst (is_before table.now.jobs) (is_sought_at place.now gone.now table.now.jobs)
        queue.now.items result }
{
    for position in up_to(table, queue, place)..queue.len() {
        let at = queue[position];
        if is_sought(table, at, place, gone) {
            return Some(at);
        }
    }
    None
}

/// How many of a queue that is in order don't stand after a place. Logarithmic.
fn up_to(table: &Table, queue: &VecDeque<usize>, place: &[u32]) -> usize
    requires within { are_within table.now.jobs queue.now.items ≡ true }
    requires rises { rises (is_before table.now.jobs) queue.now.items ≡ true }
    ensures inside { result ≤ length queue.now.items }
    ensures before { (k : ℕ) → k < result
        → stands_after place.now (place_at table.now.jobs (slice_index queue.now.items k)) ≡ false }
{
    let mut low = 0;
    let mut high = queue.len();
    while low < high {
        let middle = low + (high - low) / 2;
        if table.stands_after(queue[middle], place) {
            high = middle;
        } else {
            low = middle + 1;
        }
    }
    low
}

/// The first of some jobs, in any order. Linear.
pub(crate) fn first_late(
    table: &Table,
    late: &[usize],
    place: &[u32],
    gone: &[bool],
) -> Option<usize>
    requires { are_within table.now.jobs late.now ≡ true }
    ensures { IsFirst (is_before table.now.jobs) (is_sought_at place.now gone.now table.now.jobs)
        late.now result }
{
    let mut first = None;
    for at in late {
        first = lesser(table, first, sought(table, *at, place, gone));
    }
    first
}

/// Whether a job stands after a place and hasn't gone.
fn is_sought(table: &Table, at: usize, place: &[u32], gone: &[bool]) -> bool
    requires { at < length table.now.jobs }
    ensures { result ≡ is_sought_at place.now gone.now table.now.jobs at }
{
    table.stands_after(at, place) && !is_marked(gone, table.number(at))
}

/// A job itself, where it stands after a place and hasn't gone.
fn sought(table: &Table, at: usize, place: &[u32], gone: &[bool]) -> Option<usize>
    requires { at < length table.now.jobs }
    ensures { result ≡ (if is_sought_at place.now gone.now table.now.jobs at then Some at
        else None) }
{
    if is_sought(table, at, place, gone) {
        Some(at)
    } else {
        None
    }
}

/// Whether a job is marked as gone.
fn is_marked(gone: &[bool], number: u32) -> bool
    ensures { result ≡ is_marked gone.now number }
{
    match gone.get(number as usize) {
        Some(mark) => *mark,
        None => false,
    }
}

/// The one of two that stands before the other, where there are two.
pub(crate) fn lesser(table: &Table, first: Option<usize>, second: Option<usize>) -> Option<usize>
    requires first { ForSome first (λ s. s < length table.now.jobs) }
    requires second { ForSome second (λ s. s < length table.now.jobs) }
    ensures { result ≡ lesser (is_before table.now.jobs) first second }
{
    match (first, second) {
        (None, other) => other,
        (Some(one), None) => Some(one),
        (Some(one), Some(other)) if table.is_before(other, one) => Some(other),
        (Some(one), Some(_)) => Some(one),
    }
}
