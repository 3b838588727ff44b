//! The ready jobs of one step, in order of place.
ghost use Rattle.std.specs.Prelude.{◌≡◌, ◌<◌, ◌-◌, ◌==◌, [], true, drop, length, slice_get, option_map, OnOk, OnErr};
ghost use Rattle.std.specs.List.{list_all};
ghost use Rattle.tv_idle.specs.Laid.{is_late_first, rises};
ghost use Rattle.tv_idle.specs.Listed.{with_job};
ghost use Rattle.tv_idle.specs.Orders.{are_within, is_before, place_at};
ghost use Rattle.tv_idle.specs.Sought.{sought};

use crate::heap::{rise, sink};
use crate::search::{first_late, first_queued, lesser};
use crate::table::Table;
use std::alloc::Global;
use std::collections::VecDeque;
use std::marker::Model;
use tv_value::NoMemory;

/// The ready jobs of one step. A contract sees the list of their numbers and places, in order of place, the number of indices
/// of each place, and how many more can be put.
#[derive(Debug, Drop)]
pub struct Ready {
    // All jobs that were put.
    table: Table,
    // Those that came in order, by their positions in the table.
    queue: VecDeque<usize>,
    // The others: a heap.
    late: Vec<usize>,
}

impl Model for Ready {
    ghost use Rattle.tv_idle.specs.Listed.{Listed};

    ghost Value = { Listed };

    ghost use Rattle.tv_idle.specs.Laid.{listed, AreKept};
    ghost use Rattle.std.specs.Prelude.{vec_capacity};
    ghost use Rattle.std.specs.VecDeque.{deque_capacity};

    ghost view = { λ r. record {
      jobs = listed r.table r.queue.items r.late.items;
      levels =
          r.table.levels;
      room = r.table.room;
    } };

    ghost invariant = { λ r. AreKept r.table r.queue.items (deque_capacity r.queue) r.late.items
        (vec_capacity r.late) };
}

impl Ready {
    /// No jobs, with places of so many indices. Takes no memory.
    pub fn new(alloc: Global, levels: usize) -> Ready
        ensures jobs { result.jobs ≡ [] }
        ensures levels { result.levels ≡ levels }
        ensures room { result.room ≡ 0 }
    {
        Ready {
            table: Table::new(alloc, levels),
            queue: VecDeque::new(alloc),
            late: Vec::new(alloc),
        }
    }

    /// No jobs from now on, with places of so many indices, in the same memory. Takes no memory.
    pub fn restart(&mut self, levels: usize)
        ensures jobs { self.new.jobs ≡ [] }
        ensures levels { self.new.levels ≡ levels }
        ensures room { self.new.room ≡ 0 }
    {
        self.queue.clear();
        self.late.clear();
        self.table.restart(levels);
    }

    /// How many jobs are ready.
    pub fn len(&self) -> usize
        ensures { result ≡ length self.now.jobs }
    {
        self.queue.len() + self.late.len()
    }

    /// Whether none is ready.
    pub fn is_empty(&self) -> bool
        ensures { result ≡ (length self.now.jobs == 0) }
    {
        self.len() == 0
    }

    /// Takes the room for so many more jobs.
    #[inline(always)]
    pub fn reserve(&mut self, count: usize) -> Result<(), NoMemory>
        ensures jobs { self.new.jobs ≡ self.old.jobs }
        ensures levels { self.new.levels ≡ self.old.levels }
        ensures ok { OnOk result (self.new.room ≡ count) }
        ensures refused { OnErr result (self.new.room ≡ self.old.room) }
    {
        if count == self.table.room() {
            return Ok(());
        }
        self.reserve_other(count)
    }

    #[inline(never)]
    fn reserve_other(&mut self, count: usize) -> Result<(), NoMemory>
        ensures jobs { self.new.jobs ≡ self.old.jobs }
        ensures levels { self.new.levels ≡ self.old.levels }
        ensures ok { OnOk result (self.new.room ≡ count) }
        ensures refused { OnErr result (self.new.room ≡ self.old.room) }
    {
        self.queue.reserve(count)?;
        self.late.reserve(count)?;
        self.table.reserve(count)
    }

    /// The number of the first job. Takes no memory.
    #[inline(always)]
    pub fn first(&self) -> Option<u32>
        ensures { result ≡ option_map (λ j. j.0) (slice_get self.now.jobs 0) }
    {
        if self.is_empty() {
            return None;
        }
        self.first_of_some()
    }

    /// The same where there may be some.
    #[inline(never)]
    fn first_of_some(&self) -> Option<u32>
        ensures { result ≡ option_map (λ j. j.0) (slice_get self.now.jobs 0) }
    {
        if is_late_first(&self.table, &self.queue, self.late.as_slice()) {
            return Some(self.table.number(self.late[0]));
        }
        match self.queue.front() {
            Some(at) => Some(self.table.number(*at)),
            None => None,
        }
    }

    /// The place of the first job, and no index where there is none. Takes no memory.
    pub fn first_place(&self) -> &[u32]
        ensures { result.now ≡ place_at self.now.jobs 0 }
    {
        if is_late_first(&self.table, &self.queue, self.late.as_slice()) {
            return self.table.place(self.late[0]);
        }
        match self.queue.front() {
            Some(at) => self.table.place(*at),
            None => &[],
        }
    }

    /// The number and the place of the first job after a place, of those that haven't gone: `gone` tells by number whether a job
    /// has, and one without a mark there hasn't. Takes no memory. Logarithmic, and linear in those that came late, and in those
    /// that have gone and stand between the place and the answer.
    pub fn first_after(&self, place: &[u32], gone: &[bool]) -> Option<(u32, &[u32])>
        ensures { option_map (λ j. (j.0, j.1.now)) result
            ≡ slice_get (sought place.now gone.now self.now.jobs) 0 }
    {
        let queued = first_queued(&self.table, &self.queue, place, gone);
        let late = first_late(&self.table, self.late.as_slice(), place, gone);
        match lesser(&self.table, queued, late) {
            Some(at) => Some((self.table.number(at), self.table.place(at))),
            None => None,
        }
    }

    /// A job is ready. Takes no memory. Constant where it stands after all that came in order, else logarithmic in those that
    /// came late.
    pub fn put(&mut self, number: u32, place: &[u32])
        requires room { 0 < self.old.room }
        requires levels { length place.now ≡ self.old.levels }
        ensures jobs { self.new.jobs ≡ with_job (number, place.now) self.old.jobs }
        ensures levels { self.new.levels ≡ self.old.levels }
        ensures room { self.new.room ≡ self.old.room - 1 }
    {
        let at = self.table.len();
        self.table.push(number, place);
        if comes_last(&self.table, &self.queue, at) {
            self.queue.push_back_reserved(at);
        } else {
            self.late.push_reserved(at);
            rise(self.late.as_mut_slice(), &self.table);
        }
    }

    /// Takes the first job away, and answers its number. Takes no memory. Constant where it came in order, else logarithmic
    /// in those that came late.
    pub fn take_first(&mut self) -> Option<u32>
        ensures first { result ≡ option_map (λ j. j.0) (slice_get self.old.jobs 0) }
        ensures jobs { self.new.jobs ≡ drop 1 self.old.jobs }
        ensures levels { self.new.levels ≡ self.old.levels }
        ensures room { self.new.room ≡ self.old.room }
    {
        if is_late_first(&self.table, &self.queue, self.late.as_slice()) {
            let at = self.late.swap_remove(0);
            sink(self.late.as_mut_slice(), &self.table);
            return Some(self.table.number(at));
        }
        match self.queue.pop_front() {
            Some(at) => Some(self.table.number(at)),
            None => None,
        }
    }
}

/// Whether the first job is one of those that came late.
fn is_late_first(table: &Table, queue: &VecDeque<usize>, late: &[usize]) -> bool
    requires queue { are_within table.now.jobs queue.now.items ≡ true }
    requires late { are_within table.now.jobs late.now ≡ true }
    ensures { result ≡ is_late_first table.now.jobs queue.now.items late.now }
{
    match late.first() {
        Some(late) => match queue.front() {
            Some(first) => table.is_before(*late, *first),
            None => true,
        },
        None => false,
    }
}

/// Whether a job stands after all of a queue that is in order.
fn comes_last(table: &Table, queue: &VecDeque<usize>, at: usize) -> bool
    requires at { at < length table.now.jobs }
    requires within { are_within table.now.jobs queue.now.items ≡ true }
    requires rises { rises (is_before table.now.jobs) queue.now.items ≡ true }
    ensures { result ≡ true → list_all (λ s. is_before table.now.jobs s at) queue.now.items ≡ true }
{
    match queue.back() {
        Some(last) => table.is_before(*last, at),
        None => true,
    }
}
