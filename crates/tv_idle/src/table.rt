//! Jobs with their places, by the order in which they were put.
ghost use Rattle.std.specs.Prelude.{◌≡◌, ◌++◌, ◌∷◌, ◌<◌, ◌≤◌, ◌+◌, ◌-◌, [], length, vec_capacity, vec_len, OnOk, OnErr};
ghost use Rattle.tv_idle.specs.Orders.{place_at, number_at, is_before};
ghost use Rattle.tv_idle.specs.Sought.{stands_after};

use std::alloc::Global;
use std::cmp::Ordering;
use std::marker::Model;
use tv_value::NoMemory;

/// Where the place of a job starts among all indices, and its number.
#[derive(Clone, Copy, Debug)]
pub struct Slot {
    start: usize,
    number: u32,
}

/// Jobs with places of one number of levels, by the order in which they were put. A contract sees the list of their numbers
/// and places, the number of levels, and how many more there is room for.
///
/// The indices of all places stand in one list.
#[derive(Debug, Drop)]
pub struct Table {
    levels: usize,
    slots: Vec<Slot>,
    indices: Vec<u32>,
    room: usize,
}

impl Model for Table {
    ghost use Rattle.tv_idle.specs.Tables.{Rows};

    ghost Value = { Rows };

    ghost use Rattle.tv_idle.specs.Slots.{table_jobs, IsLaid};

    ghost view = { λ t. record {
      jobs = table_jobs t.levels t.indices.items t.slots.items;
      levels =
          t.levels;
      room = t.room;
    } };

    ghost invariant = { λ t. IsLaid t.levels t.slots t.indices t.room };
}

impl Table {
    /// No jobs, with places of so many levels. Takes no memory.
    pub fn new(alloc: Global, levels: usize) -> Table
        ensures jobs { result.jobs ≡ [] }
        ensures levels { result.levels ≡ levels }
        ensures room { result.room ≡ 0 }
    {
        Table {
            levels,
            slots: Vec::new(alloc),
            indices: Vec::new(alloc),
            room: 0,
        }
    }

    /// No jobs from now on, with places of so many levels, in the same memory. Takes no memory.
    pub fn restart(&mut self, levels: usize)
        ensures jobs { self.new.jobs ≡ [] }
        ensures levels { self.new.levels ≡ levels }
        ensures room { self.new.room ≡ 0 }
    {
        self.slots.clear();
        self.indices.clear();
        self.levels = levels;
        self.room = 0;
    }

    /// How many jobs were put.
    pub fn len(&self) -> usize
        ensures { result ≡ length self.now.jobs }
    {
        self.slots.len()
    }

    /// How many more jobs there is room for.
    pub fn room(&self) -> usize
        ensures { result ≡ self.now.room }
    {
        self.room
    }

    /// Takes the room for so many more jobs.
    pub fn reserve(&mut self, count: usize) -> Result<(), NoMemory>
        ensures jobs { self.new.jobs ≡ self.old.jobs }
        ensures levels { self.new.levels ≡ self.old.levels }
        ensures ok { OnOk result (self.new.room ≡ count) }
        ensures refused { OnErr result (self.new.room ≡ self.old.room) }
    {
        let Some(indices) = count.checked_mul(self.levels) else {
            return Err(NoMemory);
        };
        self.slots.reserve(count)?;
        self.indices.reserve(indices)?;
        self.room = count;
        Ok(())
    }

    /// Puts a job at the end. Takes no memory.
    pub fn push(&mut self, number: u32, place: &[u32])
        requires room { 0 < self.old.room }
        requires levels { length place.now ≡ self.old.levels }
        ensures jobs { self.new.jobs ≡ self.old.jobs ++ (number, place.now) ∷ [] }
        ensures levels { self.new.levels ≡ self.old.levels }
        ensures room { self.new.room ≡ self.old.room - 1 }
    {
        let start = self.indices.len();
        put_indices(&mut self.indices, place);
        self.slots.push_reserved(Slot { start, number });
        self.room -= 1;
    }

    /// The number of the job that was put so many jobs later than the first.
    pub fn number(&self, at: usize) -> u32
        requires { at < length self.now.jobs }
        ensures { result ≡ number_at self.now.jobs at }
    {
        self.slots[at].number
    }

    /// Its place.
    pub fn place(&self, at: usize) -> &[u32]
        requires { at < length self.now.jobs }
        ensures { result.now ≡ place_at self.now.jobs at }
    {
        let slot = self.slots[at];
        let (_before, from) = self.indices.as_slice().split_at(slot.start);
        let (place, _after) = from.split_at(self.levels);
        place
    }

    /// Whether a job stands after a place.
    pub fn stands_after(&self, at: usize, place: &[u32]) -> bool
        requires { at < length self.now.jobs }
        ensures { result ≡ stands_after place.now (place_at self.now.jobs at) }
    {
        match place.cmp(self.place(at)) {
            Ordering::Less => true,
            Ordering::Equal | Ordering::Greater => false,
        }
    }

    /// Whether one job stands before another: by their places, and, where these are the same, by which was put first.
    pub fn is_before(&self, first: usize, second: usize) -> bool
        requires first { first < length self.now.jobs }
        requires second { second < length self.now.jobs }
        ensures { result ≡ is_before self.now.jobs first second }
    {
        match self.place(first).cmp(self.place(second)) {
            Ordering::Less => true,
            Ordering::Equal => first < second,
            Ordering::Greater => false,
        }
    }
}

/// Puts the indices of a place at the end of a list that has room for them.
fn put_indices(indices: &mut Vec<u32>, place: &[u32])
    requires { vec_len indices.old + length place.now ≤ vec_capacity indices.old }
    ensures items { indices.new.items ≡ indices.old.items ++ place.now }
    ensures capacity { vec_capacity indices.old ≤ vec_capacity indices.new }
{
    match place {
        [] => (),
        [index] => indices.push_reserved(*index),
        _ => match indices.extend_from_slice(place) {
            Ok(()) => (),
            Err(_full) => unreachable!(),
        },
    }
}
