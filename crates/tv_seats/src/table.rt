//! The seats by number.
ghost use Rattle.std.specs.Prelude.{◌≡◌, ◌++◌, ◌∷◌, ◌<◌, ◌≤◌, ◌-◌, ◌+◌, ◌^◌, [], Some, length, option_map, slice_get, OnOk, OnErr};
ghost use Rattle.tv_seats.specs.Nested.{is_before};
ghost use Rattle.tv_seats.specs.Seats.{new_seat, stage_at, step_at, with_stage};

use crate::past::{Kept, Past};
use crate::stage::Stage;
use std::alloc::Global;
use std::cmp::Ordering;
use std::marker::Model;
use std::mem;
use tv_value::NoMemory;

/// A seat: its step, where its place starts among all indices and how many it has, and its stage.
#[derive(Clone, Copy, Debug)]
pub struct Row {
    step: u32,
    start: usize,
    levels: usize,
    stage: Stage,
}

/// The seats by number. A contract sees their list, the most indices that a place has, and how many more there is room for.
///
/// The indices of all places stand in one list.
#[derive(Debug, Drop)]
pub struct Table {
    widest: usize,
    rows: Vec<Row>,
    indices: Vec<u32>,
    room: usize,
}

impl Model for Table {
    ghost use Rattle.tv_seats.specs.Tables.{Rows};

    ghost Value = { Rows };

    ghost use Rattle.tv_seats.specs.Laid.{table_seats, IsLaid};

    ghost view = { λ t. record {
      seats = table_seats t.indices.items t.rows.items;
      widest = t.widest;
      room = t.room;
    } };

    ghost invariant = { λ t. IsLaid t.rows t.indices t.widest t.room };
}

impl Table {
    /// No seats, with places of at most so many indices. Takes no memory.
    pub fn new(alloc: Global, widest: usize) -> Table
        ensures seats { result.seats ≡ [] }
        ensures widest { result.widest ≡ widest }
        ensures room { result.room ≡ 0 }
    {
        Table {
            widest,
            rows: Vec::new(alloc),
            indices: Vec::new(alloc),
            room: 0,
        }
    }

    /// No seats from now on, with places of at most so many indices, in the memory of those before. Takes no memory.
    pub fn clear(&mut self, widest: usize)
        ensures seats { self.new.seats ≡ [] }
        ensures widest { self.new.widest ≡ widest }
        ensures room { self.new.room ≡ 0 }
    {
        self.rows.clear();
        self.indices.clear();
        self.widest = widest;
        self.room = 0;
    }

    /// Gives the seats: from then on there are none. One seat whose place has no index is given alone, and the memory in which it
    /// stood stays here. Takes no memory.
    pub fn finish(&mut self, alloc: Global) -> Past
        ensures given { result.seats ≡ self.old.seats }
        ensures seats { self.new.seats ≡ [] }
        ensures room { self.new.room ≡ 0 }
    {
        if self.rows.len() == 1 {
            let row = self.rows[0];
            if row.levels == 0 {
                self.clear(0);
                let (step, stage) = (row.step, row.stage);
                let kept = Kept::One { step, stage };
                return Past { kept };
            }
        }
        let kept = Kept::Many(mem::replace(self, Table::new(alloc, 0)));
        Past { kept }
    }

    /// How many seats there are.
    pub fn len(&self) -> usize
        ensures { result ≡ length self.now.seats }
    {
        self.rows.len()
    }

    /// Takes the room for so many more seats, where fewer than 2^32 are in all.
    pub fn reserve(&mut self, count: usize) -> Result<(), NoMemory>
        ensures seats { self.new.seats ≡ self.old.seats }
        ensures widest { self.new.widest ≡ self.old.widest }
        ensures ok { OnOk result (self.new.room ≡ count) }
        ensures numbers { length self.new.seats + self.new.room < 2 ^ 32 }
        ensures refused { OnErr result (self.new.room ≡ self.old.room) }
    {
        let Some(all) = self.rows.len().checked_add(count) else {
            return Err(NoMemory);
        };
        if all > u32::MAX as usize {
            return Err(NoMemory);
        }
        let Some(indices) = count.checked_mul(self.widest) else {
            return Err(NoMemory);
        };
        self.rows.reserve(count)?;
        self.indices.reserve(indices)?;
        self.room = count;
        Ok(())
    }

    /// One more seat, which waits. Takes no memory.
    pub fn push(&mut self, step: u32, place: &[u32])
        requires room { 0 < self.old.room }
        requires width { length place.now ≤ self.old.widest }
        ensures seats { self.new.seats ≡ self.old.seats ++ new_seat step place.now ∷ [] }
        ensures widest { self.new.widest ≡ self.old.widest }
        ensures room { self.new.room ≡ self.old.room - 1 }
    {
        let start = self.indices.len();
        match self.indices.extend_from_slice(place) {
            Ok(()) => (),
            Err(_full) => unreachable!(),
        }
        self.rows.push_reserved(Row {
            step,
            start,
            levels: place.len(),
            stage: Stage::Waiting,
        });
        self.room -= 1;
    }

    /// The number of the seat's step.
    pub fn step(&self, at: usize) -> u32
        requires { at < length self.now.seats }
        ensures { result ≡ step_at self.now.seats at }
    {
        self.rows[at].step
    }

    /// Its place.
    pub fn place(&self, at: usize) -> &[u32]
        requires { at < length self.now.seats }
        ensures { Some result.now ≡ option_map (λ s. s.place) (slice_get self.now.seats at) }
    {
        let row = self.rows[at];
        let (_before, from) = self.indices.as_slice().split_at(row.start);
        let (place, _after) = from.split_at(row.levels);
        place
    }

    /// Where its job stands.
    pub fn stage(&self, at: usize) -> Stage
        requires { at < length self.now.seats }
        ensures { Some result ≡ stage_at self.now.seats at }
    {
        self.rows[at].stage
    }

    /// Whether one seat's place is lesser than another's.
    pub fn is_before(&self, first: usize, second: usize) -> bool
        requires first { first < length self.now.seats }
        requires second { second < length self.now.seats }
        ensures { result ≡ is_before self.now.seats first second }
    {
        match self.place(first).cmp(self.place(second)) {
            Ordering::Less => true,
            Ordering::Equal | Ordering::Greater => false,
        }
    }

    /// The job stands there from now on.
    pub fn set_stage(&mut self, at: usize, stage: Stage)
        requires { at < length self.old.seats }
        ensures seats { self.new.seats ≡ with_stage at stage self.old.seats }
        ensures widest { self.new.widest ≡ self.old.widest }
        ensures room { self.new.room ≡ self.old.room }
    {
        self.rows[at].stage = stage;
    }
}
