//! The seats of one step, counted.
ghost use Rattle.std.specs.Prelude.{◌≡◌, ◌+◌, ◌<◌, ◌≤◌, ◌^◌, length, true, vec_capacity, OnErr, OnOk};
ghost use Rattle.tv_seats.specs.Moves.{Enters, HasRoom, Leaves, one};
ghost use Rattle.tv_seats.specs.Stages.{is_nested, is_out, runs};
ghost use Rattle.tv_seats.specs.Starts.{IsEmptyStep};

use crate::stage::Stage;
use std::alloc::Global;
use tv_idle::Ready;
use tv_value::NoMemory;

/// Of one step, in order of place: its idle jobs, those that were set aside, and those whose flow is open; and how many run, and how
/// many are out.
#[derive(Debug, Drop)]
pub struct StepSeats {
    pub(crate) idle: Ready,
    pub(crate) aside: Ready,
    pub(crate) nested: Vec<u32>,
    // How many more flows can be open.
    pub(crate) nested_room: usize,
    pub(crate) running: u32,
    pub(crate) out: u32,
}

impl StepSeats {
    /// No jobs, with places of so many indices. Takes no memory.
    pub(crate) fn new(alloc: Global, levels: usize) -> StepSeats
        ensures { IsEmptyStep levels result }
    {
        StepSeats {
            idle: Ready::new(alloc, levels),
            aside: Ready::new(alloc, levels),
            nested: Vec::new(alloc),
            nested_room: 0,
            running: 0,
            out: 0,
        }
    }

    /// No jobs from now on, with places of so many indices, in the same memory. Takes no memory.
    pub(crate) fn restart(&mut self, levels: usize)
        ensures { IsEmptyStep levels self.new }
    {
        self.idle.restart(levels);
        self.aside.restart(levels);
        self.nested.clear();
        self.nested_room = 0;
        self.running = 0;
        self.out = 0;
    }

    /// Takes the room to put so many back.
    pub(crate) fn reserve(&mut self, count: usize) -> Result<(), NoMemory>
        ensures jobs { self.new.idle.jobs ≡ self.old.idle.jobs }
        ensures levels { self.new.idle.levels ≡ self.old.idle.levels }
        ensures ok { OnOk result (self.new.idle.room ≡ count) }
        ensures refused { OnErr result (self.new.idle.room ≡ self.old.idle.room) }
        ensures aside { self.new.aside ≡ self.old.aside }
        ensures nested { self.new.nested ≡ self.old.nested }
        ensures nested_room { self.new.nested_room ≡ self.old.nested_room }
        ensures running { self.new.running ≡ self.old.running }
        ensures out { self.new.out ≡ self.old.out }
    {
        self.idle.reserve(count)
    }

    /// Takes the room to set one more aside.
    pub(crate) fn reserve_aside(&mut self) -> Result<(), NoMemory>
        ensures idle { self.new.idle ≡ self.old.idle }
        ensures jobs { self.new.aside.jobs ≡ self.old.aside.jobs }
        ensures levels { self.new.aside.levels ≡ self.old.aside.levels }
        ensures ok { OnOk result (self.new.aside.room ≡ 1) }
        ensures refused { OnErr result (self.new.aside.room ≡ self.old.aside.room) }
        ensures nested { self.new.nested ≡ self.old.nested }
        ensures nested_room { self.new.nested_room ≡ self.old.nested_room }
        ensures running { self.new.running ≡ self.old.running }
        ensures out { self.new.out ≡ self.old.out }
    {
        self.aside.reserve(1)
    }

    /// Takes the room for one more open flow.
    pub(crate) fn reserve_nested(&mut self) -> Result<(), NoMemory>
        requires room { length self.old.nested.items + self.old.nested_room
            ≤ vec_capacity self.old.nested }
        ensures idle { self.new.idle ≡ self.old.idle }
        ensures aside { self.new.aside ≡ self.old.aside }
        ensures nested { self.new.nested.items ≡ self.old.nested.items }
        ensures room { length self.new.nested.items + self.new.nested_room
            ≤ vec_capacity self.new.nested }
        ensures ok { OnOk result (self.new.nested_room ≡ 1) }
        ensures refused { OnErr result (self.new.nested_room ≡ self.old.nested_room) }
        ensures running { self.new.running ≡ self.old.running }
        ensures out { self.new.out ≡ self.old.out }
    {
        self.nested.reserve(1)?;
        self.nested_room = 1;
        Ok(())
    }

    /// A job leaves the stage: the first one, where that is to be idle or set aside, and the one that stands at this position, where its
    /// flow is open. Takes no memory. Where its flow was open, linear in the open flows.
    pub(crate) fn leave(&mut self, stage: Stage, position: usize)
        requires position { is_nested stage ≡ true → position < length self.old.nested.items }
        requires capacity { length self.old.nested.items + self.old.nested_room
            ≤ vec_capacity self.old.nested }
        requires running { one (runs stage) ≤ self.old.running }
        requires out { one (is_out stage) ≤ self.old.out }
        ensures { Leaves stage position self.old self.new }
    {
        match stage {
            Stage::Waiting => (),
            Stage::Out { .. } => {
                self.out -= 1;
                self.running -= 1;
            }
            Stage::Idle { .. } => {
                let _first = self.idle.take_first();
                self.running -= 1;
            }
            Stage::Aside { .. } => {
                let _first = self.aside.take_first();
                self.running -= 1;
            }
            Stage::Nested { .. } => {
                let _number = self.nested.remove(position);
                self.running -= 1;
            }
            Stage::Settled => (),
        }
    }

    /// A job comes to the stage, at this place, and at this position among the open flows, where its own is one. Takes no memory. Where
    /// its flow is open, linear in the open flows.
    pub(crate) fn enter(&mut self, stage: Stage, number: u32, place: &[u32], position: usize)
        requires room { HasRoom stage self.old }
        requires levels { (length place.now ≡ self.old.idle.levels)
            × (length place.now ≡ self.old.aside.levels) }
        requires position { is_nested stage ≡ true → position ≤ length self.old.nested.items }
        requires capacity { length self.old.nested.items + self.old.nested_room
            ≤ vec_capacity self.old.nested }
        requires running { self.old.running + one (runs stage) < 2 ^ 32 }
        requires out { self.old.out + one (is_out stage) < 2 ^ 32 }
        ensures { Enters stage (number, place.now) position self.old self.new }
    {
        match stage {
            Stage::Waiting => (),
            Stage::Out { .. } => {
                self.out += 1;
                self.running += 1;
            }
            Stage::Idle { .. } => {
                self.idle.put(number, place);
                self.running += 1;
            }
            Stage::Aside { .. } => {
                self.aside.put(number, place);
                self.running += 1;
            }
            Stage::Nested { .. } => {
                match self.nested.insert(position, number) {
                    Ok(()) => (),
                    Err(_full) => unreachable!(),
                }
                self.nested_room -= 1;
                self.running += 1;
            }
            Stage::Settled => (),
        }
    }
}
