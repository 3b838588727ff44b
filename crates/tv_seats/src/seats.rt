//! The seats of an instance's known jobs.
ghost use Rattle.std.specs.Prelude.{◌≡◌, ◌^◌, ◌+◌, ◌-◌, ◌<◌, ◌≤◌, ◌++◌, ◌∷◌, ◌||◌, [], true, length, map, nat_lt, slice_set, IfOk, OnErr, OnOk};
ghost use Rattle.std.specs.List.{list_all};
ghost use Rattle.tv_seats.specs.declared.stage.Stage.TheVariants.{Aside as AnAside, Idle as AnIdle, Nested as ANested, Out as AnOut, Settled as ASettled};
ghost use Rattle.tv_seats.specs.Firsts.{IsFirstAsideOf, IsFirstOf, MayGoOut, MayNest};
ghost use Rattle.tv_seats.specs.Moves.{HasRoomAt, MayGoTo, rooms_after};
ghost use Rattle.tv_seats.specs.Nested.{AreNested, StandsBehind};
ghost use Rattle.tv_seats.specs.Seats.{HasBackRooms, HasRoomsOrAsBefore, IsFree, back, back_room, count_at, levels_of, new_seat, one_less, place_at, room_at, running_count, seats_out, stage_at, stands, step_at, with_back, with_stage};
ghost use Rattle.tv_seats.specs.Starts.{AreEmptySteps, EmptiesStep};
ghost use Rattle.tv_seats.specs.Stages.{is_aside, is_idle, is_nested, is_out, may_settle};

use crate::past::Past;
use crate::stage::Stage;
use crate::steps::StepSeats;
use crate::table::Table;
use std::alloc::Global;
use std::marker::Model;
use std::mem;
use tv_value::NoMemory;

/// The seats of one instance's known jobs. The steps are told by their numbers, and so are the jobs, from 0 in the order in which
/// they sat down.
///
/// A contract sees the list of the seats by number, each with its step, its place and its stage; how many indices the places of each
/// step have; and the rooms.
#[derive(Debug, Drop)]
pub struct Seats {
    table: Table,
    // By step.
    steps: Vec<StepSeats>,
    // Those of ended instances, whose memory steps of new ones take.
    spare: Vec<StepSeats>,
    // How many jobs are out.
    out: u64,
}

impl Model for Seats {
    ghost use Rattle.tv_seats.specs.Seats.{Seated};

    ghost Value = { Seated };

    ghost use Rattle.tv_seats.specs.Kept.{all_aside_rooms, all_levels, all_nested_rooms, all_rooms, AreKept};

    ghost view = { λ s. record {
      seats = s.table.seats;
      levels = all_levels s.steps.items;
      room = s.table.room;
      back_rooms = all_rooms s.steps.items;
      aside_rooms = all_aside_rooms s.steps.items;
      nested_rooms = all_nested_rooms s.steps.items;
    } };

    ghost invariant = { λ s. AreKept s.table s.steps.items s.out };
}

impl Seats {
    /// No seats, of no step. Takes no memory.
    pub fn none(alloc: Global) -> Seats
        ensures seats { result.seats ≡ [] }
        ensures levels { result.levels ≡ [] }
    {
        Seats {
            table: Table::new(alloc, 0),
            steps: Vec::new(alloc),
            spare: Vec::new(alloc),
            out: 0,
        }
    }

    /// No seats from now on, where the places of each step have so many indices, in the memory of those before. Linear in the
    /// steps. Where it is refused there are no seats, of no step.
    pub fn start(&mut self, alloc: Global, levels: &[u32]) -> Result<(), NoMemory>
        ensures seats { self.new.seats ≡ [] }
        ensures levels { OnOk result (self.new.levels ≡ levels.now) }
    {
        self.out = 0;
        self.table.clear(0);
        mem::swap(&mut self.steps, &mut self.spare);
        match empty_steps(alloc, &mut self.steps, levels) {
            Ok(widest) => {
                self.table.clear(widest);
                Ok(())
            }
            Err(error) => {
                self.steps.clear();
                Err(error)
            }
        }
    }

    /// Gives the seats by number: from then on there are none, of no step. Takes no memory.
    pub fn finish(&mut self, alloc: Global) -> Past
        ensures given { result.seats ≡ self.old.seats }
        ensures seats { self.new.seats ≡ [] }
        ensures levels { self.new.levels ≡ [] }
    {
        self.out = 0;
        self.spare.clear();
        mem::swap(&mut self.steps, &mut self.spare);
        self.table.finish(alloc)
    }

    /// How many jobs have a seat. Each of their numbers is below that, and there are fewer than 2^32.
    pub fn len(&self) -> u64
        ensures len { result ≡ length self.now.seats }
        ensures few { result < 2 ^ 32 }
    {
        self.table.len() as u64
    }

    /// Takes the room for so many more seats. Answers want of memory where the last would have no number of 32 bits.
    pub fn reserve(&mut self, count: usize) -> Result<(), NoMemory>
        ensures ok { OnOk result (self.new.room ≡ count) }
        ensures refused { OnErr result (self.new.room ≡ self.old.room) }
        ensures seats { self.new.seats ≡ self.old.seats }
        ensures levels { self.new.levels ≡ self.old.levels }
        ensures back_rooms { self.new.back_rooms ≡ self.old.back_rooms }
        ensures aside_rooms { self.new.aside_rooms ≡ self.old.aside_rooms }
        ensures nested_rooms { self.new.nested_rooms ≡ self.old.nested_rooms }
    {
        self.table.reserve(count)
    }

    /// One more job sits down, of this step, at a place at which none of the step sits yet. It waits. Answers its number. Takes no
    /// memory.
    pub fn sit(&mut self, step: u32, place: &[u32]) -> u64
        requires step { step < length self.old.levels }
        requires levels { length place.now ≡ levels_of self.old.levels step }
        requires free { IsFree self.old.seats step place.now }
        requires room { 0 < self.old.room }
        ensures number { result ≡ length self.old.seats }
        ensures seats { self.new.seats ≡ self.old.seats ++ new_seat step place.now ∷ [] }
        ensures levels { self.new.levels ≡ self.old.levels }
        ensures room { self.new.room ≡ self.old.room - 1 }
        ensures back_rooms { self.new.back_rooms ≡ self.old.back_rooms }
        ensures aside_rooms { self.new.aside_rooms ≡ self.old.aside_rooms }
        ensures nested_rooms { self.new.nested_rooms ≡ self.old.nested_rooms }
    {
        let number = self.table.len() as u64;
        self.table.push(step, place);
        number
    }

    /// Where a job stands, `None` where none has that number.
    pub fn stage(&self, number: u64) -> Option<Stage>
        ensures { result ≡ stage_at self.now.seats number }
    {
        if number >= self.table.len() as u64 {
            return None;
        }
        Some(self.table.stage(number as usize))
    }

    /// The step of a job.
    pub fn step(&self, number: u64) -> u32
        requires { number < length self.now.seats }
        ensures { result ≡ step_at self.now.seats number }
    {
        self.table.step(number as usize)
    }

    /// The place of a job.
    pub fn place(&self, number: u64) -> &[u32]
        requires { number < length self.now.seats }
        ensures { result.now ≡ place_at self.now.seats number }
    {
        self.table.place(number as usize)
    }

    /// How many jobs of a step run: they are out, idle or set aside, or their flow is open.
    pub fn running(&self, step: u32) -> u32
        requires { step < length self.now.levels }
        ensures { result ≡ running_count step self.now.seats }
    {
        self.steps[step as usize].running
    }

    /// How many jobs are out, of all steps together.
    pub fn out_count(&self) -> u64
        ensures { result ≡ seats_out self.now.seats }
    {
        self.out
    }

    /// The number of the idle job of a step with the least place.
    pub fn first_idle(&self, step: u32) -> Option<u64>
        requires { step < length self.now.levels }
        ensures { IsFirstOf self.now.seats step result }
    {
        match self.steps[step as usize].idle.first() {
            Some(number) => Some(number as u64),
            None => None,
        }
    }

    /// This try of a job is out from now on. The job waits, or is the first idle one of its step. Takes no memory. Constant, and
    /// for an idle one logarithmic in those of its step that came back out of order.
    pub fn hand_out(&mut self, number: u64, activity: u32, attempt: u32)
        requires { MayGoOut self.old.seats number }
        ensures seats { self.new.seats ≡ with_stage number (AnOut activity attempt) self.old.seats }
        ensures levels { self.new.levels ≡ self.old.levels }
        ensures room { self.new.room ≡ self.old.room }
        ensures back_rooms { self.new.back_rooms ≡ self.old.back_rooms }
        ensures aside_rooms { self.new.aside_rooms ≡ self.old.aside_rooms }
        ensures nested_rooms { self.new.nested_rooms ≡ self.old.nested_rooms }
    {
        self.move_seat(number, Stage::Out { activity, attempt });
    }

    /// Takes the room to put one job of a step back.
    pub fn reserve_back(&mut self, step: u32) -> Result<(), NoMemory>
        requires { step < length self.old.levels }
        ensures ok { OnOk result (self.new.back_rooms ≡ slice_set self.old.back_rooms step 1) }
        ensures taken { OnOk result (back_room self.new.back_rooms step ≡ 1) }
        ensures refused { OnErr result (self.new.back_rooms ≡ self.old.back_rooms) }
        ensures seats { self.new.seats ≡ self.old.seats }
        ensures levels { self.new.levels ≡ self.old.levels }
        ensures room { self.new.room ≡ self.old.room }
        ensures aside_rooms { self.new.aside_rooms ≡ self.old.aside_rooms }
        ensures nested_rooms { self.new.nested_rooms ≡ self.old.nested_rooms }
    {
        self.reserve_for(step as usize, 1)
    }

    /// Takes the room to put so many jobs of a step back.
    fn reserve_for(&mut self, step: usize, count: usize) -> Result<(), NoMemory>
        requires { step < length self.old.levels }
        ensures ok { OnOk result (self.new.back_rooms ≡ slice_set self.old.back_rooms step count) }
        ensures taken { OnOk result (back_room self.new.back_rooms step ≡ count) }
        ensures refused { OnErr result (self.new.back_rooms ≡ self.old.back_rooms) }
        ensures seats { self.new.seats ≡ self.old.seats }
        ensures levels { self.new.levels ≡ self.old.levels }
        ensures room { self.new.room ≡ self.old.room }
        ensures aside_rooms { self.new.aside_rooms ≡ self.old.aside_rooms }
        ensures nested_rooms { self.new.nested_rooms ≡ self.old.nested_rooms }
    {
        self.steps[step].reserve(count)
    }

    /// A job that is out is idle from now on, with this try as its next. Takes no memory. Constant where its place is behind those
    /// of all that came back in order, else logarithmic in those of its step that came back out of order.
    pub fn put_back(&mut self, number: u64, activity: u32, attempt: u32)
        requires out { stands is_out self.old.seats number ≡ true }
        requires room { 0 < back_room self.old.back_rooms (step_at self.old.seats number) }
        ensures seats { self.new.seats
            ≡ with_stage number (AnIdle activity attempt) self.old.seats }
        ensures levels { self.new.levels ≡ self.old.levels }
        ensures room { self.new.room ≡ self.old.room }
        ensures back_rooms { self.new.back_rooms
            ≡ one_less (step_at self.old.seats number) self.old.back_rooms }
        ensures aside_rooms { self.new.aside_rooms ≡ self.old.aside_rooms }
        ensures nested_rooms { self.new.nested_rooms ≡ self.old.nested_rooms }
    {
        self.move_seat(number, Stage::Idle { activity, attempt });
    }

    /// A job that waits, is out or has its flow open is done. Takes no memory. Constant, and where its flow was open linear in the open
    /// flows of its step.
    pub fn settle(&mut self, number: u64)
        requires { stands may_settle self.old.seats number ≡ true }
        ensures seats { self.new.seats ≡ with_stage number ASettled self.old.seats }
        ensures levels { self.new.levels ≡ self.old.levels }
        ensures room { self.new.room ≡ self.old.room }
        ensures back_rooms { self.new.back_rooms ≡ self.old.back_rooms }
        ensures aside_rooms { self.new.aside_rooms ≡ self.old.aside_rooms }
        ensures nested_rooms { self.new.nested_rooms ≡ self.old.nested_rooms }
    {
        self.move_seat(number, Stage::Settled);
    }

    /// Takes the room to set one job of a step aside.
    pub fn reserve_aside(&mut self, step: u32) -> Result<(), NoMemory>
        requires { step < length self.old.levels }
        ensures ok { OnOk result (self.new.aside_rooms ≡ slice_set self.old.aside_rooms step 1) }
        ensures taken { OnOk result (room_at self.new.aside_rooms step ≡ 1) }
        ensures refused { OnErr result (self.new.aside_rooms ≡ self.old.aside_rooms) }
        ensures seats { self.new.seats ≡ self.old.seats }
        ensures levels { self.new.levels ≡ self.old.levels }
        ensures room { self.new.room ≡ self.old.room }
        ensures back_rooms { self.new.back_rooms ≡ self.old.back_rooms }
        ensures nested_rooms { self.new.nested_rooms ≡ self.old.nested_rooms }
    {
        self.steps[step as usize].reserve_aside()
    }

    /// A job that is out is set aside: the flow of this activity comes next. Takes no memory. Costs as `put_back` does.
    pub fn set_aside(&mut self, number: u64, activity: u32)
        requires out { stands is_out self.old.seats number ≡ true }
        requires room { 0 < room_at self.old.aside_rooms (step_at self.old.seats number) }
        ensures seats { self.new.seats ≡ with_stage number (AnAside activity) self.old.seats }
        ensures levels { self.new.levels ≡ self.old.levels }
        ensures room { self.new.room ≡ self.old.room }
        ensures back_rooms { self.new.back_rooms ≡ self.old.back_rooms }
        ensures aside_rooms { self.new.aside_rooms
            ≡ one_less (step_at self.old.seats number) self.old.aside_rooms }
        ensures nested_rooms { self.new.nested_rooms ≡ self.old.nested_rooms }
    {
        self.move_seat(number, Stage::Aside { activity });
    }

    /// The number of the job of a step with the least place, of those that were set aside.
    pub fn first_aside(&self, step: u32) -> Option<u64>
        requires { step < length self.now.levels }
        ensures { IsFirstAsideOf self.now.seats step result }
    {
        match self.steps[step as usize].aside.first() {
            Some(number) => Some(number as u64),
            None => None,
        }
    }

    /// Takes the room for one more open flow of a step.
    pub fn reserve_nested(&mut self, step: u32) -> Result<(), NoMemory>
        requires { step < length self.old.levels }
        ensures ok { OnOk result (self.new.nested_rooms ≡ slice_set self.old.nested_rooms step 1) }
        ensures taken { OnOk result (room_at self.new.nested_rooms step ≡ 1) }
        ensures refused { OnErr result (self.new.nested_rooms ≡ self.old.nested_rooms) }
        ensures seats { self.new.seats ≡ self.old.seats }
        ensures levels { self.new.levels ≡ self.old.levels }
        ensures room { self.new.room ≡ self.old.room }
        ensures back_rooms { self.new.back_rooms ≡ self.old.back_rooms }
        ensures aside_rooms { self.new.aside_rooms ≡ self.old.aside_rooms }
    {
        self.steps[step as usize].reserve_nested()
    }

    /// The flow of a job is open from now on, as this instance. The job waits, or is the first of its step that was set aside. Takes
    /// no memory. Linear in the open flows of its step, and for one that was set aside logarithmic in those that were so out of order.
    pub fn nest(&mut self, number: u64, instance: u64)
        requires may { MayNest self.old.seats number }
        requires room { 0 < room_at self.old.nested_rooms (step_at self.old.seats number) }
        ensures seats { self.new.seats ≡ with_stage number (ANested instance) self.old.seats }
        ensures levels { self.new.levels ≡ self.old.levels }
        ensures room { self.new.room ≡ self.old.room }
        ensures back_rooms { self.new.back_rooms ≡ self.old.back_rooms }
        ensures aside_rooms { self.new.aside_rooms ≡ self.old.aside_rooms }
        ensures nested_rooms { self.new.nested_rooms
            ≡ one_less (step_at self.old.seats number) self.old.nested_rooms }
    {
        self.move_seat(number, Stage::Nested { instance });
    }

    /// The numbers of the jobs of a step whose flow is open, in order of place.
    pub fn nested(&self, step: u32) -> &[u32]
        requires { step < length self.now.levels }
        ensures { AreNested self.now.seats step result.now }
    {
        self.steps[step as usize].nested.as_slice()
    }

    /// Takes the room to put all jobs back that are out. Where it is refused, it may have been taken for some steps. Linear in the
    /// steps.
    pub fn reserve_all_back(&mut self) -> Result<(), NoMemory>
        ensures ok { OnOk result (HasBackRooms self.new) }
        ensures seats { self.new.seats ≡ self.old.seats }
        ensures levels { self.new.levels ≡ self.old.levels }
        ensures room { self.new.room ≡ self.old.room }
        ensures back_rooms { HasRoomsOrAsBefore self.old self.new }
        ensures aside_rooms { self.new.aside_rooms ≡ self.old.aside_rooms }
        ensures nested_rooms { self.new.nested_rooms ≡ self.old.nested_rooms }
    {
        for step in 0..self.steps.len() {
            self.reserve_for(step, self.out_of(step))?;
        }
        Ok(())
    }

    /// A job goes to another stage: its step forgets it, and takes it up again as that stage has it.
    fn move_seat(&mut self, number: u64, stage: Stage)
        requires may { MayGoTo stage self.old.seats number }
        requires room { HasRoomAt stage self.old (step_at self.old.seats number) }
        ensures seats { self.new.seats ≡ with_stage number stage self.old.seats }
        ensures levels { self.new.levels ≡ self.old.levels }
        ensures room { self.new.room ≡ self.old.room }
        ensures back_rooms { self.new.back_rooms
            ≡ rooms_after (is_idle stage) (step_at self.old.seats number) self.old.back_rooms }
        ensures aside_rooms { self.new.aside_rooms
            ≡ rooms_after (is_aside stage) (step_at self.old.seats number) self.old.aside_rooms }
        ensures nested_rooms { self.new.nested_rooms
            ≡ rooms_after (is_nested stage) (step_at self.old.seats number) self.old.nested_rooms }
    {
        let at = number as usize;
        let step = self.table.step(at) as usize;
        let before = self.table.stage(at);
        let seats = &mut self.steps[step];
        let position = position_among(&self.table, seats.nested.as_slice(), at, before, stage);
        seats.leave(before, position);
        seats.enter(stage, number as u32, self.table.place(at), position);
        self.table.set_stage(at, stage);
        self.out -= u64::from(before.is_out());
        self.out += u64::from(stage.is_out());
    }

    /// How many jobs of a step are out.
    fn out_of(&self, step: usize) -> usize
        requires { step < length self.now.levels }
        ensures { result ≡ count_at is_out step self.now.seats }
    {
        self.steps[step].out as usize
    }

    /// Each job that is out is idle from now on, with the same try as its next. Answers how many were out. Takes no memory. Linear in
    /// the seats, and for each that was out as `put_back`.
    pub fn put_all_back(&mut self) -> u64
        requires { HasBackRooms self.old }
        ensures count { result ≡ seats_out self.old.seats }
        ensures seats { self.new.seats ≡ map back self.old.seats }
        ensures levels { self.new.levels ≡ self.old.levels }
        ensures room { self.new.room ≡ self.old.room }
        ensures aside_rooms { self.new.aside_rooms ≡ self.old.aside_rooms }
        ensures nested_rooms { self.new.nested_rooms ≡ self.old.nested_rooms }
    {
        let count = self.out;
        for number in 0..self.len() {
            self.call_back(number);
        }
        count
    }

    /// A job is idle from now on, if it is out.
    fn call_back(&mut self, number: u64)
        requires number { number < length self.old.seats }
        requires rooms { HasBackRooms self.old }
        ensures seats { self.new.seats ≡ with_back number self.old.seats }
        ensures levels { self.new.levels ≡ self.old.levels }
        ensures room { self.new.room ≡ self.old.room }
        ensures rooms { HasBackRooms self.new }
        ensures aside_rooms { self.new.aside_rooms ≡ self.old.aside_rooms }
        ensures nested_rooms { self.new.nested_rooms ≡ self.old.nested_rooms }
    {
        match self.table.stage(number as usize) {
            Stage::Out { activity, attempt } => self.put_back(number, activity, attempt),
            _ => (),
        }
    }
}

/// Steps with no jobs, whose places have so many indices, in the place and the memory of these. Answers the most indices of a place.
fn empty_steps(alloc: Global, steps: &mut Vec<StepSeats>, levels: &[u32]) -> Result<usize, NoMemory>
    ensures { IfOk result (λ widest. AreEmptySteps levels.now widest steps.new.items) }
{
    steps.truncate(levels.len());
    let mut widest = 0;
    for number in 0..levels.len() {
        let count = levels[number] as usize;
        empty_step(alloc, steps, number, count)?;
        widest = wider(widest, count);
    }
    Ok(widest)
}

/// The step of that number has no jobs from now on, in the memory of the one that stands there, or is one more.
fn empty_step(
    alloc: Global,
    steps: &mut Vec<StepSeats>,
    number: usize,
    levels: usize,
) -> Result<(), NoMemory>
    requires { number ≤ length steps.old.items }
    ensures { OnOk result (EmptiesStep number levels steps.old.items steps.new.items) }
{
    if number < steps.len() {
        steps[number].restart(levels);
    } else {
        steps.push(StepSeats::new(alloc, levels))?;
    }
    Ok(())
}

/// How many of some jobs in order of place stand before a job: its position, where it is one of them. Linear. They are those whose flow
/// is open, and it goes from one stage to another: there is no walk where neither says so of it.
fn position_among(table: &Table, numbers: &[u32], at: usize, before: Stage, after: Stage) -> usize
    requires at { at < length table.now.seats }
    requires within { list_all (λ n. nat_lt n (length table.now.seats)) numbers.now ≡ true }
    ensures { (is_nested before || is_nested after) ≡ true
        → StandsBehind table.now.seats numbers.now at result }
{
    if !before.is_nested() && !after.is_nested() {
        return 0;
    }
    for position in 0..numbers.len() {
        if !table.is_before(numbers[position] as usize, at) {
            return position;
        }
    }
    numbers.len()
}

/// The greater of two.
fn wider(first: usize, second: usize) -> usize
    ensures first { first ≤ result }
    ensures second { second ≤ result }
{
    if first < second { second } else { first }
}
