//! Jobs that are idle again, or have a flow next.
ghost use Rattle.std.specs.Prelude.{◌≡◌, ◌<◌, OnOk, length, map, true};
ghost use Rattle.tv_seats.specs.Seats.{HasBackRooms, back, back_room, room_at, seats_out, stands, step_at};
ghost use Rattle.tv_seats.specs.Stages.{is_out};
ghost use Rattle.tv_seats.specs.declared.stage.Stage.TheVariants.{Aside as AnAside, Idle as AnIdle};
ghost use Rattle.tv_instances.specs.Turns.{AreRestarted};
ghost use Rattle.tv_instances.specs.Tries.{HasStage, IsSameButRooms};

use crate::open::Open;
use tv_value::NoMemory;

impl Open {
    /// Takes the room for one job of a step to be idle again.
    pub fn reserve_back(&mut self, step: u32) -> Result<(), NoMemory>
        requires { step < length self.old.seats.levels }
        ensures same { IsSameButRooms self.old self.new }
        ensures taken { OnOk result (back_room self.new.seats.back_rooms step ≡ 1) }
    {
        self.seats.reserve_back(step)
    }

    /// A job that is out is idle from now on, with this try as its next. Takes no memory.
    pub fn put_back(&mut self, number: u64, activity: u32, attempt: u32)
        requires out { stands is_out self.old.seats.seats number ≡ true }
        requires room { 0 < back_room self.old.seats.back_rooms (step_at self.old.seats.seats
            number) }
        ensures { HasStage self.old self.new number (AnIdle activity attempt) }
    {
        self.turns.take_in(self.seats.step(number));
        self.seats.put_back(number, activity, attempt);
    }

    /// Takes the room to put one job of a step aside.
    pub fn reserve_aside(&mut self, step: u32) -> Result<(), NoMemory>
        requires { step < length self.old.seats.levels }
        ensures same { IsSameButRooms self.old self.new }
        ensures taken { OnOk result (room_at self.new.seats.aside_rooms step ≡ 1) }
    {
        self.seats.reserve_aside(step)
    }

    /// A job that is out has the flow of this activity next. Takes no memory.
    pub fn set_aside(&mut self, number: u64, activity: u32)
        requires out { stands is_out self.old.seats.seats number ≡ true }
        requires room { 0 < room_at self.old.seats.aside_rooms (step_at self.old.seats.seats
            number) }
        ensures { HasStage self.old self.new number (AnAside activity) }
    {
        self.turns.take_in(self.seats.step(number));
        self.seats.set_aside(number, activity);
    }

    /// Takes the room for one more open flow of a step.
    pub fn reserve_nested(&mut self, step: u32) -> Result<(), NoMemory>
        requires { step < length self.old.seats.levels }
        ensures same { IsSameButRooms self.old self.new }
        ensures taken { OnOk result (room_at self.new.seats.nested_rooms step ≡ 1) }
    {
        self.seats.reserve_nested(step)
    }

    /// Takes the room for all jobs that are out to be idle again. Linear in the steps.
    pub fn reserve_all_back(&mut self) -> Result<(), NoMemory>
        ensures same { IsSameButRooms self.old self.new }
        ensures rooms { OnOk result (HasBackRooms self.new.seats) }
    {
        self.seats.reserve_all_back()
    }

    /// Each job that is out is idle from now on, with the same try as its next. Answers how many were out. Takes no memory.
    pub fn put_all_back(&mut self) -> u64
        requires { HasBackRooms self.old.seats }
        ensures count { result ≡ seats_out self.old.seats.seats }
        ensures frame { self.new.frame ≡ self.old.frame }
        ensures seats { self.new.seats.seats ≡ map back self.old.seats.seats }
        ensures levels { self.new.seats.levels ≡ self.old.seats.levels }
        ensures kept { self.new.levels ≡ self.old.levels }
        ensures turns { AreRestarted self.old.turns self.new.turns }
    {
        self.turns.restart();
        self.seats.put_all_back()
    }
}
