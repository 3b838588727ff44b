//! Instances opened and ended.
ghost use Rattle.std.specs.Prelude.{◌≡◌, ◌<◌, ◌+◌, IfOk, OnErr, OnOk, Some, length, map, slice_get, true};
ghost use Rattle.tv_value.specs.Values.{Name};
ghost use Rattle.tv_gate.specs.Outcomes.{Giving};
ghost use Rattle.tv_flow.specs.Flows.{Step};
ghost use Rattle.tv_check.specs.RunViews.{run_view};
ghost use Rattle.tv_cell.specs.PieceValues.{piece_values};
ghost use Rattle.tv_cell.specs.Soundness.{AreSound};
ghost use Rattle.tv_instances.specs.Answers.{AreOutputs};
ghost use Rattle.tv_instances.specs.FramingViews.{View};
ghost use Rattle.tv_seats.specs.Firsts.{MayNest};
ghost use Rattle.tv_seats.specs.Seats.{Seat};
ghost use Rattle.tv_seats.specs.declared.stage.Stage.TheVariants.{Nested as ANested};
ghost use Rattle.tv_frame.specs.Views.{level_view};
ghost use Rattle.tv_instances.specs.Events.{WaitsReady};
ghost use Rattle.tv_instances.specs.Levels.{AreItsLevels};
ghost use Rattle.tv_instances.specs.Entries.{shut, with_instance};
ghost use Rattle.tv_instances.specs.Forest.{Instance, Instances, IsAt};
ghost use Rattle.tv_run.specs.Changes.{ChangesTo, HasNestRoom, IsOpenHere, IsReadyIn, LeavesOthers, TakesIn};
ghost use Rattle.tv_run.specs.Looks.{OpensNumber};
ghost use Rattle.tv_run.specs.Rooms.{IsAsBefore};
ghost use Rattle.tv_run.specs.Settlements.{EndsIn, EndsOrNot, GivesTo, GoesOnFirst, IsOpenIn, IsOpenerOf, IsQuietRun, OfOpen, OpensFirst, SettlesIn, has_flow_next, opened_flow};
ghost use Rattle.tv_run.specs.Standing.{Fits, StandsOpen, names_of};
ghost use Rattle.tv_run.specs.Turns.{MovesTo, SettlesTo, StaysAs};

use crate::ended::Ended;
use crate::instances::Numbered;
use crate::run::OpenRun;
use crate::slots::{Leftover, keep};
use std::mem;
use tv_dispatch::{Kind, Plan};
use tv_history::{Entry, Moved};
use tv_instances::{Seeking, Spot};
use tv_seats::Stage;
use tv_value::{Copied, NoMemory};

/// Whether a job at this stage, with these tries, has a flow next.
fn has_flow_next(tries: &Plan, stage: Option<Stage>) -> bool
    requires { 0 < length tries.now.activities }
    ensures { result ≡ has_flow_next tries.now stage }
{
    match stage {
        Some(found) => match found {
            Stage::Aside { .. } => true,
            Stage::Waiting => match tries.activities.as_slice()[0] {
                Kind::Nested => true,
                Kind::Service => false,
            },
            Stage::Out { .. } => false,
            Stage::Idle { .. } => false,
            Stage::Nested { .. } => false,
            Stage::Settled => false,
        },
        None => false,
    }
}

impl OpenRun {
    /// Opens the flow of the first job that goes on, where it has one next.
    pub(crate) fn open_first(&mut self) -> Result<bool, NoMemory>
        requires { (gives : Giving) × StandsOpen gives self.old × IsQuietRun gives self.old }
        ensures settled { IfOk result (λ b. (gives : Giving) → StandsOpen gives self.old
            → IsQuietRun gives self.old
            → SettlesTo gives self.old self.new b) }
        ensures refused { OnErr result ((gives : Giving) → StandsOpen gives self.old
            → StaysAs gives self.old self.new) }
    {
        let first = self.first_going(Seeking::All);
        match first {
            Some(job) => self.open_next(job),
            None => Ok(false),
        }
    }

    /// Opens the flow of the first job that goes on, where it has one next.
    fn open_next(&mut self, job: u64) -> Result<bool, NoMemory>
        requires { (gives : Giving) × GoesOnFirst gives self.old job }
        ensures settled { IfOk result (λ b. (gives : Giving) → GoesOnFirst gives self.old job
            → SettlesTo gives self.old self.new b) }
        ensures refused { OnErr result ((gives : Giving) → StandsOpen gives self.old
            → StaysAs gives self.old self.new) }
    {
        if !has_flow_next(self.tries_at(job), self.stage_of(job)) {
            return Ok(false);
        }
        self.open_flow(job)?;
        Ok(true)
    }

    /// Opens the flow of the first job that goes on, where it has one next, or else hands out its next try.
    pub(crate) fn open_or_hand_out(&mut self) -> Result<Moved, NoMemory>
        requires { (gives : Giving) × StandsOpen gives self.old × IsQuietRun gives self.old }
        ensures moved { IfOk result (λ m. (gives : Giving) → StandsOpen gives self.old
            → IsQuietRun gives self.old
            → MovesTo gives self.old self.new m) }
        ensures refused { OnErr result ((gives : Giving) → StandsOpen gives self.old
            → StaysAs gives self.old self.new) }
    {
        let first = self.first_going(Seeking::All);
        match first {
            Some(job) => self.open_or_begin(job),
            None => Ok(Moved::Nothing),
        }
    }

    /// Opens the flow of this job, where it has one next, or else hands out its next try.
    fn open_or_begin(&mut self, job: u64) -> Result<Moved, NoMemory>
        requires { (gives : Giving) × GoesOnFirst gives self.old job }
        ensures moved { IfOk result (λ m. (gives : Giving) → GoesOnFirst gives self.old job
            → MovesTo gives self.old self.new m) }
        ensures refused { OnErr result ((gives : Giving) → StandsOpen gives self.old
            → StaysAs gives self.old self.new) }
    {
        if has_flow_next(self.tries_at(job), self.stage_of(job)) {
            self.open_flow(job)?;
            return Ok(Moved::Settled);
        }
        let ticket = self.ticket_of(job);
        self.begin(ticket);
        Ok(Moved::HandedOut(ticket))
    }

    /// Opens the flow of a job that has it next.
    fn open_flow(&mut self, job: u64) -> Result<(), NoMemory>
        requires { (gives : Giving) × OpensFirst gives self.old job }
        ensures settled { OnOk result ((gives : Giving) → OpensFirst gives self.old job
            → SettlesTo gives self.old self.new true) }
        ensures refused { OnErr result ((gives : Giving) → StandsOpen gives self.old
            → StaysAs gives self.old self.new) }
    {
        let Numbered { instance, number } = self.known(job);
        let step = self.step_number(job);
        let Some(flow) = self.flow_opened(instance, step) else {
            unreachable!()
        };
        let inputs = self.inputs_of(job)?;
        self.instances[instance as usize].open[0].reserve_nested(step)?;
        let inner = self.instances.len() as u64;
        self.add_instance(flow, Some(job), inputs)?;
        self.nest(instance, number, inner);
        self.note(Entry::Opened {
            job,
            instance: inner,
        });
        Ok(())
    }

    /// The number of the flow that the jobs of a step open.
    fn flow_opened(&self, instance: u64, step: u32) -> Option<u32>
        requires { (xs : Instances) × (x : Instance) × Fits self.now xs × IsAt xs instance x
            × (step < length x.flow.steps) }
        ensures { (xs : Instances) (x : Instance) (t : Name × Step) → Fits self.now xs
            → IsAt xs instance x
            → slice_get x.flow.steps step ≡ Some t
            → OpensNumber (run_view self.now.run) (opened_flow t.1) result }
    {
        let flow = self.instances[instance as usize].flow;
        self.looks[flow as usize].steps[step as usize].opens
    }

    /// A job runs from now on, and its flow is open as the instance of that number.
    fn nest(&mut self, instance: u64, number: u64, inner: u64)
        requires { (xs : Instances) × (x : Instance) × (v : View)
            × IsOpenHere self.old xs instance x v
            × MayNest x.seats number × WaitsReady v x.seats number
            × HasNestRoom self.old instance number }
        ensures taken { (xs : Instances) (x : Instance) (v : View)
            → IsOpenHere self.old xs instance x v
            → MayNest x.seats number → WaitsReady v x.seats number
            → TakesIn self.old self.new xs instance x v number (ANested inner) }
        ensures due { self.new.due + 1 ≡ self.old.due }
    {
        let plan = self.run.flow(self.instances[instance as usize].flow);
        self.instances[instance as usize].open[0].nest(plan, &self.pool, number, inner);
        self.due -= 1;
    }

    /// Ends an open instance that can end.
    pub(crate) fn end(&mut self, instance: u64) -> Result<bool, NoMemory>
        requires { (gives : Giving) × IsOpenIn gives self.old instance }
        ensures settled { IfOk result (λ b. (gives : Giving) → IsOpenIn gives self.old instance
            → EndsOrNot gives self.old self.new instance b) }
        ensures refused { OnErr result ((gives : Giving) → StandsOpen gives self.old
            → StaysAs gives self.old self.new) }
    {
        if !self.opened(instance).ended() {
            return Ok(false);
        }
        match self.instances[instance as usize].opener {
            Some(job) => self.end_nested(instance, job)?,
            None => self.end_main()?,
        }
        Ok(true)
    }

    /// Ends the main instance: the run is done.
    fn end_main(&mut self) -> Result<(), NoMemory>
        requires { (gives : Giving) × IsOpenIn gives self.old 0 × OfOpen self.old 0 EndsIn }
        ensures ended { OnOk result ((gives : Giving) → IsOpenIn gives self.old 0
            → OfOpen self.old 0 EndsIn
            → SettlesIn gives self.old self.new 0 true) }
        ensures refused { OnErr result ((gives : Giving) → StandsOpen gives self.old
            → StaysAs gives self.old self.new) }
    {
        self.reserve_entries(0)?;
        let ended = self.close(0);
        self.outs = Some(ended);
        self.note(Entry::Ended { instance: 0 });
        Ok(())
    }

    /// Ends an instance that a job opened: what it gives is the job's result.
    fn end_nested(&mut self, instance: u64, job: u64) -> Result<(), NoMemory>
        requires { (gives : Giving) × IsOpenIn gives self.old instance
            × OfOpen self.old instance EndsIn
            × IsOpenerOf self.old instance job }
        ensures ended { OnOk result ((gives : Giving) → IsOpenIn gives self.old instance
            → OfOpen self.old instance EndsIn
            → IsOpenerOf self.old instance job → SettlesIn gives self.old self.new instance true) }
        ensures refused { OnErr result ((gives : Giving) → StandsOpen gives self.old
            → StaysAs gives self.old self.new) }
    {
        let outer = self.known(job);
        let spot = self.room_for_outs(outer.instance, outer.number, instance)?;
        let ended = self.close(instance);
        self.give(outer.instance, outer.number, spot, ended.outs);
        self.note(Entry::Ended { instance });
        Ok(())
    }

    /// Takes all the room that the result of a job of an open instance needs, with its entry, where that is what another gives that
    /// has ended. Answers where it goes.
    fn room_for_outs(&mut self, instance: u64, number: u64, inner: u64) -> Result<Spot, NoMemory>
        requires { (xs : Instances) × (x : Instance) × (v : View) × (s : Seat) × (t : Name × Step)
            × (y : Instance) × (w : View) × GivesTo self.old xs instance x v number s t inner y w }
        ensures same { IsAsBefore self.old self.new }
        ensures ready { IfOk result (λ p. (xs : Instances) (x : Instance) (v : View) (s : Seat)
            (t : Name × Step) (y : Instance) (w : View)
            → GivesTo self.old xs instance x v number s t inner y w
            → (vs : _) × AreOutputs w vs × IsReadyIn self.new instance v s t vs p) }
    {
        let plan = self.run.flow(self.instances[instance as usize].flow);
        // It stands aside while the other is looked at.
        let outer = &mut self.instances[instance as usize];
        let mut slot = mem::replace(&mut outer.open, Vec::new(self.alloc));
        let Some(outs) = self.instances[inner as usize].open[0].outputs() else {
            unreachable!()
        };
        let room = slot[0].room_for_result(self.alloc, plan, &mut self.pool, number, outs);
        self.instances[instance as usize].open = slot;
        let spot = room?;
        self.reserve_in(instance, spot.more)?;
        Ok(spot)
    }

    /// An instance that has ended is open no more, and gives back its region. Takes no memory.
    #[inline(always)]
    fn close(&mut self, instance: u64) -> Ended
        requires { (xs : Instances) × (x : Instance) × (v : View)
            × IsOpenHere self.old xs instance x v × EndsIn x v }
        ensures outputs { (xs : Instances) (x : Instance) (v : View)
            → IsOpenHere self.old xs instance x v → EndsIn x v
            → AreSound result.outs × AreOutputs v (piece_values result.outs) }
        ensures levels { (xs : Instances) (x : Instance) (v : View)
            → IsOpenHere self.old xs instance x v → EndsIn x v
            → AreItsLevels v (map level_view result.levels.items) }
        ensures shut { (xs : Instances) (x : Instance) (v : View)
            → IsOpenHere self.old xs instance x v → EndsIn x v
            → ChangesTo self.old self.new (with_instance xs instance (shut x)) }
        ensures others { (xs : Instances) (x : Instance) (v : View)
            → IsOpenHere self.old xs instance x v → EndsIn x v
            → LeavesOthers self.old self.new instance }
        ensures names { names_of self.new ≡ names_of self.old }
        ensures due { self.new.due ≡ self.old.due }
    {
        let ended = &mut self.instances[instance as usize];
        let mut slot = mem::replace(&mut ended.open, Vec::new(self.alloc));
        let numbers = mem::replace(&mut ended.jobs, Vec::new(self.alloc));
        let (outs, seats, levels) = slot[0].finish(self.alloc, &mut self.pool);
        ended.seats = Some(seats);
        keep(&mut self.leftovers, Leftover { slot, numbers });
        Ended { outs, levels }
    }
}
