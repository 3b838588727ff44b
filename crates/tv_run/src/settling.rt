//! What is settled next: a job bounced, a list closed, a fault passed, an instance ended, or where none of these can be a flow opened.
ghost use Rattle.std.specs.Prelude.{◌≡◌, ◌<◌, ℕ, IfOk, MatchOption, OnErr, OnOk, length, true};
ghost use Rattle.tv_gate.specs.Outcomes.{Giving};
ghost use Rattle.tv_cell.specs.PieceValues.{piece_values};
ghost use Rattle.tv_cell.specs.Soundness.{AreSound};
ghost use Rattle.tv_model.specs.instance.Events.{Event};
ghost use Rattle.tv_instances.specs.FramingViews.{View};
ghost use Rattle.tv_model.specs.Jobs.{Job};
ghost use Rattle.tv_instances.specs.Forest.{Instance, Instances};
ghost use Rattle.tv_instances.specs.Events.{TellsAt};
ghost use Rattle.tv_run.specs.Changes.{IsOpenHere, IsReadyToSettleIn, TellsIn};
ghost use Rattle.tv_run.specs.Rooms.{HasRoomIn};
ghost use Rattle.tv_run.specs.Settlements.{BouncesIn, IsBouncedJob, IsOpenIn, IsReadyToSettleLevel, LeavesLast, NothingBouncesIn, OfOpen, SettlesBusy, SettlesIn, SettlesLast, settled_entry};
ghost use Rattle.tv_run.specs.Standing.{Fits, Stands, StandsOpen};
ghost use Rattle.tv_run.specs.Turns.{MovesTo, SettlesTo, StaysAs};

use crate::bounced_pieces;
use crate::run::OpenRun;
use tv_cell::Pieces;
use tv_frame::Settled;
use tv_history::{Entry, Moved};
use tv_value::{NoMemory, Place};

/// The entry of what was settled in an instance, with its place put here.
fn entry_of(instance: u64, settled: Settled, kept: Box<Place>) -> Entry
    ensures { result ≡ settled_entry instance settled kept }
{
    let mut kept = kept;
    match settled {
        Settled::Closed {
            step,
            place,
            length,
        } => {
            *kept = place;
            Entry::Closed {
                instance,
                step,
                place: kept,
                length,
            }
        }
        Settled::Passed { step, place } => {
            *kept = place;
            Entry::Passed {
                instance,
                step,
                place: kept,
            }
        }
    }
}

impl OpenRun {
    /// Bounces a job that can be, or else closes a list or passes a fault that can be, or else ends an instance that can end, in the
    /// instances in which something happened, the last first; or else opens the flow of the first job that goes on, where it has one
    /// next; `false` where none of these can be.
    pub fn settle_one(&mut self) -> Result<bool, NoMemory>
        requires { (gives : Giving) × StandsOpen gives self.old }
        ensures settled { IfOk result (λ b. (gives : Giving) → StandsOpen gives self.old
            → SettlesTo gives self.old self.new b) }
        ensures refused { OnErr result ((gives : Giving) → StandsOpen gives self.old
            → StaysAs gives self.old self.new) }
    {
        if self.settle_busy()? {
            return Ok(true);
        }
        self.open_first()
    }

    /// Settles one thing as `settle_one` does, or where nothing can be settled hands out the first try on offer. One walk to the
    /// first job that goes on tells both whether its flow is opened and whether its try is handed out.
    pub fn move_on(&mut self) -> Result<Moved, NoMemory>
        requires { (gives : Giving) × StandsOpen gives self.old }
        ensures moved { IfOk result (λ m. (gives : Giving) → StandsOpen gives self.old
            → MovesTo gives self.old self.new m) }
        ensures refused { OnErr result ((gives : Giving) → StandsOpen gives self.old
            → StaysAs gives self.old self.new) }
    {
        if self.settle_busy()? {
            return Ok(Moved::Settled);
        }
        self.open_or_hand_out()
    }

    /// Bounces a job, closes a list, passes a fault or ends an instance; `false` where none of these can be.
    fn settle_busy(&mut self) -> Result<bool, NoMemory>
        requires { (gives : Giving) × StandsOpen gives self.old }
        ensures settled { IfOk result (λ b. (gives : Giving) → StandsOpen gives self.old
            → SettlesBusy gives self.old self.new b) }
        ensures refused { OnErr result ((gives : Giving) → StandsOpen gives self.old
            → StaysAs gives self.old self.new) }
    {
        for _ in 0..self.busy.len() {
            if self.settle_last()? {
                return Ok(true);
            }
            self.leave_last();
        }
        Ok(false)
    }

    /// Settles one thing in the last instance in which something may be settled; `false` where nothing can be.
    fn settle_last(&mut self) -> Result<bool, NoMemory>
        requires { (gives : Giving) × StandsOpen gives self.old × (0 < length self.old.busy.items) }
        ensures settled { IfOk result (λ b. (gives : Giving) → StandsOpen gives self.old
            → SettlesLast gives self.old self.new b) }
        ensures refused { OnErr result ((gives : Giving) → StandsOpen gives self.old
            → StaysAs gives self.old self.new) }
    {
        let last = self.busy[self.busy.len() - 1];
        if self.instances[last as usize].open.is_empty() {
            return Ok(false);
        }
        self.settle_in(last)
    }

    /// Nothing can be settled in the last instance in which something might have been, or it has ended.
    fn leave_last(&mut self)
        requires busy { 0 < length self.old.busy.items }
        requires fits { (xs : Instances) × Fits self.old xs }
        ensures { LeavesLast self.old self.new }
    {
        if let Some(last) = self.busy.pop() {
            self.instances[last as usize].is_busy = false;
        }
    }

    /// Settles one thing in an open instance: a job that can be bounced, the first in job order, before all else.
    fn settle_in(&mut self, instance: u64) -> Result<bool, NoMemory>
        requires { (gives : Giving) × IsOpenIn gives self.old instance }
        ensures settled { IfOk result (λ b. (gives : Giving) → IsOpenIn gives self.old instance
            → SettlesIn gives self.old self.new instance b) }
        ensures refused { OnErr result ((gives : Giving) → StandsOpen gives self.old
            → StaysAs gives self.old self.new) }
    {
        let first = self.first_to_bounce(instance);
        match first {
            Some(number) => {
                self.bounce(instance, number)?;
                Ok(true)
            }
            None => self.settle_or_end(instance),
        }
    }

    /// The first job of an open instance that can be bounced, by its number there.
    fn first_to_bounce(&self, instance: u64) -> Option<u64>
        requires { (xs : Instances) × (x : Instance) × (v : View)
            × IsOpenHere self.now xs instance x v }
        ensures { MatchOption result (OfOpen self.now instance NothingBouncesIn)
            (λ n. OfOpen self.now instance (BouncesIn n)) }
    {
        self.opened(instance)
            .first_to_bounce(self.plan_of(instance), &self.pool)
    }

    fn bounce(&mut self, instance: u64, number: u64) -> Result<(), NoMemory>
        requires { (gives : Giving) × IsOpenIn gives self.old instance
            × OfOpen self.old instance (BouncesIn number) }
        ensures bounced { OnOk result ((gives : Giving) → IsOpenIn gives self.old instance
            → OfOpen self.old instance (BouncesIn number)
            → SettlesIn gives self.old self.new instance true) }
        ensures refused { OnErr result ((gives : Giving) → StandsOpen gives self.old
            → StaysAs gives self.old self.new) }
    {
        let job = self.instances[instance as usize].jobs[number as usize];
        let pieces = self.bounced(job)?;
        let spot = self.room_for_result(instance, number, &pieces)?;
        self.give_bounced(instance, number, spot, pieces);
        self.note(Entry::Bounced { job });
        Ok(())
    }

    /// What a job gives that is bounced.
    fn bounced(&self, job: u64) -> Result<Pieces, NoMemory>
        requires { (gives : Giving) × (xs : Instances) × (j : Job) × Stands gives self.now xs
            × IsBouncedJob gives self.now xs job j }
        ensures sound { IfOk result AreSound }
        ensures values { IfOk result (λ ps. (gives : Giving) (xs : Instances) (j : Job)
            → Stands gives self.now xs
            → IsBouncedJob gives self.now xs job j → piece_values ps ≡ j.result) }
    {
        let inputs = self.inputs_of(job)?;
        let name = self.full_name(self.alloc, job)?;
        let outputs = &self.step_at(job).outputs;
        bounced_pieces(self.alloc, name, inputs.as_slice(), outputs)
    }

    fn settle_or_end(&mut self, instance: u64) -> Result<bool, NoMemory>
        requires { (gives : Giving) × IsOpenIn gives self.old instance
            × OfOpen self.old instance NothingBouncesIn }
        ensures settled { IfOk result (λ b. (gives : Giving) → IsOpenIn gives self.old instance
            → OfOpen self.old instance NothingBouncesIn
            → SettlesIn gives self.old self.new instance b) }
        ensures refused { OnErr result ((gives : Giving) → StandsOpen gives self.old
            → StaysAs gives self.old self.new) }
    {
        let plan = self.run.flow(self.instances[instance as usize].flow);
        let open = &mut self.instances[instance as usize].open[0];
        let room = open.room_for_settle(plan, &mut self.pool)?;
        match room {
            Some(more) => {
                self.settle_level(instance, more)?;
                Ok(true)
            }
            None => self.end(instance),
        }
    }

    /// Settles what an open instance is ready to settle, with which so many jobs become known.
    fn settle_level(&mut self, instance: u64, more: u64) -> Result<(), NoMemory>
        requires { (gives : Giving) × (e : Event)
            × IsReadyToSettleLevel gives self.old instance e more }
        ensures settled { OnOk result ((gives : Giving) (e : Event)
            → IsReadyToSettleLevel gives self.old instance e more
            → SettlesIn gives self.old self.new instance true) }
        ensures refused { OnErr result ((gives : Giving) → StandsOpen gives self.old
            → StaysAs gives self.old self.new) }
    {
        let kept = Box::new(self.alloc, Place::top(self.alloc))?;
        self.reserve_in(instance, more)?;
        let settled = self.told_level(instance);
        self.note(entry_of(instance, settled, kept));
        Ok(())
    }

    /// An open instance settles what it is ready to settle, and what follows is so. Takes no memory.
    fn told_level(&mut self, instance: u64) -> Settled
        requires { (xs : Instances) × (x : Instance) × (v : View) × (e : Event) × (more : ℕ)
            × IsOpenHere self.old xs instance x v × IsReadyToSettleIn self.old instance v e more
            × HasRoomIn self.old instance more }
        ensures { (xs : Instances) (x : Instance) (v : View) (e : Event) (more : ℕ)
            → IsOpenHere self.old xs instance x v → IsReadyToSettleIn self.old instance v e more
            → HasRoomIn self.old instance more
            → TellsIn self.old self.new xs instance x v e more x.seats
            × TellsAt x.flow.steps result e }
    {
        let plan = self.run.flow(self.instances[instance as usize].flow);
        let settled = self.instances[instance as usize].open[0].settle(plan, &mut self.pool);
        self.follow(instance);
        settled
    }
}
