//! Handing out tries, and taking them back.
ghost use Rattle.std.specs.Prelude.{◌≡◌, ◌<◌, ◌+◌, None, Some, IfOk, IsOk, OnErr, OnOk, length};
ghost use Rattle.tv_gate.specs.Outcomes.{Giving};
ghost use Rattle.tv_instances.specs.FramingViews.{View};
ghost use Rattle.tv_seats.specs.Firsts.{MayGoOut};
ghost use Rattle.tv_seats.specs.declared.stage.Stage.TheVariants.{Out as AnOut};
ghost use Rattle.tv_instances.specs.Events.{WaitsReady};
ghost use Rattle.tv_instances.specs.Forest.{Instance, Instances};
ghost use Rattle.tv_history.specs.Calls.{out_now};
ghost use Rattle.tv_run.specs.Changes.{IsOpenHere, TakesIn};
ghost use Rattle.tv_run.specs.Rooms.{IsAsBefore};
ghost use Rattle.tv_run.specs.Standing.{Stands, StandsOpen, run_of};
ghost use Rattle.tv_run.specs.Turns.{HandsOut, RecallsTo, StaysAs};
ghost use Rattle.tv_run.specs.Recalling.{AllCalledBack, HasRoomForAll, HasRoomsIn, IsCalledBackIn, OtherRoomsIn, out_in};
ghost use Rattle.tv_run.specs.Walking.{IsHandable, IsOnOffer, IsTicketOf, WaitsIn};

use crate::instances::Numbered;
use crate::run::OpenRun;
use tv_dispatch::{Next, begin};
use tv_history::{Entry, Ticket};
use tv_instances::Seeking;
use tv_seats::Stage;
use tv_value::NoMemory;

impl OpenRun {
    /// Hands out the first try on offer. Takes no memory.
    pub fn hand_out(&mut self) -> Option<Ticket>
        requires { (gives : Giving) × StandsOpen gives self.old }
        ensures { (gives : Giving) → StandsOpen gives self.old
            → HandsOut gives self.old self.new result }
    {
        match self.first_going(Seeking::Offers) {
            Some(job) => {
                let ticket = self.ticket_of(job);
                self.begin(ticket);
                Some(ticket)
            }
            None => None,
        }
    }

    /// The ticket of a job's next try, which is on offer.
    pub(crate) fn ticket_of(&self, job: u64) -> Ticket
        requires { (gives : Giving) × (xs : Instances) × Stands gives self.now xs
            × IsOnOffer gives self.now xs job }
        ensures { (gives : Giving) (xs : Instances) → Stands gives self.now xs
            → IsOnOffer gives self.now xs job
            → IsTicketOf gives self.now xs job result }
    {
        let Some(stage) = self.stage_of(job) else {
            unreachable!()
        };
        match stage {
            Stage::Idle { activity, attempt } => Ticket {
                job,
                activity,
                attempt,
            },
            Stage::Waiting => self.first_ticket(job),
            _ => unreachable!(),
        }
    }

    /// The ticket of a job's first try.
    fn first_ticket(&self, job: u64) -> Ticket
        requires { (gives : Giving) × (xs : Instances) × Stands gives self.now xs
            × IsOnOffer gives self.now xs job
            × WaitsIn self.now job }
        ensures { (gives : Giving) (xs : Instances) → Stands gives self.now xs
            → IsOnOffer gives self.now xs job
            → WaitsIn self.now job → IsTicketOf gives self.now xs job result }
    {
        match begin(self.tries_at(job), false) {
            Next::Ask { activity, attempt } => Ticket {
                job,
                activity,
                attempt,
            },
            _ => unreachable!(),
        }
    }

    /// The try is out from now on.
    pub(crate) fn begin(&mut self, ticket: Ticket)
        requires { (gives : Giving) × (xs : Instances) × Stands gives self.old xs
            × (self.old.outs ≡ None)
            × IsHandable gives self.old xs ticket }
        ensures { (gives : Giving) (xs : Instances) → Stands gives self.old xs
            → self.old.outs ≡ None
            → IsHandable gives self.old xs ticket → HandsOut gives self.old self.new (Some ticket) }
    {
        let Ticket {
            job,
            activity,
            attempt,
        } = ticket;
        let Numbered { instance, number } = self.known(job);
        self.take_out(instance, number, activity, attempt);
        self.note(Entry::HandedOut {
            job,
            activity,
            attempt,
        });
    }

    /// A try of a job of an open instance is out.
    fn take_out(&mut self, instance: u64, number: u64, activity: u32, attempt: u32)
        requires { (xs : Instances) × (x : Instance) × (v : View)
            × IsOpenHere self.old xs instance x v
            × MayGoOut x.seats number × WaitsReady v x.seats number }
        ensures taken { (xs : Instances) (x : Instance) (v : View)
            → IsOpenHere self.old xs instance x v
            → MayGoOut x.seats number → WaitsReady v x.seats number
            → TakesIn self.old self.new xs instance x v number (AnOut activity attempt) }
        ensures due { self.new.due + 1 ≡ self.old.due }
    {
        let plan = self.run.flow(self.instances[instance as usize].flow);
        self.instances[instance as usize].open[0].hand_out(
            plan, &self.pool, number, activity, attempt,
        );
        self.due -= 1;
    }

    /// Takes back all tries that are out, and tells how many. Linear in the instances, and in the jobs and steps of the open ones.
    pub fn recall_all(&mut self) -> Result<u64, NoMemory>
        requires { (gives : Giving) × StandsOpen gives self.old }
        ensures recalled { IfOk result (λ n. (gives : Giving) → StandsOpen gives self.old
            → RecallsTo gives self.old self.new n) }
        ensures refused { OnErr result ((gives : Giving) → StandsOpen gives self.old
            → StaysAs gives self.old self.new) }
        ensures quiet { (gives : Giving) → StandsOpen gives self.old
            → out_now gives (run_of self.old) ≡ 0 → IsOk result }
    {
        let count = self.out_count();
        if count == 0 {
            return Ok(0);
        }
        self.reserve_all_back()?;
        self.reserve_entries(count)?;
        self.put_all_back();
        self.due += count as usize;
        self.note(Entry::Recalled { count });
        Ok(count)
    }

    /// How many tries are out.
    fn out_count(&self) -> u64
        requires { (gives : Giving) × (xs : Instances) × Stands gives self.now xs }
        ensures { result ≡ out_in self.now.instances.items }
    {
        let mut count = 0;
        for instance in self.instances.as_slice() {
            if let Some(open) = instance.opened() {
                count += open.out_count();
            }
        }
        count
    }

    /// Takes the room for all jobs that are out to be idle again.
    fn reserve_all_back(&mut self) -> Result<(), NoMemory>
        ensures same { IsAsBefore self.old self.new }
        ensures rooms { OnOk result (HasRoomForAll self.new) }
    {
        for at in 0..self.instances.len() {
            self.reserve_back_in(at)?;
        }
        Ok(())
    }

    fn reserve_back_in(&mut self, at: usize) -> Result<(), NoMemory>
        requires { at < length self.old.instances.items }
        ensures same { OtherRoomsIn self.old self.new at }
        ensures rooms { OnOk result (HasRoomsIn self.new at) }
    {
        if self.instances[at].open.is_empty() {
            return Ok(());
        }
        self.instances[at].open[0].reserve_all_back()
    }

    /// Each job that is out is idle from now on, with the same try as its next.
    fn put_all_back(&mut self)
        requires { HasRoomForAll self.old }
        ensures back { AllCalledBack self.old self.new }
    {
        for at in 0..self.instances.len() {
            self.put_back_in(at);
        }
    }

    fn put_back_in(&mut self, at: usize)
        requires there { at < length self.old.instances.items }
        requires rooms { HasRoomsIn self.old at }
        ensures { IsCalledBackIn self.old self.new at }
    {
        if !self.instances[at].open.is_empty() {
            let _count = self.instances[at].open[0].put_all_back();
        }
    }
}
