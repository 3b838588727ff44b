//! Outcomes that are accepted.
ghost use Rattle.std.specs.Prelude.{◌≡◌, ◌<◌, ◌↔◌, Some, IfErr, IfOk, IsTrue, OnErr, OnOk, false, is_some, length, map, true, ◌+◌, List, [], slice_get, vec_capacity};
ghost use Rattle.tv_value.specs.Activities.{service as a_service};
ghost use Rattle.tv_value.specs.Orders.{same_name};
ghost use Rattle.tv_gate.specs.Outcomes.{Giving, Outcome as TheOutcome};
ghost use Rattle.tv_gate.specs.Views.{outcome_view};
ghost use Rattle.tv_flow.specs.Views.{activity_view};
ghost use Rattle.tv_cell.specs.PieceValues.{piece_values};
ghost use Rattle.tv_cell.specs.Soundness.{AreSound};
ghost use Rattle.tv_run.specs.Accepting.{FailsThen, GoesOnWith, GoesToBut, HasAsideRoom, HasBackRoom, HasEntryRoom, IsAnswerTo, IsOutHere, IsWrongFor, MovesTo, NestsThen, SettlesWith};
ghost use Rattle.tv_history.specs.Answers.{Question, question};
ghost use Rattle.tv_history.specs.Calls.{try_if_out};
ghost use Rattle.tv_history.specs.Refusals.{IsTested, accepts, is_right, is_settled_job};
ghost use Rattle.tv_run.specs.Judging.{ComesTo, is_sound_judged};
ghost use Rattle.tv_run.specs.Standing.{Fits, StandsOpen, StandsStill, names_of, run_of};
ghost use Rattle.tv_run.specs.Turns.{AcceptsTo, IsAsked, StaysAs};
ghost use Rattle.tv_history.specs.declared.told.Accepted.TheVariants.{Again, Settled as SettledAs};
ghost use Rattle.tv_value.specs.Values.{JobName as TheName, Value as AValue};
ghost use Rattle.tv_value.specs.Views.{values_view};
ghost use Rattle.tv_flow.specs.Flows.{Step as TheStep};
ghost use Rattle.tv_dispatch.specs.Jobs.{error_results};
ghost use Rattle.tv_instances.specs.Answers.{AreInputs};
ghost use Rattle.tv_instances.specs.FramingViews.{View};
ghost use Rattle.tv_seats.specs.Seats.{Seat, with_stage};
ghost use Rattle.tv_seats.specs.declared.stage.Stage.TheVariants.{Aside as AnAside, Idle as AnIdle};
ghost use Rattle.tv_instances.specs.seats.Seated.{spot_of};
ghost use Rattle.tv_instances.specs.Entries.{seated, with_instance};
ghost use Rattle.tv_instances.specs.Forest.{Instance, Instances, IsAt};
ghost use Rattle.tv_run.specs.Changes.{IsOpenHere};
ghost use Rattle.tv_run.specs.Jobs.{IsOfOpen, step_of};
ghost use Rattle.tv_run.specs.Rooms.{IsAsBefore};
ghost use Rattle.tv_run.specs.declared.instances.Numbered.{Numbered as TheNumbered};

use crate::instances::Numbered;
use crate::run::OpenRun;
use crate::{Judgment, error_pieces, value_pieces};
use std::alloc::AllocFailed;
use tv_cell::Pieces;
use tv_dispatch::{Next, Verdict, after, judge};
use tv_flow::Activity;
use tv_gate::Outcome;
use tv_history::{Accepted, Entry, Tested, Ticket};
use tv_value::{Copied, Depths, Items, Name, NoMemory, Sequence, Text};

/// Whether two lists of outputs have the same depths, in order.
fn same_depths(first: &[(Name, u32)], second: &[(Name, u32)]) -> bool
    ensures { result ≡ same_name (map (λ o. o.1) first.now) (map (λ o. o.1) second.now) }
{
    if first.len() != second.len() {
        return false;
    }
    for (index, output) in first.iter().enumerate() {
        if output.1 != second[index].1 {
            return false;
        }
    }
    true
}

/// Whether an activity is this service.
fn is_service(activity: &Activity, service: &Name) -> bool
    ensures { IsTrue result ↔ (activity_view activity.now ≡ a_service service.now) }
{
    match activity {
        Activity::Service(name) => *name == *service,
        Activity::Nested(_) => false,
    }
}

fn entry_of(ticket: Ticket, right: bool) -> Entry
    ensures { result ≡ accepts ticket right }
{
    Entry::Accepted {
        job: ticket.job,
        activity: ticket.activity,
        attempt: ticket.attempt,
        right,
    }
}

impl OpenRun {
    /// Whether an answer's try is out, and it is what the try asks. Takes no memory.
    pub fn tested(&self, ticket: Ticket, service: &Name, inputs: &Items, outputs: &Depths) -> Tested
        requires { (gives : Giving) × StandsStill gives self.now }
        ensures { (gives : Giving) → StandsStill gives self.now
            → IsTested gives (run_of self.now)
            (question ticket service.now inputs.now outputs.now) result }
    {
        if !self.is_out(&ticket) {
            return Tested::NotOut(self.state_of(ticket.job));
        }
        if self.asks(ticket, service, inputs, outputs) {
            Tested::Asked
        } else {
            Tested::Other
        }
    }

    /// Whether an answer whose try is out is for its service, its inputs and outputs of its depths.
    fn asks(&self, ticket: Ticket, service: &Name, inputs: &Items, outputs: &Depths) -> bool
        requires { (gives : Giving) × StandsStill gives self.now
            × (is_some (try_if_out gives (run_of self.now) ticket) ≡ true) }
        ensures { (gives : Giving) → StandsStill gives self.now
            → is_some (try_if_out gives (run_of self.now) ticket) ≡ true
            → IsAnswerTo gives (run_of self.now)
            (question ticket service.now inputs.now outputs.now) result }
    {
        let Ticket { job, activity, .. } = ticket;
        let step = self.step_at(job);
        is_service(&step.activities.as_slice()[activity as usize], service)
            && same_depths(outputs.as_slice(), step.outputs.as_slice())
            && self.binds(job, inputs)
    }

    /// Whether a job of an open instance binds these values.
    fn binds(&self, job: u64, inputs: &Items) -> bool
        requires { (xs : Instances) × Fits self.now xs × IsOfOpen self.now job }
        ensures same { IsTrue result
            → (xs : Instances) (n : TheNumbered) (x : Instance) (v : View) (s : Seat)
            → Fits self.now xs → slice_get self.now.jobs.items job ≡ Some n → IsAt xs n.instance x
            → x.view ≡ Some v
            → slice_get x.seats n.number ≡ Some s
            → AreInputs v (spot_of x.flow.steps s) (values_view inputs.now) }
        ensures other { result ≡ false
            → (xs : Instances) (n : TheNumbered) (x : Instance) (v : View) (s : Seat)
            → Fits self.now xs → slice_get self.now.jobs.items job ≡ Some n → IsAt xs n.instance x
            → x.view ≡ Some v
            → slice_get x.seats n.number ≡ Some s → (vs : List AValue)
            → AreInputs v (spot_of x.flow.steps s) vs
            → values_view inputs.now ≡ vs → ⊥ }
    {
        let Numbered { instance, number } = self.known(job);
        let plan = self.plan_of(instance);
        self.opened(instance)
            .binds(plan, &self.pool, number, inputs.as_slice())
    }

    /// Accepts what an outcome of a try that is out comes to. Its pieces are moved and no value is looked at, but where the room for
    /// what follows reads the lengths of lists; a reason is copied. For want of memory it is given back.
    pub fn accept(
        &mut self,
        ticket: Ticket,
        judged: Judgment,
    ) -> Result<Accepted, AllocFailed<Judgment>>
        requires asked { (gives : Giving) × (q : Question) × (o : TheOutcome)
            × StandsOpen gives self.old × IsAsked gives self.old ticket q o × ComesTo q o judged }
        requires sound { is_sound_judged judged ≡ true }
        ensures accepted { IfOk result (λ a. (gives : Giving) (q : Question) (o : TheOutcome)
            → StandsOpen gives self.old → IsAsked gives self.old ticket q o → ComesTo q o judged
            → AcceptsTo gives self.old self.new q o a) }
        ensures refused { OnErr result ((gives : Giving) → StandsOpen gives self.old
            → StaysAs gives self.old self.new) }
        ensures back { IfErr result (λ failed. failed.value ≡ judged) }
    {
        match judged {
            Judgment::Right(pieces) => match self.settle_with(ticket, true, pieces) {
                Ok(()) => Ok(Accepted::Settled { good: true }),
                Err(failed) => Err(AllocFailed {
                    value: Judgment::Right(failed.value),
                }),
            },
            Judgment::Wrong(why) => match self.accept_reason(ticket, &why) {
                Ok(accepted) => Ok(accepted),
                Err(NoMemory) => Err(AllocFailed {
                    value: Judgment::Wrong(why),
                }),
            },
        }
    }

    /// Accepts an outcome that isn't right. Copies the reason.
    fn accept_reason(&mut self, ticket: Ticket, why: &Text) -> Result<Accepted, NoMemory>
        requires { (gives : Giving) × (q : Question) × (o : TheOutcome) × StandsOpen gives self.old
            × IsAsked gives self.old ticket q o × IsWrongFor q o why.now }
        ensures accepted { IfOk result (λ a. (gives : Giving) (q : Question) (o : TheOutcome)
            → StandsOpen gives self.old → IsAsked gives self.old ticket q o
            → IsWrongFor q o why.now
            → AcceptsTo gives self.old self.new q o a) }
        ensures refused { OnErr result ((gives : Giving) → StandsOpen gives self.old
            → StaysAs gives self.old self.new) }
    {
        let own = why.copy(self.alloc)?;
        self.accept_wrong(ticket, own)
    }

    /// Accepts an outcome of a try that is out, by the judgment of it. Its values are moved, not
    /// copied. After `Err` the outcome is gone.
    pub fn accept_own(&mut self, ticket: Ticket, outcome: Outcome) -> Result<Accepted, NoMemory>
        requires { (gives : Giving) × (q : Question) × StandsOpen gives self.old
            × IsAsked gives self.old ticket q (outcome_view outcome) }
        ensures accepted { IfOk result (λ a. (gives : Giving) (q : Question)
            → StandsOpen gives self.old
            → IsAsked gives self.old ticket q (outcome_view outcome)
            → AcceptsTo gives self.old self.new q (outcome_view outcome) a) }
        ensures refused { OnErr result ((gives : Giving) → StandsOpen gives self.old
            → StaysAs gives self.old self.new) }
    {
        let outputs = &self.step_at(ticket.job).outputs;
        match judge(self.alloc, outputs, &outcome)? {
            Verdict::Right => self.accept_right(ticket, outcome),
            Verdict::Wrong(why) => self.accept_wrong(ticket, why),
        }
    }

    fn accept_right(&mut self, ticket: Ticket, outcome: Outcome) -> Result<Accepted, NoMemory>
        requires { (gives : Giving) × (q : Question) × StandsOpen gives self.old
            × IsAsked gives self.old ticket q (outcome_view outcome)
            × (is_right q (outcome_view outcome) ≡ true) }
        ensures accepted { IfOk result (λ a. (gives : Giving) (q : Question)
            → StandsOpen gives self.old → IsAsked gives self.old ticket q (outcome_view outcome)
            → is_right q (outcome_view outcome) ≡ true
            → AcceptsTo gives self.old self.new q (outcome_view outcome) a) }
        ensures refused { OnErr result ((gives : Giving) → StandsOpen gives self.old
            → StaysAs gives self.old self.new) }
    {
        match outcome {
            Outcome::Good(values) => {
                let pieces = value_pieces(self.alloc, values)?;
                self.settle_with(ticket, true, pieces)?;
                Ok(Accepted::Settled { good: true })
            }
            Outcome::Bad(_) => unreachable!(),
        }
    }

    /// The job goes on with its next try, has a flow next, or fails with this reason.
    fn accept_wrong(&mut self, ticket: Ticket, why: Text) -> Result<Accepted, NoMemory>
        requires { (gives : Giving) × (q : Question) × (o : TheOutcome) × StandsOpen gives self.old
            × IsAsked gives self.old ticket q o × IsWrongFor q o why }
        ensures accepted { IfOk result (λ a. (gives : Giving) (q : Question) (o : TheOutcome)
            → StandsOpen gives self.old → IsAsked gives self.old ticket q o → IsWrongFor q o why
            → AcceptsTo gives self.old self.new q o a) }
        ensures refused { OnErr result ((gives : Giving) → StandsOpen gives self.old
            → StaysAs gives self.old self.new) }
    {
        match after(
            self.tries_at(ticket.job),
            ticket.activity,
            ticket.attempt,
            false,
        ) {
            Next::Ask { activity, attempt } => {
                self.try_again(ticket, activity, attempt)?;
                Ok(Accepted::Again)
            }
            Next::Nest { activity } => {
                self.set_aside(ticket, activity)?;
                Ok(Accepted::Again)
            }
            _ => {
                self.fail(ticket, why)?;
                Ok(Accepted::Settled { good: false })
            }
        }
    }

    /// The outcome wasn't right, and this is the job's next try.
    fn try_again(&mut self, ticket: Ticket, activity: u32, attempt: u32) -> Result<(), NoMemory>
        requires { (gives : Giving) × (q : Question) × (o : TheOutcome) × StandsOpen gives self.old
            × IsAsked gives self.old ticket q o × GoesOnWith self.old ticket activity attempt }
        ensures accepted { OnOk result ((gives : Giving) (q : Question) (o : TheOutcome)
            → StandsOpen gives self.old → IsAsked gives self.old ticket q o → is_right q o ≡ false
            → GoesOnWith self.old ticket activity attempt
            → AcceptsTo gives self.old self.new q o Again) }
        ensures refused { OnErr result ((gives : Giving) → StandsOpen gives self.old
            → StaysAs gives self.old self.new) }
    {
        let Numbered { instance, number } = self.known(ticket.job);
        self.room_to_put_back(instance, self.step_number(ticket.job))?;
        self.put_back(instance, number, activity, attempt);
        self.note(entry_of(ticket, false));
        Ok(())
    }

    /// The outcome wasn't right, and the job has the flow of this activity next.
    fn set_aside(&mut self, ticket: Ticket, activity: u32) -> Result<(), NoMemory>
        requires { (gives : Giving) × (q : Question) × (o : TheOutcome) × StandsOpen gives self.old
            × IsAsked gives self.old ticket q o × NestsThen self.old ticket activity }
        ensures accepted { OnOk result ((gives : Giving) (q : Question) (o : TheOutcome)
            → StandsOpen gives self.old → IsAsked gives self.old ticket q o → is_right q o ≡ false
            → NestsThen self.old ticket activity → AcceptsTo gives self.old self.new q o Again) }
        ensures refused { OnErr result ((gives : Giving) → StandsOpen gives self.old
            → StaysAs gives self.old self.new) }
    {
        let Numbered { instance, number } = self.known(ticket.job);
        self.room_to_put_aside(instance, self.step_number(ticket.job))?;
        self.put_aside(instance, number, activity);
        self.note(entry_of(ticket, false));
        Ok(())
    }

    /// Takes the room for a job of a step of an open instance to be idle again.
    fn room_to_put_back(&mut self, instance: u64, step: u32) -> Result<(), NoMemory>
        requires { (xs : Instances) × (x : Instance) × (v : View)
            × IsOpenHere self.old xs instance x v
            × (step < length x.flow.steps) }
        ensures same { IsAsBefore self.old self.new }
        ensures rooms { OnOk result (HasBackRoom self.new instance step × HasEntryRoom self.new) }
    {
        self.instances[instance as usize].open[0].reserve_back(step)?;
        self.reserve_entries(1)
    }

    /// A job that is out is idle from now on, with this try as its next. Takes no memory.
    fn put_back(&mut self, instance: u64, number: u64, activity: u32, attempt: u32)
        requires may { (xs : Instances) × (x : Instance) × (v : View) × (s : Seat)
            × IsOutHere self.old xs instance x v number s
            × HasBackRoom self.old instance s.step }
        requires due { self.old.due < vec_capacity self.old.entries }
        ensures moved { (xs : Instances) (x : Instance) (v : View) (s : Seat)
            → IsOutHere self.old xs instance x v number s
            → MovesTo self.old self.new
            (with_instance xs instance
            (seated x (with_stage number (AnIdle activity attempt) x.seats))) }
        ensures due { self.new.due ≡ self.old.due + 1 }
    {
        self.instances[instance as usize].open[0].put_back(number, activity, attempt);
        self.due += 1;
    }

    /// Takes the room for a job of a step of an open instance to be put aside.
    fn room_to_put_aside(&mut self, instance: u64, step: u32) -> Result<(), NoMemory>
        requires { (xs : Instances) × (x : Instance) × (v : View)
            × IsOpenHere self.old xs instance x v
            × (step < length x.flow.steps) }
        ensures same { IsAsBefore self.old self.new }
        ensures rooms { OnOk result (HasAsideRoom self.new instance step × HasEntryRoom self.new) }
    {
        self.instances[instance as usize].open[0].reserve_aside(step)?;
        self.reserve_entries(1)
    }

    /// A job that is out has the flow of this activity next. Takes no memory.
    fn put_aside(&mut self, instance: u64, number: u64, activity: u32)
        requires may { (xs : Instances) × (x : Instance) × (v : View) × (s : Seat)
            × IsOutHere self.old xs instance x v number s
            × HasAsideRoom self.old instance s.step }
        requires due { self.old.due < vec_capacity self.old.entries }
        ensures moved { (xs : Instances) (x : Instance) (v : View) (s : Seat)
            → IsOutHere self.old xs instance x v number s
            → MovesTo self.old self.new
            (with_instance xs instance
            (seated x (with_stage number (AnAside activity) x.seats))) }
        ensures due { self.new.due ≡ self.old.due + 1 }
    {
        self.instances[instance as usize].open[0].set_aside(number, activity);
        self.due += 1;
    }

    /// The job fails with this reason.
    fn fail(&mut self, ticket: Ticket, why: Text) -> Result<(), NoMemory>
        requires { (gives : Giving) × (q : Question) × (o : TheOutcome) × StandsOpen gives self.old
            × IsAsked gives self.old ticket q o × IsWrongFor q o why × FailsThen self.old ticket }
        ensures accepted { OnOk result ((gives : Giving) (q : Question) (o : TheOutcome)
            → StandsOpen gives self.old → IsAsked gives self.old ticket q o → IsWrongFor q o why
            → FailsThen self.old ticket → AcceptsTo gives self.old self.new q o (SettledAs false)) }
        ensures refused { OnErr result ((gives : Giving) → StandsOpen gives self.old
            → StaysAs gives self.old self.new) }
    {
        let pieces = self.failed_with(ticket.job, why)?;
        self.settle_with(ticket, false, pieces)?;
        self.failed += 1;
        Ok(())
    }

    /// What a job gives that fails with this reason.
    fn failed_with(&self, job: u64, why: Text) -> Result<Pieces, NoMemory>
        requires { (gives : Giving) × StandsOpen gives self.now
            × (job < length self.now.jobs.items) }
        ensures sound { IfOk result AreSound }
        ensures values { IfOk result (λ ps. (n : TheName) (s : TheStep)
            → slice_get (names_of self.now) job ≡ Some n
            → step_of self.now job ≡ Some s
            → piece_values ps ≡ error_results n why [] (map (λ o. o.1) s.outputs)) }
    {
        let name = self.full_name(self.alloc, job)?;
        let none = Sequence::empty(self.alloc);
        error_pieces(self.alloc, name, why, none, &self.step_at(job).outputs)
    }

    /// The job is settled with these. For want of memory they are given back.
    #[inline(always)]
    fn settle_with(
        &mut self,
        ticket: Ticket,
        right: bool,
        pieces: Pieces,
    ) -> Result<(), AllocFailed<Pieces>>
        requires settles { (gives : Giving) × StandsOpen gives self.old
            × SettlesWith gives self.old ticket right (piece_values pieces) }
        requires sound { AreSound pieces }
        ensures settled { OnOk result ((gives : Giving) → StandsOpen gives self.old
            → SettlesWith gives self.old ticket right (piece_values pieces)
            → GoesToBut gives self.old self.new (accepts ticket right) right) }
        ensures done { OnOk result ((gives : Giving) → StandsOpen gives self.old
            → SettlesWith gives self.old ticket right (piece_values pieces)
            → is_settled_job gives (run_of self.new) ticket.job ≡ true) }
        ensures refused { OnErr result ((gives : Giving) → StandsOpen gives self.old
            → StaysAs gives self.old self.new) }
        ensures back { IfErr result (λ failed. failed.value ≡ pieces) }
    {
        let Numbered { instance, number } = self.known(ticket.job);
        match self.room_for_result(instance, number, &pieces) {
            Ok(spot) => {
                self.give(instance, number, spot, pieces);
                self.note(entry_of(ticket, right));
                Ok(())
            }
            Err(NoMemory) => Err(AllocFailed { value: pieces }),
        }
    }
}
