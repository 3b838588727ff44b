//! Where a job stands, and what it is called.
ghost use Rattle.std.specs.Prelude.{◌≡◌, ◌<◌, ◌++◌, ◌∷◌, [], IfOk, OnOk, Some, is_some, length, option_map, slice_get};
ghost use Rattle.tv_value.specs.Values.{JobName, Name};
ghost use Rattle.tv_gate.specs.Outcomes.{Giving};
ghost use Rattle.tv_flow.specs.Views.{step_view};
ghost use Rattle.tv_history.specs.Calls.{state_of, try_if_out};
ghost use Rattle.tv_flow.specs.Flows.{Step as TheStep};
ghost use Rattle.tv_seats.specs.Seats.{Seat};
ghost use Rattle.tv_seats.specs.declared.stage.Stage.TheVariants.{Waiting as AWaiting};
ghost use Rattle.tv_instances.specs.Forest.{Instance as AnInstance, Instances, IsAt};
ghost use Rattle.tv_run.specs.Jobs.{is_at, named_step_of, seat_of, stage_of, step_number_of, step_of};
ghost use Rattle.tv_run.specs.Looks.{tries_of};
ghost use Rattle.tv_run.specs.Standing.{Fits, StandsStill, names_of, run_of};

use crate::instances::Numbered;
use crate::run::OpenRun;
use std::alloc::Global;
use tv_dispatch::Plan;
use tv_flow::Step;
use tv_history::{JobState, Ticket};
use tv_seats::Stage;
use tv_value::{Copied, JobName, Name, NoMemory, Place};

/// Whether a job at this stage is out with that try.
fn is_try(stage: Stage, activity: u32, attempt: u32) -> bool
    ensures { result ≡ is_at (Some stage) activity attempt }
{
    match stage {
        Stage::Out {
            activity: last,
            attempt: nth,
        } => last == activity && nth == attempt,
        Stage::Idle { .. } => false,
        Stage::Aside { .. } => false,
        Stage::Nested { .. } => false,
        Stage::Waiting => false,
        Stage::Settled => false,
    }
}

impl OpenRun {
    /// The instance of a job, and its number there; `None` where no job has that number.
    pub(crate) fn numbered(&self, job: u64) -> Option<Numbered>
        ensures { result ≡ slice_get self.now.jobs.items job }
    {
        if job >= self.jobs.len() as u64 {
            return None;
        }
        Some(self.jobs[job as usize])
    }

    /// The same of a known job.
    pub(crate) fn known(&self, job: u64) -> Numbered
        requires { job < length self.now.jobs.items }
        ensures { slice_get self.now.jobs.items job ≡ Some result }
    {
        self.jobs[job as usize]
    }

    /// The step of a known job, by its number in the flow.
    pub(crate) fn step_number(&self, job: u64) -> u32
        requires { (xs : Instances) × Fits self.now xs × (job < length self.now.jobs.items) }
        ensures { step_number_of self.now job ≡ Some result }
    {
        let Numbered { instance, number } = self.known(job);
        self.instances[instance as usize].step(number)
    }

    /// The step of a known job, with its name.
    pub(crate) fn named_step(&self, job: u64) -> &(Name, Step)
        requires { (xs : Instances) × Fits self.now xs × (job < length self.now.jobs.items) }
        ensures { named_step_of self.now job ≡ Some (result.now.0, step_view result.now.1) }
    {
        let step = self.step_number(job);
        let plan = self.plan_of(self.known(job).instance);
        &plan.flow.steps.as_slice()[step as usize]
    }

    /// The step of a known job.
    pub(crate) fn step_at(&self, job: u64) -> &Step
        requires { (xs : Instances) × Fits self.now xs × (job < length self.now.jobs.items) }
        ensures { step_of self.now job ≡ Some (step_view result.now) }
    {
        &self.named_step(job).1
    }

    /// The tries of a step of an instance.
    pub(crate) fn tries_of(&self, instance: u64, step: u32) -> &Plan
        requires { (xs : Instances) × (x : AnInstance) × Fits self.now xs × IsAt xs instance x
            × (step < length x.flow.steps) }
        ensures { (xs : Instances) (x : AnInstance) (s : Name × TheStep) → Fits self.now xs
            → IsAt xs instance x
            → slice_get x.flow.steps step ≡ Some s → result.now ≡ tries_of s.1 }
    {
        let flow = self.instances[instance as usize].flow;
        &self.looks[flow as usize].steps[step as usize].tries
    }

    /// The tries of a known job's step.
    pub(crate) fn tries_at(&self, job: u64) -> &Plan
        requires { (xs : Instances) × Fits self.now xs × (job < length self.now.jobs.items) }
        ensures { option_map tries_of (step_of self.now job) ≡ Some result.now }
    {
        self.tries_of(self.known(job).instance, self.step_number(job))
    }

    /// The name of a job; `None` where no job has that number.
    pub fn name_of(&self, job: u64) -> Result<Option<JobName>, NoMemory>
        requires { (gives : Giving) × StandsStill gives self.now }
        ensures { IfOk result (λ n. n ≡ slice_get (names_of self.now) job) }
    {
        if job >= self.jobs.len() as u64 {
            return Ok(None);
        }
        Ok(Some(self.full_name(self.alloc, job)?))
    }

    /// The name of a known job: that of the job that opened its instance, and then its step and place.
    pub(crate) fn full_name(&self, alloc: Global, job: u64) -> Result<JobName, NoMemory>
        requires { (xs : Instances) × Fits self.now xs × (job < length self.now.jobs.items) }
        ensures { IfOk result (λ n. slice_get (names_of self.now) job ≡ Some n) }
    {
        let mut parts = Vec::new(alloc);
        self.push_name(alloc, &mut parts, job)?;
        Ok(JobName::of(parts))
    }

    fn push_name(
        &self,
        alloc: Global,
        parts: &mut Vec<(Name, Place)>,
        job: u64,
    ) -> Result<(), NoMemory>
        requires { (xs : Instances) × Fits self.now xs × (job < length self.now.jobs.items) }
        ensures { OnOk result ((n : JobName) → slice_get (names_of self.now) job ≡ Some n
            → parts.new.items ≡ parts.old.items ++ n) }
    {
        if let Some(opener) = self.instances[self.known(job).instance as usize].opener {
            self.push_name(alloc, parts, opener)?;
        }
        self.push_spot(alloc, parts, job)
    }

    /// The step and place of a known job behind these.
    fn push_spot(
        &self,
        alloc: Global,
        parts: &mut Vec<(Name, Place)>,
        job: u64,
    ) -> Result<(), NoMemory>
        requires { (xs : Instances) × Fits self.now xs × (job < length self.now.jobs.items) }
        ensures { OnOk result ((s : Seat) (t : Name × TheStep) → seat_of self.now job ≡ Some s
            → named_step_of self.now job ≡ Some t
            → parts.new.items ≡ parts.old.items ++ (t.0, s.place) ∷ []) }
    {
        let Numbered { instance, number } = self.known(job);
        let step = self.named_step(job).0.copy(alloc)?;
        let place = Place::of(alloc, self.instances[instance as usize].place(number))?;
        parts.push((step, place))?;
        Ok(())
    }

    /// Whether a ticket's try is out.
    pub fn is_out(&self, ticket: &Ticket) -> bool
        requires { (gives : Giving) × StandsStill gives self.now }
        ensures stage { result
            ≡ is_at (stage_of self.now ticket.now.job) ticket.now.activity ticket.now.attempt }
        ensures out { (gives : Giving) → StandsStill gives self.now
            → result ≡ is_some (try_if_out gives (run_of self.now) ticket.now) }
    {
        match self.stage_of(ticket.job) {
            Some(stage) => is_try(stage, ticket.activity, ticket.attempt),
            None => false,
        }
    }

    /// At which stage a job is: settled where its instance isn't open any more. `None` where no job has that number.
    pub(crate) fn stage_of(&self, job: u64) -> Option<Stage>
        requires { (xs : Instances) × Fits self.now xs }
        ensures { result ≡ stage_of self.now job }
    {
        match self.numbered(job) {
            Some(found) => match self.instances[found.instance as usize].opened() {
                Some(open) => open.stage(found.number),
                None => Some(Stage::Settled),
            },
            None => None,
        }
    }

    /// Where a job stands.
    pub fn state_of(&self, job: u64) -> JobState
        requires { (gives : Giving) × StandsStill gives self.now }
        ensures { (gives : Giving) → StandsStill gives self.now
            → result ≡ state_of gives (run_of self.now) job }
    {
        match self.stage_of(job) {
            Some(stage) => self.state_at(job, stage),
            None => JobState::Unknown,
        }
    }

    fn state_at(&self, job: u64, stage: Stage) -> JobState
        requires stands { (gives : Giving) × StandsStill gives self.now }
        requires stage { stage_of self.now job ≡ Some stage }
        ensures { (gives : Giving) → StandsStill gives self.now
            → result ≡ state_of gives (run_of self.now) job }
    {
        match stage {
            Stage::Waiting => self.state_waiting(job),
            Stage::Out { activity, attempt } => JobState::Out { activity, attempt },
            Stage::Idle { activity, attempt } => JobState::Idle { activity, attempt },
            Stage::Aside { activity } => JobState::Idle {
                activity,
                attempt: 0,
            },
            Stage::Nested { .. } => JobState::Nested,
            Stage::Settled => JobState::Settled,
        }
    }

    /// Where a known job stands that hasn't begun: it is ready where the steps that it runs after have ended.
    fn state_waiting(&self, job: u64) -> JobState
        requires stands { (gives : Giving) × StandsStill gives self.now }
        requires stage { stage_of self.now job ≡ Some AWaiting }
        ensures { (gives : Giving) → StandsStill gives self.now
            → result ≡ state_of gives (run_of self.now) job }
    {
        let Numbered { instance, number } = self.known(job);
        let open = self.opened(instance);
        if open.may_settle(self.plan_of(instance), &self.pool, open.step(number)) {
            JobState::Ready
        } else {
            JobState::Waiting
        }
    }
}
