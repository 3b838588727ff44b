//! The walk to the first job that goes on.
ghost use Rattle.std.specs.Prelude.{◌≡◌, ◌<◌, ◌+◌, IfSome, Some, false, is_some, length, true};
ghost use Rattle.std.specs.Option.{option_map_or};
ghost use Rattle.tv_gate.specs.Outcomes.{Giving};
ghost use Rattle.tv_instances.specs.FramingViews.{View};
ghost use Rattle.tv_seats.specs.Stages.{is_nested};
ghost use Rattle.tv_seats.specs.Seats.{stage_at};
ghost use Rattle.tv_seats.specs.declared.stage.Stage.TheVariants.{Nested as ANested};
ghost use Rattle.tv_instances.specs.Forest.{Instance, Instances, IsAt};
ghost use Rattle.tv_run.specs.Jobs.{AreInRun};
ghost use Rattle.tv_run.specs.Standing.{Fits, Stands, StandsOpen};
ghost use Rattle.tv_run.specs.Walking.{IsFound, IsFoundBefore, IsFoundInside, IsFoundOf, IsOwn, IsOwnBegun, is_sought};

use crate::run::OpenRun;
use tv_dispatch::{Kind, Plan};
use tv_instances::{Open, Seeking};
use tv_seats::Stage;

/// How deep flows are nested at most, the main one counted.
const LEVELS: u32 = 8;

/// Whether jobs of a step with these tries are sought before they have begun: all are, or those whose first activity is a service.
fn is_sought(tries: &Plan, seeking: Seeking) -> bool
    ensures { result ≡ is_sought tries.now seeking }
{
    if seeking.asides() {
        return true;
    }
    match tries.activities.as_slice().first() {
        Some(Kind::Service) => true,
        Some(Kind::Nested) => false,
        None => false,
    }
}

impl OpenRun {
    /// The first job of the run that goes on, in job order. It enters the open instances that stand before it, in each of which it looks
    /// at the steps that aren't passed. Takes no memory.
    pub(crate) fn first_going(&self, seeking: Seeking) -> Option<u64>
        requires { (gives : Giving) × StandsOpen gives self.now }
        ensures { (gives : Giving) (xs : Instances) → Stands gives self.now xs
            → IsFound gives self.now xs seeking result }
    {
        self.first_in(0, seeking, LEVELS)
    }

    /// The first job inside an open instance that goes on, where flows are nested so deep in it at most.
    #[cycle(walk)]
    fn first_in(&self, instance: u64, seeking: Seeking, levels: u32) -> Option<u64>
        requires { (gives : Giving) × (xs : Instances) × (x : Instance) × (v : View)
            × Stands gives self.now xs × IsAt xs instance x × (x.view ≡ Some v)
            × (length x.name + levels ≡ 8) }
        ensures { (gives : Giving) (xs : Instances) (x : Instance) (v : View)
            → Stands gives self.now xs → IsAt xs instance x → x.view ≡ Some v
            → length x.name + levels ≡ 8
            → IsFoundInside gives self.now xs seeking x result }
    {
        if levels == 0 {
            return None;
        }
        for step in self.opened(instance).going() {
            if let Some(job) = self.first_at(instance, *step, seeking, levels) {
                return Some(job);
            }
        }
        None
    }

    /// The first job of a step, or inside one, that goes on.
    #[cycle(walk)]
    fn first_at(&self, instance: u64, step: u32, seeking: Seeking, levels: u32) -> Option<u64>
        requires { (gives : Giving) × (xs : Instances) × (x : Instance) × (v : View)
            × Stands gives self.now xs × IsAt xs instance x × (x.view ≡ Some v)
            × (length x.name + levels ≡ 8)
            × (step < length x.flow.steps) × (0 < levels) }
        ensures { (gives : Giving) (xs : Instances) (x : Instance) (v : View)
            → Stands gives self.now xs → IsAt xs instance x → x.view ≡ Some v
            → length x.name + levels ≡ 8
            → step < length x.flow.steps
            → IsFoundOf gives self.now xs seeking instance x step result }
    {
        let own = self.first_own(instance, step, seeking);
        match self.first_inside(instance, step, own, seeking, levels) {
            Some(job) => Some(job),
            None => self.in_run(instance, own),
        }
    }

    /// The job of a step that goes on itself, by its number in the instance.
    fn first_own(&self, instance: u64, step: u32, seeking: Seeking) -> Option<u64>
        requires { (gives : Giving) × (xs : Instances) × (x : Instance) × (v : View)
            × Stands gives self.now xs × IsAt xs instance x × (x.view ≡ Some v)
            × (step < length x.flow.steps) }
        ensures own { (gives : Giving) (xs : Instances) (x : Instance) (v : View)
            → Stands gives self.now xs → IsAt xs instance x → x.view ≡ Some v
            → step < length x.flow.steps
            → IsOwn gives self.now xs seeking instance x step result }
        ensures begins { (gives : Giving) (xs : Instances) (x : Instance) (v : View)
            → Stands gives self.now xs → IsAt xs instance x → x.view ≡ Some v
            → step < length x.flow.steps
            → IsOwnBegun gives self.now xs instance x result }
    {
        let begins = is_sought(self.tries_of(instance, step), seeking);
        let plan = self.plan_of(instance);
        self.opened(instance)
            .first_own(plan, &self.pool, step, seeking, begins)
    }

    /// The first job that goes on inside those of a step that have an open instance and stand before this one.
    #[cycle(walk)]
    fn first_inside(
        &self,
        instance: u64,
        step: u32,
        own: Option<u64>,
        seeking: Seeking,
        levels: u32,
    ) -> Option<u64>
        requires { (gives : Giving) × (xs : Instances) × (x : Instance) × (v : View)
            × Stands gives self.now xs × IsAt xs instance x × (x.view ≡ Some v)
            × (length x.name + levels ≡ 8)
            × (step < length x.flow.steps) × (0 < levels)
            × IsOwn gives self.now xs seeking instance x step own }
        ensures { (gives : Giving) (xs : Instances) (x : Instance) (v : View)
            → Stands gives self.now xs → IsAt xs instance x → x.view ≡ Some v
            → length x.name + levels ≡ 8
            → IsOwn gives self.now xs seeking instance x step own
            → IsFoundBefore gives self.now xs seeking instance x step own result }
    {
        let open = self.opened(instance);
        for number in open.nested(step) {
            if !open.is_before(*number as u64, own) {
                return None;
            }
            let inner = opened_by(open, *number as u64);
            if let Some(job) = self.first_in(inner, seeking, levels - 1) {
                return Some(job);
            }
        }
        None
    }

    /// The number in the run of a job of an open instance.
    fn in_run(&self, instance: u64, number: Option<u64>) -> Option<u64>
        requires { (xs : Instances) × (x : Instance) × Fits self.now xs × IsAt xs instance x
            × (is_some x.view ≡ true) × IfSome number (λ n. n < length x.seats) }
        ensures { (xs : Instances) (x : Instance) → Fits self.now xs → IsAt xs instance x
            → AreInRun self.now instance number result }
    {
        match number {
            Some(number) => Some(self.instances[instance as usize].jobs[number as usize]),
            None => None,
        }
    }
}

/// The instance that a job has open.
fn opened_by(open: &Open, number: u64) -> u64
    requires { option_map_or is_nested (stage_at open.now.seats.seats number) false ≡ true }
    ensures { stage_at open.now.seats.seats number ≡ Some (ANested result) }
{
    match open.stage(number) {
        Some(Stage::Nested { instance }) => instance,
        _ => unreachable!(),
    }
}
