//! The first job of an open instance that goes on, or that can be bounced.
ghost use Rattle.std.specs.Prelude.{◌≡◌, ◌<◌, ℕ, IfSome, false, length};
ghost use Rattle.tv_flow.specs.Flows.{Document};
ghost use Rattle.tv_flow.specs.Views.{flow_view};
ghost use Rattle.tv_frame.specs.FramingViews.{View};
ghost use Rattle.tv_seats.specs.Nested.{AreNested};
ghost use Rattle.tv_instances.specs.Firsts.{IsFirstFaulty, IsFirstOwn, IsFirstToBegin, asides, lesser_of, stands_before, step_limit};
ghost use Rattle.tv_instances.specs.Standing.{IsOpen};

use crate::open::Open;
use tv_check::FlowPlan;
use tv_outputs::Nodes;

/// Which of the jobs that go on are sought: those with a service next, or those with a flow next too.
#[derive(Clone, Copy, Debug, PartialEq, Eq)]
pub enum Seeking {
    Offers,
    All,
}

impl Seeking {
    /// Whether jobs that were put aside are sought.
    pub fn asides(self) -> bool
        ensures { result ≡ asides self }
    {
        match self {
            Seeking::Offers => false,
            Seeking::All => true,
        }
    }
}

impl Open {
    /// The first job that can be bounced, in job order. Constant where no idle job binds a fault, else
    /// linear in the steps that aren't passed, up to its own.
    pub fn first_to_bounce(&self, plan: &FlowPlan, pool: &Nodes) -> Option<u64>
        requires { (d : Document) × (v : View) × IsOpen d plan.now pool.now self.now v }
        ensures { (d : Document) (v : View) → IsOpen d plan.now pool.now self.now v
            → IsFirstFaulty v self.now.seats.seats result }
    {
        if !self.frame.has_faulty() {
            return None;
        }
        for step in self.going() {
            if let Some(job) = self.frame.first_faulty(plan, pool, *step) {
                return Some(job);
            }
        }
        None
    }

    /// The job of a step with the least place that goes on itself: an idle one; where those with a flow next are sought, one that was
    /// put aside; and where a job of the step may begin, one that is ready and good, as long as fewer run than may.
    pub fn first_own(
        &self,
        plan: &FlowPlan,
        pool: &Nodes,
        step: u32,
        seeking: Seeking,
        begins: bool,
    ) -> Option<u64>
        requires { (d : Document) × (v : View)
            × IsOpen d plan.now pool.now self.now v × (step < length v.flow.steps) }
        ensures { (d : Document) (v : View) → IsOpen d plan.now pool.now self.now v
            → IsFirstOwn v self.now.seats.seats (step_limit (flow_view plan.now.flow) step)
            (asides seeking) begins step result }
    {
        let begun = self.first_begun(step, seeking);
        if !begins {
            return begun;
        }
        self.lesser(begun, self.first_to_begin(plan, pool, step))
    }

    /// The job of a step with the least place that is idle, or was put aside where such jobs are sought.
    fn first_begun(&self, step: u32, seeking: Seeking) -> Option<u64>
        requires { step < length self.now.seats.levels }
        ensures { (v : View) (limit : ℕ)
            → IsFirstOwn v self.now.seats.seats limit (asides seeking) false step result }
    {
        let idle = self.seats.first_idle(step);
        if !seeking.asides() {
            return idle;
        }
        self.lesser(idle, self.seats.first_aside(step))
    }

    /// The first job of a step that is ready and good, where fewer run than may.
    fn first_to_begin(&self, plan: &FlowPlan, pool: &Nodes, step: u32) -> Option<u64>
        requires { (d : Document) × (v : View)
            × IsOpen d plan.now pool.now self.now v × (step < length v.flow.steps) }
        ensures { (d : Document) (v : View) → IsOpen d plan.now pool.now self.now v
            → IsFirstToBegin v self.now.seats.seats (step_limit (flow_view plan.now.flow) step) step
            result }
    {
        let limit = plan.flow.steps.as_slice()[step as usize].1.jobs;
        if self.seats.running(step) >= limit {
            return None;
        }
        self.frame.first_good(plan, pool, step)
    }

    /// Of two jobs of a step the one whose place is the lesser.
    fn lesser(&self, first: Option<u64>, second: Option<u64>) -> Option<u64>
        requires first { IfSome first (λ n. n < length self.now.seats.seats) }
        requires second { IfSome second (λ n. n < length self.now.seats.seats) }
        ensures { result ≡ lesser_of self.now.seats.seats first second }
    {
        match second {
            Some(number) => {
                if self.is_before(number, first) {
                    second
                } else {
                    first
                }
            }
            None => first,
        }
    }

    /// Whether a job stands before another of its step, or there is no other.
    pub fn is_before(&self, number: u64, other: Option<u64>) -> bool
        requires known { number < length self.now.seats.seats }
        requires other { IfSome other (λ m. m < length self.now.seats.seats) }
        ensures { result ≡ stands_before self.now.seats.seats number other }
    {
        match other {
            Some(other) => self.place(number) < self.place(other),
            None => true,
        }
    }

    /// The jobs of a step whose flow is open, in order of place.
    pub fn nested(&self, step: u32) -> &[u32]
        requires { step < length self.now.seats.levels }
        ensures { AreNested self.now.seats.seats step result.now }
    {
        self.seats.nested(step)
    }
}
