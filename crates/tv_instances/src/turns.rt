//! Which steps are looked at, that of the greatest rank first.
ghost use Rattle.std.specs.Prelude.{◌≡◌, ◌<◌, ℕ, IfOk, OnOk, IsTrue, Some, length, slice_get};
ghost use Rattle.tv_flow.specs.Flows.{Document};
ghost use Rattle.tv_check.specs.declared.plans.FlowPlan.{FlowPlan as ThePlan};
ghost use Rattle.tv_outputs.specs.Known.{Nodes as TheNodes};
ghost use Rattle.tv_frame.specs.FramingViews.{View};
ghost use Rattle.tv_instances.specs.Turns.{AreRestarted, AreTurns, TakesIn, turn_of};
ghost use Rattle.tv_instances.specs.Quiet.{AreGoing, AreQuiet, IsQuietStep};
ghost use Rattle.tv_instances.specs.Standing.{IsOpen, IsSome};

use crate::open::Open;
use std::alloc::Global;
use tv_value::NoMemory;

/// Where each step of a flow stands in the order of falling rank, and how many of the first are
/// passed: those are quiet.
///
/// A step is quiet as long as each of its jobs is out or has its result: none goes on, and none can
/// be bounced. A step that is taken in isn't passed any more, nor are those behind it, until a job
/// behind them is taken. In a chain whose jobs are taken in order one step is passed anew for each
/// job at the most.
#[derive(Drop)]
pub(crate) struct Turns {
    // For each step its position in the order.
    positions: Vec<usize>,
    pub(crate) from: usize,
}

impl Turns {
    /// Of no step. Takes no memory.
    pub(crate) fn new(alloc: Global) -> Turns {
        Turns {
            positions: Vec::new(alloc),
            from: 0,
        }
    }

    /// None is passed, in place of what stood here and in its memory. Linear in the steps.
    pub(crate) fn start(&mut self, steps: usize, order: &[u32]) -> Result<(), NoMemory>
        requires { (i k : ℕ) → slice_get order.now i ≡ Some k → k < steps }
        ensures turns { OnOk result (AreTurns order.now self.new.positions.items) }
        ensures none { OnOk result (self.new.from ≡ 0) }
    {
        self.positions.clear();
        self.positions.resize(steps, 0)?;
        for done in 0..order.len() {
            let at = order.len() - 1 - done;
            self.positions[order[at] as usize] = at;
        }
        self.restart();
        Ok(())
    }

    /// This step is not passed from now on. Constant.
    pub(crate) fn take_in(&mut self, step: u32)
        ensures { TakesIn self.old self.new step }
    {
        let position = self.position(step);
        if position < self.from {
            self.from = position;
        }
    }

    /// The position of a step in the order.
    fn position(&self, step: u32) -> usize
        ensures { result ≡ turn_of self.now.positions.items step }
    {
        match self.positions.get(step as usize) {
            Some(position) => *position,
            None => 0,
        }
    }

    /// None is passed from now on.
    pub(crate) fn restart(&mut self)
        ensures { AreRestarted self.old self.new }
    {
        self.from = 0;
    }
}

impl Open {
    /// The steps of its flow by number, that of the greatest rank first, without those that are
    /// passed. Constant.
    pub fn going(&self) -> &[u32]
        requires { IsSome self.now }
        ensures { (d : Document) (plan : ThePlan) (pool : TheNodes) (v : View)
            → IsOpen d plan pool self.now v → AreGoing v self.now.seats.seats result.now }
    {
        let (_quiet, going) = self.frame.order().split_at(self.turns.from);
        going
    }

    /// Passes the steps in front that are quiet, up to this one. Linear in those that it passes.
    #[inline(always)]
    pub(crate) fn pass_quiet(&mut self, step: u32)
        requires { IsSome self.old }
        ensures open { (d : Document) (plan : ThePlan) (pool : TheNodes) (v : View)
            → IsOpen d plan pool self.old v → IsOpen d plan pool self.new v }
        ensures frame { self.new.frame ≡ self.old.frame }
        ensures seats { self.new.seats ≡ self.old.seats }
    {
        let until = self.turns.position(step);
        self.turns.from = self.first_going(until);
    }

    /// The position of the first step, of those that aren't passed, that isn't quiet or stands there.
    fn first_going(&self, until: usize) -> usize
        requires { IsSome self.now }
        ensures { (d : Document) (plan : ThePlan) (pool : TheNodes) (v : View)
            → IsOpen d plan pool self.now v
            → AreQuiet v self.now.seats.seats self.now.turns.positions.items result }
    {
        let order = self.frame.order();
        for position in self.turns.from..order.len() {
            if position == until || !self.is_quiet(order[position]) {
                return position;
            }
        }
        order.len()
    }

    /// Whether no job of a step goes on, or could once the steps that it runs after have ended.
    fn is_quiet(&self, step: u32) -> bool
        requires { (d : Document) × (plan : ThePlan) × (pool : TheNodes) × (v : View)
            × IsOpen d plan pool self.now v × (step < length v.flow.steps) }
        ensures { IsTrue result → (d : Document) (plan : ThePlan) (pool : TheNodes) (v : View)
            → IsOpen d plan pool self.now v → IsQuietStep v self.now.seats.seats step }
    {
        if self.frame.has_idle(step) || !self.seats.nested(step).is_empty() {
            return false;
        }
        self.seats.first_idle(step).is_none() && self.seats.first_aside(step).is_none()
    }
}
