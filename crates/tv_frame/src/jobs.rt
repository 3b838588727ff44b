//! Known jobs: which are ready, and what they bind.
ghost use Rattle.std.specs.Prelude.{◌≡◌, false, true, ◌<◌, ◌≤◌, ◌^◌, ℕ, List, [], None, Some, IfOk, IfSome, IsNone, IsTrue, length, map, option_map, slice_get};
ghost use Rattle.tv_value.specs.Values.{Name, Value as AValue};
ghost use Rattle.tv_value.specs.Views.{values_view, view};
ghost use Rattle.tv_flow.specs.Flows.{Flow, Step};
ghost use Rattle.tv_model.specs.instance.Ranks.{ranked};
ghost use Rattle.tv_cell.specs.PieceValues.{piece_values};
ghost use Rattle.tv_cell.specs.Soundness.{AreSound};
ghost use Rattle.tv_value.specs.Nested.{Place};
ghost use Rattle.tv_check.specs.declared.plans.FlowPlan.{FlowPlan};
ghost use Rattle.tv_outputs.specs.Known.{Nodes};
ghost use Rattle.tv_intake.specs.Intaken.{known_jobs};
ghost use Rattle.tv_spread.specs.Spreads.{is_faulty_now};
ghost use Rattle.tv_model.specs.instance.ByResults.{last_first};
ghost use Rattle.tv_model.specs.instance.Counting.{have_ended_by};
ghost use Rattle.tv_model.specs.instance.Events.{Event as TheEvent, took};
ghost use Rattle.tv_framing.specs.Answers.{AreInputs, IsReadyJob, after_of, numbered};
ghost use Rattle.tv_framing.specs.Frames.{with_event};
ghost use Rattle.tv_framing.specs.Views.{View};
ghost use Rattle.tv_framing.specs.matches.Steps.{IsStepAt};
ghost use Rattle.tv_framing.specs.turns.FirstReady.{IsFirstReady};
ghost use Rattle.tv_telling.specs.endings.Turns.{first_in_turn, may_settle};
ghost use Rattle.tv_frame.specs.Calls.{HoldsError, IsJob};
ghost use Rattle.tv_frame.specs.Kept.{Keeps, named_job};
ghost use Rattle.tv_frame.specs.Prepared.{IsReadyFor};
ghost use Rattle.tv_frame.specs.Ready.{HasIdle, HasIdleWith, IsFirstOfStep};
ghost use Rattle.tv_frame.specs.StepPorts.{ArePortsOf};
ghost use Rattle.tv_frame.specs.Tables.{levels_in};

use crate::frame::Frame;
use std::alloc::Global;
use tv_binding::{StepPorts, job_binds, job_inputs, job_values};
use tv_cell::Pieces;
use tv_check::FlowPlan;
use tv_outputs::Nodes;
use tv_telling::first_ready;
use tv_value::{Items, NoMemory, Value};

/// A known job of an instance.
#[derive(Clone, Copy, Debug)]
pub struct FrameJob<'a> {
    /// The number of its step.
    pub step: u32,
    /// Its place in the step's iteration.
    pub place: &'a [u32],
    /// Whether a value that it binds is a fault or holds one.
    pub holds_error: bool,
}

impl Frame {
    /// How many jobs are known.
    pub fn known(&self) -> u64
        ensures { result ≡ length (known_jobs self.now.intakes) }
    {
        self.intakes.known() as u64
    }

    /// A known job by its number, `None` where none has it.
    pub fn job(&self, number: u64) -> Option<FrameJob>
        requires { (plan : FlowPlan) × (pool : Nodes) × (flows : List (Name × Flow)) × (v : View)
            × Keeps flows plan pool self.now v }
        ensures none { IsNone result → length (known_jobs self.now.intakes) ≤ number }
        ensures some { IfSome result (λ j. slice_get (known_jobs self.now.intakes) number
            ≡ Some (j.step, j.place.now)) }
        ensures error { IfSome result (λ j. (plan : FlowPlan) (pool : Nodes)
            (flows : List (Name × Flow)) (v : View)
            → Keeps flows plan pool self.now v
            → HoldsError v (named_job v.flow (j.step, j.place.now)) j.holds_error) }
        ensures stands { IfSome result (λ j. (plan : FlowPlan) (pool : Nodes)
            (flows : List (Name × Flow)) (v : View)
            → Keeps flows plan pool self.now v → IsJob v (named_job v.flow (j.step, j.place.now))) }
    {
        if number >= self.intakes.known() as u64 {
            return None;
        }
        let (step, place, holds_error) = self.intakes.job(number as usize);
        Some(FrameJob {
            step,
            place,
            holds_error,
        })
    }

    /// The job runs from now on. What a room call made the frame ready for, it stays ready for. Takes no memory. Amortized a
    /// logarithm in the idle jobs of its step.
    pub fn take(&mut self, plan: &FlowPlan, pool: &Nodes, number: u64)
        requires ready { (flows : List (Name × Flow)) × (v : View) × (j : Name × Place)
            × Keeps flows plan.now pool.now self.old v × (numbered v number ≡ Some j)
            × IsReadyJob (levels_in v.flow) v j }
        ensures kept { (flows : List (Name × Flow)) (v : View) (j : Name × Place)
            → Keeps flows plan.now pool.now self.old v → numbered v number ≡ Some j
            → IsReadyJob (levels_in v.flow) v j
            → Keeps flows plan.now pool.now self.new (with_event v (took j.0 j.1) []) }
        ensures stays { (flows : List (Name × Flow)) (v : View) (j : Name × Place)
            (n : ℕ) (s : Name × Step) (e : TheEvent)
            → IsReadyFor flows plan.now pool.now self.old v n s e
            → numbered v number ≡ Some j → IsReadyJob (levels_in v.flow) v j
            → IsReadyFor flows plan.now pool.now self.new (with_event v (took j.0 j.1) []) n s e }
        ensures region { self.new.region ≡ self.old.region }
    {
        let (step, _, _) = self.intakes.job(number as usize);
        // Fewer than 2^32 are known, so the number is below that.
        let _known = self.idle.known();
        self.idle.remove(step, number as u32);
    }

    /// The first ready job in job order, of those that stand after the given one: of the greatest rank, then with the least place.
    /// Linear in the steps, and in the jobs of `after`'s step that have gone or came out of order.
    pub fn first_ready(&self, plan: &FlowPlan, pool: &Nodes, after: Option<u64>) -> Option<u64>
        requires keeps { (flows : List (Name × Flow)) × (v : View)
            × Keeps flows plan.now pool.now self.now v }
        requires known { IfSome after (λ n. n < length (known_jobs self.now.intakes)) }
        ensures first { (flows : List (Name × Flow)) (v : View)
            → Keeps flows plan.now pool.now self.now v
            → IsFirstReady (levels_in v.flow) v after result }
        ensures few { IfSome result (λ n. n < 2 ^ 32) }
    {
        match after {
            Some(number) => {
                let (step, place, _) = self.intakes.job(number as usize);
                self.first_in_turn(plan, pool, Some((step, place)))
            }
            None => self.first_in_turn(plan, pool, None),
        }
    }

    /// The first job in turn, of those that stand after a place of a step where one is given.
    fn first_in_turn(
        &self,
        plan: &FlowPlan,
        pool: &Nodes,
        after: Option<(u32, &[u32])>,
    ) -> Option<u64>
        requires { (flows : List (Name × Flow)) × (v : View)
            × Keeps flows plan.now pool.now self.now v }
        ensures turn { result
            ≡ first_in_turn (may_settle plan.now.wiring self.now.endings) self.now.idle.steps
            self.now.tables.order.items (option_map (λ a. (a.0, a.1.now)) after.entry) }
        ensures few { IfSome result (λ n. n < 2 ^ 32) }
    {
        let order = self.tables.order();
        match first_ready(&self.idle, &self.endings, &plan.wiring, order, after) {
            Some(number) => Some(number as u64),
            None => None,
        }
    }

    /// Whether a step's jobs may settle: the steps that it runs after have ended.
    pub fn may_settle(&self, plan: &FlowPlan, pool: &Nodes, step: u32) -> bool
        requires { (flows : List (Name × Flow)) × (v : View)
            × Keeps flows plan.now pool.now self.now v × (step < length v.flow.steps) }
        ensures { (flows : List (Name × Flow)) (v : View) (s : Name × Step)
            → Keeps flows plan.now pool.now self.now v → IsStepAt v step s
            → result
            ≡ have_ended_by v.events (levels_in v.flow) (last_first (ranked v.flow.steps) [])
            (after_of v s.0) }
    {
        self.endings.may_settle(&plan.wiring, step)
    }

    /// Whether some known job of a step neither runs nor has a result.
    pub fn has_idle(&self, step: u32) -> bool
        requires { (plan : FlowPlan) × (pool : Nodes) × (flows : List (Name × Flow)) × (v : View)
            × Keeps flows plan pool self.now v × (step < length v.flow.steps) }
        ensures { (plan : FlowPlan) (pool : Nodes) (flows : List (Name × Flow)) (v : View)
            (s : Name × Step)
            → Keeps flows plan pool self.now v → IsStepAt v step s → HasIdle v s.0 result }
    {
        self.idle.has_idle(step)
    }

    /// Whether some step has an idle job that binds a fault: where none has, no step has a ready one. Constant.
    pub fn has_faulty(&self) -> bool
        ensures none { result ≡ false
            → (flows : List (Name × Flow)) (plan : FlowPlan) (pool : Nodes)
            (v : View) (n : ℕ) (s : Name × Step)
            → Keeps flows plan pool self.now v → IsStepAt v n s
            → IsFirstOfStep (levels_in v.flow) v (λ q. is_faulty_now self.now.intakes (n, q)) s.0
            true None }
        ensures some { result ≡ true → (flows : List (Name × Flow)) (plan : FlowPlan) (pool : Nodes)
            (v : View)
            → Keeps flows plan pool self.now v → HasIdleWith v (is_faulty_now self.now.intakes) }
    {
        self.idle.has_faulty()
    }

    /// The first ready job of a step, in order of place, of those that bind no fault.
    pub fn first_good(&self, plan: &FlowPlan, pool: &Nodes, step: u32) -> Option<u64>
        requires { (flows : List (Name × Flow)) × (v : View)
            × Keeps flows plan.now pool.now self.now v × (step < length v.flow.steps) }
        ensures first { (flows : List (Name × Flow)) (v : View) (s : Name × Step)
            → Keeps flows plan.now pool.now self.now v → IsStepAt v step s
            → IsFirstOfStep (levels_in v.flow) v (λ q. is_faulty_now self.now.intakes (step, q)) s.0
            false result }
        ensures binds { (flows : List (Name × Flow)) (v : View) (s : Name × Step)
            → Keeps flows plan.now pool.now self.now v → IsStepAt v step s
            → IfSome result (λ n. (j : Name × Place) → numbered v n ≡ Some j
            → HoldsError v j false) }
        ensures few { IfSome result (λ n. n < 2 ^ 32) }
    {
        if !self.may_settle(plan, pool, step) {
            return None;
        }
        match self.idle.first_good(step) {
            Some(number) => Some(number as u64),
            None => None,
        }
    }

    /// The first ready job of a step, in order of place, of those that bind a fault.
    pub fn first_faulty(&self, plan: &FlowPlan, pool: &Nodes, step: u32) -> Option<u64>
        requires { (flows : List (Name × Flow)) × (v : View)
            × Keeps flows plan.now pool.now self.now v × (step < length v.flow.steps) }
        ensures first { (flows : List (Name × Flow)) (v : View) (s : Name × Step)
            → Keeps flows plan.now pool.now self.now v → IsStepAt v step s
            → IsFirstOfStep (levels_in v.flow) v (λ q. is_faulty_now self.now.intakes (step, q)) s.0
            true result }
        ensures binds { (flows : List (Name × Flow)) (v : View) (s : Name × Step)
            → Keeps flows plan.now pool.now self.now v → IsStepAt v step s
            → IfSome result (λ n. (j : Name × Place) → numbered v n ≡ Some j
            → HoldsError v j true) }
        ensures few { IfSome result (λ n. n < 2 ^ 32) }
    {
        if !self.may_settle(plan, pool, step) {
            return None;
        }
        match self.idle.first_faulty(step) {
            Some(number) => Some(number as u64),
            None => None,
        }
    }

    /// What a known job binds, port by port in byte order of their names. Linear in the ports, with a walk to each one's part of
    /// the place, and in the parts of the lists that are bound; no value is copied.
    pub fn inputs(
        &self,
        alloc: Global,
        plan: &FlowPlan,
        pool: &Nodes,
        number: u64,
    ) -> Result<Pieces, NoMemory>
        requires keeps { (flows : List (Name × Flow)) × (v : View)
            × Keeps flows plan.now pool.now self.now v }
        requires known { number < length (known_jobs self.now.intakes) }
        ensures sound { IfOk result AreSound }
        ensures values { IfOk result (λ ps. (flows : List (Name × Flow)) (v : View)
            (j : Name × Place)
            → Keeps flows plan.now pool.now self.now v → numbered v number ≡ Some j
            → AreInputs v j (piece_values ps)) }
    {
        let (step, place, _) = self.intakes.job(number as usize);
        let ports = ports_at(plan, step as usize);
        let starts = self.tables.read().starts[step as usize].as_slice();
        let sources = self.sources(pool);
        let constants = self.tables.constants();
        job_inputs(alloc, &sources, constants, &ports, starts, place)
    }

    /// The values of what a known job binds, port by port in byte order of their names. Linear in them
    /// and in the ports, with a walk to each one's part of the place. They stand in the memory of `room`,
    /// which is empty.
    pub fn values(
        &self,
        alloc: Global,
        plan: &FlowPlan,
        pool: &Nodes,
        number: u64,
        room: Vec<Value>,
    ) -> Result<Items, NoMemory>
        requires room { room.items ≡ [] }
        requires keeps { (flows : List (Name × Flow)) × (v : View)
            × Keeps flows plan.now pool.now self.now v }
        requires known { number < length (known_jobs self.now.intakes) }
        ensures { IfOk result (λ vs. (flows : List (Name × Flow)) (v : View)
            (j : Name × Place)
            → Keeps flows plan.now pool.now self.now v → numbered v number ≡ Some j
            → AreInputs v j (values_view vs)) }
    {
        let (step, place, _) = self.intakes.job(number as usize);
        let ports = ports_at(plan, step as usize);
        let starts = self.tables.read().starts[step as usize].as_slice();
        let sources = self.sources(pool);
        let constants = self.tables.constants();
        job_values(alloc, &sources, constants, &ports, starts, place, room)
    }

    /// Whether a known job binds these values, port by port in byte order of their names. Takes no memory. Linear in the ports,
    /// with a walk for each, and in what the values have in common.
    pub fn binds(&self, plan: &FlowPlan, pool: &Nodes, number: u64, values: &[Value]) -> bool
        requires keeps { (flows : List (Name × Flow)) × (v : View)
            × Keeps flows plan.now pool.now self.now v }
        requires known { number < length (known_jobs self.now.intakes) }
        ensures same { IsTrue result → (flows : List (Name × Flow)) (v : View) (j : Name × Place)
            → Keeps flows plan.now pool.now self.now v → numbered v number ≡ Some j
            → AreInputs v j (map view values.now) }
        ensures other { result ≡ false → (flows : List (Name × Flow)) (v : View) (j : Name × Place)
            → Keeps flows plan.now pool.now self.now v → numbered v number ≡ Some j
            → (vs : List AValue) → AreInputs v j vs → map view values.now ≡ vs → ⊥ }
    {
        let (step, place, _) = self.intakes.job(number as usize);
        let ports = ports_at(plan, step as usize);
        let starts = self.tables.read().starts[step as usize].as_slice();
        let sources = self.sources(pool);
        let constants = self.tables.constants();
        job_binds(&sources, constants, &ports, starts, place, values)
    }
}

/// What a plan says of a step, for the search for what its jobs bind. The cost is constant.
fn ports_at<'a>(plan: &'a FlowPlan, number: usize) -> StepPorts<'a>
    requires { number < length plan.now.flow.steps }
    ensures { ArePortsOf plan.now number result }
{
    let described = &plan.flow.steps.as_slice()[number].1;
    let planned = &plan.steps.as_slice()[number];
    StepPorts {
        number,
        tree: &planned.tree,
        mismatch: &planned.mismatch,
        inputs: described.inputs.as_slice(),
        delivered: planned.delivered.as_slice(),
        ports: plan.wiring.ports.as_slice()[number].as_slice(),
    }
}
