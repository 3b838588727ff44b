//! What is asked of the jobs of an open instance.
ghost use Rattle.std.specs.Prelude.{◌≡◌, ◌<◌, [], false, IfOk, IsTrue, Some, length, map, slice_get, List};
ghost use Rattle.tv_value.specs.Values.{Name, Value as AValue};
ghost use Rattle.tv_value.specs.Views.{values_view, view};
ghost use Rattle.tv_flow.specs.Flows.{Document, Step};
ghost use Rattle.tv_cell.specs.PieceValues.{piece_values};
ghost use Rattle.tv_cell.specs.Soundness.{AreSound};
ghost use Rattle.tv_model.specs.instance.Ranks.{ranked};
ghost use Rattle.tv_model.specs.instance.ByResults.{last_first};
ghost use Rattle.tv_model.specs.instance.Counting.{have_ended_by};
ghost use Rattle.tv_frame.specs.Answers.{AreInputs, after_of};
ghost use Rattle.tv_frame.specs.FramingViews.{View};
ghost use Rattle.tv_frame.specs.matches.Steps.{IsStepAt};
ghost use Rattle.tv_frame.specs.Tables.{levels_in};
ghost use Rattle.tv_frame.specs.Views.{level_view};
ghost use Rattle.tv_seats.specs.Seats.{Seat, place_at, seats_out, stage_at, step_at};
ghost use Rattle.tv_forest.specs.seats.Seated.{spot_of};
ghost use Rattle.tv_instances.specs.Standing.{IsOpen};

use crate::open::Open;
use std::alloc::Global;
use tv_cell::Pieces;
use tv_check::FlowPlan;
use tv_frame::Level;
use tv_outputs::Nodes;
use tv_seats::Stage;
use tv_value::{Items, NoMemory, Value};

impl Open {
    /// How many jobs it knows.
    pub fn known(&self) -> u64
        ensures { result ≡ length self.now.seats.seats }
    {
        self.seats.len()
    }

    /// Where a job stands, `None` where none has that number.
    pub fn stage(&self, number: u64) -> Option<Stage>
        ensures { result ≡ stage_at self.now.seats.seats number }
    {
        self.seats.stage(number)
    }

    /// How many jobs are out, of all steps together.
    pub fn out_count(&self) -> u64
        ensures { result ≡ seats_out self.now.seats.seats }
    {
        self.seats.out_count()
    }

    /// The step of a known job.
    pub fn step(&self, number: u64) -> u32
        requires { number < length self.now.seats.seats }
        ensures { result ≡ step_at self.now.seats.seats number }
    {
        self.seats.step(number)
    }

    /// The place of a known job.
    pub fn place(&self, number: u64) -> &[u32]
        requires { number < length self.now.seats.seats }
        ensures { result.now ≡ place_at self.now.seats.seats number }
    {
        self.seats.place(number)
    }

    /// The lists that were closed and the faults that were passed so far. Constant. Takes no memory.
    pub fn levels(&self) -> &[Level]
        ensures { map level_view result.now ≡ self.now.levels.settled }
    {
        self.levels.settled()
    }

    /// Whether the steps have ended that a step runs after.
    pub fn may_settle(&self, plan: &FlowPlan, pool: &Nodes, step: u32) -> bool
        requires { (d : Document) × (v : View)
            × IsOpen d plan.now pool.now self.now v × (step < length v.flow.steps) }
        ensures { (d : Document) (v : View) (s : Name × Step)
            → IsOpen d plan.now pool.now self.now v → IsStepAt v step s
            → result
            ≡ have_ended_by v.events (levels_in v.flow) (last_first (ranked v.flow.steps) [])
            (after_of v s.0) }
    {
        self.frame.may_settle(plan, pool, step)
    }

    /// The values that a known job binds, as pieces, in byte order of the ports. Linear in the ports and the indices of its place, and
    /// in the pieces of lists that it binds.
    pub fn inputs(
        &self,
        alloc: Global,
        plan: &FlowPlan,
        pool: &Nodes,
        number: u64,
    ) -> Result<Pieces, NoMemory>
        requires open { (d : Document) × (v : View) × IsOpen d plan.now pool.now self.now v }
        requires known { number < length self.now.seats.seats }
        ensures sound { IfOk result AreSound }
        ensures values { IfOk result (λ ps. (d : Document) (v : View) (s : Seat)
            → IsOpen d plan.now pool.now self.now v → slice_get self.now.seats.seats number ≡ Some s
            → AreInputs v (spot_of v.flow.steps s) (piece_values ps)) }
    {
        self.frame.inputs(alloc, plan, pool, number)
    }

    /// The values that a known job binds, in byte order of the ports. Linear in them, in the ports and in
    /// the indices of its place. They stand in the memory of `room`, which is empty.
    pub fn values(
        &self,
        alloc: Global,
        plan: &FlowPlan,
        pool: &Nodes,
        number: u64,
        room: Vec<Value>,
    ) -> Result<Items, NoMemory>
        requires room { room.items ≡ [] }
        requires open { (d : Document) × (v : View) × IsOpen d plan.now pool.now self.now v }
        requires known { number < length self.now.seats.seats }
        ensures { IfOk result (λ vs. (d : Document) (v : View) (s : Seat)
            → IsOpen d plan.now pool.now self.now v → slice_get self.now.seats.seats number ≡ Some s
            → AreInputs v (spot_of v.flow.steps s) (values_view vs)) }
    {
        self.frame.values(alloc, plan, pool, number, room)
    }

    /// Whether a known job binds these values. Takes no memory.
    pub fn binds(&self, plan: &FlowPlan, pool: &Nodes, number: u64, values: &[Value]) -> bool
        requires open { (d : Document) × (v : View) × IsOpen d plan.now pool.now self.now v }
        requires known { number < length self.now.seats.seats }
        ensures same { IsTrue result → (d : Document) (v : View) (s : Seat)
            → IsOpen d plan.now pool.now self.now v → slice_get self.now.seats.seats number ≡ Some s
            → AreInputs v (spot_of v.flow.steps s) (map view values.now) }
        ensures other { result ≡ false → (d : Document) (v : View) (s : Seat)
            → IsOpen d plan.now pool.now self.now v → slice_get self.now.seats.seats number ≡ Some s
            → (vs : List AValue) → AreInputs v (spot_of v.flow.steps s) vs
            → map view values.now ≡ vs → ⊥ }
    {
        self.frame.binds(plan, pool, number, values)
    }
}
