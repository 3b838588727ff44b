//! The instance, its start and its end.
ghost use Rattle.std.specs.Prelude.{◌≡◌, ◌-◌, ◌<◌, ◌≤◌, ◌++◌, ◌∷◌, ℕ, [], true, IfOk, None, OnErr, OnOk, Some, length, map, slice_get, option_map};
ghost use Rattle.tv_value.specs.Nested.{Place};
ghost use Rattle.tv_flow.specs.Flows.{Document};
ghost use Rattle.tv_flow.specs.Views.{flow_view};
ghost use Rattle.tv_pool.specs.Pool.{number_of, regions_with, IsLive};
ghost use Rattle.tv_stream.specs.nodes.Calls.{KeepsRegions};
ghost use Rattle.tv_cell.specs.PieceValues.{piece_values};
ghost use Rattle.tv_cell.specs.Soundness.{AreSound};
ghost use Rattle.tv_check.specs.declared.plans.FlowPlan.{FlowPlan as ThePlan};
ghost use Rattle.tv_outputs.specs.Known.{Nodes as TheNodes};
ghost use Rattle.tv_intake.specs.Intaken.{known_jobs};
ghost use Rattle.tv_frame.specs.Answers.{AreOutputs, has_ended_now};
ghost use Rattle.tv_frame.specs.FramingViews.{View};
ghost use Rattle.tv_frame.specs.turns.FirstReady.{by_falling_rank};
ghost use Rattle.tv_frame.specs.Calls.{CanStart, SameRegions, Starts};
ghost use Rattle.tv_frame.specs.Kept.{AreOuts};
ghost use Rattle.tv_frame.specs.Tables.{AreTables, levels_in};
ghost use Rattle.tv_frame.specs.Views.{level_view};
ghost use Rattle.tv_instances.specs.Levels.{AreItsLevels};
ghost use Rattle.tv_instances.specs.Seating.{AllSit, CanSit, IsKept, seat_for};
ghost use Rattle.tv_instances.specs.Turns.{AreTurns, TakeIn, TakesIn};
ghost use Rattle.tv_instances.specs.Standing.{IsOpen, StartsOpen};

use crate::levels::Levels;
use crate::turns::Turns;
use std::alloc::Global;
use std::mem;
use tv_cell::Pieces;
use tv_check::FlowPlan;
use tv_frame::{FlowTables, Frame, Level};
use tv_outputs::Nodes;
use tv_seats::{Past, Seats};
use tv_value::NoMemory;

/// An open instance of a flow.
#[derive(Drop)]
pub struct Open {
    pub(crate) frame: Frame,
    pub(crate) seats: Seats,
    pub(crate) turns: Turns,
    pub(crate) levels: Levels,
}

/// The jobs that a frame knows and that have no seat sit down, and their steps aren't passed any
/// more. Takes no memory.
#[inline(always)]
pub(crate) fn seat_new(frame: &Frame, seats: &mut Seats, turns: &mut Turns)
    requires keeps { IsKept frame.now }
    requires can { CanSit frame.now seats.old }
    ensures all { AllSit frame.now seats.old seats.new }
    ensures turns { TakeIn turns.old turns.new (length seats.old.seats) seats.new.seats }
{
    for number in seats.len()..frame.known() {
        seat_job(frame, seats, turns, number);
    }
}

fn seat_job(frame: &Frame, seats: &mut Seats, turns: &mut Turns, number: u64)
    requires keeps { IsKept frame.now }
    requires can { CanSit frame.now seats.old }
    requires next { number ≡ length seats.old.seats }
    requires known { number < length (known_jobs frame.now.intakes) }
    ensures turns { (j : ℕ × Place) → slice_get (known_jobs frame.now.intakes) number ≡ Some j
        → TakesIn turns.old turns.new j.0 }
    ensures seats { (j : ℕ × Place) → slice_get (known_jobs frame.now.intakes) number ≡ Some j
        → seats.new.seats ≡ seats.old.seats ++ seat_for j ∷ [] }
    ensures levels { seats.new.levels ≡ seats.old.levels }
    ensures room { seats.new.room ≡ seats.old.room - 1 }
    ensures back_rooms { seats.new.back_rooms ≡ seats.old.back_rooms }
{
    match frame.job(number) {
        Some(job) => {
            let _number = seats.sit(job.step, job.place);
            turns.take_in(job.step);
        }
        None => unreachable!(),
    }
}

impl Open {
    /// Of no instance: memory in which one is started. Takes no memory.
    pub fn unused(alloc: Global, tables: FlowTables) -> Open {
        Open {
            frame: Frame::unused(alloc, tables),
            seats: Seats::none(alloc),
            turns: Turns::new(alloc),
            levels: Levels::new(alloc),
        }
    }

    /// The instance of a plan's flow on its inputs, told nothing, in a region that is new in the pool, in the place and in the
    /// memory of one that has ended, or of none. Takes the flow's tables, which it shares. Linear in the flow and in the
    /// inputs. A refusal leaves the pool's regions as they were.
    pub fn start(
        &mut self,
        alloc: Global,
        plan: &FlowPlan,
        tables: &FlowTables,
        inputs: Pieces,
        pool: &mut Nodes,
    ) -> Result<(), NoMemory>
        requires can { (d : Document) × CanStart d.flows plan.now (piece_values inputs) }
        requires sound { AreSound inputs }
        requires tables { AreTables (flow_view plan.now.flow) tables.now }
        ensures ok { OnOk result ((d : Document)
            → CanStart d.flows plan.now (piece_values inputs)
            → StartsOpen d plan.now (piece_values inputs) pool.new self.new) }
        ensures own { OnOk result (number_of self.new.frame.region ≡ length pool.old.regions) }
        ensures kept { OnOk result (KeepsRegions pool.old pool.new
            (number_of self.new.frame.region)) }
        ensures refused { OnErr result (SameRegions pool.old pool.new) }
    {
        self.seats.start(alloc, tables.levels())?;
        self.levels = Levels::new(alloc);
        self.frame.start(plan, tables, inputs, pool)?;
        match self.seat_first(plan) {
            Ok(()) => Ok(()),
            Err(error) => {
                self.frame.abandon(pool);
                Err(error)
            }
        }
    }

    /// The jobs that its frame knows from its start sit down, and no step is passed.
    fn seat_first(&mut self, plan: &FlowPlan) -> Result<(), NoMemory>
        requires starts { (d : Document) × (values : _) × (pool : TheNodes)
            × Starts d.flows plan.now values pool self.old.frame }
        requires empty { self.old.seats.seats ≡ [] }
        requires levels { self.old.seats.levels
            ≡ map (λ s. levels_in (flow_view plan.now.flow) s.0) (flow_view plan.now.flow).steps }
        requires none { self.old.levels.settled ≡ [] }
        ensures ok { OnOk result ((d : Document) (values : _) (pool : TheNodes)
            → Starts d.flows plan.now values pool self.old.frame
            → StartsOpen d plan.now values pool self.new) }
        ensures frame { self.new.frame ≡ self.old.frame }
    {
        let steps = plan.steps.as_slice().len();
        self.turns.start(steps, self.frame.order())?;
        self.seats.reserve(self.frame.known() as usize)?;
        seat_new(&self.frame, &mut self.seats, &mut self.turns);
        Ok(())
    }

    /// Whether the instance has ended.
    pub fn ended(&self) -> bool
        ensures { (d : Document) (plan : ThePlan) (pool : TheNodes) (v : View)
            → IsOpen d plan pool self.now v → result ≡ has_ended_now (levels_in v.flow) v }
    {
        self.frame.ended()
    }

    /// The flow's outputs, once the instance has ended.
    pub fn outputs(&self) -> Option<&Pieces>
        ensures { (d : Document) (plan : ThePlan) (pool : TheNodes) (v : View)
            → IsOpen d plan pool self.now v
            → AreOuts v (has_ended_now (levels_in v.flow) v) (option_map (λ ps. ps.now) result) }
    {
        self.frame.outputs()
    }

    /// Gives the outputs of an instance that has ended with its jobs' seats and its levels, and releases its region: from then
    /// on it is of no instance. Takes no memory.
    pub fn finish(&mut self, alloc: Global, pool: &mut Nodes) -> (Pieces, Past, Vec<Level>)
        requires ended { (d : Document) × (plan : ThePlan) × (v : View)
            × IsOpen d plan pool.old self.old v × (has_ended_now (levels_in v.flow) v ≡ true) }
        ensures outputs { (d : Document) (plan : ThePlan) (v : View)
            → IsOpen d plan pool.old self.old v
            → AreSound result.0 × AreOutputs v (piece_values result.0) }
        ensures seats { result.1.seats ≡ self.old.seats.seats }
        ensures levels { (d : Document) (plan : ThePlan) (v : View)
            → IsOpen d plan pool.old self.old v
            → AreItsLevels v (map level_view result.2.items) }
        ensures gone { pool.new.regions
            ≡ regions_with pool.old (number_of self.old.frame.region) None }
        ensures spare { pool.old.spare ≤ pool.new.spare }
    {
        let outs = self.frame.finish(pool);
        let seats = self.seats.finish(alloc);
        let levels = mem::replace(&mut self.levels, Levels::new(alloc));
        (outs, seats, levels.finish())
    }

    /// Releases the region of an instance whose opening is refused: from then on it is of no instance. Takes no memory.
    pub fn abandon(&mut self, pool: &mut Nodes)
        requires { IsLive pool.old self.old.frame.region }
        ensures { pool.new.regions ≡ regions_with pool.old (number_of self.old.frame.region) None }
    {
        self.frame.abandon(pool);
    }
}
