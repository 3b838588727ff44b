//! A job taken, opened, given its result or bounced, a list closed or a fault passed.
ghost use Rattle.std.specs.Option.{option_map_or};
ghost use Rattle.std.specs.Prelude.{◌≡◌, ◌<◌, ℕ, IfOk, IfSome, IsNone, Some, false, slice_get};
ghost use Rattle.tv_value.specs.Values.{Name};
ghost use Rattle.tv_flow.specs.Flows.{Document, Step};
ghost use Rattle.tv_pool.specs.Pool.{number_of};
ghost use Rattle.tv_stream.specs.nodes.Calls.{KeepsRegions};
ghost use Rattle.tv_cell.specs.PieceValues.{piece_values};
ghost use Rattle.tv_cell.specs.Soundness.{AreSound};
ghost use Rattle.tv_model.specs.instance.Events.{Event, gave};
ghost use Rattle.tv_frame.specs.Answers.{NothingSettles};
ghost use Rattle.tv_frame.specs.FramingViews.{View};
ghost use Rattle.tv_frame.specs.Prepared.{MayGive};
ghost use Rattle.tv_seats.specs.Firsts.{MayGoOut, MayNest};
ghost use Rattle.tv_seats.specs.Seats.{Seat, room_at, step_at, with_stage};
ghost use Rattle.tv_seats.specs.Stages.{is_waiting};
ghost use Rattle.tv_seats.specs.declared.stage.Stage.TheVariants.{Nested as ANested, Out as AnOut, Settled as ASettled};
ghost use Rattle.tv_instances.specs.Events.{IsReadyToGive, IsReadyToSettleAt, IsTaken, IsTold, IsToldTaken, MayBeBounced, MayBeGiven, TellsAt, WaitsReady};
ghost use Rattle.tv_instances.specs.Standing.{IsOpen};

use crate::open::{Open, seat_new};
use std::alloc::Global;
use tv_cell::Pieces;
use tv_check::FlowPlan;
use tv_frame::Settled;
use tv_outputs::Nodes;
use tv_seats::Stage;
use tv_value::{NoMemory, Place};

/// Where a result goes, and how many jobs become known with it.
#[derive(Drop)]
pub struct Spot {
    pub step: u32,
    pub place: Place,
    pub more: u64,
}

/// Whether a job at this stage waits.
fn waits(stage: Option<Stage>) -> bool
    ensures { result ≡ option_map_or is_waiting stage false }
{
    match stage {
        Some(found) => match found {
            Stage::Waiting => true,
            Stage::Out { .. } => false,
            Stage::Idle { .. } => false,
            Stage::Aside { .. } => false,
            Stage::Nested { .. } => false,
            Stage::Settled => false,
        },
        None => false,
    }
}

impl Open {
    /// A try of a job goes out: of a waiting one, which is ready, the frame is told that it is taken. Takes no memory. Linear in the
    /// steps that are passed then.
    pub fn hand_out(
        &mut self,
        plan: &FlowPlan,
        pool: &Nodes,
        number: u64,
        activity: u32,
        attempt: u32,
    )
        requires { (d : Document) × (v : View) × IsOpen d plan.now pool.now self.old v
            × MayGoOut self.old.seats.seats number × WaitsReady v self.old.seats.seats number }
        ensures taken { (d : Document) (v : View) → IsOpen d plan.now pool.now self.old v
            → WaitsReady v self.old.seats.seats number
            → IsTaken d plan.now pool.now self.old self.new v number (AnOut activity attempt) }
        ensures region { self.new.frame.region ≡ self.old.frame.region }
    {
        let step = self.seats.step(number);
        self.take(plan, pool, number);
        self.seats.hand_out(number, activity, attempt);
        self.pass_quiet(step);
    }

    /// The flow of a job is open from now on, as this instance: the job waits, and is ready, or is the first of its step that was put
    /// aside. Takes no memory. Linear in the step's open flows, and in the steps that are passed
    /// then.
    pub fn nest(&mut self, plan: &FlowPlan, pool: &Nodes, number: u64, instance: u64)
        requires may { (d : Document) × (v : View) × IsOpen d plan.now pool.now self.old v
            × MayNest self.old.seats.seats number × WaitsReady v self.old.seats.seats number }
        requires room { 0 < room_at self.old.seats.nested_rooms
            (step_at self.old.seats.seats number) }
        ensures taken { (d : Document) (v : View) → IsOpen d plan.now pool.now self.old v
            → WaitsReady v self.old.seats.seats number
            → IsTaken d plan.now pool.now self.old self.new v number (ANested instance) }
        ensures region { self.new.frame.region ≡ self.old.frame.region }
    {
        let step = self.seats.step(number);
        self.take(plan, pool, number);
        self.turns.take_in(step);
        self.seats.nest(number, instance);
        self.pass_quiet(step);
    }

    /// Of a waiting job the frame is told that it is taken.
    #[inline(always)]
    fn take(&mut self, plan: &FlowPlan, pool: &Nodes, number: u64)
        requires { (d : Document) × (v : View) × IsOpen d plan.now pool.now self.old v
            × WaitsReady v self.old.seats.seats number }
        ensures taken { (d : Document) (v : View) → IsOpen d plan.now pool.now self.old v
            → WaitsReady v self.old.seats.seats number
            → IsToldTaken d plan.now pool.now self.old self.new v number }
        ensures seats { self.new.seats ≡ self.old.seats }
        ensures region { self.new.frame.region ≡ self.old.frame.region }
    {
        if waits(self.seats.stage(number)) {
            self.frame.take(plan, pool, number);
        }
    }

    /// Takes all the room that a job's result needs. Answers where it goes. Linear in the pieces and in what becomes known with them.
    #[inline(always)]
    pub fn room_for_result(
        &mut self,
        alloc: Global,
        plan: &FlowPlan,
        pool: &mut Nodes,
        number: u64,
        pieces: &Pieces,
    ) -> Result<Spot, NoMemory>
        requires may { (d : Document) × (v : View) × (s : Seat) × (t : Name × Step)
            × IsOpen d plan.now pool.old self.old v
            × (slice_get self.old.seats.seats number ≡ Some s)
            × (slice_get v.flow.steps s.step ≡ Some t)
            × MayGive v t s.place (piece_values pieces.now) }
        requires sound { AreSound pieces.now }
        ensures same { (d : Document) (v : View)
            → IsOpen d plan.now pool.old self.old v → IsOpen d plan.now pool.new self.new v }
        ensures seats { self.new.seats.seats ≡ self.old.seats.seats }
        ensures regions { pool.new.regions ≡ pool.old.regions }
        ensures region { self.new.frame.region ≡ self.old.frame.region }
        ensures ready { IfOk result (λ x. (d : Document) (v : View) (s : Seat) (t : Name × Step)
            → IsOpen d plan.now pool.old self.old v → slice_get self.old.seats.seats number ≡ Some s
            → slice_get v.flow.steps s.step ≡ Some t
            → MayGive v t s.place (piece_values pieces.now)
            → IsReadyToGive d plan.now pool.new self.new v s t (piece_values pieces.now) x) }
    {
        let Some(found) = self.frame.job(number) else {
            unreachable!()
        };
        let step = found.step;
        let place = Place::of(alloc, found.place)?;
        let more = self
            .frame
            .room_for_result(plan, pool, step, &place, pieces)?;
        self.seats.reserve(more as usize)?;
        Ok(Spot { step, place, more })
    }

    /// A job that runs is settled with these. Takes no memory.
    #[inline(always)]
    pub fn give(
        &mut self,
        plan: &FlowPlan,
        pool: &mut Nodes,
        number: u64,
        spot: Spot,
        pieces: Pieces,
    )
        requires may { (d : Document) × (v : View) × (s : Seat) × (t : Name × Step)
            × MayBeGiven d plan.now pool.old self.old v number s t (piece_values pieces) spot }
        requires sound { AreSound pieces }
        ensures told { (d : Document) (v : View) (s : Seat) (t : Name × Step)
            → MayBeGiven d plan.now pool.old self.old v number s t (piece_values pieces) spot
            → IsTold d plan.now pool.new self.new v
            (gave t.0 s.place (piece_values pieces)) spot.more
            (with_stage number ASettled self.old.seats.seats) }
        ensures regions { KeepsRegions pool.old pool.new (number_of self.old.frame.region) }
        ensures region { self.new.frame.region ≡ self.old.frame.region }
    {
        self.frame
            .result(plan, pool, spot.step, &spot.place, pieces);
        self.seats.settle(number);
        seat_new(&self.frame, &mut self.seats, &mut self.turns);
    }

    /// A job that waits, and is ready, is settled with these: it is bounced. Takes no memory. Linear in the steps that are passed
    /// then, besides what its result costs.
    pub fn bounce(
        &mut self,
        plan: &FlowPlan,
        pool: &mut Nodes,
        number: u64,
        spot: Spot,
        pieces: Pieces,
    )
        requires may { (d : Document) × (v : View) × (s : Seat) × (t : Name × Step)
            × MayBeBounced d plan.now pool.old self.old v number s t (piece_values pieces) spot }
        requires sound { AreSound pieces }
        ensures told { (d : Document) (v : View) (s : Seat) (t : Name × Step)
            → MayBeBounced d plan.now pool.old self.old v number s t (piece_values pieces) spot
            → IsTold d plan.now pool.new self.new v
            (gave t.0 s.place (piece_values pieces)) spot.more
            (with_stage number ASettled self.old.seats.seats) }
        ensures regions { KeepsRegions pool.old pool.new (number_of self.old.frame.region) }
        ensures region { self.new.frame.region ≡ self.old.frame.region }
    {
        self.frame
            .bounce(plan, pool, number, spot.step, &spot.place, pieces);
        self.seats.settle(number);
        seat_new(&self.frame, &mut self.seats, &mut self.turns);
        self.pass_quiet(spot.step);
    }

    /// Takes the room for settling a list or a fault, and tells how many jobs become known with it; `None` where none can be settled.
    pub fn room_for_settle(
        &mut self,
        plan: &FlowPlan,
        pool: &mut Nodes,
    ) -> Result<Option<u64>, NoMemory>
        requires { (d : Document) × (v : View) × IsOpen d plan.now pool.old self.old v }
        ensures same { (d : Document) (v : View)
            → IsOpen d plan.now pool.old self.old v → IsOpen d plan.now pool.new self.new v }
        ensures seats { self.new.seats.seats ≡ self.old.seats.seats }
        ensures regions { pool.new.regions ≡ pool.old.regions }
        ensures region { self.new.frame.region ≡ self.old.frame.region }
        ensures none { IfOk result (λ r. IsNone r → (d : Document) (v : View)
            → IsOpen d plan.now pool.old self.old v → NothingSettles v) }
        ensures some { IfOk result (λ r. IfSome r (λ more. (d : Document) (v : View)
            → IsOpen d plan.now pool.old self.old v
            → (e : Event) × IsReadyToSettleAt d plan.now pool.new self.new v e more)) }
    {
        match self.frame.room_for_settle(plan, pool)? {
            Some(more) => {
                let level = self.frame.last_level()?;
                self.levels.set_next(level)?;
                self.seats.reserve(more as usize)?;
                Ok(Some(more))
            }
            None => Ok(None),
        }
    }

    /// Settles the list or fault for which room was taken. Takes no memory.
    pub fn settle(&mut self, plan: &FlowPlan, pool: &mut Nodes) -> Settled
        requires { (d : Document) × (v : View) × (e : Event) × (more : ℕ)
            × IsReadyToSettleAt d plan.now pool.old self.old v e more }
        ensures told { (d : Document) (v : View) (e : Event) (more : ℕ)
            → IsReadyToSettleAt d plan.now pool.old self.old v e more
            → IsTold d plan.now pool.new self.new v e more self.old.seats.seats
            × TellsAt v.flow.steps result e }
        ensures regions { KeepsRegions pool.old pool.new (number_of self.old.frame.region) }
        ensures region { self.new.frame.region ≡ self.old.frame.region }
    {
        let settled = self.frame.settle(plan, pool);
        self.levels.settle();
        seat_new(&self.frame, &mut self.seats, &mut self.turns);
        settled
    }
}
