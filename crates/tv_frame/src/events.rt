//! The second half of an event: it is shown, with the room that was taken.
ghost use Rattle.std.specs.Prelude.{◌≡◌, ◌≤◌, ℕ, List, length, true};
ghost use Rattle.tv_value.specs.Values.{Name};
ghost use Rattle.tv_flow.specs.Flows.{Flow, Step};
ghost use Rattle.tv_pool.specs.Pool.{IsLive, number_of};
ghost use Rattle.tv_stream.specs.nodes.Calls.{KeepsRegions};
ghost use Rattle.tv_cell.specs.PieceValues.{piece_values};
ghost use Rattle.tv_cell.specs.Soundness.{AreSound};
ghost use Rattle.tv_outputs.specs.Known.{depths, known, needed};
ghost use Rattle.tv_outputs.specs.Kept.{Stand};
ghost use Rattle.tv_outputs.specs.Changes.{AllCanArrive, AreMarked, Arrive};
ghost use Rattle.tv_intake.specs.Intaken.{AreIntaken};
ghost use Rattle.tv_spread.specs.Spreads.{CanShowAll};
ghost use Rattle.tv_model.specs.instance.Events.{Event as TheEvent, gave, is_taken};
ghost use Rattle.tv_framing.specs.Views.{View};
ghost use Rattle.tv_frame.specs.Prepared.{IsReadyFor};
ghost use Rattle.tv_frame.specs.Shown.{CanTurnWhole, HasOtherEndings, HasOtherOuts, HasOtherTrees, IsMarked, IsShown, outs_after, values_put};
ghost use Rattle.tv_frame.specs.Calls.{GoesOn, IsReadyToBounce, IsReadyToSettle, Tells};

use crate::frame::Frame;
use crate::tables::trees_of;
use tv_cell::{Piece, Pieces, Row};
use tv_check::FlowPlan;
use tv_match::Kind;
use tv_outputs::Nodes;
use tv_value::Place;

/// What was settled.
#[derive(Drop)]
pub enum Settled {
    /// The list at the place of a step's iteration was closed with its length.
    Closed {
        step: u32,
        place: Place,
        length: u32,
    },
    /// The fault at the place of a step's iteration was passed.
    Passed {
        step: u32,
        place: Place,
    },
}

impl Frame {
    /// The job at a place of a step, which runs, has given these. Takes no memory. A job that is idle is taken first, if need
    /// be after `room_for_result`: only of one that was taken is it promised what follows.
    ///
    /// Costs what the steps that it feeds are told and what that brings, and for each output what arriving in its tree costs.
    pub fn result(
        &mut self,
        plan: &FlowPlan,
        pool: &mut Nodes,
        step: u32,
        place: &Place,
        outputs: Pieces,
    )
        requires ready { (flows : List (Name × Flow)) × (v : View) × (s : Name × Step)
            × IsReadyFor flows plan.now pool.old self.old v step s
            (gave s.0 place.now (piece_values outputs)) }
        requires sound { AreSound outputs }
        ensures goes_on { (flows : List (Name × Flow)) (v : View) (s : Name × Step)
            → IsReadyFor flows plan.now pool.old self.old v step s
            (gave s.0 place.now (piece_values outputs))
            → is_taken v.events s.0 place.now ≡ true
            → GoesOn flows plan.now pool.new self.new v
            (gave s.0 place.now (piece_values outputs)) }
        ensures regions { KeepsRegions pool.old pool.new (number_of self.old.region) }
        ensures region { self.new.region ≡ self.old.region }
    {
        let first = self.tables.first_tree(step);
        self.put(pool, first, place, outputs);
        self.show(plan, step);
    }

    /// The job of that number, which is ready, is bounced: it never runs, and has given these. Takes no memory. Costs as `take`
    /// and `result` do.
    pub fn bounce(
        &mut self,
        plan: &FlowPlan,
        pool: &mut Nodes,
        number: u64,
        step: u32,
        place: &Place,
        outputs: Pieces,
    )
        requires ready { (flows : List (Name × Flow)) × (v : View) × (s : Name × Step)
            × IsReadyToBounce flows plan.now pool.old self.old v number step s place.now
            (piece_values outputs) }
        requires sound { AreSound outputs }
        ensures goes_on { (flows : List (Name × Flow)) (v : View) (s : Name × Step)
            → IsReadyToBounce flows plan.now pool.old self.old v number step s place.now
            (piece_values outputs)
            → GoesOn flows plan.now pool.new self.new v
            (gave s.0 place.now (piece_values outputs)) }
        ensures regions { KeepsRegions pool.old pool.new (number_of self.old.region) }
        ensures region { self.new.region ≡ self.old.region }
    {
        self.take(plan, pool, number);
        self.result(plan, pool, step, place, outputs);
    }

    /// Closes a list or passes a fault: the thing that waits last. Takes no memory. Costs as `result` does.
    pub fn settle(&mut self, plan: &FlowPlan, pool: &mut Nodes) -> Settled
        requires ready { (flows : List (Name × Flow)) × (v : View) × (n : ℕ) × (s : Name × Step)
            × (e : TheEvent) × IsReadyToSettle flows plan.now pool.old self.old v n s e }
        ensures goes_on { (flows : List (Name × Flow)) (v : View) (n : ℕ) (s : Name × Step)
            (e : TheEvent)
            → IsReadyToSettle flows plan.now pool.old self.old v n s e
            → GoesOn flows plan.now pool.new self.new v e × Tells result n e }
        ensures regions { KeepsRegions pool.old pool.new (number_of self.old.region) }
        ensures region { self.new.region ≡ self.old.region }
    {
        let (step, _, kind) = self.intakes.waiting_at(self.intakes.waiting() - 1);
        let Some(place) = self.ahead.place.take() else {
            unreachable!()
        };
        let first = self.tables.first_tree(step);
        self.intakes.settle_last();
        match kind {
            Kind::Closed(length) => {
                let trees = trees_of(plan, step as usize);
                self.outputs
                    .close(pool, &self.region, first, trees, &place, length);
                self.show(plan, step);
                Settled::Closed {
                    step,
                    place,
                    length,
                }
            }
            _ => {
                let Some(pieces) = self.ahead.pieces.take() else {
                    unreachable!()
                };
                self.put(pool, first, &place, pieces);
                self.show(plan, step);
                Settled::Passed { step, place }
            }
        }
    }

    /// Puts what came into the trees of a step, from this one on, each marked as the room call counted faults. A result of a step
    /// without outputs has no piece: its one tree gets an empty list.
    fn put(&mut self, pool: &mut Nodes, first: usize, place: &Place, pieces: Pieces)
        requires live { IsLive pool.old self.old.region }
        requires stand { Stand pool.old self.old.outputs self.old.region }
        requires can { AllCanArrive first (length (values_put (piece_values pieces))) place.now
            (depths self.old.outputs) (known pool.old self.old.outputs) }
        requires sound { AreSound pieces }
        requires marked { AreMarked place.now (piece_values pieces) self.old.ahead.faults.items }
        requires room { needed (depths self.old.outputs) first
            (length (values_put (piece_values pieces))) ≤ pool.old.spare }
        ensures known { Arrive first place.now (values_put (piece_values pieces))
            (known pool.old self.old.outputs) (known pool.new self.new.outputs) }
        ensures depths { depths self.new.outputs ≡ depths self.old.outputs }
        ensures stand { Stand pool.new self.new.outputs self.old.region }
        ensures regions { KeepsRegions pool.old pool.new (number_of self.old.region) }
        ensures others { HasOtherTrees self.old self.new }
    {
        if pieces.as_slice().is_empty() {
            let nothing = Piece::List(Row::empty(self.alloc));
            self.outputs
                .arrive_at(pool, &self.region, first, place, nothing, false);
            return;
        }
        let faults = self.ahead.faults.as_slice();
        self.outputs
            .arrive(pool, &self.region, first, place, pieces, faults);
    }

    /// What follows of the event is known from now on.
    fn show(&mut self, plan: &FlowPlan, step: u32)
        requires intaken { AreIntaken self.old.intakes }
        requires ready { CanShowAll self.old.spread.touched.items self.old.intakes self.old.idle }
        requires ends { self.old.ahead.whole ≡ true
            → CanTurnWhole plan.now.wiring step self.old.endings }
        ensures { IsShown plan.now.wiring step self.old self.new }
    {
        self.spread.show(&mut self.intakes, &mut self.idle);
        self.mark(plan, step);
        self.keep_outs();
    }

    /// Where the step turns whole with the event, it is marked so.
    fn mark(&mut self, plan: &FlowPlan, step: u32)
        requires { self.old.ahead.whole ≡ true
            → CanTurnWhole plan.now.wiring step self.old.endings }
        ensures marked { IsMarked self.old.ahead.whole plan.now.wiring step self.old.endings
            self.new.endings }
        ensures others { HasOtherEndings self.old self.new }
    {
        if self.ahead.whole {
            self.endings.set_whole(&plan.wiring, step);
        }
    }

    /// Where the instance ends with the event, its outputs are there.
    fn keep_outs(&mut self)
        ensures outs { self.new.outs ≡ outs_after self.old.ahead.outs self.old.outs }
        ensures others { HasOtherOuts self.old self.new }
    {
        if let Some(outs) = self.ahead.outs.take() {
            self.outs = Some(outs);
        }
    }
}
