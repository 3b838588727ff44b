ghost use Rattle.std.specs.Prelude.{◌≡◌, ◌++◌, Bool, IfOk, IfSome, OnOk, Some, map, option_map};
ghost use Rattle.tv_value.specs.Values.{JobName};
ghost use Rattle.tv_naming.specs.Numbers.{position};
ghost use Rattle.tv_gate.specs.Outcomes.{Giving};
ghost use Rattle.tv_flow.specs.Flows.{Document};
ghost use Rattle.tv_flow.specs.Views.{flow_view};
ghost use Rattle.tv_strategy.specs.Origins.{Origin, plain};
ghost use Rattle.tv_cell.specs.PieceValues.{piece_values};
ghost use Rattle.tv_lineage.specs.Kept.{records_of};
ghost use Rattle.tv_lineage.specs.Members.{HaveSame};
ghost use Rattle.tv_lineage.specs.Views.{leaf_view, mark_view};
ghost use Rattle.tv_model.specs.Meanings.{meaning};
ghost use Rattle.tv_model.specs.records.Recorded.{leaves, marks_of, output_at};
ghost use Rattle.tv_frame.specs.MainSteps.{main_steps};
ghost use Rattle.tv_frame.specs.Views.{level_view};
ghost use Rattle.tv_traces.specs.Feeds.{feed_marks};
ghost use Rattle.tv_traces.specs.Seen.{AreSeen};
ghost use Rattle.tv_traces.specs.Settled.{records_of_settled};
ghost use Rattle.tv_forest.specs.runs.Stated.{IsMainFlow};
ghost use Rattle.tv_traces.specs.Sights.{done_in, job_view, what_in};
ghost use Rattle.tv_traces.specs.Views.{shapes_view};
ghost use Rattle.tv_traces.specs.Traced.{AreTraces, AreTracesBy, IsTraced, IsTracedSoFar};

use crate::feeds::Shown;
use crate::node::Node;
use crate::places::push_piece_places;
use crate::settled::SettledJob;
use crate::sight::Sight;
use crate::stepping::{no_shapes, put, step_at, step_node};
use crate::used::push_feed_marks;
use std::alloc::Global;
use tv_cell::Piece;
use tv_check::{FlowPlan, NumberedFeed};
use tv_frame::Level;
use tv_lineage::{Leaf, Leaves, Marks, Records};
use tv_value::{Copied, Name, NoMemory, Place, Sequence};

/// What was made of what in a run that is done: the records of the main flow's jobs, and the shapes of its steps' iterations.
#[derive(Drop)]
pub struct Traces {
    pub(crate) records: Records,
    pub(crate) shapes: Vec<Node>,
}

impl Traces {
    /// Those of a run, by the lists and passed faults of its main instance, in any order. Near linear in these, in the jobs and
    /// in what the jobs bind, where a list counts once however many jobs bind it; and quadratic in the steps of the flow.
    pub fn start(alloc: Global, plan: &FlowPlan, levels: &[Level]) -> Result<Traces, NoMemory>
        ensures { (gives : Giving) (d : Document)
            → IsTraced gives d (flow_view plan.now.flow) (map level_view levels.now)
            → IfOk result (AreTraces gives d (flow_view plan.now.flow)) }
    {
        let sight = Sight::whole(alloc, levels)?;
        traces_by(alloc, plan, &sight)
    }

    /// The records of an instance's settled jobs while it is open, by the lists and passed faults that were settled so far, and these
    /// jobs, in any order. Costs what `start` does.
    pub fn so_far(
        alloc: Global,
        plan: &FlowPlan,
        levels: &[Level],
        jobs: &[SettledJob],
    ) -> Result<Records, NoMemory>
        ensures { (known : Origin → Bool) (settled : JobName → Bool) (gives : Giving) (d : Document)
            → IsTracedSoFar known settled gives d (flow_view plan.now.flow)
            (map level_view levels.now) (map job_view jobs.now)
            → IfOk result
            (λ rs. HaveSame (records_of rs) (records_of_settled settled (meaning gives d))) }
    {
        let sight = Sight::so_far(alloc, levels, jobs)?;
        let traces = traces_by(alloc, plan, &sight)?;
        Ok(traces.records)
    }

    /// The records alone. Takes no memory, and the cost is constant.
    pub fn into_records(self) -> Records
        ensures { result ≡ self.records }
    {
        self.records
    }

    /// The records of the jobs. Takes no memory, and the cost is constant.
    pub fn records(&self) -> &Records
        ensures { result.now ≡ self.now.records }
    {
        &self.records
    }

    /// The marks that what stands at a place of an output used, or `None` where there is no such output or nothing stands there.
    /// `outs` has the flow's outputs in order. Linear in the marks and in the place, with a look-up by names among the outputs.
    pub fn used(
        &self,
        alloc: Global,
        plan: &FlowPlan,
        outs: &[Piece],
        port: &Name,
        place: &Place,
    ) -> Result<Option<Marks>, NoMemory>
        ensures { (gives : Giving) (d : Document)
            → AreTraces gives d (flow_view plan.now.flow) self.now
            → piece_values outs.now ≡ map (λ o. plain o.1) (meaning gives d).outputs
            → IfOk result (λ o. option_map (map mark_view) o
            ≡ option_map marks_of (output_at (meaning gives d) port.now place.now)) }
    {
        let number = position_of(plan.flow.outputs.as_slice(), port);
        let Some(feed) = plan.wiring.outputs.as_slice().get(number) else {
            return Ok(None);
        };
        let Some(piece) = outs.get(number) else {
            return Ok(None);
        };
        if !piece.has(place.as_slice()) {
            return Ok(None);
        }
        let mut marks = Vec::new(alloc);
        push_feed_marks(alloc, &self.shown(plan), feed, place.as_slice(), &mut marks)?;
        Ok(Some(Sequence::of(marks)))
    }

    /// The leaves of the outputs, each with the marks that it used: outputs in byte order of their names, then places. Linear in
    /// the leaves and their places.
    pub fn leaves(&self, alloc: Global, plan: &FlowPlan, outs: &[Piece]) -> Result<Leaves, NoMemory>
        ensures { (gives : Giving) (d : Document)
            → AreTraces gives d (flow_view plan.now.flow) self.now
            → piece_values outs.now ≡ map (λ o. plain o.1) (meaning gives d).outputs
            → IfOk result (λ ls. map leaf_view ls ≡ leaves (meaning gives d)) }
    {
        let mut leaves = Vec::new(alloc);
        for (number, output) in plan.flow.outputs.as_slice().iter().enumerate() {
            let Some(feed) = plan.wiring.outputs.as_slice().get(number) else {
                return Ok(Sequence::of(leaves));
            };
            let Some(piece) = outs.get(number) else {
                return Ok(Sequence::of(leaves));
            };
            let mut places = Vec::new(alloc);
            push_piece_places(alloc, piece, &[], &mut places)?;
            push_leaves(
                alloc,
                &self.shown(plan),
                &output.0,
                feed,
                places.as_slice(),
                &mut leaves,
            )?;
        }
        Ok(Sequence::of(leaves))
    }

    fn shown<'a>(&'a self, plan: &'a FlowPlan) -> Shown<'a>
        ensures flow { result.flow.now ≡ plan.now.flow }
        ensures shapes { result.shapes.now ≡ self.now.shapes.items }
    {
        Shown {
            flow: &plan.flow,
            shapes: self.shapes.as_slice(),
        }
    }
}

/// The records and shapes of all steps, one after another by rank.
fn traces_by(alloc: Global, plan: &FlowPlan, sight: &Sight) -> Result<Traces, NoMemory>
    ensures { (known : Origin → Bool) (settled : JobName → Bool) (gives : Giving) (d : Document)
        → IsMainFlow d (flow_view plan.now.flow)
        → AreSeen known settled (flow_view plan.now.flow) (main_steps (meaning gives d))
        (what_in sight.now) (done_in sight.now)
        → IfOk result (AreTracesBy known settled gives d (flow_view plan.now.flow)) }
{
    let mut records = Records::start(alloc)?;
    let mut shapes = no_shapes(alloc, plan.steps.as_slice().len())?;
    for rank in 0..plan.steps.as_slice().len() {
        let Some(number) = step_at(plan, rank) else {
            unreachable!();
        };
        let node = step_node(alloc, plan, sight, shapes.as_slice(), &mut records, number)?;
        put(&mut shapes, number, node);
    }
    Ok(Traces { records, shapes })
}

/// The position of a name, or the number of names where it isn't there. Linear in the list.
fn position_of<T>(entries: &[(Name, T)], name: &Name) -> usize
    ensures { result ≡ position name.now entries.now }
{
    for (number, entry) in entries.iter().enumerate() {
        if name.as_str() == entry.0.as_str() {
            return number;
        }
    }
    entries.len()
}

/// Pushes the leaves at these places of an output.
fn push_leaves(
    alloc: Global,
    shown: &Shown<'_>,
    port: &Name,
    feed: &NumberedFeed,
    places: &[Place],
    leaves: &mut Vec<Leaf>,
) -> Result<(), NoMemory>
    ensures { OnOk result (map leaf_view leaves.new.items ≡ map leaf_view leaves.old.items
        ++ map (λ q.
        record {
          port = port.now;
          place = q;
          used =
              feed_marks (flow_view shown.now.flow.now) (shapes_view shown.now.shapes.now) feed.now
              q;
        }) places.now) }
{
    for place in places {
        let mut marks = Vec::new(alloc);
        push_feed_marks(alloc, shown, feed, place.as_slice(), &mut marks)?;
        leaves.push(Leaf {
            port: port.copy(alloc)?,
            place: place.copy(alloc)?,
            used: Sequence::of(marks),
        })?;
    }
    Ok(())
}
