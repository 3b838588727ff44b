//! The steps of a flow, one after another by rank.
ghost use Rattle.std.specs.Prelude.{◌≡◌, ◌<◌, ℕ, [], IfOk, IfSome, None, Some, length, map, replicate, slice_get};
ghost use Rattle.std.proofs.Common.{set};
ghost use Rattle.tv_value.specs.Values.{Name as AName};
ghost use Rattle.tv_flow.specs.Flows.{Step};
ghost use Rattle.tv_flow.specs.Views.{flow_view};
ghost use Rattle.tv_strategy.specs.Conditions.{number_of};
ghost use Rattle.tv_strategy.specs.Measures.{strategy_depth};
ghost use Rattle.tv_model.specs.instance.Steps.{strategy_of};
ghost use Rattle.tv_check.specs.Ports.{mismatches};
ghost use Rattle.tv_check.specs.declared.plans.StepPlan.{StepPlan};
ghost use Rattle.tv_traces.specs.OfNodes.{IsWalked};
ghost use Rattle.tv_traces.specs.Building.{AreGrouped, telling};
ghost use Rattle.tv_traces.specs.Grouped.{AllAreGrouped};
ghost use Rattle.tv_traces.specs.Shapes.{no_shape};
ghost use Rattle.tv_traces.specs.Stepping.{telling_of};
ghost use Rattle.tv_traces.specs.Sights.{done_in, what_in};
ghost use Rattle.tv_traces.specs.Views.{node_view, shapes_view};

use crate::building::{Walk, node_below};
use crate::feeds::Shown;
use crate::jobs::note_jobs;
use crate::node::Node;
use crate::sight::Sight;
use std::alloc::Global;
use tv_check::FlowPlan;
use tv_frame::leaf_starts;
use tv_lineage::Records;
use tv_value::{Name, NoMemory, Place, Sequence};

/// So many steps of which nothing is known.
pub(crate) fn no_shapes(alloc: Global, count: usize) -> Result<Vec<Node>, NoMemory>
    ensures { IfOk result (λ us. shapes_view us.items ≡ replicate count no_shape) }
{
    let mut shapes = Vec::new(alloc);
    for made in 0..count {
        let _made = made;
        shapes.push(Node::Passed(Sequence::empty(alloc)))?;
    }
    Ok(shapes)
}

/// The shape of a step.
pub(crate) fn put(shapes: &mut Vec<Node>, number: usize, node: Node)
    requires { number < length shapes.old.items }
    ensures { shapes.new.items ≡ set shapes.old.items number node }
{
    shapes[number] = node;
}

/// The number of the step of that rank. Linear in the steps.
pub(crate) fn step_at(plan: &FlowPlan, rank: usize) -> Option<usize>
    ensures within { IfSome result (λ n. n < length plan.now.steps) }
    ensures none { result ≡ None → (n : ℕ) (p : StepPlan) → slice_get plan.now.steps n ≡ Some p
        → p.rank ≡ rank → ⊥ }
    ensures rank { IfSome result (λ n. (p : StepPlan) → slice_get plan.now.steps n ≡ Some p
        → p.rank ≡ rank) }
{
    for (number, step) in plan.steps.as_slice().iter().enumerate() {
        if step.rank as usize == rank {
            return Some(number);
        }
    }
    None
}

/// The shape of the iteration of a step whose feeding steps have theirs, with the records of its jobs.
pub(crate) fn step_node(
    alloc: Global,
    plan: &FlowPlan,
    sight: &Sight,
    shapes: &[Node],
    records: &mut Records,
    number: usize,
) -> Result<Node, NoMemory>
    requires number { number < length plan.now.steps }
    requires grouped { AllAreGrouped (flow_view plan.now.flow) records.old.groups
        (shapes_view shapes.now) }
    ensures { IfOk result (λ u. (s : AName × Step)
        → slice_get (flow_view plan.now.flow).steps number ≡ Some s
        → IsWalked (telling_of (flow_view plan.now.flow) (shapes_view shapes.now)
        (what_in sight.now number) (done_in sight.now number) s)
        s (strategy_depth (number_of (mismatches (flow_view plan.now.flow) s.1)) (strategy_of s.1))
        records.old records.new (node_view u)) }
{
    let step = &plan.steps.as_slice()[number];
    let entry = &plan.flow.steps.as_slice()[number];
    let starts = leaf_starts(alloc, &step.tree, &step.mismatch)?;
    let walk = Walk {
        shown: Shown {
            flow: &plan.flow,
            shapes,
        },
        sight,
        step: number as u32,
        name: &entry.0,
        ports: plan.wiring.ports.as_slice()[number].as_slice(),
        starts: starts.as_slice(),
    };
    walked(
        alloc,
        &walk,
        records,
        entry.1.outputs.as_slice(),
        step.depth,
    )
}

/// The shape of the step's iteration, if it has outputs, with the records of its jobs. Nothing is fed by a step without outputs, so
/// nobody asks for its shape; and its iteration may be far deeper than that of a step with outputs, which is no deeper than a value.
fn walked(
    alloc: Global,
    walk: &Walk<'_>,
    records: &mut Records,
    outputs: &[(Name, u32)],
    levels: u32,
) -> Result<Node, NoMemory>
    requires { AreGrouped records.old.groups walk.now }
    ensures { IfOk result (λ u. (s : AName × Step) → s.1.outputs ≡ outputs.now
        → IsWalked (telling walk.now) s levels records.old records.new (node_view u)) }
{
    if outputs.is_empty() {
        note_jobs(alloc, walk, records, levels)?;
        return Ok(Node::Passed(Sequence::empty(alloc)));
    }
    let top = Place::top(alloc);
    node_below(alloc, walk, records, levels, &top)
}
