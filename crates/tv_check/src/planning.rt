//! The plans of flows that were measured.
ghost use Rattle.std.specs.Prelude.{◌≡◌, map, IfOk, IsSome, Some, true};
ghost use Rattle.tv_value.specs.Strategies.{cross, dot};
ghost use Rattle.tv_value.specs.Views.{strategy_view, strategies_view};
ghost use Rattle.tv_flow.specs.Formed.{is_flow};
ghost use Rattle.tv_flow.specs.Views.{each, flow_view, step_view, step_input_view};
ghost use Rattle.tv_model.specs.instance.Steps.{strategy_of, ports_of};
ghost use Rattle.tv_check.specs.Tables.{IsTable, table_depth, table_mismatch};
ghost use Rattle.tv_check.specs.PlanViews.{step_plan_view, IsOfDocument};
ghost use Rattle.tv_check.specs.FlowPlanViews.{flow_plan_view};
ghost use Rattle.tv_check.specs.Plans.{flow_plan, step_plan};
ghost use Rattle.tv_check.specs.Ports.{ports_of as wired_ports};
ghost use Rattle.tv_check.specs.Planned.{planned, IsPlanned};

use crate::plans::{FlowPlan, StepPlan, StepPlans};
use crate::{Measured, PortsBySteps, feed_depth, mismatches, wiring_of};
use std::alloc::Global;
use tv_flow::{Flow, Step, StepInputs};
use tv_value::{Copied, Depths, NoMemory, Sequence, Tree, Trees};

/// The plan of a flow of an accepted document, by what was measured of it and the ranks of its steps. Linear in the flow, with
/// a look-up for each link.
pub(crate) fn flow_plan(
    alloc: Global,
    flow: &Flow,
    ranks: &[u32],
    measured: &Measured,
) -> Result<FlowPlan, NoMemory>
    requires planned { IsPlanned (flow_view flow.now) measured.now.levels.items measured.now.outputs
        ranks.now }
    requires accepted { IsOfDocument (flow_view flow.now) }
    ensures { IfOk result (λ p. flow_plan_view p ≡ flow_plan (flow_view flow.now)) }
{
    let steps = step_plans(alloc, flow, ranks, measured)?;
    let outputs = measured.outputs.copy(alloc)?;
    let ports = ports_by_steps(alloc, flow, steps.as_slice())?;
    let wiring = wiring_of(alloc, flow, ports)?;
    let flow = flow.copy(alloc)?;
    Ok(FlowPlan {
        flow,
        steps,
        outputs,
        wiring,
    })
}

/// The input ports of all steps, from their plans. Takes a look-up for each link.
fn ports_by_steps(alloc: Global, flow: &Flow, plans: &[StepPlan]) -> Result<PortsBySteps, NoMemory>
    requires formed { is_flow (flow_view flow.now) ≡ true }
    requires accepted { IsOfDocument (flow_view flow.now) }
    requires plans { map step_plan_view plans.now
        ≡ map (step_plan (flow_view flow.now)) (flow_view flow.now).steps }
    ensures { IfOk result (λ ps. ps
        ≡ map (λ s. wired_ports (flow_view flow.now) s.1) (flow_view flow.now).steps) }
{
    let steps = flow.steps.as_slice();
    let mut ports = Vec::with_capacity(alloc, steps.len())?;
    for (number, step) in steps.iter().enumerate() {
        let plan = &plans[number];
        ports.push(crate::ports_of(alloc, flow, &step.1, &plan.tree, &plan.mismatch)?)?;
    }
    Ok(Sequence::of(ports))
}

fn step_plans(
    alloc: Global,
    flow: &Flow,
    ranks: &[u32],
    measured: &Measured,
) -> Result<StepPlans, NoMemory>
    requires { IsPlanned (flow_view flow.now) measured.now.levels.items measured.now.outputs
        ranks.now }
    ensures { IfOk result (λ ps. map step_plan_view ps
        ≡ map (step_plan (flow_view flow.now)) (flow_view flow.now).steps) }
{
    let steps = flow.steps.as_slice();
    let levels = measured.levels.as_slice();
    let mut plans = Vec::with_capacity(alloc, steps.len())?;
    for (number, entry) in steps.iter().enumerate() {
        let depth = known_level(levels[number]);
        plans.push(step_plan(alloc, flow, levels, &entry.1, ranks[number], depth)?)?;
    }
    Ok(Sequence::of(plans))
}

fn known_level(level: Option<u32>) -> u32
    requires { IsSome level }
    ensures { level ≡ Some result }
{
    match level {
        Some(level) => level,
        None => unreachable!(),
    }
}

/// A step's strategy, with the default cross written out. Linear in it.
fn tree_of(alloc: Global, step: &Step) -> Result<Tree, NoMemory>
    ensures { IfOk result (λ t. strategy_view t ≡ strategy_of (step_view step.now)) }
{
    match &step.strategy {
        Some(tree) => tree.copy(alloc),
        None => Ok(Tree::Cross(ports_of(alloc, &step.inputs)?)),
    }
}

fn ports_of(alloc: Global, inputs: &StepInputs) -> Result<Trees, NoMemory>
    ensures { IfOk result (λ ts. strategies_view ts ≡ ports_of (each step_input_view inputs.now)) }
{
    let inputs = inputs.as_slice();
    let mut ports = Vec::with_capacity(alloc, inputs.len())?;
    for (port, _) in inputs {
        ports.push(Tree::Leaf(port.copy(alloc)?))?;
    }
    Ok(Trees::of(ports))
}

/// The depth that each input port is delivered.
fn delivered(
    alloc: Global,
    flow: &Flow,
    levels: &[Option<u32>],
    inputs: &StepInputs,
) -> Result<Depths, NoMemory>
    requires { IsTable (flow_view flow.now) levels.now }
    ensures { IfOk result (λ d. d
        ≡ map (λ i. (i.0, table_depth (flow_view flow.now) levels.now i.1.from))
        (each step_input_view inputs.now)) }
{
    let inputs = inputs.as_slice();
    let mut depths = Vec::with_capacity(alloc, inputs.len())?;
    for (port, input) in inputs {
        let port = port.copy(alloc)?;
        depths.push((port, feed_depth(flow, levels, &input.from)))?;
    }
    Ok(Sequence::of(depths))
}

/// What the check worked out for a step, by the table of its flow, with its rank and the depth of its strategy.
fn step_plan(
    alloc: Global,
    flow: &Flow,
    levels: &[Option<u32>],
    step: &Step,
    rank: u32,
    depth: u32,
) -> Result<StepPlan, NoMemory>
    requires { IsTable (flow_view flow.now) levels.now }
    ensures { IfOk result (λ p. step_plan_view p
        ≡ planned (flow_view flow.now) levels.now rank depth (step_view step.now)) }
{
    let tree = tree_of(alloc, step)?;
    let delivered = delivered(alloc, flow, levels, &step.inputs)?;
    let mismatch = mismatches(alloc, flow, levels, &step.inputs)?;
    Ok(StepPlan {
        rank,
        tree,
        depth,
        delivered,
        mismatch,
    })
}
