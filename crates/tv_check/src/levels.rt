//! The depths of steps' strategies, and what is said of a step's ports.
ghost use Rattle.std.specs.Prelude.{◌≡◌, ◌≤◌, ◌+◌, ◌<◌, ◌^◌, true, map, flat_map, IfOk, Some};
ghost use Rattle.tv_value.specs.Strategies.{cross};
ghost use Rattle.tv_value.specs.Views.{strategy_view};
ghost use Rattle.tv_flow.specs.Formed.{is_depth, is_step_input, are_named};
ghost use Rattle.tv_flow.specs.Views.{each, flow_view, step_view, step_input_view};
ghost use Rattle.tv_strategy.specs.Conditions.{Suits, number_of};
ghost use Rattle.tv_strategy.specs.Measures.{strategy_depth, first_difference};
ghost use Rattle.tv_model.specs.instance.CheckedDepths.{port_depth};
ghost use Rattle.tv_check.specs.Depthwise.{past_limit, fed_complaints, node_complaints};
ghost use Rattle.tv_naming.specs.Faulty.{at_input, at_output};
ghost use Rattle.tv_model.specs.instance.Steps.{strategy_of, ports_of};
ghost use Rattle.tv_check.specs.Tables.{known_steps, IsTable, IsSound, level_most, table_mismatch, are_within, ports_complaints};
ghost use Rattle.tv_naming.specs.AtViews.{at_view};
ghost use Rattle.tv_naming.specs.Told.{IsToldOf, StopsAt};

use crate::delivered::{fed, feed_depth, within};
use std::alloc::Global;
use tv_flow::{Flow, Step, StepInputs};
use tv_naming::{At, CheckKind, CheckRefused};
use tv_strategy::{DotFault, depth_of};
use tv_value::{Copied, Depths, Name, NoMemory, Sequence, Tree};

/// What is said of a step's input ports, its strategy and its output ports, in this order; else its strategy's depth.
/// Linear in the step, with a look-up for each link.
pub(crate) fn ports_level(
    alloc: Global,
    name: &Name,
    flow: &Flow,
    levels: &[Option<u32>],
    step_name: &Name,
    step: &Step,
) -> Result<u32, CheckRefused>
    requires table { IsTable (flow_view flow.now) levels.now }
    requires step { IsSound (step_view step.now) }
    ensures told { IsToldOf (ports_complaints name.now (flow_view flow.now).inputs
        (known_steps (flow_view flow.now).steps levels.now) (step_name.now, step_view step.now))
        result }
    ensures level { IfOk result (λ k. k
        ≡ strategy_depth (port_depth (flow_view flow.now).inputs
        (known_steps (flow_view flow.now).steps
        levels.now) (step_view step.now)) (strategy_of (step_view step.now))) }
    ensures small { IfOk result (λ k. k ≤ level_most) }
{
    inputs_fed(alloc, name, flow, levels, step_name, &step.inputs)?;
    let level = step_level(alloc, flow, levels, At::Step(name, step_name), step)?;
    outputs_within(alloc, name, step_name, &step.outputs, level)?;
    Ok(level)
}

fn inputs_fed(
    alloc: Global,
    name: &Name,
    flow: &Flow,
    levels: &[Option<u32>],
    step_name: &Name,
    inputs: &StepInputs,
) -> Result<(), CheckRefused>
    requires { IsTable (flow_view flow.now) levels.now }
    ensures { IsToldOf (flat_map (λ i. fed_complaints (flow_view flow.now).inputs
        (known_steps (flow_view flow.now).steps levels.now) (at_input name.now step_name.now i.0)
        i.1.from) (each step_input_view inputs.now)) result }
{
    for (port, input) in inputs.as_slice() {
        fed(
            alloc,
            flow,
            levels,
            At::Input(name, step_name, port),
            &input.from,
        )?;
    }
    Ok(())
}

/// The depth of a step's strategy.
fn step_level(
    alloc: Global,
    flow: &Flow,
    levels: &[Option<u32>],
    at: At<'_>,
    step: &Step,
) -> Result<u32, CheckRefused>
    requires table { IsTable (flow_view flow.now) levels.now }
    requires step { IsSound (step_view step.now) }
    requires within { are_within (flow_view flow.now) levels.now (step_view step.now).inputs
        ≡ true }
    ensures told { IsToldOf (node_complaints (at_view at.entry)
        (first_difference (port_depth (flow_view flow.now).inputs
        (known_steps (flow_view flow.now).steps
        levels.now) (step_view step.now)) (strategy_of (step_view step.now)))) result }
    ensures level { IfOk result (λ k. k
        ≡ strategy_depth (port_depth (flow_view flow.now).inputs
        (known_steps (flow_view flow.now).steps
        levels.now) (step_view step.now)) (strategy_of (step_view step.now))) }
    ensures small { IfOk result (λ k. k ≤ level_most) }
{
    match &step.strategy {
        Some(tree) => tree_level(alloc, flow, levels, at, &step.inputs, tree),
        None => Ok(cross_level(flow, levels, &step.inputs)),
    }
}

/// The depth of a strategy that is given.
fn tree_level(
    alloc: Global,
    flow: &Flow,
    levels: &[Option<u32>],
    at: At<'_>,
    inputs: &StepInputs,
    tree: &Tree,
) -> Result<u32, CheckRefused>
    requires table { IsTable (flow_view flow.now) levels.now }
    requires suits { Suits (each (table_mismatch (flow_view flow.now) levels.now)
        (each step_input_view inputs.now)) (strategy_view tree.now) }
    ensures told { IsToldOf (node_complaints (at_view at.entry)
        (first_difference (number_of (each (table_mismatch (flow_view flow.now) levels.now)
        (each step_input_view inputs.now))) (strategy_view tree.now))) result }
    ensures level { IfOk result (λ k. k
        ≡ strategy_depth (number_of (each (table_mismatch (flow_view flow.now) levels.now)
        (each step_input_view inputs.now))) (strategy_view tree.now)) }
{
    let mismatch = mismatches(alloc, flow, levels, inputs)?;
    match depth_of(tree, &mismatch) {
        Ok(level) => Ok(level),
        Err(fault) => Err(node_fault(alloc, at, fault)),
    }
}

/// The complaint about the children of a node.
fn node_fault(alloc: Global, at: At<'_>, fault: DotFault) -> CheckRefused
    ensures { StopsAt (node_complaints (at_view at.entry)
        (Some (record { prefixed = fault.prefix; first = fault.first; second = fault.second }))) result }
{
    let kind = if fault.prefix {
        CheckKind::PrefixDepths
    } else {
        CheckKind::DotDepths
    };
    at.refused(alloc, kind, fault.first, fault.second)
}

/// The levels that each input port iterates.
pub fn mismatches(
    alloc: Global,
    flow: &Flow,
    levels: &[Option<u32>],
    inputs: &StepInputs,
) -> Result<Depths, NoMemory>
    requires { IsTable (flow_view flow.now) levels.now }
    ensures { IfOk result (λ m. m ≡ each (table_mismatch (flow_view flow.now) levels.now)
        (each step_input_view inputs.now)) }
{
    let inputs = inputs.as_slice();
    let mut mismatches = Vec::with_capacity(alloc, inputs.len())?;
    for (port, input) in inputs {
        let port = port.copy(alloc)?;
        let mismatch = feed_depth(flow, levels, &input.from).saturating_sub(input.depth);
        mismatches.push((port, mismatch))?;
    }
    Ok(Sequence::of(mismatches))
}

/// The depth of a cross of all input ports.
fn cross_level(flow: &Flow, levels: &[Option<u32>], inputs: &StepInputs) -> u32
    requires table { IsTable (flow_view flow.now) levels.now }
    requires inputs { are_named is_step_input 0 16 (each step_input_view inputs.now) ≡ true }
    requires within { are_within (flow_view flow.now) levels.now (each step_input_view inputs.now)
        ≡ true }
    ensures level { result
        ≡ strategy_depth (number_of (each (table_mismatch (flow_view flow.now) levels.now)
        (each step_input_view inputs.now))) (cross (ports_of (each step_input_view inputs.now))) }
    ensures small { result ≤ level_most }
{
    let mut level = 0;
    for (_, input) in inputs.as_slice() {
        level += feed_depth(flow, levels, &input.from).saturating_sub(input.depth);
    }
    level
}

/// Whether each output port, with the levels that are iterated, is within the limit.
fn outputs_within(
    alloc: Global,
    name: &Name,
    step_name: &Name,
    outputs: &Depths,
    level: u32,
) -> Result<(), CheckRefused>
    requires outputs { are_named is_depth 0 16 outputs.now ≡ true }
    requires level { level ≤ level_most }
    ensures { IsToldOf (flat_map (λ o. past_limit (at_output name.now step_name.now o.0) (o.1
        + level)) outputs.now) result }
{
    for (port, depth) in outputs.as_slice() {
        within(alloc, At::Output(name, step_name, port), *depth + level)?;
    }
    Ok(())
}
