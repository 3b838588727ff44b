//! The pass on names: of flows, ports, steps and services, and of a strategy's leaves.
ghost use Rattle.std.specs.Prelude.{◌≡◌, ◌<◌, ◌^◌, IfOk, true, map, option_map, flat_map, length, not, ◌++◌};
ghost use Rattle.std.specs.List.{list_any};
ghost use Rattle.tv_value.specs.Views.{strategy_view};
ghost use Rattle.tv_flow.specs.DocumentViews.{document_view};
ghost use Rattle.tv_flow.specs.Formed.{is_ascending, is_flow, is_step};
ghost use Rattle.tv_flow.specs.Views.{each, flow_view, step_view, step_input_view, activity_view};
ghost use Rattle.tv_naming.specs.Faulty.{strategy_ports, no_such_service, loop_nested, at_step, at_activity, at_loop, plainly, first_of};
ghost use Rattle.tv_naming.specs.FaultViews.{fault_view, kind_view};
ghost use Rattle.tv_naming.specs.Naming.{complain_if, fits_ports, has_name, numbered, input_complaints, strategy_complaints, activity_complaints, is_nested, loop_complaints, after_complaints, output_complaints, step_naming, flow_naming, naming_complaints};

use crate::faults::{CheckFault, CheckKind, Spot};
use crate::links::{has_step, is_fed};
use crate::ports::fits_ports;
use crate::spots::{
    at_activity, at_after, at_flow_output, at_input, at_loop, at_step, plain_fault,
};
use crate::things::thing_of;
use std::alloc::Global;
use tv_flow::{Activities, Activity, Document, Feed, Flow, FlowOutputs, Step, StepInputs};
use tv_gate::Services;
use tv_value::{Name, Names, NoMemory, Tree};

/// The first complaint about the names of a document: the main flow's, and then flow by flow. Linear in the document, with
/// a look-up that is logarithmic in the steps or flows for each link, activity and step to run after.
pub fn naming_fault<V: Services>(
    alloc: Global,
    document: &Document,
) -> Result<Option<CheckFault>, NoMemory>
    ensures { IfOk result (λ f. option_map fault_view f
        ≡ first_of (naming_complaints V.knows (document_view document.now))) }
{
    if has_flow(document, &document.main) {
        flows_fault::<V>(alloc, document)
    } else {
        Ok(Some(plain_fault(CheckKind::NoSuchFlow, Spot::Main)))
    }
}

fn has_flow(document: &Document, name: &Name) -> bool
    ensures { result ≡ has_name (document_view document.now).flows name.now }
{
    thing_of(&document.flows, name).is_some()
}

fn flows_fault<V: Services>(
    alloc: Global,
    document: &Document,
) -> Result<Option<CheckFault>, NoMemory>
    ensures { IfOk result (λ f. option_map fault_view f
        ≡ first_of (flat_map (flow_naming V.knows (document_view document.now))
        (document_view document.now).flows)) }
{
    for (name, flow) in document.flows.as_slice() {
        if let Some(fault) = flow_fault::<V>(alloc, document, name, flow)? {
            return Ok(Some(fault));
        }
    }
    Ok(None)
}

/// The first complaint about a flow: step by step, and then its outputs.
fn flow_fault<V: Services>(
    alloc: Global,
    document: &Document,
    name: &Name,
    flow: &Flow,
) -> Result<Option<CheckFault>, NoMemory>
    requires { is_flow (flow_view flow.now) ≡ true }
    ensures { IfOk result (λ f. option_map fault_view f
        ≡ first_of (flow_naming V.knows (document_view document.now)
        (name.now, flow_view flow.now))) }
{
    if let Some(fault) = steps_fault::<V>(alloc, document, name, flow)? {
        return Ok(Some(fault));
    }
    outputs_fault(alloc, name, flow)
}

fn steps_fault<V: Services>(
    alloc: Global,
    document: &Document,
    name: &Name,
    flow: &Flow,
) -> Result<Option<CheckFault>, NoMemory>
    requires { is_flow (flow_view flow.now) ≡ true }
    ensures { IfOk result (λ f. option_map fault_view f
        ≡ first_of (flat_map (step_naming V.knows (document_view document.now) name.now
        (flow_view flow.now)) (flow_view flow.now).steps)) }
{
    for (step_name, step) in flow.steps.as_slice() {
        if let Some(fault) = step_fault::<V>(alloc, document, name, flow, step_name, step)? {
            return Ok(Some(fault));
        }
    }
    Ok(None)
}

/// The first complaint about a step: the links of its inputs, its strategy, its activities, its loop, the steps that it runs
/// after.
fn step_fault<V: Services>(
    alloc: Global,
    document: &Document,
    name: &Name,
    flow: &Flow,
    step_name: &Name,
    step: &Step,
) -> Result<Option<CheckFault>, NoMemory>
    requires flow { is_flow (flow_view flow.now) ≡ true }
    requires step { is_step (step_view step.now) ≡ true }
    ensures { IfOk result (λ f. option_map fault_view f
        ≡ first_of (step_naming V.knows (document_view document.now) name.now (flow_view flow.now)
        (step_name.now, step_view step.now))) }
{
    if let Some(fault) = inputs_fault(alloc, name, flow, step_name, &step.inputs)? {
        return Ok(Some(fault));
    }
    if let Some(fault) = strategy_fault(alloc, name, step_name, step)? {
        return Ok(Some(fault));
    }
    if let Some(fault) = activities_fault::<V>(
        alloc,
        document,
        name,
        step_name,
        &step.activities,
    )? {
        return Ok(Some(fault));
    }
    if let Some(fault) = loop_fault::<V>(alloc, document, name, step_name, step)? {
        return Ok(Some(fault));
    }
    after_fault(alloc, name, flow, step_name, &step.after)
}

fn inputs_fault(
    alloc: Global,
    name: &Name,
    flow: &Flow,
    step_name: &Name,
    inputs: &StepInputs,
) -> Result<Option<CheckFault>, NoMemory>
    requires { is_ascending (map (λ s. s.0) flow.now.steps) ≡ true }
    ensures { IfOk result (λ f. option_map fault_view f
        ≡ first_of (flat_map (input_complaints name.now (flow_view flow.now) step_name.now)
        (each step_input_view inputs.now))) }
{
    for (port, input) in inputs.as_slice() {
        if !is_fed(flow, &input.from) {
            let spot = at_input(alloc, name, step_name, port)?;
            return Ok(Some(plain_fault(CheckKind::NoSuchPort, spot)));
        }
    }
    Ok(None)
}

fn strategy_fault(
    alloc: Global,
    name: &Name,
    step_name: &Name,
    step: &Step,
) -> Result<Option<CheckFault>, NoMemory>
    ensures { IfOk result (λ f. option_map fault_view f
        ≡ first_of (strategy_complaints name.now (step_name.now, step_view step.now))) }
{
    match &step.strategy {
        Some(tree) => tree_fault(alloc, name, step_name, step, tree),
        None => Ok(None),
    }
}

fn tree_fault(
    alloc: Global,
    name: &Name,
    step_name: &Name,
    step: &Step,
    tree: &Tree,
) -> Result<Option<CheckFault>, NoMemory>
    ensures { IfOk result (λ f. option_map fault_view f
        ≡ first_of (complain_if (not (fits_ports (step_view step.now) (strategy_view tree.now)))
        (plainly strategy_ports (at_step name.now step_name.now)))) }
{
    if fits_ports(alloc, step, tree)? {
        return Ok(None);
    }
    let spot = at_step(alloc, name, step_name)?;
    Ok(Some(plain_fault(CheckKind::StrategyPorts, spot)))
}

fn activities_fault<V: Services>(
    alloc: Global,
    document: &Document,
    name: &Name,
    step_name: &Name,
    activities: &Activities,
) -> Result<Option<CheckFault>, NoMemory>
    requires { length activities.now < 2 ^ 32 }
    ensures { IfOk result (λ f. option_map fault_view f
        ≡ first_of (flat_map (activity_complaints V.knows (document_view document.now) name.now
        step_name.now) (numbered 0 (map activity_view activities.now)))) }
{
    for (position, activity) in activities.as_slice().iter().enumerate() {
        let position = position as u32;
        if let Some(fault) = activity_fault::<V>(
            alloc, document, name, step_name, position, activity,
        )? {
            return Ok(Some(fault));
        }
    }
    Ok(None)
}

fn activity_fault<V: Services>(
    alloc: Global,
    document: &Document,
    name: &Name,
    step_name: &Name,
    position: u32,
    activity: &Activity,
) -> Result<Option<CheckFault>, NoMemory>
    ensures { IfOk result (λ f. option_map fault_view f
        ≡ first_of (activity_complaints V.knows (document_view document.now) name.now step_name.now
        (position, activity_view activity.now))) }
{
    match activity {
        Activity::Service(service) => {
            let known = V::has(service.as_str());
            unless(
                alloc,
                known,
                CheckKind::NoSuchService,
                name,
                step_name,
                position,
            )
        }
        Activity::Nested(flow) => {
            let known = has_flow(document, flow);
            unless(
                alloc,
                known,
                CheckKind::NoSuchFlow,
                name,
                step_name,
                position,
            )
        }
    }
}

/// The complaint about an activity of which the service or flow isn't known.
fn unless(
    alloc: Global,
    known: bool,
    kind: CheckKind,
    name: &Name,
    step_name: &Name,
    position: u32,
) -> Result<Option<CheckFault>, NoMemory>
    ensures { IfOk result (λ f. option_map fault_view f
        ≡ first_of
        (complain_if (not known) (plainly (kind_view kind) (at_activity name.now step_name.now
        position)))) }
{
    if known {
        return Ok(None);
    }
    let spot = at_activity(alloc, name, step_name, position)?;
    Ok(Some(plain_fault(kind, spot)))
}

/// The first complaint about a step's loop, if it has one.
fn loop_fault<V: Services>(
    alloc: Global,
    document: &Document,
    name: &Name,
    step_name: &Name,
    step: &Step,
) -> Result<Option<CheckFault>, NoMemory>
    ensures { IfOk result (λ f. option_map fault_view f
        ≡ first_of (loop_complaints V.knows (document_view document.now) name.now
        (step_name.now, step_view step.now))) }
{
    match &step.repeat {
        Some(repeat) => {
            let known = V::has(repeat.service.as_str());
            let nested = nests(step.activities.as_slice());
            repeat_fault(alloc, name, step_name, known, nested)
        }
        None => Ok(None),
    }
}

/// Whether one of these activities is a nested flow.
fn nests(activities: &[Activity]) -> bool
    ensures { result ≡ list_any (λ a. is_nested (activity_view a)) activities.now }
{
    activities.iter().any(|activity| is_nested(activity))
}

fn is_nested(activity: &Activity) -> bool
    ensures { result ≡ is_nested (activity_view activity.now) }
{
    match activity {
        Activity::Service(_) => false,
        Activity::Nested(_) => true,
    }
}

/// The complaint about a loop whose service isn't known, or else of which the step has a nested flow.
fn repeat_fault(
    alloc: Global,
    name: &Name,
    step_name: &Name,
    known: bool,
    nested: bool,
) -> Result<Option<CheckFault>, NoMemory>
    ensures { IfOk result (λ f. option_map fault_view f
        ≡ first_of
        (complain_if (not known) (plainly no_such_service (at_loop name.now step_name.now))
        ++ complain_if nested (plainly loop_nested (at_loop name.now step_name.now)))) }
{
    if !known {
        let fault = fault_at_loop(alloc, CheckKind::NoSuchService, name, step_name)?;
        return Ok(Some(fault));
    }
    if nested {
        let fault = fault_at_loop(alloc, CheckKind::LoopNested, name, step_name)?;
        return Ok(Some(fault));
    }
    Ok(None)
}

fn fault_at_loop(
    alloc: Global,
    kind: CheckKind,
    name: &Name,
    step_name: &Name,
) -> Result<CheckFault, NoMemory>
    ensures { IfOk result (λ f. fault_view f
        ≡ plainly (kind_view kind) (at_loop name.now step_name.now)) }
{
    let spot = at_loop(alloc, name, step_name)?;
    Ok(plain_fault(kind, spot))
}

fn after_fault(
    alloc: Global,
    name: &Name,
    flow: &Flow,
    step_name: &Name,
    after: &Names,
) -> Result<Option<CheckFault>, NoMemory>
    requires ordered { is_ascending (map (λ s. s.0) flow.now.steps) ≡ true }
    requires few { length after.now < 2 ^ 32 }
    ensures { IfOk result (λ f. option_map fault_view f
        ≡ first_of (flat_map (after_complaints name.now (flow_view flow.now) step_name.now)
        (numbered 0 after.now))) }
{
    for (position, earlier) in after.as_slice().iter().enumerate() {
        if !has_step(flow, earlier) {
            let spot = at_after(alloc, name, step_name, position as u32)?;
            return Ok(Some(plain_fault(CheckKind::NoSuchPort, spot)));
        }
    }
    Ok(None)
}

fn outputs_fault(alloc: Global, name: &Name, flow: &Flow) -> Result<Option<CheckFault>, NoMemory>
    requires { is_ascending (map (λ s. s.0) flow.now.steps) ≡ true }
    ensures { IfOk result (λ f. option_map fault_view f
        ≡ first_of (flat_map (output_complaints name.now (flow_view flow.now))
        (flow_view flow.now).outputs)) }
{
    for (port, feed) in flow.outputs.as_slice() {
        if !is_fed(flow, feed) {
            let spot = at_flow_output(alloc, name, port)?;
            return Ok(Some(plain_fault(CheckKind::NoSuchPort, spot)));
        }
    }
    Ok(None)
}
