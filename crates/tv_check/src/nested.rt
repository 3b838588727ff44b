//! Whether the flows that a step opens take and give what the step does.
ghost use Rattle.std.specs.Prelude.{◌≡◌, ◌<◌, ◌^◌, ◌&&◌, ◌==◌, true, map, flat_map, length, is_some};
ghost use Rattle.std.specs.List.{list_all};
ghost use Rattle.tv_value.specs.Orders.{same_name};
ghost use Rattle.tv_flow.specs.DocumentViews.{document_view};
ghost use Rattle.tv_flow.specs.Views.{flow_view, step_view, activity_view};
ghost use Rattle.tv_check.specs.Depthwise.{same_ports, fits_flow, nested_complaints};
ghost use Rattle.tv_naming.specs.Naming.{numbered};
ghost use Rattle.tv_check.specs.Measured.{IsWorked, AreWorked, opens_measured, fits_activity};
ghost use Rattle.tv_naming.specs.Told.{IsToldOf};

use crate::measured::Measured;
use std::alloc::Global;
use tv_flow::{Activity, Document, Flow, Step, StepInput};
use tv_naming::{At, CheckKind, CheckRefused, number_of};
use tv_value::Name;

/// Whether each flow that a step opens takes and gives what the step does. A look-up for each.
pub(crate) fn activities_fit(
    alloc: Global,
    document: &Document,
    measured: &[Option<Measured>],
    name: &Name,
    step_name: &Name,
    step: &Step,
) -> Result<(), CheckRefused>
    requires worked { AreWorked (document_view document.now).flows measured.now }
    requires opened { list_all (opens_measured (document_view document.now) measured.now)
        (step_view step.now).activities ≡ true }
    requires few { length step.now.activities < 2 ^ 32 }
    ensures { IsToldOf (flat_map (nested_complaints (document_view document.now) name.now
        step_name.now (step_view step.now)) (numbered 0 (step_view step.now).activities)) result }
{
    for (position, activity) in step.activities.as_slice().iter().enumerate() {
        if !fits_activity(document, measured, step, activity) {
            let at = At::Activity(name, step_name, position as u32);
            return Err(at.refused(alloc, CheckKind::NestedPorts, 0, 0));
        }
    }
    Ok(())
}

fn fits_activity(
    document: &Document,
    measured: &[Option<Measured>],
    step: &Step,
    activity: &Activity,
) -> bool
    requires worked { AreWorked (document_view document.now).flows measured.now }
    requires opened { opens_measured (document_view document.now) measured.now
        (activity_view activity.now) ≡ true }
    ensures { result ≡ fits_activity (document_view document.now) (step_view step.now)
        (activity_view activity.now) }
{
    match activity {
        Activity::Service(_) => true,
        Activity::Nested(name) => match number_of(&document.flows, name) {
            Some(number) => {
                let flow = &document.flows.as_slice()[number].1;
                fits_flow(step, flow, &measured[number])
            }
            None => false,
        },
    }
}

fn fits_flow(step: &Step, flow: &Flow, measured: &Option<Measured>) -> bool
    requires worked { IsWorked (flow_view flow.now) measured.now }
    requires measured { is_some measured.now ≡ true }
    ensures { result ≡ fits_flow (step_view step.now) (flow_view flow.now) }
{
    match measured {
        Some(measured) => {
            same_inputs(step.inputs.as_slice(), flow.inputs.as_slice())
                && step.outputs == measured.outputs
        }
        None => unreachable!(),
    }
}

/// Whether these are the same names with the same depths, in the same order.
fn same_inputs(inputs: &[(Name, StepInput)], given: &[(Name, u32)]) -> bool
    ensures { result ≡ same_ports (map (λ i. (i.0, i.1.depth)) inputs.now) given.now }
{
    if inputs.len() != given.len() {
        return false;
    }
    for (position, input) in inputs.iter().enumerate() {
        if !same_input(input, &given[position]) {
            return false;
        }
    }
    true
}

fn same_input(input: &(Name, StepInput), given: &(Name, u32)) -> bool
    ensures { result ≡ (same_name input.now.0 given.now.0 && input.now.1.depth == given.now.1) }
{
    input.0.as_str() == given.0.as_str() && input.1.depth == given.1
}
