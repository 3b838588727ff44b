//! Whether the outputs of a step with a loop can be the inputs of its next round.
ghost use Rattle.std.specs.Prelude.{◌≡◌, ◌==◌, flat_map, not};
ghost use Rattle.tv_flow.specs.Views.{each, step_view, step_input_view};
ghost use Rattle.tv_check.specs.Depthwise.{round_complaints, loop_complaints};
ghost use Rattle.tv_naming.specs.Faulty.{at_loop, loop_depths, with_numbers};
ghost use Rattle.tv_naming.specs.Naming.{complain_if};
ghost use Rattle.tv_naming.specs.AtViews.{at_view};
ghost use Rattle.tv_naming.specs.Told.{IsToldOf};

use std::alloc::Global;
use tv_flow::{Step, StepInput, StepInputs};
use tv_naming::{At, CheckKind, CheckRefused};
use tv_value::{Depths, Name};

/// Whether each input of a step with a loop that is an output too has its depth. Takes a search among at most 16 outputs for
/// each input.
pub(crate) fn rounds_fit(
    alloc: Global,
    name: &Name,
    step_name: &Name,
    step: &Step,
) -> Result<(), CheckRefused>
    ensures { IsToldOf (loop_complaints (at_loop name.now step_name.now) (step_view step.now))
        result }
{
    match &step.repeat {
        Some(_) => inputs_fit(
            alloc,
            At::Loop(name, step_name),
            &step.inputs,
            &step.outputs,
        ),
        None => Ok(()),
    }
}

fn inputs_fit(
    alloc: Global,
    at: At<'_>,
    inputs: &StepInputs,
    outputs: &Depths,
) -> Result<(), CheckRefused>
    ensures { IsToldOf (flat_map (round_complaints (at_view at.entry) outputs.now)
        (each step_input_view inputs.now)) result }
{
    for (port, input) in inputs.as_slice() {
        input_fits(alloc, at, port, input, outputs)?;
    }
    Ok(())
}

fn input_fits(
    alloc: Global,
    at: At<'_>,
    port: &Name,
    input: &StepInput,
    outputs: &Depths,
) -> Result<(), CheckRefused>
    ensures { IsToldOf (round_complaints (at_view at.entry) outputs.now
        (port.now, step_input_view input.now)) result }
{
    match outputs.named(port) {
        Some(depth) => same_depth(alloc, at, input.depth, *depth),
        None => Ok(()),
    }
}

fn same_depth(alloc: Global, at: At<'_>, first: u32, second: u32) -> Result<(), CheckRefused>
    ensures { IsToldOf (complain_if (not (first == second))
        (with_numbers loop_depths (at_view at.entry) first second)) result }
{
    if first == second {
        Ok(())
    } else {
        Err(at.refused(alloc, CheckKind::LoopDepths, first, second))
    }
}
