//! The lines of `check`.
ghost use Rattle.std.specs.Prelude.{◌≡◌, ◌++◌, ◌+◌, ◌∷◌, [], IfOk, OnOk, codes, decimal, flat_map, map, min, string_bytes};
ghost use Rattle.std.specs.List.{zip};
ghost use Rattle.tv_flow.specs.Views.{each, flow_view, step_view, step_input_view};
ghost use Rattle.tv_check.specs.PlanViews.{step_plan_view};
ghost use Rattle.tv_check.specs.FlowPlanViews.{flow_plan_view};
ghost use Rattle.tv_check.specs.RunViews.{run_view};
ghost use Rattle.tv_report.specs.DepthLines.{depth_text, port_line, end_line};
ghost use Rattle.tv_report.specs.PlanLines.{planned_flow, planned_step, planned_input, planned_output, planned_end};

use std::alloc::Global;
use std::fmt::Write;
use tv_check::{CheckedRun, FlowPlan, StepPlan};
use tv_flow::{Flow, Step, StepInput};
use tv_value::{Name, NoMemory, Text};

/// The lines of all flows: the declared and delivered depths of each step's inputs and outputs, and the delivered
/// depths of the flow's outputs. Flows, steps and ports are in byte order. Linear in the ports.
pub fn depth_lines(alloc: Global, run: &CheckedRun) -> Result<Text, NoMemory>
    ensures { IfOk result (λ t. t ≡ depth_text (run_view run.now)) }
{
    let mut text = String::new(alloc);
    let flows = run.document().flows.as_slice();
    for number in 0..run.flows() {
        push_flow(&mut text, &flows[number as usize], run.flow(number))?;
    }
    Ok(Text::of(text))
}

/// The length of the shorter of two lists.
fn shorter(a: usize, b: usize) -> usize
    ensures { result ≡ min a b }
{
    if a < b { a } else { b }
}

fn push_flow(text: &mut String, flow: &(Name, Flow), plan: &FlowPlan) -> Result<(), NoMemory>
    ensures { OnOk result (string_bytes text.new ≡ string_bytes text.old
        ++ planned_flow flow.now.0 (flow_plan_view plan.now)) }
{
    push_steps(
        text,
        &flow.0,
        plan.flow.steps.as_slice(),
        plan.steps.as_slice(),
    )?;
    push_ends(text, &flow.0, plan.outputs.as_slice())
}

fn push_steps(
    text: &mut String,
    flow: &Name,
    steps: &[(Name, Step)],
    plans: &[StepPlan],
) -> Result<(), NoMemory>
    ensures { OnOk result (string_bytes text.new ≡ string_bytes text.old
        ++ flat_map (planned_step flow.now)
        (zip (each step_view steps.now) (map step_plan_view plans.now))) }
{
    let both = shorter(steps.len(), plans.len());
    for index in 0..both {
        push_step(text, flow, &steps[index], &plans[index])?;
    }
    Ok(())
}

fn push_step(
    text: &mut String,
    flow: &Name,
    step: &(Name, Step),
    plan: &StepPlan,
) -> Result<(), NoMemory>
    ensures { OnOk result (string_bytes text.new ≡ string_bytes text.old
        ++ planned_step flow.now ((step.now.0, step_view step.now.1), step_plan_view plan.now)) }
{
    push_inputs(
        text,
        flow,
        &step.0,
        step.1.inputs.as_slice(),
        plan.delivered.as_slice(),
    )?;
    push_outputs(text, flow, &step.0, step.1.outputs.as_slice(), plan.depth)
}

fn push_inputs(
    text: &mut String,
    flow: &Name,
    step: &Name,
    inputs: &[(Name, StepInput)],
    delivered: &[(Name, u32)],
) -> Result<(), NoMemory>
    ensures { OnOk result (string_bytes text.new ≡ string_bytes text.old
        ++ flat_map (planned_input flow.now step.now)
        (zip (each step_input_view inputs.now) delivered.now)) }
{
    let both = shorter(inputs.len(), delivered.len());
    for index in 0..both {
        push_input(text, flow, step, &inputs[index], &delivered[index])?;
    }
    Ok(())
}

fn push_input(
    text: &mut String,
    flow: &Name,
    step: &Name,
    input: &(Name, StepInput),
    delivered: &(Name, u32),
) -> Result<(), NoMemory>
    ensures { OnOk result (string_bytes text.new ≡ string_bytes text.old
        ++ planned_input flow.now step.now (
          (input.now.0, step_input_view input.now.1),
          delivered.now,
        )) }
{
    push_port(text, "in", flow, step, &input.0)?;
    push_depths(text, input.1.depth, u64::from(delivered.1))
}

fn push_outputs(
    text: &mut String,
    flow: &Name,
    step: &Name,
    outputs: &[(Name, u32)],
    levels: u32,
) -> Result<(), NoMemory>
    ensures { OnOk result (string_bytes text.new ≡ string_bytes text.old
        ++ flat_map (planned_output flow.now step.now levels) outputs.now) }
{
    for output in outputs {
        push_output(text, flow, step, output, levels)?;
    }
    Ok(())
}

fn push_output(
    text: &mut String,
    flow: &Name,
    step: &Name,
    output: &(Name, u32),
    levels: u32,
) -> Result<(), NoMemory>
    ensures { OnOk result (string_bytes text.new ≡ string_bytes text.old
        ++ planned_output flow.now step.now levels output.now) }
{
    push_port(text, "out", flow, step, &output.0)?;
    push_depths(text, output.1, u64::from(output.1) + u64::from(levels))
}

fn push_ends(text: &mut String, flow: &Name, outputs: &[(Name, u32)]) -> Result<(), NoMemory>
    ensures { OnOk result (string_bytes text.new ≡ string_bytes text.old
        ++ flat_map (planned_end flow.now) outputs.now) }
{
    for output in outputs {
        push_end(text, flow, output)?;
    }
    Ok(())
}

fn push_end(text: &mut String, flow: &Name, output: &(Name, u32)) -> Result<(), NoMemory>
    ensures { OnOk result (string_bytes text.new ≡ string_bytes text.old
        ++ planned_end flow.now output.now) }
{
    write!(
        text,
        "flow {} {} {}\n",
        flow.as_str(),
        output.0.as_str(),
        output.1
    )?;
    Ok(())
}

/// The words of a port, each with a blank.
fn push_port(
    text: &mut String,
    word: &str,
    flow: &Name,
    step: &Name,
    port: &Name,
) -> Result<(), NoMemory>
    ensures { OnOk result (string_bytes text.new ≡ string_bytes text.old
        ++ (word.now ++ codes " " ++ flow.now ++ codes " " ++ step.now ++ codes " " ++ port.now
        ++ codes " ")) }
{
    write!(
        text,
        "{word} {} {} {} ",
        flow.as_str(),
        step.as_str(),
        port.as_str()
    )?;
    Ok(())
}

/// The two depths of a port, and the line feed.
fn push_depths(text: &mut String, declared: u32, delivered: u64) -> Result<(), NoMemory>
    ensures { OnOk result (string_bytes text.new ≡ string_bytes text.old
        ++ (decimal declared ++ codes " " ++ decimal delivered ++ 10 ∷ [])) }
{
    write!(text, "{declared} {delivered}\n")?;
    Ok(())
}
