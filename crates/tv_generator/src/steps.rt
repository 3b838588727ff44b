//! The steps of the generated document.
ghost use Rattle.std.specs.Prelude.{◌≡◌, IfOk};
ghost use Rattle.tv_flow.specs.Views.{each, step_input_view, step_view};
ghost use Rattle.tv_model.specs.Writing.{asks};
ghost use Rattle.tv_generator.specs.Parts as parts;

use crate::feeds::{constant, depth, from_input, from_step, name, one, takes, two};
use std::alloc::Global;
use tv_flow::{Activity, Step, StepInputs, Steps};
use tv_value::{NoMemory, Sequence};

/// A step that asks one service for a text, its output `o`.
fn asks(alloc: Global, service: &str, inputs: StepInputs) -> Result<Step, NoMemory>
    ensures { IfOk result (λ s. step_view s ≡ asks service.now (each step_input_view inputs)) }
{
    Ok(Step {
        inputs,
        outputs: depth(alloc, "o", 0)?,
        strategy: None,
        activities: one(alloc, Activity::Service(name(alloc, service)?))?,
        retries: 0,
        jobs: 1,
        after: Sequence::empty(alloc),
        repeat: None,
    })
}

/// Each text of `x` before each of `y`.
fn concat_step(alloc: Global) -> Result<Step, NoMemory>
    ensures { IfOk result (λ s. step_view s ≡ parts.concat_step) }
{
    let first = takes(alloc, "a", from_input(alloc, "x")?)?;
    let second = takes(alloc, "b", from_input(alloc, "y")?)?;
    let mut step = asks(alloc, "concat", two(alloc, first, second)?)?;
    step.jobs = 8;
    Ok(step)
}

/// The first attempt of each job isn't right.
fn flaky_step(alloc: Global) -> Result<Step, NoMemory>
    ensures { IfOk result (λ s. step_view s ≡ parts.flaky_step) }
{
    let text = takes(alloc, "a", from_step(alloc, "c")?)?;
    let attempts = takes(alloc, "n", constant(alloc, "1")?)?;
    let mut step = asks(alloc, "flaky", two(alloc, text, attempts)?)?;
    step.retries = 1;
    step.jobs = 8;
    Ok(step)
}

/// The text `true` makes a fault.
fn fail_step(alloc: Global) -> Result<Step, NoMemory>
    ensures { IfOk result (λ s. step_view s ≡ parts.fail_step) }
{
    let text = takes(alloc, "a", from_step(alloc, "f")?)?;
    let mut step = asks(alloc, "fail_if", one(alloc, text)?)?;
    step.jobs = 8;
    Ok(step)
}

/// Each text goes through a flow of its own.
fn nested_step(alloc: Global) -> Result<Step, NoMemory>
    ensures { IfOk result (λ s. step_view s ≡ parts.nested_step) }
{
    let text = takes(alloc, "a", from_step(alloc, "g")?)?;
    let mut step = asks(alloc, "sub", one(alloc, text)?)?;
    step.activities = one(alloc, Activity::Nested(name(alloc, "sub")?))?;
    step.jobs = 4;
    Ok(step)
}

/// The step of the nested flow.
pub(crate) fn upper_step(alloc: Global) -> Result<Step, NoMemory>
    ensures { IfOk result (λ s. step_view s ≡ parts.upper_step) }
{
    let text = takes(alloc, "a", from_input(alloc, "a")?)?;
    asks(alloc, "upper", one(alloc, text)?)
}

/// The steps of the main flow.
pub(crate) fn main_steps(alloc: Global) -> Result<Steps, NoMemory>
    ensures { IfOk result (λ ss. each step_view ss ≡ parts.main_steps) }
{
    let mut steps = Vec::new(alloc);
    steps.push((name(alloc, "c")?, concat_step(alloc)?))?;
    steps.push((name(alloc, "f")?, flaky_step(alloc)?))?;
    steps.push((name(alloc, "g")?, fail_step(alloc)?))?;
    steps.push((name(alloc, "n")?, nested_step(alloc)?))?;
    Ok(Sequence::of(steps))
}
