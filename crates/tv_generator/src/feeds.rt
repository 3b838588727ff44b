//! Names, and where ports take their values from.
ghost use Rattle.std.specs.Prelude.{◌≡◌, ◌∷◌, [], IfOk};
ghost use Rattle.tv_flow.specs.Views.{feed_view, step_input_view};
ghost use Rattle.tv_model.specs.Writing as spec;

use std::alloc::Global;
use tv_flow::{Feed, StepInput};
use tv_value::{Depths, Name, NoMemory, Sequence, Text, Value};

pub(crate) fn name(alloc: Global, text: &str) -> Result<Name, NoMemory>
    ensures { IfOk result (λ n. n ≡ text.now) }
{
    Text::from_str(alloc, text)
}

/// A list of one thing.
pub(crate) fn one<T: Drop>(alloc: Global, thing: T) -> Result<Sequence<T>, NoMemory>
    ensures { IfOk result (λ s. s ≡ thing ∷ []) }
{
    let mut things = Vec::new(alloc);
    things.push(thing)?;
    Ok(Sequence::of(things))
}

/// A list of two things.
pub(crate) fn two<T: Drop>(alloc: Global, first: T, second: T) -> Result<Sequence<T>, NoMemory>
    ensures { IfOk result (λ s. s ≡ first ∷ second ∷ []) }
{
    let mut things = Vec::new(alloc);
    things.push(first)?;
    things.push(second)?;
    Ok(Sequence::of(things))
}

/// One name with a depth.
pub(crate) fn depth(alloc: Global, text: &str, depth: u32) -> Result<Depths, NoMemory>
    ensures { IfOk result (λ ds. ds ≡ (text.now, depth) ∷ []) }
{
    one(alloc, (name(alloc, text)?, depth))
}

/// An input of the flow.
pub(crate) fn from_input(alloc: Global, input: &str) -> Result<Feed, NoMemory>
    ensures { IfOk result (λ f. feed_view f ≡ spec.from_input input.now) }
{
    Ok(Feed::Input(name(alloc, input)?))
}

/// The output `o` of a step.
pub(crate) fn from_step(alloc: Global, step: &str) -> Result<Feed, NoMemory>
    ensures { IfOk result (λ f. feed_view f ≡ spec.from_step step.now) }
{
    Ok(Feed::Output(name(alloc, step)?, name(alloc, "o")?))
}

/// A text.
pub(crate) fn constant(alloc: Global, text: &str) -> Result<Feed, NoMemory>
    ensures { IfOk result (λ f. feed_view f ≡ spec.constant_text text.now) }
{
    Ok(Feed::Constant(Value::Text(name(alloc, text)?)))
}

/// A port that takes texts.
pub(crate) fn takes(alloc: Global, port: &str, from: Feed) -> Result<(Name, StepInput), NoMemory>
    ensures { IfOk result (λ i. (i.0, step_input_view i.1) ≡ spec.takes port.now (feed_view from)) }
{
    let input = StepInput { depth: 0, from };
    Ok((name(alloc, port)?, input))
}
