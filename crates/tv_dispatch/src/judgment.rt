ghost use Rattle.std.specs.Prelude.{◌≡◌, IfOk, map};
ghost use Rattle.tv_value.specs.Views.{view};
ghost use Rattle.tv_gate.specs.Outcomes.{good};
ghost use Rattle.tv_gate.specs.Views.{outcome_view};
ghost use Rattle.tv_dispatch.specs.Jobs.{judged, value_complaint};
ghost use Rattle.tv_dispatch.specs.Verdicts.{verdict_of};

use std::alloc::Global;
use tv_gate::Outcome;
use tv_value::{Copied, Depths, Name, NoMemory, Text, Value};

/// Whether an outcome is right.
#[derive(Debug, Drop)]
pub enum Verdict {
    Right,
    /// The reason why it isn't.
    Wrong(Text),
}

/// Judges an outcome by the declared depths of the outputs, in order of their names: it is right where it has one value
/// for each output, none of them holds an error, and each has its depth. A value that both holds an error and lacks its
/// depth is told as holding an error. Linear in the outcome's size at the most.
pub fn judge(alloc: Global, outputs: &Depths, outcome: &Outcome) -> Result<Verdict, NoMemory>
    ensures { IfOk result (λ v. v
        ≡ verdict_of (judged (map (λ o. o.1) outputs.now) (outcome_view outcome.now))) }
{
    match outcome {
        Outcome::Good(values) => judge_values(alloc, outputs.as_slice(), values.as_slice()),
        Outcome::Bad(why) => Ok(Verdict::Wrong(why.copy(alloc)?)),
    }
}

/// Judges the values of an outcome.
fn judge_values(
    alloc: Global,
    outputs: &[(Name, u32)],
    values: &[Value],
) -> Result<Verdict, NoMemory>
    ensures { IfOk result (λ v. v
        ≡ verdict_of (judged (map (λ o. o.1) outputs.now) (good (map view values.now)))) }
{
    let count = values.len();
    if count != outputs.len() {
        let why = format!(in alloc; "outcome has {count} values")?;
        return Ok(Verdict::Wrong(Text::of(why)));
    }
    for index in 0..count {
        let complaint = complaint(alloc, index + 1, outputs[index].1, &values[index])?;
        if let Some(why) = complaint {
            return Ok(Verdict::Wrong(why));
        }
    }
    Ok(Verdict::Right)
}

/// Why an output's value of this number, from 1, isn't right.
fn complaint(
    alloc: Global,
    number: usize,
    depth: u32,
    value: &Value,
) -> Result<Option<Text>, NoMemory>
    ensures { IfOk result (λ o. o ≡ value_complaint number depth (view value.now)) }
{
    if value.holds_fault() {
        let why = format!(in alloc; "outcome value {number} holds an error")?;
        return Ok(Some(Text::of(why)));
    }
    if value.has_depth(depth) {
        return Ok(None);
    }
    let why = format!(in alloc; "outcome value {number} lacks depth {depth}")?;
    Ok(Some(Text::of(why)))
}
