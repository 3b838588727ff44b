// Outcomes of one value.
ghost use Rattle.std.specs.Prelude.{◌≡◌, [], ◌∷◌, map, IfOk, string_bytes, decimal, codes};
ghost use Rattle.tv_value.specs.Nested.{trees_of};
ghost use Rattle.tv_value.specs.Values.{list_value};
ghost use Rattle.tv_value.specs.Views.{view};
ghost use Rattle.tv_gate.specs.Outcomes.{good, bad};
ghost use Rattle.tv_gate.specs.Views.{outcome_view};
ghost use Rattle.tv_local.specs.Table.{one_text, one_number};

use std::alloc::Global;
use tv_gate::Outcome;
use tv_value::{Items, NoMemory, Text, Value};

/// A value.
pub(crate) fn good_value(alloc: Global, value: Value) -> Result<Outcome, NoMemory>
    ensures { IfOk result (λ o. outcome_view o ≡ good (view value ∷ [])) }
{
    let mut values = Vec::with_capacity(alloc, 1)?;
    values.push(value)?;
    Ok(Outcome::Good(Items::of(values)))
}

/// A text.
pub(crate) fn good_text(alloc: Global, text: String) -> Result<Outcome, NoMemory>
    ensures { IfOk result (λ o. outcome_view o ≡ one_text (string_bytes text)) }
{
    good_value(alloc, Value::Text(Text::of(text)))
}

/// A copy of a text.
pub(crate) fn good_copy(alloc: Global, text: &str) -> Result<Outcome, NoMemory>
    ensures { IfOk result (λ o. outcome_view o ≡ one_text text.now) }
{
    good_value(alloc, Value::Text(Text::from_str(alloc, text)?))
}

/// A list.
pub(crate) fn good_list(alloc: Global, values: Vec<Value>) -> Result<Outcome, NoMemory>
    ensures { IfOk result (λ o. outcome_view o ≡ good (list_value (trees_of (map view values.items))
        ∷ [])) }
{
    good_value(alloc, Value::List(Items::of(values)))
}

/// A number.
pub(crate) fn good_number(alloc: Global, number: i64) -> Result<Outcome, NoMemory>
    ensures { IfOk result (λ o. outcome_view o ≡ one_number number) }
{
    good_text(alloc, format!(in alloc; "{number}")?)
}

/// How many there are.
pub(crate) fn good_count(alloc: Global, count: usize) -> Result<Outcome, NoMemory>
    ensures { IfOk result (λ o. outcome_view o ≡ one_text (decimal count)) }
{
    good_text(alloc, format!(in alloc; "{count}")?)
}

/// A refusal.
pub(crate) fn refused(alloc: Global, why: &str) -> Result<Outcome, NoMemory>
    ensures { IfOk result (λ o. outcome_view o ≡ bad why.now) }
{
    Ok(Outcome::Bad(Text::from_str(alloc, why)?))
}
