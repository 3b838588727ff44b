// Services that give a list of the texts of lists.
ghost use Rattle.std.specs.Prelude.{◌≡◌, ◌++◌, ◌∷◌, [], map, take, IfOk, OnOk, string_bytes};
ghost use Rattle.tv_value.specs.Values.{text_value};
ghost use Rattle.tv_value.specs.Views.{view};
ghost use Rattle.tv_gate.specs.Views.{outcome_view};
ghost use Rattle.tv_local.specs.Lists.{distinct, shared, flat};
ghost use Rattle.tv_local.specs.Reading.{text_of, texts_of, number_of};
ghost use Rattle.tv_local.specs.Table.{with_one, one_list, take_of};

use crate::answer::{good_count, good_list, good_value, refused};
use crate::input::{items_of, number_of, text_of};
use crate::row::Local;
use std::alloc::Global;
use std::collections::BTreeSet;
use tv_gate::Outcome;
use tv_value::{NoMemory, Text, Value};

/// Puts a text at the end.
pub(crate) fn push_text(alloc: Global, values: &mut Vec<Value>, text: &str) -> Result<(), NoMemory>
    ensures { OnOk result (map view values.new.items ≡ map view values.old.items
        ++ text_value text.now ∷ []) }
{
    values.push(Value::Text(Text::from_str(alloc, text)?))?;
    Ok(())
}

/// Puts a text at the end, without a copy.
pub(crate) fn push_string(values: &mut Vec<Value>, text: String) -> Result<(), NoMemory>
    ensures { OnOk result (map view values.new.items ≡ map view values.old.items
        ++ text_value (string_bytes text) ∷ []) }
{
    values.push(Value::Text(Text::of(text)))?;
    Ok(())
}

/// Puts the texts of values at the end.
fn push_texts(alloc: Global, texts: &mut Vec<Value>, values: &[Value]) -> Result<(), NoMemory>
    ensures { OnOk result (map view texts.new.items ≡ map view texts.old.items
        ++ map text_value (map text_of (map view values.now))) }
{
    for value in values {
        push_text(alloc, texts, text_of(value))?;
    }
    Ok(())
}

/// The texts of values.
fn copy_texts(alloc: Global, values: &[Value]) -> Result<Vec<Value>, NoMemory>
    ensures { IfOk result (λ vs. map view vs.items
        ≡ map text_value (map text_of (map view values.now))) }
{
    let mut texts = Vec::with_capacity(alloc, values.len())?;
    push_texts(alloc, &mut texts, values)?;
    Ok(texts)
}

pub(crate) fn echo(alloc: Global, value: &Value) -> Result<Outcome, NoMemory>
    ensures { IfOk result (λ o. outcome_view o ≡ with_one Local.Echo (view value.now)) }
{
    good_value(alloc, value.copy(alloc)?)
}

pub(crate) fn count(alloc: Global, list: &Value) -> Result<Outcome, NoMemory>
    ensures { IfOk result (λ o. outcome_view o ≡ with_one Local.Count (view list.now)) }
{
    good_count(alloc, items_of(list).len())
}

pub(crate) fn reverse(alloc: Global, list: &Value) -> Result<Outcome, NoMemory>
    ensures { IfOk result (λ o. outcome_view o ≡ with_one Local.Reverse (view list.now)) }
{
    let mut texts = copy_texts(alloc, items_of(list))?;
    texts.reverse();
    good_list(alloc, texts)
}

pub(crate) fn take(alloc: Global, list: &Value, count: &Value) -> Result<Outcome, NoMemory>
    ensures { IfOk result (λ o. outcome_view o ≡ take_of (texts_of (view list.now))
        (number_of (view count.now))) }
{
    let count = number_of(count);
    if count < 0 {
        return refused(alloc, "take wants a count");
    }
    good_list(alloc, first_texts(alloc, items_of(list), count as usize)?)
}

/// The texts of the first so many values, of all where there are fewer.
fn first_texts(alloc: Global, values: &[Value], count: usize) -> Result<Vec<Value>, NoMemory>
    ensures { IfOk result (λ vs. map view vs.items
        ≡ map text_value (take count (map text_of (map view values.now)))) }
{
    if count >= values.len() {
        return copy_texts(alloc, values);
    }
    let (first, _) = values.split_at(count);
    copy_texts(alloc, first)
}

pub(crate) fn flatten(alloc: Global, lists: &Value) -> Result<Outcome, NoMemory>
    ensures { IfOk result (λ o. outcome_view o ≡ with_one Local.Flatten (view lists.now)) }
{
    let texts = flat(alloc, items_of(lists))?;
    if texts.len() >= 1 << 32 {
        return refused(alloc, "flatten too long");
    }
    good_list(alloc, texts)
}

/// The texts of lists, one list after the other.
fn flat(alloc: Global, lists: &[Value]) -> Result<Vec<Value>, NoMemory>
    ensures { IfOk result (λ vs. map view vs.items
        ≡ map text_value (flat (map texts_of (map view lists.now)))) }
{
    let mut texts = Vec::new(alloc);
    for list in lists {
        push_texts(alloc, &mut texts, items_of(list))?;
    }
    Ok(texts)
}

pub(crate) fn distinct(alloc: Global, list: &Value) -> Result<Outcome, NoMemory>
    ensures { IfOk result (λ o. outcome_view o ≡ with_one Local.Distinct (view list.now)) }
{
    good_list(alloc, distinct_texts(alloc, items_of(list))?)
}

/// Each text of values once, in order of first occurrence. Takes n log n comparisons.
fn distinct_texts(alloc: Global, values: &[Value]) -> Result<Vec<Value>, NoMemory>
    ensures { IfOk result (λ vs. map view vs.items
        ≡ map text_value (distinct (map text_of (map view values.now)))) }
{
    let mut seen = BTreeSet::new(alloc);
    let mut texts = Vec::new(alloc);
    for value in values {
        let text = text_of(value);
        if seen.insert(text)? {
            push_text(alloc, &mut texts, text)?;
        }
    }
    Ok(texts)
}

pub(crate) fn intersect(alloc: Global, list: &Value, others: &Value) -> Result<Outcome, NoMemory>
    ensures { IfOk result (λ o. outcome_view o
        ≡ one_list (shared (texts_of (view list.now)) (texts_of (view others.now)))) }
{
    good_list(
        alloc,
        shared_texts(alloc, items_of(list), items_of(others))?,
    )
}

/// The texts of values that are among those of others. Takes n log n comparisons.
fn shared_texts(alloc: Global, values: &[Value], others: &[Value]) -> Result<Vec<Value>, NoMemory>
    ensures { IfOk result (λ vs. map view vs.items
        ≡ map text_value (shared (map text_of (map view values.now))
        (map text_of (map view others.now)))) }
{
    let mut wanted = BTreeSet::new(alloc);
    for other in others {
        wanted.insert(text_of(other))?;
    }
    let mut texts = Vec::new(alloc);
    for value in values {
        let text = text_of(value);
        if wanted.contains(text) {
            push_text(alloc, &mut texts, text)?;
        }
    }
    Ok(texts)
}
