// Services that give a text, or cut one.
ghost use Rattle.std.specs.Prelude.{◌≡◌, ◌<◌, ◌++◌, map, length, IfOk, string_bytes};
ghost use Rattle.std.specs.Str.{chars};
ghost use Rattle.tv_value.specs.Values.{text_value};
ghost use Rattle.tv_value.specs.Views.{view};
ghost use Rattle.tv_gate.specs.Views.{outcome_view};
ghost use Rattle.tv_local.specs.Texts.{joined, parts};
ghost use Rattle.tv_local.specs.Reading.{text_of, texts_of};
ghost use Rattle.tv_local.specs.Table.{with_one, one_text, split_by};

use crate::answer::{good_copy, good_count, good_list, good_text, refused};
use crate::input::{items_of, text_of};
use crate::list::push_text;
use crate::row::Local;
use arrayvec::ArrayString;
use std::alloc::Global;
use tv_gate::Outcome;
use tv_value::{NoMemory, Value};

pub(crate) fn upper(alloc: Global, value: &Value) -> Result<Outcome, NoMemory>
    ensures { IfOk result (λ o. outcome_view o ≡ with_one Local.Upper (view value.now)) }
{
    let mut text = String::from_str(alloc, text_of(value))?;
    text.make_ascii_uppercase();
    good_text(alloc, text)
}

pub(crate) fn lower(alloc: Global, value: &Value) -> Result<Outcome, NoMemory>
    ensures { IfOk result (λ o. outcome_view o ≡ with_one Local.Lower (view value.now)) }
{
    let mut text = String::from_str(alloc, text_of(value))?;
    text.make_ascii_lowercase();
    good_text(alloc, text)
}

pub(crate) fn length(alloc: Global, value: &Value) -> Result<Outcome, NoMemory>
    ensures { IfOk result (λ o. outcome_view o ≡ with_one Local.Length (view value.now)) }
{
    good_count(alloc, char_count(text_of(value)))
}

/// The number of characters.
fn char_count(text: &str) -> usize
    ensures { result ≡ length (chars text.now) }
{
    text.chars().count()
}

pub(crate) fn fail_if(alloc: Global, value: &Value) -> Result<Outcome, NoMemory>
    ensures { IfOk result (λ o. outcome_view o ≡ with_one Local.FailIf (view value.now)) }
{
    let text = text_of(value);
    if text == "true" {
        return refused(alloc, "told to fail");
    }
    good_copy(alloc, text)
}

pub(crate) fn concat(alloc: Global, first: &Value, second: &Value) -> Result<Outcome, NoMemory>
    ensures { IfOk result (λ o. outcome_view o ≡ one_text (text_of (view first.now)
        ++ text_of (view second.now))) }
{
    let (first, second) = (text_of(first), text_of(second));
    if let Ok(mut text) = ArrayString::<16>::from(first) {
        if text.try_push_str(second).is_ok() {
            return good_copy(alloc, text.as_str());
        }
    }
    let mut text = String::with_capacity(alloc, first.len().saturating_add(second.len()))?;
    text.push_str(first)?;
    text.push_str(second)?;
    good_text(alloc, text)
}

pub(crate) fn join(alloc: Global, list: &Value, between: &Value) -> Result<Outcome, NoMemory>
    ensures { IfOk result (λ o. outcome_view o
        ≡ one_text (joined (text_of (view between.now)) (texts_of (view list.now)))) }
{
    let text = joined(alloc, items_of(list), text_of(between))?;
    good_text(alloc, text)
}

/// The texts of values with another between each two. Linear in what it gives.
fn joined(alloc: Global, values: &[Value], between: &str) -> Result<String, NoMemory>
    ensures { IfOk result (λ t. string_bytes t
        ≡ joined between.now (map text_of (map view values.now))) }
{
    let Some((first, others)) = values.split_first() else {
        return Ok(String::new(alloc));
    };
    let mut text = String::from_str(alloc, text_of(first))?;
    for value in others {
        text.push_str(between)?;
        text.push_str(text_of(value))?;
    }
    Ok(text)
}

pub(crate) fn split(alloc: Global, text: &Value, by: &Value) -> Result<Outcome, NoMemory>
    ensures { IfOk result (λ o. outcome_view o ≡ split_by (text_of (view text.now))
        (text_of (view by.now))) }
{
    let by = text_of(by);
    if by.is_empty() {
        return refused(alloc, "split wants a separator");
    }
    let parts = parts(alloc, text_of(text), by)?;
    if parts.len() >= 1 << 32 {
        return refused(alloc, "split too long");
    }
    good_list(alloc, parts)
}

/// The parts of a text between the occurrences of a separator. Linear in the text.
fn parts(alloc: Global, text: &str, by: &str) -> Result<Vec<Value>, NoMemory>
    requires { 0 < length by.now }
    ensures { IfOk result (λ vs. map view vs.items ≡ map text_value (parts by.now text.now)) }
{
    let mut parts = Vec::new(alloc);
    let mut rest = text;
    while let Some((part, after)) = rest.split_once(by) {
        push_text(alloc, &mut parts, part)?;
        rest = after;
    }
    push_text(alloc, &mut parts, rest)?;
    Ok(parts)
}
