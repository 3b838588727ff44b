// Services of numbers and attempts.
ghost use Rattle.std.specs.Prelude.{◌≡◌, ◌≤◌, ◌<◌, ◌^◌, ◌+ℤ◌, ◌-ℤ◌, ◌≤ℤ◌, pos, map, IfOk, MatchOption, codes};
ghost use Rattle.std.specs.Fmt.{signed_decimal};
ghost use Rattle.tv_value.specs.Values.{text_value};
ghost use Rattle.tv_value.specs.Views.{view};
ghost use Rattle.tv_gate.specs.Views.{outcome_view};
ghost use Rattle.tv_local.specs.Numbers.{count_up, span};
ghost use Rattle.tv_local.specs.Table.{number_or, range_of, range_limit, flaky_of};
ghost use Rattle.tv_local.specs.Reading.{text_of, number_of};

use crate::answer::{good_copy, good_list, good_number, refused};
use crate::input::{number_of, text_of};
use crate::list::push_string;
use std::alloc::Global;
use tv_gate::Outcome;
use tv_value::{NoMemory, Text, Value};

pub(crate) fn add(alloc: Global, first: &Value, second: &Value) -> Result<Outcome, NoMemory>
    ensures { IfOk result (λ o. outcome_view o ≡ number_or (codes "add out of range")
        (number_of (view first.now) +ℤ number_of (view second.now))) }
{
    match number_of(first).checked_add(number_of(second)) {
        Some(sum) => good_number(alloc, sum),
        None => refused(alloc, "add out of range"),
    }
}

pub(crate) fn subtract(alloc: Global, first: &Value, second: &Value) -> Result<Outcome, NoMemory>
    ensures { IfOk result (λ o. outcome_view o ≡ number_or (codes "subtract out of range")
        (number_of (view first.now) -ℤ number_of (view second.now))) }
{
    match number_of(first).checked_sub(number_of(second)) {
        Some(rest) => good_number(alloc, rest),
        None => refused(alloc, "subtract out of range"),
    }
}

/// The most numbers that `range` gives.
const RANGE_LIMIT: u64 = 100_000;

pub(crate) fn range(alloc: Global, first: &Value, last: &Value) -> Result<Outcome, NoMemory>
    ensures { IfOk result (λ o. outcome_view o ≡ range_of (number_of (view first.now))
        (number_of (view last.now))) }
{
    let first = number_of(first);
    let last = number_of(last);
    match span(first, last) {
        Some(count) => good_list(alloc, numbers(alloc, first, count)?),
        None => refused(alloc, "range too long"),
    }
}

/// How many numbers there are from one to another, or `None` for more than 100,000.
fn span(first: i64, last: i64) -> Option<u64>
    ensures { MatchOption result (range_limit < span first last) (λ n. (n ≡ span first last)
        × (n ≤ range_limit)) }
{
    if last < first {
        return Some(0);
    }
    let more = last.abs_diff(first);
    if more >= RANGE_LIMIT {
        return None;
    }
    Some(more + 1)
}

/// The texts of so many numbers, from this one on.
fn numbers(alloc: Global, first: i64, count: u64) -> Result<Vec<Value>, NoMemory>
    requires few { count ≤ range_limit }
    requires fits { (first +ℤ pos count) ≤ℤ pos (2 ^ 63) }
    ensures { IfOk result (λ vs. map view vs.items
        ≡ map text_value (map signed_decimal (count_up first count))) }
{
    let mut texts = Vec::with_capacity(alloc, count as usize)?;
    for step in 0..count {
        let number = first + step as i64;
        let text = format!(in alloc; "{number}")?;
        push_string(&mut texts, text)?;
    }
    Ok(texts)
}

pub(crate) fn flaky(
    alloc: Global,
    text: &Value,
    count: &Value,
    attempt: u32,
) -> Result<Outcome, NoMemory>
    ensures { IfOk result (λ o. outcome_view o ≡ flaky_of (text_of (view text.now))
        (number_of (view count.now)) attempt) }
{
    if i64::from(attempt) >= number_of(count) {
        return good_copy(alloc, text_of(text));
    }
    let why = format!(in alloc; "flaky attempt {attempt}")?;
    Ok(Outcome::Bad(Text::of(why)))
}
