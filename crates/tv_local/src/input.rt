// What a service reads of its inputs, and what it complains of.
ghost use Rattle.std.specs.Prelude.{◌≡◌, ◌<◌, ◌^◌, map, length, IfOk, Some};
ghost use Rattle.tv_value.specs.Nested.{trees_of, children};
ghost use Rattle.tv_value.specs.Views.{view};
ghost use Rattle.tv_local.specs.Reading.{text_of, items_of, number_of, shape_complaint, depth_complaint, number_complaint, first_of, complaint};

use crate::number::read_number;
use crate::row::Want;
use std::alloc::Global;
use tv_value::{NoMemory, Text, Value};

/// The text of a value that is one.
pub(crate) fn text_of(value: &Value) -> &str
    ensures { result.now ≡ text_of (view value.now) }
{
    match value {
        Value::Text(text) => text.as_str(),
        _ => "",
    }
}

/// The items of a list.
pub(crate) fn items_of(value: &Value) -> &[Value]
    ensures { map view result.now ≡ items_of (view value.now) }
{
    children_of(value)
}

fn children_of(value: &Value) -> &[Value]
    ensures { trees_of (map view result.now) ≡ children (view value.now) }
{
    match value {
        Value::List(items) => items.as_slice(),
        _ => &[],
    }
}

/// The number of a number text.
pub(crate) fn number_of(value: &Value) -> i64
    ensures { result ≡ number_of (view value.now) }
{
    read_number(text_of(value)).unwrap_or(0)
}

/// What is wrong with the inputs of a service, if anything: their number, then in order an error in one or a depth that
/// is lacking, then in order one that is no number.
pub(crate) fn complaint(
    alloc: Global,
    name: &str,
    wants: &[Want],
    inputs: &[Value],
) -> Result<Option<Text>, NoMemory>
    ensures { IfOk result (λ o. o ≡ complaint name.now wants.now (map view inputs.now)) }
{
    let count = wants.len();
    if inputs.len() != count {
        let why = format!(in alloc; "{name} wants {count} inputs")?;
        return Ok(Some(Text::of(why)));
    }
    if let Some(why) = first_shape_complaint(alloc, name, wants, inputs)? {
        return Ok(Some(why));
    }
    first_number_complaint(alloc, name, wants, inputs)
}

fn first_shape_complaint(
    alloc: Global,
    name: &str,
    wants: &[Want],
    inputs: &[Value],
) -> Result<Option<Text>, NoMemory>
    requires { length wants.now ≡ length inputs.now }
    ensures { IfOk result (λ o. o ≡ first_of (shape_complaint name.now) 1 wants.now
        (map view inputs.now)) }
{
    for index in 0..wants.len() {
        let found = shape_complaint(alloc, name, index + 1, wants[index], &inputs[index])?;
        if let Some(why) = found {
            return Ok(Some(why));
        }
    }
    Ok(None)
}

fn first_number_complaint(
    alloc: Global,
    name: &str,
    wants: &[Want],
    inputs: &[Value],
) -> Result<Option<Text>, NoMemory>
    requires { length wants.now ≡ length inputs.now }
    ensures { IfOk result (λ o. o ≡ first_of (number_complaint name.now) 1 wants.now
        (map view inputs.now)) }
{
    for index in 0..wants.len() {
        let found = number_complaint(alloc, name, index + 1, wants[index], &inputs[index])?;
        if let Some(why) = found {
            return Ok(Some(why));
        }
    }
    Ok(None)
}

fn shape_complaint(
    alloc: Global,
    name: &str,
    number: usize,
    want: Want,
    value: &Value,
) -> Result<Option<Text>, NoMemory>
    ensures { IfOk result (λ o. o ≡ shape_complaint name.now number want (view value.now)) }
{
    if value.holds_fault() {
        let why = format!(in alloc; "{name} input {number} holds an error")?;
        return Ok(Some(Text::of(why)));
    }
    let depth = match want {
        Want::Text | Want::Number => 0,
        Want::Texts => 1,
        Want::Lists => 2,
        Want::Any => return Ok(None),
    };
    depth_complaint(alloc, name, number, depth, value)
}

fn depth_complaint(
    alloc: Global,
    name: &str,
    number: usize,
    depth: u32,
    value: &Value,
) -> Result<Option<Text>, NoMemory>
    ensures { IfOk result (λ o. o ≡ depth_complaint name.now number (Some depth) (view value.now)) }
{
    if value.has_depth(depth) {
        return Ok(None);
    }
    let why = format!(in alloc; "{name} input {number} wants depth {depth}")?;
    Ok(Some(Text::of(why)))
}

fn number_complaint(
    alloc: Global,
    name: &str,
    number: usize,
    want: Want,
    value: &Value,
) -> Result<Option<Text>, NoMemory>
    ensures { IfOk result (λ o. o ≡ number_complaint name.now number want (view value.now)) }
{
    match want {
        Want::Number => {
            if read_number(text_of(value)).is_some() {
                return Ok(None);
            }
            let why = format!(in alloc; "{name} input {number} is no number")?;
            Ok(Some(Text::of(why)))
        }
        _ => Ok(None),
    }
}
