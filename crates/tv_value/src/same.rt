ghost use Rattle.std.specs.Prelude.{◌≡◌, map};
ghost use Rattle.tv_value.specs.Views.{error_view, items_view, view};
ghost use Rattle.tv_value.specs.Sameness.{same_document, same_trees, same_value, same_values};

use crate::value::{ErrorDoc, Items, Value};

/// Whether two values are the same. Linear in what they have in common. Takes no memory.
#[cycle(same_value)]
pub fn same_value(first: &Value, second: &Value) -> bool
    ensures { result ≡ same_value (view first.now) (view second.now) }
{
    match first {
        Value::Text(text) => match second {
            Value::Text(other) => text == other,
            Value::List(_) => false,
            Value::Fault(_) => false,
        },
        Value::List(items) => match second {
            Value::Text(_) => false,
            Value::List(others) => same_lists(items, others),
            Value::Fault(_) => false,
        },
        Value::Fault(error) => match second {
            Value::Text(_) => false,
            Value::List(_) => false,
            Value::Fault(other) => error.depth == other.depth && same_document(error, other),
        },
    }
}

/// Whether two lists of values are the same. Linear in what they have in common. Takes no memory.
#[cycle(same_value)]
pub fn same_lists(first: &Items, second: &Items) -> bool
    ensures { result ≡ same_trees (items_view first.now) (items_view second.now) }
{
    same_items(first.values.as_slice(), second.values.as_slice())
}

#[cycle(same_value)]
fn same_items(first: &[Value], second: &[Value]) -> bool
    ensures { result ≡ same_values (map view first.now) (map view second.now) }
{
    if first.len() != second.len() {
        return false;
    }
    for (index, value) in first.iter().enumerate() {
        if !same_value(value, &second[index]) {
            return false;
        }
    }
    true
}

/// Whether two error documents are the same but for their depths. Linear in what they have in common. Takes no memory.
pub fn same_document(first: &ErrorDoc, second: &ErrorDoc) -> bool
    ensures { result ≡ same_document (error_view first.now) (error_view second.now) }
{
    first.at == second.at && (first.why == second.why && first.from == second.from)
}
