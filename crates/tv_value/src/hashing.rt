ghost use Rattle.std.specs.Prelude.{◌≡◌, fold};
ghost use Rattle.tv_value.specs.Views.{view, items_view};
ghost use Rattle.tv_value.specs.Writes.{value_writes, values_writes};

use crate::value::{Items, Value};
use std::hash::{Hash, Hasher};

/// Feeds a value to a hasher, alike for values that are the same. Linear in its size. Takes no memory.
#[cycle(hash_value)]
pub fn hash_value<H: Hasher>(value: &Value, state: &mut H)
    ensures { state.new ≡ fold H.write state.old (value_writes (view value.now)) }
{
    match value {
        Value::Text(text) => text.as_str().hash(state),
        Value::List(items) => hash_values(items, state),
        Value::Fault(_) => {}
    }
}

/// Feeds a list of values to a hasher. Linear in its size. Takes no memory.
#[cycle(hash_value)]
pub fn hash_values<H: Hasher>(items: &Items, state: &mut H)
    ensures { state.new ≡ fold H.write state.old (values_writes (items_view items.now)) }
{
    for value in &items.values {
        hash_value(value, state);
    }
    state.write_u8(0);
}
