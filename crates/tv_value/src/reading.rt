// Values read from JSON trees.
ghost use Rattle.std.specs.Prelude.{◌≡◌, ◌<◌, ◌^◌, IfOk, Ok, ◌∷◌, length};
ghost use Rattle.serde_json.specs.View.{view as json_view, items_view as json_items, number_view};
ghost use Rattle.tv_value.specs.Readings.{read, read_items, read_number, read_list};
ghost use Rattle.serde_json.specs.Data.{array};
ghost use Rattle.tv_value.specs.Views.{items_view};
ghost use Rattle.tv_value.specs.Answers.{IsReading, IsReadingOfItems, IsWithin};

use crate::depth::DepthSet;
use crate::memory::NoMemory;
use crate::place::Place;
use crate::text::Text;
use crate::value::{Items, Value};
use serde_json::Number;
use std::alloc::{AllocError, AllocFailed, Global};
use thiserror::Error;

/// Why a JSON tree is no value, with the place of what is wrong in it.
#[derive(Debug, Drop, Error)]
pub enum ValueFault {
    /// Neither a string, nor an integer, nor an array.
    #[error("neither a text, nor an integer, nor a list")]
    NotText(Place),
    /// A list whose items have no depth in common, or that has 2^32 items or more.
    #[error("the items of a list have no depth in common")]
    Ragged(Place),
    /// Want of memory.
    #[error("want of memory")]
    NoMemory,
}

impl From<AllocError> for ValueFault {
    ghost use Rattle.tv_value.specs.declared.reading.ValueFault.TheVariants.{NoMemory};

    ghost from_gives = { λ _ e. e ≡ NoMemory };

    fn from(_e: AllocError) -> ValueFault {
        ValueFault::NoMemory
    }
}

impl<T: Drop> From<AllocFailed<T>> for ValueFault {
    ghost use Rattle.tv_value.specs.declared.reading.ValueFault.TheVariants.{NoMemory};

    ghost from_gives = { λ _ e. e ≡ NoMemory };

    fn from(_e: AllocFailed<T>) -> ValueFault {
        ValueFault::NoMemory
    }
}

/// The value of a JSON tree: a text of a string, the text of a number's digits, a list of an array.
///
/// Items are read in order and a list itself after them; the first fault is answered. Linear in the tree.
#[cycle(reading)]
pub fn value_of(alloc: Global, json: &serde_json::Value) -> Result<Value, ValueFault>
    ensures { IsReading result (read (json_view json.now)) }
{
    match json {
        serde_json::Value::String(text) => match Text::from_str(alloc, text.as_str()) {
            Ok(text) => Ok(Value::Text(text)),
            Err(NoMemory) => Err(ValueFault::NoMemory),
        },
        serde_json::Value::Number(number) => number_value(alloc, number),
        serde_json::Value::Array(items) => list_of(alloc, items),
        _ => Err(ValueFault::NotText(Place::top(alloc))),
    }
}

#[cycle(reading)]
fn list_of(alloc: Global, items: &Vec<serde_json::Value>) -> Result<Value, ValueFault>
    ensures { IsReading result (read (array (json_items items.now.items))) }
{
    if items.len() >= 1 << 32 {
        return Err(ValueFault::Ragged(Place::top(alloc)));
    }
    match items_of(alloc, items) {
        Ok(items) => with_depth(alloc, items),
        Err(fault) => Err(fault),
    }
}

fn with_depth(alloc: Global, items: Items) -> Result<Value, ValueFault>
    ensures { IsReading result (read_list (Ok (items_view items))) }
{
    match items.common_depths().one_deeper() {
        DepthSet::NoDepth => Err(ValueFault::Ragged(Place::top(alloc))),
        _ => Ok(Value::List(items)),
    }
}

#[cycle(reading)]
fn items_of(alloc: Global, items: &Vec<serde_json::Value>) -> Result<Items, ValueFault>
    requires { length items.now.items < 2 ^ 32 }
    ensures { IsReadingOfItems result (read_items 0 (json_items items.now.items)) }
{
    let mut values = Vec::with_capacity(alloc, items.len())?;
    for index in 0..items.len() {
        match value_of(alloc, &items[index]) {
            Ok(value) => values.push(value)?,
            Err(fault) => return Err(within(index as u32, fault)),
        }
    }
    Ok(Items { values })
}

fn within(index: u32, fault: ValueFault) -> ValueFault
    ensures { IsWithin index fault result }
{
    match fault {
        ValueFault::NotText(place) => match place.below(index) {
            Ok(place) => ValueFault::NotText(place),
            Err(_) => ValueFault::NoMemory,
        },
        ValueFault::Ragged(place) => match place.below(index) {
            Ok(place) => ValueFault::Ragged(place),
            Err(_) => ValueFault::NoMemory,
        },
        ValueFault::NoMemory => ValueFault::NoMemory,
    }
}

fn number_value(alloc: Global, number: &Number) -> Result<Value, ValueFault>
    ensures { IsReading result (read_number (number_view number.now)) }
{
    if let Some(n) = number.as_u64() {
        let inside = format!(in alloc; "{n}")?;
        return Ok(Value::Text(Text::of(inside)));
    }
    if let Some(n) = number.as_i64() {
        let inside = format!(in alloc; "{n}")?;
        return Ok(Value::Text(Text::of(inside)));
    }
    Err(ValueFault::NotText(Place::top(alloc)))
}
