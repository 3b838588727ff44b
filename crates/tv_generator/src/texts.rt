//! The two lists of texts that the generated document runs on.
ghost use Rattle.std.specs.Prelude.{◌≡◌, ◌++◌, ◌∷◌, [], map, IfOk, OnOk};
ghost use Rattle.tv_value.specs.Values.{text_value};
ghost use Rattle.tv_value.specs.Views.{view};
ghost use Rattle.tv_model.specs.RowsOfSize.{is_tenth, texts_to};
ghost use Rattle.tv_generator.specs.Parts.{first_values, text_of};

use std::alloc::Global;
use tv_value::{Items, NoMemory, Text, Value};

/// One of the two lists.
#[derive(Clone, Copy)]
pub(crate) enum Side {
    /// The list `x`: `true` for each tenth, from the first on, else `x` and the index.
    Outer,
    /// The list `y`: the empty text for each tenth, from the first on, else the index.
    Inner,
}

/// So many texts of a list.
pub(crate) fn texts(alloc: Global, side: Side, number: u32) -> Result<Value, NoMemory>
    ensures { IfOk result (λ v. view v ≡ texts_to number (text_of side)) }
{
    let values = first_texts(alloc, side, number)?;
    Ok(Value::List(Items::of(values)))
}

fn first_texts(alloc: Global, side: Side, number: u32) -> Result<Vec<Value>, NoMemory>
    ensures { IfOk result (λ vs. map view vs.items ≡ first_values (text_of side) number) }
{
    let mut values = Vec::with_capacity(alloc, number as usize)?;
    for index in 0..number {
        let text = text_of(alloc, side, index)?;
        push_text(&mut values, text)?;
    }
    Ok(values)
}

fn push_text(values: &mut Vec<Value>, text: Text) -> Result<(), NoMemory>
    ensures { OnOk result (map view values.new.items ≡ map view values.old.items
        ++ text_value text ∷ []) }
{
    values.push(Value::Text(text))?;
    Ok(())
}

fn text_of(alloc: Global, side: Side, index: u32) -> Result<Text, NoMemory>
    ensures { IfOk result (λ t. t ≡ text_of side index) }
{
    match (side, is_tenth(index)) {
        (Side::Outer, true) => Text::from_str(alloc, "true"),
        (Side::Outer, false) => Ok(Text::of(format!(in alloc; "x{index}")?)),
        (Side::Inner, true) => Text::from_str(alloc, ""),
        (Side::Inner, false) => Ok(Text::of(format!(in alloc; "{index}")?)),
    }
}

fn is_tenth(index: u32) -> bool
    ensures { result ≡ is_tenth index }
{
    index % 10 == 0
}
