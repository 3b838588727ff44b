//! The places of the leaves of a value, by the pieces that it is made of.
ghost use Rattle.std.specs.Prelude.{◌≡◌, ◌++◌, [], OnOk, map};
ghost use Rattle.tv_value.specs.Nested.{trees_of};
ghost use Rattle.tv_value.specs.Views.{items_view, view};
ghost use Rattle.tv_cell.specs.PieceValues.{piece_value};
ghost use Rattle.tv_traces.specs.Leaves.{leaf_places, places_from};

use crate::copies::item_place;
use std::alloc::Global;
use tv_cell::Piece;
use tv_value::{Items, NoMemory, Place, Value};

/// Pushes the places of the leaves, below a place, in order. Linear in these and in the lists.
#[cycle(leaves)]
pub(crate) fn push_piece_places(
    alloc: Global,
    piece: &Piece,
    place: &[u32],
    places: &mut Vec<Place>,
) -> Result<(), NoMemory>
    ensures { OnOk result (places.new.items ≡ places.old.items
        ++ leaf_places place.now (piece_value piece.now)) }
{
    match piece {
        Piece::Part(cell, start) => match cell.at(start) {
            Some(value) => push_value_places(alloc, value, place, places),
            None => {
                places.push(Place::of(alloc, place)?)?;
                Ok(())
            }
        },
        Piece::List(pieces) => push_pieces_places(alloc, pieces.as_slice(), place, places),
        Piece::Fault(_, _, _) => {
            places.push(Place::of(alloc, place)?)?;
            Ok(())
        }
    }
}

#[cycle(leaves)]
fn push_pieces_places(
    alloc: Global,
    pieces: &[Piece],
    place: &[u32],
    places: &mut Vec<Place>,
) -> Result<(), NoMemory>
    ensures { OnOk result (places.new.items ≡ places.old.items
        ++ places_from place.now 0 (trees_of (map piece_value pieces.now))) }
{
    for (index, piece) in pieces.iter().enumerate() {
        let Ok(number) = u32::try_from(index) else {
            return Err(NoMemory);
        };
        let inner = item_place(alloc, place, number)?;
        push_piece_places(alloc, piece, inner.as_slice(), places)?;
    }
    Ok(())
}

/// The same of a value.
#[cycle(value_leaves)]
fn push_value_places(
    alloc: Global,
    value: &Value,
    place: &[u32],
    places: &mut Vec<Place>,
) -> Result<(), NoMemory>
    ensures { OnOk result (places.new.items ≡ places.old.items
        ++ leaf_places place.now (view value.now)) }
{
    match value {
        Value::List(items) => push_items_places(alloc, items, place, places),
        Value::Text(_) => {
            places.push(Place::of(alloc, place)?)?;
            Ok(())
        }
        Value::Fault(_) => {
            places.push(Place::of(alloc, place)?)?;
            Ok(())
        }
    }
}

#[cycle(value_leaves)]
fn push_items_places(
    alloc: Global,
    items: &Items,
    place: &[u32],
    places: &mut Vec<Place>,
) -> Result<(), NoMemory>
    ensures { OnOk result (places.new.items ≡ places.old.items
        ++ places_from place.now 0 (items_view items.now)) }
{
    push_values_places(alloc, &items.values, place, places)
}

#[cycle(value_leaves)]
fn push_values_places(
    alloc: Global,
    values: &[Value],
    place: &[u32],
    places: &mut Vec<Place>,
) -> Result<(), NoMemory>
    ensures { OnOk result (places.new.items ≡ places.old.items
        ++ places_from place.now 0 (trees_of (map view values.now))) }
{
    for (index, value) in values.iter().enumerate() {
        let Ok(number) = u32::try_from(index) else {
            return Err(NoMemory);
        };
        let inner = item_place(alloc, place, number)?;
        push_value_places(alloc, value, inner.as_slice(), places)?;
    }
    Ok(())
}
