ghost use Rattle.std.specs.List.{list_any};
ghost use Rattle.std.specs.Prelude.{◌≡◌, OnOk, false, map};
ghost use Rattle.tv_value.specs.Nested.{list, trees_of};
ghost use Rattle.tv_value.specs.Values.{holds_fault};
ghost use Rattle.tv_value.specs.Views.{items_view, view};
ghost use Rattle.tv_cell.specs.PieceValues.{piece_value};
ghost use Rattle.tv_matching.specs.Matchers.{leaf_name};
ghost use Rattle.tv_telling.specs.Views.{AddsTellings};
ghost use Rattle.tv_telling.specs.ValueTellings.{value_told, values_told};

use crate::telling::{index_of, tell_bound, tell_fault, tell_list};
use std::alloc::Global;
use tv_cell::Piece;
use tv_match::Told;
use tv_value::{Items, NoMemory, Value};

/// Tells a leaf of what a piece stands for, at a place of the port's value, of which it walks so many levels more. Where it is
/// known to hold no fault no piece is asked for any, and the cost is that of the tellings. Else each piece at the end of the walk is
/// asked whether it is the one: linear besides in the pieces of lists there, and in parts of values with faults.
#[cycle(piece)]
pub(crate) fn tell_piece(
    alloc: Global,
    leaf: u32,
    levels: usize,
    place: &mut Vec<u32>,
    piece: &Piece,
    faulty: bool,
    tellings: &mut Vec<Told>,
) -> Result<(), NoMemory>
    requires faulty { faulty ≡ false → holds_fault (piece_value piece.now) ≡ false }
    ensures told { OnOk result (AddsTellings tellings.old.items tellings.new.items
        (λ s. value_told (leaf_name s leaf) levels place.old.items (piece_value piece.now))) }
    ensures place { OnOk result (place.new.items ≡ place.old.items) }
{
    if levels == 0 {
        let faulty = faulty && piece.holds_fault();
        return tell_bound(alloc, leaf, place.as_slice(), faulty, tellings);
    }
    match piece {
        Piece::Part(cell, start) => match cell.at(start) {
            Some(value) => {
                let faulty = faulty && cell.holds_fault();
                tell_value(alloc, leaf, levels, place, value, faulty, tellings)
            }
            None => Ok(()),
        },
        Piece::List(pieces) => {
            let pieces = pieces.as_slice();
            tell_list(alloc, leaf, place.as_slice(), pieces.len(), tellings)?;
            tell_pieces(alloc, leaf, levels - 1, place, pieces, faulty, tellings)
        }
        Piece::Fault(_, _, _) => tell_fault(alloc, leaf, place.as_slice(), tellings),
    }
}

/// Tells a leaf of each piece of a list at a place.
#[cycle(piece)]
fn tell_pieces(
    alloc: Global,
    leaf: u32,
    levels: usize,
    place: &mut Vec<u32>,
    pieces: &[Piece],
    faulty: bool,
    tellings: &mut Vec<Told>,
) -> Result<(), NoMemory>
    requires faulty { faulty ≡ false → list_any (λ p. holds_fault (piece_value p)) pieces.now
        ≡ false }
    ensures told { OnOk result (AddsTellings tellings.old.items tellings.new.items
        (λ s. values_told (leaf_name s leaf) levels place.old.items 0
        (trees_of (map piece_value pieces.now)))) }
    ensures place { OnOk result (place.new.items ≡ place.old.items) }
{
    tellings.reserve(pieces.len())?;
    for (index, piece) in pieces.iter().enumerate() {
        place.push(index_of(index)?)?;
        tell_piece(alloc, leaf, levels, place, piece, faulty, tellings)?;
        let _ = place.pop();
    }
    Ok(())
}

/// Tells a leaf of a value at a place. Where it is known to hold no fault it isn't looked through for any.
#[cycle(value)]
fn tell_value(
    alloc: Global,
    leaf: u32,
    levels: usize,
    place: &mut Vec<u32>,
    value: &Value,
    faulty: bool,
    tellings: &mut Vec<Told>,
) -> Result<(), NoMemory>
    requires faulty { faulty ≡ false → holds_fault (view value.now) ≡ false }
    ensures told { OnOk result (AddsTellings tellings.old.items tellings.new.items
        (λ s. value_told (leaf_name s leaf) levels place.old.items (view value.now))) }
    ensures place { OnOk result (place.new.items ≡ place.old.items) }
{
    if levels == 0 {
        let faulty = faulty && value.holds_fault();
        return tell_bound(alloc, leaf, place.as_slice(), faulty, tellings);
    }
    match value {
        Value::Text(_) => Ok(()),
        Value::List(items) => {
            tell_list(
                alloc,
                leaf,
                place.as_slice(),
                items.as_slice().len(),
                tellings,
            )?;
            tell_items(alloc, leaf, levels - 1, place, items, faulty, tellings)
        }
        Value::Fault(_) => tell_fault(alloc, leaf, place.as_slice(), tellings),
    }
}

/// Tells a leaf of each item of a list at a place.
#[cycle(value)]
fn tell_items(
    alloc: Global,
    leaf: u32,
    levels: usize,
    place: &mut Vec<u32>,
    items: &Items,
    faulty: bool,
    tellings: &mut Vec<Told>,
) -> Result<(), NoMemory>
    requires faulty { faulty ≡ false → holds_fault (list tt (items_view items.now)) ≡ false }
    ensures told { OnOk result (AddsTellings tellings.old.items tellings.new.items
        (λ s. values_told (leaf_name s leaf) levels place.old.items 0 (items_view items.now))) }
    ensures place { OnOk result (place.new.items ≡ place.old.items) }
{
    tellings.reserve(items.values.len())?;
    for (index, value) in items.values.iter().enumerate() {
        place.push(index_of(index)?)?;
        tell_value(alloc, leaf, levels, place, value, faulty, tellings)?;
        let _ = place.pop();
    }
    Ok(())
}
