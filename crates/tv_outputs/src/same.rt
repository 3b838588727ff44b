//! Whether what is found in a tree at a place is a value, told without memory.
ghost use Rattle.std.specs.Prelude.{◌≡◌, ◌↔◌, [], Some, map, IsTrue};
ghost use Rattle.tv_value.specs.Views.{view};
ghost use Rattle.tv_parts.specs.Partials.{Partial as Tree};
ghost use Rattle.tv_stream.specs.Looks.{Shows};
ghost use Rattle.tv_stream.specs.Trees.{Marked};
ghost use Rattle.tv_cell.specs.declared.piece.Piece.{Piece as APiece};
ghost use Rattle.tv_outputs.specs.Known.{value_tree};
ghost use Rattle.tv_outputs.specs.Kept.{IsNoted, EachItem};
ghost use Rattle.tv_outputs.specs.FoundIn.{found_in};
ghost use Rattle.tv_outputs.specs.PartValues.{AreParts};

use tv_cell::Piece;
use tv_stream::{Look, PartKind};
use tv_value::Value;

/// Whether the value is what is found at a place, as seen from a node: a step for each index of the place, and then as
/// `whole_is`.
pub(crate) fn found_is(look: &Look<'_, Piece>, place: &[u32], value: &Value) -> bool
    requires { (r : Tree (Marked APiece)) × Shows look.now r × EachItem IsNoted r }
    ensures { (r : Tree (Marked APiece)) → Shows look.now r → EachItem IsNoted r → IsTrue result
        ↔ (found_in place.now (value_tree r) ≡ Some (view value.now)) }
{
    let Some((first, rest)) = place.split_first() else {
        return whole_is(look, value);
    };
    match look.item() {
        Some(piece) => piece.part_stands_for(place, value),
        None => match look.part(*first) {
            Some(part) => found_is(&part, rest, value),
            None => false,
        },
    }
}

/// Whether all is known at a node, and is the value. Linear in what they have in common.
#[cycle(whole_is)]
fn whole_is(look: &Look<'_, Piece>, value: &Value) -> bool
    requires { (r : Tree (Marked APiece)) × Shows look.now r × EachItem IsNoted r }
    ensures { (r : Tree (Marked APiece)) → Shows look.now r → EachItem IsNoted r → IsTrue result
        ↔ (found_in [] (value_tree r) ≡ Some (view value.now)) }
{
    if let Some(piece) = look.item() {
        return piece.stands_for(value);
    }
    let PartKind::Closed(length) = look.kind() else {
        return false;
    };
    match value {
        Value::Text(_) => false,
        Value::List(items) => parts_are(look, length, items.as_slice()),
        Value::Fault(_) => false,
    }
}

/// Whether so many parts are all known, and are these values.
#[cycle(whole_is)]
fn parts_are(look: &Look<'_, Piece>, count: u32, values: &[Value]) -> bool
    requires { (r : Tree (Marked APiece)) × Shows look.now r × EachItem IsNoted r }
    ensures { (r : Tree (Marked APiece)) → Shows look.now r → EachItem IsNoted r → IsTrue result
        ↔ AreParts (value_tree r) count (map view values.now) }
{
    if values.len() != count as usize {
        return false;
    }
    for index in 0..count {
        let Some(part) = look.part(index) else {
            return false;
        };
        if !whole_is(&part, &values[index as usize]) {
            return false;
        }
    }
    true
}
