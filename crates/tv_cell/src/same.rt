ghost use Rattle.std.specs.Prelude.{◌≡◌, ◌↔◌, IsTrue, map};
ghost use Rattle.tv_value.specs.Sameness.{same_value, same_values};
ghost use Rattle.tv_value.specs.Views.{view};
ghost use Rattle.tv_cell.specs.PieceValues.{piece_value, piece_values};
ghost use Rattle.tv_cell.specs.Sameness.{is_at};
ghost use Rattle.tv_cell.specs.Soundness.{AreSound, IsSound};

use crate::looking::{thing_at, value_at};
use crate::piece::Piece;
use tv_value::{Value, same_document, same_value};

impl Piece {
    /// Whether both stand for one value. Linear in what the two values have in common, also where both are parts of one
    /// cell at one place. Takes no memory.
    pub fn same(&self, other: &Piece) -> bool
        requires first { IsSound self.now }
        requires second { IsSound other.now }
        ensures { IsTrue result ↔ (piece_value self.now ≡ piece_value other.now) }
    {
        self.is_same(other)
    }

    #[cycle(is_same)]
    fn is_same(&self, other: &Piece) -> bool
        requires first { IsSound self.now }
        requires second { IsSound other.now }
        ensures { result ≡ same_value (piece_value self.now) (piece_value other.now) }
    {
        match self {
            Piece::Part(cell, place) => other.stands_for(cell.value_at(place)),
            Piece::List(pieces) => match other {
                Piece::Part(cell, place) => self.stands_for(cell.value_at(place)),
                Piece::List(others) => same_pieces(pieces.as_slice(), others.as_slice()),
                Piece::Fault(_, _, _) => false,
            },
            Piece::Fault(cell, place, depth) => match other {
                Piece::Part(cell, place) => self.stands_for(cell.value_at(place)),
                Piece::List(_) => false,
                Piece::Fault(other_cell, other_place, other_depth) => *depth == *other_depth
                    && same_document(cell.document_at(place), other_cell.document_at(other_place)),
            },
        }
    }

    /// Whether the piece stands for that value. Linear in what they have in common. Takes no memory.
    #[cycle(stands_for)]
    pub fn stands_for(&self, value: &Value) -> bool
        requires { IsSound self.now }
        ensures { result ≡ same_value (piece_value self.now) (view value.now) }
    {
        match self {
            Piece::Part(cell, place) => same_value(cell.value_at(place), value),
            Piece::List(pieces) => match value {
                Value::Text(_) => false,
                Value::List(items) => stand_for(pieces.as_slice(), items.as_slice()),
                Value::Fault(_) => false,
            },
            Piece::Fault(cell, place, depth) => match value {
                Value::Text(_) => false,
                Value::List(_) => false,
                Value::Fault(error) => *depth == error.depth
                    && same_document(cell.document_at(place), error),
            },
        }
    }

    /// Whether what stands inside, at a place that is given by its indices, is that value. Linear in the place and in what the two
    /// have in common. Takes no memory.
    pub fn part_stands_for(&self, place: &[u32], value: &Value) -> bool
        requires { IsSound self.now }
        ensures { result ≡ is_at (piece_value self.now) place.now (view value.now) }
    {
        match self {
            Piece::Part(cell, start) => value_is_at(cell.value_at(start), place, value),
            Piece::List(pieces) => match place {
                [] => self.stands_for(value),
                [first, rest @ ..] => match thing_at(pieces.as_slice(), *first) {
                    Some(piece) => piece.part_stands_for(rest, value),
                    None => false,
                },
            },
            Piece::Fault(_, _, _) => place.is_empty() && self.stands_for(value),
        }
    }
}

/// Whether what stands at a place of the first value is the second. Linear in the place and in what the two have in common. Takes
/// no memory.
pub fn value_is_at(first: &Value, place: &[u32], second: &Value) -> bool
    ensures { result ≡ is_at (view first.now) place.now (view second.now) }
{
    match value_at(first, place) {
        Some(value) => same_value(value, second),
        None => false,
    }
}

#[cycle(is_same)]
fn same_pieces(first: &[Piece], second: &[Piece]) -> bool
    requires first { AreSound first.now }
    requires second { AreSound second.now }
    ensures { result ≡ same_values (piece_values first.now) (piece_values second.now) }
{
    if first.len() != second.len() {
        return false;
    }
    for (index, piece) in first.iter().enumerate() {
        if !piece.is_same(&second[index]) {
            return false;
        }
    }
    true
}

/// Whether each piece stands for the value of its position.
#[cycle(stands_for)]
fn stand_for(pieces: &[Piece], values: &[Value]) -> bool
    requires { AreSound pieces.now }
    ensures { result ≡ same_values (piece_values pieces.now) (map view values.now) }
{
    if pieces.len() != values.len() {
        return false;
    }
    for (index, piece) in pieces.iter().enumerate() {
        if !piece.stands_for(&values[index]) {
            return false;
        }
    }
    true
}
