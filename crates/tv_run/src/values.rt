//! Values as pieces, and pieces as values.
ghost use Rattle.std.specs.Prelude.{◌≡◌, IfOk, map};
ghost use Rattle.tv_value.specs.Views.{values_view, view};
ghost use Rattle.tv_cell.specs.PieceValues.{piece_value, piece_values};
ghost use Rattle.tv_cell.specs.Soundness.{AreSound, IsSound};

use std::alloc::Global;
use tv_cell::{Cell, Path, Piece, Pieces, Row, assemble};
use tv_value::{Copied, Items, NoMemory, Value};

/// A piece of its own for each of these values. Moves them into cells as they are: linear in their number.
pub fn value_pieces(alloc: Global, values: Items) -> Result<Pieces, NoMemory>
    ensures sound { IfOk result AreSound }
    ensures values { IfOk result (λ ps. piece_values ps ≡ values_view values) }
{
    pieces_of(alloc, values.into_vec())
}

fn pieces_of(alloc: Global, values: Vec<Value>) -> Result<Pieces, NoMemory>
    ensures sound { IfOk result AreSound }
    ensures values { IfOk result (λ ps. piece_values ps ≡ map view values.items) }
{
    let mut pieces = Vec::with_capacity(alloc, values.len())?;
    for value in values {
        pieces.push(own_piece(alloc, value)?)?;
    }
    Ok(Row::of(pieces))
}

/// A piece that stands for a value, which is moved.
fn own_piece(alloc: Global, value: Value) -> Result<Piece, NoMemory>
    ensures sound { IfOk result IsSound }
    ensures value { IfOk result (λ p. piece_value p ≡ view value) }
{
    let cell = Cell::put(alloc, value)?;
    Ok(Piece::Part(cell, Path::top(alloc)))
}

/// A piece that stands for a copy of a value.
pub fn value_piece(alloc: Global, value: &Value) -> Result<Piece, NoMemory>
    ensures sound { IfOk result IsSound }
    ensures value { IfOk result (λ p. piece_value p ≡ view value.now) }
{
    own_piece(alloc, value.copy(alloc)?)
}

/// The values that pieces stand for. Linear in the values.
pub fn values_of(alloc: Global, pieces: &[Piece]) -> Result<Items, NoMemory>
    requires { AreSound pieces.now }
    ensures { IfOk result (λ vs. values_view vs ≡ piece_values pieces.now) }
{
    let mut values = Vec::with_capacity(alloc, pieces.len())?;
    for piece in pieces {
        values.push(assemble(alloc, piece)?)?;
    }
    Ok(Items::of(values))
}
