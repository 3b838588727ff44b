ghost use Rattle.std.specs.Prelude.{◌≡◌, IfOk, map};
ghost use Rattle.tv_value.specs.Values.{fault_value};
ghost use Rattle.tv_value.specs.Views.{error_view, view};
ghost use Rattle.tv_cell.specs.Found.{with_depth};
ghost use Rattle.tv_cell.specs.PieceValues.{piece_value, piece_values};
ghost use Rattle.tv_cell.specs.Soundness.{AreSound, IsSound};

use crate::piece::Piece;
use std::alloc::Global;
use tv_value::{ErrorDoc, Items, NoMemory, Value};

/// The value that a piece stands for, as one of its own. Linear in the value.
#[cycle(assemble)]
pub fn assemble(alloc: Global, piece: &Piece) -> Result<Value, NoMemory>
    requires { IsSound piece.now }
    ensures { IfOk result (λ v. view v ≡ piece_value piece.now) }
{
    match piece {
        Piece::Part(cell, place) => cell.value_at(place).copy(alloc),
        Piece::List(pieces) => {
            let values = values_of(alloc, pieces.as_slice())?;
            Ok(Value::List(Items::of(values)))
        }
        Piece::Fault(cell, place, depth) => fault_of(alloc, cell.document_at(place), *depth),
    }
}

#[cycle(assemble)]
fn values_of(alloc: Global, pieces: &[Piece]) -> Result<Vec<Value>, NoMemory>
    requires { AreSound pieces.now }
    ensures { IfOk result (λ vs. map view vs.items ≡ piece_values pieces.now) }
{
    let mut values = Vec::with_capacity(alloc, pieces.len())?;
    for piece in pieces {
        values.push(assemble(alloc, piece)?)?;
    }
    Ok(values)
}

/// The same document with another depth, as a value.
fn fault_of(alloc: Global, error: &ErrorDoc, depth: u32) -> Result<Value, NoMemory>
    ensures { IfOk result (λ v. view v ≡ fault_value (with_depth depth (error_view error.now))) }
{
    let mut copy = error.copy(alloc)?;
    copy.depth = depth;
    Ok(Value::Fault(Box::new(alloc, copy)?))
}
