//! One-item lists.
ghost use Rattle.std.specs.Prelude.{◌≡◌, IfOk};
ghost use Rattle.tv_cell.specs.PieceValues.{piece_value};
ghost use Rattle.tv_cell.specs.Soundness.{IsSound};
ghost use Rattle.tv_binding.specs.Delivered.{wrapped_value};

use std::alloc::Global;
use tv_cell::{Piece, Row};
use tv_value::NoMemory;

/// The piece in so many one-item lists. Linear in their number; no value is copied.
pub fn wrap(alloc: Global, piece: Piece, times: u32) -> Result<Piece, NoMemory>
    ensures value { IfOk result (λ p. piece_value p ≡ wrapped_value times (piece_value piece)) }
    ensures sound { IsSound piece → IfOk result IsSound }
{
    let mut wrapped = piece;
    for _ in 0..times {
        wrapped = wrap_once(alloc, wrapped)?;
    }
    Ok(wrapped)
}

/// The piece in a list of its own.
fn wrap_once(alloc: Global, piece: Piece) -> Result<Piece, NoMemory>
    ensures value { IfOk result (λ p. piece_value p ≡ wrapped_value 1 (piece_value piece)) }
    ensures sound { IsSound piece → IfOk result IsSound }
{
    let mut items = Vec::with_capacity(alloc, 1)?;
    items.push(piece)?;
    Ok(Piece::List(Row::of(items)))
}
