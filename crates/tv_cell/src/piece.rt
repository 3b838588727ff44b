ghost use Rattle.std.specs.Prelude.{◌≡◌, ◌&&◌, IfOk, IsTrue, Some, is_some, length, nat_lt, true};
ghost use Rattle.std.specs.List.{list_all, list_any};
ghost use Rattle.tv_value.specs.Nested.{at};
ghost use Rattle.tv_value.specs.Readings.{length_limit};
ghost use Rattle.tv_value.specs.Values.{holds_fault};
ghost use Rattle.tv_value.specs.Views.{view};
ghost use Rattle.tv_cell.specs.Found.{found_value, is_document};
ghost use Rattle.tv_cell.specs.PieceValues.{list_length, piece_value};
ghost use Rattle.tv_cell.specs.Soundness.{IsSound, is_sound};

use crate::Path;
use crate::cell::Cell;
use crate::looking::{thing_at, value_at};
use crate::row::Row;
use std::alloc::Global;
use tv_value::{Copied, NoMemory, Value};

/// A value as a tree of cells: what stands for a value, and shares it.
#[derive(Drop)]
pub enum Piece {
    /// What stands at that place of the cell's value.
    Part(Cell, Path),
    /// A list of these.
    List(Pieces),
    /// The error document that stands at that place of the cell's value, with this depth in place of its own.
    Fault(Cell, Path, u32),
}

/// A list of pieces.
pub type Pieces = Row<Piece>;

impl Piece {
    /// An equal piece, which shares the cells. Linear in the number of pieces that the lists hold; no value is copied.
    #[cycle(copy)]
    pub fn copy(&self, alloc: Global) -> Result<Piece, NoMemory>
        ensures { IfOk result (λ p. p ≡ self.now) }
    {
        match self {
            Piece::Part(cell, place) => {
                let cell = cell.share()?;
                Ok(Piece::Part(cell, place.copy(alloc)?))
            }
            Piece::List(pieces) => Ok(Piece::List(Row::of(copies(alloc, pieces.as_slice())?))),
            Piece::Fault(cell, place, depth) => {
                let cell = cell.share()?;
                Ok(Piece::Fault(cell, place.copy(alloc)?, *depth))
            }
        }
    }

    /// The piece of what stands inside, at a place that is given by its indices, the outermost first. It goes down the
    /// lists of pieces, joins the rest of the place to that of a part, and shares the cell. Linear in the place, and
    /// where a list of pieces stands there as `copy`; no value is copied or looked at.
    pub fn part(&self, alloc: Global, place: &[u32]) -> Result<Piece, NoMemory>
        requires { IsTrue (is_some (at (piece_value self.now) place.now)) }
        ensures value { IfOk result (λ p. at (piece_value self.now) place.now
            ≡ Some (piece_value p)) }
        ensures sound { IsSound self.now → IfOk result IsSound }
    {
        match self {
            Piece::Part(cell, start) => {
                let cell = cell.share()?;
                Ok(Piece::Part(cell, start.joined(alloc, place)?))
            }
            Piece::List(pieces) => match place {
                [] => self.copy(alloc),
                [first, rest @ ..] => {
                    let pieces = pieces.as_slice();
                    pieces[*first as usize].part(alloc, rest)
                }
            },
            Piece::Fault(_, _, _) => self.copy(alloc),
        }
    }

    /// Whether something stands inside, at a place. Linear in the place. Takes no memory.
    pub fn has(&self, place: &[u32]) -> bool
        ensures { result ≡ is_some (at (piece_value self.now) place.now) }
    {
        match self {
            Piece::Part(cell, start) => match cell.at(start) {
                Some(value) => value_at(value, place).is_some(),
                None => place.is_empty(),
            },
            Piece::List(pieces) => match place {
                [] => true,
                [first, rest @ ..] => match thing_at(pieces.as_slice(), *first) {
                    Some(piece) => piece.has(rest),
                    None => false,
                },
            },
            Piece::Fault(_, _, _) => place.is_empty(),
        }
    }

    /// Whether the piece points at something throughout, and no list has 2^32 pieces or more. Linear in the number of
    /// pieces and in their places. Takes no memory.
    #[cycle(is_sound)]
    pub fn is_sound(&self) -> bool
        ensures { result ≡ is_sound self.now }
    {
        match self {
            Piece::Part(cell, place) => cell.at(place).is_some(),
            Piece::List(pieces) => are_sound(pieces.as_slice()),
            Piece::Fault(cell, place, _) => match cell.at(place) {
                Some(value) => is_fault(value),
                None => false,
            },
        }
    }

    /// Whether the value is an error document or contains one. Constant for a whole value, and for a part of one without faults;
    /// linear in the pieces of a list, and in a part of a value with faults. Takes no memory.
    #[cycle(holds_fault)]
    pub fn holds_fault(&self) -> bool
        ensures { result ≡ holds_fault (piece_value self.now) }
    {
        match self {
            Piece::Part(cell, place) => cell.holds_fault() && part_holds_fault(cell, place),
            Piece::List(pieces) => any_holds_fault(pieces.as_slice()),
            Piece::Fault(_, _, _) => true,
        }
    }

    /// The number of items of the list that the piece stands for, or `None` where it stands for a text or an error
    /// document. Linear in the place of a part. Takes no memory.
    pub fn length(&self) -> Option<usize>
        ensures { result ≡ list_length (piece_value self.now) }
    {
        match self {
            Piece::Part(cell, place) => match cell.at(place) {
                Some(value) => items_in(value),
                None => None,
            },
            Piece::List(pieces) => Some(pieces.as_slice().len()),
            Piece::Fault(_, _, _) => None,
        }
    }
}

impl Copied for Piece {
    fn copy(&self, alloc: Global) -> Result<Piece, NoMemory> {
        Piece::copy(self, alloc)
    }
}

#[cycle(copy)]
fn copies(alloc: Global, pieces: &[Piece]) -> Result<Vec<Piece>, NoMemory>
    ensures { IfOk result (λ ps. ps.items ≡ pieces.now) }
{
    let mut copies = Vec::with_capacity(alloc, pieces.len())?;
    for piece in pieces {
        copies.push(piece.copy(alloc)?)?;
    }
    Ok(copies)
}

/// Whether what stands at a place of a value that holds a fault is an error document or contains one.
fn part_holds_fault(cell: &Cell, place: &Path) -> bool
    requires { holds_fault (view cell.now) ≡ true }
    ensures { result ≡ holds_fault (found_value (at (view cell.now) place.now)) }
{
    if place.as_slice().is_empty() {
        return true;
    }
    match cell.at(place) {
        Some(value) => value.holds_fault(),
        None => false,
    }
}

#[cycle(holds_fault)]
fn any_holds_fault(pieces: &[Piece]) -> bool
    ensures { result ≡ list_any (λ p. holds_fault (piece_value p)) pieces.now }
{
    for piece in pieces {
        if piece.holds_fault() {
            return true;
        }
    }
    false
}

/// The number of items of a list.
fn items_in(value: &Value) -> Option<usize>
    ensures { result ≡ list_length (view value.now) }
{
    match value {
        Value::List(items) => Some(items.as_slice().len()),
        _ => None,
    }
}

#[cycle(is_sound)]
fn are_sound(pieces: &[Piece]) -> bool
    ensures { result ≡ (nat_lt (length pieces.now) length_limit && list_all is_sound pieces.now) }
{
    are_few(pieces) && all_sound(pieces)
}

/// Whether a list of pieces has fewer than 2^32.
fn are_few(pieces: &[Piece]) -> bool
    ensures { result ≡ nat_lt (length pieces.now) length_limit }
{
    pieces.len() < 1 << 32
}

#[cycle(is_sound)]
fn all_sound(pieces: &[Piece]) -> bool
    ensures { result ≡ list_all is_sound pieces.now }
{
    for piece in pieces {
        if !piece.is_sound() {
            return false;
        }
    }
    true
}

fn is_fault(value: &Value) -> bool
    ensures { result ≡ is_document (Some (view value.now)) }
{
    match value {
        Value::Fault(_) => true,
        _ => false,
    }
}
