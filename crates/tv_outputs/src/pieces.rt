//! Pieces of one tree: what is found at a place, and what a whole tree is, once its last part has come.
ghost use Rattle.std.specs.Prelude.{◌≡◌, ℕ, ◌≤◌, ◌<◌, ◌∷◌, [], ◌++◌, Some, is_some, true, slice_range, IsTrue, IfOk, OnOk};
ghost use Rattle.tv_value.specs.Nested.{trees_of};
ghost use Rattle.tv_value.specs.Values.{list_value};
ghost use Rattle.tv_parts.specs.Partials.{Partial as Tree, part_at, known_at, whole};
ghost use Rattle.tv_parts.specs.Below.{value_in};
ghost use Rattle.tv_parts.specs.Changes.{arrive as arrived, is_place};
ghost use Rattle.tv_stream.specs.Trees.{Marked};
ghost use Rattle.tv_stream.specs.Answers.{kind_of};
ghost use Rattle.tv_cell.specs.declared.piece.Piece.{Piece as APiece};
ghost use Rattle.tv_cell.specs.PieceValues.{piece_value, piece_values};
ghost use Rattle.tv_cell.specs.Soundness.{IsSound, AreSound};
ghost use Rattle.tv_outputs.specs.Known.{value_tree};
ghost use Rattle.tv_outputs.specs.Seen.{Sees};
ghost use Rattle.tv_outputs.specs.FoundIn.{found_in};
ghost use Rattle.tv_outputs.specs.PartValues.{list_values};

use std::alloc::Global;
use tv_cell::{Piece, Row};
use tv_stream::{Look, PartKind};
use tv_value::NoMemory;

/// The piece of what is found at a place, as seen from a node where so many levels of lists may stand: a step for each index of
/// the place, and then as `whole_piece`.
pub(crate) fn found_piece(
    alloc: Global,
    look: &Look<'_, Piece>,
    levels: u32,
    place: &[u32],
) -> Result<Piece, NoMemory>
    requires { (r : Tree (Marked APiece)) × Sees look.now levels r
        × IsTrue (is_some (found_in place.now (value_tree r))) }
    ensures value { (r : Tree (Marked APiece)) → Sees look.now levels r
        → IsTrue (is_some (found_in place.now (value_tree r)))
        → IfOk result (λ p. found_in place.now (value_tree r) ≡ Some (piece_value p)) }
    ensures sound { IfOk result IsSound }
{
    let Some((first, rest)) = place.split_first() else {
        return whole_piece(alloc, look, levels);
    };
    match look.item() {
        Some(piece) => piece.part(alloc, place),
        None => match look.part(*first) {
            Some(part) => found_piece(alloc, &part, levels, rest),
            None => unreachable!(),
        },
    }
}

/// The piece of what stands at a node, where all of it is known, with so many levels of lists at the most. Linear in the parts
/// there, and as copies of the pieces that came; for each part a look-up, logarithmic in the known parts of its list.
#[cycle(whole_piece)]
pub(crate) fn whole_piece(
    alloc: Global,
    look: &Look<'_, Piece>,
    levels: u32,
) -> Result<Piece, NoMemory>
    requires { (r : Tree (Marked APiece)) × Sees look.now levels r × (whole (value_tree r) ≡ true) }
    ensures value { (r : Tree (Marked APiece)) → Sees look.now levels r → whole (value_tree r)
        ≡ true
        → IfOk result (λ p. piece_value p ≡ value_in (value_tree r)) }
    ensures sound { IfOk result IsSound }
{
    if let Some(piece) = look.item() {
        return piece.copy(alloc);
    }
    match look.kind() {
        PartKind::Closed(length) => list_piece(alloc, look, levels, length),
        _ => unreachable!(),
    }
}

/// The piece of the list at a node that has so many parts, all of which are whole. Linear in their number, and as
/// `whole_piece` for each.
#[cycle(whole_piece)]
fn list_piece(
    alloc: Global,
    look: &Look<'_, Piece>,
    levels: u32,
    length: u32,
) -> Result<Piece, NoMemory>
    requires { (r : Tree (Marked APiece)) × Sees look.now levels r
        × ((i : ℕ) → i < length → whole (part_at (value_tree r) i) ≡ true) }
    ensures value { (r : Tree (Marked APiece)) → Sees look.now levels r
        → ((i : ℕ) → i < length → whole (part_at (value_tree r) i) ≡ true)
        → IfOk result (λ p. piece_value p
        ≡ list_value (trees_of (slice_range (list_values (value_tree r)) 0 length))) }
    ensures sound { IfOk result IsSound }
{
    let mut parts = Vec::with_capacity(alloc, length as usize)?;
    push_parts(alloc, look, levels, 0, length, &mut parts)?;
    Ok(Piece::List(Row::of(parts)))
}

/// Pushes the pieces of some parts of the list at a node, all of which are whole.
#[cycle(whole_piece)]
fn push_parts(
    alloc: Global,
    look: &Look<'_, Piece>,
    levels: u32,
    first: u32,
    end: u32,
    parts: &mut Vec<Piece>,
) -> Result<(), NoMemory>
    requires ordered { first ≤ end }
    requires seen { (r : Tree (Marked APiece)) × Sees look.now levels r
        × ((i : ℕ) → first ≤ i → i < end → whole (part_at (value_tree r) i) ≡ true) }
    requires sound { AreSound parts.old.items }
    ensures values { (r : Tree (Marked APiece)) → Sees look.now levels r
        → ((i : ℕ) → first ≤ i → i < end → whole (part_at (value_tree r) i) ≡ true)
        → OnOk result (piece_values parts.new.items
        ≡ piece_values parts.old.items ++ slice_range (list_values (value_tree r)) first end) }
    ensures sound { OnOk result (AreSound parts.new.items) }
{
    for index in first..end {
        let Some(part) = look.part(index) else {
            unreachable!()
        };
        parts.push(whole_piece(alloc, &part, levels - 1)?)?;
    }
    Ok(())
}

/// The piece of the list at a place, as seen from a node, that has so many parts, all of which are whole. A step for each index
/// of the place, and then as `list_piece`.
pub(crate) fn list_at(
    alloc: Global,
    look: &Look<'_, Piece>,
    levels: u32,
    place: &[u32],
    length: u32,
) -> Result<Piece, NoMemory>
    requires { (r : Tree (Marked APiece)) × Sees look.now levels r
        × ((i : ℕ) → i < length → whole (part_at (known_at place.now (value_tree r)) i) ≡ true) }
    ensures value { (r : Tree (Marked APiece)) → Sees look.now levels r
        → ((i : ℕ) → i < length → whole (part_at (known_at place.now (value_tree r)) i) ≡ true)
        → IfOk result (λ p. piece_value p
        ≡ list_value
        (trees_of (slice_range (list_values (known_at place.now (value_tree r))) 0 length))) }
    ensures sound { IfOk result IsSound }
{
    let Some((first, rest)) = place.split_first() else {
        return list_piece(alloc, look, levels, length);
    };
    match look.part(*first) {
        Some(part) => list_at(alloc, &part, levels, rest, length),
        None => Ok(Piece::List(Row::of(Vec::new(alloc)))),
    }
}

/// The piece of the list of this length at a node, with this piece as its part at an index; all others are whole. Linear in
/// the length, and as `whole_piece` for each other part.
fn list_with(
    alloc: Global,
    look: &Look<'_, Piece>,
    levels: u32,
    length: u32,
    index: u32,
    part: Piece,
) -> Result<Piece, NoMemory>
    requires there { index < length }
    requires seen { (r : Tree (Marked APiece)) × Sees look.now levels r
        × (kind_of r ≡ PartKind.Closed length)
        × (whole (arrived (index ∷ []) (piece_value part) (value_tree r)) ≡ true) }
    requires sound { IsSound part }
    ensures value { (r : Tree (Marked APiece)) → Sees look.now levels r
        → kind_of r ≡ PartKind.Closed length
        → whole (arrived (index ∷ []) (piece_value part) (value_tree r)) ≡ true
        → IfOk result (λ p. piece_value p
        ≡ value_in (arrived (index ∷ []) (piece_value part) (value_tree r))) }
    ensures sound { IfOk result IsSound }
{
    let mut parts = Vec::with_capacity(alloc, length as usize)?;
    push_parts(alloc, look, levels, 0, index, &mut parts)?;
    parts.push(part)?;
    push_parts(alloc, look, levels, index + 1, length, &mut parts)?;
    Ok(Piece::List(Row::of(parts)))
}

/// The piece of what stands at a node, once a piece has arrived at a place inside it and it is whole by that. As `list_with`
/// for each list on the way.
#[cycle(piece_around)]
pub(crate) fn piece_around(
    alloc: Global,
    look: &Look<'_, Piece>,
    levels: u32,
    place: &[u32],
    piece: Piece,
) -> Result<Piece, NoMemory>
    requires seen { (r : Tree (Marked APiece)) × Sees look.now levels r
        × (is_place place.now (value_tree r) ≡ true)
        × (whole (arrived place.now (piece_value piece) (value_tree r)) ≡ true) }
    requires sound { IsSound piece }
    ensures value { (r : Tree (Marked APiece)) → Sees look.now levels r
        → is_place place.now (value_tree r) ≡ true
        → whole (arrived place.now (piece_value piece) (value_tree r)) ≡ true
        → IfOk result (λ p. piece_value p
        ≡ value_in (arrived place.now (piece_value piece) (value_tree r))) }
    ensures sound { IfOk result IsSound }
{
    let Some((first, rest)) = place.split_first() else {
        return Ok(piece);
    };
    let PartKind::Closed(length) = look.kind() else {
        unreachable!()
    };
    let part = part_around(alloc, look, levels, *first, rest, piece)?;
    list_with(alloc, look, levels, length, *first, part)
}

/// The same of the part of a node at an index.
#[cycle(piece_around)]
fn part_around(
    alloc: Global,
    look: &Look<'_, Piece>,
    levels: u32,
    index: u32,
    place: &[u32],
    piece: Piece,
) -> Result<Piece, NoMemory>
    requires seen { (r : Tree (Marked APiece)) × Sees look.now levels r
        × (is_place place.now (part_at (value_tree r) index) ≡ true)
        × (whole (arrived place.now (piece_value piece) (part_at (value_tree r) index)) ≡ true) }
    requires sound { IsSound piece }
    ensures value { (r : Tree (Marked APiece)) → Sees look.now levels r
        → is_place place.now (part_at (value_tree r) index) ≡ true
        → whole (arrived place.now (piece_value piece) (part_at (value_tree r) index)) ≡ true
        → IfOk result (λ p. piece_value p
        ≡ value_in (arrived place.now (piece_value piece) (part_at (value_tree r) index))) }
    ensures sound { IfOk result IsSound }
{
    match look.part(index) {
        Some(part) => piece_around(alloc, &part, levels, place, piece),
        None => Ok(piece),
    }
}
