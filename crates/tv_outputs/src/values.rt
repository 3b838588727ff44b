//! Values of one tree: what is found at a place, as a value of its own.
ghost use Rattle.std.specs.Prelude.{◌≡◌, ℕ, ◌<◌, ◌++◌, Some, is_some, map, true, slice_range, IsTrue, IfOk, OnOk};
ghost use Rattle.tv_value.specs.Nested.{trees_of};
ghost use Rattle.tv_value.specs.Values.{list_value};
ghost use Rattle.tv_value.specs.Views.{view};
ghost use Rattle.tv_parts.specs.Partials.{Partial as Tree, part_at, whole};
ghost use Rattle.tv_parts.specs.Below.{value_in};
ghost use Rattle.tv_stream.specs.Trees.{Marked};
ghost use Rattle.tv_cell.specs.declared.piece.Piece.{Piece as APiece};
ghost use Rattle.tv_outputs.specs.Known.{value_tree};
ghost use Rattle.tv_outputs.specs.Seen.{Sees};
ghost use Rattle.tv_outputs.specs.FoundIn.{found_in};
ghost use Rattle.tv_outputs.specs.PartValues.{list_values};

use std::alloc::Global;
use tv_cell::{Piece, assemble};
use tv_stream::{Look, PartKind};
use tv_value::{Items, NoMemory, Value};

/// The value that is found at a place, as seen from a node where so many levels of lists may stand:
/// a step for each index of the place, and then linear in the value.
pub(crate) fn found_value(
    alloc: Global,
    look: &Look<'_, Piece>,
    levels: u32,
    place: &[u32],
) -> Result<Value, NoMemory>
    requires { (r : Tree (Marked APiece)) × Sees look.now levels r
        × IsTrue (is_some (found_in place.now (value_tree r))) }
    ensures { (r : Tree (Marked APiece)) → Sees look.now levels r
        → IsTrue (is_some (found_in place.now (value_tree r)))
        → IfOk result (λ x. found_in place.now (value_tree r) ≡ Some (view x)) }
{
    let Some((first, rest)) = place.split_first() else {
        return whole_value(alloc, look, levels);
    };
    match look.item() {
        Some(piece) => {
            let part = piece.part(alloc, place)?;
            assemble(alloc, &part)
        }
        None => match look.part(*first) {
            Some(part) => found_value(alloc, &part, levels, rest),
            None => unreachable!(),
        },
    }
}

/// The value that stands at a node, where all of it is known, with so many levels of lists at the most. Linear in the value; for
/// each part of a list there a look-up, logarithmic in the list's known parts.
#[cycle(whole_value)]
fn whole_value(alloc: Global, look: &Look<'_, Piece>, levels: u32) -> Result<Value, NoMemory>
    requires { (r : Tree (Marked APiece)) × Sees look.now levels r × (whole (value_tree r) ≡ true) }
    ensures { (r : Tree (Marked APiece)) → Sees look.now levels r → whole (value_tree r) ≡ true
        → IfOk result (λ x. view x ≡ value_in (value_tree r)) }
{
    if let Some(piece) = look.item() {
        return assemble(alloc, piece);
    }
    match look.kind() {
        PartKind::Closed(length) => whole_list(alloc, look, levels, length),
        _ => unreachable!(),
    }
}

/// The list at a node that has so many parts, all of which are whole. Linear in their number, and as `whole_value` for each.
#[cycle(whole_value)]
fn whole_list(
    alloc: Global,
    look: &Look<'_, Piece>,
    levels: u32,
    length: u32,
) -> Result<Value, NoMemory>
    requires { (r : Tree (Marked APiece)) × Sees look.now levels r
        × ((i : ℕ) → i < length → whole (part_at (value_tree r) i) ≡ true) }
    ensures { (r : Tree (Marked APiece)) → Sees look.now levels r
        → ((i : ℕ) → i < length → whole (part_at (value_tree r) i) ≡ true)
        → IfOk result (λ x. view x
        ≡ list_value (trees_of (slice_range (list_values (value_tree r)) 0 length))) }
{
    let mut items = Vec::with_capacity(alloc, length as usize)?;
    push_values(alloc, look, levels, length, &mut items)?;
    Ok(Value::List(Items::of(items)))
}

/// Pushes the values of the first parts of the list at a node, all of which are whole.
#[cycle(whole_value)]
fn push_values(
    alloc: Global,
    look: &Look<'_, Piece>,
    levels: u32,
    end: u32,
    items: &mut Vec<Value>,
) -> Result<(), NoMemory>
    requires { (r : Tree (Marked APiece)) × Sees look.now levels r
        × ((i : ℕ) → i < end → whole (part_at (value_tree r) i) ≡ true) }
    ensures { (r : Tree (Marked APiece)) → Sees look.now levels r
        → ((i : ℕ) → i < end → whole (part_at (value_tree r) i) ≡ true)
        → OnOk result (map view items.new.items
        ≡ map view items.old.items ++ slice_range (list_values (value_tree r)) 0 end) }
{
    for index in 0..end {
        let Some(part) = look.part(index) else {
            unreachable!()
        };
        items.push(whole_value(alloc, &part, levels - 1)?)?;
    }
    Ok(())
}
