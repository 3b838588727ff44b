ghost use Rattle.std.specs.Prelude.{◌≡◌, ◌≤◌, length, IfOk, IsOk, IsNone, ◌↔◌};
ghost use Rattle.tv_value.specs.Strategies.{port, cross, dot, prefix};
ghost use Rattle.tv_value.specs.Views.{strategy_view};
ghost use Rattle.tv_strategy.specs.Measures.{DotsAgree, strategy_depth};
ghost use Rattle.tv_strategy.specs.Splits.{AddsSplit, joined};
ghost use Rattle.tv_strategy.specs.Splits.{split as split_of};
ghost use Rattle.tv_strategy.specs.Conditions.{Suits, HasPlaces, number_of, place_of};
ghost use Rattle.tv_strategy.specs.Promises.{ArePlacesOfEnd, UndoesSplit, DotDiffers};
ghost use Rattle.tv_strategy.specs.Views.{children_view};
ghost use Rattle.tv_strategy.specs.Rooms.{place_room};

use crate::depth::mismatch_at;
use std::alloc::Global;
use tv_value::{Copied, Depths, Name, NoMemory, Place, Sequence, Tree};

/// Ports with a place each.
pub type PortPlaces = Sequence<(Name, Place)>;

/// The places of the ports' values that the job at a place is made of: a cross gives its first child the first indices, a dot gives each child all, and a
/// prefix node gives its left child the first and its right child all.
///
/// The ports come from left to right as the strategy has them. Want of memory is the one refusal, and may come at any length, since the names are copied into a list.
/// Linear in the tree, with a look-up in `mismatch` and a copy of a name and a place for each leaf.
pub fn split(
    alloc: Global,
    tree: &Tree,
    mismatch: &Depths,
    place: &Place,
) -> Result<PortPlaces, NoMemory>
    requires suits { Suits mismatch.now (strategy_view tree.now) }
    requires agree { DotsAgree (number_of mismatch.now) (strategy_view tree.now) }
    requires deep { length place.now ≡ strategy_depth (number_of mismatch.now)
        (strategy_view tree.now) }
    ensures places { IfOk result (λ ps. ps ≡ split_of (number_of mismatch.now)
        (strategy_view tree.now) place.now) }
    ensures ends { IfOk result (λ ps. ArePlacesOfEnd (number_of mismatch.now)
        (strategy_view tree.now) place.now ps) }
{
    let mut places = Vec::new(alloc);
    split_into(alloc, tree, mismatch, place.as_slice(), &mut places)?;
    Ok(Sequence::of(places))
}

/// Appends the places that the first indices split into, and answers how many indices these are.
#[cycle(split)]
fn split_into(
    alloc: Global,
    tree: &Tree,
    mismatch: &Depths,
    indices: &[u32],
    places: &mut Vec<(Name, Place)>,
) -> Result<usize, NoMemory>
    requires agree { DotsAgree (number_of mismatch.now) (strategy_view tree.now) }
    requires deep { strategy_depth (number_of mismatch.now) (strategy_view tree.now)
        ≤ length indices.now }
    ensures { IfOk result (AddsSplit (number_of mismatch.now) (strategy_view tree.now) indices.now
        places.old.items places.new.items) }
{
    match tree {
        Tree::Leaf(name) => split_leaf(alloc, name, mismatch, indices, places),
        Tree::Cross(trees) => split_cross(alloc, trees.as_slice(), mismatch, indices, places),
        Tree::Dot(trees) => split_dot(alloc, trees.as_slice(), mismatch, indices, places),
        Tree::Prefix(left, right) => split_prefix(alloc, left, right, mismatch, indices, places),
    }
}

/// The left child takes its own first indices, the right one all.
#[cycle(split)]
fn split_prefix(
    alloc: Global,
    left: &Tree,
    right: &Tree,
    mismatch: &Depths,
    indices: &[u32],
    places: &mut Vec<(Name, Place)>,
) -> Result<usize, NoMemory>
    requires agree { DotsAgree (number_of mismatch.now)
        (prefix (strategy_view left.now) (strategy_view right.now)) }
    requires deep { strategy_depth (number_of mismatch.now)
        (prefix (strategy_view left.now) (strategy_view right.now)) ≤ length indices.now }
    ensures { IfOk result (AddsSplit (number_of mismatch.now)
        (prefix (strategy_view left.now) (strategy_view right.now)) indices.now places.old.items
        places.new.items) }
{
    split_into(alloc, left, mismatch, indices, places)?;
    split_into(alloc, right, mismatch, indices, places)
}

fn split_leaf(
    alloc: Global,
    name: &Name,
    mismatch: &Depths,
    indices: &[u32],
    places: &mut Vec<(Name, Place)>,
) -> Result<usize, NoMemory>
    requires { number_of mismatch.now name.now ≤ length indices.now }
    ensures { IfOk result (AddsSplit (number_of mismatch.now) (port name.now) indices.now
        places.old.items places.new.items) }
{
    let depth = mismatch_at(mismatch, name) as usize;
    let place = Place::of(alloc, &indices[..depth])?;
    let name = name.copy(alloc)?;
    places.push((name, place))?;
    Ok(depth)
}

/// Each child in turn takes its indices from those left.
#[cycle(split)]
fn split_cross(
    alloc: Global,
    trees: &[Tree],
    mismatch: &Depths,
    indices: &[u32],
    places: &mut Vec<(Name, Place)>,
) -> Result<usize, NoMemory>
    requires agree { DotsAgree (number_of mismatch.now) (cross (children_view trees.now)) }
    requires deep { strategy_depth (number_of mismatch.now) (cross (children_view trees.now))
        ≤ length indices.now }
    ensures { IfOk result (AddsSplit (number_of mismatch.now) (cross (children_view trees.now))
        indices.now places.old.items places.new.items) }
{
    let mut taken = 0;
    for tree in trees {
        taken += split_into(alloc, tree, mismatch, &indices[taken..], places)?;
    }
    Ok(taken)
}

/// Each child takes the same indices.
#[cycle(split)]
fn split_dot(
    alloc: Global,
    trees: &[Tree],
    mismatch: &Depths,
    indices: &[u32],
    places: &mut Vec<(Name, Place)>,
) -> Result<usize, NoMemory>
    requires agree { DotsAgree (number_of mismatch.now) (dot (children_view trees.now)) }
    requires deep { strategy_depth (number_of mismatch.now) (dot (children_view trees.now))
        ≤ length indices.now }
    ensures { IfOk result (AddsSplit (number_of mismatch.now) (dot (children_view trees.now))
        indices.now places.old.items places.new.items) }
{
    let Some((first, others)) = trees.split_first() else {
        return Ok(0);
    };
    let depth = split_into(alloc, first, mismatch, indices, places)?;
    for tree in others {
        split_into(alloc, tree, mismatch, indices, places)?;
    }
    Ok(depth)
}

/// The place of the job that is made of the values at these places of its ports, or `None` where two children of a dot
/// have different places, or a prefix node's right place doesn't begin with its left one. Undoes `split`. Only the conditions name `mismatch`.
///
/// Want of memory is the one refusal, and there is none where the dots agree and the place has at most 32 indices.
/// Linear in the tree, with a look-up in `places` for each leaf and a copy of the part of the place that each node has.
pub fn join(
    alloc: Global,
    tree: &Tree,
    mismatch: &Depths,
    places: &PortPlaces,
) -> Result<Option<Place>, NoMemory>
    requires suits { Suits mismatch.now (strategy_view tree.now) }
    requires placed { HasPlaces mismatch.now places.now (strategy_view tree.now) }
    ensures place { IfOk result (λ o. o ≡ joined (place_of places.now) (strategy_view tree.now)) }
    ensures undoes { IfOk result (λ o. UndoesSplit (number_of mismatch.now) (strategy_view tree.now)
        (place_of places.now) o) }
    ensures none { IfOk result (λ o. IsNone o ↔ DotDiffers (place_of places.now)
        (strategy_view tree.now)) }
    ensures short { DotsAgree (number_of mismatch.now) (strategy_view tree.now)
        → strategy_depth (number_of mismatch.now) (strategy_view tree.now) ≤ 32 → IsOk result }
{
    join_tree(alloc, tree, places)
}

#[cycle(join)]
fn join_tree(alloc: Global, tree: &Tree, places: &PortPlaces) -> Result<Option<Place>, NoMemory>
    ensures place { IfOk result (λ o. o ≡ joined (place_of places.now) (strategy_view tree.now)) }
    ensures short { place_room (place_of places.now) (strategy_view tree.now) ≤ 32 → IsOk result }
{
    match tree {
        Tree::Leaf(name) => join_leaf(alloc, name, places),
        Tree::Cross(trees) => join_cross(alloc, trees.as_slice(), places),
        Tree::Dot(trees) => join_dot(alloc, trees.as_slice(), places),
        Tree::Prefix(left, right) => join_prefix(alloc, left, right, places),
    }
}

/// The right child's place, where it begins with the left one's.
#[cycle(join)]
fn join_prefix(
    alloc: Global,
    left: &Tree,
    right: &Tree,
    places: &PortPlaces,
) -> Result<Option<Place>, NoMemory>
    ensures place { IfOk result (λ o. o ≡ joined (place_of places.now)
        (prefix (strategy_view left.now) (strategy_view right.now))) }
    ensures short { place_room (place_of places.now)
        (prefix (strategy_view left.now) (strategy_view right.now)) ≤ 32 → IsOk result }
{
    let Some(front) = join_tree(alloc, left, places)? else {
        return Ok(None);
    };
    let Some(place) = join_tree(alloc, right, places)? else {
        return Ok(None);
    };
    if !front.prefix_of(&place) {
        return Ok(None);
    }
    Ok(Some(place))
}

/// The place of a port, the empty one where none is listed.
fn join_leaf(alloc: Global, name: &Name, places: &PortPlaces) -> Result<Option<Place>, NoMemory>
    ensures place { IfOk result (λ o. o ≡ Some (place_of places.now name.now)) }
    ensures short { length (place_of places.now name.now) ≤ 32 → IsOk result }
{
    match places.named(name) {
        Some(place) => {
            let place = place.copy(alloc)?;
            Ok(Some(place))
        }
        None => Ok(Some(Place::top(alloc))),
    }
}

/// The children's places, one after the other.
#[cycle(join)]
fn join_cross(alloc: Global, trees: &[Tree], places: &PortPlaces) -> Result<Option<Place>, NoMemory>
    ensures place { IfOk result (λ o. o
        ≡ joined (place_of places.now) (cross (children_view trees.now))) }
    ensures short { place_room (place_of places.now) (cross (children_view trees.now)) ≤ 32
        → IsOk result }
{
    let mut whole = Place::top(alloc);
    for tree in trees {
        let Some(place) = join_tree(alloc, tree, places)? else {
            return Ok(None);
        };
        whole.append(&place)?;
    }
    Ok(Some(whole))
}

/// The one place that the children have.
#[cycle(join)]
fn join_dot(alloc: Global, trees: &[Tree], places: &PortPlaces) -> Result<Option<Place>, NoMemory>
    ensures place { IfOk result (λ o. o
        ≡ joined (place_of places.now) (dot (children_view trees.now))) }
    ensures short { place_room (place_of places.now) (dot (children_view trees.now)) ≤ 32
        → IsOk result }
{
    let Some((first, others)) = trees.split_first() else {
        return Ok(Some(Place::top(alloc)));
    };
    let Some(place) = join_tree(alloc, first, places)? else {
        return Ok(None);
    };
    let common = place.as_slice();
    for tree in others {
        let Some(other) = join_tree(alloc, tree, places)? else {
            return Ok(None);
        };
        if common != other.as_slice() {
            return Ok(None);
        }
    }
    Ok(Some(place))
}
