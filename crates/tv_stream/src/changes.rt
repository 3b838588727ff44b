//! What changes a partial tree, from a node of it on.
ghost use Rattle.std.specs.Prelude.{◌≡◌, ◌≢◌, ℕ, ◌+◌, ◌≤◌, ◌<◌, ◌^◌, ◌⊎◌, ◌==◌, if◌then◌else◌, Bool, true, Some, None, Option, is_some, length as count, [], IfOk, IfErr, OnOk, OnErr};
ghost use Rattle.tv_pool.specs.Pool.{IsLive, item_in, number_of, lies_at};
ghost use Rattle.tv_stream.specs.nodes.Nodes.{part_in, body_in};
ghost use Rattle.tv_stream.specs.nodes.Stands.{Spot, AreNodes, IsNode};
ghost use Rattle.tv_stream.specs.nodes.Calls.{KeepsRegions, Sets, count_in};
ghost use Rattle.tv_parts.specs.Changes.{arrive, close_at, CanArrive, CanClose};
ghost use Rattle.tv_stream.specs.Trees.{Marked, tree_at, least_whole};
ghost use Rattle.tv_stream.specs.Answers.{marked_item};
ghost use Rattle.tv_stream.specs.NodeCounts.{new_nodes};
ghost use Rattle.tv_stream.specs.Inside.{counts_with, counts_whole, counts_in, noted, is_zero, outer_least, with_item, InTree, Parted, ArrivesIn, RefusesArrivalIn, ClosesIn, RefusesCloseIn};

use crate::held::{Held, Part};
use crate::partial::Slot;
use crate::refusals::{ArriveRefused, CloseRefused, NoArrival};
use crate::{Stop, body, hang, seek, set_body};
use tv_pool::{Link, NoMemory, Pool, Region};

/// The part of a node at an index, where a node that holds nothing hangs if there was none. Takes room for `room` nodes first.
fn part_or_new<T: Drop>(
    pool: &mut Pool<Slot<T>>,
    region: &Region,
    node: Link,
    index: u32,
    room: usize,
) -> Result<Link, NoMemory>
    requires live { IsLive pool.old region.now }
    requires node { IsNode pool.old (number_of region.now) (lies_at node) }
    requires room { 0 < room }
    ensures ok { IfOk result (λ part. (spots : ℕ → Option Spot) (p : Spot)
        → AreNodes (item_in pool.old (number_of region.now)) spots → spots (lies_at node) ≡ Some p
        → Parted (item_in pool.old (number_of region.now)) (item_in pool.new (number_of region.now))
        spots (lies_at node) index (lies_at part)) }
    ensures found { OnOk result ((part_in (item_in pool.old (number_of region.now)) (lies_at node)
        index ≡ None) ⊎ (pool.new ≡ pool.old)) }
    ensures one { OnOk result (count_in pool.new (number_of region.now)
        ≤ count_in pool.old (number_of region.now) + 1) }
    ensures left { OnOk result (part_in (item_in pool.old (number_of region.now)) (lies_at node)
        index ≡ None → room ≤ pool.new.spare + 1) }
    ensures none { OnErr result (part_in (item_in pool.old (number_of region.now)) (lies_at node)
        index ≡ None) }
    ensures refused { OnErr result (pool.old.spare < room) }
    ensures unchanged { OnErr result (pool.new.regions ≡ pool.old.regions) }
    ensures kept { KeepsRegions pool.old pool.new (number_of region.now) }
    ensures spare { pool.old.spare ≤ pool.new.spare + 1 }
{
    match seek(pool, node, index) {
        Stop::Found(part) => Ok(part),
        Stop::Free(gap) => {
            pool.reserve(room as u64)?;
            Ok(hang(pool, region, gap, Held::wanting()))
        }
    }
}

/// Counts a part of a node that was changed; answers whether the list is whole by it.
fn note_part<T: Drop>(
    pool: &mut Pool<Slot<T>>,
    node: Link,
    index: u32,
    whole: bool,
    marked: bool,
) -> bool
    requires { (number : ℕ) × IsNode pool.old number (lies_at node)
        × ((b : Held T) × (body_in (item_in pool.old number) (lies_at node) ≡ Some b)
        × ((counts_in b).whole < 2 ^ 63)) }
    ensures sets { (number : ℕ) (b : Held T) → IsNode pool.old number (lies_at node)
        → body_in (item_in pool.old number) (lies_at node) ≡ Some b → Sets (item_in pool.old number)
        (item_in pool.new number) (lies_at node) (noted b index whole marked) }
    ensures whole { (number : ℕ) (b : Held T) → IsNode pool.old number (lies_at node)
        → body_in (item_in pool.old number) (lies_at node) ≡ Some b → result
        ≡ counts_whole (counts_with (counts_in b) index whole) }
    ensures nodes { (number : ℕ) → count_in pool.new number ≡ count_in pool.old number }
    ensures kept { (number : ℕ) → IsNode pool.old number (lies_at node)
        → KeepsRegions pool.old pool.new number }
    ensures spare { pool.new.spare ≡ pool.old.spare }
{
    let held = body(pool, node);
    let counts = held.counts().with(index, whole);
    let marked = held.marked || marked;
    set_body(
        pool,
        node,
        Held {
            marked,
            part: Part::Numbered(counts),
        },
    );
    counts.is_whole()
}

/// An item, which is taken, arrives at a node.
#[inline(never)]
fn settle<T: Drop>(
    pool: &mut Pool<Slot<T>>,
    node: Link,
    item: &mut Option<T>,
    marked: bool,
) -> Result<u32, NoArrival>
    requires node { (number : ℕ) × ((spots : ℕ → Option Spot)
        × ((height : ℕ) × InTree (item_in pool.old number) spots (lies_at node) height)) }
    requires item { is_some item.old ≡ true }
    ensures ok { IfOk result (λ least. (number : ℕ) (x : T) → item.old ≡ Some x
        → IsNode pool.old number (lies_at node)
        → ArrivesIn (item_in pool.old number) (item_in pool.new number) (lies_at node) []
        (marked_item x marked) least) }
    ensures refused { IfErr result (λ why. (number : ℕ) (spots : ℕ → Option Spot) (height : ℕ)
        (x : T) → InTree (item_in pool.old number) spots (lies_at node) height
        → RefusesArrivalIn pool.old.spare [] x (tree_at height (item_in pool.old number)
        (lies_at node)) (with_item x why)) }
    ensures nodes { (number : ℕ) → count_in pool.new number ≡ count_in pool.old number }
    ensures unchanged { OnErr result (pool.new ≡ pool.old) }
    ensures held { OnErr result (item.new ≡ item.old) }
    ensures kept { (number : ℕ) → IsNode pool.old number (lies_at node)
        → KeepsRegions pool.old pool.new number }
    ensures spare { pool.new.spare ≡ pool.old.spare }
{
    if let Part::Wanting = &body(pool, node).part {
        let Some(item) = item.take() else {
            unreachable!();
        };
        set_body(
            pool,
            node,
            Held {
                marked,
                part: Part::Item(item),
            },
        );
        return Ok(0);
    }
    Err(NoArrival::Occupied)
}

/// An item, which is taken, arrives at a place inside a node. Answers the least length of a prefix of the place that is whole by it. It
/// goes on inside by itself, a place may have 512 indices, and so little stands on its stack: the item isn't there.
fn settle_in<T: Drop>(
    pool: &mut Pool<Slot<T>>,
    region: &Region,
    node: Link,
    place: &[u32],
    item: &mut Option<T>,
    marked: bool,
) -> Result<u32, NoArrival>
    requires live { IsLive pool.old region.now }
    requires node { (spots : ℕ → Option Spot)
        × ((height : ℕ) × (InTree (item_in pool.old (number_of region.now)) spots (lies_at node)
        height × (count place.now ≤ height))) }
    requires short { count place.now < 2 ^ 32 }
    requires item { is_some item.old ≡ true }
    ensures ok { IfOk result (λ least. (x : T) → item.old ≡ Some x
        → ArrivesIn (item_in pool.old (number_of region.now))
        (item_in pool.new (number_of region.now)) (lies_at node) place.now (marked_item x marked)
        least) }
    ensures refused { IfErr result (λ why. (spots : ℕ → Option Spot) (height : ℕ) (x : T)
        → InTree (item_in pool.old (number_of region.now)) spots (lies_at node) height
        → count place.now ≤ height → RefusesArrivalIn pool.old.spare place.now x
        (tree_at height (item_in pool.old (number_of region.now)) (lies_at node))
        (with_item x why)) }
    ensures nodes { OnOk result ((spots : ℕ → Option Spot) (height : ℕ)
        → InTree (item_in pool.old (number_of region.now)) spots (lies_at node) height
        → count place.now ≤ height → count_in pool.new (number_of region.now)
        ≤ count_in pool.old (number_of region.now)
        + new_nodes place.now (tree_at height (item_in pool.old (number_of region.now))
        (lies_at node))) }
    ensures unchanged { OnErr result (pool.new.regions ≡ pool.old.regions) }
    ensures held { OnErr result (item.new ≡ item.old) }
    ensures kept { KeepsRegions pool.old pool.new (number_of region.now) }
    ensures spare { pool.old.spare ≤ pool.new.spare + count place.now }
{
    let Some((&index, rest)) = place.split_first() else {
        return settle(pool, node, item, marked);
    };
    if !body(pool, node).has_place(index) {
        return Err(NoArrival::NoSuchPlace);
    }
    let Ok(part) = part_or_new(pool, region, node, index, place.len()) else {
        return Err(NoArrival::NoMemory);
    };
    let least = settle_in(pool, region, part, rest, item, marked)?;
    if note_part(pool, node, index, least == 0, marked) {
        Ok(0)
    } else {
        Ok(least + 1)
    }
}

/// An item arrives at a place inside a node. Answers the least length of a prefix of the place that is whole by it.
pub fn arrive_in<T: Drop>(
    pool: &mut Pool<Slot<T>>,
    region: &Region,
    node: Link,
    place: &[u32],
    item: T,
    marked: bool,
) -> Result<u32, ArriveRefused<T>>
    requires live { IsLive pool.old region.now }
    requires node { (spots : ℕ → Option Spot)
        × ((height : ℕ) × (InTree (item_in pool.old (number_of region.now)) spots (lies_at node)
        height × (count place.now ≤ height))) }
    requires short { count place.now < 2 ^ 32 }
    ensures ok { IfOk result (λ least. ArrivesIn (item_in pool.old (number_of region.now))
        (item_in pool.new (number_of region.now)) (lies_at node) place.now (marked_item item marked)
        least) }
    ensures refused { IfErr result (λ refused. (spots : ℕ → Option Spot) (height : ℕ)
        → InTree (item_in pool.old (number_of region.now)) spots (lies_at node) height
        → count place.now ≤ height → RefusesArrivalIn pool.old.spare place.now item
        (tree_at height (item_in pool.old (number_of region.now)) (lies_at node)) refused) }
    ensures nodes { OnOk result ((spots : ℕ → Option Spot) (height : ℕ)
        → InTree (item_in pool.old (number_of region.now)) spots (lies_at node) height
        → count place.now ≤ height → count_in pool.new (number_of region.now)
        ≤ count_in pool.old (number_of region.now)
        + new_nodes place.now (tree_at height (item_in pool.old (number_of region.now))
        (lies_at node))) }
    ensures unchanged { OnErr result (pool.new.regions ≡ pool.old.regions) }
    ensures kept { KeepsRegions pool.old pool.new (number_of region.now) }
    ensures spare { pool.old.spare ≤ pool.new.spare + count place.now }
{
    let mut held = Some(item);
    match settle_in(pool, region, node, place, &mut held, marked) {
        Ok(least) => Ok(least),
        Err(why) => match held {
            Some(item) => Err(why.with(item)),
            None => unreachable!(),
        },
    }
}

/// The list that stands at a node, or may, is closed with a length.
#[inline(never)]
fn end<T: Drop>(
    pool: &mut Pool<Slot<T>>,
    node: Link,
    length: u32,
) -> Result<Option<u32>, CloseRefused>
    requires { (number : ℕ) × ((spots : ℕ → Option Spot)
        × ((height : ℕ) × (InTree (item_in pool.old number) spots (lies_at node) height
        × (0 < height)))) }
    ensures ok { IfOk result (λ least. (number : ℕ) → IsNode pool.old number (lies_at node)
        → ClosesIn (item_in pool.old number) (item_in pool.new number) (lies_at node) [] length
        least) }
    ensures refused { IfErr result (λ refused. (number : ℕ) (spots : ℕ → Option Spot) (height : ℕ)
        → InTree (item_in pool.old number) spots (lies_at node) height → 0 < height
        → RefusesCloseIn pool.old.spare [] length (tree_at height (item_in pool.old number)
        (lies_at node)) refused) }
    ensures nodes { (number : ℕ) → count_in pool.new number ≡ count_in pool.old number }
    ensures unchanged { OnErr result (pool.new ≡ pool.old) }
    ensures kept { (number : ℕ) → IsNode pool.old number (lies_at node)
        → KeepsRegions pool.old pool.new number }
    ensures spare { pool.new.spare ≡ pool.old.spare }
{
    let held = body(pool, node);
    let counts = held.counts();
    let marked = held.marked;
    if let Part::Item(_) = &held.part {
        return Err(CloseRefused::NoSuchPlace);
    }
    if counts.length.is_some() {
        return Err(CloseRefused::AlreadyClosed);
    }
    if counts.most > u64::from(length) {
        return Err(CloseRefused::WrongLength {
            asked: length,
            needed: counts.most,
        });
    }
    let counts = counts.ended(length);
    set_body(
        pool,
        node,
        Held {
            marked,
            part: Part::Numbered(counts),
        },
    );
    Ok(if counts.is_whole() { Some(0) } else { None })
}

/// The list at a place inside a node is closed. Answers the least length of a prefix of the place that is whole by it.
pub fn close_in<T: Drop>(
    pool: &mut Pool<Slot<T>>,
    region: &Region,
    node: Link,
    place: &[u32],
    length: u32,
) -> Result<Option<u32>, CloseRefused>
    requires live { IsLive pool.old region.now }
    requires node { (spots : ℕ → Option Spot)
        × ((height : ℕ) × (InTree (item_in pool.old (number_of region.now)) spots (lies_at node)
        height × (count place.now < height))) }
    requires short { count place.now < 2 ^ 32 }
    ensures ok { IfOk result (λ least. ClosesIn (item_in pool.old (number_of region.now))
        (item_in pool.new (number_of region.now)) (lies_at node) place.now length least) }
    ensures refused { IfErr result (λ refused. (spots : ℕ → Option Spot) (height : ℕ)
        → InTree (item_in pool.old (number_of region.now)) spots (lies_at node) height
        → count place.now < height → RefusesCloseIn pool.old.spare place.now length
        (tree_at height (item_in pool.old (number_of region.now)) (lies_at node)) refused) }
    ensures nodes { OnOk result ((spots : ℕ → Option Spot) (height : ℕ)
        → InTree (item_in pool.old (number_of region.now)) spots (lies_at node) height
        → count place.now < height → count_in pool.new (number_of region.now)
        ≤ count_in pool.old (number_of region.now)
        + new_nodes place.now (tree_at height (item_in pool.old (number_of region.now))
        (lies_at node))) }
    ensures unchanged { OnErr result (pool.new.regions ≡ pool.old.regions) }
    ensures kept { KeepsRegions pool.old pool.new (number_of region.now) }
    ensures spare { pool.old.spare ≤ pool.new.spare + count place.now }
{
    let Some((&index, rest)) = place.split_first() else {
        return end(pool, node, length);
    };
    if !body(pool, node).has_place(index) {
        return Err(CloseRefused::NoSuchPlace);
    }
    let Ok(part) = part_or_new(pool, region, node, index, place.len()) else {
        return Err(CloseRefused::NoMemory);
    };
    let least = close_in(pool, region, part, rest, length)?;
    let whole = note_part(pool, node, index, is_here(least), false);
    Ok(outward(whole, least))
}

/// Whether the least prefix is the empty one.
fn is_here(least: Option<u32>) -> bool
    ensures { result ≡ is_zero least }
{
    match least {
        Some(length) => length == 0,
        None => false,
    }
}

/// The least prefix as the list around sees it, which is whole itself or not.
fn outward(whole: bool, least: Option<u32>) -> Option<u32>
    requires { (k : ℕ) → least ≡ Some k → k + 1 < 2 ^ 32 }
    ensures { result ≡ outer_least whole least }
{
    if whole {
        return Some(0);
    }
    match least {
        Some(length) => Some(length + 1),
        None => None,
    }
}

/// What `arrive_in` will answer for an item that can arrive.
pub fn whole_by_arrival_in<T>(pool: &Pool<Slot<T>>, node: Link, place: &[u32]) -> u32
    requires node { (number : ℕ) × ((spots : ℕ → Option Spot)
        × ((height : ℕ) × (InTree (item_in pool.now number) spots (lies_at node) height
        × (count place.now ≤ height) × CanArrive place.now (tree_at height (item_in pool.now number)
        (lies_at node))))) }
    requires short { count place.now < 2 ^ 32 }
    ensures least { (number : ℕ) (spots : ℕ → Option Spot) (height : ℕ)
        → InTree (item_in pool.now number) spots (lies_at node) height → count place.now ≤ height
        → CanArrive place.now (tree_at height (item_in pool.now number) (lies_at node))
        → (x : Marked T)
        → least_whole place.now (arrive place.now x (tree_at height (item_in pool.now number)
        (lies_at node))) ≡ Some result }
    ensures short { result ≤ count place.now }
{
    let Some((&index, rest)) = place.split_first() else {
        return 0;
    };
    let least = match seek(pool, node, index) {
        Stop::Found(part) => whole_by_arrival_in(pool, part, rest),
        Stop::Free(_) => rest.len() as u32,
    };
    let counts = body(pool, node).counts().with(index, least == 0);
    if counts.is_whole() { 0 } else { least + 1 }
}

/// What `close_in` will answer for a list that can be closed with this length.
pub fn whole_by_close_in<T>(
    pool: &Pool<Slot<T>>,
    node: Link,
    place: &[u32],
    length: u32,
) -> Option<u32>
    requires node { (number : ℕ) × ((spots : ℕ → Option Spot)
        × ((height : ℕ) × (InTree (item_in pool.now number) spots (lies_at node) height
        × (count place.now < height)
        × CanClose place.now length (tree_at height (item_in pool.now number) (lies_at node))))) }
    requires short { count place.now < 2 ^ 32 }
    ensures least { (number : ℕ) (spots : ℕ → Option Spot) (height : ℕ)
        → InTree (item_in pool.now number) spots (lies_at node) height → count place.now < height
        → CanClose place.now length (tree_at height (item_in pool.now number) (lies_at node))
        → least_whole place.now (close_at place.now length (tree_at height (item_in pool.now number)
        (lies_at node))) ≡ result }
    ensures short { (k : ℕ) → result ≡ Some k → k ≤ count place.now }
{
    let Some((&index, rest)) = place.split_first() else {
        let counts = body(pool, node).counts().ended(length);
        return if counts.is_whole() { Some(0) } else { None };
    };
    let least = match seek(pool, node, index) {
        Stop::Found(part) => whole_by_close_in(pool, part, rest, length),
        Stop::Free(_) => whole_when_new(rest.len() as u32, length),
    };
    let counts = body(pool, node).counts().with(index, is_here(least));
    outward(counts.is_whole(), least)
}

/// What closing a list of which nothing is known makes whole, at a place of this length.
fn whole_when_new(at: u32, length: u32) -> Option<u32>
    ensures { result ≡ (if length == 0 then Some at else None) }
{
    if length == 0 { Some(at) } else { None }
}
