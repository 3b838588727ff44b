//! A partial tree, and its calls.
ghost use Rattle.std.specs.Prelude.{◌≡◌, ◌≢◌, ℕ, ◌+◌, ◌≤◌, ◌<◌, Bool, false, Some, None, length, nat_lt, take, IfOk, IfErr, OnOk, OnErr, MatchOption};
ghost use Rattle.tv_pool.specs.Pool.{IsLive, lies_at, number_of};
ghost use Rattle.tv_stream.specs.nodes.Calls.{KeepsRegions, count_in};
ghost use Rattle.tv_parts.specs.Partials.{wanting, known_at, whole as is_whole_tree, holds_some};
ghost use Rattle.tv_parts.specs.Changes.{arrive as arrived, close_at, CanArrive, CanClose};
ghost use Rattle.tv_stream.specs.Trees.{Marked, memory_of, tree_of, least_whole};
ghost use Rattle.tv_stream.specs.Stands.{is_marked, Stands, IsIn, KeepsTrees, Starts};
ghost use Rattle.tv_stream.specs.Inside.{IsAt};
ghost use Rattle.tv_stream.specs.Looks.{Shows};
ghost use Rattle.tv_stream.specs.Answers.{marked_item, kind_of, item_of, RefusesArrival, RefusesClose};
ghost use Rattle.tv_stream.specs.NodeCounts.{new_nodes};

use crate::changes::{arrive_in, close_in, whole_by_arrival_in, whole_by_close_in};
use crate::held::{Held, Part, PartKind};
use crate::levels::marked_in;
use crate::look::Look;
use crate::refusals::{ArriveRefused, CloseRefused};
use crate::{Entry, Stop, body, plant, seek};
use std::marker::PhantomData;
use tv_pool::{Link, NoMemory, Node, Pool, Region};
use tv_value::Place;

/// A node of a partial tree in its pool.
pub type Slot<T> = Entry<Held<T>>;

/// A tree of a stated depth that is filled in any order, its nodes in a region of a pool.
///
/// An item may arrive at any place of at most the depth's length, a list stands above it. The tree goes with its region.
#[derive(Debug, Drop)]
pub struct Partial<T> {
    pub(crate) root: Node,
    pub(crate) depth: u32,
    of: PhantomData<T>,
}

impl<T> Partial<T> {
    /// A tree of which nothing is known yet. It takes one node.
    pub fn start(
        pool: &mut Pool<Slot<T>>,
        region: &Region,
        depth: u32,
    ) -> Result<Partial<T>, NoMemory>
    where
        T: Drop,
        requires { IsLive pool.old region.now }
        ensures ok { IfOk result (λ tree. Starts pool.old pool.new tree depth
            (number_of region.now)) }
        ensures stands { IfOk result (Stands pool.new) }
        ensures region { IfOk result (λ tree. IsIn tree region.now) }
        ensures node { OnOk result (count_in pool.new (number_of region.now)
            ≡ count_in pool.old (number_of region.now) + 1) }
        ensures unchanged { OnErr result (pool.new.regions ≡ pool.old.regions) }
        ensures kept { KeepsRegions pool.old pool.new (number_of region.now) }
        ensures room { OnErr result (pool.old.spare ≡ 0) }
        ensures spare { pool.old.spare ≤ pool.new.spare + 1 }
    {
        match plant(pool, region, Held::wanting()) {
            Ok(root) => Ok(Partial {
                root,
                depth,
                of: PhantomData,
            }),
            Err(_) => Err(NoMemory),
        }
    }

    /// The greatest length of a place. The cost is constant.
    pub fn depth(&self) -> u32
        ensures { result ≡ self.now.depth }
    {
        self.depth
    }

    /// An item arrives at a place, without a mark.
    ///
    /// The refusals come in the order of `ArriveRefused`; each gives the item back and changes nothing. Logarithmic in the
    /// known parts of each list on the way. It takes a node for each index of the place that leads to nothing known yet.
    pub fn arrive(
        &mut self,
        pool: &mut Pool<Slot<T>>,
        region: &Region,
        place: &Place,
        item: T,
    ) -> Result<(), ArriveRefused<T>>
    where
        T: Drop,
        requires live { IsLive pool.old region.now }
        requires region { IsIn self.old region.now }
        requires stands { Stands pool.old self.old }
        ensures tree { OnOk result (tree_of pool.new self.new
            ≡ arrived place.now (marked_item item false) (tree_of pool.old self.old)) }
        ensures can { OnOk result (CanArrive place.now (tree_of pool.old self.old)) }
        ensures short { OnOk result (length place.now ≤ self.old.depth) }
        ensures refused { IfErr result (RefusesArrival pool.old.spare self.old.depth place.now item
            (tree_of pool.old self.old)) }
        ensures unchanged { OnErr result (pool.new.regions ≡ pool.old.regions) }
        ensures same { self.new ≡ self.old }
        ensures trees { KeepsTrees pool.old pool.new self.old }
        ensures nodes { OnOk result (count_in pool.new (number_of region.now)
            ≤ count_in pool.old (number_of region.now)
            + new_nodes place.now (tree_of pool.old self.old)) }
        ensures stands { Stands pool.new self.new }
        ensures kept { KeepsRegions pool.old pool.new (number_of region.now) }
        ensures spare { pool.old.spare ≤ pool.new.spare + self.old.depth }
    {
        self.arrive_marked(pool, region, place, item, false)?;
        Ok(())
    }

    /// An item arrives at a place, marked or not. Answers the least length of a prefix of the place at which all is known by
    /// it: after it, and not before (`NoneWasWhole`).
    ///
    /// All else is as with `arrive`.
    pub fn arrive_marked(
        &mut self,
        pool: &mut Pool<Slot<T>>,
        region: &Region,
        place: &Place,
        item: T,
        marked: bool,
    ) -> Result<u32, ArriveRefused<T>>
    where
        T: Drop,
        requires live { IsLive pool.old region.now }
        requires region { IsIn self.old region.now }
        requires stands { Stands pool.old self.old }
        ensures tree { OnOk result (tree_of pool.new self.new
            ≡ arrived place.now (marked_item item marked) (tree_of pool.old self.old)) }
        ensures least { IfOk result (λ least. least_whole place.now (tree_of pool.new self.new)
            ≡ Some least) }
        ensures can { OnOk result (CanArrive place.now (tree_of pool.old self.old)) }
        ensures short { OnOk result (length place.now ≤ self.old.depth) }
        ensures refused { IfErr result (RefusesArrival pool.old.spare self.old.depth place.now item
            (tree_of pool.old self.old)) }
        ensures unchanged { OnErr result (pool.new.regions ≡ pool.old.regions) }
        ensures same { self.new ≡ self.old }
        ensures trees { KeepsTrees pool.old pool.new self.old }
        ensures nodes { OnOk result (count_in pool.new (number_of region.now)
            ≤ count_in pool.old (number_of region.now)
            + new_nodes place.now (tree_of pool.old self.old)) }
        ensures stands { Stands pool.new self.new }
        ensures kept { KeepsRegions pool.old pool.new (number_of region.now) }
        ensures spare { pool.old.spare ≤ pool.new.spare + self.old.depth }
    {
        let place = place.as_slice();
        if place.len() > self.depth as usize {
            return Err(ArriveRefused::NoSuchPlace(item));
        }
        arrive_in(pool, region, self.root.link(), place, item, marked)
    }

    /// The list at a place is closed with its length.
    ///
    /// The refusals come in the order of `CloseRefused`; each changes nothing. Logarithmic in the known parts of each list on
    /// the way. It takes a node for each index of the place that leads to nothing known yet.
    pub fn close(
        &mut self,
        pool: &mut Pool<Slot<T>>,
        region: &Region,
        place: &Place,
        length: u32,
    ) -> Result<(), CloseRefused>
    where
        T: Drop,
        requires live { IsLive pool.old region.now }
        requires region { IsIn self.old region.now }
        requires stands { Stands pool.old self.old }
        ensures tree { OnOk result (tree_of pool.new self.new
            ≡ close_at place.now length (tree_of pool.old self.old)) }
        ensures can { OnOk result (CanClose place.now length (tree_of pool.old self.old)) }
        ensures short { OnOk result (Rattle.std.specs.Prelude.length place.now < self.old.depth) }
        ensures refused { IfErr result (RefusesClose pool.old.spare self.old.depth place.now length
            (tree_of pool.old self.old)) }
        ensures unchanged { OnErr result (pool.new.regions ≡ pool.old.regions) }
        ensures same { self.new ≡ self.old }
        ensures trees { KeepsTrees pool.old pool.new self.old }
        ensures nodes { OnOk result (count_in pool.new (number_of region.now)
            ≤ count_in pool.old (number_of region.now)
            + new_nodes place.now (tree_of pool.old self.old)) }
        ensures stands { Stands pool.new self.new }
        ensures kept { KeepsRegions pool.old pool.new (number_of region.now) }
        ensures spare { pool.old.spare ≤ pool.new.spare + self.old.depth }
    {
        self.close_whole(pool, region, place, length)?;
        Ok(())
    }

    /// The list at a place is closed with its length. Answers the least length of a prefix of the place at which all is known
    /// by it, as `arrive_marked` does, or None where parts of the list are still wanting.
    ///
    /// All else is as with `close`.
    pub fn close_whole(
        &mut self,
        pool: &mut Pool<Slot<T>>,
        region: &Region,
        place: &Place,
        length: u32,
    ) -> Result<Option<u32>, CloseRefused>
    where
        T: Drop,
        requires live { IsLive pool.old region.now }
        requires region { IsIn self.old region.now }
        requires stands { Stands pool.old self.old }
        ensures tree { OnOk result (tree_of pool.new self.new
            ≡ close_at place.now length (tree_of pool.old self.old)) }
        ensures least { IfOk result (λ least. least_whole place.now (tree_of pool.new self.new)
            ≡ least) }
        ensures can { OnOk result (CanClose place.now length (tree_of pool.old self.old)) }
        ensures short { OnOk result (Rattle.std.specs.Prelude.length place.now < self.old.depth) }
        ensures refused { IfErr result (RefusesClose pool.old.spare self.old.depth place.now length
            (tree_of pool.old self.old)) }
        ensures unchanged { OnErr result (pool.new.regions ≡ pool.old.regions) }
        ensures same { self.new ≡ self.old }
        ensures trees { KeepsTrees pool.old pool.new self.old }
        ensures nodes { OnOk result (count_in pool.new (number_of region.now)
            ≤ count_in pool.old (number_of region.now)
            + new_nodes place.now (tree_of pool.old self.old)) }
        ensures stands { Stands pool.new self.new }
        ensures kept { KeepsRegions pool.old pool.new (number_of region.now) }
        ensures spare { pool.old.spare ≤ pool.new.spare + self.old.depth }
    {
        let place = place.as_slice();
        if place.len() >= self.depth as usize {
            return Err(CloseRefused::NoSuchPlace);
        }
        close_in(pool, region, self.root.link(), place, length)
    }

    /// What `arrive_marked` will answer for an item that can arrive at a place. Takes no memory.
    pub fn whole_by_arrival(&self, pool: &Pool<Slot<T>>, place: &Place) -> u32
        requires stands { Stands pool.now self.now }
        requires short { length place.now ≤ self.now.depth }
        requires can { CanArrive place.now (tree_of pool.now self.now) }
        ensures { (item : Marked T)
            → least_whole place.now (arrived place.now item (tree_of pool.now self.now))
            ≡ Some result }
    {
        whole_by_arrival_in(pool, self.root.link(), place.as_slice())
    }

    /// What `close_whole` will answer for a list that can be closed with this length. Takes no memory.
    pub fn whole_by_close(&self, pool: &Pool<Slot<T>>, place: &Place, length: u32) -> Option<u32>
        requires stands { Stands pool.now self.now }
        requires short { Rattle.std.specs.Prelude.length place.now < self.now.depth }
        requires can { CanClose place.now length (tree_of pool.now self.now) }
        ensures { least_whole place.now (close_at place.now length (tree_of pool.now self.now))
            ≡ result }
    {
        whole_by_close_in(pool, self.root.link(), place.as_slice(), length)
    }

    /// The node at a place.
    fn node_at(&self, pool: &Pool<Slot<T>>, place: &[u32]) -> Option<Link>
        requires stands { Stands pool.now self.now }
        ensures { MatchOption result (known_at place.now (tree_of pool.now self.now) ≡ wanting)
            (λ link. IsAt (memory_of pool.now self.now) (lies_at link)
            (known_at place.now (tree_of pool.now self.now))) }
    {
        let mut node = self.root.link();
        'levels: for index in place {
            match seek(pool, node, *index) {
                Stop::Found(part) => node = part,
                Stop::Free(_) => return None,
            }
        }
        Some(node)
    }

    /// A look at the tree, from the top.
    pub fn look<'a>(&self, pool: &'a Pool<Slot<T>>) -> Look<'a, T>
        requires stands { Stands pool.now self.now }
        ensures { Shows result (tree_of pool.now self.now) }
    {
        Look {
            pool,
            node: self.root.link(),
        }
    }

    /// What is known at a place: nothing also where there is no such place. Takes no memory.
    pub fn kind_at(&self, pool: &Pool<Slot<T>>, place: &Place) -> PartKind
        requires stands { Stands pool.now self.now }
        ensures { result ≡ kind_of (known_at place.now (tree_of pool.now self.now)) }
    {
        match self.node_at(pool, place.as_slice()) {
            Some(node) => body(pool, node).kind(),
            None => PartKind::Wanting,
        }
    }

    /// The item at a place. Takes no memory.
    pub fn part_at<'a>(&self, pool: &'a Pool<Slot<T>>, place: &Place) -> Option<&'a T>
        requires stands { Stands pool.now self.now }
        ensures { MatchOption result (item_of (known_at place.now (tree_of pool.now self.now))
            ≡ None) (λ item. item_of (known_at place.now (tree_of pool.now self.now))
            ≡ Some item.now) }
    {
        let node = self.node_at(pool, place.as_slice())?;
        match &body(pool, node).part {
            Part::Item(item) => Some(item),
            _ => None,
        }
    }

    /// A copy of the item at a place. Takes no memory.
    pub fn item_at(&self, pool: &Pool<Slot<T>>, place: &Place) -> Option<T>
    where
        T: Copy,
        requires stands { Stands pool.now self.now }
        ensures { result ≡ item_of (known_at place.now (tree_of pool.now self.now)) }
    {
        self.part_at(pool, place).copied()
    }

    /// Whether all is known at a place: an item stands there, or a closed list whose parts are whole. Takes no memory.
    pub fn whole_at(&self, pool: &Pool<Slot<T>>, place: &Place) -> bool
        requires stands { Stands pool.now self.now }
        ensures { result ≡ is_whole_tree (known_at place.now (tree_of pool.now self.now)) }
    {
        match self.node_at(pool, place.as_slice()) {
            Some(node) => body(pool, node).is_whole(),
            None => false,
        }
    }

    /// Whether a marked item stands at a place or inside. Takes no memory.
    pub fn marked_at(&self, pool: &Pool<Slot<T>>, place: &Place) -> bool
        requires stands { Stands pool.now self.now }
        ensures { result ≡ holds_some is_marked (known_at place.now (tree_of pool.now self.now)) }
    {
        match self.node_at(pool, place.as_slice()) {
            Some(node) => body(pool, node).marked,
            None => false,
        }
    }

    /// Whether the tree is whole. Takes no memory, and the cost is constant.
    pub fn is_whole(&self, pool: &Pool<Slot<T>>) -> bool
        requires stands { Stands pool.now self.now }
        ensures { result ≡ is_whole_tree (tree_of pool.now self.now) }
    {
        body(pool, self.root.link()).is_whole()
    }

    /// Whether a marked item stands in the tree. Takes no memory, and the cost is constant.
    pub fn is_marked(&self, pool: &Pool<Slot<T>>) -> bool
        requires stands { Stands pool.now self.now }
        ensures { result ≡ holds_some is_marked (tree_of pool.now self.now) }
    {
        body(pool, self.root.link()).marked
    }

    /// At how many prefixes of a place, from the empty one on, a marked item stands there or inside. Takes no memory.
    /// Logarithmic in the known parts of each list on the way.
    pub fn marked_levels(&self, pool: &Pool<Slot<T>>, place: &Place) -> usize
        requires stands { Stands pool.now self.now }
        ensures levels { (k : ℕ) → k ≤ length place.now → nat_lt k result
            ≡ holds_some is_marked (known_at (take k place.now) (tree_of pool.now self.now)) }
        ensures most { result ≤ length place.now + 1 }
    {
        marked_in(pool, self.root.link(), place.as_slice())
    }
}
