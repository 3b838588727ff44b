//! A pool of items in regions, which are begun, filled and released as a whole.
//!
//! A caller that builds many short lists, trees or graphs puts their nodes into a region, keeps a
//! small copyable handle of each, and gives all of them back by one call. The next region takes
//! the memory of those that were released.
//!
//! **What it promises.** A contract sees, under the number of each live region, the list of its
//! items in the order in which they were put (`items_of`), and `spare`, how many puts can't be
//! refused. A region's number is never given twice. `put` adds one item at the end of one region's
//! list, `get_mut` writes one item, `release` takes away one region, and nothing else changes.
//! Only `put` lowers `spare`, by 1 at most. So after `reserve` of some number, as many puts are not
//! refused, whatever regions they are for, and whatever is begun or released in between. Want of
//! memory is the one refusal, and leaves all regions as they were; after 2^64 - 1 regions `begin`
//! answers the same. That every item is dropped once, when its region is released or with the pool,
//! is tested and in no contract.
//!
//! **Links.** A `Link` is a short handle of an item, or the link to none: it has where the item lies and not its region or
//! position, and is meant for the links of lists, trees and graphs within one region. A contract sees it as the slot in which
//! the item lies (`lies_at`), and a region as what lies in each slot (`item_in`). `put` takes a slot in which nothing of the
//! region lay.
//!
//! **Handles.** `Region` and `Node` also hold where in the pool's memory they lie, so that no call
//! searches. A handle of another pool may stand for the same number and spot; the conditions
//! `IsLive` and `Holds` speak only of numbers and spots, so a caller keeps each pool's handles
//! apart.
//!
//! **How it is laid out.** The items of all regions stand in one slab, each with the slot of the
//! item before it in its region; a table has each live region's number, last slot and count
//! (`layout.rt`). The free slots of both are linked through the slots themselves, so that
//! `release` takes no memory. `specs/Pool.antt` has what contracts see, `specs/Layout.antt` how
//! the memory shows it, and `proofs/PoolLemmas.antt` lemmas for callers.
#![tactic(auto)]

ghost use Rattle.std.specs.Prelude.{◌≡◌, ◌≢◌, ◌++◌, ◌∷◌, ℕ, ◌+◌, ◌<◌, ◌≤◌, Some, None, [], length, OnOk, OnErr, IfOk, IfErr, IsOk};
ghost use Rattle.std.specs.Borrow.{sem};
ghost use Rattle.tv_pool.specs.Pool.{IsLive, Holds, item_at, live_count, Begins, Puts, Keeps, KeepsOthers, regions_with, number_of, items_of, slot_of, lies_at, nowhere, item_in, IsLinked};

mod faults;
mod handles;
mod layout;

pub use faults::{NoMemory, PutRefused};
pub use handles::{Link, Node, Region};
use layout::{Chain, Placed};
use slab::Slab;
use std::alloc::Global;
use std::marker::Model;

/// A pool of items of one type in regions.
#[derive(Drop)]
pub struct Pool<T> {
    // The items of all live regions.
    nodes: Slab<Placed<T>>,
    // The chain of each live region.
    regions: Slab<Chain>,
    // How many regions were begun, and so the number of the next.
    begun: u64,
}

impl<T> Model for Pool<T> {
    ghost use Rattle.tv_pool.specs.Pool.{Pool as Regions};

    ghost Value = { Regions T };

    ghost use Rattle.tv_pool.specs.Layout.{view_of, invariant_of};

    ghost view = { view_of };

    ghost invariant = { invariant_of };
}

impl<T> Pool<T> {
    ghost use Rattle.tv_pool.specs.Lends.{lends_item, lends_linked};

    /// A pool with no region, which grows by this allocator. It takes no memory yet.
    pub fn new(alloc: Global) -> Pool<T>
        ensures regions { result.regions ≡ [] }
        ensures spare { result.spare ≡ 0 }
    {
        Pool {
            nodes: Slab::new(alloc),
            regions: Slab::new(alloc),
            begun: 0,
        }
    }

    /// Begins an empty region, under the next number.
    ///
    /// It is refused for want of memory, and after 2^64 - 1 regions. The cost is constant,
    /// amortized over the regions that are live at once.
    pub fn begin(&mut self) -> Result<Region, NoMemory>
        ensures ok { IfOk result (Begins self.old self.new) }
        ensures numbers { OnOk result (length self.old.regions < u64.MAX) }
        ensures refused { OnErr result (self.new.regions ≡ self.old.regions) }
        ensures kept { Keeps self.old self.new }
        ensures spare { self.old.spare ≤ self.new.spare }
    {
        if self.begun == u64::MAX {
            return Err(NoMemory);
        }
        let number = self.begun;
        let chain = Chain {
            number,
            last: 0,
            count: 0,
        };
        match self.regions.insert(chain) {
            Ok(entry) => {
                self.begun = number + 1;
                Ok(Region { number, entry })
            }
            Err(_) => Err(NoMemory),
        }
    }

    /// Makes room for `count` puts, into any regions.
    ///
    /// It is refused for want of memory alone. The cost is that of moving the items once, where the
    /// room is not there yet.
    pub fn reserve(&mut self, count: u64) -> Result<(), NoMemory>
        ensures ok { OnOk result (count ≤ self.new.spare) }
        ensures room { count ≤ self.old.spare → IsOk result }
        ensures regions { self.new.regions ≡ self.old.regions }
        ensures kept { Keeps self.old self.new }
        ensures spare { self.old.spare ≤ self.new.spare }
    {
        match self.nodes.reserve(count as usize) {
            Ok(()) => Ok(()),
            Err(_) => Err(NoMemory),
        }
    }

    /// Puts an item last into a region, and answers its node.
    ///
    /// It is refused for want of memory alone, and then gives the item back. The cost is constant,
    /// amortized over the items that are live at once.
    pub fn put(&mut self, region: &Region, item: T) -> Result<Node, PutRefused<T>>
        requires { IsLive self.old region.now }
        ensures ok { IfOk result (Puts self.old self.new region.now item) }
        ensures last { OnOk result (items_of self.new (number_of region.now)
            ≡ items_of self.old (number_of region.now) ++ item ∷ []) }
        ensures holds { IfOk result (Holds self.new) }
        ensures item { IfOk result (λ node. item_at self.new node ≡ Some item) }
        ensures fresh { IfOk result (λ node. item_in self.old (number_of region.now) (slot_of node)
            ≡ None) }
        ensures lies { IfOk result (λ node. slot_of node ≢ nowhere) }
        ensures kept { Keeps self.old self.new }
        ensures refused { IfErr result (λ refused. refused.item ≡ item) }
        ensures unchanged { OnErr result (self.new.regions ≡ self.old.regions) }
        ensures room { 0 < self.old.spare → IsOk result }
        ensures spare { self.old.spare ≤ self.new.spare + 1 }
    {
        if self.nodes.reserve(1).is_err() {
            return Err(PutRefused { item });
        }
        // So the count of one region fits too.
        prove!(self.nodes.len() < self.nodes.capacity());
        let chain = &mut self.regions[region.entry];
        let slot = self.nodes.insert_reserved(Placed {
            previous: chain.last,
            item,
        });
        let position = chain.count;
        chain.last = slot;
        chain.count = position + 1;
        Ok(Node {
            region: chain.number,
            position,
            slot,
        })
    }

    /// The item of a node, by one access of the memory.
    pub fn get(&self, node: Node) -> &T
        requires { Holds self.now node }
        ensures { item_at self.now node ≡ Some result.now }
    {
        &self.nodes[node.slot].item
    }

    /// The item of a node for writing, by one access of the memory.
    pub fn get_mut(&mut self, node: Node) -> &mut T
        requires { Holds self.old node }
        ensures* writes_back { sem 𝓛 (lends_item T.row self.entry node result) }
        ensures value { item_at self.old node ≡ Some result.now }
    {
        self.nodes[node.slot].item_mut()
    }

    /// The item that a link leads to, by one access of the memory.
    pub fn at(&self, link: Link) -> &T
        requires { IsLinked self.now link }
        ensures { (number : ℕ) (item : T) → item_in self.now number (lies_at link) ≡ Some item
            → result.now ≡ item }
    {
        &self.nodes[link.slot].item
    }

    /// The item that a link leads to, for writing, by one access of the memory.
    pub fn at_mut(&mut self, link: Link) -> &mut T
        requires { IsLinked self.old link }
        ensures* writes_back { sem 𝓛 (lends_linked T.row self.entry link result) }
        ensures value { (number : ℕ) (item : T) → item_in self.old number (lies_at link) ≡ Some item
            → result.now ≡ item }
        ensures alone { (number other : ℕ) (one two : T) → item_in self.old number (lies_at link)
            ≡ Some one → item_in self.old other (lies_at link) ≡ Some two → number ≡ other }
    {
        self.nodes[link.slot].item_mut()
    }

    /// Drops the items of a region, from the last to the first, and ends the region.
    ///
    /// It takes no memory, and its cost is that of dropping the items.
    pub fn release(&mut self, region: Region)
    where
        T: Drop,
        requires { IsLive self.old region }
        ensures regions { self.new.regions ≡ regions_with self.old (number_of region) None }
        ensures kept { KeepsOthers self.old self.new (number_of region) }
        ensures spare { self.new.spare ≡ self.old.spare
            + length (items_of self.old (number_of region)) }
    {
        let chain = self.regions.remove(region.entry);
        let mut slot = chain.last;
        'items: for _ in 0..chain.count {
            let placed = self.nodes.remove(slot);
            slot = placed.previous;
        }
    }

    /// How many items the live regions have together. The cost is constant.
    pub fn live(&self) -> u64
        ensures { result ≡ live_count self.now.regions }
    {
        self.nodes.len() as u64
    }
}
