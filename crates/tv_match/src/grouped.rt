ghost use Rattle.std.specs.Prelude.{◌≡◌, ◌<◌, ◌≤◌, ◌++◌, ◌∷◌, ℕ, [], length, take, IfOk, OnOk, OnErr, IfSome, IsNone};
ghost use Rattle.tv_matching.specs.Stores.{latest_by};
ghost use Rattle.tv_match.specs.Entries.{entry, entry_at, kepts, front, FoundBy};
ghost use Rattle.tv_match.specs.Chained.{NoneIn};
ghost use Rattle.tv_match.specs.Grouped.{grouped, AreHeads};

use crate::bags::Bag;
use crate::chains::{Chains, keep_first};
use crate::found::Found;
use crate::kinds::Kind;
use std::alloc::Global;
use std::marker::Model;
use tv_value::NoMemory;

/// A bag whose items are found by the first indices of their places. A contract sees how many these are, and the list.
///
/// The items with the same first indices are in one bucket, and each bucket has a head at this place. What is cut leaves its head.
#[derive(Debug, Drop)]
pub struct Grouped {
    depth: usize,
    bag: Bag,
    heads: Found,
    chains: Chains,
}

impl Model for Grouped {
    ghost use Rattle.tv_match.specs.Grouped as spec;
    ghost use Rattle.tv_match.specs.Grouped.{grouped, AreHeads, AreGrouped};

    ghost Value = { spec.Grouped };

    ghost view = { λ g. grouped g.depth g.bag };

    ghost invariant = { λ g. AreHeads g.heads g.chains.count × AreGrouped g.depth g.bag g.heads g.chains.of };
}

impl Grouped {
    /// An empty bag. Takes no memory.
    pub fn new(alloc: Global, depth: usize) -> Grouped
        ensures { result ≡ grouped depth [] }
    {
        Grouped {
            depth,
            bag: Bag::new(alloc),
            heads: Found::new(alloc),
            chains: Chains::new(alloc),
        }
    }

    /// An equal bag.
    pub fn copy(&self, alloc: Global) -> Result<Grouped, NoMemory>
        ensures { IfOk result (λ g. g ≡ self.now) }
    {
        Ok(Grouped {
            depth: self.depth,
            bag: self.bag.copy(alloc)?,
            heads: self.heads.copy(alloc)?,
            chains: self.chains.copy(alloc)?,
        })
    }

    /// By how many indices items are found.
    pub fn depth(&self) -> usize
        ensures { result ≡ self.now.depth }
    {
        self.depth
    }

    /// The items.
    pub fn bag(&self) -> &Bag
        ensures { result.now ≡ self.now.items }
    {
        &self.bag
    }

    /// Puts an item at the end. A look-up among the different first indices.
    pub fn push(&mut self, place: &[u32], kind: Kind, number: usize) -> Result<(), NoMemory>
        ensures ok { OnOk result (self.new ≡ grouped self.old.depth
            (self.old.items ++ entry number place.now kind ∷ [])) }
        ensures err { OnErr result (self.new ≡ self.old) }
    {
        let key = first_indices(place, self.depth);
        let bucket = bucket_of(&mut self.heads, &mut self.chains, key)?;
        self.chains.push(bucket)?;
        match self.bag.push(place, &[], kind, number) {
            Ok(()) => Ok(()),
            Err(error) => {
                self.chains.pop();
                Err(error)
            }
        }
    }

    /// Takes away the items at the end that a telling with a greater number brought. Takes no memory.
    pub fn cut(&mut self, number: usize)
        ensures { self.new ≡ grouped self.old.depth (front number self.old.items) }
    {
        let count = self.bag.front_len(number);
        keep_first(&mut self.chains, count);
        self.bag.truncate(count);
    }

    /// The last item that has these first indices. A look-up among the different first indices.
    pub fn last(&self, key: &[u32]) -> Option<usize>
        ensures some { IfSome result (FoundBy (take self.now.depth) key.now self.now.items
            (length self.now.items)) }
        ensures none { IsNone result → latest_by (take self.now.depth) key.now
            (kepts self.now.items) ≡ [] }
    {
        let bucket = self.heads.latest(key, self.heads.bag().len())?;
        self.chains.last(bucket)
    }

    /// The last item before this one that has its first indices. Constant.
    pub fn before(&self, at: usize) -> Option<usize>
        requires { at < length self.now.items }
        ensures some { IfSome result (FoundBy (take self.now.depth)
            (take self.now.depth (entry_at self.now.items at).place) self.now.items at) }
        ensures none { IsNone result → latest_by (take self.now.depth)
            (take self.now.depth (entry_at self.now.items at).place)
            (kepts (take at self.now.items)) ≡ [] }
    {
        self.chains.before(at)
    }
}

/// The first indices of a place, all where it has no more.
pub fn first_indices(place: &[u32], count: usize) -> &[u32]
    ensures { result.now ≡ take count place.now }
{
    if count < place.len() {
        &place[..count]
    } else {
        place
    }
}

/// The bucket whose head stands at this place, a new one where there is none yet.
fn bucket_of(heads: &mut Found, chains: &mut Chains, key: &[u32]) -> Result<usize, NoMemory>
    requires heads { AreHeads heads.old chains.old.count }
    requires empty { (b : ℕ) → length heads.old ≤ b → NoneIn chains.old.of b
        (length chains.old.of) }
    ensures of { chains.new.of ≡ chains.old.of }
    ensures heads { AreHeads heads.new chains.new.count }
    ensures more { take (length heads.old) heads.new ≡ heads.old }
    ensures within { IfOk result (λ b. b < length heads.new) }
    ensures there { IfOk result (λ b. (entry_at heads.new b).place ≡ key.now) }
{
    let count = heads.bag().len();
    match heads.latest(key, count) {
        Some(bucket) => Ok(bucket),
        None => {
            if chains.count() <= count {
                chains.open()?;
            }
            heads.push(key, Kind::Closed(0), 0)?;
            Ok(count)
        }
    }
}
