ghost use Rattle.std.specs.Prelude.{◌≡◌, ◌++◌, IfOk, OnOk};
ghost use Rattle.tv_matching.specs.Stores.{key_of, met_by_first};
ghost use Rattle.tv_match.specs.Entries.{kepts, front, AreMore};
ghost use Rattle.tv_match.specs.Brief.{briefs};
ghost use Rattle.tv_match.specs.Grouped.{sought};
ghost use Rattle.tv_match.specs.Filed.{rests_view};

use crate::bags::Bag;
use crate::found::Found;
use crate::grouped::Grouped;
use crate::joins::{find_all, group_all, push_all_met_below, push_all_met_first};
use std::alloc::Global;
use tv_value::NoMemory;

/// What the second child of a dot or of a prefix node has.
#[derive(Drop)]
pub enum Rests {
    /// Of a dot: an item of the first child meets what stands at its place.
    Same(Found),
    /// Of a prefix node: it meets what has its place as first indices, of which there are as many as the first child is deep.
    Below(Box<Grouped>),
}

impl Rests {
    /// The same items, found as these.
    pub fn copy(&self, alloc: Global) -> Result<Rests, NoMemory>
        ensures { IfOk result (λ r. rests_view r ≡ rests_view self.now) }
    {
        match self {
            Rests::Same(found) => Ok(Rests::Same(found.copy(alloc)?)),
            Rests::Below(grouped) => {
                let copy = grouped.copy(alloc)?;
                Ok(Rests::Below(Box::new(alloc, copy)?))
            }
        }
    }

    /// How many first indices count, in a prefix node.
    pub fn depth(&self) -> Option<usize>
        ensures { result ≡ (rests_view self.now).key }
    {
        match self {
            Rests::Same(_) => None,
            Rests::Below(grouped) => Some(grouped.depth()),
        }
    }

    /// Puts what the first child's new items meet.
    pub fn push_all_met(&self, xs: &Bag, number: usize, out: &mut Bag) -> Result<(), NoMemory>
        ensures ok { OnOk result (kepts out.new ≡ kepts out.old
            ++ briefs (met_by_first (key_of (rests_view self.now).key) (kepts xs.now)
            (kepts (rests_view self.now).items))) }
        ensures more { AreMore number out.old out.new }
    {
        match self {
            Rests::Same(found) => push_all_met_first(xs, found, number, out),
            Rests::Below(grouped) => push_all_met_below(xs, grouped, number, out),
        }
    }

    /// Adds items.
    pub fn push_all(&mut self, xs: &Bag, number: usize) -> Result<(), NoMemory>
        ensures ok { OnOk result (kepts (rests_view self.new).items
            ≡ kepts (rests_view self.old).items ++ kepts xs.now) }
        ensures more { AreMore number (rests_view self.old).items (rests_view self.new).items }
        ensures key { (rests_view self.new).key ≡ (rests_view self.old).key }
    {
        match self {
            Rests::Same(found) => find_all(xs, number, found),
            Rests::Below(grouped) => group_all(xs, number, grouped),
        }
    }

    /// Takes away the items at the end that a telling with a greater number brought. Takes no memory.
    pub fn cut(&mut self, number: usize)
        ensures { rests_view self.new ≡ sought (rests_view self.old).key
            (front number (rests_view self.old).items) }
    {
        match self {
            Rests::Same(found) => found.cut(number),
            Rests::Below(grouped) => grouped.cut(number),
        }
    }
}
