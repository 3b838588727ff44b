ghost use Rattle.std.specs.Prelude.{◌≡◌, ℕ, ◌<◌, ◌≤◌, ◌++◌, [], drop, false, length, take, true, IfOk, OnOk};
ghost use Rattle.tv_value.specs.Views.{strategy_view};
ghost use Rattle.tv_strategy.specs.Conditions.{Suits, number_of};
ghost use Rattle.tv_strategy.specs.Measures.{strategy_depth};
ghost use Rattle.tv_match.specs.Entries.{places_of};

use crate::bags::Bag;
use std::alloc::Global;
use std::mem::replace;
use tv_strategy::depth_of;
use tv_value::{Depths, NoMemory, Place, Tree};

/// Places of items, by their positions. Where they may be longer than 32, which can't be made without memory, they are made
/// beforehand.
#[derive(Drop)]
pub struct Places {
    alloc: Global,
    // Whether they may be longer.
    deep: bool,
    // If so, those of all items that have not come out; at the positions of others stands any place.
    made: Vec<Place>,
}

impl Places {
    ghost use Rattle.tv_match.specs.Placed.{IsPlaced, OthersStay};

    /// Of no item. Takes no memory. Linear in the strategy.
    pub fn start(alloc: Global, tree: &Tree, mismatch: &Depths) -> Places
        requires { Suits mismatch.now (strategy_view tree.now) }
        ensures { result.deep ≡ false → strategy_depth (number_of mismatch.now)
            (strategy_view tree.now) ≤ 32 }
    {
        Places {
            alloc,
            deep: is_deep(tree, mismatch),
            made: Vec::new(alloc),
        }
    }

    /// Of no item. Takes no memory.
    pub fn none(alloc: Global) -> Places {
        Places {
            alloc,
            deep: true,
            made: Vec::new(alloc),
        }
    }

    /// Of no item from now on, for a strategy of that depth, in the same memory. Takes no memory.
    pub fn restart(&mut self, depth: u32)
        ensures { self.new.deep ≡ false → depth ≤ 32 }
    {
        self.deep = depth > 32;
        self.made.clear();
    }

    /// Of these items, as deep as other ones.
    pub fn copy(&self, out: &Bag) -> Result<Places, NoMemory>
        ensures deep { IfOk result (λ p. p.deep ≡ self.now.deep) }
        ensures made { IfOk result (λ p. p.deep ≡ true → p.made.items ≡ places_of out.now) }
    {
        let mut places = Places {
            alloc: self.alloc,
            deep: self.deep,
            made: Vec::new(self.alloc),
        };
        places.make(out, 0)?;
        Ok(places)
    }

    /// Makes the places of the items from one on, if they have to be made beforehand. Those of the first items stay.
    #[inline(always)]
    pub fn make(&mut self, out: &Bag, from: usize) -> Result<(), NoMemory>
        requires { from ≤ length out.now }
        ensures deep { self.new.deep ≡ self.old.deep }
        ensures ok { OnOk result (self.new.deep ≡ true → self.new.made.items
            ≡ take from self.old.made.items ++ places_of (drop from out.now)) }
        ensures first { from ≤ length self.old.made.items → take from self.new.made.items
            ≡ take from self.old.made.items }
    {
        if self.deep {
            self.make_deep(out, from)
        } else {
            Ok(())
        }
    }

    /// Makes them in any case.
    #[inline(never)]
    fn make_deep(&mut self, out: &Bag, from: usize) -> Result<(), NoMemory>
        requires { from ≤ length out.now }
        ensures deep { self.new.deep ≡ self.old.deep }
        ensures ok { OnOk result (self.new.made.items ≡ take from self.old.made.items
            ++ places_of (drop from out.now)) }
        ensures first { from ≤ length self.old.made.items → take from self.new.made.items
            ≡ take from self.old.made.items }
    {
        self.made.truncate(from);
        put_places(self.alloc, out, from, &mut self.made)
    }

    /// Takes out the place of an item. Takes no memory.
    pub fn take_out(&mut self, at: usize, place: &[u32]) -> Place
        requires { IsPlaced self.old at place.now }
        ensures place { result ≡ place.now }
        ensures deep { self.new.deep ≡ self.old.deep }
        ensures others { OthersStay at self.old.made.items self.new.made.items }
    {
        if self.deep {
            replace(&mut self.made[at], Place::top(self.alloc))
        } else {
            short(self.alloc, place)
        }
    }
}

/// Whether places may be longer than 32.
fn is_deep(tree: &Tree, mismatch: &Depths) -> bool
    requires { Suits mismatch.now (strategy_view tree.now) }
    ensures { result ≡ false → strategy_depth (number_of mismatch.now) (strategy_view tree.now)
        ≤ 32 }
{
    match depth_of(tree, mismatch) {
        Ok(depth) => depth > 32,
        Err(_fault) => true,
    }
}

/// Puts the places of the items from one on at the end.
fn put_places(alloc: Global, out: &Bag, from: usize, made: &mut Vec<Place>) -> Result<(), NoMemory>
    requires { from ≤ length out.now }
    ensures ok { OnOk result (made.new.items ≡ made.old.items ++ places_of (drop from out.now)) }
    ensures first { take (length made.old.items) made.new.items ≡ made.old.items }
{
    for at in from..out.len() {
        let place = Place::of(alloc, out.place(at))?;
        made.push(place)?;
    }
    Ok(())
}

/// A place that is not too long to be made without memory.
fn short(alloc: Global, place: &[u32]) -> Place
    requires { length place.now ≤ 32 }
    ensures { result ≡ place.now }
{
    let Ok(place) = Place::of(alloc, place) else {
        unreachable!()
    };
    place
}
