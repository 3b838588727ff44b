ghost use Rattle.std.specs.Prelude.{◌≡◌, ◌+◌, ◌*◌, ◌<◌, ◌≤◌, ◌++◌, ◌∷◌, [], length, take, IfOk, OnOk, OnErr, IfSome, IsNone};
ghost use Rattle.tv_matching.specs.Stores.{latest_at};
ghost use Rattle.tv_match.specs.Entries.{entry, kepts, front, FoundBefore};
ghost use Rattle.tv_match.specs.Linked.{digit_of, Leads, AreRising, AreLinked, Agree, CanHang};

use crate::bags::Bag;
use crate::kinds::Kind;
use std::alloc::Global;
use std::marker::Model;
use tv_value::NoMemory;

/// A link that leads to no item.
const NONE: usize = usize::MAX;

/// A bag whose items are found by their places. A contract sees the list.
///
/// The items hang in a tree, each below an earlier one: on the way to a place, the item that stands so many levels below the
/// first is left by the link that this digit of the place tells.
#[derive(Debug, Drop)]
pub struct Found {
    bag: Bag,
    // Four of each item, each to a later item or to none.
    links: Vec<usize>,
}

impl Model for Found {
    ghost use Rattle.std.specs.Prelude.{List};
    ghost use Rattle.tv_match.specs.Entries.{Entry};
    ghost use Rattle.tv_match.specs.Linked.{AreLinked};

    ghost Value = { List Entry };

    ghost view = { λ f. f.bag };

    ghost invariant = { λ f. AreLinked f.links.items f.bag };
}

impl Found {
    /// An empty bag. Takes no memory.
    pub fn new(alloc: Global) -> Found
        ensures { result ≡ [] }
    {
        Found {
            bag: Bag::new(alloc),
            links: Vec::new(alloc),
        }
    }

    /// An equal bag.
    pub fn copy(&self, alloc: Global) -> Result<Found, NoMemory>
        ensures { IfOk result (λ f. f ≡ self.now) }
    {
        Ok(Found {
            bag: self.bag.copy(alloc)?,
            links: self.links.as_slice().to_vec(alloc)?,
        })
    }

    /// The items.
    pub fn bag(&self) -> &Bag
        ensures { result.now ≡ self.now }
    {
        &self.bag
    }

    /// Puts an item at the end. Logarithmic, where the places are those of lists.
    pub fn push(&mut self, place: &[u32], kind: Kind, number: usize) -> Result<(), NoMemory>
        ensures ok { OnOk result (self.new ≡ self.old ++ entry number place.now kind ∷ []) }
        ensures err { OnErr result (self.new ≡ self.old) }
    {
        let count = self.bag.len();
        self.links.extend_from_slice(&[NONE; 4])?;
        match self.bag.push(place, &[], kind, number) {
            Ok(()) => {
                hang(&mut self.links, count, place);
                Ok(())
            }
            Err(error) => {
                self.links.truncate(4 * count);
                Err(error)
            }
        }
    }

    /// Takes away the items at the end that a telling with a greater number brought. Takes no memory.
    pub fn cut(&mut self, number: usize)
        ensures { self.new ≡ front number self.old }
    {
        let count = self.bag.front_len(number);
        unhang_all(&mut self.links, &self.bag, count);
        self.links.truncate(4 * count);
        self.bag.truncate(count);
    }

    /// The last of the first items that stands at a place. Logarithmic, where the places are those of lists.
    pub fn latest(&self, place: &[u32], before: usize) -> Option<usize>
        requires { before ≤ length self.now }
        ensures some { IfSome result (FoundBefore place.now self.now before) }
        ensures none { IsNone result → latest_at place.now (kepts (take before self.now)) ≡ [] }
    {
        latest(self.links.as_slice(), &self.bag, place, before)
    }
}

/// By which link the way to a place leads on, so many levels below the first item: the digits of its indices to base 4, in
/// turn, the least digits first.
fn digit(place: &[u32], level: usize) -> usize
    ensures small { result < 4 }
    ensures is { result ≡ digit_of place.now level }
{
    if place.is_empty() {
        return 0;
    }
    let shift = level / place.len();
    if shift < 16 {
        ((place[level % place.len()] >> (2 * shift)) % 4) as usize
    } else {
        0
    }
}

/// The link of the first items that is free on the way to a place.
fn free_link(links: &[usize], count: usize, place: &[u32]) -> usize
    requires some { 0 < count }
    requires within { 4 * count ≤ length links.now }
    requires rising { AreRising links.now }
    ensures { CanHang links.now count place.now result }
{
    let mut link = digit(place, 0);
    let mut level = 0;
    while links[link] < count {
        level += 1;
        link = 4 * links[link] + digit(place, level);
    }
    link
}

/// Hangs one more item on the way to its place.
fn hang(links: &mut Vec<usize>, count: usize, place: &[u32])
    requires long { length links.old.items ≡ 4 * count + 4 }
    requires rising { AreRising links.old.items }
    ensures long { length links.new.items ≡ length links.old.items }
    ensures rising { AreRising links.new.items }
    ensures agree { Agree count links.old.items links.new.items }
    ensures lead { Leads links.new.items place.now count 0 0 }
{
    if count > 0 {
        let link = free_link(links.as_slice(), count, place);
        links[link] = count;
    }
}

/// Takes the link to the last item away.
fn unhang(links: &mut Vec<usize>, last: usize, place: &[u32])
    requires long { 4 * last ≤ length links.old.items }
    requires rising { AreRising links.old.items }
    ensures long { length links.new.items ≡ length links.old.items }
    ensures rising { AreRising links.new.items }
    ensures agree { Agree last links.old.items links.new.items }
{
    if last > 0 {
        let link = free_link(links.as_slice(), last, place);
        links[link] = NONE;
    }
}

/// Takes the links to all items but the first ones away, the last one's first.
fn unhang_all(links: &mut Vec<usize>, bag: &Bag, count: usize)
    requires long { 4 * length bag.now ≤ length links.old.items }
    requires rising { AreRising links.old.items }
    ensures long { length links.new.items ≡ length links.old.items }
    ensures rising { AreRising links.new.items }
    ensures agree { Agree count links.old.items links.new.items }
{
    let mut last = bag.len();
    while last > count {
        last -= 1;
        unhang(links, last, bag.place(last));
    }
}

/// The last of the first items that stands at a place.
fn latest(links: &[usize], bag: &Bag, place: &[u32], before: usize) -> Option<usize>
    requires linked { AreLinked links.now bag.now }
    requires within { before ≤ length bag.now }
    ensures some { IfSome result (FoundBefore place.now bag.now before) }
    ensures none { IsNone result → latest_at place.now (kepts (take before bag.now)) ≡ [] }
{
    let mut latest = None;
    let mut at = 0;
    let mut level = 0;
    while at < before {
        if bag.place(at) == place {
            latest = Some(at);
        }
        at = links[4 * at + digit(place, level)];
        level += 1;
    }
    latest
}
