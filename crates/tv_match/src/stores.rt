ghost use Rattle.std.specs.Prelude.{◌≡◌, ◌++◌, IfOk, OnOk};
ghost use Rattle.tv_matching.specs.Matched.{crossed_items, below_jobs};
ghost use Rattle.tv_matching.specs.Stores.{gain, grown, told_by, same_leaf, key_of, only_jobs, met_by_first, met_by_second};
ghost use Rattle.tv_match.specs.Entries.{kepts, AreMore};
ghost use Rattle.tv_match.specs.Brief.{briefs, brief_store};
ghost use Rattle.tv_match.specs.Filed.{filed, kept_store, fronted, Adds, news_view, rests_view};

use crate::bags::Bag;
use crate::found::Found;
use crate::joins::{
    find_all, push_all, push_all_met_second, push_below_jobs, push_crossed, push_jobs,
};
use crate::kinds::Kind;
use crate::rests::Rests;
use std::alloc::Global;
use tv_value::NoMemory;

/// An item that a leaf is told, with the number of the telling.
#[derive(Clone, Copy)]
pub struct News<'a> {
    pub leaf: Option<u32>,
    pub place: &'a [u32],
    pub kind: Kind,
    pub number: usize,
}

/// What is kept of a strategy: for a cross the jobs of its first child and all that the second has, for a dot or a prefix node what
/// both have.
///
/// Each has room for what is new in a child.
#[derive(Drop)]
#[cycle(store)]
pub enum Store {
    /// A leaf with its number, or a strategy without children.
    Leaf(Option<u32>),
    Cross(Bag, Bag, Bag, Box<Store>, Box<Store>),
    /// Of a dot or a prefix node.
    Dot(Found, Rests, Bag, Box<Store>, Box<Store>),
}

impl Store {
    /// An equal store. Linear in it.
    pub fn copy(&self, alloc: Global) -> Result<Store, NoMemory>
        ensures { IfOk result (λ s. filed s ≡ filed self.now) }
    {
        match self {
            Store::Leaf(leaf) => Ok(Store::Leaf(*leaf)),
            Store::Cross(ends, rests, _, first, rest) => {
                let first = Box::new(alloc, first.copy(alloc)?)?;
                let rest = Box::new(alloc, rest.copy(alloc)?)?;
                let (ends, rests) = copies_of_bags(alloc, ends, rests)?;
                Ok(Store::Cross(ends, rests, Bag::new(alloc), first, rest))
            }
            Store::Dot(firsts, rests, _, first, rest) => {
                let first = Box::new(alloc, first.copy(alloc)?)?;
                let rest = Box::new(alloc, rest.copy(alloc)?)?;
                let (firsts, rests) = copies_of_found(alloc, firsts, rests)?;
                Ok(Store::Dot(firsts, rests, Bag::new(alloc), first, rest))
            }
        }
    }

    /// Tells a leaf one item, and puts what is new at the top behind `out`.
    ///
    /// Linear in what is new at the nodes, and in the strategy. Where memory is wanting some of it is there, all with this number.
    pub fn tell(&mut self, news: &News, out: &mut Bag) -> Result<(), NoMemory>
        ensures store { OnOk result (kept_store kepts (filed self.new)
            ≡ brief_store (grown (told_by (news_view news.now))
            (kept_store kepts (filed self.old)))) }
        ensures items { OnOk result (kepts out.new ≡ kepts out.old
            ++ briefs (gain (told_by (news_view news.now)) (kept_store kepts (filed self.old)))) }
        ensures more { AreMore news.now.number out.old out.new }
        ensures adds { Adds news.now.number (filed self.old) (filed self.new) }
    {
        match self {
            Store::Leaf(leaf) => tell_leaf(*leaf, news, out),
            Store::Cross(ends, rests, fresh, first, rest) => {
                fresh.truncate(0);
                first.tell(news, fresh)?;
                cross_first(fresh, rests, news.number, ends, out)?;
                fresh.truncate(0);
                rest.tell(news, fresh)?;
                cross_rest(ends, fresh, news.number, rests, out)
            }
            Store::Dot(firsts, rests, fresh, first, rest) => {
                fresh.truncate(0);
                first.tell(news, fresh)?;
                dot_first(fresh, rests, news.number, firsts, out)?;
                fresh.truncate(0);
                rest.tell(news, fresh)?;
                dot_rest(firsts, fresh, news.number, rests, out)
            }
        }
    }

    /// Takes away what tellings with greater numbers brought. Takes no memory. Linear in what goes, and in the strategy.
    pub fn cut(&mut self, number: usize)
        ensures { filed self.new ≡ fronted number (filed self.old) }
    {
        match self {
            Store::Leaf(_) => {}
            Store::Cross(ends, rests, _, first, rest) => {
                ends.cut(number);
                rests.cut(number);
                first.cut(number);
                rest.cut(number);
            }
            Store::Dot(firsts, rests, _, first, rest) => {
                firsts.cut(number);
                rests.cut(number);
                first.cut(number);
                rest.cut(number);
            }
        }
    }
}

/// Copies of two bags.
pub(crate) fn copies_of_bags(alloc: Global, first: &Bag, rest: &Bag) -> Result<(Bag, Bag), NoMemory>
    ensures { IfOk result (λ p. p ≡ (first.now, rest.now)) }
{
    let first = first.copy(alloc)?;
    Ok((first, rest.copy(alloc)?))
}

/// Copies of two bags with their look-ups.
fn copies_of_found(alloc: Global, first: &Found, rest: &Rests) -> Result<(Found, Rests), NoMemory>
    ensures first { IfOk result (λ p. p.0 ≡ first.now) }
    ensures rest { IfOk result (λ p. rests_view p.1 ≡ rests_view rest.now) }
{
    let first = first.copy(alloc)?;
    Ok((first, rest.copy(alloc)?))
}

/// Puts the item if it is for this leaf.
fn tell_leaf(leaf: Option<u32>, news: &News, out: &mut Bag) -> Result<(), NoMemory>
    ensures items { OnOk result (kepts out.new ≡ kepts out.old
        ++ briefs (told_by (news_view news.now) leaf)) }
    ensures more { AreMore news.now.number out.old out.new }
{
    if is_for(news.leaf, leaf) {
        out.push(news.place, &[], news.kind, news.number)
    } else {
        Ok(())
    }
}

fn is_for(told: Option<u32>, leaf: Option<u32>) -> bool
    ensures { result ≡ same_leaf told leaf }
{
    match (told, leaf) {
        (None, None) => true,
        (Some(told), Some(leaf)) => told == leaf,
        _ => false,
    }
}

/// Puts what a cross gains by the first child's new items, and keeps the jobs among these.
fn cross_first(
    fresh: &Bag,
    rests: &Bag,
    number: usize,
    ends: &mut Bag,
    out: &mut Bag,
) -> Result<(), NoMemory>
    ensures items { OnOk result (kepts out.new ≡ kepts out.old
        ++ briefs (crossed_items (kepts fresh.now) (kepts rests.now))) }
    ensures keeps { OnOk result (kepts ends.new ≡ kepts ends.old ++ only_jobs (kepts fresh.now)) }
    ensures more { AreMore number out.old out.new }
    ensures more_ends { AreMore number ends.old ends.new }
{
    push_crossed(fresh, rests, number, out)?;
    push_jobs(fresh, number, ends)
}

/// Puts what a cross gains by the second child's new items, and keeps these.
fn cross_rest(
    ends: &Bag,
    fresh: &Bag,
    number: usize,
    rests: &mut Bag,
    out: &mut Bag,
) -> Result<(), NoMemory>
    ensures items { OnOk result (kepts out.new ≡ kepts out.old
        ++ briefs (below_jobs (kepts ends.now) (kepts fresh.now))) }
    ensures keeps { OnOk result (kepts rests.new ≡ kepts rests.old ++ kepts fresh.now) }
    ensures more { AreMore number out.old out.new }
    ensures more_rests { AreMore number rests.old rests.new }
{
    push_below_jobs(ends, fresh, number, out)?;
    push_all(fresh, number, rests)
}

/// Puts what a dot or a prefix node gains by the first child's new items, and keeps these.
fn dot_first(
    fresh: &Bag,
    rests: &Rests,
    number: usize,
    firsts: &mut Found,
    out: &mut Bag,
) -> Result<(), NoMemory>
    ensures items { OnOk result (kepts out.new ≡ kepts out.old
        ++ briefs (met_by_first (key_of (rests_view rests.now).key) (kepts fresh.now)
        (kepts (rests_view rests.now).items))) }
    ensures keeps { OnOk result (kepts firsts.new ≡ kepts firsts.old ++ kepts fresh.now) }
    ensures more { AreMore number out.old out.new }
    ensures more_firsts { AreMore number firsts.old firsts.new }
{
    rests.push_all_met(fresh, number, out)?;
    find_all(fresh, number, firsts)
}

/// Puts what a dot or a prefix node gains by the second child's new items, and keeps these.
fn dot_rest(
    firsts: &Found,
    fresh: &Bag,
    number: usize,
    rests: &mut Rests,
    out: &mut Bag,
) -> Result<(), NoMemory>
    ensures items { OnOk result (kepts out.new ≡ kepts out.old
        ++ briefs (met_by_second (key_of (rests_view rests.old).key) (kepts firsts.now)
        (kepts fresh.now))) }
    ensures keeps { OnOk result (kepts (rests_view rests.new).items
        ≡ kepts (rests_view rests.old).items ++ kepts fresh.now) }
    ensures more { AreMore number out.old out.new }
    ensures more_rests { AreMore number (rests_view rests.old).items (rests_view rests.new).items }
    ensures key { (rests_view rests.new).key ≡ (rests_view rests.old).key }
{
    push_all_met_second(firsts, fresh, rests.depth(), number, out)?;
    rests.push_all(fresh, number)
}
