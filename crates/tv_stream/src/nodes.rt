//! Nodes, the search for a part, and what changes a tree.
ghost use Rattle.std.specs.Prelude.{◌≡◌, ℕ, ◌<◌, ◌+◌, ◌≤◌, length, Some, None, Option, IfOk, IfErr, OnErr, OnOk, IsOk};
ghost use Rattle.tv_pool.specs.Pool.{IsLive, item_in, number_of, region_of, slot_of, lies_at, nowhere};
ghost use Rattle.tv_stream.specs.nodes.Nodes.{leads, body_in};
ghost use Rattle.tv_stream.specs.nodes.Stands.{Spot, AreNodes, IsNode};
ghost use Rattle.tv_stream.specs.nodes.Calls.{part_of_gap, IsGap, EndsAt, Plants, HangsPart, Sets, KeepsRegions, count_in};

use tv_pool::{Link, Node, Pool, PutRefused, Region};

/// How many digits to base 4 an index has.
const DIGITS: usize = 16;

/// The link of a node to the first of its own parts.
const OWN: usize = 4;

/// A node of a tree.
#[derive(Debug, Drop)]
pub struct Entry<B> {
    // Which part of its list it is; 0 for a root.
    pub(crate) index: u32,
    // The parts of the same list with a next digit 0 to 3, and the first of its own parts.
    pub(crate) links: [Link; 5],
    pub(crate) body: B,
}

/// Where a search for a part ends.
#[derive(Clone, Copy, Debug)]
pub enum Stop {
    /// The part.
    Found(Link),
    /// Where it will hang.
    Free(Gap),
}

/// Where a part of a node will hang, until the tree is changed.
#[derive(Clone, Copy, Debug)]
pub struct Gap {
    pub(crate) node: Link,
    pub(crate) index: u32,
    pub(crate) at: Link,
    pub(crate) by: usize,
}

/// Puts the root of a new tree.
///
/// It is refused for want of memory alone, and then gives the body back.
pub fn plant<B>(pool: &mut Pool<Entry<B>>, region: &Region, body: B) -> Result<Node, PutRefused<B>>
    requires { IsLive pool.old region.now }
    ensures region { IfOk result (λ node. region_of node ≡ number_of region.now) }
    ensures ok { IfOk result (λ node. Plants (item_in pool.old (number_of region.now))
        (item_in pool.new (number_of region.now)) (slot_of node) body) }
    ensures count { OnOk result (count_in pool.new (number_of region.now)
        ≡ count_in pool.old (number_of region.now) + 1) }
    ensures refused { IfErr result (λ refused. refused.item ≡ body) }
    ensures unchanged { OnErr result (pool.new.regions ≡ pool.old.regions) }
    ensures kept { KeepsRegions pool.old pool.new (number_of region.now) }
    ensures room { 0 < pool.old.spare → IsOk result }
    ensures spare { pool.old.spare ≤ pool.new.spare + 1 }
{
    match pool.put(region, alone(0, body)) {
        Ok(node) => Ok(node),
        Err(refused) => Err(PutRefused {
            item: body_of(refused.item),
        }),
    }
}

/// A node that leads nowhere.
fn alone<B>(index: u32, body: B) -> Entry<B>
    ensures index { result.index ≡ index }
    ensures body { result.body ≡ body }
    ensures links { length result.links ≡ 5 }
    ensures alone { (by : ℕ) → by < 5 → leads result by ≡ nowhere }
{
    Entry {
        index,
        links: [Link::none(); 5],
        body,
    }
}

fn body_of<B>(entry: Entry<B>) -> B
    ensures { result ≡ entry.body }
{
    let Entry {
        index: _,
        links: _,
        body,
    } = entry;
    body
}

/// Looks for a part of a node.
///
/// It takes one step for each digit to base 4 that the index has in common with others, and at most 17.
pub fn seek<B>(pool: &Pool<Entry<B>>, node: Link, index: u32) -> Stop
    requires { (number : ℕ) × IsNode pool.now number (lies_at node) }
    ensures { (number : ℕ) → IsNode pool.now number (lies_at node)
        → EndsAt (item_in pool.now number) (lies_at node) index result }
{
    let mut at = node;
    let mut by = OWN;
    let mut rest = index;
    'digits: for _step in 0..DIGITS + 1 {
        let link = pool.at(at).links[by];
        if link.is_none() {
            return Stop::Free(Gap {
                node,
                index,
                at,
                by,
            });
        }
        if pool.at(link).index == index {
            return Stop::Found(link);
        }
        at = link;
        by = (rest % 4) as usize;
        rest /= 4;
    }
    unreachable!()
}

/// Hangs a part where a search for it ended.
pub fn hang<B: Drop>(pool: &mut Pool<Entry<B>>, region: &Region, gap: Gap, body: B) -> Link
    requires live { IsLive pool.old region.now }
    requires gap { (s : ℕ) × IsNode pool.old (number_of region.now) s
        × IsGap (item_in pool.old (number_of region.now)) s gap }
    requires room { 0 < pool.old.spare }
    ensures hangs { (s : ℕ) (spots : ℕ → Option Spot) (p : Spot)
        → IsGap (item_in pool.old (number_of region.now)) s gap
        → AreNodes (item_in pool.old (number_of region.now)) spots → spots s ≡ Some p
        → HangsPart (item_in pool.old (number_of region.now))
        (item_in pool.new (number_of region.now)) spots s p (part_of_gap gap) (lies_at result)
        body }
    ensures count { count_in pool.new (number_of region.now)
        ≡ count_in pool.old (number_of region.now) + 1 }
    ensures kept { KeepsRegions pool.old pool.new (number_of region.now) }
    ensures spare { pool.old.spare ≤ pool.new.spare + 1 }
{
    match pool.put(region, alone(gap.index, body)) {
        Ok(node) => {
            let link = node.link();
            pool.at_mut(gap.at).links[gap.by] = link;
            link
        }
        Err(_) => unreachable!(),
    }
}

/// What a node holds.
pub fn body<B>(pool: &Pool<Entry<B>>, node: Link) -> &B
    requires { (number : ℕ) × IsNode pool.now number (lies_at node) }
    ensures { (number : ℕ) → IsNode pool.now number (lies_at node)
        → body_in (item_in pool.now number) (lies_at node) ≡ Some result.now }
{
    &pool.at(node).body
}

/// Exchanges what a node holds.
pub fn set_body<B: Drop>(pool: &mut Pool<Entry<B>>, node: Link, body: B)
    requires { (number : ℕ) × IsNode pool.old number (lies_at node) }
    ensures sets { (number : ℕ) → IsNode pool.old number (lies_at node)
        → Sets (item_in pool.old number) (item_in pool.new number) (lies_at node) body }
    ensures count { (number : ℕ) → count_in pool.new number ≡ count_in pool.old number }
    ensures kept { (number : ℕ) → IsNode pool.old number (lies_at node)
        → KeepsRegions pool.old pool.new number }
    ensures spare { pool.new.spare ≡ pool.old.spare }
{
    pool.at_mut(node).body = body;
}
