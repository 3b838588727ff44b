ghost use Rattle.std.specs.Prelude.{◌≡◌, ◌+◌, ◌<◌, ◌^◌, [], length, true, IfOk, OnOk, None, Some};
ghost use Rattle.tv_value.specs.Strategies.{prefix};
ghost use Rattle.tv_value.specs.Views.{strategy_view};
ghost use Rattle.tv_strategy.specs.Conditions.{number_of, sum_over};
ghost use Rattle.tv_strategy.specs.Measures.{leaf_names, all_leaf_names, strategy_depth, sum_of_depths, first_depth};
ghost use Rattle.tv_strategy.specs.Views.{children_view};
ghost use Rattle.tv_matching.specs.Stores.{store_for, store_for_cross, store_for_dot, crossed_with};
ghost use Rattle.tv_match.specs.Entries.{kepts};
ghost use Rattle.tv_match.specs.Filed.{filed, filed_cross, filed_dot, filed_leaf, kept_store};
ghost use Rattle.tv_match.specs.OneLeaf.{IsOneLeaf, IsOnlyLeaf};
ghost use Rattle.tv_match.specs.Working.{IsFull};

use crate::bags::Bag;
use crate::found::Found;
use crate::grouped::Grouped;
use crate::rests::Rests;
use crate::stores::Store;
use std::alloc::Global;
use tv_value::{Depths, Name, NoMemory, Tree};

/// The store of a strategy that was told nothing, with the number of the leaf after its own, and how deep the strategy is.
#[derive(Drop)]
pub struct Built {
    pub store: Store,
    pub next: u32,
    pub depth: u32,
}

/// Has a store be that of a strategy that was told nothing, whatever it was before. Linear in the strategy, and constant where it
/// is one leaf, or has one child that is.
pub fn rebuild(
    alloc: Global,
    store: &mut Store,
    tree: &Tree,
    mismatch: &Depths,
) -> Result<(), NoMemory>
    requires { sum_over (number_of mismatch.now) (leaf_names (strategy_view tree.now)) < 2 ^ 32 }
    ensures store { OnOk result (kept_store kepts (filed store.new)
        ≡ store_for (number_of mismatch.now) 0 (strategy_view tree.now)) }
    ensures full { OnOk result (IsFull 0 (filed store.new)) }
{
    if is_one_leaf(tree) {
        if !is_first_leaf(store) {
            put_leaf(store);
        }
        Ok(())
    } else {
        rebuild_whole(alloc, store, tree, mismatch)
    }
}

#[inline(never)]
fn put_leaf(store: &mut Store)
    ensures { filed store.new ≡ filed_leaf (Some 0) }
{
    *store = Store::Leaf(Some(0));
}

#[inline(never)]
fn rebuild_whole(
    alloc: Global,
    store: &mut Store,
    tree: &Tree,
    mismatch: &Depths,
) -> Result<(), NoMemory>
    requires { sum_over (number_of mismatch.now) (leaf_names (strategy_view tree.now)) < 2 ^ 32 }
    ensures store { OnOk result (kept_store kepts (filed store.new)
        ≡ store_for (number_of mismatch.now) 0 (strategy_view tree.now)) }
    ensures full { OnOk result (IsFull 0 (filed store.new)) }
{
    *store = build(alloc, tree, mismatch, 0)?.store;
    Ok(())
}

/// Whether a store is that of a first leaf.
fn is_first_leaf(store: &Store) -> bool
    ensures { result ≡ true → filed store.now ≡ filed_leaf (Some 0) }
{
    match store {
        Store::Leaf(Some(leaf)) => *leaf == 0,
        _ => false,
    }
}

/// Whether a strategy is one leaf, or has one child, which is.
fn is_one_leaf(tree: &Tree) -> bool
    ensures { result ≡ true → IsOneLeaf (strategy_view tree.now) }
{
    match tree {
        Tree::Leaf(_) => true,
        Tree::Cross(trees) => is_only_leaf(trees.as_slice()),
        Tree::Dot(trees) => is_only_leaf(trees.as_slice()),
        Tree::Prefix(_, _) => false,
    }
}

fn is_only_leaf(trees: &[Tree]) -> bool
    ensures { result ≡ true → IsOnlyLeaf (children_view trees.now) }
{
    match trees {
        [Tree::Leaf(_)] => true,
        _ => false,
    }
}

/// The store of a strategy whose leaves are numbered from `from`. Linear in the strategy.
#[cycle(build)]
pub fn build(alloc: Global, tree: &Tree, mismatch: &Depths, from: u32) -> Result<Built, NoMemory>
    requires { sum_over (number_of mismatch.now) (leaf_names (strategy_view tree.now)) < 2 ^ 32 }
    ensures store { IfOk result (λ b. kept_store kepts (filed b.store)
        ≡ store_for (number_of mismatch.now) from (strategy_view tree.now)) }
    ensures full { IfOk result (λ b. IsFull 0 (filed b.store)) }
    ensures next { IfOk result (λ b. b.next ≡ from + length (leaf_names (strategy_view tree.now))) }
    ensures depth { IfOk result (λ b. b.depth ≡ strategy_depth (number_of mismatch.now)
        (strategy_view tree.now)) }
{
    match tree {
        Tree::Leaf(name) => build_leaf(mismatch, name, from),
        Tree::Cross(trees) => build_cross(alloc, trees.as_slice(), mismatch, from),
        Tree::Dot(trees) => build_dot(alloc, trees.as_slice(), mismatch, from),
        Tree::Prefix(left, right) => build_prefix(alloc, left, right, mismatch, from),
    }
}

/// The store of a leaf. Its number is the one refusal.
fn build_leaf(mismatch: &Depths, name: &Name, from: u32) -> Result<Built, NoMemory>
    ensures store { IfOk result (λ b. filed b.store ≡ filed_leaf (Some from)) }
    ensures next { IfOk result (λ b. b.next ≡ from + 1) }
    ensures depth { IfOk result (λ b. b.depth ≡ number_of mismatch.now name.now) }
{
    let depth = match mismatch.named(name) {
        Some(depth) => *depth,
        None => 0,
    };
    let next = from.checked_add(1).ok_or(NoMemory)?;
    Ok(Built {
        store: Store::Leaf(Some(from)),
        next,
        depth,
    })
}

/// The store of a strategy without children.
fn build_none(from: u32) -> Built
    ensures store { filed result.store ≡ filed_leaf None }
    ensures next { result.next ≡ from }
    ensures depth { result.depth ≡ 0 }
{
    Built {
        store: Store::Leaf(None),
        next: from,
        depth: 0,
    }
}

/// The store of a prefix node.
#[cycle(build)]
fn build_prefix(
    alloc: Global,
    left: &Tree,
    right: &Tree,
    mismatch: &Depths,
    from: u32,
) -> Result<Built, NoMemory>
    requires { sum_over (number_of mismatch.now) (leaf_names (prefix (strategy_view left.now)
        (strategy_view right.now))) < 2 ^ 32 }
    ensures store { IfOk result (λ b. kept_store kepts (filed b.store)
        ≡ store_for (number_of mismatch.now) from (prefix (strategy_view left.now)
        (strategy_view right.now))) }
    ensures full { IfOk result (λ b. IsFull 0 (filed b.store)) }
    ensures next { IfOk result (λ b. b.next ≡ from + length (leaf_names
        (prefix (strategy_view left.now) (strategy_view right.now)))) }
    ensures depth { IfOk result (λ b. b.depth ≡ strategy_depth (number_of mismatch.now)
        (strategy_view right.now)) }
{
    let first = build(alloc, left, mismatch, from)?;
    let rest = build(alloc, right, mismatch, first.next)?;
    let store = prefixed(alloc, first.depth, first.store, rest.store)?;
    Ok(Built {
        store,
        next: rest.next,
        depth: rest.depth,
    })
}

/// The store of a cross.
#[cycle(build)]
fn build_cross(
    alloc: Global,
    trees: &[Tree],
    mismatch: &Depths,
    from: u32,
) -> Result<Built, NoMemory>
    requires { sum_over (number_of mismatch.now) (all_leaf_names (children_view trees.now))
        < 2 ^ 32 }
    ensures store { IfOk result (λ b. kept_store kepts (filed b.store)
        ≡ store_for_cross (number_of mismatch.now) from (children_view trees.now)) }
    ensures full { IfOk result (λ b. IsFull 0 (filed b.store)) }
    ensures next { IfOk result (λ b. b.next ≡ from
        + length (all_leaf_names (children_view trees.now))) }
    ensures depth { IfOk result (λ b. b.depth ≡ sum_of_depths (number_of mismatch.now)
        (children_view trees.now)) }
{
    match trees.split_first() {
        None => Ok(build_none(from)),
        Some((first, others)) => {
            let front = build(alloc, first, mismatch, from)?;
            build_crossed(alloc, front, others, mismatch)
        }
    }
}

/// The store of a cross of what stands in front and these children.
#[cycle(build)]
fn build_crossed(
    alloc: Global,
    front: Built,
    trees: &[Tree],
    mismatch: &Depths,
) -> Result<Built, NoMemory>
    requires { front.depth + sum_over (number_of mismatch.now)
        (all_leaf_names (children_view trees.now)) < 2 ^ 32 }
    ensures store { IfOk result (λ b. kept_store kepts (filed b.store)
        ≡ crossed_with (number_of mismatch.now) front.next (kept_store kepts (filed front.store))
        (children_view trees.now)) }
    ensures full { IfOk result (λ b. IsFull 0 (filed front.store) → IsFull 0 (filed b.store)) }
    ensures next { IfOk result (λ b. b.next ≡ front.next
        + length (all_leaf_names (children_view trees.now))) }
    ensures depth { IfOk result (λ b. b.depth ≡ front.depth
        + sum_of_depths (number_of mismatch.now) (children_view trees.now)) }
{
    match trees.split_first() {
        None => Ok(front),
        Some((first, others)) => {
            let second = build(alloc, first, mismatch, front.next)?;
            let depth = front.depth + second.depth;
            let store = crossed(alloc, front.store, second.store)?;
            let both = Built {
                store,
                next: second.next,
                depth,
            };
            build_crossed(alloc, both, others, mismatch)
        }
    }
}

/// The store of a dot.
#[cycle(build)]
fn build_dot(alloc: Global, trees: &[Tree], mismatch: &Depths, from: u32) -> Result<Built, NoMemory>
    requires { sum_over (number_of mismatch.now) (all_leaf_names (children_view trees.now))
        < 2 ^ 32 }
    ensures store { IfOk result (λ b. kept_store kepts (filed b.store)
        ≡ store_for_dot (number_of mismatch.now) from (children_view trees.now)) }
    ensures full { IfOk result (λ b. IsFull 0 (filed b.store)) }
    ensures next { IfOk result (λ b. b.next ≡ from
        + length (all_leaf_names (children_view trees.now))) }
    ensures depth { IfOk result (λ b. b.depth ≡ first_depth (number_of mismatch.now)
        (children_view trees.now)) }
{
    match trees.split_first() {
        None => Ok(build_none(from)),
        Some((first, others)) => {
            let front = build(alloc, first, mismatch, from)?;
            if others.is_empty() {
                return Ok(front);
            }
            let depth = front.depth;
            let back = build_dot(alloc, others, mismatch, front.next)?;
            let store = dotted(alloc, front.store, back.store)?;
            Ok(Built {
                store,
                next: back.next,
                depth,
            })
        }
    }
}

fn crossed(alloc: Global, first: Store, rest: Store) -> Result<Store, NoMemory>
    ensures { IfOk result (λ st. filed st ≡ filed_cross [] [] (filed first) (filed rest)) }
{
    let first = Box::new(alloc, first)?;
    let rest = Box::new(alloc, rest)?;
    let (ends, rests, fresh) = (Bag::new(alloc), Bag::new(alloc), Bag::new(alloc));
    Ok(Store::Cross(ends, rests, fresh, first, rest))
}

fn dotted(alloc: Global, first: Store, rest: Store) -> Result<Store, NoMemory>
    ensures { IfOk result (λ st. filed st ≡ filed_dot None [] [] (filed first) (filed rest)) }
{
    let first = Box::new(alloc, first)?;
    let rest = Box::new(alloc, rest)?;
    let (firsts, rests, fresh) = (Found::new(alloc), Found::new(alloc), Bag::new(alloc));
    Ok(Store::Dot(firsts, Rests::Same(rests), fresh, first, rest))
}

fn prefixed(alloc: Global, depth: u32, first: Store, rest: Store) -> Result<Store, NoMemory>
    ensures { IfOk result (λ st. filed st ≡ filed_dot (Some depth) [] [] (filed first)
        (filed rest)) }
{
    let first = Box::new(alloc, first)?;
    let rest = Box::new(alloc, rest)?;
    let rests = Box::new(alloc, Grouped::new(alloc, depth as usize))?;
    let (firsts, fresh) = (Found::new(alloc), Bag::new(alloc));
    Ok(Store::Dot(firsts, Rests::Below(rests), fresh, first, rest))
}
