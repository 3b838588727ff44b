//! What a matcher keeps of its strategy where it starts anew.
ghost use Rattle.std.specs.Prelude.{◌≡◌, OnOk, true};
ghost use Rattle.tv_value.specs.Views.{strategy_view};
ghost use Rattle.tv_strategy.specs.Views.{children_view};

use std::alloc::Global;
use tv_value::{Copied, Depths, Name, NoMemory, Tree};

/// Has a strategy equal `tree`: it stays where it does, else it is a copy now.
pub(super) fn keep_tree(alloc: Global, own: &mut Tree, tree: &Tree) -> Result<(), NoMemory>
    ensures { OnOk result (strategy_view own.new ≡ strategy_view tree.now) }
{
    if !same_leaf(own, tree) && !same_tree(own, tree) {
        *own = tree.copy(alloc)?;
    }
    Ok(())
}

/// Has numbers equal `depths`: they stay where they do, else they are a copy now.
pub(super) fn keep_depths(alloc: Global, own: &mut Depths, depths: &Depths) -> Result<(), NoMemory>
    ensures { OnOk result (own.new ≡ depths.now) }
{
    if !same_depths(own, depths) {
        *own = depths.copy(alloc)?;
    }
    Ok(())
}

fn same_depths(first: &Depths, second: &Depths) -> bool
    ensures { result ≡ true → first.now ≡ second.now }
{
    match (first.as_slice(), second.as_slice()) {
        ([one], [other]) => same_depth(one, other),
        _ => first == second,
    }
}

fn same_depth(one: &(Name, u32), other: &(Name, u32)) -> bool
    ensures { result ≡ true → one.now ≡ other.now }
{
    one.1 == other.1 && one.0.as_str() == other.0.as_str()
}

/// Whether two strategies are the same that have one child, which is a leaf.
fn same_leaf(first: &Tree, second: &Tree) -> bool
    ensures { result ≡ true → strategy_view first.now ≡ strategy_view second.now }
{
    match first {
        Tree::Cross(trees) => match second {
            Tree::Cross(others) => same_only(trees.as_slice(), others.as_slice()),
            _ => false,
        },
        _ => false,
    }
}

fn same_only(first: &[Tree], second: &[Tree]) -> bool
    ensures { result ≡ true → children_view first.now ≡ children_view second.now }
{
    match (first, second) {
        ([Tree::Leaf(name)], [Tree::Leaf(other)]) => name.as_str() == other.as_str(),
        _ => false,
    }
}

/// Whether two strategies are the same. Linear in them. Takes no memory.
#[cycle(same_tree)]
fn same_tree(first: &Tree, second: &Tree) -> bool
    ensures { result ≡ true → strategy_view first.now ≡ strategy_view second.now }
{
    match first {
        Tree::Leaf(name) => match second {
            Tree::Leaf(other) => name.as_str() == other.as_str(),
            Tree::Cross(_) => false,
            Tree::Dot(_) => false,
            Tree::Prefix(_, _) => false,
        },
        Tree::Cross(trees) => match second {
            Tree::Leaf(_) => false,
            Tree::Cross(others) => same_trees(trees.as_slice(), others.as_slice()),
            Tree::Dot(_) => false,
            Tree::Prefix(_, _) => false,
        },
        Tree::Dot(trees) => match second {
            Tree::Leaf(_) => false,
            Tree::Cross(_) => false,
            Tree::Dot(others) => same_trees(trees.as_slice(), others.as_slice()),
            Tree::Prefix(_, _) => false,
        },
        Tree::Prefix(left, right) => match second {
            Tree::Leaf(_) => false,
            Tree::Cross(_) => false,
            Tree::Dot(_) => false,
            Tree::Prefix(other, more) => same_tree(left, other) && same_tree(right, more),
        },
    }
}

#[cycle(same_tree)]
fn same_trees(first: &[Tree], second: &[Tree]) -> bool
    ensures { result ≡ true → children_view first.now ≡ children_view second.now }
{
    match first.split_first() {
        None => second.is_empty(),
        Some((tree, trees)) => match second.split_first() {
            None => false,
            Some((other, others)) => same_tree(tree, other) && same_trees(trees, others),
        },
    }
}
