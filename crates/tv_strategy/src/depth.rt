ghost use Rattle.std.specs.Prelude.{◌≡◌, ◌<◌, ◌^◌, ◌==◌, not, find};
ghost use Rattle.tv_value.specs.Strategies.{cross, dot, prefix};
ghost use Rattle.tv_value.specs.Views.{strategy_view};
ghost use Rattle.tv_strategy.specs.Measures.{measured, unless, leaf_names, all_leaf_names, first_inside, depths_of};
ghost use Rattle.tv_strategy.specs.Conditions.{Suits, number_of, sum_over};
ghost use Rattle.tv_strategy.specs.Views.{children_view, answer_view};

use thiserror::Error;
use tv_value::{Depths, Name, Tree, Trees};

/// Two children of a dot differ in depth, or a prefix node's right child is less deep than its left one.
#[derive(Clone, Copy, Debug, PartialEq, Eq, Error)]
#[error("the children of a node have the depths {first} and {second}")]
pub struct DotFault {
    /// Whether the node is a prefix node.
    pub prefix: bool,
    /// The depth of the dot's first child, or of the prefix node's left one.
    pub first: u32,
    /// The first other depth among the dot's children, from left to right, or that of the prefix node's right child.
    pub second: u32,
}

/// The depth of a strategy whose leaves have these mismatches: a leaf's mismatch, the sum of a cross, the common
/// depth of a dot, the right child's of a prefix node.
///
/// The fault is that of the first dot whose children differ, or prefix node whose right child is less deep than its left one, where
/// children come before their node, from left to right.
/// Takes no memory. Linear in the tree, with a look-up in `mismatch` for each leaf.
pub fn depth_of(tree: &Tree, mismatch: &Depths) -> Result<u32, DotFault>
    requires { Suits mismatch.now (strategy_view tree.now) }
    ensures { answer_view result ≡ measured (number_of mismatch.now) (strategy_view tree.now) }
{
    measure(tree, mismatch)
}

/// The mismatch of a port, 0 where none is listed.
pub(crate) fn mismatch_at(mismatch: &Depths, name: &Name) -> u32
    ensures { result ≡ number_of mismatch.now name.now }
{
    match mismatch.named(name) {
        Some(depth) => *depth,
        None => 0,
    }
}

#[cycle(measure)]
fn measure(tree: &Tree, mismatch: &Depths) -> Result<u32, DotFault>
    requires { sum_over (number_of mismatch.now) (leaf_names (strategy_view tree.now)) < 2 ^ 32 }
    ensures { answer_view result ≡ measured (number_of mismatch.now) (strategy_view tree.now) }
{
    match tree {
        Tree::Leaf(name) => Ok(mismatch_at(mismatch, name)),
        Tree::Cross(trees) => sum_of(trees.as_slice(), mismatch),
        Tree::Dot(trees) => common_of(trees.as_slice(), mismatch),
        Tree::Prefix(left, right) => right_of(left, right, mismatch),
    }
}

/// The depth of a prefix node.
#[cycle(measure)]
fn right_of(left: &Tree, right: &Tree, mismatch: &Depths) -> Result<u32, DotFault>
    requires { sum_over (number_of mismatch.now) (leaf_names (prefix (strategy_view left.now)
        (strategy_view right.now))) < 2 ^ 32 }
    ensures { answer_view result ≡ measured (number_of mismatch.now)
        (prefix (strategy_view left.now) (strategy_view right.now)) }
{
    let first = measure(left, mismatch)?;
    let second = measure(right, mismatch)?;
    if second < first {
        return Err(DotFault {
            prefix: true,
            first,
            second,
        });
    }
    Ok(second)
}

/// The depth of a cross.
#[cycle(measure)]
fn sum_of(trees: &[Tree], mismatch: &Depths) -> Result<u32, DotFault>
    requires { sum_over (number_of mismatch.now) (all_leaf_names (children_view trees.now))
        < 2 ^ 32 }
    ensures { answer_view result ≡ measured (number_of mismatch.now)
        (cross (children_view trees.now)) }
{
    let mut sum = 0;
    for tree in trees {
        sum += measure(tree, mismatch)?;
    }
    Ok(sum)
}

/// The depth of a dot.
#[cycle(measure)]
fn common_of(trees: &[Tree], mismatch: &Depths) -> Result<u32, DotFault>
    requires { sum_over (number_of mismatch.now) (all_leaf_names (children_view trees.now))
        < 2 ^ 32 }
    ensures { answer_view result ≡ measured (number_of mismatch.now)
        (dot (children_view trees.now)) }
{
    let Some((first, others)) = trees.split_first() else {
        return Ok(0);
    };
    let first = measure(first, mismatch)?;
    match other_than(first, others, mismatch)? {
        Some(second) => Err(DotFault {
            prefix: false,
            first,
            second,
        }),
        None => Ok(first),
    }
}

/// The first depth of these strategies that is not `first`.
#[cycle(measure)]
fn other_than(first: u32, trees: &[Tree], mismatch: &Depths) -> Result<Option<u32>, DotFault>
    requires { sum_over (number_of mismatch.now) (all_leaf_names (children_view trees.now))
        < 2 ^ 32 }
    ensures { answer_view result
        ≡ unless (first_inside (number_of mismatch.now) (children_view trees.now))
        (find (λ d. not (d == first)) (depths_of (number_of mismatch.now)
        (children_view trees.now))) }
{
    let mut other = None;
    for tree in trees {
        let depth = measure(tree, mismatch)?;
        other = other.or((depth != first).then_some(depth));
    }
    Ok(other)
}
