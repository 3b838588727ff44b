//! The index for each leaf.
ghost use Rattle.std.specs.Prelude.{◌≡◌, ◌++◌, ◌+◌, ◌<◌, ◌^◌, IfOk, OnOk, map};
ghost use Rattle.tv_value.specs.Strategies.{cross, dot, prefix};
ghost use Rattle.tv_value.specs.Views.{strategy_view};
ghost use Rattle.tv_strategy.specs.Conditions.{number_of, sum_over};
ghost use Rattle.tv_strategy.specs.Measures.{all_leaf_names, leaf_names, sum_of_depths, first_depth, strategy_depth};
ghost use Rattle.tv_strategy.specs.Views.{children_view};
ghost use Rattle.tv_frame.specs.Starts.{cross_starts, dot_starts, starts};

use std::alloc::Global;
use tv_value::{Depths, Name, NoMemory, Tree};

/// For each leaf of a strategy, from left to right, the index of a job's place at which the leaf's part begins.
///
/// Linear in the tree, with a look-up in `mismatch` for each leaf.
pub fn leaf_starts(alloc: Global, tree: &Tree, mismatch: &Depths) -> Result<Vec<u32>, NoMemory>
    requires { sum_over (number_of mismatch.now) (leaf_names (strategy_view tree.now)) < 2 ^ 32 }
    ensures { IfOk result (λ is. is.items
        ≡ map (λ x. x.1) (starts (number_of mismatch.now) 0 (strategy_view tree.now))) }
{
    let mut indices = Vec::new(alloc);
    push_starts(tree, mismatch, 0, &mut indices)?;
    Ok(indices)
}

/// Pushes those of a strategy that begins at an index, and answers its depth.
#[cycle(starts)]
fn push_starts(
    tree: &Tree,
    mismatch: &Depths,
    start: u32,
    indices: &mut Vec<u32>,
) -> Result<u32, NoMemory>
    requires { start + sum_over (number_of mismatch.now) (leaf_names (strategy_view tree.now))
        < 2 ^ 32 }
    ensures indices { OnOk result (indices.new.items ≡ indices.old.items
        ++ map (λ x. x.1) (starts (number_of mismatch.now) start (strategy_view tree.now))) }
    ensures depth { IfOk result (λ d. d ≡ strategy_depth (number_of mismatch.now)
        (strategy_view tree.now)) }
{
    match tree {
        Tree::Leaf(name) => {
            indices.push(start)?;
            Ok(levels_of(mismatch, name))
        }
        Tree::Cross(trees) => push_cross(trees.as_slice(), mismatch, start, indices),
        Tree::Dot(trees) => push_dot(trees.as_slice(), mismatch, start, indices),
        Tree::Prefix(left, right) => push_prefix(left, right, mismatch, start, indices),
    }
}

/// Both children begin together.
#[cycle(starts)]
fn push_prefix(
    left: &Tree,
    right: &Tree,
    mismatch: &Depths,
    start: u32,
    indices: &mut Vec<u32>,
) -> Result<u32, NoMemory>
    requires { start + sum_over (number_of mismatch.now) (leaf_names
        (prefix (strategy_view left.now) (strategy_view right.now))) < 2 ^ 32 }
    ensures indices { OnOk result (indices.new.items ≡ indices.old.items
        ++ map (λ x. x.1) (starts (number_of mismatch.now) start
        (prefix (strategy_view left.now) (strategy_view right.now)))) }
    ensures depth { IfOk result (λ d. d ≡ strategy_depth (number_of mismatch.now)
        (prefix (strategy_view left.now) (strategy_view right.now))) }
{
    push_starts(left, mismatch, start, indices)?;
    push_starts(right, mismatch, start, indices)
}

/// Each child begins where the one before ends.
#[cycle(starts)]
fn push_cross(
    trees: &[Tree],
    mismatch: &Depths,
    start: u32,
    indices: &mut Vec<u32>,
) -> Result<u32, NoMemory>
    requires { start + sum_over (number_of mismatch.now) (all_leaf_names (children_view trees.now))
        < 2 ^ 32 }
    ensures indices { OnOk result (indices.new.items ≡ indices.old.items
        ++ map (λ x. x.1) (cross_starts (number_of mismatch.now) start (children_view trees.now))) }
    ensures depth { IfOk result (λ d. d ≡ sum_of_depths (number_of mismatch.now)
        (children_view trees.now)) }
{
    match trees.split_first() {
        None => Ok(0),
        Some((first, others)) => {
            let depth = push_starts(first, mismatch, start, indices)?;
            let rest = push_cross(others, mismatch, start + depth, indices)?;
            Ok(depth + rest)
        }
    }
}

/// All children begin together.
#[cycle(starts)]
fn push_dot(
    trees: &[Tree],
    mismatch: &Depths,
    start: u32,
    indices: &mut Vec<u32>,
) -> Result<u32, NoMemory>
    requires { start + sum_over (number_of mismatch.now) (all_leaf_names (children_view trees.now))
        < 2 ^ 32 }
    ensures indices { OnOk result (indices.new.items ≡ indices.old.items
        ++ map (λ x. x.1) (dot_starts (number_of mismatch.now) start (children_view trees.now))) }
    ensures depth { IfOk result (λ d. d ≡ first_depth (number_of mismatch.now)
        (children_view trees.now)) }
{
    match trees.split_first() {
        None => Ok(0),
        Some((first, others)) => {
            let depth = push_starts(first, mismatch, start, indices)?;
            push_dot(others, mismatch, start, indices)?;
            Ok(depth)
        }
    }
}

/// The levels that a leaf walks, 0 where none are listed.
fn levels_of(mismatch: &Depths, name: &Name) -> u32
    ensures { result ≡ number_of mismatch.now name.now }
{
    match mismatch.named(name) {
        Some(levels) => *levels,
        None => 0,
    }
}
