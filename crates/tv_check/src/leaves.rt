//! The leaves of a strategy by number.
ghost use Rattle.std.specs.Prelude.{◌≡◌, ◌++◌, ◌∷◌, ◌<◌, ◌^◌, [], OnOk, map, length};
ghost use Rattle.tv_value.specs.Views.{strategy_view, strategies_of};
ghost use Rattle.tv_strategy.specs.Measures.{leaf_names, all_leaf_names};
ghost use Rattle.tv_check.specs.Ports.{leaf_number};

use tv_value::{Name, NoMemory, Tree};

/// The first leaf of a name, or the number of leaves where there is none. Linear in the leaves, of which a step has at most
/// 16.
pub(crate) fn leaf_number(leaves: &[&Name], name: &Name) -> u32
    requires { length leaves.now < 2 ^ 32 }
    ensures { result ≡ leaf_number name.now (map (λ n. n.now) leaves.now) }
{
    for (number, leaf) in leaves.iter().enumerate() {
        if name.as_str() == leaf.as_str() {
            return number as u32;
        }
    }
    leaves.len() as u32
}

/// Adds the leaves of a strategy, from left to right.
#[cycle(push_leaves)]
pub(crate) fn push_leaves<'a>(tree: &'a Tree, leaves: &mut Vec<&'a Name>) -> Result<(), NoMemory>
    ensures { OnOk result (map (λ n. n.now) leaves.new.items ≡ map (λ n. n.now) leaves.old.items
        ++ leaf_names (strategy_view tree.now)) }
{
    match tree {
        Tree::Leaf(name) => push_leaf(name, leaves),
        Tree::Cross(trees) => push_all_leaves(trees.as_slice(), leaves),
        Tree::Dot(trees) => push_all_leaves(trees.as_slice(), leaves),
        Tree::Prefix(left, right) => push_both(left, right, leaves),
    }
}

#[cycle(push_leaves)]
fn push_both<'a>(
    left: &'a Tree,
    right: &'a Tree,
    leaves: &mut Vec<&'a Name>,
) -> Result<(), NoMemory>
    ensures { OnOk result (map (λ n. n.now) leaves.new.items ≡ map (λ n. n.now) leaves.old.items
        ++ (leaf_names (strategy_view left.now) ++ leaf_names (strategy_view right.now))) }
{
    push_leaves(left, leaves)?;
    push_leaves(right, leaves)
}

fn push_leaf<'a>(name: &'a Name, leaves: &mut Vec<&'a Name>) -> Result<(), NoMemory>
    ensures { OnOk result (map (λ n. n.now) leaves.new.items ≡ map (λ n. n.now) leaves.old.items
        ++ name.now ∷ []) }
{
    leaves.push(name)?;
    Ok(())
}

#[cycle(push_leaves)]
fn push_all_leaves<'a>(trees: &'a [Tree], leaves: &mut Vec<&'a Name>) -> Result<(), NoMemory>
    ensures { OnOk result (map (λ n. n.now) leaves.new.items ≡ map (λ n. n.now) leaves.old.items
        ++ all_leaf_names (strategies_of (map strategy_view trees.now))) }
{
    for tree in trees {
        push_leaves(tree, leaves)?;
    }
    Ok(())
}
