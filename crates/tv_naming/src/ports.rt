//! Whether a strategy's leaves are the input ports of its step.
ghost use Rattle.std.specs.Prelude.{◌≡◌, ◌++◌, ◌∷◌, [], OnOk, IfOk, map, count_by, ◌==◌};
ghost use Rattle.std.specs.List.{list_all};
ghost use Rattle.tv_value.specs.Orders.{same_name};
ghost use Rattle.tv_value.specs.Views.{strategy_view, strategies_of};
ghost use Rattle.tv_flow.specs.Views.{step_view};
ghost use Rattle.tv_strategy.specs.Measures.{leaf_names, all_leaf_names};
ghost use Rattle.tv_naming.specs.Naming.{fits_ports, are_the_same};

use std::alloc::Global;
use tv_flow::{Step, StepInput};
use tv_value::{Name, NoMemory, Tree};

/// Whether each input port of a step is a leaf of a strategy, once, and no leaf is anything else. Linear in the strategy:
/// names are only compared where there are as many leaves as ports, of which a step has at most 16.
pub(crate) fn fits_ports(alloc: Global, step: &Step, tree: &Tree) -> Result<bool, NoMemory>
    ensures { IfOk result (λ b. b ≡ fits_ports (step_view step.now) (strategy_view tree.now)) }
{
    let mut leaves = Vec::new(alloc);
    push_leaves(tree, &mut leaves)?;
    Ok(are_the_ports(step.inputs.as_slice(), leaves.as_slice()))
}

fn are_the_ports(ports: &[(Name, StepInput)], leaves: &[&Name]) -> bool
    ensures { result ≡ are_the_same (map (λ p. p.0) ports.now) (map (λ n. n.now) leaves.now) }
{
    if ports.len() != leaves.len() {
        return false;
    }
    are_leaves(ports, leaves) && are_ports(leaves, ports)
}

/// Whether each of the ports is a leaf, once.
fn are_leaves(ports: &[(Name, StepInput)], leaves: &[&Name]) -> bool
    ensures { result ≡ list_all (λ p. count_by (λ n. same_name p.0 n.now) leaves.now == 1)
        ports.now }
{
    ports.iter().all(|port| leaf_count(leaves, &port.0) == 1)
}

/// Whether each of the leaves is a port, once.
fn are_ports(leaves: &[&Name], ports: &[(Name, StepInput)]) -> bool
    ensures { result ≡ list_all (λ n. count_by (λ p. same_name n.now p.0) ports.now == 1)
        leaves.now }
{
    leaves.iter().all(|leaf| port_count(ports, leaf) == 1)
}

fn leaf_count(leaves: &[&Name], name: &Name) -> usize
    ensures { result ≡ count_by (λ n. same_name name.now n.now) leaves.now }
{
    leaves
        .iter()
        .filter(|leaf| name.as_str() == leaf.as_str())
        .count()
}

fn port_count(ports: &[(Name, StepInput)], name: &Name) -> usize
    ensures { result ≡ count_by (λ p. same_name name.now p.0) ports.now }
{
    ports
        .iter()
        .filter(|port| name.as_str() == port.0.as_str())
        .count()
}

/// Adds the leaves of a strategy, from left to right.
#[cycle(push_leaves)]
fn push_leaves<'a>(tree: &'a Tree, leaves: &mut Vec<&'a Name>) -> Result<(), NoMemory>
    ensures { OnOk result (map (λ n. n.now) leaves.new.items ≡ map (λ n. n.now) leaves.old.items
        ++ leaf_names (strategy_view tree.now)) }
{
    match tree {
        Tree::Leaf(name) => push_leaf(name, leaves),
        Tree::Cross(trees) => push_all_leaves(trees.as_slice(), leaves),
        Tree::Dot(trees) => push_all_leaves(trees.as_slice(), leaves),
        Tree::Prefix(left, right) => push_both(left, right, leaves),
    }
}

#[cycle(push_leaves)]
fn push_both<'a>(
    left: &'a Tree,
    right: &'a Tree,
    leaves: &mut Vec<&'a Name>,
) -> Result<(), NoMemory>
    ensures { OnOk result (map (λ n. n.now) leaves.new.items ≡ map (λ n. n.now) leaves.old.items
        ++ (leaf_names (strategy_view left.now) ++ leaf_names (strategy_view right.now))) }
{
    push_leaves(left, leaves)?;
    push_leaves(right, leaves)
}

fn push_leaf<'a>(name: &'a Name, leaves: &mut Vec<&'a Name>) -> Result<(), NoMemory>
    ensures { OnOk result (map (λ n. n.now) leaves.new.items ≡ map (λ n. n.now) leaves.old.items
        ++ name.now ∷ []) }
{
    leaves.push(name)?;
    Ok(())
}

#[cycle(push_leaves)]
fn push_all_leaves<'a>(trees: &'a [Tree], leaves: &mut Vec<&'a Name>) -> Result<(), NoMemory>
    ensures { OnOk result (map (λ n. n.now) leaves.new.items ≡ map (λ n. n.now) leaves.old.items
        ++ all_leaf_names (strategies_of (map strategy_view trees.now))) }
{
    for tree in trees {
        push_leaves(tree, leaves)?;
    }
    Ok(())
}
