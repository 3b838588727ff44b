//! Iteration strategies.
ghost use Rattle.std.specs.Prelude.{◌≡◌, ◌<◌, ◌^◌, ◌&&◌, IfOk, true, map, length, codes, Ok};
ghost use Rattle.std.specs.List.{list_all};
ghost use Rattle.serde_json.specs.View.{view as json_view, items_view as json_items};
ghost use Rattle.tv_value.specs.Views.{strategy_view, strategies_view};
ghost use Rattle.tv_flow.specs.Complaints.{and_then};
ghost use Rattle.tv_value.specs.Strategies.{cross, dot};
ghost use Rattle.tv_flow.specs.Branch.{branch, pair};
ghost use Rattle.tv_flow.specs.PathViews.{at_view};
ghost use Rattle.tv_flow.specs.Answers.{IsForm};
ghost use Rattle.tv_flow.specs.Formed.{is_tree, is_between, strategy_count, are_trees, tree_fits, trees_fit};
ghost use Rattle.tv_flow.specs.Forms.{is_second, has, tree_form, trees_form, prefix_form, two_trees, items_form};

use crate::at::At;
use crate::faults::{FormFault, FormKind};
use crate::lists::{counted, item_count};
use crate::objects::{fields, has};
use crate::scalars::name_or_not;
use serde_json::Value as Json;
use std::alloc::Global;
use tv_value::{Tree, Trees};

/// A strategy: a name, or an object with `cross`, `dot` or, in the second format, `prefix`.
#[cycle(trees)]
pub(crate) fn tree<'a>(
    alloc: Global,
    json: &Json,
    at: &'a At<'a>,
    format: u32,
) -> Result<Tree, FormFault>
    ensures read { IsForm strategy_view result (tree_form format (at_view at.now) (json_view json.now)) }
    ensures kept { IfOk result (λ t. is_tree (strategy_view t) ≡ true) }
    ensures fits { IfOk result (λ t. tree_fits format (strategy_view t) ≡ true) }
{
    match json {
        Json::String(text) => Ok(Tree::Leaf(name_or_not(alloc, at, text.as_str())?)),
        Json::Object(_) => {
            if has(json, "cross") {
                cross_node(alloc, json, at, format)
            } else if has(json, "dot") {
                dot_node(alloc, json, at, format)
            } else if has_pair(json, format) {
                prefix_node(alloc, json, at, format)
            } else {
                cross_node(alloc, json, at, format)
            }
        }
        _ => Err(at.fault(alloc, FormKind::WrongKind)),
    }
}

#[cycle(trees)]
fn cross_node<'a>(
    alloc: Global,
    json: &Json,
    at: &'a At<'a>,
    format: u32,
) -> Result<Tree, FormFault>
    ensures read { IsForm strategy_view result
        (and_then (branch format (codes "cross") (at_view at.now) (json_view json.now))
        (λ ts. Ok (cross ts))) }
    ensures kept { IfOk result (λ t. is_tree (strategy_view t) ≡ true) }
    ensures fits { IfOk result (λ t. tree_fits format (strategy_view t) ≡ true) }
{
    let trees = children(alloc, json, at, "cross", format)?;
    Ok(Tree::Cross(trees))
}

#[cycle(trees)]
fn dot_node<'a>(alloc: Global, json: &Json, at: &'a At<'a>, format: u32) -> Result<Tree, FormFault>
    ensures read { IsForm strategy_view result
        (and_then (branch format (codes "dot") (at_view at.now) (json_view json.now))
        (λ ts. Ok (dot ts))) }
    ensures kept { IfOk result (λ t. is_tree (strategy_view t) ≡ true) }
    ensures fits { IfOk result (λ t. tree_fits format (strategy_view t) ≡ true) }
{
    let trees = children(alloc, json, at, "dot", format)?;
    Ok(Tree::Dot(trees))
}

/// Whether it is a node of the second format that has the two trees of a prefix.
fn has_pair(json: &Json, format: u32) -> bool
    ensures { result ≡ (is_second format && has (codes "prefix") (json_view json.now)) }
{
    format == 2 && has(json, "prefix")
}

#[cycle(trees)]
fn prefix_node<'a>(
    alloc: Global,
    json: &Json,
    at: &'a At<'a>,
    format: u32,
) -> Result<Tree, FormFault>
    requires { is_second format ≡ true }
    ensures read { IsForm strategy_view result (pair format (at_view at.now) (json_view json.now)) }
    ensures kept { IfOk result (λ t. is_tree (strategy_view t) ≡ true) }
    ensures fits { IfOk result (λ t. tree_fits format (strategy_view t) ≡ true) }
{
    fields(alloc, at, json, &["prefix"])?;
    let there = At::Key(at, "prefix");
    match json.get("prefix") {
        Some(json) => pair(alloc, json, &there, format),
        None => Err(there.fault(alloc, FormKind::Missing)),
    }
}

/// An array of exactly two trees.
#[cycle(trees)]
fn pair<'a>(alloc: Global, json: &Json, at: &'a At<'a>, format: u32) -> Result<Tree, FormFault>
    requires { is_second format ≡ true }
    ensures read { IsForm strategy_view result (prefix_form format (at_view at.now)
        (json_view json.now)) }
    ensures kept { IfOk result (λ t. is_tree (strategy_view t) ≡ true) }
    ensures fits { IfOk result (λ t. tree_fits format (strategy_view t) ≡ true) }
{
    match json {
        Json::Array(items) => {
            counted(alloc, at, item_count(items), 2, 2)?;
            two_trees(alloc, items, at, format)
        }
        _ => Err(at.fault(alloc, FormKind::WrongKind)),
    }
}

#[cycle(trees)]
fn two_trees<'a>(
    alloc: Global,
    items: &Vec<Json>,
    at: &'a At<'a>,
    format: u32,
) -> Result<Tree, FormFault>
    requires second { is_second format ≡ true }
    requires two { length items.now.items ≡ 2 }
    ensures read { IsForm strategy_view result (two_trees format (at_view at.now)
        (json_items items.now.items)) }
    ensures kept { IfOk result (λ t. is_tree (strategy_view t) ≡ true) }
    ensures fits { IfOk result (λ t. tree_fits format (strategy_view t) ≡ true) }
{
    let left = tree(alloc, &items[0], &At::Index(at, 0), format)?;
    let right = tree(alloc, &items[1], &At::Index(at, 1), format)?;
    let left = Box::new(alloc, left)?;
    let right = Box::new(alloc, right)?;
    Ok(Tree::Prefix(left, right))
}

/// The trees at the one field of a node.
#[cycle(trees)]
fn children<'a>(
    alloc: Global,
    json: &Json,
    at: &'a At<'a>,
    key: &'a str,
    format: u32,
) -> Result<Trees, FormFault>
    ensures read { IsForm strategies_view result (branch format key.now (at_view at.now)
        (json_view json.now)) }
    ensures kept { IfOk result (λ ts. is_between 1 16 (strategy_count (strategies_view ts))
        && are_trees (strategies_view ts) ≡ true) }
    ensures fits { IfOk result (λ ts. trees_fit format (strategies_view ts) ≡ true) }
{
    fields(alloc, at, json, &[key])?;
    let there = At::Key(at, key);
    match json.get(key) {
        Some(json) => trees(alloc, json, &there, format),
        None => Err(there.fault(alloc, FormKind::Missing)),
    }
}

#[cycle(trees)]
fn trees<'a>(alloc: Global, json: &Json, at: &'a At<'a>, format: u32) -> Result<Trees, FormFault>
    ensures read { IsForm strategies_view result (trees_form format (at_view at.now)
        (json_view json.now)) }
    ensures kept { IfOk result (λ ts. is_between 1 16 (strategy_count (strategies_view ts))
        && are_trees (strategies_view ts) ≡ true) }
    ensures fits { IfOk result (λ ts. trees_fit format (strategies_view ts) ≡ true) }
{
    match json {
        Json::Array(items) => {
            counted(alloc, at, item_count(items), 1, 16)?;
            let trees = each_tree(alloc, items, at, format)?;
            Ok(Trees { trees })
        }
        _ => Err(at.fault(alloc, FormKind::WrongKind)),
    }
}

#[cycle(trees)]
fn each_tree<'a>(
    alloc: Global,
    items: &Vec<Json>,
    at: &'a At<'a>,
    format: u32,
) -> Result<Vec<Tree>, FormFault>
    requires { length items.now.items < 2 ^ 32 }
    ensures read { IsForm (λ v. map strategy_view v.items) result
        (items_form (tree_form format) (at_view at.now) 0 (json_items items.now.items)) }
    ensures kept { IfOk result (λ v. list_all is_tree (map strategy_view v.items) ≡ true) }
    ensures fits { IfOk result (λ v. list_all (tree_fits format) (map strategy_view v.items) ≡ true) }
{
    let mut trees = Vec::new(alloc);
    for index in 0..items.len() {
        let there = At::Index(&*at, index as u32);
        let tree = tree(alloc, &items[index], &there, format)?;
        trees.push(tree)?;
    }
    Ok(trees)
}
