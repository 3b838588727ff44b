//! The depths that the feeds of a flow deliver, by the depths of its steps' strategies.
//!
//! These stand in a table in the order of the steps, so that a link costs a binary search among the steps and a search
//! among at most 16 ports.
ghost use Rattle.std.specs.Prelude.{◌≡◌, ◌≤◌, ◌+◌, true, map, [], ◌∷◌, unwrap_or, option_map};
ghost use Rattle.tv_value.specs.Orders.{named};
ghost use Rattle.tv_value.specs.Views.{view as value_view};
ghost use Rattle.tv_flow.specs.Flows.{input, output};
ghost use Rattle.tv_flow.specs.Formed.{is_flow, is_step, is_depth, are_named};
ghost use Rattle.tv_flow.specs.Views.{flow_view, step_view, feed_view, link_view};
ghost use Rattle.tv_model.specs.instance.CheckedDepths.{link_depth, feed_depth, merged_depth, constant_depth};
ghost use Rattle.tv_check.specs.Depthwise.{past_limit, merge_difference, feed_depths, fed_complaints};
ghost use Rattle.tv_check.specs.Tables.{known_steps, IsTable, level_most, is_level, depth_of_output};
ghost use Rattle.tv_naming.specs.AtViews.{at_view};
ghost use Rattle.tv_naming.specs.Told.{IsToldOf};

use std::alloc::Global;
use tv_flow::{Feed, Flow, Link, Step};
use tv_naming::{At, CheckKind, CheckRefused, number_of};
use tv_value::{Depths, Name, Value};

/// No declared or delivered depth is greater.
const DEPTH_MOST: u32 = 32;

/// The depth that a feed delivers. One look-up, also for a merge, whose first link decides.
pub fn feed_depth(flow: &Flow, levels: &[Option<u32>], feed: &Feed) -> u32
    requires { IsTable (flow_view flow.now) levels.now }
    ensures { result ≡ feed_depth (flow_view flow.now).inputs
        (known_steps (flow_view flow.now).steps levels.now) (feed_view feed.now) }
{
    match feed {
        Feed::Input(name) => input_depth(flow, name),
        Feed::Output(step, port) => output_depth(flow, levels, step, port),
        Feed::Merge(links) => merged_depth(flow, levels, links.as_slice()),
        Feed::Constant(value) => constant_depth(value),
    }
}

fn constant_depth(value: &Value) -> u32
    ensures { result ≡ constant_depth (value_view value.now) }
{
    value.least_depth().unwrap_or(0)
}

fn merged_depth(flow: &Flow, levels: &[Option<u32>], links: &[Link]) -> u32
    requires { IsTable (flow_view flow.now) levels.now }
    ensures { result
        ≡ merged_depth
        (map (link_depth (flow_view flow.now).inputs (known_steps (flow_view flow.now).steps
        levels.now)) (map link_view links.now)) }
{
    match links.first() {
        Some(link) => link_depth(flow, levels, link) + 1,
        None => 1,
    }
}

fn link_depth(flow: &Flow, levels: &[Option<u32>], link: &Link) -> u32
    requires { IsTable (flow_view flow.now) levels.now }
    ensures depth { result ≡ link_depth (flow_view flow.now).inputs
        (known_steps (flow_view flow.now).steps levels.now) (link_view link.now) }
    ensures small { result ≤ 544 }
{
    match link {
        Link::Input(name) => input_depth(flow, name),
        Link::Output(step, port) => output_depth(flow, levels, step, port),
    }
}

fn input_depth(flow: &Flow, name: &Name) -> u32
    requires { is_flow (flow_view flow.now) ≡ true }
    ensures depth { result ≡ link_depth (flow_view flow.now).inputs [] (input name.now) }
    ensures small { result ≤ 32 }
{
    match flow.inputs.named(name) {
        Some(depth) => *depth,
        None => 1,
    }
}

fn output_depth(flow: &Flow, levels: &[Option<u32>], step: &Name, port: &Name) -> u32
    requires { IsTable (flow_view flow.now) levels.now }
    ensures depth { result ≡ link_depth (flow_view flow.now).inputs
        (known_steps (flow_view flow.now).steps levels.now) (output step.now port.now) }
    ensures small { result ≤ 544 }
{
    match number_of(&flow.steps, step) {
        Some(number) => step_depth(&flow.steps.as_slice()[number].1, levels[number], port),
        None => 1,
    }
}

/// The depth of an output of a step whose strategy has this depth, where it is known.
fn step_depth(step: &Step, level: Option<u32>, port: &Name) -> u32
    requires step { is_step (step_view step.now) ≡ true }
    requires level { is_level level ≡ true }
    ensures depth { result
        ≡ depth_of_output port.now (option_map (λ k. map (λ p. (p.0, k + p.1)) step.now.outputs)
        level) }
    ensures small { result ≤ 544 }
{
    match level {
        Some(level) => port_depth(&step.outputs, level, port),
        None => 1,
    }
}

/// The depth of an output of a step whose strategy has this depth.
fn port_depth(outputs: &Depths, level: u32, port: &Name) -> u32
    requires outputs { are_named is_depth 0 16 outputs.now ≡ true }
    requires level { level ≤ level_most }
    ensures depth { result ≡ unwrap_or (named port.now (map (λ p. (p.0, level + p.1)) outputs.now))
        1 }
    ensures small { result ≤ 544 }
{
    match outputs.named(port) {
        Some(depth) => level + *depth,
        None => 1,
    }
}

/// Whether the depth that a feed delivers to a port or flow output is one for all links of a merge, and within the limit.
pub(crate) fn fed(
    alloc: Global,
    flow: &Flow,
    levels: &[Option<u32>],
    at: At<'_>,
    feed: &Feed,
) -> Result<(), CheckRefused>
    requires { IsTable (flow_view flow.now) levels.now }
    ensures { IsToldOf (fed_complaints (flow_view flow.now).inputs
        (known_steps (flow_view flow.now).steps
        levels.now) (at_view at.entry) (feed_view feed.now)) result }
{
    merged(alloc, flow, levels, at, feed)?;
    within(alloc, at, feed_depth(flow, levels, feed))
}

/// Whether a depth is within the limit.
pub(crate) fn within(alloc: Global, at: At<'_>, depth: u32) -> Result<(), CheckRefused>
    ensures { IsToldOf (past_limit (at_view at.entry) depth) result }
{
    if depth <= DEPTH_MOST {
        Ok(())
    } else {
        Err(at.refused(alloc, CheckKind::TooDeep, depth, DEPTH_MOST))
    }
}

fn merged(
    alloc: Global,
    flow: &Flow,
    levels: &[Option<u32>],
    at: At<'_>,
    feed: &Feed,
) -> Result<(), CheckRefused>
    requires { IsTable (flow_view flow.now) levels.now }
    ensures { IsToldOf (feed_depths (flow_view flow.now).inputs
        (known_steps (flow_view flow.now).steps
        levels.now) (at_view at.entry) (feed_view feed.now)) result }
{
    match feed {
        Feed::Merge(links) => match links.as_slice().split_first() {
            Some((first, others)) => {
                let first = link_depth(flow, levels, first);
                same_depths(alloc, flow, levels, at, first, others)
            }
            None => Ok(()),
        },
        _ => Ok(()),
    }
}

/// Whether these links deliver the depth of the first.
fn same_depths(
    alloc: Global,
    flow: &Flow,
    levels: &[Option<u32>],
    at: At<'_>,
    first: u32,
    links: &[Link],
) -> Result<(), CheckRefused>
    requires { IsTable (flow_view flow.now) levels.now }
    ensures { IsToldOf (merge_difference (at_view at.entry) (first
        ∷ map (link_depth (flow_view flow.now).inputs (known_steps (flow_view flow.now).steps
        levels.now)) (map link_view links.now))) result }
{
    for link in links {
        let depth = link_depth(flow, levels, link);
        if depth != first {
            return Err(at.refused(alloc, CheckKind::MergeDepths, first, depth));
        }
    }
    Ok(())
}
