//! The graph of a flow's steps, of which some come before others, and that of a document's flows, of which some open
//! others.
ghost use Rattle.std.specs.Prelude.{◌≡◌, ◌<◌, ◌^◌, ◌++◌, ◌∷◌, [], true, map, length, flat_map, filter_map, IfOk, OnOk};
ghost use Rattle.tv_flow.specs.Formed.{is_ascending};
ghost use Rattle.tv_flow.specs.Views.{each, link_view, feed_view, activity_view, step_input_view, step_view, flow_view};
ghost use Rattle.tv_model.specs.instance.Ranks.{link_step, feed_steps, earlier_steps};
ghost use Rattle.tv_check.specs.Cycles.{opened_flow, opened_flows};
ghost use Rattle.tv_check.specs.NamedGraphs.{numbers_of, graph_of};

use std::alloc::Global;
use tv_flow::{Activities, Activity, Feed, Flow, Flows, Link, Links, Step, StepInputs, Steps};
use tv_naming::{Graph, number_of};
use tv_value::{Name, Names, NoMemory, Sequence};

/// The graph of the steps, each numbered by its position: those that feed a step or that it runs after come before it.
/// Takes a look-up for each link.
pub(crate) fn step_graph(alloc: Global, steps: &Steps) -> Result<Graph, NoMemory>
    requires in_order { is_ascending (map (λ e. e.0) steps.now) ≡ true }
    requires few { length steps.now < 2 ^ 32 }
    ensures { IfOk result (λ g. g ≡ graph_of earlier_steps (each step_view steps.now)) }
{
    let mut before = Vec::new(alloc);
    for step in steps.as_slice() {
        before.push(earlier_numbers(alloc, steps, &step.1)?)?;
    }
    Ok(Graph::of(before))
}

/// The graph of the flows, each numbered by its position: those that a flow opens come before it. Takes a look-up for each
/// activity.
pub(crate) fn flow_graph(alloc: Global, flows: &Flows) -> Result<Graph, NoMemory>
    requires in_order { is_ascending (map (λ e. e.0) flows.now) ≡ true }
    requires few { length flows.now < 2 ^ 32 }
    ensures { IfOk result (λ g. g ≡ graph_of opened_flows (each flow_view flows.now)) }
{
    let mut before = Vec::new(alloc);
    for flow in flows.as_slice() {
        before.push(opened_numbers(alloc, flows, &flow.1)?)?;
    }
    Ok(Graph::of(before))
}

fn earlier_numbers(alloc: Global, steps: &Steps, step: &Step) -> Result<Vec<u32>, NoMemory>
    requires in_order { is_ascending (map (λ e. e.0) steps.now) ≡ true }
    requires few { length steps.now < 2 ^ 32 }
    ensures { IfOk result (λ ns. ns.items
        ≡ numbers_of steps.now (earlier_steps (step_view step.now))) }
{
    let mut numbers = Vec::new(alloc);
    push_inputs(&mut numbers, steps, &step.inputs)?;
    push_names(&mut numbers, steps, &step.after)?;
    Ok(numbers)
}

fn opened_numbers(alloc: Global, flows: &Flows, flow: &Flow) -> Result<Vec<u32>, NoMemory>
    requires in_order { is_ascending (map (λ e. e.0) flows.now) ≡ true }
    requires few { length flows.now < 2 ^ 32 }
    ensures { IfOk result (λ ns. ns.items
        ≡ numbers_of flows.now (opened_flows (flow_view flow.now))) }
{
    let mut numbers = Vec::new(alloc);
    for step in flow.steps.as_slice() {
        push_activities(&mut numbers, flows, &step.1.activities)?;
    }
    Ok(numbers)
}

fn push_inputs(numbers: &mut Vec<u32>, steps: &Steps, inputs: &StepInputs) -> Result<(), NoMemory>
    requires in_order { is_ascending (map (λ e. e.0) steps.now) ≡ true }
    requires few { length steps.now < 2 ^ 32 }
    ensures { OnOk result (numbers.new.items ≡ numbers.old.items
        ++ numbers_of steps.now (flat_map (λ i. feed_steps i.1.from)
        (each step_input_view inputs.now))) }
{
    for input in inputs.as_slice() {
        push_feed(numbers, steps, &input.1.from)?;
    }
    Ok(())
}

fn push_feed(numbers: &mut Vec<u32>, steps: &Steps, feed: &Feed) -> Result<(), NoMemory>
    requires in_order { is_ascending (map (λ e. e.0) steps.now) ≡ true }
    requires few { length steps.now < 2 ^ 32 }
    ensures { OnOk result (numbers.new.items ≡ numbers.old.items
        ++ numbers_of steps.now (feed_steps (feed_view feed.now))) }
{
    match feed {
        Feed::Output(step, _) => push_number(numbers, steps, step),
        Feed::Merge(links) => push_links(numbers, steps, links),
        Feed::Input(_) => Ok(()),
        Feed::Constant(_) => Ok(()),
    }
}

fn push_links(numbers: &mut Vec<u32>, steps: &Steps, links: &Links) -> Result<(), NoMemory>
    requires in_order { is_ascending (map (λ e. e.0) steps.now) ≡ true }
    requires few { length steps.now < 2 ^ 32 }
    ensures { OnOk result (numbers.new.items ≡ numbers.old.items
        ++ numbers_of steps.now (flat_map link_step (map link_view links.now))) }
{
    for link in links.as_slice() {
        push_link(numbers, steps, link)?;
    }
    Ok(())
}

fn push_link(numbers: &mut Vec<u32>, steps: &Steps, link: &Link) -> Result<(), NoMemory>
    requires in_order { is_ascending (map (λ e. e.0) steps.now) ≡ true }
    requires few { length steps.now < 2 ^ 32 }
    ensures { OnOk result (numbers.new.items ≡ numbers.old.items
        ++ numbers_of steps.now (link_step (link_view link.now))) }
{
    match link {
        Link::Output(step, _) => push_number(numbers, steps, step),
        Link::Input(_) => Ok(()),
    }
}

fn push_names<T>(
    numbers: &mut Vec<u32>,
    entries: &Sequence<(Name, T)>,
    names: &Names,
) -> Result<(), NoMemory>
    requires in_order { is_ascending (map (λ e. e.0) entries.now) ≡ true }
    requires few { length entries.now < 2 ^ 32 }
    ensures { OnOk result (numbers.new.items ≡ numbers.old.items
        ++ numbers_of entries.now names.now) }
{
    for name in names.as_slice() {
        push_number(numbers, entries, name)?;
    }
    Ok(())
}

fn push_activities(
    numbers: &mut Vec<u32>,
    flows: &Flows,
    activities: &Activities,
) -> Result<(), NoMemory>
    requires in_order { is_ascending (map (λ e. e.0) flows.now) ≡ true }
    requires few { length flows.now < 2 ^ 32 }
    ensures { OnOk result (numbers.new.items ≡ numbers.old.items
        ++ numbers_of flows.now (filter_map opened_flow (map activity_view activities.now))) }
{
    for activity in activities.as_slice() {
        push_activity(numbers, flows, activity)?;
    }
    Ok(())
}

fn push_activity(numbers: &mut Vec<u32>, flows: &Flows, activity: &Activity) -> Result<(), NoMemory>
    requires in_order { is_ascending (map (λ e. e.0) flows.now) ≡ true }
    requires few { length flows.now < 2 ^ 32 }
    ensures { OnOk result (numbers.new.items ≡ numbers.old.items
        ++ numbers_of flows.now (filter_map opened_flow (activity_view activity.now ∷ []))) }
{
    match activity {
        Activity::Nested(flow) => push_number(numbers, flows, flow),
        Activity::Service(_) => Ok(()),
    }
}

/// Adds the number of a name, where it is there.
fn push_number<T>(
    numbers: &mut Vec<u32>,
    entries: &Sequence<(Name, T)>,
    name: &Name,
) -> Result<(), NoMemory>
    requires in_order { is_ascending (map (λ e. e.0) entries.now) ≡ true }
    requires few { length entries.now < 2 ^ 32 }
    ensures { OnOk result (numbers.new.items ≡ numbers.old.items
        ++ numbers_of entries.now (name.now ∷ [])) }
{
    if let Some(number) = number_of(entries, name) {
        numbers.push(number as u32)?;
    }
    Ok(())
}
