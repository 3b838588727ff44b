//! What feeds deliver at a place: parts and marks of elements of inputs, and of nodes of the steps' iterations.
ghost use Rattle.std.specs.Prelude.{◌≡◌, ◌++◌, ◌≤◌, [], IfOk, IfSome, OnOk, Some, length, map, option_map, slice_index_or, take};
ghost use Rattle.tv_flow.specs.Views.{flow_view};
ghost use Rattle.tv_lineage.specs.Views.{mark_view, part_view};
ghost use Rattle.tv_traces.specs.Feeds.{as_part, element_parts, feed_parts, input_told, link_told, merge_told, node_parts, output_told};
ghost use Rattle.tv_traces.specs.Shapes.{reached};
ghost use Rattle.tv_traces.specs.Views.{node_view, shapes_view};

use crate::copies::{element_mark, job_mark, mark_copy, part_copy};
use crate::node::Node;
use std::alloc::Global;
use tv_check::{NumberedFeed, NumberedLink};
use tv_flow::Flow;
use tv_lineage::{Mark, Part};
use tv_value::{Name, NoMemory, Place};

/// The flow, and the shapes of its steps' iterations, by number.
#[derive(Clone, Copy)]
pub(crate) struct Shown<'a> {
    pub(crate) flow: &'a Flow,
    pub(crate) shapes: &'a [Node],
}

/// A node that the way to a place ends at, and the indices that it takes.
#[derive(Clone, Copy)]
pub(crate) struct Reached<'a> {
    pub(crate) taken: usize,
    pub(crate) node: &'a Node,
}

/// Where the way to a place ends: at a node there, or at a job or a fault before. `None` where an item is missing.
pub(crate) fn way_to<'a>(node: &'a Node, place: &[u32]) -> Option<Reached<'a>>
    ensures within { IfSome result (λ r. r.taken ≤ length place.now) }
    ensures node { option_map (λ r. (take r.taken place.now, node_view r.node.now)) result
        ≡ reached [] (node_view node.now) place.now }
{
    let mut here = node;
    for (taken, index) in place.iter().enumerate() {
        match here {
            Node::List(_, items) => match items.as_slice().get(*index as usize) {
                Some(item) => here = item,
                None => return None,
            },
            Node::Job => return Some(Reached { taken, node: here }),
            Node::Passed(_) => return Some(Reached { taken, node: here }),
        }
    }
    Some(Reached {
        taken: place.len(),
        node: here,
    })
}

/// Pushes the parts that stand for a node: a step's, at this place of its iteration. Linear in the place.
pub(crate) fn push_node_parts(
    alloc: Global,
    step: &Name,
    place: &[u32],
    node: &Node,
    parts: &mut Vec<Part>,
) -> Result<(), NoMemory>
    ensures { OnOk result (map part_view parts.new.items
        ≡ map part_view parts.old.items ++ node_parts step.now place.now (node_view node.now)) }
{
    match node {
        Node::Job => parts.push(Part::Single(job_mark(alloc, step, place)?))?,
        Node::Passed(marks) => push_copies(alloc, marks.as_slice(), parts)?,
        Node::List(part, _) => parts.push(part_copy(alloc, part)?)?,
    }
    Ok(())
}

/// Pushes a part for each mark.
fn push_copies(alloc: Global, marks: &[Mark], parts: &mut Vec<Part>) -> Result<(), NoMemory>
    ensures { OnOk result (map part_view parts.new.items
        ≡ map part_view parts.old.items ++ map as_part (map mark_view marks.now)) }
{
    for mark in marks {
        parts.push(Part::Single(mark_copy(alloc, mark)?))?;
    }
    Ok(())
}

/// Pushes the part of an element of an input.
fn push_element_part(
    alloc: Global,
    shown: &Shown<'_>,
    input: u32,
    place: &[u32],
    parts: &mut Vec<Part>,
) -> Result<(), NoMemory>
    ensures { OnOk result (map part_view parts.new.items
        ≡ map part_view parts.old.items
        ++ input_told element_parts (flow_view shown.now.flow.now) input place.now) }
{
    match shown.flow.inputs.as_slice().get(input as usize) {
        Some(entry) => {
            parts.push(Part::Single(element_mark(alloc, &entry.0, place)?))?;
            Ok(())
        }
        None => Ok(()),
    }
}

/// Pushes the parts of what an output of a step delivers at a place.
fn push_output_parts(
    alloc: Global,
    shown: &Shown<'_>,
    step: u32,
    output: u32,
    place: &[u32],
    parts: &mut Vec<Part>,
) -> Result<(), NoMemory>
    ensures { OnOk result (map part_view parts.new.items
        ≡ map part_view parts.old.items
        ++ output_told node_parts (flow_view shown.now.flow.now)
        (shapes_view shown.now.shapes.now) step output place.now) }
{
    let Some(entry) = shown.flow.steps.as_slice().get(step as usize) else {
        return Ok(());
    };
    if output as usize >= entry.1.outputs.as_slice().len() {
        return Ok(());
    }
    let Some(node) = shown.shapes.get(step as usize) else {
        return Ok(());
    };
    match way_to(node, place) {
        Some(there) => push_node_parts(alloc, &entry.0, &place[..there.taken], there.node, parts),
        None => Ok(()),
    }
}

/// Pushes the parts of what a link delivers at a place.
fn push_link_parts(
    alloc: Global,
    shown: &Shown<'_>,
    link: &NumberedLink,
    place: &[u32],
    parts: &mut Vec<Part>,
) -> Result<(), NoMemory>
    ensures { OnOk result (map part_view parts.new.items
        ≡ map part_view parts.old.items
        ++ link_told element_parts node_parts (flow_view shown.now.flow.now)
        (shapes_view shown.now.shapes.now) link.now place.now) }
{
    match link {
        NumberedLink::Input(input) => push_element_part(alloc, shown, *input, place, parts),
        NumberedLink::Output(step, output) => {
            push_output_parts(alloc, shown, *step, *output, place, parts)
        }
    }
}

/// Pushes the parts of what each link delivers.
fn push_merged_parts(
    alloc: Global,
    shown: &Shown<'_>,
    links: &[NumberedLink],
    parts: &mut Vec<Part>,
) -> Result<(), NoMemory>
    ensures { OnOk result (map part_view parts.new.items
        ≡ map part_view parts.old.items
        ++ merge_told element_parts node_parts (flow_view shown.now.flow.now)
        (shapes_view shown.now.shapes.now) links.now []) }
{
    for link in links {
        push_link_parts(alloc, shown, link, &[], parts)?;
    }
    Ok(())
}

/// Pushes the parts of what a feed delivers at a place. Linear in the place; of a whole merge, in its links.
pub(crate) fn push_feed_parts(
    alloc: Global,
    shown: &Shown<'_>,
    feed: &NumberedFeed,
    place: &[u32],
    parts: &mut Vec<Part>,
) -> Result<(), NoMemory>
    ensures { OnOk result (map part_view parts.new.items
        ≡ map part_view parts.old.items
        ++ feed_parts (flow_view shown.now.flow.now) (shapes_view shown.now.shapes.now)
        feed.now place.now) }
{
    match feed {
        NumberedFeed::Link(link) => push_link_parts(alloc, shown, link, place, parts),
        NumberedFeed::Merge(links) => match place {
            [] => push_merged_parts(alloc, shown, links.as_slice(), parts),
            [first, rest @ ..] => match links.as_slice().get(*first as usize) {
                Some(link) => push_link_parts(alloc, shown, link, rest, parts),
                None => Ok(()),
            },
        },
        NumberedFeed::Constant => Ok(()),
    }
}
