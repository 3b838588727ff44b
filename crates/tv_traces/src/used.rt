//! The marks of what feeds deliver at a place.
ghost use Rattle.std.specs.Prelude.{◌≡◌, ◌++◌, [], OnOk, map};
ghost use Rattle.tv_flow.specs.Views.{flow_view};
ghost use Rattle.tv_lineage.specs.Views.{mark_view};
ghost use Rattle.tv_traces.specs.Feeds.{element_marks, feed_marks, input_told, job_at, link_told, merge_told, node_marks, output_told};
ghost use Rattle.tv_traces.specs.Shapes.{shapes_used};
ghost use Rattle.tv_traces.specs.Views.{node_view, nodes_view, shapes_view};

use crate::copies::{element_mark, item_place, job_mark, mark_copy};
use crate::feeds::{Shown, way_to};
use crate::node::Node;
use std::alloc::Global;
use tv_check::{NumberedFeed, NumberedLink};
use tv_lineage::Mark;
use tv_value::{Name, NoMemory, Place};

/// Pushes the marks that what stands at a node used: a step's, at this place of its iteration. Linear in these.
#[cycle(used)]
fn push_node_marks(
    alloc: Global,
    step: &Name,
    place: &[u32],
    node: &Node,
    marks: &mut Vec<Mark>,
) -> Result<(), NoMemory>
    ensures { OnOk result (map mark_view marks.new.items
        ≡ map mark_view marks.old.items ++ node_marks step.now place.now (node_view node.now)) }
{
    match node {
        Node::Job => {
            marks.push(job_mark(alloc, step, place)?)?;
            Ok(())
        }
        Node::Passed(own) => push_same(alloc, own.as_slice(), marks),
        Node::List(_, items) => push_item_marks(alloc, step, place, items.as_slice(), marks),
    }
}

/// Pushes those of the items of a list. A list of 2^32 items or more is more than memory holds.
#[cycle(used)]
fn push_item_marks(
    alloc: Global,
    step: &Name,
    place: &[u32],
    items: &[Node],
    marks: &mut Vec<Mark>,
) -> Result<(), NoMemory>
    ensures { OnOk result (map mark_view marks.new.items
        ≡ map mark_view marks.old.items ++ shapes_used (job_at step.now) place.now 0
        (nodes_view items.now)) }
{
    for (index, item) in items.iter().enumerate() {
        let Ok(number) = u32::try_from(index) else {
            return Err(NoMemory);
        };
        let inner = item_place(alloc, place, number)?;
        push_node_marks(alloc, step, inner.as_slice(), item, marks)?;
    }
    Ok(())
}

/// Pushes an equal mark for each.
fn push_same(alloc: Global, own: &[Mark], marks: &mut Vec<Mark>) -> Result<(), NoMemory>
    ensures { OnOk result (map mark_view marks.new.items ≡ map mark_view marks.old.items
        ++ map mark_view own.now) }
{
    for mark in own {
        marks.push(mark_copy(alloc, mark)?)?;
    }
    Ok(())
}

/// Pushes the mark of an element of an input.
fn push_element_mark(
    alloc: Global,
    shown: &Shown<'_>,
    input: u32,
    place: &[u32],
    marks: &mut Vec<Mark>,
) -> Result<(), NoMemory>
    ensures { OnOk result (map mark_view marks.new.items
        ≡ map mark_view marks.old.items
        ++ input_told element_marks (flow_view shown.now.flow.now) input place.now) }
{
    match shown.flow.inputs.as_slice().get(input as usize) {
        Some(entry) => {
            marks.push(element_mark(alloc, &entry.0, place)?)?;
            Ok(())
        }
        None => Ok(()),
    }
}

/// Pushes the marks of what an output of a step delivers at a place.
fn push_output_marks(
    alloc: Global,
    shown: &Shown<'_>,
    step: u32,
    output: u32,
    place: &[u32],
    marks: &mut Vec<Mark>,
) -> Result<(), NoMemory>
    ensures { OnOk result (map mark_view marks.new.items
        ≡ map mark_view marks.old.items
        ++ output_told node_marks (flow_view shown.now.flow.now)
        (shapes_view shown.now.shapes.now) step output place.now) }
{
    let Some(entry) = shown.flow.steps.as_slice().get(step as usize) else {
        return Ok(());
    };
    if output as usize >= entry.1.outputs.as_slice().len() {
        return Ok(());
    }
    let Some(node) = shown.shapes.get(step as usize) else {
        return Ok(());
    };
    match way_to(node, place) {
        Some(there) => push_node_marks(alloc, &entry.0, &place[..there.taken], there.node, marks),
        None => Ok(()),
    }
}

/// Pushes the marks of what a link delivers at a place.
fn push_link_marks(
    alloc: Global,
    shown: &Shown<'_>,
    link: &NumberedLink,
    place: &[u32],
    marks: &mut Vec<Mark>,
) -> Result<(), NoMemory>
    ensures { OnOk result (map mark_view marks.new.items
        ≡ map mark_view marks.old.items
        ++ link_told element_marks node_marks (flow_view shown.now.flow.now)
        (shapes_view shown.now.shapes.now) link.now place.now) }
{
    match link {
        NumberedLink::Input(input) => push_element_mark(alloc, shown, *input, place, marks),
        NumberedLink::Output(step, output) => {
            push_output_marks(alloc, shown, *step, *output, place, marks)
        }
    }
}

/// Pushes the marks of what each link delivers.
fn push_merged_marks(
    alloc: Global,
    shown: &Shown<'_>,
    links: &[NumberedLink],
    marks: &mut Vec<Mark>,
) -> Result<(), NoMemory>
    ensures { OnOk result (map mark_view marks.new.items
        ≡ map mark_view marks.old.items
        ++ merge_told element_marks node_marks (flow_view shown.now.flow.now)
        (shapes_view shown.now.shapes.now) links.now []) }
{
    for link in links {
        push_link_marks(alloc, shown, link, &[], marks)?;
    }
    Ok(())
}

/// Pushes the marks of what a feed delivers at a place. Linear in the place; of a whole merge, in its links.
pub(crate) fn push_feed_marks(
    alloc: Global,
    shown: &Shown<'_>,
    feed: &NumberedFeed,
    place: &[u32],
    marks: &mut Vec<Mark>,
) -> Result<(), NoMemory>
    ensures { OnOk result (map mark_view marks.new.items
        ≡ map mark_view marks.old.items
        ++ feed_marks (flow_view shown.now.flow.now) (shapes_view shown.now.shapes.now)
        feed.now place.now) }
{
    match feed {
        NumberedFeed::Link(link) => push_link_marks(alloc, shown, link, place, marks),
        NumberedFeed::Merge(links) => match place {
            [] => push_merged_marks(alloc, shown, links.as_slice(), marks),
            [first, rest @ ..] => match links.as_slice().get(*first as usize) {
                Some(link) => push_link_marks(alloc, shown, link, rest, marks),
                None => Ok(()),
            },
        },
        NumberedFeed::Constant => Ok(()),
    }
}
