//! The shape of a step's iteration, and the records of its jobs, worked out from the shapes of the steps that feed it.
ghost use Rattle.std.specs.Prelude.{◌≡◌, ◌+◌, ◌==◌, IfOk, OnOk, Some, drop, find, length, map, option_map, slice_index_or, take};
ghost use Rattle.tv_flow.specs.Views.{flow_view};
ghost use Rattle.tv_lineage.specs.Views.{mark_view, part_view};
ghost use Rattle.tv_traces.specs.Walking.{bound_parts, fault_marks, part_in};
ghost use Rattle.tv_traces.specs.OfNodes.{IsBuilt, IsJobNoted};
ghost use Rattle.tv_frame.specs.Levels.{closed};
ghost use Rattle.tv_traces.specs.Building.{AreGrouped, telling};
ghost use Rattle.tv_traces.specs.Sights.{what_in};
ghost use Rattle.tv_traces.specs.Views.{node_view, shapes_view};

use crate::copies::{item_place, job_name};
use crate::feeds::{Shown, push_feed_parts, push_node_parts};
use crate::node::Node;
use crate::sight::Sight;
use crate::used::push_feed_marks;
use std::alloc::Global;
use tv_cell::Row;
use tv_check::Port;
use tv_frame::What;
use tv_lineage::{Marks, Parts, Records};
use tv_value::{Name, NoMemory, Place, Sequence};

/// A step, and what its jobs are fed with.
#[derive(Clone, Copy)]
pub(crate) struct Walk<'a> {
    /// The flow, and the shapes of the steps before.
    pub(crate) shown: Shown<'a>,
    /// What is known of all steps.
    pub(crate) sight: &'a Sight,
    /// The number of the step, and its name.
    pub(crate) step: u32,
    pub(crate) name: &'a Name,
    pub(crate) ports: &'a [Port],
    /// For each leaf of the strategy where its part of a job's place begins.
    pub(crate) starts: &'a [u32],
}

/// The place from that index on.
fn rest_of(place: &[u32], start: usize) -> &[u32]
    ensures { result.now ≡ drop start place.now }
{
    let start = start.min(place.len());
    &place[start..]
}

/// So many indices of a place, or all where there are fewer.
fn first_of(place: &[u32], count: usize) -> &[u32]
    ensures { result.now ≡ take count place.now }
{
    let count = count.min(place.len());
    &place[..count]
}

/// Where the part of a leaf begins.
fn start_of(starts: &[u32], leaf: u32) -> u32
    ensures { result ≡ slice_index_or starts.now leaf 0 }
{
    match starts.get(leaf as usize) {
        Some(start) => *start,
        None => 0,
    }
}

/// The part of a place that is of a port.
fn part_of<'p>(starts: &[u32], port: &Port, place: &'p [u32]) -> &'p [u32]
    ensures { result.now ≡ part_in starts.now port.now place.now }
{
    let rest = rest_of(place, start_of(starts, port.leaf) as usize);
    first_of(rest, port.levels as usize)
}

/// The parts of all that the job at a place binds.
fn bound_parts(alloc: Global, walk: &Walk<'_>, place: &[u32]) -> Result<Parts, NoMemory>
    ensures { IfOk result (λ ps. map part_view ps
        ≡ bound_parts (flow_view walk.now.shown.flow.now) (shapes_view walk.now.shown.shapes.now)
        walk.now.ports.now walk.now.starts.now place.now) }
{
    let mut parts = Vec::new(alloc);
    for port in walk.ports {
        let part = part_of(walk.starts, port, place);
        push_feed_parts(alloc, &walk.shown, &port.feed, part, &mut parts)?;
    }
    Ok(Sequence::of(parts))
}

/// The port that is the leaf of that number.
fn port_of<'a>(ports: &'a [Port], leaf: u32) -> Option<&'a Port>
    ensures { option_map (λ p. p.now) result ≡ find (λ p. p.leaf == leaf) ports.now }
{
    for port in ports {
        if port.leaf == leaf {
            return Some(port);
        }
    }
    None
}

/// The mark of the fault that a leaf met, if it has one.
fn fault_marks(alloc: Global, walk: &Walk<'_>, leaf: u32, place: &[u32]) -> Result<Marks, NoMemory>
    ensures { IfOk result (λ ms. map mark_view ms
        ≡ fault_marks (flow_view walk.now.shown.flow.now) (shapes_view walk.now.shown.shapes.now)
        walk.now.ports.now walk.now.starts.now leaf place.now) }
{
    let mut marks = Vec::new(alloc);
    if let Some(port) = port_of(walk.ports, leaf) {
        let rest = rest_of(place, start_of(walk.starts, leaf) as usize);
        push_feed_marks(alloc, &walk.shown, &port.feed, rest, &mut marks)?;
    }
    Ok(Sequence::of(marks))
}

/// Notes what the job at a place used, where it is settled, and unless it is noted.
pub(crate) fn note_job(
    alloc: Global,
    walk: &Walk<'_>,
    records: &mut Records,
    place: &[u32],
) -> Result<(), NoMemory>
    requires { AreGrouped records.old.groups walk.now }
    ensures { OnOk result (IsJobNoted (telling walk.now) place.now records.old records.new) }
{
    let is_settled = walk.sight.is_settled(alloc, walk.step, place)?;
    if !is_settled {
        return Ok(());
    }
    let name = job_name(alloc, walk.name, place)?;
    if records.has(&name) {
        return Ok(());
    }
    let parts = bound_parts(alloc, walk, place)?;
    records.note_parts(alloc, name, parts)
}

/// The node at a place above so many levels, and all inside, with the records of the jobs there. Linear in these and in what the
/// jobs bind, with a look-up for each node and job. It goes on inside by itself, level by level: a step with outputs has 32 at the most.
#[cycle(building)]
pub(crate) fn node_below(
    alloc: Global,
    walk: &Walk<'_>,
    records: &mut Records,
    levels: u32,
    place: &Place,
) -> Result<Node, NoMemory>
    requires { AreGrouped records.old.groups walk.now }
    ensures { IfOk result (λ u. IsBuilt (telling walk.now) levels place.now records.old records.new
        (node_view u)) }
{
    if levels == 0 {
        note_job(alloc, walk, records, place.as_slice())?;
        return Ok(Node::Job);
    }
    match walk.sight.seen_at(alloc, walk.step, place.as_slice())? {
        Some(What::Closed(count)) => list_below(alloc, walk, records, levels - 1, place, count),
        Some(What::Passed(leaf)) => {
            Ok(Node::Passed(fault_marks(alloc, walk, leaf, place.as_slice())?))
        }
        None => Ok(Node::Passed(Sequence::empty(alloc))),
    }
}

/// The list of so many items at a place.
#[cycle(building)]
fn list_below(
    alloc: Global,
    walk: &Walk<'_>,
    records: &mut Records,
    levels: u32,
    place: &Place,
    count: u32,
) -> Result<Node, NoMemory>
    requires grouped { AreGrouped records.old.groups walk.now }
    requires told { what_in walk.now.sight.now walk.now.step place.now ≡ Some (closed count) }
    ensures { IfOk result (λ u. IsBuilt (telling walk.now)
        (levels + 1) place.now records.old records.new (node_view u)) }
{
    let mut items = Vec::new(alloc);
    let mut parts = Vec::new(alloc);
    for index in 0..count {
        let inner = item_place(alloc, place.as_slice(), index)?;
        let node = node_below(alloc, walk, records, levels, &inner)?;
        push_node_parts(alloc, walk.name, inner.as_slice(), &node, &mut parts)?;
        items.push(node)?;
    }
    let part = records.share(Sequence::of(parts))?;
    Ok(Node::List(part, Row::of(items)))
}
