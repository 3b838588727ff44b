//! Flows that open themselves or nest too deep, steps that come before themselves, and the order of steps by rank.
ghost use Rattle.std.specs.Prelude.{◌≡◌, ◌<◌, position, ◌^◌, true, map, length, nat_lt, option_map, IfOk, None};
ghost use Rattle.std.specs.List.{list_all, range_with_len};
ghost use Rattle.tv_flow.specs.Views.{each, flow_view};
ghost use Rattle.tv_flow.specs.Formed.{is_flow};
ghost use Rattle.tv_flow.specs.DocumentViews.{document_view};
ghost use Rattle.tv_naming.specs.graphs.Graphs.{by_least, first_on_cycle, heights};
ghost use Rattle.tv_check.specs.NamedGraphs.{leads_inside, links_inside};
ghost use Rattle.tv_check.specs.RankNumbers.{numbers_by_rank, ranks_by_number, first_at};
ghost use Rattle.tv_naming.specs.FaultViews.{fault_view};
ghost use Rattle.tv_naming.specs.Faulty.{at_flow, at_step, flow_cycle, link_cycle, plainly, too_deep, with_numbers, first_of};
ghost use Rattle.tv_check.specs.Cycles.{cycle_complaints, flow_link_cycles, link_cycle_complaints, nesting_complaints, nestings, opened_flows};
ghost use Rattle.tv_model.specs.instance.Nesting.{nesting_limit};

use crate::graphs::{flow_graph, step_graph};
use std::alloc::Global;
use tv_flow::{Document, Flow};
use tv_naming::{CheckFault, CheckKind, Graph, Spot};
use tv_value::{Copied, Name, NoMemory};

/// The first flow in byte order that opens itself, by however many flows. Near linear in flows and activities, with a look-up
/// for each activity.
pub(crate) fn flow_cycle_fault(
    alloc: Global,
    document: &Document,
) -> Result<Option<CheckFault>, NoMemory>
    ensures { IfOk result (λ f. option_map fault_view f
        ≡ first_of (cycle_complaints (document_view document.now))) }
{
    let flows = &document.flows;
    let graph = flow_graph(alloc, flows)?;
    match first_on_cycle(alloc, &graph)? {
        Some(flow) => Ok(Some(flow_cycle(alloc, &flows.as_slice()[flow as usize].0)?)),
        None => Ok(None),
    }
}

fn flow_cycle(alloc: Global, flow: &Name) -> Result<CheckFault, NoMemory>
    ensures { IfOk result (λ f. fault_view f ≡ plainly flow_cycle (at_flow flow.now)) }
{
    let flow = flow.copy(alloc)?;
    Ok(CheckFault {
        kind: CheckKind::FlowCycle,
        spot: Spot::Flow { flow },
        first: 0,
        second: 0,
    })
}

/// As that of `tv_naming`.
fn first_on_cycle(alloc: Global, graph: &Graph) -> Result<Option<u32>, NoMemory>
    ensures { IfOk result (λ v. v ≡ first_on_cycle graph.now) }
{
    tv_naming::first_on_cycle(alloc, graph).map_err(|_error| NoMemory)
}

/// The first step in byte order, flow by flow, that comes before itself. Near linear in the steps and links of the flows up
/// to its own, with a look-up for each link.
pub(crate) fn link_cycle_fault(
    alloc: Global,
    document: &Document,
) -> Result<Option<CheckFault>, NoMemory>
    ensures { IfOk result (λ f. option_map fault_view f
        ≡ first_of (link_cycle_complaints (document_view document.now))) }
{
    for flow in document.flows.as_slice() {
        if let Some(fault) = flow_link_cycle(alloc, &flow.0, &flow.1)? {
            return Ok(Some(fault));
        }
    }
    Ok(None)
}

fn flow_link_cycle(alloc: Global, name: &Name, flow: &Flow) -> Result<Option<CheckFault>, NoMemory>
    requires { is_flow (flow_view flow.now) ≡ true }
    ensures { IfOk result (λ f. option_map fault_view f
        ≡ first_of (flow_link_cycles name.now (flow_view flow.now))) }
{
    let steps = &flow.steps;
    let graph = step_graph(alloc, steps)?;
    match first_on_cycle(alloc, &graph)? {
        Some(step) => Ok(Some(link_cycle(alloc, name, &steps.as_slice()[step as usize].0)?)),
        None => Ok(None),
    }
}

fn link_cycle(alloc: Global, flow: &Name, step: &Name) -> Result<CheckFault, NoMemory>
    ensures { IfOk result (λ f. fault_view f ≡ plainly link_cycle (at_step flow.now step.now)) }
{
    let flow = flow.copy(alloc)?;
    let step = step.copy(alloc)?;
    Ok(CheckFault {
        kind: CheckKind::LinkCycle,
        spot: Spot::Step { flow, step },
        first: 0,
        second: 0,
    })
}

/// The steps by rank: the number of each, in the order in which they are taken; those on a cycle, or after one, don't
/// come. Takes a look-up for each link.
pub fn steps_by_rank(alloc: Global, flow: &Flow) -> Result<Vec<u32>, NoMemory>
    requires formed { is_flow (flow_view flow.now) ≡ true }
    requires inside { links_inside (flow_view flow.now) ≡ true }
    ensures order { IfOk result (λ vs. vs.items ≡ numbers_by_rank (flow_view flow.now).steps) }
    ensures below { IfOk result (λ vs. list_all (λ v. nat_lt v (length flow.now.steps)) vs.items
        ≡ true) }
{
    let graph = step_graph(alloc, &flow.steps)?;
    let numbers = by_least(alloc, &graph)?;
    Ok(numbers)
}

/// The rank of each step, from the steps by rank; their number where a step doesn't come. Linear.
pub(crate) fn ranks(alloc: Global, flow: &Flow, by_rank: &[u32]) -> Result<Vec<u32>, NoMemory>
    requires formed { is_flow (flow_view flow.now) ≡ true }
    requires by_rank { by_rank.now ≡ numbers_by_rank (flow_view flow.now).steps }
    ensures { IfOk result (λ rs. rs.items ≡ ranks_by_number (flow_view flow.now).steps) }
{
    places(alloc, by_rank, flow.steps.as_slice().len())
}

/// Where each number below `count` stands first in a list, or the list's length.
fn places(alloc: Global, list: &[u32], count: usize) -> Result<Vec<u32>, NoMemory>
    requires few { length list.now < 2 ^ 32 }
    requires below { list_all (λ v. nat_lt v count) list.now ≡ true }
    ensures { IfOk result (λ ps. ps.items ≡ map (λ v. first_at v list.now)
        (range_with_len 0 count)) }
{
    let mut places = vec![in alloc; list.len() as u32; count]?;
    for place in (0..list.len()).rev() {
        places[list[place] as usize] = place as u32;
    }
    Ok(places)
}

/// As that of `tv_naming`.
fn by_least(alloc: Global, graph: &Graph) -> Result<Vec<u32>, NoMemory>
    ensures { IfOk result (λ vs. vs.items ≡ by_least graph.now) }
{
    tv_naming::by_least(alloc, graph).map_err(|_error| NoMemory)
}

/// The nesting of each flow, where no flow opens itself: 1, or one more than the greatest of the flows that it opens. Takes
/// a look-up for each activity.
pub(crate) fn nestings(alloc: Global, document: &Document) -> Result<Vec<u32>, NoMemory>
    requires free { first_of (cycle_complaints (document_view document.now)) ≡ None }
    requires inside { leads_inside opened_flows (document_view document.now).flows ≡ true }
    ensures { IfOk result (λ ns. ns.items ≡ nestings (document_view document.now)) }
{
    let graph = flow_graph(alloc, &document.flows)?;
    heights(alloc, &graph)
}

/// The first flow in byte order that nests too deep, from the nestings of all.
pub(crate) fn nesting_fault(
    alloc: Global,
    document: &Document,
    levels: &[u32],
) -> Result<Option<CheckFault>, NoMemory>
    requires { levels.now ≡ nestings (document_view document.now) }
    ensures { IfOk result (λ f. option_map fault_view f
        ≡ first_of (nesting_complaints (document_view document.now))) }
{
    match first_too_deep(levels) {
        Some(flow) => {
            let name = &document.flows.as_slice()[flow].0;
            Ok(Some(too_deep(alloc, name, levels[flow])?))
        }
        None => Ok(None),
    }
}

fn first_too_deep(levels: &[u32]) -> Option<usize>
    ensures { result ≡ position (λ n. nat_lt nesting_limit n) levels.now }
{
    levels.iter().position(|nesting| *nesting > NESTING_LIMIT)
}

/// How deep flows may nest, the outermost counted.
const NESTING_LIMIT: u32 = 8;

fn too_deep(alloc: Global, flow: &Name, nesting: u32) -> Result<CheckFault, NoMemory>
    ensures { IfOk result (λ f. fault_view f
        ≡ with_numbers too_deep (at_flow flow.now) nesting nesting_limit) }
{
    let flow = flow.copy(alloc)?;
    Ok(CheckFault {
        kind: CheckKind::TooDeep,
        spot: Spot::Flow { flow },
        first: nesting,
        second: NESTING_LIMIT,
    })
}

/// As that of `tv_naming`.
fn heights(alloc: Global, graph: &Graph) -> Result<Vec<u32>, NoMemory>
    requires { first_on_cycle graph.now ≡ None }
    ensures { IfOk result (λ hs. hs.items ≡ heights graph.now) }
{
    tv_naming::heights(alloc, graph).map_err(|_error| NoMemory)
}
