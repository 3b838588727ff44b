//! What feeds a port or an output of a flow, by numbers.
ghost use Rattle.std.specs.Prelude.{◌≡◌, ◌<◌, ◌^◌, true, map, length, IfOk};
ghost use Rattle.tv_flow.specs.Formed.{is_ascending, is_flow};
ghost use Rattle.tv_flow.specs.Flows.{output};
ghost use Rattle.tv_flow.specs.Views.{each, flow_view, feed_view, link_view};
ghost use Rattle.tv_naming.specs.Numbers.{position};
ghost use Rattle.tv_check.specs.Feeds.{link_numbered, feed_numbered};

use std::alloc::Global;
use tv_flow::{Feed, Flow, FlowOutputs, Link, Links, Steps};
use tv_naming::number_of;
use tv_value::{Name, NoMemory, Sequence};

/// Where a value comes from.
#[derive(Clone, Copy, Debug, PartialEq, Eq)]
pub enum NumberedLink {
    /// An input of the flow.
    Input(u32),
    /// An output of a step: the step, then its output.
    Output(u32, u32),
}

/// Links in the order in which they are merged.
pub type NumberedLinks = Sequence<NumberedLink>;

/// What a port or an output of the flow is fed with.
#[derive(Debug, Drop)]
pub enum NumberedFeed {
    /// One link.
    Link(NumberedLink),
    /// Links whose values make a list.
    Merge(NumberedLinks),
    /// A value, which stands in the flow.
    Constant,
}

/// Feeds, in order.
pub type NumberedFeeds = Sequence<NumberedFeed>;

/// The position of a name in a list, or the list's length where it isn't there. Linear in the list.
fn position_in<T>(entries: &[(Name, T)], name: &Name) -> u32
    requires { length entries.now < 2 ^ 32 }
    ensures { result ≡ position name.now entries.now }
{
    for (number, entry) in entries.iter().enumerate() {
        if name.as_str() == entry.0.as_str() {
            return number as u32;
        }
    }
    entries.len() as u32
}

/// The number of a step by its name, or that of the steps where it isn't there. By binary search.
pub(crate) fn step_number(steps: &Steps, name: &Name) -> u32
    requires in_order { is_ascending (map (λ s. s.0) steps.now) ≡ true }
    requires few { length steps.now < 2 ^ 32 }
    ensures { result ≡ position name.now steps.now }
{
    match number_of(steps, name) {
        Some(number) => number as u32,
        None => steps.as_slice().len() as u32,
    }
}

fn input_numbered(flow: &Flow, input: &Name) -> NumberedLink
    requires { is_flow (flow_view flow.now) ≡ true }
    ensures { result ≡ link_numbered (flow_view flow.now) (Rattle.tv_flow.specs.Flows.input
        input.now) }
{
    NumberedLink::Input(position_in(flow.inputs.as_slice(), input))
}

fn output_numbered(flow: &Flow, step: &Name, port: &Name) -> NumberedLink
    requires { is_flow (flow_view flow.now) ≡ true }
    ensures { result ≡ link_numbered (flow_view flow.now) (output step.now port.now) }
{
    match number_of(&flow.steps, step) {
        Some(number) => {
            let outputs = flow.steps.as_slice()[number].1.outputs.as_slice();
            NumberedLink::Output(number as u32, position_in(outputs, port))
        }
        None => NumberedLink::Output(flow.steps.as_slice().len() as u32, 0),
    }
}

fn link_numbered(flow: &Flow, link: &Link) -> NumberedLink
    requires { is_flow (flow_view flow.now) ≡ true }
    ensures { result ≡ link_numbered (flow_view flow.now) (link_view link.now) }
{
    match link {
        Link::Input(input) => input_numbered(flow, input),
        Link::Output(step, port) => output_numbered(flow, step, port),
    }
}

fn links_numbered(alloc: Global, flow: &Flow, links: &Links) -> Result<NumberedLinks, NoMemory>
    requires { is_flow (flow_view flow.now) ≡ true }
    ensures { IfOk result (λ ls. ls ≡ map (link_numbered (flow_view flow.now))
        (map link_view links.now)) }
{
    let mut numbered = Vec::with_capacity(alloc, links.as_slice().len())?;
    for link in links.as_slice() {
        numbered.push(link_numbered(flow, link))?;
    }
    Ok(Sequence::of(numbered))
}

/// A feed by numbers. Takes a look-up for each link.
pub(crate) fn feed_numbered(
    alloc: Global,
    flow: &Flow,
    feed: &Feed,
) -> Result<NumberedFeed, NoMemory>
    requires { is_flow (flow_view flow.now) ≡ true }
    ensures { IfOk result (λ f. f ≡ feed_numbered (flow_view flow.now) (feed_view feed.now)) }
{
    match feed {
        Feed::Input(input) => Ok(NumberedFeed::Link(input_numbered(flow, input))),
        Feed::Output(step, port) => Ok(NumberedFeed::Link(output_numbered(flow, step, port))),
        Feed::Merge(links) => Ok(NumberedFeed::Merge(links_numbered(alloc, flow, links)?)),
        Feed::Constant(_) => Ok(NumberedFeed::Constant),
    }
}

/// What feeds each output of a flow. Takes a look-up for each link.
pub(crate) fn outputs_numbered(
    alloc: Global,
    flow: &Flow,
    outputs: &FlowOutputs,
) -> Result<NumberedFeeds, NoMemory>
    requires { is_flow (flow_view flow.now) ≡ true }
    ensures { IfOk result (λ fs. fs ≡ map (λ o. feed_numbered (flow_view flow.now) o.1)
        (each feed_view outputs.now)) }
{
    let mut feeds = Vec::with_capacity(alloc, outputs.as_slice().len())?;
    for (_, feed) in outputs.as_slice() {
        feeds.push(feed_numbered(alloc, flow, feed)?)?;
    }
    Ok(Sequence::of(feeds))
}
