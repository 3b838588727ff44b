//! Whether links lead from something that is there.
ghost use Rattle.std.specs.Prelude.{◌≡◌, true, map};
ghost use Rattle.std.specs.List.{list_all};
ghost use Rattle.tv_flow.specs.Flows.{input, output};
ghost use Rattle.tv_flow.specs.Formed.{is_ascending};
ghost use Rattle.tv_flow.specs.Views.{flow_view, feed_view, link_view};
ghost use Rattle.tv_naming.specs.Naming.{has_name, feed_links, is_there};

use crate::things::thing_of;
use tv_flow::{Feed, Flow, Link};
use tv_value::Name;

/// Whether all links of a feed lead from something that is there. A look-up among the steps for each.
pub(crate) fn is_fed(flow: &Flow, feed: &Feed) -> bool
    requires { is_ascending (map (λ s. s.0) flow.now.steps) ≡ true }
    ensures { result ≡ list_all (is_there (flow_view flow.now)) (feed_links (feed_view feed.now)) }
{
    match feed {
        Feed::Input(name) => has_input(flow, name),
        Feed::Output(step, port) => has_output(flow, step, port),
        Feed::Merge(links) => are_there(flow, links.as_slice()),
        Feed::Constant(_) => true,
    }
}

fn are_there(flow: &Flow, links: &[Link]) -> bool
    requires { is_ascending (map (λ s. s.0) flow.now.steps) ≡ true }
    ensures { result ≡ list_all (λ l. is_there (flow_view flow.now) (link_view l)) links.now }
{
    links.iter().all(|link| is_there(flow, link))
}

fn is_there(flow: &Flow, link: &Link) -> bool
    requires { is_ascending (map (λ s. s.0) flow.now.steps) ≡ true }
    ensures { result ≡ is_there (flow_view flow.now) (link_view link.now) }
{
    match link {
        Link::Input(name) => has_input(flow, name),
        Link::Output(step, port) => has_output(flow, step, port),
    }
}

fn has_input(flow: &Flow, name: &Name) -> bool
    ensures { result ≡ is_there (flow_view flow.now) (input name.now) }
{
    flow.inputs.named(name).is_some()
}

fn has_output(flow: &Flow, step: &Name, port: &Name) -> bool
    requires { is_ascending (map (λ s. s.0) flow.now.steps) ≡ true }
    ensures { result ≡ is_there (flow_view flow.now) (output step.now port.now) }
{
    match thing_of(&flow.steps, step) {
        Some(step) => step.outputs.named(port).is_some(),
        None => false,
    }
}

/// Whether a flow has a step of this name. Logarithmic in the steps.
pub(crate) fn has_step(flow: &Flow, name: &Name) -> bool
    requires { is_ascending (map (λ s. s.0) flow.now.steps) ≡ true }
    ensures { result ≡ has_name (flow_view flow.now).steps name.now }
{
    thing_of(&flow.steps, name).is_some()
}
