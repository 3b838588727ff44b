//! What ports are looked up in, and the ports that have their whole values with an event.
ghost use Rattle.std.specs.Prelude.{◌≡◌, ◌++◌, OnOk};
ghost use Rattle.std.specs.List.{list_any};
ghost use Rattle.tv_lemmas.specs.Members.{Each};
ghost use Rattle.tv_pool.specs.declared.handles.Region.{Region as InRegion};
ghost use Rattle.tv_outputs.specs.Kept.{Stand};
ghost use Rattle.tv_spread.specs.Arounds.{IsFed, IsLinked, delivers_fault, input_faulty, output_faulty, wholes_among};
ghost use Rattle.tv_spread.specs.Wholes.{link_faulty};

use tv_check::{NumberedFeed, NumberedLink, Port, Wire, Wiring};
use tv_outputs::{Nodes, Outputs};
use tv_telling::{Endings, Event, Whole, has_whole};
use tv_value::NoMemory;

/// What a step's ports are looked up in.
#[derive(Clone, Copy)]
pub struct Around<'a> {
    pub wiring: &'a Wiring,
    /// For each step the wires from it into ports that walk some levels, as `walked_wires` gives them.
    pub walked: &'a [Vec<Wire>],
    /// Which steps are whole.
    pub endings: &'a Endings,
    /// What is known of all outputs, with the pool in which that stands.
    pub outputs: &'a Outputs,
    pub pool: &'a Nodes,
    /// For each step the number of its first output's tree.
    pub firsts: &'a [usize],
    /// For each input of the flow whether it holds a fault.
    pub faulty_inputs: &'a [bool],
}

/// Whether what a link delivers holds a fault, once the event of a step has happened.
fn is_link_faulty(around: &Around, step: u32, event: &Event, link: &NumberedLink) -> bool
    requires stand { (region : InRegion) × Stand around.now.pool.now around.now.outputs.now region }
    requires linked { IsLinked around.now step event.now link.now }
    ensures { result ≡ link_faulty (input_faulty around.now)
        (output_faulty around.now step event.now) link.now }
{
    match link {
        NumberedLink::Input(input) => around.faulty_inputs[*input as usize],
        NumberedLink::Output(from, output) => {
            if *from == step {
                return 0 < event.faults[*output as usize];
            }
            let number = around.firsts[*from as usize] + *output as usize;
            around.outputs.holds_fault(around.pool, number)
        }
    }
}

fn is_some_faulty(around: &Around, step: u32, event: &Event, links: &[NumberedLink]) -> bool
    requires stand { (region : InRegion) × Stand around.now.pool.now around.now.outputs.now region }
    requires linked { Each (IsLinked around.now step event.now) links.now }
    ensures { result ≡ list_any (link_faulty (input_faulty around.now)
        (output_faulty around.now step event.now)) links.now }
{
    for link in links {
        if is_link_faulty(around, step, event, link) {
            return true;
        }
    }
    false
}

/// Whether what a feed delivers holds a fault, once the event of a step has happened.
fn is_feed_faulty(around: &Around, step: u32, event: &Event, feed: &NumberedFeed) -> bool
    requires stand { (region : InRegion) × Stand around.now.pool.now around.now.outputs.now region }
    requires fed { IsFed around.now step event.now feed.now }
    ensures { result ≡ delivers_fault around.now step event.now feed.now }
{
    match feed {
        NumberedFeed::Link(link) => is_link_faulty(around, step, event, link),
        NumberedFeed::Merge(links) => is_some_faulty(around, step, event, links.as_slice()),
        NumberedFeed::Constant => false,
    }
}

/// Those of the ports that have their whole values with the event of a step, each with whether its value holds a fault.
/// Linear in the ports' links where the event makes its step whole; else no port is looked at.
pub(crate) fn push_wholes(
    around: &Around,
    ports: &[Port],
    step: u32,
    event: &Event,
    whole: &mut Vec<Whole>,
) -> Result<(), NoMemory>
    requires stand { (region : InRegion) × Stand around.now.pool.now around.now.outputs.now region }
    requires fed { Each (λ p. IsFed around.now step event.now p.feed) ports.now }
    ensures { OnOk result (whole.new.items ≡ whole.old.items
        ++ wholes_among around.now step event.now ports.now) }
{
    if event.whole_from != 0 {
        return Ok(());
    }
    for port in ports {
        if has_whole(port, around.endings, step) {
            let faulty = is_feed_faulty(around, step, event, &port.feed);
            let leaf = port.leaf;
            whole.push(Whole { leaf, faulty })?;
        }
    }
    Ok(())
}
