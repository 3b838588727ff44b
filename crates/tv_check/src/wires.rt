//! Links and names to run after, turned round.
ghost use Rattle.std.specs.Prelude.{◌≡◌, ◌<◌, ◌^◌, ℕ, true, [], ◌∷◌, map, flat_map, length, replicate, Some, None, Option, IfOk, OnOk};
ghost use Rattle.tv_naming.specs.Naming.{numbered};
ghost use Rattle.tv_check.specs.Turned.{with_items, links_of, wire_of, port_wires, step_wires, all_wires, waits_of, all_waits, from_each, has_counted, are_counted};
ghost use Rattle.std.specs.List.{list_all, range_with_len};

use crate::feeds::{NumberedFeed, NumberedLink};
use crate::ports::{Port, Ports};
use crate::rows::Rows;
use std::alloc::Global;
use tv_value::{NoMemory, Sequence};

/// A link from an output of a step into a port of another.
#[derive(Clone, Copy, Debug, PartialEq, Eq)]
pub struct Wire {
    /// The step that it feeds.
    pub step: u32,
    /// The input port of that step.
    pub port: u32,
    /// Its position among the links of a merge, where it is one of them.
    pub link: Option<u32>,
    /// The output that it comes from, of the step that has the wire.
    pub output: u32,
    /// The levels that the port iterates, those of a merge's list counted; where there are none the port takes all that feeds
    /// it at once.
    pub levels: u32,
    /// Which leaf of its step's strategy the port is.
    pub leaf: u32,
}

/// A port of a step, with their numbers.
#[derive(Drop)]
struct PortAt<'a> {
    step: u32,
    number: u32,
    port: &'a Port,
}

fn push_link(
    rows: &mut Rows<Wire>,
    to: &PortAt,
    at: Option<u32>,
    link: NumberedLink,
) -> Result<(), NoMemory>
    ensures { OnOk result (rows.new
        ≡ with_items rows.old (wire_of to.now.step (to.now.number, to.now.port.now) (at, link))) }
{
    match link {
        NumberedLink::Input(_) => Ok(()),
        NumberedLink::Output(step, output) => {
            let wire = Wire {
                step: to.step,
                port: to.number,
                link: at,
                output,
                levels: to.port.levels,
                leaf: to.port.leaf,
            };
            rows.push(step, wire)
        }
    }
}

fn push_links(rows: &mut Rows<Wire>, to: &PortAt, links: &[NumberedLink]) -> Result<(), NoMemory>
    requires { length links.now < 2 ^ 32 }
    ensures { OnOk result (rows.new
        ≡ with_items rows.old (flat_map (λ x. wire_of to.now.step (to.now.number, to.now.port.now)
        (Some x.0, x.1)) (numbered 0 links.now))) }
{
    for (number, link) in links.iter().enumerate() {
        push_link(rows, to, Some(number as u32), *link)?;
    }
    Ok(())
}

fn push_port(rows: &mut Rows<Wire>, to: &PortAt) -> Result<(), NoMemory>
    requires { has_counted to.now.port.now ≡ true }
    ensures { OnOk result (rows.new
        ≡ with_items rows.old (port_wires to.now.step (to.now.number, to.now.port.now))) }
{
    match &to.port.feed {
        NumberedFeed::Link(link) => push_link(rows, to, None, *link),
        NumberedFeed::Merge(links) => push_links(rows, to, links.as_slice()),
        NumberedFeed::Constant => Ok(()),
    }
}

fn push_ports(rows: &mut Rows<Wire>, step: u32, ports: &[Port]) -> Result<(), NoMemory>
    requires { are_counted ports.now ≡ true }
    ensures { OnOk result (rows.new ≡ with_items rows.old (step_wires (step, ports.now))) }
{
    for (number, port) in ports.iter().enumerate() {
        let to = PortAt {
            step,
            number: number as u32,
            port,
        };
        push_port(rows, &to)?;
    }
    Ok(())
}

/// For each step the wires that come from it, from the ports of all steps. Linear in the links and steps.
pub fn wires_of(alloc: Global, ports: &[Ports]) -> Result<Rows<Wire>, NoMemory>
    requires few { length ports.now < 2 ^ 32 }
    requires counted { list_all are_counted ports.now ≡ true }
    ensures { IfOk result (λ r. r ≡ from_each (range_with_len 0 (length ports.now))
        (all_wires ports.now)) }
{
    let mut rows = Rows::new(alloc, ports.len())?;
    for (step, ports) in ports.iter().enumerate() {
        push_ports(&mut rows, step as u32, ports.as_slice())?;
    }
    Ok(rows)
}

fn push_waits(rows: &mut Rows<u32>, step: u32, after: &[u32]) -> Result<(), NoMemory>
    ensures { OnOk result (rows.new ≡ with_items rows.old (waits_of (step, after.now))) }
{
    for earlier in after {
        rows.push(*earlier, step)?;
    }
    Ok(())
}

/// For each step the steps that run after it, from those that each runs after. Linear in them.
pub fn dependents_of(alloc: Global, after: &[Sequence<u32>]) -> Result<Rows<u32>, NoMemory>
    requires { length after.now < 2 ^ 32 }
    ensures { IfOk result (λ r. r ≡ from_each (range_with_len 0 (length after.now))
        (all_waits after.now)) }
{
    let mut rows = Rows::new(alloc, after.len())?;
    for (step, after) in after.iter().enumerate() {
        push_waits(&mut rows, step as u32, after.as_slice())?;
    }
    Ok(rows)
}
