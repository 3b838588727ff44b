//! Whether what a job binds is what is given, told without memory.
ghost use Rattle.std.specs.Prelude.{◌≡◌, ◌↔◌, ◌+◌, ◌<◌, [], Some, get_or, is_some, length, map, option_map, IsTrue, MatchOption};
ghost use Rattle.tv_lemmas.specs.Members.{Each};
ghost use Rattle.tv_value.specs.Readings.{length_limit};
ghost use Rattle.tv_value.specs.Values.{Value as AValue};
ghost use Rattle.tv_value.specs.Views.{view};
ghost use Rattle.tv_binding.specs.Constants.{constants_view, constant_of_port};
ghost use Rattle.tv_binding.specs.Delivered.{wrapped_value};
ghost use Rattle.tv_binding.specs.Found.{link_found, all_found, merge_found, feed_found};
ghost use Rattle.tv_binding.specs.Jobs.{wraps, job_found};
ghost use Rattle.tv_binding.specs.Parts.{IsPartOf};
ghost use Rattle.tv_binding.specs.Sourced.{known_by, Stand, IsCounted};

use crate::constants::Constants;
use crate::jobs::{StepPorts, part_of, wraps_of};
use crate::sources::Sources;
use tv_cell::{Cell, value_is_at};
use tv_check::{NumberedFeed, NumberedLink, Port};
use tv_value::Value;

/// Whether the job at a place of a step's iteration binds these values, in the order of the ports: whether they are those of the
/// pieces that `job_inputs` gives. `starts` has for each leaf of the strategy the index at which its part of the place begins.
/// Takes no memory. Linear in the ports, for each a walk to its part of the place, and in what the values have in common.
pub fn job_binds(
    sources: &Sources<'_>,
    constants: &Constants,
    step: &StepPorts<'_>,
    starts: &[u32],
    place: &[u32],
    values: &[Value],
) -> bool
    requires stand { Stand sources.now }
    requires parts { Each (IsPartOf step.now place.now starts.now) step.now.ports.now }
    requires inputs { length step.now.inputs.now ≡ length step.now.ports.now }
    requires delivered { length step.now.delivered.now ≡ length step.now.ports.now }
    requires counted { Each (λ p. IsCounted p.feed) step.now.ports.now }
    requires found { IsTrue
        (is_some (job_found (known_by sources.now) (constants_view constants.now) step.now
        place.now)) }
    ensures { IsTrue result ↔ (job_found (known_by sources.now) (constants_view constants.now)
        step.now place.now ≡ Some (map view values.now)) }
{
    if values.len() != step.ports.len() {
        return false;
    }
    for (number, port) in step.ports.iter().enumerate() {
        let start = starts[port.leaf as usize] as usize;
        let part = part_of(place, start, port.levels as usize);
        if !port_is(
            sources,
            constants,
            step,
            number,
            port,
            part,
            &values[number],
        ) {
            return false;
        }
    }
    true
}

/// Whether the value is what a port binds, where that is its part of the job's place.
fn port_is(
    sources: &Sources<'_>,
    constants: &Constants,
    step: &StepPorts<'_>,
    number: usize,
    port: &Port,
    part: &[u32],
    value: &Value,
) -> bool
    requires stand { Stand sources.now }
    requires inputs { number < length step.now.inputs.now }
    requires delivered { number < length step.now.delivered.now }
    requires counted { IsCounted port.now.feed }
    requires found { IsTrue (is_some (feed_found (known_by sources.now) port.now.feed
        (constant_of_port (constants_view constants.now) step.now.number number) part.now)) }
    ensures { IsTrue result
        ↔ (option_map (wrapped_value (wraps step.now.inputs.now step.now.delivered.now number))
        (feed_found (known_by sources.now) port.now.feed
        (constant_of_port (constants_view constants.now) step.now.number number) part.now)
        ≡ Some (view value.now)) }
{
    let constant = constants.of_port(step.number, number);
    match unwrapped(value, wraps_of(step, number)) {
        Some(inside) => feed_is(sources, &port.feed, constant, part, inside),
        None => false,
    }
}

/// What stands inside so many one-item lists, where the value is so.
fn unwrapped(value: &Value, times: u32) -> Option<&Value>
    ensures { MatchOption result ((v : AValue) → wrapped_value times v ≡ view value.now → ⊥)
        (λ inside. wrapped_value times (view inside.now) ≡ view value.now) }
{
    if times == 0 {
        return Some(value);
    }
    match value {
        Value::Text(_) => None,
        Value::List(items) => match only_item(items.as_slice()) {
            Some(item) => unwrapped(item, times - 1),
            None => None,
        },
        Value::Fault(_) => None,
    }
}

/// The item of a list that has one.
fn only_item(items: &[Value]) -> Option<&Value>
    ensures { MatchOption result (length items.now ≡ 1 → ⊥) (λ item. (length items.now ≡ 1)
        × (item.now ≡ get_or items.now 0 item.now)) }
{
    if items.len() == 1 {
        Some(&items[0])
    } else {
        None
    }
}

/// Whether the value is what a feed delivers at a place, where that is found. `constant` is the feed's, where it is one. Takes no
/// memory. A walk to the place, or one for each link of a merge, and linear in what the values have in common.
fn feed_is(
    sources: &Sources<'_>,
    feed: &NumberedFeed,
    constant: Option<&Cell>,
    place: &[u32],
    value: &Value,
) -> bool
    requires stand { Stand sources.now }
    requires counted { IsCounted feed.now }
    requires found { IsTrue
        (is_some (feed_found (known_by sources.now) feed.now (option_map (λ c. view c.now) constant)
        place.now)) }
    ensures { IsTrue result
        ↔ (feed_found (known_by sources.now) feed.now (option_map (λ c. view c.now) constant.entry)
        place.now ≡ Some (view value.now)) }
{
    match feed {
        NumberedFeed::Link(link) => link_is(sources, link, place, value),
        NumberedFeed::Merge(links) => merge_is(sources, links.as_slice(), place, value),
        NumberedFeed::Constant => match constant {
            Some(cell) => value_is_at(cell.read(), place, value),
            None => false,
        },
    }
}

/// Whether the value is what a link delivers at a place.
fn link_is(sources: &Sources<'_>, link: &NumberedLink, place: &[u32], value: &Value) -> bool
    requires stand { Stand sources.now }
    requires found { IsTrue (is_some (link_found (known_by sources.now) link.now place.now)) }
    ensures { IsTrue result ↔ (link_found (known_by sources.now) link.now place.now
        ≡ Some (view value.now)) }
{
    match link {
        NumberedLink::Input(number) => {
            sources.inputs[*number as usize].part_stands_for(place, value)
        }
        NumberedLink::Output(step, output) => {
            let number = sources.firsts[*step as usize] + *output as usize;
            sources
                .outputs
                .stands_at(sources.pool, number, place, value)
        }
    }
}

/// Whether the value is what merged links deliver at a place: in one of them, or the list of all.
fn merge_is(sources: &Sources<'_>, links: &[NumberedLink], place: &[u32], value: &Value) -> bool
    requires stand { Stand sources.now }
    requires few { length links.now < length_limit }
    requires found { IsTrue (is_some (merge_found (known_by sources.now) links.now place.now)) }
    ensures { IsTrue result ↔ (merge_found (known_by sources.now) links.now place.now
        ≡ Some (view value.now)) }
{
    if let Some((first, rest)) = place.split_first() {
        return link_is(sources, &links[*first as usize], rest, value);
    }
    match value {
        Value::Text(_) => false,
        Value::List(items) => links_are(sources, links, items.as_slice()),
        Value::Fault(_) => false,
    }
}

/// Whether these values are what links deliver.
fn links_are(sources: &Sources<'_>, links: &[NumberedLink], values: &[Value]) -> bool
    requires stand { Stand sources.now }
    requires found { IsTrue
        (is_some (all_found (map (λ l. link_found (known_by sources.now) l []) links.now))) }
    ensures { IsTrue result
        ↔ (all_found (map (λ l. link_found (known_by sources.now) l []) links.now)
        ≡ Some (map view values.now)) }
{
    if links.len() != values.len() {
        return false;
    }
    for (index, link) in links.iter().enumerate() {
        if !link_is(sources, link, &[], &values[index]) {
            return false;
        }
    }
    true
}
