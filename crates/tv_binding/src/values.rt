//! Values of what jobs bind, each of its own.
ghost use Rattle.std.specs.Prelude.{◌≡◌, ◌<◌, [], Some, is_some, length, option_map, IsTrue, IfOk};
ghost use Rattle.tv_lemmas.specs.Members.{Each};
ghost use Rattle.tv_value.specs.Nested.{at};
ghost use Rattle.tv_value.specs.Views.{values_view, view};
ghost use Rattle.tv_cell.specs.PieceValues.{piece_value};
ghost use Rattle.tv_cell.specs.Soundness.{IsSound};
ghost use Rattle.tv_binding.specs.Constants.{constants_view, constant_of_port};
ghost use Rattle.tv_binding.specs.Delivered.{wrapped_value};
ghost use Rattle.tv_binding.specs.Found.{feed_found, link_found};
ghost use Rattle.tv_binding.specs.Jobs.{job_found, wraps};
ghost use Rattle.tv_binding.specs.Parts.{IsPartOf};
ghost use Rattle.tv_binding.specs.Sourced.{IsCounted, Stand, known_by};

use crate::constants::Constants;
use crate::jobs::{StepPorts, part_of, port_piece, wraps_of};
use crate::sources::{Sources, feed_piece};
use std::alloc::Global;
use tv_cell::{Cell, Path, Piece, assemble};
use tv_check::{NumberedFeed, NumberedLink, Port};
use tv_value::{Copied, Items, NoMemory, Value};

/// The values that the job at a place of a step's iteration binds, in the order of the ports: those
/// of the pieces that `job_inputs` gives. Linear in the ports and in the values, with a walk for each
/// port to its part of the place. They stand in the memory of `room`, which is empty.
pub fn job_values(
    alloc: Global,
    sources: &Sources<'_>,
    constants: &Constants,
    step: &StepPorts<'_>,
    starts: &[u32],
    place: &[u32],
    room: Vec<Value>,
) -> Result<Items, NoMemory>
    requires room { room.items ≡ [] }
    requires stand { Stand sources.now }
    requires parts { Each (IsPartOf step.now place.now starts.now) step.now.ports.now }
    requires inputs { length step.now.inputs.now ≡ length step.now.ports.now }
    requires delivered { length step.now.delivered.now ≡ length step.now.ports.now }
    requires counted { Each (λ p. IsCounted p.feed) step.now.ports.now }
    requires found { IsTrue (is_some (job_found (known_by sources.now)
        (constants_view constants.now) step.now place.now)) }
    ensures { IfOk result (λ vs. job_found (known_by sources.now) (constants_view constants.now)
        step.now place.now ≡ Some (values_view vs)) }
{
    let mut values = room;
    values.reserve(step.ports.len())?;
    for (number, port) in step.ports.iter().enumerate() {
        let start = starts[port.leaf as usize] as usize;
        let part = part_of(place, start, port.levels as usize);
        values.push(port_value(alloc, sources, constants, step, number, port, part)?)?;
    }
    Ok(Items::of(values))
}

/// The value that a port binds, where that is its part of the job's place.
fn port_value(
    alloc: Global,
    sources: &Sources<'_>,
    constants: &Constants,
    step: &StepPorts<'_>,
    number: usize,
    port: &Port,
    part: &[u32],
) -> Result<Value, NoMemory>
    requires stand { Stand sources.now }
    requires inputs { number < length step.now.inputs.now }
    requires delivered { number < length step.now.delivered.now }
    requires counted { IsCounted port.now.feed }
    requires found { IsTrue (is_some (feed_found (known_by sources.now) port.now.feed
        (constant_of_port (constants_view constants.now) step.now.number number) part.now)) }
    ensures { IfOk result (λ x.
        option_map (wrapped_value (wraps step.now.inputs.now step.now.delivered.now number))
        (feed_found (known_by sources.now) port.now.feed
        (constant_of_port (constants_view constants.now) step.now.number number) part.now)
        ≡ Some (view x)) }
{
    if wraps_of(step, number) != 0 {
        let piece = port_piece(alloc, sources, constants, step, number, port, part)?;
        return assemble(alloc, &piece);
    }
    let constant = constants.of_port(step.number, number);
    feed_value(alloc, sources, &port.feed, constant, part)
}

/// The value that a feed delivers at a place, where it is found. `constant` is the feed's, where it
/// is one. Linear in the value; a merge's piece is made first.
fn feed_value(
    alloc: Global,
    sources: &Sources<'_>,
    feed: &NumberedFeed,
    constant: Option<&Cell>,
    place: &[u32],
) -> Result<Value, NoMemory>
    requires stand { Stand sources.now }
    requires counted { IsCounted feed.now }
    requires found { IsTrue (is_some (feed_found (known_by sources.now) feed.now
        (option_map (λ c. view c.now) constant) place.now)) }
    ensures { IfOk result (λ x. feed_found (known_by sources.now) feed.now
        (option_map (λ c. view c.now) constant.entry) place.now ≡ Some (view x)) }
{
    match feed {
        NumberedFeed::Link(link) => link_value(alloc, sources, link, place),
        NumberedFeed::Merge(_) => {
            let piece = feed_piece(alloc, sources, feed, constant, place)?;
            assemble(alloc, &piece)
        }
        NumberedFeed::Constant => match constant {
            Some(cell) => cell_value(alloc, cell, &Path::of(alloc, place)?),
            None => unreachable!(),
        },
    }
}

/// The value that a link delivers at a place.
fn link_value(
    alloc: Global,
    sources: &Sources<'_>,
    link: &NumberedLink,
    place: &[u32],
) -> Result<Value, NoMemory>
    requires stand { Stand sources.now }
    requires found { IsTrue (is_some (link_found (known_by sources.now) link.now place.now)) }
    ensures { IfOk result (λ x. link_found (known_by sources.now) link.now place.now
        ≡ Some (view x)) }
{
    match link {
        NumberedLink::Input(number) => part_value(alloc, &sources.inputs[*number as usize], place),
        NumberedLink::Output(step, output) => {
            let number = sources.firsts[*step as usize] + *output as usize;
            sources.outputs.value_at(alloc, sources.pool, number, place)
        }
    }
}

/// The value of what stands inside a piece, at a place.
fn part_value(alloc: Global, piece: &Piece, place: &[u32]) -> Result<Value, NoMemory>
    requires sound { IsSound piece.now }
    requires found { IsTrue (is_some (at (piece_value piece.now) place.now)) }
    ensures { IfOk result (λ x. at (piece_value piece.now) place.now ≡ Some (view x)) }
{
    match piece {
        Piece::Part(cell, start) => cell_value(alloc, cell, &start.joined(alloc, place)?),
        _ => {
            let part = piece.part(alloc, place)?;
            assemble(alloc, &part)
        }
    }
}

/// A copy of what stands at a place of a cell's value.
fn cell_value(alloc: Global, cell: &Cell, place: &Path) -> Result<Value, NoMemory>
    requires { IsTrue (is_some (at (view cell.now) place.now)) }
    ensures { IfOk result (λ x. at (view cell.now) place.now ≡ Some (view x)) }
{
    match cell.at(place) {
        Some(value) => value.copy(alloc),
        None => unreachable!(),
    }
}
