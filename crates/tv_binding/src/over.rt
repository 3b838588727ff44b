//! Pieces of a flow's outputs with the last event of an instance, before the trees show it.
ghost use Rattle.std.specs.Prelude.{◌≡◌, ◌<◌, [], Some, is_some, length, option_map, IsTrue, IfOk};
ghost use Rattle.tv_lemmas.specs.Members.{Each};
ghost use Rattle.tv_value.specs.Readings.{length_limit};
ghost use Rattle.tv_value.specs.Views.{view};
ghost use Rattle.tv_cell.specs.PieceValues.{piece_value, piece_values};
ghost use Rattle.tv_cell.specs.Soundness.{IsSound, AreSound};
ghost use Rattle.tv_outputs.specs.FoundIn.{found_in};
ghost use Rattle.tv_binding.specs.Constants.{constants_view};
ghost use Rattle.tv_binding.specs.Found.{link_found, merge_found, feed_found};
ghost use Rattle.tv_binding.specs.Sourced.{known_by, Stand, IsCounted};
ghost use Rattle.tv_binding.specs.Jobs.{outputs_found};
ghost use Rattle.tv_binding.specs.Over.{known_over, tree_with, CanCome};

use crate::constants::Constants;
use crate::sources::{Sources, cell_piece, link_piece};
use std::alloc::Global;
use tv_cell::{Cell, Piece, Pieces, Row};
use tv_check::{NumberedFeed, NumberedLink};
use tv_value::{NoMemory, Place};

/// What an event brings to each output of its step.
#[derive(Clone, Copy)]
pub enum Brought<'a> {
    /// These pieces, one for each output: a job's results, or a fault that was passed.
    Arrived(&'a [Piece]),
    /// The length of the list there.
    Closed(u32),
}

/// An event of an instance that its trees don't show yet.
#[derive(Clone, Copy)]
pub struct Over<'a> {
    /// The number of its step.
    pub step: u32,
    /// How many outputs the step has.
    pub outputs: u32,
    /// The place in the step's iteration.
    pub place: &'a Place,
    pub brought: Brought<'a>,
}

/// The pieces of what a flow's outputs deliver once the event is shown, in order: as `flow_outputs` after it. No tree is
/// changed, and no value is copied. They stand in the memory of `room`, which is empty.
pub fn flow_outputs_over(
    alloc: Global,
    sources: &Sources<'_>,
    constants: &Constants,
    feeds: &[NumberedFeed],
    over: &Over<'_>,
    room: Vec<Piece>,
) -> Result<Pieces, NoMemory>
    requires room { room.items ≡ [] }
    requires stand { Stand sources.now }
    requires over { CanCome sources.now over.now }
    requires counted { Each IsCounted feeds.now }
    requires found { IsTrue (is_some (outputs_found (known_over (known_by sources.now) over.now)
        (constants_view constants.now) feeds.now)) }
    ensures values { IfOk result (λ ps. outputs_found (known_over (known_by sources.now) over.now)
        (constants_view constants.now) feeds.now ≡ Some (piece_values ps)) }
    ensures sound { IfOk result AreSound }
{
    let mut pieces = room;
    pieces.reserve_exact(feeds.len())?;
    for (number, feed) in feeds.iter().enumerate() {
        let constant = constants.of_output(number);
        pieces.push(feed_over(alloc, sources, over, feed, constant)?)?;
    }
    Ok(Row::of(pieces))
}

/// The piece of what a feed delivers once the event is shown.
fn feed_over(
    alloc: Global,
    sources: &Sources<'_>,
    over: &Over<'_>,
    feed: &NumberedFeed,
    constant: Option<&Cell>,
) -> Result<Piece, NoMemory>
    requires stand { Stand sources.now }
    requires over { CanCome sources.now over.now }
    requires counted { IsCounted feed.now }
    requires found { IsTrue (is_some (feed_found (known_over (known_by sources.now) over.now)
        feed.now (option_map (λ c. view c.now) constant) [])) }
    ensures value { IfOk result (λ p. feed_found (known_over (known_by sources.now) over.now)
        feed.now (option_map (λ c. view c.now) constant.entry) [] ≡ Some (piece_value p)) }
    ensures sound { IfOk result IsSound }
{
    match feed {
        NumberedFeed::Link(link) => link_over(alloc, sources, over, link),
        NumberedFeed::Merge(links) => merged_over(alloc, sources, over, links.as_slice()),
        NumberedFeed::Constant => match constant {
            Some(cell) => cell_piece(alloc, cell, &[]),
            None => unreachable!(),
        },
    }
}

/// The piece of what a link delivers once the event is shown.
fn link_over(
    alloc: Global,
    sources: &Sources<'_>,
    over: &Over<'_>,
    link: &NumberedLink,
) -> Result<Piece, NoMemory>
    requires stand { Stand sources.now }
    requires over { CanCome sources.now over.now }
    requires found { IsTrue (is_some (link_found (known_over (known_by sources.now) over.now)
        link.now [])) }
    ensures value { IfOk result (λ p. link_found (known_over (known_by sources.now) over.now)
        link.now [] ≡ Some (piece_value p)) }
    ensures sound { IfOk result IsSound }
{
    match link {
        NumberedLink::Input(_) => link_piece(alloc, sources, link, &[]),
        NumberedLink::Output(step, output) => {
            if *step == over.step && *output < over.outputs {
                output_over(alloc, sources, over, *output)
            } else {
                link_piece(alloc, sources, link, &[])
            }
        }
    }
}

/// The piece of an output of the event's step once it is shown.
fn output_over(
    alloc: Global,
    sources: &Sources<'_>,
    over: &Over<'_>,
    output: u32,
) -> Result<Piece, NoMemory>
    requires stand { Stand sources.now }
    requires over { CanCome sources.now over.now }
    requires there { output < over.now.outputs }
    requires found { IsTrue
        (is_some (found_in [] (tree_with over.now.brought over.now.place.now output
        ((known_by sources.now).outputs over.now.step output)))) }
    ensures value { IfOk result (λ p. found_in [] (tree_with over.now.brought over.now.place.now
        output ((known_by sources.now).outputs over.now.step output)) ≡ Some (piece_value p)) }
    ensures sound { IfOk result IsSound }
{
    let (outputs, pool) = (sources.outputs, sources.pool);
    let number = sources.firsts[over.step as usize] + output as usize;
    match over.brought {
        Brought::Arrived(pieces) => {
            outputs.piece_with(alloc, pool, number, over.place, &pieces[output as usize])
        }
        Brought::Closed(length) => outputs.piece_closed(alloc, pool, number, over.place, length),
    }
}

/// The list of what links deliver once the event is shown.
fn merged_over(
    alloc: Global,
    sources: &Sources<'_>,
    over: &Over<'_>,
    links: &[NumberedLink],
) -> Result<Piece, NoMemory>
    requires stand { Stand sources.now }
    requires over { CanCome sources.now over.now }
    requires few { length links.now < length_limit }
    requires found { IsTrue (is_some (merge_found (known_over (known_by sources.now) over.now)
        links.now [])) }
    ensures value { IfOk result (λ p. merge_found (known_over (known_by sources.now) over.now)
        links.now [] ≡ Some (piece_value p)) }
    ensures sound { IfOk result IsSound }
{
    let mut pieces = Vec::with_capacity(alloc, links.len())?;
    for link in links {
        pieces.push(link_over(alloc, sources, over, link)?)?;
    }
    Ok(Piece::List(Row::of(pieces)))
}
