//! Pieces of what feeds deliver.
ghost use Rattle.std.specs.Prelude.{◌≡◌, ◌<◌, [], Some, is_some, length, map, option_map, IsTrue, IfOk};
ghost use Rattle.tv_value.specs.Nested.{at};
ghost use Rattle.tv_value.specs.Readings.{length_limit};
ghost use Rattle.tv_value.specs.Views.{view};
ghost use Rattle.tv_cell.specs.PieceValues.{piece_value};
ghost use Rattle.tv_cell.specs.Soundness.{IsSound};
ghost use Rattle.tv_binding.specs.Found.{link_found, merge_found, feed_found};
ghost use Rattle.tv_binding.specs.Sourced.{known_by, Stand, IsCounted};

use std::alloc::Global;
use tv_cell::{Cell, Path, Piece, Row};
use tv_check::{NumberedFeed, NumberedLink};
use tv_outputs::{Nodes, Outputs};
use tv_value::NoMemory;

/// Where the feeds of one instance's ports get their values.
#[derive(Clone, Copy)]
pub struct Sources<'a> {
    /// The values of the flow's inputs.
    pub inputs: &'a [Piece],
    /// What is known so far of the steps' outputs.
    pub outputs: &'a Outputs,
    /// The pool in which it stands.
    pub pool: &'a Nodes,
    /// For each step the number of its first output's tree; those of its other outputs follow.
    pub firsts: &'a [usize],
}

/// The piece of what a feed delivers at a place, where it is found. `constant` is the feed's, where it is one. A merge at the
/// empty place is a list of its links' pieces. Linear in the links of a merge, and otherwise as `Outputs::piece_at` and
/// `Piece::part`; no value is copied.
pub fn feed_piece(
    alloc: Global,
    sources: &Sources<'_>,
    feed: &NumberedFeed,
    constant: Option<&Cell>,
    place: &[u32],
) -> Result<Piece, NoMemory>
    requires stand { Stand sources.now }
    requires counted { IsCounted feed.now }
    requires found { IsTrue
        (is_some (feed_found (known_by sources.now) feed.now (option_map (λ c. view c.now) constant)
        place.now)) }
    ensures value { IfOk result (λ p. feed_found (known_by sources.now) feed.now
        (option_map (λ c. view c.now) constant.entry) place.now ≡ Some (piece_value p)) }
    ensures sound { IfOk result IsSound }
{
    match feed {
        NumberedFeed::Link(link) => link_piece(alloc, sources, link, place),
        NumberedFeed::Merge(links) => merge_piece(alloc, sources, links.as_slice(), place),
        NumberedFeed::Constant => match constant {
            Some(cell) => cell_piece(alloc, cell, place),
            None => unreachable!(),
        },
    }
}

/// The piece of what stands at a place of a cell's value.
pub(crate) fn cell_piece(alloc: Global, cell: &Cell, place: &[u32]) -> Result<Piece, NoMemory>
    requires { IsTrue (is_some (at (view cell.now) place.now)) }
    ensures value { IfOk result (λ p. at (view cell.now) place.now ≡ Some (piece_value p)) }
    ensures sound { IfOk result IsSound }
{
    let cell = cell.share()?;
    Ok(Piece::Part(cell, Path::of(alloc, place)?))
}

/// The piece of what a link delivers at a place.
pub(crate) fn link_piece(
    alloc: Global,
    sources: &Sources<'_>,
    link: &NumberedLink,
    place: &[u32],
) -> Result<Piece, NoMemory>
    requires stand { Stand sources.now }
    requires found { IsTrue (is_some (link_found (known_by sources.now) link.now place.now)) }
    ensures value { IfOk result (λ p. link_found (known_by sources.now) link.now place.now
        ≡ Some (piece_value p)) }
    ensures sound { IfOk result IsSound }
{
    match link {
        NumberedLink::Input(number) => sources.inputs[*number as usize].part(alloc, place),
        NumberedLink::Output(step, output) => {
            let number = sources.firsts[*step as usize] + *output as usize;
            sources.outputs.piece_at(alloc, sources.pool, number, place)
        }
    }
}

/// The piece of what merged links deliver at a place: in one of them, or the list of all.
fn merge_piece(
    alloc: Global,
    sources: &Sources<'_>,
    links: &[NumberedLink],
    place: &[u32],
) -> Result<Piece, NoMemory>
    requires stand { Stand sources.now }
    requires few { length links.now < length_limit }
    requires found { IsTrue (is_some (merge_found (known_by sources.now) links.now place.now)) }
    ensures value { IfOk result (λ p. merge_found (known_by sources.now) links.now place.now
        ≡ Some (piece_value p)) }
    ensures sound { IfOk result IsSound }
{
    let Some((first, rest)) = place.split_first() else {
        return merged_piece(alloc, sources, links);
    };
    link_piece(alloc, sources, &links[*first as usize], rest)
}

/// The list of what links deliver.
fn merged_piece(
    alloc: Global,
    sources: &Sources<'_>,
    links: &[NumberedLink],
) -> Result<Piece, NoMemory>
    requires stand { Stand sources.now }
    requires few { length links.now < length_limit }
    requires found { IsTrue (is_some (merge_found (known_by sources.now) links.now [])) }
    ensures value { IfOk result (λ p. merge_found (known_by sources.now) links.now []
        ≡ Some (piece_value p)) }
    ensures sound { IfOk result IsSound }
{
    let mut pieces = Vec::with_capacity(alloc, links.len())?;
    for link in links {
        pieces.push(link_piece(alloc, sources, link, &[])?)?;
    }
    Ok(Piece::List(Row::of(pieces)))
}
