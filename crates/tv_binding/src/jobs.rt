//! Pieces of what jobs bind, and of what a flow's outputs deliver.
ghost use Rattle.std.specs.Prelude.{◌≡◌, ◌+◌, ◌≤◌, ◌<◌, Some, drop, is_some, length, option_map, take, IsTrue, IfOk};
ghost use Rattle.tv_lemmas.specs.Members.{Each};
ghost use Rattle.tv_cell.specs.PieceValues.{piece_value, piece_values};
ghost use Rattle.tv_cell.specs.Soundness.{IsSound, AreSound};
ghost use Rattle.tv_binding.specs.Constants.{constants_view, constant_of_port};
ghost use Rattle.tv_binding.specs.Delivered.{wrapped_value};
ghost use Rattle.tv_binding.specs.Found.{feed_found};
ghost use Rattle.tv_binding.specs.Jobs.{wraps, job_found, outputs_found};
ghost use Rattle.tv_binding.specs.Parts.{IsPartOf};
ghost use Rattle.tv_binding.specs.Sourced.{known_by, Stand, IsCounted};

use crate::constants::Constants;
use crate::sources::{Sources, feed_piece};
use crate::wrapping::wrap;
use std::alloc::Global;
use tv_cell::{Piece, Pieces, Row};
use tv_check::{NumberedFeed, Port};
use tv_flow::StepInput;
use tv_value::{Depths, Name, NoMemory, Tree};

/// What the jobs of a step need of its plan to find what they bind.
#[derive(Clone, Copy)]
pub struct StepPorts<'a> {
    /// The number of the step.
    pub number: usize,
    /// Its strategy, with the default cross written out.
    pub tree: &'a Tree,
    /// The levels that each port iterates, by names.
    pub mismatch: &'a Depths,
    /// The input ports of the step, for the depths that they take.
    pub inputs: &'a [(Name, StepInput)],
    /// The depth that each port is delivered, in the order of `inputs`.
    pub delivered: &'a [(Name, u32)],
    /// The same ports by numbers.
    pub ports: &'a [Port],
}

/// The pieces that the job at a place of a step's iteration binds, in the order of the ports: what each port's feed delivers at
/// the port's part of the place, in as many one-item lists as the port's depth exceeds the delivered one. `starts` has for each
/// leaf of the strategy the index at which its part of the place begins. Linear in the ports, and for each port as `feed_piece`
/// and `wrap`; no value is copied.
pub fn job_inputs(
    alloc: Global,
    sources: &Sources<'_>,
    constants: &Constants,
    step: &StepPorts<'_>,
    starts: &[u32],
    place: &[u32],
) -> Result<Pieces, NoMemory>
    requires stand { Stand sources.now }
    requires parts { Each (IsPartOf step.now place.now starts.now) step.now.ports.now }
    requires inputs { length step.now.inputs.now ≡ length step.now.ports.now }
    requires delivered { length step.now.delivered.now ≡ length step.now.ports.now }
    requires counted { Each (λ p. IsCounted p.feed) step.now.ports.now }
    requires found { IsTrue
        (is_some (job_found (known_by sources.now) (constants_view constants.now) step.now
        place.now)) }
    ensures values { IfOk result (λ ps. job_found (known_by sources.now)
        (constants_view constants.now) step.now place.now ≡ Some (piece_values ps)) }
    ensures sound { IfOk result AreSound }
{
    let mut pieces = Vec::with_capacity(alloc, step.ports.len())?;
    for (number, port) in step.ports.iter().enumerate() {
        let start = starts[port.leaf as usize] as usize;
        let part = part_of(place, start, port.levels as usize);
        pieces.push(port_piece(alloc, sources, constants, step, number, port, part)?)?;
    }
    Ok(Row::of(pieces))
}

/// So many indices of a place from there on.
pub(crate) fn part_of(place: &[u32], start: usize, levels: usize) -> &[u32]
    requires { start + levels ≤ length place.now }
    ensures { result.now ≡ take levels (drop start place.now) }
{
    let rest = &place[start..];
    &rest[..levels]
}

/// The piece that a port binds, where that is its part of the job's place.
pub(crate) fn port_piece(
    alloc: Global,
    sources: &Sources<'_>,
    constants: &Constants,
    step: &StepPorts<'_>,
    number: usize,
    port: &Port,
    part: &[u32],
) -> Result<Piece, NoMemory>
    requires stand { Stand sources.now }
    requires inputs { number < length step.now.inputs.now }
    requires delivered { number < length step.now.delivered.now }
    requires counted { IsCounted port.now.feed }
    requires found { IsTrue (is_some (feed_found (known_by sources.now) port.now.feed
        (constant_of_port (constants_view constants.now) step.now.number number) part.now)) }
    ensures value { IfOk result (λ p.
        option_map (wrapped_value (wraps step.now.inputs.now step.now.delivered.now number))
        (feed_found (known_by sources.now) port.now.feed
        (constant_of_port (constants_view constants.now) step.now.number number) part.now)
        ≡ Some (piece_value p)) }
    ensures sound { IfOk result IsSound }
{
    let constant = constants.of_port(step.number, number);
    let piece = feed_piece(alloc, sources, &port.feed, constant, part)?;
    wrap(alloc, piece, wraps_of(step, number))
}

/// How often the value of a port is wrapped.
pub(crate) fn wraps_of(step: &StepPorts<'_>, number: usize) -> u32
    requires inputs { number < length step.now.inputs.now }
    requires delivered { number < length step.now.delivered.now }
    ensures { result ≡ wraps step.now.inputs.now step.now.delivered.now number }
{
    let taken = step.inputs[number].1.depth;
    taken.saturating_sub(step.delivered[number].1)
}

/// The pieces of what a flow's outputs deliver, in order. For each as `feed_piece`; no value is copied.
pub fn flow_outputs(
    alloc: Global,
    sources: &Sources<'_>,
    constants: &Constants,
    feeds: &[NumberedFeed],
) -> Result<Pieces, NoMemory>
    requires stand { Stand sources.now }
    requires counted { Each IsCounted feeds.now }
    requires found { IsTrue
        (is_some (outputs_found (known_by sources.now) (constants_view constants.now) feeds.now)) }
    ensures values { IfOk result (λ ps. outputs_found (known_by sources.now)
        (constants_view constants.now) feeds.now ≡ Some (piece_values ps)) }
    ensures sound { IfOk result AreSound }
{
    let mut pieces = Vec::with_capacity(alloc, feeds.len())?;
    for (number, feed) in feeds.iter().enumerate() {
        let constant = constants.of_output(number);
        pieces.push(feed_piece(alloc, sources, feed, constant, &[])?)?;
    }
    Ok(Row::of(pieces))
}
