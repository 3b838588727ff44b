//! The wires of a step along which an event is told, and those of them that lead into one step.
ghost use Rattle.std.specs.Prelude.{◌≡◌, ◌≤◌, ◌<◌, ◌^◌, ◌++◌, map, filter, drop, take, length, IfOk, OnOk};
ghost use Rattle.tv_lemmas.specs.Members.{Each};
ghost use Rattle.tv_telling.specs.Along.{is_walked, levels_walked, way_of};
ghost use Rattle.tv_spread.specs.Arounds.{IsAround, wires_along};
ghost use Rattle.tv_spread.specs.Runs.{StartsElsewhere};

use crate::around::Around;
use std::alloc::Global;
use tv_check::{Wire, Wiring};
use tv_telling::{Event, Way};
use tv_value::NoMemory;

/// For each step the wires from it into ports that walk some levels, in their order. Linear in all
/// wires and in the steps.
pub fn walked_wires(alloc: Global, wiring: &Wiring) -> Result<Vec<Vec<Wire>>, NoMemory>
    requires few { length wiring.now.wires < 2 ^ 32 }
    ensures { IfOk result (λ rows. map (λ row. row.items) rows.items
        ≡ map (filter is_walked) wiring.now.wires) }
{
    let count = wiring.wires.len();
    let mut rows = Vec::with_capacity(alloc, count)?;
    for step in 0..count {
        rows.push(walked_among(alloc, wiring.wires.row(step as u32))?)?;
    }
    Ok(rows)
}

/// Those of the wires that lead into ports that walk some levels.
fn walked_among(alloc: Global, wires: &[Wire]) -> Result<Vec<Wire>, NoMemory>
    ensures { IfOk result (λ row. row.items ≡ filter is_walked wires.now) }
{
    let mut row = Vec::new(alloc);
    for wire in wires {
        if wire.levels != 0 {
            row.push(*wire)?;
        }
    }
    Ok(row)
}

/// The wires along which an event of a step is told: all from the step where the event makes it
/// whole, else those into ports that walk some levels.
pub(crate) fn wires_along<'a>(around: &Around<'a>, step: u32, event: &Event) -> &'a [Wire]
    requires { IsAround around.now step event.now }
    ensures { result.now ≡ wires_along around.now step event.now }
{
    if event.whole_from == 0 {
        around.wiring.wires.row(step)
    } else {
        around.walked[step as usize].as_slice()
    }
}

/// How many of the wires, from the first on, feed this step.
pub(crate) fn run_length(wires: &[Wire], step: u32) -> usize
    ensures within { result ≤ length wires.now }
    ensures run { Each (λ w. w.step ≡ step) (take result wires.now) }
    ensures rest { StartsElsewhere step (drop result wires.now) }
{
    for (count, wire) in wires.iter().enumerate() {
        if wire.step != step {
            return count;
        }
    }
    wires.len()
}

/// How many levels a port walks of what a link brings.
fn levels_walked(wire: &Wire) -> u32
    ensures { result ≡ levels_walked wire.now.levels wire.now.link }
{
    match wire.link {
        Some(_) => wire.levels.saturating_sub(1),
        None => wire.levels,
    }
}

fn way_of(wire: &Wire) -> Way
    ensures { result ≡ way_of wire.now }
{
    Way {
        leaf: wire.leaf,
        output: wire.output,
        levels: levels_walked(wire),
        item: wire.link,
    }
}

/// The ways along these wires, to ports that walk some levels.
pub(crate) fn push_ways(wires: &[Wire], ways: &mut Vec<Way>) -> Result<(), NoMemory>
    ensures { OnOk result (ways.new.items ≡ ways.old.items
        ++ map way_of (filter is_walked wires.now)) }
{
    for wire in wires {
        if wire.levels != 0 {
            ways.push(way_of(wire))?;
        }
    }
    Ok(())
}
