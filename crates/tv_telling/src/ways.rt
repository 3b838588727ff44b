//! Ways from outputs of steps to ports, and events of steps.

use tv_cell::Piece;

/// How an output of a step reaches a port: the leaf of the port in its step's strategy.
#[derive(Clone, Copy, Debug)]
pub struct Way {
    /// The number of the port's leaf, from left to right.
    pub leaf: u32,
    /// The number of the output among those of its step.
    pub output: u32,
    /// How many levels of the output the port walks: at most 32.
    pub levels: u32,
    /// Its number among the links, where the port merges several.
    pub item: Option<u32>,
}

/// A port that has its whole value now, of which it walks no level.
#[derive(Clone, Copy, Debug)]
pub struct Whole {
    /// The number of the port's leaf.
    pub leaf: u32,
    /// Whether the value holds a fault.
    pub faulty: bool,
}

/// What happened at a place of a step's iteration.
#[derive(Clone, Copy)]
pub enum Happened<'a> {
    /// The job there gave these, one for each output.
    Gave(&'a [Piece]),
    /// The list there has so many items.
    Closed(u32),
    /// The fault there was passed.
    Passed,
}

/// An event of a step.
#[derive(Clone, Copy)]
pub struct Event<'a> {
    /// The place in the step's iteration.
    pub place: &'a [u32],
    /// The length of the shortest prefix of the place at which all becomes known with the event. Where nothing does, more than
    /// the length of the place.
    pub whole_from: usize,
    /// For each output at how many prefixes of the place, from the empty one on, it holds a fault now: at more than the place has
    /// indices where what a job gave holds one.
    pub faults: &'a [usize],
    pub happened: Happened<'a>,
}
