//! Worked examples: the parts of places, and what a matcher brings, sorted. They compute.
//!
//! They stand in `specs/Worked.antt`. A wrong definition gives another value, which the check refuses.
ghost use Rattle.tv_framing.specs.matches.Worked.{FindsParts, SortsOutcomes};

/// Which part of a place belongs to a leaf, and what is a job and what waits.
pub fn worked()
    ensures parts { FindsParts }
    ensures outcomes { SortsOutcomes }
{}
