//! Worked examples: the events of an instance of two steps as partial trees, tellings and jobs. They compute.
//!
//! They stand in `specs/Worked.antt`. A wrong definition gives another value, which the check refuses.
ghost use Rattle.tv_framing.specs.Worked.{MakesJobsKnown, ShowsParts, TellsPorts};

pub mod feeds;
pub mod matches;
pub mod starts;

/// What events tell of an output, of ports and of jobs.
pub fn worked()
    ensures parts { ShowsParts }
    ensures ports { TellsPorts }
    ensures jobs { MakesJobsKnown }
{}
