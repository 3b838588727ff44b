//! Worked examples: two events of an instance of two steps. They compute.
//!
//! They stand in `specs/Worked.antt`. A wrong definition gives another value, which the check refuses.
ghost use Rattle.tv_framing.specs.feeds.Worked.{ShowsFirstEvent, ShowsLastEvent};

/// What an event brings to steps and ports.
pub fn worked()
    ensures first { ShowsFirstEvent }
    ensures last { ShowsLastEvent }
{}
