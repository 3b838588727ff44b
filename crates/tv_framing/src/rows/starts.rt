//! Worked examples: what a port is told at the start. They compute.
//!
//! They stand in `specs/Worked.antt`. A wrong definition gives another value, which the check refuses.
ghost use Rattle.tv_framing.specs.starts.Worked.{TellsFeeds};

/// What a port is told of its feed.
pub fn worked()
    ensures { TellsFeeds }
{}
