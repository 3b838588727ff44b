//! What holds of the definitions alone: each law is the clause of a function that does nothing.
ghost use Rattle.tv_framing.specs.Stated.{EndedIsTold, EndingIsTold, FeedsAreKnownWhole, FramesArePossible, FramesGoOn, KnownIsBeforeAndGained, KnownItemsAreLegal, KnownValuesAreToldWhole, LegalIsKnownItem, MatchedIsKnown, PartsAreBelow, PortsAreToldWhatTheyGain, PortsGainOnWay, ResultsAreLegal, TakingMakesNoneKnown, UnknownValuesAreNotTold, WholeIsTold, WrappingIsKnown};

pub mod engine;
pub mod faults;
pub mod feeds;
pub mod instances;
pub mod keeping;
pub mod matches;
pub mod starts;
pub mod turns;
pub mod ways;

/// What a port gains with an event: what is known of its walk after it is what was known and what is gained, and of an
/// output of the event's step that stands on the way to the event's node.
pub fn gaining()
    ensures known { KnownIsBeforeAndGained }
    ensures way { PortsGainOnWay }
{}

/// What a port's matcher is told: at the start all of its inputs and constants, and nothing of outputs; with each event
/// what the port gains.
pub fn port_tellings()
    ensures start { KnownValuesAreToldWhole }
    ensures nothing { UnknownValuesAreNotTold }
    ensures event { PortsAreToldWhatTheyGain }
{}

/// When a port that takes its value whole may have it: where the steps that feed it are whole.
pub fn whole_feeds()
    ensures feeds { FeedsAreKnownWhole }
    ensures wrapping { WrappingIsKnown }
{}

/// What is matched from these tellings is what is known of the step's iteration.
pub fn matching()
    ensures { MatchedIsKnown }
{}

/// What was told of an output is below its value.
pub fn parts()
    ensures { PartsAreBelow }
{}

/// An event may come next exactly where a known item of its kind stands, of which nothing was told.
pub fn legal_events()
    ensures known { KnownItemsAreLegal }
    ensures only { LegalIsKnownItem }
{}

/// A frame stays a frame with each legal event, and some results are possible in each.
pub fn frames()
    ensures go_on { FramesGoOn }
    ensures results { ResultsAreLegal }
    ensures taking { TakingMakesNoneKnown }
    ensures possible { FramesArePossible }
{}

/// Which steps are whole and which have ended is told by the events alone, whatever isn't told.
pub fn endings()
    ensures whole { WholeIsTold }
    ensures ended { EndedIsTold }
    ensures all { EndingIsTold }
{}
