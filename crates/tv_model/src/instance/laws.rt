//! What holds of the definitions alone: each law is the clause of a function that does nothing.
ghost use Rattle.tv_model.specs.instance.Stated.{CountersRise, JobsWaitForSourcesAndSteps, ListsAreWholeByCount, LongerPrefixesTurnWhole, OutputsAreWholeWithIteration, PrefixesTurnWhole, StepsEndWhole};

/// When all nodes of a part of an output are known: one tree of counters for a step serves all its outputs.
pub fn wholeness()
    ensures outputs { OutputsAreWholeWithIteration }
    ensures lists { ListsAreWholeByCount }
{}

/// When a step has ended, and when all that a job waits for is known.
pub fn endings()
    ensures steps { StepsEndWhole }
    ensures jobs { JobsWaitForSourcesAndSteps }
{}

/// What one event more makes whole: prefixes of its place, from some length on, and each list's counter rises by one where
/// its item becomes whole.
pub fn one_event_more()
    ensures prefixes { PrefixesTurnWhole }
    ensures longer { LongerPrefixesTurnWhole }
    ensures counters { CountersRise }
{}
