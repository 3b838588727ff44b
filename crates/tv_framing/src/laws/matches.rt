//! What a frame may draw from the outcomes of its matchers, in theory. Definitions and laws, of which the program runs
//! nothing.
//!
//! The matcher of a step was told of each port what is known of its walk, whatever isn't told of the instance. What it
//! brings are then jobs, lists and passed faults by place alone (`specs/matches/Steps.antt`), and from these the frame may say:
//! - which items of the step's iteration are known, and which fault a passed one is (`specs/matches/Items.antt`);
//! - that the next tellings can be told;
//! - which jobs become known with an event, so that it stays a frame (`specs/matches/Jobs.antt`);
//! - which lists and faults can be settled, and which wait after an event (`specs/matches/Waiting.antt`).
//!
//! The laws are stated in `specs/matches/Stated.antt`, and hold for all results that have what was told.
ghost use Rattle.tv_framing.specs.matches.Stated.{AllWaitAtFirst, FlowsStay, FramesStart, GivenGoesOn, JobsBindParts, KnownJobsAreMatched, NewJobsAreBrought, NextCanBeTold, NothingSettlesWhereNothingWaits, OutcomesAreKnown, OutcomesComeInAnyOrder, PartsAreInputs, PassedFaultsStand, StepsAreToldInAnyOrder, TakingLeavesWaiting, WaitingFaultsCanSettle, WaitingGoesOn, WaitingInAnyOrder, WaitingListsCanSettle};

/// What a step's matcher brings are the known items of the step's iteration, and a passed fault is the one at its leaf's
/// part of the place.
pub fn outcomes()
    ensures known { OutcomesAreKnown }
    ensures faults { PassedFaultsStand }
{}

/// A matcher can be told what its ports gain; in which order it was told and brings doesn't matter.
pub fn tellings()
    ensures next { NextCanBeTold }
    ensures order { StepsAreToldInAnyOrder }
    ensures outcomes { OutcomesComeInAnyOrder }
{}

/// The jobs of a frame are those that its matchers bring, at the start and with each event.
pub fn jobs()
    ensures known { KnownJobsAreMatched }
    ensures start { FramesStart }
    ensures new { NewJobsAreBrought }
    ensures given { GivenGoesOn }
    ensures stays { FlowsStay }
{}

/// A job binds of each port what stands in its value at the port's part of the job's place.
pub fn inputs()
    ensures parts { JobsBindParts }
    ensures answers { PartsAreInputs }
{}

/// What can be settled are the lists and passed faults that wait, and nothing else.
pub fn settlements()
    ensures lists { WaitingListsCanSettle }
    ensures faults { WaitingFaultsCanSettle }
    ensures nothing { NothingSettlesWhereNothingWaits }
{}

/// What waits at the start and after each event.
pub fn waiting()
    ensures start { AllWaitAtFirst }
    ensures goes_on { WaitingGoesOn }
    ensures taking { TakingLeavesWaiting }
    ensures order { WaitingInAnyOrder }
{}
