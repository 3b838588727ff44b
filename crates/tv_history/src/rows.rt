//! Worked histories, legal ones and some that are not, and whole runs of a plain worker: they compute.
//!
//! The histories stand in `specs/RowsOfHistories.antt`, the runs in `specs/RowsOfRuns.antt`, and the worker, which settles
//! whatever can be settled and else asks, in `specs/Worker.antt`. The documents are those of `tv_model`.
ghost use Rattle.tv_history.specs.RowsOfHistories.{AcceptsOnce, AcceptsWhatIsOut, BouncesJobOnFault, ClosesAfterItsSources, ClosesInnerLists, ClosesKnownList, ClosesOnce, EndsAfterItsJob, EndsAfterItsSteps, EndsInstanceAfterItsJobs, HandsOutAgainAfterRecall, HandsOutOnce, JudgesAsItCame, KeepsLimitOfJobs, OpensInJobOrder, PassesMadeFault, ReadsTotalsOff, RecallsAllThatIsOut, StreamsWhileListIsOpen, TakesFirstJob, TakesItemsAsTheyCome, TakesNoRecalledAnswer, TriesInTurn, WorksOnBothSteps};
ghost use Rattle.tv_history.specs.RowsOfRuns.{KeepsNothingAtEnd, RunsBouncedItem, RunsFailover, RunsGenerated, RunsIdleStepInAnotherOrder, RunsNestedFlow, RunsNestedLists, RunsOneAfterAnother, RunsOneText, RunsPairedFault, RunsPairs, RunsPassedFault, RunsTwoSteps};

/// A try is handed out once, and its own outcome is accepted once.
pub fn tries()
    ensures ends { EndsAfterItsJob }
    ensures totals { ReadsTotalsOff }
    ensures once { AcceptsOnce }
    ensures nothing_out { AcceptsWhatIsOut }
    ensures judged { JudgesAsItCame }
    ensures handed_once { HandsOutOnce }
    ensures in_turn { TriesInTurn }
{}

/// What is out can be recalled, all of it at once.
pub fn recalls()
    ensures again { HandsOutAgainAfterRecall }
    ensures late { TakesNoRecalledAnswer }
    ensures all_out { RecallsAllThatIsOut }
{}

/// Jobs are handed out in job order, within the limit of their step.
pub fn offers()
    ensures streamed { StreamsWhileListIsOpen }
    ensures first { TakesFirstJob }
    ensures limit { KeepsLimitOfJobs }
    ensures both_steps { WorksOnBothSteps }
    ensures as_they_come { TakesItemsAsTheyCome }
{}

/// Lists are closed, faults passed and jobs bounced as soon as what they wait for is known, and once.
pub fn settlements()
    ensures closed { ClosesKnownList }
    ensures inner { ClosesInnerLists }
    ensures sources { ClosesAfterItsSources }
    ensures once { ClosesOnce }
    ensures passed { PassesMadeFault }
    ensures bounced { BouncesJobOnFault }
{}

/// Instances are opened in job order, and end once their steps have ended.
pub fn instances()
    ensures opened { OpensInJobOrder }
    ensures inside { EndsInstanceAfterItsJobs }
    ensures steps { EndsAfterItsSteps }
{}

/// Runs of a plain worker: each is legal and comes to its end, its asks stand in the stated order, and in every state its
/// offers are those of the meaning.
pub fn runs()
    ensures text { RunsOneText }
    ensures nested_lists { RunsNestedLists }
    ensures paired { RunsPairs }
    ensures bounced { RunsBouncedItem }
    ensures passed { RunsPassedFault }
    ensures paired_fault { RunsPairedFault }
    ensures failed_over { RunsFailover }
    ensures two_steps { RunsTwoSteps }
    ensures after { RunsOneAfterAnother }
    ensures nested_flow { RunsNestedFlow }
    ensures generated { RunsGenerated }
    ensures kept { KeepsNothingAtEnd }
    ensures idle { RunsIdleStepInAnotherOrder }
{}
