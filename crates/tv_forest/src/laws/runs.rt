//! How the view of a frame goes on in a run, and where it starts: laws, of which the program runs nothing.
//!
//! A frame is told events of one instance, and a run's history has entries of all. Here stands which entry is which event of
//! the view (`laws::views`) and which tells it nothing, as those of other instances (`specs/runs/Elsewhere.antt`). A frame of the main
//! flow that was told nothing yet is the main instance before any entry, and one of the flow that a job opens is the job's
//! instance from its opening on (`specs/runs/Opened.antt`).
//!
//! All laws are stated in `specs/runs/Stated.antt`.
ghost use Rattle.tv_forest.specs.runs.Stated.{AcceptingSettles, BouncingSettles, ClosingGoesOn, ElsewhereTellsNothing, EndingSettles, FirstTryGoesOn, InputsAreInOrder, LaterOpeningTellsNothing, MainEndsElsewhere, MainStarts, NextTryGoesOn, OpenedFit, OpenedStarts, OpenersAreGood, OpeningGoesOn, OtherTriesTellNothing, OthersAreElsewhere, PassingGoesOn, RecallsTellNothing, SettledGoesOn};

/// Lists that are closed, faults that are passed and jobs that are taken are events of the view.
pub fn entries_are_events()
    ensures closing { ClosingGoesOn }
    ensures passing { PassingGoesOn }
    ensures first_try { FirstTryGoesOn }
    ensures opening { OpeningGoesOn }
{}

/// Further tries of a taken job tell the view nothing, nor does the opening of its flow, outcomes with which no job is
/// settled, and recalls.
pub fn entries_tell_nothing()
    ensures next_try { NextTryGoesOn }
    ensures later_opening { LaterOpeningTellsNothing }
    ensures other_tries { OtherTriesTellNothing }
    ensures recalls { RecallsTellNothing }
{}

/// An entry of one instance is elsewhere for the others, and tells their views nothing.
pub fn entries_elsewhere()
    ensures others { OthersAreElsewhere }
    ensures main_end { MainEndsElsewhere }
    ensures nothing { ElsewhereTellsNothing }
{}

/// An entry with which a job is settled is the event that it gave its result; the job's outcome is one, its bouncing, and
/// the end of its flow, which is good.
pub fn settled_jobs_gave()
    ensures settled { SettledGoesOn }
    ensures accepting { AcceptingSettles }
    ensures bouncing { BouncingSettles }
    ensures ending { EndingSettles }
    ensures openers { OpenersAreGood }
{}

/// The view of the main instance before any entry, and what an accepted document gives it.
pub fn main_starts()
    ensures starts { MainStarts }
    ensures inputs { InputsAreInOrder }
{}

/// The view of an instance that a job opened, and that a frame of it can start.
pub fn opened_starts()
    ensures starts { OpenedStarts }
    ensures fit { OpenedFit }
{}
