//! What holds of every legal history: each law is the clause of a function that does nothing.
ghost use Rattle.tv_history.specs.Stated.{OffersAreTheMeanings, IsNeverStuck, DoneIsAsMeant, HistoriesAreBounded, HistoriesGoOn, TriesAreOfTheOrder, TriesOutAreCounted, OneWorkerIsInOrder};

pub mod activities;

/// Where nothing can be settled, an ask is offered exactly where the meaning alone offers it, which knows no list, closing
/// or arrival: a processor's element is on offer as soon as its matched inputs are in.
pub fn offers_are_the_meanings()
    ensures { OffersAreTheMeanings }
{}

/// Where the main instance hasn't ended, nothing is out, nothing can be settled and no flow opened, some ask is offered.
pub fn is_never_stuck()
    ensures { IsNeverStuck }
{}

/// Where the main instance has ended, all jobs are settled, their accepted tries are those of the meaning, and so are the
/// totals.
pub fn done_is_as_meant()
    ensures { DoneIsAsMeant }
{}

/// A history without recalls has at most so many entries, and where the main instance hasn't ended some entry that is no
/// recall is legal next. So whoever appends such entries as long as there are any ends, with the meaning.
pub fn histories_end()
    ensures bounded { HistoriesAreBounded }
    ensures goes_on { HistoriesGoOn }
{}

/// One try more is out once it was handed out, one fewer once its outcome was accepted, and none after a recall, which tells how
/// many were.
pub fn tries_out_are_counted()
    ensures { TriesOutAreCounted }
{}

/// The accepted tries of a finished history are those of the order of one worker, each as often.
pub fn tries_are_of_the_order()
    ensures { TriesAreOfTheOrder }
{}

/// What one worker has asked is at every moment the first part of the stated order, and all of it at the end.
pub fn one_worker_is_in_order()
    ensures { OneWorkerIsInOrder }
{}
