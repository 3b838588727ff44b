//! What all open instances of a run tell together: which job comes first, and when a flow may be opened.
//!
//! The instances of a run have seats each, and of each the seats tell what is offered and what can be settled
//! (`laws::stands`). Here stands what follows for the run as a whole.
//!
//! - `specs/firsts/FirstWithin.antt`: the first job inside an instance, by its seats and by what is first inside of those
//! - `specs/firsts/Opening.antt`: what is left to settle, when a flow may be opened, and that nothing comes after the end
//! - `specs/firsts/Told.antt`: how many jobs there are, and their names
ghost use Rattle.tv_forest.specs.firsts.FirstWithin.{FirstBySeats, FirstOfAll, GoingByNext};
ghost use Rattle.tv_forest.specs.firsts.Opening.{NothingAtEnd, NothingLeft, OpeningIsLegal, QuietByInstances};
ghost use Rattle.tv_forest.specs.firsts.Told.{AreCounted, CountsBySeats, FlowsByNames, JobsByNumbers, JobsHaveSeats, NamesOfInstances, NamesStay, SeatsHaveJobs};

/// The first job inside an instance is told by its seats and by what is first inside of those whose flow is open, and the first
/// inside the main one is the first of all. Which jobs are offered and which open a flow, is told by their next asks.
pub fn first_within()
    ensures seats { FirstBySeats }
    ensures all { FirstOfAll }
    ensures next { GoingByNext }
{}

/// Where nothing can be settled of each open instance nothing can be in the run, and then the first job that goes on may open its
/// flow where it asks nothing more; where it asks, nothing is left to settle. After the end nothing is legal.
pub fn opening()
    ensures quiet { QuietByInstances }
    ensures legal { OpeningIsLegal }
    ensures left { NothingLeft }
    ensures at_end { NothingAtEnd }
{}

/// Each seat is that of a job, which has no other, and each job that stands anywhere has a seat.
pub fn seats_and_jobs()
    ensures jobs { SeatsHaveJobs }
    ensures seats { JobsHaveSeats }
{}

/// Jobs are counted by the seats of all instances: those that are out, and those that are settled.
pub fn counts_by_seats()
    ensures counts { CountsBySeats }
    ensures counted { AreCounted }
{}

/// The names of the jobs of all seats differ, those of all ready jobs are among them, by its name each job is found, and they stay.
/// The name of an instance leads to its flow.
pub fn names_of_jobs()
    ensures names { NamesOfInstances }
    ensures jobs { JobsByNumbers }
    ensures stay { NamesStay }
    ensures flows { FlowsByNames }
{}
