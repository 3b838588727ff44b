//! The seats of the known jobs of an instance: how they go on with each entry of the history, and what is read off them.
//!
//! Each known job of an open instance has a seat (`tv_seats`), which is at the stage where the job stands (`specs/seats/Seated.antt`). An
//! instance that has ended keeps its seats, which are all settled. Nothing here runs.
ghost use Rattle.tv_forest.specs.seats.GoingOn.{ElsewhereStays, EndSettlesJob, EndedStays, EndsSettled, HandedOutAgain, HandedOutFirst, JobSettles, LevelSettles, OpenedAfterTries, OpenedFirst, PutAside, Recalled, SitAtStart, SitWhereOpened, TriedAgain};

/// The known jobs of an instance wait where it starts: those of the main one before any entry, those of another once its flow
/// is opened.
pub fn seats_start()
    ensures main { SitAtStart }
    ensures nested { SitWhereOpened }
{}

/// With a try that goes out its job's seat is out, and after an outcome settled, or idle where another try follows, or aside
/// where a flow does; a bounced job's seat is settled.
pub fn seats_of_jobs()
    ensures first { HandedOutFirst }
    ensures again { HandedOutAgain }
    ensures settles { JobSettles }
    ensures tried { TriedAgain }
    ensures aside { PutAside }
{}

/// With its flow a job's seat holds the number of the instance, and the flow's end settles the job.
pub fn seats_of_openers()
    ensures first { OpenedFirst }
    ensures after_tries { OpenedAfterTries }
    ensures ends { EndSettlesJob }
{}

/// Lists that close and faults that pass leave all seats as they are; a recall puts all back that are out, and at the end
/// all are settled.
pub fn seats_of_runs()
    ensures levels { LevelSettles }
    ensures recalls { Recalled }
    ensures ends { EndsSettled }
{}

/// Entries of other instances leave the seats of an instance as they are, and all entries those of one that has ended.
pub fn seats_stay()
    ensures elsewhere { ElsewhereStays }
    ensures ended { EndedStays }
{}
