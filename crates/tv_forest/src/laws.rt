//! How the instances of every run go on with each entry: each law is the clause of a function that does nothing.
ghost use Rattle.tv_forest.specs.Entries.{Ending, EndingMain, HandingOutAgain, HandingOutFirst, LevelSettling, NoneOpenAtEnd, OneGoesOn, Opening, Recalling, Settling, Starting, TryingAgain};

pub mod firsts;
pub mod runs;
pub mod seats;
pub mod stands;
pub mod tries;
pub mod views;

/// Before any entry the main instance stands alone.
pub fn instances_start()
    ensures { Starting }
{}

/// With an entry of one instance all others stay as they are.
pub fn one_goes_on()
    ensures { OneGoesOn }
{}

/// With a try that goes out its job's seat is out, and after an outcome settled, or with another try or a flow next; a bounced
/// job's seat is settled.
pub fn entries_of_jobs()
    ensures first { HandingOutFirst }
    ensures again { HandingOutAgain }
    ensures settles { Settling }
    ensures tried { TryingAgain }
{}

/// Lists that close and faults that pass leave the known jobs where they are; a recall puts all back that are out, in every
/// instance.
pub fn entries_of_no_job()
    ensures levels { LevelSettling }
    ensures recalls { Recalling }
{}

/// A job that opens its flow adds an instance, whose end settles it; and when the main instance has ended none is open.
pub fn instances_come_and_go()
    ensures opens { Opening }
    ensures ends { Ending }
    ensures ends_main { EndingMain }
    ensures none_open { NoneOpenAtEnd }
{}
