//! Faults are told truly, in theory: of each value that a job binds, the step's matcher is told whether it holds a fault, and
//! so knows of each job whether it is to be bounced before the values themselves are looked at. Definitions and laws, of
//! which the program runs nothing.
//!
//! - what is told at the start and with each event is true of the values that ports are delivered, whatever isn't told
//!   (`specs/faults/Telling.antt`), where the code's numbers of faults are those of the outputs' partial trees (`specs/faults/Known.antt`);
//! - then what is said of each known job is whether some value that it binds holds a fault.
//!
//! The laws are stated in `specs/faults/Stated.antt`.
ghost use Rattle.tv_framing.specs.faults.Stated.{FaultsAreByNumbers, JobsHoldWhatIsSaid, StartIsTrue, TreesAreByEvents, TreesAreByNumbers, TruthGoesOn, TruthStays, WholePortsAreTrue};

/// What is told of faults is true at the start, and with each event.
pub fn truth()
    ensures start { StartIsTrue }
    ensures event { TruthGoesOn }
    ensures stays { TruthStays }
{}

/// What the code finds of faults and of whole ports is so by events.
pub fn findings()
    ensures ports { WholePortsAreTrue }
    ensures trees { TreesAreByEvents }
    ensures numbers { TreesAreByNumbers }
    ensures faults { FaultsAreByNumbers }
{}

/// What is said of faults in jobs.
pub fn jobs()
    ensures { JobsHoldWhatIsSaid }
{}
