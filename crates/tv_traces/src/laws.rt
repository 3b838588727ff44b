//! Which marks what stands in the main instance of a document used, told by the shape of its iterations alone: definitions and
//! laws; the program runs nothing of them.
//!
//! The values of an instance come and go, but the marks of what stands in them need no values: an element of an input has its
//! own, all that a job made has the job's, a passed fault that of the node where it was met, and constants and the lists of
//! merges and of iterations have none. So lists with their lengths, and passed faults with the leaf that each came from, tell
//! the marks of every node. The laws say so of every accepted document, step after step by rank: with the shapes of the steps
//! before, what a step's jobs and passed faults used is told (`proofs/OfStages.antt`); with what is worked out of it the next step
//! is done (`proofs/OfAdding.antt`); and in the end the records are those of the main flow's settled jobs, and what stands in the
//! outputs used what is told of it (`proofs/OfOutputs.antt`).
//!
//! All of it is told for a test of which nodes are known: all of them once the run is done, and while it goes on those that its events
//! make known (`proofs/OfKnown.antt`). A job's sources have all nodes of what it binds (`proofs/OfSources.antt`), so where they are known
//! what it binds is whole, and the shape of what is known shows it.
//!
//! - `specs/Shapes.antt`: shapes of iterations, and the marks that they tell
//! - `specs/Feeds.antt`, `specs/Walking.antt`: what feeds deliver, and what jobs and faults used, by these
//! - `specs/Tables.antt`, `specs/Standing.antt`, `specs/Staged.antt`: which levels, shapes and records are those of a document's main instance
//! - `specs/Seen.antt`, `specs/KnownInRun.antt`: what is seen of each step, and when that is all that is known of it
//! - `specs/Noted.antt`, `specs/Settled.antt`: which records were noted of a step's jobs, and those of settled jobs
//! - `specs/Grouped.antt`, `specs/OfNodes.antt`: parts that stand for lists, and what is worked out of a node
//! - `specs/Leaves.antt`: the places of leaves
ghost use Rattle.tv_traces.specs.Stated.{MainIsKnown, RecordsAreOfMainJobs, SoFarIsSeen, StagesGoOn, WholeIsSeen};

/// With each step by rank one more is done, and in the end the records are those of the main flow's settled jobs.
pub fn stages()
    ensures next { StagesGoOn }
    ensures records { RecordsAreOfMainJobs }
{}

/// What is told of an instance that has ended, and of one that is open.
pub fn sights()
    ensures whole { WholeIsSeen }
    ensures so_far { SoFarIsSeen }
    ensures known { MainIsKnown }
{}
