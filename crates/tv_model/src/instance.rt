//! One instance of a flow by the results of its jobs: definitions and laws, of which the program runs nothing.
//!
//! At the bottom stand the order of steps by rank (`specs/Ranks.antt`), delivered values, wrapped or to be iterated
//! (`specs/Delivered.antt`), a step's strategy, nodes, outputs and ending (`specs/Steps.antt`), and the depths that feeds
//! deliver by what is declared (`specs/CheckedDepths.antt`). They take the results of an instance's jobs as a function of
//! their names, and the steps so far in whatever form the crate above keeps them.
//!
//! The definitions take what each job of an instance gives as a function of its step and place, and no services: from
//! that come the delivered values, iterations, outputs, jobs and endings of the instance's steps
//! (`specs/ByResults.antt`). What an open instance was told is a list of events (`specs/Events.antt`): a job gave, a list
//! was closed, a fault was passed, a job was taken. From these alone it is told which nodes are known, which parts of an
//! output are whole (`specs/Wholeness.antt`, by counting `specs/Counting.antt`), which steps have ended
//! (`specs/Endings.antt`), which jobs are ready and what can be settled (`specs/Readiness.antt`), and which event may
//! come next (`specs/Fitting.antt`, `specs/Legality.antt`). `specs/OwnDepths.antt` says when results have the declared
//! depths.
//!
//! The laws are stated in `specs/Stated.antt`: an output is whole where the step's iteration is, a list by its counter,
//! and one event more makes whole what stands on the way to it, from below. That the instances of a meaning are such
//! instances is a law of a crate above the meaning.
//!
//! - `laws`: what holds of these definitions
//! - `rows`: worked examples

pub mod laws;
pub mod rows;
