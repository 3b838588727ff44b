//! Legal histories of runs: what a board may hand out, accept, bounce, close, pass, open, end and recall, and when.
//!
//! A history is a list of entries, read with its newest first, that names jobs by their names (`specs/Entries.antt`). The
//! state after it, and which entry is legal next, are read off it and the meaning of the document
//! (`specs/Histories.antt`), so that the definitions hold no state of their own. The laws speak of every document and all
//! services: what is offered is what the meaning offers, a run is never stuck and comes to an end, and where it has ended
//! it is as the meaning says, for one worker in the stated order.
//!
//! Of the activities of steps, and so of the tries of jobs, the form of a document says more: there are some, and eight at the most
//! (`specs/activities/`, `laws::activities`).
//!
//! - `laws`: the laws
//! - `rows`: worked histories and runs
//! - `order`: job order in a run: the walk to the first job that goes on, how many instances may be open, what is on offer
//! - `agreement`: that accepted documents, and what they mean, have the depths that the check's plans state
//!
//! **What a run's callers see of it**: entries of its history, tickets, tasks, and what calls tell.
//!
//! A contract sees a run as its document, the names of the jobs that have numbers, and the entries (`specs/Runs.antt`): the
//! history is legal by the definitions above. What each call of a run does is said by these alone, whatever the run
//! is made of.
//!
//! - `entry`, `ticket`: entries of the history; tickets, tasks and where jobs stand
//! - `told`: what calls tell of a try, and what a run did that went on by itself
//! - `out_laws`: how many tries are out, entry by entry
//! - `specs/Runs.antt`, `specs/RunCodes.antt`: runs, their histories, and what holds of every run
//! - `specs/Calls.antt`: what is settled, handed out and asked
//! - `specs/Settlements.antt`: what is settled next, or that there is nothing of a kind
//! - `specs/Moves.antt`: what a run does that goes on by itself
//! - `specs/Recalls.antt`: tries that are taken back
//! - `specs/Answers.antt`, `specs/Refusals.antt`: what an answer answers, and what becomes of it
//! - `specs/Declarations.antt`, `specs/Counted.antt`: what the document declares for a job; what totals count
#![tactic(auto)]

pub mod agreement;
mod entry;
pub mod laws;
pub mod order;
pub mod out_laws;
pub mod rows;
mod ticket;
mod told;

pub use entry::Entry;
pub use ticket::{JobState, Task, Ticket};
pub use told::{Accepted, Moved, TaskFault, Tested};
