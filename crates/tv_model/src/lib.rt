//! What a document means: its outputs, its jobs, their lineage, their totals, and the order in which one worker asks.
//!
//! The definitions know finished nested lists and plain lists of jobs, and no queue, stream or worker. They are public
//! for the contracts of the crates above; the program runs nothing of them. `specs/Meanings.antt` has the meaning of a
//! flow and of a document, made of one step after another (`specs/Instances.antt`) by the definitions of `specs/instance/`,
//! `tv_strategy` and `tv_dispatch`; beside it stand the order of one worker (`specs/Turns.antt`), the totals, lineage
//! and the result line. `specs/JobOrder.antt` compares two jobs at the first level where their names differ, and
//! `specs/records/` says that the records of a meaning's jobs lead to its lineage (`laws::records`).
//!
//! - `laws`: what holds of these definitions, for every flow and all services
//! - `totals`: totals as the code counts them
//! - `rows`: worked documents, each with what it means
//! - `instance` (`specs/instance/`): what a step is given and makes; one instance of a flow by what its jobs give, and what the events
//!   that it was told make known, whole, ended, ready and legal
#![tactic(auto)]

pub mod instance;
pub mod laws;
pub mod rows;
mod totals;

pub use totals::Totals;
