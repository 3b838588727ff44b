//! The dispatch stack of one job: error bounce, failover over its activities, and retry of each.
//!
//! What a job does is defined over a finished list of all its tries, activity by activity and attempt by attempt, which
//! is folded up to the first outcome that is right or the first flow that is opened (`specs/Jobs.antt`). The code has no
//! such list: `begin` and `after` answer the next try from the numbers of the last one (`specs/Plans.antt`). The crate
//! promises that both ask the same tries and come to the same end, that a job has at most activities times
//! (`retries` + 1) asks, and that `judge` tells exactly whether an outcome is right, with the reason why not.
//!
//! A fold of rounds, each with all activities and retries, would be one level above this one: `taken` folds the tries
//! of one round.
//!
//! - `plan`: what a job does first, and after each outcome
//! - `judgment`: whether an outcome is right
//! - `laws`: what holds of the definitions alone
#![tactic(auto)]

mod judgment;
mod laws;
mod plan;

pub use judgment::{Verdict, judge};
pub use laws::{asks_are_few, asks_in_turn, right_values_are_given, steps_are_the_fold};
pub use plan::{Kind, Kinds, Next, Plan, after, begin};
