//! Which steps of an instance have ended, which ports have all that feeds them by then, and whose turn it is.
//!
//! A step has ended once all of its iteration is known, which is said here by `set_whole`, and the steps that it runs after
//! have ended (`specs/Ends.antt`). So one step that becomes whole may end others, which ends more. For each step the crate
//! counts the steps that it runs after and that haven't ended; a step that ends lowers the counts of those that run after it,
//! once. What is asked of a step is then told at once, and what one call does is linear in the steps that end by it and those
//! that run after them. All memory is taken at the start.
//!
//! A port that iterates no level takes all that feeds it at once: it has its value as soon as each step that feeds it is
//! whole. Nothing is counted for that. A merge has at most 16 links, and each step becomes whole once, so the links of the
//! ports that it feeds are looked at then (`specs/Feeds.antt`).
//!
//! A job may be taken where the steps that its step runs after have ended. The steps are taken by falling rank, and the first
//! idle job of the first of them that may settle and has one is the first in turn (`specs/Turns.antt`): each step is looked at
//! once, and no job that has gone but those that `tv_idle` still keeps.
//!
//! - `endings`: the counters
//! - `ports`: whether a port has its value with a step
//! - `turn`: the first job in turn
//! - `laws`: where all have ended; that a port has its value once

mod endings;
pub mod laws;
mod ports;
mod turn;

pub use endings::Endings;
pub use ports::{has_whole, is_whole_with};
pub use turn::first_ready;
