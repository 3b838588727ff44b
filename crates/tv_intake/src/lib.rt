//! The input side of an instance's steps: one matcher for each step, and what they have matched so far, sorted into known jobs,
//! which are numbered in the order in which they become known, and lists and passed faults that wait to be settled.
//!
//! A step is told in two halves, but for what `add_bound` tells it at once. `hold` has its matcher work the tellings ahead, and `make_room` takes all the room that
//! showing what several steps hold will need, and tells how many jobs that makes known; either may be refused, and what
//! follows of the tellings that were made stays as it is. `show` then makes the held tellings of a step and takes no memory.
//!
//! No place is copied: a job is its step and its position among what follows there (`specs/Sorting.antt`), which its matcher
//! lends. `specs/Intaken.antt` says what is so of all of them, and what each call changes.
//!
//! - `boxed`: a matcher that is moved in one word
//! - `found`: where a job, list or fault stands
//! - `sorting`: what is new of a matcher, sorted
//! - `intakes`: the calls
#![tactic(auto)]

mod boxed;
mod found;
mod intakes;
mod sorting;

pub use found::Found;
pub use intakes::Intakes;
