//! Matching: which jobs, lists and passed faults of a step follow from what its ports were told so far.
//!
//! A step that iterates waits for its ports. Of each port it is told bound values, faults above them, and the lengths of the
//! lists on the way, in any order. What follows is a list of items, each with its place: a job with what it binds, a list
//! with its length, or a passed fault (`specs/Items.antt`). A leaf has the items that it was told, a cross replaces each job
//! of its first child by what the others have, and a dot joins its children's items by their places (`specs/Matched.antt`).
//!
//! This crate has the definitions and their laws, and no code that runs. It promises that
//! - where of each leaf was told what is known of its walk, for any set of known nodes, what is matched is what is known of the
//!   iteration of `tv_strategy`: all of it, nothing else, and each place once (`specs/Stated.antt`);
//! - so it is, for all delivered values of which what was told is true, with the nodes that were told (`specs/Told.antt`);
//! - further tellings add what is gained, as many items as that, in whatever order (`specs/Tellings.antt`);
//! - a matcher that keeps, of each cross, the jobs of the first child and all that the second has, and of each dot what both
//!   have, gains and keeps the right items with each telling (`specs/Stores.antt`);
//! - what a contract sees of a matcher (`specs/Matchers.antt`) stays true over its calls, and what has come out with what is
//!   still to come is what is known of the iteration;
//! - the worked examples of `specs/Worked.antt` compute.
//!
//! In `proofs/`, for crates above: `OfLaws` (the laws by name), `OfStores` (stores, crosses nested either way), `Lookups`
//! (equal places, either way round), `Prefixed` (the join by the first part of a place), `OfMatchers` and `Bared`
//! (matching without bindings), `Permutes` and `Lists`.
#![tactic(auto)]

pub mod laws;
