//! Iteration strategies: how the mismatches of a step's ports combine into its jobs.
//!
//! A step whose ports are delivered deeper values than they declare runs once for each binding of its iteration. The
//! definition of this iteration (`specs/Iterations.antt`) takes whole delivered values to a tree of lists whose ends bind
//! one value for each port, or are faults that stand in the place of a list. A cross puts each with each, its first child
//! outermost; a dot puts equal positions together, to the shortest; a prefix node puts each of its left child with all of its right one
//! whose position begins with the left's. Each node lists its sources, the nodes of delivered values that it waits for. An output of the step (`specs/Outputs.antt`) is the same tree, with what each job made at its
//! end.
//!
//! The crate promises that
//! - `depth_of` is the depth of this tree, or tells of the first dot whose children differ, or prefix node whose right child is less
//!   deep than its left one (`specs/Measures.antt`);
//! - `split` gives the places of the ports' values that the job at a place is made of, whatever values of these depths are
//!   delivered, and `join` undoes it: it answers nothing exactly where two children of a dot have different places, or
//!   a prefix node's right place doesn't begin with its left one (`specs/Splits.antt`, `specs/Promises.antt`);
//! - the laws of `specs/Stated.antt` hold for every strategy and all values, and the worked examples of
//!   `specs/Worked.antt` compute.
//!
//! Their conditions stand in `specs/Conditions.antt`. Want of memory is the one refusal of `split` and `join`, and `join` has none
//! where the dots agree and the place has at most 32 indices.
//!
//! - `depth`: the depth of a strategy
//! - `places`: from the place of a job to those of its ports' values, and back
//! - `laws`: what holds of the definitions alone
#![tactic(auto)]

mod depth;
pub mod laws;
mod places;

pub use depth::{DotFault, depth_of};
pub use places::{PortPlaces, join, split};
