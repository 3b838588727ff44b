//! What is known so far of the outputs of an instance's steps.
//!
//! `Outputs` has a partial tree of pieces for each output. The trees stand together in one region of a pool, and the frame gives
//! each step a range of their numbers. A result arrives in each tree of its step at one place, and a list is closed in all of
//! them.
//!
//! **What it promises.** A contract sees for each tree the partial tree of the values that its pieces stand for (`known` in
//! `specs/Known.antt`). `arrive` and `close` change the trees of a range exactly as `arrive` and `close_at` of `tv_parts` do, and
//! no other tree (`specs/Changes.antt`). Neither is ever refused: `reserve` takes the room before. What will be whole by a change,
//! and where faults will stand, can be asked before it. `piece_at` gives the piece of what is found at a place
//! (`specs/FoundIn.antt`), and `stands_at` tells without memory whether that is a value; `piece_with` and `piece_closed` give the
//! piece of a whole tree before the change by which it is whole.
//!
//! **What is kept.** The trees stand on slots of their own, each item is sound, and it is marked exactly where its value holds a
//! fault (`specs/Kept.antt`). So a value is walked for its faults once, when its cell is made; a list of pieces, which has no
//! cell of its own, is asked item by item.
//!
//! - `outputs`: the trees and their calls
//! - `one`: a change of one tree
//! - `pieces`: pieces of one tree
//! - `values`: values of one tree
//! - `same`: whether what is found in one tree is a value
//! - `laws`: a region has a node for each place of its trees at which something is known, and no others but roots
#![tactic(auto)]

pub mod laws;
mod one;
mod outputs;
mod pieces;
mod same;
mod values;

pub use outputs::{Faults, Nodes, Outputs};
