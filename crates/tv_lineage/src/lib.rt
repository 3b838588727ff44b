//! Lineage: which elements of the main flow's inputs a value was made from, and what was made from an element.
//!
//! `Records` keeps of each settled job which marks its inputs used. A mark is an element of an input, or the result of a
//! job, which stands for what that job used. A contract sees the records as a list (`records_of` in `specs/Kept.antt`),
//! and each query is a definition over it (`specs/Lineages.antt`). The crate promises that
//!
//! - `backward` gives exactly the elements that some marks lead to, by port and place, each once: a plain relation,
//!   `IsReached`, which knows no order and no condition on what was noted;
//! - `forward` gives exactly the leaves that have such an element at a place, at its beginning or beyond it;
//! - `by_step` gives exactly the main flow's noted jobs of a step, in order of place;
//! - noting and sharing change nothing else, and change nothing where they are refused.
//!
//! So the sequence in which jobs are noted is of no account (`laws`).
//!
//! A list that many jobs bind is kept once: `share` makes one part of the parts of its items, and `note_parts` notes parts.
//! A search looks at each list of parts once, so both queries cost what is kept, and a look-up for each part.
//!
//! - `mark`: marks, parts and leaves
//! - `records`: what is kept, and the calls
//! - `search`: backward, by the groups that were met and those still to be looked at
//! - `table`: forward, by a bit for each group that was made from the element
//! - `steps`: the jobs of a step
//! - `laws`: what holds of the definitions alone
#![tactic(auto)]

pub mod laws;
mod mark;
mod records;
mod search;
mod steps;
mod table;

pub use mark::{Labels, Leaf, Leaves, Mark, Marks, OutPlaces, Part, Parts};
pub use records::Records;
