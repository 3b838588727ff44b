//! Values of the engine: texts and error documents in nested lists, with the places and names that speak of them.
//!
//! A contract sees a `Value` as a finished tree (`specs/Nested.antt`, `specs/Values.antt`): `view` leads from the one to
//! the other. The crate promises that depths, look-ups and copies are those of the tree, that `value_of` reads a JSON
//! tree as the definition of reading says, its first complaint included, and that work on places of at most 32 indices
//! is never refused.
//!
//! - `order`: orders of texts, places and lists, names of jobs among them
//! - `memory`: the refusal for want of memory
//! - `sequence`, `text`, `copied`: lists and texts as small types, and equal ones of their own
//! - `place`, `job_name`: where a value stands, and which job made it
//! - `value`, `depth`: values, their copies, parts and depths
//! - `same`, `hashing`: whether two values are the same, and what hashers are fed for them
//! - `tree`: iteration strategies as documents state them
//! - `reading`: values from JSON
//! - `laws`: what holds of the definitions alone
#![tactic(auto)]

mod copied;
mod depth;
mod hashing;
mod job_name;
pub mod laws;
mod memory;
mod order;
mod place;
mod reading;
mod same;
mod sequence;
mod text;
mod tree;
mod value;

pub use copied::Copied;
pub use hashing::{hash_value, hash_values};
pub use job_name::{JobName, JobNames};
pub use memory::NoMemory;
pub use place::Place;
pub use reading::{ValueFault, value_of};
pub use same::{same_document, same_lists, same_value};
pub use sequence::Sequence;
pub use text::{Name, Names, Text};
pub use tree::{Tree, Trees};
pub use value::{Depths, ErrorDoc, Items, Value};
