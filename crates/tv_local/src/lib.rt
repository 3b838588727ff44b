//! The services that the program brings with it: eighteen on texts, lists and numbers.
//!
//! What each gives is a table (`specs/Table.antt`): its name, what it wants of its inputs, and its own rule. Before the
//! rule come complaints of the inputs, in a stated order (`specs/Reading.antt`). The crate promises that `LocalGate`
//! gives exactly the outcomes of this table, or wants memory, and that it knows exactly the eighteen names. A name that
//! is none of these is refused without text. All services are linear in their inputs and what they give, but `distinct`
//! and `intersect`, which look texts up in an ordered set: for n texts, n log n comparisons.
//!
//! - `gate`: the services as a gate, which chooses among the rules
//! - `row`: the names, and what each service wants
//! - `input`: what is read of inputs, and the complaints
//! - `number`: number texts
//! - `text`, `list`, `arithmetic`: the rules
//! - `answer`: outcomes of one value
//! - `laws`: what holds of the table for all inputs
#![tactic(auto)]

mod answer;
mod arithmetic;
mod gate;
mod input;
pub mod laws;
mod list;
mod number;
mod row;
mod text;

pub use gate::{LocalGate, LocalServices};
