//! The check's complaints, and its two passes that need no order: names that name nothing, and the values given.
//!
//! `naming_fault` and `given_fault` answer the first complaint of their pass (`specs/Naming.antt`, `specs/Inputs.antt`), or
//! nothing. A fault stands for a complaint of `specs/Faulty.antt` by `specs/FaultViews.antt`. `number_of` looks a name up in
//! a list that is in byte order (`specs/Numbers.antt`). A pass that stops at its first complaint says so by
//! `specs/Told.antt`.
//!
//! - `faults`, `spots`, `at`: complaints and where they were met
//! - `lookup`, `things`: names looked up in lists that are in byte order
//! - `naming` with `links` and `ports`: the pass on names
//! - `given`: the pass on the values given
//! - `graphs` (`specs/graphs/`): numbered graphs: an order, the first cycle, heights
#![tactic(auto)]

mod at;
mod faults;
mod given;
pub mod graphs;
mod links;
mod lookup;
mod naming;
mod ports;
mod spots;
mod things;

pub use at::At;
pub use faults::{CheckFault, CheckKind, CheckRefused, Spot};
pub use given::given_fault;
pub use graphs::{Graph, NoMemory, by_least, first_on_cycle, heights, is_graph};
pub use lookup::number_of;
pub use naming::naming_fault;
