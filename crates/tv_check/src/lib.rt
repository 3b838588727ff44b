//! The check of documents, and what is worked out for their flows.
//!
//! `check` gives a document with the plans of its flows, or the first complaint that the definition of the check has
//! (`specs/Passes.antt`, pass by pass in `Naming` and `Inputs` of `tv_naming`, and in `Cycles` and `Depthwise`). A `CheckedRun` keeps that its document is accepted and that its plans are those of `specs/Plans.antt`.
//!
//! The passes on names and on the values given stand in `tv_naming`, with the complaints and where they were met; the definitions of delivered values
//! in `tv_model` (`specs/instance/`). Callers name both through this crate:
//! `specs/Lib.antt` passes their definitions on.
//!
//! - `cycles` with `graphs`: flows that nest in themselves or too deep, steps that come before themselves, ranks
//! - `orders`: the steps of each flow by rank
//! - `plans`, `planning`, `accepted`, `run`, `reading`: what is worked out for each step and flow, and what is kept
//! - `checking`: the passes in their order
//! - `laws`: what holds of the definitions alone
//!
//! **Depths**: those that the feeds of a document deliver, and the check's pass on them.
//!
//! `document_measured` goes through the flows by nesting, least first, and through the steps of each by rank. It answers
//! the first complaint of the pass (`specs/Depthwise.antt`), or what was measured of each flow (`specs/Tables.antt`,
//! `specs/Measured.antt`). `feed_depth` and `mismatches` read the depths of a flow that was measured.
//!
//! What depths are, without a check, are definitions of one instance (`tv_model`, `specs/instance/CheckedDepths.antt`).
//!
//! - `measured`: what is kept of each flow
//! - `delivered`: the depths of feeds
//! - `levels`: a step's ports and its strategy
//! - `nested`: the flows that a step opens
//! - `depths`: flow by flow, and in a flow step by step
//!
//! **The wiring of a flow** by numbers: what feeds each port, and which ports each output feeds.
//!
//! A document says of each port what feeds it, by names. An engine that runs it asks the other way round: which ports are told
//! of what a step made, and which steps may go on once it has ended. `wiring_of` answers both by numbers. Steps, ports, inputs and
//! outputs are counted from 0 in byte order of their names, as the flow lists them.
//!
//! What it answers is the `wiring` of `specs/Wirings.antt`: the feeds of the document, each name by its number
//! (`specs/Ports.antt`), and the same links and names to run after turned round, each of them once (`specs/Turned.antt`). It
//! takes a look-up for each link and each name to run after, and no other search.
//!
//! - `feeds`: what feeds a port or an output of the flow, by numbers
//! - `leaves`, `ports`: a step's input ports
//! - `rows`: lists by number
//! - `wires`: the links and the names to run after, turned round
//! - `wiring`: all of a flow
#![tactic(auto)]

mod accepted;
mod checking;
mod cycles;
mod delivered;
mod depths;
mod feeds;
mod graphs;
pub mod laws;
mod leaves;
mod levels;
mod loops;
mod measured;
mod nested;
mod orders;
mod planning;
mod plans;
mod ports;
mod reading;
mod rows;
mod run;
mod wires;
mod wiring;

pub use checking::check;
pub use cycles::steps_by_rank;
pub use delivered::feed_depth;
pub use depths::document_measured;
pub use feeds::{NumberedFeed, NumberedFeeds, NumberedLink, NumberedLinks};
pub use levels::mismatches;
pub use measured::Measured;
pub use plans::{FlowPlan, FlowPlans, StepPlan, StepPlans};
pub use ports::{Port, Ports, PortsBySteps, ports_of};
pub use rows::Rows;
pub use run::CheckedRun;
pub use tv_naming::{CheckFault, CheckKind, CheckRefused, Spot, number_of};
pub use wires::{Wire, dependents_of, wires_of};
pub use wiring::{Numbers, NumbersBySteps, Wiring, wiring_of};
