//! One open instance of a flow: it is told what its jobs give, and knows at once what follows.
//!
//! A frame is told the events of its instance: a job's result, a list closed, a fault passed. Each
//! becomes tellings of the ports that it feeds, and the matchers of these steps bring new jobs, lists
//! and faults. Nothing is worked out anew: an event costs the wires from its step into ports that walk
//! some levels, its tellings and what comes out of them, with a logarithm. The one that makes its step
//! whole costs all wires from the step, and the links of the ports of the steps that they feed; the one
//! that ends the instance, the pieces of the flow's outputs. A result is asked for faults.
//!
//! An event comes in two halves. `room_for_result` and `room_for_settle` take all memory that it needs, and tell how many
//! jobs it will make known; they may be refused, and then nothing has changed but rooms. `result` and `settle` take no memory.
//!
//! A frame that has ended can start anew, for whatever flow: it keeps the memory of its lists.
//!
//! - `tables`: what the frames of a flow look up of it, made once and shared
//! - `frame`: the frame, its start and its end
//! - `starting`: what the steps are told at the start
//! - `rooms`, `events`: both halves of an event
//! - `outs`: the flow's outputs as they will be once an event has happened
//! - `levels`: the list or passed fault that is settled next, as it is kept
//! - `jobs`: known jobs, which are ready, and what they bind
//!
//! **Where each leaf of a strategy begins** in the places of its jobs (`starts`).
//!
//! The place of a job has the indices of its leaves' values in it: those of a leaf stand together, as many as it walks
//! levels, from some index on, which the strategy alone tells (`specs/Starts.antt`). So the part of a place that is of a leaf is
//! a piece of it, and nothing has to be looked up by names for each job. A fault that is passed on stands in the value of its
//! leaf at what is left of its place from there (`laws`, stated in `specs/Stated.antt`).
//!
//! - `starts`: the index for each leaf
//! - `laws`: what stands from there
//!
//! **What is kept of the lists and passed faults** of an instance (`level`): of each list its place and length,
//! and of each passed fault its place and the leaf of the step's strategy that it came from. With
//! the jobs this is the shape of all iterations of the instance: it tells what every value of the
//! instance was made of, once the values themselves are gone.
//!
//! - `level`: a list or a passed fault
//! - `specs/Levels.antt`: when such a list tells of an instance; `specs/MainSteps.antt`: the steps of the main one
//! - `specs/Views.antt`: what a contract sees
#![tactic(auto)]

mod events;
mod frame;
mod jobs;
pub mod laws;
mod level;
mod levels;
mod outs;
mod rooms;
mod starting;
mod starts;
mod tables;

pub use events::Settled;
pub use frame::Frame;
pub use jobs::FrameJob;
pub use level::{Level, What};
pub use starts::leaf_starts;
pub use tables::FlowTables;
