//! Frames of open instances, in theory: what a frame that is told the events of its instance may say at once. Definitions
//! and laws, of which the program runs nothing.
//!
//! A frame doesn't know the results that are still to come, so all that it says is so for every instance of its flow on
//! its inputs, with all results that have what was told (`specs/Views.antt`, `InAll`). From one event on:
//! - the event makes known the nodes of one place, and each port that the event's step feeds gains some items of its walk
//!   (`specs/Gaining.antt`), which its matcher is told by places alone (`specs/PortTellings.antt`, `specs/Feeding.antt`);
//! - what the matcher has then matched are the jobs, lists and faults whose sources are known;
//! - the step's outputs are partial trees, below what they will be (`specs/Arriving.antt`);
//! - a frame stays a frame (`specs/Frames.antt`): its jobs are those that are known, whatever isn't told;
//! - which steps are whole or have ended is told by the events alone.
//!
//! `specs/Answers.antt` has a word for each thing that the calls of a frame tell, and `specs/Insides.antt` says what a
//! port's values are. The laws are stated in `specs/Stated.antt`. What carries a frame by these definitions stands in folders
//! of `specs/` and `proofs/`, each with a module of `laws` that says what it is about:
//! - `instances`: every instance of a meaning, and of a history, is one by the results of its jobs
//! - `keeping`: what a frame keeps of what it was told, and which event may come next
//! - `ways`: what the code tells ports along ways is what the theory says they are told
//! - `engine`: trees, wires and counters say what the theory says
//! - `starts`: what is told when an instance opens is what is known then
//! - `feeds`: what is told of ports, steps and trees goes on with each event
//! - `matches`: what may be said of what matchers bring: jobs, lists and passed faults
//! - `faults`: matchers are told truly which bound values hold faults
//! - `turns`: the first idle job in turn is the first ready one in job order
//!
//! - `laws`: what holds of these definitions
//! - `rows`: worked examples
#![tactic(auto)]

pub mod laws;
pub mod rows;
