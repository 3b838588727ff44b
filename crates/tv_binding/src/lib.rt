//! What feeds deliver to ports, as found from what is known so far: definitions with laws, and pieces of it.
//!
//! A port binds what its feed delivers at a place: an input of the flow, an output of a step as far as it is known, the list of
//! what several links deliver, or a constant. What is known of an output is a partial tree (`tv_parts`), of which `tv_outputs`
//! has the pieces. What a feed by numbers is found to deliver at a place stands in `specs/Found.antt`.
//!
//! **What it promises.** `feed_piece` gives a sound piece of exactly what is found; `job_inputs` those that the job at a place of
//! a step's iteration binds, and `job_binds` tells without memory whether it binds given values; `flow_outputs` gives those of a
//! flow's outputs (`specs/Jobs.antt`), and `flow_outputs_over` the same before the last event is shown in the trees
//! (`specs/Over.antt`). `Constants` has exactly a flow's constants (`specs/Constants.antt`). `wrap` puts a piece into so many
//! one-item lists, in which it stands at the first places. Want of memory is the one refusal.
//!
//! **What follows** (`specs/Stated.antt`, `specs/Binding.antt`). Where the inputs are known and what is known of each output is
//! so, what a feed is found to deliver at a place is what stands there in the value that it delivers in the end
//! (`specs/Delivered.antt`), and so is what a job binds, and what a flow's outputs are. Of an output it is found exactly where
//! all nodes of what stands there are known, and with the whole of a feed what stands inside is found.
//!
//! - `sources`: what feeds deliver
//! - `constants`: the cells of a flow's constants
//! - `jobs`: what jobs bind, and the outputs of a flow
//! - `over`: the outputs of a flow with its last event
//! - `same`: whether what a job binds is what is given
//! - `values`: what jobs bind, as values
//! - `wrapping`: one-item lists
//! - `laws`: what is found is what is delivered
#![tactic(auto)]

mod constants;
mod jobs;
pub mod laws;
mod over;
mod same;
mod sources;
mod values;
mod wrapping;

pub use constants::Constants;
pub use jobs::{StepPorts, flow_outputs, job_inputs};
pub use over::{Brought, Over, flow_outputs_over};
pub use same::job_binds;
pub use sources::{Sources, feed_piece};
pub use values::job_values;
pub use wrapping::wrap;
