//! Frames beside each other in one pool, and frames below the values of their instances: laws, of which the program runs nothing.
//!
//! The nodes of each frame (`tv_frame`) stand in a region of their own. What is done to the region of one is no matter to the others:
//! each keeps what it kept. So of a run with several open instances each call of one frame is said of that one alone.
//!
//! - `specs/Beside.antt`: a frame whose region is what it was, and which calls leave it so
//! - `specs/Theirs.antt`: whose the regions of a pool are, and after each call
//! - `specs/nodes/`: how many nodes the region of a frame has (`laws::nodes`)
//! - `values` (`specs/values/`): that what a frame knows of the outputs of steps, of ports and of its flow's outputs is so of their values
//! - `laws`: each law as the clause of a function that does nothing
#![tactic(auto)]

pub mod laws;
pub mod values;
