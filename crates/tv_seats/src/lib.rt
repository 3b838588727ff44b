//! The seats of one instance's known jobs: where each stands.
//!
//! Known jobs have numbers, which are given out in order from 0. A contract sees of `Seats` the list of its seats by number, each
//! with the number of its step, its place and its stage, and the rooms (`specs/Seats.antt`). A job of a step that isn't done waits,
//! is out with a try, is idle: it has begun, and waits for its next try, is set aside: it has begun, and a flow comes next, or is
//! nested: the flow that it opened hasn't ended. Idle jobs of a step are handed out in order of place, and so are the flows of those
//! set aside opened.
//!
//! Rooms are taken ahead, and may be refused; then jobs sit down and change their stage without memory. No call but those that
//! speak of all seats walks over them; where a flow opens or ends, the step's open flows are walked over.
//!
//! - `stage`: where a job stands
//! - `table`: the seats by number
//! - `past`: those of an instance that has ended
//! - `steps`: of one step, how many of its jobs run, and which are idle, set aside and nested
//! - `seats`: the calls
#![tactic(auto)]

mod past;
mod seats;
mod stage;
mod steps;
mod table;

pub use past::Past;
pub use seats::Seats;
pub use stage::Stage;
