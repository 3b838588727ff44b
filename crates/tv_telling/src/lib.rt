//! What the matchers of a flow's steps are told: of the values that are known from the start, and with each event of a step
//! that feeds them.
//!
//! A `Way` leads from an output of a step to a port that walks some levels of it. What an event tells along a way depends on
//! the event's place alone, on which of its prefixes become whole or hold a fault, and on the value that a job gave
//! (`specs/WayTellings.antt`, `specs/ValueTellings.antt`); nothing is looked up. A contract sees the tellings as `tv_matching`
//! has them, whatever strategy the leaves are of.
//!
//! When an instance opens, inputs of the flow and constants are told down to the levels that their ports walk, and of merges
//! their lists; of outputs of steps nothing is known yet. A contract says it by the numbers of inputs and the leaves of ports
//! (`specs/Openings.antt`).
//!
//! - `opening`: what a port is told when an instance opens
//! - `ways`: ways and events
//! - `telling`: one telling, at the end of a list
//! - `walking`: all that is told of a value
//! - `events`: all that is told with an event
//! - `endings` (`specs/endings/`): which steps of an instance have ended, by counters, and which ports have all that feeds them
#![tactic(auto)]

pub mod endings;
mod events;
mod opening;
mod telling;
mod walking;
mod ways;

pub use endings::{Endings, first_ready, has_whole, is_whole_with};
pub use events::{tell_known, tellings_with};
pub use opening::port_start;
pub use ways::{Event, Happened, Way, Whole};
