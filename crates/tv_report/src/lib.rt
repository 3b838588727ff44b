//! The texts that the commands print.
//!
//! Each text is exact, byte by byte, by a definition in `specs/`. All take memory for what they make, and time linear in it.
//!
//! - `forms`, `checks`: the lines of faults of the form and of the check
//! - `results`: the result line of a run
//! - `depths`: the lines of `check`
//! - `traces`: the lines of `trace`
//! - `upgrades`: the line of `upgrade`
#![tactic(auto)]

mod checks;
mod depths;
mod forms;
mod results;
mod traces;
mod upgrades;

pub use checks::check_line;
pub use depths::depth_lines;
pub use forms::form_line;
pub use results::{NamedValues, result_line};
pub use traces::trace_lines;
pub use upgrades::upgraded_line;
