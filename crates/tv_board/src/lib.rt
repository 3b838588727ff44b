//! The board of a run: its history, what may be done next, and what is known so far.
//!
//! A `Board` has a checked document and the list of what was done for it. A contract sees the document, the names of the jobs
//! that have numbers, and the entries (`tv_history`): the history is legal at every moment by the definitions of `tv_history`,
//! and each call appends one entry or none. The board knows only the outcomes that were accepted. What it works out by them is
//! so by the services too.
//!
//! It is a run over frames (`tv_run`) of which a type tells by which services it goes.
//!
//! What a call costs:
//!
//! - `history`, `is_done` are constant, `name_of` linear in the name, `outputs` in the names of outputs and the pieces of lists
//! - `task` shares the cells of what is bound, and copies no value: it is linear in the ports, and in the pieces of lists
//! - `ask` and `ask_alone` go on no board: they make the values of the inputs, make the one call, judge its outcome and put its
//!   values into cells
//! - `hand_out`, `settle_one` and `move_on` walk down to the first job that goes on, by the steps
//!   before it, once each; `settle_one` and `move_on` look at all steps of each instance in which
//!   something happened. All leave out the first steps of an instance that are passed, all jobs of which are out or settled: they are
//!   so from when a job behind them is taken until one of theirs or before them becomes known,
//!   comes back or opens its flow. Then the calls cost what they change; a job that is bounced
//!   costs what it binds too, and an instance that is opened a look at each step of its flow, and
//!   at its constants
//! - `accept` compares the inputs as values, moves the outcome's cells, and costs what it changes: what becomes known with what its
//!   job gives
//! - `ask_and_accept` costs the one call that it makes, what is asked and what changes: it compares
//!   nothing and copies no outcome
//! - `recall_all` is linear in the jobs that are known and in the steps, of the open instances; `totals` is linear in the history
//!
//! - `board`: the type and its calls
//! - `answer`, `refused`: what is asked for a task, and answers that are given back
//! - `traced`: what the jobs of a run that is done used
//! - `naming`: which run a board under a lock is of
//! - `laws`: between how many results and how much room the nodes of a run's pool lie
#![tactic(auto)]

mod answer;
mod board;
pub mod laws;
mod naming;
mod refused;
mod traced;

pub use answer::{Answer, ask, ask_alone};
pub use board::Board;
pub use naming::Naming;
pub use refused::Refused;
pub use traced::Traced;
pub use tv_history::{Accepted, Entry, JobState, Moved, TaskFault, Ticket};
pub use tv_run::{Outputs, Task, output_values, values_of};
