//! Who works off a board.
//!
//! One worker alone always returns, and asks in the order of one worker. Many workers share a board under a lock: what each
//! does to it there is `turn` and `take`, whose clauses say all that they change, and nothing but the type of what is locked
//! goes from one to the other. Its board is of the run with which they began and has a legal history that goes on from that
//! one, with as many outcomes accepted since as its ledger counts; when all have ended their shares sum to that number. So no
//! outcome is lost or put back, and as the board is done in the end, the outputs and totals are those of one worker, whatever
//! they did at once. That a worker gets on is promised of one alone.
//!
//! - `alone`: one worker, who asks for one try after another: once for each that is accepted
//! - `whole_run`: a board started and worked off, and its outputs and totals: it asks in the order of one worker
//! - `locked`: a board under a lock, and what each of many workers does to it there
//! - `workers`: many workers, and a whole run by them
//! - `laws`: that any calls of a board are legal, that it is never stuck, why working it off comes to an end, and that one worker opens
//!   one chain of instances
#![tactic(auto)]

mod alone;
pub mod laws;
mod locked;
mod whole_run;
mod workers;

pub use alone::run_alone;
pub use locked::{Locked, Share};
pub use tv_board::Board;
pub use whole_run::{run_board, run_whole};
pub use workers::{run_whole_with_workers, run_with_workers};
