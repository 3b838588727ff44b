//! A run over open instances: one for each flow that is open.
//!
//! An `OpenRun` has a list of the instances that were opened, the main one first. Each that is open is an `Open` (`tv_instances`), which is
//! told each result, closed list and passed fault, knows at once what follows, and has where its jobs stand; of each that has ended the
//! seats are left. All have their nodes in one pool. Beside them stand the jobs of the whole run by number, and the entries of what was
//! done.
//!
//! A job of which a flow is next opens an instance of it, and what that gives at its end is the job's result. An instance that ends
//! gives back its region. A call costs what it reads and changes; nothing is worked out anew. Once the main instance has ended, only
//! what tells of the run may be called. `tv_board` gives it the services of a type.
//!
//! - `plans`: what is looked up of the document
//! - `instances`: an instance that was opened, and a job by its number there
//! - `slots`: where open instances stand, and stood that have ended
//! - `run`: what a run has, how it starts, and the room that a call takes
//! - `jobs`, `tasks`, `task`: where a job stands, what it is called, and what its try asks
//! - `walk`: the walk to the first job of all that goes on
//! - `handing`: handing out, and taking back
//! - `results`: a job given its result, and what follows
//! - `settling`: a job bounced, a list closed or a fault passed
//! - `nesting`: an instance opened or ended; where no flow is next, a try handed out
//! - `accepting`: an outcome accepted
//! - `judging`: an outcome judged, and its values put into cells, with no run at hand
//! - `ended`: what is left of the main instance once it has ended
//! - `outputs`: what a run gives once it is done, and its totals so far
//! - `tracing`: what was made of what in a run that is done, and by the settled jobs of one that goes on
//! - `over`: what holds of every run, and of one that is done
//!
//! **What a job gives** at the outputs of its step, as pieces.
//!
//! The values of a right outcome are put into cells of their own. A job that fails or is bounced gives one error document, which all
//! its outputs share, each with the declared depth of its output. Want of memory is the one refusal.
//!
//! - `values`: what a right outcome gives
//! - `errors`: what a failed or bounced job gives
#![tactic(auto)]

mod accepting;
mod ended;
mod errors;
mod handing;
mod instances;
mod jobs;
mod judging;
mod nesting;
mod outputs;
mod over;
mod plans;
mod results;
mod run;
mod settling;
mod slots;
mod task;
mod tasks;
mod tracing;
mod values;
mod walk;

pub use errors::{bounced_pieces, error_pieces};
pub use judging::{Judgment, judged_in_cells};
pub use outputs::{Outputs, output_values};
pub use run::OpenRun;
pub use task::Task;
pub use values::{value_piece, value_pieces, values_of};
