//! What was made of what: in a run that is done, and of the settled jobs in one that goes on.
//!
//! After a run nothing is left of the values that went through it, but of the main instance the lists and passed faults of its
//! steps' iterations are kept (`tv_frame`): the length of each list, and of each fault the leaf of the strategy that it came
//! from. With the plan of the flow these tell the shape of every iteration, so which jobs there were and what each of them bound.
//! From that `Traces` works out the records of all jobs of the main flow, and answers for what stands in the outputs which
//! marks it used. No value is looked at but those of the outputs, for what stands there.
//!
//! **What it promises** (`specs/Traced.antt`, for every document and whatever its services gave). Where these are the main flow
//! of an accepted document and the levels of its main instance, the records are those of the main flow's jobs; what stands at a
//! place of an output used exactly the marks that the meaning says, and nothing is answered exactly where nothing stands there;
//! and the leaves are those of the meaning's outputs, in order.
//!
//! While a run goes on, what is known of its main instance are the settled jobs, the lists that were closed and the faults that were
//! passed, which are kept as they come. All nodes of what a settled job bound are known, whatever list around them still grows. So
//! the same walk gives the records of the settled jobs, and of no others (`so_far`): it takes a list that isn't closed, below which
//! something is known, to be as long as that tells, and leaves alone that of which nothing is known.
//!
//! A list is one part for all that bind it, however many do: each list is shared once, when its items are done.
//!
//! - `traces`: the calls
//! - `stepping`: the steps, one after another by rank
//! - `building`: the shape of a step's iteration, and the records of its jobs; `jobs`: the records alone, of a step without outputs
//! - `sight`: what is known of an instance, of which `table` has the levels by step and place, `growing` the lists that grow, and
//!   `settled` the settled jobs
//! - `feeds`, `used`: what feeds deliver at a place, as parts and as marks
//! - `places`: the places of a value's leaves
//! - `node`, `copies`: nodes of shapes; copies of marks and parts
//! - `laws`: which marks what stands in the main instance used, told by the shapes of its iterations alone
#![tactic(auto)]

mod building;
mod copies;
mod feeds;
mod growing;
mod jobs;
pub mod laws;
mod node;
mod places;
mod settled;
mod sight;
mod stepping;
mod table;
mod traces;
mod used;

pub use settled::SettledJob;
pub use traces::Traces;
