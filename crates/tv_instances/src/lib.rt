//! An open instance of a flow: its frame and the seats of its jobs.
//!
//! An `Open` has the instance's frame (`tv_frame`), which is told each result, closed list and passed fault and knows at once what
//! follows, and for each job that the frame knows a seat (`tv_seats`), which tells where the job stands. Each call tells the frame and
//! moves the seats. A contract sees what the frame was told, the view, and the seats by number: it says nothing of histories, services
//! or other instances. The nodes of all instances stand in one pool, each in its own region.
//!
//! A call that may want memory comes before the one that changes something, and leaves all as it was where it is refused.
//!
//! - `open`: the instance, its start and its end
//! - `looks`: what is asked of its jobs
//! - `firsts`: its first job that goes on, or that can be bounced
//! - `events`: a job taken, opened, given its result or bounced, a list closed or a fault passed
//! - `levels`: the lists that were closed and the faults that were passed, as they are kept
//! - `tries`: jobs that are idle again, or have a flow next
//! - `turns`: which steps are looked at, that of the greatest rank first
#![tactic(auto)]

mod events;
mod firsts;
mod levels;
mod looks;
mod open;
mod tries;
mod turns;

pub use events::Spot;
pub use firsts::Seeking;
pub use open::Open;
