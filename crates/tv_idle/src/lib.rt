//! The known jobs of an instance that neither run nor have a result, by step and in order of place.
//!
//! Known jobs have numbers, which are given out in order from 0; each is added once, at the end. A contract sees of `Idle` for
//! each step the list of its idle jobs in order of place, those that bind no fault apart from those that bind one, which can
//! be answered at once; and how many jobs are known (`specs/Idles.antt`). Rooms are taken ahead, and may be refused; then
//! jobs are added and removed without memory.
//!
//! A job goes from any position. It is only marked then, and lies on in its queue until it comes to the front; no queue has
//! one that has gone at its front. So the first idle job of a step is told in constant time, and each job is dropped from its
//! queue once. The first after a place is searched for.
//!
//! - `queues`: those of one step
//! - `boxed`: these, moved in one word
//! - `idle`: the calls
//!
//! **The jobs of one step** (`ready`), in order of place.
//!
//! Jobs become ready in any order and are given out in order of place. A contract sees of `Ready` the list of its jobs in this
//! order, each with its number and its place, and how many more can be put without a refusal (`specs/Listed.antt`). `reserve`
//! takes the room, and may be refused; `put`, `take_first` and the questions take no memory.
//!
//! A job that stands after all that came in order goes to the end of a queue, in constant time; one that comes late goes into a
//! heap. The places of all jobs stand in one list of indices.
//!
//! - `table`: jobs with their places, by the order in which they were put
//! - `heap`: those that came late
//! - `search`: the first one after a place
//! - `ready`: the calls
#![tactic(auto)]

mod boxed;
mod heap;
mod idle;
mod queues;
mod ready;
mod search;
mod table;

pub use idle::Idle;
pub use ready::Ready;
