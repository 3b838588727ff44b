//! Graphs of numbered vertices: an order of them, cycles and heights.
//!
//! A graph has for each vertex the list of those directly before it, with repeats as they were given. `specs/Graphs.antt`
//! says what the three calls answer, each by a short definition that the call's contract names as its exact result:
//!
//! - `by_least`: the vertices, each after those before it, the least first where there is a choice;
//! - `first_on_cycle`: the least vertex that comes before itself;
//! - `heights`: 1, or one more than the greatest height of those before, of a graph without cycles.
//!
//! Want of memory is the one refusal. `laws` has what the definitions say together: all vertices come in `by_least` exactly
//! where none comes before itself, each once and after those before it, and each height is one more than the greatest of
//! the heights before it. No clause says how long a call takes; the comments of the calls do.
//!
//! `graph` has the type, `orders` the three calls, `untaken` with `waiting` and `free` what `by_least` keeps while it takes
//! vertices. `cyclic` finds the vertices that come before themselves by two searches: that of `walk` leaves each vertex
//! after what comes before it (`specs/Leaving.antt`), and one goes the other way from those left last
//! (`specs/Gathered.antt`), by the step in `search`.
//!
//! In `proofs/`, for crates above: `Walks` (what comes before what), `Arranged` and `Cycles` (`by_least` against cycles),
//! `Measuring` and `Depths` (heights), `Counting` (how many numbers pass a test).

mod cyclic;
mod free;
mod graph;
pub mod laws;
mod memory;
mod orders;
mod search;
mod untaken;
mod waiting;
mod walk;

pub use graph::{Graph, is_graph};
pub use memory::NoMemory;
pub use orders::{by_least, first_on_cycle, heights};
