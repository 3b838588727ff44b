//! Where bytes come from and where they go: sources, sinks, and whole reads and writes over them.
//!
//! A source says which bytes it has left, where it tells them, and how often a read failed; a sink says
//! which bytes it took, and how often a write failed. A read or a write answers `Failed` only where its
//! count rose in that call, so a caller that hands a fault on can say where it comes from. Every call
//! is safe and returns; none blocks but in the reader or writer that an adapter is given.
//!
//! - `source`, `sink`: the traits, and `read_all` and `write_all` over any of them.
//! - `memory`: a source and a sink in memory that serve short pieces and fail the calls that are listed.
//! - `steady`: a source and a sink that never fail.
//! - `adapters`: std's readers and writers as sources and sinks, the edge to the system.
//! - `faults`: why a call stopped.
#![tactic(auto)]

mod adapters;
mod faults;
mod memory;
mod sink;
mod source;
mod steady;
#[cfg(test)]
mod tests;

pub use adapters::{ReaderSource, WriterSink};
pub use faults::{Failed, NoMemory, ReadAllFault, WriteFault};
pub use memory::{MemorySink, MemorySource};
pub use sink::{Sink, write_all};
pub use source::{Source, read_all};
pub use steady::{SteadySink, SteadySource};
