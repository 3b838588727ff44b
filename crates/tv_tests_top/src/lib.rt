//! Tests of whole runs of the top calls over memory: what they ask, what fails, and runs by many workers.
//!
//! - `runs`: runs of the two top calls over streams that may fail
//! - `calls`: what runs ask, and how often they ask a gate
//! - `failing`: reads and writes that fail, and want of memory
//! - `workers`: runs by many workers
#![tactic(auto)]

#[cfg(test)]
mod calls;
#[cfg(test)]
mod failing;
#[cfg(test)]
mod runs;
#[cfg(test)]
mod workers;
