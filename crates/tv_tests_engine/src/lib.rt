//! Tests of the calls of inner crates that no run of the program shows, and of what no clause says of them.
//!
//! - `pool`: items are dropped once
//! - `stream`: partial trees, event by event
//! - `strategies`: a dot, by which places split and join
//! - `matching`: a matcher that is told event by event
#![tactic(auto)]

#[cfg(test)]
mod matching;
#[cfg(test)]
mod pool;
#[cfg(test)]
mod strategies;
#[cfg(test)]
mod stream;
