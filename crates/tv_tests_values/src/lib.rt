//! Tests of what is made of texts: services, verdicts on outcomes, generated documents, and floats.
//!
//! - `values`: values of tests, as they are written
//! - `services`: the local services, case by case
//! - `scripted`: a gate that answers by a script
//! - `judging`: outcomes against the outputs that are due
//! - `generated`: generated documents against their texts
//! - `floats`: floats as JSON
#![tactic(auto)]

#[cfg(test)]
mod floats;
#[cfg(test)]
mod generated;
#[cfg(test)]
mod judging;
#[cfg(test)]
mod scripted;
#[cfg(test)]
mod services;
#[cfg(test)]
mod values;
