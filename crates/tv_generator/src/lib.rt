//! The document that `gen` makes and runs, and the line that it writes.
//!
//! `generated` gives, for a number N, the document of N times N elements that `specs/RowsOfSize.antt` of `tv_model` defines:
//! they go through retries, faults and a nested flow. What it means stands there for small numbers, as rows that compute; what its
//! run comes to, for every number, in `specs/Formulas.antt`.
//! `summary_line` gives the line of a number, totals and a count of bytes (`specs/Summaries.antt`).
//!
//! - `document`: the document, flow by flow
//! - `steps`, `feeds`: their steps, and where those take their inputs from
//! - `texts`: the two lists of texts that it runs on
//! - `summary`: the line
//! - `laws`: every such document is of the form and accepted, and its run has the totals of the formulas; the first texts, and the
//!   line of the tenth, compute
#![tactic(auto)]

mod document;
mod feeds;
pub mod laws;
mod steps;
mod summary;
mod texts;

pub use document::generated;
pub use summary::summary_line;
