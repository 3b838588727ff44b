//! Values and documents as JSON.
//!
//! `json_of_value` gives the JSON tree of a value (`specs/Printed.antt` of `tv_value`), error documents included, and
//! `compact` the text of a JSON tree with no space in it. Both take memory for what they make, and time linear in it.
//!
//! - `names`: the texts of job names
//! - `values`: the trees of values
//! - `printed`: what has a JSON tree, and lists of it
//! - `documents`: the trees of documents, which read back as the same documents
//! - `laws`: the lines of documents in format 2, which read back so
#![tactic(auto)]

mod documents;
pub mod laws;
mod names;
mod printed;
mod values;

pub use documents::{json_of_document, json_of_upgraded};
pub use names::{element_text, job_text};
pub use values::{compact, json_of_value};
