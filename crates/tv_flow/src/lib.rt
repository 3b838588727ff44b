//! Documents: what a run is told to do, read from JSON.
//!
//! `read_document` gives the document that a JSON tree is, or the first fault of its form with the path at which it was
//! met, exactly as the document form says (`specs/Forms.antt`, table by table; `form_of` for a whole tree). Every
//! `Document` keeps what the form states of kinds, ranges, numbers of entries and the byte order of names
//! (`specs/Formed.antt`), but for the number of its own inputs. A contract sees the types as the records of
//! `specs/Flows.antt`, by the views of `specs/Views.antt` and `specs/DocumentViews.antt`.
//!
//! - `document`: documents, flows, steps, feeds
//! - `faults`: faults of form and their paths
//! - `at`: where in the tree the reading stands; paths are made only for a fault
//! - `formed`, `objects`, `lists`: what is read by a form, objects with fields, arrays and named objects
//! - `scalars`, `names`, `feeds`, `trees`, `steps`, `flows`: the tables of the form, smallest first
//! - `reading`: whole documents
//! - `laws`: the first complaint is the head of the list of all (`specs/Listed.antt`)
//! - `copies`: flows of their own that stand for the same
#![tactic(auto)]

mod at;
mod copies;
mod document;
mod faults;
mod feeds;
mod flows;
mod formed;
pub mod laws;
mod lists;
mod names;
mod objects;
mod reading;
mod scalars;
mod steps;
mod trees;

pub use document::{
    Activities, Activity, Document, Feed, Flow, FlowOutputs, Flows, Inputs, Link, Links, Repeat,
    Step, StepInput, StepInputs, Steps,
};
pub use faults::{FormFault, FormKind, Part, Path};
pub use reading::read_document;
pub use scalars::is_name;
