//! Whole documents.
ghost use Rattle.std.specs.Prelude.{◌≡◌, IfOk, true, length, ◌≤◌};
ghost use Rattle.serde_json.specs.View.{view as json_view};
ghost use Rattle.tv_flow.specs.Answers.{IsForm};
ghost use Rattle.tv_flow.specs.DocumentViews.{document_view};
ghost use Rattle.tv_flow.specs.Forms.{form_of};

use crate::at::At;
use crate::document::Document;
use crate::faults::FormFault;
use crate::objects::{fields, optional_named, required, required_named, required_number};
use serde_json::Value as Json;
use std::alloc::Global;

/// The document that a JSON tree is, or the first fault of its form with the path at which it was met.
///
/// The fields of an object are taken in the order of the document form: first the kind of the thing itself, then
/// the first key that is no field, then each field, a missing one or what it has; the number of entries of an array
/// or named object comes before them. Linear in the tree.
pub fn read_document(alloc: Global, json: &Json) -> Result<Document, FormFault>
    ensures { IsForm document_view result (form_of (json_view json.now)) }
{
    let at = &At::Top;
    fields(alloc, at, json, &["taverna", "main", "flows", "inputs"])?;
    let format = required_number(alloc, at, json, "taverna", 1, 2)?;
    let main = required(alloc, at, json, "main", format)?;
    let flows = required_named(alloc, at, json, "flows", 1, 256, format)?;
    let inputs = optional_named(alloc, at, json, "inputs", 16, format)?;
    Ok(Document {
        format,
        main,
        flows,
        inputs,
    })
}
