//! From bytes to a checked document, or the refusal. No service is asked.
ghost use Rattle.std.specs.Prelude.{◌≡◌, ◌≤◌, ◌⊎◌, length, true};
ghost use Rattle.serde_json.specs.View.{view as json_view};
ghost use Rattle.tv_flow.specs.DocumentViews.{document_view};
ghost use Rattle.tv_flow.specs.Forms.{form_of};
ghost use Rattle.tv_check.specs.FaultViews.{fault_view};
ghost use Rattle.tv_check.specs.Passes.{checked};
ghost use Rattle.tv_report.specs.CheckLines.{check_text};
ghost use Rattle.tv_report.specs.FormLines.{is_form, line_of};
ghost use Rattle.tv_top.specs.Answers.{byte_limit, reading_of, unless_complaint, unless_misformed};
ghost use Rattle.tv_top.specs.Asked.{GivesJson, GivesRun};

use crate::refusal::Refusal;
use crate::status::Status;
use serde_json::Value as Json;
use std::alloc::Global;
use tv_check::{CheckFault, CheckRefused, CheckedRun, check};
use tv_flow::{Document, FormFault, read_document};
use tv_gate::Services;
use tv_report::{check_line, form_line};
use tv_value::NoMemory;

/// The document that these bytes are, at most 2^24 of them, where the check accepts it for these services. Near linear in them.
pub(crate) fn checked_run<V: Services>(alloc: Global, bytes: Vec<u8>) -> Result<CheckedRun, Refusal>
    requires { length bytes.items ≤ byte_limit }
    ensures { GivesRun result (reading_of V.knows bytes.items) }
{
    let json = json_of(alloc, &bytes)?;
    drop(bytes);
    run_of_json::<V>(alloc, json)
}

/// The JSON tree of bytes that are one JSON text in UTF-8; else `NotJson`, or `NoMemory`.
fn json_of(alloc: Global, bytes: &[u8]) -> Result<Json, Refusal>
    ensures { GivesJson result bytes.now }
{
    match Json::from_slice(alloc, bytes) {
        Ok(json) => Ok(json),
        Err(error) => {
            if error.is_memory() {
                Err(Refusal::Plain(Status::NoMemory))
            } else {
                Err(Refusal::Plain(Status::NotJson))
            }
        }
    }
}

fn run_of_json<V: Services>(alloc: Global, json: Json) -> Result<CheckedRun, Refusal>
    ensures { GivesRun result (unless_misformed V.knows (form_of (json_view json))) }
{
    match read_document(alloc, &json) {
        Ok(document) => {
            drop(json);
            run_of_document::<V>(alloc, document)
        }
        Err(fault) => Err(form_refusal(alloc, &fault)),
    }
}

/// The line of a fault of form.
fn form_refusal(alloc: Global, fault: &FormFault) -> Refusal
    ensures { ((is_form fault.now ≡ true) × (result ≡ Refusal.Form (line_of fault.now)))
        ⊎ (result ≡ Refusal.Plain Status.NoMemory) }
{
    match fault {
        FormFault::Form { .. } => match form_line(alloc, fault) {
            Ok(line) => Refusal::Form(line),
            Err(NoMemory) => Refusal::Plain(Status::NoMemory),
        },
        FormFault::NoMemory => Refusal::Plain(Status::NoMemory),
    }
}

pub(crate) fn run_of_document<V: Services>(
    alloc: Global,
    document: Document,
) -> Result<CheckedRun, Refusal>
    ensures { GivesRun result (unless_complaint (document_view document)
        (checked V.knows (document_view document))) }
{
    match check::<V>(alloc, document) {
        Ok(run) => Ok(run),
        Err(CheckRefused::Check(fault)) => Err(check_refusal(alloc, &fault)),
        Err(CheckRefused::NoMemory) => Err(Refusal::Plain(Status::NoMemory)),
    }
}

/// The line of a fault of the check.
fn check_refusal(alloc: Global, fault: &CheckFault) -> Refusal
    ensures { (result ≡ Refusal.Check (check_text (fault_view fault.now)))
        ⊎ (result ≡ Refusal.Plain Status.NoMemory) }
{
    match check_line(alloc, fault) {
        Ok(line) => Refusal::Check(line),
        Err(NoMemory) => Refusal::Plain(Status::NoMemory),
    }
}
