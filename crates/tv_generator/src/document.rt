//! The generated document.
ghost use Rattle.std.specs.Prelude.{◌≡◌, ◌≤◌, ◌∷◌, [], IfOk};
ghost use Rattle.tv_value.specs.Views.{view};
ghost use Rattle.tv_flow.specs.DocumentViews.{document_view};
ghost use Rattle.tv_flow.specs.Views.{each, feed_view, flow_view};
ghost use Rattle.tv_model.specs.RowsOfSize.{generated, inner_text, outer_text, texts_to};
ghost use Rattle.tv_model.specs.Writing.{from_step, x, y};
ghost use Rattle.tv_generator.specs.Parts as parts;

use crate::feeds::{depth, from_step, name, one, two};
use crate::steps::{main_steps, upper_step};
use crate::texts::{Side, texts};
use std::alloc::Global;
use tv_flow::{Document, Flow, FlowOutputs, Flows, Inputs};
use tv_value::NoMemory;

/// The document of that number: a cross of two lists of so many texts, through retries, faults and a nested flow.
/// Linear in the number, though its run has about five jobs for each pair of texts.
pub fn generated(alloc: Global, number: u32) -> Result<Document, NoMemory>
    requires some { 1 ≤ number }
    requires most { number ≤ 200 }
    ensures { IfOk result (λ d. document_view d ≡ generated number) }
{
    let main = name(alloc, "main")?;
    let flows = both_flows(alloc)?;
    let inputs = both_lists(alloc, number)?;
    Ok(Document {
        format: 1,
        main,
        flows,
        inputs,
    })
}

/// The values that are given.
fn both_lists(alloc: Global, number: u32) -> Result<Inputs, NoMemory>
    ensures { IfOk result (λ is. each view is
        ≡ (x, texts_to number outer_text) ∷ (y, texts_to number inner_text) ∷ []) }
{
    let outer = texts(alloc, Side::Outer, number)?;
    let inner = texts(alloc, Side::Inner, number)?;
    two(
        alloc,
        (name(alloc, "x")?, outer),
        (name(alloc, "y")?, inner),
    )
}

fn both_flows(alloc: Global) -> Result<Flows, NoMemory>
    ensures { IfOk result (λ fs. each flow_view fs ≡ parts.both_flows) }
{
    let main = main_flow(alloc)?;
    let sub = sub_flow(alloc)?;
    two(
        alloc,
        (name(alloc, "main")?, main),
        (name(alloc, "sub")?, sub),
    )
}

fn main_flow(alloc: Global) -> Result<Flow, NoMemory>
    ensures { IfOk result (λ f. flow_view f ≡ parts.main_flow) }
{
    let inputs = two(alloc, (name(alloc, "x")?, 1), (name(alloc, "y")?, 1))?;
    let steps = main_steps(alloc)?;
    let outputs = output(alloc, "out", "n")?;
    Ok(Flow {
        inputs,
        steps,
        outputs,
    })
}

fn sub_flow(alloc: Global) -> Result<Flow, NoMemory>
    ensures { IfOk result (λ f. flow_view f ≡ parts.sub_flow) }
{
    let inputs = depth(alloc, "a", 0)?;
    let steps = one(alloc, (name(alloc, "u")?, upper_step(alloc)?))?;
    let outputs = output(alloc, "o", "u")?;
    Ok(Flow {
        inputs,
        steps,
        outputs,
    })
}

/// One output, which a step's output feeds.
fn output(alloc: Global, port: &str, step: &str) -> Result<FlowOutputs, NoMemory>
    ensures { IfOk result (λ os. each feed_view os ≡ (port.now, from_step step.now) ∷ []) }
{
    one(alloc, (name(alloc, port)?, from_step(alloc, step)?))
}
