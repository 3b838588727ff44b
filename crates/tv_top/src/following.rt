//! From a checked document and an element to the elements that made it, or that it made.
ghost use Rattle.std.specs.Prelude.{◌≡◌, ◌⊎◌, IfOk, OnErr, OnOk, is_some, map, true};
ghost use Rattle.tv_check.specs.RunViews.{run_view};
ghost use Rattle.tv_model.specs.Lineages as model;
ghost use Rattle.tv_model.specs.Meanings.{meaning};
ghost use Rattle.tv_model.specs.Turns.{ask_order};
ghost use Rattle.tv_work.specs.Asked.{call_of};
ghost use Rattle.tv_top.specs.Answers.{answer_built, given_at};
ghost use Rattle.tv_top.specs.Asked.{GivesAnswer};
ghost use Rattle.tv_top.specs.Asking.{AsksThese, BeginsThese, GivesAsks, asks_built};
ghost use Rattle.tv_top.specs.Lines.{absent_line};
ghost use Rattle.tv_top.specs.Words as spec;

use crate::refusal::Refusal;
use crate::status::Status;
use std::alloc::Global;
use tv_check::CheckedRun;
use tv_gate::{Asker, Services};
use tv_json::element_text;
use tv_lineage::{Labels, OutPlaces};
use tv_value::{Name, NoMemory, Place, Text};
use tv_words::label_lines;
use tv_work::run_board;

/// The lines of the elements of inputs that made an element of an output. It is looked for after the run.
pub(crate) fn lineage<A: Asker>(
    alloc: Global,
    port: &Name,
    place: &Place,
    run: CheckedRun,
    asker: &mut A,
) -> Result<Text, Refusal>
    ensures answer { GivesAnswer result
        (answer_built A.Services.gives (spec.lineage port.now place.now) (run_view run)) }
    ensures asked { GivesAsks (A.calls asker.old) (A.calls asker.new) result
        (asks_built A.Services.gives (spec.lineage port.now place.now) (run_view run)) }
{
    match lineage_of_run(alloc, port, place, run, asker)? {
        Some(labels) => Ok(label_lines(alloc, &labels)?),
        None => Err(no_element(alloc, port, place)),
    }
}

/// The elements of inputs that made an element of an output, of a document that a board runs; `None`
/// where there is no such output or nothing stands there.
fn lineage_of_run<V: Services, A: Asker<Services = V>>(
    alloc: Global,
    port: &Name,
    place: &Place,
    run: CheckedRun,
    asker: &mut A,
) -> Result<Option<Labels>, NoMemory>
    ensures labels { IfOk result (λ o. o
        ≡ model.lineage_of (meaning V.gives (run_view run)) port.now place.now) }
    ensures asked { OnOk result (AsksThese (A.calls asker.old) (A.calls asker.new)
        (map call_of (ask_order (meaning V.gives (run_view run))))) }
    ensures begun { OnErr result (BeginsThese (A.calls asker.old) (A.calls asker.new)
        (map call_of (ask_order (meaning V.gives (run_view run))))) }
    ensures reached { A.reaches asker.old asker.new }
{
    let board = run_board(alloc, run, asker)?;
    let traced = board.traced()?;
    let found = traced.used(port, place)?;
    match found {
        Some(used) => {
            let labels = traced.records().backward(alloc, &used)?;
            Ok(Some(labels))
        }
        None => Ok(None),
    }
}

/// The lines of the leaves of outputs that an element of an input made. Where there is no such
/// input, or nothing stands there, nothing is run.
pub(crate) fn forward<A: Asker>(
    alloc: Global,
    port: &Name,
    place: &Place,
    run: CheckedRun,
    asker: &mut A,
) -> Result<Text, Refusal>
    ensures answer { GivesAnswer result
        (answer_built A.Services.gives (spec.forward port.now place.now) (run_view run)) }
    ensures asked { GivesAsks (A.calls asker.old) (A.calls asker.new) result
        (asks_built A.Services.gives (spec.forward port.now place.now) (run_view run)) }
{
    if is_given(&run, port, place) {
        let leaves = forward_of_run(alloc, port, place, run, asker)?;
        Ok(label_lines(alloc, &leaves)?)
    } else {
        Err(no_element(alloc, port, place))
    }
}

/// Whether an element of an input is given. Linear in the inputs and in the place.
fn is_given(run: &CheckedRun, port: &Name, place: &Place) -> bool
    ensures { result ≡ is_some (given_at (run_view run.now) port.now place.now) }
{
    match run.document().inputs.named(port) {
        Some(value) => value.at(place).is_some(),
        None => false,
    }
}

/// The leaves of outputs that an element of an input made, of a document that a board runs.
fn forward_of_run<V: Services, A: Asker<Services = V>>(
    alloc: Global,
    port: &Name,
    place: &Place,
    run: CheckedRun,
    asker: &mut A,
) -> Result<OutPlaces, NoMemory>
    ensures leaves { IfOk result (λ ls. ls
        ≡ model.forward (meaning V.gives (run_view run)) port.now place.now) }
    ensures asked { OnOk result (AsksThese (A.calls asker.old) (A.calls asker.new)
        (map call_of (ask_order (meaning V.gives (run_view run))))) }
    ensures begun { OnErr result (BeginsThese (A.calls asker.old) (A.calls asker.new)
        (map call_of (ask_order (meaning V.gives (run_view run))))) }
    ensures reached { A.reaches asker.old asker.new }
{
    let board = run_board(alloc, run, asker)?;
    let traced = board.traced()?;
    let leaves = traced.leaves()?;
    let used_by = traced.records().forward(alloc, &leaves, port, place)?;
    Ok(used_by)
}

/// The refusal of an element that isn't there, with its line.
fn no_element(alloc: Global, port: &Name, place: &Place) -> Refusal
    ensures { (result ≡ Refusal.NoSuchElement (absent_line port.now place.now))
        ⊎ (result ≡ Refusal.Plain Status.NoMemory) }
{
    match absent_line(alloc, port, place) {
        Ok(line) => Refusal::NoSuchElement(line),
        Err(NoMemory) => Refusal::Plain(Status::NoMemory),
    }
}

fn absent_line(alloc: Global, port: &Name, place: &Place) -> Result<Text, NoMemory>
    ensures { IfOk result (λ t. t ≡ absent_line port.now place.now) }
{
    let element = element_text(alloc, port, place)?;
    let mut line = String::from_str(alloc, "taverna: no element at ")?;
    line.push_str(element.as_str())?;
    line.push_str("\n")?;
    Ok(Text::of(line))
}
