//! From a checked document to the text to print, or the refusal.
ghost use Rattle.std.specs.Prelude.{◌≡◌, IfOk, OnErr, OnOk, map};
ghost use Rattle.tv_check.specs.RunViews.{run_view};
ghost use Rattle.tv_model.specs.Meanings.{meaning};
ghost use Rattle.tv_model.specs.Results.{result_line};
ghost use Rattle.tv_model.specs.Turns.{ask_order};
ghost use Rattle.tv_report.specs.TraceLines.{trace_text};
ghost use Rattle.tv_work.specs.Asked.{call_of};
ghost use Rattle.tv_top.specs.Answers.{answer_built, answer_to, summary_of};
ghost use Rattle.tv_top.specs.Built.{is_unbuilt, runs};
ghost use Rattle.tv_top.specs.Asked.{GivesAnswer};
ghost use Rattle.tv_top.specs.Asking.{AsksThese, BeginsThese, GivesAsks, asks_built, asks_to};
ghost use Rattle.tv_top.specs.CommandViews.{reading_view};
ghost use Rattle.tv_top.specs.Words.{gen};

use crate::built::is_built;
use crate::following::{forward, lineage};
use crate::refusal::Refusal;
use crate::status::Status;
use crate::words::Reading;
use std::alloc::Global;
use tv_check::CheckedRun;
use tv_gate::Asker;
use tv_generator::summary_line;
use tv_report::{depth_lines, result_line, trace_lines, upgraded_line};
use tv_value::{NoMemory, Text};
use tv_work::{run_board, run_whole};

/// The answer of a command to an accepted document. `check` and `upgrade` are linear in the document; the others cost a run, and
/// `lineage` and `forward` besides what their records cost (`tv_board`).
pub(crate) fn answer<A: Asker>(
    alloc: Global,
    command: Reading,
    run: CheckedRun,
    asker: &mut A,
) -> Result<Text, Refusal>
    ensures answer { GivesAnswer result (answer_to A.Services.gives (reading_view command)
        (run_view run)) }
    ensures asked { GivesAsks (A.calls asker.old) (A.calls asker.new) result
        (asks_to A.Services.gives (reading_view command) (run_view run)) }
{
    if is_unbuilt(&command, &run) {
        return Err(Refusal::Plain(Status::NotBuilt));
    }
    built_answer(alloc, command, run, asker)
}

/// Whether a command runs a document that a run isn't built for.
fn is_unbuilt(command: &Reading, run: &CheckedRun) -> bool
    ensures { result ≡ is_unbuilt (reading_view command.now) (run_view run.now) }
{
    runs(command) && !is_built(run.document())
}

/// Whether a command runs the document that it reads.
fn runs(command: &Reading) -> bool
    ensures { result ≡ runs (reading_view command.now) }
{
    match command {
        Reading::Check | Reading::Upgrade => false,
        _ => true,
    }
}

/// The answer of a command to a document that it is built for.
fn built_answer<A: Asker>(
    alloc: Global,
    command: Reading,
    run: CheckedRun,
    asker: &mut A,
) -> Result<Text, Refusal>
    ensures answer { GivesAnswer result (answer_built A.Services.gives (reading_view command)
        (run_view run)) }
    ensures asked { GivesAsks (A.calls asker.old) (A.calls asker.new) result
        (asks_built A.Services.gives (reading_view command) (run_view run)) }
{
    match command {
        Reading::Check => Ok(depth_lines(alloc, &run)?),
        Reading::Upgrade => Ok(upgraded_line(alloc, run.document())?),
        Reading::Run => Ok(result_of_run(alloc, run, asker)?),
        Reading::Trace => Ok(trace_of_run(alloc, run, asker)?),
        Reading::Lineage { port, place } => lineage(alloc, &port, &place, run, asker),
        Reading::Forward { port, place } => forward(alloc, &port, &place, run, asker),
    }
}

/// The result line of a document that a board runs.
fn result_of_run<A: Asker>(alloc: Global, run: CheckedRun, asker: &mut A) -> Result<Text, NoMemory>
    ensures line { IfOk result (λ t. t ≡ result_line (meaning A.Services.gives (run_view run))) }
    ensures asked { OnOk result (AsksThese (A.calls asker.old) (A.calls asker.new)
        (map call_of (ask_order (meaning A.Services.gives (run_view run))))) }
    ensures begun { OnErr result (BeginsThese (A.calls asker.old) (A.calls asker.new)
        (map call_of (ask_order (meaning A.Services.gives (run_view run))))) }
    ensures reached { A.reaches asker.old asker.new }
{
    let (outputs, totals) = run_whole(alloc, run, asker)?;
    let line = result_line(alloc, &outputs, &totals)?;
    Ok(line)
}

/// The lines of the jobs that asked, of a document that a board runs.
fn trace_of_run<A: Asker>(alloc: Global, run: CheckedRun, asker: &mut A) -> Result<Text, NoMemory>
    ensures lines { IfOk result (λ t. t
        ≡ trace_text (map (λ p. p.0) (ask_order (meaning A.Services.gives (run_view run))))) }
    ensures asked { OnOk result (AsksThese (A.calls asker.old) (A.calls asker.new)
        (map call_of (ask_order (meaning A.Services.gives (run_view run))))) }
    ensures begun { OnErr result (BeginsThese (A.calls asker.old) (A.calls asker.new)
        (map call_of (ask_order (meaning A.Services.gives (run_view run))))) }
    ensures reached { A.reaches asker.old asker.new }
{
    let board = run_board(alloc, run, asker)?;
    let lines = trace_lines(alloc, &board)?;
    Ok(lines)
}

/// The summary of the run of an accepted document, that of a number.
pub(crate) fn summary<A: Asker>(
    alloc: Global,
    number: u32,
    run: CheckedRun,
    asker: &mut A,
) -> Result<Text, Refusal>
    ensures answer { GivesAnswer result (answer_to A.Services.gives (gen number) (run_view run)) }
    ensures asked { GivesAsks (A.calls asker.old)
        (A.calls asker.new) result (asks_to A.Services.gives (gen number) (run_view run)) }
{
    Ok(summary_of_run(alloc, number, run, asker)?)
}

/// The summary line of a document that a board runs.
fn summary_of_run<A: Asker>(
    alloc: Global,
    number: u32,
    run: CheckedRun,
    asker: &mut A,
) -> Result<Text, NoMemory>
    ensures line { IfOk result (λ t. t ≡ summary_of A.Services.gives number (run_view run)) }
    ensures asked { OnOk result (AsksThese (A.calls asker.old) (A.calls asker.new)
        (map call_of (ask_order (meaning A.Services.gives (run_view run))))) }
    ensures begun { OnErr result (BeginsThese (A.calls asker.old) (A.calls asker.new)
        (map call_of (ask_order (meaning A.Services.gives (run_view run))))) }
    ensures reached { A.reaches asker.old asker.new }
{
    let (outputs, totals) = run_whole(alloc, run, asker)?;
    let line = result_line(alloc, &outputs, &totals)?;
    let bytes = line.as_str().len() as u64;
    let summary = summary_line(alloc, number, &totals, bytes)?;
    Ok(summary)
}
