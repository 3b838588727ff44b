//! Runs by many workers: from the words to the text to print, or the refusal.
ghost use Rattle.std.specs.Prelude.{◌+◌, ◌≡◌, ◌≢◌, ◌≤◌, IfOk, Some};
ghost use Rattle.tv_check.specs.RunViews.{run_view};
ghost use Rattle.tv_io.specs.ReadOf.{TakesAtMost};
ghost use Rattle.tv_model.specs.Meanings.{meaning};
ghost use Rattle.tv_model.specs.Results.{result_line};
ghost use Rattle.tv_words.specs.Stated.{IsCount};
ghost use Rattle.tv_top.specs.Answers.{answer_of, answer_to, byte_limit, summary_of};
ghost use Rattle.tv_top.specs.Asked.{GivesAnswer, ended};
ghost use Rattle.tv_top.specs.Headline.{IsAnswered, Source as ASource, read_whole, source_told, unread};
ghost use Rattle.tv_top.specs.Words as spec;

use crate::built::is_built;
use crate::refusal::Refusal;
use crate::status::Status;
use crate::top::{run_generated, run_read};
use std::alloc::Global;
use std::sync::Wait;
use std::thread::Threads;
use tv_check::CheckedRun;
use tv_gate::Gate;
use tv_generator::summary_line;
use tv_io::Source;
use tv_report::result_line;
use tv_value::{NoMemory, Text};
use tv_work::run_whole_with_workers;

/// The result line of a document that is read. It is checked before the first service is asked.
pub(crate) fn read_and_run<R: Threads + Wait + Sync, S: Source, G: Gate>(
    rt: &R,
    alloc: Global,
    source: &mut S,
    gate: &G,
    workers: u32,
) -> Result<Text, Refusal>
    requires { IsCount workers }
    ensures answer { IsAnswered read_whole
        (answer_of G.Services.gives G.Services.knows (Some spec.run))
        (source_told ⟦<S as Source>⟧ source.old source.new) result }
    ensures taken { TakesAtMost (byte_limit + 1) (S.left source.old) (S.left source.new) }
    ensures command { ended result ≢ Status.Usage }
{
    let run = run_read::<S, G::Services>(alloc, source)?;
    result_or_refusal(rt, alloc, run, gate, workers)
}

/// The result line of a document, where a run is built for it.
fn result_or_refusal<R: Threads + Wait + Sync, G: Gate>(
    rt: &R,
    alloc: Global,
    run: CheckedRun,
    gate: &G,
    workers: u32,
) -> Result<Text, Refusal>
    requires { IsCount workers }
    ensures answer { GivesAnswer result (answer_to G.Services.gives spec.run (run_view run)) }
    ensures command { ended result ≢ Status.Usage }
{
    if !is_built(run.document()) {
        return Err(Refusal::Plain(Status::NotBuilt));
    }
    let text = result_by_workers(rt, alloc, run, gate, workers)?;
    Ok(text)
}

/// The summary of the run of a generated document. Nothing is read.
pub(crate) fn generated_and_run<R: Threads + Wait + Sync, G: Gate>(
    rt: &R,
    alloc: Global,
    number: u32,
    gate: &G,
    workers: u32,
) -> Result<Text, Refusal>
    requires some { 1 ≤ number }
    requires most { number ≤ 200 }
    requires workers { IsCount workers }
    ensures answer { (s : ASource) → s.left_after ≡ s.left
        → IsAnswered unread
        (answer_of G.Services.gives G.Services.knows (Some (spec.gen number))) s result }
    ensures command { ended result ≢ Status.Usage }
{
    let run = run_generated::<G::Services>(alloc, number)?;
    let text = summary_by_workers(rt, alloc, number, run, gate, workers)?;
    Ok(text)
}

/// The result line of a document that workers run.
fn result_by_workers<R: Threads + Wait + Sync, G: Gate>(
    rt: &R,
    alloc: Global,
    run: CheckedRun,
    gate: &G,
    workers: u32,
) -> Result<Text, NoMemory>
    requires { IsCount workers }
    ensures { IfOk result (λ t. t ≡ result_line (meaning G.Services.gives (run_view run))) }
{
    let (outputs, totals) = run_whole_with_workers(rt, alloc, run, gate, workers)?;
    let line = result_line(alloc, &outputs, &totals)?;
    Ok(line)
}

/// The summary line of a document that workers run.
fn summary_by_workers<R: Threads + Wait + Sync, G: Gate>(
    rt: &R,
    alloc: Global,
    number: u32,
    run: CheckedRun,
    gate: &G,
    workers: u32,
) -> Result<Text, NoMemory>
    requires { IsCount workers }
    ensures { IfOk result (λ t. t ≡ summary_of G.Services.gives number (run_view run)) }
{
    let (outputs, totals) = run_whole_with_workers(rt, alloc, run, gate, workers)?;
    let line = result_line(alloc, &outputs, &totals)?;
    let bytes = line.as_str().len() as u64;
    let summary = summary_line(alloc, number, &totals, bytes)?;
    Ok(summary)
}
