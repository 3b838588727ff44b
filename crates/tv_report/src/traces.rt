//! The lines of `trace`.
ghost use Rattle.std.specs.Prelude.{◌++◌, ◌≡◌, ◌<◌, ◌^◌, ℕ, IfOk, OnOk, filter_map, flat_map, nat_eq, string_bytes, suc};
ghost use Rattle.tv_report.specs.AskCounts.{accepted_number, count_at, counted, numbered_line, one_more};
ghost use Rattle.tv_report.specs.TraceLines.{accepted_jobs, tallied, trace_line, trace_text};

use indexmap::IndexMap;
use std::alloc::Global;
use std::fmt::Write;
use tv_board::{Board, Entry};
use tv_gate::Services;
use tv_json::job_text;
use tv_value::{JobName, NoMemory, Text};

/// A line for each job of which the board accepted an outcome, in the order of the first ones: its name and how many they are.
/// Near linear in the history and in the names of these jobs.
pub fn trace_lines<V: Services>(alloc: Global, board: &Board<V>) -> Result<Text, NoMemory>
    ensures { IfOk result (λ t. t ≡ trace_text (accepted_jobs board.now)) }
{
    board.is_lawful();
    let counts = counts_of(alloc, board.history())?;
    let mut text = String::new(alloc);
    push_lines(alloc, &mut text, board, &counts)?;
    Ok(Text::of(text))
}

/// How many outcomes of each job were accepted, in the order of the first ones. Near linear.
fn counts_of(alloc: Global, entries: &[Entry]) -> Result<IndexMap<u64, u64>, NoMemory>
    ensures { IfOk result (λ counts. counts.entries
        ≡ tallied nat_eq (filter_map accepted_number entries.now)) }
{
    let mut counts = IndexMap::new(alloc);
    for entry in entries {
        count_entry(&mut counts, entry)?;
    }
    Ok(counts)
}

fn count_entry(counts: &mut IndexMap<u64, u64>, entry: &Entry) -> Result<(), NoMemory>
    requires { (k : ℕ) → suc (count_at counts.old.entries k) < 2 ^ 64 }
    ensures { OnOk result (counts.new.entries
        ≡ counted counts.old.entries (accepted_number entry.now)) }
{
    match entry {
        Entry::Accepted { job, .. } => count_one(counts, *job),
        _ => Ok(()),
    }
}

fn count_one(counts: &mut IndexMap<u64, u64>, job: u64) -> Result<(), NoMemory>
    requires { suc (count_at counts.old.entries job) < 2 ^ 64 }
    ensures { OnOk result (counts.new.entries ≡ one_more counts.old.entries job) }
{
    let count = count_at(counts, job);
    counts.insert(job, count + 1)?;
    Ok(())
}

/// How often the job was counted.
fn count_at(counts: &IndexMap<u64, u64>, job: u64) -> u64
    ensures { result ≡ count_at counts.now.entries job }
{
    match counts.get(&job) {
        Some(count) => *count,
        None => 0,
    }
}

fn push_lines<V: Services>(
    alloc: Global,
    text: &mut String,
    board: &Board<V>,
    counts: &IndexMap<u64, u64>,
) -> Result<(), NoMemory>
    ensures { OnOk result (string_bytes text.new ≡ string_bytes text.old
        ++ flat_map (numbered_line board.now.names) counts.now.entries) }
{
    for (job, count) in counts.iter() {
        push_line(alloc, text, board, *job, *count)?;
    }
    Ok(())
}

/// The line of a job by its number.
fn push_line<V: Services>(
    alloc: Global,
    text: &mut String,
    board: &Board<V>,
    job: u64,
    count: u64,
) -> Result<(), NoMemory>
    ensures { OnOk result (string_bytes text.new ≡ string_bytes text.old
        ++ numbered_line board.now.names (job, count)) }
{
    match board.name_of(job)? {
        Some(name) => push_named(alloc, text, &name, count),
        None => Ok(()),
    }
}

fn push_named(alloc: Global, text: &mut String, name: &JobName, count: u64) -> Result<(), NoMemory>
    ensures { OnOk result (string_bytes text.new ≡ string_bytes text.old
        ++ trace_line name.now count) }
{
    let job = job_text(alloc, name)?;
    write!(text, "{} {count}\n", job.as_str())?;
    Ok(())
}
