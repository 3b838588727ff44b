//! The line of a generated document's run.
ghost use Rattle.std.specs.Prelude.{◌≡◌, IfOk};
ghost use Rattle.tv_model.specs.TotalsViews.{totals_view};
ghost use Rattle.tv_generator.specs.Summaries.{summary_text};

use std::alloc::Global;
use tv_model::Totals;
use tv_value::{NoMemory, Text};

/// The line `gen N: jobs J attempts A bounced B failed F bytes L` with its line feed: the document's number, the totals of
/// its run, and the length of its result line in bytes, its line feed included.
pub fn summary_line(
    alloc: Global,
    number: u32,
    totals: &Totals,
    bytes: u64,
) -> Result<Text, NoMemory>
    ensures { IfOk result (λ t. t ≡ summary_text number (totals_view totals.now) bytes) }
{
    let line = format!(in alloc;
        "gen {number}: jobs {} attempts {} bounced {} failed {} bytes {bytes}\n",
        totals.jobs, totals.attempts, totals.bounced, totals.failed
    )?;
    Ok(Text::of(line))
}
