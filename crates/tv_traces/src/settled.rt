//! Settled jobs.
ghost use Rattle.std.specs.Prelude.{IfOk, Some, map};
ghost use Rattle.tv_traces.specs.Tables.{AreDone};
ghost use Rattle.tv_traces.specs.Sights.{done_by, job_view};

use crate::table::key_of;
use std::alloc::Global;
use std::collections::BTreeSet;
use tv_cell::Path;
use tv_value::{NoMemory, Place};

/// A job that is settled.
#[derive(Drop)]
pub struct SettledJob {
    /// The number of its step in the flow.
    pub step: u32,
    /// Where it stands in the step's iteration.
    pub place: Path,
}

/// The jobs, by the number of their step and then their place. A look-up for each.
pub(crate) fn jobs_of(alloc: Global, jobs: &[SettledJob]) -> Result<BTreeSet<Place>, NoMemory>
    ensures { IfOk result (λ ps. AreDone (map job_view jobs.now) (done_by (Some ps))) }
{
    let mut places = BTreeSet::new(alloc);
    for job in jobs {
        let key = key_of(alloc, job.step, job.place.as_slice())?;
        places.insert(key)?;
    }
    Ok(places)
}
