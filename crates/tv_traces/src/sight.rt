//! What is known of an instance, as far as its records go.
ghost use Rattle.std.specs.Prelude.{◌≡◌, ℕ, Bool, true, IfOk, List, map, option_map};
ghost use Rattle.tv_value.specs.Values.{JobName};
ghost use Rattle.tv_flow.specs.Flows.{Flow};
ghost use Rattle.tv_strategy.specs.Origins.{Origin};
ghost use Rattle.tv_model.specs.instance.Delivered.{StepMeaning};
ghost use Rattle.tv_frame.specs.Levels.{AreLevels};
ghost use Rattle.tv_frame.specs.Views.{level_view, what_view};
ghost use Rattle.tv_traces.specs.Seen.{AreKnownBy, AreSeen};
ghost use Rattle.tv_traces.specs.Sights.{done_in, job_view, what_in};

use crate::growing::{grown_at, grown_of};
use crate::settled::{SettledJob, jobs_of};
use crate::table::{key_of, table_of, told_at};
use std::alloc::Global;
use std::collections::{BTreeMap, BTreeSet};
use tv_frame::{Level, What};
use tv_value::{NoMemory, Place};

/// Its lists and passed faults by step and place, and its settled jobs.
#[derive(Drop)]
pub(crate) struct Sight {
    pub(crate) table: BTreeMap<Place, What>,
    // How many items there are at least of lists that aren't closed.
    pub(crate) grown: BTreeMap<Place, u32>,
    // All jobs are settled where there is none.
    pub(crate) jobs: Option<BTreeSet<Place>>,
}

impl Sight {
    /// Of an instance that has ended: these are all its levels, and all its jobs are settled.
    pub(crate) fn whole(alloc: Global, levels: &[Level]) -> Result<Sight, NoMemory>
        ensures { IfOk result (λ v. (flow : Flow) (fs : List StepMeaning)
            → AreLevels flow fs (map level_view levels.now)
            → AreSeen (λ o. true) (λ n. true) flow fs (what_in v) (done_in v)) }
    {
        let table = table_of(alloc, levels)?;
        Ok(Sight {
            table,
            grown: BTreeMap::new(alloc),
            jobs: None,
        })
    }

    /// Of an instance that is open: its levels so far, and its settled jobs.
    pub(crate) fn so_far(
        alloc: Global,
        levels: &[Level],
        jobs: &[SettledJob],
    ) -> Result<Sight, NoMemory>
        ensures { IfOk result
            (λ v. (known : Origin → Bool) (settled : JobName → Bool) (flow : Flow)
            (fs : List StepMeaning)
            → AreKnownBy known settled flow fs (map level_view levels.now) (map job_view jobs.now)
            → AreSeen known settled flow fs (what_in v) (done_in v)) }
    {
        let table = table_of(alloc, levels)?;
        let grown = grown_of(alloc, levels, jobs)?;
        let places = jobs_of(alloc, jobs)?;
        Ok(Sight {
            table,
            grown,
            jobs: Some(places),
        })
    }

    /// What is known of a place of a step's iteration: a passed fault, a list with its length, or one that still grows, as long as
    /// what is known below it tells. Two look-ups at the most.
    pub(crate) fn seen_at(
        &self,
        alloc: Global,
        step: u32,
        place: &[u32],
    ) -> Result<Option<What>, NoMemory>
        ensures { IfOk result (λ w. option_map what_view w ≡ what_in self.now step place.now) }
    {
        match told_at(alloc, &self.table, step, place)? {
            Some(what) => Ok(Some(what)),
            None => match grown_at(alloc, &self.grown, step, place)? {
                Some(count) => Ok(Some(What::Closed(count))),
                None => Ok(None),
            },
        }
    }

    /// Whether the job at a place is settled. A look-up.
    pub(crate) fn is_settled(
        &self,
        alloc: Global,
        step: u32,
        place: &[u32],
    ) -> Result<bool, NoMemory>
        ensures { IfOk result (λ b. b ≡ done_in self.now step place.now) }
    {
        match &self.jobs {
            Some(jobs) => {
                let key = key_of(alloc, step, place)?;
                Ok(jobs.contains(&key))
            }
            None => Ok(true),
        }
    }
}
