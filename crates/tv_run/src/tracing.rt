//! What was made of what: of a run that is done all of it, and of one that goes on what its settled jobs used.
ghost use Rattle.std.specs.Prelude.{◌≡◌, IfOk, map, option_map, true};
ghost use Rattle.tv_gate.specs.Outcomes.{Giving};
ghost use Rattle.tv_model.specs.records.Recorded.{leaves, marks_of, output_at};
ghost use Rattle.tv_history.specs.Histories.{is_done};
ghost use Rattle.tv_history.specs.Runs.{meant, past_of};
ghost use Rattle.tv_lineage.specs.Kept.{records_of};
ghost use Rattle.tv_lineage.specs.Members.{HaveSame};
ghost use Rattle.tv_lineage.specs.Views.{leaf_view, mark_view};
ghost use Rattle.tv_traces.specs.Settled.{settled_records};
ghost use Rattle.tv_run.specs.Standing.{StandsStill, run_of};
ghost use Rattle.tv_run.specs.Tracing.{IsTracedBy, settled_spots};
ghost use Rattle.tv_traces.specs.Sights.{job_view};

use crate::outputs::is_settled;
use crate::run::OpenRun;
use std::alloc::Global;
use tv_cell::Path;
use tv_instances::Open;
use tv_lineage::{Leaves, Marks, Records};
use tv_traces::{SettledJob, Traces};
use tv_value::{Name, NoMemory, Place};

/// The settled jobs of an open instance. Linear in the jobs that it knows.
fn settled_jobs(alloc: Global, open: &Open) -> Result<Vec<SettledJob>, NoMemory>
    ensures { IfOk result (λ js. map job_view js.items ≡ settled_spots open.now.seats.seats) }
{
    let mut jobs = Vec::new(alloc);
    for number in 0..open.known() {
        if is_settled(open.stage(number)) {
            let step = open.step(number);
            let place = Path::of(alloc, open.place(number))?;
            jobs.push(SettledJob { step, place })?;
        }
    }
    Ok(jobs)
}

impl OpenRun {
    /// What each settled job of the main flow used, as far as the run has come: worked out from the lists and passed faults of the
    /// main instance so far. Costs what `Traces::start` does.
    pub fn records(&self) -> Result<Records, NoMemory>
        requires { (gives : Giving) × StandsStill gives self.now }
        ensures { (gives : Giving) → StandsStill gives self.now
            → IfOk result (λ rs. HaveSame (records_of rs)
            (settled_records (past_of (run_of self.now)) (meant gives (run_of self.now)))) }
    {
        let plan = self.run.flow(self.run.main());
        match &self.outs {
            Some(ended) => {
                let traces = Traces::start(self.alloc, plan, ended.levels.as_slice())?;
                Ok(traces.into_records())
            }
            None => {
                let open = self.opened(0);
                let jobs = settled_jobs(self.alloc, open)?;
                Traces::so_far(self.alloc, plan, open.levels(), jobs.as_slice())
            }
        }
    }

    /// What each job of the main flow used, of a run that is done: worked out from the lists and passed faults of the main
    /// instance. Costs what `Traces::start` does.
    pub fn traces(&self) -> Result<Traces, NoMemory>
        requires { (gives : Giving) × StandsStill gives self.now
            × (is_done (past_of (run_of self.now)) ≡ true) }
        ensures { (gives : Giving) → StandsStill gives self.now
            → is_done (past_of (run_of self.now)) ≡ true
            → IfOk result (IsTracedBy gives self.now) }
    {
        let plan = self.run.flow(self.run.main());
        match &self.outs {
            Some(ended) => Traces::start(self.alloc, plan, ended.levels.as_slice()),
            None => unreachable!(),
        }
    }

    /// What an element of an output used; `None` where there is no such output or nothing stands there.
    pub fn used(
        &self,
        traces: &Traces,
        port: &Name,
        place: &Place,
    ) -> Result<Option<Marks>, NoMemory>
        requires { (gives : Giving) × StandsStill gives self.now
            × (is_done (past_of (run_of self.now)) ≡ true) }
        ensures { (gives : Giving) → StandsStill gives self.now
            → is_done (past_of (run_of self.now)) ≡ true
            → IsTracedBy gives self.now traces.now → IfOk result (λ o. option_map (map mark_view) o
            ≡ option_map marks_of (output_at (meant gives (run_of self.now)) port.now place.now)) }
    {
        let plan = self.run.flow(self.run.main());
        match &self.outs {
            Some(ended) => traces.used(self.alloc, plan, ended.outs.as_slice(), port, place),
            None => unreachable!(),
        }
    }

    /// The leaves of the outputs, with what each used: outputs in order, then places.
    pub fn leaves(&self, traces: &Traces) -> Result<Leaves, NoMemory>
        requires { (gives : Giving) × StandsStill gives self.now
            × (is_done (past_of (run_of self.now)) ≡ true) }
        ensures { (gives : Giving) → StandsStill gives self.now
            → is_done (past_of (run_of self.now)) ≡ true
            → IsTracedBy gives self.now traces.now
            → IfOk result (λ ls. map leaf_view ls ≡ leaves (meant gives (run_of self.now))) }
    {
        let plan = self.run.flow(self.run.main());
        match &self.outs {
            Some(ended) => traces.leaves(self.alloc, plan, ended.outs.as_slice()),
            None => unreachable!(),
        }
    }
}
