//! What the jobs of a run that is done used.
ghost use Rattle.std.specs.Prelude.{◌≡◌, IfErr, IfOk, map, option_map, true};
ghost use Rattle.tv_model.specs.records.Recorded.{leaves, main_records, marks_of, output_at};
ghost use Rattle.tv_history.specs.Histories.{is_done};
ghost use Rattle.tv_history.specs.Runs.{meant, past_of};
ghost use Rattle.tv_lineage.specs.Kept.{records_of};
ghost use Rattle.tv_lineage.specs.Members.{HaveSame};
ghost use Rattle.tv_lineage.specs.Views.{leaf_view, mark_view};

use crate::board::Board;
use std::alloc::AllocFailed;
use std::marker::{Model, PhantomData};
use tv_gate::Services;
use tv_lineage::{Leaves, Marks, Records};
use tv_run::OpenRun;
use tv_traces::Traces;
use tv_value::{Name, NoMemory, Place};

/// A run that is done, with what each job of its main flow used.
#[derive(Drop)]
pub struct Traced<V: Services> {
    run: OpenRun,
    traces: Traces,
    services: PhantomData<V>,
}

impl<V: Services> Model for Traced<V> {
    ghost use Rattle.tv_history.specs.Runs.{Run};
    ghost use Rattle.tv_history.specs.RunCodes.{coded_run};
    ghost use Rattle.tv_history.specs.contracts.entry.Entry as entry_type;

    ghost Value = { Run };

    ghost coded = { coded_run entry_type.the_row.coded };

    ghost use Rattle.tv_run.specs.Standing.{run_of};
    ghost use Rattle.tv_run.specs.Tracing.{StandsTraced};

    ghost view = { λ t. run_of t.run };

    ghost invariant = { λ t. StandsTraced V.gives t.run t.traces };
}

impl<V: Services> Board<V> {
    /// A run that is done, with what each job of its main flow used: that is worked out here, from
    /// the lists and passed faults that the run kept, and from the plans. Near linear in the jobs of
    /// the main flow, in what their steps bind, and in the lists and passed faults of their
    /// iterations. For want of memory the board is given back as it was: it may be traced again.
    pub fn traced(self) -> Result<Traced<V>, AllocFailed<Board<V>>>
        requires { is_done (past_of self) ≡ true }
        ensures traced { IfOk result (λ t. t ≡ self) }
        ensures back { IfErr result (λ failed. failed.value ≡ self) }
    {
        match self.run.traces() {
            Ok(traces) => {
                let Board { run, services, .. } = self;
                Ok(Traced {
                    run,
                    traces,
                    services,
                })
            }
            Err(NoMemory) => Err(AllocFailed { value: self }),
        }
    }
}

impl<V: Services> Traced<V> {
    /// What each job of the main flow used. Constant.
    pub fn records(&self) -> &Records
        ensures { HaveSame (records_of result.now) (main_records (meant V.gives self.now)) }
    {
        self.traces.records()
    }

    /// What an element of an output used: its mark where it has one, else those of its items, in order. `None` exactly where
    /// there is no such output or nothing stands there. Linear in the place and in the nodes that it looks at.
    pub fn used(&self, port: &Name, place: &Place) -> Result<Option<Marks>, NoMemory>
        ensures { IfOk result (λ o. option_map (map mark_view) o
            ≡ option_map marks_of (output_at (meant V.gives self.now) port.now place.now)) }
    {
        self.run.used(&self.traces, port, place)
    }

    /// The leaves of the outputs, with what each used: outputs in order, then places. Near linear in them.
    pub fn leaves(&self) -> Result<Leaves, NoMemory>
        ensures { IfOk result (λ ls. map leaf_view ls ≡ leaves (meant V.gives self.now)) }
    {
        self.run.leaves(&self.traces)
    }
}
