//! What a run gives once it is done, and its totals so far.
ghost use Rattle.std.specs.Option.{option_map_or};
ghost use Rattle.std.specs.List.{zip};
ghost use Rattle.std.specs.Prelude.{◌≡◌, IfOk, count_by, false, filter, length, map, true};
ghost use Rattle.tv_value.specs.Views.{view};
ghost use Rattle.tv_flow.specs.Views.{each};
ghost use Rattle.tv_gate.specs.Outcomes.{Giving};
ghost use Rattle.tv_strategy.specs.Origins.{plain};
ghost use Rattle.tv_cell.specs.PieceValues.{piece_value, piece_values};
ghost use Rattle.tv_cell.specs.Soundness.{AreSound};
ghost use Rattle.tv_model.specs.TotalsViews.{totals_view};
ghost use Rattle.tv_pool.specs.Pool.{live_count};
ghost use Rattle.tv_history.specs.Histories.{is_done, is_settled};
ghost use Rattle.tv_history.specs.Calls.{totals_so_far};
ghost use Rattle.tv_history.specs.Counted.{is_acceptance, is_bounce};
ghost use Rattle.tv_history.specs.Runs.{meant, past_of};
ghost use Rattle.tv_run.specs.Standing.{StandsStill, run_of};
ghost use Rattle.tv_run.specs.Tasks.{AreSoundOutputs};
ghost use Rattle.tv_instances.specs.stands.Seats.{is_over};

use crate::run::OpenRun;
use std::alloc::Global;
use tv_cell::{Piece, assemble};
use tv_flow::Feed;
use tv_history::Entry;
use tv_model::Totals;
use tv_seats::Stage;
use tv_value::{Copied, Name, NoMemory, Sequence, Value};

/// A name and a piece for each output of a flow.
pub type Outputs = Sequence<(Name, Piece)>;

/// Copies of pieces, with the names of a flow's outputs.
fn named_pieces(
    alloc: Global,
    names: &[(Name, Feed)],
    pieces: &[Piece],
) -> Result<Outputs, NoMemory>
    requires sound { AreSound pieces.now }
    requires many { length pieces.now ≡ length names.now }
    ensures values { IfOk result (λ os. each piece_value os
        ≡ zip (map (λ n. n.0) names.now) (piece_values pieces.now)) }
    ensures sound { IfOk result AreSoundOutputs }
{
    let mut named = Vec::with_capacity(alloc, pieces.len())?;
    for (index, piece) in pieces.iter().enumerate() {
        let name = names[index].0.copy(alloc)?;
        let copy = piece.copy(alloc)?;
        named.push((name, copy))?;
    }
    Ok(Sequence::of(named))
}

/// The values that the pieces of outputs stand for, by the same names. Linear in them.
pub fn output_values(
    alloc: Global,
    outputs: &[(Name, Piece)],
) -> Result<Sequence<(Name, Value)>, NoMemory>
    requires { AreSoundOutputs outputs.now }
    ensures { IfOk result (λ vs. each view vs ≡ each piece_value outputs.now) }
{
    let mut values = Vec::with_capacity(alloc, outputs.len())?;
    for output in outputs {
        let name = output.0.copy(alloc)?;
        let value = assemble(alloc, &output.1)?;
        values.push((name, value))?;
    }
    Ok(Sequence::of(values))
}

fn is_acceptance(entry: &Entry) -> bool
    ensures { result ≡ is_acceptance entry.now }
{
    match entry {
        Entry::Accepted { .. } => true,
        _ => false,
    }
}

fn is_bounce(entry: &Entry) -> bool
    ensures { result ≡ is_bounce entry.now }
{
    match entry {
        Entry::Bounced { .. } => true,
        _ => false,
    }
}

/// How many outcomes were accepted.
fn count_accepted(entries: &[Entry]) -> usize
    ensures { result ≡ count_by is_acceptance entries.now }
{
    entries.iter().filter(|entry| is_acceptance(entry)).count()
}

/// How many jobs were bounced.
fn count_bounced(entries: &[Entry]) -> usize
    ensures { result ≡ count_by is_bounce entries.now }
{
    entries.iter().filter(|entry| is_bounce(entry)).count()
}

/// Whether a job that stands there is settled.
pub(crate) fn is_settled(stage: Option<Stage>) -> bool
    ensures { result ≡ option_map_or is_over stage false }
{
    match stage {
        Some(Stage::Settled) => true,
        _ => false,
    }
}

impl OpenRun {
    /// The outputs of a run that is done. Linear in their names, and in the pieces of lists; no value is copied.
    pub fn outputs(&self) -> Result<Outputs, NoMemory>
        requires { (gives : Giving) × StandsStill gives self.now
            × (is_done (past_of (run_of self.now)) ≡ true) }
        ensures values { IfOk result (λ os. (gives : Giving) → StandsStill gives self.now
            → is_done (past_of (run_of self.now)) ≡ true
            → each piece_value os
            ≡ map (λ o. (o.0, plain o.1)) (meant gives (run_of self.now)).outputs) }
        ensures sound { IfOk result AreSoundOutputs }
    {
        let plan = self.run.flow(self.run.main());
        match &self.outs {
            Some(ended) => named_pieces(
                self.alloc,
                plan.flow.outputs.as_slice(),
                ended.outs.as_slice(),
            ),
            None => unreachable!(),
        }
    }

    /// How many nodes the open instances keep: none once the run is done. Constant.
    pub fn live(&self) -> u64
        ensures counted { result ≡ live_count self.now.pool.regions }
        ensures done { (gives : Giving) → StandsStill gives self.now
            → is_done (past_of (run_of self.now)) ≡ true → result ≡ 0 }
    {
        self.pool.live()
    }

    /// How many jobs are settled. Linear in the jobs.
    fn count_settled(&self) -> u64
        requires { (gives : Giving) × StandsStill gives self.now }
        ensures { (gives : Giving) → StandsStill gives self.now
            → result ≡ length (filter (is_settled (past_of (run_of self.now)))
            (meant gives (run_of self.now)).jobs) }
    {
        let mut count = 0;
        for job in 0..self.jobs.len() as u64 {
            if is_settled(self.stage_of(job)) {
                count += 1;
            }
        }
        count
    }

    /// The totals of the history so far. Linear in the history and in the jobs.
    pub fn totals(&self) -> Totals
        requires { (gives : Giving) × StandsStill gives self.now }
        ensures { (gives : Giving) → StandsStill gives self.now
            → totals_view result ≡ totals_so_far gives (run_of self.now) }
    {
        let entries = self.entries.as_slice();
        Totals {
            attempts: count_accepted(entries) as u64,
            bounced: count_bounced(entries) as u64,
            failed: self.failed,
            jobs: self.count_settled(),
        }
    }
}
