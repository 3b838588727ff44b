//! Outcomes judged, with no run at hand.
ghost use Rattle.std.specs.Prelude.{◌≡◌, IfOk, Ok, is_ok, map, true};
ghost use Rattle.tv_cell.specs.PieceValues.{piece_values};
ghost use Rattle.tv_cell.specs.Soundness.{AreSound};
ghost use Rattle.tv_gate.specs.Views.{outcome_view};
ghost use Rattle.tv_dispatch.specs.Jobs.{judged};
ghost use Rattle.tv_run.specs.Judging.{is_sound_judged, judged_view};

use crate::value_pieces;
use std::alloc::Global;
use tv_cell::Pieces;
use tv_dispatch::{Verdict, judge};
use tv_gate::Outcome;
use tv_value::{Depths, NoMemory, Text};

/// What an outcome comes to.
#[derive(Drop)]
pub enum Judgment {
    /// It is right, and these stand for its values.
    Right(Pieces),
    /// It isn't, for this reason.
    Wrong(Text),
}

/// Judges an outcome by the declared depths of the outputs, and puts the values of a right one into cells as they are. Linear in the
/// outcome's size at the most.
pub fn judged_in_cells(
    alloc: Global,
    outputs: &Depths,
    outcome: Outcome,
) -> Result<Judgment, NoMemory>
    ensures sound { IfOk result (λ j. is_sound_judged j ≡ true) }
    ensures judged { IfOk result (λ j. judged_view j
        ≡ judged (map (λ o. o.1) outputs.now) (outcome_view outcome)) }
{
    match judge(alloc, outputs, &outcome)? {
        Verdict::Right => Ok(Judgment::Right(right_pieces(alloc, outputs, outcome)?)),
        Verdict::Wrong(why) => Ok(Judgment::Wrong(why)),
    }
}

/// Pieces for the values of an outcome that is right for these outputs.
fn right_pieces(alloc: Global, outputs: &Depths, outcome: Outcome) -> Result<Pieces, NoMemory>
    requires { is_ok (judged (map (λ o. o.1) outputs.now) (outcome_view outcome)) ≡ true }
    ensures sound { IfOk result AreSound }
    ensures values { IfOk result (λ ps. judged (map (λ o. o.1) outputs.now) (outcome_view outcome)
        ≡ Ok (piece_values ps)) }
{
    match outcome {
        Outcome::Good(values) => value_pieces(alloc, values),
        Outcome::Bad(_) => unreachable!(),
    }
}
