//! The seats of an instance that has ended.
ghost use Rattle.std.specs.Prelude.{◌≡◌, ◌<◌, Some, length, option_map, slice_get};
ghost use Rattle.tv_seats.specs.Seats.{step_at};

use crate::stage::Stage;
use crate::table::Table;
use std::marker::Model;

/// What is kept of them.
#[derive(Drop)]
pub(crate) enum Kept {
    /// The one seat, whose place has no index.
    One { step: u32, stage: Stage },
    Many(Table),
}

/// The seats by number of an instance that has ended. A contract sees what it sees of a table. One seat whose place has no index
/// stands here without memory.
#[derive(Drop)]
pub struct Past {
    pub(crate) kept: Kept,
}

impl Model for Past {
    ghost use Rattle.tv_seats.specs.Tables.{Rows};
    ghost use Rattle.tv_seats.specs.Pasts.{kept_view};

    ghost Value = { Rows };

    ghost view = { λ p. kept_view p.kept };
}

impl Past {
    /// The number of the seat's step.
    pub fn step(&self, at: usize) -> u32
        requires { at < length self.now.seats }
        ensures { result ≡ step_at self.now.seats at }
    {
        match &self.kept {
            Kept::One { step, .. } => *step,
            Kept::Many(table) => table.step(at),
        }
    }

    /// Its place.
    pub fn place(&self, at: usize) -> &[u32]
        requires { at < length self.now.seats }
        ensures { Some result.now ≡ option_map (λ s. s.place) (slice_get self.now.seats at) }
    {
        match &self.kept {
            Kept::One { .. } => &[],
            Kept::Many(table) => table.place(at),
        }
    }
}
