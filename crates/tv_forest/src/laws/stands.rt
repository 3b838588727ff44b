//! What is read off the seats of an instance of a run: laws, of which the program runs nothing.
//!
//! Each known job of an open instance has a seat (`tv_seats`), at the stage where its job stands
//! (`laws::seats`). Here stands what the seats tell of the instance: which jobs there are, how many of them
//! run, which go on, and which stands first.
//!
//! - `specs/stands/Seats.antt`: a job by its seat
//! - `specs/stands/Stated.antt`: the laws of seats and jobs, and of how many there are
//! - `specs/stands/Offers.antt`: the laws of what goes on, and of bounces
//! - `specs/stands/States.antt`: the laws of stages
ghost use Rattle.tv_forest.specs.stands.Offers.{BouncesBySeat, GoingBySeat, NextBySeat, OrderBySeats};
ghost use Rattle.tv_forest.specs.stands.Stated.{CountsBySeats, JobsHaveSeats, RunningBySeats, SeatsAreApart, SeatsHaveJobs, StepsOfSeats};
ghost use Rattle.tv_forest.specs.stands.States.{StatesBySeats};

/// Each seat is that of a job of its step, each job of the instance that stands anywhere has a seat, and no
/// two seats are one.
pub fn seats_and_jobs()
    ensures jobs { SeatsHaveJobs }
    ensures seats { JobsHaveSeats }
    ensures apart { SeatsAreApart }
    ensures steps { StepsOfSeats }
{}

/// Jobs of the instance are counted by their seats, and so are those of a step that run.
pub fn counts_by_seats()
    ensures counts { CountsBySeats }
    ensures running { RunningBySeats }
{}

/// Whether a job goes on or can bounce is told by its seat, and whether it has an ask next or a flow.
pub fn going_by_seat()
    ensures going { GoingBySeat }
    ensures next { NextBySeat }
    ensures bounces { BouncesBySeat }
{}

/// Which of two jobs stands behind the other is told by the steps and places of their seats.
pub fn order_by_seats()
    ensures { OrderBySeats }
{}

/// A seat's stage tells where its job stands, and with which try.
pub fn states_by_seats()
    ensures { StatesBySeats }
{}
