//! What is asked.
ghost use Rattle.tv_cell.specs.Soundness.{AreSound};

use tv_cell::Pieces;
use tv_history::Ticket;
use tv_value::{Depths, Name};

/// What is asked for a ticket.
#[derive(Drop)]
pub struct Task {
    pub ticket: Ticket,
    pub service: Name,
    /// What the job binds, in byte order of the ports.
    pub inputs: Pieces,
    /// The step's outputs with their declared depths, in byte order.
    pub outputs: Depths,
    pub ghost sound: { AreSound inputs },
}
