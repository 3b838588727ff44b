//! What is left of the main instance once it has ended.
use tv_cell::Pieces;
use tv_frame::Level;

/// What an instance gives that has ended, and what tells what its values were made of.
#[derive(Drop)]
pub(crate) struct Ended {
    // The flow's outputs.
    pub(crate) outs: Pieces,
    // Its lists and passed faults.
    pub(crate) levels: Vec<Level>,
}
