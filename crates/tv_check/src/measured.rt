//! What the check keeps of each flow that it went through.

use tv_value::Depths;

/// The depths of the strategies of a flow's steps, in the order of the steps, and the delivered depths of its outputs.
#[derive(Drop)]
pub struct Measured {
    pub levels: Vec<Option<u32>>,
    pub outputs: Depths,
}
