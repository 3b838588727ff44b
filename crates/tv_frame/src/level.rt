use tv_cell::Path;

/// A list or a passed fault of a step's iteration.
#[derive(Drop)]
pub struct Level {
    /// The number of the step in its flow.
    pub step: u32,
    /// Where it stands in the step's iteration.
    pub place: Path,
    pub what: What,
}

/// What a level is.
#[derive(Clone, Copy, Debug)]
pub enum What {
    /// A list, with its length.
    Closed(u32),
    /// A passed fault, with the number of the leaf that it came from, from left to right.
    Passed(u32),
}
