use tv_value::{JobName, Name, Place, Sequence};

/// What stands for the origin of a value.
#[derive(Debug, Drop)]
pub enum Mark {
    /// An element of an input of the flow: its port, and its place there.
    Given(Name, Place),
    /// The result of a job.
    Made(JobName),
}

/// A list of marks.
pub type Marks = Sequence<Mark>;

/// What stands for some marks.
#[derive(Debug, Drop)]
pub enum Part {
    /// One mark.
    Single(Mark),
    /// What was shared under that number.
    Group(usize),
}

/// A list of parts.
pub type Parts = Sequence<Part>;

/// Elements of inputs: port and place.
pub type Labels = Sequence<(Name, Place)>;

/// Elements of outputs: port and place.
pub type OutPlaces = Sequence<(Name, Place)>;

/// A leaf of an output, and the marks that it used.
#[derive(Debug, Drop)]
pub struct Leaf {
    pub port: Name,
    pub place: Place,
    pub used: Marks,
}

/// A list of leaves.
pub type Leaves = Sequence<Leaf>;
