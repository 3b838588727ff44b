/// What stands at a place.
#[derive(Clone, Copy, Debug, PartialEq, Eq)]
pub enum Kind {
    /// A job, and whether a value that it binds holds a fault.
    Job { faulty: bool },
    /// A list, with its length.
    Closed(u32),
    /// A passed fault, with the number of the leaf that it came from.
    Passed(u32),
}
