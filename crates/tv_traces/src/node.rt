use tv_cell::Row;
use tv_lineage::{Marks, Part};

/// What stands at a node of a step's iteration, as far as it tells what was used.
#[derive(Drop)]
pub(crate) enum Node {
    /// A job.
    Job,
    /// A passed fault, with its mark, if it has one.
    Passed(Marks),
    /// A list: what stands for all its items, and the items.
    List(Part, Row<Node>),
}
