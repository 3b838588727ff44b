//! That the region of a frame has a node for each output of each job with a result, and no more than
//! its steps' outputs and iterations have: laws, of which the program runs nothing.
//!
//! A frame (`tv_frame`) keeps what it was told of its outputs as trees in the nodes of one region. So
//! each output of each job that has a result has a node of its own there (`tv_outputs`). And each tree is
//! below the value of its output, whatever isn't told yet, so the nodes are no more than the values'.
//!
//! - `specs/nodes/Stated.antt`: the laws
ghost use Rattle.tv_frame_laws.specs.nodes.Stated.{JobsHaveNodes, NodesFitSteps, OutputsHaveNodes};

/// The region of a frame has at least one node for each output of each job that has a result, and
/// at least one for each such job.
pub fn results()
    ensures outputs { OutputsHaveNodes }
    ensures jobs { JobsHaveNodes }
{}

/// And it has no more nodes than the frame's steps have at their outputs and in their iterations,
/// whatever isn't told yet.
pub fn room()
    ensures { NodesFitSteps }
{}
