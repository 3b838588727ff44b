//! That a run keeps no more results than the pool has nodes, and the pool has no more nodes than the
//! open instances have room: laws, of which the program runs nothing.
//!
//! Each open instance of a run has a frame, which keeps its trees in a region of its own of the one
//! pool (`tv_frame_laws`). The region of a frame has a node for each output of each job with a result
//! (`tv_frame_laws`). So the live regions together have a node for each result that the run keeps. Each live
//! region is a frame's, and has no more nodes than the values at the outputs of its instance's steps and
//! their iterations.
//!
//! - `specs/Stated.antt`: the laws
ghost use Rattle.tv_board.specs.Stated.{NodesHaveRoom, ResultsHaveNodes};

/// While a run goes on, the pool has at least as many nodes as results are kept.
pub fn results()
    ensures { ResultsHaveNodes }
{}

/// And it has no more nodes than the values and iterations of the open instances.
pub fn room()
    ensures { NodesHaveRoom }
{}
