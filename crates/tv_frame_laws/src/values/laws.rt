//! What holds of kept frames: a law is the clause of a function that does nothing.
ghost use Rattle.tv_frame_laws.specs.values.Exact.{FlowOutputsAreExact, OutputsAreExact, PortsAreExact};
ghost use Rattle.tv_frame_laws.specs.values.Stated.{FlowOutputsAreBelow, OutputsAreBelow, PortsAreBelow};
ghost use Rattle.tv_frame_laws.specs.values.Worked.{TakesInputs, TakesMerges, TakesOutputs};

/// What a frame knows of an output of a step, of a port or of an output of the flow is so of its
/// value, whatever isn't told yet: it is below what the output delivers, what the step takes at the
/// port, what the flow's output is fed.
pub fn kept()
    ensures outputs { OutputsAreBelow }
    ensures ports { PortsAreBelow }
    ensures flow_outputs { FlowOutputsAreBelow }
{}

/// And it is all that is known: the tree shows each node of the value that is known, and no other.
/// It is whole where all nodes are known, and then it is the value.
pub fn exact()
    ensures outputs { OutputsAreExact }
    ensures ports { PortsAreExact }
    ensures flow_outputs { FlowOutputsAreExact }
{}

/// Worked examples.
pub fn worked()
    ensures outputs { TakesOutputs }
    ensures inputs { TakesInputs }
    ensures merges { TakesMerges }
{}
