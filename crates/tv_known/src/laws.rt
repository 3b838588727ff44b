//! What holds of every board: each law is the clause of a function that does nothing. A board's type keeps `StandsStill` of its run.
ghost use Rattle.tv_known.specs.Once.{BoardsAcceptOnce, HistoriesAcceptOnce};
ghost use Rattle.tv_known.specs.Stated.{FlowOutputsHaveTheirValues, FramesAreOfOpenInstances, KnownFlowOutputsAreBelow, KnownFlowOutputsAreExact, KnownOutputsAreBelow, KnownOutputsAreExact, KnownPortsAreBelow, KnownPortsAreExact, OpenInstancesHaveFrames};
ghost use Rattle.tv_known.specs.Worked.{AcceptsEach, AcceptsNoneTwice, MeansAtOutput, MeansInside, MeansNothing, MeansTheSame, MeansWhatItsJobGives};

/// Each open instance has a frame, and no other has one.
pub fn frames()
    ensures have { OpenInstancesHaveFrames }
    ensures only { FramesAreOfOpenInstances }
{}

/// What is known so far is below what the document means: of each output of a step, of what has come to each port, and of each
/// output of the flow, in every open instance.
pub fn known()
    ensures outputs { KnownOutputsAreBelow }
    ensures ports { KnownPortsAreBelow }
    ensures flow_outputs { KnownFlowOutputsAreBelow }
{}

/// And it is all that is known after the history, at the outputs of steps, at their ports and at the outputs of the flow: the trees
/// show these nodes and no others. They are whole where all are known, and then they are the values.
pub fn exact()
    ensures outputs { KnownOutputsAreExact }
    ensures ports { KnownPortsAreExact }
    ensures flow_outputs { KnownFlowOutputsAreExact }
    ensures flow_values { FlowOutputsHaveTheirValues }
{}

/// No two accepted entries of a legal history are of one job, activity and attempt, and so it is in every board's history: wherever a
/// contract says of a board that it is an `IsLegalRun`, each try was accepted at most once.
pub fn once()
    ensures histories { HistoriesAcceptOnce }
    ensures boards { BoardsAcceptOnce }
{}

/// Worked examples of what is meant, and of what is accepted once.
pub fn worked()
    ensures same { MeansTheSame }
    ensures at_output { MeansAtOutput }
    ensures nothing { MeansNothing }
    ensures given { MeansWhatItsJobGives }
    ensures inside { MeansInside }
    ensures each { AcceptsEach }
    ensures none_twice { AcceptsNoneTwice }
{}
