//! What the parts of an engine keep of an open instance is what the theory of one instance says of it: laws, of which the
//! program runs nothing.
//!
//! The parts work by trees of a pool, wires, counters and numbers (`tv_stream`, `tv_check`, `tv_telling`, `tv_telling`), and
//! the theory by events, names and places (`tv_model`, and `specs/` here). Here they are joined:
//! - the partial tree of an output tells which prefixes of an event's place turn whole, and a legal event can be put into it
//!   (`specs/engine/TurningTrees.antt`);
//! - what is told along the wires from the event's step is what the ports are told by their feeds (`specs/engine/AlongWires.antt`);
//! - the steps that have ended by counters are those that have by counting events (`specs/engine/EndedSteps.antt`).
//!
//! Of a flow the last two need what the check of a document sees to (`specs/engine/WiredFlows.antt`).
ghost use Rattle.tv_framing.specs.engine.AlongWires.{EventsTellAsInTheory, FeedsAreWholeByNumbers, WiresTellPorts};
ghost use Rattle.tv_framing.specs.engine.EndedSteps.{AllHaveEndedWhereWhole, EndingsAreByCounting};
ghost use Rattle.tv_framing.specs.engine.TurningTrees.{EventsCanBePut, TreesAreWholeByCounting, TreesTurnWhole};
ghost use Rattle.tv_framing.specs.engine.WiredFlows.{AcceptedFlowsAreWired};

/// What an event makes of the partial trees of its step's outputs.
pub fn turning_trees()
    ensures counted { TreesAreWholeByCounting }
    ensures turning { TreesTurnWhole }
    ensures changes { EventsCanBePut }
{}

/// What ports are told along wires.
pub fn along_wires()
    ensures ways { WiresTellPorts }
    ensures theory { EventsTellAsInTheory }
    ensures feeds { FeedsAreWholeByNumbers }
{}

/// Which steps have ended.
pub fn ended_steps()
    ensures named { EndingsAreByCounting }
    ensures all { AllHaveEndedWhereWhole }
{}

/// What an accepted document's flows have.
pub fn wired_flows()
    ensures { AcceptedFlowsAreWired }
{}
