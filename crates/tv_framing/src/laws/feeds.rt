//! What is told of an instance goes on with each event: laws, of which the program runs nothing.
//!
//! A frame knows its instance by the events that it was told (`laws::keeping`). Here stands what one event more makes of that:
//! - each port of each step is fed as the theory of frames wants it: what its feed delivers are inputs, constants and outputs of
//!   steps that stand before its own, with the depths that the plan says (`specs/feeds/Fed.antt`);
//! - so what the matcher of each step was told, with what is told to it along the wires from the event's step and of the ports
//!   that have all of their feeds now, is what is known of the step's ports; and no step is whole that wasn't so but the event's,
//!   as the counters of steps mark it (`specs/feeds/Stated.antt`);
//! - it is a frame after each event that may come next, and the event can be put into the trees of outputs
//!   (`specs/feeds/Coming.antt`); how the code has them (`specs/feeds/Seen.antt`).
//!
//! All of it is so for every instance of the flow on its inputs, with all results that have what was told.
ghost use Rattle.tv_framing.specs.feeds.Coming.{EventsAreInTrees, NextMakesFrame, TakingMakesFrame, TreesAreWholeWithSteps, TreesGoOn};
ghost use Rattle.tv_framing.specs.feeds.Fed.{PortsAreFed};
ghost use Rattle.tv_framing.specs.feeds.Seen.{EventsAreSeen};
ghost use Rattle.tv_framing.specs.feeds.Stated.{EndingsGoOn, EndingsStart, MarksAreWholeSteps, TakingEndsNothing, ToldGoesOn, UntouchedStayTold, WholeStepsGoOn};

/// How the ports of steps are fed when an event comes.
pub fn feeding()
    ensures { PortsAreFed }
{}

/// What the matchers of steps were told, with an event more.
pub fn telling()
    ensures touched { ToldGoesOn }
    ensures untouched { UntouchedStayTold }
    ensures seen { EventsAreSeen }
{}

/// Which steps are whole, with an event more, and how their counters mark them.
pub fn wholeness()
    ensures steps { WholeStepsGoOn }
    ensures endings { EndingsGoOn }
    ensures start { EndingsStart }
    ensures taking { TakingEndsNothing }
    ensures marks { MarksAreWholeSteps }
{}

/// A frame is one after each event that comes next.
pub fn coming()
    ensures next { NextMakesFrame }
    ensures taking { TakingMakesFrame }
{}

/// What the trees of outputs tell of steps, and that an event can be put into them.
pub fn trees()
    ensures steps { TreesAreWholeWithSteps }
    ensures events { EventsAreInTrees }
    ensures changes { TreesGoOn }
{}
