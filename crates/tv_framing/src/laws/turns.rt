//! Whose turn it is: the first ready job of an instance in job order.
//!
//! A job is ready where it is known, neither runs nor has a result, and the steps that its step runs after have ended. In job
//! order the jobs of the step of greater rank come first, and within a step the lesser place. So the steps are taken by falling
//! rank, and the first idle job of the first of them that may settle and has one is the answer (`tv_telling`, `specs/Turns.antt`):
//! each step is looked at once, and no job that has gone but those that `tv_idle` still keeps.
ghost use Rattle.tv_framing.specs.turns.Changes.{AreIdleStill, AreIdleWithOneMore, AreIdleWithoutOne, NoneAreIdleAtFirst};
ghost use Rattle.tv_framing.specs.turns.Stated.{FirstInTurnIsFirstReady, OrderIsOfSteps};

/// The first job in turn is the first ready one of a frame.
pub fn first_in_turn()
    ensures first { FirstInTurnIsFirstReady }
    ensures order { OrderIsOfSteps }
{}

/// How idle jobs stay those of a frame.
pub fn idle_changes()
    ensures first { NoneAreIdleAtFirst }
    ensures more { AreIdleWithOneMore }
    ensures fewer { AreIdleWithoutOne }
    ensures other { AreIdleStill }
{}
