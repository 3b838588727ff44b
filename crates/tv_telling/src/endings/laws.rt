//! What holds of endings: each law is the clause of a function that does nothing.
ghost use Rattle.tv_telling.specs.endings.FeedLaws.{FeedsTurnWholeOnce};
ghost use Rattle.tv_telling.specs.endings.Stated.{AllEndWhereAllAreWhole};

/// Where no step runs after itself, all steps have ended once all are whole.
pub fn whole_steps_end()
    ensures { AllEndWhereAllAreWhole }
{}

/// When all of a feed comes to be known.
pub fn feeds()
    ensures { FeedsTurnWholeOnce }
{}
