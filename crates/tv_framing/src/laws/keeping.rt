//! What a frame keeps of its instance, in theory: definitions and laws, of which the program runs nothing.
//!
//! A frame knows of its instance what it was told by events, and everything that it keeps is a function of these. Here stands
//! what that is for the matchers of steps (`specs/keeping/Told.antt`), and what has to be so of an event that comes next
//! (`specs/keeping/NextEvents.antt`). The laws that carry a frame from one event to the next are stated over these.
ghost use Rattle.tv_framing.specs.keeping.Stated.{ResultsMayCome, SettlementsMayCome, TakingTellsNothing};

/// Which events may come next in a frame.
pub fn coming()
    ensures results { ResultsMayCome }
    ensures settlements { SettlementsMayCome }
{}

/// What was told stays told where a job is taken.
pub fn taking()
    ensures { TakingTellsNothing }
{}
