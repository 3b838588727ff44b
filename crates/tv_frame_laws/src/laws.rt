//! What holds of frames in one pool: each law is the clause of a function that does nothing.
ghost use Rattle.tv_frame_laws.specs.Beside.{GivenUpKeeps, KeepsBeside, OthersCallsKeep, ReadyBeside, RefusalsKeep, ReleasesKeep, RoomsKeep, SameKeeps, StartsKeep};
ghost use Rattle.tv_frame_laws.specs.Theirs.{FirstTheirs, NoneLive, TheirsAfterCall, TheirsAfterGivingUp, TheirsAfterRefusal, TheirsAfterRelease, TheirsAfterStart, TheirsAreOnly};

pub mod nodes;

/// A frame whose region is what it was keeps what it kept, and is ready for what it was ready for.
pub fn beside()
    ensures keeps { KeepsBeside }
    ensures ready { ReadyBeside }
{}

/// The calls of other frames leave its region as it was: their events, their rooms, their start, refused or given up, and their end.
pub fn calls_of_others()
    ensures calls { OthersCallsKeep }
    ensures rooms { RoomsKeep }
    ensures same { SameKeeps }
    ensures starts { StartsKeep }
    ensures refusals { RefusalsKeep }
    ensures given_up { GivenUpKeeps }
    ensures releases { ReleasesKeep }
{}

/// The frames of a pool have all its regions, one each: at first, and after each call.
pub fn theirs()
    ensures first { FirstTheirs }
    ensures called { TheirsAfterCall }
    ensures started { TheirsAfterStart }
    ensures refused { TheirsAfterRefusal }
    ensures given_up { TheirsAfterGivingUp }
    ensures released { TheirsAfterRelease }
    ensures only { TheirsAreOnly }
{}

/// Where no frame is left nothing is live.
pub fn shut()
    ensures { NoneLive }
{}
