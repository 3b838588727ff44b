//! What holds of every matcher: each law is the clause of a function that does nothing.
ghost use Rattle.tv_match.specs.Stated.{SoundIsMatching, GivesOnlyKnown, GivesOnce, GivesAllKnown, MoreIsLeft, OrderIsKnown, AllAtTheEnd, AddedIsBehind};

/// What a contract sees of a matcher is true of it, so the laws of `tv_matching` speak of every matcher.
pub fn matchers()
    ensures { SoundIsMatching }
{}

/// What has come out are ends, lists and passed faults whose sources were told, each once, of the iteration of all delivered
/// values of which what was told is true; and nothing follows exactly where all of these have come out.
pub fn what_has_come_out()
    ensures known { GivesOnlyKnown }
    ensures once { GivesOnce }
    ensures all { GivesAllKnown }
    ensures more { MoreIsLeft }
    ensures order { OrderIsKnown }
    ensures end { AllAtTheEnd }
{}

/// What a telling adds (`tv_matching`, `specs/Told.antt`) comes out behind all that followed before it, and nothing else is
/// new, where what followed before stays in front, as each call says.
pub fn what_a_telling_adds()
    ensures { AddedIsBehind }
{}
