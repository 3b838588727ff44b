//! What holds of the definitions alone: a law is the clause of a function that does nothing.
ghost use Rattle.tv_spread.specs.Stated.{AllAreTold, FlagsAreTold, ReadyStays, WholesAreLeaves, WiringsAreWired};

/// What is looked up.
pub fn lookups()
    ensures whole { WholesAreLeaves }
    ensures wired { WiringsAreWired }
{}

/// An event that is held, and then shown.
pub fn held_and_shown()
    ensures told { AllAreTold }
    ensures flags { FlagsAreTold }
    ensures ready { ReadyStays }
{}
