//! What holds of the definitions alone: a law is the clause of a function that does nothing.
ghost use Rattle.tv_frame.specs.Stated.{FaultsStandFromStarts, PlacesSplitAtStarts};

/// What stands in a place from where a leaf begins.
pub fn leaf_parts()
    ensures jobs { PlacesSplitAtStarts }
    ensures faults { FaultsStandFromStarts }
{}
